//! `ptpm make`: a request that the words of a command line ask for, in octets.

ghost use Rattle.std.specs.Prelude.{◌≡◌, ◌≢◌, ◌++◌, Err, IfErr, IfOk, OnOk, false, flat_map, map};
ghost use Rattle.ptpm_commands.specs.Faults.{is_outside};
ghost use Rattle.ptpm_commands.specs.RequestWords.{IsMade, IsMadeOf, action_and_id, asked, asked_with, request_of, words_of_member};
ghost use Rattle.ptpm_codec.specs.Message.{IsRequestAction, IsValid};

use crate::faults::Fault;
use arrayvec::ArrayVec;
use ptpm_codec::{Action, Draft, DraftBody, encode, is_data_field};
use ptpm_members::{id_of, parse, port_identity_of};
use ptpm_text::{Hexadecimal, action_named};
use std::alloc::{AllocError, Global};
use std::io::Write;

/// The words of a request.
#[derive(Clone, Copy, Debug)]
pub struct RequestWords<'a> {
    /// `get`, `set` or `command`.
    pub action: &'a str,
    /// A name of the table of management ids in either case, or four hexadecimal digits, also after `0x`.
    pub id: &'a str,
    /// The dataField in hexadecimal.
    pub value: &'a str,
    /// sourcePortIdentity: a clockIdentity as ptpm or as pmc prints it, a slash or a hyphen, and a port number.
    pub from: &'a str,
    /// targetPortIdentity, written likewise.
    pub to: &'a str,
    /// sequenceId.
    pub number: u16,
    /// startingBoundaryHops and boundaryHops.
    pub hops: u8,
    /// domainNumber.
    pub domain: u8,
}

/// Prints the canonical spelling of the request in hexadecimal. The words are judged in this order: action (BadAction),
/// id (BadId), value (BadHex, then BadValue), identities (BadIdentity). Whether the id permits the action, and whether the
/// value is in its range, is not judged.
pub fn make<O: Write>(alloc: Global, words: &RequestWords<'_>, out: &mut O) -> Result<(), Fault>
    ensures made { OnOk result (IsMade words.now (O.contents out.old) (O.contents out.new)) }
    ensures fault { IfErr result (λ e. is_outside e ≡ false → asked words.now ≡ Err e) }
    ensures unprinted { IfErr result (λ e. e ≢ Fault.WriteFault → O.contents out.new ≡ O.contents out.old) }
{
    let (action, id) = action_and_id(words)?;
    let octets = hex::decode(alloc, words.value)?;
    print_request(words, action, id, octets.as_slice(), out)
}

/// Prints the canonical spelling of the request whose dataField has these members. Each is its name in the standard, `=` and its
/// value, in the order in which `ptpm show --members` prints them. The name of a sole member and its `=` may be left out. The
/// value among the words plays no part. The words are judged in the order of `make`, with the members (BadMembers) in place of
/// the value.
pub fn make_with_members<O: Write>(
    alloc: Global,
    words: &RequestWords<'_>,
    members: &[&str],
    out: &mut O,
) -> Result<(), Fault>
    ensures made { OnOk result (IsMadeOf (asked_with words.now (map (λ m. m.now) members.now)) (O.contents out.old) (O.contents out.new)) }
    ensures fault { IfErr result (λ e. is_outside e ≡ false → asked_with words.now (map (λ m. m.now) members.now) ≡ Err e) }
    ensures unprinted { IfErr result (λ e. e ≢ Fault.WriteFault → O.contents out.new ≡ O.contents out.old) }
{
    let (action, id) = action_and_id(words)?;
    let said = words_of_members(alloc, members)?;
    let field = parse(id, said.as_slice())?;
    print_request(words, action, id, field.as_slice(), out)
}

/// The action and the id of the words.
fn action_and_id(words: &RequestWords<'_>) -> Result<(Action, u16), Fault>
    ensures value { result ≡ action_and_id words.now }
    ensures action { IfOk result (λ r. IsRequestAction r.0) }
{
    let action = action_named(words.action).ok_or(Fault::BadAction)?;
    let id = id_of(words.id.as_bytes()).ok_or(Fault::BadId)?;
    Ok((action, id))
}

/// The names and values of members, one after another.
fn words_of_members<'a>(alloc: Global, members: &[&'a str]) -> Result<Vec<&'a str>, AllocError>
    ensures { IfOk result (λ v. map (λ w. w.now) v.items ≡ flat_map words_of_member (map (λ m. m.now) members.now)) }
{
    let mut words = Vec::new(alloc);
    for member in members {
        push_words(*member, &mut words)?;
    }
    Ok(words)
}

/// Appends a member's name and its value, or only the value if there is no `=`.
#[tactic(auto, unfolding(crate::specs::RequestWords::words_of_member))]
fn push_words<'a>(member: &'a str, words: &mut Vec<&'a str>) -> Result<(), AllocError>
    ensures { OnOk result (map (λ w. w.now) words.new.items ≡ map (λ w. w.now) words.old.items ++ words_of_member member.now) }
{
    match member.split_once('=') {
        Some((name, value)) => {
            words.push(name)?;
            words.push(value)?;
        }
        None => words.push(member)?,
    }
    Ok(())
}

/// Prints the canonical spelling of the request of an action, an id and a dataField.
fn print_request<O: Write>(
    words: &RequestWords<'_>,
    action: Action,
    id: u16,
    octets: &[u8],
    out: &mut O,
) -> Result<(), Fault>
    requires { IsRequestAction action }
    ensures made { OnOk result (IsMadeOf (request_of words.now action id octets.now) (O.contents out.old) (O.contents out.new)) }
    ensures fault { IfErr result (λ e. is_outside e ≡ false → request_of words.now action id octets.now ≡ Err e) }
    ensures unprinted { IfErr result (λ e. e ≢ Fault.WriteFault → O.contents out.new ≡ O.contents out.old) }
{
    let request = request_of(words, action, id, octets)?;
    let mut buffer = ArrayVec::new();
    encode(&request, &mut buffer);
    writeln!(out, "{}", Hexadecimal(buffer.as_slice()))?;
    Ok(())
}

/// The request of an action, an id and a dataField that were read.
fn request_of<'a>(
    words: &RequestWords<'_>,
    action: Action,
    id: u16,
    octets: &'a [u8],
) -> Result<Draft<'a>, Fault>
    requires { IsRequestAction action }
    ensures request { result ≡ request_of words.now action id octets.now }
    ensures valid { IfOk result (λ request. IsValid request) }
{
    if !is_data_field(octets) {
        return Err(Fault::BadValue);
    }
    let source = port_identity_of(words.from).ok_or(Fault::BadIdentity)?;
    let target = port_identity_of(words.to).ok_or(Fault::BadIdentity)?;
    Ok(Draft {
        sdo: 0,
        domain: words.domain,
        source,
        number: words.number,
        target,
        starting_hops: words.hops,
        hops: words.hops,
        body: DraftBody::Request { action, id, octets },
    })
}
