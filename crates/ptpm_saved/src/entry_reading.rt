//! Reads the entries of a clock's image, from the first octets on.

ghost use Rattle.std.specs.Prelude.{◌≡◌, ◌<◌, ◌≤◌, ◌^◌, ◌∷◌, ◌++◌, ℕ, All, IfSome, IsSomeAnd, List, Option, Some, length};
ghost use Rattle.byteorder.specs.Endian.{big_bytes};
ghost use Rattle.ptpm_codec.specs.declared.message.Action.{Action};
ghost use Rattle.ptpm_codec.specs.declared.identity.PortIdentity.{PortIdentity};
ghost use Rattle.ptpm_codec.specs.Canonical.{port_identity_octets};
ghost use Rattle.ptpm_codec.specs.Message.{IsRequestAction, PortIdentityFits, action_code};
ghost use Rattle.ptpm_data.specs.Reply.{Answer, Outcome, ReplyValue, answer_of, outcome_of};
ghost use Rattle.ptpm_data.specs.Request.{RequestValue};
ghost use Rattle.ptpm_manager.specs.Image.{request_image};
ghost use Rattle.ptpm_table.specs.Entries.{Entry, reply_with};
ghost use Rattle.ptpm_table.specs.Lending.{AnswerFits, IsKeepable};
ghost use Rattle.ptpm_saved.specs.Image.{EntryIsSound, reply_image, answer_image, answers_image, entry_image, outcome_image, port_octets};
ghost use Rattle.ptpm_saved.specs.EntryReading.{IsOfPort, RequestFits, IsSmall, entry_read};

use crate::answer_room::AnswerRoom;
use crate::keepable::{fit_answers, fits_count, is_of_port};
use ptpm_codec::{Action, ErrorId, PortIdentity, clock_identity_at, is_data_field, put};
use ptpm_data::{PortAnswer, Request, Value, What};

/// An entry without its reply.
#[derive(Drop)]
pub(crate) struct SavedRequest<'a> {
    pub(crate) manager: PortIdentity,
    pub(crate) number: u16,
    pub(crate) request: Request<'a>,
}

/// Reads the entry whose image the octets begin with. Answers it and the octets after its image, and leaves the answers of its
/// reply in `room`. `None` if the octets do not begin with the image of an entry, or if the room is for fewer answers. Then any
/// answers may be left there.
#[tactic(auto, using(crate::proofs::ReadingLemmas::entry_parts))]
pub(crate) fn read_entry<'a>(
    octets: &'a [u8],
    room: &mut AnswerRoom,
) -> Option<(SavedRequest<'a>, &'a [u8])>
    ensures sound { IfSome result
        (λ p. octets.now ≡ entry_image (entry_read p.0 room.new.answers) ++ p.1.now) }
    ensures keepable { IfSome result
        (λ p. EntryIsSound room.old.most (entry_read p.0 room.new.answers)) }
    ensures found { (e : PortIdentity × Entry) (rest : List ℕ) → EntryIsSound room.old.most e
        → octets.now ≡ entry_image e ++ rest
        → IsSomeAnd result (λ p. (entry_read p.0 room.new.answers ≡ e) × (p.1.now ≡ rest)) }
    ensures most { room.new.most ≡ room.old.most }
{
    let (manager, octets) = read_identity(octets)?;
    let (number, octets) = read_u16(octets)?;
    let (request, octets) = read_request(octets)?;
    let octets = read_reply(&request, octets, room)?;
    let entry = SavedRequest {
        manager,
        number,
        request,
    };
    Some((entry, octets))
}

/// Reads the reply to a request, by its answers. Answers the octets after them.
fn read_reply<'a>(
    request: &Request<'_>,
    octets: &'a [u8],
    room: &mut AnswerRoom,
) -> Option<&'a [u8]>
    requires { IsRequestAction request.now.action }
    ensures sound { IfSome result
        (λ rest. octets.now ≡ reply_image (reply_with request.now room.new.answers) ++ rest.now) }
    ensures keepable { (n : ℕ) → IfSome result
        (λ _. IsKeepable (record { number = n; request = request.now; reply = reply_with request.now room.new.answers })) }
    ensures fits { IfSome result (λ _. All AnswerFits room.new.answers) }
    ensures few { IfSome result (λ _. length room.new.answers ≤ room.old.most) }
    ensures found { (n : ℕ) (r : ReplyValue) (rest : List ℕ)
        → IsKeepable (record { number = n; request = request.now; reply = r })
        → All AnswerFits r.answers
        → length r.answers ≤ room.old.most
        → octets.now ≡ reply_image r ++ rest
        → IsSomeAnd result (λ p. (reply_with request.now room.new.answers ≡ r) × (p.now ≡ rest)) }
    ensures most { room.new.most ≡ room.old.most }
{
    let of_port = is_of_port(request.id);
    let (count, octets) = octets.split_first()?;
    let count = *count as usize;
    if !is_data_field(request.octets) || !fits_count(of_port, count) || room.most() < count {
        return None;
    }
    let octets = read_answers(count, of_port, octets, room)?;
    if !fit_answers(of_port, request.action, room.as_slice()) {
        return None;
    }
    Some(octets)
}

/// Reads this many answers in place of those in the room. Answers the octets after them.
fn read_answers<'a>(
    count: usize,
    of_port: bool,
    octets: &'a [u8],
    room: &mut AnswerRoom,
) -> Option<&'a [u8]>
    requires { count ≤ room.old.most }
    ensures count { IfSome result (λ rest. length room.new.answers ≡ count) }
    ensures sound { IfSome result
        (λ rest. octets.now ≡ answers_image room.new.answers ++ rest.now) }
    ensures fits { IfSome result (λ _. All AnswerFits room.new.answers) }
    ensures found { (xs : List Answer) (rest : List ℕ) → length xs ≡ count
        → All (IsOfPort of_port) xs → All AnswerFits xs → All IsSmall xs
        → octets.now ≡ answers_image xs ++ rest
        → IsSomeAnd result (λ r. (room.new.answers ≡ xs) × (r.now ≡ rest)) }
    ensures most { room.new.most ≡ room.old.most }
{
    room.clear();
    let mut octets = octets;
    for _place in 0..count {
        let (answer, rest) = read_answer(of_port, octets)?;
        room.push(answer);
        octets = rest;
    }
    Some(octets)
}

#[tactic(auto, unfolding(crate::specs::Image::answer_image))]
fn read_answer(of_port: bool, octets: &[u8]) -> Option<(PortAnswer, &[u8])>
    ensures sound { IfSome result (λ p. octets.now ≡ answer_image (answer_of p.0) ++ p.1.now) }
    ensures fits { IfSome result (λ p. AnswerFits (answer_of p.0)) }
    ensures found { (a : Answer) (rest : List ℕ) → IsOfPort of_port a → AnswerFits a → IsSmall a
        → octets.now ≡ answer_image a ++ rest
        → IsSomeAnd result (λ p. (answer_of p.0 ≡ a) × (p.1.now ≡ rest)) }
{
    let (port, octets) = read_port(of_port, octets)?;
    let (what, octets) = read_what(octets)?;
    Some((PortAnswer { port, what }, octets))
}

fn read_port(of_port: bool, octets: &[u8]) -> Option<(Option<u16>, &[u8])>
    ensures sound { IfSome result (λ p. octets.now ≡ port_octets p.0 ++ p.1.now) }
    ensures fits { IfSome result (λ p. (n : ℕ) → p.0 ≡ Some n → n < 2 ^ 16) }
    ensures found { (a : Answer) (rest : List ℕ) → IsOfPort of_port a → AnswerFits a
        → octets.now ≡ port_octets a.port ++ rest
        → IsSomeAnd result (λ p. (p.0 ≡ a.port) × (p.1.now ≡ rest)) }
{
    if !of_port {
        return Some((None, octets));
    }
    let (port, octets) = read_u16(octets)?;
    Some((Some(port), octets))
}

fn read_what(octets: &[u8]) -> Option<(What, &[u8])>
    ensures sound { IfSome result (λ p. octets.now ≡ outcome_image (outcome_of p.0) ++ p.1.now) }
    ensures found { (o : Outcome) (rest : List ℕ) → length (outcome_image o) ≤ 132
        → octets.now ≡ outcome_image o ++ rest
        → IsSomeAnd result (λ p. (outcome_of p.0 ≡ o) × (p.1.now ≡ rest)) }
{
    let (tag, octets) = octets.split_first()?;
    match *tag {
        0 => read_value(octets),
        1 => Some((What::Done, octets)),
        2 => read_refusal(octets),
        _ => None,
    }
}

/// A dataField, after its size.
fn read_value(octets: &[u8]) -> Option<(What, &[u8])>
    ensures sound { IfSome result
        (λ p. 0 ∷ octets.now ≡ outcome_image (outcome_of p.0) ++ p.1.now) }
    ensures found { (o : Outcome) (rest : List ℕ) → length (outcome_image o) ≤ 132
        → 0 ∷ octets.now ≡ outcome_image o ++ rest
        → IsSomeAnd result (λ p. (outcome_of p.0 ≡ o) × (p.1.now ≡ rest)) }
{
    let (size, octets) = octets.split_first()?;
    let (octets, rest) = octets.split_at_checked(*size as usize)?;
    if 130 < octets.len() {
        return None;
    }
    let mut value = Value::new();
    put(&mut value, octets);
    Some((What::Value(value), rest))
}

/// A refusal, by its managementErrorId.
fn read_refusal(octets: &[u8]) -> Option<(What, &[u8])>
    ensures sound { IfSome result
        (λ p. 2 ∷ octets.now ≡ outcome_image (outcome_of p.0) ++ p.1.now) }
    ensures found { (o : Outcome) (rest : List ℕ) → 2 ∷ octets.now ≡ outcome_image o ++ rest
        → IsSomeAnd result (λ p. (outcome_of p.0 ≡ o) × (p.1.now ≡ rest)) }
{
    let (number, rest) = read_u16(octets)?;
    let error = ErrorId::from_number(number)?;
    Some((What::Refused(error), rest))
}

#[tactic(auto, unfolding(ptpm_manager::specs::Image::request_image))]
fn read_request(octets: &[u8]) -> Option<(Request<'_>, &[u8])>
    ensures sound { IfSome result (λ p. octets.now ≡ request_image p.0 ++ p.1.now) }
    ensures asks { IfSome result (λ p. IsRequestAction p.0.action) }
    ensures fits { IfSome result (λ p. RequestFits p.0) }
    ensures found { (q : RequestValue) (rest : List ℕ) → IsRequestAction q.action → RequestFits q
        → octets.now ≡ request_image q ++ rest
        → IsSomeAnd result (λ p. (p.0 ≡ q) × (p.1.now ≡ rest)) }
{
    let (code, octets) = octets.split_first()?;
    let action = request_action(*code)?;
    let (id, octets) = read_u16(octets)?;
    let (port, octets) = read_u16(octets)?;
    let (size, octets) = read_u16(octets)?;
    let (octets, rest) = octets.split_at_checked(size as usize)?;
    let request = Request {
        action,
        id,
        port,
        octets,
    };
    Some((request, rest))
}

/// The action of a request, by its code.
fn request_action(code: u8) -> Option<Action>
    ensures sound { IfSome result (λ a. action_code a ≡ code) }
    ensures asks { IfSome result (λ a. IsRequestAction a) }
    ensures found { (a : Action) → IsRequestAction a → action_code a ≡ code → result ≡ Some a }
{
    match code {
        0 => Some(Action::Get),
        1 => Some(Action::Set),
        3 => Some(Action::Command),
        _ => None,
    }
}

#[tactic(auto, unfolding(ptpm_codec::specs::Canonical::port_identity_octets))]
fn read_identity(octets: &[u8]) -> Option<(PortIdentity, &[u8])>
    ensures sound { IfSome result (λ p. octets.now ≡ port_identity_octets p.0 ++ p.1.now) }
    ensures fits { IfSome result (λ p. PortIdentityFits p.0) }
    ensures found { (who : PortIdentity) (rest : List ℕ) → PortIdentityFits who
        → octets.now ≡ port_identity_octets who ++ rest
        → IsSomeAnd result (λ p. (p.0 ≡ who) × (p.1.now ≡ rest)) }
{
    let (clock, octets) = octets.split_at_checked(8)?;
    let (port, octets) = read_u16(octets)?;
    let clock = clock_identity_at(clock, 0);
    Some((PortIdentity { clock, port }, octets))
}

/// A number of two octets.
pub(crate) fn read_u16(octets: &[u8]) -> Option<(u16, &[u8])>
    ensures sound { IfSome result (λ p. octets.now ≡ big_bytes 2 p.0 ++ p.1.now) }
    ensures fits { IfSome result (λ p. p.0 < 2 ^ 16) }
    ensures found { (n : ℕ) (rest : List ℕ) → n < 2 ^ 16 → octets.now ≡ big_bytes 2 n ++ rest
        → IsSomeAnd result (λ p. (p.0 ≡ n) × (p.1.now ≡ rest)) }
{
    match octets {
        [high, low, rest @ ..] => Some((*high as u16 * 256 + *low as u16, rest)),
        _ => None,
    }
}
