//! What a person types for a userDescription.

ghost use Rattle.std.specs.Prelude.{◌≡◌, ◌<◌, ◌≤◌, [], ◌∷◌, IfNone, IfSome, length, option_map};
ghost use Rattle.std.specs.Str.{is_utf8};
ghost use Rattle.ptpm_data.specs.Ranges.{is_description};
ghost use Rattle.ptpm_members.specs.Typed.{described, escaped, meant};

use arrayvec::ArrayVec;
use hex::FromHex;
use std::str;

/// The octets of a userDescription at most.
const MOST_OCTETS: usize = 128;

/// The text that is meant by a typed one: a backslash, an x and two hexadecimal digits are that octet. `None` if a
/// userDescription may not be it.
pub(crate) fn described(typed: &str) -> Option<ArrayVec<u8, 128>>
    ensures { option_map (λ v. v.items) result ≡ described typed.now }
{
    let mut text = ArrayVec::new();
    let mut rest = typed.as_bytes();
    while let Some((octet, behind)) = next_octet(rest) {
        if text.is_full() {
            return None;
        }
        text.push(octet);
        rest = behind;
    }
    is_description(text.as_slice()).then_some(text)
}

/// The octet that is meant first, and what is typed after it.
#[tactic(auto, using(crate::proofs::ParsingLemmas::meant_escape, crate::proofs::ParsingLemmas::meant_plain))]
fn next_octet(typed: &[u8]) -> Option<(u8, &[u8])>
    ensures none { IfNone result (typed.now ≡ []) }
    ensures next { IfSome result (λ r. meant typed.now ≡ r.0 ∷ meant r.1.now) }
    ensures shorter { IfSome result (λ r. length r.1.now < length typed.now) }
{
    if typed.is_empty() {
        return None;
    }
    match escaped(typed) {
        Some(octet) => Some((octet, typed.split_at(4).1)),
        None => Some((typed[0], typed.split_at(1).1)),
    }
}

/// The octet of an escape that comes first.
#[tactic(auto, unfolding(crate::specs::Typed::escaped))]
fn escaped(text: &[u8]) -> Option<u8>
    ensures value { result ≡ escaped text.now }
    ensures long { IfSome result (λ _. 4 ≤ length text.now) }
{
    match text {
        [b'\\', b'x', high, low, ..] => {
            let [octet] = <[u8; 1] as FromHex>::from_hex(&[*high, *low]).ok()?;
            Some(octet)
        }
        _ => None,
    }
}

/// Whether a userDescription may be this text: at most 128 octets of UTF-8.
#[tactic(auto, unfolding(ptpm_data::specs::Ranges::is_description, ptpm_data::specs::ManagementId::set_of))]
fn is_description(text: &[u8]) -> bool
    ensures { result ≡ is_description text.now }
{
    text.len() <= MOST_OCTETS && is_utf8(text)
}

#[tactic(auto, using(crate::proofs::ParsingLemmas::is_utf8_laws))]
fn is_utf8(text: &[u8]) -> bool
    ensures { result ≡ is_utf8 text.now }
{
    match str::from_utf8(text) {
        Ok(_) => true,
        Err(_) => false,
    }
}
