//! Management ids by name, names of them, and the id that a person types.

ghost use Rattle.std.specs.Prelude.{◌≡◌, ℕ, IfSome, Some, option_map, true};
ghost use Rattle.std.specs.Str.{is_utf8};
ghost use Rattle.ptpm_data.specs.ManagementId.{if_named, row_named, row_of, row_value};
ghost use Rattle.ptpm_members.specs.IdNames.{capitals, four_digits, id_at, id_name, id_named, id_of, other_id_at, other_id_name, other_id_named};

use crate::other_ids::{OTHER_IDS, OtherId};
use hex::FromHex;
use ptpm_codec::u16_at;
use ptpm_data::{MANAGEMENT_IDS, ManagementIdRow, row};
use std::str;

/// The standard's name of a managementId, such as `PRIORITY1`; `None` if this profile lacks the id.
pub fn profile_id_name(id: u16) -> Option<&'static str>
    ensures { option_map (λ name. name.now) result ≡ id_name id }
{
    Some(row(id)?.name)
}

/// The managementId of a name in ASCII, in either case, such as `priority1`; `None` if no id has it.
pub fn id_named(name: &[u8]) -> Option<u16>
    ensures named { IfSome result (λ id. id_name id ≡ Some (capitals name.now)) }
    ensures found { (id : ℕ) → id_name id ≡ Some (capitals name.now) → result ≡ Some id }
    ensures value { result ≡ id_named name.now }
{
    match row_named(name) {
        Some(row) => Some(row.id),
        None => None,
    }
}

/// The managementId that a person types: a name in either case, such as `priority1`, or four hexadecimal digits, also after `0x`.
#[tactic(auto, unfolding(crate::specs::IdNames::id_of))]
pub fn id_of(text: &[u8]) -> Option<u16>
    ensures { result ≡ id_of text.now }
{
    match text {
        [b'0', b'x' | b'X', digits @ ..] => four_digits(digits),
        _ => id_named(text).or(four_digits(text)),
    }
}

/// The number that four hexadecimal digits write, in either case.
fn four_digits(digits: &[u8]) -> Option<u16>
    ensures { result ≡ four_digits digits.now }
{
    let octets = <[u8; 2] as FromHex>::from_hex(digits).ok()?;
    Some(u16_at(&octets, 0))
}

/// The managementId at this place of the table of ids, in ascending order; `None` past the last.
pub fn id_at(place: usize) -> Option<u16>
    ensures { result ≡ id_at place }
{
    MANAGEMENT_IDS.get(place).copied()
}

/// The name of a managementId that other clocks have and this profile lacks, if it is one that is read by its members.
pub fn other_id_name(id: u16) -> Option<&'static str>
    ensures { option_map (λ name. name.now) result ≡ other_id_name id }
{
    match OtherId::of(id) {
        Some(other) => Some(other.name()),
        None => None,
    }
}

/// The one of a name, in either case.
#[tactic(auto, using(crate::proofs::ParsingLemmas::other_id_named_laws))]
pub fn other_id_named(name: &[u8]) -> Option<u16>
    ensures named { IfSome result (λ id. other_id_named name.now ≡ Some id) }
    ensures found { is_utf8 name.now ≡ true → result ≡ other_id_named name.now }
{
    match str::from_utf8(name) {
        Ok(name) => Some(OtherId::named(name)?.number()),
        Err(_) => None,
    }
}

/// The one at this place, in ascending order; `None` past the last.
pub fn other_id_at(place: usize) -> Option<u16>
    ensures { result ≡ other_id_at place }
{
    match OTHER_IDS.get(place) {
        Some(id) => Some(id.number()),
        None => None,
    }
}

fn row_named(name: &[u8]) -> Option<ManagementIdRow>
    ensures { option_map row_value result ≡ row_named (capitals name.now) }
{
    for id in &MANAGEMENT_IDS {
        if let Some(row) = row_if_named(*id, name) {
            return Some(row);
        }
    }
    None
}

/// The row of an id, if it has that name.
fn row_if_named(id: u16, name: &[u8]) -> Option<ManagementIdRow>
    ensures { option_map row_value result ≡ if_named (capitals name.now) (row_of id) }
{
    match row(id) {
        Some(row) if row.name.as_bytes().eq_ignore_ascii_case(name) => Some(row),
        _ => None,
    }
}
