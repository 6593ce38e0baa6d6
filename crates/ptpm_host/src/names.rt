//! Names as octets that a host reads, and the numbers of names that it passes.

ghost use Rattle.std.specs.Prelude.{◌≡◌, drop, length, option_map, take};
ghost use Rattle.ptpm_host.specs.Names.{enumeration_of, name_within, number_named, text_of};

use ptpm_members::Enumeration;
use std::str;

/// Means no managementId, since an id has 16 bits.
pub const NO_ID: u32 = 65_536;

/// Means that no number has a name, since a number has 8 bits.
pub const NO_NUMBER: u32 = 65_536;

/// Leaves a name at the head of `octets`, and answers how many octets it has. That is 0 if there is none, or no room for
/// the whole. What follows it stays. Takes no memory.
pub fn hand_out_name(name: Option<&str>, octets: &mut [u8]) -> usize
    ensures size { result
        ≡ length (name_within (length octets.old) (option_map (λ text. text.now) name.entry)) }
    ensures name { take result octets.new
        ≡ name_within (length octets.old) (option_map (λ text. text.now) name.entry) }
    ensures behind { drop result octets.new ≡ drop result octets.old }
{
    let Some(name) = name else {
        return 0;
    };
    let name = name.as_bytes();
    if octets.len() < name.len() {
        return 0;
    }
    octets[..name.len()].copy_from_slice(name);
    name.len()
}

/// The number of a name in either case, among the names of portStates (1), of delayMechanisms (2) or of timeSources (3).
pub fn number_named(names: u32, name: &[u8]) -> Option<u8>
    ensures { result ≡ number_named names name.now }
{
    enumeration_of(names)?.number_of(text_of(name)?)
}

/// The text that octets are; `None` if they are no UTF-8.
pub fn text_of(octets: &[u8]) -> Option<&str>
    ensures { option_map (λ text. text.now) result ≡ text_of octets.now }
{
    match str::from_utf8(octets) {
        Ok(text) => Some(text),
        Err(_) => None,
    }
}

fn enumeration_of(names: u32) -> Option<Enumeration>
    ensures { result ≡ enumeration_of names }
{
    match names {
        1 => Some(Enumeration::PortState),
        2 => Some(Enumeration::DelayMechanism),
        3 => Some(Enumeration::TimeSource),
        _ => None,
    }
}
