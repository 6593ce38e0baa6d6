//! Serial numbers of 16 bits: which of two sequenceIds is the newer.

ghost use Rattle.std.specs.Prelude.{◌≡◌};
ghost use Rattle.ptpm_table.specs.Serial.{serial_of};

/// A number against the latest accepted one.
#[derive(Clone, Copy, Debug, PartialEq, Eq)]
pub enum Serial {
    Same,
    Newer,
    Older,
}

/// Compares a number with the latest one by their difference modulo 65,536 (RFC 1982). The same number is equal, and 1
/// to 32,767 ahead is newer. All else is older, also 32,768 ahead (this project's profile).
#[tactic(auto, unfolding(crate::specs::Serial::serial_of))]
#[inline(always)]
pub fn compare(latest: u16, number: u16) -> Serial
    ensures class { result ≡ serial_of latest number }
    ensures same { result ≡ Serial.Same → latest ≡ number }
{
    if number == latest {
        Serial::Same
    } else if number.wrapping_sub(latest) <= 32767 {
        Serial::Newer
    } else {
        Serial::Older
    }
}
