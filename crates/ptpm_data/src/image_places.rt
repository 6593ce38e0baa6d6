//! Flags, signed numbers and precedences at their places in an image.

ghost use Rattle.std.specs.Prelude.{◌≡◌, ◌<◌, ◌≤◌, ◌+◌, length};
ghost use Rattle.ptpm_data.specs.ImageReading.{flag_at, i16_at, i32_at, i64_at, i8_at, precedence_at};

use crate::data_sets::ClockPrecedence;
use byteorder::{BigEndian, ByteOrder};
use ptpm_codec::u16_at;

#[tactic(auto, unfolding(crate::specs::ImageReading::precedence_at))]
pub(crate) fn precedence_at(octets: &[u8], place: usize) -> ClockPrecedence
    requires { place + 6 ≤ length octets.now }
    ensures { result ≡ precedence_at place octets.now }
{
    ClockPrecedence {
        priority1: octets[place],
        class: octets[place + 1],
        accuracy: octets[place + 2],
        variance: u16_at(octets, place + 3),
        priority2: octets[place + 5],
    }
}

/// A flag; an octet other than 0 and 1 is taken for true here.
#[tactic(auto, unfolding(crate::specs::ImageReading::flag_at))]
pub(crate) fn flag_at(octets: &[u8], place: usize) -> bool
    requires { place < length octets.now }
    ensures { result ≡ flag_at place octets.now }
{
    octets[place] != 0
}

#[tactic(auto, unfolding(crate::specs::ImageReading::i8_at))]
pub(crate) fn i8_at(octets: &[u8], place: usize) -> i8
    requires { place < length octets.now }
    ensures { result ≡ i8_at place octets.now }
{
    octets[place].cast_signed()
}

#[tactic(auto, unfolding(crate::specs::ImageReading::i16_at))]
pub(crate) fn i16_at(octets: &[u8], place: usize) -> i16
    requires { place + 2 ≤ length octets.now }
    ensures { result ≡ i16_at place octets.now }
{
    BigEndian::read_i16(&octets[place..])
}

#[tactic(auto, unfolding(crate::specs::ImageReading::i32_at))]
pub(crate) fn i32_at(octets: &[u8], place: usize) -> i32
    requires { place + 4 ≤ length octets.now }
    ensures { result ≡ i32_at place octets.now }
{
    BigEndian::read_i32(&octets[place..])
}

#[tactic(auto, using(crate::proofs::DescriptionLaws::i64_at_laws), unfolding(crate::specs::ImageReading::i64_at))]
pub(crate) fn i64_at(octets: &[u8], place: usize) -> i64
    requires { place + 8 ≤ length octets.now }
    ensures { result ≡ i64_at place octets.now }
{
    BigEndian::read_i64(&octets[place..])
}
