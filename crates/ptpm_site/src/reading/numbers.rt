//! Signed numbers and flags at their places in a dataField, whose octets are in network order (clause 5.2).

ghost use Rattle.std.specs.Prelude.{◌+◌, ◌<◌, ◌≤◌, length};

use byteorder::{BigEndian, ByteOrder};

/// The Integer16 in the two octets from a place.
pub fn i16_at(octets: &[u8], place: usize) -> i16
    requires { place + 2 ≤ length octets.now }
{
    BigEndian::read_i16(&octets[place..])
}

/// The TimeInterval in the eight octets from a place: nanoseconds times 2^16 (5.3.2).
pub fn interval_at(octets: &[u8], place: usize) -> i64
    requires { place + 8 ≤ length octets.now }
{
    BigEndian::read_i64(&octets[place..])
}

/// The Integer8 in an octet.
pub fn i8_at(octets: &[u8], place: usize) -> i8
    requires { place < length octets.now }
{
    octets[place].cast_signed()
}

/// Whether a bit of an octet is set. Bit 0 is the least significant one.
pub fn flag_at(octets: &[u8], place: usize, bit: u8) -> bool
    requires place { place < length octets.now }
    requires bit { bit < 8 }
{
    octets[place] >> bit & 1 == 1
}
