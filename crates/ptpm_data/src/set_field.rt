//! What the dataField of a SET says (15.5.3).

ghost use Rattle.std.specs.Prelude.{◌≡◌, ◌≤◌, length};
ghost use Rattle.ptpm_data.specs.SetField.{first_i8, first_i16};

use byteorder::{BigEndian, ByteOrder};

/// The first octet as an Integer8.
#[tactic(auto, unfolding(crate::specs::SetField::first_i8))]
pub(crate) fn first_i8(octets: &[u8]) -> i8
    requires { 1 ≤ length octets.now }
    ensures { result ≡ first_i8 octets.now }
{
    octets[0].cast_signed()
}

/// The octets' first two as an Integer16.
#[tactic(auto, unfolding(crate::specs::SetField::first_i16))]
pub(crate) fn first_i16(octets: &[u8]) -> i16
    requires { 2 ≤ length octets.now }
    ensures { result ≡ first_i16 octets.now }
{
    BigEndian::read_i16(octets)
}
