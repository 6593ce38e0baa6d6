//! What is left of a record that was torn.

ghost use Rattle.std.specs.Prelude.{◌≡◌};
ghost use Rattle.ptpm_journal.specs.Torn.{may_be_torn};

use crate::framing::are_zeros;
use crate::reading::{first_width, members_size};
use byteorder::{BigEndian, ByteOrder};

/// The first kind of records that are appended. Those before it are in the file before it has its name.
const FIRST_APPENDED: u8 = 3;

/// Whether octets may be what a torn write of one record leaves: zeros, or its first octets. These have a size of its kind. So no wrong
/// size hides further records.
pub fn may_be_torn(octets: &[u8]) -> bool
    ensures { result ≡ may_be_torn octets.now }
{
    if are_zeros(octets) || octets.len() < 3 {
        return true;
    }
    let size = usize::from(BigEndian::read_u16(octets));
    let kind = octets[2];
    let members = members_size(kind);
    if kind < FIRST_APPENDED || members == 0 {
        return false;
    }
    if first_width(kind) == 0 {
        return size == members;
    }
    if octets.len() < members + 4 {
        return members + 2 <= size && size <= members + 4_098;
    }
    size == members + 2 + usize::from(BigEndian::read_u16(&octets[members + 2..]))
}
