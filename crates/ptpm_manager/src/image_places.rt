//! Numbers at their places in an image.

ghost use Rattle.std.specs.Prelude.{◌≡◌, ◌≤◌, ◌+◌, length};
ghost use Rattle.ptpm_manager.specs.ImageReading.{count_at};

use byteorder::{BigEndian, ByteOrder};

#[tactic(auto, unfolding(crate::specs::ImageReading::count_at))]
pub(crate) fn u64_at(octets: &[u8], place: usize) -> u64
    requires { place + 8 ≤ length octets.now }
    ensures { result ≡ count_at place octets.now }
{
    BigEndian::read_u64(&octets[place..])
}
