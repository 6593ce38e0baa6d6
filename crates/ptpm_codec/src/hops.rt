//! A message as a boundary clock passes it on.

ghost use Rattle.std.specs.Prelude.{◌≡◌, ◌-◌, ◌<◌, ◌≤◌, length, slice_set};
ghost use Rattle.ptpm_codec.specs.Layout.{boundary_hops, message_octets, octet};
ghost use Rattle.ptpm_codec.specs.Reading.{IsWellFormed};

use crate::buffers::fit;
use crate::encoding::Buffer;
use crate::places::u16_at;

/// Leaves a well-formed datagram's first messageLength octets in the buffer, and nothing else. Its boundaryHops (octet 45) is
/// less by one, and every other octet is as it came (15.3.3). The datagram is one that `view` takes, and its boundaryHops is
/// not 0. Takes no memory.
pub fn less_hop(datagram: &[u8], buffer: &mut Buffer)
    requires well_formed { IsWellFormed datagram.now }
    requires hops { 0 < boundary_hops datagram.now }
    ensures { buffer.new.items
        ≡ slice_set (message_octets datagram.now) 45 (boundary_hops datagram.now - 1) }
{
    fit(buffer, message_size(datagram));
    less_hop_in(datagram, buffer.as_mut_slice());
}

/// Writes the same over a place of its size, as many octets as `message_size` answers.
#[inline(always)]
pub fn less_hop_in(datagram: &[u8], place: &mut [u8])
    requires well_formed { IsWellFormed datagram.now }
    requires hops { 0 < boundary_hops datagram.now }
    requires size { length place.old ≡ length (message_octets datagram.now) }
    ensures { place.new
        ≡ slice_set (message_octets datagram.now) 45 (boundary_hops datagram.now - 1) }
{
    place.copy_from_slice(&datagram[..place.len()]);
    lower(place, 45);
}

/// Lowers the octet at a place by one.
#[inline(always)]
fn lower(message: &mut [u8], place: usize)
    requires inside { place < length message.old }
    requires above { 0 < octet place message.old }
    ensures { message.new ≡ slice_set message.old place (octet place message.old - 1) }
{
    message[place] -= 1;
}

/// How many octets the message of a datagram has that `view` takes: its messageLength, from 54 to 1,472.
#[inline(always)]
pub fn message_size(datagram: &[u8]) -> usize
    requires { IsWellFormed datagram.now }
    ensures size { result ≡ length (message_octets datagram.now) }
    ensures long { 54 ≤ result }
    ensures small { result ≤ 1472 }
    ensures inside { result ≤ length datagram.now }
{
    u16_at(datagram, 2) as usize
}
