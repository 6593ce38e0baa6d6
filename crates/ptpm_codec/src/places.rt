//! Numbers and identities at their places in a message, read and written.

ghost use Rattle.std.specs.Prelude.{◌≡◌, ◌+◌, ◌<◌, ◌≤◌, ◌^◌, if◌then◌else◌, length, nat_le, None, Some};
ghost use Rattle.byteorder.specs.Endian.{big_bytes};
ghost use Rattle.ptpm_codec.specs.Envelope.{written};
ghost use Rattle.ptpm_codec.specs.Layout.{clock_identity_at, number_at, port_identity_at, source_port_identity};
ghost use Rattle.ptpm_codec.specs.Message.{PortIdentityFits};

use crate::identity::{ClockIdentity, PortIdentity};
use byteorder::{BigEndian, ByteOrder};

/// The number in the two octets from a place.
#[tactic(auto, unfolding(crate::specs::Layout::number_at))]
pub fn u16_at(octets: &[u8], place: usize) -> u16
    requires { place + 2 ≤ length octets.now }
    ensures { result ≡ number_at place octets.now }
{
    BigEndian::read_u16(&octets[place..])
}

/// The clockIdentity in the eight octets from a place.
#[tactic(auto, unfolding(crate::specs::Layout::clock_identity_at))]
pub fn clock_identity_at(octets: &[u8], place: usize) -> ClockIdentity
    requires { place + 8 ≤ length octets.now }
    ensures { result ≡ clock_identity_at place octets.now }
{
    let mut clock = [0; 8];
    clock.copy_from_slice(&octets[place..place + 8]);
    ClockIdentity(clock)
}

/// The PortIdentity (5.3.5) in the ten octets from a place.
#[tactic(auto, unfolding(crate::specs::Layout::port_identity_at))]
pub fn port_identity_at(octets: &[u8], place: usize) -> PortIdentity
    requires { place + 10 ≤ length octets.now }
    ensures { result ≡ port_identity_at place octets.now }
{
    PortIdentity {
        clock: clock_identity_at(octets, place),
        port: u16_at(octets, place + 8),
    }
}

/// The octets at the place of a message's sourcePortIdentity (13.3.2.11), whether they are of a message or not; `None` if
/// there are too few.
pub fn source_port_identity(octets: &[u8]) -> Option<PortIdentity>
    ensures { result
        ≡ (if nat_le 30 (length octets.now) then Some (source_port_identity octets.now) else None) }
{
    if octets.len() < 30 {
        return None;
    }
    Some(port_identity_at(octets, 20))
}

/// Writes an identity over the ten octets from a place on.
#[inline(always)]
pub(crate) fn write_identity(message: &mut [u8], place: usize, identity: &PortIdentity)
    requires { place + 10 ≤ length message.old }
    ensures octets { message.new ≡ written (place + 8) (big_bytes 2 identity.now.port)
        (written place identity.now.clock.0 message.old) }
    ensures fits { PortIdentityFits identity.now }
{
    write_at(message, place, &identity.clock.0);
    write_u16(message, place + 8, identity.port);
}

/// Writes a number over the two octets from a place on.
#[inline(always)]
pub(crate) fn write_u16(message: &mut [u8], place: usize, number: u16)
    requires { place + 2 ≤ length message.old }
    ensures octets { message.new ≡ written place (big_bytes 2 number) message.old }
    ensures fits { number < 2 ^ 16 }
{
    write_at(message, place, &number.to_be_bytes());
}

/// Writes octets over those from a place on.
#[inline(always)]
pub(crate) fn write_at(message: &mut [u8], place: usize, octets: &[u8])
    requires { place + length octets.now ≤ length message.old }
    ensures { message.new ≡ written place octets.now message.old }
{
    message[place..place + octets.len()].copy_from_slice(octets);
}
