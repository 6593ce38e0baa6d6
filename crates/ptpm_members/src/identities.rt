//! Identities that a person types (5.3.4 and 5.3.5; this project's profile). That of a clock is `aabbccfffeddee01`, or
//! `aabbcc.fffe.ddee01` as pmc prints it. That of its port is `aabbccfffeddee01/1` or `aabbcc.fffe.ddee01-1`.

ghost use Rattle.std.specs.Prelude.{◌≡◌, ◌<◌};
ghost use Rattle.ptpm_members.specs.Identities.{clock_identity_of, is_dotted, clock_of_digits, port_identity_around, port_identity_of};

use crate::typing::number_up_to;
use arrayvec::ArrayVec;
use hex::FromHex;
use ptpm_codec::{ClockIdentity, PortIdentity, put};

/// The portIdentity that a text names: a clock's, a slash or a hyphen, and a port number. Takes no memory.
#[tactic(auto, unfolding(crate::specs::Identities::port_identity_of))]
pub fn port_identity_of(text: &str) -> Option<PortIdentity>
    ensures { result ≡ port_identity_of text.now }
{
    match port_identity_around('/', text) {
        Some(identity) => Some(identity),
        None => port_identity_around('-', text),
    }
}

/// The identity that the text names with this mark before the port number.
#[tactic(auto, unfolding(crate::specs::Identities::port_identity_around))]
fn port_identity_around(mark: char, text: &str) -> Option<PortIdentity>
    requires { mark < 128 }
    ensures { result ≡ port_identity_around mark text.now }
{
    let (clock, port) = text.split_once(mark)?;
    Some(PortIdentity {
        clock: clock_identity_of(clock)?,
        port: number_up_to(0xffff, port)? as u16,
    })
}

/// The clockIdentity that a text names: sixteen hexadecimal digits in either case, also with a dot after the sixth and the tenth.
/// Takes no memory.
#[tactic(auto, unfolding(crate::specs::Identities::clock_identity_of))]
pub fn clock_identity_of(text: &str) -> Option<ClockIdentity>
    ensures { result ≡ clock_identity_of text.now }
{
    let octets = text.as_bytes();
    if !is_dotted(octets) {
        return clock_of_digits(octets);
    }
    let mut digits = ArrayVec::<u8, 16>::new();
    put(&mut digits, &octets[..6]);
    put(&mut digits, &octets[7..11]);
    put(&mut digits, &octets[12..]);
    clock_of_digits(digits.as_slice())
}

fn is_dotted(text: &[u8]) -> bool
    ensures { result ≡ is_dotted text.now }
{
    text.len() == 18 && text[6] == b'.' && text[11] == b'.'
}

/// The identity of sixteen hexadecimal digits.
fn clock_of_digits(digits: &[u8]) -> Option<ClockIdentity>
    ensures { result ≡ clock_of_digits digits.now }
{
    let octets = <[u8; 8] as FromHex>::from_hex(digits).ok()?;
    Some(ClockIdentity(octets))
}
