//! Identities and ends as a network file writes them (this project's profile).

ghost use Rattle.std.specs.Prelude.{◌≡◌, option_and_then, option_map};
ghost use Rattle.toml.specs.Data.{as_str};
ghost use Rattle.toml.specs.View.{view};
ghost use Rattle.ptpm_script.specs.Spellings.{clock_identity, end_of, port_identity};

use crate::names::is_name;
use ptpm_codec::{ClockIdentity, PortIdentity};
use ptpm_text::decimal_u16;
use toml::Value;

/// A clockIdentity of sixteen hexadecimal digits, not all ones.
#[tactic(auto, unfolding(crate::specs::Spellings::clock_identity))]
pub(crate) fn clock_identity(text: &str) -> Option<ClockIdentity>
    ensures { result ≡ clock_identity text.now }
{
    let mut octets = [0; 8];
    match hex::decode_to_slice(text, &mut octets) {
        Ok(()) if ClockIdentity(octets) != ClockIdentity::EVERY => Some(ClockIdentity(octets)),
        _ => None,
    }
}

/// A clockIdentity, a slash and a decimal port.
#[tactic(auto, unfolding(crate::specs::Spellings::port_identity))]
pub(crate) fn port_identity(text: &str) -> Option<PortIdentity>
    ensures { result ≡ port_identity text.now }
{
    let (clock, port) = text.split_once('/')?;
    Some(PortIdentity {
        clock: clock_identity(clock)?,
        port: decimal_u16(port)?,
    })
}

/// The end of a link that a value is spelt as: a session's name, or a clock's, a dot and a decimal port.
#[tactic(auto, unfolding(crate::specs::Spellings::end_of))]
pub(crate) fn end_at(value: &Value) -> Option<(&str, Option<u16>)>
    ensures { option_map (λ e. (e.0.now, e.1)) result ≡ option_and_then end_of (as_str (view value.now)) }
{
    let text = value.as_str()?;
    let (name, port) = match text.split_once('.') {
        Some((name, port)) => (name, Some(decimal_u16(port)?)),
        None => (text, None),
    };
    is_name(name).then_some((name, port))
}
