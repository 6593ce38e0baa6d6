//! What is said of a member's value.

ghost use Rattle.std.specs.Prelude.{◌≡◌, ◌≤◌, IfOk, length};
ghost use Rattle.serde_json.specs.View.{view};
ghost use Rattle.ptpm_members.specs.Values.{said};
ghost use Rattle.ptpm_message_json.specs.Values.{clock_data, clocks_data, port_data, quality_data, quality_in, said_data, text_data};

use byteorder::{BigEndian, ByteOrder};
use ptpm_codec::{ClockIdentity, PortIdentity};
use ptpm_members::{ClockQuality, MemberValue};
use serde_json::{Value, json};
use std::alloc::{AllocError, Global};

/// The value of a member: what has a name by its name, or in hexadecimal after `0x` if its number has none.
pub fn member_value(alloc: Global, value: MemberValue<'_>) -> Result<Value, AllocError>
    ensures { IfOk result (λ v. view v ≡ said_data (said value.entry)) }
{
    match value {
        MemberValue::Unsigned(number) => Ok(Value::from(number)),
        MemberValue::Signed(number) => Ok(Value::from(number)),
        MemberValue::Flag(flag) => Ok(Value::from(flag)),
        MemberValue::Interval(interval) => Ok(Value::from(interval)),
        MemberValue::Clock(clock) => clock_value(alloc, clock),
        MemberValue::Port(port) => port_value(alloc, port),
        MemberValue::Named(..) => Ok(Value::String(format!(in alloc; "{value}")?)),
        MemberValue::Quality(quality) => quality_value(alloc, quality),
        MemberValue::Text(octets) => text_value(alloc, octets),
        MemberValue::Octets(octets) => Ok(Value::String(hex::encode(alloc, octets)?)),
        MemberValue::Clocks(octets) => clocks_value(alloc, octets),
    }
}

/// The ClockQuality whose octets come first (5.3.7).
pub(crate) fn quality_in(octets: &[u8]) -> ClockQuality
    requires { 4 ≤ length octets.now }
    ensures { result ≡ quality_in octets.now }
{
    let (_, variance) = octets.split_at(2);
    ClockQuality {
        class: octets[0],
        accuracy: octets[1],
        variance: BigEndian::read_u16(variance),
    }
}

fn quality_value(alloc: Global, quality: ClockQuality) -> Result<Value, AllocError>
    ensures { IfOk result (λ v. view v ≡ quality_data quality) }
{
    json!(in alloc; {
        "clockAccuracy": quality.accuracy,
        "clockClass": quality.class,
        "offsetScaledLogVariance": quality.variance
    })
}

/// Octets as a text, in which what is no UTF-8 is replaced.
pub(crate) fn text_value(alloc: Global, octets: &[u8]) -> Result<Value, AllocError>
    ensures { IfOk result (λ v. view v ≡ text_data octets.now) }
{
    Ok(Value::String(String::from_utf8_lossy(alloc, octets)?))
}

/// A port's identity, as an object.
pub(crate) fn port_value(alloc: Global, port: PortIdentity) -> Result<Value, AllocError>
    ensures { IfOk result (λ v. view v ≡ port_data port) }
{
    let clock = clock_value(alloc, port.clock)?;
    json!(in alloc; {"clockIdentity": clock, "portNumber": port.port})
}

fn clock_value(alloc: Global, clock: ClockIdentity) -> Result<Value, AllocError>
    ensures { IfOk result (λ v. view v ≡ clock_data clock) }
{
    Ok(Value::String(format!(in alloc; "{clock}")?))
}

/// The identities of clocks, as an array of texts.
fn clocks_value(alloc: Global, octets: &[u8]) -> Result<Value, AllocError>
    ensures { IfOk result (λ v. view v ≡ clocks_data octets.now) }
{
    let mut clocks = Vec::new(alloc);
    let mut rest = octets;
    while let [_, _, _, _, _, _, _, _, ..] = rest {
        let (clock, more) = rest.split_at(8);
        clocks.push(Value::String(hex::encode(alloc, clock)?))?;
        rest = more;
    }
    Ok(Value::Array(clocks))
}
