//! The value of a member, by its octets. Each text and JSON is made of it.

ghost use Rattle.std.specs.Prelude.{◌≡◌};
ghost use Rattle.ptpm_members.specs.Values.{HasValue, said, said_in, said_of_part};

use crate::description::{DescriptionPart, counted, counted_octets, first, part_on, text_octets};
use crate::forms::Form;
use crate::number_names::Enumeration;
use byteorder::{BigEndian, ByteOrder, LittleEndian};
use ptpm_codec::{
    ClockIdentity, PortIdentity, clock_identity_at, port_identity_at, text_of_ptp_text,
};

/// A ClockQuality (5.3.7).
#[derive(Clone, Copy, Debug, PartialEq, Eq)]
pub struct ClockQuality {
    /// clockClass.
    pub class: u8,
    /// clockAccuracy.
    pub accuracy: u8,
    /// offsetScaledLogVariance.
    pub variance: u16,
}

/// What the octets of a member say.
#[derive(Clone, Copy, Debug, PartialEq)]
pub enum MemberValue<'a> {
    /// A number without a sign.
    Unsigned(u64),
    /// A number in two's complement.
    Signed(i64),
    Flag(bool),
    /// A TimeInterval: nanoseconds times 2^16 (5.3.2).
    Interval(i64),
    Clock(ClockIdentity),
    Port(PortIdentity),
    /// A number that has a name.
    Named(Enumeration, u8),
    /// Three members in one, as reports of sites have them. No form is of it.
    Quality(ClockQuality),
    /// The octets of a text.
    Text(&'a [u8]),
    /// Octets that are no text, such as an address.
    Octets(&'a [u8]),
    /// The octets of clocks' identities, eight each.
    Clocks(&'a [u8]),
}

/// The value of a member whose octets come first.
pub fn value_in(form: Form, octets: &[u8]) -> MemberValue<'_>
    requires { HasValue form octets.now }
    ensures { said result ≡ said_in form octets.now }
{
    match form {
        Form::Unsigned(size) | Form::Hexadecimal(size) => {
            MemberValue::Unsigned(BigEndian::read_uint(octets, usize::from(size)))
        }
        Form::Signed(size) => MemberValue::Signed(BigEndian::read_int(octets, usize::from(size))),
        Form::Flag(mask) => MemberValue::Flag(octets[0] & mask != 0),
        Form::EitherFlag => MemberValue::Flag(octets[0] % 4 != 0),
        Form::LowNibble => MemberValue::Unsigned(u64::from(octets[0] % 16)),
        Form::TimeInterval => MemberValue::Interval(BigEndian::read_int(octets, 8)),
        Form::ClockIdentity => MemberValue::Clock(clock_identity_at(octets, 0)),
        Form::PortIdentity => MemberValue::Port(port_identity_at(octets, 0)),
        Form::Named(enumeration) => MemberValue::Named(enumeration, octets[0]),
        Form::Text => MemberValue::Text(text_of_ptp_text(octets)),
        Form::LittleEndian(size) => {
            MemberValue::Unsigned(LittleEndian::read_uint(octets, usize::from(size)))
        }
        Form::Octets(size) => MemberValue::Octets(&octets[..usize::from(size)]),
        Form::ClockIdentities => MemberValue::Clocks(octets),
        Form::Described(part) => value_of_part(part, part_on(part, octets)),
    }
}

/// The value of a part of a CLOCK_DESCRIPTION whose octets come first.
fn value_of_part(part: DescriptionPart, octets: &[u8]) -> MemberValue<'_>
    ensures { said result ≡ said_of_part part octets.now }
{
    match part {
        DescriptionPart::PhysicalAddress | DescriptionPart::AddressField => {
            MemberValue::Octets(counted_octets(octets))
        }
        DescriptionPart::NetworkProtocol => MemberValue::Unsigned(u64::from(counted(octets))),
        DescriptionPart::ManufacturerIdentity => MemberValue::Octets(first(3, octets)),
        DescriptionPart::ProfileIdentity => MemberValue::Octets(first(6, octets)),
        DescriptionPart::PhysicalLayerProtocol
        | DescriptionPart::ProductDescription
        | DescriptionPart::RevisionData
        | DescriptionPart::UserDescription => MemberValue::Text(text_octets(octets)),
    }
}
