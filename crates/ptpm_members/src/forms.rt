//! The place of a member in a dataField, and its form there.

ghost use Rattle.std.specs.Prelude.{◌≡◌};
ghost use Rattle.ptpm_members.specs.Tables.{form_size};

use crate::description::DescriptionPart;
use crate::names::Member;
use crate::number_names::Enumeration;

/// How a member is written in its octets (5.3), and so in a text.
#[derive(Clone, Copy, Debug, PartialEq, Eq)]
pub enum Form {
    /// A number without a sign, in this many octets.
    Unsigned(u8),
    /// The same, in a text in hexadecimal.
    Hexadecimal(u8),
    /// A number in two's complement, in this many octets.
    Signed(u8),
    /// A flag: this bit of an octet.
    Flag(u8),
    /// A flag in bit 0 of an octet. Some clocks have it in bit 1, which is reserved: either is read.
    EitherFlag,
    /// The lower four bits of an octet.
    LowNibble,
    /// A TimeInterval: nanoseconds times 2^16, in two's complement (5.3.2).
    TimeInterval,
    ClockIdentity,
    PortIdentity,
    /// A number that has a name.
    Named(Enumeration),
    /// A PTPText (5.3.9).
    Text,
    /// A number without a sign in this many octets, the lowest first, as linuxptp sends its counters.
    LittleEndian(u8),
    /// This many octets.
    Octets(u8),
    /// Identities of clocks, one after the other.
    ClockIdentities,
    /// A part of a CLOCK_DESCRIPTION, whose octets come first (15.5.3.1.2).
    Described(DescriptionPart),
}

impl Form {
    /// How many octets it takes; 0 if the octets say it themselves.
    pub fn size(self) -> usize
        ensures { result ≡ form_size self }
    {
        match self {
            Form::Unsigned(size)
            | Form::Hexadecimal(size)
            | Form::Signed(size)
            | Form::LittleEndian(size)
            | Form::Octets(size) => usize::from(size),
            Form::Flag(_) | Form::EitherFlag | Form::LowNibble | Form::Named(_) => 1,
            Form::TimeInterval | Form::ClockIdentity => 8,
            Form::PortIdentity => 10,
            Form::Text | Form::ClockIdentities | Form::Described(_) => 0,
        }
    }
}

/// A member, its first octet in the dataField, and its form there.
#[derive(Clone, Copy, Debug, PartialEq, Eq)]
pub struct Field(pub Member, pub u8, pub Form);
