//! What the value of a member is, for a host that reads the lines of a dataField.

ghost use Rattle.std.specs.Prelude.{◌≡◌};
ghost use Rattle.ptpm_members.specs.Values.{said};
ghost use Rattle.ptpm_host.specs.MemberKinds.{kind_of, member_kind, named_kind};

use ptpm_members::{Enumeration, MemberValue, members_in, value_in};

/// What the value is of the member in the line of this place, from 0 on, of a dataField: its number for hosts. 0 if there is no
/// such member, or the octets are no dataField of the id.
pub fn member_kind(id: u16, octets: &[u8], place: usize) -> u32
    ensures { result ≡ member_kind id octets.now place }
{
    match members_in(id, octets).get(place) {
        Some(field) => kind_of(value_in(field.2, octets.split_at(usize::from(field.1)).1)),
        None => 0,
    }
}

fn kind_of(value: MemberValue<'_>) -> u32
    ensures { result ≡ kind_of (said value.entry) }
{
    match value {
        MemberValue::Unsigned(_) | MemberValue::Signed(_) => 1,
        MemberValue::Flag(_) => 2,
        MemberValue::Interval(_) => 3,
        MemberValue::Clock(_) => 4,
        MemberValue::Port(_) => 5,
        MemberValue::Clocks(_) => 6,
        MemberValue::Text(_) => 7,
        MemberValue::Octets(_) => 8,
        MemberValue::Named(enumeration, _) => named_kind(enumeration),
        MemberValue::Quality(_) => 0,
    }
}

fn named_kind(enumeration: Enumeration) -> u32
    ensures { result ≡ named_kind enumeration }
{
    match enumeration {
        Enumeration::PortState => 16,
        Enumeration::DelayMechanism => 17,
        Enumeration::TimeSource => 18,
        Enumeration::Timestamping => 19,
    }
}
