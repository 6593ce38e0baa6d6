//! The members of the data sets of a clock, and their values.

ghost use Rattle.std.specs.Prelude.{IfSome};
ghost use Rattle.ptpm_members.specs.FieldText.{IsPlaced};

use crate::reading::asked::Asked;
use crate::reading::data_sets::{DefaultDataSet, ParentDataSet};
use ptpm_data::Member::*;
use ptpm_data::PortSetting::*;
use ptpm_members::{Field, Member, MemberValue, members_in, value_in};

static DEFAULT_DATA_SET: [Member; 8] = [
    Member::DataSet(TwoStep),
    Member::SlaveOnly,
    Member::NumberPorts,
    Member::DataSet(Priority1),
    Member::ClockQuality,
    Member::DataSet(Priority2),
    Member::DataSet(Identity),
    Member::DataSet(Domain),
];

static CURRENT_DATA_SET: [Member; 3] = [
    Member::DataSet(StepsRemoved),
    Member::DataSet(OffsetFromMaster),
    Member::DataSet(MeanPathDelay),
];

static PARENT_DATA_SET: [Member; 8] = [
    Member::DataSet(ParentPort),
    Member::DataSet(ParentStats),
    Member::DataSet(ObservedVariance),
    Member::DataSet(ObservedRate),
    Member::DataSet(GrandmasterPriority1),
    Member::GrandmasterClockQuality,
    Member::DataSet(GrandmasterPriority2),
    Member::DataSet(Grandmaster),
];

static TIME_PROPERTIES_DATA_SET: [Member; 8] = [
    Member::DataSet(UtcOffset),
    Member::DataSet(UtcValid),
    Member::DataSet(Leap59),
    Member::DataSet(Leap61),
    Member::DataSet(TimeTraceable),
    Member::DataSet(FrequencyTraceable),
    Member::DataSet(PtpTimescale),
    Member::DataSet(TimeSource),
];

/// Without its portIdentity.
static PORT_DATA_SET: [Member; 9] = [
    Member::DataSet(State),
    Member::DataSet(LogMinDelayReq),
    Member::DataSet(PeerDelay),
    Member::DataSet(Setting(LogAnnounceInterval)),
    Member::DataSet(Setting(AnnounceReceiptTimeout)),
    Member::DataSet(Setting(LogSyncInterval)),
    Member::DataSet(Setting(DelayMechanism)),
    Member::DataSet(Setting(LogMinPdelayReqInterval)),
    Member::VersionNumber,
];

static USER_DESCRIPTION: [Member; 1] = [Member::DataSet(UserDescription)];

/// The members of an id, in the standard's order. Those of a ClockQuality are one.
pub fn members_of(asked: Asked) -> &'static [Member] {
    match asked {
        Asked::DefaultDataSet => &DEFAULT_DATA_SET,
        Asked::CurrentDataSet => &CURRENT_DATA_SET,
        Asked::ParentDataSet => &PARENT_DATA_SET,
        Asked::TimePropertiesDataSet => &TIME_PROPERTIES_DATA_SET,
        Asked::PortDataSet => &PORT_DATA_SET,
        Asked::UserDescription => &USER_DESCRIPTION,
    }
}

/// What the octets of an answer to an id say of a member. `None` if they lack it.
pub fn value_of(asked: Asked, octets: &[u8], member: Member) -> Option<MemberValue<'_>> {
    match (asked, member) {
        (Asked::DefaultDataSet, Member::ClockQuality) => {
            Some(MemberValue::Quality(DefaultDataSet::read(octets)?.quality))
        }
        (Asked::ParentDataSet, Member::GrandmasterClockQuality) => {
            Some(MemberValue::Quality(ParentDataSet::read(octets)?.quality))
        }
        (Asked::UserDescription, Member::DataSet(UserDescription)) => text_value(octets),
        (Asked::UserDescription, _) => None,
        _ => field_value(asked, octets, member),
    }
}

/// A text. `None` if it is no UTF-8.
fn text_value(octets: &[u8]) -> Option<MemberValue<'_>> {
    match str::from_utf8(octets) {
        Ok(_) => Some(MemberValue::Text(octets)),
        Err(_) => None,
    }
}

/// The member in a dataField of the id, with its place and its form.
fn field_of(asked: Asked, octets: &[u8], member: Member) -> Option<Field>
    ensures { IfSome result (IsPlaced octets.now) }
{
    members_in(asked.number(), octets)
        .iter()
        .copied()
        .find(|field| field.0 == member)
}

/// The value at the place of a member.
fn field_value(asked: Asked, octets: &[u8], member: Member) -> Option<MemberValue<'_>> {
    let field = field_of(asked, octets, member)?;
    let (_, behind) = octets.split_at(usize::from(field.1));
    Some(value_in(field.2, behind))
}

/// Whether a member's value moves from one answer to the next though nothing was changed.
pub fn is_moving(member: Member) -> bool {
    matches!(
        member,
        Member::DataSet(
            OffsetFromMaster
                | MeanPathDelay
                | PeerDelay
                | LogMinDelayReq
                | ObservedVariance
                | ObservedRate
        )
    )
}

/// Whether a clock says it of its grandmaster, and not of who that is.
pub fn is_of_grandmaster(member: Member) -> bool {
    matches!(
        member,
        Member::DataSet(GrandmasterPriority1 | GrandmasterPriority2)
            | Member::GrandmasterClockQuality
    )
}
