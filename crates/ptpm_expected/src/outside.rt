//! The members of a clock and of its ports that are not what a profile allows.

use crate::numbers::is_between;
use crate::profile::Profile;
use crate::ranges::{
    PORT_MEMBERS, Range, allowed_mechanisms, domain_range, held_value, port_range, priority_range,
    sdo_range,
};
use ptpm_data::Member::{Domain as DomainNumber, Priority1, PtpTimescale, Setting};
use ptpm_data::PortSetting::{DelayMechanism, LogAnnounceInterval};
use ptpm_data::{Member as DataSetMember, PortState};
use ptpm_members::Member::DataSet;
use ptpm_members::{Enumeration, Member, MemberValue};
use ptpm_site::judging::announcing::port_above;
use ptpm_site::judging::evidence::Evidence;
use ptpm_site::judging::expected::{Allowed, Outside};
use ptpm_site::judging::leaders::Leader;
use ptpm_site::reading::data_sets::{DefaultDataSet, PortDataSet};
use ptpm_site::reading::domain::Domain;
use ptpm_site::reading::site::Site;
use ptpm_site::reading::source::Source;

/// A member that is a number, if it is beyond its range.
fn member_outside(
    port: Option<u16>,
    member: Member,
    value: MemberValue<'static>,
    range: Option<Range>,
) -> Option<Outside> {
    let Range { least, greatest } = range?;
    if is_between(least, greatest, &value) {
        return None;
    }
    Some(Outside {
        port,
        member,
        value,
        allowed: Allowed::Range(least, greatest),
    })
}

/// What of a clock's domain and of its DEFAULT_DATA_SET is not allowed.
pub fn clock_outside(
    profile: Profile,
    domain: Domain,
    default: &DefaultDataSet,
) -> [Option<Outside>; 3] {
    let sdo = MemberValue::Unsigned(u64::from(domain.sdo()));
    let number = MemberValue::Unsigned(u64::from(default.domain));
    let priority1 = MemberValue::Unsigned(u64::from(default.priority1));
    [
        member_outside(None, Member::SdoId, sdo, sdo_range(profile)),
        member_outside(None, DataSet(DomainNumber), number, domain_range()),
        member_outside(None, DataSet(Priority1), priority1, priority_range(profile)),
    ]
}

/// ptpTimescale of a clock that leads and has, or had, a primary source of time, if it is false.
pub fn timescale_outside(leader: &Leader) -> Option<Outside> {
    let class = leader.quality()?.class;
    if class != 6 && class != 7 || leader.time?.ptp_timescale {
        return None;
    }
    Some(Outside {
        port: None,
        member: DataSet(PtpTimescale),
        value: MemberValue::Flag(false),
        allowed: Allowed::Set,
    })
}

/// What of a port's PORT_DATA_SET is not allowed.
pub fn port_outside(profile: Profile, number: u16, set: &PortDataSet) -> [Option<Outside>; 6] {
    [
        port_member_outside(profile, number, set, PORT_MEMBERS[0]),
        port_member_outside(profile, number, set, PORT_MEMBERS[1]),
        port_member_outside(profile, number, set, PORT_MEMBERS[2]),
        port_member_outside(profile, number, set, PORT_MEMBERS[3]),
        port_member_outside(profile, number, set, PORT_MEMBERS[4]),
        port_member_outside(profile, number, set, PORT_MEMBERS[5]),
    ]
}

/// A member of a port, if it is not allowed: a number by its range, and delayMechanism by those that are allowed.
fn port_member_outside(
    profile: Profile,
    number: u16,
    set: &PortDataSet,
    member: Member,
) -> Option<Outside> {
    match member {
        DataSet(Setting(DelayMechanism)) => mechanism_outside(profile, number, set),
        DataSet(member) => number_outside(profile, number, set, member),
        _ => None,
    }
}

/// A member of a port that is a number, if it is not allowed.
fn number_outside(
    profile: Profile,
    number: u16,
    set: &PortDataSet,
    member: DataSetMember,
) -> Option<Outside> {
    let value = held_value(set, member)?;
    let range = port_range(profile, member, set.log_sync);
    member_outside(Some(number), DataSet(member), value, range)
}

/// delayMechanism, if it is not allowed.
fn mechanism_outside(profile: Profile, number: u16, set: &PortDataSet) -> Option<Outside> {
    let allowed = allowed_mechanisms(profile, set.delay_mechanism)?;
    Some(Outside {
        port: Some(number),
        member: DataSet(Setting(DelayMechanism)),
        value: MemberValue::Named(Enumeration::DelayMechanism, set.delay_mechanism),
        allowed,
    })
}

/// Whether a port takes no part: it is in DISABLED or FAULTY.
pub fn is_idle(state: Option<PortState>) -> bool {
    matches!(state, Some(PortState::Disabled | PortState::Faulty))
}

/// logAnnounceInterval of a port that follows another, if it is not that of the other, and that one does not announce by unicast.
pub fn parent_outside(
    site: &Site,
    evidence: &Evidence,
    source: Source,
    number: u16,
    set: &PortDataSet,
) -> Option<Outside> {
    if !set.is_following() {
        return None;
    }
    let parent = site.parent(source)?.parent;
    if evidence.is_by_unicast(port_above(source, parent)) {
        return None;
    }
    let above = site.port(source.beside(parent.clock), parent.port)?;
    unlike_parent(number, set, &above)
}

/// logAnnounceInterval of a port, if it is not that of the port that it follows.
fn unlike_parent(number: u16, set: &PortDataSet, above: &PortDataSet) -> Option<Outside> {
    if above.log_announce == set.log_announce {
        return None;
    }
    Some(Outside {
        port: Some(number),
        member: DataSet(Setting(LogAnnounceInterval)),
        value: MemberValue::Signed(set.log_announce as i64),
        allowed: Allowed::OfParent(above.log_announce as i64),
    })
}
