//! The members in which a clock differs from its grandmaster or from the port that it follows.

use crate::judging::announcing::takes_time;
use crate::reading::data_sets::{
    DefaultDataSet, ParentDataSet, PortDataSet, TimePropertiesDataSet,
};
use crate::reading::site::Site;
use crate::reading::source::Source;
use ptpm_codec::PortIdentity;
use ptpm_data::Member::*;
use ptpm_members::{Enumeration, Member, MemberValue};

/// A member in which two clocks differ, with both values.
#[derive(Clone, Copy)]
pub struct Differs {
    pub member: Member,
    pub own: MemberValue<'static>,
    pub other: MemberValue<'static>,
}

/// The member, if the values differ.
fn value_differs(
    member: Member,
    own: MemberValue<'static>,
    other: MemberValue<'static>,
) -> Option<Differs> {
    if own == other {
        return None;
    }
    Some(Differs { member, own, other })
}

/// priority1 or priority2, if the two differ.
fn priority_differs(member: Member, own: u8, other: u8) -> Option<Differs> {
    value_differs(
        member,
        MemberValue::Unsigned(u64::from(own)),
        MemberValue::Unsigned(u64::from(other)),
    )
}

/// The member, if the flags differ.
fn flag_differs(member: Member, own: bool, other: bool) -> Option<Differs> {
    value_differs(member, MemberValue::Flag(own), MemberValue::Flag(other))
}

/// The members in which what a clock says of its grandmaster differs from the grandmaster's DEFAULT_DATA_SET.
pub fn grandmaster_differs(
    own: &ParentDataSet,
    grandmaster: &DefaultDataSet,
) -> [Option<Differs>; 3] {
    [
        priority_differs(
            Member::DataSet(GrandmasterPriority1),
            own.priority1,
            grandmaster.priority1,
        ),
        value_differs(
            Member::GrandmasterClockQuality,
            MemberValue::Quality(own.quality),
            MemberValue::Quality(grandmaster.quality),
        ),
        priority_differs(
            Member::DataSet(GrandmasterPriority2),
            own.priority2,
            grandmaster.priority2,
        ),
    ]
}

/// grandmasterIdentity, if a clock names another one than the clock that it follows.
pub fn other_grandmaster(own: &ParentDataSet, parent: &ParentDataSet) -> Option<Differs> {
    value_differs(
        Member::DataSet(Grandmaster),
        MemberValue::Clock(own.grandmaster),
        MemberValue::Clock(parent.grandmaster),
    )
}

/// The members in which what a clock says of UTC differs from what its grandmaster says.
pub fn utc_differs(
    own: &TimePropertiesDataSet,
    grandmaster: &TimePropertiesDataSet,
) -> [Option<Differs>; 5] {
    [
        value_differs(
            Member::DataSet(UtcOffset),
            MemberValue::Signed(i64::from(own.utc_offset)),
            MemberValue::Signed(i64::from(grandmaster.utc_offset)),
        ),
        flag_differs(
            Member::DataSet(UtcValid),
            own.utc_valid,
            grandmaster.utc_valid,
        ),
        flag_differs(
            Member::DataSet(PtpTimescale),
            own.ptp_timescale,
            grandmaster.ptp_timescale,
        ),
        flag_differs(Member::DataSet(Leap59), own.leap59, grandmaster.leap59),
        flag_differs(Member::DataSet(Leap61), own.leap61, grandmaster.leap61),
    ]
}

/// The delayMechanism of a port, and that of the port that it follows.
#[derive(Clone, Copy)]
pub struct OtherMechanism {
    pub own: MemberValue<'static>,
    pub parent: PortIdentity,
    pub expected: MemberValue<'static>,
}

/// Whether one port measures the delay from end to end, and the other that of the link. No other pair counts as different.
fn measures_otherwise(own: &PortDataSet, parent: &PortDataSet) -> bool {
    own.measures_link() && parent.measures_end_to_end()
        || own.measures_end_to_end() && parent.measures_link()
}

/// How a port measures the delay, if the port that it takes time from does it in the other way.
pub fn other_mechanism(site: &Site, source: Source, port: u16) -> Option<OtherMechanism> {
    let parent = site.parent(source)?.parent;
    let own = site.port(source, port)?;
    let above = site.port(source.beside(parent.clock), parent.port)?;
    if !takes_time(site, source, &own) || !measures_otherwise(&own, &above) {
        return None;
    }
    Some(OtherMechanism {
        own: MemberValue::Named(Enumeration::DelayMechanism, own.delay_mechanism),
        parent,
        expected: MemberValue::Named(Enumeration::DelayMechanism, above.delay_mechanism),
    })
}
