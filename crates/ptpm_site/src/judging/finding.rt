//! Findings.

use crate::judging::amounts::TooFarOff;
use crate::judging::announcing::Seldom;
use crate::judging::completeness::Missing;
use crate::judging::differences::{Differs, OtherMechanism};
use crate::judging::expected::{OtherLeaders, Outside, Unmet};
use crate::judging::frozen::FrozenOffset;
use crate::judging::grandmasters::Masterless;
use crate::judging::leading::{
    Better, Degraded, Doubtful, FalseLeap, Leap, Untraceable, WrongOffset,
};
use crate::judging::parents::{NoMaster, Steps};
use crate::judging::tai_and_utc::OffByUtc;
use crate::judging::twice::Twice;
use crate::judging::unseen::Absence;
use crate::looks::changes::Change;
use crate::looks::grandmaster_changes::GrandmasterChange;
use crate::looks::stay::Stay;
use crate::looks::staying::Unlocked;
use crate::reading::origin::TimeError;
use crate::reading::source::Source;
use crate::reading::untaken::NotTaken;
use ptpm_codec::{ClockIdentity, PortIdentity};
use std::alloc::AllocError;

/// Something that is wrong with a clock.
#[derive(Drop)]
pub struct Finding<'a> {
    pub source: Source,
    pub what: What<'a>,
}

/// What is wrong, in the order in which the findings of a clock are reported.
#[derive(Drop)]
pub enum What<'a> {
    /// The inventory names it, and it is not seen. The description that it has there, if it has one.
    Absent(Option<&'a str>),
    /// The inventory of its domain does not name it.
    Unexpected,
    /// A member is not as the inventory wants it.
    NotAsExpected(Unmet<'a>),
    /// Other clocks lead than those that the inventory wants. It is the first of them.
    OtherLeaders(OtherLeaders<'a>),
    /// It answered, and not to the last request to all clocks.
    Gone,
    /// It is not seen, and its answers were not taken.
    NotTaken(NotTaken<'a>),
    /// It is not seen, and a clock names it or it sends by itself.
    Unseen(Absence),
    /// Its domain was not asked. It is the first of this many clocks that send there.
    NotAsked(usize),
    /// It is one of two or more clocks of the domain that are their own grandmasters and have a port in MASTER.
    TwoGrandmasters,
    /// It takes time from no clock.
    NoMaster(Masterless),
    /// The grandmaster that it names is not seen.
    GrandmasterNotSeen(ClockIdentity),
    /// The clock that it follows is not seen.
    ParentNotSeen(PortIdentity),
    /// The port that it follows gives no time.
    ParentNotMaster(PortIdentity, NoMaster),
    /// stepsRemoved is not 0 at a grandmaster, or not one more than that of the clock that it follows.
    Steps(Steps),
    /// What it says of its grandmaster differs from what the grandmaster says, or the clock that it follows.
    GrandmasterDiffers(Differs),
    /// It is the least of the clocks of a loop. The list has all of them: each is followed by the one that it
    /// follows.
    Loop(Vec<ClockIdentity>),
    /// A port is FAULTY, or stays on its way to another state for too long.
    PortState(u16, Stay),
    /// A port stays in UNCALIBRATED for too long.
    NotLocked(u16, Unlocked),
    /// A port in SLAVE, and its offsetFromMaster stays the same.
    OffsetFrozen(FrozenOffset),
    /// It leads, and its time is not that of the host that asks.
    GrandmasterTime(TimeError),
    /// It takes TAI and UTC for each other, or all clocks that follow it do.
    OffByUtc(OffByUtc),
    /// Its offsetFromMaster is beyond the limit, or it leads and those of all clocks that follow it are.
    Offset(TooFarOff),
    /// meanDelay is beyond the limit.
    Delay(i64),
    /// meanLinkDelay of a port is beyond the limit.
    LinkDelay(u16, i64),
    /// What it says of UTC differs from what its grandmaster says.
    Utc(Differs),
    /// The port that a port follows announces too seldom for it.
    Intervals(u16, Seldom),
    /// A port measures the delay in another way than the port that it follows.
    DelayMechanism(u16, OtherMechanism),
    /// It leads, says that it is locked to its source of time, and says what a clock without a source says.
    GrandmasterDoubtful(Doubtful),
    /// It leads, and is without its source of time.
    Degraded(Degraded),
    /// It leads, and does not say that its time and its frequency are traceable.
    NotTraceable(Untraceable),
    /// It leads, and does not say that its currentUtcOffset is valid.
    UtcInvalid(i16),
    /// It leads, and its currentUtcOffset is not the difference of TAI and UTC.
    UtcOffset(WrongOffset),
    /// It leads, and announces a leap second that can't come.
    LeapFalse(FalseLeap),
    /// It leads, and announces a leap second.
    Leap(Leap),
    /// It leads, and there is a clock of a better class that does not.
    BetterClock(Better),
    /// A member is not what the profile allows.
    Profile(Outside),
    /// Not all that it was asked for was answered.
    Incomplete(Missing),
    /// It was reached by the last of this many boundary hops, and has two ports or more.
    OutOfReach(u8),
    /// Clocks went from one grandmaster to another.
    GrandmasterChanged(GrandmasterChange),
    /// Answers to two requests differ.
    Changed(Option<u16>, Change<'a>),
    /// Answers to one request differ, or came from two addresses.
    IdentityTwice(Twice<'a>),
}

/// Whether findings were added: not if memory is refused.
pub type Added = Result<(), AllocError>;

/// Adds a finding after all earlier ones.
pub fn add_finding<'a>(findings: &mut Vec<Finding<'a>>, source: Source, what: What<'a>) -> Added {
    findings.push(Finding { source, what })?;
    Ok(())
}
