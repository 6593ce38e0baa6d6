//! What time a clock says that it has, in Follow_Up and in Sync without twoStepFlag (13.6.2, 13.7.2). And how far that is from TAI, by the
//! clock of the host that asks.

ghost use Rattle.std.specs.Prelude.{◌+◌, ◌≤◌, length};

use crate::judging::evidence::Evidence;
use crate::judging::leaders::Leader;
use crate::judging::limits::Limits;
use crate::reading::heard::{FOLLOW_UP, SYNC, sender_in};
use crate::reading::numbers::flag_at;
use crate::reading::site::Site;
use crate::reading::source::Source;
use byteorder::{BigEndian, ByteOrder};
use std::alloc::{AllocError, Global};

/// What time a clock had when a message left it, by that message or the one after it, and when this came.
#[derive(Clone, Copy)]
pub struct Origin {
    pub source: Source,
    /// preciseOriginTimestamp of a Follow_Up, or originTimestamp of a Sync: its secondsField.
    pub seconds: u64,
    /// Its nanosecondsField, less than a second.
    pub nanoseconds: u32,
    /// In nanoseconds since 1970, by the clock of the host that asks.
    pub at: u64,
}

/// How far the time of a grandmaster is from TAI, by the clock of the host that asks.
#[derive(Clone, Copy)]
pub struct TimeError {
    pub origin: Origin,
    /// Whether it is less than TAI.
    pub is_behind: bool,
    /// The amount: whole seconds, and nanoseconds beside them.
    pub seconds: u64,
    pub nanoseconds: u32,
    /// Whether its UTC is right by the currentUtcOffset that it says, within half a second.
    pub has_right_utc: bool,
}

/// What the clock of the host that asks shows of a grandmaster's time.
#[derive(Clone, Copy)]
pub enum TimeVerdict {
    /// It is TAI, within half a second.
    Right,
    /// It is UTC, within half a second.
    Utc,
    /// It is neither.
    Wrong,
}

/// The time of a grandmaster, judged.
#[derive(Clone, Copy)]
pub struct JudgedTime {
    pub verdict: TimeVerdict,
    pub error: TimeError,
}

/// Half a second in nanoseconds.
const HALF_SECOND: u128 = 500_000_000;

/// A second in nanoseconds.
const SECOND: i128 = 1_000_000_000;

/// 1024 weeks in nanoseconds.
const ROLLOVER: u128 = 619_315_200_000_000_000;

/// Whether nanoseconds are half a second at most, of either sign.
fn is_small(nanoseconds: i128) -> bool {
    nanoseconds.unsigned_abs() <= HALF_SECOND
}

impl Origin {
    /// The Timestamp (5.3.3) in a datagram, which came at a time. `None` if its nanosecondsField is a second or more.
    fn in_octets(source: Source, at: u64, datagram: &[u8]) -> Option<Origin>
        requires { 44 ≤ length datagram.now }
    {
        let nanoseconds = BigEndian::read_u32(&datagram[40..]);
        if 1_000_000_000 <= nanoseconds {
            return None;
        }
        Some(Origin {
            source,
            seconds: BigEndian::read_u48(&datagram[34..]),
            nanoseconds,
            at,
        })
    }

    /// How many nanoseconds its time is ahead of one that is these seconds ahead of the host's UTC.
    fn ahead_of_utc_by(&self, seconds: i16) -> i128 {
        let time = i128::from(self.seconds) * SECOND + i128::from(self.nanoseconds);
        time.saturating_sub(i128::from(self.at) + i128::from(seconds) * SECOND)
    }
}

impl TimeError {
    /// That of a clock that says this currentUtcOffset.
    fn of(origin: Origin, tai_utc: i16, said: i16) -> TimeError {
        let error = origin.ahead_of_utc_by(tai_utc);
        let amount = error.unsigned_abs();
        TimeError {
            origin,
            is_behind: error < 0,
            seconds: u64::try_from(amount / 1_000_000_000).unwrap_or(u64::MAX),
            nanoseconds: (amount % 1_000_000_000) as u32,
            has_right_utc: is_small(origin.ahead_of_utc_by(said)),
        }
    }

    /// Whether it is a multiple of 1024 weeks, within half a second: a GPS receiver has it after a rollover of its weeks.
    pub fn is_by_rollover(&self) -> bool {
        let amount = u128::from(self.seconds) * 1_000_000_000 + u128::from(self.nanoseconds);
        let beyond = amount % ROLLOVER;
        HALF_SECOND < amount && (beyond <= HALF_SECOND || ROLLOVER - beyond <= HALF_SECOND)
    }
}

/// What a datagram says of the time of its sender, if it is known when it came. A Follow_Up says it, or a Sync of a clock of one step. One
/// with alternateMasterFlag counts as nothing.
pub fn origin_in(at: Option<u64>, datagram: &[u8]) -> Option<Origin> {
    let (sender, at) = (sender_in(datagram)?, at?);
    if datagram.len() < 44 || flag_at(datagram, 6, 0) {
        return None;
    }
    if sender.kind != FOLLOW_UP && (sender.kind != SYNC || flag_at(datagram, 6, 1)) {
        return None;
    }
    Origin::in_octets(sender.source, at, datagram)
}

/// The time of a clock that leads, judged by what was heard of it last. It is judged if the host has UTC, and the clock says that it gives
/// the timescale PTP, which is TAI (7.2).
pub fn judged_time(evidence: &Evidence, limits: Limits, leader: &Leader) -> Option<JudgedTime> {
    let said = leader.time?;
    if !limits.is_synchronised || !said.ptp_timescale {
        return None;
    }
    let origin = evidence.origins.get(&leader.source).copied()?;
    let verdict = if limits.tai_utc != 0 && is_small(origin.ahead_of_utc_by(0)) {
        TimeVerdict::Utc
    } else if is_small(origin.ahead_of_utc_by(limits.tai_utc)) {
        TimeVerdict::Right
    } else {
        TimeVerdict::Wrong
    };
    Some(JudgedTime {
        verdict,
        error: TimeError::of(origin, limits.tai_utc, said.utc_offset),
    })
}

/// The time of each of these clocks, which lead. `None`: it is not judged.
pub fn judged_times(
    alloc: Global,
    site: &Site,
    limits: Limits,
    leaders: &[Leader],
) -> Result<Vec<Option<JudgedTime>>, AllocError> {
    let evidence = Evidence::of(alloc, site.all_heard())?;
    let mut times = Vec::new(alloc);
    for leader in leaders {
        times.push(judged_time(&evidence, limits, leader))?;
    }
    Ok(times)
}
