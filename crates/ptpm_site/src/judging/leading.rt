//! What a clock that leads says of its time: its clockClass (7.6.2.5) and its TIME_PROPERTIES_DATA_SET (8.2.4). And a clock that
//! would be a better grandmaster.

use crate::judging::calendar::{Date, day_of, ends_month};
use crate::judging::limits::Limits;
use crate::reading::data_sets::TimePropertiesDataSet;
use crate::reading::site::Site;
use crate::reading::source::Source;
use ptpm_codec::ClockIdentity;
use ptpm_members::ClockQuality;
use std::alloc::{AllocError, Global};

/// How far a clock is from a primary source of time, by its clockClass.
#[derive(Clone, Copy)]
pub enum Degradation {
    /// 7 and 14: it had a source, and still keeps to its holdover specification.
    Holdover,
    /// 52, 58, 187 and 193: it had a source, and no longer keeps to that specification.
    Degraded,
    /// 248 and 255: it has no source.
    FreeRunning,
}

/// A clock without its source of time.
#[derive(Clone, Copy)]
pub struct Degraded {
    pub degradation: Degradation,
    pub quality: ClockQuality,
}

/// A clock that has, or had, a primary source of time, and does not say that its time can be traced to one.
#[derive(Clone, Copy)]
pub struct Untraceable {
    /// clockClass.
    pub class: u8,
    /// timeTraceable.
    pub time: bool,
    /// frequencyTraceable.
    pub frequency: bool,
}

/// A currentUtcOffset that is said to be valid, and is not the difference of TAI and UTC. Both are in seconds.
#[derive(Clone, Copy)]
pub struct WrongOffset {
    pub said: i16,
    pub is: i16,
}

/// A leap second at the end of this day in UTC.
#[derive(Clone, Copy)]
pub struct Leap {
    pub leap61: bool,
    pub leap59: bool,
    /// Whether it would be at the end of another month than June and December: so far none was.
    pub is_unusual: bool,
}

/// A leap second that can't come.
#[derive(Clone, Copy)]
pub struct FalseLeap {
    pub leap61: bool,
    pub leap59: bool,
    /// The day, which is not the last of its month. `None`: both are announced.
    pub date: Option<Date>,
}

/// What a clock says that says that it is locked to its source of time (clockClass 6), and says what one without a source says.
#[derive(Clone, Copy)]
pub struct Doubtful {
    pub quality: ClockQuality,
    /// timeSource.
    pub time_source: u8,
}

/// A clock of a better class than the one that leads.
#[derive(Clone, Copy)]
pub struct Better {
    /// clockClass of the clock that leads.
    pub class: u8,
    /// The better clock, and what it says of itself.
    pub clock: ClockIdentity,
    pub quality: ClockQuality,
    pub priority1: u8,
}

/// How far a clock of this class is from a source of time. `None` if it has one, or if its class says nothing of it.
fn degradation_of(class: u8) -> Option<Degradation> {
    match class {
        7 | 14 => Some(Degradation::Holdover),
        52 | 58 | 187 | 193 => Some(Degradation::Degraded),
        248 | 255 => Some(Degradation::FreeRunning),
        _ => None,
    }
}

/// A clock's quality, if it is without its source of time.
pub fn without_source(quality: ClockQuality) -> Option<Degraded> {
    Some(Degraded {
        degradation: degradation_of(quality.class)?,
        quality,
    })
}

/// What a clock of class 6 or 7 says, if it isn't that its time and its frequency are traceable.
pub fn not_traceable(quality: ClockQuality, time: &TimePropertiesDataSet) -> Option<Untraceable> {
    let class = quality.class;
    if (class == 6 || class == 7)
        && time.ptp_timescale
        && !(time.time_traceable && time.frequency_traceable)
    {
        Some(Untraceable {
            class,
            time: time.time_traceable,
            frequency: time.frequency_traceable,
        })
    } else {
        None
    }
}

/// currentUtcOffset, in seconds, if it is not said to be valid.
pub fn invalid_offset(time: &TimePropertiesDataSet) -> Option<i16> {
    if time.ptp_timescale && !time.utc_valid {
        Some(time.utc_offset)
    } else {
        None
    }
}

/// currentUtcOffset, if it is said to be valid and isn't this many seconds.
pub fn wrong_offset(tai_utc: i16, time: &TimePropertiesDataSet) -> Option<WrongOffset> {
    if time.ptp_timescale && time.utc_valid && time.utc_offset != tai_utc {
        Some(WrongOffset {
            said: time.utc_offset,
            is: tai_utc,
        })
    } else {
        None
    }
}

/// timeSource INTERNAL_OSCILLATOR (7.6.2.8).
const INTERNAL_OSCILLATOR: u8 = 0xa0;

/// clockAccuracy unknown (7.6.2.6).
const ACCURACY_UNKNOWN: u8 = 0xfe;

/// What a clock of class 6 says of its accuracy and of its source, if one without a source says that too. It is passed over if it claims neither
/// the timescale PTP nor that its time is traceable.
pub fn doubtful_source(quality: ClockQuality, time: &TimePropertiesDataSet) -> Option<Doubtful> {
    let claims = time.ptp_timescale || time.time_traceable;
    let is_vague = quality.accuracy == ACCURACY_UNKNOWN || time.time_source == INTERNAL_OSCILLATOR;
    if quality.class == 6 && claims && is_vague {
        Some(Doubtful {
            quality,
            time_source: time.time_source,
        })
    } else {
        None
    }
}

/// Nanoseconds in a minute.
const MINUTE: u64 = 60_000_000_000;

/// How many days after 1970-01-01 the last datagram came, in UTC. `None` if the clock of the host that asks may be wrong. A leap second is announced
/// for some time after the midnight that it comes at (9.4): a minute is allowed.
pub fn today(site: &Site, limits: Limits) -> Option<u64> {
    if limits.is_synchronised {
        Some(day_of(site.shown.latest?.saturating_sub(MINUTE)))
    } else {
        None
    }
}

/// The leap second that a clock announces, if it can't come: both are announced, or the day is not the last of its month.
pub fn false_leap(time: &TimePropertiesDataSet, today: Option<u64>) -> Option<FalseLeap> {
    let date = match (time.leap61, time.leap59, today) {
        (true, true, _) => None,
        (false, false, _) | (_, _, None) => return None,
        (_, _, Some(days)) => {
            if ends_month(days) {
                return None;
            }
            Some(Date::after(days))
        }
    };
    Some(FalseLeap {
        leap61: time.leap61,
        leap59: time.leap59,
        date,
    })
}

/// The leap second that a clock announces, if it announces one that can come.
pub fn announced_leap(time: &TimePropertiesDataSet, today: Option<u64>) -> Option<Leap> {
    if !time.leap61 && !time.leap59 || false_leap(time, today).is_some() {
        return None;
    }
    Some(Leap {
        leap61: time.leap61,
        leap59: time.leap59,
        is_unusual: match today {
            Some(days) => Date::after(days).month % 6 != 0,
            None => false,
        },
    })
}

/// Whether a clock that may lead, of a class below 128, does not.
fn stands_by(site: &Site, source: Source) -> bool {
    match site.default(source) {
        Some(default) => {
            !default.slave_only && default.quality.class < 128 && !site.leads_by_answers(source)
        }
        None => false,
    }
}

/// Those of all clocks that may lead, are of a class below 128, and do not lead.
pub fn all_standing_by(
    alloc: Global,
    site: &Site,
    sources: &[Source],
) -> Result<Vec<Source>, AllocError> {
    sources
        .iter()
        .copied()
        .filter(|source| stands_by(site, *source))
        .collect(alloc)
}

/// Another clock of the domain, if it is of a better class than the one that leads.
fn better_of(site: &Site, source: Source, class: u8, other: Source) -> Option<Better> {
    let default = site.default(other)?;
    if source.domain != other.domain || class <= default.quality.class {
        return None;
    }
    Some(Better {
        class,
        clock: other.clock,
        quality: default.quality,
        priority1: default.priority1,
    })
}

/// A clock of a better class than the one that leads. `others` has all clocks that stand by.
pub fn better_clock(
    site: &Site,
    source: Source,
    quality: ClockQuality,
    others: &[Source],
) -> Option<Better> {
    for other in others {
        let better = better_of(site, source, quality.class, *other);
        if better.is_some() {
            return better;
        }
    }
    None
}
