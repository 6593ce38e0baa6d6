//! The families of numbers that are said of clocks, ports and grandmasters.

use crate::monitoring::seconds::IntervalSeconds;
use ptpm_site::judging::leaders::Leader;
use ptpm_site::judging::port_groups::PortGroup;
use ptpm_site::reading::data_sets::{PortDataSet, TimePropertiesDataSet};
use ptpm_site::reading::site::Site;
use ptpm_site::reading::source::Source;
use std::io::Write;
use std::{fmt, io};

/// Writes what comes before the numbers of a family. Its name ends with its unit, if it has one. Each family is a gauge. The older
/// text format of Prometheus has no type `info`, and what reads it refuses that. A gauge whose name ends with `_info` is taken by
/// all.
pub(crate) fn write_head<O: Write>(name: &str, help: &str, out: &mut O) -> io::Result<()> {
    writeln!(out, "# TYPE {name} gauge")?;
    if name.ends_with("_seconds") {
        writeln!(out, "# UNIT {name} seconds")?;
    }
    writeln!(out, "# HELP {name} {help}")
}

/// A number of a family.
#[derive(Clone, Copy)]
pub(crate) enum Amount {
    Number(i64),
    /// A TimeInterval.
    Interval(i64),
}

impl fmt::Display for Amount {
    fn fmt<W: fmt::Write>(&self, f: &mut fmt::Formatter<W>) -> fmt::Result {
        match self {
            Amount::Number(number) => write!(f, "{number}"),
            Amount::Interval(interval) => write!(f, "{}", IntervalSeconds(*interval)),
        }
    }
}

/// What is said of a clock.
#[derive(Clone, Copy)]
pub(crate) enum OfClock {
    Offset,
    Delay,
    Steps,
}

impl OfClock {
    pub(crate) fn name(self) -> &'static str {
        match self {
            OfClock::Offset => "ptp_offset_from_master_seconds",
            OfClock::Delay => "ptp_mean_delay_seconds",
            OfClock::Steps => "ptp_steps_removed",
        }
    }

    pub(crate) fn help(self) -> &'static str {
        match self {
            OfClock::Offset => "offsetFromMaster of a clock with a port in SLAVE.",
            OfClock::Delay => "meanDelay of a clock with a port in SLAVE.",
            OfClock::Steps => "stepsRemoved.",
        }
    }

    /// The number of a clock, if it answered, and the number is not from an earlier time.
    pub(crate) fn amount(self, site: &Site, source: Source) -> Option<Amount> {
        Some(match self {
            OfClock::Offset if site.has_port_of(source, PortGroup::Slave) => {
                Amount::Interval(site.current(source)?.offset_from_master)
            }
            OfClock::Delay if site.has_port_of(source, PortGroup::Slave) => {
                Amount::Interval(site.current(source)?.mean_delay)
            }
            OfClock::Offset | OfClock::Delay => return None,
            OfClock::Steps => Amount::Number(site.current(source)?.steps_removed as i64),
        })
    }
}

/// What is said of a grandmaster that leads.
#[derive(Clone, Copy)]
pub(crate) enum OfGrandmaster {
    Class,
    Accuracy,
    UtcOffsetValid,
    TimeTraceable,
    Leap,
    UtcOffset,
}

impl OfGrandmaster {
    pub(crate) fn name(self) -> &'static str {
        match self {
            OfGrandmaster::Class => "ptp_grandmaster_clock_class",
            OfGrandmaster::Accuracy => "ptp_grandmaster_clock_accuracy",
            OfGrandmaster::UtcOffsetValid => "ptp_grandmaster_utc_offset_valid",
            OfGrandmaster::TimeTraceable => "ptp_grandmaster_time_traceable",
            OfGrandmaster::Leap => "ptp_grandmaster_leap",
            OfGrandmaster::UtcOffset => "ptp_grandmaster_utc_offset_seconds",
        }
    }

    pub(crate) fn help(self) -> &'static str {
        match self {
            OfGrandmaster::Class => "clockClass of the grandmaster.",
            OfGrandmaster::Accuracy => "clockAccuracy of the grandmaster, as its number.",
            OfGrandmaster::UtcOffsetValid => "currentUtcOffsetValid.",
            OfGrandmaster::TimeTraceable => "timeTraceable.",
            OfGrandmaster::Leap => "1 if leap61, -1 if leap59, else 0.",
            OfGrandmaster::UtcOffset => "currentUtcOffset: TAI minus UTC.",
        }
    }

    /// The number of a grandmaster, if it is said.
    pub(crate) fn amount(self, leader: &Leader) -> Option<i64> {
        Some(match self {
            OfGrandmaster::Class => leader.attributes?.quality.class as i64,
            OfGrandmaster::Accuracy => leader.attributes?.quality.accuracy as i64,
            OfGrandmaster::UtcOffsetValid => leader.time?.utc_valid as i64,
            OfGrandmaster::TimeTraceable => leader.time?.time_traceable as i64,
            OfGrandmaster::Leap => leap_number(&leader.time?),
            OfGrandmaster::UtcOffset => leader.time?.utc_offset as i64,
        })
    }
}

/// Which second the last minute of the day has more, or less.
fn leap_number(time: &TimePropertiesDataSet) -> i64 {
    if time.leap61 {
        1
    } else if time.leap59 {
        -1
    } else {
        0
    }
}

/// What is said of a port.
#[derive(Clone, Copy)]
pub(crate) enum OfPort {
    State,
    LinkDelay,
}

impl OfPort {
    pub(crate) fn name(self) -> &'static str {
        match self {
            OfPort::State => "ptp_port_state",
            OfPort::LinkDelay => "ptp_port_mean_link_delay_seconds",
        }
    }

    pub(crate) fn help(self) -> &'static str {
        match self {
            OfPort::State => {
                "portState as its number: 1 INITIALIZING, 2 FAULTY, 3 DISABLED, 4 LISTENING, 5 PRE_MASTER, 6 MASTER, 7 PASSIVE, 8 UNCALIBRATED, 9 SLAVE."
            }
            OfPort::LinkDelay => "meanLinkDelay of a port with P2P or COMMON_P2P.",
        }
    }

    /// The number of a port, if it has one.
    pub(crate) fn amount(self, set: &PortDataSet) -> Option<Amount> {
        match self {
            OfPort::State => Some(Amount::Number(set.state as i64)),
            OfPort::LinkDelay if set.measures_link() => {
                Some(Amount::Interval(set.mean_link_delay))
            }
            OfPort::LinkDelay => None,
        }
    }
}
