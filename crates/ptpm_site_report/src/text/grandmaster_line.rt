//! What is said of a grandmaster that leads, in a line.

use ptpm_members::Enumeration;
use ptpm_site::judging::leaders::Leader;
use ptpm_site::picture::Picture;
use ptpm_site::reading::data_sets::TimePropertiesDataSet;
use ptpm_site::reading::origin::{JudgedTime, TimeVerdict};
use std::fmt;

/// A grandmaster that leads. What is not said of it is left out.
#[derive(Clone, Copy)]
pub(crate) struct GrandmasterLine<'a> {
    leader: &'a Leader,
    time: Option<JudgedTime>,
}

impl<'a> GrandmasterLine<'a> {
    pub(crate) fn of(picture: &Picture<'_>, leader: &'a Leader) -> GrandmasterLine<'a> {
        let time = judged_time(picture, leader);
        GrandmasterLine { leader, time }
    }
}

/// The time of a grandmaster that leads, if it is judged.
pub(crate) fn judged_time(picture: &Picture<'_>, leader: &Leader) -> Option<JudgedTime> {
    let all = picture.leaders.as_slice();
    let place = all.partition_point(|other| other.source < leader.source);
    *picture.times.get(place)?
}

/// What is said of the time of a grandmaster. Nothing if it is wrong, since that is a finding.
fn verdict_text(time: Option<JudgedTime>) -> &'static str {
    match time {
        None => " time not judged",
        Some(judged) => match judged.verdict {
            TimeVerdict::Right => " time right by the clock of this host",
            TimeVerdict::Utc | TimeVerdict::Wrong => "",
        },
    }
}

impl fmt::Display for GrandmasterLine<'_> {
    fn fmt<W: fmt::Write>(&self, f: &mut fmt::Formatter<W>) -> fmt::Result {
        let Leader {
            source,
            attributes,
            time,
            ..
        } = *self.leader;
        write!(f, "grandmaster {}", source.clock)?;
        let mut between = ":";
        if let Some(told) = attributes {
            let (class, accuracy) = (told.quality.class, told.quality.accuracy);
            write!(f, ": class {class}, accuracy 0x{accuracy:02x}")?;
            between = ",";
        }
        if let Some(set) = time {
            f.write_str(between)?;
            write_time(&set, f)?;
            between = ",";
        }
        if let Some(told) = attributes {
            write!(f, ", priorities {} and {}", told.priority1, told.priority2)?;
        }
        match verdict_text(self.time) {
            "" => Ok(()),
            text => write!(f, "{between}{text}"),
        }
    }
}

fn write_time<W: fmt::Write>(
    set: &TimePropertiesDataSet,
    f: &mut fmt::Formatter<W>,
) -> fmt::Result {
    match Enumeration::TimeSource.name_of(set.time_source) {
        Some(name) => write!(f, " {name}, ")?,
        None => write!(f, " time source 0x{:02x}, ", set.time_source)?,
    }
    let timescale = if set.ptp_timescale { "PTP" } else { "ARB" };
    let valid = if set.utc_valid { "valid" } else { "not valid" };
    let leap = if set.leap61 {
        "leap61"
    } else if set.leap59 {
        "leap59"
    } else {
        "no leap second"
    };
    let traceable = if set.time_traceable && set.frequency_traceable {
        "traceable"
    } else {
        "not traceable"
    };
    write!(
        f,
        "{timescale} timescale, UTC offset {} {valid}, {leap}, {traceable}",
        set.utc_offset
    )
}
