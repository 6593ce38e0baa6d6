//! Times in UTC, as ISO 8601 writes them.

use ptpm_site::judging::calendar::Date;
use std::fmt;

/// Nanoseconds in a second, and in a millisecond.
const SECOND: u64 = 1_000_000_000;

const MILLISECOND: u64 = 1_000_000;

/// Seconds in a day.
const DAY: u64 = 86_400;

/// A time in nanoseconds since 1970, cut off after its milliseconds: `2026-11-27T05:00:24.101Z`.
#[derive(Clone, Copy)]
pub(crate) struct UtcText(pub(crate) u64);

impl fmt::Display for UtcText {
    fn fmt<W: fmt::Write>(&self, f: &mut fmt::Formatter<W>) -> fmt::Result {
        let seconds = self.0 / SECOND;
        let millisecond = self.0 % SECOND / MILLISECOND;
        write!(f, "{}", Date::after(seconds / DAY))?;
        write_time_of_day(seconds % DAY, f)?;
        write!(f, ".{millisecond:03}Z")
    }
}

fn write_time_of_day<W: fmt::Write>(second: u64, f: &mut fmt::Formatter<W>) -> fmt::Result {
    let (hour, minute) = (second / 3_600, second / 60 % 60);
    write!(f, "T{hour:02}:{minute:02}:{:02}", second % 60)
}
