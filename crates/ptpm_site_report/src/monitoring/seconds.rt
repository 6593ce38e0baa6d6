//! Times in seconds, the unit of monitoring systems.

use ptpm_site::reading::origin::TimeError;
use std::fmt;

/// Nanoseconds in a second.
const SECOND: u64 = 1_000_000_000;

/// A TimeInterval (5.3.2) in seconds: with nine decimal places, or with fourteen if it is no whole number of nanoseconds.
#[derive(Clone, Copy)]
pub(crate) struct IntervalSeconds(pub(crate) i64);

/// Nanoseconds in seconds, with nine decimal places.
#[derive(Clone, Copy)]
pub(crate) struct NanosecondSeconds(pub(crate) u64);

/// How far a time is from TAI, with nine decimal places, negative if it is late.
#[derive(Clone, Copy)]
pub(crate) struct ErrorSeconds(pub(crate) TimeError);

/// The whole seconds in N nanoseconds.
pub(crate) fn whole_seconds(nanoseconds: u64) -> u64 {
    nanoseconds / SECOND
}

impl fmt::Display for NanosecondSeconds {
    fn fmt<W: fmt::Write>(&self, f: &mut fmt::Formatter<W>) -> fmt::Result {
        write!(f, "{}.{:09}", self.0 / SECOND, self.0 % SECOND)
    }
}

impl fmt::Display for ErrorSeconds {
    fn fmt<W: fmt::Write>(&self, f: &mut fmt::Formatter<W>) -> fmt::Result {
        let sign = if self.0.is_behind { "-" } else { "" };
        write!(f, "{sign}{}.{:09}", self.0.seconds, self.0.nanoseconds)
    }
}

impl fmt::Display for IntervalSeconds {
    fn fmt<W: fmt::Write>(&self, f: &mut fmt::Formatter<W>) -> fmt::Result {
        let amount = self.0.unsigned_abs();
        let parts = (amount % 0x1_0000 * 100_000 + 0x8000) / 0x1_0000;
        let whole = amount / 0x1_0000 + parts / 100_000;
        if self.0 < 0 {
            f.write_str("-")?;
        }
        write!(f, "{}", NanosecondSeconds(whole))?;
        match parts % 100_000 {
            0 => Ok(()),
            parts => write!(f, "{parts:05}"),
        }
    }
}
