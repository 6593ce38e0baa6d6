//! Days of the Gregorian calendar.

use std::fmt;

/// A day in UTC.
#[derive(Clone, Copy)]
pub struct Date {
    pub year: u64,
    pub month: u64,
    pub day: u64,
}

/// Nanoseconds in a day.
const DAY: u64 = 86_400_000_000_000;

/// How many days are from 1970-01-01 to a time in nanoseconds since then.
pub fn day_of(time: u64) -> u64 {
    time / DAY
}

/// The year of 400 years that a day is in, each from March on.
fn year_of_era(day: u64) -> u64 {
    let leap_days = day / 1_460 + day / 146_096;
    day.saturating_add(day / 36_524).saturating_sub(leap_days) / 365
}

impl Date {
    /// The day that is this many days after 1970-01-01.
    pub fn after(days: u64) -> Date {
        // The years of 400 years begin with March here, so a leap day is the last of its year. The first of them is 0000-03-01.
        let since_march = days.saturating_add(719_468);
        let day_of_era = since_march % 146_097;
        let year_of_era = year_of_era(day_of_era);
        let leap_days = (year_of_era / 4).saturating_sub(year_of_era / 100);
        let first_of_year = year_of_era.saturating_mul(365).saturating_add(leap_days);
        let day_of_year = day_of_era.saturating_sub(first_of_year);
        let month = (5 * day_of_year + 2) / 153;
        let since_era = year_of_era.saturating_add(u64::from(10 <= month));
        Date {
            year: (since_march / 146_097 * 400).saturating_add(since_era),
            month: (month + 2) % 12 + 1,
            day: (day_of_year + 1).saturating_sub((153 * month + 2) / 5),
        }
    }
}

impl fmt::Display for Date {
    /// As ISO 8601 writes it: `2026-11-29`.
    fn fmt<W: fmt::Write>(&self, f: &mut fmt::Formatter<W>) -> fmt::Result {
        write!(f, "{:04}-{:02}-{:02}", self.year, self.month, self.day)
    }
}

/// Whether the day that is this many days after 1970-01-01 is the last of its month.
pub fn ends_month(days: u64) -> bool {
    Date::after(days.saturating_add(1)).day == 1
}
