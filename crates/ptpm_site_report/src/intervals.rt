//! TimeIntervals as text (5.3.2).

use std::fmt;

/// A TimeInterval in nanoseconds, rounded to a whole number.
#[derive(Clone, Copy)]
pub(crate) struct Whole(pub(crate) i64);

/// A TimeInterval in nanoseconds, rounded to five decimal places. Zeros at its end are left out.
#[derive(Clone, Copy)]
pub(crate) struct Exact(pub(crate) i64);

/// Two to a logarithm, in seconds: whole ones, or a fraction with all its digits. Beyond 2^62 and 2^-16 it is printed as a power.
#[derive(Clone, Copy)]
pub(crate) struct Seconds(pub(crate) i8);

impl fmt::Display for Seconds {
    fn fmt<W: fmt::Write>(&self, f: &mut fmt::Formatter<W>) -> fmt::Result {
        match self.0 {
            0..=62 => write!(f, "{}", 1u64 << self.0 as u32),
            -16..=-1 => write_fraction(self.0.unsigned_abs(), f),
            power => write!(f, "2^{power}"),
        }
    }
}

/// One half to this power, which has as many digits after the point.
fn write_fraction<W: fmt::Write>(power: u8, f: &mut fmt::Formatter<W>) -> fmt::Result {
    let mut digits = 1u64;
    for _ in 0..power {
        digits = digits.wrapping_mul(5);
    }
    write!(f, "0.{digits:0width$}", width = usize::from(power))
}

impl fmt::Display for Whole {
    fn fmt<W: fmt::Write>(&self, f: &mut fmt::Formatter<W>) -> fmt::Result {
        let amount = (self.0.unsigned_abs() + 0x8000) / 0x1_0000;
        if self.0 < 0 && amount != 0 {
            f.write_str("-")?;
        }
        write!(f, "{amount}")
    }
}

impl fmt::Display for Exact {
    fn fmt<W: fmt::Write>(&self, f: &mut fmt::Formatter<W>) -> fmt::Result {
        let amount = self.0.unsigned_abs();
        let parts = (amount % 0x1_0000 * 100_000 + 0x8000) / 0x1_0000;
        let whole = amount / 0x1_0000 + parts / 100_000;
        if self.0 < 0 {
            f.write_str("-")?;
        }
        write!(f, "{whole}")?;
        match parts % 100_000 {
            0 => Ok(()),
            parts if parts % 10_000 == 0 => write!(f, ".{}", parts / 10_000),
            parts if parts % 100 == 0 => write!(f, ".{:03}", parts / 100),
            parts => write!(f, ".{parts:05}"),
        }
    }
}
