//! The columns of a clock's line.

use crate::intervals::Whole;
use ptpm_codec::ClockIdentity;
use ptpm_site::judging::port_groups::PortGroup;
use ptpm_site::reading::site::Site;
use ptpm_site::reading::source::Source;
use std::alloc::{AllocError, Global};
use std::io::Write;
use std::{fmt, io};

/// How many characters a description may have in its column. A longer one moves what follows it.
const DESCRIPTION: usize = 24;

/// What comes after a clock's identity: its description, stepsRemoved, offset and mean delay.
#[derive(Drop)]
pub(crate) struct Columns {
    /// Or the name that an operator gave the clock. In quotes, with each character that is not printable escaped. `-` if there is
    /// neither.
    pub(crate) description: String,
    pub(crate) steps: String,
    /// `-` if no port is in SLAVE, since the value is then of an earlier time.
    pub(crate) offset: String,
    pub(crate) delay: String,
}

/// How many characters the widest of each column has. That of stepsRemoved is its head.
#[derive(Clone, Copy)]
pub(crate) struct Widths {
    /// How far to the right an identity begins.
    indent: usize,
    description: usize,
    offset: usize,
    delay: usize,
}

impl Widths {
    /// Those of the heads.
    pub(crate) fn of_heads() -> Widths {
        Widths {
            indent: 0,
            description: "userDescription".len(),
            offset: "offsetFromMaster".len(),
            delay: "meanDelay".len(),
        }
    }

    /// Prints the head of each column, in the standard's words.
    pub(crate) fn print_heads<O: Write>(&self, out: &mut O) -> io::Result<()> {
        let (identity, description) = (self.indent.saturating_add(14), self.description);
        let (offset, delay) = (self.offset, self.delay);
        writeln!(
            out,
            "  {:identity$}  {:description$}  stepsRemoved  {:>offset$}  {:>delay$}  portState",
            "clockIdentity", "userDescription", "offsetFromMaster", "meanDelay"
        )
    }

    /// Widens them so that these columns fit after an identity that begins `indent` characters from the
    /// left.
    pub(crate) fn widen(&mut self, indent: usize, columns: &Columns) {
        self.indent = self.indent.max(indent);
        let description = columns.description.as_str().chars().count();
        if description <= DESCRIPTION {
            self.description = self.description.max(description);
        }
        self.offset = self.offset.max(columns.offset.len());
        self.delay = self.delay.max(columns.delay.len());
    }
}

impl Columns {
    /// The columns of a clock. `name` is what a person calls it.
    pub(crate) fn of(
        alloc: Global,
        name: Option<&str>,
        site: &Site,
        source: Source,
    ) -> Result<Columns, AllocError> {
        let description = match name {
            Some(text) => format!(in alloc; "{text:?}")?,
            None => String::from_str(alloc, "-")?,
        };
        let mut steps = String::from_str(alloc, "-")?;
        let mut offset = String::from_str(alloc, "-")?;
        let mut delay = String::from_str(alloc, "-")?;
        if let Some(current) = site.current(source) {
            steps = format!(in alloc; "{}", current.steps_removed)?;
            delay = format!(in alloc; "{} ns", Whole(current.mean_delay))?;
            if site.has_port_of(source, PortGroup::Slave) {
                offset = format!(in alloc; "{} ns", Whole(current.offset_from_master))?;
            }
        }
        Ok(Columns {
            description,
            steps,
            offset,
            delay,
        })
    }

    /// Prints an identity that begins this many characters from the left, and the columns after it. Numbers are at the right.
    pub(crate) fn print<O: Write>(
        &self,
        identity: ClockIdentity,
        indent: usize,
        widths: &Widths,
        out: &mut O,
    ) -> io::Result<()> {
        let gap = widths.indent.saturating_sub(indent);
        let (description, steps) = (self.description.as_str(), self.steps.as_str());
        let (offset, delay) = (self.offset.as_str(), self.delay.as_str());
        let wide = widths.description;
        let (of_offset, of_delay) = (widths.offset, widths.delay);
        write!(
            out,
            "{:indent$}{identity}{:gap$}  {description:wide$}  {steps:>12}  {offset:>of_offset$}  {delay:>of_delay$}",
            "", ""
        )
    }
}

/// All except the description, in words.
impl fmt::Display for Columns {
    fn fmt<W: fmt::Write>(&self, f: &mut fmt::Formatter<W>) -> fmt::Result {
        let (steps, offset, delay) = (&self.steps, &self.offset, &self.delay);
        write!(f, "steps {steps}, offset {offset}, mean delay {delay}")
    }
}
