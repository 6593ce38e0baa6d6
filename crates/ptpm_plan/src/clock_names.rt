//! What the clocks of a plan are called.

use crate::report::Report;
use crate::wish::{ClockWishes, Target};
use ptpm_codec::ClockIdentity;
use std::alloc::{AllocError, Global};
use std::fmt;

impl Report<'_> {
    /// The name of a clock, in quotes and after a space: its alias in the file, or else its userDescription. Nothing if it has none.
    pub fn quoted(
        &self,
        alloc: Global,
        domain: u8,
        clock: ClockIdentity,
    ) -> Result<Quoted, AllocError> {
        let description = self.answers.description(domain, clock).unwrap_or(&[]);
        let mut tables = self.file.clocks.iter();
        let table = tables.find(|table| is_alias_of(table, domain, clock, description));
        Ok(Quoted(match table.and_then(|table| table.alias.as_ref()) {
            Some(alias) => String::from_str(alloc, alias.as_str())?,
            None => String::from_utf8_lossy(alloc, description)?,
        }))
    }
}

/// Whether a table gives a clock of a domain an alias.
fn is_alias_of(table: &ClockWishes, domain: u8, clock: ClockIdentity, description: &[u8]) -> bool {
    let is_of_clock = match &table.target {
        Target::Identity(identity) => *identity == clock,
        Target::Description(text) => {
            table.domain == domain && text.as_str().as_bytes() == description
        }
    };
    table.alias.is_some() && is_of_clock
}

/// A name in quotes, after a space. Each character that is not printable is escaped.
#[derive(Drop)]
pub(crate) struct Quoted(String);

impl fmt::Display for Quoted {
    fn fmt<W: fmt::Write>(&self, f: &mut fmt::Formatter<W>) -> fmt::Result {
        if self.0.is_empty() {
            Ok(())
        } else {
            write!(f, " {:?}", self.0.as_str())
        }
    }
}
