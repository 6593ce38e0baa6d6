//! Names that an operator gave to clocks.

use ptpm_codec::ClockIdentity;
use ptpm_members::clock_identity_of;
use std::alloc::{AllocError, Global};
use std::collections::BTreeMap;
use std::fmt;

/// The name of each clock that has one, by its identity.
#[derive(Drop)]
pub struct Names {
    names: BTreeMap<ClockIdentity, String>,
}

impl Names {
    /// No clock has a name.
    pub fn new(alloc: Global) -> Names {
        Names {
            names: BTreeMap::new(alloc),
        }
    }

    /// Gives a clock a name, in place of an earlier one: `0200c8fffe000301=camera 7`. False if the words are none of these, or
    /// the name is empty; then nothing changes.
    pub fn add(&mut self, alloc: Global, words: &str) -> Result<bool, AllocError> {
        let Some((clock, name)) = named_clock(words) else {
            return Ok(false);
        };
        let name = String::from_str(alloc, name)?;
        let _ = self.names.insert(clock, name)?;
        Ok(true)
    }

    /// The name of a clock, if it has one.
    pub(crate) fn get(&self, clock: ClockIdentity) -> Option<&str> {
        Some(self.names.get(&clock)?.as_str())
    }

    /// The name of a clock in quotes, after a space; nothing if it has none.
    pub(crate) fn quoted(&self, clock: ClockIdentity) -> Quoted<'_> {
        Quoted(self.get(clock))
    }
}

/// A clock by its identity, and its name.
fn named_clock(words: &str) -> Option<(ClockIdentity, &str)> {
    let (clock, name) = words.split_once('=')?;
    if name.is_empty() {
        return None;
    }
    Some((clock_identity_of(clock)?, name))
}

/// A name in quotes, after a space. Each character that is not printable is escaped.
#[derive(Clone, Copy)]
pub(crate) struct Quoted<'a>(pub(crate) Option<&'a str>);

impl fmt::Display for Quoted<'_> {
    fn fmt<W: fmt::Write>(&self, f: &mut fmt::Formatter<W>) -> fmt::Result {
        match self.0 {
            Some(name) => write!(f, " {name:?}"),
            None => Ok(()),
        }
    }
}
