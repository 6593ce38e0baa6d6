//! A line of a collection: words, and then a message in hexadecimal.

use hex::FromHexError;
use std::alloc::{AllocError, Global};
use std::str::FromStr;

/// Nanoseconds in a second.
const SECOND: u64 = 1_000_000_000;

/// A line.
#[derive(Drop)]
pub(crate) struct Line {
    /// When its message came or was sent, in nanoseconds since 1970.
    at: Option<u64>,
    /// What follows the time.
    rest: String,
    /// The message. A note has none.
    pub(crate) octets: Vec<u8>,
}

impl Line {
    pub(crate) fn of(alloc: Global, text: &str) -> Result<Line, AllocError> {
        let (at, rest) = match timed(text) {
            Some((at, rest)) => (Some(at), rest),
            None => (None, text),
        };
        Ok(Line {
            at,
            rest: String::from_str(alloc, rest)?,
            octets: message_in(alloc, rest)?,
        })
    }

    /// Sets its time as the clock of the host was set.
    pub(crate) fn shift(&mut self, step: i64) {
        let by = step.unsigned_abs();
        if let Some(at) = self.at {
            self.at = Some(if step < 0 {
                at.saturating_sub(by)
            } else {
                at.saturating_add(by)
            });
        }
    }

    /// Adds it to a text.
    pub(crate) fn write(&self, text: &mut String) -> Result<(), AllocError> {
        if let Some(at) = self.at {
            write!(text, "at={}.{:09} ", at / SECOND, at % SECOND)?;
        }
        text.push_str(self.rest.as_str())?;
        text.push_str("\n")
    }
}

/// The time that a line begins with, and what follows it.
fn timed(text: &str) -> Option<(u64, &str)> {
    let (time, rest) = text.strip_prefix("at=")?.split_once(' ')?;
    let (seconds, fraction) = time.split_once('.')?;
    if fraction.len() != 9 {
        return None;
    }
    let seconds = u64::from_str(seconds).ok()?.checked_mul(SECOND)?;
    Some((seconds.checked_add(u64::from_str(fraction).ok()?)?, rest))
}

/// The octets of the last word; none if it is not hexadecimal.
fn message_in(alloc: Global, text: &str) -> Result<Vec<u8>, AllocError> {
    let word = match text.rsplit_once(' ') {
        Some((_, word)) => word,
        None => text,
    };
    match hex::decode(alloc, word) {
        Ok(octets) => Ok(octets),
        Err(FromHexError::OutOfMemory) => Err(AllocError),
        Err(_) => Ok(Vec::new(alloc)),
    }
}
