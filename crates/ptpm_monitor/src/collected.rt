//! What a host collected for a look.

ghost use Rattle.std.specs.Prelude.{◌≡◌};
ghost use Rattle.std.specs.List.{list_all};

use crate::ended::Ended;
use crate::left_out::LeftOut;
use crate::line::Line;
use crate::seen::Seen;
use crate::way::Way;
use ptpm_members::clock_identity_of;
use ptpm_site::reading::domain::Domain;
use ptpm_site::reading::source::Source;
use std::alloc::{AllocError, Global};
use std::str::FromStr;

/// How a collection ended.
#[derive(Clone, Copy, PartialEq, Eq)]
pub(crate) enum Asked {
    Answered,
    NoClock,
    /// Nothing was asked, with the status for it.
    Not(u8),
}

/// What was collected.
#[derive(Drop)]
pub(crate) struct Collected {
    pub(crate) asked: Asked,
    /// When it ended, in milliseconds by a clock that nobody sets.
    pub(crate) now: u64,
    /// By how much the clock of the host was set since the collection before, in nanoseconds.
    pub(crate) step: i64,
    /// When it ended, in UTC.
    pub(crate) time: String,
    /// What the host left out for want of room.
    pub(crate) left_out: LeftOut,
    pub(crate) ways: Vec<Way>,
    pub(crate) seen: Seen,
    pub(crate) lines: Vec<Line>,
}

impl Collected {
    /// That of the words after `looked`: how it ended, now, the step, the time, and how much was left out. Other words end all.
    pub(crate) fn of(alloc: Global, said: &str) -> Result<Collected, Ended> {
        let mut words = said.split(' ');
        let asked = asked_of(number(words.next())?);
        let now = number(words.next())?;
        let step = i64::from_str(words.next().unwrap_or("")).map_err(|_| Ended::Host)?;
        let time = String::from_str(alloc, words.next().unwrap_or(""))?;
        let left_out = LeftOut {
            answers: number(words.next())?,
            announces: number(words.next())?,
            syncs: number(words.next())?,
            follow_ups: number(words.next())?,
            delay_reqs: number(words.next())?,
            gone: 0,
            clocks: 0,
            ports: 0,
        };
        Ok(Collected {
            asked,
            now,
            step,
            time,
            left_out,
            ways: Vec::new(alloc),
            seen: Seen::none(alloc),
            lines: Vec::new(alloc),
        })
    }

    /// Takes a line that follows: a way, a clock that answered, or a line of the collection.
    pub(crate) fn take(&mut self, alloc: Global, line: &str) -> Result<(), AllocError> {
        if let Some(words) = line.strip_prefix("way ") {
            if let Some(way) = Way::of(alloc, words)? {
                self.ways.push(way)?;
            }
        } else if let Some(words) = line.strip_prefix("clock ") {
            if let Some(clock) = clock_of(words) {
                self.seen.add(clock)?;
            }
        } else {
            self.lines.push(Line::of(alloc, line)?)?;
        }
        Ok(())
    }

    /// Whether a clock answered at each of several ways.
    pub(crate) fn is_answered_everywhere(&self) -> bool
        ensures { result ≡ list_all (λ way. way.is_answered) self.entry.now.ways.items }
    {
        self.ways.iter().all(|way| way.is_answered)
    }

    /// The first of several ways at which no clock answered.
    pub(crate) fn silent_way(&self) -> Option<&[u8]> {
        for way in self.ways.as_slice() {
            if !way.is_answered {
                return Some(way.name.as_slice());
            }
        }
        None
    }
}

fn asked_of(status: u64) -> Asked {
    match status {
        0 => Asked::Answered,
        3 => Asked::NoClock,
        other => Asked::Not((other % 256) as u8),
    }
}

pub(crate) fn number(word: Option<&str>) -> Result<u64, Ended> {
    u64::from_str(word.unwrap_or("")).map_err(|_| Ended::Host)
}

/// A clock by its domainNumber, its sdoId and its identity.
fn clock_of(words: &str) -> Option<Source> {
    let mut words = words.split(' ');
    let number = u8::from_str(words.next()?).ok()?;
    let sdo = u16::from_str(words.next()?).ok()?;
    Some(Source {
        domain: Domain::of(number, sdo),
        clock: clock_identity_of(words.next()?)?,
    })
}
