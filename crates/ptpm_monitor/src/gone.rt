//! Clocks that answered in the looks of a watch, and the lines by which a site has them as gone. Nothing that they answered counts by
//! then, except a description. Strangers may answer as new clocks without end, so there is room for a number of them.

use crate::line::Line;
use crate::message::Head;
use crate::seen::Seen;
use ptpm_site::reading::left_out::CLOCKS;
use ptpm_site::reading::source::Source;
use std::alloc::{AllocError, Global};
use std::cmp::Reverse;
use std::collections::BTreeMap;
use std::fmt;

/// No longer answer becomes a line: a USER_DESCRIPTION has room for 128 octets of text (this project's profile).
const MOST_OCTETS: usize = 256;

/// A clock that answered: when it did first and last, and one of its answers.
#[derive(Drop)]
struct Answered {
    first: u64,
    last: u64,
    answer: Vec<u8>,
}

/// How worthy of its room a clock is. The most worthy are those of the latest look, then those that answered for the longest time,
/// then those that did so last. The least comes first.
type Worth = (Reverse<bool>, Reverse<u64>, Reverse<u64>, Source);

/// The clocks that answered.
#[derive(Drop)]
pub(crate) struct Gone {
    all: BTreeMap<Source, Answered>,
    /// How many have no line for want of room: in the latest look, or before it since clocks were forgotten last.
    unwritten: usize,
    dropped: usize,
    dropped_at: u64,
}

impl Gone {
    pub(crate) fn none(alloc: Global) -> Gone {
        Gone {
            all: BTreeMap::new(alloc),
            unwritten: 0,
            dropped: 0,
            dropped_at: 0,
        }
    }

    /// How many have no line for want of room.
    pub(crate) fn left_out(&self) -> usize {
        self.unwritten.saturating_add(self.dropped)
    }

    /// Notes the clocks of a look that is over. Those that did not answer for longer than `forget` are forgotten.
    pub(crate) fn note(
        &mut self,
        alloc: Global,
        look: &[Line],
        seen: &Seen,
        now: u64,
        forget: u64,
    ) -> Result<(), AllocError> {
        for clock in seen.order.as_slice() {
            let fresh = Answered {
                first: now,
                last: now,
                answer: Vec::new(alloc),
            };
            self.all.entry(*clock)?.or_insert(fresh).last = now;
        }
        for line in look {
            self.note_answer(line.octets.as_slice())?;
        }
        self.drop_gone(alloc, seen, now, forget)
    }

    /// Keeps an answer of its clock: a description, or any other one as long as there is none.
    fn note_answer(&mut self, octets: &[u8]) -> Result<(), AllocError> {
        if octets.len() < 54 || MOST_OCTETS < octets.len() {
            return Ok(());
        }
        let is_description = octets[49] == 1 && octets[52] == 0 && octets[53] == 2;
        let Some(head) = Head::of_answer(octets) else {
            return Ok(());
        };
        let Some(one) = self.all.get_mut(&head.source) else {
            return Ok(());
        };
        if !one.answer.is_empty() && !is_description {
            return Ok(());
        }
        one.answer.clear();
        let (before, rest) = octets.split_at(42);
        let (_, behind) = rest.split_at(2);
        one.answer.extend_from_slice(before)?;
        one.answer.extend_from_slice(&[0xff, 0xff])?;
        one.answer.extend_from_slice(behind)
    }

    fn drop_gone(
        &mut self,
        alloc: Global,
        seen: &Seen,
        now: u64,
        forget: u64,
    ) -> Result<(), AllocError> {
        self.all
            .retain(|_, one| now.saturating_sub(one.last) <= forget);
        if forget < now.saturating_sub(self.dropped_at) {
            self.dropped = 0;
        }
        let over = self.all.len().saturating_sub(CLOCKS);
        if over == 0 {
            return Ok(());
        }
        self.dropped = self.dropped.saturating_add(over);
        self.dropped_at = now;
        let sorted = self.sorted(alloc, seen)?;
        for (_, _, _, clock) in sorted.as_slice().iter().skip(CLOCKS) {
            let _ = self.all.remove(clock);
        }
        Ok(())
    }

    /// The most worthy first.
    fn sorted(&self, alloc: Global, seen: &Seen) -> Result<Vec<Worth>, AllocError> {
        let mut sorted = Vec::new(alloc);
        for (clock, one) in self.all.iter() {
            let lasted = one.last.saturating_sub(one.first);
            sorted.push((
                Reverse(seen.has(*clock)),
                Reverse(lasted),
                Reverse(one.last),
                *clock,
            ))?;
        }
        sorted.sort()?;
        Ok(sorted)
    }

    /// The lines of those that did not answer in the latest look, as many as there is room for beside the clocks that did.
    pub(crate) fn lines(&mut self, alloc: Global, seen: &Seen) -> Result<Vec<String>, AllocError> {
        let room = CLOCKS.saturating_sub(seen.order.len());
        let (mut lines, mut unwritten) = (Vec::new(alloc), 0usize);
        let sorted = self.sorted(alloc, seen)?;
        for (_, _, _, clock) in sorted.as_slice() {
            if seen.has(*clock) {
                continue;
            }
            match self.all.get(clock) {
                Some(one) if lines.len() < room && !one.answer.is_empty() => {
                    let digits = Digits(one.answer.as_slice());
                    lines.push(format!(in alloc; "{digits}\n")?)?;
                }
                _ => unwritten = unwritten.saturating_add(1),
            }
        }
        self.unwritten = unwritten;
        Ok(lines)
    }
}

/// Octets in hexadecimal.
#[derive(Clone, Copy)]
struct Digits<'a>(&'a [u8]);

impl fmt::Display for Digits<'_> {
    fn fmt<W: fmt::Write>(&self, f: &mut fmt::Formatter<W>) -> fmt::Result {
        for octet in self.0 {
            write!(f, "{octet:02x}")?;
        }
        Ok(())
    }
}
