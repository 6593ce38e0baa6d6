//! The ports of a clock with their states, as text.

use ptpm_members::{Enumeration, MemberValue};
use ptpm_site::reading::clock::Clock;
use std::fmt;

/// The ports of a clock that answered, by number: `1 SLAVE, 2-4 MASTER`; `-` if none did.
#[derive(Clone, Copy)]
pub(crate) struct PortsText<'a>(pub(crate) &'a Clock);

impl fmt::Display for PortsText<'_> {
    fn fmt<W: fmt::Write>(&self, f: &mut fmt::Formatter<W>) -> fmt::Result {
        let mut run: Option<Run> = None;
        let mut follows = false;
        for (number, received) in self.0.ports.iter() {
            let Some(set) = received.last().and_then(|last| last.port()) else {
                continue;
            };
            let next = Run {
                first: *number,
                last: *number,
                state: set.state,
            };
            run = match run {
                Some(before) if before.goes_on(next) => Some(Run {
                    last: *number,
                    ..before
                }),
                Some(before) => {
                    before.write(follows, f)?;
                    follows = true;
                    Some(next)
                }
                None => Some(next),
            };
        }
        match run {
            Some(last) => last.write(follows, f),
            None => f.write_str("-"),
        }
    }
}

/// Ports one after another in the same state.
#[derive(Clone, Copy)]
struct Run {
    first: u16,
    last: u16,
    /// The number of their portState.
    state: u8,
}

impl Run {
    /// Whether the next ports belong to it.
    fn goes_on(self, next: Run) -> bool {
        self.state == next.state && self.last.checked_add(1) == Some(next.first)
    }

    /// Writes it, after a comma if it follows another.
    fn write<W: fmt::Write>(self, follows: bool, f: &mut fmt::Formatter<W>) -> fmt::Result {
        if follows {
            f.write_str(", ")?;
        }
        let name = MemberValue::Named(Enumeration::PortState, self.state);
        if self.first == self.last {
            write!(f, "{} {name}", self.first)
        } else {
            write!(f, "{}-{} {name}", self.first, self.last)
        }
    }
}
