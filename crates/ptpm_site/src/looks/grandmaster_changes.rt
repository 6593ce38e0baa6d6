//! Clocks whose grandmaster changed from one look to the next.

use crate::reading::asked::Asked;
use crate::reading::site::Site;
use crate::reading::source::Source;
use ptpm_codec::ClockIdentity;
use std::alloc::{AllocError, Global};

/// A clock that went from one grandmaster to another.
#[derive(Clone, Copy)]
struct Handover {
    source: Source,
    before: ClockIdentity,
    after: ClockIdentity,
}

/// What is shown of clocks of a domain that went from one grandmaster to another.
#[derive(Clone, Copy)]
pub struct GrandmasterChange {
    /// The clock at which it is shown.
    pub source: Source,
    pub before: ClockIdentity,
    pub after: ClockIdentity,
    /// How many clocks went.
    pub clocks: usize,
}

/// How a clock came to the grandmaster that it names last, if it named another before.
fn handover_of(site: &Site, source: Source) -> Option<Handover> {
    let received = site.answers(source, Asked::ParentDataSet);
    let last = received.last()?;
    let before = received
        .iter()
        .rev()
        .find(|earlier| earlier.grandmaster() != last.grandmaster())?;
    if before.request == last.request {
        return None;
    }
    Some(Handover {
        source,
        before: before.grandmaster()?,
        after: last.grandmaster()?,
    })
}

impl Handover {
    /// Whether another clock of the domain went from the same grandmaster to the same other one.
    fn is_with(&self, other: &Handover) -> bool {
        self.source.domain == other.source.domain
            && self.before == other.before
            && self.after == other.after
    }

    /// Whether the clock is one of the two grandmasters.
    fn is_of_itself(&self) -> bool {
        self.source.clock == self.before || self.source.clock == self.after
    }

    /// What is shown of those of all that went so, by the first of them.
    fn shown(&self, all: &[Handover]) -> Option<GrandmasterChange> {
        let first = all.iter().find(|other| self.is_with(other))?;
        if first.source != self.source {
            return None;
        }
        let clocks = all.iter().filter(|other| self.is_with(other)).count();
        let source = if clocks == 1 && self.is_of_itself() {
            self.source
        } else {
            self.source.beside(self.after)
        };
        Some(GrandmasterChange {
            source,
            before: self.before,
            after: self.after,
            clocks,
        })
    }
}

/// All changes of a grandmaster. `sources` has all clocks that are seen.
pub fn grandmaster_changes(
    alloc: Global,
    site: &Site,
    sources: &[Source],
) -> Result<Vec<GrandmasterChange>, AllocError> {
    let mut all = Vec::new(alloc);
    for source in sources {
        if let Some(handover) = handover_of(site, *source) {
            all.push(handover)?;
        }
    }
    let mut changes = Vec::new(alloc);
    for handover in &all {
        if let Some(change) = handover.shown(all.as_slice()) {
            changes.push(change)?;
        }
    }
    Ok(changes)
}
