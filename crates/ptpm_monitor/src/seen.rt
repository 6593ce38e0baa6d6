//! The clocks that answered in a look.

use ptpm_site::reading::source::Source;
use std::alloc::{AllocError, Global};
use std::collections::BTreeSet;

/// The clocks, also in the order in which they came.
#[derive(Drop)]
pub(crate) struct Seen {
    pub(crate) order: Vec<Source>,
    all: BTreeSet<Source>,
}

impl Seen {
    pub(crate) fn none(alloc: Global) -> Seen {
        Seen {
            order: Vec::new(alloc),
            all: BTreeSet::new(alloc),
        }
    }

    pub(crate) fn add(&mut self, clock: Source) -> Result<(), AllocError> {
        if self.all.insert(clock)? {
            self.order.push(clock)?;
        }
        Ok(())
    }

    pub(crate) fn has(&self, clock: Source) -> bool {
        self.all.contains(&clock)
    }
}
