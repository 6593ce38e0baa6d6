//! The clocks that an inventory names, for quick answers.

use crate::inventory::{Entry, Presence, Rule};
use ptpm_site::judging::finding::Added;
use ptpm_site::reading::domain::Domain;
use ptpm_site::reading::source::Source;
use std::alloc::{AllocError, Global};
use std::collections::BTreeSet;

/// The clocks that an inventory names.
#[derive(Drop)]
pub(crate) struct Named {
    /// Those that are to be seen, unless they are excused.
    pub(crate) demanded: BTreeSet<Source>,
    /// Those that may be absent.
    pub(crate) excused: BTreeSet<Source>,
    /// Those that may lead. They may be absent, too, unless more is said of them.
    pub(crate) leading: BTreeSet<Source>,
    /// Those that need to answer nothing while they are heard.
    pub(crate) mute: BTreeSet<Source>,
    /// The domains that have no clock that is not named.
    pub(crate) closed: BTreeSet<Domain>,
}

impl Named {
    pub(crate) fn of(alloc: Global, entries: &[Entry]) -> Result<Named, AllocError> {
        let mut named = Named {
            demanded: BTreeSet::new(alloc),
            excused: BTreeSet::new(alloc),
            leading: BTreeSet::new(alloc),
            mute: BTreeSet::new(alloc),
            closed: BTreeSet::new(alloc),
        };
        for entry in entries {
            named.add(entry)?;
        }
        Ok(named)
    }

    /// Adds what an entry names.
    fn add(&mut self, entry: &Entry) -> Added {
        let domain = entry.domain;
        match &entry.rule {
            Rule::Clock(clock, presence) => {
                let clock = *clock;
                self.add_clock(Source { domain, clock }, *presence)?;
            }
            Rule::Member(clock, _) => {
                let clock = *clock;
                self.demanded.insert(Source { domain, clock })?;
            }
            Rule::Leaders(choices) => {
                for clocks in choices {
                    for clock in clocks {
                        let clock = *clock;
                        self.leading.insert(Source { domain, clock })?;
                    }
                }
            }
            Rule::Only => {
                self.closed.insert(domain)?;
            }
            Rule::EachMember(_) => {}
        }
        Ok(())
    }

    fn add_clock(&mut self, clock: Source, presence: Presence) -> Added {
        match presence {
            Presence::Wanted => {
                self.demanded.insert(clock)?;
            }
            Presence::Optional => {
                self.excused.insert(clock)?;
            }
            Presence::Mute => {
                self.excused.insert(clock)?;
                self.mute.insert(clock)?;
            }
        }
        Ok(())
    }

    /// Whether a clock is named.
    pub(crate) fn has(&self, clock: Source) -> bool {
        self.demanded.contains(&clock)
            || self.excused.contains(&clock)
            || self.leading.contains(&clock)
    }
}
