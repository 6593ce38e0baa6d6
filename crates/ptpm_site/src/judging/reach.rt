//! Clocks that the last boundary hop of the requests reached.

use crate::reading::answer::Request;
use crate::reading::heard::{Heard, Travel};
use crate::reading::site::Site;
use crate::reading::source::Source;
use std::alloc::{AllocError, Global};
use std::collections::{BTreeMap, BTreeSet};

/// A request, and with how many boundary hops it was sent.
#[derive(Clone, Copy, PartialEq, Eq, PartialOrd, Ord)]
struct Allowed {
    request: Request,
    /// startingBoundaryHops.
    hops: u8,
}

/// How far the GETs among the lines went.
#[derive(Drop)]
pub struct Reach {
    /// startingBoundaryHops of the first answer of each clock to one of them.
    hops: BTreeMap<Source, u8>,
    /// The clocks with an answer that shows that one had hops left.
    nearer: BTreeSet<Source>,
}

impl Reach {
    pub fn of(alloc: Global, heard: &[Heard]) -> Result<Reach, AllocError> {
        let mut known = BTreeSet::new(alloc);
        let mut allowed = BTreeSet::new(alloc);
        for one in heard {
            if let Heard::Asked(query) = one {
                let (request, hops) = (query.request, query.hops);
                known.insert(request)?;
                allowed.insert(Allowed { request, hops })?;
            }
        }
        let mut reach = Reach {
            hops: BTreeMap::new(alloc),
            nearer: BTreeSet::new(alloc),
        };
        for one in heard {
            match one {
                Heard::Answered(travel) if known.contains(&travel.request) => {
                    reach.add(travel, &allowed)?;
                }
                _ => {}
            }
        }
        Ok(reach)
    }

    /// Adds an answer to a GET that is among the lines.
    fn add(&mut self, travel: &Travel, allowed: &BTreeSet<Allowed>) -> Result<(), AllocError> {
        self.hops
            .entry(travel.source)?
            .or_insert(travel.starting_hops);
        if !is_last_hop(travel, allowed) {
            self.nearer.insert(travel.source)?;
        }
        Ok(())
    }
}

/// Whether an answer came to a GET that is among the lines, and with the last boundary hop of it.
fn is_last_hop(travel: &Travel, allowed: &BTreeSet<Allowed>) -> bool {
    let sent = Allowed {
        request: travel.request,
        hops: travel.starting_hops,
    };
    allowed.contains(&sent) && (travel.starting_hops == 0 || travel.hops < travel.starting_hops)
}

/// With how many boundary hops a clock of two ports or more was asked, if it was reached by the last of them each time.
pub fn out_of_reach(site: &Site, reach: &Reach, source: Source) -> Option<u8> {
    let default = site.default(source)?;
    if default.number_of_ports <= 1 || reach.nearer.contains(&source) {
        return None;
    }
    reach.hops.get(&source).copied()
}
