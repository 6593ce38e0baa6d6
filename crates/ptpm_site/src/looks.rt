//! Requests to all clocks.

pub mod changes;
pub mod counted;
pub mod gone;
pub mod grandmaster_changes;
pub mod stay;
pub mod stay_limits;
pub mod staying;

use crate::reading::answer::Request;
use crate::reading::asked::Asked;
use crate::reading::domain::Domain;
use crate::reading::heard::{Heard, Query};
use ptpm_codec::PortIdentity;
use std::alloc::{AllocError, Global};
use std::collections::{BTreeMap, BTreeSet};

/// What the clocks of a domain are asked for.
#[derive(Clone, Copy, PartialEq, Eq, PartialOrd, Ord)]
pub struct Topic {
    pub domain: Domain,
    /// managementId.
    pub id: u16,
}

/// A GET to all clocks.
#[derive(Clone, Copy, PartialEq, Eq, PartialOrd, Ord)]
pub struct Look {
    pub topic: Topic,
    pub request: Request,
}

impl Topic {
    pub fn of(domain: Domain, asked: Asked) -> Topic {
        Topic {
            domain,
            id: asked.number(),
        }
    }
}

impl Look {
    /// The look that a datagram is. `None` if it is none.
    pub fn of(heard: &Heard) -> Option<Look> {
        match heard {
            Heard::Asked(query) if query.is_to_all() => Some(Look::by(query)),
            _ => None,
        }
    }

    /// The look with the topic and the request of a GET.
    fn by(query: &Query) -> Look {
        Look {
            topic: Topic::of(query.domain, query.asked),
            request: query.request,
        }
    }
}

/// A look that was sent again to one clock.
#[derive(Clone, Copy, PartialEq, Eq, PartialOrd, Ord)]
struct Repeat {
    look: Look,
    target: PortIdentity,
}

/// How many looks were sent again to clocks that had not answered: each look counts once for each of them.
pub fn asked_again(alloc: Global, heard: &[Heard]) -> Result<usize, AllocError> {
    let mut looks = BTreeSet::new(alloc);
    let mut repeats = BTreeSet::new(alloc);
    for one in heard {
        if let Heard::Asked(query) = one {
            let (look, target) = (Look::by(query), query.target);
            if query.is_to_all() {
                looks.insert(look)?;
            } else if looks.contains(&look) {
                repeats.insert(Repeat { look, target })?;
            }
        }
    }
    Ok(repeats.len())
}

/// The request of the last look for each topic.
#[derive(Drop)]
pub struct LastLooks {
    requests: BTreeMap<Topic, Request>,
}

impl LastLooks {
    pub fn of(alloc: Global, heard: &[Heard]) -> Result<LastLooks, AllocError> {
        let mut requests = BTreeMap::new(alloc);
        for one in heard {
            if let Some(look) = Look::of(one) {
                requests.insert(look.topic, look.request)?;
            }
        }
        Ok(LastLooks { requests })
    }

    /// Whether a request is the last look for a topic, or there is none for it.
    pub fn is_latest(&self, topic: Topic, request: Request) -> bool {
        match self.requests.get(&topic) {
            Some(last) => request == *last,
            None => true,
        }
    }
}
