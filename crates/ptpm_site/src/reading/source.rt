//! Which clock an answer is of.

use crate::reading::domain::Domain;
use ptpm_codec::ClockIdentity;

/// A clock of a domain: the domain of the header, and the clockIdentity of sourcePortIdentity. The same clock in two domains
/// counts as two clocks. They are ordered by domain, and then by identity.
#[derive(Clone, Copy, PartialEq, Eq, PartialOrd, Ord)]
pub struct Source {
    pub domain: Domain,
    pub clock: ClockIdentity,
}

impl Source {
    /// Another clock of the same domain.
    pub fn beside(self, clock: ClockIdentity) -> Source {
        Source {
            domain: self.domain,
            clock,
        }
    }
}
