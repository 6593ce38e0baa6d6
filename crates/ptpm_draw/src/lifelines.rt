//! The places of lifelines: the sessions and then the clocks, each in the file's order.

use crate::party::Party;
use ptpm_text::Escaped;
use ptpm_world::Network;

/// How wide a character is, in the picture's units.
pub(crate) const CHARACTER: usize = 8;

/// Places from left to right, in the picture's units.
#[derive(Clone, Copy)]
pub(crate) struct Lifelines<'a> {
    pub(crate) network: &'a Network,
    /// The x of the first lifeline.
    pub(crate) first: usize,
    /// From one lifeline to the next.
    pub(crate) step: usize,
}

impl<'a> Lifelines<'a> {
    /// How many there are.
    pub(crate) fn count(&self) -> usize {
        let sessions = self.network.sessions().len();
        sessions.saturating_add(self.network.clocks().len())
    }

    /// Whose lifeline is at a place, counted from the left.
    pub(crate) fn party(&self, place: usize) -> Party {
        match place.checked_sub(self.network.sessions().len()) {
            Some(place) => Party::Clock(place),
            None => Party::Session(place),
        }
    }

    /// The x of a party's lifeline.
    pub(crate) fn x(&self, party: Party) -> usize {
        let place = match party {
            Party::Session(place) => place,
            Party::Clock(place) => self.network.sessions().len().saturating_add(place),
        };
        self.first.saturating_add(self.step.saturating_mul(place))
    }

    /// The x of the last lifeline.
    pub(crate) fn last(&self) -> usize {
        let others = self.count().saturating_sub(1);
        self.first.saturating_add(self.step.saturating_mul(others))
    }

    /// The name of a party; of nobody, who it may be then.
    pub(crate) fn name(&self, party: Option<Party>) -> Escaped<'a> {
        let name = match party {
            Some(Party::Session(place)) => match self.network.sessions().get(place) {
                Some(session) => session.name.as_str(),
                None => "",
            },
            Some(Party::Clock(place)) => match self.network.clocks().get(place) {
                Some(clock) => clock.name.as_str(),
                None => "",
            },
            None => "a stranger",
        };
        Escaped(name)
    }
}

/// What kind of party it is.
pub(crate) fn kind_of(party: Party) -> &'static str {
    match party {
        Party::Session(_) => "session",
        Party::Clock(_) => "clock",
    }
}
