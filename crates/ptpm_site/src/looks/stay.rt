//! How long a port has been on its way to another state.

use crate::reading::answer::Request;
use crate::reading::clock::Received;
use ptpm_data::PortState;

/// The state of a port that is FAULTY or on its way to another state, and for how long it was on its way.
#[derive(Clone, Copy)]
pub struct Stay {
    pub state: PortState,
    /// Whether it was on its way in an answer to an earlier request of the same requester, and in each since.
    pub is_seen_twice: bool,
    /// How many nanoseconds after the first of these answers the last one came. `None` if that is not known.
    pub time: Option<u64>,
}

impl Stay {
    /// Whether two answers show it, and nothing says that it took less than this many nanoseconds.
    pub fn is_lasting(&self, wait: u64) -> bool {
        let is_long = match self.time {
            Some(time) => wait <= time,
            None => true,
        };
        self.is_seen_twice && is_long
    }
}

/// Whether a state is on the way to another.
fn is_on_the_way(state: PortState) -> bool {
    matches!(
        state,
        PortState::Initializing
            | PortState::Listening
            | PortState::PreMaster
            | PortState::Uncalibrated
    )
}

pub fn is_faulty(state: PortState) -> bool {
    matches!(state, PortState::Faulty)
}

/// Whether two requests are different ones of one requester.
pub fn is_another(a: &Request, b: &Request) -> bool {
    a.target == b.target && a.number != b.number
}

/// How many nanoseconds are between two times, if both are known.
pub fn time_between(a: Option<u64>, b: Option<u64>) -> Option<u64> {
    let (a, b) = (a?, b?);
    Some(a.saturating_sub(b) + b.saturating_sub(a))
}

/// When the first answer came of those on the way with which these end, to earlier requests of the same requester. It is `None` if
/// there is none.
fn stay_before(request: &Request, earlier: &[Received]) -> Option<Option<u64>> {
    let mut since = None;
    for received in earlier {
        if is_another(&received.request, request) {
            since = match received.state() {
                Some(state) if is_on_the_way(state) => Some(since.unwrap_or(received.at)),
                _ => None,
            };
        }
    }
    since
}

/// How a port is that answered so, if it is FAULTY or on its way.
pub fn stay_of(received: &[Received]) -> Option<Stay> {
    let (last, earlier) = received.split_last()?;
    let state = last.state()?;
    let since = if is_faulty(state) {
        None
    } else if is_on_the_way(state) {
        stay_before(&last.request, earlier)
    } else {
        return None;
    };
    Some(Stay {
        state,
        is_seen_twice: since.is_some(),
        time: match since {
            Some(since) => time_between(last.at, since),
            None => None,
        },
    })
}
