//! From which address an answer came, and at which interface.

use crate::reading::answer::{Request, request_of, source_of};
use crate::reading::asked::Asked;
use crate::reading::source::Source;
use ptpm_codec::{Action, View, view};

/// A port of a clock that answers.
#[derive(Clone, Copy, PartialEq, Eq, PartialOrd, Ord)]
pub struct SourcePort {
    pub source: Source,
    /// portNumber of sourcePortIdentity.
    pub port: u16,
}

/// What is asked for.
#[derive(Clone, Copy, PartialEq, Eq, PartialOrd, Ord)]
pub struct Question {
    pub request: Request,
    /// managementId.
    pub id: u16,
}

/// Answers of one port of a clock to one question, at one interface. If one clock gives them they come from one address.
#[derive(Clone, Copy, PartialEq, Eq, PartialOrd, Ord)]
pub struct Passage {
    pub port: SourcePort,
    pub question: Question,
    /// The number of the interface.
    pub on: usize,
}

/// An answer that no clock passed on.
#[derive(Clone, Copy)]
pub struct Arrival {
    pub passage: Passage,
    /// The number of the address.
    pub from: usize,
}

/// From which address and at which interface a datagram came, by their numbers.
#[derive(Clone, Copy)]
pub struct Way {
    pub from: usize,
    pub on: usize,
}

fn passage_of(way: Way, asked: Asked, message: &View<'_>) -> Passage {
    Passage {
        port: SourcePort {
            source: source_of(message),
            port: message.source().port,
        },
        question: Question {
            request: request_of(message),
            id: asked.number(),
        },
        on: way.on,
    }
}

/// How an answer came. `None` if the message is none, if a clock passed it on, or if it is of PORT_DATA_SET: a port answers for each.
fn arrival_of(way: Way, message: &View<'_>) -> Option<Arrival> {
    match message.action() {
        Action::Response => {}
        _ => return None,
    }
    let asked = Asked::of_id(message.id())?;
    if asked.is(Asked::PortDataSet) || message.hops() != message.starting_hops() {
        return None;
    }
    Some(Arrival {
        passage: passage_of(way, asked, message),
        from: way.from,
    })
}

/// How an answer came that a datagram is.
pub fn arrival_in(way: Way, datagram: &[u8]) -> Option<Arrival> {
    match view(datagram) {
        Ok(message) => arrival_of(way, &message),
        Err(_) => None,
    }
}
