//! Answers to management GETs of the six ids.

use crate::reading::answer_content::AnswerContent;
use crate::reading::asked::Asked;
use crate::reading::data_sets::PortDataSet;
use crate::reading::description::description_text;
use crate::reading::domain::Domain;
use crate::reading::source::Source;
use ptpm_codec::{Action, PortIdentity, View};
use ptpm_members::members_in;
use std::alloc::{AllocError, Global};

/// The request that an answer came to: who asked, and with which sequenceId.
#[derive(Clone, Copy, PartialEq, Eq, PartialOrd, Ord)]
pub struct Request {
    /// targetPortIdentity of the answer.
    pub target: PortIdentity,
    /// sequenceId.
    pub number: u16,
}

/// An answer to a request for one of the six ids.
#[derive(Drop)]
pub struct Answer {
    pub source: Source,
    pub request: Request,
    /// When it came, in nanoseconds since 1970. `None` if that is not known.
    pub at: Option<u64>,
    pub content: AnswerContent,
}

impl Answer {
    /// The answer that a message is, which came at a time. It is `None` if the message is no RESPONSE to one of the six ids.
    pub fn of(
        alloc: Global,
        at: Option<u64>,
        message: &View<'_>,
    ) -> Result<Option<Answer>, AllocError> {
        match message.action() {
            Action::Response => {}
            _ => return Ok(None),
        }
        let Some(asked) = Asked::of_id(message.id()) else {
            return Ok(None);
        };
        Ok(Some(Answer {
            source: source_of(message),
            request: request_of(message),
            at,
            content: content_of(alloc, asked, message)?,
        }))
    }
}

/// The clock that a message is of.
pub fn source_of(message: &View<'_>) -> Source {
    Source {
        domain: Domain::of_message(message),
        clock: message.source().clock,
    }
}

/// The request that a message answers.
pub fn request_of(message: &View<'_>) -> Request {
    Request {
        target: message.target(),
        number: message.number(),
    }
}

/// What a message says of the id that was asked for.
fn content_of(
    alloc: Global,
    asked: Asked,
    message: &View<'_>,
) -> Result<AnswerContent, AllocError> {
    if message.error().is_some() {
        return Ok(AnswerContent::Refused(asked));
    }
    match data_content(alloc, asked, message)? {
        Some(said) => Ok(said),
        None => Ok(AnswerContent::Nothing),
    }
}

/// What the dataField of a message says of the id that was asked for. `None` if that is nothing.
fn data_content(
    alloc: Global,
    asked: Asked,
    message: &View<'_>,
) -> Result<Option<AnswerContent>, AllocError> {
    match asked {
        Asked::UserDescription => match description_text(alloc, message.octets())? {
            Some(text) => Ok(Some(AnswerContent::Clock(asked, text.into_bytes()))),
            None => Ok(None),
        },
        Asked::PortDataSet => port_content(alloc, message),
        _ => clock_content(alloc, asked, message.octets()),
    }
}

/// What octets say, if they are a dataField of the id.
fn clock_content(
    alloc: Global,
    asked: Asked,
    octets: &[u8],
) -> Result<Option<AnswerContent>, AllocError> {
    if members_in(asked.number(), octets).is_empty() {
        return Ok(None);
    }
    Ok(Some(AnswerContent::Clock(asked, copied(alloc, octets)?)))
}

/// What PORT_DATA_SET says. `None` if it names another clock than the one that sent it.
fn port_content(alloc: Global, message: &View<'_>) -> Result<Option<AnswerContent>, AllocError> {
    let octets = message.octets();
    match PortDataSet::read(octets) {
        Some((port, _)) if port.clock == message.source().clock => {
            Ok(Some(AnswerContent::Port(port.port, copied(alloc, octets)?)))
        }
        _ => Ok(None),
    }
}

fn copied(alloc: Global, octets: &[u8]) -> Result<Vec<u8>, AllocError> {
    let mut copy = Vec::with_capacity(alloc, octets.len())?;
    copy.extend_from_slice(octets)?;
    Ok(copy)
}
