//! What is written at an arrow or a mark.

use crate::outcome::EventOutcome;
use crate::picture::{EventRow, Picture, Says, Way, said_by};
use ptpm_codec::ErrorId;
use ptpm_data::row;
use ptpm_manager::Ask;
use ptpm_text::{Escaped, Hexadecimal};
use ptpm_world::Event;
use std::alloc::AllocError;
use std::fmt;

/// Whether text was written: not if memory is refused.
pub(crate) type Written = Result<(), AllocError>;

/// An act shows a value of at most this many octets.
const SHOWN_OCTETS: usize = 8;

/// What a message says: action, id and sequenceId of a request; action and sequenceId of a reply, and the error that it reports. A
/// sequenceId follows a `#`.
#[derive(Clone, Copy)]
pub(crate) struct SaysText(pub Option<Says>);

impl fmt::Display for SaysText {
    fn fmt<W: fmt::Write>(&self, f: &mut fmt::Formatter<W>) -> fmt::Result {
        let Some(says) = self.0 else {
            return f.write_str("no management message");
        };
        match says.error {
            Some(error) => write!(f, "{} #{} {}", says.action, says.number, ErrorText(error)),
            None if says.action.is_reply() => write!(f, "{} #{}", says.action, says.number),
            None => write!(f, "{} {} #{}", says.action, IdText(says.id), says.number),
        }
    }
}

/// A managementId by its name, or by four hexadecimal digits if the table of ids has none.
#[derive(Clone, Copy)]
struct IdText(u16);

impl fmt::Display for IdText {
    fn fmt<W: fmt::Write>(&self, f: &mut fmt::Formatter<W>) -> fmt::Result {
        match row(self.0) {
            Some(row) => f.write_str(row.name),
            None => write!(f, "{}", Hexadecimal(&self.0.to_be_bytes())),
        }
    }
}

/// A managementErrorId by the standard's name, or by four hexadecimal digits if it has none (15.5.4.3).
#[derive(Clone, Copy)]
struct ErrorText(u16);

impl fmt::Display for ErrorText {
    fn fmt<W: fmt::Write>(&self, f: &mut fmt::Formatter<W>) -> fmt::Result {
        match ErrorId::from_number(self.0) {
            Some(error) => write!(f, "{error}"),
            None => write!(f, "{}", Hexadecimal(&self.0.to_be_bytes())),
        }
    }
}

/// An act of a session, or a refused event: its verb, and what else its line says except the name.
#[derive(Clone, Copy)]
pub(crate) struct ActText<'a>(pub &'a Event);

impl fmt::Display for ActText<'_> {
    fn fmt<W: fmt::Write>(&self, f: &mut fmt::Formatter<W>) -> fmt::Result {
        let verb = self.0.verb();
        match self.0 {
            Event::Begin(_, ask) => write!(f, "{verb} {}", AskText(ask)),
            Event::Resume(_, number) | Event::Retune(_, number) => write!(f, "{verb} {number}"),
            Event::Stranger(_, port, _) => write!(f, "{verb} {port}"),
            Event::Send(_) | Event::Deliver(_) => write!(f, "{}", VerbText(self.0)),
        }
    }
}

/// What a session is to ask: action, id, and a value that is not long.
#[derive(Clone, Copy)]
struct AskText<'a>(&'a Ask);

impl fmt::Display for AskText<'_> {
    fn fmt<W: fmt::Write>(&self, f: &mut fmt::Formatter<W>) -> fmt::Result {
        let octets = self.0.octets.as_slice();
        write!(f, "{} {}", self.0.action, IdText(self.0.id))?;
        match octets.len() {
            0 => Ok(()),
            1..=SHOWN_OCTETS => write!(f, " {}", Hexadecimal(octets)),
            count => write!(f, " ({count} octets)"),
        }
    }
}

/// What became of a row's event, and by which error it was answered; that it was late, and which frames it made.
#[derive(Clone, Copy)]
pub(crate) struct OutcomeText<'a>(pub &'a Picture, pub &'a EventRow);

impl fmt::Display for OutcomeText<'_> {
    fn fmt<W: fmt::Write>(&self, f: &mut fmt::Formatter<W>) -> fmt::Result {
        let OutcomeText(picture, row) = *self;
        match (row.outcome(), error_shown(picture, row)) {
            (EventOutcome::CarriedOut, Some(error)) => write!(f, "answered: {}", ErrorText(error))?,
            (outcome, Some(error)) => write!(f, "{outcome}: {}", ErrorText(error))?,
            (outcome, None) => write!(f, "{outcome}")?,
        }
        if row.is_late {
            f.write_str(", late")?;
        }
        if row.before < row.after {
            write!(f, ", sends {}", FramesText(row))?;
        }
        Ok(())
    }
}

/// The managementErrorId by which a clock answered a row's event, or which it brought to a session; none if there is no error.
pub(crate) fn error_shown(picture: &Picture, row: &EventRow) -> Option<u16> {
    match (row.outcome(), row.way) {
        (EventOutcome::CarriedOut | EventOutcome::AnsweredAgain | EventOutcome::Answered, _) => {
            error_sent(picture, row)
        }
        (EventOutcome::Reported, Way::Arrow(frame)) => picture.says(frame)?.error,
        _ => None,
    }
}

/// The first error among the messages that a row's event made.
fn error_sent(picture: &Picture, row: &EventRow) -> Option<u16> {
    (row.before..row.after).find_map(|count| picture.says(count.saturating_add(1))?.error)
}

/// The members that an event changed, each after a comma.
#[derive(Clone, Copy)]
pub(crate) struct ListText<'a>(pub &'a [String]);

impl fmt::Display for ListText<'_> {
    fn fmt<W: fmt::Write>(&self, f: &mut fmt::Formatter<W>) -> fmt::Result {
        for text in self.0 {
            write!(f, ", {}", Escaped(text.as_str()))?;
        }
        Ok(())
    }
}

/// The numbers of the frames that a row's event made.
#[derive(Clone, Copy)]
struct FramesText<'a>(&'a EventRow);

impl fmt::Display for FramesText<'_> {
    fn fmt<W: fmt::Write>(&self, f: &mut fmt::Formatter<W>) -> fmt::Result {
        let first = self.0.before.saturating_add(1);
        let last = self.0.after;
        if first == last {
            write!(f, "{first}")
        } else {
            write!(f, "{first} to {last}")
        }
    }
}

/// An event's verb and, if it is a delivery, the number of its frame.
#[derive(Clone, Copy)]
pub(crate) struct VerbText<'a>(pub &'a Event);

impl fmt::Display for VerbText<'_> {
    fn fmt<W: fmt::Write>(&self, f: &mut fmt::Formatter<W>) -> fmt::Result {
        let verb = self.0.verb();
        match self.0 {
            Event::Deliver(frame) => write!(f, "{verb} {frame}"),
            _ => f.write_str(verb),
        }
    }
}

/// The number of an event's line, and its verb.
#[derive(Clone, Copy)]
pub(crate) struct LineText<'a>(pub u32, pub &'a Event);

impl fmt::Display for LineText<'_> {
    fn fmt<W: fmt::Write>(&self, f: &mut fmt::Formatter<W>) -> fmt::Result {
        write!(f, "{} {}", self.0, VerbText(self.1))
    }
}

/// What is written at a row's arrow or mark.
#[derive(Clone, Copy)]
pub(crate) struct LabelText<'a>(pub &'a Picture, pub &'a EventRow, pub &'a Event);

impl fmt::Display for LabelText<'_> {
    fn fmt<W: fmt::Write>(&self, f: &mut fmt::Formatter<W>) -> fmt::Result {
        let LabelText(picture, row, event) = *self;
        match (row.way, event) {
            (Way::Arrow(frame), _) => write!(f, "{}", SaysText(picture.says(frame))),
            (Way::FromEdge, Event::Stranger(_, _, octets)) => {
                write!(f, "{}", SaysText(said_by(octets.as_slice())))
            }
            (Way::Mark, Event::Send(_)) if row.before < row.after => {
                write!(f, "send {}", SaysText(picture.says(row.before + 1)))
            }
            (_, event) => write!(f, "{}", ActText(event)),
        }
    }
}

/// A message that no event delivered, by the number of its frame.
#[derive(Clone, Copy)]
pub(crate) struct LostText<'a>(pub &'a Picture, pub u32);

impl fmt::Display for LostText<'_> {
    fn fmt<W: fmt::Write>(&self, f: &mut fmt::Formatter<W>) -> fmt::Result {
        let LostText(picture, frame) = *self;
        write!(f, "frame {frame} lost: {}", SaysText(picture.says(frame)))
    }
}

/// Makes a text of only this.
pub(crate) fn spell<T: fmt::Display + Drop>(text: &mut String, shown: T) -> Written {
    text.clear();
    write!(text, "{shown}")
}
