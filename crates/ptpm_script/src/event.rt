//! What can happen in a network.

use crate::names::Name;
use ptpm_codec::Octets;
use ptpm_manager::Ask;
use std::fmt;
use thiserror::Error;

/// One thing that happens in a network.
#[derive(Debug, Drop)]
pub enum Event {
    /// A session begins a request.
    Begin(Name, Ask),
    /// A session sends its request, for the first time or again.
    Send(Name),
    /// A session is given this number of further attempts.
    Resume(Name, u8),
    /// A session sends and hears in this domain from now on.
    Retune(Name, u8),
    /// A frame, by its number from 1, reaches its end, for the first time or again.
    Deliver(u32),
    /// Octets of someone whom the network file does not name reach a clock at a port.
    Stranger(Name, u16, Octets),
}

impl Event {
    ghost use Rattle.std.specs.Prelude.{◌≡◌};
    ghost use Rattle.ptpm_script.specs.EventLine.{verb_of};

    /// The first word of its line.
    pub fn verb(&self) -> &'static str
        ensures { result.now ≡ verb_of self.now }
    {
        match self {
            Event::Begin(..) => "begin",
            Event::Send(..) => "send",
            Event::Resume(..) => "resume",
            Event::Retune(..) => "retune",
            Event::Deliver(..) => "deliver",
            Event::Stranger(..) => "stranger",
        }
    }
}

/// Why a line is no event, in the order in which the reasons are judged.
#[derive(Clone, Copy, Debug, PartialEq, Eq, Error)]
pub enum EventError {
    /// The first word is no verb, or the action of `begin` is none.
    UnknownWord,
    /// The verb takes fewer words, or more.
    WordCount,
    /// A number is not decimal digits, at most ten, or is over its limit.
    BadNumber,
    /// A management id is neither a name of the table nor four hexadecimal digits.
    BadId,
    /// Octets are not an even number of hexadecimal digits.
    BadHex,
    /// Memory was refused.
    OutOfMemory,
}

/// The name, for example `WordCount`.
impl fmt::Display for EventError {
    ghost use Rattle.std.specs.Prelude.{Some};
    ghost use Rattle.ptpm_script.specs.ErrorText.{event_error_text};

    ghost output = { λ e. Some (event_error_text e) };

    fn fmt<W: fmt::Write>(&self, f: &mut fmt::Formatter<W>) -> fmt::Result {
        f.write_str(match self {
            EventError::UnknownWord => "UnknownWord",
            EventError::WordCount => "WordCount",
            EventError::BadNumber => "BadNumber",
            EventError::BadId => "BadId",
            EventError::BadHex => "BadHex",
            EventError::OutOfMemory => "OutOfMemory",
        })
    }
}
