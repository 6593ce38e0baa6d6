//! Why a line of a script is no event (this project's profile).

ghost use Rattle.std.specs.Prelude.{◌≡◌};
ghost use Rattle.ptpm_script.specs.EventLine.{error_of};
ghost use Rattle.ptpm_script.specs.declared.line_fault.LineError.TheVariants as errors;

use crate::event::EventError;
use ptpm_codec::OutOfMemory;
use std::alloc::AllocError;

/// The first fault of a line: a word that is not what is expected at its place.
#[derive(Clone, Copy, Debug, PartialEq, Eq)]
pub struct LineFault {
    /// The word's place, from 0. A line without words has none there.
    pub place: usize,
    pub expected: Expected,
}

/// What is expected of a word, or, at a verb, of its line.
#[derive(Clone, Copy, Debug, PartialEq, Eq)]
pub enum Expected {
    Verb,
    Action,
    /// As many words as a line of this verb has.
    Words(Verb),
    /// A decimal number up to this.
    Number(u32),
    PortOrNone,
    /// A management id.
    Id,
    /// Hexadecimal digits, or none.
    Octets,
}

/// What the first word of a line asks for.
#[derive(Clone, Copy, Debug, PartialEq, Eq)]
pub enum Verb {
    Begin,
    Send,
    Resume,
    Retune,
    Deliver,
    Stranger,
}

impl Expected {
    /// Why a line is refused in which it was expected.
    pub fn error(self) -> EventError
        ensures { result ≡ error_of self }
    {
        match self {
            Expected::Verb | Expected::Action => EventError::UnknownWord,
            Expected::Words(_) => EventError::WordCount,
            Expected::Number(_) | Expected::PortOrNone => EventError::BadNumber,
            Expected::Id => EventError::BadId,
            Expected::Octets => EventError::BadHex,
        }
    }
}

/// Why no event is read.
#[derive(Clone, Copy, Debug, PartialEq, Eq)]
pub enum LineError {
    /// The line is none.
    Fault(LineFault),
    /// Memory was refused.
    OutOfMemory,
}

impl From<OutOfMemory> for LineError {
    ghost from_gives = { λ _ e. e ≡ errors.OutOfMemory };

    fn from(_refused: OutOfMemory) -> LineError {
        LineError::OutOfMemory
    }
}

impl From<AllocError> for LineError {
    ghost from_gives = { λ _ e. e ≡ errors.OutOfMemory };

    fn from(_refused: AllocError) -> LineError {
        LineError::OutOfMemory
    }
}
