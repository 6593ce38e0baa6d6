//! The fault that `read_line` finds in an event's line, with the word that is to blame (this project's profile).

ghost use Rattle.std.specs.Prelude.{◌≡◌, IfOk, option_map, option_and_then, slice_get};
ghost use Rattle.std.specs.Result.{result_err};
ghost use Rattle.ptpm_script.specs.EventLine.{line_of, reading};
ghost use Rattle.ptpm_text.specs.Words.{words};

use crate::event::EventError;
use crate::event_line::read_line;
use crate::line_fault::{Expected, LineError, Verb};
use crate::nearest::nearest;
use crate::value_text::Quoted;
use ptpm_codec::OutOfMemory;
use ptpm_data::{MANAGEMENT_IDS, row};
use ptpm_text::word_at;
use std::alloc::{AllocError, Global};
use std::fmt;

const VERBS: [&str; 6] = ["begin", "send", "resume", "retune", "deliver", "stranger"];

const ACTIONS: [&str; 3] = ["get", "set", "command"];

/// A line that is no event.
#[derive(Clone, Copy)]
pub struct EventFault<'a> {
    /// Why it is refused.
    pub error: EventError,
    /// The word that is to blame; none in a line without words.
    pub word: Option<&'a str>,
    pub expected: Expected,
    /// Of the names that are expected, the one that is nearest to the word.
    pub nearest: Option<&'static str>,
}

/// Why a line is no event; `None` if it is one.
pub fn event_fault<'a>(alloc: Global, line: &'a str) -> Result<Option<EventFault<'a>>, OutOfMemory>
    ensures error { IfOk result (λ fault. option_map (λ f. f.error) fault ≡ result_err (reading line.now)) }
    ensures word { IfOk result (λ fault.
        option_and_then (λ f. option_map (λ w. w.now) f.word) fault
        ≡ option_and_then (λ f. slice_get (words line.now) f.place) (result_err (line_of (words line.now)))) }
    ensures expected { IfOk result (λ fault.
        option_map (λ f. f.expected) fault ≡ option_map (λ f. f.expected) (result_err (line_of (words line.now)))) }
{
    let fault = match read_line(alloc, line) {
        Ok(_) => return Ok(None),
        Err(LineError::Fault(fault)) => fault,
        Err(LineError::OutOfMemory) => return Err(OutOfMemory),
    };
    let word = word_at(line, fault.place);
    let nearest = nearest_to(alloc, word.unwrap_or(""), fault.expected);
    Ok(Some(EventFault {
        error: fault.expected.error(),
        word,
        expected: fault.expected,
        nearest: nearest.map_err(|_| OutOfMemory)?,
    }))
}

/// Of the names that are expected, the one that is nearest to a word; `None` if no names are.
fn nearest_to(
    alloc: Global,
    word: &str,
    expected: Expected,
) -> Result<Option<&'static str>, AllocError> {
    match expected {
        Expected::Verb => nearest(alloc, word, &VERBS),
        Expected::Action => nearest(alloc, word, &ACTIONS),
        Expected::Id => nearest_id(alloc, word),
        _ => Ok(None),
    }
}

/// The name of a management id that is nearest to a word.
fn nearest_id(alloc: Global, word: &str) -> Result<Option<&'static str>, AllocError> {
    let mut names = Vec::new(alloc);
    for id in &MANAGEMENT_IDS {
        if let Some(row) = row(*id) {
            names.push(row.name)?;
        }
    }
    nearest(alloc, word, names.as_slice())
}

/// For example, `"300": a whole number from 0 to 255`.
impl fmt::Display for EventFault<'_> {
    fn fmt<W: fmt::Write>(&self, f: &mut fmt::Formatter<W>) -> fmt::Result {
        if let Some(word) = self.word {
            write!(f, "{}: ", Quoted(word))?;
        }
        write_expected(f, self.expected)?;
        match self.nearest {
            Some(name) => write!(f, "; the nearest is {name}"),
            None => Ok(()),
        }
    }
}

fn write_expected<W: fmt::Write>(f: &mut fmt::Formatter<W>, expected: Expected) -> fmt::Result {
    match expected {
        Expected::Verb => write_choice(f, &VERBS),
        Expected::Action => write_choice(f, &ACTIONS),
        Expected::Words(verb) => f.write_str(line_text(verb)),
        Expected::Number(most) => write!(f, "a whole number from 0 to {most}"),
        Expected::PortOrNone => f.write_str("a port from 0 to 65535, or - for none"),
        Expected::Id => f.write_str("a name that `ptpm ids` prints, or four hexadecimal digits"),
        Expected::Octets => f.write_str("two hexadecimal digits for each octet, or - for none"),
    }
}

/// How the line of a verb is written.
fn line_text(verb: Verb) -> &'static str {
    match verb {
        Verb::Begin => "begin SESSION ACTION ID PORT HEX",
        Verb::Send => "send SESSION",
        Verb::Resume => "resume SESSION ATTEMPTS",
        Verb::Retune => "retune SESSION DOMAIN",
        Verb::Deliver => "deliver FRAME",
        Verb::Stranger => "stranger CLOCK PORT HEX",
    }
}

/// Writes names as `get, set or command`.
fn write_choice<W: fmt::Write>(f: &mut fmt::Formatter<W>, names: &[&str]) -> fmt::Result {
    for index in 0..names.len() {
        if index > 0 {
            let is_last = index == names.len() - 1;
            f.write_str(if is_last { " or " } else { ", " })?;
        }
        f.write_str(names[index])?;
    }
    Ok(())
}
