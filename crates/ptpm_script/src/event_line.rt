//! Lines of a script as events (this project's profile).

ghost use Rattle.std.specs.Prelude.{◌≡◌, [], Some, None, IfOk};
ghost use Rattle.ptpm_script.specs.EventLine.{IsAnswer, IsRead, ask_of, begin_of, deliver_of, line_of, octets_of, port_named, reading, resume_of, retune_of, send_of, stranger_of};
ghost use Rattle.ptpm_text.specs.Numbers.{decimal_up_to};
ghost use Rattle.ptpm_text.specs.Words.{words};

use crate::event::{Event, EventError};
use crate::line_fault::{Expected, LineError, LineFault, Verb};
use crate::names::Name;
use hex::FromHexError;
use ptpm_codec::{Action, Octets, OutOfMemory};
use ptpm_manager::Ask;
use ptpm_text::{
    action_named, decimal_u8, decimal_u16, decimal_up_to, id_named, one_word, split_two_words,
    split_word, three_words, two_words,
};
use std::alloc::Global;

/// The word that stands for no value.
const NONE: &str = "-";

/// The event of a line of a script. `read_line` reads it.
///
/// Refused with the first `EventError` that holds; only want of memory may come in place of another.
pub fn read_event(alloc: Global, line: &str) -> Result<Event, EventError>
    ensures { IsAnswer result (reading line.now) }
{
    match read_line(alloc, line) {
        Ok(event) => Ok(event),
        Err(LineError::Fault(fault)) => Err(fault.expected.error()),
        Err(LineError::OutOfMemory) => Err(EventError::OutOfMemory),
    }
}

/// The event of a line of a script, or the line's first fault. Only want of memory may come in place of both.
pub fn read_line(alloc: Global, line: &str) -> Result<Event, LineError>
    ensures { IsRead result (line_of (words line.now)) }
{
    let (verb, rest) = split_word(line).ok_or(at(0, Expected::Verb))?;
    match verb {
        "begin" => read_begin(alloc, rest),
        "send" => read_send(alloc, rest),
        "resume" => read_resume(alloc, rest),
        "retune" => read_retune(alloc, rest),
        "deliver" => read_deliver(rest),
        "stranger" => read_stranger(alloc, rest),
        _ => Err(at(0, Expected::Verb)),
    }
}

/// That a line has a fault at a place.
fn at(place: usize, expected: Expected) -> LineError
    ensures { result ≡ LineError.Fault (record { place = place; expected = expected }) }
{
    LineError::Fault(LineFault { place, expected })
}

fn read_begin(alloc: Global, text: &str) -> Result<Event, LineError>
    ensures { IsRead result (begin_of (words text.now)) }
{
    let (session, action, rest) = split_two_words(text).ok_or(at(0, Expected::Words(Verb::Begin)))?;
    let action = action_named(action).ok_or(at(2, Expected::Action))?;
    read_ask(alloc, session, action, rest)
}

fn read_ask(alloc: Global, session: &str, action: Action, text: &str) -> Result<Event, LineError>
    ensures { IsRead result (ask_of session.now action (words text.now)) }
{
    let (id, port, octets) = three_words(text).ok_or(at(0, Expected::Words(Verb::Begin)))?;
    let port = port_named(port).ok_or(at(4, Expected::PortOrNone))?;
    let id = id_named(id).ok_or(at(3, Expected::Id))?;
    let octets = octets_of(alloc, octets)?.ok_or(at(5, Expected::Octets))?;
    let session = Name::copy_of(alloc, session)?;
    let ask = Ask {
        action,
        id,
        port,
        octets,
    };
    Ok(Event::Begin(session, ask))
}

fn read_send(alloc: Global, text: &str) -> Result<Event, LineError>
    ensures { IsRead result (send_of (words text.now)) }
{
    let session = one_word(text).ok_or(at(0, Expected::Words(Verb::Send)))?;
    Ok(Event::Send(Name::copy_of(alloc, session)?))
}

fn read_resume(alloc: Global, text: &str) -> Result<Event, LineError>
    ensures { IsRead result (resume_of (words text.now)) }
{
    let (session, attempts) = two_words(text).ok_or(at(0, Expected::Words(Verb::Resume)))?;
    let attempts = decimal_u8(attempts).ok_or(at(2, Expected::Number(255)))?;
    Ok(Event::Resume(Name::copy_of(alloc, session)?, attempts))
}

fn read_retune(alloc: Global, text: &str) -> Result<Event, LineError>
    ensures { IsRead result (retune_of (words text.now)) }
{
    let (session, domain) = two_words(text).ok_or(at(0, Expected::Words(Verb::Retune)))?;
    let domain = decimal_u8(domain).ok_or(at(2, Expected::Number(255)))?;
    Ok(Event::Retune(Name::copy_of(alloc, session)?, domain))
}

fn read_deliver(text: &str) -> Result<Event, LineError>
    ensures { IsRead result (deliver_of (words text.now)) }
{
    let frame = one_word(text).ok_or(at(0, Expected::Words(Verb::Deliver)))?;
    let frame = frame_number(frame).ok_or(at(1, Expected::Number(400_000)))?;
    Ok(Event::Deliver(frame))
}

/// The number of a frame. A network holds 400,000 of them at most.
fn frame_number(text: &str) -> Option<u32>
    ensures { result ≡ decimal_up_to 400000 text.now }
{
    Some(decimal_up_to(400_000, text)? as u32)
}

fn read_stranger(alloc: Global, text: &str) -> Result<Event, LineError>
    ensures { IsRead result (stranger_of (words text.now)) }
{
    let (clock, port, octets) = three_words(text).ok_or(at(0, Expected::Words(Verb::Stranger)))?;
    let port = decimal_u16(port).ok_or(at(2, Expected::Number(65_535)))?;
    let octets = octets_of(alloc, octets)?.ok_or(at(3, Expected::Octets))?;
    Ok(Event::Stranger(Name::copy_of(alloc, clock)?, port, octets))
}

/// A port, or none.
#[tactic(auto, unfolding(crate::specs::EventLine::port_named))]
fn port_named(word: &str) -> Option<Option<u16>>
    ensures { result ≡ port_named word.now }
{
    if word == NONE {
        return Some(None);
    }
    Some(Some(decimal_u16(word)?))
}

/// Octets by their hexadecimal digits; `None` if these are none.
#[tactic(auto, unfolding(crate::specs::EventLine::octets_of))]
fn octets_of(alloc: Global, word: &str) -> Result<Option<Octets>, OutOfMemory>
    ensures { IfOk result (λ octets. octets ≡ octets_of word.now) }
{
    if word == NONE {
        return Ok(Some(Octets::copy_of(alloc, &[])?));
    }
    match hex::decode(alloc, word) {
        Ok(octets) => Ok(Some(Octets::copy_of(alloc, octets.as_slice())?)),
        Err(FromHexError::OutOfMemory) => Err(OutOfMemory),
        Err(_) => Ok(None),
    }
}
