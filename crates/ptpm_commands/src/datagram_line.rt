//! A datagram in a line: its hexadecimal digits, in the form that `ptpm answer` takes or in that of a line that it prints. Words
//! NAME=VALUE may come before them.

ghost use Rattle.std.specs.Prelude.{◌≡◌, ◌⊎◌, ◌<◌, IfErr, IfNone, IfOk, IfSome, IsErr, None, Ok, Some, length, option_map, if◌then◌else◌};
ghost use Rattle.ptpm_commands.specs.DatagramLine.{after_port, after_words, behind_all, datagram_of, digits_of, is_note, is_word, texts};

use crate::faults::Fault;
use hex::FromHexError;
use ptpm_text::decimal_u16;
use std::alloc::Global;

/// The datagram; none in a note, and if the line is `nothing`, which is printed if no message is sent. Refused with BadHex if
/// what should be its digits are none.
pub(crate) fn datagram_of(alloc: Global, line: &str) -> Result<Option<Vec<u8>>, Fault>
    ensures ok { IfOk result (λ d. datagram_of line.now ≡ Ok (option_map (λ v. v.items) d)) }
    ensures err { IfErr result (λ e. (e ≡ Fault.OutOfMemory) ⊎ ((e ≡ Fault.BadHex) × IsErr (datagram_of line.now))) }
{
    let Some(digits) = digits_of(line) else {
        return Ok(None);
    };
    match hex::decode(alloc, digits) {
        Ok(octets) => Ok(Some(octets)),
        Err(FromHexError::OutOfMemory) => Err(Fault::OutOfMemory),
        Err(_) => Err(Fault::BadHex),
    }
}

/// The digits of the datagram; none in a note, and if the line is `nothing`.
#[tactic(auto, unfolding(crate::specs::DatagramLine::digits_of))]
fn digits_of(line: &str) -> Option<&str>
    ensures { option_map (λ t. t.now) result ≡ digits_of line.now }
{
    if line == "nothing" || is_note(line) {
        None
    } else {
        Some(after_port(after_words(line)))
    }
}

/// Whether a line begins with `#`.
fn is_note(line: &str) -> bool
    ensures { result ≡ is_note line.now }
{
    match line.as_bytes() {
        [first, ..] => *first == b'#',
        [] => false,
    }
}

/// What follows the words NAME=VALUE with which a line begins; the whole line if something else is before its last space.
#[tactic(auto, unfolding(crate::specs::DatagramLine::after_words))]
fn after_words(line: &str) -> &str
    ensures { result.now ≡ after_words line.now }
{
    let mut rest = line;
    while let Some((word, behind)) = first_text(rest) {
        if !is_word(word) {
            return line;
        }
        rest = behind;
    }
    rest
}

/// The text before the first space, and what is after it; none if there is no space.
fn first_text(line: &str) -> Option<(&str, &str)>
    ensures none { IfNone result (behind_all (texts line.now) ≡ Some line.now) }
    ensures some { IfSome result (λ r. behind_all (texts line.now)
        ≡ (if is_word r.0.now then behind_all (texts r.1.now) else None)) }
    ensures shorter { IfSome result (λ r. length r.1.now < length line.now) }
{
    line.split_once(' ')
}

/// Whether a text has an equals sign.
fn is_word(text: &str) -> bool
    ensures { result ≡ is_word text.now }
{
    text.as_bytes().iter().any(|octet| *octet == b'=')
}

/// What follows a port number and a space; the whole line if it does not begin with them.
#[tactic(auto, unfolding(crate::specs::DatagramLine::after_port))]
fn after_port(line: &str) -> &str
    ensures { result.now ≡ after_port line.now }
{
    match line.split_once(' ') {
        Some((port, rest)) if decimal_u16(port).is_some() => rest,
        _ => line,
    }
}
