//! The words before a datagram in a line: when it came, from which address, at which interface, and whether it was taken. And those of
//! a note: the identities of the host that asked, and whether its clock is right.

use std::str::FromStr;

/// Nanoseconds in a second.
const SECOND: u64 = 1_000_000_000;

/// When the datagram of a line came, in nanoseconds since 1970, by the first word `at=`. A time has seconds in decimal digits, and
/// after a point one to nine digits more. It is `None` if there is no such word, or if it has no time.
pub(crate) fn at_of(line: &str) -> Option<u64> {
    nanoseconds_of(said_by(line, "at=")?)
}

/// What comes after the first name of this kind, such as `taken=`.
pub(crate) fn said_by<'a>(line: &'a str, name: &str) -> Option<&'a str> {
    for word in line.split(' ') {
        if let Some(value) = word.strip_prefix(name) {
            return Some(value);
        }
    }
    None
}

/// The same if it is not empty.
pub(crate) fn value_of<'a>(line: &'a str, name: &str) -> Option<&'a str> {
    let value = said_by(line, name)?;
    if value.is_empty() { None } else { Some(value) }
}

/// The words of a note `#ptpm`. `None` if a line is no such note.
pub(crate) fn note_in(line: &str) -> Option<&str> {
    let words = line.strip_prefix("#ptpm")?;
    if words.is_empty() || words.starts_with(' ') {
        Some(words)
    } else {
        None
    }
}

/// Whether words say that the clock of the host that asked was right.
pub(crate) fn is_synchronised(words: &str) -> bool {
    words.split(' ').any(|word| word == "clock=synchronised")
}

fn nanoseconds_of(time: &str) -> Option<u64> {
    match time.split_once('.') {
        Some((whole, fraction)) => {
            let whole = whole_of(whole)?;
            whole.checked_add(fraction_of(fraction)?)
        }
        None => whole_of(time),
    }
}

/// Whole seconds, in nanoseconds.
fn whole_of(digits: &str) -> Option<u64> {
    number_of(digits)?.checked_mul(SECOND)
}

/// The part of a second after a point, in nanoseconds.
fn fraction_of(digits: &str) -> Option<u64> {
    if 9 < digits.len() {
        return None;
    }
    let mut fraction = number_of(digits)?;
    for _ in digits.len()..9 {
        fraction = fraction.checked_mul(10)?;
    }
    Some(fraction)
}

/// A number of decimal digits alone.
fn number_of(digits: &str) -> Option<u64> {
    if digits.bytes().all(|octet| octet.is_ascii_digit()) {
        u64::from_str(digits).ok()
    } else {
        None
    }
}
