//! A text in quotes, as the findings have it.

use std::alloc::{AllocError, Global};

/// The text between quotes. `None` if it is none: it lacks a quote, has more after the last one, or has an escape that is none.
pub(crate) fn unquoted_text(alloc: Global, quoted: &str) -> Result<Option<String>, AllocError> {
    let Some(inner) = inner_of(quoted) else {
        return Ok(None);
    };
    let mut text = String::new(alloc);
    let mut rest = inner;
    for _ in 0..inner.len() {
        let Some(first) = rest.chars().next() else {
            break;
        };
        let Some((character, behind)) = next_of(first, rest) else {
            return Ok(None);
        };
        text.push(character)?;
        rest = behind;
    }
    Ok(Some(text))
}

/// What is between the first quote and the last.
fn inner_of(quoted: &str) -> Option<&str> {
    quoted.strip_prefix('"')?.strip_suffix('"')
}

/// The character that a text begins with, as it is or by an escape, and what is after it.
fn next_of(first: char, text: &str) -> Option<(char, &str)> {
    match first {
        '"' => None,
        '\\' => escaped(text.strip_prefix('\\')?),
        _ => Some((first, text.strip_prefix(first)?)),
    }
}

/// The character of an escape without its `\`, and what is after it.
fn escaped(text: &str) -> Option<(char, &str)> {
    let first = text.chars().next()?;
    let behind = text.strip_prefix(first)?;
    let character = match first {
        '0' => '\0',
        't' => '\t',
        'r' => '\r',
        'n' => '\n',
        '\'' | '"' | '\\' => first,
        'u' => return by_number(behind),
        _ => return None,
    };
    Some((character, behind))
}

/// The character of a number in braces, one to six hexadecimal digits, and what is after it.
fn by_number(text: &str) -> Option<(char, &str)> {
    let (digits, behind) = text.strip_prefix('{')?.split_once('}')?;
    if digits.is_empty() || 6 < digits.len() {
        return None;
    }
    let number = u32::from_str_radix(digits, 16).ok()?;
    Some((char::from_u32(number)?, behind))
}
