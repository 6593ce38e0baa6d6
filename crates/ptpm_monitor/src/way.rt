//! An interface or a socket at which clocks are asked.

use std::alloc::{AllocError, Global};
use std::fmt;

/// A way, and whether a clock answered there.
#[derive(Drop)]
pub(crate) struct Way {
    pub(crate) name: Vec<u8>,
    pub(crate) is_answered: bool,
}

impl Way {
    /// That of the words `1 NAME` or `0 NAME`. In the name `\x` and two digits stand for an octet.
    pub(crate) fn of(alloc: Global, words: &str) -> Result<Option<Way>, AllocError> {
        let Some((answered, name)) = words.split_once(' ') else {
            return Ok(None);
        };
        Ok(Some(Way {
            name: octets_of(alloc, name)?,
            is_answered: answered == "1",
        }))
    }
}

fn octets_of(alloc: Global, name: &str) -> Result<Vec<u8>, AllocError> {
    let mut octets = Vec::new(alloc);
    let mut parts = name.split("\\x");
    if let Some(first) = parts.next() {
        octets.extend_from_slice(first.as_bytes())?;
    }
    for part in parts {
        let (digits, rest) = part.split_at_checked(2).unwrap_or((part, ""));
        if let Ok(octet) = u8::from_str_radix(digits, 16) {
            octets.push(octet)?;
        }
        octets.extend_from_slice(rest.as_bytes())?;
    }
    Ok(octets)
}

/// A name as HTML has it: each octet that is not printable as `\x` and two digits.
#[derive(Clone, Copy)]
pub(crate) struct HtmlName<'a>(pub(crate) &'a [u8]);

impl fmt::Display for HtmlName<'_> {
    fn fmt<W: fmt::Write>(&self, f: &mut fmt::Formatter<W>) -> fmt::Result {
        for octet in self.0 {
            match octet {
                b'&' => f.write_str("&amp;")?,
                b'<' => f.write_str("&lt;")?,
                b' '..=b'~' => write!(f, "{}", char::from(*octet))?,
                _ => write!(f, "\\x{octet:02x}")?,
            }
        }
        Ok(())
    }
}

/// A name as the value of a label in OpenMetrics.
#[derive(Clone, Copy)]
pub(crate) struct LabelName<'a>(pub(crate) &'a [u8]);

impl fmt::Display for LabelName<'_> {
    fn fmt<W: fmt::Write>(&self, f: &mut fmt::Formatter<W>) -> fmt::Result {
        for octet in self.0 {
            match octet {
                b'"' | b'\\' => write!(f, "\\\\x{octet:02x}")?,
                b' '..=b'~' => write!(f, "{}", char::from(*octet))?,
                _ => write!(f, "\\\\x{octet:02x}")?,
            }
        }
        Ok(())
    }
}
