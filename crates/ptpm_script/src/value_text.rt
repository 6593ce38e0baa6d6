//! The content of a file, as a fault shows it.

use std::fmt;
use toml::Value;

/// How many characters of a text are shown, and how many items of an array.
const SHOWN: usize = 48;

/// A text between quotes; what cannot be printed is shown as `?`, and of a long text the beginning.
#[derive(Clone, Copy)]
pub(crate) struct Quoted<'a>(pub(crate) &'a str);

impl fmt::Display for Quoted<'_> {
    fn fmt<W: fmt::Write>(&self, f: &mut fmt::Formatter<W>) -> fmt::Result {
        f.write_str("\"")?;
        let mut shown = 0;
        for character in self.0.chars() {
            if shown == SHOWN {
                f.write_str("..")?;
                break;
            }
            shown += 1;
            if character.is_control() {
                f.write_str("?")?;
            } else {
                write!(f, "{character}")?;
            }
        }
        f.write_str("\"")
    }
}

/// A value: a text as `Quoted`, an array with its first items, and a table as `{..}`.
#[derive(Clone, Copy)]
pub(crate) struct ValueText<'a>(pub(crate) &'a Value);

impl fmt::Display for ValueText<'_> {
    fn fmt<W: fmt::Write>(&self, f: &mut fmt::Formatter<W>) -> fmt::Result {
        let Some(items) = self.0.as_array() else {
            return write!(f, "{}", Plain(self.0));
        };
        f.write_str("[")?;
        let items = items.as_slice();
        for place in 0..items.len() {
            if place > 0 {
                f.write_str(", ")?;
            }
            if place == SHOWN {
                f.write_str("..")?;
                break;
            }
            write!(f, "{}", Plain(&items[place]))?;
        }
        f.write_str("]")
    }
}

/// A value; an array or a table is not looked into.
#[derive(Clone, Copy)]
struct Plain<'a>(&'a Value);

impl fmt::Display for Plain<'_> {
    fn fmt<W: fmt::Write>(&self, f: &mut fmt::Formatter<W>) -> fmt::Result {
        match self.0 {
            Value::String(text) => write!(f, "{}", Quoted(text.as_str())),
            Value::Integer(number) => write!(f, "{number}"),
            Value::Float(number) => write!(f, "{number:?}"),
            Value::Boolean(flag) => write!(f, "{flag}"),
            Value::Datetime(time) => write!(f, "{time}"),
            Value::Array(_) => f.write_str("[..]"),
            Value::Table(_) => f.write_str("{..}"),
        }
    }
}
