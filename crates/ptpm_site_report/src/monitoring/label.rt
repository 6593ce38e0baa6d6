//! Texts as values of labels.

use std::fmt;

/// A text as OpenMetrics has it between the quotes of a label: a backslash before `\` and `"`, and `\n` for a line feed. Other
/// characters are as in a site's text, so the number of one that is not printable stands for it.
#[derive(Clone, Copy)]
pub(crate) struct Label<'a>(pub(crate) &'a str);

impl fmt::Display for Label<'_> {
    fn fmt<W: fmt::Write>(&self, f: &mut fmt::Formatter<W>) -> fmt::Result {
        for character in self.0.chars() {
            match character {
                '\\' => f.write_str("\\\\")?,
                '"' => f.write_str("\\\"")?,
                '\n' => f.write_str("\\n")?,
                '\'' => f.write_str("'")?,
                other => write_escape(other, f)?,
            }
        }
        Ok(())
    }
}

/// Writes a character that is no escape itself. Its own escape, if it has one, begins with a backslash, which is doubled.
fn write_escape<W: fmt::Write>(other: char, f: &mut fmt::Formatter<W>) -> fmt::Result {
    for character in other.escape_debug() {
        if character == '\\' {
            f.write_str("\\")?;
        }
        f.write_char(character)?;
    }
    Ok(())
}
