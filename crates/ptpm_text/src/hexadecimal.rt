//! Octets as text.

ghost use Rattle.std.specs.Prelude.{Some};
ghost use Rattle.ptpm_text.specs.OctetText.{text_of_octets};

use std::fmt;

/// Octets that print as hexadecimal digits in lower case, and as `-` if there are none.
#[derive(Clone, Copy, Debug)]
pub struct Hexadecimal<'a>(pub &'a [u8]);

impl fmt::Display for Hexadecimal<'_> {
    ghost output = { λ h. Some (text_of_octets h.0.now) };

    fn fmt<W: fmt::Write>(&self, f: &mut fmt::Formatter<W>) -> fmt::Result {
        if self.0.is_empty() {
            return f.write_str("-");
        }
        for &octet in self.0 {
            write!(f, "{octet:02x}")?;
        }
        Ok(())
    }
}
