//! Names of clocks and sessions.

ghost use Rattle.std.specs.Prelude.{◌≡◌, IfOk};
ghost use Rattle.std.specs.List.{list_all};
ghost use Rattle.ptpm_script.specs.Spellings.{is_name, is_name_octet};

use ptpm_codec::OutOfMemory;
use std::alloc::{AllocError, Global};
use std::marker::Model;

/// The name of a clock or of a session. Contracts see it as its text.
#[derive(Debug, Drop)]
pub struct Name {
    text: String,
}

impl Model for Name {
    ghost use Rattle.std.specs.Prelude.{List, ℕ, string_bytes};

    ghost Value = { List ℕ };

    ghost view = { λ n. string_bytes n.text };
}

impl Name {
    /// A name of this text. Nothing is made if memory is refused.
    pub(crate) fn copy_of(alloc: Global, text: &str) -> Result<Name, AllocError>
        ensures { IfOk result (λ n. n ≡ text.now) }
    {
        let text = String::from_str(alloc, text)?;
        Ok(Name { text })
    }

    /// The same name once more. Nothing is made if memory is refused.
    pub fn copy(&self, alloc: Global) -> Result<Name, OutOfMemory>
        ensures { IfOk result (λ n. n ≡ self.now) }
    {
        Name::copy_of(alloc, self.as_str()).map_err(|_| OutOfMemory)
    }

    /// Its text, lent.
    pub fn as_str(&self) -> &str
        ensures { result.now ≡ self.now }
    {
        self.text.as_str()
    }
}

/// Whether a text is a name of a network file: 1 to 32 ASCII letters, digits and underscores.
#[tactic(auto, unfolding(crate::specs::Spellings::is_name))]
pub fn is_name(text: &str) -> bool
    ensures { result ≡ is_name text.now }
{
    1 <= text.len() && text.len() <= 32 && has_name_octets(text)
}

/// Whether each octet is an ASCII letter, a digit or an underscore.
fn has_name_octets(text: &str) -> bool
    ensures { result ≡ list_all is_name_octet text.now }
{
    text.as_bytes().iter().all(
        |octet| matches!(octet, b'a'..=b'z' | b'A'..=b'Z' | b'0'..=b'9' | b'_'),
    )
}
