//! Whether a member has a value.

ghost use Rattle.std.specs.Prelude.{◌≡◌, [], IfOk, string_bytes};
ghost use Rattle.ptpm_members.specs.FieldText.{field_text};
ghost use Rattle.ptpm_apply.specs.Value.{is_same};

use ptpm_members::FieldText;
use std::alloc::{AllocError, Global};

/// Whether two dataFields of an id have members of the same values. Reserved octets and bits do not count.
#[tactic(auto, unfolding(crate::specs::Value::is_same))]
pub fn is_same(alloc: Global, id: u16, one: &[u8], other: &[u8]) -> Result<bool, AllocError>
    ensures { IfOk result (λ b. b ≡ is_same id one.now other.now) }
{
    let one = text_of(alloc, id, one)?;
    let other = text_of(alloc, id, other)?;
    Ok(one.as_str() == other.as_str())
}

/// The members of a dataField, one a line.
fn text_of(alloc: Global, id: u16, octets: &[u8]) -> Result<String, AllocError>
    ensures { IfOk result (λ t. string_bytes t ≡ field_text [] id octets.now) }
{
    let text = FieldText {
        lead: "",
        id,
        octets,
    };
    format!(in alloc; "{text}")
}
