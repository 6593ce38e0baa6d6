//! What came with a message, as an array of texts.

ghost use Rattle.std.specs.Prelude.{◌≡◌, IfOk, OnOk, map};
ghost use Rattle.serde_json.specs.Data.{string};
ghost use Rattle.serde_json.specs.View.{members_view, view};
ghost use Rattle.ptpm_message_json.specs.MessageJson.{put_columns};

use serde_json::{Map, Value, put};
use std::alloc::{AllocError, Global};

/// Puts `columns`, an array of these texts, unless there is none.
#[tactic(auto, unfolding(crate::specs::MessageJson::put_columns))]
pub(crate) fn put_columns(
    alloc: Global,
    columns: &[&str],
    object: &mut Map<String, Value>,
) -> Result<(), AllocError>
    ensures { OnOk result (members_view object.new.entries
        ≡ put_columns (map (λ c. c.now) columns.now) (members_view object.old.entries)) }
{
    if columns.is_empty() {
        return Ok(());
    }
    put(
        object,
        alloc,
        "columns",
        Value::Array(texts(alloc, columns)?),
    )
}

fn texts(alloc: Global, texts: &[&str]) -> Result<Vec<Value>, AllocError>
    ensures { IfOk result (λ v. map view v.items ≡ map (λ t. string t.now) texts.now) }
{
    let mut values = Vec::new(alloc);
    for text in texts {
        values.push(Value::try_from_str(alloc, text)?)?;
    }
    Ok(values)
}
