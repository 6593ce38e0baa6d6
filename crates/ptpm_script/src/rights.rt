//! The rights that a network file gives a session (this project's profile).

ghost use Rattle.std.specs.Prelude.{◌≡◌, map, option_map, unwrap_or};
ghost use Rattle.toml.specs.View.{view, table_view};
ghost use Rattle.ptpm_script.specs.Rights.{right_in, rights_at, rights_from};

use crate::tables::array_at;
use bitflags::Flags;
use ptpm_data::Rights;
use toml::{Table, Value};

/// The rights of a session's table. If it gives none, as in version 1, the session has all.
#[tactic(auto, unfolding(crate::specs::Rights::rights_at))]
pub(crate) fn rights_at(table: &Table) -> Rights
    ensures { result ≡ rights_at (table_view table.now) }
{
    match array_at(table, "rights") {
        Some(words) => rights_of(words),
        None => Rights::all(),
    }
}

/// The rights that words name.
fn rights_of(words: &[Value]) -> Rights
    ensures { result.0 ≡ rights_from 0 (map view words.now) }
{
    let mut rights = Rights::empty();
    for word in words {
        rights = rights.union(right_or_none(word));
    }
    rights
}

/// The right of a word; none if it is of no right.
fn right_or_none(value: &Value) -> Rights
    ensures { result.0 ≡ unwrap_or (right_in (view value.now)) 0 }
{
    match right_of(value) {
        Some(right) => right,
        None => Rights::empty(),
    }
}

/// The right of a word.
pub(crate) fn right_of(value: &Value) -> Option<Rights>
    ensures { option_map (λ r. r.0) result ≡ right_in (view value.now) }
{
    match value.as_str()? {
        "clock-set" => Some(Rights::CLOCK_SET),
        "port-set" => Some(Rights::PORT_SET),
        "port-command" => Some(Rights::PORT_COMMAND),
        _ => None,
    }
}
