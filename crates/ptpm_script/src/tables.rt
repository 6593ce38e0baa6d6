//! The content of the tables of a network file, whatever it is.

ghost use Rattle.std.specs.Prelude.{◌≡◌, ◌==◌, [], bytes_eq, map, option_and_then, option_map, unwrap_or};
ghost use Rattle.ptpm_script.specs.Heads.{items_at, items_in, list_of, name_at};
ghost use Rattle.ptpm_script.specs.Spellings.{passes};
ghost use Rattle.toml.specs.Data.{as_array, as_table, get_member};
ghost use Rattle.toml.specs.View.{view, table_view};

use crate::names::is_name;
use crate::values::{text_at, value_at};
use toml::{Table, Value};

/// The items of the array at a key, if there is one.
#[tactic(auto, using(crate::proofs::ItemLemmas::list_items))]
pub(crate) fn array_at<'a>(table: &'a Table, key: &str) -> Option<&'a [Value]>
    ensures { option_map (λ s. map view s.now) result
        ≡ option_map list_of (option_and_then as_array (get_member key.now (table_view table.now))) }
{
    Some(value_at(table, key)?.as_array()?.as_slice())
}

/// The items of the array at a key; none if there is no array.
#[tactic(auto, unfolding(crate::specs::Heads::items_at))]
pub(crate) fn items_at<'a>(table: &'a Table, key: &str) -> &'a [Value]
    ensures { map view result.now ≡ items_at key.now (table_view table.now) }
{
    array_at(table, key).unwrap_or(&[])
}

/// The items of the array at a key of a value; none if it is no table, or there is no array.
pub(crate) fn items_in<'a>(value: &'a Value, key: &str) -> &'a [Value]
    ensures { map view result.now ≡ items_in key.now (view value.now) }
{
    match value.as_table() {
        Some(table) => items_at(table, key),
        None => &[],
    }
}

/// The text at a key, if it is a name.
pub(crate) fn name_at<'a>(table: &'a Table, key: &str) -> Option<&'a str>
    ensures { option_map (λ s. s.now) result ≡ name_at key.now (table_view table.now) }
{
    let text = text_at(table, key)?;
    is_name(text).then_some(text)
}

/// The name in a value that is a table.
pub(crate) fn name_in(value: &Value) -> Option<&str> {
    name_at(value.as_table()?, "name")
}

/// A text, or the text of no octets if there is none.
pub(crate) fn text_or_none(text: Option<&str>) -> &str
    ensures { result.now ≡ unwrap_or (option_map (λ s. s.now) text.entry) [] }
{
    text.unwrap_or("")
}

/// Whether a name is there, and is this one.
pub(crate) fn is_name_of(name: Option<&str>, wanted: &str) -> bool
    ensures { result ≡ passes (λ n. bytes_eq n wanted.now) (option_map (λ n. n.now) name.entry) }
{
    name.is_some_and(|name| name == wanted)
}

/// Whether a number is there, and is this one.
pub(crate) fn is_number(number: Option<u16>, wanted: u16) -> bool
    ensures { result ≡ passes (λ n. n == wanted) number }
{
    number.is_some_and(|number| number == wanted)
}
