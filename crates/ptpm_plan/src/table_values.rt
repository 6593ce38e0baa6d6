//! Values at the keys of a plan file's tables.

ghost use Rattle.std.specs.Prelude.{◌≡◌, ◌≤◌, IfOk, IfSome, None, OnErr, Some, codes, map, option_map};
ghost use Rattle.toml.specs.Data.{as_table, get_member};
ghost use Rattle.toml.specs.View.{table_view, view};
ghost use Rattle.ptpm_plan.specs.FileText.{Reads, domain_in, expected_in, items_at, number_in, text_at};

use crate::file_fault::{FileFault, Place};
use toml::{Table, Value};

/// The value at a key.
pub(crate) fn value_at<'a>(table: &'a Table, key: &str) -> Option<&'a Value>
    ensures { option_map (λ v. view v.now) result ≡ get_member key.now (table_view table.now) }
{
    table.get(key)
}

/// The table that a value is.
pub(crate) fn shaped<'a>(
    value: &'a Value,
    key: &'static str,
    place: Place,
) -> Result<&'a Table, FileFault>
    ensures table { IfOk result (λ t. as_table (view value.now) ≡ Some (table_view t.now)) }
    ensures refused { OnErr result (as_table (view value.now) ≡ None) }
{
    match value.as_table() {
        Some(table) => Ok(table),
        None => Err(FileFault::takes(place, key, "a table")),
    }
}

/// The text at a key, if the key is there.
pub(crate) fn text_at<'a>(
    table: &'a Table,
    key: &'static str,
    place: Place,
) -> Result<Option<&'a str>, FileFault>
    ensures { Reads result (λ t. option_map (λ s. s.now) t) (text_at key.now (table_view table.now)) }
{
    match value_at(table, key) {
        None => Ok(None),
        Some(value) => match value.as_str() {
            Some(text) => Ok(Some(text)),
            None => Err(FileFault::takes(place, key, "a text")),
        },
    }
}

/// The elements of the array at a key, none if the key is absent.
#[tactic(auto, using(crate::proofs::Gathering::list_items))]
pub(crate) fn tables_at<'a>(
    table: &'a Table,
    key: &'static str,
    place: Place,
) -> Result<&'a [Value], FileFault>
    ensures { Reads result (λ s. map view s.now) (items_at key.now (table_view table.now)) }
{
    let Some(value) = value_at(table, key) else {
        return Ok(&[]);
    };
    match value.as_array() {
        Some(array) => Ok(array.as_slice()),
        None => {
            let takes = "tables, each after its name in double brackets";
            Err(FileFault::takes(place, key, takes))
        }
    }
}

/// The domainNumber at `domain`, 0 if it is absent.
pub(crate) fn domain_at(table: &Table, place: Place) -> Result<u8, FileFault>
    ensures domain { IfOk result (λ domain. domain_in (table_view table.now) ≡ Some domain) }
    ensures refused { OnErr result (domain_in (table_view table.now) ≡ None) }
{
    let Some(value) = value_at(table, "domain") else {
        return Ok(0);
    };
    match number_in(value, 0, 0xff) {
        Some(number) => Ok(number as u8),
        None => Err(FileFault::takes(place, "domain", "a number from 0 to 255")),
    }
}

/// How many clocks are to answer, at `clocks`, if the key is there.
pub(crate) fn clocks_at(table: &Table, place: Place) -> Result<Option<u16>, FileFault>
    ensures expected { IfOk result (λ expected. expected_in (table_view table.now) ≡ Some expected) }
    ensures refused { OnErr result (expected_in (table_view table.now) ≡ None) }
{
    let Some(value) = value_at(table, "clocks") else {
        return Ok(None);
    };
    match number_in(value, 1, 0xffff) {
        Some(number) => Ok(Some(number)),
        None => Err(FileFault::takes(place, "clocks", "a number from 1 to 65535")),
    }
}

/// The number that a value is, if it is one from the least to the most.
pub(crate) fn number_in(value: &Value, least: u16, most: u16) -> Option<u16>
    ensures number { result ≡ number_in least most (view value.now) }
    ensures bound { IfSome result (λ number. number ≤ most) }
{
    let number = u16::try_from(value.as_integer()?).ok()?;
    if least <= number && number <= most {
        Some(number)
    } else {
        None
    }
}
