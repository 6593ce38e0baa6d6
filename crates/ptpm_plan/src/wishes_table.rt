//! The members that a table of a plan file names.

ghost use Rattle.std.specs.Prelude.{◌≡◌, ◌≢◌, IfErr, None, OnOk, Some};
ghost use Rattle.toml.specs.View.{table_view, view};
ghost use Rattle.ptpm_plan.specs.declared.file_fault.FileFault.{FileFault};
ghost use Rattle.ptpm_plan.specs.FileText.{Gathers, Reads, typed, typed_at, utc_in, wish_in, wished_of, wishes_in, wishes_of};

use crate::change::PlannedId;
use crate::file_fault::{FileFault, Place, TableFault};
use crate::table_keys::{TableKind, other_key};
use crate::table_values::value_at;
use crate::text::Text;
use crate::wish::{UtcWish, Wish, Wished};
use std::alloc::{AllocError, Global};
use toml::{Table, Value};

/// Reads the ids of a table, in the order of `PlannedId`.
pub(crate) fn read_wishes(
    alloc: Global,
    table: &Table,
    kind: TableKind,
    place: Place,
) -> Result<Vec<Wish>, FileFault>
    ensures { Reads result (λ v. v.items) (wishes_of kind (table_view table.now)) }
{
    if let Some(key) = other_key(table, kind) {
        return Err(FileFault::At(place, fault_of(alloc, key.as_str(), kind)?));
    }
    read_named(alloc, table, place)
}

/// The same, whatever other keys the table has.
fn read_named(alloc: Global, table: &Table, place: Place) -> Result<Vec<Wish>, FileFault>
    ensures { Reads result (λ v. v.items) (wishes_in (table_view table.now)) }
{
    let mut wishes = Vec::new(alloc);
    for id in &PlannedId::ALL {
        add_wish(alloc, table, *id, place, &mut wishes)?;
    }
    Ok(wishes)
}

/// Adds what a table asks of an id, if it names it.
#[tactic(auto, unfolding(crate::specs::FileText::wish_in))]
fn add_wish(
    alloc: Global,
    table: &Table,
    id: PlannedId,
    place: Place,
    wishes: &mut Vec<Wish>,
) -> Result<(), FileFault>
    ensures found { OnOk result (Gathers (wish_in (table_view table.now) id) wishes.old.items wishes.new.items) }
    ensures refused { IfErr result (λ fault. fault ≢ FileFault.OutOfMemory → wish_in (table_view table.now) id ≡ Some None) }
{
    if let Some(value) = value_at(table, id.name()) {
        let wished = read_wished(alloc, id, value, place)?;
        wishes.push(Wish { id, wished })?;
    }
    Ok(())
}

/// What is wrong with a key that is none of such a table.
fn fault_of(alloc: Global, key: &str, kind: TableKind) -> Result<TableFault, AllocError> {
    let Some(row) = ptpm_data::by_name(key) else {
        return Ok(TableFault::UnknownKey(Text::copy_of(alloc, key)?));
    };
    match PlannedId::numbered(row.id) {
        Some(id) => Ok(misplaced(id, kind)),
        None => Ok(TableFault::NotPlanned(Text::copy_of(alloc, key)?)),
    }
}

/// What is wrong with an id that such a table may not have.
fn misplaced(id: PlannedId, kind: TableKind) -> TableFault {
    if !id.is_of_port() && matches!(kind, TableKind::Port | TableKind::EveryPort) {
        TableFault::OfClock(id)
    } else if id.is_of_port() {
        TableFault::OfPort(id)
    } else {
        TableFault::OneClocks
    }
}

/// What an id is to be.
fn read_wished(
    alloc: Global,
    id: PlannedId,
    value: &Value,
    place: Place,
) -> Result<Wished, FileFault>
    ensures { Reads result (λ w. w) (wished_of id (view value.now)) }
{
    match id {
        PlannedId::UtcProperties => match value.as_table() {
            Some(table) => Ok(Wished::UtcProperties(read_utc(alloc, table, place)?)),
            None => Err(FileFault::At(place, TableFault::IdTakes(id, "a table of its members"))),
        },
        _ => Ok(Wished::Alone(typed(alloc, id, value, place)?)),
    }
}

/// What the members of UTC_PROPERTIES are to be.
#[tactic(auto, unfolding(crate::specs::FileText::utc_in))]
fn read_utc(alloc: Global, table: &Table, place: Place) -> Result<UtcWish, FileFault>
    ensures { Reads result (λ w. w) (utc_in (table_view table.now)) }
{
    if let Some(key) = other_key(table, TableKind::UtcProperties) {
        let name = Text::copy_of(alloc, key.as_str())?;
        let fault = TableFault::NoMember(PlannedId::UtcProperties, name);
        return Err(FileFault::At(place, fault));
    }
    Ok(UtcWish {
        offset: member_at(alloc, table, "currentUtcOffset", place)?,
        leap61: member_at(alloc, table, "leap61", place)?,
        leap59: member_at(alloc, table, "leap59", place)?,
        valid: member_at(alloc, table, "currentUtcOffsetValid", place)?,
    })
}

/// What a member of UTC_PROPERTIES is to be, if the table names it.
fn member_at(
    alloc: Global,
    table: &Table,
    name: &str,
    place: Place,
) -> Result<Option<Text>, FileFault>
    ensures { Reads result (λ t. t) (typed_at name.now (table_view table.now)) }
{
    match value_at(table, name) {
        Some(value) => Ok(Some(typed(alloc, PlannedId::UtcProperties, value, place)?)),
        None => Ok(None),
    }
}

/// A value as a person types it: a number in decimal, `true` or `false`, or the text.
#[tactic(auto, unfolding(crate::specs::FileText::typed))]
fn typed(alloc: Global, id: PlannedId, value: &Value, place: Place) -> Result<Text, FileFault>
    ensures { Reads result (λ t. t) (typed (view value.now)) }
{
    let word = match value.as_bool() {
        Some(true) => Some("true"),
        Some(false) => Some("false"),
        None => value.as_str(),
    };
    match (word, value.as_integer()) {
        (Some(word), _) => Ok(Text::copy_of(alloc, word)?),
        (None, Some(number)) => Ok(Text::of(format!(in alloc; "{number}")?)),
        (None, None) => {
            let fault = TableFault::IdTakes(id, "a number, true or false, or a text");
            Err(FileFault::At(place, fault))
        }
    }
}
