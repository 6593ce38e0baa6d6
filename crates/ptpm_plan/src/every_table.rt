//! What a plan file asks of every clock of a domain.

ghost use Rattle.std.specs.Prelude.{◌≡◌, ◌<◌, ◌^◌, IfOk, map};
ghost use Rattle.toml.specs.View.{table_view, view};
ghost use Rattle.ptpm_plan.specs.FileText.{Reads, clock_value, every_in, every_value, except_in, excepted, excepted_of, named_in, port_wishes_in};

use crate::clock_table::clock_of_alias;
use crate::file_fault::{FileFault, Place, TableFault};
use crate::table_keys::TableKind;
use crate::table_values::{clocks_at, domain_at, shaped, value_at};
use crate::text::Text;
use crate::wish::{ClockWishes, EveryWishes, Target, Wish};
use crate::wishes_table::read_wishes;
use ptpm_members::clock_identity_of;
use std::alloc::{AllocError, Global};
use toml::{Table, Value};

/// Reads a table of every clock, which comes after these tables of clocks. `except` may name their aliases.
#[tactic(auto, unfolding(crate::specs::FileText::every_in))]
pub(crate) fn read_every(
    alloc: Global,
    value: &Value,
    number: usize,
    clocks: &[ClockWishes],
) -> Result<EveryWishes, FileFault>
    requires { number < 2 ^ 63 }
    ensures { Reads result every_value (every_in (map clock_value clocks.now) number (view value.now)) }
{
    let place = Place::Every(number);
    let table = shaped(value, "every", place)?;
    let domain = domain_at(table, place)?;
    let expected = clocks_at(table, place)?;
    let except = read_except(alloc, table, place, clocks)?;
    let wishes = read_wishes(alloc, table, TableKind::EveryClock, place)?;
    let port_wishes = read_port_wishes(alloc, table, number)?;
    Ok(EveryWishes {
        place: clocks.len().saturating_add(number),
        domain,
        clocks: expected,
        except,
        wishes,
        port_wishes,
    })
}

#[tactic(auto, unfolding(crate::specs::FileText::port_wishes_in))]
fn read_port_wishes(alloc: Global, table: &Table, number: usize) -> Result<Vec<Wish>, FileFault>
    ensures { Reads result (λ v. v.items) (port_wishes_in (table_view table.now)) }
{
    let Some(value) = value_at(table, "port") else {
        return Ok(Vec::new(alloc));
    };
    let table = shaped(value, "port", Place::Every(number))?;
    read_wishes(alloc, table, TableKind::EveryPort, Place::EveryPort(number))
}

#[tactic(auto, unfolding(crate::specs::FileText::except_in))]
fn read_except(
    alloc: Global,
    table: &Table,
    place: Place,
    clocks: &[ClockWishes],
) -> Result<Vec<Target>, FileFault>
    ensures { Reads result (λ v. v.items) (except_in (map clock_value clocks.now) (table_view table.now)) }
{
    match value_at(table, "except") {
        Some(value) => excepted_of(alloc, value, place, clocks),
        None => Ok(Vec::new(alloc)),
    }
}

/// The clocks that a list names.
#[tactic(auto, using(crate::proofs::Gathering::list_items))]
fn excepted_of(
    alloc: Global,
    value: &Value,
    place: Place,
    clocks: &[ClockWishes],
) -> Result<Vec<Target>, FileFault>
    ensures { Reads result (λ v. v.items) (excepted_of (map clock_value clocks.now) (view value.now)) }
{
    let Some(array) = value.as_array() else {
        return Err(takes_names(place));
    };
    let mut except = Vec::new(alloc);
    let names = array.as_slice();
    for name in names {
        except.push(excepted(alloc, name, place, clocks)?)?;
    }
    Ok(except)
}

fn takes_names(place: Place) -> FileFault {
    FileFault::takes(
        place,
        "except",
        "a list of aliases and identities, each a text",
    )
}

fn excepted(
    alloc: Global,
    name: &Value,
    place: Place,
    clocks: &[ClockWishes],
) -> Result<Target, FileFault>
    ensures { Reads result (λ t. t) (excepted (map clock_value clocks.now) (view name.now)) }
{
    match name.as_str() {
        Some(text) => named(alloc, text, place, clocks),
        None => Err(takes_names(place)),
    }
}

/// The clock of this alias, or else of this identity.
#[tactic(auto, unfolding(crate::specs::FileText::named_in), using(crate::proofs::Gathering::found_value))]
fn named(
    alloc: Global,
    text: &str,
    place: Place,
    clocks: &[ClockWishes],
) -> Result<Target, FileFault>
    ensures { Reads result (λ t. t) (named_in (map clock_value clocks.now) text.now) }
{
    match (clock_of_alias(clocks, text), clock_identity_of(text)) {
        (Some(clock), _) => Ok(copy_of(alloc, &clock.target)?),
        (None, Some(identity)) => Ok(Target::Identity(identity)),
        (None, None) => {
            let fault = TableFault::UnknownClock(Text::copy_of(alloc, text)?);
            Err(FileFault::At(place, fault))
        }
    }
}

fn copy_of(alloc: Global, target: &Target) -> Result<Target, AllocError>
    ensures { IfOk result (λ t. t ≡ target.now) }
{
    match target {
        Target::Identity(identity) => Ok(Target::Identity(*identity)),
        Target::Description(text) => Ok(Target::Description(Text::copy_of(alloc, text.as_str())?)),
    }
}
