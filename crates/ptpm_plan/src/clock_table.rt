//! The table of a clock in a plan file.

ghost use Rattle.std.specs.Prelude.{◌≡◌, IfOk, None, OnErr, Some, codes, map, option_and_then};
ghost use Rattle.std.specs.List.{find};
ghost use Rattle.std.specs.Option.{option_copied};
ghost use Rattle.toml.specs.Data.{get_member};
ghost use Rattle.toml.specs.View.{table_view, view};
ghost use Rattle.ptpm_members.specs.Identities.{clock_identity_of};
ghost use Rattle.ptpm_plan.specs.FileText.{Reads, alias_in, clock_in, clock_value, has_alias, if_of_one, number_in, port_in, port_value, ports_in, target_in};
ghost use Rattle.ptpm_plan.specs.Naming.{is_of_one_clock};

use crate::file_fault::{FileFault, Place, TableFault};
use crate::table_keys::TableKind;
use crate::table_values::{domain_at, number_in, shaped, tables_at, text_at, value_at};
use crate::text::Text;
use crate::wish::{ClockWishes, PortWishes, Target};
use crate::wishes_table::read_wishes;
use ptpm_codec::ClockIdentity;
use ptpm_members::clock_identity_of;
use std::alloc::Global;
use toml::{Table, Value};

/// What a clock has until its host gives it an identity.
const NO_IDENTITY: ClockIdentity = ClockIdentity([0; 8]);

/// Reads the table of the clock that comes after these.
#[tactic(auto, unfolding(crate::specs::FileText::clock_in))]
pub(crate) fn read_clock(
    alloc: Global,
    value: &Value,
    earlier: &[ClockWishes],
) -> Result<ClockWishes, FileFault>
    ensures { Reads result clock_value (clock_in (map clock_value earlier.now) (view value.now)) }
{
    let number = earlier.len();
    let place = Place::Clock(number);
    let table = shaped(value, "clock", place)?;
    let target = read_target(alloc, table, place)?;
    let alias = read_alias(alloc, table, place, earlier)?;
    let domain = domain_at(table, place)?;
    let wishes = read_wishes(alloc, table, TableKind::Clock, place)?;
    let ports = read_ports(alloc, table, number)?;
    Ok(ClockWishes {
        place: number,
        target,
        alias,
        domain,
        wishes,
        ports,
    })
}

#[tactic(auto, unfolding(crate::specs::FileText::target_in))]
fn read_target(alloc: Global, table: &Table, place: Place) -> Result<Target, FileFault>
    ensures { Reads result (λ t. t) (target_in (table_view table.now)) }
{
    let identity = text_at(table, "identity", place)?;
    let description = text_at(table, "description", place)?;
    match (identity, description) {
        (Some(text), None) => match identified(text) {
            Some(target) => Ok(target),
            None => {
                let takes = "a clockIdentity, such as aabbccfffeddee01 or aabbcc.fffe.ddee01";
                Err(FileFault::takes(place, "identity", takes))
            }
        },
        (None, Some(text)) => Ok(Target::Description(Text::copy_of(alloc, text)?)),
        _ => Err(FileFault::At(place, TableFault::NotOneName)),
    }
}

/// The one clock of the identity that a text is.
fn identified(text: &str) -> Option<Target>
    ensures { result ≡ if_of_one (clock_identity_of text.now) }
{
    let identity = clock_identity_of(text)?;
    if is_of_one_clock(identity) {
        Some(Target::Identity(identity))
    } else {
        None
    }
}

/// Whether it can be the identity of one clock.
fn is_of_one_clock(identity: ClockIdentity) -> bool
    ensures { result ≡ is_of_one_clock identity }
{
    identity != ClockIdentity::EVERY && identity != NO_IDENTITY
}

/// The alias of a clock, if it has one: it is not a clockIdentity, and no earlier clock has it.
#[tactic(auto, unfolding(crate::specs::FileText::alias_in), using(crate::proofs::Gathering::found_value))]
fn read_alias(
    alloc: Global,
    table: &Table,
    place: Place,
    earlier: &[ClockWishes],
) -> Result<Option<Text>, FileFault>
    ensures { Reads result (λ alias. alias) (alias_in (map clock_value earlier.now) (table_view table.now)) }
{
    let Some(alias) = text_at(table, "alias", place)? else {
        return Ok(None);
    };
    if clock_identity_of(alias).is_some() {
        return Err(FileFault::takes(place, "alias", "a name that is no clockIdentity"));
    }
    let text = Text::copy_of(alloc, alias)?;
    match clock_of_alias(earlier, alias) {
        Some(_) => Err(FileFault::At(place, TableFault::AliasTwice(text))),
        None => Ok(Some(text)),
    }
}

/// The clock that has an alias.
pub(crate) fn clock_of_alias<'a>(clocks: &'a [ClockWishes], alias: &str) -> Option<&'a ClockWishes>
    ensures { option_copied result ≡ find (λ c. has_alias alias.now c.alias) clocks.now }
{
    clocks.iter().find(|clock| has_alias(&clock.alias, alias))
}

fn has_alias(alias: &Option<Text>, text: &str) -> bool
    ensures { result ≡ has_alias text.now alias.now }
{
    match alias {
        Some(alias) => alias.as_str() == text,
        None => false,
    }
}

#[tactic(auto, unfolding(crate::specs::FileText::ports_in))]
fn read_ports(alloc: Global, table: &Table, clock: usize) -> Result<Vec<PortWishes>, FileFault>
    ensures { Reads result (λ v. map port_value v.items) (ports_in (table_view table.now)) }
{
    let mut ports = Vec::new(alloc);
    let values = tables_at(table, "port", Place::Clock(clock))?;
    for value in values {
        let port = read_port(alloc, value, clock, ports.len())?;
        ports.push(port)?;
    }
    Ok(ports)
}

/// Reads the table of a port of a clock, by both their places.
#[tactic(auto, unfolding(crate::specs::FileText::port_in))]
fn read_port(
    alloc: Global,
    value: &Value,
    clock: usize,
    port: usize,
) -> Result<PortWishes, FileFault>
    ensures { Reads result port_value (port_in (view value.now)) }
{
    let place = Place::Port(clock, port);
    let table = shaped(value, "port", place)?;
    let number = number_of(table, place)?;
    let place = Place::NumberedPort(clock, number);
    let wishes = read_wishes(alloc, table, TableKind::Port, place)?;
    Ok(PortWishes { number, wishes })
}

/// The portNumber of a port's table. 0 and 0xFFFF are of no port (7.5.2.3).
fn number_of(table: &Table, place: Place) -> Result<u16, FileFault>
    ensures number { IfOk result
        (λ n. option_and_then (number_in 1 65534) (get_member (codes "number") (table_view table.now)) ≡ Some n) }
    ensures refused { OnErr result
        (option_and_then (number_in 1 65534) (get_member (codes "number") (table_view table.now)) ≡ None) }
{
    match value_at(table, "number").and_then(|value| number_in(value, 1, 0xfffe)) {
        Some(number) => Ok(number),
        None => Err(FileFault::takes(place, "number", "a number from 1 to 65534")),
    }
}
