//! A plan file as a whole: its version, its clocks, and what it asks of every clock.

ghost use Rattle.std.specs.Prelude.{◌≡◌, ◌≢◌, ◌≤◌, IfErr, IfOk, IsUtf8, None, OnOk, Some, is_some, length, map, take, true};
ghost use Rattle.toml.specs.View.{table_view};
ghost use Rattle.ptpm_plan.specs.FileText.{Reads, all_every_in, clock_value, clocks_in, every_value, file_in, file_of, file_value, other_key, version_in};
ghost use Rattle.ptpm_plan.specs.Octets.{line_after};
ghost use Rattle.ptpm_plan.specs.declared.file_fault.FileFault.{FileFault};
ghost use Rattle.ptpm_plan.specs.declared.table_keys.TableKind.{TableKind};

use crate::clock_table::read_clock;
use crate::every_table::read_every;
use crate::file_fault::{FileFault, Place, TableFault};
use crate::octets::line_after;
use crate::table_keys::{TableKind, other_key};
use crate::table_values::{number_in, tables_at, value_at};
use crate::text::Text;
use crate::wish::{ClockWishes, EveryWishes, PlanFile};
use std::alloc::Global;
use toml::Table;

/// A plan file has at most this many octets.
const TEXT_OCTETS: usize = 262_144;

impl PlanFile {
    /// Reads a TOML document. Of several faults the first one in the order of the file's tables is named. No text of up to 262,144
    /// octets that is a plan file is refused, unless memory is.
    #[tactic(auto, unfolding(crate::specs::FileText::file_of))]
    pub fn read(alloc: Global, text: &[u8]) -> Result<PlanFile, FileFault>
        ensures file { IfOk result (λ file. file_of text.now ≡ Some (file_value file)) }
        ensures refused { IfErr result
            (λ fault. fault ≢ FileFault.OutOfMemory → length text.now ≤ 262144 → IsUtf8 text.now → file_of text.now ≡ None) }
    {
        if text.len() > TEXT_OCTETS {
            return Err(FileFault::TooLong);
        }
        match toml::table_from_slice(alloc, text) {
            Ok(table) => Ok(read_tables(alloc, &table)?),
            Err(error) if error.is_memory() => Err(FileFault::OutOfMemory),
            Err(error) => {
                let place = error.span().map_or(0, |span| span.start);
                Err(FileFault::NotToml(line_at(text, place), error))
            }
        }
    }
}

/// The line of a place of a text, from 1.
fn line_at(text: &[u8], place: usize) -> usize
    requires { length text.now ≤ 262144 }
    ensures { result ≡ line_after (take place text.now) }
{
    line_after(text.get(..place).unwrap_or(text))
}

fn read_tables(alloc: Global, table: &Table) -> Result<PlanFile, FileFault>
    ensures { Reads result file_value (file_in (table_view table.now)) }
{
    check_keys(alloc, table)?;
    let clocks = read_clocks(alloc, table)?;
    let every = read_all_every(alloc, table, clocks.as_slice())?;
    Ok(PlanFile { clocks, every })
}

#[tactic(auto, unfolding(crate::specs::FileText::clocks_in))]
fn read_clocks(alloc: Global, table: &Table) -> Result<Vec<ClockWishes>, FileFault>
    ensures { Reads result (λ v. map clock_value v.items) (clocks_in (table_view table.now)) }
{
    let mut clocks = Vec::new(alloc);
    let values = tables_at(table, "clock", Place::File)?;
    for value in values {
        let clock = read_clock(alloc, value, clocks.as_slice())?;
        clocks.push(clock)?;
    }
    Ok(clocks)
}

#[tactic(auto, unfolding(crate::specs::FileText::all_every_in))]
fn read_all_every(
    alloc: Global,
    table: &Table,
    clocks: &[ClockWishes],
) -> Result<Vec<EveryWishes>, FileFault>
    ensures { Reads result (λ v. map every_value v.items)
        (all_every_in (map clock_value clocks.now) (table_view table.now)) }
{
    let mut every = Vec::new(alloc);
    let values = tables_at(table, "every", Place::File)?;
    for value in values {
        let wishes = read_every(alloc, value, every.len(), clocks)?;
        every.push(wishes)?;
    }
    Ok(every)
}

/// Whether the document has the version of a plan, and just its keys.
fn check_keys(alloc: Global, table: &Table) -> Result<(), FileFault>
    ensures keys { OnOk result ((other_key TableKind.File (table_view table.now) ≡ None)
        × (is_some (version_in (table_view table.now)) ≡ true)) }
    ensures refused { IfErr result (λ fault. fault ≢ FileFault.OutOfMemory → file_in (table_view table.now) ≡ None) }
{
    if value_at(table, "version")
        .and_then(|value| number_in(value, 1, 1))
        .is_none()
    {
        return Err(FileFault::At(Place::File, TableFault::Version));
    }
    match other_key(table, TableKind::File) {
        Some(key) => {
            let key = Text::copy_of(alloc, key.as_str())?;
            Err(FileFault::At(Place::File, TableFault::NoKey(key)))
        }
        None => Ok(()),
    }
}
