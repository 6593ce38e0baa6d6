//! `ptpm ids`: the table of management ids.

ghost use Rattle.std.specs.Prelude.{◌≡◌, IfErr, OnOk};
ghost use Rattle.std.specs.Io.KnownBytes.{Appends};
ghost use Rattle.ptpm_data.specs.ManagementId.{row_value};
ghost use Rattle.ptpm_commands.specs.Ids.{id_line, letter, row_line, scope_text, table_lines};

use crate::faults::Fault;
use bitflags::Flags;
use ptpm_data::{Actions, MANAGEMENT_IDS, ManagementIdRow, Scope, row};
use ptpm_text::Hexadecimal;
use std::io;
use std::io::Write;

/// Prints a line for each row of the table, in its order.
pub fn ids<O: Write>(out: &mut O) -> Result<(), Fault>
    ensures printed { OnOk result (Appends (O.contents out.old) (O.contents out.new) table_lines) }
    ensures fault { IfErr result (λ e. e ≡ Fault.WriteFault) }
{
    for id in &MANAGEMENT_IDS {
        write_id(*id, out)?;
    }
    Ok(())
}

/// The line of an id's row, if the table has one.
fn write_id<O: Write>(id: u16, out: &mut O) -> io::Result<()>
    ensures { OnOk result (Appends (O.contents out.old) (O.contents out.new) (id_line id)) }
{
    match row(id) {
        Some(row) => write_row(&row, out),
        None => Ok(()),
    }
}

/// The id, its name, and whether it is of the clock or of each port. Then G, S and C for the GET, SET and COMMAND that
/// are permitted.
#[tactic(auto, unfolding(crate::specs::Ids::row_line))]
fn write_row<O: Write>(row: &ManagementIdRow, out: &mut O) -> io::Result<()>
    ensures { OnOk result (Appends (O.contents out.old) (O.contents out.new) (row_line (row_value row.now))) }
{
    let id = Hexadecimal(&row.id.to_be_bytes());
    let scope = scope_text(row.scope);
    let get = letter(row.actions.contains(Actions::GET), "G");
    let set = letter(row.actions.contains(Actions::SET), "S");
    let command = letter(row.actions.contains(Actions::COMMAND), "C");
    writeln!(out, "{id} {} {scope} {get}{set}{command}", row.name)
}

fn scope_text(scope: Scope) -> &'static str
    ensures { result.now ≡ scope_text scope }
{
    match scope {
        Scope::Clock => "clock",
        Scope::Port => "port",
    }
}

/// The letter of an action, if it is permitted.
fn letter(permitted: bool, text: &'static str) -> &'static str
    ensures { result.now ≡ letter permitted text.now }
{
    if permitted { text } else { "-" }
}
