//! A site as text: for each domain its tree, a line a clock, and then the findings, one a line.

pub(crate) mod columns;
pub(crate) mod grandmaster_line;
pub(crate) mod inventory;
pub(crate) mod ports;

use crate::finding::found_line::FoundLine;
use crate::finding::report::FindingReport;
use crate::look::Look;
use crate::not_judged::NotJudged;
use crate::text::columns::Widths;
use crate::text::grandmaster_line::GrandmasterLine;
use crate::text::ports::PortsText;
use crate::trees::{ClockRow, Row, Tree, notes_of, trees_of};
use ptpm_commands::Fault;
use std::alloc::Global;
use std::io;
use std::io::Write;

/// Prints what was asked, the tree of each domain, the findings, and what is not judged. Answers the lines of the findings.
pub(crate) fn print_text<O: Write>(
    alloc: Global,
    look: &Look<'_, '_>,
    out: &mut O,
) -> Result<Vec<FoundLine>, Fault> {
    writeln!(out, "{}", look.asked_text())?;
    let trees = trees_of(alloc, look)?;
    for tree in trees.as_slice() {
        print_tree(tree, look, out)?;
    }
    let report = FindingReport::of(alloc, look)?;
    if !look.picture.site.is_empty() || !look.found.is_empty() {
        writeln!(out, "{}", report.sum)?;
    }
    let lines = report.print(alloc, look, out)?;
    print_momentary(look, out)?;
    report.print_open(alloc, look, out)?;
    let notes = notes_of(alloc, look.picture)?;
    for note in notes.as_slice() {
        writeln!(out, "{note}")?;
    }
    for lack in look.picture.lacks.as_slice() {
        writeln!(out, "{}", NotJudged(*lack))?;
    }
    Ok(lines)
}

/// Prints how many findings are left out, since the look before lacks them.
fn print_momentary<O: Write>(look: &Look<'_, '_>, out: &mut O) -> io::Result<()> {
    match look.momentary() {
        None | Some(0) => Ok(()),
        Some(count) => writeln!(out, "momentary: {count}"),
    }
}

/// Prints the head of a tree, a line for each grandmaster that leads, and its rows below the heads of their columns.
fn print_tree<O: Write>(tree: &Tree<'_>, look: &Look<'_, '_>, out: &mut O) -> io::Result<()> {
    writeln!(out, "{tree}")?;
    let mut widths = Widths::of_heads();
    for row in tree.rows.as_slice() {
        if let Row::Clock(row) = row {
            widths.widen(indent(row), &row.columns);
        }
    }
    for leader in tree.leaders {
        let line = GrandmasterLine::of(look.picture, leader);
        writeln!(out, "  {line}")?;
    }
    widths.print_heads(out)?;
    for row in tree.rows.as_slice() {
        print_row(row, look, &widths, out)?;
    }
    writeln!(out)
}

fn print_row<O: Write>(
    row: &Row<'_>,
    look: &Look<'_, '_>,
    widths: &Widths,
    out: &mut O,
) -> io::Result<()> {
    match row {
        Row::Clock(row) => {
            row.columns
                .print(row.source.clock, indent(row), widths, out)?;
            writeln!(out, "  {}{}", PortsText(row.clock), row.cut())
        }
        Row::NotSeen(parent) => {
            let name = look.beside.names.quoted(parent.clock);
            writeln!(out, "  not seen: {parent}{name}")
        }
    }
}

/// The place at which the identity of a clock begins: two more characters from the left for each clock above.
fn indent(row: &ClockRow<'_>) -> usize {
    2 + 2 * row.depth as usize
}
