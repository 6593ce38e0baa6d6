//! A site as a page in HTML that needs nothing else: its tree as a table, and below each clock what is wrong with it.

pub(crate) mod drawing;
pub(crate) mod lines;
pub(crate) mod style;

use crate::finding::phrases::clock_of;
use crate::finding::remarks::{Remark, Weight, remarks_at};
use crate::finding::text::FindingText;
use crate::look::Look;
use crate::not_judged::{NotJudged, limit_of};
use crate::page::style::STYLE;
use crate::printable::Printable;
use crate::text::grandmaster_line::GrandmasterLine;
use crate::text::ports::PortsText;
use crate::trees::{ClockRow, Clocks, Row, Tree, notes_of, trees_of};
use ptpm_commands::Fault;
use ptpm_site::reading::source::Source;
use ptpm_text::Escaped;
use std::alloc::{AllocError, Global};
use std::io::Write;
use std::{fmt, io};

/// Prints a page.
pub(crate) fn print_page<O: Write>(
    alloc: Global,
    look: &Look<'_, '_>,
    out: &mut O,
) -> Result<(), Fault> {
    print_head(look, out)?;
    print_findings(alloc, look, "What is wrong", look.found.as_slice(), out)?;
    let title = "What is open: it is wrong if it lasts";
    print_findings(alloc, look, title, look.open.as_slice(), out)?;
    let trees = trees_of(alloc, look)?;
    for tree in trees.as_slice() {
        print_tree(alloc, look, tree, out)?;
    }
    let notes = notes_of(alloc, look.picture)?;
    for note in notes.as_slice() {
        writeln!(out, "<p>{}</p>", Escaped(note.as_str()))?;
    }
    writeln!(out, "</body>\n</html>")?;
    Ok(())
}

/// How many findings a site has.
#[derive(Clone, Copy)]
struct Counts {
    /// Those that are critical and follow from no other, all that follow from no other, and those that follow.
    critical: usize,
    all: usize,
    following: usize,
    /// What comes after `no findings` if the lines lack something.
    limit: &'static str,
}

fn counts_of(look: &Look<'_, '_>) -> Counts {
    let (mut critical, mut all, mut following) = (0usize, 0usize, 0usize);
    for remark in look.found.as_slice() {
        if !remark.is_wrong() {
            following = following.saturating_add(1);
            continue;
        }
        all = all.saturating_add(1);
        if remark.is_critical() {
            critical = critical.saturating_add(1);
        }
    }
    Counts {
        critical,
        all,
        following,
        limit: limit_of(look.picture),
    }
}

/// In words, such as `3 findings, 1 of them critical, and 4 that follow`.
impl fmt::Display for Counts {
    fn fmt<W: fmt::Write>(&self, f: &mut fmt::Formatter<W>) -> fmt::Result {
        match (self.all, self.critical) {
            (0, _) => write!(f, "no findings{}", self.limit)?,
            (1, 0) => f.write_str("1 finding")?,
            (1, _) => f.write_str("1 finding, which is critical")?,
            (all, 0) => write!(f, "{all} findings")?,
            (all, critical) => write!(f, "{all} findings, {critical} of them critical")?,
        }
        match self.following {
            0 => Ok(()),
            1 => f.write_str(", and 1 that follows"),
            following => write!(f, ", and {following} that follow"),
        }
    }
}

/// Prints what comes before the findings. The page may load nothing.
fn print_head<O: Write>(look: &Look<'_, '_>, out: &mut O) -> io::Result<()> {
    let counts = counts_of(look);
    let clocks = look.picture.forest.sources.len();
    let class = match look.severity() {
        Some(severity) => severity.word(),
        None if clocks == 0 || !counts.limit.is_empty() => "faint",
        None => "good",
    };
    let (clocks, asked) = (Clocks(clocks), look.asked_text());
    writeln!(
        out,
        "<!DOCTYPE html>
<html lang=\"en\">
<head>
<meta charset=\"utf-8\">
<meta http-equiv=\"Content-Security-Policy\" content=\"default-src 'none'; style-src 'unsafe-inline'\">
<meta name=\"viewport\" content=\"width=device-width, initial-scale=1\">
<title>PTP site: {counts}</title>
<style>
{STYLE}</style>
</head>
<body>
<h1>PTP site</h1>
<p class=\"sum {class}\">{clocks}, {counts}</p>
<p class=\"faint\">{asked}</p>"
    )?;
    for lack in look.picture.lacks.as_slice() {
        writeln!(out, "<p class=\"faint\">{}</p>", NotJudged(*lack))?;
    }
    Ok(())
}

/// Prints the findings that follow from no other, or what is open, each with a link to its clock.
fn print_findings<O: Write>(
    alloc: Global,
    look: &Look<'_, '_>,
    title: &str,
    remarks: &[Remark<'_>],
    out: &mut O,
) -> Result<(), Fault> {
    if remarks.is_empty() {
        return Ok(());
    }
    writeln!(
        out,
        "<h2>{title}</h2>
<div class=\"wide\"><table>
<thead><tr><th>Severity</th><th>Domain</th><th>Clock</th><th>Finding</th><th>Values</th></tr></thead>"
    )?;
    for remark in remarks {
        if remark.cause.is_none() {
            print_found_row(alloc, look, remark, out)?;
        }
    }
    writeln!(out, "</table></div>")?;
    Ok(())
}

/// Prints a row of the table of all findings, or of all that is open.
fn print_found_row<O: Write>(
    alloc: Global,
    look: &Look<'_, '_>,
    remark: &Remark<'_>,
    out: &mut O,
) -> Result<(), Fault> {
    let name = called(alloc, look, remark.source())?;
    let words = format!(in alloc; "{}", FindingText(remark))?;
    print_cells(remark, name.as_str(), words.as_str(), out)?;
    Ok(())
}

fn print_cells<O: Write>(
    remark: &Remark<'_>,
    name: &str,
    words: &str,
    out: &mut O,
) -> io::Result<()> {
    let (severity, meaning) = (class_of(remark), remark.named.kind.meaning());
    let domain = remark.source().domain;
    write!(
        out,
        "<tr><td class=\"{severity}\">{severity}</td><td>{domain}</td>"
    )?;
    print_link(remark, name, out)?;
    writeln!(
        out,
        "<td>{meaning}</td><td class=\"faint\">{}</td></tr>",
        Escaped(words)
    )
}

/// Prints the column of a finding's clock.
fn print_link<O: Write>(remark: &Remark<'_>, name: &str, out: &mut O) -> io::Result<()> {
    let (domain, name) = (remark.source().domain, Escaped(name));
    match clock_of(remark.finding) {
        Some(clock) => write!(
            out,
            "<td><a href=\"#d{domain}-{clock}\">{name}</a> <span class=\"id faint\">{clock}</span></td>"
        ),
        None => write!(out, "<td>-</td>"),
    }
}

/// What a person calls a clock; a dash if there is nothing.
fn called(alloc: Global, look: &Look<'_, '_>, source: Source) -> Result<String, AllocError> {
    match look.called(source) {
        Some(name) => format!(in alloc; "{}", Printable(name)),
        None => String::from_str(alloc, "-"),
    }
}

/// Prints the tree of a domain, below what is said of each grandmaster that leads.
fn print_tree<O: Write>(
    alloc: Global,
    look: &Look<'_, '_>,
    tree: &Tree<'_>,
    out: &mut O,
) -> Result<(), Fault> {
    writeln!(out, "<h2>{tree}</h2>")?;
    for leader in tree.leaders {
        let line = GrandmasterLine::of(look.picture, leader);
        writeln!(out, "<p class=\"faint\">{line}</p>")?;
    }
    writeln!(
        out,
        "<div class=\"wide\"><table>
<thead><tr><th>Clock</th><th>clockIdentity</th><th class=\"number\">stepsRemoved</th><th class=\"number\">offsetFromMaster</th><th class=\"number\">meanDelay</th><th>portState</th></tr></thead>"
    )?;
    for row in tree.rows.as_slice() {
        match row {
            Row::Clock(row) => print_clock(alloc, look, row, out)?,
            Row::NotSeen(parent) => {
                let name = format!(in alloc; "{}", look.beside.names.quoted(parent.clock))?;
                let name = Escaped(name.as_str());
                writeln!(
                    out,
                    "<tr class=\"unseen\"><td colspan=\"6\">not seen: {parent}{name}</td></tr>"
                )?;
            }
        }
    }
    writeln!(out, "</table></div>")?;
    Ok(())
}

/// Prints the row of a clock, and what is said of it below.
fn print_clock<O: Write>(
    alloc: Global,
    look: &Look<'_, '_>,
    row: &ClockRow<'_>,
    out: &mut O,
) -> Result<(), Fault> {
    let name = called(alloc, look, row.source)?;
    print_row(row, name.as_str(), out)?;
    let found = remarks_at(look.found.as_slice(), row.source);
    let open = remarks_at(look.open.as_slice(), row.source);
    if found.is_empty() && open.is_empty() {
        return Ok(());
    }
    write!(
        out,
        "<tr class=\"found\"><td colspan=\"6\" style=\"padding-left: {}rem\">",
        Shift(row.depth)
    )?;
    print_remarks(alloc, found, out)?;
    print_remarks(alloc, open, out)?;
    writeln!(out, "</td></tr>")?;
    Ok(())
}

/// Prints the row of a clock, further to the right by its depth.
fn print_row<O: Write>(row: &ClockRow<'_>, name: &str, out: &mut O) -> io::Result<()> {
    let Source { domain, clock } = row.source;
    let (leads, shift) = (if row.leads { " leads" } else { "" }, Shift(row.depth));
    let (stem, name) = (if row.depth == 0 { "" } else { "└ " }, Escaped(name));
    writeln!(
        out,
        "<tr class=\"clock{leads}\" id=\"d{domain}-{clock}\"><td class=\"name\" style=\"padding-left: {shift}rem\">{stem}{name}</td><td class=\"id\">{clock}</td><td class=\"number\">{}</td><td class=\"number\">{}</td><td class=\"number\">{}</td><td>{}{}</td></tr>",
        row.columns.steps,
        row.columns.offset,
        row.columns.delay,
        PortsText(row.clock),
        row.cut()
    )
}

/// How far to the right a row begins, in rem.
#[derive(Clone, Copy)]
struct Shift(u32);

impl fmt::Display for Shift {
    fn fmt<W: fmt::Write>(&self, f: &mut fmt::Formatter<W>) -> fmt::Result {
        let tenths = 6u64 + 15 * self.0 as u64;
        write!(f, "{}.{}", tenths / 10, tenths % 10)
    }
}

fn print_remarks<O: Write>(
    alloc: Global,
    remarks: &[Remark<'_>],
    out: &mut O,
) -> Result<(), Fault> {
    for remark in remarks {
        print_remark(alloc, remark, out)?;
    }
    Ok(())
}

fn print_remark<O: Write>(alloc: Global, remark: &Remark<'_>, out: &mut O) -> Result<(), Fault> {
    let words = format!(in alloc; "{remark}")?;
    let (class, words) = (class_of(remark), Escaped(words.as_str()));
    let meaning = remark.named.kind.meaning();
    write!(
        out,
        "<p class=\"{class}\"><span>{meaning}</span> <span class=\"faint\">{words}</span></p>"
    )?;
    Ok(())
}

/// How bad it is, in a word that the style has too.
fn class_of(remark: &Remark<'_>) -> &'static str {
    match remark.weight {
        Weight::Wrong => remark.severity.word(),
        Weight::Follows => "follows",
        Weight::Open => "open",
    }
}
