//! A site as a plugin of Nagios, or of Icinga, shows it: a line, and the findings below it.

ghost use Rattle.std.specs.Prelude.{◌≡◌};
ghost use Rattle.ptpm_site_report.specs.Reporting.{plugin_status, standing};

use crate::finding::report::FindingReport;
use crate::look::Look;
use crate::monitoring::seconds::{IntervalSeconds, NanosecondSeconds};
use crate::not_judged::KindNames;
use crate::trees::Clocks;
use ptpm_causes::{Kind, Severity};
use ptpm_commands::Fault;
use ptpm_site::judging::port_groups::PortGroup;
use ptpm_site::picture::Picture;
use std::alloc::Global;
use std::io;
use std::io::Write;

/// How a site is.
#[derive(Clone, Copy, PartialEq, Eq)]
pub enum Standing {
    /// Nothing is wrong.
    Sound,
    /// The findings are warnings.
    Warning,
    /// There is a critical finding.
    Critical,
    /// No clock answered.
    Unknown,
}

impl Standing {
    /// The exit status of a plugin.
    pub fn status(self) -> u8
        ensures { result ≡ plugin_status self }
    {
        match self {
            Standing::Sound => 0,
            Standing::Warning => 1,
            Standing::Critical => 2,
            Standing::Unknown => 3,
        }
    }

    fn word(self) -> &'static str {
        match self {
            Standing::Sound => "OK",
            Standing::Warning => "WARNING",
            Standing::Critical => "CRITICAL",
            Standing::Unknown => "UNKNOWN",
        }
    }

    /// How a site is that is judged: the worst of its findings decides.
    pub(crate) fn of(look: &Look<'_, '_>) -> Standing
        ensures { result ≡ standing look.now.picture.now.forest.sources.items look.now.found.items }
    {
        if look.picture.forest.sources.is_empty() {
            return Standing::Unknown;
        }
        match look.severity() {
            None => Standing::Sound,
            Some(Severity::Warning) => Standing::Warning,
            Some(Severity::Critical) => Standing::Critical,
        }
    }
}

/// Prints the line, and the findings as the text has them. `limit` is how many nanoseconds the amount of an offset may have.
pub(crate) fn print_plugin<O: Write>(
    alloc: Global,
    look: &Look<'_, '_>,
    limit: Option<u64>,
    out: &mut O,
) -> Result<(), Fault> {
    let report = FindingReport::of(alloc, look)?;
    print_head(look, limit, report.sum.lines, out)?;
    let mut lines: Vec<u8> = Vec::new(alloc);
    match report.print(alloc, look, &mut lines) {
        Ok(_) => print_without_bars(lines.as_slice(), out)?,
        Err(_) => return Err(Fault::OutOfMemory),
    }
    Ok(())
}

/// Prints the first line: how the site is, and after a bar the numbers that are drawn over time.
fn print_head<O: Write>(
    look: &Look<'_, '_>,
    limit: Option<u64>,
    findings: usize,
    out: &mut O,
) -> io::Result<()> {
    let standing = Standing::of(look);
    write!(out, "PTP {} - ", standing.word())?;
    match standing {
        Standing::Unknown => return writeln!(out, "no clock answered"),
        Standing::Sound => print_grandmasters(look.picture, out)?,
        _ => print_counts(look, out)?,
    }
    let (clocks, open) = (look.picture.forest.sources.len(), look.open.len());
    write!(
        out,
        " | clocks={clocks};;;0 findings={findings};;;0 open={open};;;0"
    )?;
    print_offset(look.picture, limit, out)?;
    writeln!(out)
}

/// Prints how many clocks there are, whom they follow, and what is not judged.
fn print_grandmasters<O: Write>(picture: &Picture<'_>, out: &mut O) -> io::Result<()> {
    write!(out, "{}", Clocks(picture.forest.sources.len()))?;
    let mut word = "grandmaster";
    for leader in picture.leaders.as_slice() {
        write!(out, ", {word} {}", leader.source.clock)?;
        if let Some(told) = leader.attributes {
            write!(out, " of class {}", told.quality.class)?;
        }
        word = "and";
    }
    let mut between = "; not judged: ";
    for lack in picture.lacks.as_slice() {
        if lack.is_worth_a_word() {
            write!(out, "{between}{}", KindNames::of(*lack))?;
            between = ", ";
        }
    }
    Ok(())
}

/// Prints the greatest amount of an offset, and what it may be, if a clock has a port in SLAVE.
fn print_offset<O: Write>(
    picture: &Picture<'_>,
    limit: Option<u64>,
    out: &mut O,
) -> io::Result<()> {
    let Some(greatest) = greatest_offset(picture) else {
        return Ok(());
    };
    let greatest = IntervalSeconds(greatest);
    match limit {
        Some(limit) => {
            let limit = NanosecondSeconds(limit);
            write!(out, " max_offset={greatest}s;;{limit};0")
        }
        None => write!(out, " max_offset={greatest}s;;;0"),
    }
}

/// The greatest amount of offsetFromMaster, a TimeInterval, of the clocks with a port in SLAVE.
fn greatest_offset(picture: &Picture<'_>) -> Option<i64> {
    let mut greatest = None;
    for source in picture.site.clocks.keys() {
        if !picture.site.has_port_of(*source, PortGroup::Slave) {
            continue;
        }
        if let Some(current) = picture.site.current(*source) {
            let amount = current.offset_from_master.saturating_abs();
            greatest = match greatest {
                Some(before) if amount <= before => Some(before),
                _ => Some(amount),
            };
        }
    }
    greatest
}

/// Prints how many findings of each name there are that follow from no other, critical ones first.
fn print_counts<O: Write>(look: &Look<'_, '_>, out: &mut O) -> io::Result<()> {
    let between = print_counts_of(look, Severity::Critical, "", out)?;
    print_counts_of(look, Severity::Warning, between, out)?;
    Ok(())
}

/// Prints them for the names of findings that are so bad. Answers what comes before the next.
fn print_counts_of<O: Write>(
    look: &Look<'_, '_>,
    severity: Severity,
    between: &'static str,
    out: &mut O,
) -> io::Result<&'static str> {
    let mut between = between;
    for kind in Kind::ALL {
        let count = count_of(look, kind);
        if count != 0 && is_as_bad(kind, severity) {
            write!(out, "{between}{} {count}", kind.name())?;
            between = ", ";
        }
    }
    Ok(between)
}

/// Whether findings of a name are so bad.
fn is_as_bad(kind: Kind, severity: Severity) -> bool {
    kind.row().severity == severity
}

/// How many findings of a name follow from no other.
fn count_of(look: &Look<'_, '_>, kind: Kind) -> usize {
    look.found
        .iter()
        .filter(|remark| remark.is_wrong() && remark.named.kind == kind)
        .count()
}

/// Prints lines, with an escape for each bar: what follows one would be read as numbers.
fn print_without_bars<O: Write>(lines: &[u8], out: &mut O) -> io::Result<()> {
    let mut is_first = true;
    for piece in lines.split(|octet| *octet == b'|') {
        if !is_first {
            write!(out, "\\u{{7c}}")?;
        }
        out.write_all(piece)?;
        is_first = false;
    }
    Ok(())
}
