//! The findings of a site, printed one a line.

ghost use Rattle.std.specs.Prelude.{◌≡◌, IfOk, length};

use crate::finding::followers::{Followers, Head, SoToo};
use crate::finding::found_line::FoundLine;
use crate::finding::lines::{FindingLine, FindingLines, alike_together, each_line, open_lines};
use crate::finding::phrases::clock_of;
use crate::finding::remarks::Remark;
use crate::finding::text::{FindingText, Words};
use crate::look::Look;
use crate::not_judged::limit_of;
use crate::trees::Clocks;
use ptpm_causes::Kind;
use ptpm_commands::Fault;
use ptpm_site::reading::source::Source;
use std::alloc::{AllocError, Global};
use std::io::Write;
use std::{fmt, io};

/// The lines of a site's findings, and of what is open.
#[derive(Drop)]
pub(crate) struct FindingReport {
    pub(crate) sum: Sum,
    followers: Followers,
    found: FindingLines,
    open: FindingLines,
}

/// How many findings there are, how many lines those have that follow from no other, and how many follow from these.
#[derive(Clone, Copy)]
pub(crate) struct Sum {
    found: usize,
    pub(crate) lines: usize,
    following: usize,
    /// What comes after `none` if the lines lack something.
    limit: &'static str,
}

/// The line above those of the findings: `findings: 3, and 2 that follow`.
impl fmt::Display for Sum {
    fn fmt<W: fmt::Write>(&self, f: &mut fmt::Formatter<W>) -> fmt::Result {
        match (self.found, self.lines, self.following) {
            (0, ..) => write!(f, "findings: none{}", self.limit),
            (_, lines, 0) => write!(f, "findings: {lines}"),
            (_, lines, following) => write!(f, "findings: {lines}, and {following} that follow"),
        }
    }
}

impl FindingReport {
    pub(crate) fn of(alloc: Global, look: &Look<'_, '_>) -> Result<FindingReport, AllocError>
        ensures { IfOk result (λ report. report.sum.found ≡ length look.now.found.items) }
    {
        let followers = Followers::of(alloc, look)?;
        let lines = each_line(alloc, look, false)?;
        let mut found = lines_of(alloc, look, look.found.as_slice(), lines, &followers)?;
        let sum = Sum {
            found: look.found.len(),
            lines: found.lines.len(),
            following: count_following(look),
            limit: limit_of(look.picture),
        };
        if look.beside.is_all {
            found.lines = each_line(alloc, look, true)?;
        }
        let open = open_lines(alloc, look)?;
        let open = lines_of(alloc, look, look.open.as_slice(), open, &followers)?;
        Ok(FindingReport {
            sum,
            followers,
            found,
            open,
        })
    }

    /// Prints the lines of the findings, and answers them.
    pub(crate) fn print<O: Write>(
        &self,
        alloc: Global,
        look: &Look<'_, '_>,
        out: &mut O,
    ) -> Result<Vec<FoundLine>, Fault> {
        let lines = self.lines_in(alloc, look, look.found.as_slice(), &self.found)?;
        print_lines(lines.as_slice(), out)?;
        Ok(lines)
    }

    /// Prints what is open, one a line, if there is any.
    pub(crate) fn print_open<O: Write>(
        &self,
        alloc: Global,
        look: &Look<'_, '_>,
        out: &mut O,
    ) -> Result<(), Fault> {
        if self.open.lines.is_empty() {
            return Ok(());
        }
        writeln!(out, "open: {}", self.open.lines.len())?;
        let lines = self.lines_in(alloc, look, look.open.as_slice(), &self.open)?;
        print_lines(lines.as_slice(), out)?;
        Ok(())
    }

    /// The lines in words. Each is of a remark that is there.
    fn lines_in(
        &self,
        alloc: Global,
        look: &Look<'_, '_>,
        remarks: &[Remark<'_>],
        all: &FindingLines,
    ) -> Result<Vec<FoundLine>, AllocError> {
        let mut lines = Vec::new(alloc);
        for (number, line) in all.lines.as_slice().iter().enumerate() {
            match *line {
                FindingLine::One { place, is_first } => match remarks.get(place) {
                    Some(remark) => lines.push(self.one_line(alloc, look, remark, is_first)?)?,
                    None => {}
                },
                FindingLine::Many { place, more } => match remarks.get(place) {
                    Some(remark) => {
                        let so_too = SoToo(all.of_many.at(Head::Many(number)));
                        lines.push(many_line(alloc, remark, more, so_too)?)?;
                    }
                    None => {}
                },
                FindingLine::Unseen(source, count) => {
                    lines.push(self.unseen_line(alloc, look, source, count)?)?;
                }
            }
        }
        Ok(lines)
    }

    fn one_line(
        &self,
        alloc: Global,
        look: &Look<'_, '_>,
        remark: &Remark<'_>,
        is_first: bool,
    ) -> Result<FoundLine, AllocError> {
        let so_too = self.so_too(look, is_first, Head::of(remark.named));
        let (words, name) = (Words(remark), look.name_at(remark.finding));
        Ok(FoundLine {
            domain: remark.source().domain,
            kind: remark.named.kind,
            key: key_of(alloc, remark)?,
            words: format!(in alloc; "{words}")?,
            whole: format!(in alloc; "{words}{so_too}{name}")?,
            follows: false,
        })
    }

    /// The line of a grandmaster that is not seen, with how many clocks name it.
    fn unseen_line(
        &self,
        alloc: Global,
        look: &Look<'_, '_>,
        source: Source,
        count: usize,
    ) -> Result<FoundLine, AllocError> {
        let Source { domain, clock } = source;
        let (clocks, verb) = (Clocks(count), if count == 1 { "names" } else { "name" });
        let so_too = self.so_too(look, true, Head::of_unseen(source));
        let name = look.beside.names.quoted(clock);
        let key = format!(in alloc; "{domain} {clock} grandmaster_not_seen")?;
        let words = format!(in alloc; "{key} {clocks} {verb} it")?;
        let whole = format!(in alloc; "{words}{so_too}{name}")?;
        Ok(FoundLine {
            domain,
            kind: Kind::GrandmasterNotSeen,
            key,
            words,
            whole,
            follows: false,
        })
    }

    /// What follows from the finding of a line, if the line is the first of its name at its clock. Nothing if each has a line.
    fn so_too(&self, look: &Look<'_, '_>, is_first: bool, head: Head) -> SoToo<'_> {
        if is_first && !look.beside.is_all {
            SoToo(self.followers.at(head))
        } else {
            SoToo(&[])
        }
    }
}

/// How many findings follow from another.
fn count_following(look: &Look<'_, '_>) -> usize {
    look.found
        .iter()
        .filter(|remark| !remark.is_wrong())
        .count()
}

/// The domain, the clock and the name of a finding.
pub(crate) fn key_of(alloc: Global, remark: &Remark<'_>) -> Result<String, AllocError> {
    let (domain, name) = (remark.source().domain, remark.named.kind.name());
    match clock_of(remark.finding) {
        Some(clock) => format!(in alloc; "{domain} {clock} {name}"),
        None => format!(in alloc; "{domain} - {name}"),
    }
}

/// The line for many clocks more that have the same finding.
fn many_line(
    alloc: Global,
    remark: &Remark<'_>,
    more: usize,
    so_too: SoToo<'_>,
) -> Result<FoundLine, AllocError> {
    let (domain, kind, said) = (
        remark.source().domain,
        remark.named.kind,
        FindingText(remark),
    );
    let (name, clocks) = (kind.name(), Clocks(more));
    let words = format!(in alloc; "{domain} - {said} of {clocks} more")?;
    let whole = format!(in alloc; "{words}{so_too}")?;
    Ok(FoundLine {
        domain,
        kind,
        key: format!(in alloc; "{domain} - {name}")?,
        words,
        whole,
        follows: false,
    })
}

fn print_lines<O: Write>(lines: &[FoundLine], out: &mut O) -> io::Result<()> {
    for line in lines {
        writeln!(out, "{}", line.whole)?;
    }
    Ok(())
}

/// Lines, with one for many that are alike unless all are wanted.
fn lines_of(
    alloc: Global,
    look: &Look<'_, '_>,
    remarks: &[Remark<'_>],
    lines: Vec<FindingLine>,
    followers: &Followers,
) -> Result<FindingLines, AllocError> {
    if look.beside.is_all {
        let of_many = Followers::in_order(Vec::new(alloc))?;
        return Ok(FindingLines { lines, of_many });
    }
    alike_together(alloc, remarks, lines.as_slice(), followers)
}
