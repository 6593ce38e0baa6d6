//! What a drawing of a site has in its rows.

use crate::finding::phrases::clock_of;
use crate::finding::remarks::{Remark, Weight, add_unseen, remarks_at};
use crate::look::Look;
use crate::names::Quoted;
use crate::text::ports::PortsText;
use crate::trees::{ClockRow, Row, notes_of, trees_of};
use ptpm_site::reading::source::Source;
use std::alloc::{AllocError, Global};

/// What is drawn round the name of a row.
#[derive(Clone, Copy)]
pub(crate) enum Frame {
    /// Nothing: a domain begins, or something is said of the whole.
    Nothing,
    /// A thick line: a grandmaster.
    Thick,
    /// A line: any other clock.
    Thin,
    /// Dashes: a port whose clock is not seen.
    Dashed,
}

/// A row.
#[derive(Drop)]
pub(crate) struct Line {
    pub(crate) frame: Frame,
    /// How many rows are above it on the way to its root.
    pub(crate) depth: usize,
    pub(crate) name: String,
    /// Whom its clock follows, in words.
    pub(crate) follows: String,
    /// What its clock answered.
    pub(crate) facts: String,
    /// What is wrong with its clock, and what is open.
    pub(crate) remarks: Vec<DrawnRemark>,
}

/// What is said below a row.
#[derive(Drop)]
pub(crate) struct DrawnRemark {
    pub(crate) weight: Weight,
    pub(crate) words: String,
}

/// The rows of a drawing.
pub(crate) fn lines_of(alloc: Global, look: &Look<'_, '_>) -> Result<Vec<Line>, AllocError> {
    let mut lines = Vec::new(alloc);
    add_trees(alloc, look, &mut lines)?;
    let mut unseen = Vec::new(alloc);
    add_unseen(look.picture.site, look.found.as_slice(), &mut unseen)?;
    add_unseen(look.picture.site, look.open.as_slice(), &mut unseen)?;
    for remark in unseen.as_slice() {
        lines.push(unseen_line(alloc, look, remark)?)?;
    }
    for note in notes_of(alloc, look.picture)? {
        lines.push(said(alloc, note))?;
    }
    Ok(lines)
}

/// Adds the rows of each domain's tree.
fn add_trees(alloc: Global, look: &Look<'_, '_>, lines: &mut Vec<Line>) -> Result<(), AllocError> {
    let trees = trees_of(alloc, look)?;
    for tree in trees.as_slice() {
        lines.push(said(alloc, format!(in alloc; "{tree}")?))?;
        for row in tree.rows.as_slice() {
            lines.push(match row {
                Row::Clock(row) => clock_line(alloc, look, row)?,
                Row::NotSeen(parent) => {
                    let name = look.beside.names.quoted(parent.clock);
                    line_of(
                        alloc,
                        Frame::Dashed,
                        format!(in alloc; "not seen: {parent}{name}")?,
                    )
                }
            })?;
        }
    }
    Ok(())
}

/// A row of a clock that is not seen, or of a whole domain, with what is said of it.
fn unseen_line(
    alloc: Global,
    look: &Look<'_, '_>,
    remark: &Remark<'_>,
) -> Result<Line, AllocError> {
    let mut line = match clock_of(remark.finding) {
        Some(_) => silent_line(alloc, look, remark.source())?,
        None => said(
            alloc,
            format!(in alloc; "domain {}", remark.source().domain)?,
        ),
    };
    line.remarks.push(drawn(alloc, remark)?)?;
    Ok(line)
}

fn silent_line(alloc: Global, look: &Look<'_, '_>, source: Source) -> Result<Line, AllocError> {
    let (clock, name) = (source.clock, Quoted(look.called(source)));
    let name = format!(in alloc; "not seen: {clock}{name}")?;
    let mut line = line_of(alloc, Frame::Dashed, name);
    line.facts.push_str("did not answer")?;
    Ok(line)
}

fn drawn(alloc: Global, remark: &Remark<'_>) -> Result<DrawnRemark, AllocError> {
    let words = format!(in alloc; "{remark}")?;
    let weight = remark.weight;
    Ok(DrawnRemark { weight, words })
}

/// A row that is said of the whole.
fn said(alloc: Global, name: String) -> Line {
    line_of(alloc, Frame::Nothing, name)
}

/// A row with a name alone.
fn line_of(alloc: Global, frame: Frame, name: String) -> Line {
    Line {
        frame,
        depth: 0,
        name,
        follows: String::new(alloc),
        facts: String::new(alloc),
        remarks: Vec::new(alloc),
    }
}

fn clock_line(alloc: Global, look: &Look<'_, '_>, row: &ClockRow<'_>) -> Result<Line, AllocError> {
    let (columns, ports, cut) = (&row.columns, PortsText(row.clock), row.cut());
    Ok(Line {
        frame: if row.leads { Frame::Thick } else { Frame::Thin },
        depth: row.depth as usize,
        name: format!(in alloc; "{} {}", row.source.clock, columns.description)?,
        follows: follows_of(alloc, look, row.source)?,
        facts: format!(in alloc; "{columns}; {ports}{cut}")?,
        remarks: drawn_at(alloc, look, row.source)?,
    })
}

/// Whom a clock follows, in words; nothing if it follows nobody.
fn follows_of(alloc: Global, look: &Look<'_, '_>, source: Source) -> Result<String, AllocError> {
    match look.picture.site.followed(source) {
        Some(parent) => format!(in alloc; ", follows {parent}"),
        None => Ok(String::new(alloc)),
    }
}

/// What is said of a clock.
fn drawn_at(
    alloc: Global,
    look: &Look<'_, '_>,
    source: Source,
) -> Result<Vec<DrawnRemark>, AllocError> {
    let mut all = Vec::new(alloc);
    add_drawn(alloc, remarks_at(look.found.as_slice(), source), &mut all)?;
    add_drawn(alloc, remarks_at(look.open.as_slice(), source), &mut all)?;
    Ok(all)
}

fn add_drawn(
    alloc: Global,
    remarks: &[Remark<'_>],
    all: &mut Vec<DrawnRemark>,
) -> Result<(), AllocError> {
    for remark in remarks {
        all.push(drawn(alloc, remark)?)?;
    }
    Ok(())
}
