//! Which lines the findings of a site take as text: one for each that follows from no other, and one for many that are alike.

use crate::finding::followers::{Follower, Followers, Head, add_under};
use crate::finding::remarks::Remark;
use crate::finding::text::FindingText;
use crate::look::Look;
use ptpm_causes::Kind;
use ptpm_site::reading::source::Source;
use std::alloc::{AllocError, Global};
use std::collections::BTreeMap;

/// So many lines that say the same are printed (this project's profile).
const MOST_ALIKE: usize = 8;

/// A line.
#[derive(Clone, Copy)]
pub(crate) enum FindingLine {
    /// Of the finding at this place among all. `is_first`: no line before it is of this name at this clock.
    One { place: usize, is_first: bool },
    /// Of findings that say the same as the one at this place, and how many more there are.
    Many { place: usize, more: usize },
    /// Of a grandmaster that is not seen, with how many clocks name it.
    Unseen(Source, usize),
}

/// The lines of findings, and what follows from those that have one line together.
#[derive(Drop)]
pub(crate) struct FindingLines {
    pub(crate) lines: Vec<FindingLine>,
    pub(crate) of_many: Followers,
}

/// Findings that say the same: how many came, and the place of the line that those past the first ones have together.
#[derive(Clone, Copy)]
struct Repeat {
    count: usize,
    line: usize,
}

/// A line for each of what is open.
pub(crate) fn open_lines(
    alloc: Global,
    look: &Look<'_, '_>,
) -> Result<Vec<FindingLine>, AllocError> {
    let mut lines = Vec::new(alloc);
    let is_first = false;
    for place in 0..look.open.len() {
        lines.push(FindingLine::One { place, is_first })?;
    }
    Ok(lines)
}

/// A line for each finding that follows from no other, or for each if `is_all` holds. A grandmaster that is not seen has one.
pub(crate) fn each_line(
    alloc: Global,
    look: &Look<'_, '_>,
    is_all: bool,
) -> Result<Vec<FindingLine>, AllocError> {
    let unseen = unseen_of(alloc, look, is_all)?;
    let mut unseen = unseen.as_slice();
    let mut lines = Vec::new(alloc);
    let mut last = None;
    for (place, remark) in look.found.as_slice().iter().enumerate() {
        if is_of_unseen(remark) || !is_all && !remark.is_wrong() {
            continue;
        }
        unseen = add_unseen(&mut lines, unseen, Some(remark.source()))?;
        let head = Some(Head::of(remark.named));
        let is_first = last != head;
        lines.push(FindingLine::One { place, is_first })?;
        last = head;
    }
    add_unseen(&mut lines, unseen, None)?;
    Ok(lines)
}

/// The grandmasters that are not seen, in their order, each once for each clock that names it.
fn unseen_of(alloc: Global, look: &Look<'_, '_>, is_all: bool) -> Result<Vec<Source>, AllocError> {
    let mut unseen = Vec::new(alloc);
    for remark in look.found.as_slice() {
        if is_of_unseen(remark) && (is_all || remark.is_wrong()) {
            unseen.push(remark.named.source)?;
        }
    }
    unseen.sort()?;
    Ok(unseen)
}

fn is_of_unseen(remark: &Remark<'_>) -> bool {
    matches!(remark.named.kind, Kind::GrandmasterNotSeen)
}

/// Adds a line for each grandmaster that is not seen and comes before a clock, or for all of them. Answers those that are left.
fn add_unseen<'a>(
    lines: &mut Vec<FindingLine>,
    unseen: &'a [Source],
    before: Option<Source>,
) -> Result<&'a [Source], AllocError> {
    let mut rest = unseen;
    for _ in 0..unseen.len() {
        let Some(first) = rest.first() else {
            break;
        };
        if before.is_some_and(|before| before <= *first) {
            break;
        }
        let count = rest.partition_point(|source| source <= first);
        lines.push(FindingLine::Unseen(*first, count))?;
        let (_, others) = rest.split_at(count);
        rest = others;
    }
    Ok(rest)
}

/// The same lines, with one in place of those past the first ones that say the same.
pub(crate) fn alike_together(
    alloc: Global,
    remarks: &[Remark<'_>],
    lines: &[FindingLine],
    followers: &Followers,
) -> Result<FindingLines, AllocError> {
    let mut said = BTreeMap::new(alloc);
    let mut together = Vec::new(alloc);
    let mut of_many = Vec::new(alloc);
    for line in lines {
        let Some(remark) = remark_of(remarks, line) else {
            together.push(*line)?;
            continue;
        };
        let words = format!(in alloc; "{} {}", remark.source().domain, FindingText(remark))?;
        let repeat = count_one(&mut said, words, together.len())?;
        put_line(&mut together, *line, repeat)?;
        add_of_many(&mut of_many, line, remark, repeat, followers)?;
    }
    Ok(FindingLines {
        lines: together,
        of_many: Followers::in_order(of_many)?,
    })
}

/// The finding of a line that has one alone.
fn remark_of<'a>(remarks: &'a [Remark<'a>], line: &FindingLine) -> Option<&'a Remark<'a>> {
    match line {
        FindingLine::One { place, .. } => remarks.get(*place),
        _ => None,
    }
}

/// Counts one more that says these words. `line` is the place of the next line.
fn count_one(
    said: &mut BTreeMap<String, Repeat>,
    words: String,
    line: usize,
) -> Result<Repeat, AllocError> {
    if let Some(repeat) = said.get_mut(&words) {
        repeat.count = repeat.count.saturating_add(1);
        if repeat.count == MOST_ALIKE + 1 {
            repeat.line = line;
        }
        return Ok(*repeat);
    }
    let repeat = Repeat { count: 1, line };
    let _ = said.insert(words, repeat)?;
    Ok(repeat)
}

/// Adds the line of a finding, or counts it at the line that it has with others.
fn put_line(
    lines: &mut Vec<FindingLine>,
    line: FindingLine,
    repeat: Repeat,
) -> Result<(), AllocError> {
    if repeat.count <= MOST_ALIKE {
        lines.push(line)?;
    } else if let Some(FindingLine::Many { more, .. }) = lines.get_mut(repeat.line) {
        *more = more.saturating_add(1);
    } else if let FindingLine::One { place, .. } = line {
        lines.push(FindingLine::Many { place, more: 1 })?;
    }
    Ok(())
}

/// Adds what follows from a finding to what follows from the line that it has with others, if it has none of its own.
fn add_of_many(
    of_many: &mut Vec<Follower>,
    line: &FindingLine,
    remark: &Remark<'_>,
    repeat: Repeat,
    followers: &Followers,
) -> Result<(), AllocError> {
    if MOST_ALIKE < repeat.count && matches!(line, FindingLine::One { is_first: true, .. }) {
        let found = followers.at(Head::of(remark.named));
        add_under(of_many, Head::Many(repeat.line), found)?;
    }
    Ok(())
}
