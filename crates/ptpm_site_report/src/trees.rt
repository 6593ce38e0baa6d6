//! The trees of a site: of each domain the clocks in their rows, with what is said beside them.

ghost use Rattle.std.specs.Prelude.{◌≤◌, length};

use crate::look::Look;
use crate::text::columns::Columns;
use ptpm_codec::PortIdentity;
use ptpm_site::judging::leaders::Leader;
use ptpm_site::picture::Picture;
use ptpm_site::reading::clock::Clock;
use ptpm_site::reading::domain::Domain;
use ptpm_site::reading::left_out::{CLOCKS, PORTS};
use ptpm_site::reading::source::Source;
use ptpm_site::tree::TreeRow;
use std::alloc::{AllocError, Global};
use std::fmt;

/// The tree of a domain.
#[derive(Drop)]
pub(crate) struct Tree<'a> {
    domain: Domain,
    /// The grandmasters that lead, whether they are seen or not.
    pub(crate) leaders: &'a [Leader],
    pub(crate) rows: Vec<Row<'a>>,
}

/// A row.
#[derive(Drop)]
pub(crate) enum Row<'a> {
    Clock(ClockRow<'a>),
    /// A port that the clocks below it follow, and whose clock is not seen.
    NotSeen(PortIdentity),
}

/// The row of a clock.
#[derive(Drop)]
pub(crate) struct ClockRow<'a> {
    pub(crate) source: Source,
    pub(crate) clock: &'a Clock,
    pub(crate) columns: Columns,
    /// How many rows are above it on the way to its root.
    pub(crate) depth: u32,
    /// Whether a loop is cut at it.
    is_cut: bool,
    /// Whether it is a grandmaster that leads.
    pub(crate) leads: bool,
}

/// How many clocks, in words.
#[derive(Clone, Copy)]
pub(crate) struct Clocks(pub(crate) usize);

impl fmt::Display for Clocks {
    fn fmt<W: fmt::Write>(&self, f: &mut fmt::Formatter<W>) -> fmt::Result {
        let noun = if self.0 == 1 { "clock" } else { "clocks" };
        write!(f, "{} {noun}", self.0)
    }
}

/// The head of a tree: the domain, how many clocks it has, and which grandmasters lead.
impl fmt::Display for Tree<'_> {
    fn fmt<W: fmt::Write>(&self, f: &mut fmt::Formatter<W>) -> fmt::Result {
        write!(f, "domain {}: {}", self.domain, Clocks(self.count()))?;
        let mut word = ", grandmaster";
        for leader in self.leaders {
            write!(f, "{word} {}", leader.source.clock)?;
            word = ", and";
        }
        if self.leaders.is_empty() {
            f.write_str(", no grandmaster")
        } else {
            Ok(())
        }
    }
}

impl Tree<'_> {
    /// How many clocks it has.
    fn count(&self) -> usize {
        self.rows
            .iter()
            .filter(|row| matches!(row, Row::Clock(_)))
            .count()
    }
}

/// The tree of each domain that has clocks, ascending.
pub(crate) fn trees_of<'a>(
    alloc: Global,
    look: &'a Look<'_, '_>,
) -> Result<Vec<Tree<'a>>, AllocError> {
    let mut trees = Vec::new(alloc);
    let mut rest = look.picture.rows.as_slice();
    for _ in 0..look.picture.rows.len() {
        let Some(first) = rest.first() else {
            break;
        };
        let domain = domain_of(look.picture, first);
        let (own, others) = rest.split_at(count_of(look.picture, domain, rest));
        let rows = rows_of(alloc, look, own)?;
        let leaders = leaders_in(look.picture, domain);
        trees.push(Tree {
            domain,
            leaders,
            rows,
        })?;
        rest = others;
    }
    Ok(trees)
}

/// The grandmasters that lead a domain. All are in the order of their domains.
pub(crate) fn leaders_in<'a>(picture: &'a Picture<'_>, domain: Domain) -> &'a [Leader] {
    let all = picture.leaders.as_slice();
    let from = all.partition_point(|leader| leader.source.domain < domain);
    let to = all.partition_point(|leader| leader.source.domain <= domain);
    all.get(from..to).unwrap_or(&[])
}

fn domain_of(picture: &Picture<'_>, row: &TreeRow) -> Domain {
    match row {
        TreeRow::Clock { place, .. } => picture
            .forest
            .domain_of(*place)
            .unwrap_or(Domain::of(0, 0)),
        TreeRow::NotSeen { domain, .. } => *domain,
    }
}

/// How many of these rows, from the first on, are of a domain.
fn count_of(picture: &Picture<'_>, domain: Domain, rows: &[TreeRow]) -> usize
    ensures { result ≤ length rows.now }
{
    for (count, row) in rows.iter().enumerate() {
        if domain_of(picture, row) != domain {
            return count;
        }
    }
    rows.len()
}

fn rows_of<'a>(
    alloc: Global,
    look: &'a Look<'_, '_>,
    rows: &[TreeRow],
) -> Result<Vec<Row<'a>>, AllocError> {
    let mut all = Vec::new(alloc);
    for row in rows {
        match row {
            TreeRow::NotSeen { parent, .. } => all.push(Row::NotSeen(*parent))?,
            TreeRow::Clock { place, depth } => {
                if let Some(clock) = clock_row(alloc, look, *place, *depth)? {
                    all.push(Row::Clock(clock))?;
                }
            }
        }
    }
    Ok(all)
}

/// The row of the clock at a place of the site, if it is seen.
fn clock_row<'a>(
    alloc: Global,
    look: &'a Look<'_, '_>,
    place: usize,
    depth: u32,
) -> Result<Option<ClockRow<'a>>, AllocError> {
    let picture = look.picture;
    let Some(source) = picture.forest.sources.get(place) else {
        return Ok(None);
    };
    let Some(clock) = picture.site.clocks.get(source) else {
        return Ok(None);
    };
    Ok(Some(ClockRow {
        source: *source,
        clock,
        columns: Columns::of(alloc, look.name_of(*source), &picture.site, *source)?,
        depth,
        is_cut: is_cut(picture, place, depth),
        leads: picture.site.leads_by_answers(*source),
    }))
}

/// Whether a loop is cut at a clock: it is a root, and follows one that is seen.
fn is_cut(picture: &Picture<'_>, place: usize, depth: u32) -> bool {
    depth == 0 && matches!(picture.forest.followed.get(place), Some(Some(_)))
}

impl ClockRow<'_> {
    /// What is said of a clock at which a loop is cut.
    pub(crate) fn cut(&self) -> &'static str {
        if self.is_cut { "  (in a loop)" } else { "" }
    }
}

/// What is said of the whole: that no clock answered, and how much was left out.
pub(crate) fn notes_of(alloc: Global, picture: &Picture<'_>) -> Result<Vec<String>, AllocError> {
    let mut notes = Vec::new(alloc);
    if picture.site.is_empty() {
        notes.push(String::from_str(alloc, "no clock answered")?)?;
    }
    let (clocks, ports) = (picture.left_out.clocks, picture.left_out.ports);
    if clocks != 0 {
        notes.push(format!(in alloc; "left out: {clocks} clocks past the first {CLOCKS}")?)?;
    }
    if ports != 0 {
        notes.push(format!(in alloc; "left out: {ports} ports past the first {PORTS}")?)?;
    }
    Ok(notes)
}
