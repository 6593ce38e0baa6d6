//! What is said of a site: its findings, each with that from which it follows, and what is open.

ghost use Rattle.std.specs.Prelude.{◌≡◌, ◌&&◌, IfOk, None, length, map, slice_index_or};
ghost use Rattle.std.specs.List.{list_any};
ghost use Rattle.ptpm_site_report.specs.Reporting.{counts, is_critical};

use crate::finding::phrases::clock_of_cause;
use crate::finding::text::FindingText;
use ptpm_causes::{Cause, Kind, Severity, named};
use ptpm_site::judging::finding::Finding;
use ptpm_site::picture::Picture;
use ptpm_site::reading::site::Site;
use ptpm_site::reading::source::Source;
use std::alloc::{AllocError, Global};
use std::fmt;

/// How much a remark weighs.
#[derive(Clone, Copy)]
pub(crate) enum Weight {
    Wrong,
    /// It follows from something else that is wrong.
    Follows,
    /// It is wrong if it lasts.
    Open,
}

/// A finding, or what is open.
#[derive(Clone, Copy)]
pub(crate) struct Remark<'a> {
    pub(crate) finding: &'a Finding<'a>,
    /// Its name, and the clock at which it is printed.
    pub(crate) named: Cause,
    pub(crate) severity: Severity,
    pub(crate) weight: Weight,
    /// From what it follows.
    pub(crate) cause: Option<Cause>,
}

/// The findings of a picture, in their order. `causes` has of each from what it follows.
#[tactic(auto, using(std::proofs::lemmas::List::take_more))]
pub(crate) fn remarks_of<'a>(
    alloc: Global,
    picture: &'a Picture<'a>,
    causes: &[Option<Cause>],
) -> Result<Vec<Remark<'a>>, AllocError>
    ensures findings { IfOk result (λ remarks. map (λ r. r.finding.now) remarks.items ≡ picture.now.findings.items) }
    ensures causes { length causes.now ≡ length picture.now.findings.items → IfOk result (λ remarks. map (λ r. r.cause) remarks.items ≡ causes.now) }
{
    let mut remarks = Vec::new(alloc);
    for (place, finding) in picture.findings.as_slice().iter().enumerate() {
        remarks.push(found_remark(finding, cause_at(causes, place)))?;
    }
    Ok(remarks)
}

/// From what the finding at a place follows.
fn cause_at(causes: &[Option<Cause>], place: usize) -> Option<Cause>
    ensures { result ≡ slice_index_or causes.now place None }
{
    match causes.get(place) {
        Some(cause) => *cause,
        None => None,
    }
}

/// A finding that is found: what follows from another weighs less.
fn found_remark<'a>(finding: &'a Finding<'a>, cause: Option<Cause>) -> Remark<'a>
    ensures finding { result.finding.now ≡ finding.now }
    ensures cause { result.cause ≡ cause }
{
    let weight = match cause {
        Some(_) => Weight::Follows,
        None => Weight::Wrong,
    };
    remark_of(finding, weight, cause)
}

/// What of a picture is open, in its order.
pub(crate) fn open_of<'a>(
    alloc: Global,
    picture: &'a Picture<'a>,
) -> Result<Vec<Remark<'a>>, AllocError> {
    let mut remarks = Vec::new(alloc);
    for finding in picture.open_findings.as_slice() {
        remarks.push(remark_of(finding, Weight::Open, None))?;
    }
    Ok(remarks)
}

fn remark_of<'a>(finding: &'a Finding<'a>, weight: Weight, cause: Option<Cause>) -> Remark<'a>
    ensures finding { result.finding.now ≡ finding.now }
    ensures cause { result.cause ≡ cause }
{
    let named = named(finding);
    Remark {
        finding,
        named,
        severity: named.kind.row().severity,
        weight,
        cause,
    }
}

impl Remark<'_> {
    pub(crate) fn source(&self) -> Source {
        self.finding.source
    }

    /// Whether it is wrong by itself, and follows from nothing else.
    pub(crate) fn is_wrong(&self) -> bool {
        matches!(self.weight, Weight::Wrong)
    }

    pub(crate) fn is_critical(&self) -> bool
        ensures { result ≡ is_critical self.now.severity }
    {
        matches!(self.severity, Severity::Critical)
    }

    /// Whether a site that has it is not sound. What follows from a clock that can't answer does not count: the time may be right.
    pub(crate) fn counts(&self) -> bool
        ensures { result ≡ counts self.now.cause }
    {
        match self.cause {
            Some(cause) => !matches!(cause.kind, Kind::NotTaken | Kind::Mute | Kind::OwnHost),
            None => true,
        }
    }
}

/// The name and the values, and from what it follows, with the clock of that if it is another.
impl fmt::Display for Remark<'_> {
    fn fmt<W: fmt::Write>(&self, f: &mut fmt::Formatter<W>) -> fmt::Result {
        write!(f, "{}", FindingText(self))?;
        let Some(cause) = self.cause else {
            return Ok(());
        };
        write!(f, "; follows from {}", cause.kind.name())?;
        match clock_of_cause(cause) {
            Some(clock) if clock != self.source().clock => write!(f, " of {clock}"),
            _ => Ok(()),
        }
    }
}

/// Whether one counts.
pub(crate) fn any_counts(remarks: &[Remark<'_>]) -> bool
    ensures { result ≡ list_any (λ r. counts r.cause) remarks.now }
{
    remarks.iter().any(|remark| remark.counts())
}

/// Whether one counts that is critical.
pub(crate) fn any_critical(remarks: &[Remark<'_>]) -> bool
    ensures { result ≡ list_any (λ r. counts r.cause && is_critical r.severity) remarks.now }
{
    remarks
        .iter()
        .any(|remark| remark.counts() && remark.is_critical())
}

/// Those of a clock. They are in the order of their clocks.
pub(crate) fn remarks_at<'a>(remarks: &'a [Remark<'a>], source: Source) -> &'a [Remark<'a>] {
    let from = remarks.partition_point(|remark| remark.source() < source);
    let to = remarks.partition_point(|remark| remark.source() <= source);
    remarks.get(from..to).unwrap_or(&[])
}

/// Adds those of clocks that are not seen and of whole domains.
pub(crate) fn add_unseen<'a>(
    site: &Site,
    remarks: &[Remark<'a>],
    all: &mut Vec<Remark<'a>>,
) -> Result<(), AllocError> {
    for remark in remarks {
        if !site.is_seen(remark.source()) {
            all.push(*remark)?;
        }
    }
    Ok(())
}
