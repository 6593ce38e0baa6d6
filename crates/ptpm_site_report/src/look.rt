//! A site as it is shown: its picture, and what is said beside it.

ghost use Rattle.std.specs.Prelude.{◌≡◌, ℕ, ◌<◌, IfOk, length, map};
ghost use Rattle.ptpm_causes.specs.Roots.{IsRoot};
ghost use Rattle.ptpm_site_report.specs.Reporting.{worst};

use crate::finding::phrases::clock_of;
use crate::finding::remarks::{Remark, any_counts, any_critical, open_of, remarks_of};
use crate::names::{Names, Quoted};
use crate::reading::asked_domains::AskedText;
use crate::reading::site_lines::LinesSaid;
use ptpm_causes::{Severity, causes_of};
use ptpm_site::judging::finding::Finding;
use ptpm_site::picture::Picture;
use ptpm_site::reading::source::Source;
use std::alloc::{AllocError, Global};

/// A picture, what is said of it, and what is said beside it.
#[derive(Drop)]
pub(crate) struct Look<'a, 'b> {
    pub(crate) picture: &'a Picture<'a>,
    /// The findings.
    pub(crate) found: Vec<Remark<'a>>,
    /// What is open.
    pub(crate) open: Vec<Remark<'a>>,
    pub(crate) beside: Beside<'b>,
}

/// What is said beside a picture.
#[derive(Drop)]
pub(crate) struct Beside<'a> {
    /// The names of clocks.
    pub(crate) names: &'a Names,
    pub(crate) said: LinesSaid,
    /// Whether what follows from another finding is printed too, and each of many lines that are alike.
    pub(crate) is_all: bool,
    /// How many findings the look before lacks, and so are left out. `None` if no look before was given.
    pub(crate) momentary: Option<usize>,
    /// Whether it is printed how many that are.
    pub(crate) tells_momentary: bool,
}

impl<'a, 'b> Look<'a, 'b> {
    /// Each finding of a picture has its remark.
    pub(crate) fn of(
        alloc: Global,
        picture: &'a Picture<'a>,
        beside: Beside<'b>,
    ) -> Result<Look<'a, 'b>, AllocError>
        ensures picture { IfOk result (λ look. look.picture.now ≡ picture.now) }
        ensures findings { IfOk result (λ look. map (λ r. r.finding.now) look.found.items ≡ picture.now.findings.items) }
        ensures printed { IfOk result (λ look. 0 < length look.found.items → (place : ℕ) × IsRoot (map (λ r. r.cause) look.found.items) place) }
    {
        let causes = causes_of(alloc, picture)?;
        Ok(Look {
            picture,
            found: remarks_of(alloc, picture, causes.as_slice())?,
            open: open_of(alloc, picture)?,
            beside,
        })
    }
}

impl Look<'_, '_> {
    /// What a person calls a clock: the name that an operator gave it, or else its description.
    pub(crate) fn name_of(&self, source: Source) -> Option<&str> {
        match self.beside.names.get(source.clock) {
            Some(name) => Some(name),
            None => self.described(source),
        }
    }

    /// The same, of a clock that may be unseen. None if its description is empty.
    pub(crate) fn called(&self, source: Source) -> Option<&str> {
        match self.beside.names.get(source.clock) {
            Some(name) => Some(name),
            None => self.description(source),
        }
    }

    /// What a person calls the clock of a finding, in quotes after a space. Nothing if there is none.
    pub(crate) fn name_at(&self, finding: &Finding<'_>) -> Quoted<'_> {
        match clock_of(finding) {
            Some(_) => Quoted(self.called(finding.source)),
            None => Quoted(None),
        }
    }

    /// How many findings are left out since the look before lacks them, if that is printed.
    pub(crate) fn momentary(&self) -> Option<usize> {
        if self.beside.tells_momentary {
            self.beside.momentary
        } else {
            None
        }
    }

    pub(crate) fn asked_text(&self) -> AskedText<'_> {
        AskedText {
            asked: self.beside.said.asked.as_slice(),
            again: self.beside.said.asked_again,
            span: self.beside.said.span,
        }
    }

    /// The userDescription of a clock, if it answered one.
    fn described(&self, source: Source) -> Option<&str> {
        let text = self.picture.site.description(source)?;
        Some(text)
    }

    /// The userDescription of a clock, if it answered one that is not empty.
    fn description(&self, source: Source) -> Option<&str> {
        let text = self.described(source)?;
        if text.is_empty() { None } else { Some(text) }
    }

    /// How bad the worst of the findings is that count.
    pub(crate) fn severity(&self) -> Option<Severity>
        ensures { result ≡ worst self.now.found.items }
    {
        let found = self.found.as_slice();
        if any_critical(found) {
            Some(Severity::Critical)
        } else if any_counts(found) {
            Some(Severity::Warning)
        } else {
            None
        }
    }
}
