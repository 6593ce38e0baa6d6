//! What the rules ask of the findings of a site, for quick answers.

use crate::cause::{Cause, Key, cause_in};
use ptpm_data::Member as DataSetMember;
use ptpm_members::Member;
use ptpm_site::judging::finding::{Finding, What};
use ptpm_site::reading::domain::Domain;
use ptpm_site::reading::site::Site;
use ptpm_site::reading::source::Source;
use std::alloc::{AllocError, Global};
use std::collections::BTreeSet;

/// What the findings of a site say, for the rules.
#[derive(Drop)]
pub(crate) struct Found {
    /// The findings that others may follow from.
    pub(crate) causes: BTreeSet<Key>,
    /// Whether clocks follow each other in a loop.
    pub(crate) has_loops: bool,
    /// The clocks whose grandmaster changed: they have `changed` grandmasterIdentity.
    pub(crate) moved: BTreeSet<Source>,
    /// The clocks of the findings that say that other clocks lead than an inventory wants. A domain has one at most.
    pub(crate) leaders: Vec<Source>,
}

impl Found {
    pub(crate) fn of(
        alloc: Global,
        site: &Site,
        findings: &[Finding<'_>],
    ) -> Result<Found, AllocError> {
        Ok(Found {
            causes: cause_set(alloc, site, findings)?,
            has_loops: findings.iter().any(|finding| is_loop(&finding.what)),
            moved: moved_set(alloc, findings)?,
            leaders: all_leaders(alloc, findings)?,
        })
    }

    /// The first of these causes that is there.
    pub(crate) fn first_of(&self, causes: &[Cause]) -> Option<Cause> {
        causes
            .iter()
            .copied()
            .find(|cause| self.causes.contains(&cause.key()))
    }

    /// Whether a clock's grandmaster changed.
    pub(crate) fn has_moved(&self, source: Source) -> bool {
        self.moved.contains(&source)
    }

    /// The clock of the finding that other clocks of a domain lead, if there is one.
    pub(crate) fn leaders_of(&self, domain: Domain) -> Option<Source> {
        self.leaders
            .iter()
            .copied()
            .find(|source| source.domain == domain)
    }
}

fn cause_set(
    alloc: Global,
    site: &Site,
    findings: &[Finding<'_>],
) -> Result<BTreeSet<Key>, AllocError> {
    let mut set = BTreeSet::new(alloc);
    for finding in findings {
        let Some(cause) = cause_in(site, finding) else {
            continue;
        };
        set.insert(cause.key())?;
    }
    Ok(set)
}

fn is_loop(what: &What<'_>) -> bool {
    matches!(what, What::Loop(_))
}

fn is_grandmaster(member: Member) -> bool {
    matches!(member, Member::DataSet(DataSetMember::Grandmaster))
}

fn is_move(what: &What<'_>) -> bool {
    match what {
        What::Changed(_, change) => is_grandmaster(change.member),
        _ => false,
    }
}

/// The clock of a finding that says that its grandmaster changed.
fn moved_in(finding: &Finding<'_>) -> Option<Source> {
    if is_move(&finding.what) {
        Some(finding.source)
    } else {
        None
    }
}

fn moved_set(alloc: Global, findings: &[Finding<'_>]) -> Result<BTreeSet<Source>, AllocError> {
    let mut set = BTreeSet::new(alloc);
    for finding in findings {
        let Some(source) = moved_in(finding) else {
            continue;
        };
        set.insert(source)?;
    }
    Ok(set)
}

/// Whether other clocks of a domain lead than an inventory wants.
fn is_of_leaders(what: &What<'_>) -> bool {
    matches!(what, What::OtherLeaders(_))
}

/// The clock of such a finding.
fn leaders_in(finding: &Finding<'_>) -> Option<Source> {
    if is_of_leaders(&finding.what) {
        Some(finding.source)
    } else {
        None
    }
}

fn all_leaders(alloc: Global, findings: &[Finding<'_>]) -> Result<Vec<Source>, AllocError> {
    let mut found = Vec::new(alloc);
    for finding in findings {
        let Some(source) = leaders_in(finding) else {
            continue;
        };
        found.push(source)?;
    }
    Ok(found)
}
