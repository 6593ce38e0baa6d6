//! What follows from a finding, by name and number.

use crate::look::Look;
use ptpm_causes::{Cause, Kind};
use ptpm_site::reading::source::Source;
use std::alloc::{AllocError, Global};
use std::fmt;

/// A line of text from whose finding others follow.
#[derive(Clone, Copy, PartialEq, Eq, PartialOrd, Ord)]
pub(crate) enum Head {
    /// That of one finding: its clock, and the place of its name among all.
    One(Source, usize),
    /// That of many findings that are alike, by the number of their words.
    Many(usize),
}

impl Head {
    /// The line of a finding, by its name and its clock.
    pub(crate) fn of(finding: Cause) -> Head {
        Head::One(finding.source, finding.kind.place())
    }

    /// The line of a grandmaster that is not seen.
    pub(crate) fn of_unseen(grandmaster: Source) -> Head {
        Head::One(grandmaster, Kind::GrandmasterNotSeen.place())
    }
}

/// A finding that follows from another.
#[derive(Clone, Copy, PartialEq, Eq, PartialOrd, Ord)]
pub(crate) struct Follower {
    head: Head,
    /// The place of its name among all.
    name: usize,
}

/// Findings that follow from others, by the line of those and then by name.
#[derive(Drop)]
pub(crate) struct Followers {
    sorted: Vec<Follower>,
}

impl Followers {
    /// All of a site.
    pub(crate) fn of(alloc: Global, look: &Look<'_, '_>) -> Result<Followers, AllocError> {
        let mut sorted = Vec::new(alloc);
        for remark in look.found.as_slice() {
            if let Some(cause) = remark.cause {
                let (head, name) = (Head::of(cause), remark.named.kind.place());
                sorted.push(Follower { head, name })?;
            }
        }
        Followers::in_order(sorted)
    }

    /// These findings.
    pub(crate) fn in_order(mut findings: Vec<Follower>) -> Result<Followers, AllocError> {
        findings.sort()?;
        Ok(Followers { sorted: findings })
    }

    /// What follows from the finding of a line.
    pub(crate) fn at(&self, head: Head) -> &[Follower] {
        let all = self.sorted.as_slice();
        let from = all.partition_point(|one| one.head < head);
        let to = all.partition_point(|one| one.head <= head);
        all.get(from..to).unwrap_or(&[])
    }
}

/// Adds findings to those that follow from another line.
pub(crate) fn add_under(
    followers: &mut Vec<Follower>,
    head: Head,
    findings: &[Follower],
) -> Result<(), AllocError> {
    for finding in findings {
        followers.push(Follower {
            head,
            name: finding.name,
        })?;
    }
    Ok(())
}

/// What follows from a line, by name and number: `; so too: no_master 1, not_locked 2`. Nothing if nothing does.
#[derive(Clone, Copy)]
pub(crate) struct SoToo<'a>(pub(crate) &'a [Follower]);

impl fmt::Display for SoToo<'_> {
    fn fmt<W: fmt::Write>(&self, f: &mut fmt::Formatter<W>) -> fmt::Result {
        let mut rest = self.0;
        let mut between = "; so too: ";
        for _ in 0..self.0.len() {
            let Some(first) = rest.first() else {
                break;
            };
            let count = rest.partition_point(|one| one.name <= first.name);
            let name = match Kind::ALL.get(first.name) {
                Some(kind) => kind.name(),
                None => "",
            };
            write!(f, "{between}{name} {count}")?;
            between = ", ";
            let (_, others) = rest.split_at(count);
            rest = others;
        }
        Ok(())
    }
}
