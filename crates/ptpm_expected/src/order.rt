//! The order in which findings are reported.

ghost use Rattle.std.specs.Prelude.{◌≡◌, OnOk, length};
ghost use Rattle.std.specs.List.Sorted.{IsPermutation, IsSortedByKey, IsStableByKey};
ghost use Rattle.ptpm_expected.specs.Order.{finding_key, place_of};

use ptpm_site::judging::finding::{Finding, What};
use ptpm_site::reading::source::Source;
use std::alloc::AllocError;

/// The place of a finding among those of its clock. What comes from the answers alone is in order already, and has a place before
/// `profile` and one after it.
fn place_of(what: &What<'_>) -> u8
    ensures { result ≡ place_of what.now }
{
    match what {
        What::Absent(_) => 0,
        What::Unexpected => 1,
        What::NotAsExpected(_) | What::OtherLeaders(_) => 2,
        What::Profile(_) => 4,
        What::Incomplete(_)
        | What::OutOfReach(_)
        | What::GrandmasterChanged(_)
        | What::Changed(..)
        | What::IdentityTwice(_) => 5,
        _ => 3,
    }
}

/// By what findings are sorted: the domain, the clock, and the place among those of the clock.
#[derive(Clone, Copy, PartialEq, Eq, PartialOrd, Ord)]
pub struct FindingKey {
    pub source: Source,
    pub place: u8,
}

fn key_of(finding: &Finding<'_>) -> FindingKey
    ensures { result ≡ finding_key finding.now }
{
    FindingKey {
        source: finding.source,
        place: place_of(&finding.what),
    }
}

/// Puts findings in order: by domain, by clock, and then as in the table of findings. Those of one place stay as they are.
pub fn put_in_order(findings: &mut Vec<Finding<'_>>) -> Result<(), AllocError>
    ensures permutation { IsPermutation findings.old.items findings.new.items }
    ensures len { length findings.new.items ≡ length findings.old.items }
    ensures sorted { OnOk result (IsSortedByKey finding_key ⟦<FindingKey as Ord>⟧.cmp findings.new.items) }
    ensures stable { OnOk result (IsStableByKey finding_key ⟦<FindingKey as Ord>⟧.cmp findings.old.items findings.new.items) }
{
    findings.sort_by_key(|finding| key_of(finding))?;
    Ok(())
}
