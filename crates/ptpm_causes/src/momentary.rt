//! Findings that may be there for a moment, while a change goes from clock to clock. They count once two looks after each other
//! have them.

ghost use Rattle.std.specs.Prelude.{◌≡◌, Bool, List, OnErr, OnOk};
ghost use Rattle.std.specs.List.{items_where_true};

use crate::cause::{Key, named};
use ptpm_site::judging::finding::Finding;
use std::alloc::{AllocError, Global};
use std::collections::BTreeSet;

/// Takes away the findings that do not count yet: one look does not show them, and the findings of the look before lack them. Without
/// memory none is taken away.
pub fn leave_out_momentary(
    alloc: Global,
    before: &[Finding<'_>],
    findings: &mut Vec<Finding<'_>>,
) -> Result<(), AllocError>
    ensures part { OnOk result ((stays : List Bool) × (findings.new.items ≡ items_where_true stays findings.old.items)) }
    ensures unchanged { OnErr result (findings.new.items ≡ findings.old.items) }
{
    let names = names_of(alloc, before)?;
    keep_counted(&names, findings);
    Ok(())
}

/// The names of these findings, each with its clock.
fn names_of(alloc: Global, findings: &[Finding<'_>]) -> Result<BTreeSet<Key>, AllocError> {
    let mut names = BTreeSet::new(alloc);
    for finding in findings {
        names.insert(named(finding).key())?;
    }
    Ok(names)
}

fn keep_counted(names: &BTreeSet<Key>, findings: &mut Vec<Finding<'_>>)
    ensures { (stays : List Bool) × (findings.new.items ≡ items_where_true stays findings.old.items) }
{
    findings.retain(|finding| is_counted(names, finding));
}

fn is_counted(names: &BTreeSet<Key>, finding: &Finding<'_>) -> bool {
    let name = named(finding);
    name.kind.is_sure() || names.contains(&name.key())
}
