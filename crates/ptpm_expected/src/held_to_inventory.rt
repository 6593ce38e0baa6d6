//! The findings of a site that is held to an inventory.

use crate::allowing::Held;
use crate::inventory::Inventory;
use crate::judging_inventory::judge_entries;
use crate::judging_named::{judge_absent, judge_unexpected};
use crate::order::put_in_order;
use ptpm_site::judging::finding::Finding;
use ptpm_site::judging::leaders::leaders_of;
use ptpm_site::reading::site::Site;
use ptpm_site::reading::source::Source;
use std::alloc::{AllocError, Global};

/// Adds what is not as an inventory wants it to the findings of a site, and takes away what it allows. `sources` has all clocks.
pub fn hold_to_inventory<'a>(
    alloc: Global,
    site: &'a Site,
    sources: &[Source],
    inventory: &'a Inventory,
    findings: &mut Vec<Finding<'a>>,
) -> Result<(), AllocError> {
    let entries = inventory.entries.as_slice();
    let held = Held::of(alloc, site, entries)?;
    findings.retain(|finding| !held.allows(finding));
    let leaders = leaders_of(alloc, site)?;
    judge_entries(alloc, site, entries, sources, leaders.as_slice(), findings)?;
    judge_absent(alloc, site, entries, &held.named, findings)?;
    judge_unexpected(alloc, site, &held.named, sources, findings)?;
    put_in_order(findings)
}

/// Takes away of what is open what an inventory allows.
pub fn keep_open(
    alloc: Global,
    site: &Site,
    inventory: &Inventory,
    findings: &mut Vec<Finding<'_>>,
) -> Result<(), AllocError> {
    let held = Held::of(alloc, site, inventory.entries.as_slice())?;
    findings.retain(|finding| !held.allows(finding));
    Ok(())
}
