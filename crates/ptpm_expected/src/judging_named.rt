//! Which clocks of an inventory are absent, and which are not in it.

use crate::descriptions::Descriptions;
use crate::inventory::Entry;
use crate::named::Named;
use crate::senders::unseen_clocks;
use ptpm_site::judging::finding::{Added, Finding, What, add_finding};
use ptpm_site::reading::site::Site;
use ptpm_site::reading::source::Source;
use std::alloc::Global;

/// Adds a finding for each clock that is to be seen and is not. `named` is of these entries.
pub(crate) fn judge_absent<'a>(
    alloc: Global,
    site: &Site,
    entries: &'a [Entry],
    named: &Named,
    findings: &mut Vec<Finding<'a>>,
) -> Added {
    let descriptions = Descriptions::of(alloc, entries)?;
    for source in named.demanded.iter() {
        if !site.is_seen(*source) && !named.excused.contains(source) {
            let absent = What::Absent(descriptions.get(*source));
            add_finding(findings, *source, absent)?;
        }
    }
    Ok(())
}

/// Adds a finding for each clock of a closed domain that is seen, announces, or gave answers that were not taken, and is not
/// named. `sources` has all clocks that are seen.
pub(crate) fn judge_unexpected(
    alloc: Global,
    site: &Site,
    named: &Named,
    sources: &[Source],
    findings: &mut Vec<Finding<'_>>,
) -> Added {
    for source in sources {
        judge_unexpected_at(named, *source, findings)?;
    }
    for source in unseen_clocks(alloc, site)? {
        judge_unexpected_at(named, source, findings)?;
    }
    Ok(())
}

/// Adds a finding if a clock is in a closed domain, and is not named.
fn judge_unexpected_at(named: &Named, source: Source, findings: &mut Vec<Finding<'_>>) -> Added {
    if !named.closed.contains(&source.domain) || named.has(source) {
        return Ok(());
    }
    add_finding(findings, source, What::Unexpected)
}
