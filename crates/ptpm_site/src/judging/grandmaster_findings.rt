//! What is wrong with a clock's grandmaster, and with the clock that it follows.

use crate::judging::comparing::{Compared, add_differences};
use crate::judging::differences::{grandmaster_differs, other_grandmaster};
use crate::judging::finding::{Added, Finding, What, add_finding};
use crate::judging::grandmasters::{masterless_reason, unseen_grandmaster};
use crate::judging::parents::{no_master_port, unseen_parent, wrong_steps};
use crate::reading::site::Site;
use crate::reading::source::Source;

/// `no_master`, `grandmaster_not_seen`.
pub fn judge_grandmaster(site: &Site, source: Source, findings: &mut Vec<Finding<'_>>) -> Added {
    if let Some(why) = masterless_reason(site, source) {
        add_finding(findings, source, What::NoMaster(why))?;
    }
    if let Some(grandmaster) = unseen_grandmaster(site, source) {
        add_finding(findings, source, What::GrandmasterNotSeen(grandmaster))?;
    }
    Ok(())
}

/// `parent_not_seen`, `parent_not_master`, `steps`, `grandmaster_differs`.
pub fn judge_parent(site: &Site, source: Source, findings: &mut Vec<Finding<'_>>) -> Added {
    if let Some(parent) = unseen_parent(site, source) {
        add_finding(findings, source, What::ParentNotSeen(parent))?;
    }
    if let Some((parent, why)) = no_master_port(site, source) {
        add_finding(findings, source, What::ParentNotMaster(parent, why))?;
    }
    if let Some(steps) = wrong_steps(site, source) {
        add_finding(findings, source, What::Steps(steps))?;
    }
    judge_said(site, source, findings)
}

/// Whether a clock's PARENT_DATA_SET is kept like the DEFAULT_DATA_SET of the grandmaster that it names. The decisions M1 and M2 write that
/// of the clock's own grandmaster (9.3.5), so this has a port in MASTER.
fn is_kept_alike(site: &Site, source: Source) -> bool {
    !site.is_own_grandmaster(source) || site.leads_by_answers(source)
}

/// `grandmaster_differs`: by the DEFAULT_DATA_SET of the grandmaster, and by the clock that it follows.
fn judge_said(site: &Site, source: Source, findings: &mut Vec<Finding<'_>>) -> Added {
    let Some(own) = site.parent(source) else {
        return Ok(());
    };
    if site.is_on_standby(source) {
        return Ok(());
    }
    match site.default(source.beside(own.grandmaster)) {
        Some(grandmaster) if is_kept_alike(site, source) => {
            let differs = grandmaster_differs(&own, &grandmaster);
            add_differences(findings, source, Compared::Grandmaster, &differs)?;
        }
        _ => {}
    }
    if let Some(parent) = site.parent(source.beside(own.parent.clock)) {
        let differs = [other_grandmaster(&own, &parent)];
        add_differences(findings, source, Compared::Grandmaster, &differs)?;
    }
    Ok(())
}
