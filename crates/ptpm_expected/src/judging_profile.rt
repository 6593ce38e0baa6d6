//! How the clocks of a site are not as a profile wants them.

use crate::outside::{clock_outside, is_idle, parent_outside, port_outside, timescale_outside};
use crate::profile::Profile;
use ptpm_site::judging::evidence::Evidence;
use ptpm_site::judging::expected::Outside;
use ptpm_site::judging::finding::{Added, Finding, What, add_finding};
use ptpm_site::judging::leaders::Leader;
use ptpm_site::reading::site::Site;
use ptpm_site::reading::source::Source;
use std::alloc::Global;

/// Adds what a profile does not allow at these clocks, after all earlier findings. For each clock its own members come first:
/// those of DEFAULT_DATA_SET, and ptpTimescale. Then come its ports. Of one that leads and is not seen only ptpTimescale is known.
pub fn judge_profile(
    alloc: Global,
    site: &Site,
    evidence: &Evidence,
    profile: Profile,
    sources: &[Source],
    leaders: &[Leader],
    findings: &mut Vec<Finding<'_>>,
) -> Added {
    for source in sources {
        let source = *source;
        if let Some(default) = site.default(source) {
            let outside = clock_outside(profile, source.domain, &default);
            add_outside(findings, source, &outside)?;
        }
        add_outside(findings, source, &[timescale_of(leaders, source)])?;
        for port in site.ports(alloc, source)? {
            judge_port(site, evidence, profile, source, port, findings)?;
        }
    }
    for leader in leaders {
        if !site.is_seen(leader.source) {
            add_outside(findings, leader.source, &[timescale_outside(leader)])?;
        }
    }
    Ok(())
}

/// ptpTimescale of a clock, if it is one of these that lead, and it is not allowed.
fn timescale_of(leaders: &[Leader], source: Source) -> Option<Outside> {
    let leader = leaders.iter().find(|leader| leader.source == source)?;
    timescale_outside(leader)
}

/// The members of a port that takes part.
fn judge_port(
    site: &Site,
    evidence: &Evidence,
    profile: Profile,
    source: Source,
    port: u16,
    findings: &mut Vec<Finding<'_>>,
) -> Added {
    let Some(set) = site.port(source, port) else {
        return Ok(());
    };
    if is_idle(set.state()) {
        return Ok(());
    }
    add_outside(findings, source, &port_outside(profile, port, &set))?;
    let parent = parent_outside(site, evidence, source, port, &set);
    add_outside(findings, source, &[parent])
}

/// Adds a finding for each of these members that is not allowed.
fn add_outside(
    findings: &mut Vec<Finding<'_>>,
    source: Source,
    members: &[Option<Outside>],
) -> Added {
    for outside in members {
        if let Some(outside) = *outside {
            add_finding(findings, source, What::Profile(outside))?;
        }
    }
    Ok(())
}
