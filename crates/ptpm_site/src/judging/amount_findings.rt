//! Amounts of a clock beyond what is allowed, and what it says of UTC.

use crate::judging::amounts::{TooFarOff, large_delay, large_offset, shared_offset};
use crate::judging::comparing::{Compared, add_differences};
use crate::judging::differences::utc_differs;
use crate::judging::evidence::Evidence;
use crate::judging::finding::{Added, Finding, What, add_finding};
use crate::judging::leaders::Leader;
use crate::judging::limits::Limits;
use crate::judging::port_findings::judge_links;
use crate::judging::tai_and_utc::{OffByUtc, Slave, followers_off, slave_among};
use crate::reading::origin::{JudgedTime, Origin, TimeError, TimeVerdict, judged_time};
use crate::reading::site::Site;
use crate::reading::source::Source;

/// `gm_time`, `off_by_utc`, `offset` and `delay`, for a clock with these ports. `slaves` has all that follow another.
pub fn judge_amounts(
    site: &Site,
    evidence: &Evidence,
    source: Source,
    leader: Option<Leader>,
    ports: &[u16],
    slaves: &[Slave],
    limits: Limits,
    findings: &mut Vec<Finding<'_>>,
) -> Added {
    judge_lead_off(evidence, leader, slaves, limits, findings)?;
    judge_slave(source, slaves, limits, findings)?;
    if let Some(delay) = large_delay(site, source, limits) {
        add_finding(findings, source, What::Delay(delay))?;
    }
    judge_links(site, source, ports, limits, findings)
}

/// `gm_time`, `off_by_utc` and `offset` of a clock that leads: by the clock of the host that asks, and by all clocks that follow it.
pub fn judge_lead_off(
    evidence: &Evidence,
    leader: Option<Leader>,
    slaves: &[Slave],
    limits: Limits,
    findings: &mut Vec<Finding<'_>>,
) -> Added {
    let Some(leader) = leader else {
        return Ok(());
    };
    let source = leader.source;
    let judged = judged_time(evidence, limits, &leader);
    if let Some(error) = wrong_time(judged) {
        add_finding(findings, source, What::GrandmasterTime(error))?;
    }
    if let Some(count) = followers_off(source, slaves) {
        add_finding(findings, source, What::OffByUtc(OffByUtc::Followers(count)))?;
    }
    if let Some(origin) = utc_origin(judged) {
        add_finding(findings, source, What::OffByUtc(OffByUtc::Origin(origin)))?;
    }
    if let Some(shared) = shared_offset(source, slaves, limits) {
        add_finding(findings, source, What::Offset(TooFarOff::Followers(shared)))?;
    }
    Ok(())
}

/// How far a time is off that is neither TAI nor UTC.
fn wrong_time(judged: Option<JudgedTime>) -> Option<TimeError> {
    match judged?.verdict {
        TimeVerdict::Wrong => Some(judged?.error),
        _ => None,
    }
}

/// The origin of a time that is UTC.
fn utc_origin(judged: Option<JudgedTime>) -> Option<Origin> {
    match judged?.verdict {
        TimeVerdict::Utc => Some(judged?.error.origin),
        _ => None,
    }
}

/// `off_by_utc` and `offset`, by offsetFromMaster of the clock itself.
fn judge_slave(
    source: Source,
    slaves: &[Slave],
    limits: Limits,
    findings: &mut Vec<Finding<'_>>,
) -> Added {
    let Some(slave) = slave_among(slaves, source) else {
        return Ok(());
    };
    match slave.offset {
        Some(offset) if slave.is_off_by_utc => {
            add_finding(findings, source, What::OffByUtc(OffByUtc::Offset(offset)))?;
        }
        _ => {}
    }
    if let Some(offset) = large_offset(slave, limits) {
        add_finding(findings, source, What::Offset(TooFarOff::Own(offset)))?;
    }
    Ok(())
}

/// `utc`.
pub fn judge_utc(site: &Site, source: Source, findings: &mut Vec<Finding<'_>>) -> Added {
    let (Some(parent), Some(own)) = (site.parent(source), site.time(source)) else {
        return Ok(());
    };
    if site.followed(source).is_none() {
        return Ok(());
    }
    match site.time(source.beside(parent.grandmaster)) {
        Some(grandmaster) => add_differences(
            findings,
            source,
            Compared::Time,
            &utc_differs(&own, &grandmaster),
        ),
        None => Ok(()),
    }
}
