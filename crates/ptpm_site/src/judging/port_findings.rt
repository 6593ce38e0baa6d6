//! What is wrong with the ports of a clock.

use crate::judging::amounts::large_link_delay;
use crate::judging::announcing::seldom_announced;
use crate::judging::differences::other_mechanism;
use crate::judging::evidence::Evidence;
use crate::judging::finding::{Added, Finding, What, add_finding};
use crate::judging::limits::Limits;
use crate::looks::staying::{staying_state, unlocked_port};
use crate::reading::site::Site;
use crate::reading::source::Source;

/// `port_state`, for these ports.
pub fn judge_ports(
    site: &Site,
    source: Source,
    ports: &[u16],
    limits: Limits,
    findings: &mut Vec<Finding<'_>>,
) -> Added {
    for port in ports {
        if let Some(stay) = staying_state(site, limits, source, *port) {
            add_finding(findings, source, What::PortState(*port, stay))?;
        }
    }
    Ok(())
}

/// `not_locked`, for these ports.
pub fn judge_locks(
    site: &Site,
    source: Source,
    ports: &[u16],
    limits: Limits,
    findings: &mut Vec<Finding<'_>>,
) -> Added {
    for port in ports {
        if let Some(unlocked) = unlocked_port(site, limits, source, *port) {
            add_finding(findings, source, What::NotLocked(*port, unlocked))?;
        }
    }
    Ok(())
}

/// `delay`, by the links of these ports, if the clock follows another.
pub fn judge_links(
    site: &Site,
    source: Source,
    ports: &[u16],
    limits: Limits,
    findings: &mut Vec<Finding<'_>>,
) -> Added {
    if site.followed(source).is_none() {
        return Ok(());
    }
    for port in ports {
        if let Some(set) = site.port(source, *port) {
            if let Some(delay) = large_link_delay(&set, limits) {
                add_finding(findings, source, What::LinkDelay(*port, delay))?;
            }
        }
    }
    Ok(())
}

/// `intervals`, for these ports.
pub fn judge_intervals(
    site: &Site,
    evidence: &Evidence,
    source: Source,
    ports: &[u16],
    findings: &mut Vec<Finding<'_>>,
) -> Added {
    for port in ports {
        if let Some(seldom) = seldom_announced(site, evidence, source, *port) {
            add_finding(findings, source, What::Intervals(*port, seldom))?;
        }
    }
    Ok(())
}

/// `delay_mechanism`, for these ports.
pub fn judge_mechanisms(
    site: &Site,
    source: Source,
    ports: &[u16],
    findings: &mut Vec<Finding<'_>>,
) -> Added {
    for port in ports {
        if let Some(other) = other_mechanism(site, source, *port) {
            add_finding(findings, source, What::DelayMechanism(*port, other))?;
        }
    }
    Ok(())
}
