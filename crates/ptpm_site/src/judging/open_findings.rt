//! What is open at the clocks of a site: it is a finding if it lasts.

use crate::judging::announcing::open_seldom;
use crate::judging::answer_findings::judge_twice;
use crate::judging::evidence::Evidence;
use crate::judging::finding::{Added, Finding, What, add_finding};
use crate::judging::limits::Limits;
use crate::judging::port_findings::{judge_intervals, judge_locks, judge_mechanisms, judge_ports};
use crate::judging::subjects::subjects_of;
use crate::judging::twice::Twice;
use crate::judging::two_addresses::{Twins, all_twins};
use crate::judging::two_offsets::open_offsets;
use crate::judging::unasked::{not_asked, senders_of};
use crate::judging::unseen::open_mute;
use crate::looks::staying::{open_lock, open_state};
use crate::reading::asked::Asked;
use crate::reading::site::Site;
use crate::reading::source::Source;
use std::alloc::{AllocError, Global};

/// All that is open, in the order of findings.
pub fn open_of<'a>(
    alloc: Global,
    site: &'a Site,
    limits: Limits,
) -> Result<Vec<Finding<'a>>, AllocError> {
    let sources = site.sources(alloc)?;
    let subjects = subjects_of(alloc, site, sources.as_slice())?;
    let evidence = Evidence::of(alloc, site.all_heard())?;
    let senders = senders_of(alloc, site.all_heard())?;
    let twins = all_twins(alloc, site)?;
    let known = Known {
        alloc,
        sources: sources.as_slice(),
        evidence: &evidence,
        senders: senders.as_slice(),
        twins: twins.as_slice(),
        limits,
    };
    let mut findings = Vec::new(alloc);
    for subject in subjects {
        if site.is_seen(subject) {
            judge_open(site, subject, &known, &mut findings)?;
        } else {
            judge_open_absent(site, subject, &known, &mut findings)?;
        }
    }
    Ok(findings)
}

/// What is known of all clocks of a site, and what is allowed.
#[derive(Clone, Copy)]
struct Known<'a> {
    alloc: Global,
    /// All clocks that are seen.
    sources: &'a [Source],
    /// What all lines show beside.
    evidence: &'a Evidence,
    /// All clocks that send Announce, Sync or Delay_Req.
    senders: &'a [Source],
    /// All answers from two addresses.
    twins: &'a [Twins],
    limits: Limits,
}

/// What is open at a clock that is not seen: `mute`, by Delay_Req; and `not_asked`, at the first clock that sends in a domain.
fn judge_open_absent(
    site: &Site,
    subject: Source,
    known: &Known<'_>,
    findings: &mut Vec<Finding<'_>>,
) -> Added {
    let (evidence, sources) = (known.evidence, known.sources);
    if let Some(why) = open_mute(evidence, subject, sources) {
        add_finding(findings, subject, What::Unseen(why))?;
    }
    if let Some(clocks) = not_asked(site, evidence, subject, sources, known.senders) {
        add_finding(findings, subject, What::NotAsked(clocks))?;
    }
    Ok(())
}

/// What is open at a clock that is seen.
fn judge_open(
    site: &Site,
    source: Source,
    known: &Known<'_>,
    findings: &mut Vec<Finding<'_>>,
) -> Added {
    let ports = site.ports(known.alloc, source)?;
    let ports = ports.as_slice();
    judge_open_states(site, source, ports, known, findings)?;
    judge_open_locks(site, source, ports, known, findings)?;
    judge_open_intervals(site, source, ports, known, findings)?;
    judge_open_twins(site, source, ports, known, findings)
}

/// `port_state`, for a clock with these ports. Nothing is open where a port has the finding.
fn judge_open_states(
    site: &Site,
    source: Source,
    ports: &[u16],
    known: &Known<'_>,
    findings: &mut Vec<Finding<'_>>,
) -> Added {
    let mut found = Vec::new(known.alloc);
    judge_ports(site, source, ports, known.limits, &mut found)?;
    if !found.is_empty() {
        return Ok(());
    }
    for port in ports {
        if let Some(stay) = open_state(site, known.limits, source, *port) {
            add_finding(findings, source, What::PortState(*port, stay))?;
        }
    }
    Ok(())
}

/// `not_locked`, for a clock with these ports. Nothing is open where a port has the finding, `intervals` or
/// `delay_mechanism`.
fn judge_open_locks(
    site: &Site,
    source: Source,
    ports: &[u16],
    known: &Known<'_>,
    findings: &mut Vec<Finding<'_>>,
) -> Added {
    let mut found = Vec::new(known.alloc);
    judge_locks(site, source, ports, known.limits, &mut found)?;
    judge_intervals(site, known.evidence, source, ports, &mut found)?;
    judge_mechanisms(site, source, ports, &mut found)?;
    if !found.is_empty() {
        return Ok(());
    }
    for port in ports {
        if let Some(unlocked) = open_lock(site, known.limits, source, *port) {
            add_finding(findings, source, What::NotLocked(*port, unlocked))?;
        }
    }
    Ok(())
}

/// `intervals`, for a clock with these ports. Nothing is open where a port has the finding.
fn judge_open_intervals(
    site: &Site,
    source: Source,
    ports: &[u16],
    known: &Known<'_>,
    findings: &mut Vec<Finding<'_>>,
) -> Added {
    let mut found = Vec::new(known.alloc);
    judge_intervals(site, known.evidence, source, ports, &mut found)?;
    if !found.is_empty() {
        return Ok(());
    }
    for port in ports {
        if let Some(seldom) = open_seldom(site, known.evidence, source, *port) {
            add_finding(findings, source, What::Intervals(*port, seldom))?;
        }
    }
    Ok(())
}

/// `identity_twice`, for a clock with these ports. It is open where two offsets in one look alone show it.
fn judge_open_twins(
    site: &Site,
    source: Source,
    ports: &[u16],
    known: &Known<'_>,
    findings: &mut Vec<Finding<'_>>,
) -> Added {
    let mut found = Vec::new(known.alloc);
    judge_twice(known.alloc, site, known.twins, source, ports, &mut found)?;
    if !found.is_empty() {
        return Ok(());
    }
    match open_offsets(site.answers(source, Asked::CurrentDataSet)) {
        Some(offsets) => {
            let twice = Twice::by_offsets(known.alloc, offsets);
            add_finding(findings, source, What::IdentityTwice(twice))
        }
        None => Ok(()),
    }
}
