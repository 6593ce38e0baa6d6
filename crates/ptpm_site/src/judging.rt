//! What is wrong with the clocks of a site. Findings are in order of the domain, the clock, the table of
//! findings, and the port.

pub(crate) mod amount_findings;
pub mod amounts;
pub mod announcing;
pub(crate) mod answer_findings;
pub mod calendar;
pub(crate) mod comparing;
pub mod completeness;
pub mod differences;
pub mod evidence;
pub mod expected;
pub mod finding;
pub(crate) mod following;
pub mod frozen;
pub(crate) mod grandmaster_findings;
pub mod grandmasters;
pub mod lacks;
pub(crate) mod leader_findings;
pub mod leaders;
pub mod leading;
pub mod limits;
pub(crate) mod loop_findings;
pub mod open_findings;
pub mod parents;
pub(crate) mod port_findings;
pub mod port_groups;
pub mod reach;
pub(crate) mod subjects;
pub mod tai_and_utc;
pub mod twice;
pub mod two_addresses;
pub mod two_offsets;
pub(crate) mod unasked;
pub mod unseen;

use crate::judging::amount_findings::{judge_amounts, judge_lead_off, judge_utc};
use crate::judging::answer_findings::{judge_answers, judge_changes};
use crate::judging::evidence::Evidence;
use crate::judging::finding::{Added, Finding, What, add_finding};
use crate::judging::frozen::frozen_offset;
use crate::judging::grandmaster_findings::{judge_grandmaster, judge_parent};
use crate::judging::leader_findings::judge_leader;
use crate::judging::leaders::{
    Leader, Witness, all_witnesses, count_in, is_present, leader_of, present_leaders,
};
use crate::judging::leading::{all_standing_by, today};
use crate::judging::limits::Limits;
use crate::judging::loop_findings::judge_loop;
use crate::judging::port_findings::{judge_intervals, judge_locks, judge_mechanisms, judge_ports};
use crate::judging::reach::Reach;
use crate::judging::subjects::subjects_of;
use crate::judging::tai_and_utc::{Slave, all_slaves};
use crate::judging::two_addresses::{Twins, all_twins};
use crate::judging::unseen::unseen;
use crate::looks::grandmaster_changes::{GrandmasterChange, grandmaster_changes};
use crate::reading::site::Site;
use crate::reading::source::Source;
use crate::reading::untaken::not_taken;
use crate::tree::forest::place_among;
use crate::tree::marks::is_marked;
use std::alloc::{AllocError, Global};

/// All findings. Each loop is reported at its least clock, which is marked in `least`.
pub fn findings_of<'a>(
    alloc: Global,
    site: &'a Site,
    least: &[bool],
    limits: Limits,
) -> Result<Vec<Finding<'a>>, AllocError> {
    let sources = site.sources(alloc)?;
    let sources = sources.as_slice();
    let evidence = Evidence::of(alloc, site.all_heard())?;
    let reach = Reach::of(alloc, site.all_heard())?;
    let changes = grandmaster_changes(alloc, site, sources)?;
    let twins = all_twins(alloc, site)?;
    let witnesses = all_witnesses(alloc, site, sources)?;
    let witnesses = witnesses.as_slice();
    let leaders = present_leaders(alloc, site, &evidence, sources)?;
    let standing_by = all_standing_by(alloc, site, sources)?;
    let slaves = all_slaves(alloc, site, &evidence, witnesses, limits.tai_utc, sources)?;
    let given = Given {
        alloc,
        sources,
        evidence: &evidence,
        reach: &reach,
        changes: changes.as_slice(),
        twins: twins.as_slice(),
        witnesses,
        leaders: leaders.as_slice(),
        standing_by: standing_by.as_slice(),
        slaves: slaves.as_slice(),
        least,
        limits,
        today: today(site, limits),
    };
    judge_all(site, &given)
}

/// What is known of all clocks of a site, and what is allowed.
#[derive(Clone, Copy)]
struct Given<'a> {
    alloc: Global,
    /// All clocks that are seen.
    sources: &'a [Source],
    /// What all lines show beside.
    evidence: &'a Evidence,
    /// How far the GETs went.
    reach: &'a Reach,
    /// Which grandmasters changed.
    changes: &'a [GrandmasterChange],
    /// Which answers came from two addresses.
    twins: &'a [Twins],
    /// All that speak for the grandmaster that they name.
    witnesses: &'a [Witness],
    /// Those that lead, and are seen or send by themselves.
    leaders: &'a [Leader],
    /// Those that may lead, are of a class below 128, and do not lead.
    standing_by: &'a [Source],
    /// Those that follow another, and have a port in SLAVE.
    slaves: &'a [Slave],
    /// For each clock whether it is the least of a loop.
    least: &'a [bool],
    limits: Limits,
    /// How many days after 1970-01-01 the last datagram came, if that is certain.
    today: Option<u64>,
}

/// The findings of all clocks, whether they are seen or not.
fn judge_all<'a>(site: &'a Site, given: &Given<'_>) -> Result<Vec<Finding<'a>>, AllocError> {
    let mut findings = Vec::new(given.alloc);
    for subject in subjects_of(given.alloc, site, given.sources)? {
        let leader = leader_of(site, given.evidence, subject, given.witnesses);
        if site.is_seen(subject) {
            judge(site, subject, leader, given, &mut findings)?;
        } else {
            judge_absent(site, subject, leader, given, &mut findings)?;
        }
    }
    Ok(findings)
}

/// What is wrong with one clock that is not seen: `gone`, `own_host`, `not_taken` and `mute`, what is wrong with it if it leads, and
/// `grandmaster_changed`.
fn judge_absent<'a>(
    site: &'a Site,
    subject: Source,
    leader: Option<Leader>,
    given: &Given<'_>,
    findings: &mut Vec<Finding<'a>>,
) -> Added {
    let limits = given.limits;
    if given.evidence.gone.contains(&subject) {
        add_finding(findings, subject, What::Gone)?;
    }
    if let Some(why) = unseen(site, given.evidence, subject, given.sources) {
        add_finding(findings, subject, What::Unseen(why))?;
    }
    if let Some(why) = not_taken(site, given.evidence, subject) {
        add_finding(findings, subject, What::NotTaken(why))?;
    }
    judge_two(site, subject, leader, given, findings)?;
    judge_lead_off(given.evidence, leader, given.slaves, limits, findings)?;
    judge_lead(site, subject, leader, given, findings)?;
    judge_changes(given.changes, subject, findings)
}

/// Whether a clock that is seen is the least of a loop.
fn is_least(source: Source, given: &Given<'_>) -> bool {
    match place_among(given.sources, source) {
        Some(place) => is_marked(given.least, place),
        None => false,
    }
}

/// What is wrong with one clock that is seen.
fn judge<'a>(
    site: &'a Site,
    source: Source,
    leader: Option<Leader>,
    given: &Given<'_>,
    findings: &mut Vec<Finding<'a>>,
) -> Added {
    let alloc = given.alloc;
    judge_two(site, source, leader, given, findings)?;
    judge_grandmaster(site, source, findings)?;
    judge_parent(site, source, findings)?;
    if is_least(source, given) {
        judge_loop(alloc, site, source, given.sources.len(), findings)?;
    }
    let ports = site.ports(alloc, source)?;
    let ports = ports.as_slice();
    judge_time(site, source, leader, ports, given, findings)?;
    judge_answers(
        alloc,
        site,
        given.evidence,
        given.reach,
        given.changes,
        given.twins,
        source,
        ports,
        findings,
    )
}

/// What is wrong with the ports of a clock that is seen, with its time, and with that of one that leads.
fn judge_time(
    site: &Site,
    source: Source,
    leader: Option<Leader>,
    ports: &[u16],
    given: &Given<'_>,
    findings: &mut Vec<Finding<'_>>,
) -> Added {
    let (alloc, limits) = (given.alloc, given.limits);
    judge_ports(site, source, ports, limits, findings)?;
    judge_locks(site, source, ports, limits, findings)?;
    if let Some(frozen) = frozen_offset(alloc, site, limits, source, ports)? {
        add_finding(findings, source, What::OffsetFrozen(frozen))?;
    }
    judge_amounts(
        site,
        given.evidence,
        source,
        leader,
        ports,
        given.slaves,
        limits,
        findings,
    )?;
    judge_utc(site, source, findings)?;
    judge_intervals(site, given.evidence, source, ports, findings)?;
    judge_mechanisms(site, source, ports, findings)?;
    judge_lead(site, source, leader, given, findings)
}

/// What is wrong with a clock if it leads, beside its time.
fn judge_lead(
    site: &Site,
    source: Source,
    leader: Option<Leader>,
    given: &Given<'_>,
    findings: &mut Vec<Finding<'_>>,
) -> Added {
    let (others, limits, today) = (given.standing_by, given.limits, given.today);
    judge_leader(site, source, leader, others, limits, today, findings)
}

/// `two_grandmasters`.
fn judge_two(
    site: &Site,
    source: Source,
    leader: Option<Leader>,
    given: &Given<'_>,
    findings: &mut Vec<Finding<'_>>,
) -> Added {
    let Some(leader) = leader else {
        return Ok(());
    };
    if is_present(site, given.evidence, &leader, given.sources)
        && 2 <= count_in(given.leaders, source.domain)
    {
        add_finding(findings, source, What::TwoGrandmasters)?;
    }
    Ok(())
}
