//! The grandmasters that lead, and what is said of each: by itself, by its Announce, or by a clock that follows it.

use crate::judging::evidence::Evidence;
use crate::judging::grandmasters::names;
use crate::judging::port_groups::PortGroup;
use crate::judging::subjects::subjects_of;
use crate::judging::unseen::is_heard;
use crate::reading::data_sets::TimePropertiesDataSet;
use crate::reading::domain::Domain;
use crate::reading::site::Site;
use crate::reading::source::Source;
use ptpm_members::ClockQuality;
use std::alloc::{AllocError, Global};

/// By what a grandmaster is known.
#[derive(Clone, Copy)]
pub enum HeardBy {
    /// It answers.
    Answer,
    /// It is not seen, and its last Announce says that it is the grandmaster.
    Announce,
    /// It is not seen, and a clock that follows it names it.
    Followers,
}

/// What the best master clock algorithm compares of a grandmaster, beside its identity (9.3.4).
#[derive(Clone, Copy)]
pub struct Attributes {
    pub quality: ClockQuality,
    pub priority1: u8,
    pub priority2: u8,
}

/// A grandmaster that leads, with what is said of it.
#[derive(Clone, Copy)]
pub struct Leader {
    pub source: Source,
    pub heard: HeardBy,
    pub attributes: Option<Attributes>,
    /// The members of TIME_PROPERTIES_DATA_SET.
    pub time: Option<TimePropertiesDataSet>,
}

/// A clock that follows the grandmaster that it names.
#[derive(Clone, Copy)]
pub struct Witness {
    pub grandmaster: Source,
    pub follower: Source,
}

impl Leader {
    /// Its clockQuality.
    pub fn quality(&self) -> Option<ClockQuality> {
        match self.attributes {
            Some(attributes) => Some(attributes.quality),
            None => None,
        }
    }
}

/// A clock that is seen and leads, by its own data sets. What they lack its Announce says, or a clock that follows it.
fn leader_by_answers(
    site: &Site,
    evidence: &Evidence,
    source: Source,
    witnesses: &[Witness],
) -> Option<Leader> {
    if !site.leads_by_answers(source) {
        return None;
    }
    Some(Leader {
        source,
        heard: HeardBy::Answer,
        attributes: grandmaster_attributes(site, evidence, source, witnesses),
        time: grandmaster_time(site, evidence, source, witnesses),
    })
}

/// The attributes of a clock that leads: what it answers, or else what its Announce says, or a clock that follows it.
fn grandmaster_attributes(
    site: &Site,
    evidence: &Evidence,
    source: Source,
    witnesses: &[Witness],
) -> Option<Attributes> {
    match site.default(source) {
        Some(default) => Some(Attributes {
            quality: default.quality,
            priority1: default.priority1,
            priority2: default.priority2,
        }),
        None => leader_by_others(site, evidence, source, witnesses)?.attributes,
    }
}

/// A clock that leads by its last Announce: that says that its sender is the grandmaster.
fn leader_by_announce(evidence: &Evidence, source: Source) -> Option<Leader> {
    let announced = evidence.announcers.get(&source)?.grandmaster?;
    if announced.clock != source.clock || announced.steps_removed != 0 {
        return None;
    }
    Some(Leader {
        source,
        heard: HeardBy::Announce,
        attributes: Some(announced.attributes),
        time: Some(announced.time),
    })
}

/// A clock with a port in SLAVE or UNCALIBRATED, and the grandmaster that it names, if its parent does so too or is not seen.
fn witness_of(site: &Site, source: Source) -> Option<Witness> {
    let set = site.parent(source)?;
    let grandmaster = source.beside(set.grandmaster);
    let parent = source.beside(set.parent.clock);
    let is_agreed = !site.is_seen(parent) || names(site, grandmaster, parent);
    if site.has_port_of(source, PortGroup::Taking) && is_agreed {
        Some(Witness {
            grandmaster,
            follower: source,
        })
    } else {
        None
    }
}

/// All clocks that speak for the grandmaster that they name. `sources` has all clocks that are seen.
pub fn all_witnesses(
    alloc: Global,
    site: &Site,
    sources: &[Source],
) -> Result<Vec<Witness>, AllocError> {
    let mut found = Vec::new(alloc);
    for source in sources {
        if let Some(witness) = witness_of(site, *source) {
            found.push(witness)?;
        }
    }
    Ok(found)
}

/// A clock that leads, by what the least of those says of it that follow it.
fn leader_by_followers(site: &Site, source: Source, witnesses: &[Witness]) -> Option<Leader> {
    let witness = witnesses
        .iter()
        .find(|witness| witness.grandmaster == source)?;
    let set = site.parent(witness.follower)?;
    Some(Leader {
        source,
        heard: HeardBy::Followers,
        attributes: Some(Attributes {
            quality: set.quality,
            priority1: set.priority1,
            priority2: set.priority2,
        }),
        time: site.time(witness.follower),
    })
}

/// A clock, if it leads by its Announce or by a clock that follows it.
fn leader_by_others(
    site: &Site,
    evidence: &Evidence,
    source: Source,
    witnesses: &[Witness],
) -> Option<Leader> {
    match leader_by_announce(evidence, source) {
        Some(leader) => Some(leader),
        None => leader_by_followers(site, source, witnesses),
    }
}

/// TIME_PROPERTIES_DATA_SET of a grandmaster: what it answers, or else what its Announce says, or a clock that follows it.
pub fn grandmaster_time(
    site: &Site,
    evidence: &Evidence,
    source: Source,
    witnesses: &[Witness],
) -> Option<TimePropertiesDataSet> {
    match site.time(source) {
        Some(time) => Some(time),
        None => leader_by_others(site, evidence, source, witnesses)?.time,
    }
}

/// A clock, if it leads, with what is said of it.
pub fn leader_of(
    site: &Site,
    evidence: &Evidence,
    source: Source,
    witnesses: &[Witness],
) -> Option<Leader> {
    if site.is_seen(source) {
        leader_by_answers(site, evidence, source, witnesses)
    } else {
        leader_by_others(site, evidence, source, witnesses)
    }
}

/// All grandmasters that lead, by domain and identity.
pub fn leaders_of(alloc: Global, site: &Site) -> Result<Vec<Leader>, AllocError> {
    let sources = site.sources(alloc)?;
    let subjects = subjects_of(alloc, site, sources.as_slice())?;
    let evidence = Evidence::of(alloc, site.all_heard())?;
    let witnesses = all_witnesses(alloc, site, sources.as_slice())?;
    let mut found = Vec::new(alloc);
    for subject in subjects {
        if let Some(leader) = leader_of(site, &evidence, subject, witnesses.as_slice()) {
            found.push(leader)?;
        }
    }
    Ok(found)
}

/// Whether one that leads is seen, or sends by itself. `sources` has all clocks that are seen.
pub fn is_present(site: &Site, evidence: &Evidence, leader: &Leader, sources: &[Source]) -> bool {
    site.is_seen(leader.source) || is_heard(evidence, leader.source, sources)
}

/// Those of all that lead that are seen, or send by themselves. `sources` has all clocks that are seen.
pub fn present_leaders(
    alloc: Global,
    site: &Site,
    evidence: &Evidence,
    sources: &[Source],
) -> Result<Vec<Leader>, AllocError> {
    let all = leaders_of(alloc, site)?;
    all.as_slice()
        .iter()
        .copied()
        .filter(|leader| is_present(site, evidence, leader, sources))
        .collect(alloc)
}

/// How many of these lead in a domain.
pub fn count_in(leaders: &[Leader], domain: Domain) -> usize {
    leaders
        .iter()
        .filter(|leader| leader.source.domain == domain)
        .count()
}
