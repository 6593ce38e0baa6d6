//! What is wrong with clocks that are not seen.

use crate::judging::evidence::Evidence;
use crate::reading::domain::Domain;
use crate::reading::heard::{ANNOUNCE, DELAY_REQ, FOLLOW_UP, SYNC, Sender};
use crate::reading::site::Site;
use crate::reading::source::Source;

/// What is wrong with a clock that is not seen.
#[derive(Clone, Copy)]
pub enum Absence {
    /// A clock that does not stand by names it, and it is of the host that asks.
    OwnHost,
    /// It sends messages of this type by itself, and answers none.
    Mute(u8),
}

/// Whether a clock names another of its domain as its grandmaster, or as the clock of its parent.
fn names(site: &Site, other: Source, source: Source) -> bool {
    match site.parent(source) {
        Some(set) if source.domain == other.domain => {
            set.grandmaster == other.clock || set.parent.clock == other.clock
        }
        _ => false,
    }
}

/// Whether a GET asks in a domain, or a clock of it answered.
pub fn was_asked(evidence: &Evidence, domain: Domain, sources: &[Source]) -> bool {
    evidence.domains.contains(&domain) || sources.iter().any(|source| source.domain == domain)
}

fn sends(evidence: &Evidence, source: Source, kind: u8) -> bool {
    evidence.senders.contains(&Sender { source, kind })
}

/// The messageType of what a clock sends by itself as a master does.
fn sent_kind(evidence: &Evidence, source: Source) -> Option<u8> {
    [ANNOUNCE, SYNC, FOLLOW_UP]
        .iter()
        .copied()
        .find(|kind| sends(evidence, source, *kind))
}

/// Whether a clock that is not seen answers nothing, in a domain that was asked.
fn is_mute(evidence: &Evidence, source: Source, sources: &[Source]) -> bool {
    was_asked(evidence, source.domain, sources) && !evidence.untaken.contains_key(&source)
}

/// That a clock sends by itself, and answers nothing in a domain that was asked.
fn mute(evidence: &Evidence, source: Source, sources: &[Source]) -> Option<Absence> {
    let kind = sent_kind(evidence, source)?;
    if is_mute(evidence, source, sources) {
        Some(Absence::Mute(kind))
    } else {
        None
    }
}

/// Whether a clock that is not seen sends by itself as a master does, and is not of the host that asks. `sources` has all clocks that
/// are seen.
pub fn is_heard(evidence: &Evidence, source: Source, sources: &[Source]) -> bool {
    !evidence.hosts.contains(&source.clock)
        && sent_kind(evidence, source).is_some()
        && was_asked(evidence, source.domain, sources)
}

/// That a clock that is not seen sends Delay_Req alone, and answers nothing in a domain that was asked: a slave, or a transparent
/// clock. `sources` has all clocks that are seen.
pub fn open_mute(evidence: &Evidence, source: Source, sources: &[Source]) -> Option<Absence> {
    if evidence.hosts.contains(&source.clock) || sent_kind(evidence, source).is_some() {
        return None;
    }
    if sends(evidence, source, DELAY_REQ) && is_mute(evidence, source, sources) {
        Some(Absence::Mute(DELAY_REQ))
    } else {
        None
    }
}

/// What is wrong with a clock that is not seen, if anything is. `sources` has all clocks that are seen.
pub fn unseen(
    site: &Site,
    evidence: &Evidence,
    source: Source,
    sources: &[Source],
) -> Option<Absence> {
    if !evidence.hosts.contains(&source.clock) {
        return mute(evidence, source, sources);
    }
    let is_named = sources.iter().any(|other| !site.is_on_standby(*other)
        && names(site, source, *other));
    if is_named {
        Some(Absence::OwnHost)
    } else {
        None
    }
}
