//! The findings of a site that are none by an inventory.

use crate::inventory::{Entry, Rule};
use crate::meeting::is_as_wanted;
use crate::named::Named;
use crate::senders::giving;
use ptpm_members::Member;
use ptpm_site::judging::finding::{Finding, What};
use ptpm_site::judging::unseen::Absence;
use ptpm_site::reading::domain::Domain;
use ptpm_site::reading::site::Site;
use ptpm_site::reading::source::Source;
use std::alloc::{AllocError, Global};
use std::collections::BTreeSet;

/// A site and an inventory that it is held to, for quick answers.
#[derive(Drop)]
pub(crate) struct Held<'a> {
    pub(crate) site: &'a Site,
    pub(crate) entries: &'a [Entry],
    pub(crate) named: Named,
    /// The clocks that send Announce, Sync or Follow_Up.
    pub(crate) heard: BTreeSet<Source>,
}

impl<'a> Held<'a> {
    pub(crate) fn of(
        alloc: Global,
        site: &'a Site,
        entries: &'a [Entry],
    ) -> Result<Held<'a>, AllocError> {
        Ok(Held {
            site,
            entries,
            named: Named::of(alloc, entries)?,
            heard: giving(alloc, site)?,
        })
    }

    /// Whether a finding is none by the inventory.
    pub(crate) fn allows(&self, finding: &Finding<'_>) -> bool {
        let source = finding.source;
        match finding.what {
            What::Degraded(_) => {
                self.may_lead(source) && has_quality(self.site, source, self.entries)
            }
            What::BetterClock(_) => self.named.leading.contains(&source),
            What::Unseen(Absence::Mute(_)) => self.named.mute.contains(&source),
            What::GrandmasterNotSeen(clock) => self.is_mute(source.beside(clock)),
            What::ParentNotSeen(port) => self.is_mute(source.beside(port.clock)),
            _ => false,
        }
    }

    /// Whether a clock may lead: a line `grandmaster` names it, or none is of its domain.
    fn may_lead(&self, source: Source) -> bool {
        self.named.leading.contains(&source) || !has_leaders(self.entries, source.domain)
    }

    /// Whether a clock needs to answer nothing, and is heard.
    fn is_mute(&self, source: Source) -> bool {
        self.named.mute.contains(&source) && self.heard.contains(&source)
    }
}

/// Whether one of these entries says who leads in a domain.
fn has_leaders(entries: &[Entry], domain: Domain) -> bool {
    entries.iter().any(|entry| entry.domain == domain && matches!(entry.rule, Rule::Leaders(_)))
}

/// Whether one of these entries has what the clockQuality of a clock is.
fn has_quality(site: &Site, source: Source, entries: &[Entry]) -> bool {
    entries
        .iter()
        .any(|entry| is_quality_of(site, source, entry))
}

fn is_quality_of(site: &Site, source: Source, entry: &Entry) -> bool {
    let rule = match &entry.rule {
        Rule::Member(clock, rule) if *clock == source.clock => rule,
        Rule::EachMember(rule) => rule,
        _ => return false,
    };
    entry.domain == source.domain
        && matches!(rule.member, Member::ClockQuality)
        && is_as_wanted(site, source, rule)
}
