//! The inventory of a site as it is.

use crate::inventory::{Entry, Inventory, MemberRule, Presence, Rule};
use crate::judging_inventory::leading_in;
use crate::meeting::rule_value;
use crate::ranges::PORT_MEMBERS;
use crate::senders::unseen_clocks;
use ptpm_codec::ClockIdentity;
use ptpm_data::Member::{ParentPort, Priority1, Priority2, UserDescription};
use ptpm_members::Member::DataSet;
use ptpm_members::{Member, MemberValue};
use ptpm_site::judging::expected::Wanted;
use ptpm_site::judging::finding::Added;
use ptpm_site::judging::leaders::leaders_of;
use ptpm_site::reading::domain::Domain;
use ptpm_site::reading::site::Site;
use ptpm_site::reading::source::Source;
use std::alloc::{AllocError, Global};
use std::collections::BTreeSet;
use std::str;

/// The members of a clock that are written.
const CLOCK_MEMBERS: [Member; 7] = [
    DataSet(Priority1),
    Member::ClockQuality,
    DataSet(Priority2),
    Member::SlaveOnly,
    Member::NumberPorts,
    DataSet(UserDescription),
    DataSet(ParentPort),
];

/// The inventory of a site: of each domain who leads, that no other clock is there, and its clocks. A clock that is
/// not seen, and announces or gave answers that were not taken, is optional. By this inventory nothing is found of the site.
pub fn inventory_of(alloc: Global, site: &Site) -> Result<Inventory, AllocError> {
    let sources = site.sources(alloc)?;
    let unseen = unseen_clocks(alloc, site)?;
    let leaders = leaders_of(alloc, site)?;
    let mut entries = Vec::new(alloc);
    for domain in domains_of(alloc, sources.as_slice())? {
        let leading = leading_in(alloc, domain, leaders.as_slice())?;
        add_leaders(alloc, domain, leading, &mut entries)?;
        let rule = Rule::Only;
        entries.push(Entry { domain, rule })?;
        add_excused(domain, unseen.as_slice(), &mut entries)?;
        add_clocks(alloc, site, domain, sources.as_slice(), &mut entries)?;
    }
    Ok(Inventory { entries })
}

/// The domains of these clocks, ascending.
fn domains_of(alloc: Global, sources: &[Source]) -> Result<Vec<Domain>, AllocError> {
    let mut set = BTreeSet::new(alloc);
    for source in sources {
        set.insert(source.domain)?;
    }
    set.iter().copied().collect(alloc)
}

/// Adds who leads, if anyone does.
fn add_leaders(
    alloc: Global,
    domain: Domain,
    leading: Vec<ClockIdentity>,
    entries: &mut Vec<Entry>,
) -> Added {
    if leading.is_empty() {
        return Ok(());
    }
    let mut choices = Vec::new(alloc);
    choices.push(leading)?;
    let rule = Rule::Leaders(choices);
    entries.push(Entry { domain, rule })?;
    Ok(())
}

/// Adds those of these clocks that are of a domain, as optional.
fn add_excused(domain: Domain, clocks: &[Source], entries: &mut Vec<Entry>) -> Added {
    for source in clocks {
        if source.domain == domain {
            let rule = Rule::Clock(source.clock, Presence::Optional);
            entries.push(Entry { domain, rule })?;
        }
    }
    Ok(())
}

/// Adds the clocks of a domain that are seen, with their members and those of their ports, as far as they were answered.
fn add_clocks(
    alloc: Global,
    site: &Site,
    domain: Domain,
    sources: &[Source],
    entries: &mut Vec<Entry>,
) -> Added {
    for source in sources {
        if source.domain == domain {
            let rule = Rule::Clock(source.clock, Presence::Wanted);
            entries.push(Entry { domain, rule })?;
            add_members(alloc, site, *source, None, &CLOCK_MEMBERS, entries)?;
            for port in site.ports(alloc, *source)? {
                add_members(alloc, site, *source, Some(port), &PORT_MEMBERS, entries)?;
            }
        }
    }
    Ok(())
}

/// Adds those of these members that were answered, each with its value.
fn add_members(
    alloc: Global,
    site: &Site,
    source: Source,
    port: Option<u16>,
    members: &[Member],
    entries: &mut Vec<Entry>,
) -> Added {
    for member in members {
        let Some(value) = rule_value(site, source, port, *member) else {
            continue;
        };
        let Some(value) = wanted_of(alloc, value)? else {
            continue;
        };
        let mut wanted = Vec::new(alloc);
        wanted.push(value)?;
        let rule = MemberRule {
            port,
            member: *member,
            wanted,
        };
        entries.push(Entry {
            domain: source.domain,
            rule: Rule::Member(source.clock, rule),
        })?;
    }
    Ok(())
}

/// What wants a value as it is; of a clockQuality the class. None wants octets or a list: no member above has such a value.
fn wanted_of(alloc: Global, value: MemberValue<'_>) -> Result<Option<Wanted>, AllocError> {
    let wanted = match value {
        MemberValue::Unsigned(number) => Wanted::Value(MemberValue::Unsigned(number)),
        MemberValue::Signed(number) => Wanted::Value(MemberValue::Signed(number)),
        MemberValue::Flag(flag) => Wanted::Value(MemberValue::Flag(flag)),
        MemberValue::Interval(number) => Wanted::Value(MemberValue::Interval(number)),
        MemberValue::Clock(clock) => Wanted::Value(MemberValue::Clock(clock)),
        MemberValue::Port(port) => Wanted::Value(MemberValue::Port(port)),
        MemberValue::Named(enumeration, number) => {
            Wanted::Value(MemberValue::Named(enumeration, number))
        }
        MemberValue::Quality(quality) => Wanted::Class(quality.class),
        MemberValue::Text(octets) => match str::from_utf8(octets) {
            Ok(text) => Wanted::Text(String::from_str(alloc, text)?),
            Err(_) => return Ok(None),
        },
        MemberValue::Octets(_) | MemberValue::Clocks(_) => return Ok(None),
    };
    Ok(Some(wanted))
}
