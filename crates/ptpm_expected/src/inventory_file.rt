//! The file of an inventory: a line `DOMAIN CLOCK MEMBER VALUE` each.

use crate::inventory::{Entry, Inventory, MemberRule, Presence, Rule};
use crate::inventory_fault::{InventoryFault, LineFault, ReadFault};
use crate::members::{clock_member, port_member};
use crate::wanted_values::wanted_values;
use crate::words::{first_choice, first_word, without_note};
use ptpm_codec::ClockIdentity;
use ptpm_members::{Member, clock_identity_of};
use ptpm_site::reading::domain::Domain;
use std::alloc::Global;
use std::str;
use std::str::FromStr;

/// How many octets a file may have.
const MOST_OCTETS: usize = 16_777_216;

/// The inventory of a file, or why it is none. The first line that is bad is named.
pub fn read_inventory(alloc: Global, text: &[u8]) -> Result<Inventory, InventoryFault> {
    if MOST_OCTETS < text.len() {
        return Err(InventoryFault::TooLong);
    }
    let mut entries = Vec::new(alloc);
    let mut number = 0usize;
    for line in text.split(|octet| *octet == b'\n') {
        number = number.saturating_add(1);
        match entry_of(alloc, line) {
            Ok(Some(entry)) => entries.push(entry)?,
            Ok(None) => {}
            Err(ReadFault::OutOfMemory) => return Err(InventoryFault::OutOfMemory),
            Err(ReadFault::Bad(fault)) => return Err(InventoryFault::At(number, fault)),
        }
    }
    if entries.is_empty() {
        return Err(InventoryFault::NoLine);
    }
    Ok(Inventory { entries })
}

/// What a line says. `None` if it has nothing but a note.
fn entry_of(alloc: Global, line: &[u8]) -> Result<Option<Entry>, ReadFault> {
    let Ok(line) = str::from_utf8(line) else {
        return Err(ReadFault::Bad(LineFault::NotText));
    };
    let line = without_note(line).trim();
    if line.is_empty() {
        return Ok(None);
    }
    let (domain, rest) = first_word(line);
    let domain = domain_of(domain)?;
    let (clock, rest) = first_word(rest);
    let (member, value) = first_word(rest);
    let rule = rule_of(alloc, clock, member, value)?;
    Ok(Some(Entry { domain, rule }))
}

/// A domainNumber, and @ with an sdoId, unless that is 0.
fn domain_of(word: &str) -> Result<Domain, LineFault> {
    let (number, sdo) = match word.split_once('@') {
        Some((number, sdo)) => (number, sdo_of(sdo)?),
        None => (word, 0),
    };
    match u8::from_str(number) {
        Ok(number) => Ok(Domain::of(number, sdo)),
        Err(_) => Err(LineFault::NoDomain),
    }
}

/// An sdoId: 0x, and one to three hexadecimal digits.
fn sdo_of(word: &str) -> Result<u16, LineFault> {
    let digits = word.strip_prefix("0x").ok_or(LineFault::NoSdo)?;
    match u16::from_str_radix(digits, 16) {
        Ok(sdo) if sdo <= 0xfff => Ok(sdo),
        _ => Err(LineFault::NoSdo),
    }
}

fn rule_of(alloc: Global, clock: &str, member: &str, value: &str) -> Result<Rule, ReadFault> {
    match clock {
        "-" => domain_rule(alloc, member, value),
        "*" => match member {
            "clock" | "optional" | "mute" => Err(ReadFault::Bad(LineFault::NotOfEach)),
            _ => Ok(Rule::EachMember(member_rule(alloc, member, value)?)),
        },
        _ => match clock_identity_of(clock) {
            Some(clock) => clock_rule(alloc, clock, member, value),
            None => Err(ReadFault::Bad(LineFault::NoClock)),
        },
    }
}

/// What is said of a domain.
fn domain_rule(alloc: Global, member: &str, value: &str) -> Result<Rule, ReadFault> {
    match member {
        "grandmaster" => Ok(Rule::Leaders(leaders(alloc, value)?)),
        "only" => {
            ends(value)?;
            Ok(Rule::Only)
        }
        _ => Err(ReadFault::Bad(LineFault::NotOfDomain)),
    }
}

/// What is said of a clock.
fn clock_rule(
    alloc: Global,
    clock: ClockIdentity,
    member: &str,
    value: &str,
) -> Result<Rule, ReadFault> {
    let presence = match member {
        "clock" => Presence::Wanted,
        "optional" => Presence::Optional,
        "mute" => Presence::Mute,
        _ => return Ok(Rule::Member(clock, member_rule(alloc, member, value)?)),
    };
    ends(value)?;
    Ok(Rule::Clock(clock, presence))
}

/// That a line has no more words.
fn ends(rest: &str) -> Result<(), LineFault> {
    if rest.is_empty() {
        Ok(())
    } else {
        Err(LineFault::MoreWords)
    }
}

/// What a member may be.
fn member_rule(alloc: Global, name: &str, value: &str) -> Result<MemberRule, ReadFault> {
    let (port, member) = member_of(name)?;
    match wanted_values(alloc, member, value)? {
        Some(wanted) => Ok(MemberRule {
            port,
            member,
            wanted,
        }),
        None => Err(ReadFault::Bad(LineFault::NoValue)),
    }
}

/// The member of a name, with its port after `port/`.
fn member_of(name: &str) -> Result<(Option<u16>, Member), LineFault> {
    match name.strip_prefix("port/") {
        Some(name) => {
            let (port, name) = name.split_once('.').ok_or(LineFault::NoPort)?;
            let port = u16::from_str(port).map_err(|_| LineFault::NoPort)?;
            match port_member(name) {
                Some(member) => Ok((Some(port), member)),
                None if clock_member(name).is_some() => Err(LineFault::OfClock),
                None => Err(LineFault::NoMember),
            }
        }
        None => match clock_member(name) {
            Some(member) => Ok((None, member)),
            None if port_member(name).is_some() => Err(LineFault::OfPort),
            None => Err(LineFault::NoMember),
        },
    }
}

/// The clocks that may lead: those of each choice, with `|` between them.
fn leaders(alloc: Global, text: &str) -> Result<Vec<Vec<ClockIdentity>>, ReadFault> {
    let mut all = Vec::new(alloc);
    let mut rest = Some(text);
    for _ in 0..u64::MAX {
        let Some(choices) = rest else {
            break;
        };
        let (choice, others) = first_choice(choices);
        all.push(identities(alloc, choice)?)?;
        rest = others;
    }
    Ok(all)
}

/// One identity or more, with spaces between them.
fn identities(alloc: Global, text: &str) -> Result<Vec<ClockIdentity>, ReadFault> {
    let mut clocks = Vec::new(alloc);
    for word in text.split_whitespace() {
        match clock_identity_of(word) {
            Some(clock) => clocks.push(clock)?,
            None => return Err(ReadFault::Bad(LineFault::NoValue)),
        }
    }
    if clocks.is_empty() {
        return Err(ReadFault::Bad(LineFault::NoValue));
    }
    clocks.sort()?;
    Ok(clocks)
}
