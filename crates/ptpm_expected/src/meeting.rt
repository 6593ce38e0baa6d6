//! Whether the members of a clock are as an inventory wants them.

use crate::inventory::MemberRule;
use crate::numbers::is_between;
use ptpm_members::{Member, MemberValue};
use ptpm_site::judging::expected::{Unmet, Wanted};
use ptpm_site::reading::asked::{Asked, OF_CLOCK};
use ptpm_site::reading::clock::Received;
use ptpm_site::reading::member::value_of;
use ptpm_site::reading::site::Site;
use ptpm_site::reading::source::Source;

/// Whether a value is one that is wanted.
pub fn meets(wanted: &Wanted, value: &MemberValue<'_>) -> bool {
    match (wanted, value) {
        (Wanted::Value(wanted), _) => wanted == value,
        (Wanted::Range(least, greatest), _) => is_between(*least, *greatest, value),
        (Wanted::Class(class), MemberValue::Quality(quality)) => *class == quality.class,
        (Wanted::Reserved, _) => has_no_name(value),
        (Wanted::Text(wanted), MemberValue::Text(text)) => wanted.as_bytes() == *text,
        _ => false,
    }
}

/// Whether a value is a number that a name could have, and none has.
fn has_no_name(value: &MemberValue<'_>) -> bool {
    match value {
        MemberValue::Named(enumeration, number) => enumeration.name_of(*number).is_none(),
        _ => false,
    }
}

/// What the last of the answers to an id says of a member.
fn last_value(asked: Asked, received: &[Received], member: Member) -> Option<MemberValue<'_>> {
    value_of(asked, received.last()?.octets.as_slice(), member)
}

/// What a clock says of a member of its own, by the first id that has it.
fn clock_value(site: &Site, source: Source, member: Member) -> Option<MemberValue<'_>> {
    for asked in &OF_CLOCK {
        let value = last_value(*asked, site.answers(source, *asked), member);
        if value.is_some() {
            return value;
        }
    }
    None
}

/// What a clock says of a member, its own or that of a port.
pub fn rule_value(
    site: &Site,
    source: Source,
    port: Option<u16>,
    member: Member,
) -> Option<MemberValue<'_>> {
    match port {
        Some(port) => last_value(Asked::PortDataSet, site.port_answers(source, port), member),
        None => clock_value(site, source, member),
    }
}

/// Whether a member is as it is wanted.
pub fn is_as_wanted(site: &Site, source: Source, rule: &MemberRule) -> bool {
    match rule_value(site, source, rule.port, rule.member) {
        Some(value) => rule.wanted.iter().any(|wanted| meets(wanted, &value)),
        None => false,
    }
}

/// A member that is not as it is wanted.
pub fn unmet<'a>(site: &'a Site, source: Source, rule: &'a MemberRule) -> Option<Unmet<'a>> {
    if is_as_wanted(site, source, rule) {
        return None;
    }
    Some(Unmet {
        port: rule.port,
        member: rule.member,
        value: rule_value(site, source, rule.port, rule.member),
        wanted: rule.wanted.as_slice(),
    })
}
