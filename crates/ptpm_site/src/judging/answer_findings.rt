//! What a clock did not answer, and what differs between its answers.

use crate::judging::completeness::missing_answers;
use crate::judging::evidence::Evidence;
use crate::judging::finding::{Added, Finding, What, add_finding};
use crate::judging::reach::{Reach, out_of_reach};
use crate::judging::twice::{OtherMember, Twice};
use crate::judging::two_addresses::{Twins, twins_of};
use crate::judging::two_offsets::two_offsets;
use crate::looks::changes::{Contradiction, first_change, first_contradiction, is_said_otherwise};
use crate::looks::grandmaster_changes::GrandmasterChange;
use crate::reading::asked::{Asked, by_number, six};
use crate::reading::clock::Received;
use crate::reading::member::{is_moving, is_of_grandmaster, members_of};
use crate::reading::site::Site;
use crate::reading::source::Source;
use ptpm_members::{Enumeration, Member, MemberValue};
use std::alloc::{AllocError, Global};

/// `incomplete`, `out_of_reach`, `grandmaster_changed`, `changed` and `identity_twice`. `ports` are the clock's ports that answered, and
/// `changes` all changes of a grandmaster, and `twins` all answers from two addresses.
pub fn judge_answers<'a>(
    alloc: Global,
    site: &'a Site,
    evidence: &Evidence,
    reach: &Reach,
    changes: &[GrandmasterChange],
    twins: &[Twins],
    source: Source,
    ports: &[u16],
    findings: &mut Vec<Finding<'a>>,
) -> Added {
    if let Some(missing) = missing_answers(alloc, site, evidence, source, ports)? {
        add_finding(findings, source, What::Incomplete(missing))?;
    }
    if let Some(hops) = out_of_reach(site, reach, source) {
        add_finding(findings, source, What::OutOfReach(hops))?;
    }
    judge_changes(changes, source, findings)?;
    judge_changed(alloc, site, source, ports, findings)?;
    judge_twice(alloc, site, twins, source, ports, findings)
}

/// `grandmaster_changed`: those of these changes that are shown at a clock.
pub fn judge_changes(
    changes: &[GrandmasterChange],
    source: Source,
    findings: &mut Vec<Finding<'_>>,
) -> Added {
    for change in changes {
        if change.source == source {
            add_finding(findings, source, What::GrandmasterChanged(*change))?;
        }
    }
    Ok(())
}

/// `changed`.
fn judge_changed<'a>(
    alloc: Global,
    site: &'a Site,
    source: Source,
    ports: &[u16],
    findings: &mut Vec<Finding<'a>>,
) -> Added {
    let changed = other_members(alloc, site, source, ports, Contradiction::Changed)?;
    for other in changed {
        add_finding(findings, source, What::Changed(other.port, other.change))?;
    }
    Ok(())
}

/// `identity_twice`.
pub fn judge_twice<'a>(
    alloc: Global,
    site: &'a Site,
    twins: &[Twins],
    source: Source,
    ports: &[u16],
    findings: &mut Vec<Finding<'a>>,
) -> Added {
    let mut members = other_members(alloc, site, source, ports, Contradiction::IdentityTwice)?;
    if members.iter().all(|other| is_of_state(other)) {
        members.clear();
    }
    let twice = Twice {
        addresses: twins_of(twins, source).map(|twins| site.words.two_addresses(twins)),
        offsets: two_offsets(site.answers(source, Asked::CurrentDataSet)),
        members,
    };
    if twice.addresses.is_some() || twice.offsets.is_some() || !twice.members.is_empty() {
        add_finding(findings, source, What::IdentityTwice(twice))?;
    }
    Ok(())
}

/// Whether it is portState. States of ports may differ by themselves while they change: these alone are no finding.
fn is_of_state(other: &OtherMember<'_>) -> bool {
    matches!(
        other.change.before,
        MemberValue::Named(Enumeration::PortState, _)
    )
}

/// Which answers are compared, and how.
#[derive(Clone, Copy)]
struct Compared {
    /// The port whose answers they are.
    port: Option<u16>,
    /// The id that they answer.
    asked: Asked,
    how: Contradiction,
    /// Whether the clock is its own grandmaster.
    is_own: bool,
}

/// The members in which answers of a clock differ. `ports` are the clock's ports that answered.
fn other_members<'a>(
    alloc: Global,
    site: &'a Site,
    source: Source,
    ports: &[u16],
    how: Contradiction,
) -> Result<Vec<OtherMember<'a>>, AllocError> {
    let is_own = site.is_own_grandmaster(source);
    let mut found = Vec::new(alloc);
    let ids = match how {
        Contradiction::Changed => six(),
        Contradiction::IdentityTwice => by_number(),
    };
    for asked in ids {
        let mut compared = Compared {
            port: None,
            asked,
            how,
            is_own,
        };
        if matches!(asked, Asked::PortDataSet) {
            for port in ports {
                compared.port = Some(*port);
                compare_set(
                    alloc,
                    compared,
                    site.port_answers(source, *port),
                    &mut found,
                )?;
            }
        } else {
            compare_set(alloc, compared, site.answers(source, asked), &mut found)?;
        }
    }
    Ok(found)
}

/// The members of a data set in which two of these answers differ. A member is passed over if its value moves though nothing was
/// changed. Of a clock that is its own grandmaster, so is what it says of that one: it is what the clock says of itself.
fn compare_set<'a>(
    alloc: Global,
    compared: Compared,
    received: &'a [Received],
    found: &mut Vec<OtherMember<'a>>,
) -> Added {
    for member in members_of(compared.asked) {
        let is_passed_over = is_moving(*member) || compared.is_own && is_of_grandmaster(*member);
        if !is_passed_over && is_said_otherwise(compared.asked, received, *member) {
            compare_member(alloc, compared, received, *member, found)?;
        }
    }
    Ok(())
}

/// The first two answers that differ in a member.
fn compare_member<'a>(
    alloc: Global,
    compared: Compared,
    received: &'a [Received],
    member: Member,
    found: &mut Vec<OtherMember<'a>>,
) -> Added {
    let asked = compared.asked;
    let change = match compared.how {
        Contradiction::Changed => first_change(asked, received, member),
        Contradiction::IdentityTwice => first_contradiction(alloc, asked, received, member)?,
    };
    if let Some(change) = change {
        let port = compared.port;
        found.push(OtherMember { port, change })?;
    }
    Ok(())
}
