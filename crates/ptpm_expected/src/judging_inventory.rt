//! How a site is not as an inventory wants it.

use crate::inventory::{Entry, MemberRule, Rule};
use crate::meeting::unmet;
use ptpm_codec::ClockIdentity;
use ptpm_site::judging::expected::OtherLeaders;
use ptpm_site::judging::finding::{Added, Finding, What, add_finding};
use ptpm_site::judging::leaders::Leader;
use ptpm_site::reading::domain::Domain;
use ptpm_site::reading::site::Site;
use ptpm_site::reading::source::Source;
use std::alloc::{AllocError, Global};

/// Adds what is not as the entries of an inventory want it, one entry after another. `sources` has all clocks, and `leaders` all
/// grandmasters that lead.
pub(crate) fn judge_entries<'a>(
    alloc: Global,
    site: &'a Site,
    entries: &'a [Entry],
    sources: &[Source],
    leaders: &[Leader],
    findings: &mut Vec<Finding<'a>>,
) -> Added {
    for entry in entries {
        let domain = entry.domain;
        match &entry.rule {
            Rule::Leaders(wanted) => {
                let leading = leading_in(alloc, domain, leaders)?;
                judge_leaders(domain, wanted.as_slice(), leading, findings)?;
            }
            Rule::Only | Rule::Clock(..) => {}
            Rule::Member(clock, rule) => {
                let clock = *clock;
                judge_member(site, Source { domain, clock }, rule, findings)?;
            }
            Rule::EachMember(rule) => {
                for source in sources {
                    if source.domain == domain {
                        judge_member(site, *source, rule, findings)?;
                    }
                }
            }
        }
    }
    Ok(())
}

/// A member of a clock. One that is absent has no other finding.
fn judge_member<'a>(
    site: &'a Site,
    source: Source,
    rule: &'a MemberRule,
    findings: &mut Vec<Finding<'a>>,
) -> Added {
    if !site.is_seen(source) {
        return Ok(());
    }
    match unmet(site, source, rule) {
        Some(unmet) => add_finding(findings, source, What::NotAsExpected(unmet)),
        None => Ok(()),
    }
}

/// The clocks of a domain that lead, if they are none of the lists that are wanted. The finding is that of the first of them, or of
/// an identity of zeros.
fn judge_leaders<'a>(
    domain: Domain,
    wanted: &'a [Vec<ClockIdentity>],
    leading: Vec<ClockIdentity>,
    findings: &mut Vec<Finding<'a>>,
) -> Added {
    if wanted
        .iter()
        .any(|clocks| clocks.as_slice() == leading.as_slice())
    {
        return Ok(());
    }
    let clock = leading.first().copied().unwrap_or(ClockIdentity([0; 8]));
    let other = What::OtherLeaders(OtherLeaders { leading, wanted });
    add_finding(findings, Source { domain, clock }, other)
}

/// Those of these grandmasters that lead a domain.
pub(crate) fn leading_in(
    alloc: Global,
    domain: Domain,
    leaders: &[Leader],
) -> Result<Vec<ClockIdentity>, AllocError> {
    let mut leading = Vec::new(alloc);
    for leader in leaders {
        if leader.source.domain == domain {
            leading.push(leader.source.clock)?;
        }
    }
    Ok(leading)
}
