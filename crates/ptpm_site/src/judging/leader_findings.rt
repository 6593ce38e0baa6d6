//! What is wrong with the time of a clock that leads.

use crate::judging::finding::{Added, Finding, What, add_finding};
use crate::judging::leaders::Leader;
use crate::judging::leading::{
    announced_leap, better_clock, doubtful_source, false_leap, invalid_offset, not_traceable,
    without_source, wrong_offset,
};
use crate::judging::limits::Limits;
use crate::reading::data_sets::TimePropertiesDataSet;
use crate::reading::site::Site;
use crate::reading::source::Source;
use ptpm_members::ClockQuality;

/// `gm_doubtful`, `gm_holdover`, `gm_degraded`, `gm_free_running`, `not_traceable`, `utc_invalid`, `utc_offset`, `leap_false`, `leap`,
/// `better_clock`: all of a clock that leads. `others` has all clocks that stand by.
pub fn judge_leader(
    site: &Site,
    source: Source,
    leader: Option<Leader>,
    others: &[Source],
    limits: Limits,
    today: Option<u64>,
    findings: &mut Vec<Finding<'_>>,
) -> Added {
    let Some(leader) = leader else {
        return Ok(());
    };
    let quality = leader.quality();
    if let Some(degraded) = quality.and_then(|quality| without_source(quality)) {
        add_finding(findings, source, What::Degraded(degraded))?;
    }
    if let Some(time) = &leader.time {
        judge_properties(source, quality, time, limits, findings)?;
        judge_leap(source, time, today, findings)?;
    }
    if let Some(better) = quality.and_then(|quality| better_clock(site, source, quality, others)) {
        add_finding(findings, source, What::BetterClock(better))?;
    }
    Ok(())
}

/// `gm_doubtful`, `not_traceable`, `utc_invalid` and `utc_offset`.
fn judge_properties(
    source: Source,
    quality: Option<ClockQuality>,
    time: &TimePropertiesDataSet,
    limits: Limits,
    findings: &mut Vec<Finding<'_>>,
) -> Added {
    if let Some(doubtful) = quality.and_then(|quality| doubtful_source(quality, time)) {
        add_finding(findings, source, What::GrandmasterDoubtful(doubtful))?;
    }
    if let Some(untraceable) = quality.and_then(|quality| not_traceable(quality, time)) {
        add_finding(findings, source, What::NotTraceable(untraceable))?;
    }
    if let Some(offset) = invalid_offset(time) {
        add_finding(findings, source, What::UtcInvalid(offset))?;
    }
    if let Some(offset) = wrong_offset(limits.tai_utc, time) {
        add_finding(findings, source, What::UtcOffset(offset))?;
    }
    Ok(())
}

/// `leap_false` and `leap`.
fn judge_leap(
    source: Source,
    time: &TimePropertiesDataSet,
    today: Option<u64>,
    findings: &mut Vec<Finding<'_>>,
) -> Added {
    if let Some(leap) = false_leap(time, today) {
        add_finding(findings, source, What::LeapFalse(leap))?;
    }
    if let Some(leap) = announced_leap(time, today) {
        add_finding(findings, source, What::Leap(leap))?;
    }
    Ok(())
}
