//! The findings of a site that is held to a profile.

use crate::judging_profile::judge_profile;
use crate::order::put_in_order;
use crate::profile::Profile;
use ptpm_site::judging::evidence::Evidence;
use ptpm_site::judging::finding::{Finding, What};
use ptpm_site::judging::leaders::leaders_of;
use ptpm_site::judging::leading::Degradation;
use ptpm_site::reading::site::Site;
use ptpm_site::reading::source::Source;
use std::alloc::{AllocError, Global};

/// Whether a profile leaves a finding as it is. Under AES67 a clock without a source of time may lead.
fn is_shown(profile: Profile, what: &What<'_>) -> bool {
    match (profile, what) {
        (Profile::Aes67, What::Degraded(degraded)) => {
            !matches!(degraded.degradation, Degradation::FreeRunning)
        }
        _ => true,
    }
}

/// Adds what a profile does not allow to the findings of a site, and takes away what it allows. `sources` has all clocks
/// that are seen.
pub fn hold_to_profile(
    alloc: Global,
    site: &Site,
    sources: &[Source],
    profile: Profile,
    findings: &mut Vec<Finding<'_>>,
) -> Result<(), AllocError> {
    findings.retain(|finding| is_shown(profile, &finding.what));
    let evidence = Evidence::of(alloc, site.all_heard())?;
    let leaders = leaders_of(alloc, site)?;
    judge_profile(
        alloc,
        site,
        &evidence,
        profile,
        sources,
        leaders.as_slice(),
        findings,
    )?;
    put_in_order(findings)
}
