//! Findings for the members in which two clocks differ.

use crate::judging::differences::Differs;
use crate::judging::finding::{Added, Finding, What, add_finding};
use crate::reading::source::Source;

/// What a clock is compared with.
#[derive(Clone, Copy)]
pub enum Compared {
    /// Its grandmaster, or the clock that it follows: what both say of the grandmaster.
    Grandmaster,
    /// Its grandmaster: what both say of UTC.
    Time,
}

impl Compared {
    /// What is wrong if the two differ in a member.
    fn what<'a>(self, differs: Differs) -> What<'a> {
        match self {
            Compared::Grandmaster => What::GrandmasterDiffers(differs),
            Compared::Time => What::Utc(differs),
        }
    }
}

/// Adds a finding for each member in which the two differ, after all earlier findings.
pub fn add_differences(
    findings: &mut Vec<Finding<'_>>,
    source: Source,
    compared: Compared,
    members: &[Option<Differs>],
) -> Added {
    for differs in members {
        if let Some(differs) = *differs {
            add_finding(findings, source, compared.what(differs))?;
        }
    }
    Ok(())
}
