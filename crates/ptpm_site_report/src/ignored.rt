//! Findings that an operator does not want to see.

ghost use Rattle.std.specs.Prelude.{◌≡◌};
ghost use Rattle.ptpm_site_report.specs.Reporting.{is_ignored, wanted};

use ptpm_causes::{Kind, named};
use ptpm_site::judging::finding::Finding;
use std::alloc::{AllocError, Global};

/// The names of findings that are left out.
#[derive(Drop)]
pub struct Ignored {
    kinds: Vec<Kind>,
}

impl Ignored {
    /// None is left out.
    pub fn none(alloc: Global) -> Ignored {
        Ignored {
            kinds: Vec::new(alloc),
        }
    }

    /// Leaves out the findings of these names, which have commas between them: `leap,mute`. False if one is no name of a finding.
    pub fn add(&mut self, names: &str) -> Result<bool, AllocError> {
        for name in names.split(',') {
            match Kind::named(name) {
                Some(kind) => self.kinds.push(kind)?,
                None => return Ok(false),
            }
        }
        Ok(true)
    }

    /// Takes the findings of these names away.
    pub(crate) fn leave_out(&self, findings: &mut Vec<Finding<'_>>)
        ensures { findings.new.items ≡ wanted self.now findings.old.items }
    {
        findings.retain(|finding| !self.has(finding));
    }

    fn has(&self, finding: &Finding<'_>) -> bool
        ensures { result ≡ is_ignored self.now finding.now }
    {
        self.kinds.contains(&named(finding).kind)
    }
}
