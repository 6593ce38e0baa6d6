//! The last cause of a chain of causes.

ghost use Rattle.std.specs.Prelude.{◌≡◌, IfOk, IfSome, length};
ghost use Rattle.std.specs.BTreeMap.{values};
ghost use Rattle.std.specs.List.{All};
ghost use Rattle.ptpm_causes.specs.Roots.{IsRoot};

use crate::cause::{Cause, Key, cause_in};
use crate::found::Found;
use crate::kind::Kind;
use ptpm_site::judging::finding::Finding;
use ptpm_site::reading::site::Site;
use std::alloc::{AllocError, Global};
use std::collections::BTreeMap;

/// From which finding each finding follows at once, by its place and by its name.
#[derive(Drop)]
pub(crate) struct Chains {
    reasons: Vec<Option<Cause>>,
    /// The place of a finding that follows from nothing, for each name that has one.
    roots: BTreeMap<Key, usize>,
    /// From what the first other finding of each name follows.
    onward: BTreeMap<Key, Cause>,
    ghost are_roots: { All (IsRoot reasons.items) (values roots) },
}

impl Chains {
    pub(crate) fn of(
        alloc: Global,
        site: &Site,
        found: &Found,
        findings: &[Finding<'_>],
    ) -> Result<Chains, AllocError>
        ensures { IfOk result (λ chains. length chains.reasons.items ≡ length findings.now) }
    {
        let mut reasons = Vec::new(alloc);
        let mut roots = BTreeMap::new(alloc);
        let mut onward = BTreeMap::new(alloc);
        for (place, finding) in findings.iter().enumerate() {
            let reason = found.reason(site, finding);
            reasons.push(reason)?;
            let Some(name) = cause_in(site, finding) else {
                continue;
            };
            match reason {
                Some(cause) => {
                    onward.entry(name.key())?.or_insert(cause);
                }
                None => {
                    roots.insert(name.key(), place)?;
                }
            }
        }
        Ok(Chains {
            reasons,
            roots,
            onward,
        })
    }

    /// For each finding the place of the last of its chain of causes, which follows from nothing.
    pub(crate) fn places(&self, alloc: Global) -> Result<Vec<Option<usize>>, AllocError>
        ensures len { IfOk result (λ places. length places.items ≡ length self.now.reasons.items) }
        ensures printed { IfOk result (λ places. All (λ place. IfSome place (IsRoot places.items)) places.items) }
    {
        let mut places = Vec::new(alloc);
        for reason in self.reasons.as_slice() {
            let place = match reason {
                Some(cause) => self.root_of(*cause),
                None => None,
            };
            places.push(place)?;
        }
        Ok(places)
    }

    /// The place of the last of the chain that begins with a cause. Names follow from earlier names, so no chain is longer than their
    /// list.
    fn root_of(&self, cause: Cause) -> Option<usize>
        ensures { IfSome result (IsRoot self.now.reasons.items) }
    {
        let mut here = cause;
        for _ in Kind::ALL {
            if let Some(place) = self.roots.get(&here.key()) {
                return Some(*place);
            }
            here = *self.onward.get(&here.key())?;
        }
        None
    }
}
