//! From which finding each finding of a site follows.

ghost use Rattle.std.specs.Prelude.{◌≡◌, ℕ, ◌<◌, IfOk, IfSome, length};
ghost use Rattle.std.specs.List.{All};
ghost use Rattle.ptpm_causes.specs.Roots.{IsRoot};

use crate::cause::{Cause, named};
use crate::chains::Chains;
use crate::found::Found;
use ptpm_site::judging::finding::Finding;
use ptpm_site::picture::Picture;
use std::alloc::{AllocError, Global};

/// Of each finding, in their order, from which it follows. That one follows from nothing.
pub fn causes_of(alloc: Global, picture: &Picture<'_>) -> Result<Vec<Option<Cause>>, AllocError>
    ensures len { IfOk result (λ causes. length causes.items ≡ length picture.now.findings.items) }
    ensures printed { IfOk result (λ causes. 0 < length picture.now.findings.items → (place : ℕ) × IsRoot causes.items place) }
{
    let (site, findings) = (picture.site, picture.findings.as_slice());
    let found = Found::of(alloc, site, findings)?;
    let chains = Chains::of(alloc, site, &found, findings)?;
    let places = chains.places(alloc)?;
    names_at(alloc, findings, places.as_slice())
}

/// The names of the findings at these places.
fn names_at(
    alloc: Global,
    findings: &[Finding<'_>],
    places: &[Option<usize>],
) -> Result<Vec<Option<Cause>>, AllocError>
    requires { All (λ place. IfSome place (λ p. p < length findings.now)) places.now }
    ensures len { IfOk result (λ causes. length causes.items ≡ length places.now) }
    ensures roots { IfOk result (λ causes. (p : ℕ) → IsRoot places.now p → IsRoot causes.items p) }
{
    let mut causes = Vec::new(alloc);
    for place in places {
        let cause = match place {
            Some(place) => Some(named(&findings[*place])),
            None => None,
        };
        causes.push(cause)?;
    }
    Ok(causes)
}
