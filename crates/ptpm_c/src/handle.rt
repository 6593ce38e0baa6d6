//! What a host in C keeps of a clock, a session, a survey or an asker.

ghost use Rattle.std.specs.Prelude.{◌≡◌, MatchOption, MatchResult, false, is_some};
ghost use Rattle.ptpm_c.specs.declared.kept.Hosted.TheVariants.{Nothing};

use crate::keeping::Keeping;
use crate::kept::{Hosted, Kept};
use std::alloc::{AllocError, Global};
use std::mem;

/// `struct ptpm_clock { void *at; bool live; bool restored; }`, and the same of a session, a survey and an asker: if it is all zeros
/// it holds nothing.
#[repr(C)]
#[derive(Drop)]
pub struct Handle {
    keeping: Keeping,
    live: bool,
    /// Whether it holds a clock that was restored, and no call has changed that since.
    pub restored: bool,
    ghost tied: { live ≡ is_some keeping.kept },
}

impl Handle {
    ghost use Rattle.std.specs.Borrow.{sem};
    ghost use Rattle.ptpm_c.specs.Held.{held};
    ghost use Rattle.ptpm_c.specs.LendingHandle.{LendsHeld};

    /// What it holds, in place.
    pub fn hosted(&mut self) -> Option<&mut Hosted>
        ensures* writes_back { sem 𝓛 (LendsHeld self.entry result) }
        ensures value { MatchOption result (held self.old.keeping ≡ Nothing)
            (λ hosted. held self.old.keeping ≡ hosted.now) }
    {
        if !self.live {
            return None;
        }
        Some(self.keeping.as_hosted())
    }

    /// Holds this, in place of what it holds. If there is no memory for it, this ends, and it holds what it held.
    pub fn put(&mut self, alloc: Global, hosted: Hosted) -> Result<(), AllocError>
        ensures { MatchResult result
            (λ _. (held self.new.keeping ≡ hosted) × (self.new.restored ≡ false))
            (λ _. (held self.new.keeping ≡ held self.old.keeping) × (self.new.restored ≡ self.old.restored)) }
    {
        match Box::new(alloc, Kept::of(hosted)) {
            Ok(kept) => {
                self.end(alloc);
                *self = Handle {
                    keeping: Keeping::of_box(kept),
                    live: true,
                    restored: false,
                };
                Ok(())
            }
            Err(refused) => {
                drop(refused.value.into_hosted());
                Err(AllocError)
            }
        }
    }

    /// Ends what it holds.
    pub fn end(&mut self, alloc: Global)
        ensures holds { held self.new.keeping ≡ Nothing }
        ensures restored { self.new.restored ≡ false }
    {
        let nothing = Handle {
            keeping: Keeping::nothing(),
            live: false,
            restored: false,
        };
        let Handle { keeping, live, .. } = mem::replace(self, nothing);
        if live {
            drop(Box::into_inner(keeping.into_box(alloc)).into_hosted());
        }
    }
}

/// Takes what a handle holds, in place, by this pattern. If it holds no such thing, the call answers this number.
macro_rules! held {
    ($handle:ident, $held:pat, $none:expr) => {
        let Some(hosted) = $handle.hosted() else {
            return $none;
        };
        let $held = hosted else {
            return $none;
        };
    };
}

pub(crate) use held;
