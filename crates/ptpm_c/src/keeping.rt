//! A box that a pointer of a host points to. All that is unsafe is here.

ghost use Rattle.std.specs.Prelude.{◌≡◌, IsTrue, Option, None, Some, is_some};
ghost use Rattle.ptpm_c.specs.declared.kept.Kept.{Kept};
ghost use Rattle.ptpm_c.specs.Keeping.{keeping_owns, kept_coded};

use crate::kept::{Hosted, Kept};
use std::alloc::Global;
use std::marker::Model;

/// The address of the box, or null. Its type names nothing of what is in the box, since none of it may cross
/// to C.
#[repr(C)]
#[derive(Drop)]
pub struct Keeping {
    at: *mut u8,
    pub ghost kept: { Option Kept } by { kept_coded },
}

impl Model for Keeping {
    ghost also_owns = { λ k. keeping_owns k.at k.kept };
}

impl Keeping {
    ghost use Rattle.std.specs.Borrow.{sem};
    ghost use Rattle.ptpm_c.specs.Held.{hosted_in};
    ghost use Rattle.ptpm_c.specs.Lending.{LendsHosted, LendsKept};

    /// No box.
    pub fn nothing() -> Keeping
        ensures { result.kept ≡ None }
    {
        Keeping {
            at: std::ptr::null_mut(),
        }
    }

    /// Keeps this box.
    pub fn of_box(kept: Box<Kept>) -> Keeping
        ensures { result.kept ≡ Some kept.value }
    {
        let at = Box::into_raw(kept);
        Keeping { at: at as *mut u8 }
    }

    /// What is in the box, in place.
    fn as_kept(&mut self) -> &mut Kept
        requires { IsTrue (is_some self.old.kept) }
        ensures* writes_back { sem 𝓛 (LendsKept self.entry result) }
        ensures value { Some result.now ≡ self.old.kept }
    {
        let at = self.at as *mut Kept;
        unsafe { &mut *at }
    }

    /// What is kept, in place.
    pub fn as_hosted(&mut self) -> &mut Hosted
        requires { IsTrue (is_some self.old.kept) }
        ensures* writes_back { sem 𝓛 (LendsHosted self.entry result) }
        ensures value { result.now ≡ hosted_in self.old.kept }
    {
        self.as_kept().as_hosted()
    }

    /// The box again.
    pub fn into_box(self, alloc: Global) -> Box<Kept>
        requires { IsTrue (is_some self.kept) }
        ensures { Some result.value ≡ self.kept }
    {
        unsafe { Box::from_raw(alloc, self.at as *mut Kept) }
    }
}
