//! What a site is expected to be, and the picture of a site that is held to it.

ghost use Rattle.std.specs.Prelude.{IfOk, ⊤};
ghost use Rattle.ptpm_site.specs.declared.picture.Picture.{Picture};
ghost use Rattle.ptpm_site.specs.declared.reading.site.Site.{Site};

use crate::held_to_inventory::{hold_to_inventory, keep_open};
use crate::held_to_profile::hold_to_profile;
use crate::inventory::Inventory;
use crate::profile::Profile;
use ptpm_site::judging::limits::Limits;
use ptpm_site::picture::Picture;
use ptpm_site::reading::left_out::LeftOut;
use ptpm_site::reading::site::Site;
use std::alloc::{AllocError, Global};

/// What a site is held to.
#[derive(Clone, Copy)]
pub struct Expectations<'a> {
    pub profile: Option<Profile>,
    pub inventory: Option<&'a Inventory>,
}

impl Expectations<'_> {
    /// A site is only to be in good order.
    pub fn none() -> Expectations<'static> {
        Expectations {
            profile: None,
            inventory: None,
        }
    }
}

/// What judges a site. Code over any judge can show no other picture than its judge's.
pub trait Judge {
    /// That the picture is this judge's, of the site.
    ghost IsJudged: { Site → Picture → Type 0 };

    /// The site, judged.
    fn picture_of<'s>(
        &'s self,
        alloc: Global,
        site: &'s Site,
        left_out: LeftOut,
        limits: Limits,
    ) -> Result<Picture<'s>, AllocError>
        ensures { IfOk result (Self.IsJudged site.now) };
}

impl Judge for Expectations<'_> {
    ghost IsJudged = { λ site picture. ⊤ };

    fn picture_of<'s>(
        &'s self,
        alloc: Global,
        site: &'s Site,
        left_out: LeftOut,
        limits: Limits,
    ) -> Result<Picture<'s>, AllocError> {
        picture_of(alloc, site, left_out, limits, *self)
    }
}

/// A site, judged and held to what is expected of it.
fn picture_of<'a>(
    alloc: Global,
    site: &'a Site,
    left_out: LeftOut,
    limits: Limits,
    expectations: Expectations<'a>,
) -> Result<Picture<'a>, AllocError> {
    let mut picture = Picture::of(alloc, site, left_out, limits)?;
    let sources = site.sources(alloc)?;
    let sources = sources.as_slice();
    if let Some(profile) = expectations.profile {
        hold_to_profile(alloc, site, sources, profile, &mut picture.findings)?;
    }
    if let Some(inventory) = expectations.inventory {
        hold_to_inventory(alloc, site, sources, inventory, &mut picture.findings)?;
        keep_open(alloc, site, inventory, &mut picture.open_findings)?;
    }
    Ok(picture)
}
