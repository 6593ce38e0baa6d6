//! How an asker begins: without a file, or with what its file has.

ghost use Rattle.std.specs.Prelude.{◌≡◌, ◌≢◌, length, Err, None, Some, IfErr, IfOk, IsSome, OnOk};
ghost use Rattle.ptpm_manager.specs.declared.error.RestoreError.{RestoreError};
ghost use Rattle.ptpm_manager.specs.ImageReading.{session_at};
ghost use Rattle.ptpm_manager.specs.Restoring.{restore_refusal};
ghost use Rattle.ptpm_asker.specs.Asker.{first_in, hops_in};

use crate::asker::Asker;
use crate::earlier::Earlier;
use crate::question::DRAWN_OCTETS;
use crate::settings::Settings;
use ptpm_codec::u16_at;
use ptpm_manager::{RestoreError, Session};
use std::alloc::Global;

/// How many numbers follow the first that a new session tries.
const FURTHER_NUMBERS: u8 = 3;

impl Asker {
    ghost use Rattle.ptpm_asker.specs.Asker.{AreSettings, opened, opened_new};

    /// An asker whose session has no file yet. Its first number and its octets are drawn at random. Takes no memory: `alloc` is kept
    /// for the octets of requests and answers.
    pub fn open_new(
        alloc: Global,
        settings: Settings,
        number: u16,
        drawn: [u8; DRAWN_OCTETS],
    ) -> Asker
        requires { AreSettings settings }
        ensures { result ≡ opened_new settings drawn number }
    {
        let session = settings.fresh_session(alloc, number, 0);
        Asker::at_rest(
            alloc,
            settings,
            drawn,
            session,
            number,
            settings.hops,
            false,
            Earlier::NoRequest,
            FURTHER_NUMBERS,
        )
    }

    /// An asker with the session that its file has. The octets are drawn at random. It is refused for the first reason that holds.
    /// Memory is asked for the dataField of the request under way alone.
    pub fn open(
        alloc: Global,
        settings: Settings,
        drawn: [u8; DRAWN_OCTETS],
        image: &[u8],
    ) -> Result<Asker, RestoreError>
        requires { AreSettings settings }
        ensures opened { IfOk result (λ a. a ≡ opened settings drawn (session_at image.now)) }
        ensures permitted { OnOk result
            (restore_refusal settings.me settings.target settings.ports (first_in image.now) image.now
            ≡ None) }
        ensures refused { (e : RestoreError)
            → restore_refusal settings.me settings.target settings.ports (first_in image.now) image.now
            ≡ Some e
            → result ≡ Err e }
        ensures no_other { IfErr result
            (λ e.
            e ≢ RestoreError.OutOfMemory
            → restore_refusal settings.me settings.target settings.ports (first_in image.now) image.now
            ≡ Some e) }
        ensures memory { IfErr result
            (λ e. e ≡ RestoreError.OutOfMemory → IsSome (session_at image.now).unanswered) }
    {
        let first = first_in(image);
        let session = Session::restored(
            alloc,
            image,
            settings.me,
            settings.target,
            settings.ports,
            first,
        )?;
        let earlier = Earlier::of_image(image);
        let hops = hops_in(image);
        Ok(Asker::at_rest(
            alloc, settings, drawn, session, first, hops, true, earlier, 0,
        ))
    }
}

/// The number of the first request that an image has; 0 of octets that are too few for one.
fn first_in(image: &[u8]) -> u16
    ensures { result ≡ first_in image.now }
{
    if image.len() >= 53 {
        u16_at(image, 31)
    } else {
        0
    }
}

/// The hops that an image has; 0 of octets that are too few for one.
fn hops_in(image: &[u8]) -> u8
    ensures { result ≡ hops_in image.now }
{
    if image.len() >= 53 { image[33] } else { 0 }
}
