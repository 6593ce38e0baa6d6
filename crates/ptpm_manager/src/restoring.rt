//! A session back from its image (this project's profile).

ghost use Rattle.std.specs.Prelude.{◌≡◌, ◌≢◌, ◌≤◌, ◌⊎◌, false, true, length, None, Some, Ok, Err, IfErr, IfNone, IfOk, IfSome, IsOk, IsSome, OnErr, OnOk, MatchResult};
ghost use Rattle.ptpm_manager.specs.declared.error.RestoreError.{RestoreError};
ghost use Rattle.ptpm_manager.specs.Image.{SessionFits, session_image};
ghost use Rattle.ptpm_manager.specs.ImageReading.{request_action, request_at, session_at, setup_at, unanswered_at};
ghost use Rattle.ptpm_manager.specs.Restoring.{head_refusal, is_image, is_long, restore_refusal};
ghost use Rattle.ptpm_manager.specs.Session.{IsConsistent, SessionValue, anew};
ghost use Rattle.ptpm_manager.specs.Setup.{is_setup_of};

use crate::error::RestoreError;
use crate::image::{IMAGE_HEAD_OCTETS, IMAGE_VERSION, MARK, SESSION_KIND};
use crate::image_places::u64_at;
use crate::saved::Saved;
use crate::session::Session;
use crate::setup::Setup;
use ptpm_codec::{
    Action, ClockIdentity, PortIdentity, clock_identity_at, port_identity_at, u16_at,
};
use ptpm_data::Request;
use std::alloc::Global;

/// How many octets an image has up to the request, and up to the request's dataField.
const UP_TO_REQUEST: usize = 53;

const UP_TO_DATA_FIELD: usize = 60;

impl Session {
    /// The session whose image this is, of this manager with this clock of this many ports. Its first request has this number.
    /// It goes on with the request that was not answered, with all attempts before it. Hop fields, attempts and domain are those
    /// of the image. An image is refused for the first reason that holds. Memory is asked for last, for the request's dataField.
    #[tactic(auto, unfolding(crate::specs::Restoring::restore_refusal))]
    pub fn restored(
        alloc: Global,
        image: &[u8],
        me: PortIdentity,
        target: ClockIdentity,
        ports: u16,
        first: u16,
    ) -> Result<Session, RestoreError>
        ensures restored { IfOk result (λ s. s ≡ session_at image.now) }
        ensures image { IfOk result (λ s. image.now ≡ session_image s) }
        ensures permitted { OnOk result (restore_refusal me target ports first image.now ≡ None) }
        ensures refused { (e : RestoreError)
            → restore_refusal me target ports first image.now ≡ Some e
            → result ≡ Err e }
        ensures no_other { IfErr result
            (λ e.
            e ≢ RestoreError.OutOfMemory
            → restore_refusal me target ports first image.now ≡ Some e) }
        ensures memory { IfErr result
            (λ e. e ≡ RestoreError.OutOfMemory → IsSome (session_at image.now).unanswered) }
    {
        judge_head(image)?;
        let Some(saved) = read_image(image) else {
            return Err(RestoreError::Damaged);
        };
        if !saved.setup.is_of(me, target, ports, first) {
            return Err(RestoreError::OtherSession);
        }
        match Session::of_saved(alloc, &saved) {
            Ok(session) => Ok(session),
            Err(_) => Err(RestoreError::OutOfMemory),
        }
    }
}

/// Judges what the head says.
#[tactic(auto, unfolding(crate::specs::Restoring::head_refusal))]
fn judge_head(image: &[u8]) -> Result<(), RestoreError>
    ensures refusal { MatchResult result (λ _. head_refusal image.now ≡ None)
        (λ e. head_refusal image.now ≡ Some e) }
    ensures no_want { IfErr result (λ e. e ≢ RestoreError.OutOfMemory) }
{
    if image.len() < IMAGE_HEAD_OCTETS || image[..4] != MARK[..] {
        return Err(RestoreError::NotAnImage);
    }
    if image[5] != IMAGE_VERSION {
        return Err(RestoreError::OtherVersion);
    }
    if image[4] != SESSION_KIND {
        return Err(RestoreError::OtherKind);
    }
    Ok(())
}

/// What was saved, of an image; `None` of other octets.
#[tactic(auto, unfolding(crate::specs::Restoring::is_image))]
fn read_image(image: &[u8]) -> Option<Saved<'_>>
    ensures saved { IfSome result (λ s. s ≡ session_at image.now) }
    ensures image { IfSome result (λ s. image.now ≡ session_image s) }
    ensures consistent { IfSome result (λ s. IsConsistent s) }
    ensures some { IfSome result (λ s. is_image image.now ≡ true) }
    ensures none { IfNone result (is_image image.now ≡ false) }
{
    if !is_long(image) {
        return None;
    }
    let saved = session_at(image);
    if saved.is_consistent() && saved.is_image(image) {
        Some(saved)
    } else {
        None
    }
}

/// Whether there are the octets up to the request, and those up to its dataField if there is one.
fn is_long(image: &[u8]) -> bool
    ensures { result ≡ is_long image.now }
{
    UP_TO_REQUEST <= image.len() && (image[52] == 0 || UP_TO_DATA_FIELD <= image.len())
}

fn session_at(image: &[u8]) -> Saved<'_>
    requires { is_long image.now ≡ true }
    ensures { result ≡ session_at image.now }
{
    Saved {
        setup: setup_at(image),
        domain: image[35],
        issued: u64_at(image, 36),
        reported: u64_at(image, 44),
        unanswered: unanswered_at(image),
    }
}

#[tactic(auto, unfolding(crate::specs::ImageReading::setup_at))]
fn setup_at(image: &[u8]) -> Setup
    requires { 53 ≤ length image.now }
    ensures { result ≡ setup_at image.now }
{
    Setup {
        me: port_identity_at(image, 12),
        target: clock_identity_at(image, 22),
        ports: image[30] as u16,
        first: u16_at(image, 31),
        hops: image[33],
        attempts: image[34],
    }
}

fn unanswered_at(image: &[u8]) -> Option<Request<'_>>
    requires { is_long image.now ≡ true }
    ensures { result ≡ unanswered_at image.now }
{
    if image[52] == 0 {
        None
    } else {
        Some(request_at(image))
    }
}

#[tactic(auto, unfolding(crate::specs::ImageReading::request_at))]
fn request_at(image: &[u8]) -> Request<'_>
    requires { 60 ≤ length image.now }
    ensures { result ≡ request_at image.now }
{
    let (_, octets) = image.split_at(UP_TO_DATA_FIELD);
    Request {
        action: request_action(image[53]),
        id: u16_at(image, 54),
        port: u16_at(image, 56),
        octets,
    }
}

/// The action of a request by its code; GET if it is of none.
fn request_action(code: u8) -> Action
    ensures { result ≡ request_action code }
{
    match code {
        1 => Action::Set,
        3 => Action::Command,
        _ => Action::Get,
    }
}
