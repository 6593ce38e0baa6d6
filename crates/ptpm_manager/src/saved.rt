//! What is saved of a session.

ghost use Rattle.std.specs.Prelude.{◌≡◌, ◌↔◌, IsTrue};
ghost use Rattle.ptpm_manager.specs.Restoring.{is_consistent, is_in_reach, is_unanswered_at};
ghost use Rattle.ptpm_manager.specs.Session.{IsConsistent, IsInReach, IsUnansweredAt};

use crate::ask::is_asked_of;
use crate::session::{REACH, REQUESTS};
use crate::setup::Setup;
use ptpm_data::Request;
use std::marker::Model;

/// What is saved of a session, its octets lent. Contracts see it as the session with all attempts before it.
#[derive(Debug, Drop)]
pub(crate) struct Saved<'a> {
    pub(crate) setup: Setup,
    pub(crate) domain: u8,
    pub(crate) issued: u64,
    pub(crate) reported: u64,
    /// The last request, while it is not answered.
    pub(crate) unanswered: Option<Request<'a>>,
}

impl<'a> Model for Saved<'a> {
    ghost use Rattle.ptpm_manager.specs.Session.{SessionValue};

    ghost Value = { SessionValue };

    ghost use Rattle.ptpm_manager.specs.Saved.{saved_session};

    ghost view = { saved_session };
}

impl Saved<'_> {
    /// Whether a session can be so.
    #[tactic(auto, unfolding(crate::specs::Restoring::is_consistent))]
    pub(crate) fn is_consistent(&self) -> bool
        ensures exact { result ≡ is_consistent self.now }
        ensures meaning { IsTrue result ↔ IsConsistent self.now }
    {
        self.setup.is_setup()
            && self.issued <= REQUESTS
            && is_unanswered_at(self.setup.ports, self.issued, &self.unanswered)
            && is_in_reach(self.issued, self.reported, &self.unanswered)
    }
}

/// Whether this can be the unanswered one of this many requests, to a clock with this many ports.
fn is_unanswered_at(ports: u16, issued: u64, unanswered: &Option<Request<'_>>) -> bool
    ensures exact { result ≡ is_unanswered_at ports issued unanswered.now }
    ensures meaning { IsTrue result ↔ IsUnansweredAt ports issued unanswered.now }
{
    match unanswered {
        None => true,
        Some(request) => 1 <= issued && is_asked_of(ports, request),
    }
}

/// Whether this can be the latest that was reported of this many requests.
fn is_in_reach(issued: u64, reported: u64, unanswered: &Option<Request<'_>>) -> bool
    ensures exact { result ≡ is_in_reach issued reported unanswered.now }
    ensures meaning { IsTrue result ↔ IsInReach issued reported unanswered.now }
{
    match unanswered {
        None => reported <= issued && issued - reported < REACH,
        Some(_) => reported < issued && issued - reported <= REACH,
    }
}
