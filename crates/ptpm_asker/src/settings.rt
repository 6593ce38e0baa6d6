//! What an asker is set up with.

ghost use Rattle.std.specs.Prelude.{◌≡◌, ◌≢◌, Err, IfErr, None, Some, OnOk};
ghost use Rattle.ptpm_manager.specs.declared.error.BeginError.{BeginError};
ghost use Rattle.ptpm_manager.specs.Ask.{ask_of};
ghost use Rattle.ptpm_manager.specs.Session.{fresh};
ghost use Rattle.ptpm_asker.specs.Question.{asked_refusal};

use ptpm_codec::{Action, ClockIdentity, PortIdentity};
use ptpm_manager::{BeginError, Session};
use std::alloc::Global;

/// The manager, its clock, and how requests are sent. Times are in milliseconds.
#[derive(Clone, Copy, Debug)]
pub struct Settings {
    pub me: PortIdentity,
    /// The clock that is managed.
    pub target: ClockIdentity,
    /// How many ports that clock has at most, 1 to 255.
    pub ports: u16,
    /// Both hop fields of a request, in a session that begins here.
    pub hops: u8,
    /// The portNumber of the manager's clock at which nobody manages: no clock keeps an answer to it.
    pub nobody: u16,
    /// How often a request is sent at most.
    pub attempts: u8,
    /// How long an answer is waited for before the request is sent again.
    pub timeout: u64,
    /// How long a new session waits, longer than any copy is on its way.
    pub wait: u64,
}

impl Settings {
    ghost use Rattle.ptpm_asker.specs.Asker.{AreSettings, reader_setup, setup_with};

    /// A session that begins at this number, in a domain. Takes no memory.
    pub(crate) fn fresh_session(&self, alloc: Global, first: u16, domain: u8) -> Session
        requires { AreSettings self.now }
        ensures { result ≡ fresh (setup_with self.now first) domain }
    {
        Session::new(
            alloc,
            self.me,
            self.target,
            self.ports,
            domain,
            first,
            self.hops,
            self.attempts,
        )
    }

    /// A session of nobody that reads once, at this number, in a domain. Takes no memory.
    pub(crate) fn reader(&self, alloc: Global, first: u16, domain: u8) -> Session
        requires { AreSettings self.now }
        ensures { result ≡ fresh (reader_setup self.now first) domain }
    {
        let me = PortIdentity {
            clock: self.me.clock,
            port: self.nobody,
        };
        Session::new(
            alloc,
            me,
            self.target,
            self.ports,
            domain,
            first,
            self.hops,
            1,
        )
    }

    /// Judges what is asked by itself. It is begun in a session that is dropped.
    #[tactic(auto, unfolding(ptpm_manager::specs::Session::begin_refusal, ptpm_manager::specs::Session::begin_at_refusal))]
    pub(crate) fn judge(
        &self,
        alloc: Global,
        action: Action,
        id: u16,
        port: Option<u16>,
        octets: &[u8],
    ) -> Result<(), BeginError>
        requires { AreSettings self.now }
        ensures permitted { OnOk result
            (asked_refusal self.now.ports (ask_of action id port octets.now) ≡ None) }
        ensures refused { (e : BeginError)
            → asked_refusal self.now.ports (ask_of action id port octets.now) ≡ Some e
            → result ≡ Err e }
        ensures no_other { IfErr result
            (λ e.
            e ≢ BeginError.OutOfMemory
            → asked_refusal self.now.ports (ask_of action id port octets.now) ≡ Some e) }
    {
        let mut session = self.fresh_session(alloc, 0, 0);
        match port {
            Some(port) => session.begin_at(action, id, port, octets),
            None => session.begin_with(action, id, None, octets),
        }
    }
}
