//! A session: one manager's requests to one clock, one at a time.

ghost use Rattle.std.specs.Prelude.{◌≡◌, ◌≢◌, ◌≤◌, ◌↔◌, true, false, Ok, Err, None, Some, IfErr, IfOk, IsErrOf, IsSome, MatchResult, OnErr, OnOk, nat_lt};
ghost use Rattle.ptpm_codec.specs.declared.message.Message.{Message};
ghost use Rattle.ptpm_codec.specs.Canonical.{canonical};
ghost use Rattle.ptpm_codec.specs.Message.{Fits, IsValid};
ghost use Rattle.ptpm_manager.specs.declared.error.BeginError.{BeginError};
ghost use Rattle.ptpm_manager.specs.declared.error.GiveUpRefusal.{GiveUpRefusal};
ghost use Rattle.ptpm_manager.specs.declared.error.SendError.{SendError};
ghost use Rattle.ptpm_manager.specs.declared.receiving.Reason.{Reason};
ghost use Rattle.ptpm_manager.specs.declared.receiving.Received.{Received};
ghost use Rattle.ptpm_manager.specs.Ask.{IsAskedOf, IsRequestTo, ask_of, request_at_port, request_of};

use crate::ask::{Ask, Pending, is_of_port, judge, judge_at, target_port};
use crate::error::{BeginError, GiveUpRefusal, SendError};
use crate::receiving::{Reason, Received, no_reply_to};
use crate::report::{Report, outcome_in};
use crate::saved::Saved;
use crate::setup::{Setup, TARGET_PORTS};
use ptpm_codec::{Action, Buffer, ClockIdentity, OutOfMemory, PortIdentity, View, encode, view};
use ptpm_data::Request;
use std::alloc::Global;
use std::marker::Model;

/// How many requests a session begins at most (this project's profile).
pub const REQUESTS: u64 = 1_000_000;

/// How many it begins at most after the latest that was reported: a clock takes numbers so far ahead for new ones.
pub(crate) const REACH: u64 = 32_767;

#[derive(Debug, Drop)]
pub(crate) enum State {
    Idle,
    /// A request is not answered yet.
    Waiting(Pending),
}

/// One manager's requests to one clock, one at a time. A request is kept until its answer is heard or it is given up, and its
/// number is used for no other. Contracts see how the session was set up, its domain, how many requests were begun, and which was
/// reported last. They also see the unanswered request, and how often it may still be sent.
#[derive(Debug, Drop)]
pub struct Session {
    alloc: Global,
    setup: Setup,
    domain: u8,
    issued: u64,
    reported: u64,
    state: State,
    attempts_left: u8,
}

impl Model for Session {
    ghost use Rattle.ptpm_manager.specs.Session.{IsSession, SessionValue, session_value};

    ghost Value = { SessionValue };

    ghost view = { session_value };

    ghost invariant = { IsSession };
}

impl Session {
    ghost use Rattle.ptpm_manager.specs.Receiving.{IsCounted, IsReportedNext, NeedsMemory, left_by, reason_of, received_of};
    ghost use Rattle.ptpm_manager.specs.Session.{IsConsistent, anew, begin_at_refusal, begin_refusal, begun, count_limit, due_message, fresh, give_up_refusal, given_up, is_waiting, over_count, resumed, retuned, send_refusal, sent};
    ghost use Rattle.ptpm_manager.specs.Setup.{AreTwoClocks};

    /// A session of `me` that has begun nothing, with a target of 1 to 255 ports, in a domain. Neither clock is all ones,
    /// and they are two. The k-th request, counted from 1, has sequence number (first + k - 1) mod 65,536. Each request has
    /// `hops` in both hop fields, and may be sent `attempts` times, 0 to 255. Takes no memory: `alloc` is kept for the octets of
    /// requests and answers.
    pub fn new(
        alloc: Global,
        me: PortIdentity,
        target: ClockIdentity,
        ports: u16,
        domain: u8,
        first: u16,
        hops: u8,
        attempts: u8,
    ) -> Session
        requires clocks { AreTwoClocks me.clock target }
        requires some_port { 1 ≤ ports }
        requires few_ports { ports ≤ TARGET_PORTS }
        ensures { result ≡ fresh (record { me = me; target = target; ports = ports; first = first; hops = hops; attempts = attempts }) domain }
    {
        Session {
            alloc,
            setup: Setup {
                me,
                target,
                ports,
                first,
                hops,
                attempts,
            },
            domain,
            issued: 0,
            reported: 0,
            state: State::Idle,
            attempts_left: 0,
        }
    }

    /// How many requests were begun.
    pub fn issued(&self) -> u64
        ensures count { result ≡ self.now.issued }
        ensures limit { result ≤ count_limit }
    {
        self.issued
    }

    /// Which of them was reported last, counted from 1; 0 before the first report. One begun after it was given up, or is not
    /// answered yet.
    pub fn reported(&self) -> u64
        ensures latest { result ≡ self.now.reported }
        ensures begun { result ≤ self.now.issued }
    {
        self.reported
    }

    /// The domain that requests are sent in, and replies expected in.
    pub fn domain(&self) -> u8
        ensures { result ≡ self.now.domain }
    {
        self.domain
    }

    /// Begins a request, with all its attempts before it; the ask's octets are copied. It is refused for the first reason that
    /// holds, and then the session stays as it was.
    pub fn begin(&mut self, ask: &Ask) -> Result<(), BeginError>
        ensures begun { OnOk result (self.new ≡ begun self.old (request_of ask.now)) }
        ensures permitted { OnOk result (begin_refusal self.old ask.now ≡ None) }
        ensures request { OnOk result (IsRequestTo self.old.setup.ports (request_of ask.now)) }
        ensures counted { OnOk result (over_count self.new ≡ over_count self.old) }
        ensures busy { IsErrOf result BeginError.Busy ↔ (is_waiting self.old ≡ true) }
        ensures refused { (e : BeginError)
            → begin_refusal self.old ask.now ≡ Some e
            → result ≡ Err e }
        ensures no_other { IfErr result
            (λ e. e ≢ BeginError.OutOfMemory → begin_refusal self.old ask.now ≡ Some e) }
        ensures unchanged { OnErr result (self.new ≡ self.old) }
    {
        self.begin_with(ask.action, ask.id, ask.port, ask.octets.as_slice())
    }

    /// Does what `begin` does, of an ask by its parts, with the dataField lent. Memory is asked only for a copy of it, and
    /// only if nothing else refuses the request.
    #[tactic(auto, unfolding(crate::specs::Session::begin_refusal))]
    pub fn begin_with(
        &mut self,
        action: Action,
        id: u16,
        port: Option<u16>,
        octets: &[u8],
    ) -> Result<(), BeginError>
        ensures begun { OnOk result
            (self.new ≡ begun self.old (request_of (ask_of action id port octets.now))) }
        ensures permitted { OnOk result
            (begin_refusal self.old (ask_of action id port octets.now) ≡ None) }
        ensures request { OnOk result
            (IsRequestTo self.old.setup.ports
            (request_of (ask_of action id port octets.now))) }
        ensures counted { OnOk result (over_count self.new ≡ over_count self.old) }
        ensures busy { IsErrOf result BeginError.Busy ↔ (is_waiting self.old ≡ true) }
        ensures refused { (e : BeginError)
            → begin_refusal self.old (ask_of action id port octets.now) ≡ Some e
            → result ≡ Err e }
        ensures no_other { IfErr result
            (λ e.
            e ≢ BeginError.OutOfMemory
            → begin_refusal self.old (ask_of action id port octets.now) ≡ Some e) }
        ensures unchanged { OnErr result (self.new ≡ self.old) }
    {
        self.judge_idle()?;
        judge(self.setup.ports, action, id, port, octets)?;
        self.make(&Request {
            action,
            id,
            port: target_port(id, port),
            octets,
        })
    }

    /// Does what `begin_with` does, at the port that is named, also for an id of the clock. The port has to be one of the clock's
    /// ports. Some clocks answer for an id of the clock too only if one of their ports is named. Such a request may be answered
    /// by any port of the clock.
    #[tactic(auto, unfolding(crate::specs::Session::begin_at_refusal))]
    pub fn begin_at(
        &mut self,
        action: Action,
        id: u16,
        port: u16,
        octets: &[u8],
    ) -> Result<(), BeginError>
        ensures begun { OnOk result
            (self.new
            ≡ begun self.old (request_at_port (ask_of action id (Some port) octets.now))) }
        ensures permitted { OnOk result
            (begin_at_refusal self.old (ask_of action id (Some port) octets.now) ≡ None) }
        ensures request { OnOk result
            (IsAskedOf self.old.setup.ports
            (request_at_port (ask_of action id (Some port) octets.now))) }
        ensures counted { OnOk result (over_count self.new ≡ over_count self.old) }
        ensures busy { IsErrOf result BeginError.Busy ↔ (is_waiting self.old ≡ true) }
        ensures refused { (e : BeginError)
            → begin_at_refusal self.old (ask_of action id (Some port) octets.now) ≡ Some e
            → result ≡ Err e }
        ensures no_other { IfErr result
            (λ e.
            e ≢ BeginError.OutOfMemory
            → begin_at_refusal self.old (ask_of action id (Some port) octets.now) ≡ Some e) }
        ensures unchanged { OnErr result (self.new ≡ self.old) }
    {
        self.judge_idle()?;
        judge_at(self.setup.ports, action, id, port, octets)?;
        self.make(&Request {
            action,
            id,
            port,
            octets,
        })
    }

    /// While a request is under way, no other is begun.
    fn judge_idle(&self) -> Result<(), BeginError>
        ensures { MatchResult result (λ _. is_waiting self.now ≡ false)
            (λ e. (e ≡ BeginError.Busy) × (is_waiting self.now ≡ true)) }
    {
        match &self.state {
            State::Idle => Ok(()),
            State::Waiting(_) => Err(BeginError::Busy),
        }
    }

    /// Makes this request, unless it is one too many.
    fn make(&mut self, request: &Request<'_>) -> Result<(), BeginError>
        requires idle { is_waiting self.old ≡ false }
        requires asked { IsAskedOf self.old.setup.ports request.now }
        ensures begun { OnOk result (self.new ≡ begun self.old request.now) }
        ensures room { OnOk result (nat_lt self.old.issued count_limit ≡ true) }
        ensures full { nat_lt self.old.issued count_limit ≡ false
            → result ≡ Err BeginError.CountAtMaximum }
        ensures no_other { IfErr result
            (λ e.
            e ≢ BeginError.OutOfMemory
            → (e ≡ BeginError.CountAtMaximum) × (nat_lt self.old.issued count_limit ≡ false)) }
        ensures unchanged { OnErr result (self.new ≡ self.old) }
    {
        if self.issued >= REQUESTS {
            return Err(BeginError::CountAtMaximum);
        }
        match Pending::copy_of(self.alloc, request) {
            Ok(pending) => {
                self.issued += 1;
                self.state = State::Waiting(pending);
                self.attempts_left = self.setup.attempts;
                Ok(())
            }
            Err(_) => Err(BeginError::OutOfMemory),
        }
    }

    /// Leaves the unanswered request in the buffer, and uses one of its attempts. Until `retune` it has the same octets
    /// each time. If it is refused, session and buffer stay as they were. Takes no memory.
    #[tactic(auto, unfolding(crate::specs::Session::send_refusal))]
    pub fn send(&mut self, buffer: &mut Buffer) -> Result<(), SendError>
        ensures refusal { MatchResult result (λ _. send_refusal self.old ≡ None)
            (λ e. send_refusal self.old ≡ Some e) }
        ensures sent { OnOk result (self.new ≡ sent self.old) }
        ensures octets { (v : Message)
            → due_message self.old ≡ Some v
            → OnOk result (buffer.new.items ≡ canonical v) }
        ensures valid { (v : Message)
            → due_message self.old ≡ Some v
            → OnOk result (IsValid v × Fits v) }
        ensures unchanged { OnErr result (self.new ≡ self.old) }
        ensures buffer { OnErr result (buffer.new.items ≡ buffer.old.items) }
    {
        let State::Waiting(pending) = &self.state else {
            return Err(SendError::Idle);
        };
        if self.attempts_left == 0 {
            return Err(SendError::GaveUp);
        }
        encode(&self.setup.draft(self.domain, self.issued, pending), buffer);
        self.attempts_left -= 1;
        Ok(())
    }

    /// Gives the unanswered request this many attempts, whatever was left. Takes no memory.
    pub fn resume(&mut self, attempts: u8) -> Result<(), SendError>
        ensures refusal { MatchResult result (λ _. is_waiting self.old ≡ true)
            (λ e. (e ≡ SendError.Idle) × (is_waiting self.old ≡ false)) }
        ensures resumed { OnOk result (self.new ≡ resumed self.old attempts) }
        ensures unchanged { OnErr result (self.new ≡ self.old) }
    {
        if let State::Idle = &self.state {
            return Err(SendError::Idle);
        }
        self.attempts_left = attempts;
        Ok(())
    }

    /// Lets the unanswered request go, so that the next can be begun. Its number is used for no other, and no answer to it is taken
    /// any more. The clock may have carried it out, or may still: until it accepts a later request of this session. Takes no memory.
    #[tactic(auto, unfolding(crate::specs::Session::give_up_refusal))]
    pub fn give_up(&mut self) -> Result<(), GiveUpRefusal>
        ensures refusal { MatchResult result (λ _. give_up_refusal self.old ≡ None)
            (λ e. give_up_refusal self.old ≡ Some e) }
        ensures given_up { OnOk result (self.new ≡ given_up self.old) }
        ensures idle { OnOk result (is_waiting self.new ≡ false) }
        ensures unchanged { OnErr result (self.new ≡ self.old) }
    {
        if let State::Idle = &self.state {
            return Err(GiveUpRefusal::Idle);
        }
        if self.issued - self.reported >= REACH {
            return Err(GiveUpRefusal::OutOfReach);
        }
        self.state = State::Idle;
        Ok(())
    }

    /// From now on requests are sent, and replies expected, in this domain, also of a request that was begun before. Its
    /// octets then differ from those sent before only in domainNumber. Takes no memory.
    pub fn retune(&mut self, domain: u8)
        ensures { self.new ≡ retuned self.old domain }
    {
        self.domain = domain;
    }

    /// Judges a datagram. If it answers the unanswered request, the session is idle afterwards. Otherwise this is the first
    /// reason to ignore it, and the session stays as it was. Memory is asked only for the dataField of a RESPONSE; if it is
    /// refused, the session stays as it was.
    pub fn receive(&mut self, datagram: &[u8]) -> Result<Received, OutOfMemory>
        ensures exact { IfOk result (λ received. received ≡ received_of self.old datagram.now) }
        ensures left { IfOk result (λ received. self.new ≡ left_by self.old received) }
        ensures counted { IfOk result
            (λ received. IsCounted received (over_count self.old) (over_count self.new)) }
        ensures rises { IfOk result
            (λ received. IsReportedNext received self.old.reported self.new.reported) }
        ensures memory { OnErr result (NeedsMemory (received_of self.old datagram.now)) }
        ensures ignored { (r : Reason)
            → received_of self.old datagram.now ≡ Received.Ignored r
            → result ≡ Ok (Received.Ignored r) }
        ensures unchanged { OnErr result (self.new ≡ self.old) }
    {
        let message = match view(datagram) {
            Ok(message) => message,
            Err(cause) => return Ok(Received::Ignored(Reason::Malformed(cause))),
        };
        if let Some(reason) = self.reason_to_ignore(&message) {
            return Ok(Received::Ignored(reason));
        }
        let outcome = outcome_in(self.alloc, &message)?;
        self.state = State::Idle;
        self.reported = self.issued;
        Ok(Received::Answered(Report {
            index: self.issued,
            outcome,
        }))
    }

    /// What is saved of the session.
    pub(crate) fn saved(&self) -> Saved<'_>
        ensures saved { result ≡ anew self.now }
        ensures consistent { IsConsistent self.now }
    {
        Saved {
            setup: self.setup,
            domain: self.domain,
            issued: self.issued,
            reported: self.reported,
            unanswered: self.state.unanswered(),
        }
    }

    /// The session that was saved. Memory is asked only for the dataField of its request.
    pub(crate) fn of_saved(alloc: Global, saved: &Saved<'_>) -> Result<Session, OutOfMemory>
        requires { IsConsistent saved.now }
        ensures session { IfOk result (λ s. s ≡ saved.now) }
        ensures memory { OnErr result (IsSome saved.now.unanswered) }
    {
        Ok(Session {
            alloc,
            setup: saved.setup,
            domain: saved.domain,
            issued: saved.issued,
            reported: saved.reported,
            state: State::of_saved(alloc, &saved.unanswered)?,
            attempts_left: saved.setup.attempts,
        })
    }

    /// Why a message is ignored, if it is.
    #[tactic(auto, unfolding(crate::specs::Receiving::reason_of))]
    fn reason_to_ignore(&self, message: &View<'_>) -> Option<Reason>
        ensures reason { result ≡ reason_of self.now message.now }
        ensures waiting { result ≡ None → is_waiting self.now ≡ true }
        ensures begun { result ≡ None → 1 ≤ self.now.issued }
    {
        if let Some(reason) = no_reply_to(&self.setup.me, self.domain, message) {
            return Some(reason);
        }
        let source = message.source();
        if source.clock != self.setup.target || !self.state.is_asked_port(source.port) {
            return Some(Reason::OtherSource);
        }
        let State::Waiting(pending) = &self.state else {
            return Some(Reason::NothingAsked);
        };
        if message.number() != self.setup.number(self.issued) {
            return Some(Reason::OtherNumber);
        }
        if !pending.is_answered_by(message.action(), message.id()) {
            return Some(Reason::OtherContent);
        }
        None
    }
}

impl State {
    ghost use Rattle.ptpm_manager.specs.Receiving.{is_from_asked_port};
    ghost use Rattle.ptpm_manager.specs.Session.{unanswered_of};

    /// The request that is not answered, its octets lent.
    fn unanswered(&self) -> Option<Request<'_>>
        ensures { result ≡ unanswered_of self.now }
    {
        match self {
            State::Idle => None,
            State::Waiting(pending) => Some(pending.request()),
        }
    }

    /// The state in which this request is not answered.
    fn of_saved(alloc: Global, unanswered: &Option<Request<'_>>) -> Result<State, OutOfMemory>
        ensures state { IfOk result (λ state. unanswered_of state ≡ unanswered.now) }
        ensures memory { OnErr result (IsSome unanswered.now) }
    {
        match unanswered {
            None => Ok(State::Idle),
            Some(request) => Ok(State::Waiting(Pending::copy_of(alloc, request)?)),
        }
    }

    /// Whether an answer may come from a port of the clock.
    fn is_asked_port(&self, port: u16) -> bool
        ensures { result ≡ is_from_asked_port (unanswered_of self.now) port }
    {
        match self {
            State::Idle => true,
            State::Waiting(pending) => {
                pending.port == PortIdentity::EVERY_PORT
                    || pending.port == port
                    || !is_of_port(pending.id)
            }
        }
    }
}
