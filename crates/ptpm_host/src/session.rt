//! A session with the request that it sends and the answer that it heard, as a host keeps it.

ghost use Rattle.std.specs.Prelude.{◌≡◌, ◌≤◌, ◌++◌, ◌↔◌, false, true, None, Some, IfErr, IfNone, IfOk, IfSome, IsSome, MatchResult, OnErr, OnOk, drop, length, take};
ghost use Rattle.ptpm_codec.specs.declared.message.Message.{Message};
ghost use Rattle.ptpm_codec.specs.Canonical.{canonical};
ghost use Rattle.ptpm_manager.specs.declared.error.BeginError.{BeginError};
ghost use Rattle.ptpm_manager.specs.declared.error.RestoreError.{RestoreError};
ghost use Rattle.ptpm_manager.specs.declared.error.SendError.{SendError};
ghost use Rattle.ptpm_manager.specs.declared.report.Report.{Report};
ghost use Rattle.ptpm_manager.specs.Ask.{request_at_port, request_of};
ghost use Rattle.ptpm_manager.specs.Image.{session_image};
ghost use Rattle.ptpm_manager.specs.ImageReading.{session_at};
ghost use Rattle.ptpm_manager.specs.Receiving.{NeedsMemory, left_by, received_of};
ghost use Rattle.ptpm_manager.specs.Session.{begin_at_refusal, begin_refusal, due_message, give_up_refusal, given_up, is_waiting, resumed, retuned, sent};
ghost use Rattle.ptpm_host.specs.Session.{HasBegun, IsJudgedBy, ask_of, asked_action, hand_refusal, heard_of, report_after, report_refusal};
ghost use Rattle.ptpm_host.specs.SessionSettings.{settings_refusal, session_refusal, session_start};
ghost use Rattle.ptpm_host.specs.ReportedOutcome.{outcome_octets, reported_of, reported_size};

use crate::refusal::{ReportRefusal, SendRefusal, SessionRefusal};
use crate::reported_outcome::{ReportedOutcome, report_outcome};
use crate::session_settings::SessionSettings;
use ptpm_codec::{Action, Buffer, MESSAGE_OCTETS, OutOfMemory};
use ptpm_manager::{
    BeginError, GiveUpRefusal, Reason, Received, Report, RestoreError, SendError, Session,
};
use std::alloc::Global;

/// A session, room for the request that it sends, and the answer to the latest request.
#[derive(Drop)]
pub struct HostedSession {
    session: Session,
    /// What was sent last.
    buffer: Buffer,
    /// None while the latest request is not answered.
    report: Option<Report>,
}

/// What a session makes of a datagram.
#[derive(Clone, Copy)]
pub enum Heard {
    /// It answers the request.
    Answered,
    /// It does not, and changes nothing.
    Ignored(Reason),
}

impl HostedSession {
    /// A session that has begun nothing. Takes no memory.
    pub fn start(alloc: Global, settings: &SessionSettings) -> Result<HostedSession, SessionRefusal>
        ensures session { IfOk result (λ s. s.session ≡ session_start settings.now) }
        ensures report { IfOk result (λ s. s.report ≡ None) }
        ensures refusal { MatchResult result (λ _. session_refusal settings.now ≡ None)
            (λ e. session_refusal settings.now ≡ Some e) }
    {
        settings.judge()?;
        Ok(HostedSession {
            session: Session::new(
                alloc,
                settings.manager(),
                settings.target(),
                settings.target_ports,
                settings.domain,
                settings.first,
                settings.hops,
                settings.attempts,
            ),
            buffer: Buffer::new(),
            report: None,
        })
    }

    /// The session whose image this is. Manager, managed clock, its number of ports and the first number must be those of the
    /// settings. Domain, hop field and attempts are those of the image. A request that was not answered goes on, with all
    /// attempts before it. An image is refused for the first reason that holds. Memory is asked for last, for the request's
    /// dataField.
    pub fn restored(
        alloc: Global,
        settings: &SessionSettings,
        image: &[u8],
    ) -> Result<HostedSession, RestoreError>
        ensures session { IfOk result (λ s. s.session ≡ session_at image.now) }
        ensures image { IfOk result (λ s. image.now ≡ session_image s.session) }
        ensures report { IfOk result (λ s. s.report ≡ None) }
        ensures judged { IsJudgedBy (settings_refusal settings.now image.now)
            RestoreError.OutOfMemory result }
        ensures memory { IfErr result
            (λ e. e ≡ RestoreError.OutOfMemory → IsSome (session_at image.now).unanswered) }
    {
        let session = Session::restored(
            alloc,
            image,
            settings.manager(),
            settings.target(),
            settings.target_ports,
            settings.first,
        )?;
        Ok(HostedSession {
            session,
            buffer: Buffer::new(),
            report: None,
        })
    }

    /// Leaves the session's image at the head of `octets`, and answers how many octets it has: 53 to 1,478. What comes after
    /// them stays. `None`, and nothing is written, if there is room for fewer. The answer to the latest request is not in it.
    /// Takes no memory.
    pub fn image(&self, octets: &mut [u8]) -> Option<usize>
        ensures room { IsSome result
            ↔ (length (session_image self.now.session) ≤ length octets.old) }
        ensures size { IfSome result (λ n. n ≡ length (session_image self.now.session)) }
        ensures octets { IfSome result
            (λ n. octets.new ≡ session_image self.now.session ++ drop n octets.old) }
        ensures unchanged { IfNone result (octets.new ≡ octets.old) }
    {
        self.session.image_into(octets)
    }

    /// How many requests were begun.
    pub fn issued(&self) -> u64
        ensures { result ≡ self.now.session.issued }
    {
        self.session.issued()
    }

    /// Begins a request, with all its attempts before it: 0 GET, 1 SET or 3 COMMAND of a managementId, with this dataField.
    /// The port matters only for an id of a port. The answer to an earlier request is let go. The first reason that holds
    /// is why it is refused, and then nothing changes. Memory is asked only for the request's own copy of the dataField,
    /// and only if nothing else refuses it.
    pub fn begin(&mut self, action: u8, id: u16, port: u16, octets: &[u8]) -> Result<(), BeginError>
        ensures begun { OnOk result
            (HasBegun self.old (request_of (ask_of action id port octets.now)) self.new) }
        ensures judged { IsJudgedBy
            (begin_refusal self.old.session (ask_of action id port octets.now))
            BeginError.OutOfMemory result }
        ensures unchanged { OnErr result (self.new ≡ self.old) }
    {
        let action = asked_action(action);
        self.session.begin_with(action, id, Some(port), octets)?;
        self.report = None;
        Ok(())
    }

    /// Does what `begin` does, at the port that is named, also for an id of the clock. The port has to be one of the clock's
    /// ports. Some clocks answer for an id of the clock too only if one of their ports is named. Any port of the clock may answer
    /// for such an id.
    pub fn begin_at(
        &mut self,
        action: u8,
        id: u16,
        port: u16,
        octets: &[u8],
    ) -> Result<(), BeginError>
        ensures begun { OnOk result
            (HasBegun self.old (request_at_port (ask_of action id port octets.now)) self.new) }
        ensures judged { IsJudgedBy
            (begin_at_refusal self.old.session (ask_of action id port octets.now))
            BeginError.OutOfMemory result }
        ensures unchanged { OnErr result (self.new ≡ self.old) }
    {
        let action = asked_action(action);
        self.session.begin_at(action, id, port, octets)?;
        self.report = None;
        Ok(())
    }

    /// Leaves the unanswered request at the head of `octets`, uses one of its attempts, and answers how many octets it has.
    /// Until `retune` they are the same each time. The octets after them stay. If it is refused, nothing changes.
    /// Takes no memory.
    pub fn send(&mut self, octets: &mut [u8]) -> Result<usize, SendRefusal>
        ensures refusal { MatchResult result
            (λ _. hand_refusal (length octets.old) self.old.session ≡ None)
            (λ e. hand_refusal (length octets.old) self.old.session ≡ Some e) }
        ensures octets { (v : Message) → due_message self.old.session ≡ Some v →
            IfOk result (λ n. take n octets.new ≡ canonical v) }
        ensures within { IfOk result (λ n. n ≤ length octets.new) }
        ensures behind { IfOk result (λ n. drop n octets.new ≡ drop n octets.old) }
        ensures sent { OnOk result (self.new.session ≡ sent self.old.session) }
        ensures report { self.new.report ≡ self.old.report }
        ensures size { length octets.new ≡ length octets.old }
        ensures unchanged { OnErr result (self.new.session ≡ self.old.session) }
        ensures untouched { OnErr result (octets.new ≡ octets.old) }
    {
        if octets.len() < MESSAGE_OCTETS {
            return Err(SendRefusal::NoRoom);
        }
        if let Err(refusal) = self.session.send(&mut self.buffer) {
            return Err(SendRefusal::Session(refusal));
        }
        let message = self.buffer.as_slice();
        octets[..message.len()].copy_from_slice(message);
        Ok(message.len())
    }

    /// Gives the unanswered request this many attempts, whatever was left. Takes no memory.
    pub fn resume(&mut self, attempts: u8) -> Result<(), SendError>
        ensures refusal { MatchResult result (λ _. is_waiting self.old.session ≡ true)
            (λ e. (e ≡ SendError.Idle) × (is_waiting self.old.session ≡ false)) }
        ensures resumed { OnOk result (self.new.session ≡ resumed self.old.session attempts) }
        ensures report { self.new.report ≡ self.old.report }
        ensures unchanged { OnErr result (self.new ≡ self.old) }
    {
        self.session.resume(attempts)
    }

    /// Lets the unanswered request go, so that the next can be begun. No answer to it is taken any more. The clock may have carried
    /// it out, or may still, until it takes a later request of this session. Takes no memory.
    pub fn give_up(&mut self) -> Result<(), GiveUpRefusal>
        ensures refusal { MatchResult result (λ _. give_up_refusal self.old.session ≡ None)
            (λ e. give_up_refusal self.old.session ≡ Some e) }
        ensures given_up { OnOk result (self.new.session ≡ given_up self.old.session) }
        ensures idle { OnOk result (is_waiting self.new.session ≡ false) }
        ensures report { self.new.report ≡ self.old.report }
        ensures unchanged { OnErr result (self.new ≡ self.old) }
    {
        self.session.give_up()
    }

    /// From now on requests are sent, and replies expected, in this domain, also of a request that was begun before. Takes
    /// no memory.
    pub fn retune(&mut self, domain: u8)
        ensures session { self.new.session ≡ retuned self.old.session domain }
        ensures report { self.new.report ≡ self.old.report }
    {
        self.session.retune(domain);
    }

    /// What the session makes of a datagram: if it answers the unanswered request, that answer is kept, and the next one
    /// can be begun. Memory is asked only for the dataField of a RESPONSE; if it is refused, nothing changes.
    pub fn receive(&mut self, datagram: &[u8]) -> Result<Heard, OutOfMemory>
        ensures heard { IfOk result
            (λ h. h ≡ heard_of (received_of self.old.session datagram.now)) }
        ensures left { OnOk result
            (self.new.session
            ≡ left_by self.old.session (received_of self.old.session datagram.now)) }
        ensures report { OnOk result
            (self.new.report
            ≡ report_after self.old.report (received_of self.old.session datagram.now)) }
        ensures memory { OnErr result (NeedsMemory (received_of self.old.session datagram.now)) }
        ensures unchanged { OnErr result (self.new ≡ self.old) }
    {
        match self.session.receive(datagram)? {
            Received::Answered(report) => {
                self.report = Some(report);
                Ok(Heard::Answered)
            }
            Received::Ignored(reason) => Ok(Heard::Ignored(reason)),
        }
    }

    /// What the answer to the latest request says; a dataField is left at the head of `octets`, and what follows it
    /// stays. If it is refused, nothing is written. Takes no memory.
    pub fn report(&self, octets: &mut [u8]) -> Result<ReportedOutcome, ReportRefusal>
        ensures refusal { MatchResult result
            (λ _. report_refusal (length octets.old) self.now.report ≡ None)
            (λ e. report_refusal (length octets.old) self.now.report ≡ Some e) }
        ensures outcome { (r : Report)
            → self.now.report ≡ Some r
            → IfOk result (λ t. t ≡ reported_of r.outcome) }
        ensures octets { (r : Report) → self.now.report ≡ Some r →
            IfOk result (λ t. take (reported_size t) octets.new ≡ outcome_octets r.outcome) }
        ensures within { IfOk result (λ t. reported_size t ≤ length octets.new) }
        ensures behind { IfOk result
            (λ t. drop (reported_size t) octets.new ≡ drop (reported_size t) octets.old) }
        ensures size { length octets.new ≡ length octets.old }
        ensures untouched { OnErr result (octets.new ≡ octets.old) }
    {
        let Some(report) = &self.report else {
            return Err(ReportRefusal::NoReport);
        };
        report_outcome(&report.outcome, octets)
    }
}

/// The action of an actionField; every other number counts as RESPONSE, which is no request's.
pub(crate) fn asked_action(action: u8) -> Action
    ensures { result ≡ asked_action action }
{
    match action {
        0 => Action::Get,
        1 => Action::Set,
        3 => Action::Command,
        _ => Action::Response,
    }
}
