//! An asker with the message that it hands out and the answer that it reported, as a host keeps it.

ghost use Rattle.std.specs.Prelude.{◌≡◌, ◌≢◌, ◌≤◌, ◌⊎◌, ◌++◌, ◌↔◌, true, None, Some, IfErr, IfNone, IfOk, IfSome, IsSome, MatchResult, OnErr, OnOk, drop, length, take};
ghost use Rattle.ptpm_manager.specs.declared.error.BeginError.{BeginError};
ghost use Rattle.ptpm_manager.specs.declared.error.RestoreError.{RestoreError};
ghost use Rattle.ptpm_manager.specs.declared.report.Outcome.{Outcome};
ghost use Rattle.ptpm_manager.specs.Image.{session_image};
ghost use Rattle.ptpm_manager.specs.ImageReading.{session_at};
ghost use Rattle.ptpm_manager.specs.Receiving.{NeedsMemory, received_of};
ghost use Rattle.ptpm_asker.specs.declared.stage.Stage.{Stage};
ghost use Rattle.ptpm_asker.specs.Asker.{opened, opened_new};
ghost use Rattle.ptpm_asker.specs.Turns.{asks, asks_refusal, begins_waking, can_settle, hears, lets_go, lets_go_refusal, noted, noted_refusal, saved, settles, settling_domain, unsents, wakes};
ghost use Rattle.ptpm_host.specs.declared.refusal.AskerRefusal.{AskerRefusal};
ghost use Rattle.ptpm_host.specs.Asker.{HasTurned, HasTurnedWith, IsAskerAt, asked_port, asker_refusal, asker_settings, handed_of, restore_asker_refusal, told_after, told_refusal, wanted_of};
ghost use Rattle.ptpm_host.specs.Session.{IsJudgedBy};
ghost use Rattle.ptpm_host.specs.ReportedOutcome.{outcome_octets, reported_of, reported_size};

use crate::asker_settings::AskerSettings;
use crate::handed::Handed;
use crate::refusal::{AskerRefusal, ReportRefusal, SessionRefusal};
use crate::reported_outcome::{ReportedOutcome, report_outcome};
use crate::session::asked_action;
use ptpm_asker::{Asker, DRAWN_OCTETS, Earlier, Output};
use ptpm_codec::{Buffer, OutOfMemory};
use ptpm_manager::{BeginError, GiveUpRefusal, Outcome};
use std::alloc::Global;

/// The portNumber of every port.
const EVERY_PORT: u16 = 0xffff;

/// An asker, room for the message that it hands out, and the answer that it reported last.
#[derive(Drop)]
pub struct HostedAsker {
    asker: Asker,
    /// What was handed out to be sent last.
    buffer: Buffer,
    /// None before the first report.
    told: Option<Outcome>,
}

impl HostedAsker {
    /// An asker whose session has no file yet. Takes no memory.
    pub fn start(
        alloc: Global,
        settings: &AskerSettings,
        drawn: [u8; DRAWN_OCTETS],
    ) -> Result<HostedAsker, SessionRefusal>
        ensures asker { IfOk result (λ a. IsAskerAt a
            (opened_new (asker_settings settings.now) drawn settings.now.session.first) None) }
        ensures refusal { MatchResult result (λ _. asker_refusal settings.now ≡ None)
            (λ e. asker_refusal settings.now ≡ Some e) }
    {
        settings.judge()?;
        let first = settings.session.first;
        Ok(HostedAsker::of(Asker::open_new(alloc, settings.settings(), first, drawn)))
    }

    /// An asker with the session that its file has. It is refused for the first reason that holds. Memory is asked for last, for
    /// the dataField of the request under way.
    pub fn restored(
        alloc: Global,
        settings: &AskerSettings,
        drawn: [u8; DRAWN_OCTETS],
        image: &[u8],
    ) -> Result<HostedAsker, AskerRefusal>
        ensures asker { IfOk result (λ a. IsAskerAt a
            (opened (asker_settings settings.now) drawn (session_at image.now)) None) }
        ensures judged { IsJudgedBy (restore_asker_refusal settings.now image.now)
            (AskerRefusal.Image RestoreError.OutOfMemory) result }
        ensures memory { IfErr result
            (λ e.
            e ≡ AskerRefusal.Image RestoreError.OutOfMemory
            → IsSome (session_at image.now).unanswered) }
    {
        if let Err(refusal) = settings.judge() {
            return Err(AskerRefusal::Settings(refusal));
        }
        match Asker::open(alloc, settings.settings(), drawn, image) {
            Ok(asker) => Ok(HostedAsker::of(asker)),
            Err(refusal) => Err(AskerRefusal::Image(refusal)),
        }
    }

    fn of(asker: Asker) -> HostedAsker
        ensures { IsAskerAt result asker None }
    {
        HostedAsker {
            asker,
            buffer: Buffer::new(),
            told: None,
        }
    }

    /// Asks 0 GET, 1 SET or 3 COMMAND of a managementId, with this dataField, in a domain. Port 0 and 65,535 name none. Another one
    /// is named for an id of the clock too. If it is refused, nothing changes.
    pub fn ask(
        &mut self,
        now: u64,
        tag: u64,
        action: u8,
        id: u16,
        port: u16,
        octets: &[u8],
        domain: u8,
    ) -> Result<Handed, BeginError>
        ensures turned { IfOk result (λ out. HasTurnedWith self.old
            (asks self.old.asker now tag (wanted_of action id port octets.now) domain) out self.new) }
        ensures judged { IsJudgedBy (asks_refusal self.old.asker (wanted_of action id port octets.now))
            BeginError.OutOfMemory result }
        ensures unchanged { OnErr result (IsAskerAt self.new self.old.asker self.old.told) }
        ensures message { OnErr result (self.new.buffer.items ≡ self.old.buffer.items) }
    {
        let output = self.asker.ask(
            &mut self.buffer,
            now,
            tag,
            asked_action(action),
            id,
            asked_port(port),
            octets,
            domain,
        )?;
        Ok(self.hand(output))
    }

    /// Sends the request of an earlier run again. `None`, and nothing changes, if there is none or the asker does not rest.
    pub fn settle(&mut self, now: u64, tag: u64, domain: u8) -> Option<Handed>
        ensures turned { IfSome result
            (λ out. HasTurnedWith self.old (settles self.old.asker now tag domain) out self.new) }
        ensures permitted { IsSome result ↔ (can_settle self.old.asker ≡ true) }
        ensures unchanged { IfNone result (IsAskerAt self.new self.old.asker self.old.told) }
        ensures message { IfNone result (self.new.buffer.items ≡ self.old.buffer.items) }
    {
        let output = self.asker.settle(&mut self.buffer, now, tag, domain)?;
        Some(self.hand(output))
    }

    /// Gives up the request of an earlier run. Its owner has noted that before. Takes no memory.
    pub fn let_go(&mut self) -> Result<Handed, GiveUpRefusal>
        ensures turned { IfOk result (λ out. HasTurned self.old (lets_go self.old.asker) out self.new) }
        ensures refusal { MatchResult result (λ _. lets_go_refusal self.old.asker ≡ None)
            (λ e. lets_go_refusal self.old.asker ≡ Some e) }
        ensures unchanged { OnErr result (IsAskerAt self.new self.old.asker self.old.told) }
        ensures message { OnErr result (self.new.buffer.items ≡ self.old.buffer.items) }
    {
        let output = self.asker.let_go()?;
        Ok(self.hand(output))
    }

    /// Hears a datagram. Memory is asked for the dataField of an answer alone, while one is waited for. If it is refused, nothing
    /// changes.
    pub fn hear(&mut self, datagram: &[u8]) -> Result<Handed, OutOfMemory>
        ensures turned { IfOk result
            (λ out. HasTurned self.old (hears self.old.asker datagram.now) out self.new) }
        ensures memory { OnErr result
            (NeedsMemory (received_of self.old.asker.session datagram.now)
            ⊎ NeedsMemory (received_of self.old.asker.reader datagram.now)) }
        ensures asking { OnErr result (self.old.asker.stage ≡ Stage.Asking) }
        ensures unchanged { OnErr result (IsAskerAt self.new self.old.asker self.old.told) }
        ensures message { OnErr result (self.new.buffer.items ≡ self.old.buffer.items) }
    {
        let output = self.asker.hear(datagram)?;
        Ok(self.hand(output))
    }

    /// Time has come. Only memory for a question or a read by nobody is ever refused. Then nothing changes.
    pub fn wake(&mut self, now: u64) -> Result<Handed, BeginError>
        ensures turned { IfOk result
            (λ out. HasTurnedWith self.old (wakes self.old.asker now) out self.new) }
        ensures begins { OnErr result (begins_waking self.old.asker now ≡ true) }
        ensures memory { IfErr result (λ e. e ≡ BeginError.OutOfMemory) }
        ensures unchanged { OnErr result (IsAskerAt self.new self.old.asker self.old.told) }
        ensures message { OnErr result (self.new.buffer.items ≡ self.old.buffer.items) }
    {
        let output = self.asker.wake(&mut self.buffer, now)?;
        Ok(self.hand(output))
    }

    /// There was no way for the message that was handed out. Takes no memory.
    pub fn unsent(&mut self) -> Handed
        ensures { HasTurned self.old (unsents self.old.asker) result self.new }
    {
        let output = self.asker.unsent();
        self.hand(output)
    }

    /// The session is in its file, on the disk. Takes no memory.
    pub fn saved(&mut self, now: u64) -> Handed
        ensures { HasTurnedWith self.old (saved self.old.asker now) result self.new }
    {
        let output = self.asker.saved(&mut self.buffer, now);
        self.hand(output)
    }

    /// What was handed out to be noted is written where the owner keeps it. A request that is then begun is refused for what its
    /// session refuses, and memory is asked for its dataField alone. If it is refused, nothing changes.
    pub fn noted(&mut self) -> Result<Handed, BeginError>
        ensures turned { IfOk result (λ out. HasTurned self.old (noted self.old.asker) out self.new) }
        ensures begins { OnErr result
            ((self.old.asker.stage ≡ Stage.Noting) × IsSome self.old.asker.wanted) }
        ensures judged { IsJudgedBy (noted_refusal self.old.asker) BeginError.OutOfMemory result }
        ensures unchanged { OnErr result (IsAskerAt self.new self.old.asker self.old.told) }
        ensures message { OnErr result (self.new.buffer.items ≡ self.old.buffer.items) }
    {
        let output = self.asker.noted()?;
        Ok(self.hand(output))
    }

    /// Leaves what was handed out to be sent last at the head of `octets`, and answers how many octets it has. What follows stays.
    /// `None`, and nothing is written, if there is room for fewer. Takes no memory.
    pub fn message(&self, octets: &mut [u8]) -> Option<usize>
        ensures room { IsSome result ↔ (length self.now.buffer.items ≤ length octets.old) }
        ensures size { IfSome result (λ n. n ≡ length self.now.buffer.items) }
        ensures octets { IfSome result
            (λ n. octets.new ≡ self.now.buffer.items ++ drop n octets.old) }
        ensures unchanged { IfNone result (octets.new ≡ octets.old) }
    {
        let message = self.buffer.as_slice();
        if octets.len() < message.len() {
            return None;
        }
        octets[..message.len()].copy_from_slice(message);
        Some(message.len())
    }

    /// Leaves the image of its session at the head of `octets`, as `HostedSession::image` does. Takes no memory.
    pub fn image(&self, octets: &mut [u8]) -> Option<usize>
        ensures room { IsSome result
            ↔ (length (session_image self.now.asker.session) ≤ length octets.old) }
        ensures size { IfSome result (λ n. n ≡ length (session_image self.now.asker.session)) }
        ensures octets { IfSome result
            (λ n. octets.new ≡ session_image self.now.asker.session ++ drop n octets.old) }
        ensures unchanged { IfNone result (octets.new ≡ octets.old) }
    {
        self.asker.session().image_into(octets)
    }

    /// What an earlier run left under way, until it is answered or let go. Takes no memory.
    pub fn earlier(&self) -> Earlier
        ensures { result ≡ self.now.asker.earlier }
    {
        self.asker.earlier()
    }

    /// The domain in which that is settled, if this run asks in `domain`. Takes no memory.
    pub fn settling_domain(&self, domain: u8) -> u8
        ensures { result
            ≡ settling_domain self.now.asker.earlier self.now.asker.session.domain domain }
    {
        match self.asker.earlier() {
            Earlier::Reads => domain,
            Earlier::MovesTo(there) if there == domain => domain,
            _ => self.asker.session().domain(),
        }
    }

    /// What the answer says that was reported last; a dataField is left at the head of `octets`. If it is refused, nothing is
    /// written. Takes no memory.
    pub fn report(&self, octets: &mut [u8]) -> Result<ReportedOutcome, ReportRefusal>
        ensures refusal { MatchResult result
            (λ _. told_refusal (length octets.old) self.now.told ≡ None)
            (λ e. told_refusal (length octets.old) self.now.told ≡ Some e) }
        ensures outcome { (o : Outcome) → self.now.told ≡ Some o → IfOk result (λ t. t ≡ reported_of o) }
        ensures octets { (o : Outcome) → self.now.told ≡ Some o →
            IfOk result (λ t. take (reported_size t) octets.new ≡ outcome_octets o) }
        ensures within { IfOk result (λ t. reported_size t ≤ length octets.new) }
        ensures behind { IfOk result
            (λ t. drop (reported_size t) octets.new ≡ drop (reported_size t) octets.old) }
        ensures size { length octets.new ≡ length octets.old }
        ensures untouched { OnErr result (octets.new ≡ octets.old) }
    {
        let Some(told) = &self.told else {
            return Err(ReportRefusal::NoReport);
        };
        report_outcome(told, octets)
    }

    /// Hands an output out in plain numbers, and keeps an answer that is reported.
    fn hand(&mut self, output: Output) -> Handed
        ensures handed { result ≡ handed_of output }
        ensures told { self.new.told ≡ told_after self.old.told output }
        ensures asker { self.new.asker ≡ self.old.asker }
        ensures buffer { self.new.buffer ≡ self.old.buffer }
    {
        let handed = Handed::of_output(&output);
        if let Output::Told { outcome, .. } = output {
            self.told = Some(outcome);
        }
        handed
    }
}

/// The port that is named, if one is.
fn asked_port(port: u16) -> Option<u16>
    ensures { result ≡ asked_port port }
{
    if port == 0 || port == EVERY_PORT {
        None
    } else {
        Some(port)
    }
}
