//! One manager asks one clock, one request at a time.

ghost use Rattle.std.specs.Prelude.{◌≡◌, ◌≢◌, ◌≤◌, ◌⊎◌, false, true, length, Err, None, Ok, Some, ◌↔◌, IfErr, IfNone, IfOk, IfSome, IsSome, OnErr, OnOk, OnSome, MatchResult};
ghost use Rattle.ptpm_manager.specs.declared.error.BeginError.{BeginError};
ghost use Rattle.ptpm_manager.specs.declared.error.GiveUpRefusal.{GiveUpRefusal};
ghost use Rattle.ptpm_codec.specs.SequenceNumber.{number_of};
ghost use Rattle.ptpm_manager.specs.Ask.{ask_of};
ghost use Rattle.ptpm_manager.specs.Receiving.{NeedsMemory, received_of};
ghost use Rattle.ptpm_asker.specs.Question.{asked_refusal};

use crate::earlier::Earlier;
use crate::output::Output;
use crate::question::{DRAWN_OCTETS, begin_asked, begin_question, begin_read};
use crate::settings::Settings;
use crate::stage::Stage;
use ptpm_codec::{Action, Buffer, Octets, OutOfMemory};
use ptpm_manager::{Ask, BeginError, GiveUpRefusal, Outcome, Received, Session};
use std::alloc::Global;
use std::marker::Model;

/// The distance of the numbers that a new session tries: of four so far apart one is new, whatever the latest of this manager is.
const APART: u16 = 16_384;

/// How many requests a session has begun that begins no further question and request.
const USED_UP: u64 = 999_999;

/// This many answers to reads, and none to the question that runs with them, show that its number is not new.
const ENOUGH: u8 = 5;

/// One manager, one clock, one request at a time. It is handed what came in and what was done, and hands out what is to be done next.
/// After `Begun`, `Save` and `Told` it hands out nothing before that is done. Contracts see its session and its stage.
#[derive(Debug, Drop)]
pub struct Asker {
    alloc: Global,
    settings: Settings,
    /// Random octets for the question of this run.
    drawn: [u8; DRAWN_OCTETS],
    session: Session,
    /// The number of the session's first request.
    first: u16,
    /// The hops of its requests.
    hops: u8,
    stage: Stage,
    /// What the owner asked, until it is begun.
    wanted: Option<Ask>,
    /// How the owner names its request.
    tag: u64,
    /// Whether the request under way is the question.
    is_testing: bool,
    /// Whether the question was answered in this run.
    is_new: bool,
    /// Whether there is a file.
    is_kept: bool,
    /// What the file had under way.
    earlier: Earlier,
    /// How many further numbers a new session may try.
    numbers_left: u8,
    /// The latest read by nobody.
    reader: Session,
    /// How many there were.
    reads: u16,
    /// How many of them were answered, of those that ran with this number.
    readings: u8,
    /// Whether one follows the message that was handed out.
    is_read_due: bool,
    wake_at: u64,
    /// Whether a message of the request under way left in this run, before the latest.
    has_left: bool,
    /// Whether the latest message left, as far as is known.
    is_out: bool,
    /// Whether the request under way was taken back, since no message of it left.
    is_taken_back: bool,
}

impl Model for Asker {
    ghost use Rattle.ptpm_asker.specs.Asker.{AskerValue, IsAsker, asker_value};

    ghost Value = { AskerValue };

    ghost view = { asker_value };

    ghost invariant = { IsAsker };
}

impl Asker {
    ghost use Rattle.ptpm_asker.specs.Asker.{AreSettings, at_rest};
    ghost use Rattle.ptpm_asker.specs.Turns.{IsMessage, announces, asks, asks_refusal, asked_of, begins_asking, begins_waking, begins_wanted, begins_wanted_refusal, can_settle, fails, goes_on, goes_on_begun, goes_on_saved, has_enough, has_no_way, has_sent, hears, is_answered, is_busy, is_new_session, is_resting, is_used_up, later, latest, lets_go, lets_go_refusal, next, next_wake, noted, noted_refusal, reads_next, reads_wanted, renewed_for, resumes, saved, saves, sends, sends_or_tests, settled, settles, takes_back, tests_wanted, unsents, wakes};

    /// What it does, or what it waits for.
    pub fn stage(&self) -> Stage
        ensures { result ≡ self.now.stage }
    {
        self.stage
    }

    /// What the file had under way, until it is answered or let go.
    pub fn earlier(&self) -> Earlier
        ensures { result ≡ self.now.earlier }
    {
        self.earlier
    }

    /// The session, which is to be saved after `Save`.
    pub fn session(&self) -> &Session
        ensures { result.now ≡ self.now.session }
    {
        &self.session
    }

    /// Asks a request, which the owner names `tag`, in a domain, with the dataField lent. It is refused as busy if the asker does not
    /// rest, or if a request of an earlier run is not settled. Then it is refused for what a session refuses. The asker is then as
    /// it was. Memory is asked for a copy of the dataField only if nothing else refuses it.
    pub fn ask(
        &mut self,
        buffer: &mut Buffer,
        now: u64,
        tag: u64,
        action: Action,
        id: u16,
        port: Option<u16>,
        octets: &[u8],
        domain: u8,
    ) -> Result<Output, BeginError>
        ensures asker { OnOk result
            (self.new ≡ (asks self.old now tag (ask_of action id port octets.now) domain).asker) }
        ensures output { IfOk result
            (λ o. o ≡ (asks self.old now tag (ask_of action id port octets.now) domain).output) }
        ensures message { IfOk result (λ o. IsMessage o self.new buffer.old.items buffer.new.items) }
        ensures untouched { OnErr result (buffer.new.items ≡ buffer.old.items) }
        ensures permitted { OnOk result
            (asks_refusal self.old (ask_of action id port octets.now) ≡ None) }
        ensures refused { (e : BeginError)
            → asks_refusal self.old (ask_of action id port octets.now) ≡ Some e
            → result ≡ Err e }
        ensures no_other { IfErr result
            (λ e.
            e ≢ BeginError.OutOfMemory
            → asks_refusal self.old (ask_of action id port octets.now) ≡ Some e) }
        ensures unchanged { OnErr result (self.new ≡ self.old) }
    {
        self.judge(action, id, port, octets)?;
        let octets = match Octets::copy_of(self.alloc, octets) {
            Ok(octets) => octets,
            Err(_) => return Err(BeginError::OutOfMemory),
        };
        let wanted = Ask {
            action,
            id,
            port,
            octets,
        };
        match self.ask_judged(buffer, now, tag, wanted, domain) {
            Ok(output) => Ok(output),
            Err(_) => Err(BeginError::OutOfMemory),
        }
    }

    /// Sends the request of an earlier run again, under its number, with all attempts of this run. A SET or a COMMAND is sent in the
    /// domain in which it was asked. A GET is sent in this run's, and so is a SET of DOMAIN to it. `None`, and nothing changes, if
    /// there is none or the asker does not rest.
    pub fn settle(&mut self, buffer: &mut Buffer, now: u64, tag: u64, domain: u8) -> Option<Output>
        ensures asker { OnSome result (self.new ≡ (settles self.old now tag domain).asker) }
        ensures output { IfSome result (λ o. o ≡ (settles self.old now tag domain).output) }
        ensures message { IfSome result (λ o. IsMessage o self.new buffer.old.items buffer.new.items) }
        ensures untouched { IfNone result (buffer.new.items ≡ buffer.old.items) }
        ensures permitted { IsSome result ↔ (can_settle self.old ≡ true) }
        ensures unchanged { IfNone result (self.new ≡ self.old) }
    {
        if !self.can_settle() {
            return None;
        }
        let there = self.earlier.settling_domain(self.session.domain(), domain);
        self.session.retune(there);
        self.wanted = None;
        self.tag = tag;
        self.is_testing = false;
        Some(self.resume(buffer, now))
    }

    /// Gives up the request of an earlier run. Its owner has noted that before. Takes no memory.
    pub fn let_go(&mut self) -> Result<Output, GiveUpRefusal>
        ensures asker { OnOk result (self.new ≡ (lets_go self.old).asker) }
        ensures output { IfOk result (λ o. o ≡ (lets_go self.old).output) }
        ensures refusal { MatchResult result (λ _. lets_go_refusal self.old ≡ None)
            (λ e. lets_go_refusal self.old ≡ Some e) }
        ensures unchanged { OnErr result (self.new ≡ self.old) }
    {
        if !self.can_settle() {
            return Err(GiveUpRefusal::Idle);
        }
        self.session.give_up()?;
        self.wanted = None;
        self.earlier = Earlier::NoRequest;
        Ok(self.save())
    }

    /// Hears a datagram. If it answers the request under way, that is reported. If it answers the question, the number is new. Otherwise
    /// nothing changes. Memory is asked for the dataField of an answer alone; if it is refused, the asker stays as it was.
    pub fn hear(&mut self, datagram: &[u8]) -> Result<Output, OutOfMemory>
        ensures asker { OnOk result (self.new ≡ (hears self.old datagram.now).asker) }
        ensures output { IfOk result (λ o. o ≡ (hears self.old datagram.now).output) }
        ensures memory { OnErr result
            (NeedsMemory (received_of self.old.session datagram.now)
            ⊎ NeedsMemory (received_of self.old.reader datagram.now)) }
        ensures asking { OnErr result (self.old.stage ≡ Stage.Asking) }
        ensures unchanged { OnErr result (self.new ≡ self.old) }
    {
        match self.stage {
            Stage::Asking => match self.session.receive(datagram)? {
                Received::Answered(report) => Ok(self.take(report.outcome)),
                Received::Ignored(_) => {
                    if let Received::Answered(_) = self.reader.receive(datagram)? {
                        self.readings = self.readings.saturating_add(1);
                    }
                    Ok(Output::Nothing)
                }
            },
            _ => Ok(Output::Nothing),
        }
    }

    /// Time has come. Earlier than the time that was handed out, nothing changes. What was heard before is handed in first. Only
    /// memory for a question or a read by nobody is ever refused. Then the asker stays as it was.
    pub fn wake(&mut self, buffer: &mut Buffer, now: u64) -> Result<Output, BeginError>
        ensures asker { OnOk result (self.new ≡ (wakes self.old now).asker) }
        ensures output { IfOk result (λ o. o ≡ (wakes self.old now).output) }
        ensures message { IfOk result (λ o. IsMessage o self.new buffer.old.items buffer.new.items) }
        ensures untouched { OnErr result (buffer.new.items ≡ buffer.old.items) }
        ensures begins { OnErr result (begins_waking self.old now ≡ true) }
        ensures memory { IfErr result (λ e. e ≡ BeginError.OutOfMemory) }
        ensures unchanged { OnErr result (self.new ≡ self.old) }
    {
        if now < self.wake_at {
            return Ok(Output::Nothing);
        }
        match self.stage {
            Stage::Waiting => {
                let first = self.first;
                let numbers_left = self.numbers_left;
                self.test(buffer, now, first, numbers_left)
            }
            Stage::Asking => self.send_or_test(buffer, now),
            _ => Ok(Output::Nothing),
        }
    }

    /// There was no way for the message that was handed out. If none of the request left before, it is taken back. Its number is that
    /// of the next one. A question is sent again for the next request, and a request of an earlier run can be settled or let go.
    pub fn unsent(&mut self) -> Output
        ensures asker { self.new ≡ (unsents self.old).asker }
        ensures output { result ≡ (unsents self.old).output }
    {
        match self.stage {
            Stage::Asking => self.turn_back(),
            _ => Output::Nothing,
        }
    }

    /// The session is in its file, on the disk.
    pub fn saved(&mut self, buffer: &mut Buffer, now: u64) -> Output
        ensures asker { self.new ≡ (saved self.old now).asker }
        ensures output { result ≡ (saved self.old now).output }
        ensures message { IsMessage result self.new buffer.old.items buffer.new.items }
    {
        match self.stage {
            Stage::Saving => self.go_on_saved(buffer, now),
            _ => Output::Nothing,
        }
    }

    /// What was handed out to be noted is written where the owner keeps it. A request that is then begun is refused for what its
    /// session refuses, and memory is asked for its dataField alone. If it is refused, the asker stays as it was.
    pub fn noted(&mut self) -> Result<Output, BeginError>
        ensures asker { OnOk result (self.new ≡ (noted self.old).asker) }
        ensures output { IfOk result (λ o. o ≡ (noted self.old).output) }
        ensures begins { OnErr result
            ((self.old.stage ≡ Stage.Noting) × IsSome self.old.wanted) }
        ensures permitted { OnOk result (noted_refusal self.old ≡ None) }
        ensures refused { (e : BeginError) → noted_refusal self.old ≡ Some e → result ≡ Err e }
        ensures no_other { IfErr result
            (λ e. e ≢ BeginError.OutOfMemory → noted_refusal self.old ≡ Some e) }
        ensures unchanged { OnErr result (self.new ≡ self.old) }
    {
        match self.stage {
            Stage::Noting => self.begin_wanted(),
            Stage::Telling => Ok(self.save()),
            _ => Ok(Output::Nothing),
        }
    }

    // ---- parts of turns

    /// Why a request is not asked, if it is not.
    fn judge(
        &self,
        action: Action,
        id: u16,
        port: Option<u16>,
        octets: &[u8],
    ) -> Result<(), BeginError>
        ensures permitted { OnOk result
            (asks_refusal self.now (ask_of action id port octets.now) ≡ None) }
        ensures refused { (e : BeginError)
            → asks_refusal self.now (ask_of action id port octets.now) ≡ Some e
            → result ≡ Err e }
        ensures no_other { IfErr result
            (λ e.
            e ≢ BeginError.OutOfMemory
            → asks_refusal self.now (ask_of action id port octets.now) ≡ Some e) }
    {
        if self.is_busy() {
            return Err(BeginError::Busy);
        }
        self.settings.judge(self.alloc, action, id, port, octets)
    }

    /// Asks a request that was judged. A question before it is refused for want of memory alone.
    fn ask_judged(
        &mut self,
        buffer: &mut Buffer,
        now: u64,
        tag: u64,
        wanted: Ask,
        domain: u8,
    ) -> Result<Output, OutOfMemory>
        requires { asked_refusal self.old.settings.ports wanted ≡ None }
        ensures asker { OnOk result (self.new ≡ (asks self.old now tag wanted domain).asker) }
        ensures output { IfOk result (λ o. o ≡ (asks self.old now tag wanted domain).output) }
        ensures message { IfOk result (λ o. IsMessage o self.new buffer.old.items buffer.new.items) }
        ensures untouched { OnErr result (buffer.new.items ≡ buffer.old.items) }
        ensures unchanged { OnErr result (self.new ≡ self.old) }
    {
        if self.earlier.is_left_question() {
            self.want(tag, wanted, domain);
            self.is_testing = true;
            return Ok(self.resume(buffer, now));
        }
        let begun = if self.is_used_up() {
            self.renew(&wanted)
        } else if !self.is_new && self.is_kept {
            begin_question(&mut self.session, &wanted, &self.drawn)
        } else {
            Ok(())
        };
        if begun.is_err() {
            return Err(OutOfMemory);
        }
        self.want(tag, wanted, domain);
        Ok(self.go_on_asking(now))
    }

    /// With this session, and nothing wanted.
    pub(crate) fn at_rest(
        alloc: Global,
        settings: Settings,
        drawn: [u8; DRAWN_OCTETS],
        session: Session,
        first: u16,
        hops: u8,
        is_kept: bool,
        earlier: Earlier,
        numbers_left: u8,
    ) -> Asker
        requires { AreSettings settings }
        ensures { result ≡ at_rest settings drawn session first hops is_kept earlier numbers_left }
    {
        Asker {
            alloc,
            settings,
            drawn,
            session,
            first,
            hops,
            stage: Stage::Resting,
            wanted: None,
            tag: 0,
            is_testing: false,
            is_new: false,
            is_kept,
            earlier,
            numbers_left,
            reader: settings.reader(alloc, 0, 0),
            reads: 0,
            readings: 0,
            is_read_due: false,
            wake_at: 0,
            has_left: false,
            is_out: false,
            is_taken_back: false,
        }
    }

    fn is_busy(&self) -> bool
        ensures { result ≡ is_busy self.now }
    {
        !self.is_resting() || self.earlier.is_unsettled()
    }

    fn can_settle(&self) -> bool
        ensures { result ≡ can_settle self.now }
    {
        self.is_resting() && self.earlier.is_unsettled()
    }

    fn is_resting(&self) -> bool
        ensures { result ≡ is_resting self.now.stage }
    {
        matches!(self.stage, Stage::Resting)
    }

    /// The sequence number of the latest request.
    fn latest(&self) -> u16
        ensures { result ≡ latest self.now }
    {
        number_of(self.first, self.session.issued())
    }

    /// The sequence number of the next request.
    fn next(&self) -> u16
        ensures { result ≡ next self.now }
    {
        number_of(self.first, self.session.issued() + 1)
    }

    /// Whether the session has no further numbers for a question and a request, or requests of other hops.
    fn is_used_up(&self) -> bool
        ensures { result ≡ is_used_up self.now }
    {
        self.session.issued() >= USED_UP || self.hops != self.settings.hops
    }

    /// Has the session go on as a new one, with its next number and the hops of this run. If the question is to be asked in it, it is
    /// begun.
    fn renew(&mut self, wanted: &Ask) -> Result<(), BeginError>
        ensures renewed { OnOk result (self.new ≡ renewed_for self.old wanted.now) }
        ensures unchanged { OnErr result (self.new ≡ self.old) }
    {
        let first = self.next();
        let mut session = self
            .settings
            .fresh_session(self.alloc, first, self.session.domain());
        if !self.is_new && self.is_kept {
            begin_question(&mut session, wanted, &self.drawn)?;
        }
        self.session = session;
        self.first = first;
        self.hops = self.settings.hops;
        Ok(())
    }

    /// Keeps what is wanted, and asks in its domain.
    fn want(&mut self, tag: u64, wanted: Ask, domain: u8)
        requires { asked_refusal self.old.settings.ports wanted ≡ None }
        ensures { self.new ≡ asked_of self.old tag wanted domain }
    {
        self.session.retune(domain);
        self.tag = tag;
        self.wanted = Some(wanted);
    }

    /// Goes on with what is wanted. If there is a file, the question is begun.
    fn go_on_asking(&mut self, now: u64) -> Output
        ensures asker { self.new ≡ (goes_on_begun self.old now).asker }
        ensures output { result ≡ (goes_on_begun self.old now).output }
    {
        if self.is_new {
            self.announce()
        } else if self.is_kept {
            self.is_testing = true;
            self.save()
        } else {
            let time = now.saturating_add(self.settings.wait);
            self.stage = Stage::Waiting;
            self.wake_at = time;
            Output::WakeAt { time }
        }
    }

    /// There was no way for the message that was handed out.
    fn turn_back(&mut self) -> Output
        ensures asker { self.new ≡ (has_no_way self.old).asker }
        ensures output { result ≡ (has_no_way self.old).output }
    {
        if !self.is_out {
            return Output::Nothing;
        }
        self.is_out = false;
        if self.has_left {
            return Output::Nothing;
        }
        if self.is_testing {
            self.earlier = Earlier::Question;
        } else if !self.earlier.is_unsettled() {
            return self.take_back();
        }
        self.stage = Stage::Resting;
        Output::Failed {
            was_sent: false,
            is_read_answered: false,
        }
    }

    /// Takes the request back: its number is that of the next one.
    fn take_back(&mut self) -> Output
        ensures asker { self.new ≡ (takes_back self.old).asker }
        ensures output { result ≡ (takes_back self.old).output }
    {
        let first = self.latest();
        let domain = self.session.domain();
        self.session = self.settings.fresh_session(self.alloc, first, domain);
        self.first = first;
        self.hops = self.settings.hops;
        self.wanted = None;
        self.earlier = Earlier::NoRequest;
        self.is_taken_back = true;
        self.save()
    }

    fn save(&mut self) -> Output
        ensures asker { self.new ≡ (saves self.old).asker }
        ensures output { result ≡ (saves self.old).output }
    {
        self.stage = Stage::Saving;
        Output::Save
    }

    fn announce(&mut self) -> Output
        ensures asker { self.new ≡ (announces self.old).asker }
        ensures output { result ≡ (announces self.old).output }
    {
        self.stage = Stage::Noting;
        self.is_testing = false;
        Output::Begun {
            tag: self.tag,
            number: self.next(),
        }
    }

    fn fail(&mut self) -> Output
        ensures asker { self.new ≡ (fails self.old).asker }
        ensures output { result ≡ (fails self.old).output }
    {
        self.stage = Stage::Over;
        Output::Failed {
            was_sent: self.has_left || self.is_out,
            is_read_answered: self.readings > 0,
        }
    }

    /// What was sent leaves with this message in the buffer.
    fn note_sent(&mut self, now: u64) -> Output
        ensures asker { self.new ≡ has_sent self.old now }
        ensures output { result ≡ Output.Send (next_wake self.old now) }
    {
        self.is_read_due = self.reads_next();
        let wake_at = if self.is_read_due {
            now
        } else {
            now.saturating_add(self.settings.timeout)
        };
        self.stage = Stage::Asking;
        self.wake_at = wake_at;
        self.has_left = self.has_left || self.is_out;
        self.is_out = true;
        Output::Send { wake_at }
    }

    /// Whether a read runs with the next message.
    fn reads_next(&self) -> bool
        ensures { result ≡ reads_next self.now }
    {
        self.is_testing
            && !self.is_kept
            && (self.has_left || self.is_out || self.settings.attempts == 1)
    }

    /// Sends the request under way, while attempts are left.
    fn send(&mut self, buffer: &mut Buffer, now: u64) -> Output
        ensures asker { self.new ≡ (sends self.old now).asker }
        ensures output { result ≡ (sends self.old now).output }
        ensures message { IsMessage result self.new buffer.old.items buffer.new.items }
    {
        match self.session.send(buffer) {
            Ok(()) => self.note_sent(now),
            Err(_) => self.fail(),
        }
    }

    /// Sends the request under way with all attempts of this run.
    fn resume(&mut self, buffer: &mut Buffer, now: u64) -> Output
        ensures asker { self.new ≡ (resumes self.old now).asker }
        ensures output { result ≡ (resumes self.old now).output }
        ensures message { IsMessage result self.new buffer.old.items buffer.new.items }
    {
        match self.session.resume(self.settings.attempts) {
            Ok(()) => {
                self.has_left = false;
                self.is_out = false;
                self.send(buffer, now)
            }
            Err(_) => self.fail(),
        }
    }

    /// Sends the request under way, or asks whether the next number is new.
    fn send_or_test(&mut self, buffer: &mut Buffer, now: u64) -> Result<Output, BeginError>
        ensures asker { OnOk result (self.new ≡ (sends_or_tests self.old now).asker) }
        ensures output { IfOk result (λ o. o ≡ (sends_or_tests self.old now).output) }
        ensures message { IfOk result (λ o. IsMessage o self.new buffer.old.items buffer.new.items) }
        ensures untouched { OnErr result (buffer.new.items ≡ buffer.old.items) }
        ensures begins { OnErr result (begins_asking self.old ≡ true) }
        ensures memory { IfErr result (λ e. e ≡ BeginError.OutOfMemory) }
        ensures unchanged { OnErr result (self.new ≡ self.old) }
    {
        if self.is_read_due {
            return self.read(buffer, now);
        }
        if !self.has_enough() && self.session.send(buffer).is_ok() {
            return Ok(self.note_sent(now));
        }
        if !self.is_new_session() || self.numbers_left == 0 || self.readings == 0 {
            return Ok(self.fail());
        }
        let first = ((self.first as u32 + APART as u32) % 65_536) as u16;
        let numbers_left = self.numbers_left - 1;
        self.test(buffer, now, first, numbers_left)
    }

    /// Whether a new session asks whether its number is new.
    fn is_new_session(&self) -> bool
        ensures { result ≡ is_new_session self.now }
    {
        self.is_testing && !self.is_kept
    }

    /// Whether the clock has answered enough reads, and not the question.
    fn has_enough(&self) -> bool
        ensures { result ≡ has_enough self.now }
    {
        self.is_new_session() && self.readings >= self.settings.attempts.min(ENOUGH)
    }

    /// Reads by nobody what the question asks.
    #[tactic(auto, using(crate::proofs::Permitted::begins_fresh), unfolding(ptpm_manager::specs::Session::send_refusal))]
    fn read(&mut self, buffer: &mut Buffer, now: u64) -> Result<Output, BeginError>
        ensures asker { OnOk result (self.new ≡ (reads_wanted self.old self.old.wanted now).asker) }
        ensures output { IfOk result
            (λ o. o ≡ (reads_wanted self.old self.old.wanted now).output) }
        ensures message { IfOk result (λ o. IsMessage o self.new buffer.old.items buffer.new.items) }
        ensures untouched { OnErr result (buffer.new.items ≡ buffer.old.items) }
        ensures memory { IfErr result (λ e. e ≡ BeginError.OutOfMemory) }
        ensures unchanged { OnErr result (self.new ≡ self.old) }
    {
        let Some(wanted) = &self.wanted else {
            return Ok(Output::Nothing);
        };
        let number = number_of(self.first, self.reads as u64 + 1);
        let mut reader = self
            .settings
            .reader(self.alloc, number, self.session.domain());
        begin_read(&mut reader, wanted)?;
        if reader.send(buffer).is_err() {
            return Ok(Output::Nothing);
        }
        let wake_at = now.saturating_add(self.settings.timeout);
        self.reader = reader;
        self.reads = self.reads.wrapping_add(1);
        self.is_read_due = false;
        self.wake_at = wake_at;
        Ok(Output::Read { wake_at })
    }

    /// Asks in a session at this number whether it is new.
    #[tactic(auto, using(crate::proofs::Permitted::begins_fresh))]
    fn test(
        &mut self,
        buffer: &mut Buffer,
        now: u64,
        first: u16,
        numbers_left: u8,
    ) -> Result<Output, BeginError>
        ensures asker { OnOk result
            (self.new ≡ (tests_wanted self.old first numbers_left self.old.wanted now).asker) }
        ensures output { IfOk result
            (λ o. o ≡ (tests_wanted self.old first numbers_left self.old.wanted now).output) }
        ensures message { IfOk result (λ o. IsMessage o self.new buffer.old.items buffer.new.items) }
        ensures untouched { OnErr result (buffer.new.items ≡ buffer.old.items) }
        ensures memory { IfErr result (λ e. e ≡ BeginError.OutOfMemory) }
        ensures unchanged { OnErr result (self.new ≡ self.old) }
    {
        let Some(wanted) = &self.wanted else {
            return Ok(Output::Nothing);
        };
        let mut session = self
            .settings
            .fresh_session(self.alloc, first, self.session.domain());
        begin_question(&mut session, wanted, &self.drawn)?;
        self.session = session;
        self.first = first;
        self.hops = self.settings.hops;
        self.numbers_left = numbers_left;
        self.readings = 0;
        self.is_testing = true;
        self.is_new = false;
        self.has_left = false;
        self.is_out = false;
        Ok(self.send(buffer, now))
    }

    /// Takes the answer to the request under way.
    fn take(&mut self, outcome: Outcome) -> Output
        ensures asker { self.new ≡ (is_answered (settled self.old) outcome).asker }
        ensures output { result ≡ (is_answered (settled self.old) outcome).output }
    {
        self.earlier = Earlier::NoRequest;
        if !self.is_testing {
            self.stage = Stage::Telling;
            return Output::Told {
                tag: self.tag,
                number: self.latest(),
                outcome,
            };
        }
        self.is_new = true;
        if self.is_kept {
            self.announce()
        } else {
            self.save()
        }
    }

    /// Sends what is under way. If nothing is, announces what is wanted.
    fn go_on_saved(&mut self, buffer: &mut Buffer, now: u64) -> Output
        ensures asker { self.new ≡ (goes_on_saved self.old now).asker }
        ensures output { result ≡ (goes_on_saved self.old now).output }
        ensures message { IsMessage result self.new buffer.old.items buffer.new.items }
    {
        self.is_kept = true;
        match self.session.resume(self.settings.attempts) {
            Ok(()) => {
                self.has_left = false;
                self.is_out = false;
                self.send(buffer, now)
            }
            Err(_) => self.go_on(),
        }
    }

    /// Announces what is wanted. If nothing is, it rests.
    fn go_on(&mut self) -> Output
        ensures asker { self.new ≡ (goes_on self.old.wanted self.old).asker }
        ensures output { result ≡ (goes_on self.old.wanted self.old).output }
    {
        if self.wanted.is_some() {
            return self.announce();
        }
        self.stage = Stage::Resting;
        if self.is_taken_back {
            self.is_taken_back = false;
            return Output::Failed {
                was_sent: false,
                is_read_answered: false,
            };
        }
        Output::Nothing
    }

    /// Begins what is wanted.
    fn begin_wanted(&mut self) -> Result<Output, BeginError>
        ensures asker { OnOk result (self.new ≡ (begins_wanted self.old self.old.wanted).asker) }
        ensures output { IfOk result (λ o. o ≡ (begins_wanted self.old self.old.wanted).output) }
        ensures begins { OnErr result (IsSome self.old.wanted) }
        ensures permitted { OnOk result (begins_wanted_refusal self.old self.old.wanted ≡ None) }
        ensures refused { (e : BeginError)
            → begins_wanted_refusal self.old self.old.wanted ≡ Some e
            → result ≡ Err e }
        ensures no_other { IfErr result
            (λ e.
            e ≢ BeginError.OutOfMemory
            → begins_wanted_refusal self.old self.old.wanted ≡ Some e) }
        ensures unchanged { OnErr result (self.new ≡ self.old) }
    {
        let Some(wanted) = &self.wanted else {
            self.stage = Stage::Resting;
            return Ok(Output::Nothing);
        };
        begin_asked(
            &mut self.session,
            wanted.action,
            wanted.id,
            wanted.port,
            wanted.octets.as_slice(),
        )?;
        self.wanted = None;
        self.is_testing = false;
        Ok(self.save())
    }
}

/// The sequence number of the k-th request of a session whose first has this number.
fn number_of(first: u16, k: u64) -> u16
    requires { k ≤ 1000001 }
    ensures { result ≡ number_of first k }
{
    ((first as u64 + k.saturating_sub(1)) % 65_536) as u16
}
