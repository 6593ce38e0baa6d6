//! One event after another.

ghost use Rattle.std.specs.Prelude.{◌≡◌, ◌<◌, ◌≤◌, ◌++◌, ℕ, All, IfErr, IfOk, List, OnErr, OnOk, false, flat_map, length};
ghost use Rattle.std.specs.List.{list_any};
ghost use Rattle.ptpm_codec.specs.Identity.{same_clock, same_identity};
ghost use Rattle.ptpm_codec.specs.Layout.{source_port_identity};
ghost use Rattle.ptpm_data.specs.Members.{HasPort};
ghost use Rattle.ptpm_agent.specs.Agent.{IsTurned};
ghost use Rattle.ptpm_agent.specs.CarriedOut.{after_requests};
ghost use Rattle.ptpm_agent.specs.Turn.{turn};
ghost use Rattle.ptpm_table.specs.Outbox.{sent};
ghost use Rattle.ptpm_network.specs.ByManager.{Account, StaysInTime, account_from, account_with, is_late_for};
ghost use Rattle.ptpm_network.specs.CarriedOut.{carried_by_event, carried_by_events};
ghost use Rattle.ptpm_network.specs.Events as machine;
ghost use Rattle.ptpm_network.specs.Events.{is_forged};
ghost use Rattle.ptpm_network.specs.Served.{IsServedSoFar};
ghost use Rattle.ptpm_network.specs.Stands.{StandsAfter};
ghost use Rattle.ptpm_network.specs.Machine.{AreInTime, state_after};
ghost use Rattle.ptpm_network.specs.Network.{Network};
ghost use Rattle.ptpm_network.specs.Replying.{origin_by, posted_by};
ghost use Rattle.ptpm_world.specs.Stepping.{IsMachineRun, IsMachineStep, IsRun, IsStep, carried_out};
ghost use Rattle.ptpm_world.specs.declared.took.StepError.{StepError};
ghost use Rattle.ptpm_world.specs.Frames.{HasRoom, held_in, link_ends, origin_of};
ghost use Rattle.ptpm_world.specs.Placed.{names_in, place_in, placed};
ghost use Rattle.ptpm_world.specs.Running.{AreLinks, IsOf, IsOfSession, IsStoredFrame, agent_clock, agent_state, running};
ghost use Rattle.ptpm_manager.specs.Receiving.{left_by, received_of};
ghost use Rattle.ptpm_world.specs.Took.{heard, reports_in};

use crate::frames::{Frames, Origin};
use crate::network_laws::placed_event;
use crate::running_clock::RunningClock;
use crate::took::{StepError, Took};
use crate::world::{RunningSession, World};
use ptpm_agent::Verdict;
use ptpm_codec::{Buffer, PortIdentity, source_port_identity};
use ptpm_manager::{Ask, Received};
use ptpm_script::{End, Event, NetworkLink};
use ptpm_table::{OUTBOX_MESSAGES, Outbox, ReplyTable};

impl World {
    /// Lets an event happen. An event is refused for the first reason that holds, and then the network stays as it was.
    /// Only `OutOfMemory` may come in place of any other answer.
    ///
    /// If no frame was delivered late before, and none is now, it is where the event leads the network machine. It refuses what
    /// that refuses, for the same reason. Late or not, each clock has what it had before, after the request of its turn at the
    /// event if the verdict is `AnsweredNew`. Nothing else changes its data sets or what it keeps. And a session that was served
    /// so far is served after it, unless it is a late delivery for this very session (`IsServedSoFar`).
    pub fn step(&mut self, event: &Event) -> Result<Took, StepError>
        ensures step { (N : Network)
            → IsOf N self.old
            → IsStep N self.old self.new (placed (names_in self.old) event.now) result }
        ensures machine { (N : Network) (past : List machine.Event)
            → IsOf N self.old
            → StandsAfter N past (running self.old)
            → IsMachineStep N past self.new (placed (names_in self.old) event.now) result }
        ensures carried { (N : Network) (c : ℕ)
            → IsOf N self.old
            → OnOk result ((running self.new).clock c
            ≡ after_requests (N.clock c) ((running self.old).clock c)
            (carried_by_event N (running self.old) c (placed (names_in self.old) event.now))) }
        ensures served { (N : Network) (s : ℕ) (a : Account)
            → IsOf N self.old
            → IsServedSoFar N s (running self.old) a
            → is_late_for N s (running self.old) (placed (names_in self.old) event.now) ≡ false
            → OnOk result (IsServedSoFar N s (running self.new)
            (account_with N s (running self.old) (placed (names_in self.old) event.now) a)) }
        ensures unchanged { OnErr result (running self.new ≡ running self.old) }
        ensures names { names_in self.new ≡ names_in self.old }
    {
        // it is in the range that the laws of networks ask for
        placed_event(event);
        self.dispatch(event)
    }

    /// Lets events happen in their order. Stops at the first that is refused, and names its place, counted from 0; those before
    /// it happened.
    ///
    /// The events may lose, repeat, reorder or duplicate messages in any way. Let none that happens deliver a frame late, and let
    /// none have done so before. Then each clock's data sets are those after its managers' delivered requests, each applied once
    /// in order of first acceptance. Repeats of the latest request get the one reply that is kept, and repeats of older ones get
    /// none. Each manager reports those replies. Strangers and refused SETs change no data set (`Headline`).
    ///
    /// Late or not, each clock has what it had before, after the requests of its turns that were `AnsweredNew`. Each is carried
    /// out as the clock was in its turn, in their order. Nothing else changes its data sets or what it keeps.
    ///
    /// One late manager disturbs at most its own requests. Let no request of a session be delivered late at its target, and no
    /// reply late to it. Then it stays served (`IsServedSoFar`), however late the messages of others come. Its target carried out
    /// its requests from 1 on, each once, in this order: all that were begun, or all except the last. Its reports are what the
    /// replies given then say, in order: as many as were begun, or one less. A copy of the last request that was carried out gets
    /// that reply again, and a copy of an older one gets none.
    pub fn run(&mut self, events: &[Event]) -> Result<(), (usize, StepError)>
        ensures run { (N : Network)
            → IsOf N self.old
            → IsRun N self.old self.new events.now result }
        ensures place { IfErr result (λ e. e.0 < length events.now) }
        ensures machine { (N : Network) (past : List machine.Event)
            → IsOf N self.old
            → StandsAfter N past (running self.old)
            → AreInTime N (state_after N past) (carried_out self.old result events.now)
            → IsMachineRun N past self.old self.new events.now result }
        ensures carried { (N : Network) (c : ℕ)
            → IsOf N self.old
            → (running self.new).clock c
            ≡ after_requests (N.clock c) ((running self.old).clock c)
            (carried_by_events N (running self.old) c
            (carried_out self.old result events.now)) }
        ensures served { (N : Network) (s : ℕ) (a : Account)
            → IsOf N self.old
            → IsServedSoFar N s (running self.old) a
            → StaysInTime N s (running self.old) (carried_out self.old result events.now)
            → IsServedSoFar N s (running self.new)
            (account_from N s (running self.old) a (carried_out self.old result events.now)) }
        ensures names { names_in self.new ≡ names_in self.old }
    {
        for place in 0..events.len() {
            if let Err(error) = self.step(&events[place]) {
                return Err((place, error));
            }
        }
        Ok(())
    }

    /// Hands an event to the session or clock that it names, or to the end of its frame.
    fn dispatch(&mut self, event: &Event) -> Result<Took, StepError>
        ensures step { (N : Network) → IsOf N self.old
            → IsStep N self.old self.new (placed (names_in self.old) event.now) result }
        ensures unchanged { OnErr result (running self.new ≡ running self.old) }
        ensures names { names_in self.new ≡ names_in self.old }
    {
        match event {
            Event::Begin(name, ask) => self.begin(name.as_str(), ask),
            Event::Send(name) => self.send(name.as_str()),
            Event::Resume(name, attempts) => self.resume(name.as_str(), *attempts),
            Event::Retune(name, domain) => self.retune(name.as_str(), *domain),
            Event::Deliver(number) => self.deliver(*number),
            Event::Stranger(name, port, octets) => {
                self.intrude(name.as_str(), *port, octets.as_slice())
            }
        }
    }

    fn begin(&mut self, name: &str, ask: &Ask) -> Result<Took, StepError>
        ensures step { (N : Network)
            → IsOf N self.old
            → IsStep N self.old self.new
            (machine.Begin (place_in (names_in self.old).sessions name.now) ask.now) result }
        ensures unchanged { OnErr result (running self.new ≡ running self.old) }
        ensures names { names_in self.new ≡ names_in self.old }
    {
        let Some(place) = self.session_place(name) else {
            return Err(StepError::NoSuchName);
        };
        self.sessions[place].session.begin(ask)?;
        Ok(Took::Fine)
    }

    fn send(&mut self, name: &str) -> Result<Took, StepError>
        ensures step { (N : Network)
            → IsOf N self.old
            → IsStep N self.old self.new
            (machine.Send (place_in (names_in self.old).sessions name.now)) result }
        ensures unchanged { OnErr result (running self.new ≡ running self.old) }
        ensures names { names_in self.new ≡ names_in self.old }
    {
        let Some(place) = self.session_place(name) else {
            return Err(StepError::NoSuchName);
        };
        if self.frames.is_full() {
            return Err(StepError::FramesAtMaximum);
        }
        self.frames.make_room()?;
        let session = &mut self.sessions[place].session;
        session.send(&mut self.buffer)?;
        let place = place as u16;
        let origin = Origin::Request {
            session: place,
            index: session.issued(),
        };
        self.frames.post(
            self.links.as_slice(),
            End::Session(place),
            self.buffer.as_slice(),
            origin,
        );
        Ok(Took::Fine)
    }

    fn resume(&mut self, name: &str, attempts: u8) -> Result<Took, StepError>
        ensures step { (N : Network)
            → IsOf N self.old
            → IsStep N self.old self.new
            (machine.Resume (place_in (names_in self.old).sessions name.now) attempts) result }
        ensures unchanged { OnErr result (running self.new ≡ running self.old) }
        ensures names { names_in self.new ≡ names_in self.old }
    {
        let Some(place) = self.session_place(name) else {
            return Err(StepError::NoSuchName);
        };
        self.sessions[place].session.resume(attempts)?;
        Ok(Took::Fine)
    }

    fn retune(&mut self, name: &str, domain: u8) -> Result<Took, StepError>
        ensures step { (N : Network)
            → IsOf N self.old
            → IsStep N self.old self.new
            (machine.Retune (place_in (names_in self.old).sessions name.now) domain) result }
        ensures unchanged { OnErr result (running self.new ≡ running self.old) }
        ensures names { names_in self.new ≡ names_in self.old }
    {
        let Some(place) = self.session_place(name) else {
            return Err(StepError::NoSuchName);
        };
        self.sessions[place].session.retune(domain);
        Ok(Took::Fine)
    }

    /// A frame reaches its end. Room for what a clock then sends is asked for before the frame is lent.
    fn deliver(&mut self, number: u32) -> Result<Took, StepError>
        ensures step { (N : Network)
            → IsOf N self.old
            → IsStep N self.old self.new (machine.Deliver number) result }
        ensures unchanged { OnErr result (running self.new ≡ running self.old) }
        ensures names { names_in self.new ≡ names_in self.old }
    {
        self.frames.make_room()?;
        let Some(frame) = self.frames.get(number) else {
            return Err(StepError::NoSuchFrame);
        };
        if self.frames.is_full() {
            return Err(StepError::FramesAtMaximum);
        }
        match frame.end() {
            End::Clock(place, port) => {
                let origin = frame.origin();
                let clock = &mut self.clocks[place as usize];
                let verdict = clock.take_turn(port, frame.octets(), &mut self.outbox);
                post_turn(
                    &mut self.frames,
                    self.links.as_slice(),
                    place,
                    port,
                    origin,
                    verdict,
                    self.outbox.entries(),
                );
                Ok(Took::AtClock(verdict))
            }
            End::Session(place) => self.sessions[place as usize].hear(frame.octets()),
        }
    }

    /// A stranger's datagram comes in at a port of a clock.
    fn intrude(&mut self, name: &str, port: u16, datagram: &[u8]) -> Result<Took, StepError>
        ensures step { (N : Network)
            → IsOf N self.old
            → IsStep N self.old self.new
            (machine.Stranger (place_in (names_in self.old).clocks name.now) port datagram.now)
            result }
        ensures unchanged { OnErr result (running self.new ≡ running self.old) }
        ensures names { names_in self.new ≡ names_in self.old }
    {
        let Some(place) = self.clock_place(name) else {
            return Err(StepError::NoSuchName);
        };
        if !self.clocks[place].agent.sets().has_port(port) {
            return Err(StepError::NoSuchName);
        }
        if self.is_forged(datagram) {
            return Err(StepError::Forged);
        }
        if self.frames.is_full() {
            return Err(StepError::FramesAtMaximum);
        }
        self.frames.make_room()?;
        let clock = &mut self.clocks[place];
        let verdict = clock.take_turn(port, datagram, &mut self.outbox);
        post_turn(
            &mut self.frames,
            self.links.as_slice(),
            place as u8,
            port,
            Origin::Other,
            verdict,
            self.outbox.entries(),
        );
        Ok(Took::AtClock(verdict))
    }

    /// Whether a stranger's datagram has the identity of a clock or of a session at the place where a message has its source.
    fn is_forged(&self, datagram: &[u8]) -> bool
        ensures { (N : Network) → IsOf N self.now → result ≡ is_forged N datagram.now }
    {
        let Some(source) = source_port_identity(datagram) else {
            return false;
        };
        is_of_clock(self.clocks.as_slice(), &source)
            || is_of_session(self.sessions.as_slice(), &source)
    }
}

/// Whether an identity is of one of these clocks.
fn is_of_clock(clocks: &[RunningClock], who: &PortIdentity) -> bool
    ensures { result ≡ list_any (λ x. same_clock who.now.clock x.agent.table.clock) clocks.now }
{
    clocks
        .iter()
        .any(|clock| who.clock == clock.agent.table().clock())
}

/// Whether an identity is of one of these sessions.
fn is_of_session(sessions: &[RunningSession], who: &PortIdentity) -> bool
    ensures { result ≡ list_any (λ x. same_identity who.now x.identity) sessions.now }
{
    sessions.iter().any(|session| *who == session.identity)
}

impl RunningClock {
    /// The clock takes its turn at a datagram. The outbox then holds what it sends, and nothing else.
    fn take_turn(&mut self, ingress: u16, datagram: &[u8], outbox: &mut Outbox) -> Verdict
        requires port { HasPort ingress self.old.agent.sets }
        ensures turned { IsTurned
            (turn (agent_clock self.old.agent) (agent_state self.old.agent) ingress datagram.now)
            result outbox.new (agent_state self.new.agent) }
        ensures clock { agent_clock self.new.agent ≡ agent_clock self.old.agent }
        ensures name { self.new.name ≡ self.old.name }
    {
        self.agent.handle(ingress, datagram, outbox)
    }
}

impl RunningSession {
    /// A datagram comes in at the session, which keeps the report if it is the answer. If memory is refused, the
    /// session stays as it was.
    fn hear(&mut self, datagram: &[u8]) -> Result<Took, StepError>
        ensures answers { IfOk result (λ t. t ≡ heard (received_of self.old.session datagram.now)) }
        ensures session { OnOk result
            (self.new.session
            ≡ left_by self.old.session (received_of self.old.session datagram.now)) }
        ensures reports { OnOk result
            (self.new.reports.items
            ≡ self.old.reports.items
            ++ reports_in (received_of self.old.session datagram.now)) }
        ensures refused { IfErr result (λ e. e ≡ StepError.OutOfMemory) }
        ensures unchanged { OnErr result
            ((self.new.session ≡ self.old.session)
            × (self.new.reports.items ≡ self.old.reports.items)) }
        ensures name { self.new.name ≡ self.old.name }
        ensures identity { self.new.identity ≡ self.old.identity }
    {
        if self.reports.reserve(1).is_err() {
            return Err(StepError::OutOfMemory);
        }
        match self.session.receive(datagram)? {
            Received::Answered(report) => {
                self.reports.push_reserved(report);
                Ok(Took::Answered)
            }
            Received::Ignored(reason) => Ok(Took::Ignored(reason)),
        }
    }
}

/// Sends what a clock left in the outbox in its turn at a datagram. Copies that it passes on belong to what the datagram belongs
/// to. A reply to a numbered request belongs to that request, and any other reply to nothing.
fn post_turn(
    frames: &mut Frames,
    links: &[NetworkLink],
    place: u8,
    ingress: u16,
    origin: Origin,
    verdict: Verdict,
    entries: &[(u16, Buffer)],
)
    requires room { HasRoom OUTBOX_MESSAGES frames.old }
    requires few { length entries.now ≤ OUTBOX_MESSAGES }
    requires links { (counts : List ℕ) × (sessions : ℕ) × AreLinks counts sessions links.now }
    ensures frames { held_in frames.new
        ≡ held_in frames.old
        ++ flat_map
        (posted_by (link_ends links.now) place ingress (origin_of origin)
        (origin_by verdict (origin_of origin))) (sent entries.now) }
    ensures stored { (counts : List ℕ) (sessions : ℕ)
        → All (IsStoredFrame counts sessions) frames.old.stored.items
        → AreLinks counts sessions links.now
        → IsOfSession sessions origin
        → All (IsStoredFrame counts sessions) frames.new.stored.items }
{
    let reply = reply_origin(origin, verdict);
    for (port, message) in entries {
        let origin = if *port == ingress { reply } else { origin };
        frames.post(links, End::Clock(place, *port), message.as_slice(), origin);
    }
}

/// What a clock's reply belongs to.
fn reply_origin(origin: Origin, verdict: Verdict) -> Origin
    ensures origin { origin_of result ≡ origin_by verdict (origin_of origin) }
    ensures session { (sessions : ℕ) → IsOfSession sessions origin → IsOfSession sessions result }
{
    match (verdict, origin) {
        (Verdict::AnsweredNew | Verdict::AnsweredRepeat, Origin::Request { session, index }) => {
            Origin::Reply { session, index }
        }
        _ => Origin::Other,
    }
}
