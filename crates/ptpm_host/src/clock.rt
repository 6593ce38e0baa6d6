//! A clock, as a host keeps it.

ghost use Rattle.std.specs.Prelude.{◌≡◌, ◌≢◌, ◌≤◌, Ok, None, Some, IfErr, IfOk, MatchResult, OnErr, OnOk, All, [], drop, length, take};
ghost use Rattle.std.specs.List.{AllZip};
ghost use Rattle.ptpm_data.specs.Changed.{changed};
ghost use Rattle.ptpm_data.specs.Members.{HasPort, has_port};
ghost use Rattle.ptpm_table.specs.Managers.{IsFresh};
ghost use Rattle.ptpm_agent.specs.Agent.{IsTurned};
ghost use Rattle.ptpm_agent.specs.Turn.{outbox_of, turn};
ghost use Rattle.ptpm_host.specs.Clock.{IsFreshClock, IsWhole, KeepsBehind, clock_in, handle_refusal, messages_in, start_by, start_refusal, state_in};
ghost use Rattle.ptpm_host.specs.MostSent.{most_sent};
ghost use Rattle.ptpm_host.specs.Observing.{IsObserved, observe_refusal, ports_left};
ghost use Rattle.ptpm_host.specs.Settings.{configured};
ghost use Rattle.ptpm_data.specs.Start.{unless};

use crate::device::Question;
use crate::judged::JudgedStart;
use crate::observing::{ObservedClock, ObservedPort, UNOBSERVED, place_each};
use crate::outbox::Outbox;
use crate::refusal::{HandleRefusal, StartRefusal};
use crate::sent::Sent;
use crate::settings::{ClockSettings, ManagerSettings, PortSettings};
use crate::under_way::UnderWay;
use ptpm_agent::{Agent, Verdict};
use ptpm_codec::OutOfMemory;
use ptpm_data::{ChangedMembers, DataSets, ObservationError, PORTS, PortsLeftDisabled};
use ptpm_device::RelayedId;
use ptpm_table::{HeapTable, Outgoing, ReplyTable};
use std::alloc::Global;

/// A clock. From its start or its restore on it has a block of memory with a slot of 2,144 octets for each of its managers. With more
/// than `ptpm_data::INLINE_PORTS` ports it has more blocks: one for its ports, and two for each manager. What it sends is written right
/// into places of its host. The ids of its device, if it has any, are one block more.
#[derive(Drop)]
pub struct HostedClock {
    pub(crate) agent: Agent<HeapTable>,
    /// Its device's own ids.
    pub(crate) relayed: Vec<RelayedId>,
    /// The change that its device makes.
    pub(crate) under_way: Option<UnderWay>,
}

const _: () = prove!(size_of::<HostedClock>() == 640);

/// What became of a datagram.
#[derive(Clone, Copy)]
pub struct Handled {
    pub verdict: Verdict,
    /// How many messages are sent for it.
    pub count: usize,
}

impl HostedClock {
    ghost use Rattle.ptpm_host.specs.SavingClock.{request_under_way};
    ghost use Rattle.ptpm_host.specs.UnderWay.{AnswersAsked, asked_of};

    /// A clock that has heard nothing yet, with these values and these managers. Memory that it does not keep is taken only for the
    /// call.
    pub fn start(
        alloc: Global,
        settings: &ClockSettings,
        ports: &[PortSettings],
        managers: &[ManagerSettings],
    ) -> Result<HostedClock, StartRefusal>
        ensures sets { IfOk result (λ c. start_by settings.now ports.now ≡ Ok c.agent.sets) }
        ensures table { IfOk result
            (λ c.
            IsFresh (record { 0 = settings.now.identity }) (configured managers.now)
            (⟦<HeapTable as ReplyTable>⟧.owner c.agent.table)
            (⟦<HeapTable as ReplyTable>⟧.entries c.agent.table)) }
        ensures nothing { IfOk result (λ c. (c.relayed.items ≡ []) × (c.under_way ≡ None)) }
        ensures permitted { OnOk result (start_refusal settings.now ports.now managers.now ≡ None) }
        ensures refused { IfErr result (λ e. e ≢ StartRefusal.OutOfMemory →
            start_refusal settings.now ports.now managers.now ≡ Some e) }
    {
        let judged = JudgedStart::new(alloc, settings, ports, managers)?;
        match judged.table(alloc, managers) {
            Ok(table) => Ok(HostedClock::over(alloc, judged.sets, table)),
            Err(_) => Err(StartRefusal::OutOfMemory),
        }
    }

    /// What `start` does, with the clock in a block of its own.
    pub fn start_boxed(
        alloc: Global,
        settings: &ClockSettings,
        ports: &[PortSettings],
        managers: &[ManagerSettings],
    ) -> Result<Box<HostedClock>, StartRefusal>
        ensures sets { IfOk result
            (λ c. start_by settings.now ports.now ≡ Ok c.value.agent.sets) }
        ensures fresh { IfOk result (λ c. IsFreshClock settings.now managers.now c.value) }
        ensures permitted { OnOk result (start_refusal settings.now ports.now managers.now ≡ None) }
        ensures refused { IfErr result (λ e. e ≢ StartRefusal.OutOfMemory →
            start_refusal settings.now ports.now managers.now ≡ Some e) }
    {
        let judged = JudgedStart::new(alloc, settings, ports, managers)?;
        let Ok(table) = judged.table(alloc, managers) else {
            return Err(StartRefusal::OutOfMemory);
        };
        match HostedClock::boxed(alloc, judged.sets, table) {
            Ok(clock) => Ok(clock),
            Err(_) => Err(StartRefusal::OutOfMemory),
        }
    }

    /// A clock of these data sets over this table, which are of one clock.
    #[inline(always)]
    pub(crate) fn over(alloc: Global, sets: DataSets, table: HeapTable) -> HostedClock
        requires identity { sets.default.identity ≡ (⟦<HeapTable as ReplyTable>⟧.owner table).identity }
        requires room { length sets.ports ≤ ⟦<HeapTable as ReplyTable>⟧.most table }
        ensures sets { result.agent.sets ≡ sets }
        ensures table { result.agent.table ≡ table }
        ensures relayed { result.relayed.items ≡ [] }
        ensures nothing { result.under_way ≡ None }
    {
        HostedClock {
            agent: Agent::new(sets, table),
            relayed: Vec::new(alloc),
            under_way: None,
        }
    }

    /// The same in a block of its own. Never inlined: so the stack has one such clock at most, and none while entries are read.
    #[inline(never)]
    pub(crate) fn boxed(
        alloc: Global,
        sets: DataSets,
        table: HeapTable,
    ) -> Result<Box<HostedClock>, OutOfMemory>
        requires identity { sets.default.identity ≡ (⟦<HeapTable as ReplyTable>⟧.owner table).identity }
        requires room { length sets.ports ≤ ⟦<HeapTable as ReplyTable>⟧.most table }
        ensures sets { IfOk result (λ c. c.value.agent.sets ≡ sets) }
        ensures table { IfOk result (λ c. c.value.agent.table ≡ table) }
        ensures relayed { IfOk result (λ c. c.value.relayed.items ≡ []) }
        ensures nothing { IfOk result (λ c. c.value.under_way ≡ None) }
    {
        match Box::new(alloc, HostedClock::over(alloc, sets, table)) {
            Ok(clock) => Ok(clock),
            Err(_) => Err(OutOfMemory),
        }
    }

    /// The data sets as they are.
    pub fn sets(&self) -> &DataSets
        ensures { result.now ≡ self.now.agent.sets }
    {
        self.agent.sets()
    }

    /// What its device was asked to carry out, or will be.
    pub fn under_way(&self) -> Option<Question>
        ensures { AnswersAsked (asked_of (request_under_way self.now.under_way)) result }
    {
        match &self.under_way {
            Some(under_way) => Some(under_way.question()),
            None => None,
        }
    }

    /// What becomes of a datagram that comes in at a port: one turn of the clock. What it sends is written into the first places
    /// of `room`. The places after them stay as they are, and so does what follows each message. If it is refused, nothing
    /// changes. The data sets change only with the verdict `AnsweredNew`. A host that acts on what changed calls `take` instead.
    /// Takes no memory. It is inlined, so that a host pays nothing for the call.
    #[inline(always)]
    #[tactic(auto, using(crate::specs::OutboxLaws::kept_by_none))]
    pub fn handle(
        &mut self,
        port: u16,
        datagram: &[u8],
        room: &mut [Sent],
    ) -> Result<Handled, HandleRefusal>
        ensures turned { IfOk result
            (λ h.
            IsTurned (turn (clock_in self.old).clock (state_in self.old) port datagram.now) h.verdict
            (messages_in (take h.count room.new)) (state_in self.new)) }
        ensures count { IfOk result (λ h. h.count ≤ length room.new) }
        ensures whole { IfOk result (λ h. All IsWhole (take h.count room.new)) }
        ensures places { IfOk result (λ h. drop h.count room.new ≡ drop h.count room.old) }
        ensures behind { AllZip KeepsBehind room.old room.new }
        ensures new_alone { IfOk result
            (λ h. h.verdict ≢ Verdict.AnsweredNew → self.new.agent.sets ≡ self.old.agent.sets) }
        ensures refusal { MatchResult result
            (λ _. handle_refusal (has_port port self.old.agent.sets) (most_sent (state_in self.old)) (length room.old) ≡ None)
            (λ e. handle_refusal (has_port port self.old.agent.sets) (most_sent (state_in self.old)) (length room.old) ≡ Some e) }
        ensures unchanged { OnErr result (self.new ≡ self.old) }
        ensures untouched { OnErr result (room.new ≡ room.old) }
        ensures clock { clock_in self.new ≡ clock_in self.old }
        ensures under_way { self.new.under_way ≡ self.old.under_way }
    {
        if !self.agent.sets().has_port(port) {
            return Err(HandleRefusal::NoPort);
        }
        if !self.has_room(room.len()) {
            return Err(HandleRefusal::NoRoom);
        }
        self.sent_law();
        let mut places = Outbox::new(room);
        let verdict = self.agent.handle_into(port, datagram, &mut places);
        Ok(Handled {
            verdict,
            count: places.count(),
        })
    }

    /// One turn of the clock, at a port that it has, with places enough. Never inlined: so the calls that do more than a turn have its
    /// code once, beside the call that does no more.
    #[inline(never)]
    #[tactic(auto, using(crate::specs::OutboxLaws::kept_by_none))]
    pub(crate) fn take_turn(
        &mut self,
        port: u16,
        datagram: &[u8],
        room: &mut [Sent],
        members: &mut ChangedMembers,
    ) -> Handled
        requires port { HasPort port self.old.agent.sets }
        requires room { length (outbox_of (turn (clock_in self.old).clock (state_in self.old) port datagram.now))
            ≤ length room.old }
        ensures turned { IsTurned (turn (clock_in self.old).clock (state_in self.old) port datagram.now)
            result.verdict (messages_in (take result.count room.new)) (state_in self.new) }
        ensures count { result.count ≤ length room.new }
        ensures whole { All IsWhole (take result.count room.new) }
        ensures places { drop result.count room.new ≡ drop result.count room.old }
        ensures behind { AllZip KeepsBehind room.old room.new }
        ensures new_alone { result.verdict ≢ Verdict.AnsweredNew →
            self.new.agent.sets ≡ self.old.agent.sets }
        ensures members { members.new ≡ changed self.old.agent.sets self.new.agent.sets }
        ensures clock { clock_in self.new ≡ clock_in self.old }
        ensures under_way { self.new.under_way ≡ self.old.under_way }
    {
        let mut outbox = Outbox::new(room);
        let (verdict, changed) = self.agent.change_into(port, datagram, &mut outbox);
        *members = changed;
        Handled {
            verdict,
            count: outbox.count(),
        }
    }

    /// Sets exactly the members that the host observed, of its clock and of its ports from 1 on. Exceptions: a disabled port keeps
    /// its state and is reported; a clock that is its own grandmaster shows its own quality as the grandmaster's. What
    /// is kept of each manager stays. Refused by the first reason that holds, and then nothing changes. Takes no memory. Never inlined:
    /// so the stack has the places of one such call.
    #[inline(never)]
    #[tactic(auto, using(crate::proofs::ObservedPlaces::no_port, crate::proofs::ObservedPlaces::same_clock))]
    pub fn observe(
        &mut self,
        clock: &ObservedClock,
        ports: &[ObservedPort],
    ) -> Result<PortsLeftDisabled, ObservationError>
        ensures answer { result
            ≡ unless (observe_refusal clock.now ports.now self.old) (ports_left ports.now self.old) }
        ensures observed { IsObserved clock.now ports.now self.old self.new }
        ensures under_way { self.new.under_way ≡ self.old.under_way }
        ensures unchanged { OnErr result (self.new ≡ self.old) }
    {
        if ports.len() > self.agent.sets().port_count() as usize {
            return Err(ObservationError::NoPort);
        }
        let mut places = [UNOBSERVED; PORTS];
        place_each(ports, &mut places);
        self.agent
            .observe(&clock.observation(), &places[..ports.len()])
    }
}
