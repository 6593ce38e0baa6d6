//! A clock that goes on while its host saves it. Nothing is given out that is not saved yet.

ghost use Rattle.std.specs.Prelude.{◌≡◌, ◌+◌, ◌≤◌, length};
ghost use Rattle.ptpm_host.specs.Queue.{queued};

use crate::clock::HostedClock;
use crate::device::{Asking, Question, Say};
use crate::observing::{ObservedClock, ObservedPort, UNOBSERVED, place_each};
use crate::owner_change::asks_to_move;
use crate::queue::Queue;
use crate::refusal::{
    ChangeRefusal, DecideRefusal, HandleRefusal, ImageRefusal, SavedRefusal, SavingRefusal,
    TakeRefusal, UndertakeRefusal,
};
use crate::sent::Sent;
use crate::taken::Taken;
use crate::under_way::{UnderWay, first_message};
use ptpm_agent::Verdict;
use ptpm_codec::view;
use ptpm_data::{
    ChangedMembers, DataSets, INLINE_PORTS, ObservationError, PORTS, PortsLeftDisabled,
};
use ptpm_device::DeviceSay;
use ptpm_table::ReplyTable;
use std::alloc::Global;
use std::mem;

/// A clock that takes datagrams while it is saved. What a manager asks of it alone, and what the device's owner asks, is carried
/// out at once. If that changes it, or if something waits already, the messages for it wait until a save has it. Anybody else is
/// answered at once, by what was saved last and observed since.
#[derive(Drop)]
pub struct SavingClock {
    /// The clock as it is. Images are made of it.
    clock: Box<HostedClock>,
    /// The data sets that others are shown: those of the clock while nothing waits. It is a copy, since the clock goes on changing
    /// while it is saved.
    shown: DataSets,
    /// Those of the latest image, with what was observed since. `image` makes this copy, and `saved` shows it.
    copied: DataSets,
    queue: Queue,
    /// How many messages were released, and not taken out yet. They come first.
    ready: usize,
    /// How many wait for the latest image. They come next. The rest waits for a later one.
    first: usize,
    /// The token of the latest image, modulo 2^64.
    images: u64,
    /// Whether that image may still be said to be saved.
    is_imaged: bool,
    /// Whether anything waits to be saved.
    waits: bool,
    /// Whether the clock was changed since that image.
    is_changed: bool,
    /// Whether a restart would find the clock: it was restored, or it was saved once.
    is_begun: bool,
    /// What comes before the host acts.
    acting: Acting,
    ghost shown_ports: { length shown.ports ≡ length clock.value.agent.sets.ports },
    ghost copied_ports: { length copied.ports ≡ length clock.value.agent.sets.ports },
    ghost inside: { ready + first ≤ length (queued queue) },
}

/// What comes before the host asks its device for what is under way.
#[derive(Clone, Copy, PartialEq, Eq)]
enum Acting {
    /// It did, or a restart found this, or nothing is under way.
    Nothing,
    /// An image that has it, and the save of this.
    AnImage,
    /// The save of the latest image.
    ItsSave,
}

/// What the host does once an image is saved.
#[derive(Clone, Copy)]
pub enum Saved {
    /// Nothing more.
    Saved,
    /// It asks its device for what is under way.
    ActNow,
}

impl SavingClock {
    ghost use Rattle.std.specs.Prelude.{◌≢◌, ◌%◌, ◌^◌, ◌==◌, ◌<◌, ◌++◌, ◌∷◌, ◌↔◌, ◌||◌, ◌&&◌, if◌then◌else◌, ℕ, All, IfErr, IfNone, IfOk, IfSome, IsSome, IsTrue, MatchResult, None, Ok, OnErr, OnOk, Some, [], drop, false, is_ok, is_some, not, take, true};
    ghost use Rattle.std.specs.List.{AllZip};
    ghost use Rattle.ptpm_codec.specs.Layout.{message_octets};
    ghost use Rattle.ptpm_data.specs.Changed.{changed, no_members};
    ghost use Rattle.ptpm_data.specs.Members.{HasPort, has_port};
    ghost use Rattle.ptpm_device.specs.Asking.{asked, wanted};
    ghost use Rattle.ptpm_data.specs.Start.{unless};
    ghost use Rattle.ptpm_device.specs.Saying as says;
    ghost use Rattle.ptpm_device.specs.Saying.{IsGiven, said_value, turn_said};
    ghost use Rattle.ptpm_saved.specs.Batching.{Confirms, GivesOut, Handles, Observes, begun};
    ghost use Rattle.ptpm_saved.specs.BatchingClock.{is_of_manager};
    ghost use Rattle.ptpm_saved.specs.Image.{clock_image};
    ghost use Rattle.ptpm_saved.specs.SavingClock.{Datagram, is_new};
    ghost use Rattle.ptpm_host.specs.Blanks.{AreBlanked};
    ghost use Rattle.ptpm_host.specs.Changing.{IsChangedHere, change_refusal, request_here};
    ghost use Rattle.ptpm_host.specs.Clock.{IsWhole, KeepsBehind, clock_in, message_in, messages_in, state_in};
    ghost use Rattle.ptpm_host.specs.Coming.{Changed, ClockBatch, Decides, Heard, Undertakes, datagram_in, turn_of, undertaken};
    ghost use Rattle.ptpm_host.specs.Device.{Answers, say_in};
    ghost use Rattle.ptpm_host.specs.MostSent.{most_sent};
    ghost use Rattle.ptpm_host.specs.Observing.{IsObserved, clock_observation, observe_refusal, port_observations, ports_left};
    ghost use Rattle.ptpm_host.specs.SavingClock.{IsAsBatch, IsCalled, IsCalledAt, IsNotSaving, KeepsImage, acting_once_imaged, acts_once_saved, called_at, clock_state_in, decide_refusal, free_places, is_behind, is_for_live, is_full, is_stopped, is_unsaved, request_under_way, shown_state, state_asked, take_refusal, undertake_refusal};
    ghost use Rattle.ptpm_host.specs.UnderWay.{AnswersAsked, asked_of, image_with};
    ghost use Rattle.ptpm_host.specs.Undertaking.{asked_once_saved};

    /// This clock, and how many messages may wait. `saved` says whether a restart would find it as it is. So it is
    /// right after it was restored. Otherwise it takes nothing before it is saved for the first time. The places are asked for
    /// here alone.
    pub fn new(
        alloc: Global,
        clock: Box<HostedClock>,
        saved: bool,
        places: usize,
    ) -> Result<SavingClock, SavingRefusal>
        ensures as_batch { IfOk result
            (λ c. (count : ℕ) → IsAsBatch c (begun (clock_state_in clock.value)) count) }
        ensures clock { IfOk result (λ c. c.clock ≡ clock) }
        ensures begun { IfOk result (λ c. c.is_begun ≡ saved) }
        ensures images { IfOk result (λ c. c.images ≡ 0) }
        ensures free { IfOk result (λ c. free_places c ≡ places) }
        ensures permitted { OnOk result (most_sent (state_in clock.value) ≤ places) }
        ensures refused { IfErr result (IsNotSaving clock.value places) }
    {
        if !clock.has_room(places) {
            return Err(SavingRefusal::NoRoom(clock));
        }
        let Ok(queue) = Queue::new(alloc, places) else {
            return Err(SavingRefusal::OutOfMemory(clock));
        };
        let Ok(shown) = clock.sets().copy_in(alloc) else {
            return Err(SavingRefusal::OutOfMemory(clock));
        };
        let Ok(copied) = clock.sets().copy_in(alloc) else {
            return Err(SavingRefusal::OutOfMemory(clock));
        };
        Ok(SavingClock {
            clock,
            shown,
            copied,
            queue,
            ready: 0,
            first: 0,
            images: 0,
            is_imaged: false,
            waits: false,
            is_changed: false,
            is_begun: saved,
            acting: Acting::Nothing,
        })
    }

    /// The clock, which from now on sends its messages at once. Messages that wait are lost.
    pub fn into_clock(self) -> Box<HostedClock>
        ensures { result.value ≡ self.clock.value }
    {
        self.clock
    }

    /// The clock as it is, with all that is not saved.
    pub fn clock(&self) -> &HostedClock
        ensures { result.now ≡ self.now.clock.value }
    {
        self.clock.as_ref()
    }

    /// The data sets that others are shown.
    pub fn shown(&self) -> &DataSets
        ensures { result.now ≡ self.now.shown }
    {
        &self.shown
    }

    /// Whether something has to be saved.
    pub fn is_unsaved(&self) -> bool
        ensures { result ≡ is_unsaved self.now }
    {
        self.waits || !self.is_begun
    }

    /// How many messages more may wait.
    pub fn free(&self) -> usize
        ensures { result ≡ free_places self.now }
    {
        self.queue.free()
    }

    /// Whether a datagram is judged by the clock as it is. So it is if nothing waits, for one of the owner, and for one of a manager for
    /// this clock alone. Any other is judged by what is shown.
    pub fn is_for_live(&self, port: u16, datagram: &[u8], of_owner: bool) -> bool
        ensures { result ≡ is_for_live self.now port datagram.now of_owner }
    {
        !self.waits || of_owner || self.is_of_manager(port, datagram)
    }

    /// Whether it is a message of a manager for this clock alone.
    fn is_of_manager(&self, port: u16, datagram: &[u8]) -> bool
        ensures { result ≡ is_of_manager (clock_in self.now.clock.value).clock (port, datagram.now) }
    {
        let Ok(message) = view(datagram) else {
            return false;
        };
        let table = self.clock.agent.table();
        message.target().clock == table.clock() && table.knows(&message.source())
    }

    /// What `HostedClock::ask` does, by the clock as it is or as it is shown (`is_for_live`). Nothing changes.
    pub fn ask(&mut self, port: u16, datagram: &[u8]) -> Result<Asking, HandleRefusal>
        ensures asked { IfOk result (Answers
            (asked (clock_in self.old.clock.value).rows (clock_in self.old.clock.value).clock
            (state_asked self.old port datagram.now false) datagram.now)
            (wanted (clock_in self.old.clock.value).clock
            (state_asked self.old port datagram.now false) datagram.now)) }
        ensures here { is_ok result ≡ has_port port self.old.clock.value.agent.sets }
        ensures refused { IfErr result (λ e. e ≡ HandleRefusal.NoPort) }
        ensures unchanged { self.new ≡ self.old }
    {
        if self.is_for_live(port, datagram, false) {
            return self.clock.ask(port, datagram);
        }
        self.clock.agent.swap_sets(&mut self.shown);
        let asking = self.clock.ask(port, datagram);
        self.clock.agent.swap_sets(&mut self.shown);
        asking
    }

    /// What becomes of a datagram that comes in at a port, with what the device says of it. `of_owner` says that the device's
    /// owner sent it. Then no device is asked, and nothing of it is kept. What is sent at once is written into the first places of
    /// `room`, and the places after them stay. What waits is kept here. The places of `room` that were used for it are blank. If
    /// it is refused, nothing changes. Takes no memory.
    pub fn take(
        &mut self,
        port: u16,
        datagram: &[u8],
        say: &Say,
        of_owner: bool,
        room: &mut [Sent],
        members: &mut ChangedMembers,
    ) -> Result<Taken, TakeRefusal>
        ensures called { IfOk result (λ t. (o : says.Say) → say_in say.now ≡ Ok o →
            IsCalled self.old (Handles (datagram_in port datagram.now o of_owner))
            (messages_in (take t.count room.new)) self.new) }
        ensures verdict { IfOk result (λ t. (o : says.Say) → say_in say.now ≡ Ok o → t.verdict
            ≡ (turn_of (clock_in self.old.clock.value)
            (state_asked self.old port datagram.now of_owner) port datagram.now o of_owner).verdict) }
        ensures members { OnOk result (members.new
            ≡ changed self.old.clock.value.agent.sets self.new.clock.value.agent.sets) }
        ensures new_alone { IfOk result (λ t. t.verdict ≢ Verdict.AnsweredNew
            → members.new ≡ no_members) }
        ensures waits { IfOk result (λ t. self.new.waits ≡ (self.old.waits || is_new t.verdict)) }
        ensures free { IfOk result (λ t. free_places self.new + t.waiting ≡ free_places self.old) }
        ensures count { IfOk result (λ t. t.count ≤ length room.new) }
        ensures whole { IfOk result (λ t. All IsWhole (take t.count room.new)) }
        ensures places { IfOk result (λ t. drop (t.count + t.waiting) room.new
            ≡ drop (t.count + t.waiting) room.old) }
        ensures behind { IfOk result (λ t. t.waiting ≡ 0 → AllZip KeepsBehind room.old room.new) }
        ensures blanked { IfOk result
            (λ t. t.waiting ≢ 0 → (t.count ≡ 0) × AreBlanked t.waiting room.old room.new) }
        ensures refusal { MatchResult result
            (λ _. take_refusal self.old port datagram.now say.now of_owner (length room.old) ≡ None)
            (λ e. take_refusal self.old port datagram.now say.now of_owner (length room.old) ≡ Some e) }
        ensures unchanged { OnErr result (self.new ≡ self.old) }
        ensures untouched { OnErr result (room.new ≡ room.old) }
        ensures untold { OnErr result (members.new ≡ members.old) }
        ensures clock { clock_in self.new.clock.value ≡ clock_in self.old.clock.value }
        ensures under_way { self.new.clock.value.under_way ≡ self.old.clock.value.under_way }
        ensures begun { self.new.is_begun ≡ self.old.is_begun }
        ensures token { KeepsImage self.old self.new }
    {
        let said = match self.clock.said(port, say, room.len()) {
            Ok(said) => said,
            Err(refusal) => return Err(TakeRefusal::Said(refusal)),
        };
        if self.is_behind(port, datagram, of_owner) {
            return Err(TakeRefusal::UnderWay);
        }
        let is_for_live = self.is_for_live(port, datagram, of_owner);
        if self.is_full(is_for_live) {
            return Err(TakeRefusal::Unsaved);
        }
        if !is_for_live {
            return Ok(self.take_shown(port, datagram, said, room, members));
        }
        if self.waits {
            Ok(self.take_more(port, datagram, said, of_owner, room, members))
        } else {
            Ok(self.take_first(port, datagram, said, of_owner, room, members))
        }
    }

    /// Whether a datagram comes after what is under way: it is of the same manager for this clock alone, or another change. Of those
    /// of the owner it is a SET of DOMAIN, so what is under way is decided in the domain that it came in.
    fn is_behind(&self, port: u16, datagram: &[u8], of_owner: bool) -> bool
        ensures { result ≡ is_behind self.now port datagram.now of_owner }
    {
        let Some(under_way) = &self.clock.under_way else {
            return false;
        };
        if of_owner {
            return asks_to_move(datagram);
        }
        under_way.is_of_source(datagram) && self.is_of_manager(port, datagram)
            || self.clock.asks_change(datagram)
    }

    /// Does what `ask` does. If it is a change, it is under way from now on, and in each image. Then something waits to be saved.
    /// Takes no memory.
    pub fn undertake(&mut self, port: u16, datagram: &[u8]) -> Result<Asking, UndertakeRefusal>
        ensures called { OnOk result
            (IsCalledAt self.old (Handles (Undertakes port datagram.now)) self.new) }
        ensures asked { IfOk result (Answers
            (asked (clock_in self.old.clock.value).rows (clock_in self.old.clock.value).clock
            (state_asked self.old port datagram.now false) datagram.now)
            (wanted (clock_in self.old.clock.value).clock
            (state_asked self.old port datagram.now false) datagram.now)) }
        ensures under_way { OnOk result (request_under_way self.new.clock.value.under_way
            ≡ (undertaken (clock_in self.old.clock.value) (clock_state_in self.old.clock.value)
            port datagram.now).under_way) }
        ensures waits { OnOk result (self.new.waits
            ≡ (self.old.waits || is_some (asked (clock_in self.old.clock.value).rows (clock_in self.old.clock.value).clock
            (state_in self.old.clock.value) datagram.now))) }
        ensures others { OnOk result (asked (clock_in self.old.clock.value).rows (clock_in self.old.clock.value).clock
            (state_in self.old.clock.value) datagram.now ≡ None → self.new ≡ self.old) }
        ensures agent { self.new.clock.value.agent ≡ self.old.clock.value.agent }
        ensures free { free_places self.new ≡ free_places self.old }
        ensures begun { self.new.is_begun ≡ self.old.is_begun }
        ensures token { KeepsImage self.old self.new }
        ensures refusal { MatchResult result
            (λ _. undertake_refusal self.old port datagram.now ≡ None)
            (λ e. undertake_refusal self.old port datagram.now ≡ Some e) }
        ensures unchanged { OnErr result (self.new ≡ self.old) }
    {
        if !self.clock.sets().has_port(port) {
            return Err(UndertakeRefusal::NoPort);
        }
        if self.is_stopped() {
            return Err(UndertakeRefusal::Unsaved);
        }
        let Ok(asking) = self.ask(port, datagram) else {
            unreachable!()
        };
        if !self.clock.asks_change(datagram) {
            return Ok(asking);
        }
        if self.clock.under_way.is_some() {
            return Err(UndertakeRefusal::UnderWay);
        }
        self.begin_change(port, datagram);
        Ok(asking)
    }

    /// Has a change under way, while nothing is.
    fn begin_change(&mut self, port: u16, datagram: &[u8])
        requires asks { is_some (asked (clock_in self.old.clock.value).rows (clock_in self.old.clock.value).clock (state_in self.old.clock.value) datagram.now) ≡ true }
        requires nothing { self.old.clock.value.under_way ≡ None }
        ensures called { IsCalledAt self.old (Handles (Undertakes port datagram.now)) self.new }
        ensures under_way { request_under_way self.new.clock.value.under_way
            ≡ Some (port, message_octets datagram.now) }
        ensures waits { self.new.waits ≡ true }
        ensures agent { self.new.clock.value.agent ≡ self.old.clock.value.agent }
        ensures free { free_places self.new ≡ free_places self.old }
        ensures begun { self.new.is_begun ≡ self.old.is_begun }
        ensures token { KeepsImage self.old self.new }
    {
        self.clock.under_way = Some(UnderWay::of(port, first_message(datagram)));
        self.waits = true;
        self.is_changed = true;
        self.acting = Acting::AnImage;
    }

    /// What its device was asked to carry out, or will be.
    pub fn under_way(&self) -> Option<Question>
        ensures { AnswersAsked (asked_of (request_under_way self.now.clock.value.under_way)) result }
    {
        self.clock.under_way()
    }

    /// The turn of what is under way, with what the device says of it. Nothing is under way then. Its messages wait, and the places
    /// of `room` that were used for them are blank. If it is refused, nothing changes. Takes no memory.
    pub fn decide(
        &mut self,
        say: &Say,
        room: &mut [Sent],
        members: &mut ChangedMembers,
    ) -> Result<Taken, DecideRefusal>
        ensures called { OnOk result ((o : says.Say) → say_in say.now ≡ Ok o →
            IsCalled self.old (Handles (Decides o)) [] self.new) }
        ensures verdict { IfOk result (λ t. (o : says.Say) (x : Datagram) → say_in say.now ≡ Ok o
            → request_under_way self.old.clock.value.under_way ≡ Some x
            → t.verdict ≡ (turn_said (clock_in self.old.clock.value).rows (clock_in self.old.clock.value).clock
            (state_in self.old.clock.value) o x.0 x.1).verdict) }
        ensures members { OnOk result (members.new
            ≡ changed self.old.clock.value.agent.sets self.new.clock.value.agent.sets) }
        ensures nothing { OnOk result (self.new.clock.value.under_way ≡ None) }
        ensures waits { OnOk result (self.new.waits ≡ true) }
        ensures free { IfOk result (λ t. free_places self.new + t.waiting ≡ free_places self.old) }
        ensures count { IfOk result (λ t. t.count ≡ 0) }
        ensures blanked { IfOk result (λ t. AreBlanked t.waiting room.old room.new) }
        ensures refusal { MatchResult result
            (λ _. decide_refusal self.old self.old.clock.value.under_way say.now (length room.old) ≡ None)
            (λ e. decide_refusal self.old self.old.clock.value.under_way say.now (length room.old) ≡ Some e) }
        ensures unchanged { OnErr result (self.new ≡ self.old) }
        ensures untouched { OnErr result (room.new ≡ room.old) }
        ensures untold { OnErr result (members.new ≡ members.old) }
        ensures clock { clock_in self.new.clock.value ≡ clock_in self.old.clock.value }
        ensures begun { self.new.is_begun ≡ self.old.is_begun }
        ensures token { KeepsImage self.old self.new }
    {
        let Some(under_way) = self.clock.under_way else {
            return Err(DecideRefusal::NothingUnderWay);
        };
        let said = match self.clock.said(under_way.port, say, room.len()) {
            Ok(said) => said,
            Err(refusal) => return Err(DecideRefusal::Said(refusal)),
        };
        if self.is_full(true) {
            return Err(DecideRefusal::Unsaved);
        }
        Ok(self.take_decided(&under_way, said, room, members))
    }

    /// Carries out what is under way.
    fn take_decided(
        &mut self,
        under_way: &UnderWay,
        said: DeviceSay<'_>,
        room: &mut [Sent],
        members: &mut ChangedMembers,
    ) -> Taken
        requires under_way { self.old.clock.value.under_way ≡ Some under_way.now }
        requires port { HasPort under_way.now.port self.old.clock.value.agent.sets }
        requires room { most_sent (state_in self.old.clock.value) ≤ length room.old }
        requires free { most_sent (state_in self.old.clock.value) ≤ free_places self.old }
        requires given { IsGiven said }
        requires ready { self.old.ready ≡ 0 }
        ensures called { IsCalled self.old (Handles (Decides (said_value said.entry))) [] self.new }
        ensures verdict { result.verdict ≡ (turn_said (clock_in self.old.clock.value).rows (clock_in self.old.clock.value).clock
            (state_in self.old.clock.value) (said_value said.entry) under_way.now.port
            (take under_way.now.size under_way.now.octets)).verdict }
        ensures members { members.new
            ≡ changed self.old.clock.value.agent.sets self.new.clock.value.agent.sets }
        ensures nothing { self.new.clock.value.under_way ≡ None }
        ensures still { self.new.waits ≡ true }
        ensures free { free_places self.new + result.waiting ≡ free_places self.old }
        ensures begun { self.new.is_begun ≡ self.old.is_begun }
        ensures token { KeepsImage self.old self.new }
        ensures count { result.count ≡ 0 }
        ensures blanked { AreBlanked result.waiting room.old room.new }
        ensures clock { clock_in self.new.clock.value ≡ clock_in self.old.clock.value }
    {
        let handled = self.clock.carry_out(
            under_way.port,
            under_way.message(),
            said,
            false,
            room,
            members,
        );
        self.queue.take_over(room, handled.count);
        self.clock.under_way = None;
        self.waits = true;
        self.is_changed = true;
        self.acting = Acting::Nothing;
        Taken {
            verdict: handled.verdict,
            count: 0,
            waiting: handled.count,
        }
    }

    /// Whether it was never saved, or released messages were not taken out.
    fn is_stopped(&self) -> bool
        ensures { result ≡ is_stopped self.now }
    {
        !self.is_begun || self.ready > 0
    }

    /// Whether the clock takes nothing now: it was never saved, released messages were not taken out, or what may wait has no
    /// room.
    fn is_full(&self, is_for_live: bool) -> bool
        ensures { result ≡ is_full self.now is_for_live }
    {
        !self.is_begun || self.ready > 0 || (is_for_live && !self.clock.has_room(self.free()))
    }

    /// Answers a datagram by what is shown, while something waits. It changes nothing.
    fn take_shown(
        &mut self,
        port: u16,
        datagram: &[u8],
        said: DeviceSay<'_>,
        room: &mut [Sent],
        members: &mut ChangedMembers,
    ) -> Taken
        requires port { HasPort port self.old.clock.value.agent.sets }
        requires room { most_sent (state_in self.old.clock.value) ≤ length room.old }
        requires given { IsGiven said }
        requires waits { self.old.waits ≡ true }
        requires ready { self.old.ready ≡ 0 }
        requires other { is_of_manager (clock_in self.old.clock.value).clock (port, datagram.now) ≡ false }
        ensures called { IsCalled self.old (Handles (Heard port datagram.now (said_value said.entry)))
            (messages_in (take result.count room.new)) self.new }
        ensures verdict { result.verdict ≡ (turn_said (clock_in self.old.clock.value).rows (clock_in self.old.clock.value).clock
            (shown_state self.old) (said_value said.entry) port datagram.now).verdict }
        ensures new { is_new result.verdict ≡ false }
        ensures waiting { result.waiting ≡ 0 }
        ensures changed { members.new ≡ no_members }
        ensures sets { self.new.clock.value.agent.sets ≡ self.old.clock.value.agent.sets }
        ensures queue { self.new.queue ≡ self.old.queue }
        ensures still { self.new.waits ≡ true }
        ensures begun { self.new.is_begun ≡ self.old.is_begun }
        ensures token { KeepsImage self.old self.new }
        ensures count { result.count ≤ length room.new }
        ensures whole { All IsWhole (take result.count room.new) }
        ensures places { drop result.count room.new ≡ drop result.count room.old }
        ensures behind { AllZip KeepsBehind room.old room.new }
        ensures clock { clock_in self.new.clock.value ≡ clock_in self.old.clock.value }
        ensures under_way { self.new.clock.value.under_way ≡ self.old.clock.value.under_way }
    {
        self.clock.agent.swap_sets(&mut self.shown);
        let handled = self
            .clock
            .carry_out(port, datagram, said, false, room, members);
        self.clock.agent.swap_sets(&mut self.shown);
        *members = ChangedMembers::NONE;
        Taken {
            verdict: handled.verdict,
            count: handled.count,
            waiting: 0,
        }
    }

    /// Carries a datagram out while nothing waits. If that changes the clock, its messages wait.
    fn take_first(
        &mut self,
        port: u16,
        datagram: &[u8],
        said: DeviceSay<'_>,
        of_owner: bool,
        room: &mut [Sent],
        members: &mut ChangedMembers,
    ) -> Taken
        requires port { HasPort port self.old.clock.value.agent.sets }
        requires room { most_sent (state_in self.old.clock.value) ≤ length room.old }
        requires free { most_sent (state_in self.old.clock.value) ≤ free_places self.old }
        requires given { IsGiven said }
        requires waits { self.old.waits ≡ false }
        requires ready { self.old.ready ≡ 0 }
        ensures called { IsCalled self.old
            (Handles (datagram_in port datagram.now (said_value said.entry) of_owner))
            (messages_in (take result.count room.new)) self.new }
        ensures verdict { result.verdict ≡ (turn_of (clock_in self.old.clock.value)
            (state_in self.old.clock.value) port datagram.now (said_value said.entry) of_owner).verdict }
        ensures members { members.new
            ≡ changed self.old.clock.value.agent.sets self.new.clock.value.agent.sets }
        ensures new_alone { result.verdict ≢ Verdict.AnsweredNew → members.new ≡ no_members }
        ensures still { self.new.waits ≡ is_new result.verdict }
        ensures free { free_places self.new + result.waiting ≡ free_places self.old }
        ensures begun { self.new.is_begun ≡ self.old.is_begun }
        ensures token { KeepsImage self.old self.new }
        ensures count { result.count ≤ length room.new }
        ensures whole { All IsWhole (take result.count room.new) }
        ensures places { drop (result.count + result.waiting) room.new
            ≡ drop (result.count + result.waiting) room.old }
        ensures behind { result.waiting ≡ 0 → AllZip KeepsBehind room.old room.new }
        ensures blanked { result.waiting ≢ 0
            → (result.count ≡ 0) × AreBlanked result.waiting room.old room.new }
        ensures clock { clock_in self.new.clock.value ≡ clock_in self.old.clock.value }
        ensures under_way { self.new.clock.value.under_way ≡ self.old.clock.value.under_way }
    {
        let handled = self
            .clock
            .carry_out(port, datagram, said, of_owner, room, members);
        if handled.verdict != Verdict::AnsweredNew {
            return Taken {
                verdict: handled.verdict,
                count: handled.count,
                waiting: 0,
            };
        }
        self.queue.take_over(room, handled.count);
        self.waits = true;
        self.is_changed = true;
        Taken {
            verdict: handled.verdict,
            count: 0,
            waiting: handled.count,
        }
    }

    /// Carries a datagram out while something waits. Its messages wait too.
    fn take_more(
        &mut self,
        port: u16,
        datagram: &[u8],
        said: DeviceSay<'_>,
        of_owner: bool,
        room: &mut [Sent],
        members: &mut ChangedMembers,
    ) -> Taken
        requires port { HasPort port self.old.clock.value.agent.sets }
        requires room { most_sent (state_in self.old.clock.value) ≤ length room.old }
        requires free { most_sent (state_in self.old.clock.value) ≤ free_places self.old }
        requires given { IsGiven said }
        requires waits { self.old.waits ≡ true }
        requires ready { self.old.ready ≡ 0 }
        requires held { (of_owner || is_of_manager (clock_in self.old.clock.value).clock (port, datagram.now)) ≡ true }
        ensures called { IsCalled self.old
            (Handles (datagram_in port datagram.now (said_value said.entry) of_owner)) [] self.new }
        ensures verdict { result.verdict ≡ (turn_of (clock_in self.old.clock.value)
            (state_in self.old.clock.value) port datagram.now (said_value said.entry) of_owner).verdict }
        ensures members { members.new
            ≡ changed self.old.clock.value.agent.sets self.new.clock.value.agent.sets }
        ensures new_alone { result.verdict ≢ Verdict.AnsweredNew → members.new ≡ no_members }
        ensures still { self.new.waits ≡ true }
        ensures free { free_places self.new + result.waiting ≡ free_places self.old }
        ensures begun { self.new.is_begun ≡ self.old.is_begun }
        ensures token { KeepsImage self.old self.new }
        ensures count { result.count ≡ 0 }
        ensures blanked { AreBlanked result.waiting room.old room.new }
        ensures same { result.waiting ≡ 0 → room.new ≡ room.old }
        ensures clock { clock_in self.new.clock.value ≡ clock_in self.old.clock.value }
        ensures under_way { self.new.clock.value.under_way ≡ self.old.clock.value.under_way }
    {
        let handled = self
            .clock
            .carry_out(port, datagram, said, of_owner, room, members);
        self.queue.take_over(room, handled.count);
        self.is_changed = self.is_changed_by(handled.verdict);
        Taken {
            verdict: handled.verdict,
            count: 0,
            waiting: handled.count,
        }
    }

    /// Whether the clock was changed since the latest image, after this verdict too.
    fn is_changed_by(&self, verdict: Verdict) -> bool
        ensures { result ≡ (self.now.is_changed || is_new verdict) }
    {
        self.is_changed || verdict == Verdict::AnsweredNew
    }

    /// What `HostedClock::observe` does, to the clock as it is. What it shows moves by the same observation, and so does the
    /// latest image of it, each if its own data sets permit that. Nothing is saved for it. If nothing waits, an image that was
    /// made before is of another state then. Takes no memory. Never inlined: see `HostedClock::observe`.
    #[inline(never)]
    #[tactic(auto, using(crate::proofs::ObservedPlaces::no_port, crate::proofs::ObservedPlaces::same_clock))]
    pub fn observe(
        &mut self,
        clock: &ObservedClock,
        ports: &[ObservedPort],
    ) -> Result<PortsLeftDisabled, ObservationError>
        ensures called { OnOk result (IsCalledAt self.old
            (Observes (record {
              clock = clock_observation clock.now;
              ports = port_observations ports.now;
            }))
            self.new) }
        ensures answer { result
            ≡ unless (observe_refusal clock.now ports.now self.old.clock.value)
            (ports_left ports.now self.old.clock.value) }
        ensures observed { IsObserved clock.now ports.now self.old.clock.value
            self.new.clock.value }
        ensures under_way { self.new.clock.value.under_way ≡ self.old.clock.value.under_way }
        ensures waits { self.new.waits ≡ self.old.waits }
        ensures free { free_places self.new ≡ free_places self.old }
        ensures begun { self.new.is_begun ≡ self.old.is_begun }
        ensures token { OnOk result ((self.new.images ≡ self.old.images)
            × (self.new.is_imaged ≡ (self.old.is_imaged && self.old.waits))) }
        ensures unchanged { OnErr result (self.new ≡ self.old) }
    {
        if ports.len() > self.clock.sets().port_count() as usize {
            return Err(ObservationError::NoPort);
        }
        let observation = clock.observation();
        let mut places = [UNOBSERVED; PORTS];
        place_each(ports, &mut places);
        let ports = &places[..ports.len()];
        let left = self.clock.agent.observe(&observation, ports)?;
        let _ = self.shown.observe(&observation, ports);
        let _ = self.copied.observe(&observation, ports);
        self.is_imaged = self.keeps_image();
        Ok(left)
    }

    /// Whether the latest image still counts after an observation: only if something waits.
    fn keeps_image(&self) -> bool
        ensures { result ≡ (self.now.is_imaged && self.now.waits) }
    {
        self.is_imaged && self.waits
    }

    /// What `HostedClock::change_here` does. Then something waits to be saved. Takes no memory.
    pub fn change_here(
        &mut self,
        action: u8,
        id: u16,
        port: u16,
        octets: &[u8],
    ) -> Result<ChangedMembers, ChangeRefusal>
        ensures called { OnOk result
            (IsCalledAt self.old (Handles (Changed (request_here action id port octets.now))) self.new) }
        ensures changed { OnOk result
            (IsChangedHere (request_here action id port octets.now) self.old.clock.value
            self.new.clock.value) }
        ensures under_way { self.new.clock.value.under_way ≡ self.old.clock.value.under_way }
        ensures members { IfOk result
            (λ members.
            members
            ≡ changed self.old.clock.value.agent.sets self.new.clock.value.agent.sets) }
        ensures waits { OnOk result (self.new.waits ≡ true) }
        ensures free { free_places self.new ≡ free_places self.old }
        ensures begun { self.new.is_begun ≡ self.old.is_begun }
        ensures token { KeepsImage self.old self.new }
        ensures refusal { MatchResult result
            (λ _.
            change_refusal (request_here action id port octets.now) self.old.clock.value
            ≡ None)
            (λ e.
            change_refusal (request_here action id port octets.now) self.old.clock.value
            ≡ Some e) }
        ensures unchanged { OnErr result (self.new ≡ self.old) }
    {
        let members = self.clock.change_here(action, id, port, octets)?;
        self.waits = true;
        self.is_changed = true;
        Ok(members)
    }

    /// Leaves the clock's image at the head of `octets`, as `HostedClock::image` does. Answers how many octets it has, and its
    /// token, by which `saved` knows it. No earlier image counts from then on. Takes memory for more than `INLINE_PORTS` ports alone,
    /// for the copy of the data sets. If it is refused, nothing changes.
    pub fn image(&mut self, alloc: Global, octets: &mut [u8]) -> Result<(usize, u64), ImageRefusal>
        ensures called { IfOk result (λ _. (b : ClockBatch) (count : ℕ)
            → IsAsBatch self.old b count → IsAsBatch self.new b (length b.since)) }
        ensures room { OnOk result
            (length (image_with (request_under_way self.old.clock.value.under_way) (clock_image (state_in self.old.clock.value))) ≤ length octets.old) }
        ensures no_room { IfErr result (λ e. e ≡ ImageRefusal.NoRoom → length octets.old
            < length (image_with (request_under_way self.old.clock.value.under_way) (clock_image (state_in self.old.clock.value)))) }
        ensures few { IfErr result (λ e. length self.old.clock.value.agent.sets.ports ≤ INLINE_PORTS → e ≡ ImageRefusal.NoRoom) }
        ensures size { IfOk result (λ r. r.0 ≡ length (image_with (request_under_way self.old.clock.value.under_way) (clock_image (state_in self.old.clock.value)))) }
        ensures token { IfOk result
            (λ r. (r.1 ≡ self.new.images) × (self.new.is_imaged ≡ true)) }
        ensures octets { IfOk result
            (λ r. octets.new ≡ image_with (request_under_way self.old.clock.value.under_way) (clock_image (state_in self.old.clock.value)) ++ drop r.0 octets.old) }
        ensures clock { self.new.clock ≡ self.old.clock }
        ensures waits { self.new.waits ≡ self.old.waits }
        ensures free { free_places self.new ≡ free_places self.old }
        ensures begun { self.new.is_begun ≡ self.old.is_begun }
        ensures counted { IfOk result (λ r. r.1 ≡ (self.old.images + 1) % 2 ^ 64) }
        ensures unchanged { OnErr result (self.new ≡ self.old) }
        ensures untouched { OnErr result (octets.new ≡ octets.old) }
    {
        let Ok(copied) = self.clock.sets().copy_in(alloc) else {
            return Err(ImageRefusal::OutOfMemory);
        };
        let Some(size) = self.clock.image(octets) else {
            return Err(ImageRefusal::NoRoom);
        };
        self.copied = copied;
        self.first = self.queue.count() - self.ready;
        self.images = self.images.wrapping_add(1);
        self.is_imaged = true;
        self.is_changed = false;
        self.acting = self.acting_once_imaged();
        Ok((size, self.images))
    }

    /// Takes its host's word that a restart would find the image of this token. It must be the latest, and counts once. What
    /// waited when it was made is released. What came since goes on waiting; if nothing has changed since, it is released too.
    /// Answers `ActNow` at the first save that has what was undertaken since the clock was made, unless that was decided. If it is
    /// refused, nothing changes. Takes no memory.
    pub fn saved(&mut self, token: u64) -> Result<Saved, SavedRefusal>
        ensures called { OnOk result ((b : ClockBatch) (count later : ℕ)
            → IsAsBatch self.old b count
            → IsAsBatch self.new (called_at self.old b (Confirms count)) later) }
        ensures acts { IfOk result (λ r. r ≡ (if acts_once_saved self.old then Saved.ActNow else Saved.Saved)) }
        ensures asked { IfOk result (λ r. (b : ClockBatch) (count : ℕ) → IsAsBatch self.old b count
            → acts_once_saved self.old ≡ is_some (asked_once_saved (clock_in self.old.clock.value) b count)) }
        ensures told { OnOk result (acts_once_saved self.new ≡ false) }
        ensures waits { OnOk result (self.new.waits ≡ self.old.is_changed) }
        ensures begun { OnOk result (self.new.is_begun ≡ true) }
        ensures images { self.new.images ≡ self.old.images }
        ensures once { OnOk result (self.new.is_imaged ≡ false) }
        ensures clock { self.new.clock ≡ self.old.clock }
        ensures free { free_places self.new ≡ free_places self.old }
        ensures refusal { MatchResult result
            (λ _. (self.old.is_imaged && token == self.old.images) ≡ true)
            (λ e. (e ≡ SavedRefusal.OtherImage)
            × ((self.old.is_imaged && token == self.old.images) ≡ false)) }
        ensures unchanged { OnErr result (self.new ≡ self.old) }
    {
        if !self.is_imaged || token != self.images {
            return Err(SavedRefusal::OtherImage);
        }
        mem::swap(&mut self.shown, &mut self.copied);
        self.ready = self.ready_once_saved();
        self.first = 0;
        self.waits = self.is_changed;
        self.is_imaged = false;
        self.is_begun = true;
        if !self.acts_once_saved() {
            return Ok(Saved::Saved);
        }
        self.acting = Acting::Nothing;
        Ok(Saved::ActNow)
    }

    /// Whether the host acts once the latest image is saved.
    fn acts_once_saved(&self) -> bool
        ensures { result ≡ acts_once_saved self.now }
    {
        self.acting == Acting::ItsSave && self.clock.under_way.is_some()
    }

    /// What comes before the host acts, now that there is an image of the clock.
    fn acting_once_imaged(&self) -> Acting
        ensures { result ≡ acting_once_imaged self.now.acting }
    {
        match self.acting {
            Acting::Nothing => Acting::Nothing,
            _ => Acting::ItsSave,
        }
    }

    /// How many messages are released once the latest image is saved, those that are already among them: all of them if nothing
    /// has changed since.
    fn ready_once_saved(&self) -> usize
        ensures ready { result ≡ (if self.now.is_changed then self.now.ready + self.now.first
            else length (queued self.now.queue)) }
        ensures most { result ≤ length (queued self.now.queue) }
    {
        let all = self.queue.count();
        if self.is_changed {
            self.ready + self.first
        } else {
            all
        }
    }

    /// Takes the first message that was released, into `sent`, and answers whether there was one. What follows it there stays.
    /// Takes no memory.
    pub fn next(&mut self, sent: &mut Sent) -> bool
        ensures called { IsTrue result → IsCalledAt self.old GivesOut self.new }
        ensures given { IsTrue result → (b : ClockBatch) (count : ℕ) → IsAsBatch self.old b count
            → (called_at self.old b GivesOut).sent ≡ b.sent ++ message_in sent.new ∷ [] }
        ensures released { result ≡ not (self.old.ready == 0) }
        ensures whole { IsTrue result → IsWhole sent.new }
        ensures behind { KeepsBehind sent.old sent.new }
        ensures clock { self.new.clock ≡ self.old.clock }
        ensures waits { self.new.waits ≡ self.old.waits }
        ensures begun { self.new.is_begun ≡ self.old.is_begun }
        ensures token { KeepsImage self.old self.new }
        ensures unchanged { result ≡ false → self.new ≡ self.old }
        ensures untouched { result ≡ false → sent.new ≡ sent.old }
    {
        if self.ready == 0 {
            return false;
        }
        self.queue.take_first(sent);
        self.ready -= 1;
        true
    }
}
