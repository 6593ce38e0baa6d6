//! A clock whose device has a say, as a host keeps it.

ghost use Rattle.std.specs.Prelude.{◌≡◌, ◌≢◌, ◌≤◌, ℕ, List, [], All, IfErr, IfOk, IfSome, IsTrue, MatchResult, None, Ok, OnErr, OnOk, Some, drop, false, is_ok, is_some, length, take};
ghost use Rattle.std.specs.List.{AllZip};
ghost use Rattle.ptpm_codec.specs.Message.{IsDataField};
ghost use Rattle.ptpm_data.specs.Changed.{changed, no_members};
ghost use Rattle.ptpm_data.specs.Members.{HasPort, has_port};
ghost use Rattle.ptpm_agent.specs.Agent.{IsTurned};
ghost use Rattle.ptpm_agent.specs.Turn.{State, outbox_of, turn};
ghost use Rattle.ptpm_device.specs.Asking.{asked, wanted, wanted_once};
ghost use Rattle.ptpm_device.specs.Saying as says;
ghost use Rattle.ptpm_device.specs.Saying.{IsGiven, said_value, turn_said};
ghost use Rattle.ptpm_host.specs.Clock.{IsWhole, KeepsBehind, clock_in, messages_in, state_in};
ghost use Rattle.ptpm_host.specs.Coming.{turn_of};
ghost use Rattle.ptpm_host.specs.Device.{Answers, said_refusal, say_in};
ghost use Rattle.ptpm_host.specs.MostSent.{most_sent};

use crate::clock::{Handled, HostedClock};
use crate::device::{Asking, Question, Say};
use crate::outbox::Outbox;
use crate::refusal::{HandleRefusal, SaidRefusal};
use crate::sent::Sent;
use ptpm_agent::Verdict;
use ptpm_codec::ErrorId;
use ptpm_data::ChangedMembers;
use ptpm_device::{DeviceSay, answer_value, ask, ask_value, keep_relayed, keep_value, object};
use ptpm_table::Outgoing;

impl HostedClock {
    /// What a datagram would have the clock's device do, if it came in now at this port. It is to carry out a new SET or COMMAND of
    /// a manager that nothing refuses before. The row of its id may refuse it, or without a row the clock itself. Or it is to give the value of an id that the clock lacks, to a GET that
    /// would be answered. It is nothing for any other datagram. Changes nothing, and takes no memory.
    pub fn ask(&self, port: u16, datagram: &[u8]) -> Result<Asking, HandleRefusal>
        ensures asked { IfOk result (Answers
            (asked (clock_in self.now).rows (clock_in self.now).clock (state_in self.now) datagram.now)
            (wanted (clock_in self.now).clock (state_in self.now) datagram.now)) }
        ensures here { is_ok result ≡ has_port port self.now.agent.sets }
        ensures refused { IfErr result (λ e. e ≡ HandleRefusal.NoPort) }
    {
        if !self.agent.sets().has_port(port) {
            return Err(HandleRefusal::NoPort);
        }
        if let Some(change) = ask(&self.agent, self.relayed.as_slice(), datagram) {
            return Ok(Asking::Change(Question::of(&change)));
        }
        match ask_value(&self.agent, datagram) {
            Some(get) => Ok(Asking::Value(Question::of_value(&get))),
            None => Ok(Asking::Nothing),
        }
    }

    /// Whether a datagram would have the device carry something out.
    pub(crate) fn asks_change(&self, datagram: &[u8]) -> bool
        ensures { result ≡ is_some (asked (clock_in self.now).rows (clock_in self.now).clock (state_in self.now) datagram.now) }
    {
        ask(&self.agent, self.relayed.as_slice(), datagram).is_some()
    }

    /// Does what `handle` does, with what the clock's device says. What it says counts where `ask` says that the device is asked.
    /// If it objects, the request is kept and answered with its error, and the data sets stay. If it gives a value, this is the
    /// answer. It is kept for a manager's new GET. If it is too big for that, RESPONSE_TOO_BIG is. `of_owner` says that the device's
    /// owner sent the datagram. Then it is judged as that of a manager with every right, no device is asked, and nothing of it is
    /// kept. Leaves in `members` which of the clock's members have another value. If the call is refused, nothing changes. Takes no
    /// memory.
    #[tactic(auto, using(crate::specs::OutboxLaws::kept_by_none))]
    pub fn take(
        &mut self,
        port: u16,
        datagram: &[u8],
        say: &Say,
        of_owner: bool,
        room: &mut [Sent],
        members: &mut ChangedMembers,
    ) -> Result<Handled, SaidRefusal>
        ensures turned { IfOk result
            (λ h.
            (o : says.Say)
            → say_in say.now ≡ Ok o
            → IsTurned (turn_of (clock_in self.old) (state_in self.old) port datagram.now o of_owner)
            h.verdict (messages_in (take h.count room.new)) (state_in self.new)) }
        ensures count { IfOk result (λ h. h.count ≤ length room.new) }
        ensures whole { IfOk result (λ h. All IsWhole (take h.count room.new)) }
        ensures places { IfOk result (λ h. drop h.count room.new ≡ drop h.count room.old) }
        ensures behind { AllZip KeepsBehind room.old room.new }
        ensures new_alone { IfOk result
            (λ h. h.verdict ≢ Verdict.AnsweredNew → self.new.agent.sets ≡ self.old.agent.sets) }
        ensures members { OnOk result
            (members.new ≡ changed self.old.agent.sets self.new.agent.sets) }
        ensures members_alone { IfOk result
            (λ h. h.verdict ≢ Verdict.AnsweredNew → members.new ≡ no_members) }
        ensures refusal { MatchResult result
            (λ _. said_refusal (has_port port self.old.agent.sets) (most_sent (state_in self.old)) (length room.old) say.now ≡ None)
            (λ e. said_refusal (has_port port self.old.agent.sets) (most_sent (state_in self.old)) (length room.old) say.now ≡ Some e) }
        ensures unchanged { OnErr result (self.new ≡ self.old) }
        ensures untouched { OnErr result (room.new ≡ room.old) }
        ensures untold { OnErr result (members.new ≡ members.old) }
        ensures clock { clock_in self.new ≡ clock_in self.old }
        ensures under_way { self.new.under_way ≡ self.old.under_way }
    {
        let said = self.said(port, say, room.len())?;
        Ok(self.carry_out(port, datagram, said, of_owner, room, members))
    }

    /// One turn, with what the device says or as the owner's, at a port that the clock has, with places enough for whatever it
    /// sends. It is inlined with `take_said`. So if the device says nothing, no call but the turn is paid for.
    #[inline(always)]
    pub(crate) fn carry_out(
        &mut self,
        port: u16,
        datagram: &[u8],
        said: DeviceSay<'_>,
        of_owner: bool,
        room: &mut [Sent],
        members: &mut ChangedMembers,
    ) -> Handled
        requires port { HasPort port self.old.agent.sets }
        requires room { most_sent (state_in self.old) ≤ length room.old }
        requires given { IsGiven said }
        ensures turned { IsTurned
            (turn_of (clock_in self.old) (state_in self.old) port datagram.now (said_value said.entry) of_owner)
            result.verdict (messages_in (take result.count room.new)) (state_in self.new) }
        ensures count { result.count ≤ length room.new }
        ensures most { result.count ≤ most_sent (state_in self.old) }
        ensures whole { All IsWhole (take result.count room.new) }
        ensures places { drop result.count room.new ≡ drop result.count room.old }
        ensures behind { AllZip KeepsBehind room.old room.new }
        ensures new_alone { result.verdict ≢ Verdict.AnsweredNew →
            self.new.agent.sets ≡ self.old.agent.sets }
        ensures members { members.new ≡ changed self.old.agent.sets self.new.agent.sets }
        ensures members_alone { result.verdict ≢ Verdict.AnsweredNew → members.new ≡ no_members }
        ensures ports { length self.new.agent.sets.ports ≡ length self.old.agent.sets.ports }
        ensures clock { clock_in self.new ≡ clock_in self.old }
        ensures under_way { self.new.under_way ≡ self.old.under_way }
    {
        self.sent_law();
        if of_owner {
            self.take_owner_turn(port, datagram, room, members)
        } else {
            self.take_said(port, datagram, said, room, members)
        }
    }

    /// What a device says of a datagram that comes in at this port, if it is handled with `room` places.
    pub(crate) fn said<'a>(
        &self,
        port: u16,
        say: &'a Say,
        room: usize,
    ) -> Result<DeviceSay<'a>, SaidRefusal>
        ensures said { IfOk result (λ s. say_in say.now ≡ Ok (said_value s)) }
        ensures given { IfOk result IsGiven }
        ensures port { OnOk result (HasPort port self.now.agent.sets) }
        ensures room { OnOk result (most_sent (state_in self.now) ≤ room) }
        ensures refusal { MatchResult result
            (λ _. said_refusal (has_port port self.now.agent.sets) (most_sent (state_in self.now)) room say.now ≡ None)
            (λ e. said_refusal (has_port port self.now.agent.sets) (most_sent (state_in self.now)) room say.now ≡ Some e) }
    {
        if !self.agent.sets().has_port(port) {
            return Err(SaidRefusal::Handle(HandleRefusal::NoPort));
        }
        if !self.has_room(room) {
            return Err(SaidRefusal::Handle(HandleRefusal::NoRoom));
        }
        match say.said() {
            Ok(said) => Ok(said),
            Err(_) => Err(SaidRefusal::BadSay),
        }
    }

    /// One turn with what the device says, at a port that the clock has, with places enough for whatever it sends.
    #[inline(always)]
    fn take_said(
        &mut self,
        port: u16,
        datagram: &[u8],
        said: DeviceSay<'_>,
        room: &mut [Sent],
        members: &mut ChangedMembers,
    ) -> Handled
        requires port { HasPort port self.old.agent.sets }
        requires room { most_sent (state_in self.old) ≤ length room.old }
        requires given { IsGiven said }
        ensures turned { IsTurned (turn_said (clock_in self.old).rows
            (clock_in self.old).clock (state_in self.old) (said_value said.entry) port datagram.now)
            result.verdict (messages_in (take result.count room.new)) (state_in self.new) }
        ensures count { result.count ≤ length room.new }
        ensures whole { All IsWhole (take result.count room.new) }
        ensures places { drop result.count room.new ≡ drop result.count room.old }
        ensures behind { AllZip KeepsBehind room.old room.new }
        ensures new_alone { result.verdict ≢ Verdict.AnsweredNew →
            self.new.agent.sets ≡ self.old.agent.sets }
        ensures members { members.new ≡ changed self.old.agent.sets self.new.agent.sets }
        ensures clock { clock_in self.new ≡ clock_in self.old }
        ensures under_way { self.new.under_way ≡ self.old.under_way }
    {
        self.sent_law();
        if self.keep_relayed(datagram, said) {
            self.take_kept(port, datagram, room, members)
        } else {
            self.take_unrelayed(port, datagram, said, room, members)
        }
    }

    /// Keeps a new SET or COMMAND of one of its device's own ids with its reply. Answers whether it was one. Otherwise nothing changes.
    fn keep_relayed(&mut self, datagram: &[u8], said: DeviceSay<'_>) -> bool
        requires given { IsGiven said }
        ensures turned { IsTrue result → (ingress : ℕ) (w : Verdict) (out : List (ℕ × List ℕ)) (next : State) →
            IsTurned (turn (clock_in self.new).clock (state_in self.new) ingress datagram.now) w out next →
            IsTurned (turn_said (clock_in self.old).rows
            (clock_in self.old).clock (state_in self.old) (said_value said.entry) ingress datagram.now)
            Verdict.AnsweredNew out next }
        ensures own { result ≡ false → (ingress : ℕ) → turn_said (clock_in self.old).rows
            (clock_in self.old).clock (state_in self.old) (said_value said.entry) ingress datagram.now
            ≡ turn_said []
            (clock_in self.old).clock (state_in self.old) (said_value said.entry) ingress datagram.now }
        ensures unchanged { result ≡ false → self.new ≡ self.old }
        ensures sets { self.new.agent.sets ≡ self.old.agent.sets }
        ensures clock { clock_in self.new ≡ clock_in self.old }
        ensures under_way { self.new.under_way ≡ self.old.under_way }
    {
        let rows = self.relayed.as_slice();
        !rows.is_empty() && keep_relayed(&mut self.agent, rows, datagram, said)
    }

    /// The clock's own turn on a datagram whose reply is kept already. It was a new one.
    fn take_kept(
        &mut self,
        port: u16,
        datagram: &[u8],
        room: &mut [Sent],
        members: &mut ChangedMembers,
    ) -> Handled
        requires port { HasPort port self.old.agent.sets }
        requires room { length (outbox_of (turn (clock_in self.old).clock (state_in self.old) port datagram.now))
            ≤ length room.old }
        ensures turned { IsTurned (turn (clock_in self.old).clock (state_in self.old) port datagram.now)
            (turn (clock_in self.old).clock (state_in self.old) port datagram.now).verdict
            (messages_in (take result.count room.new)) (state_in self.new) }
        ensures verdict { result.verdict ≡ Verdict.AnsweredNew }
        ensures count { result.count ≤ length room.new }
        ensures whole { All IsWhole (take result.count room.new) }
        ensures places { drop result.count room.new ≡ drop result.count room.old }
        ensures behind { AllZip KeepsBehind room.old room.new }
        ensures members { members.new ≡ changed self.old.agent.sets self.new.agent.sets }
        ensures clock { clock_in self.new ≡ clock_in self.old }
        ensures under_way { self.new.under_way ≡ self.old.under_way }
    {
        let handled = self.take_turn(port, datagram, room, members);
        Handled {
            verdict: Verdict::AnsweredNew,
            count: handled.count,
        }
    }

    /// One turn with what the device says of a datagram that is of none of its own ids, or is no new one.
    #[inline(always)]
    fn take_unrelayed(
        &mut self,
        port: u16,
        datagram: &[u8],
        said: DeviceSay<'_>,
        room: &mut [Sent],
        members: &mut ChangedMembers,
    ) -> Handled
        requires port { HasPort port self.old.agent.sets }
        requires room { most_sent (state_in self.old) ≤ length room.old }
        requires given { IsGiven said }
        ensures turned { IsTurned (turn_said []
            (clock_in self.old).clock (state_in self.old) (said_value said.entry) port datagram.now)
            result.verdict (messages_in (take result.count room.new)) (state_in self.new) }
        ensures count { result.count ≤ length room.new }
        ensures whole { All IsWhole (take result.count room.new) }
        ensures places { drop result.count room.new ≡ drop result.count room.old }
        ensures behind { AllZip KeepsBehind room.old room.new }
        ensures new_alone { result.verdict ≢ Verdict.AnsweredNew →
            self.new.agent.sets ≡ self.old.agent.sets }
        ensures members { members.new ≡ changed self.old.agent.sets self.new.agent.sets }
        ensures clock { clock_in self.new ≡ clock_in self.old }
        ensures under_way { self.new.under_way ≡ self.old.under_way }
    {
        self.sent_law();
        match said {
            DeviceSay::Agrees => self.take_turn(port, datagram, room, members),
            DeviceSay::Objects(error) => self.take_objection(port, datagram, error, room, members),
            DeviceSay::Gives(octets) => self.take_value(port, datagram, octets, room, members),
        }
    }

    /// One turn with an objection of the device.
    #[inline(never)]
    fn take_objection(
        &mut self,
        port: u16,
        datagram: &[u8],
        error: ErrorId,
        room: &mut [Sent],
        members: &mut ChangedMembers,
    ) -> Handled
        requires port { HasPort port self.old.agent.sets }
        requires room { length (outbox_of (turn_said
            [] (clock_in self.old).clock (state_in self.old) (says.Objects error) port datagram.now)) ≤ length room.old }
        ensures turned { IsTurned
            (turn_said [] (clock_in self.old).clock (state_in self.old) (says.Objects error) port datagram.now)
            result.verdict (messages_in (take result.count room.new)) (state_in self.new) }
        ensures count { result.count ≤ length room.new }
        ensures whole { All IsWhole (take result.count room.new) }
        ensures places { drop result.count room.new ≡ drop result.count room.old }
        ensures behind { AllZip KeepsBehind room.old room.new }
        ensures new_alone { result.verdict ≢ Verdict.AnsweredNew →
            self.new.agent.sets ≡ self.old.agent.sets }
        ensures members { members.new ≡ changed self.old.agent.sets self.new.agent.sets }
        ensures clock { clock_in self.new ≡ clock_in self.old }
        ensures under_way { self.new.under_way ≡ self.old.under_way }
    {
        if let Some(count) = self.object(port, datagram, error, room) {
            *members = ChangedMembers::NONE;
            return Handled {
                verdict: Verdict::AnsweredNew,
                count,
            };
        }
        self.take_turn(port, datagram, room, members)
    }

    /// Refuses a datagram with the device's error, and keeps that, if the device is asked. Returns how many messages are sent. For any
    /// other datagram it is none, and nothing is sent.
    #[tactic(auto, using(crate::specs::OutboxLaws::kept_by_none))]
    fn object(
        &mut self,
        port: u16,
        datagram: &[u8],
        error: ErrorId,
        room: &mut [Sent],
    ) -> Option<usize>
        requires room { length (outbox_of (turn_said
            [] (clock_in self.old).clock (state_in self.old) (says.Objects error) port datagram.now)) ≤ length room.old }
        ensures turned { IfSome result (λ count. IsTurned (turn_said
            [] (clock_in self.old).clock (state_in self.old) (says.Objects error) port datagram.now)
            Verdict.AnsweredNew (messages_in (take count room.new)) (state_in self.new)) }
        ensures own { result ≡ None → turn_said
            [] (clock_in self.old).clock (state_in self.old) (says.Objects error) port datagram.now
            ≡ turn (clock_in self.old).clock (state_in self.old) port datagram.now }
        ensures count { IfSome result (λ count. count ≤ length room.new) }
        ensures whole { IfSome result (λ count. All IsWhole (take count room.new)) }
        ensures places { IfSome result (λ count. drop count room.new ≡ drop count room.old) }
        ensures behind { IfSome result (λ count. AllZip KeepsBehind room.old room.new) }
        ensures sets { self.new.agent.sets ≡ self.old.agent.sets }
        ensures unchanged { result ≡ None → self.new ≡ self.old }
        ensures unsent { result ≡ None → room.new ≡ room.old }
        ensures clock { clock_in self.new ≡ clock_in self.old }
        ensures under_way { self.new.under_way ≡ self.old.under_way }
    {
        let mut places = Outbox::new(room);
        if object(&mut self.agent, port, datagram, error, &mut places) {
            return Some(places.count());
        }
        None
    }

    /// One turn with a value that the device gives.
    #[inline(never)]
    fn take_value(
        &mut self,
        port: u16,
        datagram: &[u8],
        octets: &[u8],
        room: &mut [Sent],
        members: &mut ChangedMembers,
    ) -> Handled
        requires port { HasPort port self.old.agent.sets }
        requires room { length (outbox_of (turn_said
            [] (clock_in self.old).clock (state_in self.old) (says.Gives octets.now) port datagram.now)) ≤ length room.old }
        requires octets { IsDataField octets.now }
        ensures turned { IsTurned (turn_said
            [] (clock_in self.old).clock (state_in self.old) (says.Gives octets.now) port datagram.now)
            result.verdict (messages_in (take result.count room.new)) (state_in self.new) }
        ensures count { result.count ≤ length room.new }
        ensures whole { All IsWhole (take result.count room.new) }
        ensures places { drop result.count room.new ≡ drop result.count room.old }
        ensures behind { AllZip KeepsBehind room.old room.new }
        ensures new_alone { result.verdict ≢ Verdict.AnsweredNew →
            self.new.agent.sets ≡ self.old.agent.sets }
        ensures members { members.new ≡ changed self.old.agent.sets self.new.agent.sets }
        ensures clock { clock_in self.new ≡ clock_in self.old }
        ensures under_way { self.new.under_way ≡ self.old.under_way }
    {
        if let Some(count) = self.answer_value(port, datagram, octets, room) {
            *members = ChangedMembers::NONE;
            return Handled {
                verdict: Verdict::AnsweredUnnumbered,
                count,
            };
        }
        let is_kept = keep_value(&mut self.agent, datagram, octets);
        let handled = self.take_turn(port, datagram, room, members);
        if is_kept {
            return Handled {
                verdict: Verdict::AnsweredNew,
                count: handled.count,
            };
        }
        handled
    }

    /// Answers a GET without a number, of an id that the clock lacks, with this value. Returns how many messages are sent. For any
    /// other datagram it is none, and nothing is sent.
    fn answer_value(
        &self,
        port: u16,
        datagram: &[u8],
        octets: &[u8],
        room: &mut [Sent],
    ) -> Option<usize>
        requires port { HasPort port self.now.agent.sets }
        requires room { length (outbox_of (turn_said
            [] (clock_in self.now).clock (state_in self.now) (says.Gives octets.now) port datagram.now)) ≤ length room.old }
        requires octets { IsDataField octets.now }
        ensures once { is_some result ≡ wanted_once
            (clock_in self.now).clock (state_in self.now) datagram.now }
        ensures turned { IfSome result (λ count. IsTurned (turn_said
            [] (clock_in self.now).clock (state_in self.now) (says.Gives octets.now) port datagram.now)
            Verdict.AnsweredUnnumbered (messages_in (take count room.new)) (state_in self.now)) }
        ensures count { IfSome result (λ count. count ≤ length room.new) }
        ensures whole { IfSome result (λ count. All IsWhole (take count room.new)) }
        ensures places { IfSome result (λ count. drop count room.new ≡ drop count room.old) }
        ensures behind { IfSome result (λ count. AllZip KeepsBehind room.old room.new) }
        ensures unsent { result ≡ None → room.new ≡ room.old }
    {
        let mut places = Outbox::new(room);
        if answer_value(&self.agent, port, datagram, octets, &mut places) {
            return Some(places.count());
        }
        None
    }
}
