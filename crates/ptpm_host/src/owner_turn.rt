//! What the device's owner sends, at a clock as a host keeps it.

ghost use Rattle.std.specs.Prelude.{◌≡◌, ◌≤◌, ◌==◌, ◌&&◌, All, drop, length, take};
ghost use Rattle.std.specs.List.{AllZip};
ghost use Rattle.ptpm_codec.specs.Identity.{same_clock};
ghost use Rattle.ptpm_codec.specs.Message.{IsRequestAction, IsValid};
ghost use Rattle.ptpm_data.specs.Changed.{changed};
ghost use Rattle.ptpm_data.specs.Changes.{IsTargetPort, changed_by};
ghost use Rattle.ptpm_data.specs.Members.{HasPort};
ghost use Rattle.ptpm_data.specs.Replies.{reply_to};
ghost use Rattle.ptpm_data.specs.Rights.{all_rights};
ghost use Rattle.ptpm_table.specs.Rendering.{rendered};
ghost use Rattle.ptpm_agent.specs.declared.verdict.Verdict.{Verdict};
ghost use Rattle.ptpm_agent.specs.Addressing.{heard_of, is_addressed, is_own, is_request, request_of};
ghost use Rattle.ptpm_agent.specs.Agent.{IsTurned};
ghost use Rattle.ptpm_host.specs.Changing.{owned_at, owner_turn, owner_verdict};
ghost use Rattle.ptpm_host.specs.Clock.{IsWhole, KeepsBehind, clock_in, messages_in, state_in};
ghost use Rattle.ptpm_host.specs.MostSent.{most_sent};

use crate::clock::{Handled, HostedClock};
use crate::outbox::Outbox;
use crate::sent::Sent;
use ptpm_agent::Verdict;
use ptpm_codec::{ClockIdentity, PortIdentity, View, view};
use ptpm_data::ChangedMembers;
use ptpm_device::is_change;
use ptpm_table::{Outgoing, ReplyTable};

impl HostedClock {
    /// One turn for a datagram of the device's owner, at a port that the clock has, with places enough for whatever it sends. It is
    /// judged as that of a manager with every right, and nothing of it is kept. Never inlined: so the stack has what it takes only for
    /// the owner's datagrams.
    #[inline(never)]
    pub(crate) fn take_owner_turn(
        &mut self,
        port: u16,
        datagram: &[u8],
        room: &mut [Sent],
        members: &mut ChangedMembers,
    ) -> Handled
        requires port { HasPort port self.old.agent.sets }
        requires room { most_sent (state_in self.old) ≤ length room.old }
        ensures turned { IsTurned (owner_turn (clock_in self.old).clock (state_in self.old) port datagram.now)
            result.verdict (messages_in (take result.count room.new)) (state_in self.new) }
        ensures count { result.count ≤ length room.new }
        ensures whole { All IsWhole (take result.count room.new) }
        ensures places { drop result.count room.new ≡ drop result.count room.old }
        ensures behind { AllZip KeepsBehind room.old room.new }
        ensures members { members.new ≡ changed self.old.agent.sets self.new.agent.sets }
        ensures clock { clock_in self.new ≡ clock_in self.old }
        ensures under_way { self.new.under_way ≡ self.old.under_way }
    {
        self.sent_law();
        let Ok(message) = view(datagram) else {
            return self.take_turn(port, datagram, room, members);
        };
        let verdict = self.judge_owned(&message);
        if verdict == Verdict::AnsweredNew {
            return self.carry_out_owned(port, &message, room, members);
        }
        if message.target().clock == self.agent.table().clock() {
            *members = ChangedMembers::NONE;
            return Handled { verdict, count: 0 };
        }
        self.take_turn(port, datagram, room, members)
    }

    /// The verdict on a message of the owner, as one of a manager with every right of whom nothing is kept.
    fn judge_owned(&self, message: &View<'_>) -> Verdict
        ensures { result ≡ owned_at
            (message.now.sdo == 0 && message.now.domain == self.now.agent.sets.default.domain)
            (is_own (clock_in self.now).clock message.now)
            (is_addressed (clock_in self.now).clock self.now.agent.sets message.now)
            (is_request message.now)
            (same_clock message.now.target.clock (clock_in self.now).clock.identity) }
    {
        let me = self.agent.table().clock();
        if message.sdo() != 0 || message.domain() != self.agent.sets().domain() {
            Verdict::OtherDomain
        } else if message.source().clock == me {
            Verdict::OwnMessage
        } else if !self.is_addressed(message) {
            Verdict::NotAddressed
        } else if message.action().is_reply() {
            Verdict::NotARequest
        } else if message.target().clock == me {
            Verdict::AnsweredNew
        } else {
            Verdict::AnsweredUnnumbered
        }
    }

    /// Whether it is for this clock or every clock, at a port that the clock has.
    fn is_addressed(&self, message: &View<'_>) -> bool
        ensures { result ≡ is_addressed (clock_in self.now).clock self.now.agent.sets message.now }
    {
        let target = message.target();
        (target.clock == self.agent.table().clock() || target.clock == ClockIdentity::EVERY)
            && (target.port == PortIdentity::EVERY_PORT || self.agent.sets().has_port(target.port))
    }

    /// Carries out a request of the owner for this clock, and answers it. The table stays.
    #[tactic(auto, using(crate::specs::OutboxLaws::kept_by_none))]
    fn carry_out_owned(
        &mut self,
        port: u16,
        message: &View<'_>,
        room: &mut [Sent],
        members: &mut ChangedMembers,
    ) -> Handled
        requires action { IsRequestAction (request_of message.now).action }
        requires port { IsTargetPort (request_of message.now).port self.old.agent.sets }
        requires valid { IsValid message.now }
        requires room { length (reply_to (request_of message.now) all_rights self.old.agent.sets).answers
            ≤ length room.old }
        ensures sent { messages_in (take result.count room.new)
            ≡ rendered (clock_in self.old).clock.identity (heard_of message.now)
            (reply_to (request_of message.now) all_rights self.old.agent.sets) port }
        ensures sets { self.new.agent.sets
            ≡ changed_by (request_of message.now) all_rights self.old.agent.sets }
        ensures table { self.new.agent.table ≡ self.old.agent.table }
        ensures relayed { self.new.relayed ≡ self.old.relayed }
        ensures verdict { result.verdict ≡ owner_verdict message.now Verdict.AnsweredNew }
        ensures count { result.count ≤ length room.new }
        ensures whole { All IsWhole (take result.count room.new) }
        ensures places { drop result.count room.new ≡ drop result.count room.old }
        ensures behind { AllZip KeepsBehind room.old room.new }
        ensures members { members.new ≡ changed self.old.agent.sets self.new.agent.sets }
        ensures under_way { self.new.under_way ≡ self.old.under_way }
    {
        let mut outbox = Outbox::new(room);
        *members = self.agent.answer_here(port, message, &mut outbox);
        Handled {
            verdict: if is_change(message.action()) {
                Verdict::AnsweredNew
            } else {
                Verdict::AnsweredUnnumbered
            },
            count: outbox.count(),
        }
    }
}
