//! What becomes of the datagrams that come in at a clock's ports.

ghost use Rattle.std.specs.Prelude.{◌≡◌, ◌≢◌, ◌≤◌, ◌+◌, ◌++◌, ◌∷◌, [], false, true, ℕ, List, All, IsTrue, Ok, Some, IfOk, OnOk, OnErr, length, map};
ghost use Rattle.std.specs.FinMap as fin;
ghost use Rattle.ptpm_codec.specs.declared.identity.PortIdentity.{PortIdentity};
ghost use Rattle.ptpm_codec.specs.Layout.{message_octets};
ghost use Rattle.ptpm_codec.specs.Message.{IsDataField, IsRequestAction, IsValid};
ghost use Rattle.ptpm_codec.specs.Reading.{IsWellFormed, reading};
ghost use Rattle.ptpm_codec.specs.Spelling.{Spells};
ghost use Rattle.ptpm_data.specs.Changed.{changed};
ghost use Rattle.ptpm_data.specs.Changes.{IsTargetPort, changed_by};
ghost use Rattle.ptpm_data.specs.Members.{HasPort};
ghost use Rattle.ptpm_data.specs.Observation.{left_disabled, observation_refusal};
ghost use Rattle.ptpm_data.specs.Refusals.{refusal_of};
ghost use Rattle.ptpm_data.specs.Replies.{reply_to};
ghost use Rattle.ptpm_data.specs.Reply.{ReplyValue, answer_of};
ghost use Rattle.ptpm_data.specs.Rights.{all_rights};
ghost use Rattle.ptpm_data.specs.Start.{unless};
ghost use Rattle.ptpm_table.specs.Entries.{CanResend, FitsRequest, is_known, reply_with};
ghost use Rattle.ptpm_table.specs.Managers.{IsFresh, has_twice, identities, most_managers};
ghost use Rattle.ptpm_table.specs.Rendering.{IsSendable, rendered};
ghost use Rattle.ptpm_table.specs.Sending.{IsSentReply};
ghost use Rattle.ptpm_agent.specs.Agent.{IsTurned, clock_of, state_of};
ghost use Rattle.ptpm_agent.specs.Forwarding.{copies_if, forwarded};
ghost use Rattle.ptpm_agent.specs.Laws.{StandsAt, after_each, datagrams_of, due_messages, last_sent};
ghost use Rattle.ptpm_agent.specs.Observing.{moved_state};
ghost use Rattle.ptpm_agent.specs.Once.{Delivery, History, RequestCopy, applied_once, copies, copy_of, due_reply};
ghost use Rattle.ptpm_agent.specs.Window.{AreNumbered, KeepsWindow};
ghost use Rattle.ptpm_agent.specs.Addressing.{heard_of, is_addressed, request_of};
ghost use Rattle.ptpm_agent.specs.Turn.{carried_out, is_accepted_repeat, judged, look, new_reply, outbox_of, reply_by, reply_messages, turn, verdict_of};

use crate::agent::Agent;
use crate::verdict::Verdict;
use ptpm_codec::{Action, ClockIdentity, ErrorId, Octets, OutOfMemory, PortIdentity, View, view};
use ptpm_data::{
    ChangedMembers, ClockObservation, DataSets, INLINE_PORTS, ObservationError, PortAnswer,
    PortObservation, PortsLeftDisabled, Reply, Request, Rights, data_sets_law,
};
use ptpm_table::{
    Heard, LongOutgoing, Look, Outbox, Outgoing, ReplyTable, Sender, SlotTable, SureTable, render,
};
use std::mem;

impl<T: ReplyTable + Drop> Agent<T> {
    /// An agent of these data sets and this table, which are of one clock. The table keeps a reply of all ports. The agent is made in
    /// the frame of whoever keeps it.
    #[inline(always)]
    pub fn new(sets: DataSets, table: T) -> Agent<T>
        requires identity { sets.default.identity ≡ (T.owner table).identity }
        requires room { length sets.ports ≤ T.most table }
        ensures sets { result.sets ≡ sets }
        ensures table { result.table ≡ table }
    {
        Agent { sets, table }
    }

    /// The data sets as they are.
    pub fn sets(&self) -> &DataSets
        ensures { result.now ≡ self.now.sets }
    {
        &self.sets
    }

    /// The reply table as it is.
    pub fn table(&self) -> &T
        ensures { result.now ≡ self.now.table }
    {
        &self.table
    }

    /// What becomes of a datagram that comes in at a port of the clock: one turn. The outbox then holds what is to be sent
    /// and nothing else: the copies that are passed on, then the replies. Only the table's `keep` asks for memory,
    /// if the verdict is `AnsweredNew`. If it is refused, nothing has changed, nor has the outbox, and the datagram
    /// counts as not delivered.
    pub fn try_handle(
        &mut self,
        ingress: u16,
        datagram: &[u8],
        out: &mut Outbox,
    ) -> Result<Verdict, OutOfMemory>
        requires port { HasPort ingress self.old.sets }
        requires small { T.most self.old.table ≤ INLINE_PORTS }
        ensures turned { IfOk result (λ verdict. IsTurned (turn
            (clock_of T.owner self.old) (state_of T.entries self.old) ingress datagram.now)
            verdict out.new (state_of T.entries self.new)) }
        ensures refused { OnErr result
            (state_of T.entries self.new ≡ state_of T.entries self.old) }
        ensures nothing_sent { OnErr result (out.new ≡ out.old) }
        ensures only_new { OnErr result (verdict_of
            (clock_of T.owner self.old) (state_of T.entries self.old) datagram.now
            ≡ Verdict.AnsweredNew) }
        ensures clock { clock_of T.owner self.new ≡ clock_of T.owner self.old }
        ensures most { T.most self.new.table ≡ T.most self.old.table }
    {
        let message = match view(datagram) {
            Ok(message) => message,
            Err(cause) => {
                out.clear();
                return Ok(Verdict::Malformed(cause));
            }
        };
        let (verdict, rights) = self.judge(&message);
        match verdict {
            Verdict::AnsweredNew => {
                let reply = self.try_accept(&message, rights)?;
                self.send(&reply, ingress, &message, out);
            }
            Verdict::AnsweredRepeat => {
                out.clear();
                self.table.resend(&heard_of(&message), ingress, out);
            }
            _ => {
                data_sets_law(&self.sets);
                out.clear();
                self.answer(verdict, ingress, datagram, &message, out);
            }
        }
        Ok(verdict)
    }

    /// Takes what the clock's host observed. The data sets change as `DataSets::observe` says. What is kept of each manager
    /// stays. So each request is still carried out once, and a copy of the latest gets the reply that was kept. The answer
    /// reports the ports that are DISABLED and were left so. Takes no memory.
    ///
    /// Refused with the first `ObservationError` that holds, judged on the data sets as they would be; then nothing changes.
    #[tactic(auto, using(crate::proofs::Alike::port_laws))]
    pub fn observe(
        &mut self,
        clock: &ClockObservation,
        ports: &[PortObservation],
    ) -> Result<PortsLeftDisabled, ObservationError>
        ensures answer { result
            ≡ unless (observation_refusal clock.now ports.now self.old.sets)
            (left_disabled ports.now self.old.sets.ports) }
        ensures moved { state_of T.entries self.new
            ≡ moved_state clock.now ports.now (state_of T.entries self.old) }
        ensures table { self.new.table ≡ self.old.table }
        ensures unchanged { OnErr result (self.new ≡ self.old) }
    {
        self.sets.observe(clock, ports)
    }

    /// Carries out a request of the clock's owner, as one of a manager with every right. It may come by a command line, or by
    /// another protocol. The answer is why this manager would be refused. What is kept of each manager stays. So a copy of
    /// its latest request still gets the reply of its time. Takes no memory.
    #[tactic(auto, using(crate::proofs::Alike::port_laws))]
    pub fn carry_out_here(&mut self, request: &Request<'_>) -> Option<ErrorId>
        requires { IsTargetPort request.now.port self.old.sets }
        ensures refusal { result ≡ refusal_of request.now all_rights }
        ensures changed { self.new.sets ≡ changed_by request.now all_rights self.old.sets }
        ensures table { self.new.table ≡ self.old.table }
    {
        self.sets.change(request, Rights::ALL)
    }

    /// Carries out a request of the clock's owner as `carry_out_here` does, and sends the reply to it. Only the reply is written to
    /// `out`, which must be empty and take it. Answers which members have another value after it.
    #[tactic(auto, using(crate::proofs::Alike::port_laws))]
    pub fn answer_here<O: Outgoing>(
        &mut self,
        ingress: u16,
        message: &View<'_>,
        out: &mut O,
    ) -> ChangedMembers
        requires action { IsRequestAction (request_of message.now).action }
        requires port { IsTargetPort (request_of message.now).port self.old.sets }
        requires valid { IsValid message.now }
        requires empty { O.sent out.old ≡ [] }
        requires room { length (reply_to (request_of message.now) all_rights self.old.sets).answers
            ≤ O.most out.old }
        ensures changed { self.new.sets
            ≡ changed_by (request_of message.now) all_rights self.old.sets }
        ensures members { result ≡ changed self.old.sets self.new.sets }
        ensures sent { O.sent out.new
            ≡ rendered (T.owner self.old.table).identity (heard_of message.now)
            (reply_to (request_of message.now) all_rights self.old.sets) ingress }
        ensures grown { O.grown out.old out.new }
        ensures table { self.new.table ≡ self.old.table }
    {
        let heard = heard_of(message);
        let request = request_of(message);
        let members = self.sets.changes_of(&request, Rights::ALL);
        let mut sender = Sender::new(out);
        sender.address(&self.table.clock(), &heard, &request, ingress);
        self.sets.decide_into(&request, Rights::ALL, &mut sender);
        members
    }

    /// Exchanges the data sets for these. What is kept of each manager stays. Takes no memory.
    pub fn swap_sets(&mut self, sets: &mut DataSets)
        requires room { length sets.old.ports ≤ T.most self.old.table }
        ensures here { self.new.sets ≡ sets.old }
        ensures there { sets.new ≡ self.old.sets }
        ensures table { self.new.table ≡ self.old.table }
    {
        mem::swap(&mut self.sets, sets);
    }

    /// The verdict on a message, and the rights of its source if it is a new request.
    #[inline(always)]
    #[tactic(auto, unfolding(crate::specs::Turn::judged))]
    fn judge(&self, message: &View<'_>) -> (Verdict, Rights)
        ensures verdict { result.0 ≡ judged
            (clock_of T.owner self.now) (state_of T.entries self.now) message.now }
        ensures repeat { result.0 ≡ Verdict.AnsweredRepeat →
            CanResend (T.most self.now.table) (T.entries self.now.table) message.now.source message.now.number }
        ensures rights { result.0 ≡ Verdict.AnsweredNew →
            result.1 ≡ (clock_of T.owner self.now).rights message.now.source }
    {
        if message.sdo() != 0 {
            return (Verdict::OtherDomain, Rights::NONE);
        }
        if message.domain() != self.sets.domain() {
            return if self.is_accepted_repeat(message) {
                (Verdict::AnsweredRepeat, Rights::NONE)
            } else {
                (Verdict::OtherDomain, Rights::NONE)
            };
        }
        if message.source().clock == self.table.clock() {
            return (Verdict::OwnMessage, Rights::NONE);
        }
        if !self.is_addressed(message) {
            return (Verdict::NotAddressed, Rights::NONE);
        }
        if message.action().is_reply() {
            return (Verdict::NotARequest, Rights::NONE);
        }
        let (look, rights) = self.look(message);
        let verdict = match look {
            Look::Unknown => Verdict::AnsweredUnnumbered,
            Look::New => Verdict::AnsweredNew,
            Look::Repeat => Verdict::AnsweredRepeat,
            Look::Conflict => Verdict::DroppedConflict,
            Look::Old => Verdict::DroppedOld,
        };
        (verdict, rights)
    }

    /// Whether it is the latest accepted request of its manager once more.
    fn is_accepted_repeat(&self, message: &View<'_>) -> bool
        ensures exact { result ≡ is_accepted_repeat
            (clock_of T.owner self.now) (state_of T.entries self.now) message.now }
        ensures kept { IsTrue result
            → CanResend (T.most self.now.table) (T.entries self.now.table) message.now.source message.now.number }
    {
        message.source().clock != self.table.clock()
            && self.is_addressed(message)
            && !message.action().is_reply()
            && self.look(message).0 == Look::Repeat
    }

    /// Whether it is for this clock or every clock, at a port that the clock has.
    fn is_addressed(&self, message: &View<'_>) -> bool
        ensures { result ≡ is_addressed (clock_of T.owner self.now) self.now.sets message.now }
    {
        let target = message.target();
        (target.clock == self.table.clock() || target.clock == ClockIdentity::EVERY)
            && (target.port == PortIdentity::EVERY_PORT || self.sets.has_port(target.port))
    }

    /// What a numbered request is to the table, with the rights of its manager; unknown is any other.
    #[inline(always)]
    fn look(&self, message: &View<'_>) -> (Look, Rights)
        ensures look { result.0 ≡ look
            (clock_of T.owner self.now) (state_of T.entries self.now) message.now }
        ensures repeat { result.0 ≡ Look.Repeat →
            CanResend (T.most self.now.table) (T.entries self.now.table) message.now.source message.now.number }
        ensures rights { result.0 ≡ Look.New →
            result.1 ≡ (clock_of T.owner self.now).rights message.now.source }
    {
        if message.target().clock != self.table.clock() {
            return (Look::Unknown, Rights::NONE);
        }
        self.table
            .look_with_rights(&message.source(), message.number(), &request_of(message))
    }

    /// Sends what is sent for a message that is neither carried out nor a repeat.
    fn answer<O: LongOutgoing>(
        &self,
        verdict: Verdict,
        ingress: u16,
        datagram: &[u8],
        message: &View<'_>,
        out: &mut O,
    )
        requires port { HasPort ingress self.now.sets }
        requires read { reading datagram.now ≡ Ok message.now }
        requires spelled { Spells message.now (message_octets datagram.now) }
        requires verdict { verdict ≡ judged
            (clock_of T.owner self.now) (state_of T.entries self.now) message.now }
        requires not_new { verdict ≢ Verdict.AnsweredNew }
        requires not_repeat { verdict ≢ Verdict.AnsweredRepeat }
        requires valid { IsValid message.now }
        requires empty { O.sent out.old ≡ [] }
        requires room { length (forwarded (clock_of T.owner self.now).identity ingress self.now.sets datagram.now
            ++ reply_messages (clock_of T.owner self.now) ingress (heard_of message.now)
            (reply_by verdict (clock_of T.owner self.now) (state_of T.entries self.now) message.now))
            ≤ O.most out.old }
        ensures sent { O.sent out.new
            ≡ forwarded (clock_of T.owner self.now).identity ingress self.now.sets datagram.now
            ++ reply_messages (clock_of T.owner self.now) ingress (heard_of message.now)
            (reply_by verdict (clock_of T.owner self.now) (state_of T.entries self.now)
            message.now) }
        ensures grown { O.grown out.old out.new }
    {
        self.forward(verdict, ingress, datagram, message, out);
        self.reply(verdict, ingress, message, out);
    }

    /// Sends the reply to a message that is neither carried out nor a repeat, if it gets one.
    fn reply<O: Outgoing>(&self, verdict: Verdict, ingress: u16, message: &View<'_>, out: &mut O)
        requires verdict { verdict ≡ judged
            (clock_of T.owner self.now) (state_of T.entries self.now) message.now }
        requires not_new { verdict ≢ Verdict.AnsweredNew }
        requires not_repeat { verdict ≢ Verdict.AnsweredRepeat }
        requires valid { IsValid message.now }
        requires room { length (O.sent out.old)
            + length (reply_messages (clock_of T.owner self.now) ingress (heard_of message.now)
            (reply_by verdict (clock_of T.owner self.now) (state_of T.entries self.now) message.now))
            ≤ O.most out.old }
        ensures sent { O.sent out.new
            ≡ O.sent out.old
            ++ reply_messages (clock_of T.owner self.now) ingress (heard_of message.now)
            (reply_by verdict (clock_of T.owner self.now) (state_of T.entries self.now)
            message.now) }
        ensures grown { O.grown out.old out.new }
    {
        match verdict {
            Verdict::AnsweredUnnumbered => {
                let request = request_of(message);
                let heard = heard_of(message);
                let mut sender = Sender::new(out);
                sender.address(&self.table.clock(), &heard, &request, ingress);
                self.sets.read_into(&request, &mut sender);
            }
            _ => {}
        }
    }

    /// Leaves the messages of a reply in the outbox, and nothing else.
    fn send(&self, reply: &Reply, ingress: u16, message: &View<'_>, out: &mut Outbox)
        requires sendable { IsSendable reply.now }
        requires few { length reply.now.answers ≤ INLINE_PORTS }
        ensures { out.new ≡ rendered (clock_of T.owner self.now).identity
            (heard_of message.now) reply.now ingress }
    {
        out.clear();
        render(&self.table.clock(), &heard_of(message), reply, ingress, out);
    }

    /// Carries out a new request and keeps it with its reply. If memory is refused, nothing changes.
    #[tactic(auto, using(crate::proofs::Alike::port_laws))]
    fn try_accept(&mut self, message: &View<'_>, rights: Rights) -> Result<Reply, OutOfMemory>
        requires small { T.most self.old.table ≤ INLINE_PORTS }
        requires new { judged
            (clock_of T.owner self.old) (state_of T.entries self.old) message.now
            ≡ Verdict.AnsweredNew }
        requires rights { rights ≡ (clock_of T.owner self.old).rights message.now.source }
        requires valid { IsValid message.now }
        ensures reply { IfOk result (λ r. r ≡ new_reply
            (clock_of T.owner self.old) (state_of T.entries self.old) message.now) }
        ensures sendable { IfOk result (λ r. IsSendable r) }
        ensures few { IfOk result (λ r. length r.answers ≤ INLINE_PORTS) }
        ensures accepted { OnOk result (state_of T.entries self.new ≡ carried_out
            (clock_of T.owner self.old) (state_of T.entries self.old) message.now) }
        ensures refused { OnErr result
            (state_of T.entries self.new ≡ state_of T.entries self.old) }
        ensures clock { clock_of T.owner self.new ≡ clock_of T.owner self.old }
        ensures most { T.most self.new.table ≡ T.most self.old.table }
    {
        let source = message.source();
        let request = request_of(message);
        data_sets_law(&self.sets);
        let mut sets = self.sets.copy();
        let reply = sets.decide(&request, rights);
        self.table
            .keep(&source, message.number(), &request, &reply)?;
        self.sets = sets;
        Ok(reply)
    }
}

const _: () = prove!(size_of::<Agent<SlotTable<1>>>() == 2_552);

impl<const SLOTS: usize> Agent<SlotTable<SLOTS>> {
    /// A clock that has heard nothing yet and has no managers. It is never inlined: it is made in the place where it is
    /// kept, cleared once and not moved.
    #[inline(never)]
    pub fn without_managers(sets: DataSets) -> Agent<SlotTable<SLOTS>>
        requires { length sets.ports ≤ INLINE_PORTS }
        ensures sets { result.sets ≡ sets }
        ensures most { ⟦<SlotTable<SLOTS> as ReplyTable>⟧.most result.table ≡ INLINE_PORTS }
        ensures table { IsFresh sets.default.identity []
            (⟦<SlotTable<SLOTS> as ReplyTable>⟧.owner result.table)
            (⟦<SlotTable<SLOTS> as ReplyTable>⟧.entries result.table) }
    {
        let table = SlotTable::without_managers(sets.identity());
        Agent::new(sets, table)
    }

    /// Gives a clock without managers these. They are those that its table takes: at most as many as it has slots, at most
    /// sixteen, and each identity once.
    pub fn admit(&mut self, managers: &[(PortIdentity, Rights)])
        requires none { (⟦<SlotTable<SLOTS> as ReplyTable>⟧.owner self.old.table).managers ≡ [] }
        requires few { length managers.now ≤ most_managers SLOTS }
        requires distinct { has_twice (identities managers.now) ≡ false }
        requires most { ⟦<SlotTable<SLOTS> as ReplyTable>⟧.most self.old.table ≡ INLINE_PORTS }
        ensures sets { self.new.sets ≡ self.old.sets }
        ensures most { ⟦<SlotTable<SLOTS> as ReplyTable>⟧.most self.new.table ≡ INLINE_PORTS }
        ensures table { IsFresh (⟦<SlotTable<SLOTS> as ReplyTable>⟧.owner self.old.table).identity
            managers.now (⟦<SlotTable<SLOTS> as ReplyTable>⟧.owner self.new.table)
            (⟦<SlotTable<SLOTS> as ReplyTable>⟧.entries self.new.table) }
    {
        self.table.admit(managers);
    }
}

impl<T: SureTable + Drop> Agent<T> {
    /// Keeps a manager's request with the answers of the reply to it, as an image of the clock has them. The data sets stay as they
    /// are.
    pub fn keep_again(
        &mut self,
        who: &PortIdentity,
        number: u16,
        request: &Request<'_>,
        answers: &[PortAnswer],
    )
        requires known { IsTrue (is_known who.now (T.owner self.old.table).managers) }
        requires action { IsRequestAction request.now.action }
        requires octets { IsDataField request.now.octets }
        requires fits { FitsRequest request.now (reply_with request.now (map answer_of answers.now)) }
        requires few { length answers.now ≤ T.most self.old.table }
        ensures sets { self.new.sets ≡ self.old.sets }
        ensures entries { T.entries self.new.table ≡ fin.insert (T.entries self.old.table) who.now
            (record { number = number; request = request.now; reply = reply_with request.now (map answer_of answers.now) }) }
        ensures owner { T.owner self.new.table ≡ T.owner self.old.table }
        ensures most { T.most self.new.table ≡ T.most self.old.table }
    {
        self.table.replace_answers(who, number, request, answers);
    }

    /// Keeps a manager's request with the reply that was sent for the copy that was heard, as the clock's device makes it. The data
    /// sets stay as they are. The messages and `of_port` are those of `SureTable::keep_sent`.
    pub fn keep_sent<O: Outgoing>(
        &mut self,
        heard: &Heard,
        request: &Request<'_>,
        of_port: bool,
        out: &O,
    )
        requires known { IsTrue (is_known heard.now.source (T.owner self.old.table).managers) }
        requires action { IsRequestAction request.now.action }
        requires octets { IsDataField request.now.octets }
        requires sent { (r : ReplyValue) × IsSentReply (T.owner self.old.table).identity heard.now
            request.now.action request.now.id of_port (O.sent out.now) r }
        requires few { length (O.sent out.now) ≤ T.most self.old.table }
        ensures sets { self.new.sets ≡ self.old.sets }
        ensures entries { (r : ReplyValue) → IsSentReply (T.owner self.old.table).identity heard.now
            request.now.action request.now.id of_port (O.sent out.now) r →
            T.entries self.new.table ≡ fin.insert (T.entries self.old.table) heard.now.source
            (record { number = heard.now.number; request = request.now; reply = r }) }
        ensures owner { T.owner self.new.table ≡ T.owner self.old.table }
        ensures most { T.most self.new.table ≡ T.most self.old.table }
    {
        self.table.keep_sent(heard, request, of_port, out);
    }

    /// What `try_handle` does, over a table that always has room: never refused, and it takes no memory.
    pub fn handle(&mut self, ingress: u16, datagram: &[u8], out: &mut Outbox) -> Verdict
        requires port { HasPort ingress self.old.sets }
        requires small { T.most self.old.table ≤ INLINE_PORTS }
        ensures turned { IsTurned (turn
            (clock_of T.owner self.old) (state_of T.entries self.old) ingress datagram.now)
            result out.new (state_of T.entries self.new) }
        ensures clock { clock_of T.owner self.new ≡ clock_of T.owner self.old }
        ensures most { T.most self.new.table ≡ T.most self.old.table }
    {
        data_sets_law(&self.sets);
        self.table.few_answers();
        out.clear();
        self.handle_into(ingress, datagram, out)
    }

    /// Like `handle`, but writes each message directly to `out`, which must be empty and take what the turn sends.
    #[inline(always)]
    pub fn handle_into<O: LongOutgoing>(
        &mut self,
        ingress: u16,
        datagram: &[u8],
        out: &mut O,
    ) -> Verdict
        requires port { HasPort ingress self.old.sets }
        requires empty { O.sent out.old ≡ [] }
        requires room { length (outbox_of (turn
            (clock_of T.owner self.old) (state_of T.entries self.old) ingress datagram.now))
            ≤ O.most out.old }
        ensures turned { IsTurned (turn
            (clock_of T.owner self.old) (state_of T.entries self.old) ingress datagram.now)
            result (O.sent out.new) (state_of T.entries self.new) }
        ensures grown { O.grown out.old out.new }
        ensures clock { clock_of T.owner self.new ≡ clock_of T.owner self.old }
        ensures most { T.most self.new.table ≡ T.most self.old.table }
    {
        self.turn_into::<O, false>(ingress, datagram, out).0
    }

    /// Does what `handle_into` does, but leaves the copies to its caller: only the replies are written to `out`, which must be empty and
    /// take these. Answers also whether the datagram is passed on, and then no data set has changed.
    pub fn reply_into<O: Outgoing>(
        &mut self,
        ingress: u16,
        datagram: &[u8],
        out: &mut O,
    ) -> (Verdict, bool)
        requires port { HasPort ingress self.old.sets }
        requires empty { O.sent out.old ≡ [] }
        requires room { length (turn
            (clock_of T.owner self.old) (state_of T.entries self.old) ingress datagram.now).replies
            ≤ O.most out.old }
        ensures turned { IsTurned (turn
            (clock_of T.owner self.old) (state_of T.entries self.old) ingress datagram.now)
            result.0 (copies_if result.1 ingress self.old.sets datagram.now ++ O.sent out.new)
            (state_of T.entries self.new) }
        ensures well_formed { IsTrue result.1 → IsWellFormed datagram.now }
        ensures sets { IsTrue result.1 → self.new.sets ≡ self.old.sets }
        ensures grown { O.grown out.old out.new }
        ensures clock { clock_of T.owner self.new ≡ clock_of T.owner self.old }
        ensures most { T.most self.new.table ≡ T.most self.old.table }
    {
        let message = match view(datagram) {
            Ok(message) => message,
            Err(cause) => return (Verdict::Malformed(cause), false),
        };
        let (verdict, rights) = self.judge(&message);
        match verdict {
            Verdict::AnsweredNew => self.accept(ingress, &message, rights, out),
            Verdict::AnsweredRepeat => self.table.send_again(&heard_of(&message), ingress, out),
            _ => {
                self.reply(verdict, ingress, &message, out);
                let passed = self.passes_on(verdict, ingress, &message);
                return (verdict, passed);
            }
        }
        (verdict, false)
    }

    /// Does what `handle_into` does, and answers which members have another value after it. Only a manager's new SET or COMMAND may
    /// change one. So for any other message none is compared.
    #[inline(always)]
    pub fn change_into<O: LongOutgoing>(
        &mut self,
        ingress: u16,
        datagram: &[u8],
        out: &mut O,
    ) -> (Verdict, ChangedMembers)
        requires port { HasPort ingress self.old.sets }
        requires empty { O.sent out.old ≡ [] }
        requires room { length (outbox_of (turn
            (clock_of T.owner self.old) (state_of T.entries self.old) ingress datagram.now))
            ≤ O.most out.old }
        ensures turned { IsTurned (turn
            (clock_of T.owner self.old) (state_of T.entries self.old) ingress datagram.now)
            result.0 (O.sent out.new) (state_of T.entries self.new) }
        ensures members { result.1 ≡ changed self.old.sets self.new.sets }
        ensures grown { O.grown out.old out.new }
        ensures clock { clock_of T.owner self.new ≡ clock_of T.owner self.old }
        ensures most { T.most self.new.table ≡ T.most self.old.table }
    {
        self.turn_into::<O, true>(ingress, datagram, out)
    }

    /// One turn. It answers what has changed if its caller `ASKS` that; otherwise nothing is compared.
    #[inline(always)]
    fn turn_into<O: LongOutgoing, const ASKS: bool>(
        &mut self,
        ingress: u16,
        datagram: &[u8],
        out: &mut O,
    ) -> (Verdict, ChangedMembers)
        requires port { HasPort ingress self.old.sets }
        requires empty { O.sent out.old ≡ [] }
        requires room { length (outbox_of (turn
            (clock_of T.owner self.old) (state_of T.entries self.old) ingress datagram.now))
            ≤ O.most out.old }
        ensures turned { IsTurned (turn
            (clock_of T.owner self.old) (state_of T.entries self.old) ingress datagram.now)
            result.0 (O.sent out.new) (state_of T.entries self.new) }
        ensures members { ASKS ≡ true → result.1 ≡ changed self.old.sets self.new.sets }
        ensures grown { O.grown out.old out.new }
        ensures clock { clock_of T.owner self.new ≡ clock_of T.owner self.old }
        ensures most { T.most self.new.table ≡ T.most self.old.table }
    {
        let message = match view(datagram) {
            Ok(message) => message,
            Err(cause) => return (Verdict::Malformed(cause), ChangedMembers::NONE),
        };
        let (verdict, rights) = self.judge(&message);
        match verdict {
            Verdict::AnsweredNew => {
                let members = self.accept_asked::<O, ASKS>(ingress, &message, rights, out);
                return (verdict, members);
            }
            Verdict::AnsweredRepeat => self.table.send_again(&heard_of(&message), ingress, out),
            _ => self.answer(verdict, ingress, datagram, &message, out),
        }
        (verdict, ChangedMembers::NONE)
    }

    /// Handles the datagrams of a list in their order, each as it comes in at its port. The outbox then holds what is sent for
    /// the last of them, and nothing else. So a running agent keeps over every list what it keeps in one call. Let it be
    /// at a history, as it is at first, and let the copies among the datagrams keep to the window. Then it is at the history
    /// in which each accepted request is applied once more, in order of first acceptance. The last datagram, if it is a copy,
    /// is sent the reply that is due to it.
    pub fn handle_each(&mut self, datagrams: &[(u16, Octets)], out: &mut Outbox)
        requires ports { All (λ x. HasPort x.0 self.old.sets) datagrams.now }
        requires small { T.most self.old.table ≤ INLINE_PORTS }
        ensures turned { state_of T.entries self.new ≡ after_each
            (clock_of T.owner self.old) (state_of T.entries self.old) datagrams.now }
        ensures sent { out.new ≡ last_sent
            (clock_of T.owner self.old) (state_of T.entries self.old) out.old datagrams.now }
        ensures once { (first : PortIdentity → ℕ) (h : History) (xs : List Delivery)
            → datagrams.now ≡ datagrams_of xs
            → let c = clock_of T.owner self.old in
            let came_in = copies c (length self.old.sets.ports) xs in
            StandsAt first (state_of T.entries self.old) h
            → AreNumbered first came_in
            → KeepsWindow c h came_in
            → StandsAt first (state_of T.entries self.new)
            (applied_once c h came_in) }
        ensures due { (first : PortIdentity → ℕ) (h : History) (xs : List Delivery) (x : Delivery)
            (k : RequestCopy)
            → datagrams.now ≡ datagrams_of (xs ++ x ∷ [])
            → let c = clock_of T.owner self.old in
            let came_in = copies c (length self.old.sets.ports) xs in
            StandsAt first (state_of T.entries self.old) h
            → copy_of c (length self.old.sets.ports) x ≡ Some k
            → AreNumbered first (came_in ++ k ∷ [])
            → KeepsWindow c h (came_in ++ k ∷ [])
            → out.new ≡ due_messages c k (due_reply c (applied_once c h came_in) k) }
        ensures clock { clock_of T.owner self.new ≡ clock_of T.owner self.old }
        ensures most { T.most self.new.table ≡ T.most self.old.table }
    {
        for place in 0..datagrams.len() {
            let arrival = &datagrams[place];
            self.handle(arrival.0, arrival.1.as_slice(), out);
        }
    }

    /// Does what `accept` does, and answers which members have another value after it if its caller `ASKS`.
    #[inline(always)]
    fn accept_asked<O: Outgoing, const ASKS: bool>(
        &mut self,
        ingress: u16,
        message: &View<'_>,
        rights: Rights,
        out: &mut O,
    ) -> ChangedMembers
        requires new { judged
            (clock_of T.owner self.old) (state_of T.entries self.old) message.now
            ≡ Verdict.AnsweredNew }
        requires rights { rights ≡ (clock_of T.owner self.old).rights message.now.source }
        requires valid { IsValid message.now }
        requires empty { O.sent out.old ≡ [] }
        requires room { length (new_reply
            (clock_of T.owner self.old) (state_of T.entries self.old) message.now).answers
            ≤ O.most out.old }
        ensures accepted { state_of T.entries self.new ≡ carried_out
            (clock_of T.owner self.old) (state_of T.entries self.old) message.now }
        ensures sent { O.sent out.new
            ≡ rendered (clock_of T.owner self.old).identity (heard_of message.now)
            (new_reply (clock_of T.owner self.old) (state_of T.entries self.old) message.now)
            ingress }
        ensures members { ASKS ≡ true → result ≡ changed self.old.sets self.new.sets }
        ensures grown { O.grown out.old out.new }
        ensures clock { clock_of T.owner self.new ≡ clock_of T.owner self.old }
        ensures most { T.most self.new.table ≡ T.most self.old.table }
    {
        let members = self.members_asked::<ASKS>(message, rights);
        self.accept(ingress, message, rights, out);
        members
    }

    /// Which members a request with these rights would change, if the caller `ASKS`. A GET changes none, and pays for no call.
    #[inline(always)]
    fn members_asked<const ASKS: bool>(&self, message: &View<'_>, rights: Rights) -> ChangedMembers
        requires { IsTargetPort (request_of message.now).port self.now.sets }
        ensures { ASKS ≡ true → result ≡ changed self.now.sets
            (changed_by (request_of message.now) rights self.now.sets) }
    {
        if !ASKS {
            return ChangedMembers::NONE;
        }
        match message.action() {
            Action::Get => ChangedMembers::NONE,
            _ => self.sets.changes_of(&request_of(message), rights),
        }
    }

    /// Carries out a new request, keeps it with its reply, and sends the messages of the reply.
    #[tactic(auto, using(crate::proofs::Alike::port_laws))]
    fn accept<O: Outgoing>(&mut self, ingress: u16, message: &View<'_>, rights: Rights, out: &mut O)
        requires new { judged
            (clock_of T.owner self.old) (state_of T.entries self.old) message.now
            ≡ Verdict.AnsweredNew }
        requires rights { rights ≡ (clock_of T.owner self.old).rights message.now.source }
        requires valid { IsValid message.now }
        requires empty { O.sent out.old ≡ [] }
        requires room { length (new_reply
            (clock_of T.owner self.old) (state_of T.entries self.old) message.now).answers
            ≤ O.most out.old }
        ensures accepted { state_of T.entries self.new ≡ carried_out
            (clock_of T.owner self.old) (state_of T.entries self.old) message.now }
        ensures sent { O.sent out.new
            ≡ rendered (clock_of T.owner self.old).identity (heard_of message.now)
            (new_reply (clock_of T.owner self.old) (state_of T.entries self.old) message.now)
            ingress }
        ensures grown { O.grown out.old out.new }
        ensures clock { clock_of T.owner self.new ≡ clock_of T.owner self.old }
        ensures most { T.most self.new.table ≡ T.most self.old.table }
    {
        let heard = heard_of(message);
        let request = request_of(message);
        data_sets_law(&self.sets);
        let mut sender = Sender::new(out);
        sender.address(&self.table.clock(), &heard, &request, ingress);
        self.sets.decide_into(&request, rights, &mut sender);
        let of_port = sender.of_port();
        self.table.keep_sent(&heard, &request, of_port, out);
    }
}

/// What a request asks.
fn request_of<'a>(message: &View<'a>) -> Request<'a>
    ensures { result ≡ request_of message.now }
{
    Request {
        action: message.action(),
        id: message.id(),
        port: message.target().port,
        octets: message.octets(),
    }
}

/// What a reply takes from the copy that it answers.
fn heard_of(message: &View<'_>) -> Heard
    ensures { result ≡ heard_of message.now }
{
    Heard {
        domain: message.domain(),
        source: message.source(),
        number: message.number(),
        starting_hops: message.starting_hops(),
        hops: message.hops(),
    }
}
