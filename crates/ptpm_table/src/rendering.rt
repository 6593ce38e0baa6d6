//! Replies as messages.

ghost use Rattle.std.specs.Prelude.{All, map, ◌≡◌, ◌+◌, ◌≤◌, ◌++◌, length};
ghost use Rattle.ptpm_codec.specs.Draft.{body_of};
ghost use Rattle.ptpm_codec.specs.Message.{IsReplyAction, IsValid, IsValidBody};
ghost use Rattle.ptpm_data.specs.Reply.{answer_of, outcome_of};
ghost use Rattle.ptpm_table.specs.Rendering.{IsEvenOutcome, answer_body, hops_passed, rendered, reply_message};

use crate::heard::Heard;
use crate::outbox::{OUTBOX_MESSAGES, Outbox};
use crate::outgoing::Outgoing;
use ptpm_codec::{Action, ClockIdentity, Draft, DraftBody, Envelope, ErrorId, PortIdentity};
use ptpm_data::{Answers, PortAnswer, Reply, Request, What};

/// Appends the messages that a reply is sent as, in the order of its answers. They are for the copy of the request that
/// was heard at the ingress port, and each goes out there (15.4.1). Each message is encoded in its place in the outbox.
/// Takes no memory.
#[inline(always)]
pub fn render(me: &ClockIdentity, heard: &Heard, reply: &Reply, ingress: u16, out: &mut Outbox)
    requires action { IsReplyAction reply.now.action }
    requires even { All (λ a. IsEvenOutcome a.outcome) reply.now.answers }
    requires room { length out.old + length reply.now.answers ≤ OUTBOX_MESSAGES }
    ensures { out.new ≡ out.old ++ rendered me.now heard.now reply.now ingress }
{
    let answers = reply.answers.as_slice();
    render_answers(me, heard, reply.action, reply.id, answers, ingress, out);
}

#[tactic(auto, unfolding(crate::specs::Rendering::rendered))]
fn render_answers(
    me: &ClockIdentity,
    heard: &Heard,
    action: Action,
    id: u16,
    answers: &[PortAnswer],
    ingress: u16,
    out: &mut Outbox,
)
    requires action { IsReplyAction action }
    requires even { All (λ a. IsEvenOutcome (outcome_of a.what)) answers.now }
    requires room { length out.old + length answers.now ≤ OUTBOX_MESSAGES }
    ensures { out.new
        ≡ out.old
        ++ rendered me.now heard.now
        (record { action = action; id = id; answers = map answer_of answers.now }) ingress }
{
    for answer in answers {
        let draft = draft_of(me, heard, action, id, answer, ingress);
        out.push_draft(ingress, &draft);
    }
}

/// Both hop fields of a reply: how many hops the copy has lost on its way.
#[inline(always)]
pub(crate) fn hops_passed(heard: &Heard) -> u8
    ensures { result ≡ hops_passed heard.now }
{
    heard.starting_hops.saturating_sub(heard.hops)
}

/// The message of one answer, with its dataField lent.
#[inline(always)]
pub(crate) fn draft_of<'a>(
    me: &ClockIdentity,
    heard: &Heard,
    action: Action,
    id: u16,
    answer: &'a PortAnswer,
    ingress: u16,
) -> Draft<'a>
    requires action { IsReplyAction action }
    requires even { IsEvenOutcome (outcome_of answer.now.what) }
    ensures message { result
        ≡ reply_message me.now heard.now action id ingress (answer_of answer.now) }
    ensures valid { IsValid result }
{
    let hops = hops_passed(heard);
    Draft {
        sdo: 0,
        domain: heard.domain,
        source: PortIdentity {
            clock: *me,
            port: answer.port.unwrap_or(ingress),
        },
        number: heard.number,
        target: PortIdentity {
            clock: heard.source.clock,
            port: heard.source.port,
        },
        starting_hops: hops,
        hops,
        body: body_of_answer(action, id, &answer.what),
    }
}

#[inline(always)]
fn body_of_answer(action: Action, id: u16, what: &What) -> DraftBody<'_>
    requires action { IsReplyAction action }
    requires even { IsEvenOutcome (outcome_of what.now) }
    ensures body { body_of result ≡ answer_body action id (outcome_of what.now) }
    ensures valid { IsValidBody (body_of result) }
{
    match what {
        What::Value(octets) => DraftBody::Answer {
            action,
            id,
            octets: octets.as_slice(),
        },
        What::Done => DraftBody::Answer {
            action,
            id,
            octets: &[],
        },
        What::Refused(error) => DraftBody::Fault {
            action,
            error: error.number(),
            id,
            text: &[],
        },
    }
}

/// Sends the answers to a request, each as a message written in place. They go out at the port at which the copy that they
/// answer came in (15.4.1). Takes no memory.
#[derive(Drop)]
pub struct Sender<'a, O: Outgoing> {
    envelope: Envelope,
    id: u16,
    ingress: u16,
    /// Whether the last answer was of a port.
    of_port: bool,
    out: &'a mut O,
}

impl<'a, O: Outgoing> Sender<'a, O> {
    ghost use Rattle.std.specs.Prelude.{◌≡◌, false, replicate};
    ghost use Rattle.ptpm_codec.specs.Envelope.{envelope_of};
    ghost use Rattle.ptpm_codec.specs.Message.{Fits, reply_action};
    ghost use Rattle.ptpm_table.specs.Sending.{empty_reply};

    /// A sender that does not know yet whom it answers.
    #[inline(always)]
    pub fn new(out: &'a mut O) -> Sender<'a, O>
        ensures same_reference { result.out.ghost_name ≡ out.entry.ghost_name }
        ensures held { result.out.now ≡ out.old }
        ensures of_port { result.of_port ≡ false }
        ensures blank { result.envelope ≡ replicate 54 0 }
    {
        Sender {
            envelope: Envelope::blank(),
            id: 0,
            ingress: 0,
            of_port: false,
            out,
        }
    }

    /// Has it send the answers of this clock to a request, for the copy of it that was heard at the ingress port. What the
    /// messages have in common is put together in place, in the sender.
    #[inline(always)]
    pub fn address(
        &mut self,
        me: &ClockIdentity,
        heard: &Heard,
        request: &Request<'_>,
        ingress: u16,
    )
        requires blank { self.old.envelope ≡ replicate 54 0 }
        ensures place { self.new.out ≡ self.old.out }
        ensures ingress { self.new.ingress ≡ ingress }
        ensures id { self.new.id ≡ request.now.id }
        ensures of_port { self.new.of_port ≡ self.old.of_port }
        ensures envelope { let action = reply_action request.now.action in
            self.new.envelope ≡ envelope_of
            (empty_reply me.now heard.now action request.now.id ingress) action request.now.id }
        ensures fits { Fits (empty_reply me.now heard.now
            (reply_action request.now.action) request.now.id ingress) }
    {
        let empty = PortAnswer::default();
        let action = request.action.reply();
        let draft = draft_of(me, heard, action, request.id, &empty, ingress);
        self.id = request.id;
        self.ingress = ingress;
        self.envelope.address(&draft, request.id);
    }

    /// Whether the last answer was of a port.
    pub fn of_port(&self) -> bool
        ensures { result ≡ self.now.of_port }
    {
        self.of_port
    }
}

impl<O: Outgoing> Answers for Sender<'_, O> {
    ghost use Rattle.std.specs.Prelude.{length};
    ghost use Rattle.ptpm_table.specs.Sending.{HasSent};
    ghost use Rattle.ptpm_table.specs.SendingLaws.{sent_as_many, sent_count, sent_none, sent_twice};

    ghost most = { λ s. O.most s.out.now };

    ghost count = { λ s. length (O.sent s.out.now) };

    ghost taken = { HasSent O.sent O.grown };

    ghost none_taken = { sent_none O.sent O.grown O.grown_by_none };

    ghost taken_after = { sent_twice O.sent O.grown O.grown_twice };

    ghost counted = { sent_count O.sent O.grown };

    ghost as_many = { sent_as_many O.sent O.grown O.most O.as_many };

    #[inline(always)]
    fn take_value(&mut self, port: Option<u16>, octets: &[u8]) {
        self.of_port = port.is_some();
        let source = port.unwrap_or(self.ingress);
        self.out
            .push_answer(self.ingress, &self.envelope, source, octets);
    }

    #[inline(always)]
    fn take_done(&mut self, port: Option<u16>) {
        self.take_value(port, &[]);
    }

    fn take_refusal(&mut self, port: Option<u16>, error: ErrorId) {
        self.of_port = port.is_some();
        let source = port.unwrap_or(self.ingress);
        self.out.push_refusal(
            self.ingress,
            &self.envelope,
            source,
            error.number(),
            self.id,
        );
    }
}
