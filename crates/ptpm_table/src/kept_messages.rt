//! A kept reply as octets: encoded, or copied as it was sent. It is sent again with those fields written over that depend
//! on the copy of the request.

ghost use Rattle.std.specs.Prelude.{All, ◌≡◌, ◌+◌, ◌*◌, ◌++◌, ◌≤◌, [], length, map};
ghost use Rattle.ptpm_codec.specs.Canonical.{canonical};
ghost use Rattle.ptpm_codec.specs.Message.{IsRequestAction, IsValid};
ghost use Rattle.ptpm_data.specs.Reply.{ReplyValue, answer_of, outcome_of};
ghost use Rattle.ptpm_table.specs.Sending.{AreSmall, IsSentReply, all_octets, messages_of};
ghost use Rattle.ptpm_table.specs.Entries.{FitsAnswer, FitsCount};
ghost use Rattle.ptpm_table.specs.Rendering.{IsEvenOutcome};
ghost use Rattle.ptpm_table.specs.KeptMessages.{AreSizes, IsCopyOf, IsKeptReply, answer_in, envelope_of, has_port, kept_message, pieces, port_for, renewed};

use crate::heard::Heard;
use crate::kept_octets::{KeptOctets, PORT_MESSAGE_OCTETS};
use crate::outgoing::Outgoing;
use crate::rendering::draft_of;
use crate::renewal::Renewal;
use ptpm_codec::{Action, ClockIdentity, Draft, PortIdentity};
use ptpm_data::{INLINE_PORTS, PortAnswer};

/// Which request of whom is answered, and by which clock.
#[derive(Clone, Copy)]
pub(crate) struct Exchange {
    pub(crate) clock: ClockIdentity,
    pub(crate) manager: PortIdentity,
    pub(crate) number: u16,
    /// What the request asks.
    pub(crate) action: Action,
    pub(crate) id: u16,
}

impl Exchange {
    /// The message of one answer as it is kept. It is for a copy of the request in domain 0 that has lost no hop and came
    /// in at port 0.
    #[inline(always)]
    fn draft<'a>(&self, answer: &'a PortAnswer) -> Draft<'a>
        requires { IsEvenOutcome (outcome_of answer.now.what) }
        ensures message { result ≡ kept_message (envelope_of self.now) (answer_of answer.now) }
        ensures valid { IsValid result }
    {
        let copy = Heard {
            domain: 0,
            source: self.manager,
            number: self.number,
            starting_hops: 0,
            hops: 0,
        };
        draft_of(&self.clock, &copy, self.action.reply(), self.id, answer, 0)
    }
}

/// Appends messages of these sizes, each for this port and with what depends on the copy written over. It is never inlined, so
/// that its loop keeps what it reads in registers.
#[inline(never)]
pub(crate) fn resend_each<O: Outgoing>(
    sizes: &[u8],
    messages: &[u8],
    renewal: &Renewal,
    port: u16,
    out: &mut O,
)
    requires cut { AreSizes sizes.now (length messages.now) }
    requires room { length (O.sent out.old) + length sizes.now ≤ O.most out.old }
    ensures messages { O.sent out.new
        ≡ O.sent out.old
        ++ map (λ m. (port, renewed renewal.now.domain renewal.now.port renewal.now.hops m))
        (pieces sizes.now messages.now) }
    ensures grown { O.grown out.old out.new }
{
    if let [size, sizes @ ..] = sizes {
        let (message, messages) = messages.split_at(*size as usize);
        out.push_renewed(port, message, renewal);
        resend_each(sizes, messages, renewal, port, out);
    }
}

/// Leaves the messages of a reply's answers, and nothing else.
pub(crate) fn encode_each(
    exchange: &Exchange,
    of_port: bool,
    answers: &[PortAnswer],
    kept: &mut KeptOctets,
)
    requires asks { IsRequestAction exchange.now.action }
    requires count { FitsCount of_port (length answers.now) }
    requires suits { All (λ a. FitsAnswer of_port exchange.now.action (answer_of a)) answers.now }
    requires few { length answers.now ≤ kept.old.most }
    requires least { INLINE_PORTS ≤ kept.old.most }
    ensures kept { IsKeptReply (envelope_of exchange.now) of_port kept.new.sizes kept.new.octets }
    ensures answers { map (answer_in of_port) (pieces kept.new.sizes kept.new.octets)
        ≡ map answer_of answers.now }
    ensures most { kept.new.most ≡ kept.old.most }
{
    kept.clear();
    for answer in answers {
        let draft = exchange.draft(answer);
        kept.encode(&draft);
    }
}

/// Whether the first answer is of a port.
pub(crate) fn has_port(answers: &[PortAnswer]) -> bool
    ensures { result ≡ has_port answers.now }
{
    match answers {
        [] => false,
        [first, ..] => first.port.is_some(),
    }
}

/// The portNumber to be written over a message's own, if any.
pub(crate) fn port_for(of_port: bool, ingress: u16) -> Option<u16>
    ensures { result ≡ port_for of_port ingress }
{
    if of_port { None } else { Some(ingress) }
}

/// Leaves copies of the messages of the reply that was sent for a copy of the request, and nothing else.
#[inline(always)]
pub(crate) fn keep_each<O: Outgoing>(
    exchange: &Exchange,
    heard: &Heard,
    of_port: bool,
    out: &O,
    kept: &mut KeptOctets,
)
    requires asks { IsRequestAction exchange.now.action }
    requires copy { IsCopyOf (envelope_of exchange.now) heard.now }
    requires sent { (r : ReplyValue) × IsSentReply exchange.now.clock heard.now
        exchange.now.action exchange.now.id of_port (O.sent out.now) r }
    requires few { length (O.sent out.now) ≤ kept.old.most }
    requires least { INLINE_PORTS ≤ kept.old.most }
    ensures kept { IsKeptReply (envelope_of exchange.now) of_port kept.new.sizes kept.new.octets }
    ensures answers { (r : ReplyValue) → IsSentReply exchange.now.clock heard.now
        exchange.now.action exchange.now.id of_port (O.sent out.now) r →
        map (answer_in of_port) (pieces kept.new.sizes kept.new.octets) ≡ r.answers }
    ensures most { kept.new.most ≡ kept.old.most }
{
    copy_all(out, kept);
}

/// Leaves copies of messages, and nothing else. Most replies are one message, which is written over the former.
#[inline(always)]
fn copy_all<O: Outgoing>(out: &O, kept: &mut KeptOctets)
    requires few { length (O.sent out.now) ≤ kept.old.most }
    requires small { AreSmall (messages_of (O.sent out.now)) }
    requires room { length (all_octets (messages_of (O.sent out.now))) ≤ PORT_MESSAGE_OCTETS * kept.old.most }
    ensures sizes { kept.new.sizes ≡ map length (messages_of (O.sent out.now)) }
    ensures messages { kept.new.octets ≡ all_octets (messages_of (O.sent out.now)) }
    ensures most { kept.new.most ≡ kept.old.most }
{
    if out.count() == 1 {
        kept.set(out.message(0));
    } else {
        kept.clear();
        copy_each(out, kept);
    }
}

/// Appends copies of the messages, if there were none. It is never inlined: most replies are one message.
#[inline(never)]
fn copy_each<O: Outgoing>(out: &O, kept: &mut KeptOctets)
    requires no_sizes { kept.old.sizes ≡ [] }
    requires none { kept.old.octets ≡ [] }
    requires few { length (O.sent out.now) ≤ kept.old.most }
    requires small { AreSmall (messages_of (O.sent out.now)) }
    requires room { length (all_octets (messages_of (O.sent out.now))) ≤ PORT_MESSAGE_OCTETS * kept.old.most }
    ensures sizes { kept.new.sizes ≡ map length (messages_of (O.sent out.now)) }
    ensures messages { kept.new.octets ≡ all_octets (messages_of (O.sent out.now)) }
    ensures most { kept.new.most ≡ kept.old.most }
{
    for place in 0..out.count() {
        kept.push(out.message(place));
    }
}
