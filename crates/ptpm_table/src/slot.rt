//! A manager's place in a table of fixed size.

ghost use Rattle.std.specs.Prelude.{◌≡◌, ◌<◌, ◌≤◌, ◌+◌, ◌++◌, ℕ, [], Some, length, map, slice_get, slice_index};
ghost use Rattle.std.specs.Int.{from_be_bytes, w64};
ghost use Rattle.std.specs.Ordering.{is_lt};
ghost use Rattle.ptpm_codec.specs.Identity.{identity_cmp};
ghost use Rattle.ptpm_codec.specs.Message.{IsDataField, IsRequestAction};
ghost use Rattle.ptpm_data.specs.Reply.{ReplyValue, answer_of};
ghost use Rattle.ptpm_table.specs.Entries.{FitsRequest, reply_with};
ghost use Rattle.ptpm_table.specs.Lending.{EntryFits, IsKeepable, lent_answer};
ghost use Rattle.ptpm_table.specs.Sending.{IsSentReply};
ghost use Rattle.ptpm_table.specs.Rendering.{rendered};

use crate::heard::Heard;
use crate::kept_messages::{Exchange, encode_each, has_port, keep_each, port_for, resend_each};
use crate::kept_octets::KeptOctets;
use crate::lending::{LentAnswer, LentAnswers, LentEntry, answer_in, message_at};
use crate::outgoing::Outgoing;
use crate::rendering::hops_passed;
use crate::renewal::Renewal;
use arrayvec::ArrayVec;
use ptpm_codec::{Action, ClockIdentity, DATA_FIELD_OCTETS, PortIdentity, overwrite};
use ptpm_data::{INLINE_PORTS, PortAnswer, Request, Rights};
use std::marker::Model;

/// A manager's rights, and its latest accepted request, if one is kept. In it and in `Kept` the large members come first, so
/// that no octet between two members belongs to neither. An empty table is then cleared in one piece.
#[derive(Drop)]
pub struct Slot {
    pub(crate) kept: Kept,
    pub(crate) rights: Rights,
    /// Whether a request is kept.
    pub(crate) taken: bool,
}

impl Default for Slot {
    /// A slot of nobody.
    fn default() -> Slot {
        let clock = ClockIdentity([0; 8]);
        Slot::unused(
            &clock,
            &(PortIdentity { clock, port: 0 }, Rights::NONE),
            KeptOctets::new(),
        )
    }
}

impl Slot {
    ghost use Rattle.std.specs.Prelude.{◌↔◌, IsTrue, false};
    ghost use Rattle.ptpm_table.specs.Slots.{IsUsedAfter};

    /// A slot of a manager of this clock, in which no request is kept yet.
    #[inline(always)]
    pub(crate) fn unused(
        clock: &ClockIdentity,
        manager: &(PortIdentity, Rights),
        reply: KeptOctets,
    ) -> Slot
        requires empty { (reply.sizes ≡ []) × (reply.octets ≡ []) }
        requires least { INLINE_PORTS ≤ reply.most }
        ensures clock { result.kept.clock ≡ clock.now }
        ensures manager { result.kept.manager ≡ manager.now.0 }
        ensures rights { result.rights ≡ manager.now.1 }
        ensures most { result.kept.most ≡ reply.most }
        ensures empty { result.taken ≡ false }
    {
        Slot {
            kept: Kept::nothing(clock, &manager.0, reply),
            rights: manager.1,
            taken: false,
        }
    }

    /// Whether a request is kept, of a manager who comes after this one; any does after none.
    pub(crate) fn is_used_after(&self, after: Option<PortIdentity>) -> bool
        ensures { IsTrue result ↔ IsUsedAfter after self.now }
    {
        self.taken
            && match after {
                None => true,
                Some(other) => is_before(&other, self.kept.manager()),
            }
    }
}

/// Whether a manager comes before another one, by the order of identities. The octets of a clock are read as one number, so that
/// one step compares them.
pub(crate) fn is_before(who: &PortIdentity, other: &PortIdentity) -> bool
    ensures { result ≡ is_lt (identity_cmp who.now other.now) }
{
    let clock = number_of(who.clock.0);
    let other_clock = number_of(other.clock.0);
    clock < other_clock || clock == other_clock && who.port < other.port
}

/// The number that the octets of a clock spell, the highest first.
fn number_of(octets: [u8; 8]) -> u64
    ensures number { result ≡ from_be_bytes w64 octets }
    ensures long { length octets ≡ 8 }
    ensures low { (i : ℕ) → slice_index octets i < 256 }
{
    u64::from_be_bytes(octets)
}

/// A request of a manager, in place, with its number, and the clock's reply to it in octets. Contracts see the entry of a
/// table that it is, with the manager and the clock.
#[derive(Drop)]
pub(crate) struct Kept {
    octets: ArrayVec<u8, DATA_FIELD_OCTETS>,
    /// The messages of the reply.
    reply: KeptOctets,
    clock: ClockIdentity,
    manager: PortIdentity,
    number: u16,
    id: u16,
    port: u16,
    action: Action,
    /// Whether the answers are of ports.
    of_port: bool,
}

impl Model for Kept {
    ghost use Rattle.std.specs.Prelude.{map};
    ghost use Rattle.ptpm_codec.specs.Message.{reply_action};
    ghost use Rattle.std.specs.Prelude.{◌≤◌};
    ghost use Rattle.ptpm_data.specs.declared.ports.TheConstants.{INLINE_PORTS};
    ghost use Rattle.ptpm_table.specs.KeptMessages.{IsKeptReply, KeptValue, answer_in, pieces};

    ghost Value = { KeptValue };

    ghost view = { λ k. record {
      clock = k.clock;
      manager = k.manager;
      entry = record {
        number = k.number;
        request = record { action = k.action; id = k.id; port = k.port; octets = k.octets.items };
        reply = record {
          action = reply_action k.action;
          id = k.id;
          answers = map (answer_in k.of_port) (pieces k.reply.sizes k.reply.octets);
        };
      };
      most = k.reply.most;
    } };

    ghost invariant = { λ k. IsKeptReply
        (record { clock = k.clock; manager = k.manager; number = k.number; action = reply_action k.action; id = k.id })
        k.of_port k.reply.sizes k.reply.octets
        × (INLINE_PORTS ≤ k.reply.most) };
}

impl Kept {
    /// The content of a slot that was not used yet.
    pub(crate) fn nothing(clock: &ClockIdentity, manager: &PortIdentity, reply: KeptOctets) -> Kept
        requires empty { (reply.sizes ≡ []) × (reply.octets ≡ []) }
        requires least { INLINE_PORTS ≤ reply.most }
        ensures clock { result.clock ≡ clock.now }
        ensures manager { result.manager ≡ manager.now }
        ensures most { result.most ≡ reply.most }
    {
        Kept {
            octets: ArrayVec::new(),
            reply,
            clock: *clock,
            manager: *manager,
            number: 0,
            id: 0,
            port: 0,
            action: Action::Get,
            of_port: false,
        }
    }

    /// Whose request is kept.
    pub(crate) fn manager(&self) -> &PortIdentity
        ensures { result.now ≡ self.now.manager }
    {
        &self.manager
    }

    /// The number of the request.
    pub(crate) fn number(&self) -> u16
        ensures { result ≡ self.now.entry.number }
    {
        self.number
    }

    /// The request, with its dataField lent. The reply to it has no more messages than have room.
    #[tactic(auto, using(crate::proofs::KeptMessageLaws::length_answers))]
    pub(crate) fn request(&self) -> Request<'_>
        ensures request { result ≡ self.now.entry.request }
        ensures few { length self.now.entry.reply.answers ≤ self.now.most }
    {
        let _sizes = self.reply.sizes();
        Request {
            action: self.action,
            id: self.id,
            port: self.port,
            octets: self.octets.as_slice(),
        }
    }

    /// The entry, lent.
    pub(crate) fn entry(&self) -> LentEntry<'_>
        ensures entry { result
            ≡ record { manager = self.now.manager; entry = self.now.entry } }
        ensures fits { IsKeepable self.now.entry → EntryFits result }
    {
        let _port = self.port;
        LentEntry { kept: self }
    }

    /// How many answers the reply has.
    #[tactic(auto, using(crate::proofs::KeptMessageLaws::length_answers))]
    pub(crate) fn answer_count(&self) -> usize
        ensures { result ≡ length self.now.entry.reply.answers }
    {
        self.reply.sizes().len()
    }

    /// An answer of the reply, by its place from 0 on.
    pub(crate) fn answer(&self, place: usize) -> LentAnswer<'_>
        requires { place < length self.now.entry.reply.answers }
        ensures { slice_get self.now.entry.reply.answers place ≡ Some (lent_answer result) }
    {
        let (sizes, messages) = (self.reply.sizes(), self.reply.octets());
        answer_in(self.of_port, message_at(sizes, messages, place))
    }

    /// The answers of the reply.
    pub(crate) fn answers(&self) -> LentAnswers<'_>
        ensures { result ≡ self.now.entry.reply.answers }
    {
        LentAnswers {
            of_port: self.of_port,
            sizes: self.reply.sizes(),
            messages: self.reply.octets(),
        }
    }

    /// Keeps another request, with its number and reply, in place of this one. The messages of the reply's answers are encoded
    /// in place.
    pub(crate) fn replace(&mut self, number: u16, request: &Request<'_>, answers: &[PortAnswer])
        requires action { IsRequestAction request.now.action }
        requires octets { IsDataField request.now.octets }
        requires fits { FitsRequest request.now (reply_with request.now (map answer_of answers.now)) }
        requires few { length answers.now ≤ self.old.most }
        ensures { self.new ≡ record { clock = self.old.clock; manager = self.old.manager; entry = record { number = number; request = request.now; reply = reply_with request.now (map answer_of answers.now) }; most = self.old.most } }
    {
        self.number = number;
        self.action = request.action;
        self.id = request.id;
        self.port = request.port;
        keep_octets(&mut self.octets, request.octets);
        self.of_port = has_port(answers);
        let exchange = Exchange {
            clock: self.clock,
            manager: self.manager,
            number,
            action: request.action,
            id: request.id,
        };
        encode_each(&exchange, self.of_port, answers, &mut self.reply);
    }

    /// Keeps another request, with its number, in place of this one. Keeps the messages of the reply to it as they were sent for
    /// the copy that was heard.
    #[inline(always)]
    pub(crate) fn keep_sent<O: Outgoing>(
        &mut self,
        heard: &Heard,
        request: &Request<'_>,
        of_port: bool,
        out: &O,
    )
        requires action { IsRequestAction request.now.action }
        requires octets { IsDataField request.now.octets }
        requires manager { heard.now.source ≡ self.old.manager }
        requires sent { (r : ReplyValue) × IsSentReply self.old.clock heard.now
            request.now.action request.now.id of_port (O.sent out.now) r }
        requires few { length (O.sent out.now) ≤ self.old.most }
        ensures { (r : ReplyValue) → IsSentReply self.old.clock heard.now
            request.now.action request.now.id of_port (O.sent out.now) r →
            self.new ≡ record { clock = self.old.clock; manager = self.old.manager; entry = record { number = heard.now.number; request = request.now; reply = r }; most = self.old.most } }
    {
        self.number = heard.number;
        self.action = request.action;
        self.id = request.id;
        self.port = request.port;
        keep_octets(&mut self.octets, request.octets);
        self.of_port = of_port;
        let exchange = Exchange {
            clock: self.clock,
            manager: self.manager,
            number: heard.number,
            action: request.action,
            id: request.id,
        };
        keep_each(&exchange, heard, of_port, out, &mut self.reply);
    }

    /// Appends the messages of the reply, for the copy of the request that was heard.
    #[inline(always)]
    pub(crate) fn resend<O: Outgoing>(&self, heard: &Heard, ingress: u16, out: &mut O)
        requires manager { heard.now.source ≡ self.now.manager }
        requires number { heard.now.number ≡ self.now.entry.number }
        requires room { length (O.sent out.old) + length self.now.entry.reply.answers ≤ O.most out.old }
        ensures messages { O.sent out.new
            ≡ O.sent out.old ++ rendered self.now.clock heard.now self.now.entry.reply ingress }
        ensures grown { O.grown out.old out.new }
    {
        let renewal = Renewal {
            domain: heard.domain,
            port: port_for(self.of_port, ingress),
            hops: hops_passed(heard),
        };
        let (sizes, messages) = (self.reply.sizes(), self.reply.octets());
        resend_each(sizes, messages, &renewal, ingress, out);
    }
}

/// Keeps a dataField in place of another. Most are empty, such as a GET's.
#[inline(always)]
fn keep_octets(kept: &mut ArrayVec<u8, DATA_FIELD_OCTETS>, octets: &[u8])
    requires { IsDataField octets.now }
    ensures { kept.new.items ≡ octets.now }
{
    if !(octets.is_empty() && kept.is_empty()) {
        overwrite(kept, octets);
    }
}
