//! The reply cache of a clock: the latest accepted request of each configured manager, with its reply.

ghost use Rattle.std.specs.Prelude.{◌≡◌, ◌≤◌, ◌+◌, ◌++◌, IsTrue, OnOk, OnErr, Some, length, map};
ghost use Rattle.std.specs.FinMap as fin;
ghost use Rattle.ptpm_codec.specs.Message.{IsRequestAction, IsDataField};
ghost use Rattle.ptpm_table.specs.Entries.{CanResend, Entry, FitsRequest, HasEntry, HasRoom, HaveAnswers, is_known, reply_with};
ghost use Rattle.ptpm_table.specs.Numbering.{look_of};
ghost use Rattle.ptpm_data.specs.Reply.{ReplyValue, answer_of};
ghost use Rattle.ptpm_table.specs.Rendering.{rendered};
ghost use Rattle.ptpm_table.specs.Sending.{IsSentReply};

use crate::heard::Heard;
use crate::outbox::{OUTBOX_MESSAGES, Outbox};
use crate::outgoing::Outgoing;
use ptpm_codec::{ClockIdentity, OutOfMemory, PortIdentity};
use ptpm_data::{PortAnswer, Reply, Request, Rights};

/// What a request is to the table.
#[derive(Clone, Copy, Debug, PartialEq, Eq)]
pub enum Look {
    /// Its source is no configured manager.
    Unknown,
    /// Its number is newer than the latest accepted, or it is the first.
    New,
    /// The latest accepted number, and the same request.
    Repeat,
    /// The latest accepted number, and another request.
    Conflict,
    /// Its number is older than the latest accepted.
    Old,
}

/// The latest accepted request of each configured manager, with its number and reply, however they are kept. Contracts
/// see a finite map from managers to entries.
pub trait ReplyTable {
    ghost use Rattle.std.specs.Prelude.{ℕ};
    ghost use Rattle.ptpm_table.specs.Entries.{Entries};
    ghost use Rattle.ptpm_table.specs.Managers.{Clock};

    /// The clock whose table this is, with its configured managers and what each may change. No call changes it.
    ghost owner: { Self → Clock };

    /// What is kept.
    ghost entries: { Self → Entries };

    /// How many answers of a reply it keeps at most. No call changes it.
    ghost most: { Self → ℕ };

    /// The clock's identity.
    fn clock(&self) -> ClockIdentity
        ensures { result ≡ (owner self.now).identity };

    /// Whether this is a configured manager.
    fn knows(&self, who: &PortIdentity) -> bool
        ensures { result ≡ is_known who.now (owner self.now).managers };

    /// The manager's rights; none for anyone else.
    fn rights(&self, who: &PortIdentity) -> Rights
        ensures { result ≡ (owner self.now).rights who.now };

    /// What a request of this source and number is.
    fn look(&self, who: &PortIdentity, number: u16, request: &Request<'_>) -> Look
        ensures look { result ≡ look_of (is_known who.now (owner self.now).managers)
            (fin.get (entries self.now) who.now) number request.now }
        ensures repeat { result ≡ Look.Repeat → CanResend (most self.now) (entries self.now) who.now number };

    /// What `look` and `rights` answer. A table that finds its manager once for both has a body of its own.
    fn look_with_rights(
        &self,
        who: &PortIdentity,
        number: u16,
        request: &Request<'_>,
    ) -> (Look, Rights)
        ensures look { result.0 ≡ look_of (is_known who.now (owner self.now).managers)
            (fin.get (entries self.now) who.now) number request.now }
        ensures repeat { result.0 ≡ Look.Repeat → CanResend (most self.now) (entries self.now) who.now number }
        ensures rights { result.1 ≡ (owner self.now).rights who.now }
    {
        (self.look(who, number, request), self.rights(who))
    }

    /// Puts number, request and reply in place of what is kept of the manager. What is kept of other managers stays. If memory is
    /// refused, nothing changes. The manager is known. The request is a GET, SET or COMMAND with an even number of octets, 1,418
    /// at most. The reply fits it, with the answering action and the id. It has one answer without a port for an id of the clock
    /// or of no row, and otherwise 1 to `PORTS` with ports. It has no more answers than the table keeps. An answer may be a
    /// refusal. For a COMMAND it may be `Done`. For another request it may be a value of even size, 130 octets at most, or 26 from
    /// a port.
    fn keep(
        &mut self,
        who: &PortIdentity,
        number: u16,
        request: &Request<'_>,
        reply: &Reply,
    ) -> Result<(), OutOfMemory>
        requires known { IsTrue (is_known who.now (owner self.old).managers) }
        requires action { IsRequestAction request.now.action }
        requires octets { IsDataField request.now.octets }
        requires fits { FitsRequest request.now reply.now }
        requires few { length reply.now.answers ≤ most self.old }
        ensures ok { OnOk result (entries self.new ≡ fin.insert (entries self.old) who.now
            (record { number = number; request = request.now; reply = reply.now })) }
        ensures err { OnErr result (entries self.new ≡ entries self.old) }
        ensures owner { owner self.new ≡ owner self.old }
        ensures most { most self.new ≡ most self.old };

    /// Appends the messages of the kept reply for the copy that was heard, and changes no entry. The outbox has room for
    /// them, one for each answer.
    fn resend(&self, heard: &Heard, ingress: u16, out: &mut Outbox)
        requires kept { HasEntry (entries self.now) heard.now.source heard.now.number }
        requires room { HasRoom (entries self.now) heard.now.source (length out.old) OUTBOX_MESSAGES }
        ensures { (e : Entry) → fin.get (entries self.now) heard.now.source ≡ Some e →
            out.new ≡ out.old ++ rendered (owner self.now).identity heard.now e.reply ingress };
}

/// A table that always has room for what is kept.
pub trait SureTable: ReplyTable {
    ghost use Rattle.std.specs.FinMap as fin;

    /// Does what `keep` does, and is never refused.
    fn replace(&mut self, who: &PortIdentity, number: u16, request: &Request<'_>, reply: &Reply)
        requires known { IsTrue (is_known who.now (Self.owner self.old).managers) }
        requires action { IsRequestAction request.now.action }
        requires octets { IsDataField request.now.octets }
        requires fits { FitsRequest request.now reply.now }
        requires few { length reply.now.answers ≤ Self.most self.old }
        ensures kept { Self.entries self.new ≡ fin.insert (Self.entries self.old) who.now
            (record { number = number; request = request.now; reply = reply.now }) }
        ensures owner { Self.owner self.new ≡ Self.owner self.old }
        ensures most { Self.most self.new ≡ Self.most self.old }
    {
        self.replace_answers(who, number, request, reply.answers.as_slice());
    }

    /// Does what `replace` does, for the reply to the request that has these answers.
    fn replace_answers(
        &mut self,
        who: &PortIdentity,
        number: u16,
        request: &Request<'_>,
        answers: &[PortAnswer],
    )
        requires known { IsTrue (is_known who.now (Self.owner self.old).managers) }
        requires action { IsRequestAction request.now.action }
        requires octets { IsDataField request.now.octets }
        requires fits { FitsRequest request.now (reply_with request.now (map answer_of answers.now)) }
        requires few { length answers.now ≤ Self.most self.old }
        ensures kept { Self.entries self.new ≡ fin.insert (Self.entries self.old) who.now
            (record { number = number; request = request.now; reply = reply_with request.now (map answer_of answers.now) }) }
        ensures owner { Self.owner self.new ≡ Self.owner self.old }
        ensures most { Self.most self.new ≡ Self.most self.old };

    /// Keeps number and request with the reply that was sent for the copy that was heard. The messages of the reply are those
    /// that went out, and no others did. `of_port` says whether its answers are of ports. If not, its one answer is of the clock.
    fn keep_sent<O: Outgoing>(
        &mut self,
        heard: &Heard,
        request: &Request<'_>,
        of_port: bool,
        out: &O,
    )
        requires known { IsTrue (is_known heard.now.source (Self.owner self.old).managers) }
        requires action { IsRequestAction request.now.action }
        requires octets { IsDataField request.now.octets }
        requires sent { (r : ReplyValue) × IsSentReply (Self.owner self.old).identity heard.now
            request.now.action request.now.id of_port (O.sent out.now) r }
        requires few { length (O.sent out.now) ≤ Self.most self.old }
        ensures kept { (r : ReplyValue) → IsSentReply (Self.owner self.old).identity heard.now
            request.now.action request.now.id of_port (O.sent out.now) r →
            Self.entries self.new ≡ fin.insert (Self.entries self.old) heard.now.source
            (record { number = heard.now.number; request = request.now; reply = r }) }
        ensures owner { Self.owner self.new ≡ Self.owner self.old }
        ensures most { Self.most self.new ≡ Self.most self.old };

    /// What `resend` does, wherever the messages go.
    fn send_again<O: Outgoing>(&self, heard: &Heard, ingress: u16, out: &mut O)
        requires kept { HasEntry (Self.entries self.now) heard.now.source heard.now.number }
        requires room { HasRoom (Self.entries self.now) heard.now.source (length (O.sent out.old))
            (O.most out.old) }
        ensures messages { (e : Entry) → fin.get (Self.entries self.now) heard.now.source ≡ Some e →
            O.sent out.new
            ≡ O.sent out.old ++ rendered (Self.owner self.now).identity heard.now e.reply ingress }
        ensures grown { O.grown out.old out.new };

    /// No kept reply has more answers than the table keeps: a law, and nothing is done.
    fn few_answers(&self)
        ensures { HaveAnswers (Self.most self.now) (fin.entries (Self.entries self.now)) };
}
