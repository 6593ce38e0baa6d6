//! What a clock's device says of a datagram that has no row in the table of the device's own ids. A refusal, and a value that is
//! not kept, are sent in place of the clock's own turn. A value for a new GET is kept before that turn, and is then what it
//! answers.

ghost use Rattle.std.specs.Prelude.{◌≡◌, ◌≤◌, ◌<◌, ◌^◌, ◌++◌, [], IfSome, IsTrue, Some, false, is_some, length};
ghost use Rattle.std.specs.FinMap as fin;
ghost use Rattle.ptpm_codec.specs.Message.{IsDataField, IsValid};
ghost use Rattle.ptpm_data.specs.Members.{HasPort};
ghost use Rattle.ptpm_data.specs.Replies.{reply_of};
ghost use Rattle.ptpm_data.specs.Reply.{outcome_of};
ghost use Rattle.ptpm_table.specs.Entries.{is_known};
ghost use Rattle.ptpm_table.specs.Rendering.{rendered};
ghost use Rattle.ptpm_agent.specs.Addressing.{heard_of, request_of};
ghost use Rattle.ptpm_agent.specs.Agent.{IsTurned, clock_of, state_of};
ghost use Rattle.ptpm_agent.specs.Turn.{judged, numbered_from, outbox_of, turn};
ghost use Rattle.ptpm_device.specs.Asking.{asked, is_lacked, is_wanted_new, is_wanted_once, wanted_new, wanted_once};
ghost use Rattle.ptpm_device.specs.Saying.{Gives, Objects, after_reply, given, given_by, reply_given, turn_said};

use crate::asking::{Asked, asked_by, is_asked, is_lacked, is_reached, look, request_of};
use crate::passing::pass_on;
use crate::refusing::Refusing;
use crate::relayed::MOST_KEPT;
use ptpm_agent::{Agent, Verdict};
use ptpm_codec::{Action, Draft, DraftBody, Envelope, ErrorId, PortIdentity, View, put, view};
use ptpm_data::{PortAnswer, Request, Value, What, data_sets_law};
use ptpm_table::{Heard, LongOutgoing, Look, Outgoing, ReplyTable, Sender, SureTable};

/// The turn of a clock whose device objects to a datagram with this error, if the device is asked (`ask` without rows). The request
/// is kept with that refusal, and the refusal is sent: one answer, of the clock or of each named port. Answers whether that was so.
/// Otherwise nothing changes and nothing is sent, and the turn is the clock's own. Takes no memory.
pub fn object<T: SureTable + Drop, O: Outgoing>(
    agent: &mut Agent<T>,
    ingress: u16,
    datagram: &[u8],
    error: ErrorId,
    out: &mut O,
) -> bool
    requires empty { O.sent out.old ≡ [] }
    requires room { length (outbox_of (turn_said []
        (clock_of T.owner agent.old) (state_of T.entries agent.old) (Objects error)
        ingress datagram.now))
        ≤ O.most out.old }
    ensures asked { result ≡ is_some
        (asked [] (clock_of T.owner agent.old) (state_of T.entries agent.old) datagram.now) }
    ensures turned { IsTrue result → IsTurned (turn_said []
        (clock_of T.owner agent.old) (state_of T.entries agent.old) (Objects error)
        ingress datagram.now)
        Verdict.AnsweredNew (O.sent out.new) (state_of T.entries agent.new) }
    ensures own { result ≡ false → turn_said []
        (clock_of T.owner agent.old) (state_of T.entries agent.old) (Objects error)
        ingress datagram.now
        ≡ turn (clock_of T.owner agent.old) (state_of T.entries agent.old) ingress datagram.now }
    ensures unchanged { result ≡ false → agent.new ≡ agent.old }
    ensures unsent { result ≡ false → out.new ≡ out.old }
    ensures sets { agent.new.sets ≡ agent.old.sets }
    ensures clock { clock_of T.owner agent.new ≡ clock_of T.owner agent.old }
    ensures most { T.most agent.new.table ≡ T.most agent.old.table }
    ensures grown { O.grown out.old out.new }
{
    let message = match view(datagram) {
        Ok(message) => message,
        Err(_) => return false,
    };
    if !is_asked(agent, &[], &message) {
        return false;
    }
    refuse(agent, ingress, &message, error, out);
    true
}

/// Keeps a manager's new GET with the value that the device gives, if the clock lacks the id. Answers whether that was so. A value
/// of more than 130 octets is too big to be kept: RESPONSE_TOO_BIG is then the answer. What the clock then sends for the datagram
/// is that answer, and the turn was that of a new request. Otherwise nothing changes. Takes no memory.
pub fn keep_value<T: SureTable + Drop>(agent: &mut Agent<T>, datagram: &[u8], octets: &[u8]) -> bool
    requires octets { IsDataField octets.now }
    ensures wanted { result ≡ is_some
        (wanted_new (clock_of T.owner agent.old) (state_of T.entries agent.old) datagram.now) }
    ensures kept { state_of T.entries agent.new ≡ given_by (state_of T.entries agent.old)
        (wanted_new (clock_of T.owner agent.old) (state_of T.entries agent.old) datagram.now)
        octets.now }
    ensures number { IfSome
        (wanted_new (clock_of T.owner agent.old) (state_of T.entries agent.old) datagram.now)
        (λ r. r.number < 2 ^ 16) }
    ensures sets { agent.new.sets ≡ agent.old.sets }
    ensures clock { clock_of T.owner agent.new ≡ clock_of T.owner agent.old }
{
    match ask_new_value(agent, datagram) {
        Some(get) => {
            keep(agent, &get, octets);
            true
        }
        None => false,
    }
}

/// Answers a GET without a number, of an id that the clock lacks, with the value that the device gives. The copies of it that the
/// clock passes on are sent first. Answers whether that was so. Otherwise nothing is sent. No clock is changed by such a GET. Takes
/// no memory.
pub fn answer_value<T: ReplyTable + Drop, O: LongOutgoing>(
    agent: &Agent<T>,
    ingress: u16,
    datagram: &[u8],
    octets: &[u8],
    out: &mut O,
) -> bool
    requires port { HasPort ingress agent.now.sets }
    requires empty { O.sent out.old ≡ [] }
    requires octets { IsDataField octets.now }
    requires room { length (outbox_of (turn_said []
        (clock_of T.owner agent.now) (state_of T.entries agent.now) (Gives octets.now)
        ingress datagram.now))
        ≤ O.most out.old }
    ensures wanted { result ≡ wanted_once
        (clock_of T.owner agent.now) (state_of T.entries agent.now) datagram.now }
    ensures turned { IsTrue result → IsTurned (turn_said []
        (clock_of T.owner agent.now) (state_of T.entries agent.now) (Gives octets.now)
        ingress datagram.now)
        Verdict.AnsweredUnnumbered (O.sent out.new) (state_of T.entries agent.now) }
    ensures unsent { result ≡ false → out.new ≡ out.old }
    ensures grown { O.grown out.old out.new }
{
    let message = match view(datagram) {
        Ok(message) => message,
        Err(_) => return false,
    };
    if !is_wanted_once(agent, &message) {
        return false;
    }
    pass_on(agent, ingress, datagram, &message, out);
    send_value(agent, ingress, &message, octets, out);
    true
}

/// Sends a value as the answer to a GET that came in at this port. Takes no memory.
fn send_value<T: ReplyTable + Drop, O: LongOutgoing>(
    agent: &Agent<T>,
    ingress: u16,
    get: &View<'_>,
    octets: &[u8],
    out: &mut O,
)
    requires room { length (O.sent out.old) < O.most out.old }
    requires lacked { IsTrue (is_lacked (request_of get.now)) }
    requires octets { IsDataField octets.now }
    ensures sent { O.sent out.new ≡ O.sent out.old
        ++ rendered (clock_of T.owner agent.now).identity (heard_of get.now)
        (reply_given 1418 (request_of get.now) octets.now) ingress }
    ensures grown { O.grown out.old out.new }
{
    let hops = get.starting_hops().saturating_sub(get.hops());
    let id = get.id();
    let draft = Draft {
        sdo: 0,
        domain: get.domain(),
        source: PortIdentity {
            clock: agent.table().clock(),
            port: ingress,
        },
        number: get.number(),
        target: get.source(),
        starting_hops: hops,
        hops,
        body: DraftBody::Answer {
            action: Action::Response,
            id,
            octets: &[],
        },
    };
    let mut envelope = Envelope::blank();
    envelope.address(&draft, id);
    out.push_value(ingress, &envelope, ingress, octets);
}

/// Whether it is a GET of an id that the clock lacks, without a number.
fn is_wanted_once<T: ReplyTable + Drop>(agent: &Agent<T>, message: &View<'_>) -> bool
    ensures { result ≡ is_wanted_once
        (clock_of T.owner agent.now) (state_of T.entries agent.now) message.now }
{
    if !is_lacked(&request_of(message)) {
        return false;
    }
    if !is_reached(agent, message) {
        return false;
    }
    match look(agent, message) {
        Look::Unknown => true,
        _ => false,
    }
}

/// The GET of a datagram, if it is a manager's new one of an id that the clock lacks.
fn ask_new_value<'a, T: ReplyTable + Drop>(
    agent: &Agent<T>,
    datagram: &'a [u8],
) -> Option<Asked<'a>>
    ensures wanted { result ≡ wanted_new
        (clock_of T.owner agent.now) (state_of T.entries agent.now) datagram.now }
    ensures number { IfSome result (λ get. get.number < 2 ^ 16) }
    ensures octets { IfSome result (λ get. IsDataField get.request.octets) }
{
    let message = match view(datagram) {
        Ok(message) => message,
        Err(_) => return None,
    };
    if !is_wanted_new(agent, &message) {
        return None;
    }
    Some(asked_by(&message))
}

/// Whether it is a manager's new GET of an id that the clock lacks.
fn is_wanted_new<T: ReplyTable + Drop>(agent: &Agent<T>, message: &View<'_>) -> bool
    ensures { result ≡ is_wanted_new
        (clock_of T.owner agent.now) (state_of T.entries agent.now) message.now }
{
    if !is_lacked(&request_of(message)) {
        return false;
    }
    if !is_reached(agent, message) {
        return false;
    }
    match look(agent, message) {
        Look::New => true,
        _ => false,
    }
}

/// Sends the device's error as the reply to a new request, and keeps the request with it. From then on a copy of it is a repeat.
fn refuse<T: SureTable + Drop, O: Outgoing>(
    agent: &mut Agent<T>,
    ingress: u16,
    message: &View<'_>,
    error: ErrorId,
    out: &mut O,
)
    requires new { judged
        (clock_of T.owner agent.old) (state_of T.entries agent.old) message.now
        ≡ Verdict.AnsweredNew }
    requires valid { IsValid message.now }
    requires empty { O.sent out.old ≡ [] }
    requires room { length (reply_of (request_of message.now) (Some error) agent.old.sets).answers
        ≤ O.most out.old }
    ensures kept { state_of T.entries agent.new ≡ after_reply (state_of T.entries agent.old)
        (numbered_from message.now)
        (reply_of (request_of message.now) (Some error) agent.old.sets) }
    ensures sent { O.sent out.new
        ≡ rendered (clock_of T.owner agent.old).identity (heard_of message.now)
        (reply_of (request_of message.now) (Some error) agent.old.sets) ingress }
    ensures sets { agent.new.sets ≡ agent.old.sets }
    ensures clock { clock_of T.owner agent.new ≡ clock_of T.owner agent.old }
    ensures most { T.most agent.new.table ≡ T.most agent.old.table }
    ensures grown { O.grown out.old out.new }
{
    let heard = heard_of(message);
    let request = request_of(message);
    data_sets_law(agent.sets());
    let mut sender = Sender::new(out);
    sender.address(&agent.table().clock(), &heard, &request, ingress);
    let mut refusing = Refusing { sender, error };
    agent.sets().read_into(&request, &mut refusing);
    let of_port = refusing.sender.of_port();
    agent.keep_sent(&heard, &request, of_port, out);
}

/// What a reply takes from the copy that it answers.
fn heard_of(message: &View<'_>) -> Heard
    ensures { result ≡ heard_of message.now }
{
    Heard {
        domain: message.domain(),
        source: message.source(),
        number: message.number(),
        starting_hops: message.starting_hops(),
        hops: message.hops(),
    }
}

/// Keeps a GET with the value that the device gives as its reply. Never inlined: so the stack has no room for that reply
/// while the clock takes its turn.
#[inline(never)]
fn keep<T: SureTable + Drop>(agent: &mut Agent<T>, get: &Asked<'_>, octets: &[u8])
    requires known { IsTrue (is_known get.now.manager (T.owner agent.old.table).managers) }
    requires lacked { IsTrue (is_lacked get.now.request) }
    requires request { IsDataField get.now.request.octets }
    requires octets { IsDataField octets.now }
    ensures kept { state_of T.entries agent.new ≡ after_reply (state_of T.entries agent.old)
        get.now (reply_given 130 get.now.request octets.now) }
    ensures sets { agent.new.sets ≡ agent.old.sets }
    ensures clock { clock_of T.owner agent.new ≡ clock_of T.owner agent.old }
{
    data_sets_law(agent.sets());
    let answer = PortAnswer {
        port: None,
        what: given(octets),
    };
    agent.keep_again(&get.manager, get.number, &get.request, &[answer]);
}

/// What is answered with these octets. They are refused if they are too many to be kept.
pub(crate) fn given(octets: &[u8]) -> What
    ensures { outcome_of result ≡ given 130 octets.now }
{
    if octets.len() > MOST_KEPT {
        return What::Refused(ErrorId::ResponseTooBig);
    }
    let mut value = Value::new();
    put(&mut value, octets);
    What::Value(value)
}
