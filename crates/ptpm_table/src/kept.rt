//! What a table does with the requests and replies that it keeps.

ghost use Rattle.std.specs.Prelude.{◌≡◌, ◌≤◌, length};
ghost use Rattle.ptpm_table.specs.Numbering.{look_by, same_request};
ghost use Rattle.ptpm_table.specs.Serial.{serial_of};

use crate::reply_table::Look;
use crate::serial::{Serial, compare};
use arrayvec::ArrayVec;
use ptpm_data::{INLINE_PORTS, PortAnswer, Reply, Request, Value, What};

/// What a request of this number is. `kept` is the latest accepted request, and `latest` its number.
pub(crate) fn judge(latest: u16, kept: &Request<'_>, number: u16, request: &Request<'_>) -> Look
    ensures look { result ≡ look_by (serial_of latest number) (same_request kept.now request.now) }
    ensures repeat { result ≡ Look.Repeat → latest ≡ number }
{
    match compare(latest, number) {
        Serial::Same if is_same(kept, request) => Look::Repeat,
        Serial::Same => Look::Conflict,
        Serial::Newer => Look::New,
        Serial::Older => Look::Old,
    }
}

fn is_same(kept: &Request<'_>, request: &Request<'_>) -> bool
    ensures { result ≡ same_request kept.now request.now }
{
    kept.action.code() == request.action.code()
        && kept.id == request.id
        && kept.port == request.port
        && kept.octets == request.octets
}

/// Makes a reply equal to another, in its place.
pub(crate) fn copy_reply(reply: &Reply, copy: &mut Reply)
    ensures { copy.new ≡ reply.now }
{
    copy.action = reply.action;
    copy.id = reply.id;
    copy_answers(reply.answers.as_slice(), &mut copy.answers);
}

fn copy_answers(answers: &[PortAnswer], copies: &mut ArrayVec<PortAnswer, INLINE_PORTS>)
    requires { length answers.now ≤ INLINE_PORTS }
    ensures { copies.new.items ≡ answers.now }
{
    copies.clear();
    for answer in answers {
        copies.push(PortAnswer {
            port: answer.port,
            what: copy_what(&answer.what),
        });
    }
}

pub(crate) fn copy_what(what: &What) -> What
    ensures { result ≡ what.now }
{
    match what {
        What::Value(octets) => What::Value(copy_octets(octets.as_slice())),
        What::Done => What::Done,
        What::Refused(error) => What::Refused(*error),
    }
}

fn copy_octets(octets: &[u8]) -> Value
    requires { length octets.now ≤ 130 }
    ensures { result.items ≡ octets.now }
{
    let mut copy = ArrayVec::new();
    let _ = copy.try_extend_from_slice(octets);
    copy
}
