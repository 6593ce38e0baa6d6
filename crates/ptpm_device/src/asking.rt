//! What a datagram would have a clock's device do.

ghost use Rattle.std.specs.Prelude.{◌≡◌, ◌<◌, ◌^◌, IfSome};
ghost use Rattle.ptpm_codec.specs.Message.{IsDataField, IsValid};
ghost use Rattle.ptpm_agent.specs.Addressing.{request_of};
ghost use Rattle.ptpm_agent.specs.Agent.{clock_of, state_of};
ghost use Rattle.ptpm_agent.specs.Turn.{look, numbered_from};
ghost use Rattle.ptpm_device.specs.Asking.{asked, is_asked, is_here, is_lacked, is_reached, is_wanted, rights_of_change, wanted};

use crate::relayed::{RelayedId, is_change, refusal_in};
use ptpm_agent::Agent;
use ptpm_codec::{Action, ClockIdentity, PortIdentity, View, view};
use ptpm_data::{Request, Rights, row};
use ptpm_table::{Look, ReplyTable};
use std::marker::Model;

/// What a device is asked. It is to carry out a new SET or COMMAND of a manager, which neither the clock nor the table of its own ids
/// refuses. Or it is to give the value of a GET of an id that the clock lacks.
#[derive(Debug, Drop)]
pub struct Asked<'a> {
    /// sourcePortIdentity.
    pub manager: PortIdentity,
    /// sequenceId.
    pub number: u16,
    pub request: Request<'a>,
}

impl<'a> Model for Asked<'a> {
    ghost use Rattle.ptpm_agent.specs.Turn.{NumberedRequest};
    ghost use Rattle.ptpm_device.specs.Asking.{asked_value};

    ghost Value = { NumberedRequest };

    ghost view = { asked_value };
}

/// What a datagram would have the clock's device carry out, if it came in now at a port of the clock. `rows` are the device's own
/// ids. None if it is anything but a new SET or COMMAND of a manager, or if the row of its id refuses it. An id without a row is
/// judged by the clock. Changes nothing, and takes no memory.
pub fn ask<'a, T: ReplyTable + Drop>(
    agent: &Agent<T>,
    rows: &[RelayedId],
    datagram: &'a [u8],
) -> Option<Asked<'a>>
    ensures asked { result ≡ asked rows.now
        (clock_of T.owner agent.now) (state_of T.entries agent.now) datagram.now }
    ensures number { IfSome result (λ change. change.number < 2 ^ 16) }
    ensures octets { IfSome result (λ change. IsDataField change.request.octets) }
{
    let message = match view(datagram) {
        Ok(message) => message,
        Err(_) => return None,
    };
    if !is_asked(agent, rows, &message) {
        return None;
    }
    Some(asked_by(&message))
}

/// The GET of a datagram whose value the clock's device is asked for, if it came in now at a port of the clock. It would be answered,
/// and is of an id that the clock lacks. None for any other datagram. Changes nothing, and takes no memory.
pub fn ask_value<'a, T: ReplyTable + Drop>(
    agent: &Agent<T>,
    datagram: &'a [u8],
) -> Option<Asked<'a>>
    ensures wanted { result ≡ wanted
        (clock_of T.owner agent.now) (state_of T.entries agent.now) datagram.now }
    ensures number { IfSome result (λ get. get.number < 2 ^ 16) }
{
    let message = match view(datagram) {
        Ok(message) => message,
        Err(_) => return None,
    };
    if !is_wanted(agent, &message) {
        return None;
    }
    Some(asked_by(&message))
}

/// What a message asks, with its number, and of whom it is.
pub(crate) fn asked_by<'a>(message: &View<'a>) -> Asked<'a>
    ensures { result ≡ numbered_from message.now }
{
    Asked {
        manager: message.source(),
        number: message.number(),
        request: request_of(message),
    }
}

/// Whether the device is asked to carry out a message.
pub(crate) fn is_asked<T: ReplyTable + Drop>(
    agent: &Agent<T>,
    rows: &[RelayedId],
    message: &View<'_>,
) -> bool
    requires valid { IsValid message.now }
    ensures { result ≡ is_asked rows.now
        (clock_of T.owner agent.now) (state_of T.entries agent.now) message.now }
{
    match rights_of_change(agent, message) {
        Some(rights) => refusal_in(rows, &request_of(message), rights).is_none(),
        None => false,
    }
}

/// The rights of a message's manager, if the message is a new SET or COMMAND of it.
pub(crate) fn rights_of_change<T: ReplyTable + Drop>(
    agent: &Agent<T>,
    message: &View<'_>,
) -> Option<Rights>
    requires valid { IsValid message.now }
    ensures { result ≡ rights_of_change
        (clock_of T.owner agent.now) (state_of T.entries agent.now) message.now }
{
    let request = request_of(message);
    if !is_change(request.action) {
        return None;
    }
    if !is_here(agent, message) {
        return None;
    }
    let source = message.source();
    let (look, rights) = agent
        .table()
        .look_with_rights(&source, message.number(), &request);
    match look {
        Look::New => Some(rights),
        _ => None,
    }
}

/// Whether the device is asked for the value of a message.
fn is_wanted<T: ReplyTable + Drop>(agent: &Agent<T>, message: &View<'_>) -> bool
    ensures { result ≡ is_wanted
        (clock_of T.owner agent.now) (state_of T.entries agent.now) message.now }
{
    if !is_lacked(&request_of(message)) {
        return false;
    }
    if !is_reached(agent, message) {
        return false;
    }
    match look(agent, message) {
        Look::Unknown => true,
        Look::New => true,
        _ => false,
    }
}

/// Whether it is a GET of an id that the clock lacks.
pub(crate) fn is_lacked(request: &Request<'_>) -> bool
    ensures { result ≡ is_lacked request.now }
{
    request.action == Action::Get && row(request.id).is_none()
}

/// Whether a request is for exactly this clock at a port that it has, in its domain, and of another clock.
#[tactic(auto, unfolding(crate::specs::Asking::is_here))]
fn is_here<T: ReplyTable + Drop>(agent: &Agent<T>, message: &View<'_>) -> bool
    ensures { result ≡ is_here
        (clock_of T.owner agent.now) (state_of T.entries agent.now) message.now }
{
    let target = message.target();
    let clock = agent.table().clock();
    message.sdo() == 0
        && message.domain() == agent.sets().domain()
        && message.source().clock != clock
        && target.clock == clock
        && (target.port == PortIdentity::EVERY_PORT || agent.sets().has_port(target.port))
}

/// Whether a request is for this clock or every clock at a port that it has, in its domain, and of another clock.
#[tactic(auto, unfolding(crate::specs::Asking::is_reached))]
pub(crate) fn is_reached<T: ReplyTable + Drop>(agent: &Agent<T>, message: &View<'_>) -> bool
    ensures { result ≡ is_reached
        (clock_of T.owner agent.now) (state_of T.entries agent.now) message.now }
{
    let target = message.target();
    let clock = agent.table().clock();
    message.sdo() == 0
        && message.domain() == agent.sets().domain()
        && message.source().clock != clock
        && (target.clock == clock || target.clock == ClockIdentity::EVERY)
        && (target.port == PortIdentity::EVERY_PORT || agent.sets().has_port(target.port))
}

/// What a manager's request for exactly this clock is to the table; unknown is any other.
pub(crate) fn look<T: ReplyTable + Drop>(agent: &Agent<T>, message: &View<'_>) -> Look
    ensures { result ≡ look
        (clock_of T.owner agent.now) (state_of T.entries agent.now) message.now }
{
    if message.target().clock != agent.table().clock() {
        return Look::Unknown;
    }
    let source = message.source();
    let (look, _) = agent
        .table()
        .look_with_rights(&source, message.number(), &request_of(message));
    look
}

/// What a request asks.
pub(crate) fn request_of<'a>(message: &View<'a>) -> Request<'a>
    ensures { result ≡ request_of message.now }
{
    Request {
        action: message.action(),
        id: message.id(),
        port: message.target().port,
        octets: message.octets(),
    }
}
