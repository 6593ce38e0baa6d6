//! What is asked of a session.

ghost use Rattle.std.specs.Prelude.{◌≡◌, ◌≢◌, ◌↔◌, None, Some, IfErr, IfOk, IsTrue, MatchResult};
ghost use Rattle.ptpm_data.specs.ManagementId.{is_of_port};
ghost use Rattle.ptpm_manager.specs.declared.error.BeginError.{BeginError};
ghost use Rattle.ptpm_manager.specs.Ask.{IsAskedOf, ask_of, ask_refusal, is_asked_of, is_target_of, named_ask_refusal, names_port, pending_request, target_port};
ghost use Rattle.ptpm_manager.specs.Receiving.{is_content};

use crate::error::BeginError;
use crate::receiving::is_answered_by;
use ptpm_codec::{Action, Octets, OutOfMemory, PortIdentity, is_data_field};
use ptpm_data::{Request, Scope, row};
use std::alloc::Global;

/// A request that is to be made of a clock.
#[derive(Debug, Drop)]
pub struct Ask {
    /// GET, SET or COMMAND.
    pub action: Action,
    /// managementId (15.5.2.3).
    pub id: u16,
    /// The clock's port that is asked. It is used only for an id of a port. For an id of the clock, or one that is not in
    /// the table, every port is asked (this project's profile).
    pub port: Option<u16>,
    /// dataField.
    pub octets: Octets,
}

/// A request that was begun, as it is kept.
#[derive(Debug, Drop)]
pub(crate) struct Pending {
    pub(crate) action: Action,
    pub(crate) id: u16,
    /// The target's portNumber.
    pub(crate) port: u16,
    pub(crate) octets: Octets,
}

/// Judges what is asked by itself, at a clock of this many ports.
#[tactic(auto, unfolding(crate::specs::Ask::ask_refusal))]
pub(crate) fn judge(
    ports: u16,
    action: Action,
    id: u16,
    port: Option<u16>,
    octets: &[u8],
) -> Result<(), BeginError>
    ensures refusal { MatchResult result
        (λ _. ask_refusal ports (ask_of action id port octets.now) ≡ None)
        (λ e. ask_refusal ports (ask_of action id port octets.now) ≡ Some e) }
    ensures not_busy { IfErr result (λ e. e ≢ BeginError.Busy) }
{
    if is_of_port(id) && !names_port(ports, port) {
        return Err(BeginError::NeedsPort);
    }
    if action.is_reply() {
        return Err(BeginError::NotPermitted);
    }
    if !is_data_field(octets) {
        return Err(BeginError::BadValue);
    }
    Ok(())
}

/// Judges the same at the port that is named, which has to be one of the clock's whatever the id.
#[tactic(auto, unfolding(crate::specs::Ask::named_ask_refusal))]
pub(crate) fn judge_at(
    ports: u16,
    action: Action,
    id: u16,
    port: u16,
    octets: &[u8],
) -> Result<(), BeginError>
    ensures refusal { MatchResult result
        (λ _. named_ask_refusal ports (ask_of action id (Some port) octets.now) ≡ None)
        (λ e. named_ask_refusal ports (ask_of action id (Some port) octets.now) ≡ Some e) }
    ensures not_busy { IfErr result (λ e. e ≢ BeginError.Busy) }
{
    if !names_port(ports, Some(port)) {
        return Err(BeginError::NeedsPort);
    }
    judge(ports, action, id, Some(port), octets)
}

impl Pending {
    /// The same request with octets of its own.
    pub(crate) fn copy_of(alloc: Global, request: &Request<'_>) -> Result<Pending, OutOfMemory>
        ensures { IfOk result (λ p. pending_request p ≡ request.now) }
    {
        Ok(Pending {
            action: request.action,
            id: request.id,
            port: request.port,
            octets: Octets::copy_of(alloc, request.octets)?,
        })
    }

    /// The same request, its octets lent.
    pub(crate) fn request(&self) -> Request<'_>
        ensures { result ≡ pending_request self.now }
    {
        Request {
            action: self.action,
            id: self.id,
            port: self.port,
            octets: self.octets.as_slice(),
        }
    }

    /// Whether a reply of this action and id is the answer.
    pub(crate) fn is_answered_by(&self, action: Action, id: u16) -> bool
        ensures { result ≡ is_content (Some (pending_request self.now)) action id }
    {
        is_answered_by(self.action, action) && self.id == id
    }
}

/// Whether a session makes this request of a clock with this many ports.
pub(crate) fn is_asked_of(ports: u16, request: &Request<'_>) -> bool
    ensures exact { result ≡ is_asked_of ports request.now }
    ensures meaning { IsTrue result ↔ IsAskedOf ports request.now }
{
    !request.action.is_reply()
        && is_data_field(request.octets)
        && is_target_of(ports, request.id, request.port)
}

fn is_target_of(ports: u16, id: u16, port: u16) -> bool
    ensures { result ≡ is_target_of ports id port }
{
    names_port(ports, Some(port)) || (!is_of_port(id) && port == PortIdentity::EVERY_PORT)
}

pub(crate) fn is_of_port(id: u16) -> bool
    ensures { result ≡ is_of_port id }
{
    matches!(row(id), Some(row) if row.scope == Scope::Port)
}

fn names_port(ports: u16, port: Option<u16>) -> bool
    ensures { result ≡ names_port ports port }
{
    match port {
        Some(port) => 1 <= port && port <= ports,
        None => false,
    }
}

#[tactic(auto, unfolding(crate::specs::Ask::target_port))]
pub(crate) fn target_port(id: u16, port: Option<u16>) -> u16
    ensures { result ≡ target_port id port }
{
    match port {
        Some(port) if is_of_port(id) => port,
        _ => PortIdentity::EVERY_PORT,
    }
}
