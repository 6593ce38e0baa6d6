//! The ids that the clock lacks and its device has: which SETs and COMMANDs of them reach the device (this project's profile).

ghost use Rattle.std.specs.Prelude.{◌≡◌, ◌==◌, ◌&&◌, find, is_none, length};
ghost use Rattle.std.specs.Option.{option_copied};
ghost use Rattle.ptpm_data.specs.ManagementId.{row_of};
ghost use Rattle.ptpm_device.specs.Relayed.{is_change, is_relayed_length, refusal_in, relayed, relayed_refusal};

use bitflags::Flags;
use ptpm_codec::{Action, ErrorId, PortIdentity};
use ptpm_data::{Actions, Request, Rights, Scope, permits, refusal_of, row, unpermitted};

/// The most octets of a dataField that the clock keeps as its answer to a manager.
pub(crate) const MOST_KEPT: usize = 130;

/// An id that the clock lacks and its device has. A SET or COMMAND of it reaches the device if nothing here refuses it. An id that
/// the clock knows never does so by such a row.
#[derive(Clone, Copy, Debug)]
pub struct RelayedId {
    /// managementId.
    pub id: u16,
    /// Who answers. A request of an id of a port names one port.
    pub scope: Scope,
    /// SET, COMMAND or both. A GET of any id that the clock lacks reaches the device.
    pub actions: Actions,
    /// The rights that a manager needs.
    pub right: Rights,
    /// How many octets its dataField has at least.
    pub least: u16,
    /// And at most. More than 130 are never taken.
    pub most: u16,
}

/// Whether it is a SET or a COMMAND.
pub fn is_change(action: Action) -> bool
    ensures { result ≡ is_change action }
{
    action == Action::Set || action == Action::Command
}

/// The row of the id of a SET or COMMAND, if it has one. An id that the clock knows has none.
#[tactic(auto, unfolding(crate::specs::Relayed::relayed))]
pub(crate) fn relayed(rows: &[RelayedId], request: &Request<'_>) -> Option<RelayedId>
    ensures { result ≡ relayed rows.now request.now }
{
    match row_of_id(rows, request.id).copied() {
        Some(row) if is_lacked_change(request) => Some(row),
        _ => None,
    }
}

fn row_of_id<'a>(rows: &'a [RelayedId], id: u16) -> Option<&'a RelayedId>
    ensures { option_copied result ≡ find (λ r. r.id == id) rows.now }
{
    rows.iter().find(|row| row.id == id)
}

/// Whether it is a SET or COMMAND of an id that the clock doesn't know.
fn is_lacked_change(request: &Request<'_>) -> bool
    ensures { result ≡ (is_change request.now.action && is_none (row_of request.now.id)) }
{
    is_change(request.action) && row(request.id).is_none()
}

/// Why a request is refused before the device is asked, if it is. The row of its id says so, or without a row the clock itself.
pub(crate) fn refusal_in(
    rows: &[RelayedId],
    request: &Request<'_>,
    rights: Rights,
) -> Option<ErrorId>
    ensures { result ≡ refusal_in rows.now request.now rights }
{
    match relayed(rows, request) {
        Some(row) => relayed_refusal(&row, request, rights),
        None => refusal_of(request, rights),
    }
}

/// Why a relayed request is refused before the device is asked: the first that holds of
/// 1. NOT_SETABLE to a SET, NOT_SUPPORTED to a COMMAND: the id does not permit the action;
/// 2. NOT_SUPPORTED: the manager lacks a right that the id needs;
/// 3. WRONG_LENGTH: the dataField has fewer octets than the id's, or more;
/// 4. RESPONSE_TOO_BIG: every port would answer.
#[tactic(auto, unfolding(crate::specs::Relayed::relayed_refusal))]
pub(crate) fn relayed_refusal(
    row: &RelayedId,
    request: &Request<'_>,
    rights: Rights,
) -> Option<ErrorId>
    ensures { result ≡ relayed_refusal row.now request.now rights }
{
    let action = request.action;
    if !permits(row.actions, action) {
        Some(unpermitted(action))
    } else if !rights.contains(row.right) {
        Some(ErrorId::NotSupported)
    } else if !is_length(row, request.octets.len()) {
        Some(ErrorId::WrongLength)
    } else if row.scope == Scope::Port && request.port == PortIdentity::EVERY_PORT {
        Some(ErrorId::ResponseTooBig)
    } else {
        None
    }
}

/// Whether a relayed request may have a dataField of this many octets.
fn is_length(row: &RelayedId, size: usize) -> bool
    ensures { result ≡ is_relayed_length row.now size }
{
    row.least as usize <= size && size <= row.most as usize && size <= MOST_KEPT
}
