//! The two TLVs of management messages, distinguished by their numbers.

ghost use Rattle.std.specs.Prelude.{◌≡◌, ◌+◌, ◌≤◌, Some, None, IfOk, IfSome, OnSome, MatchResult, nat_lt, if◌then◌else◌};
ghost use Rattle.ptpm_codec.specs.Refusal.{action_from, tlv_kind, tlv_refusal};

use crate::error::DecodeError;
use crate::message::Action;

/// The TLV of a management message (14.1.1).
#[derive(Clone, Copy, Debug, PartialEq, Eq)]
pub enum TlvKind {
    Management,
    ErrorStatus,
}

fn action_from(code: u8) -> Option<Action>
    ensures { result ≡ (if nat_lt 4 code then None else Some (action_from code)) }
{
    match code {
        0 => Some(Action::Get),
        1 => Some(Action::Set),
        2 => Some(Action::Response),
        3 => Some(Action::Command),
        4 => Some(Action::Acknowledge),
        _ => None,
    }
}

/// The action and the TLV that a message's numbers name, or what is wrong with them.
#[tactic(auto, unfolding(crate::specs::Refusal::tlv_refusal))]
pub(crate) fn tlv(
    code: u8,
    tlv_type: u16,
    length_field: u16,
    size: usize,
) -> Result<(Action, TlvKind), DecodeError>
    ensures refusal { MatchResult result
        (λ _. tlv_refusal code tlv_type length_field size ≡ None)
        (λ e. tlv_refusal code tlv_type length_field size ≡ Some e) }
    ensures action { IfOk result (λ r. r.0 ≡ action_from code) }
    ensures tlv { IfOk result (λ r. r.1 ≡ tlv_kind tlv_type) }
    ensures error_status { IfOk result (λ r. r.1 ≡ TlvKind.ErrorStatus → 8 ≤ length_field) }
    ensures size { IfOk result (λ _. length_field + 52 ≡ size) }
{
    let action = action_from(code).ok_or(DecodeError::BadAction)?;
    let (tlv, least) = match tlv_type {
        1 => (TlvKind::Management, 2),
        2 if action.is_reply() => (TlvKind::ErrorStatus, 8),
        _ => return Err(DecodeError::BadTlvType),
    };
    if length_field % 2 != 0 || length_field < least || length_field as usize + 52 != size {
        return Err(DecodeError::BadTlvLength);
    }
    Ok((action, tlv))
}

/// The action of a message with a MANAGEMENT TLV, if nothing is wrong with its numbers.
#[inline(always)]
#[tactic(auto, unfolding(crate::specs::Refusal::tlv_refusal))]
pub(crate) fn management_action(
    code: u8,
    tlv_type: u16,
    length_field: u16,
    size: usize,
) -> Option<Action>
    requires { 54 ≤ size }
    ensures sound { OnSome result (tlv_refusal code tlv_type length_field size ≡ None) }
    ensures action { IfSome result (λ a. a ≡ action_from code) }
    ensures tlv { OnSome result (tlv_type ≡ 1) }
{
    if tlv_type == 1 && length_field as usize + 52 == size && size % 2 == 0 {
        action_from(code)
    } else {
        None
    }
}
