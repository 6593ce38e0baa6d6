//! Why a request is refused (15.5.4.3); the order and choice of the errors are this project's profile.

ghost use Rattle.std.specs.Prelude.{◌≡◌, true};
ghost use Rattle.ptpm_data.specs.ManagementId.{row_value, has_action, set_of};
ghost use Rattle.ptpm_data.specs.Refusals.{row_refusal, is_length, is_set_length, is_set_value, is_value, needed_right, unpermitted};
ghost use Rattle.ptpm_data.specs.SetForm.{set_field};

use crate::actions::Actions;
use crate::management_id::{Layout, ManagementIdRow, Scope, set_of};
use crate::ranges::SetForm;
use crate::request::Request;
use crate::rights::Rights;
use crate::set_field::first_i8;
use bitflags::Flags;
use ptpm_codec::{Action, ErrorId, is_ptp_text, text_of_ptp_text};

/// Why a request for an id of the table is refused; `None` if it is to be carried out. Judged in this order: the
/// action, the manager's right, the dataField's length, its value.
#[tactic(auto, unfolding(crate::specs::Refusals::row_refusal))]
#[inline(always)]
pub(crate) fn refusal(
    row: &ManagementIdRow,
    request: &Request<'_>,
    rights: Rights,
) -> Option<ErrorId>
    ensures { result ≡ row_refusal (row_value row.now) request.now rights }
{
    let action = request.action;
    if !permits(row.actions, action) {
        Some(unpermitted(action))
    } else if !rights.contains(needed_right(action, row.scope, row.layout)) {
        Some(ErrorId::NotSupported)
    } else if !is_length(action, row.layout, request.octets) {
        Some(ErrorId::WrongLength)
    } else if !is_value(action, row.layout, request.octets) {
        Some(ErrorId::WrongValue)
    } else {
        None
    }
}

/// Whether an id with these actions permits this one.
pub fn permits(actions: Actions, action: Action) -> bool
    ensures { result ≡ has_action action actions.0 }
{
    match action {
        Action::Get => actions.contains(Actions::GET),
        Action::Set => actions.contains(Actions::SET),
        Action::Command => actions.contains(Actions::COMMAND),
        Action::Response | Action::Acknowledge => false,
    }
}

/// The error of an action that an id does not permit.
pub fn unpermitted(action: Action) -> ErrorId
    ensures { result ≡ unpermitted action }
{
    match action {
        Action::Set => ErrorId::NotSetable,
        _ => ErrorId::NotSupported,
    }
}

/// What a manager's rights must have (this project's profile).
fn needed_right(action: Action, scope: Scope, layout: Layout) -> Rights
    ensures { result.0 ≡ needed_right action scope layout }
{
    match (action, scope, layout) {
        (Action::Set, Scope::Clock, _) => Rights::CLOCK_SET,
        (Action::Set, Scope::Port, _) => Rights::PORT_SET,
        (Action::Command, Scope::Port, Layout::NullPtpManagement) => Rights::empty(),
        (Action::Command, Scope::Port, _) => Rights::PORT_COMMAND,
        _ => Rights::empty(),
    }
}

fn is_length(action: Action, layout: Layout, octets: &[u8]) -> bool
    ensures { result ≡ is_length action (set_of layout) octets.now }
{
    match action {
        Action::Set => is_set_length(set_of(layout), octets),
        Action::Command => octets.is_empty(),
        _ => true,
    }
}

/// No length is right if the id has no SET.
#[tactic(auto, unfolding(crate::specs::Refusals::is_set_length))]
fn is_set_length(form: SetForm, octets: &[u8]) -> bool
    ensures { result ≡ is_set_length (set_field form) octets.now }
{
    match form {
        SetForm::NoSet => false,
        SetForm::Empty => octets.is_empty(),
        SetForm::TextUpTo(_) => is_ptp_text(octets),
        SetForm::NotBothLeaps => octets.len() == 4,
        SetForm::AnyOctet
        | SetForm::FromTo(..)
        | SetForm::FromToOr(..)
        | SetForm::MechanismNumber
        | SetForm::MinusTo(..) => octets.len() == 2,
    }
}

#[inline(always)]
fn is_value(action: Action, layout: Layout, octets: &[u8]) -> bool
    requires { is_length action (set_of layout) octets.now ≡ true }
    ensures { result ≡ is_value action (set_of layout) octets.now }
{
    action != Action::Set || is_set_value(set_of(layout), octets)
}

#[tactic(auto, unfolding(crate::specs::Refusals::is_set_value, crate::specs::Refusals::is_set_length))]
fn is_set_value(form: SetForm, octets: &[u8]) -> bool
    requires { is_set_length (set_field form) octets.now ≡ true }
    ensures { result ≡ is_set_value (set_field form) octets.now }
{
    match form {
        SetForm::NoSet => false,
        SetForm::Empty => true,
        SetForm::TextUpTo(_) => form.allows_text(text_of_ptp_text(octets)),
        SetForm::MinusTo(..) => form.allows_integer(first_i8(octets)),
        SetForm::NotBothLeaps => !(octets[2] & 1 == 1 && octets[2] & 2 == 2),
        SetForm::AnyOctet
        | SetForm::FromTo(..)
        | SetForm::FromToOr(..)
        | SetForm::MechanismNumber => form.allows_octet(octets[0]),
    }
}
