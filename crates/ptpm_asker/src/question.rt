//! The question whether a session's next number is new.

ghost use Rattle.std.specs.Prelude.{◌≡◌, ◌≢◌, Err, IfErr, None, OnErr, OnOk, Some};
ghost use Rattle.ptpm_data.specs.ManagementId.{is_of_port};
ghost use Rattle.ptpm_manager.specs.declared.error.BeginError.{BeginError};
ghost use Rattle.ptpm_manager.specs.Ask.{ask_of};
ghost use Rattle.ptpm_manager.specs.Session.{begun};
ghost use Rattle.ptpm_asker.specs.Question.{asked_request, begins_refusal, question, read_of};

use ptpm_codec::Action;
use ptpm_data::{Scope, row};
use ptpm_manager::{Ask, BeginError, Session};

/// How many random octets a question has at most.
pub const DRAWN_OCTETS: usize = 26;

/// Begins the question that comes before a request. If the request itself could be begun, only memory is refused.
pub(crate) fn begin_question(
    session: &mut Session,
    wanted: &Ask,
    drawn: &[u8; DRAWN_OCTETS],
) -> Result<(), BeginError>
    ensures begun { OnOk result
        (session.new ≡ begun session.old (asked_request (question drawn.now wanted.now))) }
    ensures memory { begins_refusal session.old wanted.now ≡ None
        → IfErr result (λ e. e ≡ BeginError.OutOfMemory) }
    ensures unchanged { OnErr result (session.new ≡ session.old) }
{
    if is_of_port(wanted.id) {
        begin_asked(session, Action::Get, 0x2004, wanted.port, &drawn[..26])
    } else {
        begin_asked(session, Action::Get, 0x2000, wanted.port, &drawn[..20])
    }
}

/// Begins a read of the same. If the request itself could be begun, only memory is refused.
pub(crate) fn begin_read(session: &mut Session, wanted: &Ask) -> Result<(), BeginError>
    ensures begun { OnOk result
        (session.new ≡ begun session.old (asked_request (read_of wanted.now))) }
    ensures memory { begins_refusal session.old wanted.now ≡ None
        → IfErr result (λ e. e ≡ BeginError.OutOfMemory) }
    ensures unchanged { OnErr result (session.new ≡ session.old) }
{
    let id = if is_of_port(wanted.id) {
        0x2004
    } else {
        0x2000
    };
    begin_asked(session, Action::Get, id, wanted.port, &[])
}

/// Begins a request at the port that is named, for an id of the clock too.
pub(crate) fn begin_asked(
    session: &mut Session,
    action: Action,
    id: u16,
    port: Option<u16>,
    octets: &[u8],
) -> Result<(), BeginError>
    ensures begun { OnOk result
        (session.new ≡ begun session.old (asked_request (ask_of action id port octets.now))) }
    ensures permitted { OnOk result
        (begins_refusal session.old (ask_of action id port octets.now) ≡ None) }
    ensures refused { (e : BeginError)
        → begins_refusal session.old (ask_of action id port octets.now) ≡ Some e
        → result ≡ Err e }
    ensures no_other { IfErr result
        (λ e.
        e ≢ BeginError.OutOfMemory
        → begins_refusal session.old (ask_of action id port octets.now) ≡ Some e) }
    ensures unchanged { OnErr result (session.new ≡ session.old) }
{
    match port {
        Some(port) => session.begin_at(action, id, port, octets),
        None => session.begin_with(action, id, None, octets),
    }
}

fn is_of_port(id: u16) -> bool
    ensures { result ≡ is_of_port id }
{
    matches!(row(id), Some(row) if row.scope == Scope::Port)
}
