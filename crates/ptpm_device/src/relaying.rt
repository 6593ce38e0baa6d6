//! What a clock's device says of a SET or COMMAND of one of its own ids.

ghost use Rattle.std.specs.Prelude.{◌≡◌, ℕ, [], IsTrue, List, None, false};
ghost use Rattle.ptpm_codec.specs.Message.{IsDataField};
ghost use Rattle.ptpm_data.specs.ManagementId.{row_of};
ghost use Rattle.ptpm_data.specs.Reply.{outcome_of};
ghost use Rattle.ptpm_table.specs.Entries.{is_known};
ghost use Rattle.ptpm_agent.specs.Agent.{IsTurned, clock_of, state_of};
ghost use Rattle.ptpm_agent.specs.Turn.{State, turn};
ghost use Rattle.ptpm_device.specs.Relayed.{is_change};
ghost use Rattle.ptpm_device.specs.Saying.{IsGiven, after_reply, given_to, relayed_outcome, reply_relayed, said_value, turn_said};

use crate::asking::{Asked, asked_by, request_of, rights_of_change};
use crate::relayed::{RelayedId, relayed, relayed_refusal};
use crate::saying::given;
use ptpm_agent::{Agent, Verdict};
use ptpm_codec::{Action, ErrorId, view};
use ptpm_data::{PortAnswer, Request, What, data_sets_law};
use ptpm_table::SureTable;

/// What a device says of a datagram.
#[derive(Clone, Copy)]
pub enum DeviceSay<'a> {
    /// It agrees, or has nothing to say.
    Agrees,
    Objects(ErrorId),
    /// A dataField.
    Gives(&'a [u8]),
}

/// Keeps a manager's new SET or COMMAND of one of the device's own ids (`rows`) with its reply. That is the refusal of the id's
/// row, if there is one, whatever the device says. Otherwise it is what the device says: its error, or its success. A COMMAND is
/// then acknowledged. A SET is answered with the octets that the device gives, or else with those of the request; RESPONSE_TOO_BIG
/// if they are more than 130. The clock's own turn on the datagram is then that of a repeat, and sends this reply. Answers whether
/// that was so. Otherwise nothing changes, and the rows don't count. Takes no memory.
pub fn keep_relayed<T: SureTable + Drop>(
    agent: &mut Agent<T>,
    rows: &[RelayedId],
    datagram: &[u8],
    said: DeviceSay<'_>,
) -> bool
    requires given { IsGiven said }
    ensures turned { IsTrue result → (ingress : ℕ) (w : Verdict) (out : List (ℕ × List ℕ)) (next : State) →
        IsTurned (turn (clock_of T.owner agent.new) (state_of T.entries agent.new) ingress datagram.now) w out next →
        IsTurned (turn_said rows.now
        (clock_of T.owner agent.old) (state_of T.entries agent.old) (said_value said.entry)
        ingress datagram.now) Verdict.AnsweredNew out next }
    ensures own { result ≡ false → (ingress : ℕ) → turn_said rows.now
        (clock_of T.owner agent.old) (state_of T.entries agent.old) (said_value said.entry)
        ingress datagram.now
        ≡ turn_said []
        (clock_of T.owner agent.old) (state_of T.entries agent.old) (said_value said.entry)
        ingress datagram.now }
    ensures unchanged { result ≡ false → agent.new ≡ agent.old }
    ensures sets { agent.new.sets ≡ agent.old.sets }
    ensures clock { clock_of T.owner agent.new ≡ clock_of T.owner agent.old }
{
    let message = match view(datagram) {
        Ok(message) => message,
        Err(_) => return false,
    };
    let Some(row) = relayed(rows, &request_of(&message)) else {
        return false;
    };
    let Some(rights) = rights_of_change(agent, &message) else {
        return false;
    };
    let refusal = relayed_refusal(&row, &request_of(&message), rights);
    keep(agent, &asked_by(&message), refusal, said);
    true
}

/// Keeps a SET or COMMAND with its reply. Never inlined: so the stack has no room for that reply while the clock takes its turn.
#[inline(never)]
fn keep<T: SureTable + Drop>(
    agent: &mut Agent<T>,
    change: &Asked<'_>,
    refusal: Option<ErrorId>,
    said: DeviceSay<'_>,
)
    requires known { IsTrue (is_known change.now.manager (T.owner agent.old.table).managers) }
    requires change { IsTrue (is_change change.now.request.action) }
    requires lacked { row_of change.now.request.id ≡ None }
    requires request { IsDataField change.now.request.octets }
    requires given { IsGiven said }
    ensures kept { state_of T.entries agent.new ≡ after_reply (state_of T.entries agent.old)
        change.now (reply_relayed refusal change.now.request (said_value said.entry)) }
    ensures sets { agent.new.sets ≡ agent.old.sets }
    ensures clock { clock_of T.owner agent.new ≡ clock_of T.owner agent.old }
{
    data_sets_law(agent.sets());
    let answer = PortAnswer {
        port: None,
        what: relayed_outcome(&change.request, refusal, said),
    };
    agent.keep_again(&change.manager, change.number, &change.request, &[answer]);
}

/// What a SET or COMMAND is answered.
fn relayed_outcome(request: &Request<'_>, refusal: Option<ErrorId>, said: DeviceSay<'_>) -> What
    ensures { outcome_of result ≡ relayed_outcome refusal request.now (said_value said.entry) }
{
    if let Some(error) = refusal {
        return What::Refused(error);
    }
    match said {
        DeviceSay::Agrees => given_to(request.action, request.octets),
        DeviceSay::Objects(error) => What::Refused(error),
        DeviceSay::Gives(octets) => given_to(request.action, octets),
    }
}

/// What a SET with these octets is answered, or that a COMMAND is done.
fn given_to(action: Action, octets: &[u8]) -> What
    ensures { outcome_of result ≡ given_to action octets.now }
{
    if action == Action::Command {
        What::Done
    } else {
        given(octets)
    }
}
