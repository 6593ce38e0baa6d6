//! Which requests and replies a table would keep.

ghost use Rattle.std.specs.Prelude.{◌≡◌, ◌↔◌, ◌≤◌, All, IsTrue, length};
ghost use Rattle.ptpm_codec.specs.Message.{IsDataField};
ghost use Rattle.ptpm_data.specs.ManagementId.{is_of_port};
ghost use Rattle.ptpm_data.specs.Reply.{answer_of, outcome_of};
ghost use Rattle.ptpm_table.specs.Entries.{FitsAnswer, FitsCount, FitsOutcome};

use ptpm_codec::Action;
use ptpm_data::{PORTS, PortAnswer, Scope, What, row};

/// Whether the members of an id belong to the ports.
pub(crate) fn is_of_port(id: u16) -> bool
    ensures { result ≡ is_of_port id }
{
    match row(id) {
        Some(row) => row.scope == Scope::Port,
        None => false,
    }
}

/// Whether a reply to a request can have this many answers.
pub(crate) fn fits_count(of_port: bool, count: usize) -> bool
    ensures { IsTrue result ↔ FitsCount of_port count }
{
    if of_port {
        1 <= count && count <= PORTS
    } else {
        count == 1
    }
}

/// Whether all of these can be answers to a request of this action.
pub(crate) fn fit_answers(of_port: bool, action: Action, answers: &[PortAnswer]) -> bool
    ensures { IsTrue result ↔ All (λ a. FitsAnswer of_port action (answer_of a)) answers.now }
{
    answers
        .iter()
        .all(|answer| fits_answer(of_port, action, answer))
}

fn fits_answer(of_port: bool, action: Action, answer: &PortAnswer) -> bool
    ensures { IsTrue result ↔ FitsAnswer of_port action (answer_of answer.now) }
{
    if of_port {
        answer.port.is_some() && fits_outcome(action, 26, &answer.what)
    } else {
        answer.port.is_none() && fits_outcome(action, 130, &answer.what)
    }
}

fn fits_outcome(action: Action, most: usize, what: &What) -> bool
    ensures { IsTrue result ↔ FitsOutcome action most (outcome_of what.now) }
{
    match what {
        What::Value(octets) => {
            action != Action::Command && octets.len() % 2 == 0 && octets.len() <= most
        }
        What::Done => action == Action::Command,
        What::Refused(_) => true,
    }
}
