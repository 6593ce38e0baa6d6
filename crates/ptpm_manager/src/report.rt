//! What a reply reports to whoever asked.

ghost use Rattle.std.specs.Prelude.{◌≡◌, IfOk, OnErr};
ghost use Rattle.ptpm_manager.specs.Report.{IsCopied, outcome_in};

use ptpm_codec::{Action, Octets, OutOfMemory, View};
use std::alloc::Global;

/// What became of a request (15.4.1.6, 15.5.4).
#[derive(Debug, Drop)]
pub enum Outcome {
    /// The dataField of a RESPONSE.
    Value(Octets),
    /// An ACKNOWLEDGE: the COMMAND was carried out.
    Done,
    /// The managementErrorId of an error status.
    Refused(u16),
}

/// The answer to a session's request.
#[derive(Debug, Drop)]
pub struct Report {
    /// Which of the session's requests it answers, counted from 1.
    pub index: u64,
    pub outcome: Outcome,
}

/// What a reply reports. The octets of a dataField are copied, and nothing else.
pub(crate) fn outcome_in(alloc: Global, reply: &View<'_>) -> Result<Outcome, OutOfMemory>
    ensures outcome { IfOk result (λ outcome. outcome ≡ outcome_in reply.now.body) }
    ensures memory { OnErr result (IsCopied (outcome_in reply.now.body)) }
{
    if let Some(error) = reply.error() {
        return Ok(Outcome::Refused(error));
    }
    match reply.action() {
        Action::Acknowledge => Ok(Outcome::Done),
        _ => Ok(Outcome::Value(Octets::copy_of(alloc, reply.octets())?)),
    }
}
