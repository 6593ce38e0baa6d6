//! What an answer says, as a host takes it over.

ghost use Rattle.std.specs.Prelude.{◌≡◌, ◌≤◌, None, Some, IfOk, MatchResult, OnErr, drop, length, take};
ghost use Rattle.ptpm_host.specs.ReportedOutcome.{room_refusal, reported_error, outcome_octets, reported_of, reported_size};

use crate::refusal::ReportRefusal;
use ptpm_manager::Outcome;

/// What the answer to a request says.
#[derive(Clone, Copy)]
pub enum ReportedOutcome {
    /// A dataField of this many octets.
    Value(usize),
    /// The COMMAND was carried out.
    Done,
    /// The managementErrorId of an error status.
    Refused(u16),
}

impl ReportedOutcome {
    /// How many octets of a dataField it has.
    pub fn size(self) -> usize
        ensures { result ≡ reported_size self }
    {
        match self {
            ReportedOutcome::Value(size) => size,
            ReportedOutcome::Done | ReportedOutcome::Refused(_) => 0,
        }
    }

    /// The managementErrorId, and 0 if it has none.
    pub fn error(self) -> u16
        ensures { result ≡ reported_error self }
    {
        match self {
            ReportedOutcome::Refused(error) => error,
            ReportedOutcome::Value(_) | ReportedOutcome::Done => 0,
        }
    }
}

/// What an answer says. A dataField is left at the head of `octets`, and what follows it stays. If it is refused,
/// nothing is written.
pub(crate) fn report_outcome(
    outcome: &Outcome,
    octets: &mut [u8],
) -> Result<ReportedOutcome, ReportRefusal>
    ensures refusal { MatchResult result
        (λ _. room_refusal (length octets.old) outcome.now ≡ None)
        (λ e. room_refusal (length octets.old) outcome.now ≡ Some e) }
    ensures outcome { IfOk result (λ t. t ≡ reported_of outcome.now) }
    ensures octets { IfOk result (λ t. take (reported_size t) octets.new ≡ outcome_octets outcome.now) }
    ensures within { IfOk result (λ t. reported_size t ≤ length octets.new) }
    ensures behind { IfOk result
        (λ t. drop (reported_size t) octets.new ≡ drop (reported_size t) octets.old) }
    ensures size { length octets.new ≡ length octets.old }
    ensures untouched { OnErr result (octets.new ≡ octets.old) }
{
    match outcome {
        Outcome::Value(field) => {
            let field = field.as_slice();
            if octets.len() < field.len() {
                return Err(ReportRefusal::NoRoom);
            }
            octets[..field.len()].copy_from_slice(field);
            Ok(ReportedOutcome::Value(field.len()))
        }
        Outcome::Done => Ok(ReportedOutcome::Done),
        Outcome::Refused(error) => Ok(ReportedOutcome::Refused(*error)),
    }
}
