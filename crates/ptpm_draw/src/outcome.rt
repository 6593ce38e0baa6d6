//! What became of an event, in the words of the picture.

ghost use Rattle.std.specs.Prelude.{◌≡◌, nat_lt};
ghost use Rattle.ptpm_draw.specs.Picture.{decided, outcome_of};

use crate::picture::EventRow;
use ptpm_agent::Verdict;
use ptpm_manager::Reason;
use ptpm_world::{StepError, Took};
use std::fmt;

/// What became of an event.
#[derive(Clone, Copy)]
pub enum EventOutcome {
    /// A session did what it was asked.
    Done,
    /// A clock carried out a new request, and answered it.
    CarriedOut,
    /// A clock answered a repeat by the reply that it had kept.
    AnsweredAgain,
    /// A clock answered, and carried out nothing.
    Answered,
    /// A clock passed on what is not for it.
    PassedOn,
    /// A clock did nothing.
    Dropped(Verdict),
    /// A session took it for its answer.
    Reported,
    /// A session ignored it.
    Ignored(Reason),
    /// Nothing happened.
    Refused(StepError),
}

impl EventRow {
    /// What became of its event.
    pub fn outcome(&self) -> EventOutcome
        ensures { result ≡ outcome_of self.now.answer (nat_lt self.now.before self.now.after) }
    {
        match self.answer {
            Ok(Took::Fine) => EventOutcome::Done,
            Ok(Took::AtClock(verdict)) => decided(verdict, self.before < self.after),
            Ok(Took::Answered) => EventOutcome::Reported,
            Ok(Took::Ignored(reason)) => EventOutcome::Ignored(reason),
            Err(error) => EventOutcome::Refused(error),
        }
    }
}

/// What a clock's verdict comes to, whether it sent messages or none.
fn decided(verdict: Verdict, has_sent: bool) -> EventOutcome
    ensures { result ≡ decided verdict has_sent }
{
    match verdict {
        Verdict::AnsweredNew => EventOutcome::CarriedOut,
        Verdict::AnsweredRepeat => EventOutcome::AnsweredAgain,
        Verdict::AnsweredUnnumbered => EventOutcome::Answered,
        _ if has_sent => EventOutcome::PassedOn,
        _ => EventOutcome::Dropped(verdict),
    }
}

/// In words, and after a colon why, by the names of the trace.
impl fmt::Display for EventOutcome {
    fn fmt<W: fmt::Write>(&self, f: &mut fmt::Formatter<W>) -> fmt::Result {
        match self {
            EventOutcome::Done => f.write_str("done"),
            EventOutcome::CarriedOut => f.write_str("carried out"),
            EventOutcome::AnsweredAgain => f.write_str("answered again"),
            EventOutcome::Answered => f.write_str("answered"),
            EventOutcome::PassedOn => f.write_str("passed on"),
            EventOutcome::Dropped(verdict) => write!(f, "dropped: {verdict}"),
            EventOutcome::Reported => f.write_str("reported"),
            EventOutcome::Ignored(reason) => write!(f, "ignored: {reason}"),
            EventOutcome::Refused(error) => write!(f, "refused: {error}"),
        }
    }
}
