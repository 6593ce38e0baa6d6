//! What an event did, and why one is refused.

use ptpm_agent::Verdict;
use ptpm_manager::{BeginError, Reason, SendError};
use std::fmt;
use thiserror::Error;

/// What an event did.
#[derive(Clone, Copy, Debug, PartialEq, Eq)]
pub enum Took {
    /// A session did what it was asked.
    Fine,
    /// A datagram came in at a clock, which decided this.
    AtClock(Verdict),
    /// It came in at a session, which took it for the answer to its request: the report is the last of its reports.
    Answered,
    /// It came in at a session, which ignored it.
    Ignored(Reason),
}

/// `ok`, a verdict's name, `Answered`, or `Ignored` and the reason.
impl fmt::Display for Took {
    ghost use Rattle.std.specs.Prelude.{Some};
    ghost use Rattle.ptpm_world.specs.Took.{took_text};

    ghost output = { λ took. Some (took_text took) };

    fn fmt<W: fmt::Write>(&self, f: &mut fmt::Formatter<W>) -> fmt::Result {
        match self {
            Took::Fine => f.write_str("ok"),
            Took::AtClock(verdict) => write!(f, "{verdict}"),
            Took::Answered => f.write_str("Answered"),
            Took::Ignored(reason) => write!(f, "Ignored {reason}"),
        }
    }
}

/// Why nothing happened, in the order in which the reasons are judged. The network stays as it was.
#[derive(Clone, Copy, Debug, PartialEq, Eq, Error)]
pub enum StepError {
    /// No session or clock has the name, or the clock lacks the port.
    NoSuchName,
    /// No frame has the number.
    NoSuchFrame,
    /// A stranger's datagram has the identity of a clock or of a session at the place where a message has its source.
    Forged,
    /// More than 399,775 frames are held.
    FramesAtMaximum,
    /// The session does not begin the request.
    Begin(BeginError),
    /// The session does not send, or has nothing to resume.
    Send(SendError),
    /// Memory was refused.
    OutOfMemory,
}

/// The name; a session's own refusal only by its name.
impl fmt::Display for StepError {
    ghost use Rattle.std.specs.Prelude.{Some};
    ghost use Rattle.ptpm_world.specs.Took.{step_error_text};

    ghost output = { λ e. Some (step_error_text e) };

    fn fmt<W: fmt::Write>(&self, f: &mut fmt::Formatter<W>) -> fmt::Result {
        match self {
            StepError::NoSuchName => f.write_str("NoSuchName"),
            StepError::NoSuchFrame => f.write_str("NoSuchFrame"),
            StepError::Forged => f.write_str("Forged"),
            StepError::FramesAtMaximum => f.write_str("FramesAtMaximum"),
            StepError::Begin(error) => write!(f, "{error}"),
            StepError::Send(error) => write!(f, "{error}"),
            StepError::OutOfMemory => f.write_str("OutOfMemory"),
        }
    }
}

impl From<ptpm_codec::OutOfMemory> for StepError {
    ghost use Rattle.std.specs.Prelude.{◌≡◌};
    ghost use Rattle.ptpm_world.specs.declared.took.StepError.TheVariants as errors;

    ghost from_gives = { λ _ e. e ≡ errors.OutOfMemory };

    fn from(_refused: ptpm_codec::OutOfMemory) -> StepError {
        StepError::OutOfMemory
    }
}

impl From<BeginError> for StepError {
    ghost use Rattle.std.specs.Prelude.{◌≡◌};
    ghost use Rattle.ptpm_world.specs.Took.{begin_error};

    ghost from_gives = { λ error e. e ≡ begin_error error };

    fn from(error: BeginError) -> StepError {
        match error {
            BeginError::OutOfMemory => StepError::OutOfMemory,
            _ => StepError::Begin(error),
        }
    }
}

impl From<SendError> for StepError {
    ghost use Rattle.std.specs.Prelude.{◌≡◌};
    ghost use Rattle.ptpm_world.specs.declared.took.StepError.TheVariants as errors;

    ghost from_gives = { λ error e. e ≡ errors.Send error };

    fn from(error: SendError) -> StepError {
        StepError::Send(error)
    }
}
