//! Why a script ends before its last event.

use ptpm_codec::OutOfMemory;
use ptpm_script::{EventError, NetError};
use std::io;
use thiserror::Error;

/// Why a script ends before its last event. What was written by then is the trace so far.
#[derive(Clone, Copy, Debug, PartialEq, Eq, Error)]
pub enum ScriptError {
    /// Reading failed, in whatever way.
    #[error("ReadFault")]
    ReadFault,
    /// Writing failed, or nothing more was taken.
    #[error("WriteFault")]
    WriteFault,
    /// The line of this number, counted from 1 in all that was read, has over 4,096 octets.
    #[error("LineTooLong {0}")]
    LineTooLong(u32),
    /// There are over 2,000,000 lines.
    #[error("TooManyLines")]
    TooManyLines,
    /// The line of this number, counted from 1 in all that was read, is not UTF-8.
    #[error("NotText {0}")]
    NotText(u32),
    /// The lines before `%%` are no network.
    #[error("BadNetwork {0}")]
    BadNetwork(NetError),
    /// The line of this number, counted from 1 after `%%`, is no event.
    #[error("BadLine {0} {1}")]
    BadLine(u32, EventError),
    /// Memory was refused.
    #[error("OutOfMemory")]
    OutOfMemory,
}

impl From<OutOfMemory> for ScriptError {
    ghost use Rattle.std.specs.Prelude.{◌≡◌};
    ghost use Rattle.ptpm_world.specs.declared.script_error.ScriptError.TheVariants as faults;

    ghost from_gives = { λ _ e. e ≡ faults.OutOfMemory };

    fn from(_refused: OutOfMemory) -> ScriptError {
        ScriptError::OutOfMemory
    }
}

/// Only the writer's errors are passed on by `?`.
impl From<io::Error> for ScriptError {
    ghost use Rattle.std.specs.Prelude.{◌≡◌};
    ghost use Rattle.ptpm_world.specs.declared.script_error.ScriptError.TheVariants as faults;

    ghost from_gives = { λ _ e. e ≡ faults.WriteFault };

    fn from(_error: io::Error) -> ScriptError {
        ScriptError::WriteFault
    }
}
