//! What a run of a change is to do, and why it can't.

use std::alloc::AllocError;

/// What a run is to do.
#[derive(Clone, Copy)]
pub enum Choice {
    /// It ends at the first clock that is silent, has another value, or does not do what is asked.
    Stop,
    /// Such a clock holds only what has to come after its steps.
    KeepGoing,
    /// It sends nothing, and ends the change.
    GiveUp,
    /// It sees to what an earlier run left of the steps, and to nothing else.
    Settle,
}

/// Why a journal is not gone on with.
#[derive(Clone, Copy)]
pub enum OpenError {
    OtherVersion,
    Damaged,
    /// It has its end.
    Ended,
    OutOfMemory,
}

impl From<AllocError> for OpenError {
    ghost use Rattle.std.specs.Prelude.{◌≡◌};
    ghost use Rattle.ptpm_apply.specs.declared.choice.OpenError.TheVariants as opens;

    ghost from_gives = { λ _ e. e ≡ opens.OutOfMemory };

    fn from(_refused: AllocError) -> OpenError {
        OpenError::OutOfMemory
    }
}

/// Why an event is refused.
#[derive(Clone, Copy)]
pub enum TurnError {
    /// It answers no action that is due.
    OutOfTurn,
    OutOfMemory,
}
