//! The numbers that the calls of a rollout answer, 130 to 132 of the table of `numbers`.

ghost use Rattle.std.specs.Prelude.{◌≡◌, ◌≤◌};
ghost use Rattle.ptpm_host.specs.Rollout.{open_number, turn_number};

use crate::numbers::NO_MEMORY;
use ptpm_apply::{OpenError, TurnError};

/// A handle holds no rollout.
pub const NO_ROLLOUT: u32 = 130;

/// An event answers no action that is due, or is none.
pub const OUT_OF_TURN: u32 = 132;

/// There is no such choice.
pub const NO_CHOICE: u32 = 41;

/// Why a journal is not gone on with, 35, 105, 107 or 131.
pub fn open_number(refusal: OpenError) -> u32
    ensures number { result ≡ open_number refusal }
    ensures some { 1 ≤ result }
{
    match refusal {
        OpenError::OtherVersion => 105,
        OpenError::Damaged => 107,
        OpenError::Ended => 131,
        OpenError::OutOfMemory => NO_MEMORY,
    }
}

/// Why an event is not taken, 35 or 132.
pub fn turn_number(refusal: TurnError) -> u32
    ensures number { result ≡ turn_number refusal }
    ensures some { 1 ≤ result }
{
    match refusal {
        TurnError::OutOfTurn => OUT_OF_TURN,
        TurnError::OutOfMemory => NO_MEMORY,
    }
}
