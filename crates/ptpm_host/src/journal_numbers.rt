//! The numbers of a journal: those that its calls answer, 126 to 129 of the table of `numbers`, and those of marks.

ghost use Rattle.std.specs.Prelude.{◌≡◌, ◌≤◌};
ghost use Rattle.ptpm_host.specs.JournalNumbers.{add_number, mark_number, next_number};

use crate::numbers::{NO_MEMORY, NO_ROOM};
use ptpm_journal::{AddError, Mark, NextError};

/// A handle holds no journal.
pub const NO_JOURNAL: u32 = 126;

/// Numbers are no record of a journal.
pub const NO_RECORD: u32 = 127;

/// The file of a journal has no further record.
pub const JOURNAL_IS_WHOLE: u32 = 129;

/// No step of a journal.
pub const NO_STEP: u16 = 65_535;

/// Why a record is not added to a journal, 34, 35, 127 or 128.
pub fn add_number(refusal: AddError) -> u32
    ensures number { result ≡ add_number refusal }
    ensures some { 1 ≤ result }
{
    match refusal {
        AddError::NoRecord => NO_RECORD,
        AddError::NotAllowed => 128,
        AddError::NoRoom => NO_ROOM,
        AddError::OutOfMemory => NO_MEMORY,
    }
}

/// Why no record of a journal is read, 35, 105 or 107.
pub fn next_number(refusal: NextError) -> u32
    ensures number { result ≡ next_number refusal }
    ensures some { 1 ≤ result }
{
    match refusal {
        NextError::OtherVersion => 105,
        NextError::Damaged => 107,
        NextError::OutOfMemory => NO_MEMORY,
    }
}

/// What a journal says of a step, 0 to 5; 6 if it has none of this number.
pub fn mark_number(mark: Option<Mark>) -> u32
    ensures { result ≡ mark_number mark }
{
    match mark {
        None => 6,
        Some(Mark::Untouched) => 0,
        Some(Mark::Begun) => 1,
        Some(Mark::Done) => 2,
        Some(Mark::Refused) => 3,
        Some(Mark::Answered) => 4,
        Some(Mark::LetGo) => 5,
    }
}
