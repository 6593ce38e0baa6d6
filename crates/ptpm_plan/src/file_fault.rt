//! Why a file is no plan.

use crate::change::PlannedId;
use crate::subject::Subject;
use crate::text::Text;
use std::alloc::{AllocError, AllocFailed};

/// Why a file is no plan, and where in it.
#[derive(Drop)]
pub enum FileFault {
    /// Memory was refused. This says nothing of the file.
    OutOfMemory,
    /// Over 262,144 octets.
    TooLong,
    /// No TOML document, from this line on.
    NotToml(usize, toml::de::Error),
    /// A table has what it may not have.
    At(Place, TableFault),
    /// Two tables ask for two values of a member.
    TwoValues(Subject),
}

/// A table of the file, or the file itself. Tables of one name are counted from 1.
#[derive(Clone, Copy)]
pub enum Place {
    File,
    Clock(usize),
    /// A port of a clock: the clock's place, and the port's among its ports.
    Port(usize, usize),
    /// A port of a clock, by its number.
    NumberedPort(usize, u16),
    Every(usize),
    EveryPort(usize),
}

/// What is wrong with a table.
#[derive(Drop)]
pub enum TableFault {
    /// `version` is not 1.
    Version,
    /// A key of the file that is none.
    NoKey(Text),
    /// A key that is neither one of the table nor a managementId.
    UnknownKey(Text),
    /// An id that no plan sets.
    NotPlanned(Text),
    /// An id of a port, in a table of a clock.
    OfPort(PlannedId),
    /// An id of the clock, in a table of a port.
    OfClock(PlannedId),
    /// `every` asks for a USER_DESCRIPTION.
    OneClocks,
    /// Both of `identity` and `description`, or neither.
    NotOneName,
    /// An alias that an earlier clock has.
    AliasTwice(Text),
    /// What `except` names is neither an alias nor an identity.
    UnknownClock(Text),
    /// A key does not hold what it takes, which is in words.
    Takes(&'static str, &'static str),
    /// An id does not hold what it takes, which is in words.
    IdTakes(PlannedId, &'static str),
    /// A member that the id lacks.
    NoMember(PlannedId, Text),
}

impl FileFault {
    /// A key of a table does not hold what it takes.
    pub(crate) fn takes(place: Place, key: &'static str, what: &'static str) -> FileFault {
        FileFault::At(place, TableFault::Takes(key, what))
    }
}

impl From<AllocError> for FileFault {
    ghost use Rattle.std.specs.Prelude.{◌≡◌};
    ghost use Rattle.ptpm_plan.specs.declared.file_fault.FileFault.TheVariants as faults;

    ghost from_gives = { λ _ e. e ≡ faults.OutOfMemory };

    fn from(_refused: AllocError) -> FileFault {
        FileFault::OutOfMemory
    }
}

impl<T: Drop> From<AllocFailed<T>> for FileFault {
    ghost use Rattle.std.specs.Prelude.{◌≡◌};
    ghost use Rattle.ptpm_plan.specs.declared.file_fault.FileFault.TheVariants as faults;

    ghost from_gives = { λ _ e. e ≡ faults.OutOfMemory };

    fn from(_refused: AllocFailed<T>) -> FileFault {
        FileFault::OutOfMemory
    }
}
