//! What an accepted request changes of a clock's precedence.

use crate::data_sets::ClockPrecedence;

/// A change of one member of a clock's precedence, with its new value.
#[derive(Clone, Copy, Debug, PartialEq, Eq)]
pub(crate) enum PrecedenceChange {
    Priority1(u8),
    Priority2(u8),
    ClockAccuracy(u8),
}

impl ClockPrecedence {
    ghost use Rattle.std.specs.Prelude.{◌≡◌};
    ghost use Rattle.ptpm_data.specs.PrecedenceChange.{precedence_after};

    pub(crate) fn change(&mut self, change: PrecedenceChange)
        ensures { self.new ≡ precedence_after change self.old }
    {
        match change {
            PrecedenceChange::Priority1(priority) => self.priority1 = priority,
            PrecedenceChange::Priority2(priority) => self.priority2 = priority,
            PrecedenceChange::ClockAccuracy(accuracy) => self.accuracy = accuracy,
        }
    }
}
