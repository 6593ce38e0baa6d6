//! Lines that a schedule leaves out.

use ptpm_world::StepError;
use std::fmt;

/// A line of a script whose event is refused when its turn comes, so that a schedule has no line for it. Prints as
/// `LeftOut LINE WHY`.
#[derive(Clone, Copy, Debug, PartialEq, Eq)]
pub(crate) struct LeftOut {
    /// The number of the line, counted from 1 after the divider.
    pub(crate) line: u32,
    pub(crate) why: StepError,
}

impl fmt::Display for LeftOut {
    fn fmt<W: fmt::Write>(&self, f: &mut fmt::Formatter<W>) -> fmt::Result {
        write!(f, "LeftOut {} {}", self.line, self.why)
    }
}
