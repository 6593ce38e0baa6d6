//! Why no table is made.

use std::fmt;
use thiserror::Error;

/// Why no reply table is made for a list of managers, in the order in which the reasons are judged.
#[derive(Clone, Copy, Debug, PartialEq, Eq, Error)]
pub enum TableError {
    /// More managers than a clock has at most, sixteen; or than a `SlotTable` has slots, if those are fewer.
    TooMany,
    /// An identity is listed twice, whatever the rights.
    Twice,
    /// Memory was refused. This says nothing of the managers.
    OutOfMemory,
}

/// The name, for example `Twice`.
impl fmt::Display for TableError {
    ghost use Rattle.std.specs.Prelude.{Some};
    ghost use Rattle.ptpm_table.specs.ErrorText.{table_error_text};

    ghost output = { λ e. Some (table_error_text e) };

    fn fmt<W: fmt::Write>(&self, f: &mut fmt::Formatter<W>) -> fmt::Result {
        f.write_str(match self {
            TableError::TooMany => "TooMany",
            TableError::Twice => "Twice",
            TableError::OutOfMemory => "OutOfMemory",
        })
    }
}
