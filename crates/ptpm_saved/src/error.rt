//! Why octets restore no clock.

use std::fmt;
use thiserror::Error;

/// Why octets restore no clock, in the order in which the reasons are judged.
#[derive(Clone, Copy, Debug, PartialEq, Eq, Error)]
pub enum RestoreError {
    /// There are under 12 octets, or the first four are not `ptpm`.
    NotAnImage,
    /// It is an image in another version.
    OtherVersion,
    /// It is an image of something other than a clock.
    OtherKind,
    /// It is no image of a clock: octets are missing, further ones follow, or one has a value that no image has there.
    Damaged,
    /// It is of a clock of another identity.
    OtherClock,
    /// It is of a clock with another number of ports.
    OtherPorts,
}

/// Why no clock is restored with memory of its own.
#[derive(Clone, Copy, Debug, PartialEq, Eq)]
pub enum RestoreFault {
    Refused(RestoreError),
    /// Memory was refused. A clock of more than `ptpm_data::INLINE_PORTS` ports asks for it before its image is judged.
    OutOfMemory,
}

/// The name, for example `NotAnImage`.
impl fmt::Display for RestoreError {
    ghost use Rattle.std.specs.Prelude.{Some};
    ghost use Rattle.ptpm_saved.specs.ErrorText.{restore_error_text};

    ghost output = { λ e. Some (restore_error_text e) };

    fn fmt<W: fmt::Write>(&self, f: &mut fmt::Formatter<W>) -> fmt::Result {
        f.write_str(match self {
            RestoreError::NotAnImage => "NotAnImage",
            RestoreError::OtherVersion => "OtherVersion",
            RestoreError::OtherKind => "OtherKind",
            RestoreError::Damaged => "Damaged",
            RestoreError::OtherClock => "OtherClock",
            RestoreError::OtherPorts => "OtherPorts",
        })
    }
}
