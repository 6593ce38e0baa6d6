//! Why a session refuses.

use std::fmt;
use thiserror::Error;

/// Why a request is not begun, in the order in which the reasons are judged. The session stays as it was.
#[derive(Clone, Copy, Debug, PartialEq, Eq, Error)]
pub enum BeginError {
    /// A request is not answered yet, even if all its attempts are used: its number may still be accepted.
    Busy,
    /// The id is of a port, and no port of the clock is named.
    NeedsPort,
    /// The action is RESPONSE or ACKNOWLEDGE, which are no requests.
    NotPermitted,
    /// The dataField has an odd number of octets, or over 1,418.
    BadValue,
    /// The session has begun 1,000,000 requests.
    CountAtMaximum,
    /// Memory for the dataField was refused.
    OutOfMemory,
}

/// The name, for example `Busy`.
impl fmt::Display for BeginError {
    ghost use Rattle.std.specs.Prelude.{Some};
    ghost use Rattle.ptpm_manager.specs.ErrorText.{begin_error_text};

    ghost output = { λ e. Some (begin_error_text e) };

    fn fmt<W: fmt::Write>(&self, f: &mut fmt::Formatter<W>) -> fmt::Result {
        f.write_str(match self {
            BeginError::Busy => "Busy",
            BeginError::NeedsPort => "NeedsPort",
            BeginError::NotPermitted => "NotPermitted",
            BeginError::BadValue => "BadValue",
            BeginError::CountAtMaximum => "CountAtMaximum",
            BeginError::OutOfMemory => "OutOfMemory",
        })
    }
}

/// Why nothing is sent, in the order in which the reasons are judged. The session stays as it was.
#[derive(Clone, Copy, Debug, PartialEq, Eq, Error)]
pub enum SendError {
    /// No request is unanswered.
    Idle,
    /// No attempts are left. The request is kept: `resume` gives it more.
    GaveUp,
}

/// The name, for example `Idle`.
impl fmt::Display for SendError {
    ghost use Rattle.std.specs.Prelude.{Some};
    ghost use Rattle.ptpm_manager.specs.ErrorText.{send_error_text};

    ghost output = { λ e. Some (send_error_text e) };

    fn fmt<W: fmt::Write>(&self, f: &mut fmt::Formatter<W>) -> fmt::Result {
        f.write_str(match self {
            SendError::Idle => "Idle",
            SendError::GaveUp => "GaveUp",
        })
    }
}

/// Why a request is not given up, in the order in which the reasons are judged. The session stays as it was.
#[derive(Clone, Copy, Debug, PartialEq, Eq, Error)]
pub enum GiveUpRefusal {
    /// No request is unanswered.
    Idle,
    /// 32,767 requests were begun since the latest that was reported. The clock might take one more for an old one.
    OutOfReach,
}

/// The name, for example `Idle`.
impl fmt::Display for GiveUpRefusal {
    ghost use Rattle.std.specs.Prelude.{Some};
    ghost use Rattle.ptpm_manager.specs.ErrorText.{give_up_refusal_text};

    ghost output = { λ e. Some (give_up_refusal_text e) };

    fn fmt<W: fmt::Write>(&self, f: &mut fmt::Formatter<W>) -> fmt::Result {
        f.write_str(match self {
            GiveUpRefusal::Idle => "Idle",
            GiveUpRefusal::OutOfReach => "OutOfReach",
        })
    }
}

/// Why octets restore no session, in the order in which the reasons are judged.
#[derive(Clone, Copy, Debug, PartialEq, Eq, Error)]
pub enum RestoreError {
    /// There are under 12 octets, or the first four are not `ptpm`.
    NotAnImage,
    /// It is an image in another version.
    OtherVersion,
    /// It is an image, but not of a session.
    OtherKind,
    /// It is no image of a session: octets are missing, further ones follow, or one has a value that no image has there.
    Damaged,
    /// It is of another manager or clock, of a clock with another number of ports, or of another first number.
    OtherSession,
    /// Memory for the dataField was refused.
    OutOfMemory,
}

/// The name, for example `NotAnImage`.
impl fmt::Display for RestoreError {
    ghost use Rattle.std.specs.Prelude.{Some};
    ghost use Rattle.ptpm_manager.specs.ErrorText.{restore_error_text};

    ghost output = { λ e. Some (restore_error_text e) };

    fn fmt<W: fmt::Write>(&self, f: &mut fmt::Formatter<W>) -> fmt::Result {
        f.write_str(match self {
            RestoreError::NotAnImage => "NotAnImage",
            RestoreError::OtherVersion => "OtherVersion",
            RestoreError::OtherKind => "OtherKind",
            RestoreError::Damaged => "Damaged",
            RestoreError::OtherSession => "OtherSession",
            RestoreError::OutOfMemory => "OutOfMemory",
        })
    }
}
