//! What ends a command with status 1.

ghost use Rattle.std.specs.Prelude.{◌≡◌, IfSome, OnOk};
ghost use Rattle.std.specs.Io.KnownBytes.{Appends};
ghost use Rattle.ptpm_commands.specs.Faults.{at_line, fault_line, is_of_line};

use hex::FromHexError;
use ptpm_codec::DecodeError;
use ptpm_members::ParseFault;
use std::alloc::AllocError;
use std::io::Write;
use std::{fmt, io};
use thiserror::Error;

/// Why a command was not done. Its text is what follows `ptpm: ` on standard error.
#[derive(Clone, Copy, Debug, PartialEq, Eq, Error)]
pub enum Fault {
    /// An action is none of `get`, `set` and `command`.
    #[error("BadAction")]
    BadAction,
    /// A management id is neither a name of the table nor four hexadecimal digits, also after `0x`.
    #[error("BadId")]
    BadId,
    /// A datagram's or dataField's text has an odd number of characters, or one that is no hexadecimal digit.
    #[error("BadHex")]
    BadHex,
    /// A dataField has an odd number of octets, or more than 1,418.
    #[error("BadValue")]
    BadValue,
    /// Members are no dataField of the id.
    #[error("BadMembers {0}")]
    BadMembers(ParseFault),
    /// An identity is not a clockIdentity, a slash or a hyphen, and a decimal port from 0 to 65535. A clockIdentity is sixteen
    /// hexadecimal digits, also with dots as pmc has them.
    #[error("BadIdentity")]
    BadIdentity,
    /// A datagram holds no management message.
    #[error("{0}")]
    Refused(DecodeError),
    /// Standard input could not be read.
    #[error("ReadFault")]
    ReadFault,
    /// A line has over 4,096 octets. Lines are counted from 1.
    #[error("LineTooLong {0}")]
    LineTooLong(u64),
    /// A line is no datagram in hexadecimal, or one that the command refuses.
    #[error("BadLine {0} {1}")]
    BadLine(u64, LineFault),
    /// Memory was asked for and refused.
    #[error("OutOfMemory")]
    OutOfMemory,
    /// Standard output failed.
    #[error("WriteFault")]
    WriteFault,
}

/// Whether a command was done.
pub type Done = Result<(), Fault>;

/// What is wrong with a line.
#[derive(Clone, Copy, Debug, PartialEq, Eq, Error)]
pub enum LineFault {
    /// An odd number of characters, or one that is no hexadecimal digit.
    #[error("BadHex")]
    BadHex,
    /// A datagram that holds no management message.
    #[error("{0}")]
    Refused(DecodeError),
}

impl Fault {
    /// The fault at a line of this number: if the line is to blame, its number is reported.
    pub(crate) fn at_line(self, number: u64) -> Fault
        ensures { result ≡ at_line number self }
    {
        match self {
            Fault::BadHex => Fault::BadLine(number, LineFault::BadHex),
            Fault::Refused(error) => Fault::BadLine(number, LineFault::Refused(error)),
            fault => fault,
        }
    }

    /// Whether only a line is to blame, so that the lines after it may be read.
    pub(crate) fn is_of_line(self) -> bool
        ensures { result ≡ is_of_line self }
    {
        matches!(self, Fault::LineTooLong(_) | Fault::BadLine(..))
    }
}

/// Names a fault on standard error, in a line of its own.
pub fn tell<F: fmt::Display, E: Write>(fault: &F, err: &mut E) -> io::Result<()>
    ensures { OnOk result (IfSome (F.output fault.now)
        (λ text. Appends (E.contents err.old) (E.contents err.new) (fault_line text))) }
{
    writeln!(err, "ptpm: {fault}")
}

impl From<FromHexError> for Fault {
    ghost use Rattle.ptpm_commands.specs.Faults.{digits_fault};

    ghost from_gives = { λ error fault. fault ≡ digits_fault error };

    fn from(error: FromHexError) -> Fault {
        match error {
            FromHexError::OutOfMemory => Fault::OutOfMemory,
            _ => Fault::BadHex,
        }
    }
}

impl From<DecodeError> for Fault {
    ghost use Rattle.ptpm_commands.specs.declared.faults.Fault.TheVariants as faults;

    ghost from_gives = { λ error fault. fault ≡ faults.Refused error };

    fn from(error: DecodeError) -> Fault {
        Fault::Refused(error)
    }
}

impl From<ParseFault> for Fault {
    ghost use Rattle.ptpm_commands.specs.declared.faults.Fault.TheVariants as faults;

    ghost from_gives = { λ error fault. fault ≡ faults.BadMembers error };

    fn from(fault: ParseFault) -> Fault {
        Fault::BadMembers(fault)
    }
}

impl From<AllocError> for Fault {
    ghost use Rattle.ptpm_commands.specs.declared.faults.Fault.TheVariants as faults;

    ghost from_gives = { λ _ fault. fault ≡ faults.OutOfMemory };

    fn from(_error: AllocError) -> Fault {
        Fault::OutOfMemory
    }
}

/// Standard output is the only stream whose errors are passed on as they are.
impl From<io::Error> for Fault {
    ghost use Rattle.ptpm_commands.specs.declared.faults.Fault.TheVariants as faults;

    ghost from_gives = { λ _ fault. fault ≡ faults.WriteFault };

    fn from(_error: io::Error) -> Fault {
        Fault::WriteFault
    }
}
