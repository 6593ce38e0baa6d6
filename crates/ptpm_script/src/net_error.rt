//! Why a text is no network.

ghost use Rattle.std.specs.Prelude.{◌≡◌};
ghost use Rattle.ptpm_script.specs.declared.net_error.NetError.TheVariants as errors;

use ptpm_codec::OutOfMemory;
use ptpm_data::StartError;
use std::alloc::AllocError;
use std::fmt;
use thiserror::Error;

/// Why a text is no network, in the order in which the reasons are judged: the first that holds anywhere in the file.
#[derive(Clone, Copy, Debug, PartialEq, Eq, Error)]
pub enum NetError {
    /// Over 262,144 octets.
    TooLong,
    /// No TOML document.
    NotToml,
    /// A required key is missing, a key is unknown, or a value is not what its key holds.
    BadShape,
    /// Over 64 clocks, 256 sessions or 256 links, over 16 sessions with one target, or a link of under 2 or over 16 ends.
    TooMany,
    /// A name, an identity, an end or a port's number is given twice, or a session has the clockIdentity of a clock.
    Twice,
    /// A target, an end or a port is not there.
    NoSuchName,
    /// A clock can't start.
    BadClock(StartError),
    /// Memory was refused. This says nothing of the text.
    OutOfMemory,
}

/// The name, and after `BadClock` why the clock can't start.
impl fmt::Display for NetError {
    ghost use Rattle.std.specs.Prelude.{Some};
    ghost use Rattle.ptpm_script.specs.ErrorText.{net_error_text};

    ghost output = { λ e. Some (net_error_text e) };

    fn fmt<W: fmt::Write>(&self, f: &mut fmt::Formatter<W>) -> fmt::Result {
        match self {
            NetError::TooLong => f.write_str("TooLong"),
            NetError::NotToml => f.write_str("NotToml"),
            NetError::BadShape => f.write_str("BadShape"),
            NetError::TooMany => f.write_str("TooMany"),
            NetError::Twice => f.write_str("Twice"),
            NetError::NoSuchName => f.write_str("NoSuchName"),
            NetError::BadClock(fault) => write!(f, "BadClock {fault}"),
            NetError::OutOfMemory => f.write_str("OutOfMemory"),
        }
    }
}

impl From<OutOfMemory> for NetError {
    ghost from_gives = { λ _ e. e ≡ errors.OutOfMemory };

    fn from(_refused: OutOfMemory) -> NetError {
        NetError::OutOfMemory
    }
}

impl From<AllocError> for NetError {
    ghost from_gives = { λ _ e. e ≡ errors.OutOfMemory };

    fn from(_refused: AllocError) -> NetError {
        NetError::OutOfMemory
    }
}
