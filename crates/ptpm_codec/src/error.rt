//! Why a datagram is refused, and the errors that messages name.

use std::fmt;
use thiserror::Error;

/// Memory was asked for and refused.
#[derive(Clone, Copy, Debug, PartialEq, Eq, Error)]
pub struct OutOfMemory;

/// The name.
impl fmt::Display for OutOfMemory {
    ghost use Rattle.std.specs.Prelude.{Some};
    ghost use Rattle.ptpm_codec.specs.ErrorText.{out_of_memory_text};

    ghost output = { λ _. Some out_of_memory_text };

    fn fmt<W: fmt::Write>(&self, f: &mut fmt::Formatter<W>) -> fmt::Result {
        f.write_str("OutOfMemory")
    }
}

/// Why a datagram holds no management message, in the order in which the reasons are judged.
#[derive(Clone, Copy, Debug, PartialEq, Eq, Error)]
pub enum DecodeError {
    /// Under 54 octets, which a management message has at least.
    TooShort,
    /// messageType is not 0xD (13.3.2.3).
    NotManagement,
    /// versionPTP is not 2 (13.3.2.5).
    BadVersion,
    /// messageLength is under 54, over the datagram, or over 1,472 (13.3.2.6; the last is this project's profile).
    BadLength,
    /// actionField is over 4 (15.4.1.6).
    BadAction,
    /// tlvType is neither MANAGEMENT nor, in an answer, MANAGEMENT_ERROR_STATUS (14.1.1).
    BadTlvType,
    /// lengthField is odd, too small for its TLV, or does not end where the message ends (14.1.1).
    BadTlvLength,
    /// displayData is there, and is not one PTPText with its pad (5.3.9, 15.5.4.4).
    BadText,
    /// Memory for the value was refused. This says nothing of the datagram.
    OutOfMemory,
}

/// The name, for example `TooShort`.
impl fmt::Display for DecodeError {
    ghost use Rattle.std.specs.Prelude.{Some};
    ghost use Rattle.ptpm_codec.specs.ErrorText.{refusal_text};

    ghost output = { λ e. Some (refusal_text e) };

    fn fmt<W: fmt::Write>(&self, f: &mut fmt::Formatter<W>) -> fmt::Result {
        f.write_str(match self {
            DecodeError::TooShort => "TooShort",
            DecodeError::NotManagement => "NotManagement",
            DecodeError::BadVersion => "BadVersion",
            DecodeError::BadLength => "BadLength",
            DecodeError::BadAction => "BadAction",
            DecodeError::BadTlvType => "BadTlvType",
            DecodeError::BadTlvLength => "BadTlvLength",
            DecodeError::BadText => "BadText",
            DecodeError::OutOfMemory => "OutOfMemory",
        })
    }
}

/// A managementErrorId that the standard names (15.5.4.3).
#[derive(Clone, Copy, Debug, PartialEq, Eq)]
pub enum ErrorId {
    ResponseTooBig,
    NoSuchId,
    WrongLength,
    WrongValue,
    NotSetable,
    NotSupported,
    GeneralError,
}

impl ErrorId {
    ghost use Rattle.std.specs.Prelude.{◌≡◌, IfSome, Some};
    ghost use Rattle.ptpm_codec.specs.Message.{error_number};
    ghost use Rattle.ptpm_codec.specs.declared.error.ErrorId.{ErrorId};

    /// Its number.
    pub fn number(self) -> u16
        ensures { result ≡ error_number self }
    {
        match self {
            ErrorId::ResponseTooBig => 0x0001,
            ErrorId::NoSuchId => 0x0002,
            ErrorId::WrongLength => 0x0003,
            ErrorId::WrongValue => 0x0004,
            ErrorId::NotSetable => 0x0005,
            ErrorId::NotSupported => 0x0006,
            ErrorId::GeneralError => 0xfffe,
        }
    }

    /// The named error of a number, if it is one.
    pub fn from_number(number: u16) -> Option<ErrorId>
        ensures named { IfSome result (λ e. error_number e ≡ number) }
        ensures found { (e : ErrorId) → error_number e ≡ number → result ≡ Some e }
    {
        match number {
            0x0001 => Some(ErrorId::ResponseTooBig),
            0x0002 => Some(ErrorId::NoSuchId),
            0x0003 => Some(ErrorId::WrongLength),
            0x0004 => Some(ErrorId::WrongValue),
            0x0005 => Some(ErrorId::NotSetable),
            0x0006 => Some(ErrorId::NotSupported),
            0xfffe => Some(ErrorId::GeneralError),
            _ => None,
        }
    }
}

/// The standard's name, for example `NO_SUCH_ID`.
impl fmt::Display for ErrorId {
    ghost use Rattle.std.specs.Prelude.{Some};
    ghost use Rattle.ptpm_codec.specs.Message.{error_name};

    ghost output = { λ e. Some (error_name e) };

    fn fmt<W: fmt::Write>(&self, f: &mut fmt::Formatter<W>) -> fmt::Result {
        f.write_str(match self {
            ErrorId::ResponseTooBig => "RESPONSE_TOO_BIG",
            ErrorId::NoSuchId => "NO_SUCH_ID",
            ErrorId::WrongLength => "WRONG_LENGTH",
            ErrorId::WrongValue => "WRONG_VALUE",
            ErrorId::NotSetable => "NOT_SETABLE",
            ErrorId::NotSupported => "NOT_SUPPORTED",
            ErrorId::GeneralError => "GENERAL_ERROR",
        })
    }
}
