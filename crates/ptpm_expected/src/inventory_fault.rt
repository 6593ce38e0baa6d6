//! Why a file is no inventory.

use std::alloc::{AllocError, AllocFailed};
use std::fmt;

/// Why a file is no inventory, and in which line.
#[derive(Clone, Copy, Debug)]
pub enum InventoryFault {
    /// Memory was refused. This says nothing of the file.
    OutOfMemory,
    /// Over 16,777,216 octets.
    TooLong,
    /// Nothing but notes: the lines may have been lost, and nothing would be found by it.
    NoLine,
    /// The line of this number, counted from 1.
    At(usize, LineFault),
}

/// What is wrong with a line.
#[derive(Clone, Copy, Debug)]
pub enum LineFault {
    NotText,
    NoDomain,
    NoSdo,
    NoClock,
    NoMember,
    NotOfDomain,
    NotOfEach,
    NoPort,
    OfPort,
    OfClock,
    NoValue,
    MoreWords,
}

/// Why a line says nothing.
#[derive(Clone, Copy, Debug)]
pub(crate) enum ReadFault {
    OutOfMemory,
    Bad(LineFault),
}

impl LineFault {
    /// In words.
    fn words(self) -> &'static str {
        match self {
            LineFault::NotText => "it is no UTF-8",
            LineFault::NoDomain => "it begins with no domainNumber, 0 to 255",
            LineFault::NoSdo => "behind @ there is no sdoId, 0x0 to 0xfff",
            LineFault::NoClock => "its second word is no clockIdentity, * or -",
            LineFault::NoMember => "its third word is no member",
            LineFault::NotOfDomain => "a domain has 'grandmaster' and 'only' alone",
            LineFault::NotOfEach => "* has members alone",
            LineFault::NoPort => "its third word has no port number, 0 to 65535, after 'port/'",
            LineFault::OfPort => "the member is of a port, and 'port/N.' is not before it",
            LineFault::OfClock => "the member is not of a port, and 'port/N.' is before it",
            LineFault::NoValue => "it has no value that the member can have",
            LineFault::MoreWords => "it has more words than it may have",
        }
    }
}

impl fmt::Display for InventoryFault {
    fn fmt<W: fmt::Write>(&self, f: &mut fmt::Formatter<W>) -> fmt::Result {
        match self {
            InventoryFault::OutOfMemory => f.write_str("OutOfMemory"),
            InventoryFault::TooLong => f.write_str("it has over 16777216 octets"),
            InventoryFault::NoLine => f.write_str("it has no line"),
            InventoryFault::At(line, fault) => write!(f, "line {line}: {}", fault.words()),
        }
    }
}

impl From<AllocError> for ReadFault {
    fn from(_refused: AllocError) -> ReadFault {
        ReadFault::OutOfMemory
    }
}

impl<T: Drop> From<AllocFailed<T>> for ReadFault {
    fn from(_refused: AllocFailed<T>) -> ReadFault {
        ReadFault::OutOfMemory
    }
}

impl From<LineFault> for ReadFault {
    fn from(fault: LineFault) -> ReadFault {
        ReadFault::Bad(fault)
    }
}

impl From<AllocFailed<crate::inventory::Entry>> for InventoryFault {
    fn from(_refused: AllocFailed<crate::inventory::Entry>) -> InventoryFault {
        InventoryFault::OutOfMemory
    }
}
