//! Why a file is no plan, as a line.

use crate::file_fault::{FileFault, Place, TableFault};
use crate::places::Who;
use std::fmt;

impl fmt::Display for FileFault {
    fn fmt<W: fmt::Write>(&self, f: &mut fmt::Formatter<W>) -> fmt::Result {
        match self {
            FileFault::OutOfMemory => f.write_str("OutOfMemory"),
            FileFault::TooLong => f.write_str("it has over 262144 octets"),
            FileFault::NotToml(line, error) => write!(f, "line {line}: {}", error.message()),
            FileFault::At(place, fault) => write!(f, "{place}{fault}"),
            FileFault::TwoValues(subject) => {
                let who = Who(subject.clock, subject.port);
                write!(f, "{who} {}: two values", subject.id)
            }
        }
    }
}

/// `clock 2, port 1: `; nothing for the file itself.
impl fmt::Display for Place {
    fn fmt<W: fmt::Write>(&self, f: &mut fmt::Formatter<W>) -> fmt::Result {
        match *self {
            Place::File => Ok(()),
            Place::Clock(clock) => write!(f, "clock {}: ", counted(clock)),
            Place::Port(clock, port) => {
                let (clock, port) = (counted(clock), counted(port));
                write!(f, "clock {clock}, table {port} of its ports: ")
            }
            Place::NumberedPort(clock, port) => {
                write!(f, "clock {}, port {port}: ", counted(clock))
            }
            Place::Every(every) => write!(f, "every {}: ", counted(every)),
            Place::EveryPort(every) => write!(f, "every {}, port: ", counted(every)),
        }
    }
}

/// A place counted from 1.
fn counted(place: usize) -> usize {
    place.saturating_add(1)
}

impl fmt::Display for TableFault {
    fn fmt<W: fmt::Write>(&self, f: &mut fmt::Formatter<W>) -> fmt::Result {
        match self {
            TableFault::Version => f.write_str("version: it takes 1"),
            TableFault::NoKey(key) => write!(f, "{:?} is no key of a plan", key.as_str()),
            TableFault::UnknownKey(key) => {
                write!(f, "{:?} is neither a key nor a managementId", key.as_str())
            }
            TableFault::NotPlanned(key) => write!(f, "{} is no id that a plan sets", key.as_str()),
            TableFault::OfPort(id) => write!(f, "{id} is of a port: write it in a table port"),
            TableFault::OfClock(id) => {
                write!(f, "{id} is of the clock: write it in the clock's table")
            }
            TableFault::OneClocks => f.write_str("USER_DESCRIPTION is of one clock"),
            TableFault::NotOneName => f.write_str("it takes one of identity and description"),
            TableFault::AliasTwice(alias) => write!(f, "alias {:?} is given twice", alias.as_str()),
            TableFault::UnknownClock(name) => {
                let name = name.as_str();
                write!(f, "except: {name:?} is neither an alias nor an identity")
            }
            TableFault::Takes(key, what) => write!(f, "{key} takes {what}"),
            TableFault::IdTakes(id, what) => write!(f, "{id} takes {what}"),
            TableFault::NoMember(id, name) => write!(f, "{id} has no member {:?}", name.as_str()),
        }
    }
}
