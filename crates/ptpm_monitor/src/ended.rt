//! Why there are no more looks.

use ptpm_commands::Fault;
use std::alloc::{AllocError, AllocFailed};
use std::io;

/// Why there are no more looks.
#[derive(Clone, Copy, Debug)]
pub(crate) enum Ended {
    /// The host says no more, or not what it was asked.
    Host,
    Fault(Fault),
}

impl From<Fault> for Ended {
    fn from(fault: Fault) -> Ended {
        Ended::Fault(fault)
    }
}

impl From<AllocError> for Ended {
    fn from(_: AllocError) -> Ended {
        Ended::Fault(Fault::OutOfMemory)
    }
}

impl<T: Drop> From<AllocFailed<T>> for Ended {
    fn from(_: AllocFailed<T>) -> Ended {
        Ended::Fault(Fault::OutOfMemory)
    }
}

impl From<io::Error> for Ended {
    fn from(error: io::Error) -> Ended {
        Ended::Fault(match error.kind() {
            io::ErrorKind::OutOfMemory => Fault::OutOfMemory,
            _ => Fault::WriteFault,
        })
    }
}
