//! Why a record is not taken.

/// Why a record is not added. The first reason that holds.
#[derive(Clone, Copy)]
pub enum AddError {
    /// A group has too many octets.
    NoRecord,
    /// No run makes this record here.
    NotAllowed,
    /// There is too little room for its octets.
    NoRoom,
    OutOfMemory,
}

/// Why no record is read.
#[derive(Clone, Copy)]
pub enum NextError {
    OtherVersion,
    /// The octets are no record that a run may make here, or the file lacks its head or a step.
    Damaged,
    OutOfMemory,
}
