//! What a host says to a change of several clocks.

/// What came of the latest action.
#[derive(Clone, Copy)]
pub enum Event<'a> {
    /// It begins.
    Begin,
    /// The image that a session's file has; no octets if there is no file.
    Found { image: &'a [u8] },
    /// The asker begins the step under this sequenceId.
    Begins { number: u16 },
    /// No message of the request left in this run.
    Unsent,
    /// The dataField of the clock's answer.
    Value { octets: &'a [u8] },
    /// The clock's answer is this managementErrorId.
    Refused { error: u16 },
    /// There is no answer.
    Silent,
    Done,
    /// Whether the program says that it may go on.
    Checked { passes: bool },
    /// A file could not be written.
    NotWritten,
    /// A signal came.
    Interrupted,
}
