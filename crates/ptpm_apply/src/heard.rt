//! What is heard of a request.

/// What is heard of it.
#[derive(Clone, Copy)]
pub enum Heard {
    /// The value that is looked for.
    Wanted,
    /// Another one.
    Other,
    /// A managementErrorId.
    Refused { error: u16 },
    Silent,
    /// No message of it left in this run.
    Unsent,
}
