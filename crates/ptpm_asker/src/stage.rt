//! The stages of an asker.

/// What an asker does, or what it waits for.
#[derive(Clone, Copy, Debug, PartialEq, Eq)]
pub enum Stage {
    /// It can be asked. A request of an earlier run may be under way.
    Resting,
    /// A new session waits until no copy of an earlier one is on its way.
    Waiting,
    /// Its owner is to note that a request is begun.
    Noting,
    /// Its session is to be saved.
    Saving,
    /// The request under way is sent until it is answered.
    Asking,
    /// Its owner is to note what the answer says.
    Telling,
    /// It asks no more. What its session has under way stays in the file.
    Over,
}
