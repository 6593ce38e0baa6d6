//! What an asker hands out.

use ptpm_manager::Outcome;

/// What is to be done next.
#[derive(Debug, Drop)]
pub enum Output {
    Nothing,
    /// The owner notes that its request `tag` is begun under this sequence number, and then says `noted`.
    Begun {
        tag: u64,
        number: u16,
    },
    /// The session is saved, and then the owner says `saved`.
    Save,
    /// The message in the buffer is sent. At this time the asker is woken, if it is not answered before. It is the present time if a
    /// read by nobody is to follow.
    Send {
        wake_at: u64,
    },
    /// The same of a read by nobody. `unsent` is not said of it.
    Read {
        wake_at: u64,
    },
    /// The asker is woken at this time.
    WakeAt {
        time: u64,
    },
    /// The owner notes what the answer to its request says, and then says `noted`.
    Told {
        tag: u64,
        number: u16,
        outcome: Outcome,
    },
    /// There is no answer. `was_sent` is false if there was no way for any message: then a request of this run was taken back. Otherwise
    /// what is under way stays in the file. `is_read_answered` says whether the clock answered a read by nobody meanwhile.
    Failed {
        was_sent: bool,
        is_read_answered: bool,
    },
}
