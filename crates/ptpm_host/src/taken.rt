//! What became of a datagram at a clock whose device, or whose owner, has a say, and that is saved.

use ptpm_agent::Verdict;

/// What became of a datagram.
#[derive(Clone, Copy)]
pub struct Taken {
    pub verdict: Verdict,
    /// How many messages are sent for it at once.
    pub count: usize,
    /// How many wait for a save.
    pub waiting: usize,
}
