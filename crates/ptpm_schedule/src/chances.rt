//! What happens by chance.

ghost use Rattle.std.specs.Prelude.{◌≡◌, ◌<◌, ◌≤◌, false, true};

use rand_core::Rng;
use rand_pcg::Pcg32;

/// The stream of the generator. Any other would do.
const STREAM: u64 = 1_588;

/// How often a network loses a message and how often it repeats one, in percent, and the seed of what is drawn.
#[derive(Clone, Copy, Debug, PartialEq, Eq)]
pub struct Chances {
    /// Of a hundred frames this many are lost: 0 to 100, and more than 100 is 100.
    pub loss: u8,
    /// Of a hundred frames that arrive this many arrive twice: 0 to 100, and more than 100 is 100.
    pub repeat: u8,
    /// The same seed draws the same.
    pub seed: u64,
}

/// What is drawn, one after another.
#[derive(Drop)]
pub(crate) struct Draws {
    generator: Pcg32,
}

impl Draws {
    pub(crate) fn new(seed: u64) -> Draws {
        Draws {
            generator: Pcg32::new(seed, STREAM),
        }
    }

    /// Whether something happens that happens in this many of a hundred cases.
    pub(crate) fn happens(&mut self, percent: u8) -> bool
        ensures never { percent ≡ 0 → result ≡ false }
        ensures always { 100 ≤ percent → result ≡ true }
    {
        self.generator.next_u32() % 100 < percent as u32
    }

    /// A place in a list of this length.
    pub(crate) fn place(&mut self, length: usize) -> usize
        requires { 0 < length }
        ensures { result < length }
    {
        (self.generator.next_u64() % length as u64) as usize
    }
}
