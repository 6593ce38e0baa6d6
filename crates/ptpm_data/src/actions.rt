//! Which actions an id permits.

ghost use Rattle.std.specs.Prelude.{⊤, ◌∷◌, [], codes};

use bitflags::{Flag, Flags, bitflag_items};

/// A set of GET, SET and COMMAND.
#[derive(Clone, Copy, PartialEq, Eq, Debug)]
pub struct Actions(pub u8);

bitflag_items! {
    impl Actions: u8 {
        const GET = 1;
        const SET = 2;
        const COMMAND = 4;
    }
}

impl Flags for Actions {
    type Bits = u8;

    ghost exact = { ⊤ };

    ghost table = { (codes "GET", 1) ∷ (codes "SET", 2) ∷ (codes "COMMAND", 4) ∷ [] };

    ghost set_of = { λ a. a.0 };

    fn flags<'a>() -> &'a [Flag<Actions>] {
        Actions::FLAGS
    }

    fn bits(&self) -> u8 {
        self.0
    }

    fn from_bits_retain(bits: u8) -> Actions {
        Actions(bits)
    }
}
