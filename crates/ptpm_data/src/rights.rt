//! What a configured manager of a clock may change (this project's profile).

ghost use Rattle.std.specs.Prelude.{⊤, ◌∷◌, [], codes};

use bitflags::{Flag, Flags, bitflag_items};

/// A set of rights. A SET of an id of the clock needs `CLOCK_SET`, and one of an id of a port needs `PORT_SET`. A
/// COMMAND of an id of a port needs `PORT_COMMAND`, except NULL_PTP_MANAGEMENT. A GET needs none.
#[derive(Clone, Copy, PartialEq, Eq, Debug)]
pub struct Rights(pub u8);

impl Rights {
    /// No right.
    pub const NONE: Rights = Rights(0);

    /// Every right.
    pub const ALL: Rights = Rights(7);
}

bitflag_items! {
    impl Rights: u8 {
        const CLOCK_SET = 1;
        const PORT_SET = 2;
        const PORT_COMMAND = 4;
    }
}

impl Flags for Rights {
    type Bits = u8;

    ghost exact = { ⊤ };

    ghost table = { (codes "CLOCK_SET", 1) ∷ (codes "PORT_SET", 2) ∷ (codes "PORT_COMMAND", 4) ∷ [] };

    ghost set_of = { λ r. r.0 };

    fn flags<'a>() -> &'a [Flag<Rights>] {
        Rights::FLAGS
    }

    fn bits(&self) -> u8 {
        self.0
    }

    fn from_bits_retain(bits: u8) -> Rights {
        Rights(bits)
    }
}
