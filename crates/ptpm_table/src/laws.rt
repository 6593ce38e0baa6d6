//! Laws of the definitions, each the contract of a function that does nothing.

ghost use Rattle.std.specs.Prelude.{◌≡◌, ◌%◌, ℕ};
ghost use Rattle.ptpm_table.specs.Serial.{InWindow, order_of, serial_of};

/// Numbers of 16 bits are distinguished as their indexes are. Of two indexes in the window, the numbers modulo 65,536 are
/// the same, newer or older exactly if the indexes are.
#[tactic(auto, using(crate::proofs::SerialLaws::serial_in_window))]
pub fn serial_order()
    ensures { (greatest index : ℕ) → InWindow greatest index →
        serial_of (greatest % 65536) (index % 65536) ≡ order_of greatest index }
{}
