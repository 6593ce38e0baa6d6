//! The memory that the slots of a table lie in.

ghost use Rattle.std.specs.Prelude.{◌≡◌, ◌≤◌, ℕ, [], All, OnOk, length};
ghost use Rattle.ptpm_table.specs.Slots.{AreKeepable, HaveFew, HaveRoom, clocks, configured, used};

use crate::kept_octets::KeptOctets;
use crate::slot::Slot;
use ptpm_codec::{ClockIdentity, OutOfMemory, PortIdentity};
use ptpm_data::{INLINE_PORTS, Rights};
use std::alloc::Global;

/// Memory with slots in it, one for each manager of a table: an array in the value, or a block on the heap. It lends them.
pub trait SlotMemory {
    ghost use Rattle.std.specs.Prelude.{◌≡◌, ◌<◌, ◌++◌, ◌∷◌, [], ℕ, List, length};
    ghost use Rattle.std.specs.Borrow.{sem};
    ghost use Rattle.ptpm_table.specs.SlotMemory.{LendsSlots};
    ghost use Rattle.ptpm_table.specs.declared.slot.Slot.{Slot};

    /// The slots in it.
    ghost slots: { Self → List Slot };

    /// It, after as many slots were written over its own.
    ghost written: { Self → List Slot → Self };

    /// How many slots it has room for.
    ghost room: { Self → ℕ };

    /// How many more slots it has of the heap than there are.
    ghost spare: { Self → ℕ };

    /// The slots.
    fn slots(&self) -> &[Slot]
        ensures { result.now ≡ slots self.now };

    /// The slots, to be written.
    fn slots_mut(&mut self) -> &mut [Slot]
        ensures* writes_back { sem 𝓛 (LendsSlots Self.row (written self.old) self.entry result) }
        ensures value { result.now ≡ slots self.old };

    /// Adds a slot after them.
    fn add(&mut self, slot: Slot)
        requires { length (slots self.old) < room self.old }
        ensures slots { slots self.new ≡ slots self.old ++ slot ∷ [] }
        ensures room { room self.new ≡ room self.old };

    ghost written_slots: { (m : Self) (ss : List Slot) → length ss ≡ length (slots m) → slots (written m ss) ≡ ss };

    ghost written_spare: { (m : Self) (ss : List Slot) → length ss ≡ length (slots m) → spare (written m ss) ≡ spare m };
}

/// Puts a slot without an entry for each manager into memory that has none.
pub(crate) fn assign<M: SlotMemory>(
    memory: &mut M,
    clock: &ClockIdentity,
    managers: &[(PortIdentity, Rights)],
)
    requires empty { M.slots memory.old ≡ [] }
    requires room { length managers.now ≤ M.room memory.old }
    ensures own { All (λ c. c ≡ clock.now) (clocks (M.slots memory.new)) }
    ensures keepable { AreKeepable (M.slots memory.new) }
    ensures few { (most : ℕ) → HaveFew most (M.slots memory.new) }
    ensures rooms { HaveRoom INLINE_PORTS (M.slots memory.new) }
    ensures configured { configured (M.slots memory.new) ≡ managers.now }
    ensures used { used (M.slots memory.new) ≡ [] }
    ensures room { M.room memory.new ≡ M.room memory.old }
{
    for manager in managers {
        memory.add(Slot::unused(clock, manager, KeptOctets::new()));
    }
}

/// Does what `assign` does, with room for the messages of this many answers in blocks of memory. If memory is refused, some slots
/// are missing.
pub(crate) fn assign_blocks<M: SlotMemory>(
    alloc: Global,
    memory: &mut M,
    clock: &ClockIdentity,
    managers: &[(PortIdentity, Rights)],
    answers: u16,
) -> Result<(), OutOfMemory>
    requires empty { M.slots memory.old ≡ [] }
    requires room { length managers.now ≤ M.room memory.old }
    requires many { INLINE_PORTS ≤ answers }
    ensures own { OnOk result (All (λ c. c ≡ clock.now) (clocks (M.slots memory.new))) }
    ensures keepable { OnOk result (AreKeepable (M.slots memory.new)) }
    ensures few { OnOk result ((most : ℕ) → HaveFew most (M.slots memory.new)) }
    ensures rooms { OnOk result (HaveRoom answers (M.slots memory.new)) }
    ensures configured { OnOk result (configured (M.slots memory.new) ≡ managers.now) }
    ensures used { OnOk result (used (M.slots memory.new) ≡ []) }
    ensures room { M.room memory.new ≡ M.room memory.old }
{
    for manager in managers {
        let reply = KeptOctets::in_blocks(alloc, answers as usize)?;
        memory.add(Slot::unused(clock, manager, reply));
    }
    Ok(())
}
