//! A reply table in fixed slots.

ghost use Rattle.std.specs.Prelude.{◌≡◌, ◌≤◌, [], false, IfOk, MatchResult, None, Some, length};
ghost use Rattle.ptpm_table.specs.Managers.{IsFresh, has_twice, identities, most_managers, slots_refusal, table_refusal};

use crate::error::TableError;
use crate::managers::{MANAGERS, refusal};
use crate::reply_table::ReplyTable;
use crate::slot::Slot;
use crate::slot_memory::{SlotMemory, assign};
use crate::table_over::TableOver;
use arrayvec::ArrayVec;
use ptpm_codec::{ClockIdentity, PortIdentity};
use ptpm_data::{INLINE_PORTS, Rights};

/// A reply table with this many slots inside the value. A clock has sixteen managers at most (this project's profile), so slots past
/// the sixteenth stay empty. The table has 24 octets besides. It takes no memory.
pub type SlotTable<const SLOTS: usize> = TableOver<ArrayVec<Slot, SLOTS>>;

/// A table of sixteen slots, as many as a clock has managers at most.
pub type BoundTable = SlotTable<MANAGERS>;

const _: () = prove!(size_of::<BoundTable>() == 34_328);

const _: () = prove!(size_of::<SlotTable<1>>() == 2_168);

impl SlotTable<MANAGERS> {
    /// A table without entries, of this clock and these managers. At most sixteen managers, and each identity once.
    pub fn new(
        clock: ClockIdentity,
        managers: &[(PortIdentity, Rights)],
    ) -> Result<BoundTable, TableError>
        ensures fresh { IfOk result (λ t. IsFresh clock managers.now
            (⟦<BoundTable as ReplyTable>⟧.owner t) (⟦<BoundTable as ReplyTable>⟧.entries t)) }
        ensures refusal { MatchResult result
            (λ _. table_refusal (identities managers.now) ≡ None)
            (λ e. table_refusal (identities managers.now) ≡ Some e) }
    {
        SlotTable::of_size(clock, managers)
    }
}

impl<const SLOTS: usize> SlotTable<SLOTS> {
    /// A table without entries, of this clock and these managers. `TooMany` if they are more than the slots, or more than
    /// sixteen however many slots there are; then `Twice` if an identity is listed twice. Takes no memory: the table has 24
    /// octets, and 2,144 for each slot, used or not.
    pub fn of_size(
        clock: ClockIdentity,
        managers: &[(PortIdentity, Rights)],
    ) -> Result<SlotTable<SLOTS>, TableError>
        ensures fresh { IfOk result (λ t. IsFresh clock managers.now
            (⟦<SlotTable<SLOTS> as ReplyTable>⟧.owner t) (⟦<SlotTable<SLOTS> as ReplyTable>⟧.entries t)) }
        ensures refusal { MatchResult result
            (λ _. slots_refusal SLOTS (identities managers.now) ≡ None)
            (λ e. slots_refusal SLOTS (identities managers.now) ≡ Some e) }
    {
        match refusal(managers, SLOTS) {
            Some(error) => Err(error),
            None => {
                let mut table = SlotTable::without_managers(clock);
                table.admit(managers);
                Ok(table)
            }
        }
    }

    /// A table of this clock that has no managers yet.
    #[inline(always)]
    pub fn without_managers(clock: ClockIdentity) -> SlotTable<SLOTS>
        ensures most { ⟦<SlotTable<SLOTS> as ReplyTable>⟧.most result ≡ INLINE_PORTS }
        ensures fresh { IsFresh clock [] (⟦<SlotTable<SLOTS> as ReplyTable>⟧.owner result)
            (⟦<SlotTable<SLOTS> as ReplyTable>⟧.entries result) }
    {
        TableOver {
            clock,
            slots: ArrayVec::new(),
            answers: INLINE_PORTS as u16,
        }
    }

    /// Gives a table without managers these, in place. `of_size` would take them: at most as many as slots, sixteen
    /// at most, and each identity once.
    pub fn admit(&mut self, managers: &[(PortIdentity, Rights)])
        requires none { (⟦<SlotTable<SLOTS> as ReplyTable>⟧.owner self.old).managers ≡ [] }
        requires few { length managers.now ≤ most_managers SLOTS }
        requires distinct { has_twice (identities managers.now) ≡ false }
        requires most { ⟦<SlotTable<SLOTS> as ReplyTable>⟧.most self.old ≡ INLINE_PORTS }
        ensures most { ⟦<SlotTable<SLOTS> as ReplyTable>⟧.most self.new ≡ INLINE_PORTS }
        ensures fresh { IsFresh (⟦<SlotTable<SLOTS> as ReplyTable>⟧.owner self.old).identity managers.now
            (⟦<SlotTable<SLOTS> as ReplyTable>⟧.owner self.new)
            (⟦<SlotTable<SLOTS> as ReplyTable>⟧.entries self.new) }
    {
        let clock = self.clock;
        assign(&mut self.slots, &clock, managers);
    }
}

impl<const SLOTS: usize> SlotMemory for ArrayVec<Slot, SLOTS> {
    ghost use Rattle.arrayvec.specs.ArrayVec.{with_items};
    ghost use Rattle.ptpm_table.specs.SlotMemory.{array_spare, array_written};

    ghost slots = { λ a. a.items };

    ghost written = { with_items };

    ghost room = { λ a. SLOTS };

    ghost spare = { λ a. 0 };

    ghost written_slots = { array_written };

    ghost written_spare = { array_spare };

    #[inline(always)]
    fn slots(&self) -> &[Slot] {
        self.as_slice()
    }

    #[inline(always)]
    fn slots_mut(&mut self) -> &mut [Slot] {
        self.as_mut_slice()
    }

    #[inline(always)]
    fn add(&mut self, slot: Slot) {
        self.push(slot);
    }
}
