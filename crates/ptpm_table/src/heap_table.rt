//! A reply table in slots on the heap.

ghost use Rattle.std.specs.Prelude.{◌≡◌, ◌≢◌, ◌≤◌, false, IfErr, IfOk, Some, length, max};
ghost use Rattle.ptpm_table.specs.Managers.{IsFresh, block_refusal, has_twice, identities};

use crate::error::TableError;
use crate::managers::{MOST_MANAGERS, managers_refusal};
use crate::reply_table::ReplyTable;
use crate::slot::Slot;
use crate::slot_memory::{SlotMemory, assign, assign_blocks};
use crate::table_over::TableOver;
use ptpm_codec::{ClockIdentity, OutOfMemory, PortIdentity};
use ptpm_data::{INLINE_PORTS, Rights};
use std::alloc::Global;

/// A reply table with as many slots as the clock has managers, in one block of memory. It is taken when the table is made, and so
/// are two blocks for each slot of a clock of more than `INLINE_PORTS` ports. A table without managers takes none. Besides, the
/// table has 40 octets.
pub type HeapTable = TableOver<Vec<Slot>>;

const _: () = prove!(size_of::<HeapTable>() == 40);

const _: () = prove!(size_of::<Slot>() == 2_144);

impl HeapTable {
    /// A table without entries, of this clock and these managers. At most `MOST_MANAGERS` managers, and each identity
    /// once. Memory is asked for last.
    pub fn new(
        alloc: Global,
        clock: ClockIdentity,
        managers: &[(PortIdentity, Rights)],
    ) -> Result<HeapTable, TableError>
        ensures fresh { IfOk result (λ t. IsFresh clock managers.now
            (⟦<HeapTable as ReplyTable>⟧.owner t) (⟦<HeapTable as ReplyTable>⟧.entries t)) }
        ensures refused { (e : TableError)
            → block_refusal (identities managers.now) ≡ Some e
            → result ≡ Err e }
        ensures no_other { IfErr result
            (λ e. e ≢ TableError.OutOfMemory → block_refusal (identities managers.now) ≡ Some e) }
    {
        if let Some(error) = managers_refusal(managers) {
            return Err(error);
        }
        match HeapTable::of_judged(alloc, clock, INLINE_PORTS as u16, managers) {
            Ok(table) => Ok(table),
            Err(_) => Err(TableError::OutOfMemory),
        }
    }

    /// What `new` does, for managers of whom it refuses none, and for a clock of this many ports. So want of memory is the only
    /// refusal.
    pub fn of_judged(
        alloc: Global,
        clock: ClockIdentity,
        ports: u16,
        managers: &[(PortIdentity, Rights)],
    ) -> Result<HeapTable, OutOfMemory>
        requires few { length managers.now ≤ MOST_MANAGERS }
        requires distinct { has_twice (identities managers.now) ≡ false }
        ensures fresh { IfOk result (λ t. IsFresh clock managers.now
            (⟦<HeapTable as ReplyTable>⟧.owner t) (⟦<HeapTable as ReplyTable>⟧.entries t)) }
        ensures most { IfOk result (λ t. ⟦<HeapTable as ReplyTable>⟧.most t ≡ max INLINE_PORTS ports) }
    {
        if ports <= INLINE_PORTS as u16 {
            HeapTable::of_few_ports(alloc, clock, managers)
        } else {
            HeapTable::of_many_ports(alloc, clock, ports, managers)
        }
    }

    fn of_few_ports(
        alloc: Global,
        clock: ClockIdentity,
        managers: &[(PortIdentity, Rights)],
    ) -> Result<HeapTable, OutOfMemory>
        requires few { length managers.now ≤ MOST_MANAGERS }
        requires distinct { has_twice (identities managers.now) ≡ false }
        ensures fresh { IfOk result (λ t. IsFresh clock managers.now
            (⟦<HeapTable as ReplyTable>⟧.owner t) (⟦<HeapTable as ReplyTable>⟧.entries t)) }
        ensures most { IfOk result (λ t. ⟦<HeapTable as ReplyTable>⟧.most t ≡ INLINE_PORTS) }
    {
        let Ok(mut slots) = Vec::with_capacity(alloc, managers.len()) else {
            return Err(OutOfMemory);
        };
        assign(&mut slots, &clock, managers);
        Ok(TableOver {
            clock,
            slots,
            answers: INLINE_PORTS as u16,
        })
    }

    fn of_many_ports(
        alloc: Global,
        clock: ClockIdentity,
        ports: u16,
        managers: &[(PortIdentity, Rights)],
    ) -> Result<HeapTable, OutOfMemory>
        requires few { length managers.now ≤ MOST_MANAGERS }
        requires distinct { has_twice (identities managers.now) ≡ false }
        requires many { INLINE_PORTS ≤ ports }
        ensures fresh { IfOk result (λ t. IsFresh clock managers.now
            (⟦<HeapTable as ReplyTable>⟧.owner t) (⟦<HeapTable as ReplyTable>⟧.entries t)) }
        ensures most { IfOk result (λ t. ⟦<HeapTable as ReplyTable>⟧.most t ≡ ports) }
    {
        let Ok(mut slots) = Vec::with_capacity(alloc, managers.len()) else {
            return Err(OutOfMemory);
        };
        assign_blocks(alloc, &mut slots, &clock, managers, ports)?;
        Ok(TableOver {
            clock,
            slots,
            answers: ports,
        })
    }
}

impl SlotMemory for Vec<Slot> {
    ghost use Rattle.std.specs.Prelude.{◌-◌, length};
    ghost use Rattle.std.specs.Vec.{vec_capacity, with_items};
    ghost use Rattle.ptpm_table.specs.SlotMemory.{block_spare, block_written};

    ghost slots = { λ v. v.items };

    ghost written = { with_items };

    ghost room = { vec_capacity };

    ghost spare = { λ v. vec_capacity v - length v.items };

    ghost written_slots = { block_written };

    ghost written_spare = { block_spare };

    #[inline(always)]
    fn slots(&self) -> &[Slot] {
        self.as_slice()
    }

    #[inline(always)]
    fn slots_mut(&mut self) -> &mut [Slot] {
        self.as_mut_slice()
    }

    #[inline(always)]
    fn add(&mut self, slot: Slot) {
        self.push_reserved(slot);
    }
}
