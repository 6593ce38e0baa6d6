//! The entries of a table, lent in the order of their managers.

ghost use Rattle.std.specs.Prelude.{◌≡◌, ◌≤◌, ◌<◌, false, ◌+◌, length, insert, slice_get, Some};
ghost use Rattle.std.specs.FinMap as fin;
ghost use Rattle.arrayvec.specs.ArrayVec.{array_vec_len};
ghost use Rattle.ptpm_codec.specs.Identity.{identity_cmp};
ghost use Rattle.ptpm_table.specs.Lending.{EntryFits, IsKeepable};
ghost use Rattle.ptpm_table.specs.Managers.{has_twice, identities};
ghost use Rattle.ptpm_table.specs.Slots.{AreKeepable, configured, used};
ghost use Rattle.ptpm_table.specs.InOrder.{AreLendable, entries_at, rank};
ghost use Rattle.ptpm_table.specs.declared.slot.Slot.{Slot};

use crate::lending::LentEntry;
use crate::managers::MOST_MANAGERS;
use crate::slot::{Slot, is_before};
use arrayvec::ArrayVec;
use ptpm_codec::PortIdentity;
use std::marker::Model;

/// The places of slots, one for each manager at most.
type Places = ArrayVec<u8, MOST_MANAGERS>;

/// The entries of a table, lent in the order of their managers. Contracts see each with its manager.
#[derive(Drop)]
pub struct LentEntries<'a> {
    slots: &'a [Slot],
    /// The places of the entries, in order of their managers.
    places: Places,
}

impl<'a> Model for LentEntries<'a> {
    ghost use Rattle.std.specs.Prelude.{List};
    ghost use Rattle.ptpm_codec.specs.declared.identity.PortIdentity.{PortIdentity};
    ghost use Rattle.ptpm_table.specs.Entries.{Entry};
    ghost use Rattle.ptpm_table.specs.InOrder.{AreLendable, entries_at};

    ghost Value = { List (PortIdentity × Entry) };

    ghost view = { λ l. entries_at l.slots.now l.places.items };

    ghost invariant = { λ l. AreLendable l.slots.now l.places.items };
}

impl<'a> LentEntries<'a> {
    /// How many there are.
    #[tactic(auto, using(crate::proofs::InOrderLaws::count_at))]
    pub fn count(&self) -> usize
        ensures count { result ≡ length self.now }
        ensures few { result ≤ MOST_MANAGERS }
    {
        self.places.len()
    }

    /// An entry, by its place from 0 on.
    pub fn entry(&self, place: usize) -> LentEntry<'a>
        requires { place < length self.now }
        ensures entry { slice_get self.now place ≡ Some (result.manager, result.entry) }
        ensures keepable { IsKeepable result.entry }
        ensures fits { EntryFits result }
    {
        let slot = self.places.as_slice()[place];
        self.slots[slot as usize].kept.entry()
    }
}

/// The entries of slots, one for each manager. Slots are taken from the last to the first. So an entry of slots that are in order
/// goes to the front after one comparison.
pub(crate) fn in_order(slots: &[Slot]) -> LentEntries<'_>
    requires distinct { has_twice (identities (configured slots.now)) ≡ false }
    requires few { length slots.now ≤ MOST_MANAGERS }
    requires keepable { AreKeepable slots.now }
    ensures { result ≡ fin.entries (fin.from_entries {R = identity_cmp} (used slots.now)) }
{
    let mut places = ArrayVec::new();
    for place in (0..slots.len()).rev() {
        if slots[place].taken {
            insert_place(&mut places, slots, place);
        }
    }
    LentEntries { slots, places }
}

/// Puts the place of a slot in its order.
fn insert_place(places: &mut Places, slots: &[Slot], place: usize)
    requires lendable { AreLendable slots.now places.old.items }
    requires place { place < length slots.now }
    requires few { length slots.now ≤ MOST_MANAGERS }
    requires room { array_vec_len places.old < MOST_MANAGERS }
    ensures places { (s : Slot) → slice_get slots.now place ≡ Some s → places.new.items
        ≡ insert places.old.items (rank s.kept.manager (entries_at slots.now places.old.items)) place }
    ensures count { array_vec_len places.new ≡ array_vec_len places.old + 1 }
{
    let at = rank(slots[place].kept.manager(), slots, places.as_slice());
    places.insert(at, place as u8);
}

/// The place at which a manager's entry belongs among these: before the first of a manager that comes after it.
fn rank(who: &PortIdentity, slots: &[Slot], places: &[u8]) -> usize
    requires { AreLendable slots.now places.now }
    ensures rank { result ≡ rank who.now (entries_at slots.now places.now) }
    ensures within { result ≤ length places.now }
{
    match places {
        [] => 0,
        [first, rest @ ..] => {
            if is_before(who, slots[*first as usize].kept.manager()) {
                0
            } else {
                1 + rank(who, slots, rest)
            }
        }
    }
}
