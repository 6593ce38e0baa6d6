//! The calls of a journal for hosts in C, each one of `ptpm_journal`.

ghost use Rattle.std.specs.Prelude.{◌≡◌, ◌≢◌, ◌≤◌, ◌+◌, [], IfNone, IfSome, IsSomeAnd, None, Some, false, length, slice_get};
ghost use Rattle.ptpm_journal.specs.declared.error.AddError.{AddError};
ghost use Rattle.ptpm_journal.specs.declared.error.NextError.{NextError};
ghost use Rattle.ptpm_journal.specs.declared.journal.Journal.{Journal};
ghost use Rattle.ptpm_journal.specs.declared.reading.Next.{Next};
ghost use Rattle.ptpm_journal.specs.declared.record.Record.{Record};
ghost use Rattle.ptpm_journal.specs.Journal.{MayTake};
ghost use Rattle.ptpm_journal.specs.Octets.{is_short, kind_of};
ghost use Rattle.ptpm_journal.specs.Plain.{blank, entry_of, plain_of};
ghost use Rattle.ptpm_journal.specs.State.{state_of};
ghost use Rattle.ptpm_journal.specs.Turns.{IsAtEnd, IsAtStep, IsRead, IsStuck};
ghost use Rattle.ptpm_host.specs.JournalNumbers.{add_number, journal_is_whole, mark_number, next_number, no_journal};
ghost use Rattle.ptpm_host.specs.Numbers.{no_memory};
ghost use Rattle.ptpm_c.specs.declared.kept.Hosted.TheVariants.{Nothing};
ghost use Rattle.ptpm_c.specs.Held.{held};
ghost use Rattle.ptpm_c.specs.JournalHeld.{IsAdded, journal_held};

use crate::handle::{Handle, held};
use crate::kept::Hosted;
use ptpm_host::NO_MEMORY;
use ptpm_host::journal_numbers::{
    JOURNAL_IS_WHOLE, NO_JOURNAL, NO_RECORD, add_number, mark_number, next_number,
};
use ptpm_journal::{Journal, PlainRecord};
use std::alloc::Global;

/// Starts a journal without a record in a handle, in place of what it holds: 0. If there is no memory, the handle holds nothing.
#[unsafe(no_mangle)]
pub extern "C" fn ptpm_journal_start(alloc: Global, handle: &mut Handle) -> u32
    ensures started { IfSome (journal_held handle.new.keeping) (λ j. (result ≡ 0)
        × (state_of j ≡ record { head = None; steps = []; marks = []; is_ended = false }) × (j.crc ≡ 0)) }
    ensures refused { IfNone (journal_held handle.new.keeping)
        ((result ≡ no_memory) × (held handle.new.keeping ≡ Nothing)) }
{
    handle.end(alloc);
    let Ok(journal) = Box::new(alloc, Journal::new(alloc)) else {
        return NO_MEMORY;
    };
    match handle.put(alloc, Hosted::Journal(journal)) {
        Ok(()) => 0,
        Err(_) => NO_MEMORY,
    }
}

/// Takes a record with its two groups of octets: 0, and its octets are at the head of `octets`, `size` of them. If it is refused, by the
/// number of the refusal, nothing changes.
#[tactic(auto, using(crate::proofs::Numbers::not_allowed, crate::proofs::Numbers::no_record))]
#[unsafe(no_mangle)]
pub extern "C" fn ptpm_journal_add(
    handle: &mut Handle,
    plain: &PlainRecord,
    first: &[u8],
    second: &[u8],
    octets: &mut [u8],
    size: &mut usize,
) -> u32
    ensures added { (j : Journal) → journal_held handle.old.keeping ≡ Some j → result ≡ 0
        → IsSomeAnd (journal_held handle.new.keeping)
        (λ k. IsAdded j plain.now first.now second.now octets.old octets.new size.new k) }
    ensures unchanged { (j : Journal) → journal_held handle.old.keeping ≡ Some j → result ≢ 0
        → (size.new ≡ 0) × (octets.new ≡ octets.old)
        × IsSomeAnd (journal_held handle.new.keeping) (λ k. (state_of k ≡ state_of j) × (k.crc ≡ j.crc)) }
    ensures not_allowed { (j : Journal) (e : Record) → journal_held handle.old.keeping ≡ Some j
        → entry_of plain.now ≡ Some e → result ≡ add_number AddError.NotAllowed → MayTake (state_of j) e → ⊥ }
    ensures no_record { (j : Journal) (e : Record) → journal_held handle.old.keeping ≡ Some j
        → entry_of plain.now ≡ Some e → result ≡ add_number AddError.NoRecord
        → is_short (kind_of e) (length first.now) (length second.now) ≡ false }
    ensures empty { journal_held handle.old.keeping ≡ None
        → (result ≡ no_journal) × (size.new ≡ 0) × (octets.new ≡ octets.old)
        × (held handle.new.keeping ≡ held handle.old.keeping) }
{
    *size = 0;
    held!(handle, Hosted::Journal(journal), NO_JOURNAL);
    let Some(entry) = plain.entry() else {
        return NO_RECORD;
    };
    match journal.add(entry, first, second, octets) {
        Ok(made) => {
            *size = made;
            0
        }
        Err(refusal) => add_number(refusal),
    }
}

/// Takes the next record of a file: 0, or the number of the refusal; 129 if there is none that was written whole.
#[tactic(auto, using(crate::proofs::Numbers::no_memory_here))]
#[unsafe(no_mangle)]
pub extern "C" fn ptpm_journal_next(
    handle: &mut Handle,
    octets: &[u8],
    plain: &mut PlainRecord,
    size: &mut usize,
) -> u32
    ensures read { (j : Journal) → journal_held handle.old.keeping ≡ Some j → result ≡ 0
        → (n : Next) × (plain.new ≡ plain_of n) × (size.new ≡ n.lead + n.size + 6)
        × IsSomeAnd (journal_held handle.new.keeping) (λ k. IsRead (state_of j) j.crc octets.now n (state_of k) k.crc) }
    ensures within { size.new ≤ length octets.now }
    ensures whole { (j : Journal) → journal_held handle.old.keeping ≡ Some j → result ≡ journal_is_whole
        → IsAtEnd (state_of j) j.crc octets.now }
    ensures damaged { (j : Journal) → journal_held handle.old.keeping ≡ Some j → result ≡ next_number NextError.Damaged
        → IsStuck (state_of j) j.crc octets.now }
    ensures version { (j : Journal) → journal_held handle.old.keeping ≡ Some j → result ≡ next_number NextError.OtherVersion
        → IsStuck (state_of j) j.crc octets.now }
    ensures memory { (j : Journal) → journal_held handle.old.keeping ≡ Some j → result ≡ next_number NextError.OutOfMemory
        → IsAtStep (state_of j) j.crc octets.now }
    ensures unchanged { (j : Journal) → journal_held handle.old.keeping ≡ Some j → result ≢ 0
        → (plain.new ≡ blank) × (size.new ≡ 0)
        × IsSomeAnd (journal_held handle.new.keeping) (λ k. (state_of k ≡ state_of j) × (k.crc ≡ j.crc)) }
    ensures empty { journal_held handle.old.keeping ≡ None
        → (result ≡ no_journal) × (plain.new ≡ blank) × (size.new ≡ 0)
        × (held handle.new.keeping ≡ held handle.old.keeping) }
{
    *size = 0;
    *plain = PlainRecord::blank();
    held!(handle, Hosted::Journal(journal), NO_JOURNAL);
    match journal.next(octets) {
        Ok(Some(next)) => {
            *plain = PlainRecord::of_next(next);
            *size = next.lead + next.size + 6;
            0
        }
        Ok(None) => JOURNAL_IS_WHOLE,
        Err(refusal) => next_number(refusal),
    }
}

/// What the journal says of a step. Takes no memory.
#[unsafe(no_mangle)]
pub extern "C" fn ptpm_journal_mark(handle: &mut Handle, step: u16) -> u32
    ensures kept { held handle.new.keeping ≡ held handle.old.keeping }
    ensures mark { (j : Journal) → journal_held handle.old.keeping ≡ Some j
        → result ≡ mark_number (slice_get j.marks.items step) }
    ensures empty { journal_held handle.old.keeping ≡ None → result ≡ mark_number None }
{
    held!(handle, Hosted::Journal(journal), mark_number(None));
    mark_number(journal.mark_of(step))
}

/// Ends what a handle holds, if it holds anything.
#[unsafe(no_mangle)]
pub extern "C" fn ptpm_journal_stop(alloc: Global, handle: &mut Handle)
    ensures { held handle.new.keeping ≡ Nothing }
{
    handle.end(alloc);
}
