//! A journal: it takes only the records that a run may make, and gives and reads their octets.

ghost use Rattle.std.specs.Prelude.{◌≡◌, length};

use crate::ending::may_end;
use crate::error::{AddError, NextError};
use crate::framing::{Frame, RECORD_OCTETS, crc_after, frame_at, framed};
use crate::marking::{is_allowed, mark};
use crate::order::{MOVES, next_step};
use crate::reading::{Found, Next, found_in, is_short};
use crate::record::{Head, Mark, Note, Record, Step};
use crate::torn::may_be_torn;
use crate::writing::{VERSION, body_of, kind_of};
use ptpm_codec::OutOfMemory;
use std::alloc::Global;

/// The flag of a head whose steps come one after the other, in one row.
const IN_ONE_ROW: u8 = 2;

/// What the file of a journal begins with.
const MARK: [u8; 4] = *b"PTPJ";

/// What the records say that it has taken.
#[derive(Drop)]
pub struct Journal {
    head: Option<Head>,
    steps: Vec<Step>,
    marks: Vec<Mark>,
    is_ended: bool,
    /// The CRC-32 of all records.
    pub crc: u32,
    ghost as_many: { length steps.items ≡ length marks.items },
}

impl Journal {
    ghost use Rattle.std.specs.Prelude.{◌≢◌, ◌≤◌, ◌<◌, ◌+◌, ◌++◌, ◌∷◌, [], ℕ, Err, IfNone, IfOk, IfSome, IsErr, IsSomeAnd, IsTrue, None, Ok, OnErr, OnOk, Some, drop, false, slice_get, true};
    ghost use Rattle.ptpm_journal.specs.declared.record.Mark.{Mark};
    ghost use Rattle.ptpm_journal.specs.Order.{IsAllowedAt, MayBegin, marked};
    ghost use Rattle.ptpm_journal.specs.Journal.{MayTake, State, goes_on, has_all, is_in_one_row, is_step, lacks_step, placed, taken};
    ghost use Rattle.ptpm_journal.specs.State.{state_of};
    ghost use Rattle.ptpm_journal.specs.declared.error.AddError.{AddError};
    ghost use Rattle.ptpm_journal.specs.declared.error.NextError.{NextError};
    ghost use Rattle.ptpm_journal.specs.declared.framing.Frame.{Frame};
    ghost use Rattle.ptpm_journal.specs.declared.reading.Found.{Found};
    ghost use Rattle.ptpm_journal.specs.declared.reading.Next.{Next};
    ghost use Rattle.ptpm_journal.specs.Frames.{counted, crc_after, frame_at, framed};
    ghost use Rattle.ptpm_journal.specs.Octets.{body_of, found_in, is_short, kind_of};
    ghost use Rattle.ptpm_journal.specs.Turns.{IsAtEnd, IsAtStep, IsRead, IsStuck, lead_in, lead_of};

    /// Without a record. Takes no memory.
    pub fn new(alloc: Global) -> Journal
        ensures state { state_of result ≡ record { head = None; steps = []; marks = []; is_ended = false } }
        ensures crc { result.crc ≡ 0 }
    {
        Journal {
            head: None,
            steps: Vec::new(alloc),
            marks: Vec::new(alloc),
            is_ended: false,
            crc: 0,
        }
    }

    /// Whether the head and all steps are there.
    pub fn has_all(&self) -> bool
        ensures yes { result ≡ has_all self.now.head self.now.steps.items }
        ensures few { IsTrue result → length self.now.steps.items ≤ 65535 }
    {
        match &self.head {
            Some(head) => self.steps.len() == usize::from(head.count),
            None => false,
        }
    }

    fn lacks_step(&self) -> bool
        ensures { result ≡ lacks_step self.now.head self.now.steps.items }
    {
        match &self.head {
            Some(head) => self.steps.len() < usize::from(head.count),
            None => false,
        }
    }

    fn goes_on(&self) -> bool
        ensures { result ≡ goes_on (state_of self.now) }
    {
        self.has_all() && !self.is_ended
    }

    /// Whether a run may make a record now. Takes no memory.
    pub fn may_take(&self, entry: Record) -> bool
        ensures yes { IsTrue result → MayTake (state_of self.now) entry }
        ensures no { MayTake (state_of self.now) entry → result ≡ true }
    {
        match entry {
            Record::Head { .. } => self.head.is_none(),
            Record::Step { .. } => self.lacks_step(),
            Record::Note { note, .. } => self.goes_on() && self.allows(note),
            Record::Policy { .. } => self.goes_on(),
            Record::End { ending, step, .. } => {
                self.goes_on() && may_end(self.marks.as_slice(), ending, step)
            }
            Record::Text { .. } => self.goes_on(),
        }
    }

    fn allows(&self, note: Note) -> bool
        ensures yes { IsTrue result → IsAllowedAt self.now.steps.items self.now.marks.items note }
        ensures no { IsAllowedAt self.now.steps.items self.now.marks.items note → result ≡ true }
    {
        is_allowed(self.steps.as_slice(), self.marks.as_slice(), note)
    }

    /// Takes a record that a run may make now. If memory is refused, nothing changes.
    pub fn put(&mut self, entry: Record) -> Result<(), OutOfMemory>
        requires { MayTake (state_of self.old) entry }
        ensures taken { OnOk result (state_of self.new ≡ taken (state_of self.old) entry) }
        ensures unchanged { OnErr result (state_of self.new ≡ state_of self.old) }
        ensures memory { OnErr result (is_step entry ≡ true) }
        ensures crc { self.new.crc ≡ self.old.crc }
    {
        match entry {
            Record::Head { head } => self.head = Some(head),
            Record::Step { step, .. } => self.put_step(step)?,
            Record::Note { note, .. } => self.put_note(note),
            Record::End { .. } => self.is_ended = true,
            Record::Policy { .. } | Record::Text { .. } => {}
        }
        Ok(())
    }

    fn put_note(&mut self, note: Note)
        requires { IsAllowedAt self.old.steps.items self.old.marks.items note }
        ensures taken { state_of self.new ≡ record (state_of self.old) { marks = marked note self.old.marks.items } }
        ensures crc { self.new.crc ≡ self.old.crc }
    {
        let _ = mark(self.steps.as_slice(), self.marks.as_mut_slice(), note);
    }

    fn put_step(&mut self, step: Step) -> Result<(), OutOfMemory>
        ensures taken { OnOk result (state_of self.new ≡ record (state_of self.old) {
          steps = self.old.steps.items ++ placed self.old.head step ∷ [];
          marks = self.old.marks.items ++ Mark.Untouched ∷ [];
        }) }
        ensures unchanged { OnErr result (state_of self.new ≡ state_of self.old) }
        ensures crc { self.new.crc ≡ self.old.crc }
    {
        let step = self.placed(step);
        if self.steps.push(step).is_err() {
            return Err(OutOfMemory);
        }
        if self.marks.push(Mark::Untouched).is_err() {
            self.steps.pop();
            return Err(OutOfMemory);
        }
        Ok(())
    }

    /// In one row each step counts as one of the last group, which comes after all before it.
    fn placed(&self, step: Step) -> Step
        ensures { result ≡ placed self.now.head step }
    {
        match &self.head {
            Some(head) if head.policy.flags / IN_ONE_ROW % 2 == 1 => Step {
                clock: step.clock,
                domain: step.domain,
                group: MOVES,
            },
            _ => step,
        }
    }

    /// What it says of a step. Takes no memory.
    pub fn mark_of(&self, step: u16) -> Option<Mark>
        ensures { result ≡ slice_get self.now.marks.items step }
    {
        self.marks.as_slice().get(usize::from(step)).copied()
    }

    /// The first step that may be begun now. Takes no memory.
    pub fn next_step(&self) -> Option<usize>
        ensures found { IfSome result (λ place. (goes_on (state_of self.now) ≡ true)
            × MayBegin self.now.steps.items self.now.marks.items place) }
        ensures first { IfSome result (λ place. (earlier : ℕ) → earlier < place
            → MayBegin self.now.steps.items self.now.marks.items earlier → ⊥) }
        ensures none { IfNone result ((place : ℕ) → goes_on (state_of self.now) ≡ true
            → MayBegin self.now.steps.items self.now.marks.items place → ⊥) }
    {
        if !self.goes_on() {
            return None;
        }
        next_step(self.steps.as_slice(), self.marks.as_slice())
    }

    /// Takes a record with its two groups of octets, and leaves its octets at the head of `octets`: how many they are. If it is refused,
    /// nothing changes. Only a step asks for memory.
    pub fn add(
        &mut self,
        entry: Record,
        first: &[u8],
        second: &[u8],
        octets: &mut [u8],
    ) -> Result<usize, AddError>
        ensures taken { OnOk result (MayTake (state_of self.old) entry
            × (state_of self.new ≡ taken (state_of self.old) entry)) }
        ensures crc { OnOk result (self.new.crc ≡ crc_after self.old.crc (counted (body_of entry first.now second.now))) }
        ensures octets { IfOk result (λ n. octets.new
            ≡ (lead_of self.old.head ++ framed self.old.crc (body_of entry first.now second.now)) ++ drop n octets.old) }
        ensures size { IfOk result (λ n. n
            ≡ length (lead_of self.old.head ++ framed self.old.crc (body_of entry first.now second.now))) }
        ensures not_allowed { result ≡ Err AddError.NotAllowed → MayTake (state_of self.old) entry → ⊥ }
        ensures no_record { result ≡ Err AddError.NoRecord
            → is_short (kind_of entry) (length first.now) (length second.now) ≡ false }
        ensures no_room { result ≡ Err AddError.NoRoom → length octets.old
            < length (lead_of self.old.head ++ framed self.old.crc (body_of entry first.now second.now)) }
        ensures ample { result ≡ Err AddError.NoRoom → length octets.old < RECORD_OCTETS }
        ensures memory { result ≡ Err AddError.OutOfMemory → is_step entry ≡ true }
        ensures unchanged { OnErr result ((state_of self.new ≡ state_of self.old)
            × (self.new.crc ≡ self.old.crc) × (octets.new ≡ octets.old)) }
    {
        if !is_short(kind_of(entry), first.len(), second.len()) {
            return Err(AddError::NoRecord);
        }
        if !self.may_take(entry) {
            return Err(AddError::NotAllowed);
        }
        let body = body_of(entry, first, second);
        let (made, after) = framed(self.lead(), self.crc, body.as_slice());
        if octets.len() < made.len() {
            return Err(AddError::NoRoom);
        }
        if self.put(entry).is_err() {
            return Err(AddError::OutOfMemory);
        }
        self.crc = after;
        octets[..made.len()].copy_from_slice(made.as_slice());
        Ok(made.len())
    }

    /// What a file has before its head.
    fn lead(&self) -> &'static [u8]
        ensures octets { result.now ≡ lead_of self.now.head }
        ensures small { length result.now ≤ 4 }
    {
        match &self.head {
            None => &MARK,
            Some(_) => &[],
        }
    }

    /// Takes the next record of a file. `None` if there is none that was written whole, and the head and all steps are there. If it is refused,
    /// nothing changes.
    pub fn next(&mut self, octets: &[u8]) -> Result<Option<Next>, NextError>
        ensures read { IfOk result (λ o. IfSome o
            (λ n. IsRead (state_of self.old) self.old.crc octets.now n (state_of self.new) self.new.crc)) }
        ensures whole { IfOk result (λ o. IfNone o (IsAtEnd (state_of self.old) self.old.crc octets.now
            × (state_of self.new ≡ state_of self.old) × (self.new.crc ≡ self.old.crc))) }
        ensures few { IfOk result (λ o. IfNone o (length self.new.steps.items ≤ 65535)) }
        ensures within { IfOk result (λ o. IfSome o (λ n. (n.lead ≤ 4) × (n.lead + n.size + 6 ≤ length octets.now)
            × (n.size < 65536) × (n.found.first + n.found.first_size ≤ n.size) × (n.found.second + n.found.second_size ≤ n.size))) }
        ensures refused { IsErr result → result ≢ Err NextError.OutOfMemory
            → IsStuck (state_of self.old) self.old.crc octets.now }
        ensures memory { result ≡ Err NextError.OutOfMemory → IsAtStep (state_of self.old) self.old.crc octets.now }
        ensures unchanged { OnErr result ((state_of self.new ≡ state_of self.old) × (self.new.crc ≡ self.old.crc)) }
    {
        let lead = self.lead_in(octets)?;
        let rest = &octets[lead..];
        match frame_at(self.crc, rest) {
            Frame::Torn if self.has_all() && may_be_torn(rest) => Ok(None),
            Frame::Whole { size } => {
                let found = self.take_counted(&rest[..size + 2])?;
                Ok(Some(Next { found, lead, size }))
            }
            _ => Err(NextError::Damaged),
        }
    }

    /// How many octets come before the next record.
    fn lead_in(&self, octets: &[u8]) -> Result<usize, NextError>
        ensures lead { result ≡ lead_in self.now.head octets.now }
        ensures within { IfOk result (λ n. (n ≤ 4) × (n ≤ length octets.now)) }
    {
        if self.head.is_some() {
            return Ok(0);
        }
        if octets.len() >= 4 && octets[..4] == MARK[..] {
            return Ok(4);
        }
        if octets.is_empty() || octets[0] == MARK[0] {
            return Err(NextError::Damaged);
        }
        Err(NextError::OtherVersion)
    }

    /// Takes the record of a size and a body.
    fn take_counted(&mut self, counted: &[u8]) -> Result<Found, NextError>
        requires { 2 ≤ length counted.now }
        ensures taken { IfOk result (λ f. (found_in (drop 2 counted.now) ≡ Some f) × MayTake (state_of self.old) f.entry
            × (state_of self.new ≡ taken (state_of self.old) f.entry) × (self.new.crc ≡ crc_after self.old.crc counted.now)) }
        ensures refused { (f : Found) → IsErr result → result ≢ Err NextError.OutOfMemory
            → found_in (drop 2 counted.now) ≡ Some f → MayTake (state_of self.old) f.entry → ⊥ }
        ensures memory { result ≡ Err NextError.OutOfMemory → IsSomeAnd (found_in (drop 2 counted.now))
            (λ f. MayTake (state_of self.old) f.entry × (is_step f.entry ≡ true)) }
        ensures within { IfOk result (λ f. (f.first + f.first_size + 2 ≤ length counted.now)
            × (f.second + f.second_size + 2 ≤ length counted.now)) }
        ensures unchanged { OnErr result ((state_of self.new ≡ state_of self.old) × (self.new.crc ≡ self.old.crc)) }
    {
        let Some(found) = found_in(&counted[2..]) else {
            return Err(self.refusal_of(&counted[2..]));
        };
        if !self.may_take(found.entry) {
            return Err(NextError::Damaged);
        }
        if self.put(found.entry).is_err() {
            return Err(NextError::OutOfMemory);
        }
        self.crc = crc_after(self.crc, counted);
        Ok(found)
    }

    /// A file whose head has another version is of that one.
    fn refusal_of(&self, body: &[u8]) -> NextError
        ensures { result ≢ NextError.OutOfMemory }
    {
        if self.head.is_none() && body.len() > 1 && body[0] == 1 && body[1] != VERSION {
            NextError::OtherVersion
        } else {
            NextError::Damaged
        }
    }
}
