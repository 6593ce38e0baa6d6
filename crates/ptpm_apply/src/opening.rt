//! How a change begins, or goes on: with what its journal has.

ghost use Rattle.std.specs.Prelude.{◌≡◌, ◌≤◌, ◌+◌, drop, length, take, true, IfErr, IfOk, OnErr, OnOk};
ghost use Rattle.ptpm_journal.specs.Journal.{is_step};
ghost use Rattle.ptpm_journal.specs.State.{state_of};
ghost use Rattle.ptpm_journal.specs.Turns.{IsAtEnd};
ghost use Rattle.ptpm_apply.specs.Opening.{AreRead, IsPlanned, IsRefusedBy, Takes, chosen, noted_number, refusal_of};

use crate::choice::{Choice, OpenError};
use crate::going::first_let_go;
use crate::lanes::lanes_of;
use crate::planned::Planned;
use crate::rollout::Rollout;
use crate::stage::Stage;
use ptpm_journal::{Found, Journal, Next, NextError, Note, RECORD_OCTETS, Record, Step};
use std::alloc::{AllocError, Global};

/// How many octets frame a record's body.
const FRAME_OCTETS: usize = 6;

/// What a file has.
#[derive(Drop)]
struct Reading {
    journal: Journal,
    steps: Vec<Planned>,
    numbers: Vec<u16>,
    /// How many octets were written whole.
    whole: usize,
}

impl Rollout {
    ghost use Rattle.std.specs.Prelude.{◌≡◌, drop, false, length, true, IfErr, IfOk};
    ghost use Rattle.ptpm_journal.specs.Journal.{goes_on};
    ghost use Rattle.ptpm_journal.specs.Turns.{IsAtEnd};
    ghost use Rattle.ptpm_apply.specs.declared.stage.Stage.{Stage};
    ghost use Rattle.ptpm_apply.specs.Lanes.{AreLanesOf};
    ghost use Rattle.ptpm_apply.specs.Opening.{AreRead, IsChosen, IsRefusedBy};

    /// A change with the journal that a file has, and how many octets of it were written whole. It is refused for the first reason that holds.
    /// If a step is given up, the change can only be given up.
    pub fn open(alloc: Global, octets: &[u8], choice: Choice) -> Result<(Rollout, usize), OpenError>
        ensures read { IfOk result (λ r. AreRead octets.now r.1 r.0.journal r.0.crc r.0.steps r.0.numbers) }
        ensures all { IfOk result (λ r. IsAtEnd r.0.journal r.0.crc (drop r.1 octets.now)) }
        ensures refused { IfErr result (IsRefusedBy octets.now) }
        ensures goes_on { IfOk result (λ r. goes_on r.0.journal ≡ true) }
        ensures fresh { IfOk result (λ r. (r.0.stage ≡ Stage.Fresh) × (r.0.seen ≡ 0) × (r.0.is_changed ≡ false)) }
        ensures lanes { IfOk result (λ r. AreLanesOf r.0.steps (length r.0.steps) r.0.lanes) }
        ensures choice { IfOk result (λ r. IsChosen r.0 choice) }
    {
        let reading = read(alloc, octets)?;
        let Reading {
            journal,
            steps,
            numbers,
            whole,
        } = reading;
        if !journal.may_take(Record::Text { what: 0 }) {
            return Err(OpenError::Ended);
        }
        let lanes = lanes_of(alloc, steps.as_slice())?;
        let choice = choice_of(choice, first_let_go(&journal, steps.as_slice()));
        let room = vec![in alloc; 0; RECORD_OCTETS]?;
        let rollout = Rollout {
            alloc,
            choice,
            journal,
            steps,
            numbers,
            lanes,
            seen: 0,
            is_changed: false,
            stage: Stage::Fresh,
            room,
            size: 0,
        };
        Ok((rollout, whole))
    }
}

/// What is to be done. If a step is given up, that is all that can be done.
fn choice_of(choice: Choice, let_go: Option<u16>) -> Choice
    ensures { result ≡ chosen choice let_go }
{
    match let_go {
        Some(_) => Choice::GiveUp,
        None => choice,
    }
}

/// Reads the records of a file.
fn read(alloc: Global, octets: &[u8]) -> Result<Reading, OpenError>
    ensures read { IfOk result
        (λ r. AreRead octets.now r.whole (state_of r.journal) r.journal.crc r.steps.items r.numbers.items) }
    ensures all { IfOk result (λ r. IsAtEnd (state_of r.journal) r.journal.crc (drop r.whole octets.now)) }
    ensures few { IfOk result (λ r. length r.steps.items ≤ 65535) }
    ensures refused { IfErr result (IsRefusedBy octets.now) }
{
    let mut journal = Journal::new(alloc);
    let mut steps = Vec::new(alloc);
    let mut numbers = Vec::new(alloc);
    let mut whole = 0;
    'records: loop {
        let (_, rest) = octets.split_at(whole);
        let next = match journal.next(rest) {
            Ok(Some(next)) => next,
            Ok(None) => break,
            Err(refusal) => return Err(refusal_of(refusal)),
        };
        let (_, body) = rest.split_at(next.lead + 2);
        take(alloc, &mut steps, &mut numbers, next, body)?;
        whole = whole + next.lead + next.size + FRAME_OCTETS;
    }
    Ok(Reading {
        journal,
        steps,
        numbers,
        whole,
    })
}

fn refusal_of(refusal: NextError) -> OpenError
    ensures { result ≡ refusal_of refusal }
{
    match refusal {
        NextError::OtherVersion => OpenError::OtherVersion,
        NextError::Damaged => OpenError::Damaged,
        NextError::OutOfMemory => OpenError::OutOfMemory,
    }
}

/// Takes a step, or the number under which one is begun.
fn take(
    alloc: Global,
    steps: &mut Vec<Planned>,
    numbers: &mut Vec<u16>,
    next: Next,
    body: &[u8],
) -> Result<(), AllocError>
    requires first { next.found.first + next.found.first_size ≤ length body.now }
    requires second { next.found.second + next.found.second_size ≤ length body.now }
    ensures takes { OnOk result
        (Takes next.found body.now steps.old.items steps.new.items numbers.old.items numbers.new.items) }
    ensures memory { OnErr result (is_step next.found.entry ≡ true) }
{
    let found = next.found;
    match found.entry {
        Record::Step { step, port, id } => {
            steps.push(planned_of(alloc, step, port, id, &found, body)?)?;
            numbers.push(0)?;
        }
        Record::Note { note, .. } => take_number(numbers.as_mut_slice(), note),
        Record::Head { .. } | Record::Policy { .. } | Record::End { .. } | Record::Text { .. } => {}
    }
    Ok(())
}

/// The step of a record, with the values that the two groups of its octets are.
fn planned_of(
    alloc: Global,
    step: Step,
    port: u16,
    id: u16,
    found: &Found,
    body: &[u8],
) -> Result<Planned, AllocError>
    requires first { found.now.first + found.now.first_size ≤ length body.now }
    requires second { found.now.second + found.now.second_size ≤ length body.now }
    ensures { IfOk result (λ p. IsPlanned step port id
        (take found.now.first_size (drop found.now.first body.now))
        (take found.now.second_size (drop found.now.second body.now)) p) }
{
    Ok(Planned {
        clock: step.clock,
        domain: step.domain,
        port,
        id,
        before: group(alloc, body, found.first, found.first_size)?,
        after: group(alloc, body, found.second, found.second_size)?,
    })
}

/// A group of octets of a record.
fn group(alloc: Global, body: &[u8], place: usize, size: usize) -> Result<Vec<u8>, AllocError>
    requires { place + size ≤ length body.now }
    ensures { IfOk result (λ octets. octets.items ≡ take size (drop place body.now)) }
{
    let (_, rest) = body.split_at(place);
    Vec::from_slice(alloc, &rest[..size])
}

/// The number under which a step is begun.
fn take_number(numbers: &mut [u16], note: Note)
    ensures { numbers.new ≡ noted_number note numbers.old }
{
    match note {
        Note::Begun { step, number } => {
            let place = usize::from(step);
            if place < numbers.len() {
                numbers[place] = number;
            }
        }
        Note::NotBegun { .. } | Note::LetGo { .. } | Note::Told { .. } => {}
    }
}
