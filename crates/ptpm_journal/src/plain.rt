//! A record in plain numbers, as a host in C has it.

ghost use Rattle.std.specs.Prelude.{◌≡◌, ◌≤◌, ◌<◌, ◌+◌};
ghost use Rattle.ptpm_journal.specs.Plain.{blank, entry_of, head_of, plain_entry, plain_note, plain_of, plain_step, policy_of};

use crate::reading::{Next, ending_of, outcome_of};
use crate::record::{Head, Note, Policy, Record, Step};
use crate::writing::{ending_code, kind_of, outcome_code};
use byteorder::{BigEndian, ByteOrder};

/// `struct ptpm_journal_record`. What its kind lacks is 0.
#[repr(C)]
#[derive(Clone, Copy)]
pub struct PlainRecord {
    pub time: u64,
    /// The places of its groups of octets among those that were read, and their sizes.
    pub first: u32,
    pub second: u32,
    pub first_size: u16,
    pub second_size: u16,
    pub count: u16,
    pub port: u16,
    pub id: u16,
    pub step: u16,
    pub number: u16,
    pub error: u16,
    pub clock: [u8; 8],
    pub kind: u8,
    pub flags: u8,
    pub together: u8,
    pub domain: u8,
    pub group: u8,
    /// An outcome, an ending, or what a text is.
    pub what: u8,
    pub zero: [u8; 2],
}

const _: () = prove!(size_of::<PlainRecord>() == 48);

impl PlainRecord {
    /// All zeros.
    pub fn blank() -> PlainRecord
        ensures { result ≡ blank }
    {
        PlainRecord {
            time: 0,
            first: 0,
            second: 0,
            first_size: 0,
            second_size: 0,
            count: 0,
            port: 0,
            id: 0,
            step: 0,
            number: 0,
            error: 0,
            clock: [0; 8],
            kind: 0,
            flags: 0,
            together: 0,
            domain: 0,
            group: 0,
            what: 0,
            zero: [0; 2],
        }
    }

    /// What was read.
    pub fn of_next(next: Next) -> PlainRecord
        requires lead { next.lead ≤ 4 }
        requires size { next.size < 65536 }
        requires first { next.found.first + next.found.first_size ≤ next.size }
        requires second { next.found.second + next.found.second_size ≤ next.size }
        ensures { result ≡ plain_of next }
    {
        let found = next.found;
        let mut plain = PlainRecord::of_entry(found.entry);
        plain.first = (next.lead + 2 + found.first) as u32;
        plain.first_size = found.first_size as u16;
        plain.second = (next.lead + 2 + found.second) as u32;
        plain.second_size = found.second_size as u16;
        plain
    }

    fn of_entry(entry: Record) -> PlainRecord
        ensures { result ≡ plain_entry entry }
    {
        let mut plain = PlainRecord::blank();
        plain.kind = kind_of(entry);
        match entry {
            Record::Head { head } => {
                plain.clock = head.manager.to_be_bytes();
                plain.port = head.port;
                plain.count = head.count;
                plain.flags = head.policy.flags;
                plain.together = head.policy.together;
            }
            Record::Step { step, port, id } => {
                plain.clock = step.clock.to_be_bytes();
                plain.domain = step.domain;
                plain.group = step.group;
                plain.port = port;
                plain.id = id;
            }
            Record::Note { time, note } => return PlainRecord::of_note(plain, time, note),
            Record::Policy { time, policy } => {
                plain.time = time;
                plain.flags = policy.flags;
                plain.together = policy.together;
            }
            Record::End { time, ending, step } => {
                plain.time = time;
                plain.what = ending_code(ending);
                plain.step = step;
            }
            Record::Text { what } => plain.what = what,
        }
        plain
    }

    fn of_note(kind: PlainRecord, time: u64, note: Note) -> PlainRecord
        ensures { result ≡ plain_note kind time note }
    {
        let mut plain = kind;
        plain.time = time;
        match note {
            Note::Begun { step, number } => {
                plain.step = step;
                plain.number = number;
            }
            Note::NotBegun { step } => plain.step = step,
            Note::LetGo { step } => plain.step = step,
            Note::Told {
                step,
                outcome,
                error,
            } => {
                plain.step = step;
                plain.what = outcome_code(outcome);
                plain.error = error;
            }
        }
        plain
    }

    /// The record. `None` if the kind, the outcome or the ending is none.
    pub fn entry(&self) -> Option<Record>
        ensures { result ≡ entry_of self.now }
    {
        let step = self.step;
        let time = self.time;
        match self.kind {
            1 => Some(Record::Head { head: self.head() }),
            2 => Some(Record::Step {
                step: self.placed_step(),
                port: self.port,
                id: self.id,
            }),
            3 => Some(Record::Note {
                time,
                note: Note::Begun {
                    step,
                    number: self.number,
                },
            }),
            4 => Some(Record::Note {
                time,
                note: Note::NotBegun { step },
            }),
            5 => Some(Record::Note {
                time,
                note: Note::LetGo { step },
            }),
            6 => {
                let outcome = outcome_of(self.what)?;
                Some(Record::Note {
                    time,
                    note: Note::Told {
                        step,
                        outcome,
                        error: self.error,
                    },
                })
            }
            7 => Some(Record::Policy {
                time,
                policy: self.policy(),
            }),
            8 => {
                let ending = ending_of(self.what)?;
                Some(Record::End { time, ending, step })
            }
            9 => Some(Record::Text { what: self.what }),
            _ => None,
        }
    }

    fn policy(&self) -> Policy
        ensures { result ≡ policy_of self.now }
    {
        Policy {
            flags: self.flags,
            together: self.together,
        }
    }

    fn head(&self) -> Head
        ensures { result ≡ head_of self.now }
    {
        Head {
            policy: self.policy(),
            manager: BigEndian::read_u64(&self.clock),
            port: self.port,
            count: self.count,
        }
    }

    fn placed_step(&self) -> Step
        ensures { result ≡ plain_step self.now }
    {
        Step {
            clock: BigEndian::read_u64(&self.clock),
            domain: self.domain,
            group: self.group,
        }
    }
}
