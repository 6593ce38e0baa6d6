//! The octets of a record.

ghost use Rattle.std.specs.Prelude.{◌≡◌, ◌≤◌, ◌+◌, ◌++◌, ◌∷◌, [], IsTrue, length};
ghost use Rattle.arrayvec.specs.ArrayVec.{array_vec_len};
ghost use Rattle.byteorder.specs.Endian.{big_bytes};
ghost use Rattle.ptpm_journal.specs.Octets.{body_of, ending_code, first_width, is_short, kind_of, members, members_size, most_in, note_kind, note_members, outcome_code, second_width, sized};

use crate::marking::step_of;
use crate::reading::{first_width, second_width};
use crate::record::{Ending, Head, Note, Outcome, Record, Step};
use arrayvec::ArrayVec;
use ptpm_codec::{put, put_u16};

/// The most octets of the body of a record.
pub const BODY_OCTETS: usize = 8_211;

/// The most octets of a kind and its numbers.
const MEMBERS_OCTETS: usize = 16;

/// The version of a journal.
pub const VERSION: u8 = 2;

/// The body of a record with its two groups of octets.
#[tactic(auto, unfolding(crate::specs::Octets::body_of))]
pub fn body_of(entry: Record, first: &[u8], second: &[u8]) -> ArrayVec<u8, BODY_OCTETS>
    requires { IsTrue (is_short (kind_of entry) (length first.now) (length second.now)) }
    ensures { result.items ≡ body_of entry first.now second.now }
{
    let mut body = ArrayVec::new();
    let kind = kind_of(entry);
    put(&mut body, members(entry).as_slice());
    put_sized(&mut body, first_width(kind), first);
    put_sized(&mut body, second_width(kind), second);
    body
}

/// Appends a group of octets, with its size before it.
fn put_sized(body: &mut ArrayVec<u8, BODY_OCTETS>, width: usize, octets: &[u8])
    requires width { width ≤ 2 }
    requires short { length octets.now ≤ most_in width }
    requires room { array_vec_len body.old + 4098 ≤ 8211 }
    ensures items { body.new.items ≡ body.old.items ++ sized width octets.now }
    ensures len { array_vec_len body.new ≡ array_vec_len body.old + (width + length octets.now) }
{
    match width {
        0 => {}
        1 => put(body, &[octets.len() as u8]),
        _ => put_u16(body, octets.len() as u16),
    }
    put(body, octets);
}

pub fn kind_of(entry: Record) -> u8
    ensures { result ≡ kind_of entry }
{
    match entry {
        Record::Head { .. } => 1,
        Record::Step { .. } => 2,
        Record::Note { note, .. } => note_kind(note),
        Record::Policy { .. } => 7,
        Record::End { .. } => 8,
        Record::Text { .. } => 9,
    }
}

fn note_kind(note: Note) -> u8
    ensures { result ≡ note_kind note }
{
    match note {
        Note::Begun { .. } => 3,
        Note::NotBegun { .. } => 4,
        Note::LetGo { .. } => 5,
        Note::Told { .. } => 6,
    }
}

/// The kind and the numbers.
#[tactic(auto, unfolding(crate::specs::Octets::members))]
fn members(entry: Record) -> ArrayVec<u8, MEMBERS_OCTETS>
    ensures items { result.items ≡ members entry }
    ensures size { length result.items ≡ members_size (kind_of entry) }
{
    match entry {
        Record::Head { head } => head_members(head),
        Record::Step { step, port, id } => step_members(step, port, id),
        Record::Note { time, note } => note_members(note, time),
        Record::Policy { time, policy } => {
            let mut members = numbers(&[7, policy.flags, policy.together]);
            put_u64(&mut members, time);
            members
        }
        Record::End { time, ending, step } => {
            let mut members = numbers(&[8, ending_code(ending)]);
            put_u16(&mut members, step);
            put_u64(&mut members, time);
            members
        }
        Record::Text { what } => numbers(&[9, what]),
    }
}

fn head_members(head: Head) -> ArrayVec<u8, MEMBERS_OCTETS>
    ensures items { result.items
        ≡ 1 ∷ 2 ∷ head.policy.flags ∷ head.policy.together ∷ big_bytes 8 head.manager ++ big_bytes 2 head.port ++ big_bytes 2 head.count }
    ensures size { length result.items ≡ 16 }
{
    let mut members = numbers(&[1, VERSION, head.policy.flags, head.policy.together]);
    put_u64(&mut members, head.manager);
    put_u16(&mut members, head.port);
    put_u16(&mut members, head.count);
    members
}

fn step_members(step: Step, port: u16, id: u16) -> ArrayVec<u8, MEMBERS_OCTETS>
    ensures items { result.items
        ≡ 2 ∷ big_bytes 8 step.clock ++ step.domain ∷ step.group ∷ big_bytes 2 port ++ big_bytes 2 id }
    ensures size { length result.items ≡ 15 }
{
    let mut members = numbers(&[2]);
    put_u64(&mut members, step.clock);
    put(&mut members, &[step.domain, step.group]);
    put_u16(&mut members, port);
    put_u16(&mut members, id);
    members
}

fn note_members(note: Note, time: u64) -> ArrayVec<u8, MEMBERS_OCTETS>
    ensures items { result.items ≡ note_members note time }
    ensures size { length result.items ≡ members_size (note_kind note) }
{
    let mut members = numbers(&[note_kind(note)]);
    put_u16(&mut members, step_of(note));
    match note {
        Note::Begun { number, .. } => put_u16(&mut members, number),
        Note::Told { outcome, error, .. } => {
            put(&mut members, &[outcome_code(outcome)]);
            put_u16(&mut members, error);
        }
        _ => {}
    }
    put_u64(&mut members, time);
    members
}

/// These octets alone.
fn numbers(octets: &[u8]) -> ArrayVec<u8, MEMBERS_OCTETS>
    requires { length octets.now ≤ 16 }
    ensures items { result.items ≡ octets.now }
    ensures len { array_vec_len result ≡ length octets.now }
{
    let mut members = ArrayVec::new();
    put(&mut members, octets);
    members
}

fn put_u64(members: &mut ArrayVec<u8, MEMBERS_OCTETS>, number: u64)
    requires { array_vec_len members.old + 8 ≤ 16 }
    ensures items { members.new.items ≡ members.old.items ++ big_bytes 8 number }
    ensures len { array_vec_len members.new ≡ array_vec_len members.old + 8 }
{
    put(members, &number.to_be_bytes());
}

pub fn outcome_code(outcome: Outcome) -> u8
    ensures { result ≡ outcome_code outcome }
{
    match outcome {
        Outcome::Done => 1,
        Outcome::Refused => 2,
        Outcome::Answered => 3,
    }
}

pub fn ending_code(ending: Ending) -> u8
    ensures { result ≡ ending_code ending }
{
    match ending {
        Ending::Complete => 1,
        Ending::Refused => 2,
        Ending::Answered => 3,
        Ending::Changed => 4,
        Ending::GivenUp => 5,
        Ending::RolledBack => 6,
        Ending::Stopped => 7,
        Ending::InPart => 8,
    }
}
