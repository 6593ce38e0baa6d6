//! The record that octets are.

ghost use Rattle.std.specs.Prelude.{◌≡◌, ◌≤◌, ◌+◌, IfSome, length, drop};
ghost use Rattle.byteorder.specs.Endian.{big_number};
ghost use Rattle.ptpm_codec.specs.Layout.{octet};
ghost use Rattle.ptpm_journal.specs.Octets.{ending_of, first_width, found_in, head_at, is_short, members_size, most_in, outcome_of, policy_at, record_at, second_width, step_at, time_at};

use crate::record::{Ending, Head, Note, Outcome, Policy, Record, Step};
use crate::writing::VERSION;
use byteorder::{BigEndian, ByteOrder};
use ptpm_codec::u16_at;

/// A record, and where in its body the two groups of its octets are.
#[derive(Clone, Copy)]
pub struct Found {
    pub entry: Record,
    pub first: usize,
    pub first_size: usize,
    pub second: usize,
    pub second_size: usize,
}

/// A record that was read.
#[derive(Clone, Copy)]
pub struct Next {
    pub found: Found,
    /// How many octets come before it.
    pub lead: usize,
    /// How many its body has.
    pub size: usize,
}

/// What a body is, if it is a record. Takes no memory.
#[tactic(auto, unfolding(crate::specs::Octets::found_in))]
pub fn found_in(body: &[u8]) -> Option<Found>
    ensures found { result ≡ found_in body.now }
    ensures within { IfSome result (λ f. (f.first + f.first_size ≤ length body.now)
        × (f.second + f.second_size ≤ length body.now)) }
{
    if body.is_empty() {
        return None;
    }
    let kind = body[0];
    let members = members_size(kind);
    let width = first_width(kind);
    if members == 0 || body.len() < members + width {
        return None;
    }
    let first_size = size_at(body, members, width);
    let first = members + width;
    let width = second_width(kind);
    if body.len() < first + first_size + width {
        return None;
    }
    let second_size = size_at(body, first + first_size, width);
    let second = first + first_size + width;
    if second + second_size != body.len() || !is_short(kind, first_size, second_size) {
        return None;
    }
    let entry = record_at(body)?;
    Some(Found {
        entry,
        first,
        first_size,
        second,
        second_size,
    })
}

/// How many octets the kind and its numbers have; 0 if there is no such kind.
pub fn members_size(kind: u8) -> usize
    ensures size { result ≡ members_size kind }
    ensures small { result ≤ 16 }
{
    match kind {
        1 => 16,
        2 => 15,
        3 => 13,
        4 | 5 | 7 => 11,
        6 => 14,
        8 => 12,
        9 => 2,
        _ => 0,
    }
}

/// How many octets have the size of the first group.
pub fn first_width(kind: u8) -> usize
    ensures width { result ≡ first_width kind }
    ensures small { result ≤ 2 }
{
    match kind {
        1 => 1,
        2 | 6 | 9 => 2,
        _ => 0,
    }
}

/// And how many that of the second one.
pub fn second_width(kind: u8) -> usize
    ensures width { result ≡ second_width kind }
    ensures small { result ≤ 2 }
{
    match kind {
        1 => 1,
        2 => 2,
        _ => 0,
    }
}

/// Whether the groups have few enough octets.
pub fn is_short(kind: u8, first_size: usize, second_size: usize) -> bool
    ensures { result ≡ is_short kind first_size second_size }
{
    first_size <= most_in(first_width(kind)) && second_size <= most_in(second_width(kind))
}

/// The most octets of a group, by the octets of its size.
fn most_in(width: usize) -> usize
    ensures { result ≡ most_in width }
{
    match width {
        0 => 0,
        1 => 255,
        _ => 4_096,
    }
}

fn size_at(body: &[u8], place: usize, width: usize) -> usize
    requires room { place + width ≤ length body.now }
    requires width { width ≤ 2 }
    ensures size { result ≡ big_number width (drop place body.now) }
    ensures small { result ≤ 65535 }
{
    match width {
        0 => 0,
        1 => usize::from(body[place]),
        _ => usize::from(BigEndian::read_u16(&body[place..])),
    }
}

/// The record without its groups. There are as many octets as its kind has numbers.
#[tactic(auto, unfolding(crate::specs::Octets::record_at))]
fn record_at(body: &[u8]) -> Option<Record>
    requires some { 1 ≤ length body.now }
    requires long { members_size (octet 0 body.now) ≤ length body.now }
    ensures { result ≡ record_at body.now }
{
    match body[0] {
        1 => {
            if body[1] != VERSION {
                return None;
            }
            Some(Record::Head {
                head: head_at(body),
            })
        }
        2 => Some(Record::Step {
            step: step_at(body),
            port: u16_at(body, 11),
            id: u16_at(body, 13),
        }),
        3 => Some(Record::Note {
            time: time_at(body, 5),
            note: Note::Begun {
                step: u16_at(body, 1),
                number: u16_at(body, 3),
            },
        }),
        4 => Some(Record::Note {
            time: time_at(body, 3),
            note: Note::NotBegun {
                step: u16_at(body, 1),
            },
        }),
        5 => Some(Record::Note {
            time: time_at(body, 3),
            note: Note::LetGo {
                step: u16_at(body, 1),
            },
        }),
        6 => {
            let outcome = outcome_of(body[3])?;
            Some(Record::Note {
                time: time_at(body, 6),
                note: Note::Told {
                    step: u16_at(body, 1),
                    outcome,
                    error: u16_at(body, 4),
                },
            })
        }
        7 => Some(Record::Policy {
            time: time_at(body, 3),
            policy: policy_at(body, 1),
        }),
        8 => {
            let ending = ending_of(body[1])?;
            Some(Record::End {
                time: time_at(body, 4),
                ending,
                step: u16_at(body, 2),
            })
        }
        9 => Some(Record::Text { what: body[1] }),
        _ => None,
    }
}

fn head_at(body: &[u8]) -> Head
    requires { 16 ≤ length body.now }
    ensures { result ≡ head_at body.now }
{
    Head {
        policy: policy_at(body, 2),
        manager: time_at(body, 4),
        port: u16_at(body, 12),
        count: u16_at(body, 14),
    }
}

fn step_at(body: &[u8]) -> Step
    requires { 15 ≤ length body.now }
    ensures { result ≡ step_at body.now }
{
    Step {
        clock: time_at(body, 1),
        domain: body[9],
        group: body[10],
    }
}

fn policy_at(body: &[u8], place: usize) -> Policy
    requires { place + 2 ≤ length body.now }
    ensures { result ≡ policy_at place body.now }
{
    Policy {
        flags: body[place],
        together: body[place + 1],
    }
}

/// The number in eight octets from a place on.
fn time_at(body: &[u8], place: usize) -> u64
    requires { place + 8 ≤ length body.now }
    ensures { result ≡ time_at place body.now }
{
    BigEndian::read_u64(&body[place..])
}

pub fn outcome_of(code: u8) -> Option<Outcome>
    ensures { result ≡ outcome_of code }
{
    match code {
        1 => Some(Outcome::Done),
        2 => Some(Outcome::Refused),
        3 => Some(Outcome::Answered),
        _ => None,
    }
}

pub fn ending_of(code: u8) -> Option<Ending>
    ensures { result ≡ ending_of code }
{
    match code {
        1 => Some(Ending::Complete),
        2 => Some(Ending::Refused),
        3 => Some(Ending::Answered),
        4 => Some(Ending::Changed),
        5 => Some(Ending::GivenUp),
        6 => Some(Ending::RolledBack),
        7 => Some(Ending::Stopped),
        8 => Some(Ending::InPart),
        _ => None,
    }
}
