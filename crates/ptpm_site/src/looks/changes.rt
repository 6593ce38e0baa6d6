//! What changed from one answer to another, and how answers to one request differ.

use crate::reading::answer::Request;
use crate::reading::asked::Asked;
use crate::reading::clock::Received;
use crate::reading::member::value_of;
use ptpm_data::PortState;
use ptpm_members::{Enumeration, Member, MemberValue};
use std::alloc::{AllocError, Global};
use std::collections::BTreeMap;

/// Which answers are compared with each other.
#[derive(Clone, Copy)]
pub enum Contradiction {
    /// Answers to two requests. If they differ, the value changed.
    Changed,
    /// Answers to one request. If they differ, two clocks have one identity.
    IdentityTwice,
}

/// A member that differs between two answers of a clock: its value in the earlier one and in the later one.
#[derive(Clone, Copy)]
pub struct Change<'a> {
    pub member: Member,
    pub before: MemberValue<'a>,
    pub after: MemberValue<'a>,
}

/// The state as which a state is compared, by their numbers. A port goes from SLAVE to UNCALIBRATED and back by itself: the two
/// are compared as one.
fn settled_state(number: u8) -> u8 {
    if number == PortState::Uncalibrated.number() {
        PortState::Slave.number()
    } else {
        number
    }
}

/// The value with which a member is compared.
fn as_settled(value: MemberValue<'_>) -> MemberValue<'_> {
    match value {
        MemberValue::Named(Enumeration::PortState, number) => {
            MemberValue::Named(Enumeration::PortState, settled_state(number))
        }
        value => value,
    }
}

/// Whether a port in the state of this number is on its way to no other.
fn is_settled_state(number: u8) -> bool {
    matches!(
        PortState::from_number(number),
        Some(
            PortState::Faulty
                | PortState::Disabled
                | PortState::Master
                | PortState::Passive
                | PortState::Slave
        )
    )
}

/// Whether two values of a member are compared as one.
fn is_alike(a: MemberValue<'_>, b: MemberValue<'_>) -> bool {
    as_settled(a) == as_settled(b)
}

/// A member's value in an answer, and the request that the answer came to.
#[derive(Clone, Copy)]
struct Stated<'a> {
    request: Request,
    value: MemberValue<'a>,
}

impl<'a> Stated<'a> {
    fn of(asked: Asked, received: &'a Received, member: Member) -> Option<Stated<'a>> {
        Some(Stated {
            request: received.request,
            value: value_of(asked, received.octets.as_slice(), member)?,
        })
    }

    /// Whether a later value that differs is a change. The portState of a port on its way to another state is not settled.
    fn is_settled(&self) -> bool {
        match self.value {
            MemberValue::Named(Enumeration::PortState, number) => is_settled_state(number),
            _ => true,
        }
    }

    /// Whether a later statement is a change of this one.
    fn is_changed_by(&self, later: &Stated<'a>) -> bool {
        self.is_settled() && self.request != later.request && !is_alike(self.value, later.value)
    }

    /// Whether another statement came to the same request and says a value that is alike.
    fn is_same(&self, other: &Stated<'a>) -> bool {
        self.request == other.request && is_alike(self.value, other.value)
    }
}

/// The statements that are kept in place of all earlier ones, as long as none of these is a change of another. Then all settled
/// statements came to one request or say one value. So two of them show whether a later one is a change: the first, and the
/// first that differs from it in request or value.
#[derive(Clone, Copy)]
enum KeptStatements<'a> {
    Nothing,
    One(Stated<'a>),
    Two(Stated<'a>, Stated<'a>),
}

impl<'a> KeptStatements<'a> {
    /// The first of them that a later statement is a change of.
    fn changed_by(&self, later: &Stated<'a>) -> Option<Stated<'a>> {
        match *self {
            KeptStatements::Nothing => None,
            KeptStatements::One(first) => {
                if first.is_changed_by(later) {
                    Some(first)
                } else {
                    None
                }
            }
            KeptStatements::Two(first, other) => {
                if first.is_changed_by(later) {
                    Some(first)
                } else if other.is_changed_by(later) {
                    Some(other)
                } else {
                    None
                }
            }
        }
    }

    /// What is kept after a statement that is a change of none.
    fn with(&self, next: &Stated<'a>) -> KeptStatements<'a> {
        if !next.is_settled() {
            return *self;
        }
        match *self {
            KeptStatements::Nothing => KeptStatements::One(*next),
            KeptStatements::One(first) => {
                if first.is_same(next) {
                    *self
                } else {
                    KeptStatements::Two(first, *next)
                }
            }
            KeptStatements::Two(..) => *self,
        }
    }
}

/// For each request the first settled value that was answered to it.
#[derive(Drop)]
struct Settled<'a> {
    first: BTreeMap<Request, MemberValue<'a>>,
}

impl<'a> Settled<'a> {
    fn new(alloc: Global) -> Settled<'a> {
        Settled {
            first: BTreeMap::new(alloc),
        }
    }

    /// The value that was kept for the request of a later statement, if that statement says another.
    fn contradicted_by(&self, later: &Stated<'a>) -> Option<MemberValue<'a>> {
        let before = self.first.get(&later.request).copied()?;
        if is_alike(before, later.value) {
            None
        } else {
            Some(before)
        }
    }

    /// Keeps the value of a statement that contradicts no earlier one.
    fn add(&mut self, next: &Stated<'a>) -> Result<(), AllocError> {
        if !next.is_settled() {
            return Ok(());
        }
        if self.first.contains_key(&next.request) {
            return Ok(());
        }
        self.first.insert(next.request, next.value)?;
        Ok(())
    }
}

/// The first change of a member: the first two answers to different requests that differ in it.
pub fn first_change<'a>(
    asked: Asked,
    received: &'a [Received],
    member: Member,
) -> Option<Change<'a>> {
    let mut kept = KeptStatements::Nothing;
    for answer in received {
        let Some(later) = Stated::of(asked, answer, member) else {
            continue;
        };
        if let Some(earlier) = kept.changed_by(&later) {
            return Some(Change {
                member,
                before: earlier.value,
                after: later.value,
            });
        }
        kept = kept.with(&later);
    }
    None
}

/// The first contradiction in a member: the first two answers to one request that differ in it.
pub fn first_contradiction<'a>(
    alloc: Global,
    asked: Asked,
    received: &'a [Received],
    member: Member,
) -> Result<Option<Change<'a>>, AllocError> {
    let mut settled = Settled::new(alloc);
    for answer in received {
        let Some(later) = Stated::of(asked, answer, member) else {
            continue;
        };
        if let Some(before) = settled.contradicted_by(&later) {
            return Ok(Some(Change {
                member,
                before,
                after: later.value,
            }));
        }
        settled.add(&later)?;
    }
    Ok(None)
}

/// Whether any two answers to an id differ in a member.
pub fn is_said_otherwise(asked: Asked, received: &[Received], member: Member) -> bool {
    match received.split_first() {
        Some((first, others)) => !all_say_as(asked, first, others, member),
        None => false,
    }
}

/// Whether all these answers say of a member what the first one says.
fn all_say_as(asked: Asked, first: &Received, others: &[Received], member: Member) -> bool {
    others
        .iter()
        .all(|other| say_alike(asked, first, other, member))
}

fn say_alike(asked: Asked, one: &Received, other: &Received, member: Member) -> bool {
    value_of(asked, one.octets.as_slice(), member)
        == value_of(asked, other.octets.as_slice(), member)
}
