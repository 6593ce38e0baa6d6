//! In which order the changes of a plan are asked. A port that receives is to keep its master meanwhile, and the best clock of a
//! domain is to change once at most.

ghost use Rattle.std.specs.Prelude.{◌≡◌, IfOk, List, Option, Some};
ghost use Rattle.std.specs.List.Sorted.{IsPermutation, IsSortedByKey, IsStableByKey};
ghost use Rattle.ptpm_plan.specs.Order.{group, group_of, grows, hops_of, is_best, is_later, is_longer, is_master, is_sender, key_by, order_key, patience, rank_in, rank_turn, stays_best, turn_by, turn_of_interval, turn_of_ranks};
ghost use Rattle.ptpm_plan.specs.PlannedId.{concern_of};

use crate::best_clock::{Rank, RankedClock, best_in, first_octet, ranks_after, ranks_of};
use crate::change::{Change, Concern, PlannedId};
use crate::surveyed::{Surveyed, clock_in, port_in};
use ptpm_codec::ClockIdentity;
use ptpm_data::PortState;
use std::alloc::{AllocError, Global};
use std::cmp::Reverse;

/// When a change is asked: the earlier variants first. The ranks are those after all changes.
#[derive(Clone, Copy, PartialEq, Eq, PartialOrd, Ord)]
pub enum Turn {
    /// A port that receives waits longer.
    MorePatience,
    /// A port in MASTER sends more often, or less often.
    Sender,
    /// What has no order.
    Free,
    /// A port that receives waits less long.
    LessPatience,
    /// The rank of a clock that can't lead, or whose DEFAULT_DATA_SET was not answered.
    Unranked,
    /// A clock gets a better rank: the best-to-be first.
    Better(Rank),
    /// A clock gets a worse rank: the present best clock last, of the others the worst-to-be first.
    Worse(bool, Reverse<Rank>),
    /// A clock moves to another domain: the one with most hops first.
    Move(Reverse<u8>),
}

/// What the changes of a plan are sorted by.
#[derive(Clone, Copy, PartialEq, Eq, PartialOrd, Ord)]
pub struct OrderKey {
    pub turn: Turn,
    /// Among changes of one clock's rank: it is one of the second half.
    pub is_later: bool,
    pub place: usize,
    pub clock: ClockIdentity,
    pub port: u16,
    pub id: PlannedId,
}

/// What the order depends on, beside the changes.
#[derive(Clone, Copy)]
struct Outlook<'a> {
    surveyed: &'a Surveyed,
    /// The ranks now, and after all changes.
    before: &'a [RankedClock],
    after: &'a [RankedClock],
}

impl Outlook<'_> {
    /// Whether the port of a change is in MASTER.
    fn is_sender(&self, change: &Change) -> bool
        ensures { result ≡ is_sender self.now.surveyed.now change.now }
    {
        let ports = self.surveyed.ports.as_slice();
        let port = port_in(ports, change.domain, change.clock, change.port);
        port.map_or(false, |port| port.state == Some(PortState::Master))
    }

    fn interval_turn(&self, change: &Change) -> Turn
        ensures { result ≡ turn_of_interval self.now.surveyed.now change.now }
    {
        if self.is_sender(change) {
            Turn::Sender
        } else {
            patience(is_longer(change))
        }
    }

    fn rank_turn(&self, change: &Change) -> Turn
        ensures { result ≡ turn_of_ranks self.now.before.now self.now.after.now change.now }
    {
        rank_turn(
            is_best(change.domain, change.clock, self.before),
            rank_in(change.domain, change.clock, self.before),
            rank_in(change.domain, change.clock, self.after),
        )
    }

    /// Whether a change comes late among those of its clock's rank. A clock that is the best one now and after all changes gets better
    /// first, so that it stays the best one. Each other clock gets worse first, so that it does not lead in passing.
    fn is_later(&self, change: &Change) -> bool
        ensures { result ≡ is_later self.now.before.now self.now.after.now change.now }
    {
        let grows = grows(change);
        change.id.is_of_rank()
            && if self.stays_best(change) {
                grows
            } else {
                !grows
            }
    }

    /// Whether the clock of a change is the best one of its domain now and after all changes.
    fn stays_best(&self, change: &Change) -> bool
        ensures { result ≡ stays_best self.now.before.now self.now.after.now change.now }
    {
        is_best(change.domain, change.clock, self.before)
            && is_best(change.domain, change.clock, self.after)
    }

    fn turn(&self, change: &Change) -> Turn
        ensures { result ≡ turn_by self.now.surveyed.now self.now.before.now self.now.after.now (concern_of change.now.id) change.now }
    {
        match change.id.concern() {
            Concern::Patience => patience(grows(change)),
            Concern::Interval => self.interval_turn(change),
            Concern::Rank => self.rank_turn(change),
            Concern::Domain => Turn::Move(Reverse(hops_of(self.surveyed, change))),
            Concern::Free => Turn::Free,
        }
    }

    fn key(&self, change: &Change) -> OrderKey
        ensures { result ≡ key_by self.now.surveyed.now self.now.before.now self.now.after.now change.now }
    {
        OrderKey {
            turn: self.turn(change),
            is_later: self.is_later(change),
            place: change.place,
            clock: change.clock,
            port: change.port,
            id: change.id,
        }
    }
}

/// How many boundary clocks the answers of the clock of a change passed.
pub(crate) fn hops_of(surveyed: &Surveyed, change: &Change) -> u8
    ensures { result ≡ hops_of surveyed.now change.now }
{
    let clock = clock_in(surveyed.clocks.as_slice(), change.domain, change.clock);
    clock.map_or(0, |clock| clock.hops)
}

/// Whether the octet that a member is gets greater.
fn grows(change: &Change) -> bool
    ensures { result ≡ grows change.now }
{
    first_octet(&change.before) < first_octet(&change.after)
}

/// Whether the Integer8 that a member is gets greater.
#[tactic(auto, unfolding(ptpm_data::specs::ImageReading::i8_at))]
fn is_longer(change: &Change) -> bool
    ensures { result ≡ is_longer change.now }
{
    first_octet(&change.before).cast_signed() < first_octet(&change.after).cast_signed()
}

fn patience(more: bool) -> Turn
    ensures { result ≡ patience more }
{
    if more {
        Turn::MorePatience
    } else {
        Turn::LessPatience
    }
}

/// What becomes of a clock's rank, and whether the clock is the present best one.
fn rank_turn(is_best: bool, before: Option<Rank>, after: Option<Rank>) -> Turn
    ensures { result ≡ rank_turn is_best before after }
{
    match (before, after) {
        (Some(before), Some(after)) => {
            if after.is_better(&before) {
                Turn::Better(after)
            } else {
                Turn::Worse(is_best, Reverse(after))
            }
        }
        _ => Turn::Unranked,
    }
}

/// The rank of a clock of a domain.
fn rank_in(domain: u8, clock: ClockIdentity, ranks: &[RankedClock]) -> Option<Rank>
    ensures { result ≡ rank_in domain clock ranks.now }
{
    let found = ranks.iter().find(|ranked| ranked.domain == domain
        && ranked.rank.identity == clock)?;
    Some(found.rank)
}

/// Whether a clock is the best one of its domain.
fn is_best(domain: u8, clock: ClockIdentity, ranks: &[RankedClock]) -> bool
    ensures { result ≡ is_best domain clock ranks.now }
{
    best_in(domain, ranks).map_or(false, |best| best.identity == clock)
}

/// The group of a turn.
fn group(turn: Turn) -> u8
    ensures { result ≡ group turn }
{
    match turn {
        Turn::MorePatience => 1,
        Turn::Sender => 2,
        Turn::Free => 3,
        Turn::LessPatience => 4,
        Turn::Unranked | Turn::Better(_) | Turn::Worse(..) => 5,
        Turn::Move(_) => 6,
    }
}

/// The group of a change, from 1 to 6. All changes of ranks are of one, so the ranks need not be known.
pub fn group_of(surveyed: &Surveyed, change: &Change) -> u8
    ensures { result ≡ group_of surveyed.now change.now }
{
    let outlook = Outlook {
        surveyed,
        before: &[],
        after: &[],
    };
    group(outlook.turn(change))
}

/// The changes in the order in which they are asked.
pub fn in_order(
    alloc: Global,
    mut changes: Vec<Change>,
    surveyed: &Surveyed,
) -> Result<Vec<Change>, AllocError>
    ensures permutation { IfOk result (λ ordered. IsPermutation changes.items ordered.items) }
    ensures sorted { IfOk result (λ ordered. IsSortedByKey (order_key surveyed.now changes.items) ⟦<OrderKey as Ord>⟧.cmp ordered.items) }
    ensures stable { IfOk result (λ ordered. IsStableByKey (order_key surveyed.now changes.items) ⟦<OrderKey as Ord>⟧.cmp changes.items ordered.items) }
{
    let before = ranks_of(alloc, surveyed)?;
    let after = ranks_after(alloc, before.as_slice(), changes.as_slice())?;
    let outlook = Outlook {
        surveyed,
        before: before.as_slice(),
        after: after.as_slice(),
    };
    changes.sort_by_cached_key(|change| outlook.key(change))?;
    Ok(changes)
}
