//! Which clock of a domain is the best one (9.3.4), now and after each change of a plan. This is no forecast of the states of ports. A
//! clock that can't lead is none.

ghost use Rattle.std.specs.Prelude.{◌≡◌, IfOk, count_by, length, map, option_map};
ghost use Rattle.std.specs.List.{find, list_any};
ghost use Rattle.std.specs.Option.{option_copied};
ghost use Rattle.ptpm_codec.specs.Layout.{octet};
ghost use Rattle.ptpm_plan.specs.BestClock.{after_change, altered, alterations, bears_on, best_clocks, best_clocks_in, best_in, can_lead, changes_rank, has_more, is_better, is_down, is_down_port, is_move_at, is_of_domain, is_of_rank, moved, moves, precedence_in, rank_of, rank_with, ranked, ranks_after, ranks_at_end, ranks_of, shown};

use crate::change::{Change, PlannedId};
use crate::octets::{octet, pair_at};
use crate::surveyed::{Surveyed, SurveyedClock, SurveyedPort};
use ptpm_codec::ClockIdentity;
use ptpm_data::{ClockPrecedence, PortState, Value};
use std::alloc::{AllocError, Global};

/// What decides which of two clocks is the better master, one member after the other (9.3.4). The lesser rank is the better one.
#[derive(Clone, Copy, PartialEq, Eq, PartialOrd, Ord)]
pub struct Rank {
    pub priority1: u8,
    /// clockClass.
    pub class: u8,
    /// clockAccuracy.
    pub accuracy: u8,
    /// offsetScaledLogVariance.
    pub variance: u16,
    pub priority2: u8,
    pub identity: ClockIdentity,
}

/// A clock of a domain with its rank.
#[derive(Clone, Copy)]
pub struct RankedClock {
    pub domain: u8,
    pub rank: Rank,
}

/// Another clock is the best one of a domain from a change on.
#[derive(Clone, Copy)]
pub struct Alteration {
    /// The number of the change, from 1.
    pub after: usize,
    /// The clock that is the best one then.
    pub clock: ClockIdentity,
}

/// Which clock of a domain is the best one.
#[derive(Drop)]
pub struct BestClocks {
    pub domain: u8,
    /// The best one now.
    pub before: Rank,
    /// The best one after all changes, those of DOMAIN too. `None` if no clock of the domain can lead then.
    pub after: Option<Rank>,
    /// Each change of a rank after which it is another one.
    pub alterations: Vec<Alteration>,
}

impl BestClocks {
    /// Whether another clock becomes the best one, or none, or it gets another clockAccuracy.
    pub(crate) fn is_altered(&self) -> bool {
        match self.after {
            Some(after) => {
                !self.alterations.is_empty()
                    || after.identity != self.before.identity
                    || after.accuracy != self.before.accuracy
            }
            None => true,
        }
    }

    /// The best one after all changes of ranks.
    pub(crate) fn last_identity(&self) -> ClockIdentity {
        match self.alterations.as_slice() {
            [.., last] => last.clock,
            [] => self.before.identity,
        }
    }
}

impl PlannedId {
    /// Whether it is of what decides which clock is the best one.
    pub fn is_of_rank(self) -> bool
        ensures { result ≡ is_of_rank self }
    {
        matches!(
            self,
            PlannedId::Priority1 | PlannedId::Priority2 | PlannedId::ClockAccuracy
        )
    }

    /// Whether it is the domain of a clock.
    pub(crate) fn is_of_domain(self) -> bool
        ensures { result ≡ is_of_domain self }
    {
        matches!(self, PlannedId::Domain)
    }
}

/// What a DEFAULT_DATA_SET says of the clock's rank (table 69).
pub(crate) fn precedence_in(field: &[u8]) -> ClockPrecedence
    ensures { result ≡ precedence_in field.now }
{
    ClockPrecedence {
        priority1: octet(field, 4),
        class: octet(field, 5),
        accuracy: octet(field, 6),
        variance: pair_at(field, 7),
        priority2: octet(field, 9),
    }
}

impl Rank {
    /// Whether it is the better one of two.
    #[tactic(auto, unfolding(crate::specs::BestClock::is_better))]
    pub fn is_better(&self, other: &Rank) -> bool
        ensures { result ≡ is_better self.now other.now }
    {
        self.cmp(other).is_lt()
    }

    fn of(identity: ClockIdentity, precedence: ClockPrecedence) -> Rank
        ensures { result ≡ rank_of identity precedence }
    {
        Rank {
            priority1: precedence.priority1,
            class: precedence.class,
            accuracy: precedence.accuracy,
            variance: precedence.variance,
            priority2: precedence.priority2,
            identity,
        }
    }

    /// This rank with another value of an id's member.
    fn with(mut self, id: PlannedId, value: u8) -> Rank
        ensures { result ≡ rank_with id value self }
    {
        match id {
            PlannedId::Priority1 => self.priority1 = value,
            PlannedId::Priority2 => self.priority2 = value,
            PlannedId::ClockAccuracy => self.accuracy = value,
            _ => {}
        }
        self
    }
}

/// Whether a clock may become grandmaster: it is not slaveOnly, and not each of its ports is in FAULTY or DISABLED.
fn can_lead(surveyed: &Surveyed, clock: &SurveyedClock) -> bool
    ensures { result ≡ can_lead surveyed.now clock.now }
{
    !clock.slave_only
        && has_more(
            count_down(surveyed.ports.as_slice(), clock),
            clock.number_ports,
        )
}

/// Whether a number of ports is known, and greater than this.
fn has_more(count: usize, number_ports: Option<u16>) -> bool
    ensures { result ≡ has_more count number_ports }
{
    match number_ports {
        Some(ports) => count < usize::from(ports),
        None => false,
    }
}

/// How many ports of a clock are in FAULTY or DISABLED.
fn count_down(ports: &[SurveyedPort], clock: &SurveyedClock) -> usize
    ensures { result ≡ count_by (is_down_port clock.now) ports.now }
{
    ports
        .iter()
        .filter(|port| is_down_port(clock, port))
        .count()
}

fn is_down_port(clock: &SurveyedClock, port: &SurveyedPort) -> bool
    ensures { result ≡ is_down_port clock.now port.now }
{
    port.domain == clock.domain && port.clock == clock.identity && is_down(port.state)
}

fn is_down(state: Option<PortState>) -> bool
    ensures { result ≡ is_down state }
{
    matches!(state, Some(PortState::Faulty) | Some(PortState::Disabled))
}

impl RankedClock {
    /// A clock with its rank, if its DEFAULT_DATA_SET was answered and it can lead.
    fn of(surveyed: &Surveyed, clock: &SurveyedClock) -> Option<RankedClock>
        ensures { result ≡ ranked surveyed.now clock.now }
    {
        if !can_lead(surveyed, clock) {
            return None;
        }
        Some(RankedClock {
            domain: clock.domain,
            rank: Rank::of(clock.identity, clock.precedence?),
        })
    }

    /// Whether a change is one of this clock's rank.
    fn is_changed_by(&self, change: &Change) -> bool
        ensures { result ≡ changes_rank self.now change.now }
    {
        change.id.is_of_rank() && self.domain == change.domain && self.rank.identity == change.clock
    }

    /// This clock after a change.
    fn after(mut self, change: &Change) -> RankedClock
        ensures { result ≡ after_change change.now self }
    {
        if self.is_changed_by(change) {
            self.rank = self.rank.with(change.id, first_octet(&change.after));
        }
        self
    }

    /// Whether a change moves this clock to another domain.
    fn is_moved_by(&self, change: &Change) -> bool
        ensures { result ≡ moves self.now change.now }
    {
        change.id.is_of_domain()
            && self.domain == change.domain
            && self.rank.identity == change.clock
    }

    /// The change that moves this clock.
    fn move_of<'a>(&self, changes: &'a [Change]) -> Option<&'a Change>
        ensures { option_copied result ≡ find (moves self.now) changes.now }
    {
        changes.iter().find(|change| self.is_moved_by(change))
    }

    /// This clock in the domain in which it is after all changes.
    fn moved(mut self, changes: &[Change]) -> RankedClock
        ensures { result ≡ moved changes.now self }
    {
        if let Some(change) = self.move_of(changes) {
            self.domain = first_octet(&change.after);
        }
        self
    }
}

/// The octet that a dataField begins with; 0 if it has none.
pub(crate) fn first_octet(field: &Value) -> u8
    ensures { result ≡ octet 0 field.now.items }
{
    octet(field.as_slice(), 0)
}

/// The ranks of all clocks that have one.
pub fn ranks_of(alloc: Global, surveyed: &Surveyed) -> Result<Vec<RankedClock>, AllocError>
    ensures { IfOk result (λ ranks. ranks.items ≡ ranks_of surveyed.now) }
{
    surveyed
        .clocks
        .iter()
        .filter_map(|clock| RankedClock::of(surveyed, clock))
        .collect(alloc)
}

/// Carries out a change.
fn change_ranks(ranks: &mut [RankedClock], change: &Change)
    ensures { ranks.new ≡ map (after_change change.now) ranks.old }
{
    for clock in ranks.iter_mut() {
        *clock = clock.after(change);
    }
}

/// The ranks after all changes.
pub fn ranks_after(
    alloc: Global,
    ranks: &[RankedClock],
    changes: &[Change],
) -> Result<Vec<RankedClock>, AllocError>
    ensures { IfOk result (λ after. after.items ≡ ranks_after changes.now ranks.now) }
{
    let mut after = Vec::from_slice(alloc, ranks)?;
    for change in changes {
        change_ranks(after.as_mut_slice(), change);
    }
    Ok(after)
}

/// The ranks after all changes, each in the domain of its clock then.
fn ranks_at_end(
    alloc: Global,
    ranks: &[RankedClock],
    changes: &[Change],
) -> Result<Vec<RankedClock>, AllocError>
    ensures { IfOk result (λ at_end. at_end.items ≡ ranks_at_end changes.now ranks.now) }
{
    ranks_after(alloc, ranks, changes)?
        .iter()
        .map(|clock| clock.moved(changes))
        .collect(alloc)
}

/// The least rank in a domain.
pub fn best_in(domain: u8, ranks: &[RankedClock]) -> Option<Rank>
    ensures { result ≡ best_in domain ranks.now }
{
    let mut best = None;
    for clock in ranks {
        if clock.domain == domain {
            best = match best {
                Some(best) => Some(Ord::min(best, clock.rank)),
                None => Some(clock.rank),
            };
        }
    }
    best
}

/// Whether another clock is the best one after a change.
fn altered(number: usize, was: Option<Rank>, is: Option<Rank>) -> Option<Alteration>
    ensures { result ≡ altered number was is }
{
    match (was, is) {
        (Some(was), Some(is)) if is.identity != was.identity => Some(Alteration {
            after: number,
            clock: is.identity,
        }),
        _ => None,
    }
}

/// Each change that alters which clock of a domain is the best one.
fn alterations(
    alloc: Global,
    domain: u8,
    ranks: &[RankedClock],
    changes: &[Change],
) -> Result<Vec<Alteration>, AllocError>
    ensures { IfOk result (λ found. found.items ≡ alterations domain changes.now ranks.now (length changes.now)) }
{
    let mut found = Vec::new(alloc);
    let mut after = Vec::from_slice(alloc, ranks)?;
    let mut was = best_in(domain, ranks);
    for (place, change) in changes.iter().enumerate() {
        change_ranks(after.as_mut_slice(), change);
        let is = best_in(domain, after.as_slice());
        if let Some(next) = altered(place + 1, was, is) {
            found.push(next)?;
        }
        was = is;
    }
    Ok(found)
}

/// Whether some change bears on which clock of a domain is the best one.
pub(crate) fn is_at_stake(domain: u8, changes: &[Change]) -> bool
    ensures { result ≡ list_any (bears_on domain) changes.now }
{
    changes.iter().any(|change| bears_on(domain, change))
}

/// Whether a change is one of a rank in a domain, or of a clock that leaves it or enters it.
fn bears_on(domain: u8, change: &Change) -> bool
    ensures { result ≡ bears_on domain change.now }
{
    change.id.is_of_rank() && change.domain == domain || is_move_at(domain, change)
}

fn is_move_at(domain: u8, change: &Change) -> bool
    ensures { result ≡ is_move_at domain change.now }
{
    change.id.is_of_domain() && (change.domain == domain || first_octet(&change.after) == domain)
}

/// The best clock of a domain, now and after these changes. `None` if no clock of the domain has a rank, or if no change bears on it.
#[tactic(auto, unfolding(crate::specs::BestClock::best_clocks_in))]
fn best_clocks_in(
    alloc: Global,
    domain: u8,
    ranks: &[RankedClock],
    changes: &[Change],
) -> Result<Option<BestClocks>, AllocError>
    ensures { IfOk result (λ best. option_map shown best ≡ best_clocks_in changes.now ranks.now domain) }
{
    if !is_at_stake(domain, changes) {
        return Ok(None);
    }
    let at_end = ranks_at_end(alloc, ranks, changes)?;
    match best_in(domain, ranks) {
        Some(before) => Ok(Some(BestClocks {
            domain,
            before,
            after: best_in(domain, at_end.as_slice()),
            alterations: alterations(alloc, domain, ranks, changes)?,
        })),
        None => Ok(None),
    }
}

/// The best clock of each domain on which a change bears, by the domains' numbers.
pub fn best_clocks(
    alloc: Global,
    changes: &[Change],
    surveyed: &Surveyed,
) -> Result<Vec<BestClocks>, AllocError>
    ensures { IfOk result (λ found. map shown found.items ≡ best_clocks changes.now (ranks_of surveyed.now) 256) }
{
    let ranks = ranks_of(alloc, surveyed)?;
    let mut found = Vec::new(alloc);
    for domain in 0..256u16 {
        if let Some(best) = best_clocks_in(alloc, domain as u8, ranks.as_slice(), changes)? {
            found.push(best)?;
        }
    }
    Ok(found)
}
