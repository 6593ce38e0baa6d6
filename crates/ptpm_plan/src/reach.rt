//! Which clocks are still reached after a plan has moved clocks to other domains, and which ones stay.

ghost use Rattle.std.specs.Prelude.{◌≡◌, count_by};
ghost use Rattle.std.specs.List.{find, list_any};
ghost use Rattle.std.specs.Option.{option_copied};
ghost use Rattle.ptpm_plan.specs.Reach.{count_left_past, domain_after, has_several, is_boundary, is_left_past, is_move_of, is_out_of_reach, is_reached, leaves_some, passes_on, stays_in};

use crate::best_clock::first_octet;
use crate::change::Change;
use crate::order::hops_of;
use crate::surveyed::{Surveyed, SurveyedClock, clock_in};

/// Whether a change moves its clock to where no request reaches it: some clock before it is not in that domain after all changes.
pub(crate) fn is_out_of_reach(change: &Change, changes: &[Change], surveyed: &Surveyed) -> bool
    ensures { result ≡ is_out_of_reach changes.now surveyed.now change.now }
{
    let clocks = surveyed.clocks.as_slice();
    let domain = first_octet(&change.after);
    change.id.is_of_domain() && !is_reached(changes, clocks, domain, hops_of(surveyed, change))
}

/// Whether at each smaller number of hops some clock passes on what is of a domain.
fn is_reached(changes: &[Change], clocks: &[SurveyedClock], domain: u8, hops: u8) -> bool
    ensures { result ≡ is_reached changes.now clocks.now domain hops }
{
    let mut reached = true;
    for before in 0..hops {
        reached = reached && some_pass_on(changes, clocks, domain, before);
    }
    reached
}

/// Whether some clock this many hops away passes on what is of a domain, after all changes.
fn some_pass_on(changes: &[Change], clocks: &[SurveyedClock], domain: u8, hops: u8) -> bool
    ensures { result ≡ list_any (passes_on changes.now domain hops) clocks.now }
{
    clocks
        .iter()
        .any(|clock| passes_on(changes, domain, hops, clock))
}

fn passes_on(changes: &[Change], domain: u8, hops: u8, clock: &SurveyedClock) -> bool
    ensures { result ≡ passes_on changes.now domain hops clock.now }
{
    clock.hops == hops && has_several(clock.number_ports) && domain_after(changes, clock) == domain
}

/// Whether a number of ports is known and more than one.
fn has_several(number_ports: Option<u16>) -> bool
    ensures { result ≡ has_several number_ports }
{
    match number_ports {
        Some(ports) => 1 < ports,
        None => false,
    }
}

/// The domain of a clock after all changes.
fn domain_after(changes: &[Change], clock: &SurveyedClock) -> u8
    ensures { result ≡ domain_after changes.now clock.now }
{
    match move_of(changes, clock) {
        Some(change) => first_octet(&change.after),
        None => clock.domain,
    }
}

/// The change that moves a clock to another domain.
fn move_of<'a>(changes: &'a [Change], clock: &SurveyedClock) -> Option<&'a Change>
    ensures { option_copied result ≡ find (is_move_of clock.now) changes.now }
{
    changes.iter().find(|change| is_move_of(clock, change))
}

/// Whether a change moves a clock to another domain.
fn is_move_of(clock: &SurveyedClock, change: &Change) -> bool
    ensures { result ≡ is_move_of clock.now change.now }
{
    change.id.is_of_domain() && clock.domain == change.domain && clock.identity == change.clock
}

/// Whether a change moves a boundary clock away from clocks that stay in its domain, and may follow it.
pub(crate) fn leaves_some(change: &Change, changes: &[Change], surveyed: &Surveyed) -> bool
    ensures { result ≡ leaves_some changes.now surveyed.now change.now }
{
    change.id.is_of_domain()
        && is_boundary(change, surveyed)
        && some_stay(changes, change.domain, surveyed.clocks.as_slice())
}

/// Whether some clock stays in a domain.
fn some_stay(changes: &[Change], domain: u8, clocks: &[SurveyedClock]) -> bool
    ensures { result ≡ list_any (stays_in changes.now domain) clocks.now }
{
    clocks.iter().any(|clock| stays_in(changes, domain, clock))
}

/// Whether the clock of a change has more than one port.
fn is_boundary(change: &Change, surveyed: &Surveyed) -> bool
    ensures { result ≡ is_boundary surveyed.now change.now }
{
    let clock = clock_in(surveyed.clocks.as_slice(), change.domain, change.clock);
    clock.map_or(false, |clock| has_several(clock.number_ports))
}

/// How many clocks that stay in the domain of a change are past its clock, as far as their answers show.
pub(crate) fn count_left_past(change: &Change, changes: &[Change], surveyed: &Surveyed) -> usize
    ensures { result ≡ count_left_past changes.now surveyed.now change.now }
{
    let hops = hops_of(surveyed, change);
    surveyed
        .clocks
        .iter()
        .filter(|clock| is_left_past(changes, change.domain, hops, clock))
        .count()
}

/// Whether a clock stays in a domain, and is past more boundary clocks than these.
fn is_left_past(changes: &[Change], domain: u8, hops: u8, clock: &SurveyedClock) -> bool
    ensures { result ≡ is_left_past changes.now domain hops clock.now }
{
    stays_in(changes, domain, clock) && hops < clock.hops
}

/// Whether a clock is in a domain, and is not moved.
fn stays_in(changes: &[Change], domain: u8, clock: &SurveyedClock) -> bool
    ensures { result ≡ stays_in changes.now domain clock.now }
{
    clock.domain == domain && domain_after(changes, clock) == domain
}
