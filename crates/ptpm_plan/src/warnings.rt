//! Of what a plan warns.

ghost use Rattle.std.specs.Prelude.{◌≡◌, ◌++◌, ◌^◌, nat_lt, IfOk, OnOk, flat_map};
ghost use Rattle.std.specs.List.{filter_map};
ghost use Rattle.std.specs.Option.{option_to_list};
ghost use Rattle.ptpm_plan.specs.BestClock.{is_worse_time};
ghost use Rattle.ptpm_data.specs.declared.management_id.Layout.TheVariants as layouts;
ghost use Rattle.ptpm_data.specs.ManagementId.{set_of};
ghost use Rattle.ptpm_data.specs.Refusals.{is_set_value};
ghost use Rattle.ptpm_plan.specs.PlannedId.{setting_of};
ghost use Rattle.ptpm_plan.specs.Warnings.{AddsImpatient, AreWarnings, below_doublings, cut_off, is_taken, is_taken_of_clock, mechanism, of_best, of_change, of_changes, of_clock, often, refusal, twice, unjudged, unreached, worse_time};

use crate::best_clock::{BestClocks, Rank, first_octet, is_at_stake};
use crate::change::{Change, PlannedId};
use crate::reach::{count_left_past, is_out_of_reach, leaves_some};
use crate::surveyed::{Surveyed, SurveyedClock, SurveyedPort};
use crate::warning::Warning;
use ptpm_codec::PortIdentity;
use ptpm_data::{PortSetting, PortState, Value};
use std::alloc::{AllocError, Global};

/// The warnings of a plan with these changes, in the order in which they are asked. `best` are its best clocks.
pub fn warnings_of(
    alloc: Global,
    changes: &[Change],
    best: &[BestClocks],
    surveyed: &Surveyed,
) -> Result<Vec<Warning>, AllocError>
    ensures { IfOk result (λ v. AreWarnings changes.now best.now surveyed.now v.items) }
{
    let mut found = refusals(alloc, changes)?;
    add_of_clocks(surveyed.clocks.as_slice(), changes, &mut found)?;
    add_of_all(best, &mut found)?;
    add_impatient(alloc, changes, surveyed, &mut found)?;
    add_of_changes(changes, surveyed, &mut found)?;
    Ok(found)
}

fn add(warning: Option<Warning>, found: &mut Vec<Warning>) -> Result<(), AllocError>
    ensures { OnOk result (found.new.items ≡ found.old.items ++ option_to_list warning) }
{
    if let Some(warning) = warning {
        found.push(warning)?;
    }
    Ok(())
}

/// Adds what there is to warn of in each clock that answered.
fn add_of_clocks(
    clocks: &[SurveyedClock],
    changes: &[Change],
    found: &mut Vec<Warning>,
) -> Result<(), AllocError>
    ensures { OnOk result (found.new.items ≡ found.old.items ++ flat_map (of_clock changes.now) clocks.now) }
{
    for clock in clocks {
        add_of_clock(clock, changes, found)?;
    }
    Ok(())
}

fn add_of_clock(
    clock: &SurveyedClock,
    changes: &[Change],
    found: &mut Vec<Warning>,
) -> Result<(), AllocError>
    ensures { OnOk result (found.new.items ≡ found.old.items ++ of_clock changes.now clock.now) }
{
    add(twice(clock), found)?;
    add(unjudged(clock, changes), found)
}

/// Adds what there is to warn of in the best clocks of each domain.
fn add_of_all(best: &[BestClocks], found: &mut Vec<Warning>) -> Result<(), AllocError>
    ensures { OnOk result (found.new.items ≡ found.old.items ++ flat_map of_best best.now) }
{
    for of_domain in best {
        add_of_best(of_domain, found)?;
    }
    Ok(())
}

/// Adds what there is to warn of in each change.
fn add_of_changes(
    changes: &[Change],
    surveyed: &Surveyed,
    found: &mut Vec<Warning>,
) -> Result<(), AllocError>
    ensures { OnOk result (found.new.items ≡ found.old.items ++ of_changes (of_change changes.now surveyed.now) 1 changes.now) }
{
    for place in 0..changes.len() {
        add_of_change(place + 1, &changes[place], changes, surveyed, found)?;
    }
    Ok(())
}

/// Adds what there is to warn of in a change, by its number.
fn add_of_change(
    number: usize,
    change: &Change,
    changes: &[Change],
    surveyed: &Surveyed,
    found: &mut Vec<Warning>,
) -> Result<(), AllocError>
    ensures { OnOk result (found.new.items ≡ found.old.items ++ of_change changes.now surveyed.now number change.now) }
{
    add(mechanism(number, change), found)?;
    add(unreached(number, change, changes, surveyed), found)?;
    add(cut_off(number, change, changes, surveyed), found)
}

/// A change of how a port measures delay.
fn mechanism(number: usize, change: &Change) -> Option<Warning>
    ensures { result ≡ mechanism number change.now }
{
    match change.id {
        PlannedId::DelayMechanism => Some(Warning::Mechanism(number)),
        _ => None,
    }
}

/// A change moves its clock to where no request reaches it.
fn unreached(
    number: usize,
    change: &Change,
    changes: &[Change],
    surveyed: &Surveyed,
) -> Option<Warning>
    ensures { result ≡ unreached changes.now surveyed.now number change.now }
{
    if is_out_of_reach(change, changes, surveyed) {
        let domain = first_octet(&change.after);
        Some(Warning::OutOfReach(number, change.clock, domain))
    } else {
        None
    }
}

/// A boundary clock moves away from clocks that may follow it.
fn cut_off(
    number: usize,
    change: &Change,
    changes: &[Change],
    surveyed: &Surveyed,
) -> Option<Warning>
    ensures { result ≡ cut_off changes.now surveyed.now number change.now }
{
    if leaves_some(change, changes, surveyed) {
        let count = count_left_past(change, changes, surveyed);
        Some(Warning::CutOff(number, change.clock, count))
    } else {
        None
    }
}

/// Two clocks have one identity.
fn twice(clock: &SurveyedClock) -> Option<Warning>
    ensures { result ≡ twice clock.now }
{
    if clock.is_twice {
        Some(Warning::Twice(clock.domain, clock.identity))
    } else {
        None
    }
}

/// The rank of a clock is not known, and a change bears on the best clock of its domain.
fn unjudged(clock: &SurveyedClock, changes: &[Change]) -> Option<Warning>
    ensures { result ≡ unjudged changes.now clock.now }
{
    if clock.precedence.is_none() && is_at_stake(clock.domain, changes) {
        Some(Warning::Unjudged(clock.domain, clock.identity))
    } else {
        None
    }
}

/// Adds what there is to warn of in the best clocks of a domain.
fn add_of_best(best: &BestClocks, found: &mut Vec<Warning>) -> Result<(), AllocError>
    ensures { OnOk result (found.new.items ≡ found.old.items ++ of_best best.now) }
{
    add(often(best), found)?;
    add(worse_time(best), found)
}

/// The best clock changes more than once.
fn often(best: &BestClocks) -> Option<Warning>
    ensures { result ≡ often best.now }
{
    let times = best.alterations.len();
    if times > 1 {
        Some(Warning::BestClock(best.domain, times))
    } else {
        None
    }
}

/// The best clock gets a worse clockClass, or the same and a worse clockAccuracy; or no clock can lead any more.
fn worse_time(best: &BestClocks) -> Option<Warning>
    ensures { result ≡ worse_time best.now }
{
    let Some(after) = best.after else {
        return Some(Warning::NoBestClock(best.domain));
    };
    if is_worse_time(best.before, after) {
        Some(Warning::WorseTime(best.domain, best.before, after))
    } else {
        None
    }
}

fn is_worse_time(before: Rank, after: Rank) -> bool
    ensures { result ≡ is_worse_time before after }
{
    before.class < after.class || before.class == after.class && before.accuracy < after.accuracy
}

/// The values that a clock with this project's agent refuses.
fn refusals(alloc: Global, changes: &[Change]) -> Result<Vec<Warning>, AllocError>
    ensures { IfOk result (λ found. found.items ≡ filter_map refusal changes.now) }
{
    changes
        .iter()
        .filter_map(|change| refusal(change))
        .collect(alloc)
}

fn refusal(change: &Change) -> Option<Warning>
    ensures { result ≡ refusal change.now }
{
    if is_taken(change) {
        return None;
    }
    let port = PortIdentity {
        clock: change.clock,
        port: change.port,
    };
    Some(Warning::Refused(port, change.id))
}

fn is_taken(change: &Change) -> bool
    ensures { result ≡ is_taken change.now (setting_of change.now.id) }
{
    match change.id.setting() {
        Some(setting) => setting.allows(first_octet(&change.after)),
        None => is_taken_of_clock(change.id, change.after.as_slice()),
    }
}

/// Whether such a clock takes a dataField of an id of the clock.
fn is_taken_of_clock(id: PlannedId, octets: &[u8]) -> bool
    ensures { result ≡ is_taken_of_clock id octets.now }
{
    match id {
        PlannedId::ClockAccuracy => is_clock_accuracy(octets),
        PlannedId::UtcProperties => has_one_leap(octets),
        _ => true,
    }
}

#[tactic(auto, unfolding(ptpm_data::specs::Refusals::is_set_value, ptpm_data::specs::ManagementId::set_of))]
fn is_clock_accuracy(octets: &[u8]) -> bool
    ensures { result ≡ is_set_value (set_of layouts.ClockAccuracy) octets.now }
{
    match octets {
        [octet, ..] => matches!(*octet, 0x17..=0x31 | 0xfe),
        [] => false,
    }
}

/// Whether at most one of leap61 and leap59 is set.
#[tactic(auto, unfolding(ptpm_data::specs::Refusals::is_set_value, ptpm_data::specs::ManagementId::set_of))]
fn has_one_leap(octets: &[u8]) -> bool
    ensures { result ≡ is_set_value (set_of layouts.UtcProperties) octets.now }
{
    match octets {
        [_, _, flags, ..] => !(*flags & 1 == 1 && *flags & 2 == 2),
        _ => true,
    }
}

/// A port that sends Announces, or waits for them.
#[derive(Clone, Copy)]
struct Announcing {
    port: SurveyedPort,
    /// It waited for less than two Announces before.
    is_known: bool,
}

impl Announcing {
    fn is_sender(&self) -> bool {
        self.port.state == Some(PortState::Master)
    }

    /// The octet of a setting.
    fn octet(&self, setting: PortSetting) -> u8 {
        self.port.settings[setting.place()]
    }

    fn log_interval(&self) -> i8 {
        self.octet(PortSetting::LogAnnounceInterval).cast_signed()
    }

    /// Carries out a change, if it is one of this port.
    fn take(&mut self, change: &Change) {
        let port = &mut self.port;
        let is_one = change.domain == port.domain && change.clock == port.clock;
        if is_one && change.port == port.number {
            if let Some(setting) = change.id.setting() {
                port.settings[setting.place()] = first_octet(&change.after);
            }
        }
    }

    /// Whether it waits for less than two intervals of a sender, and did not before. Intervals are logarithms to the base 2 of seconds.
    fn becomes_impatient(&mut self, domain: u8, slowest: i8) -> bool {
        let timeout = self.octet(PortSetting::AnnounceReceiptTimeout);
        let doublings = i16::from(slowest) + 1 - i16::from(self.log_interval());
        let is_one = self.port.domain == domain
            && !self.is_sender()
            && !self.is_known
            && is_below_doublings(doublings, timeout);
        self.is_known |= is_one;
        is_one
    }
}

/// Whether an octet is below a power of 2, whose exponent may be negative.
fn is_below_doublings(doublings: i16, octet: u8) -> bool
    ensures { result ≡ below_doublings doublings octet }
{
    if doublings < 0 {
        octet == 0
    } else {
        is_below_power(octet, doublings.unsigned_abs())
    }
}

/// Whether an octet is below a power of 2.
fn is_below_power(octet: u8, exponent: u16) -> bool
    ensures { result ≡ nat_lt octet (2 ^ exponent) }
{
    if exponent < 8 {
        u16::from(octet) < 1 << exponent
    } else {
        true
    }
}

/// The longest interval at which a port in MASTER of a domain sends Announces.
fn slowest_sender(domain: u8, ports: &[Announcing]) -> Option<i8> {
    ports
        .iter()
        .filter(|port| port.is_sender() && port.port.domain == domain)
        .map(|port| port.log_interval())
        .max()
}

/// Adds the ports of a domain that wait for less than two Announces from a change on.
fn add_newly_impatient(
    number: usize,
    domain: u8,
    ports: &mut [Announcing],
    found: &mut Vec<Warning>,
) -> Result<(), AllocError>
    ensures { OnOk result (AddsImpatient found.old.items found.new.items) }
{
    let Some(slowest) = slowest_sender(domain, ports) else {
        return Ok(());
    };
    for port in ports.iter_mut() {
        if port.becomes_impatient(domain, slowest) {
            let (clock, port) = (port.port.clock, port.port.number);
            found.push(Warning::Impatient(number, PortIdentity { clock, port }))?;
        }
    }
    Ok(())
}

/// Adds the ports that may lose their masters meanwhile, each after the first change from which on it waits for less than two Announces.
fn add_impatient(
    alloc: Global,
    changes: &[Change],
    surveyed: &Surveyed,
    found: &mut Vec<Warning>,
) -> Result<(), AllocError>
    ensures { OnOk result (AddsImpatient found.old.items found.new.items) }
{
    let of = |port: &SurveyedPort| Announcing {
        port: *port,
        is_known: false,
    };
    let mut ports: Vec<Announcing> = surveyed.ports.iter().map(of).collect(alloc)?;
    let mut known = Vec::new(alloc);
    for change in changes {
        add_newly_impatient(0, change.domain, ports.as_mut_slice(), &mut known)?;
    }
    for (place, change) in changes.iter().enumerate() {
        for port in ports.iter_mut() {
            port.take(change);
        }
        add_newly_impatient(place + 1, change.domain, ports.as_mut_slice(), found)?;
    }
    Ok(())
}
