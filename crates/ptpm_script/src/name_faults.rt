//! Targets, ends and ports that are not there.

ghost use Rattle.std.specs.Prelude.{◌≡◌, IfOk, bytes_eq, find, flat_map, is_some, map, option_map};
ghost use Rattle.std.specs.Option.{option_copied};
ghost use Rattle.toml.specs.View.{view};
ghost use Rattle.ptpm_script.specs.Spellings.{passes};
ghost use Rattle.ptpm_script.specs.Heads.{clock_value, end_value, session_value};
ghost use Rattle.ptpm_script.specs.Marks.{Adds, each};
ghost use Rattle.ptpm_script.specs.NameFaults.{clock_named, clock_past_ports, end_name_marks, is_no_clock, is_no_end, is_past, lacks, name_marks, past_port, ports_of, target_marks};

use crate::fault::{Found, Names, Wanted};
use crate::faults::{Added, Faults};
use crate::heads::{ClockHead, EndHead, Heads, SessionHead};
use crate::limits::CLOCK_PORTS;
use crate::nearest::nearest;
use crate::net_error::NetError;
use crate::place::{Place, TableAt};
use crate::tables::{is_name_of, items_at};
use crate::values::u16_at;
use std::alloc::{AllocError, Global};
use toml::Value;

impl<'a> Faults<'a> {
    /// Adds a fault for each port's table, target and end that is not there.
    #[tactic(auto, unfolding(crate::specs::NameFaults::name_marks))]
    pub(crate) fn add_name_faults(&mut self, heads: &Heads<'a>) -> Added
        ensures { Adds result self.old self.new
            (name_marks (map clock_value heads.now.clocks.items) (map session_value heads.now.sessions.items) (map end_value heads.now.ends.items)) }
    {
        let clocks = heads.clocks.as_slice();
        let sessions = heads.sessions.as_slice();
        self.add_past_ports(clocks)?;
        self.add_targets(clocks, sessions)?;
        self.add_ends(clocks, sessions, heads.ends.as_slice())
    }

    /// Adds a fault for each port's table of a clock that is of no port of it.
    #[tactic(auto, unfolding(crate::specs::NameFaults::clock_past_ports))]
    fn add_past_ports(&mut self, clocks: &[ClockHead<'a>]) -> Added
        ensures { Adds result self.old self.new (flat_map clock_past_ports (map clock_value clocks.now)) }
    {
        for clock in clocks {
            if let Some(count) = ports_of(clock) {
                self.add_tables_past(clock, count, items_at(clock.at.table, "port"))?;
            }
        }
        Ok(())
    }

    fn add_tables_past(&mut self, clock: &ClockHead<'a>, count: u16, ports: &'a [Value]) -> Added
        ensures { Adds result self.old self.new (each (past_port clock.now.number count) 1 (map view ports.now)) }
    {
        for index in 0..ports.len() {
            if let Some(table) = ports[index].as_table() {
                let place = Place::Port(clock.number, clock.name, index + 1);
                let at = TableAt { place, table };
                let wanted = other_port(u16_at(table, "number"), count);
                self.add_at(NetError::NoSuchName, at, "number", wanted)?;
            }
        }
        Ok(())
    }

    /// Adds a fault for each target that is not there.
    #[tactic(auto, unfolding(crate::specs::NameFaults::target_marks))]
    fn add_targets(&mut self, clocks: &[ClockHead<'a>], sessions: &[SessionHead<'a>]) -> Added
        ensures { Adds result self.old self.new
            (flat_map (target_marks (map clock_value clocks.now)) (map session_value sessions.now)) }
    {
        for session in sessions {
            let wanted = other_target(self.alloc, clocks, session.target)?;
            self.add_at(NetError::NoSuchName, session.at, "target", wanted)?;
        }
        Ok(())
    }

    /// Adds a fault for each end that is not there.
    #[tactic(auto, unfolding(crate::specs::NameFaults::end_name_marks))]
    fn add_ends(
        &mut self,
        clocks: &[ClockHead<'a>],
        sessions: &[SessionHead<'a>],
        ends: &[EndHead<'a>],
    ) -> Added
        ensures { Adds result self.old self.new
            (flat_map (end_name_marks (map clock_value clocks.now) (map session_value sessions.now)) (map end_value ends.now)) }
    {
        for end in ends {
            if let Some(wanted) = other_end(self.alloc, clocks, sessions, end)? {
                let found = Found::Item("ends", end.number, end.value);
                self.add(NetError::NoSuchName, end.place, found, wanted)?;
            }
        }
        Ok(())
    }
}

/// How many ports a clock has, if it can start with this many. The ports of another are not looked at.
fn ports_of(clock: &ClockHead<'_>) -> Option<u16>
    ensures { result ≡ ports_of (clock_value clock.now) }
{
    clock
        .count
        .filter(|count| 1 <= *count && *count <= CLOCK_PORTS)
}

/// What a port's number may be, if it is none of a clock with this many ports.
fn other_port(number: Option<u16>, count: u16) -> Option<Wanted<'static>>
    ensures { is_some result ≡ passes (is_past count) number }
{
    match number {
        Some(number) if number == 0 || count < number => Some(Wanted::PortUpTo(count)),
        _ => None,
    }
}

/// The first clock of a name.
pub(crate) fn clock_named<'h, 'a>(
    clocks: &'h [ClockHead<'a>],
    name: &str,
) -> Option<&'h ClockHead<'a>>
    ensures { option_copied result ≡ find (λ c. passes (λ n. bytes_eq n name.now) (clock_value c).name) clocks.now }
{
    clocks.iter().find(|clock| is_name_of(clock.name, name))
}

/// The first session of a name.
pub(crate) fn session_named<'h, 'a>(
    sessions: &'h [SessionHead<'a>],
    name: &str,
) -> Option<&'h SessionHead<'a>>
    ensures { option_copied result ≡ find (λ s. passes (λ n. bytes_eq n name.now) (session_value s).name) sessions.now }
{
    sessions
        .iter()
        .find(|session| is_name_of(session.name, name))
}

/// What a clock's name may be instead of one that no clock has.
fn other_clock<'a>(
    alloc: Global,
    name: &str,
    clocks: &[ClockHead<'a>],
) -> Result<Wanted<'a>, AllocError> {
    let names: Vec<&'a str> = clocks.iter().filter_map(|clock| clock.name).collect(alloc)?;
    Ok(Wanted::Known(Names::Clock, nearest(alloc, name, names.as_slice())?))
}

/// What a target may be, if it is not there.
#[tactic(auto, using(crate::proofs::ItemLemmas::any_found))]
fn other_target<'a>(
    alloc: Global,
    clocks: &[ClockHead<'a>],
    target: Option<&str>,
) -> Result<Option<Wanted<'a>>, AllocError>
    ensures { IfOk result
        (λ wanted. is_some wanted
        ≡ passes (is_no_clock (map clock_value clocks.now)) (option_map (λ n. n.now) target.entry)) }
{
    match target {
        Some(target) if clock_named(clocks, target).is_none() => {
            Ok(Some(other_clock(alloc, target, clocks)?))
        }
        _ => Ok(None),
    }
}

/// What an end that is not there may be instead; `None` if it is there.
#[tactic(auto, using(crate::proofs::ItemLemmas::any_found))]
fn other_end<'a>(
    alloc: Global,
    clocks: &[ClockHead<'a>],
    sessions: &[SessionHead<'a>],
    end: &EndHead<'a>,
) -> Result<Option<Wanted<'a>>, AllocError>
    ensures { IfOk result
        (λ wanted. is_some wanted
        ≡ is_no_end (map clock_value clocks.now) (map session_value sessions.now) end.now.name.now end.now.port) }
{
    match end.port {
        Some(port) => other_clock_port(alloc, clocks, end.name, port),
        None if session_named(sessions, end.name).is_some() => Ok(None),
        None => {
            let names: Vec<&'a str> = sessions
                .iter()
                .filter_map(|other| other.name)
                .collect(alloc)?;
            let near = nearest(alloc, end.name, names.as_slice())?;
            Ok(Some(Wanted::Known(Names::Session, near)))
        }
    }
}

/// The same of a clock's port.
#[tactic(auto, using(crate::proofs::ItemLemmas::found_shown))]
fn other_clock_port<'a>(
    alloc: Global,
    clocks: &[ClockHead<'a>],
    name: &str,
    port: u16,
) -> Result<Option<Wanted<'a>>, AllocError>
    ensures { IfOk result
        (λ wanted. is_some wanted ≡ lacks (clock_named (map clock_value clocks.now) name.now) port) }
{
    let Some(clock) = clock_named(clocks, name) else {
        return Ok(Some(other_clock(alloc, name, clocks)?));
    };
    match ports_of(clock) {
        Some(count) => Ok(other_port(Some(port), count)),
        None => Ok(None),
    }
}
