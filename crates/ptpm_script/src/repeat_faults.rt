//! What may be given only once in a network file.

ghost use Rattle.std.specs.Prelude.{◌≡◌, IfOk, [], is_some, map, option_map};
ghost use Rattle.std.specs.List.{list_any};
ghost use Rattle.toml.specs.View.{view, table_view};
ghost use Rattle.ptpm_script.specs.Spellings.{passes};
ghost use Rattle.ptpm_codec.specs.Identity.{same_clock, same_identity};
ghost use Rattle.ptpm_script.specs.Heads.{clock_value, end_value, number_in, session_value};
ghost use Rattle.ptpm_script.specs.Marks.{Adds, each_after, spot_of};
ghost use Rattle.ptpm_script.specs.RepeatFaults.{clock_repeats, end_repeats, is_clock_identity, is_clock_name, is_number_of, is_same_end, is_session_identity, is_session_name, port_repeats, repeat_marks, session_repeats, twice_if};

use crate::fault::{Found, Wanted};
use crate::faults::{Added, Faults};
use crate::heads::{ClockHead, EndHead, Heads, SessionHead, number_in};
use crate::name_faults::{clock_named, session_named};
use crate::net_error::NetError;
use crate::place::{Place, TableAt};
use crate::tables::{is_number, items_at};
use crate::values::u16_at;
use ptpm_codec::{ClockIdentity, PortIdentity};
use std::alloc::{AllocError, Global};
use toml::Value;

impl<'a> Faults<'a> {
    /// Adds a fault for each port's number, name, identity and end that was given before it.
    #[tactic(auto, unfolding(crate::specs::RepeatFaults::repeat_marks))]
    pub(crate) fn add_repeat_faults(&mut self, heads: &Heads<'a>) -> Added
        ensures { Adds result self.old self.new
            (repeat_marks (map clock_value heads.now.clocks.items) (map session_value heads.now.sessions.items) (map end_value heads.now.ends.items)) }
    {
        let clocks = heads.clocks.as_slice();
        self.add_clock_repeats(clocks)?;
        self.add_session_repeats(clocks, heads.sessions.as_slice())?;
        self.add_end_repeats(heads.ends.as_slice())
    }

    /// Adds a fault if the value at a key is at another place too.
    fn add_once(&mut self, at: TableAt<'a>, key: &'static str, other: Option<Place<'a>>) -> Added
        ensures { Adds result self.old self.new
            (twice_if (is_some other.entry) (spot_of at.entry.place) key.now (table_view at.entry.table.now)) }
    {
        self.add_at(NetError::Twice, at, key, other.map(Wanted::Once))
    }

    #[tactic(auto, unfolding(crate::specs::RepeatFaults::clock_repeats))]
    fn add_clock_repeats(&mut self, clocks: &[ClockHead<'a>]) -> Added
        ensures { Adds result self.old self.new (each_after clock_repeats [] (map clock_value clocks.now)) }
    {
        for index in 0..clocks.len() {
            let (before, clock) = (&clocks[..index], &clocks[index]);
            self.add_port_repeats(clock, items_at(clock.at.table, "port"))?;
            self.add_once(clock.at, "name", place_of_clock(before, clock.name))?;
            self.add_once(clock.at, "identity", clock_of(before, clock.identity))?;
        }
        Ok(())
    }

    /// Adds a fault for each table of a port of this clock whose number is that of one before.
    fn add_port_repeats(&mut self, clock: &ClockHead<'a>, ports: &'a [Value]) -> Added
        ensures { Adds result self.old self.new (each_after (port_repeats clock.now.number) [] (map view ports.now)) }
    {
        let numbers = numbers_of(self.alloc, ports)?;
        for index in 0..ports.len() {
            self.add_port_repeat(clock, &ports[..index], &numbers[..index], &ports[index])?;
        }
        Ok(())
    }

    #[tactic(auto, unfolding(crate::specs::RepeatFaults::port_repeats))]
    fn add_port_repeat(
        &mut self,
        clock: &ClockHead<'a>,
        before: &[Value],
        numbers: &[Option<u16>],
        port: &'a Value,
    ) -> Added
        requires { numbers.now ≡ map number_in (map view before.now) }
        ensures { Adds result self.old self.new (port_repeats clock.now.number (map view before.now) (view port.now)) }
    {
        let Some(table) = port.as_table() else {
            return Ok(());
        };
        let place = Place::Port(clock.number, clock.name, before.len() + 1);
        let other = port_before(numbers, u16_at(table, "number"));
        let other = other.map(|number| Place::Port(clock.number, clock.name, number));
        self.add_once(TableAt { place, table }, "number", other)
    }

    /// Adds a fault for each of a session's name and identity that a clock or a session before it has too.
    #[tactic(auto, unfolding(crate::specs::RepeatFaults::session_repeats))]
    fn add_session_repeats(
        &mut self,
        clocks: &[ClockHead<'a>],
        sessions: &[SessionHead<'a>],
    ) -> Added
        ensures { Adds result self.old self.new
            (each_after (session_repeats (map clock_value clocks.now)) [] (map session_value sessions.now)) }
    {
        for index in 0..sessions.len() {
            let (before, session) = (&sessions[..index], &sessions[index]);
            self.add_once(session.at, "name", place_of_clock(clocks, session.name))?;
            self.add_once(session.at, "name", place_of_session(before, session.name))?;
            let clock = session.identity.map(|identity| identity.clock);
            let wanted = clock_of(clocks, clock).map(Wanted::OtherClock);
            self.add_at(NetError::Twice, session.at, "identity", wanted)?;
            self.add_once(session.at, "identity", session_of(before, session.identity))?;
        }
        Ok(())
    }

    #[tactic(auto, unfolding(crate::specs::RepeatFaults::end_repeats))]
    fn add_end_repeats(&mut self, ends: &[EndHead<'a>]) -> Added
        ensures { Adds result self.old self.new (each_after end_repeats [] (map end_value ends.now)) }
    {
        for index in 0..ends.len() {
            let end = &ends[index];
            if let Some(other) = same_end(&ends[..index], end) {
                let found = Found::Item("ends", end.number, end.value);
                self.add(NetError::Twice, end.place, found, Wanted::Once(other))?;
            }
        }
        Ok(())
    }
}

/// The numbers of ports' tables. A file may have some ten thousand of these, so each is looked up once.
fn numbers_of(alloc: Global, ports: &[Value]) -> Result<Vec<Option<u16>>, AllocError>
    ensures { IfOk result (λ numbers. numbers.items ≡ map number_in (map view ports.now)) }
{
    let mut numbers = Vec::with_capacity(alloc, ports.len())?;
    for port in ports {
        numbers.push(number_in(port))?;
    }
    Ok(numbers)
}

/// The first table of a port's number, from 1.
fn port_before(numbers: &[Option<u16>], number: Option<u16>) -> Option<usize>
    ensures { is_some result ≡ passes (is_number_of numbers.now) number }
{
    let wanted = number?;
    for index in 0..numbers.len() {
        if is_number(numbers[index], wanted) {
            return Some(index + 1);
        }
    }
    None
}

/// The place of the first clock of a name.
#[tactic(auto, using(crate::proofs::ItemLemmas::any_found))]
fn place_of_clock<'a>(clocks: &[ClockHead<'a>], name: Option<&str>) -> Option<Place<'a>>
    ensures { is_some result
        ≡ passes (is_clock_name (map clock_value clocks.now)) (option_map (λ n. n.now) name.entry) }
{
    Some(clock_named(clocks, name?)?.at.place)
}

/// The place of the first clock of a clockIdentity.
fn clock_of<'a>(clocks: &[ClockHead<'a>], identity: Option<ClockIdentity>) -> Option<Place<'a>>
    ensures { is_some result ≡ passes (is_clock_identity (map clock_value clocks.now)) identity }
{
    let wanted = identity?;
    for clock in clocks {
        if is_clock(clock.identity, wanted) {
            return Some(clock.at.place);
        }
    }
    None
}

/// The place of the first session of a name.
#[tactic(auto, using(crate::proofs::ItemLemmas::any_found))]
fn place_of_session<'a>(sessions: &[SessionHead<'a>], name: Option<&str>) -> Option<Place<'a>>
    ensures { is_some result
        ≡ passes (is_session_name (map session_value sessions.now)) (option_map (λ n. n.now) name.entry) }
{
    Some(session_named(sessions, name?)?.at.place)
}

/// The place of the first session of a portIdentity.
fn session_of<'a>(sessions: &[SessionHead<'a>], identity: Option<PortIdentity>) -> Option<Place<'a>>
    ensures { is_some result
        ≡ passes (is_session_identity (map session_value sessions.now)) identity }
{
    let wanted = identity?;
    for session in sessions {
        if is_identity(session.identity, wanted) {
            return Some(session.at.place);
        }
    }
    None
}

/// The place of the first end that is the same as one.
fn same_end<'a>(ends: &[EndHead<'a>], end: &EndHead<'a>) -> Option<Place<'a>>
    ensures { is_some result ≡ list_any (is_same_end (end_value end.now)) (map end_value ends.now) }
{
    for other in ends {
        if other.name == end.name && other.port == end.port {
            return Some(other.place);
        }
    }
    None
}

fn is_clock(identity: Option<ClockIdentity>, wanted: ClockIdentity) -> bool
    ensures { result ≡ passes (λ i. same_clock i wanted) identity }
{
    identity.is_some_and(|identity| identity == wanted)
}

fn is_identity(identity: Option<PortIdentity>, wanted: PortIdentity) -> bool
    ensures { result ≡ passes (λ i. same_identity i wanted) identity }
{
    identity.is_some_and(|identity| identity == wanted)
}
