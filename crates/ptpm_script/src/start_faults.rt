//! Members with which a clock can't start.

ghost use Rattle.std.specs.Prelude.{◌≡◌, map};
ghost use Rattle.toml.specs.View.{view, table_view};
ghost use Rattle.ptpm_script.specs.Heads.{clock_value};
ghost use Rattle.ptpm_script.specs.Marks.{Adds, spot_of};
ghost use Rattle.ptpm_script.specs.StartFaults.{clock_start_marks, count_start_marks, grandmaster_marks, has_octet, member_mark_if, member_marks, own_mark_if, own_marks, port_member_marks, ports_start_marks, rank, rank_marks, start_marks};

use crate::fault::Wanted;
use crate::faults::{Added, Faults};
use crate::heads::{ClockHead, number_in};
use crate::limits::CLOCK_PORTS;
use crate::net_error::NetError;
use crate::place::{Place, TableAt};
use crate::starts::{SOME_CLOCK, clock_start, port_start};
use crate::tables::{is_number, items_at};
use ptpm_codec::ClockIdentity;
use ptpm_data::{ClockStart, Member, PortStart, StartError};
use toml::Value;

/// The rank of a port's table that is of no port that a clock can have.
const LAST_RANK: u16 = CLOCK_PORTS + 1;

impl<'a> Faults<'a> {
    /// Adds a fault for each number of ports, member of a clock and member of a port with which a clock can't start.
    #[tactic(auto, unfolding(crate::specs::StartFaults::start_marks, crate::specs::StartFaults::clock_start_marks))]
    pub(crate) fn add_start_faults(&mut self, clocks: &[ClockHead<'a>]) -> Added
        ensures { Adds result self.old self.new (start_marks (map clock_value clocks.now)) }
    {
        for clock in clocks {
            self.add_port_count(clock)?;
            self.add_clock_members(clock.at)?;
            self.add_port_starts(clock, items_at(clock.at.table, "port"))?;
            self.add_grandmaster(clock)?;
        }
        Ok(())
    }

    #[tactic(auto, unfolding(crate::specs::StartFaults::count_start_marks))]
    fn add_port_count(&mut self, clock: &ClockHead<'a>) -> Added
        ensures { Adds result self.old self.new (count_start_marks (clock_value clock.now)) }
    {
        let fault = match clock.count {
            Some(0) => StartError::NoPorts,
            Some(count) if CLOCK_PORTS < count => StartError::TooManyPorts,
            _ => return Ok(()),
        };
        let class = NetError::BadClock(fault);
        self.add_at(class, clock.at, "ports", Some(Wanted::Ports))
    }

    /// Adds a fault of a member, if a test holds.
    fn add_member_if(&mut self, test: bool, at: TableAt<'a>, member: Member) -> Added
        ensures { Adds result self.old self.new
            (member_mark_if test member (spot_of at.entry.place) (table_view at.entry.table.now)) }
    {
        let class = NetError::BadClock(StartError::BadValue(member));
        let wanted = test.then_some(Wanted::Start(member));
        self.add_at(class, at, member.name(), wanted)
    }

    /// Adds a fault for each member of a clock that is out of its range.
    #[tactic(auto, unfolding(crate::specs::StartFaults::member_marks))]
    fn add_clock_members(&mut self, at: TableAt<'a>) -> Added
        ensures { Adds result self.old self.new (member_marks (spot_of at.entry.place) (table_view at.entry.table.now)) }
    {
        let start = clock_start(SOME_CLOCK, 0, at.table);
        for member in &ClockStart::judged() {
            self.add_member_if(!start.is_in_range(*member), at, *member)?;
        }
        Ok(())
    }

    /// Adds a fault for each member of a clock's ports that is out of its range, in the order of the ports.
    #[tactic(auto, unfolding(crate::specs::StartFaults::ports_start_marks))]
    fn add_port_starts(&mut self, clock: &ClockHead<'a>, ports: &'a [Value]) -> Added
        ensures { Adds result self.old self.new (ports_start_marks LAST_RANK clock.now.number (map view ports.now)) }
    {
        for place in 0..LAST_RANK {
            self.add_rank(clock, ports, place + 1)?;
        }
        Ok(())
    }

    /// Adds the same for the tables of one rank.
    fn add_rank(&mut self, clock: &ClockHead<'a>, ports: &'a [Value], wanted: u16) -> Added
        ensures { Adds result self.old self.new (rank_marks clock.now.number (map view ports.now) wanted) }
    {
        for index in 0..ports.len() {
            let place = Place::Port(clock.number, clock.name, index + 1);
            match ports[index].as_table() {
                Some(table) if rank(&ports[index]) == wanted => {
                    self.add_port_members(TableAt { place, table })?
                }
                _ => {}
            }
        }
        Ok(())
    }

    #[tactic(auto, unfolding(crate::specs::StartFaults::port_member_marks))]
    fn add_port_members(&mut self, at: TableAt<'a>) -> Added
        ensures { Adds result self.old self.new (port_member_marks (spot_of at.entry.place) (table_view at.entry.table.now)) }
    {
        let start = port_start(at.table);
        for member in &PortStart::judged() {
            self.add_member_if(!start.is_in_range(*member), at, *member)?;
        }
        Ok(())
    }

    /// Adds a fault for each member of the grandmaster that is not the clock's own, if the clock is its own grandmaster.
    #[tactic(auto, unfolding(crate::specs::StartFaults::grandmaster_marks))]
    fn add_grandmaster(&mut self, clock: &ClockHead<'a>) -> Added
        ensures { Adds result self.old self.new (grandmaster_marks (clock_value clock.now)) }
    {
        let Some(identity) = clock.identity else {
            return Ok(());
        };
        let start = clock_start(identity, 0, clock.at.table);
        match start.grandmaster {
            Some(other) if other != identity => Ok(()),
            _ => self.add_own(clock.at, &start),
        }
    }

    #[tactic(auto, unfolding(crate::specs::StartFaults::own_marks))]
    fn add_own(&mut self, at: TableAt<'a>, start: &ClockStart) -> Added
        ensures { Adds result self.old self.new
            (own_marks (spot_of at.entry.place) (table_view at.entry.table.now) start.now) }
    {
        let is_own = has_octet(start.priority1, start.grandmaster_priority1);
        self.add_own_if(is_own, at, "grandmaster_priority1")?;
        let is_own = has_octet(start.clock_class, start.grandmaster_class);
        self.add_own_if(is_own, at, "grandmaster_class")?;
        let is_own = has_octet(start.clock_accuracy, start.grandmaster_accuracy);
        self.add_own_if(is_own, at, "grandmaster_accuracy")?;
        let is_own = is_number(start.grandmaster_variance, start.variance);
        self.add_own_if(is_own, at, "grandmaster_variance")?;
        let is_own = has_octet(start.priority2, start.grandmaster_priority2);
        self.add_own_if(is_own, at, "grandmaster_priority2")
    }

    fn add_own_if(&mut self, is_own: bool, at: TableAt<'a>, key: &'static str) -> Added
        ensures { Adds result self.old self.new
            (own_mark_if is_own (spot_of at.entry.place) key.now (table_view at.entry.table.now)) }
    {
        let class = NetError::BadClock(StartError::GrandmasterDiffers);
        self.add_at(class, at, key, (!is_own).then_some(Wanted::OwnGrandmaster))
    }
}

/// The port that a table is of; the last rank if it is of none that a clock can have.
fn rank(port: &Value) -> u16
    ensures { result ≡ rank (view port.now) }
{
    match number_in(port) {
        Some(number) if 1 <= number && number <= CLOCK_PORTS => number,
        _ => LAST_RANK,
    }
}

fn has_octet(own: u8, shown: Option<u8>) -> bool
    ensures { result ≡ has_octet own shown }
{
    shown.is_some_and(|octet| octet == own)
}
