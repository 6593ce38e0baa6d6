//! What the answers of a survey say of its clocks and ports.

ghost use Rattle.std.specs.Prelude.{◌≡◌, ◌++◌, IfOk, OnOk, reverse};
ghost use Rattle.std.specs.List.{find, list_any};
ghost use Rattle.std.specs.Option.{option_copied, option_map, option_to_list};
ghost use Rattle.ptpm_plan.specs.Answers.{is_answer_of};
ghost use Rattle.ptpm_plan.specs.Surveying.{IsSurvey, clock_from, contradicts, field_by, hops_by, is_contradicted, is_slave_only, is_twice, port_from, port_of, same_request, same_said, with_clock};

use crate::answer::{Answer, Said};
use crate::answers::{Answers, is_answer_of};
use crate::best_clock::precedence_in;
use crate::octets::{octet, pair_at};
use crate::surveyed::{Surveyed, SurveyedClock, SurveyedPort, clock_in, port_in};
use ptpm_codec::ClockIdentity;
use ptpm_data::{PortSetting, PortState};
use std::alloc::{AllocError, Global};

/// managementIds of DEFAULT_DATA_SET and PORT_DATA_SET.
const DEFAULT_DATA_SET: u16 = 0x2000;

const PORT_DATA_SET: u16 = 0x2004;

/// managementId of USER_DESCRIPTION.
const USER_DESCRIPTION: u16 = 0x0002;

/// The bit of slaveOnly in the flags of DEFAULT_DATA_SET (15.5.3.3.1).
const SLAVE_ONLY: u8 = 2;

impl Answers {
    /// The clocks that answered, and the ports whose PORT_DATA_SET they answered, ascending.
    pub fn surveyed(&self, alloc: Global) -> Result<Surveyed, AllocError>
        ensures { IfOk result (IsSurvey self.now.list.items) }
    {
        let mut surveyed = self.found(alloc)?;
        surveyed
            .clocks
            .sort_by_key(|clock| (clock.domain, clock.identity))?;
        surveyed
            .ports
            .sort_by_key(|port| (port.domain, port.clock, port.number))?;
        Ok(surveyed)
    }

    /// The same, each in the order of its first answer.
    fn found(&self, alloc: Global) -> Result<Surveyed, AllocError>
        ensures { IfOk result (IsSurvey self.now.list.items) }
    {
        let mut surveyed = Surveyed {
            clocks: Vec::new(alloc),
            ports: Vec::new(alloc),
        };
        for answer in self.list.as_slice() {
            self.add_clock(answer, &mut surveyed.clocks)?;
            self.add_port(answer, &mut surveyed.ports)?;
        }
        Ok(surveyed)
    }

    /// Adds the clock of an answer, unless it is there.
    fn add_clock(&self, answer: &Answer, clocks: &mut Vec<SurveyedClock>) -> Result<(), AllocError>
        ensures { OnOk result (clocks.new.items
            ≡ with_clock self.now.list.items clocks.old.items answer.now.domain answer.now.source.clock) }
    {
        let (domain, clock) = (answer.domain, answer.source.clock);
        if clock_in(clocks.as_slice(), domain, clock).is_none() {
            clocks.push(self.clock_from(domain, clock))?;
        }
        Ok(())
    }

    /// Adds the port that an answer is of, unless it is there.
    fn add_port(&self, answer: &Answer, ports: &mut Vec<SurveyedPort>) -> Result<(), AllocError>
        ensures { OnOk result (ports.new.items
            ≡ ports.old.items ++ option_to_list (port_of self.now.list.items ports.old.items answer.now)) }
    {
        if let Some(port) = self.port_of(answer, ports.as_slice()) {
            ports.push(port)?;
        }
        Ok(())
    }

    /// The port that an answer is of, if it is one to PORT_DATA_SET, unless it is among these.
    fn port_of(&self, answer: &Answer, ports: &[SurveyedPort]) -> Option<SurveyedPort>
        ensures { result ≡ port_of self.now.list.items ports.now answer.now }
    {
        let (domain, clock, number) = (answer.domain, answer.source.clock, answer.source.port);
        if answer.id == PORT_DATA_SET && port_in(ports, domain, clock, number).is_none() {
            self.port_from(domain, clock, number)
        } else {
            None
        }
    }

    /// What its answers say of a clock.
    fn clock_from(&self, domain: u8, identity: ClockIdentity) -> SurveyedClock
        ensures { result ≡ clock_from self.now.list.items domain identity }
    {
        let field = self.field(domain, identity, 0, DEFAULT_DATA_SET);
        SurveyedClock {
            domain,
            identity,
            hops: self.hops(domain, identity),
            number_ports: field.map(|field| pair_at(field, 2)),
            precedence: field.map(precedence_in),
            slave_only: field.map_or(false, is_slave_only),
            is_twice: self.is_twice(domain, identity),
        }
    }

    /// What PORT_DATA_SET says of a port, if the last answer has it.
    fn port_from(&self, domain: u8, clock: ClockIdentity, number: u16) -> Option<SurveyedPort>
        ensures { result ≡ port_from self.now.list.items domain clock number }
    {
        let field = self.field(domain, clock, number, PORT_DATA_SET)?;
        Some(SurveyedPort {
            domain,
            clock,
            number,
            state: PortState::from_number(octet(field, 10)),
            settings: PortSetting::ALL.map(|setting| octet(field, 20 + setting.place())),
        })
    }

    /// The dataField that a clock answered last for an id, if it did not refuse it.
    pub(crate) fn field(
        &self,
        domain: u8,
        clock: ClockIdentity,
        port: u16,
        id: u16,
    ) -> Option<&[u8]>
        ensures { option_map (λ f. f.now) result ≡ field_by domain clock port id self.now.list.items }
    {
        match &self.last(domain, clock, port, id)?.said {
            Said::Is(field) => Some(field.as_slice()),
            Said::Refused(_) => None,
        }
    }

    /// Whether two answers of a clock to the last request for DEFAULT_DATA_SET, or to that for USER_DESCRIPTION, differ.
    fn is_twice(&self, domain: u8, clock: ClockIdentity) -> bool
        ensures { result ≡ is_twice domain clock self.now.list.items }
    {
        self.is_contradicted(domain, clock, DEFAULT_DATA_SET)
            || self.is_contradicted(domain, clock, USER_DESCRIPTION)
    }

    /// Whether another answer to the last request of an id differs from the last answer.
    fn is_contradicted(&self, domain: u8, clock: ClockIdentity, id: u16) -> bool
        ensures { result ≡ is_contradicted domain clock id self.now.list.items }
    {
        match self.last(domain, clock, 0, id) {
            Some(last) => self.has_contradiction(last),
            None => false,
        }
    }

    /// Whether another answer to the same request differs from this one.
    fn has_contradiction(&self, last: &Answer) -> bool
        ensures { result ≡ list_any (λ other. contradicts last.now other) self.now.list.items }
    {
        self.list.iter().any(|other| contradicts(last, other))
    }

    /// How many boundary clocks the last answer of a clock passed.
    fn hops(&self, domain: u8, clock: ClockIdentity) -> u8
        ensures { result ≡ hops_by domain clock self.now.list.items }
    {
        match self.last_of_clock(domain, clock) {
            Some(answer) => answer.hops,
            None => 0,
        }
    }

    /// The last answer of a clock.
    fn last_of_clock(&self, domain: u8, clock: ClockIdentity) -> Option<&Answer>
        ensures { option_copied result ≡ find (is_answer_of domain clock) (reverse self.now.list.items) }
    {
        self.list
            .iter()
            .rev()
            .find(|answer| is_answer_of(answer, domain, clock))
    }
}

/// slaveOnly of a DEFAULT_DATA_SET.
fn is_slave_only(field: &[u8]) -> bool
    ensures { result ≡ is_slave_only field.now }
{
    octet(field, 0) & SLAVE_ONLY != 0
}

/// Whether two answers of one port to one request differ.
fn contradicts(answer: &Answer, other: &Answer) -> bool
    ensures { result ≡ contradicts answer.now other.now }
{
    is_same_request(answer, other) && !is_same_said(&answer.said, &other.said)
}

/// Whether two answers are of one port, and to one request.
fn is_same_request(answer: &Answer, other: &Answer) -> bool
    ensures { result ≡ same_request answer.now other.now }
{
    answer.domain == other.domain
        && answer.source == other.source
        && answer.id == other.id
        && answer.target == other.target
        && answer.number == other.number
}

fn is_same_said(said: &Said, other: &Said) -> bool
    ensures { result ≡ same_said said.now other.now }
{
    match (said, other) {
        (Said::Is(field), Said::Is(another)) => field.as_slice() == another.as_slice(),
        (Said::Refused(error), Said::Refused(another)) => error == another,
        _ => false,
    }
}
