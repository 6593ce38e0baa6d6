//! What clocks and ports were when they were surveyed.

ghost use Rattle.std.specs.Prelude.{◌≡◌};
ghost use Rattle.std.specs.Option.{option_copied};
ghost use Rattle.ptpm_plan.specs.Surveyed.{clock_in, port_in};

use ptpm_codec::ClockIdentity;
use ptpm_data::{ClockPrecedence, PortState};

/// A clock that answered in a domain.
#[derive(Clone, Copy)]
pub struct SurveyedClock {
    pub domain: u8,
    pub identity: ClockIdentity,
    /// How many boundary clocks its answers passed: startingBoundaryHops less boundaryHops (15.4.1).
    pub hops: u8,
    /// numberPorts, by DEFAULT_DATA_SET. `None` if it gave no such answer.
    pub number_ports: Option<u16>,
    /// What DEFAULT_DATA_SET says of its rank (9.3.4). `None` if it gave no such answer.
    pub precedence: Option<ClockPrecedence>,
    /// slaveOnly, by DEFAULT_DATA_SET: such a clock never leads (9.2.2.1).
    pub slave_only: bool,
    /// Two answers of it to one request differ: two clocks have this identity.
    pub is_twice: bool,
}

/// A port whose PORT_DATA_SET was answered.
#[derive(Clone, Copy)]
pub struct SurveyedPort {
    pub domain: u8,
    pub clock: ClockIdentity,
    pub number: u16,
    /// portState. `None` if its number is reserved.
    pub state: Option<PortState>,
    /// The octet of each setting, in the order of `PortSetting`.
    pub settings: [u8; 5],
}

/// The clocks and ports of a site. Of each there is one entry at most.
#[derive(Drop)]
pub struct Surveyed {
    pub clocks: Vec<SurveyedClock>,
    pub ports: Vec<SurveyedPort>,
}

/// A clock of a domain among these.
pub(crate) fn clock_in(
    clocks: &[SurveyedClock],
    domain: u8,
    identity: ClockIdentity,
) -> Option<&SurveyedClock>
    ensures { option_copied result ≡ clock_in domain identity clocks.now }
{
    clocks.iter().find(|clock| clock.domain == domain && clock.identity == identity)
}

/// A port of a clock among these.
pub(crate) fn port_in(
    ports: &[SurveyedPort],
    domain: u8,
    clock: ClockIdentity,
    number: u16,
) -> Option<&SurveyedPort>
    ensures { option_copied result ≡ port_in domain clock number ports.now }
{
    ports.iter().find(|port| {
        port.domain == domain && port.clock == clock && port.number == number
    })
}
