//! The data sets of a clock's ports, in the value or in a block of memory.

ghost use Rattle.std.specs.Prelude.{◌≡◌, ◌≤◌, length, option_map};
ghost use Rattle.ptpm_data.specs.Changes.{IsTargetOf, named_changed};
ghost use Rattle.ptpm_data.specs.Members.{is_forwarding_port, port_among};
ghost use Rattle.ptpm_data.specs.Observation.{ports_after};
ghost use Rattle.ptpm_data.specs.PortChange.{is_change_in_range, port_after};
ghost use Rattle.ptpm_data.specs.PortList.{ports_in};

use crate::changes::change_named;
use crate::data_sets::PortDataSet;
use crate::observation::{PortObservation, move_ports};
use crate::port_change::PortChange;
use crate::ports::INLINE_PORTS;
use arrayvec::ArrayVec;

/// The data sets of ports: in the value up to `INLINE_PORTS`, in a block of memory above.
#[derive(Debug, Drop)]
pub(crate) enum PortList {
    Few(ArrayVec<PortDataSet, INLINE_PORTS>),
    Many(Vec<PortDataSet>),
}

/// The data set of the port of this number; none if it is not among these.
pub(crate) fn port_at(ports: &[PortDataSet], port: u16) -> Option<&PortDataSet>
    ensures { option_map (λ p. p.now) result ≡ port_among port ports.now }
{
    if port == 0 {
        return None;
    }
    ports.get(port as usize - 1)
}

/// What `DataSets::may_forward` says of a port, given the data sets of all.
pub fn is_forwarding_port(ports: &[PortDataSet], port: u16) -> bool
    ensures { result ≡ is_forwarding_port (port_among port ports.now) }
{
    match port
        .checked_sub(1)
        .and_then(|place| ports.get(place as usize))
    {
        Some(port) => port.state.is_forwarding(),
        None => false,
    }
}

impl PortList {
    #[inline(always)]
    pub(crate) fn as_slice(&self) -> &[PortDataSet]
        ensures { result.now ≡ ports_in self.now }
    {
        match self {
            PortList::Few(ports) => ports.as_slice(),
            PortList::Many(ports) => ports.as_slice(),
        }
    }

    /// Changes one port, or for 0xFFFF every port.
    #[tactic(auto, using(crate::proofs::Observed::list_laws))]
    pub(crate) fn change(&mut self, port: u16, change: PortChange)
        requires { IsTargetOf port (length (ports_in self.old)) }
        ensures { ports_in self.new ≡ named_changed port (port_after change) (ports_in self.old) }
    {
        match self {
            PortList::Few(ports) => change_named(ports.as_mut_slice(), port, change),
            PortList::Many(ports) => change_named(ports.as_mut_slice(), port, change),
        }
    }

    /// Gives the first ports what was observed of them.
    #[tactic(auto, using(crate::proofs::Observed::list_laws))]
    pub(crate) fn observe(&mut self, observed: &[PortObservation])
        requires { length observed.now ≤ length (ports_in self.old) }
        ensures { ports_in self.new ≡ ports_after observed.now (ports_in self.old) }
    {
        match self {
            PortList::Few(ports) => move_ports(observed, ports.as_mut_slice()),
            PortList::Many(ports) => move_ports(observed, ports.as_mut_slice()),
        }
    }
}
