//! The data sets of a boundary clock (clause 8).

ghost use Rattle.std.specs.Prelude.{◌≡◌};

use crate::description::Description;
use crate::port_list::{PortList, is_forwarding_port};
use crate::port_settings::PortSettings;
use crate::port_state::PortState;
use crate::ports::{INLINE_PORTS, PORTS};
use arrayvec::ArrayVec;
use ptpm_codec::{ClockIdentity, OutOfMemory, PortIdentity};
use std::alloc::Global;
use std::marker::Model;

/// What decides which of two clocks is the better master (9.3.4).
#[derive(Clone, Copy, Debug, PartialEq, Eq)]
pub struct ClockPrecedence {
    pub priority1: u8,
    pub class: u8,
    pub accuracy: u8,
    pub variance: u16,
    pub priority2: u8,
}

/// defaultDS (8.2.1), except the members that never change: slaveOnly is false.
#[derive(Clone, Copy, Debug, PartialEq, Eq)]
pub struct DefaultDataSet {
    pub identity: ClockIdentity,
    pub domain: u8,
    pub two_step: bool,
    pub precedence: ClockPrecedence,
}

/// currentDS (8.2.2).
#[derive(Clone, Copy, Debug, PartialEq, Eq)]
pub struct CurrentDataSet {
    pub steps_removed: u16,
    /// A TimeInterval, in nanoseconds times 2^16.
    pub offset_from_master: i64,
    /// A TimeInterval, in nanoseconds times 2^16.
    pub mean_path_delay: i64,
}

/// parentDS (8.2.3).
#[derive(Clone, Copy, Debug, PartialEq, Eq)]
pub struct ParentDataSet {
    /// parentPortIdentity: the port of the master that the clock is synchronized to; port 0 of the clock itself if it is
    /// its own grandmaster.
    pub parent_port: PortIdentity,
    /// Whether the two observed members are measured values.
    pub parent_stats: bool,
    /// observedParentOffsetScaledLogVariance (7.6.3): log2 of a variance in seconds squared, times 2^8, plus 0x8000; 0xFFFF
    /// if it was not computed.
    pub observed_variance: u16,
    /// observedParentClockPhaseChangeRate: seconds a second, times 2^40; 0x7FFFFFFF if it was not computed.
    pub observed_rate: i32,
    pub grandmaster: ClockIdentity,
    /// grandmasterPriority1 and 2, and grandmasterClockQuality.
    pub precedence: ClockPrecedence,
}

/// timePropertiesDS (8.2.4).
#[derive(Clone, Copy, Debug, PartialEq, Eq)]
pub struct TimePropertiesDataSet {
    /// currentUtcOffset, in seconds.
    pub utc_offset: i16,
    pub leap61: bool,
    pub leap59: bool,
    pub utc_valid: bool,
    pub ptp_timescale: bool,
    pub time_traceable: bool,
    pub frequency_traceable: bool,
    pub time_source: u8,
}

/// portDS (8.2.15), except its portIdentity, which is the clock's identity and the port's place.
#[derive(Clone, Copy, Debug, PartialEq, Eq)]
pub struct PortDataSet {
    /// meanLinkDelay: a TimeInterval, in nanoseconds times 2^16. It comes first: so no octet between two members is lost.
    pub peer_delay: i64,
    pub state: PortState,
    /// logMinDelayReqInterval, log2 of seconds.
    pub log_min_delay_req: i8,
    /// What a SET changes.
    pub settings: PortSettings,
}

const _: () = prove!(size_of::<PortDataSet>() == 16);

impl Default for PortDataSet {
    ghost use Rattle.std.specs.Prelude.{◌≡◌};
    ghost use Rattle.ptpm_data.specs.Start.{default_port, port_data_set};

    /// The data set of a port that starts with this profile's defaults: MASTER, end-to-end delay.
    fn default() -> PortDataSet
        ensures { result ≡ port_data_set default_port }
    {
        PortDataSet {
            peer_delay: 0,
            state: PortState::Master,
            log_min_delay_req: 0,
            settings: PortSettings::default(),
        }
    }
}

/// The data sets of a clock of 1 to `PORTS` ports. Contracts see them as `DataSetsValue`.
#[derive(Debug, Drop)]
pub struct DataSets {
    pub(crate) default: DefaultDataSet,
    /// userDescription, of UTF-8.
    pub(crate) description: Description,
    pub(crate) current: CurrentDataSet,
    pub(crate) parent: ParentDataSet,
    pub(crate) time: TimePropertiesDataSet,
    pub(crate) ports: PortList,
}

impl Model for DataSets {
    ghost use Rattle.std.specs.Coded.{codes};
    ghost use Rattle.ptpm_data.specs.Members.{DataSetsValue, data_sets_value, IsConsistentInside};
    ghost use Rattle.ptpm_data.specs.contracts.port_settings.PortSettings as settings;

    ghost Value = { DataSetsValue };

    ghost coded = { Prim.hlevel (codes, settings.the_row.coded) };

    ghost view = { data_sets_value };

    ghost invariant = { IsConsistentInside };
}

impl DataSets {
    ghost use Rattle.std.specs.Prelude.{◌≡◌, ◌≤◌, ◌↔◌, IfOk, IsOk, IsTrue, length};
    ghost use Rattle.ptpm_data.specs.Members.{HasPort, has_port, may_forward};
    ghost use Rattle.ptpm_data.specs.PortList.{ports_in};

    /// An equal one, if the ports lie in the value. Never inlined: see `copy_in`.
    #[inline(never)]
    pub fn copy(&self) -> DataSets
        requires few { length self.now.ports ≤ INLINE_PORTS }
        ensures { result ≡ self.now }
    {
        let mut ports = ArrayVec::new();
        let _ = ports.try_extend_from_slice(self.ports.as_slice());
        self.with_ports(PortList::Few(ports))
    }

    /// An equal one. Takes memory for more than `INLINE_PORTS` ports alone: the block that it keeps. What it calls is never inlined: so
    /// the stack has what one of them takes.
    #[inline(always)]
    pub fn copy_in(&self, alloc: Global) -> Result<DataSets, OutOfMemory>
        ensures copy { IfOk result (λ copy. copy ≡ self.now) }
        ensures few { length self.now.ports ≤ INLINE_PORTS → IsOk result }
    {
        if self.port_count() as usize <= INLINE_PORTS {
            Ok(self.copy())
        } else {
            self.copy_many(alloc)
        }
    }

    /// The same, with the ports in a block of memory.
    #[inline(never)]
    fn copy_many(&self, alloc: Global) -> Result<DataSets, OutOfMemory>
        ensures { IfOk result (λ copy. copy ≡ self.now) }
    {
        let Ok(ports) = Vec::from_slice(alloc, self.ports.as_slice()) else {
            return Err(OutOfMemory);
        };
        Ok(self.with_ports(PortList::Many(ports)))
    }

    /// An equal one that has these ports, which are the same.
    #[inline(always)]
    fn with_ports(&self, ports: PortList) -> DataSets
        requires { ports_in ports ≡ self.now.ports }
        ensures { result ≡ self.now }
    {
        DataSets {
            default: self.default,
            description: Description::of(self.description.text()),
            current: self.current,
            parent: self.parent,
            time: self.time,
            ports,
        }
    }

    /// clockIdentity.
    pub fn identity(&self) -> ClockIdentity
        ensures { result ≡ self.now.default.identity }
    {
        self.default.identity
    }

    /// domainNumber.
    pub fn domain(&self) -> u8
        ensures { result ≡ self.now.default.domain }
    {
        self.default.domain
    }

    /// numberPorts, 1 to `PORTS`.
    pub fn port_count(&self) -> u16
        ensures count { result ≡ length self.now.ports }
        ensures range { (1 ≤ result) × (result ≤ PORTS) }
    {
        self.ports.as_slice().len() as u16
    }

    /// The data sets of its ports, in their order.
    pub fn port_sets(&self) -> &[PortDataSet]
        ensures { result.now ≡ self.now.ports }
    {
        self.ports.as_slice()
    }

    /// Whether it is one of the clock's ports.
    pub fn has_port(&self, port: u16) -> bool
        ensures exact { result ≡ has_port port self.now }
        ensures known { IsTrue result ↔ HasPort port self.now }
    {
        1 <= port && port <= self.port_count()
    }

    /// Whether a management message may come in or go out at a port to be forwarded. The port's state is then PRE_MASTER,
    /// MASTER, UNCALIBRATED or SLAVE (this project's profile). False if the clock lacks the port.
    pub fn may_forward(&self, port: u16) -> bool
        ensures { result ≡ may_forward port self.now }
    {
        is_forwarding_port(self.port_sets(), port)
    }
}
