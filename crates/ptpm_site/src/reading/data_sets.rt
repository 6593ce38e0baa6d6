//! What the rules reckon with of the data sets of a clock, as its answers have them (clauses 8.2 and 15.5.3).

ghost use Rattle.std.specs.Prelude.{◌+◌, ◌≤◌, length};

use crate::reading::numbers::{flag_at, i8_at, i16_at, interval_at};
use ptpm_codec::{ClockIdentity, PortIdentity, clock_identity_at, port_identity_at, u16_at};
use ptpm_data::PortState;
use ptpm_members::ClockQuality;

/// delayMechanism E2E (8.2.15.4.4, table 21).
pub const END_TO_END: u8 = 1;
/// P2P.
pub const PEER_TO_PEER: u8 = 2;
/// COMMON_P2P.
pub const COMMON_PEER_TO_PEER: u8 = 3;

/// DEFAULT_DATA_SET.
#[derive(Clone, Copy)]
pub struct DefaultDataSet {
    pub slave_only: bool,
    pub number_of_ports: u16,
    pub priority1: u8,
    pub quality: ClockQuality,
    pub priority2: u8,
    pub domain: u8,
}

/// CURRENT_DATA_SET.
#[derive(Clone, Copy)]
pub struct CurrentDataSet {
    pub steps_removed: u16,
    /// A TimeInterval, in nanoseconds times 2^16.
    pub offset_from_master: i64,
    /// A TimeInterval, in nanoseconds times 2^16.
    pub mean_delay: i64,
}

/// PARENT_DATA_SET.
#[derive(Clone, Copy)]
pub struct ParentDataSet {
    /// parentPortIdentity.
    pub parent: PortIdentity,
    pub priority1: u8,
    pub quality: ClockQuality,
    pub priority2: u8,
    /// grandmasterIdentity.
    pub grandmaster: ClockIdentity,
}

/// TIME_PROPERTIES_DATA_SET.
#[derive(Clone, Copy)]
pub struct TimePropertiesDataSet {
    /// currentUtcOffset, in seconds.
    pub utc_offset: i16,
    pub leap61: bool,
    pub leap59: bool,
    pub utc_valid: bool,
    pub ptp_timescale: bool,
    pub time_traceable: bool,
    pub frequency_traceable: bool,
    pub time_source: u8,
}

/// PORT_DATA_SET, without its portIdentity.
#[derive(Clone, Copy)]
pub struct PortDataSet {
    /// The number of portState (8.2.15.3.1).
    pub state: u8,
    pub log_min_delay_req: i8,
    /// A TimeInterval, in nanoseconds times 2^16.
    pub mean_link_delay: i64,
    pub log_announce: i8,
    pub receipt_timeout: u8,
    pub log_sync: i8,
    /// The number of delayMechanism (8.2.15.4.4).
    pub delay_mechanism: u8,
    pub log_min_pdelay: i8,
}

/// The ClockQuality in the four octets from a place.
pub fn quality_at(octets: &[u8], place: usize) -> ClockQuality
    requires { place + 4 ≤ length octets.now }
{
    ClockQuality {
        class: octets[place],
        accuracy: octets[place + 1],
        variance: u16_at(octets, place + 2),
    }
}

impl DefaultDataSet {
    /// Reads a dataField. `None` if it has another length.
    pub fn read(octets: &[u8]) -> Option<DefaultDataSet> {
        if octets.len() != 20 {
            return None;
        }
        Some(DefaultDataSet {
            slave_only: flag_at(octets, 0, 1),
            number_of_ports: u16_at(octets, 2),
            priority1: octets[4],
            quality: quality_at(octets, 5),
            priority2: octets[9],
            domain: octets[18],
        })
    }
}

impl CurrentDataSet {
    /// Reads a dataField. `None` if it has another length.
    pub fn read(octets: &[u8]) -> Option<CurrentDataSet> {
        if octets.len() != 18 {
            return None;
        }
        Some(CurrentDataSet {
            steps_removed: u16_at(octets, 0),
            offset_from_master: interval_at(octets, 2),
            mean_delay: interval_at(octets, 10),
        })
    }
}

impl ParentDataSet {
    /// Reads a dataField. `None` if it has another length.
    pub fn read(octets: &[u8]) -> Option<ParentDataSet> {
        if octets.len() != 32 {
            return None;
        }
        Some(ParentDataSet {
            parent: port_identity_at(octets, 0),
            priority1: octets[18],
            quality: quality_at(octets, 19),
            priority2: octets[23],
            grandmaster: clock_identity_at(octets, 24),
        })
    }
}

impl TimePropertiesDataSet {
    /// Reads a dataField. `None` if it has another length.
    pub fn read(octets: &[u8]) -> Option<TimePropertiesDataSet> {
        if octets.len() != 4 {
            return None;
        }
        Some(TimePropertiesDataSet {
            utc_offset: i16_at(octets, 0),
            leap61: flag_at(octets, 2, 0),
            leap59: flag_at(octets, 2, 1),
            utc_valid: flag_at(octets, 2, 2),
            ptp_timescale: flag_at(octets, 2, 3),
            time_traceable: flag_at(octets, 2, 4),
            frequency_traceable: flag_at(octets, 2, 5),
            time_source: octets[3],
        })
    }
}

impl PortDataSet {
    /// Reads a dataField: its portIdentity and the data set. `None` if it has another length.
    pub fn read(octets: &[u8]) -> Option<(PortIdentity, PortDataSet)> {
        if octets.len() != 26 {
            return None;
        }
        let set = PortDataSet {
            state: octets[10],
            log_min_delay_req: i8_at(octets, 11),
            mean_link_delay: interval_at(octets, 12),
            log_announce: i8_at(octets, 20),
            receipt_timeout: octets[21],
            log_sync: i8_at(octets, 22),
            delay_mechanism: octets[23],
            log_min_pdelay: i8_at(octets, 24),
        };
        Some((port_identity_at(octets, 0), set))
    }

    /// The port's state. `None` if the number is reserved.
    pub fn state(&self) -> Option<PortState> {
        PortState::from_number(self.state)
    }

    /// Whether the port takes time from a master, or is about to.
    pub fn is_following(&self) -> bool {
        matches!(
            self.state(),
            Some(PortState::Slave | PortState::Uncalibrated)
        )
    }

    /// Whether the port gives time, or is about to.
    pub fn is_leading(&self) -> bool {
        matches!(self.state(), Some(PortState::Master | PortState::PreMaster))
    }

    /// Whether it measures the delay of the link to the neighbour (clause 11.4).
    pub fn measures_link(&self) -> bool {
        self.delay_mechanism == PEER_TO_PEER || self.delay_mechanism == COMMON_PEER_TO_PEER
    }

    /// Whether it measures the delay of the whole way to the master (clause 11.3).
    pub fn measures_end_to_end(&self) -> bool {
        self.delay_mechanism == END_TO_END
    }
}
