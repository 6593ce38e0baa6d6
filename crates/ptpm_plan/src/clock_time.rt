//! What the best clock of a domain says of its time.

use crate::best_clock::Rank;
use crate::octets::octet;
use crate::report::Report;
use crate::warning::Quality;
use ptpm_codec::ClockIdentity;
use ptpm_data::PortState;
use ptpm_members::Enumeration;
use std::fmt;

/// managementId of TIME_PROPERTIES_DATA_SET.
const TIME_PROPERTIES_DATA_SET: u16 = 0x2003;

/// The bits of its flags (15.5.3.6.1).
const TIME_TRACEABLE: u8 = 0x10;

const FREQUENCY_TRACEABLE: u8 = 0x20;

/// What a clock says of where its time is from.
#[derive(Clone, Copy)]
pub(crate) struct TimeProperties {
    /// timeSource.
    pub(crate) source: u8,
    pub(crate) is_time_traceable: bool,
    pub(crate) is_frequency_traceable: bool,
}

/// What a clock says of its time. A clock that follows another one has that one's time properties: its own are not known.
#[derive(Clone, Copy)]
pub(crate) struct ClockTime {
    pub(crate) rank: Rank,
    pub(crate) properties: Option<TimeProperties>,
}

impl Report<'_> {
    /// What the clock of a rank says of its time.
    pub(crate) fn time_of(&self, domain: u8, rank: Rank) -> ClockTime {
        let properties = if self.follows(domain, rank.identity) {
            None
        } else {
            self.properties(domain, rank.identity)
        };
        ClockTime { rank, properties }
    }

    /// Whether a port of a clock is in SLAVE or UNCALIBRATED.
    fn follows(&self, domain: u8, clock: ClockIdentity) -> bool {
        self.plan.surveyed.ports.iter().any(|port| {
            port.domain == domain
                && port.clock == clock
                && matches!(
                    port.state,
                    Some(PortState::Slave) | Some(PortState::Uncalibrated)
                )
        })
    }

    fn properties(&self, domain: u8, clock: ClockIdentity) -> Option<TimeProperties> {
        let field = self
            .answers
            .field(domain, clock, 0, TIME_PROPERTIES_DATA_SET)?;
        let flags = octet(field, 2);
        Some(TimeProperties {
            source: octet(field, 3),
            is_time_traceable: flags & TIME_TRACEABLE != 0,
            is_frequency_traceable: flags & FREQUENCY_TRACEABLE != 0,
        })
    }
}

impl fmt::Display for ClockTime {
    fn fmt<W: fmt::Write>(&self, f: &mut fmt::Formatter<W>) -> fmt::Result {
        write!(f, "{}, ", Quality(self.rank))?;
        let Some(properties) = self.properties else {
            return f.write_str("time source not known");
        };
        match Enumeration::TimeSource.name_of(properties.source) {
            Some(name) => f.write_str(name)?,
            None => write!(f, "time source 0x{:02x}", properties.source)?,
        }
        if properties.is_time_traceable && properties.is_frequency_traceable {
            f.write_str(", traceable")
        } else {
            f.write_str(", not traceable")
        }
    }
}
