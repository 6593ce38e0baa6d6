//! Announce messages: which ports send them, how often, and what they say of the grandmaster (IEEE 1588-2019, 13.5).

ghost use Rattle.std.specs.Prelude.{◌≤◌, length};

use crate::judging::leaders::Attributes;
use crate::reading::arrival::SourcePort;
use crate::reading::data_sets::{TimePropertiesDataSet, quality_at};
use crate::reading::heard::{ANNOUNCE, sender_in};
use crate::reading::numbers::{flag_at, i8_at, i16_at};
use ptpm_codec::{ClockIdentity, clock_identity_at, port_identity_at, u16_at};

/// What an Announce says of the grandmaster.
#[derive(Clone, Copy)]
pub struct AnnouncedGrandmaster {
    /// grandmasterIdentity.
    pub clock: ClockIdentity,
    pub attributes: Attributes,
    pub steps_removed: u16,
    /// What it says of the members of TIME_PROPERTIES_DATA_SET.
    pub time: TimePropertiesDataSet,
}

/// A port that announces.
#[derive(Clone, Copy)]
pub struct Announced {
    pub port: SourcePort,
    /// logMessageInterval. 0x7F is said by unicast.
    pub log: i8,
    /// `None` if the message is cut short.
    pub grandmaster: Option<AnnouncedGrandmaster>,
}

/// logMessageInterval of an Announce by unicast (table 42).
const BY_UNICAST: i8 = 0x7f;

impl Announced {
    /// Whether it was sent by unicast.
    pub fn is_by_unicast(&self) -> bool {
        self.log == BY_UNICAST
    }
}

/// The second octet of flagField has the flags of TIME_PROPERTIES_DATA_SET (table 37).
fn announced_time(datagram: &[u8]) -> TimePropertiesDataSet
    requires { 64 ≤ length datagram.now }
{
    TimePropertiesDataSet {
        utc_offset: i16_at(datagram, 44),
        leap61: flag_at(datagram, 7, 0),
        leap59: flag_at(datagram, 7, 1),
        utc_valid: flag_at(datagram, 7, 2),
        ptp_timescale: flag_at(datagram, 7, 3),
        time_traceable: flag_at(datagram, 7, 4),
        frequency_traceable: flag_at(datagram, 7, 5),
        time_source: datagram[63],
    }
}

fn announced_attributes(datagram: &[u8]) -> Attributes
    requires { 64 ≤ length datagram.now }
{
    Attributes {
        quality: quality_at(datagram, 48),
        priority1: datagram[47],
        priority2: datagram[52],
    }
}

/// What an Announce says of the grandmaster. `None` if it is cut short.
fn grandmaster_in(datagram: &[u8]) -> Option<AnnouncedGrandmaster> {
    if datagram.len() < 64 {
        return None;
    }
    Some(AnnouncedGrandmaster {
        clock: clock_identity_at(datagram, 53),
        attributes: announced_attributes(datagram),
        steps_removed: u16_at(datagram, 61),
        time: announced_time(datagram),
    })
}

/// The port whose Announce a datagram is.
pub fn announced_in(datagram: &[u8]) -> Option<Announced> {
    let sender = sender_in(datagram)?;
    if sender.kind != ANNOUNCE || datagram.len() < 34 {
        return None;
    }
    Some(Announced {
        port: SourcePort {
            source: sender.source,
            port: port_identity_at(datagram, 20).port,
        },
        log: i8_at(datagram, 33),
        grandmaster: grandmaster_in(datagram),
    })
}
