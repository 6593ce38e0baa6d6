//! How long a change may take to go through a site.

use crate::line::Line;
use crate::message::field_of;
use ptpm_codec::u16_at;

/// The least and the most that a change is thought to take, in milliseconds: a plugin has to end in time (this project's profile).
const LEAST: u64 = 2_000;

const MOST: u64 = 10_000;

/// A second, in milliseconds.
const SECOND: u64 = 1_000;

/// managementId of CURRENT_DATA_SET, and of PORT_DATA_SET (table 59).
pub(crate) const CURRENT_DATA_SET: u16 = 0x2001;

pub(crate) const PORT_DATA_SET: u16 = 0x2004;

/// portState MASTER (table 20).
const MASTER: u8 = 6;

/// In milliseconds, by the answers of a look: the longest Announce interval times the most steps.
pub(crate) fn change_time(lines: &[Line]) -> u64 {
    let (mut steps, mut interval) = (0, 0);
    for line in lines {
        steps = steps.max(steps_in(line.octets.as_slice()));
        interval = interval.max(announce_interval_in(line.octets.as_slice()));
    }
    interval.saturating_mul(steps).clamp(LEAST, MOST)
}

/// stepsRemoved, which CURRENT_DATA_SET begins with (15.5.3.4.1). 0 in another message.
fn steps_in(octets: &[u8]) -> u64 {
    match field_of(octets, CURRENT_DATA_SET, 2) {
        Some((_, field)) if 2 <= field.len() => u64::from(u16_at(field, 0)),
        _ => 0,
    }
}

/// The Announce interval of a port in MASTER, in milliseconds, by its PORT_DATA_SET (15.5.3.7.1). 0 in another message.
fn announce_interval_in(octets: &[u8]) -> u64 {
    match field_of(octets, PORT_DATA_SET, 21) {
        Some((_, field)) if 21 <= field.len() && field[10] == MASTER => milliseconds(field[20]),
        _ => 0,
    }
}

/// Two to a logarithm that is an octet with its sign, as seconds.
fn milliseconds(log: u8) -> u64 {
    match log {
        0..=4 => SECOND << u32::from(log),
        0x80.. => SECOND >> (256 - u32::from(log)).min(4),
        _ => MOST,
    }
}
