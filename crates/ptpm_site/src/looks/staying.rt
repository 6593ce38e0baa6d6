//! Ports that are FAULTY, or stay on their way to another state for too long.

use crate::judging::grandmasters::masterless_reason;
use crate::judging::limits::Limits;
use crate::looks::stay::{Stay, is_faulty, stay_of};
use crate::looks::stay_limits::wait;
use crate::reading::site::Site;
use crate::reading::source::Source;
use ptpm_data::PortState;

/// A port that stays in UNCALIBRATED.
#[derive(Clone, Copy)]
pub struct Unlocked {
    /// For how many nanoseconds. `None` if that is not known.
    pub time: Option<u64>,
    /// offsetFromMaster of its clock, a TimeInterval. `None` if CURRENT_DATA_SET was not answered.
    pub offset: Option<i64>,
}

/// Whether a port of a clock is right to listen: the clock is slaveOnly, or has no master, which is said of it. Also if
/// DEFAULT_DATA_SET was not answered.
fn may_listen(site: &Site, source: Source) -> bool {
    match site.default(source) {
        Some(default) => default.slave_only || masterless_reason(site, source).is_some(),
        None => true,
    }
}

/// A stay in a state in which a port of this clock may not stay. UNCALIBRATED is left out.
fn wrong_stay(site: &Site, source: Source, stay: Stay) -> Option<Stay> {
    match stay.state {
        PortState::Uncalibrated => None,
        PortState::Listening if may_listen(site, source) => None,
        _ => Some(stay),
    }
}

/// A stay in UNCALIBRATED.
fn unlocked_stay(site: &Site, source: Source, stay: Stay) -> Option<Unlocked> {
    match stay.state {
        PortState::Uncalibrated => Some(Unlocked {
            time: stay.time,
            offset: match site.current(source) {
                Some(current) => Some(current.offset_from_master),
                None => None,
            },
        }),
        _ => None,
    }
}

/// Whether a stay is one in FAULTY, or in another state for too long.
fn is_too_long(site: &Site, limits: Limits, source: Source, port: u16, stay: &Stay) -> bool {
    is_faulty(stay.state) || stay.is_lasting(wait(site, limits, source, port, stay.state))
}

/// The stay of a port, if it is too long.
fn long_stay(site: &Site, limits: Limits, source: Source, port: u16) -> Option<Stay> {
    let stay = stay_of(site.port_answers(source, port))?;
    if is_too_long(site, limits, source, port, &stay) {
        Some(stay)
    } else {
        None
    }
}

/// The stay of a port, if it is not too long yet.
fn open_stay(site: &Site, limits: Limits, source: Source, port: u16) -> Option<Stay> {
    let stay = stay_of(site.port_answers(source, port))?;
    if is_too_long(site, limits, source, port, &stay) {
        None
    } else {
        Some(stay)
    }
}

/// How a port is that is FAULTY, or stays too long in a state that it may not stay in. UNCALIBRATED is left out.
pub fn staying_state(site: &Site, limits: Limits, source: Source, port: u16) -> Option<Stay> {
    wrong_stay(site, source, long_stay(site, limits, source, port)?)
}

/// What is said of a port that stays too long in UNCALIBRATED.
pub fn unlocked_port(site: &Site, limits: Limits, source: Source, port: u16) -> Option<Unlocked> {
    unlocked_stay(site, source, long_stay(site, limits, source, port)?)
}

/// How a port is that may stay too long in a state that it may not stay in. UNCALIBRATED is left out.
pub fn open_state(site: &Site, limits: Limits, source: Source, port: u16) -> Option<Stay> {
    wrong_stay(site, source, open_stay(site, limits, source, port)?)
}

/// What is said of a port that may stay too long in UNCALIBRATED.
pub fn open_lock(site: &Site, limits: Limits, source: Source, port: u16) -> Option<Unlocked> {
    unlocked_stay(site, source, open_stay(site, limits, source, port)?)
}
