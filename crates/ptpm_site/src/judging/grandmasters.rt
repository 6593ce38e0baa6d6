//! Grandmasters: whether there are two, none, or one that was not seen.

use crate::judging::port_groups::PortGroup;
use crate::reading::data_sets::DefaultDataSet;
use crate::reading::site::Site;
use crate::reading::source::Source;
use ptpm_codec::ClockIdentity;

impl Site {
    /// Whether a clock that is seen leads: it is its own grandmaster and has a port in MASTER.
    pub fn leads_by_answers(&self, source: Source) -> bool {
        self.is_own_grandmaster(source) && self.has_port_of(source, PortGroup::Master)
    }
}

/// Whether another clock of the domain names this one as its grandmaster.
pub fn names(site: &Site, source: Source, other: Source) -> bool {
    if source.domain != other.domain {
        return false;
    }
    match site.parent(other) {
        Some(parent) => parent.grandmaster == source.clock,
        None => false,
    }
}

/// Why a clock has no master.
#[derive(Clone, Copy)]
pub enum Masterless {
    /// It is its own grandmaster, and slaveOnly.
    SlaveOnly,
    /// It is its own grandmaster, with no port in MASTER, PRE_MASTER or PASSIVE.
    Silent,
    /// It names another, with no port in SLAVE or UNCALIBRATED.
    Lost(ClockIdentity),
}

/// Why a clock has no master, if it has none and all its ports answered.
pub fn masterless_reason(site: &Site, source: Source) -> Option<Masterless> {
    let parent = site.parent(source)?;
    let default = site.default(source)?;
    if !site.has_ports_to(source, default.number_of_ports) {
        return None;
    }
    if parent.grandmaster == source.clock {
        masterless_grandmaster(site, source, &default)
    } else {
        masterless_follower(site, source, &default, parent.grandmaster)
    }
}

/// Why a clock that is its own grandmaster gives no time.
fn masterless_grandmaster(
    site: &Site,
    source: Source,
    default: &DefaultDataSet,
) -> Option<Masterless> {
    if default.slave_only {
        Some(Masterless::SlaveOnly)
    } else if site.has_port_of(source, PortGroup::Giving) {
        None
    } else {
        Some(Masterless::Silent)
    }
}

/// Why a clock that names another as its grandmaster takes no time. A clock of a class below 128 may be on
/// standby.
fn masterless_follower(
    site: &Site,
    source: Source,
    default: &DefaultDataSet,
    grandmaster: ClockIdentity,
) -> Option<Masterless> {
    if site.has_port_of(source, PortGroup::Taking) {
        return None;
    }
    if default.quality.class < 128 && site.has_port_of(source, PortGroup::Passive) {
        return None;
    }
    Some(Masterless::Lost(grandmaster))
}

/// The grandmaster that a clock names, if that one is not seen. `None` if the clock stands by.
pub fn unseen_grandmaster(site: &Site, source: Source) -> Option<ClockIdentity> {
    let parent = site.parent(source)?;
    if site.is_seen(source.beside(parent.grandmaster)) || site.is_on_standby(source) {
        None
    } else {
        Some(parent.grandmaster)
    }
}
