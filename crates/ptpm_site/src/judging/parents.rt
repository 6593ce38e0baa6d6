//! Whether a clock fits the clock that it follows.

use crate::reading::site::Site;
use crate::reading::source::Source;
use ptpm_codec::PortIdentity;

/// The port that a clock follows, if the clock of that port is not seen.
pub fn unseen_parent(site: &Site, source: Source) -> Option<PortIdentity> {
    let parent = site.followed(source)?;
    if site.is_seen(source.beside(parent.clock)) {
        None
    } else {
        Some(parent)
    }
}

/// Why a port that a clock follows gives no time.
#[derive(Clone, Copy)]
pub enum NoMaster {
    /// The clock has no such port: it is 0, or above numberPorts.
    NoPort,
    /// It answered, and is neither in MASTER nor in PRE_MASTER, but in the state of this number.
    InState(u8),
}

/// The port that a clock follows, and why it is no master, if its clock is seen.
pub fn no_master_port(site: &Site, source: Source) -> Option<(PortIdentity, NoMaster)> {
    let parent = site.followed(source)?;
    let clock = source.beside(parent.clock);
    if !site.is_seen(clock) {
        return None;
    }
    let why = why_no_master(site, clock, parent.port)?;
    Some((parent, why))
}

/// Why a port of a clock that is seen gives no time, or `None`.
fn why_no_master(site: &Site, clock: Source, port: u16) -> Option<NoMaster> {
    if lacks_port(site, clock, port) {
        return Some(NoMaster::NoPort);
    }
    let set = site.port(clock, port)?;
    if set.is_leading() {
        None
    } else {
        Some(NoMaster::InState(set.state))
    }
}

/// Whether a clock has no port of this number, as far as its answers say.
fn lacks_port(site: &Site, clock: Source, port: u16) -> bool {
    if port == 0 {
        return true;
    }
    match site.default(clock) {
        Some(default) => default.number_of_ports < port,
        None => false,
    }
}

/// A stepsRemoved that does not fit.
#[derive(Clone, Copy)]
pub struct Steps {
    pub steps: u16,
    /// That of the clock that it follows. `None` if it is its own grandmaster.
    pub parent: Option<u16>,
}

/// The stepsRemoved of a clock, if it is wrong. It should be 0 at a grandmaster, and otherwise one more than that of the
/// clock that it follows. That of a clock that stands by is of an earlier time.
pub fn wrong_steps(site: &Site, source: Source) -> Option<Steps> {
    if site.is_on_standby(source) {
        return None;
    }
    let steps = site.current(source)?.steps_removed;
    if site.is_own_grandmaster(source) {
        let parent = None;
        return if steps == 0 {
            None
        } else {
            Some(Steps { steps, parent })
        };
    }
    let parent = site.followed(source)?;
    let above = site.current(source.beside(parent.clock))?.steps_removed;
    if u32::from(steps) == u32::from(above) + 1 {
        return None;
    }
    Some(Steps {
        steps,
        parent: Some(above),
    })
}
