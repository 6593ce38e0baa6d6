//! How long a port may be on its way to another state (this project's profile).

ghost use Rattle.std.specs.Prelude.{◌<◌};

use crate::judging::limits::Limits;
use crate::reading::data_sets::PortDataSet;
use crate::reading::site::Site;
use crate::reading::source::Source;
use ptpm_data::PortState;

/// A second in nanoseconds.
pub const SECOND: u64 = 1_000_000_000;

/// An interval of 2 to this logarithm in seconds (7.7.2), in nanoseconds. It is 2 to the 16th, which are 18 hours, if it is more.
pub fn interval(log: i8) -> u64
    ensures bound { result < 70368744177664 }
{
    let amount = log.unsigned_abs();
    if log < 0 {
        SECOND >> u32::from(amount.min(30))
    } else {
        SECOND << u32::from(amount.min(16))
    }
}

/// So many of these intervals, in nanoseconds.
fn intervals(count: u32, log: i8) -> u64
    requires { count < 131072 }
{
    u64::from(count) * interval(log)
}

/// The port that a clock follows.
fn port_followed(site: &Site, source: Source) -> Option<PortDataSet> {
    let own = site.parent(source)?;
    site.port(source.beside(own.parent.clock), own.parent.port)
}

/// Eight Sync intervals of a port, in which a servo locks.
fn sync_wait(set: Option<PortDataSet>) -> u64 {
    match set {
        Some(set) => intervals(8, set.log_sync),
        None => 0,
    }
}

/// How many nanoseconds the offset of a clock with this port in SLAVE may stay the same. Its own Sync interval counts if the port that it
/// follows did not answer.
pub fn frozen_wait(site: &Site, limits: Limits, source: Source, port: u16) -> u64 {
    let set = match port_followed(site, source) {
        Some(set) => Some(set),
        None => site.port(source, port),
    };
    settle_time(limits).max(sync_wait(set))
}

/// One Announce interval more than a port of a clock may be in PRE_MASTER for. Those are as many as stepsRemoved and one more
/// (9.2.6).
fn qualification_wait(site: &Site, source: Source, set: &PortDataSet) -> u64 {
    match site.current(source) {
        Some(own) => intervals(u32::from(own.steps_removed) + 2, set.log_announce),
        None => 0,
    }
}

/// Twice as long as a port waits for an Announce (7.7.3.1).
fn announce_wait(set: &PortDataSet) -> u64 {
    intervals(2 * u32::from(set.receipt_timeout), set.log_announce)
}

fn wait_in(site: &Site, source: Source, set: &PortDataSet, state: PortState) -> u64 {
    match state {
        PortState::Uncalibrated => sync_wait(port_followed(site, source)),
        PortState::PreMaster => qualification_wait(site, source, set),
        PortState::Listening => announce_wait(set),
        _ => 0,
    }
}

/// How many nanoseconds the operator allows.
fn settle_time(limits: Limits) -> u64 {
    u64::from(limits.settle) * SECOND
}

/// How many nanoseconds a port may be in a state: as long as the operator says, and longer if it takes longer by its intervals.
pub fn wait(site: &Site, limits: Limits, source: Source, port: u16, state: PortState) -> u64 {
    let own = match site.port(source, port) {
        Some(set) => wait_in(site, source, &set, state),
        None => 0,
    };
    settle_time(limits).max(own)
}
