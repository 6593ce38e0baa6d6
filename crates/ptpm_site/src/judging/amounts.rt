//! Offsets and delays beyond what is allowed.

use crate::judging::limits::Limits;
use crate::judging::tai_and_utc::Slave;
use crate::reading::data_sets::PortDataSet;
use crate::reading::site::Site;
use crate::reading::source::Source;

/// An offsetFromMaster that is beyond the limit. All are TimeIntervals.
#[derive(Clone, Copy)]
pub enum TooFarOff {
    /// That of the clock itself.
    Own(i64),
    /// Those of all clocks that follow it.
    Followers(SharedOffset),
}

/// The offsets of clocks that follow one grandmaster, and are as much off.
#[derive(Clone, Copy)]
pub struct SharedOffset {
    /// How many clocks follow it.
    pub clocks: usize,
    pub least: i64,
    pub most: i64,
}

/// Whether the amount of a TimeInterval is above this many nanoseconds. An amount equal to the limit is allowed.
fn is_above(interval: i64, nanoseconds: u64) -> bool {
    nanoseconds.saturating_mul(65_536) < interval.unsigned_abs()
}

/// A TimeInterval that is beyond the limit, or `None`. Without a limit none is beyond it.
fn beyond(interval: i64, limit: Option<u64>) -> Option<i64> {
    if is_above(interval, limit?) {
        Some(interval)
    } else {
        None
    }
}

/// offsetFromMaster of a slave, if it is beyond the limit. `None` if the clock takes TAI and UTC for each other.
pub fn large_offset(slave: &Slave, limits: Limits) -> Option<i64> {
    if slave.is_off_by_utc {
        return None;
    }
    beyond(slave.offset?, limits.offset)
}

impl SharedOffset {
    /// The same with one clock more.
    fn with(self, offset: i64) -> SharedOffset {
        SharedOffset {
            clocks: self.clocks.saturating_add(1),
            least: self.least.min(offset),
            most: self.most.max(offset),
        }
    }

    /// Whether two clocks or more are as much off: all to one side, and within a tenth of the least amount.
    fn is_shared(&self) -> bool {
        let (least, most) = (self.least.unsigned_abs(), self.most.unsigned_abs());
        let is_to_one_side = self.least.is_negative() == self.most.is_negative();
        2 <= self.clocks && is_to_one_side && least.abs_diff(most) <= least.min(most) / 10
    }
}

/// The offsets of all slaves whose parent a clock that leads is, if each is beyond the limit and they are as much off.
pub fn shared_offset(source: Source, slaves: &[Slave], limits: Limits) -> Option<SharedOffset> {
    let mut shared = SharedOffset {
        clocks: 0,
        least: i64::MAX,
        most: i64::MIN,
    };
    for slave in slaves {
        if slave.parent == source {
            shared = shared.with(large_offset(slave, limits)?);
        }
    }
    if shared.is_shared() {
        Some(shared)
    } else {
        None
    }
}

/// A delay, if it is beyond its limit, or negative by more than an offset may have. No path takes a negative time. So an offset that is
/// reckoned from such a delay is wrong by its amount at least.
fn wrong_delay(interval: i64, limits: Limits) -> Option<i64> {
    if interval < 0 && beyond(interval, limits.offset).is_some() {
        Some(interval)
    } else {
        beyond(interval, limits.delay)
    }
}

/// meanDelay of a clock that is not its own grandmaster, if it is beyond a limit.
pub fn large_delay(site: &Site, source: Source, limits: Limits) -> Option<i64> {
    let _ = site.followed(source)?;
    let current = site.current(source)?;
    wrong_delay(current.mean_delay, limits)
}

/// meanLinkDelay of a port in SLAVE or UNCALIBRATED that measures the delay of its link, if it is beyond a limit.
pub fn large_link_delay(port: &PortDataSet, limits: Limits) -> Option<i64> {
    if port.is_following() && port.measures_link() {
        wrong_delay(port.mean_link_delay, limits)
    } else {
        None
    }
}
