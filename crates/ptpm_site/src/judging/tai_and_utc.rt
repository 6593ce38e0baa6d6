//! Clocks that take TAI and UTC for each other: they are off by as many whole seconds as TAI is before UTC.

use crate::judging::evidence::Evidence;
use crate::judging::leaders::{Witness, grandmaster_time};
use crate::judging::port_groups::PortGroup;
use crate::reading::data_sets::TimePropertiesDataSet;
use crate::reading::origin::Origin;
use crate::reading::site::Site;
use crate::reading::source::Source;
use std::alloc::{AllocError, Global};

/// How it shows that TAI and UTC are taken for each other.
#[derive(Clone, Copy)]
pub enum OffByUtc {
    /// By the clock's own offsetFromMaster, a TimeInterval.
    Offset(i64),
    /// By those of all clocks that follow it. There are this many.
    Followers(usize),
    /// By the host that asks: it has the same time, and that is UTC.
    Origin(Origin),
}

/// A second as a TimeInterval.
const SECOND: u64 = 65_536_000_000_000;

/// Ten milliseconds as a TimeInterval.
const TEN_MILLISECONDS: u64 = 655_360_000_000;

/// Whether a TimeInterval of either sign is within 10 ms of this many seconds.
fn is_about(interval: i64, seconds: u16) -> bool {
    let amount = interval.unsigned_abs();
    let whole = u64::from(seconds) * SECOND;
    whole <= amount + TEN_MILLISECONDS && amount <= whole + TEN_MILLISECONDS
}

/// Whether it is about the seconds that TAI is before UTC, or one more or less, but not none.
fn is_about_utc(interval: i64, utc_offset: i16) -> bool {
    if utc_offset <= 0 {
        return false;
    }
    let seconds = utc_offset.unsigned_abs();
    is_about(interval, seconds)
        || is_about(interval, seconds + 1)
        || seconds != 1 && is_about(interval, seconds - 1)
}

/// A clock that follows another, and has a port in SLAVE.
#[derive(Clone, Copy)]
pub struct Slave {
    pub source: Source,
    /// The clock of parentPortIdentity.
    pub parent: Source,
    /// grandmasterIdentity.
    pub grandmaster: Source,
    /// offsetFromMaster, a TimeInterval. `None` if CURRENT_DATA_SET was not answered.
    pub offset: Option<i64>,
    /// Whether it takes TAI and UTC for each other.
    pub is_off_by_utc: bool,
}

/// Whether an offset is about what TAI is before UTC: by what is known, or by what these say of it.
fn is_off_by_utc(offset: i64, tai_utc: i16, said: [Option<TimePropertiesDataSet>; 2]) -> bool {
    is_about_utc(offset, tai_utc)
        || said.iter().any(|time| match time {
            Some(time) => is_about_utc(offset, time.utc_offset),
            None => false,
        })
}

/// A clock, if it follows another and has a port in SLAVE. `witnesses` has all clocks that speak for a grandmaster.
fn slave_of(
    site: &Site,
    evidence: &Evidence,
    witnesses: &[Witness],
    tai_utc: i16,
    source: Source,
) -> Option<Slave> {
    let parent = source.beside(site.followed(source)?.clock);
    let grandmaster = source.beside(site.parent(source)?.grandmaster);
    if !site.has_port_of(source, PortGroup::Slave) {
        return None;
    }
    let offset = site.current(source).map(|set| set.offset_from_master);
    let said = [
        site.time(source),
        grandmaster_time(site, evidence, grandmaster, witnesses),
    ];
    Some(Slave {
        source,
        parent,
        grandmaster,
        offset,
        is_off_by_utc: match offset {
            Some(offset) => is_off_by_utc(offset, tai_utc, said),
            None => false,
        },
    })
}

/// Those of all clocks that follow another and have a port in SLAVE, in their order.
pub fn all_slaves(
    alloc: Global,
    site: &Site,
    evidence: &Evidence,
    witnesses: &[Witness],
    tai_utc: i16,
    sources: &[Source],
) -> Result<Vec<Slave>, AllocError> {
    let mut found = Vec::new(alloc);
    for source in sources {
        if let Some(slave) = slave_of(site, evidence, witnesses, tai_utc, *source) {
            found.push(slave)?;
        }
    }
    Ok(found)
}

/// A clock among these, which are in their order.
pub fn slave_among(slaves: &[Slave], source: Source) -> Option<&Slave> {
    let place = slaves.partition_point(|slave| slave.source < source);
    match slaves.get(place) {
        Some(slave) if slave.source == source => Some(slave),
        _ => None,
    }
}

/// How many of all slaves name a clock that leads, if they are two or more and each takes TAI and UTC for each other.
pub fn followers_off(source: Source, slaves: &[Slave]) -> Option<usize> {
    let mut count: usize = 0;
    for slave in slaves {
        if slave.grandmaster == source {
            if !slave.is_off_by_utc {
                return None;
            }
            count = count.saturating_add(1);
        }
    }
    if count < 2 { None } else { Some(count) }
}
