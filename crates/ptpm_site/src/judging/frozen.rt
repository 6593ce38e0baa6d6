//! Clocks whose offsetFromMaster stays the same to the last digit.

use crate::judging::limits::Limits;
use crate::looks::stay::time_between;
use crate::looks::stay_limits::{SECOND, frozen_wait};
use crate::reading::asked::Asked;
use crate::reading::clock::Received;
use crate::reading::site::Site;
use crate::reading::source::Source;
use ptpm_data::PortState;
use std::alloc::{AllocError, Global};
use std::collections::BTreeSet;

/// An offset that stays the same.
#[derive(Clone, Copy)]
pub struct FrozenOffset {
    /// offsetFromMaster, a TimeInterval.
    pub offset: i64,
    /// How many answers say it, one for each request.
    pub answers: usize,
    /// Whole seconds from the first of them to the last.
    pub seconds: u64,
}

/// As many answers at least are the same if no Sync counts (this project's profile).
const ENOUGH: usize = 12;

/// Answers with one offsetFromMaster, one for each request.
#[derive(Clone, Copy)]
struct Run {
    offset: i64,
    answers: usize,
    /// When the first of them came. `None` if that is not known of each.
    since: Option<u64>,
}

impl Run {
    /// The same with one answer more before it.
    fn with(self, earlier: Option<u64>) -> Run {
        Run {
            offset: self.offset,
            answers: self.answers.saturating_add(1),
            since: match self.since {
                Some(_) => earlier,
                None => None,
            },
        }
    }
}

fn offset_in(received: &Received) -> Option<i64> {
    Some(received.current()?.offset_from_master)
}

/// The answers with which these end that say one offset: the last to each request of the last requester.
fn last_run(alloc: Global, received: &[Received]) -> Result<Option<Run>, AllocError> {
    let Some(last) = received.last() else {
        return Ok(None);
    };
    let Some(offset) = offset_in(last) else {
        return Ok(None);
    };
    let mut run = Run {
        offset,
        answers: 0,
        since: last.at,
    };
    let mut counted = BTreeSet::new(alloc);
    for one in received.iter().rev() {
        let is_of_last = one.request.target == last.request.target;
        if is_of_last && !counted.contains(&one.request.number) {
            if offset_in(one) != Some(offset) {
                break;
            }
            counted.insert(one.request.number)?;
            run = run.with(one.at);
        }
    }
    Ok(Some(run))
}

/// The first of these ports of a clock that is in SLAVE.
fn slave_port(site: &Site, source: Source, ports: &[u16]) -> Option<u16> {
    ports.iter().copied().find(|port| match site.port(source, *port) {
        Some(set) => matches!(set.state(), Some(PortState::Slave)),
        None => false,
    })
}

/// Whether each answer for a port that came at a time or later says SLAVE.
fn stays_slave(received: &[Received], since: u64) -> bool {
    received.iter().all(|one| {
        let is_earlier = match one.at {
            Some(at) => at < since,
            None => false,
        };
        is_earlier || matches!(one.state(), Some(PortState::Slave))
    })
}

/// What a run of answers shows of a clock with this port in SLAVE, if it is long enough.
fn frozen_by(
    site: &Site,
    limits: Limits,
    source: Source,
    port: u16,
    run: Run,
) -> Option<FrozenOffset> {
    let since = run.since?;
    let last = site.answers(source, Asked::CurrentDataSet).last()?;
    let time = time_between(last.at, Some(since))?;
    let is_long = ENOUGH <= run.answers && frozen_wait(site, limits, source, port) <= time;
    if run.offset == 0 || !is_long || !stays_slave(site.port_answers(source, port), since) {
        return None;
    }
    Some(FrozenOffset {
        offset: run.offset,
        answers: run.answers,
        seconds: time / SECOND,
    })
}

/// The offset of a clock that follows another, if it stays the same. 0 is passed over: a clock that reckons none says it. `ports` are the
/// clock's ports that answered.
pub fn frozen_offset(
    alloc: Global,
    site: &Site,
    limits: Limits,
    source: Source,
    ports: &[u16],
) -> Result<Option<FrozenOffset>, AllocError> {
    let Some(port) = slave_port(site, source, ports) else {
        return Ok(None);
    };
    if site.followed(source).is_none() {
        return Ok(None);
    }
    match last_run(alloc, site.answers(source, Asked::CurrentDataSet))? {
        Some(run) => Ok(frozen_by(site, limits, source, port, run)),
        None => Ok(None),
    }
}
