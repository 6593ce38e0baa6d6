//! Loops, each reported at its least clock.

use crate::judging::finding::{Added, Finding, What, add_finding};
use crate::reading::site::Site;
use crate::reading::source::Source;
use ptpm_codec::ClockIdentity;
use std::alloc::{AllocError, Global};
use std::cmp::Ordering;

/// Reports `loop` at the least clock of one. `count` is the number of clocks of the site.
pub fn judge_loop(
    alloc: Global,
    site: &Site,
    source: Source,
    count: usize,
    findings: &mut Vec<Finding<'_>>,
) -> Added {
    if let Some(clocks) = loop_from(alloc, site, source, count)? {
        add_finding(findings, source, What::Loop(clocks))?;
    }
    Ok(())
}

/// The clocks of a loop, from the first one on. Each is followed in the list by the clock that it follows, and the last one
/// follows the first. `None` if a clock on this way is less than the first, follows none that is seen, or if `count` clocks do
/// not lead back.
fn loop_from(
    alloc: Global,
    site: &Site,
    first: Source,
    count: usize,
) -> Result<Option<Vec<ClockIdentity>>, AllocError> {
    let mut clocks = Vec::new(alloc);
    let mut here = first;
    for walked in 0..count {
        let Some(parent) = site.parent_clock(here) else {
            return Ok(None);
        };
        clocks.push(here.clock)?;
        match parent.cmp(&first) {
            Ordering::Less => return Ok(None),
            Ordering::Equal => return Ok(Some(clocks)),
            Ordering::Greater => here = parent,
        }
    }
    Ok(None)
}
