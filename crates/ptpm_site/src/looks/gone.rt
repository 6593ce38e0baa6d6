//! Clocks that answered, and no longer to the last look.

use crate::looks::{LastLooks, Topic};
use crate::reading::heard::Heard;
use crate::reading::source::Source;
use std::alloc::{AllocError, Global};
use std::collections::BTreeSet;

/// The clocks that are gone.
pub fn gone_set(
    alloc: Global,
    heard: &[Heard],
    last: &LastLooks,
) -> Result<BTreeSet<Source>, AllocError> {
    let present = present_set(alloc, heard, last)?;
    let mut gone = BTreeSet::new(alloc);
    for one in heard {
        if let Heard::Answered(travel) = one {
            if !present.contains(&travel.source) {
                gone.insert(travel.source)?;
            }
        }
    }
    Ok(gone)
}

/// The clocks with an answer that no look for its id came after, or that came to a GET to one clock or one port.
fn present_set(
    alloc: Global,
    heard: &[Heard],
    last: &LastLooks,
) -> Result<BTreeSet<Source>, AllocError> {
    let mut singles = BTreeSet::new(alloc);
    for one in heard {
        if let Heard::Asked(query) = one {
            if !query.is_to_all() {
                singles.insert(query.request)?;
            }
        }
    }
    let mut present = BTreeSet::new(alloc);
    for one in heard {
        if let Heard::Answered(travel) = one {
            let topic = Topic::of(travel.source.domain, travel.asked);
            if last.is_latest(topic, travel.request) || singles.contains(&travel.request) {
                present.insert(travel.source)?;
            }
        }
    }
    Ok(present)
}
