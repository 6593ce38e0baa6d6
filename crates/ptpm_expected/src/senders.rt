//! The clocks that send by themselves, or answer and are not seen.

use ptpm_site::reading::heard::{ANNOUNCE, DELAY_REQ, Heard};
use ptpm_site::reading::site::Site;
use ptpm_site::reading::source::Source;
use std::alloc::{AllocError, Global};
use std::collections::BTreeSet;

/// The clocks that send Announce, Sync or Follow_Up, which a port in MASTER sends.
pub(crate) fn giving(alloc: Global, site: &Site) -> Result<BTreeSet<Source>, AllocError> {
    let mut set = BTreeSet::new(alloc);
    for one in site.all_heard() {
        if let Heard::Sent(sender) = one {
            if sender.kind != DELAY_REQ {
                set.insert(sender.source)?;
            }
        }
    }
    Ok(set)
}

/// The clocks that send Announce or whose answers were not taken, by domain and then by identity. All but those that are seen.
pub(crate) fn unseen_clocks(alloc: Global, site: &Site) -> Result<Vec<Source>, AllocError> {
    let mut set = BTreeSet::new(alloc);
    for one in site.all_heard() {
        if let Some(source) = shown_by(one) {
            if !site.is_seen(source) {
                set.insert(source)?;
            }
        }
    }
    set.iter().copied().collect(alloc)
}

/// The clock that sends an Announce, or an answer that was not taken.
fn shown_by(one: &Heard) -> Option<Source> {
    match one {
        Heard::Sent(sender) if sender.kind == ANNOUNCE => Some(sender.source),
        Heard::Untaken(answer) => Some(answer.source),
        _ => None,
    }
}
