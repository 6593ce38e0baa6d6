//! Domains in which clocks send, and that were not asked.

use crate::judging::evidence::Evidence;
use crate::judging::unseen::was_asked;
use crate::reading::heard::{FOLLOW_UP, Heard};
use crate::reading::site::Site;
use crate::reading::source::Source;
use std::alloc::{AllocError, Global};
use std::collections::BTreeSet;

/// The clocks that send an Announce, a Sync or a Delay_Req, by domain and identity.
pub fn senders_of(alloc: Global, heard: &[Heard]) -> Result<Vec<Source>, AllocError> {
    let mut set = BTreeSet::new(alloc);
    for one in heard {
        if let Heard::Sent(sender) = one {
            if sender.kind != FOLLOW_UP {
                set.insert(sender.source)?;
            }
        }
    }
    set.iter().copied().collect(alloc)
}

/// How many clocks send in the domain of a clock, if it was not asked, and the clock is the first of them. `sources` has all clocks
/// that are seen, and `senders` all that send.
pub fn not_asked(
    site: &Site,
    evidence: &Evidence,
    source: Source,
    sources: &[Source],
    senders: &[Source],
) -> Option<usize> {
    if was_asked(evidence, source.domain, sources) {
        return None;
    }
    let has_get = site
        .all_heard()
        .iter()
        .any(|one| matches!(one, Heard::Asked(_)));
    let first = senders
        .iter()
        .find(|sender| sender.domain == source.domain)?;
    if *first != source || !has_get {
        return None;
    }
    let count = senders
        .iter()
        .filter(|sender| sender.domain == source.domain)
        .count();
    Some(count)
}
