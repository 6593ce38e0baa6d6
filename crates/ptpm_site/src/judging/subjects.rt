//! The clocks that may have findings, whether they are seen or not.

use crate::looks::LastLooks;
use crate::looks::gone::gone_set;
use crate::reading::heard::Heard;
use crate::reading::site::Site;
use crate::reading::source::Source;
use std::alloc::{AllocError, Global};
use std::collections::BTreeSet;

/// The clocks that are seen, those that they name, and those that are gone. And those that send by themselves, or whose answers were
/// not taken. All by domain and identity.
/// `sources` has all clocks that are seen.
pub fn subjects_of(
    alloc: Global,
    site: &Site,
    sources: &[Source],
) -> Result<Vec<Source>, AllocError> {
    let heard = site.all_heard();
    let last = LastLooks::of(alloc, heard)?;
    let mut found = gone_set(alloc, heard, &last)?;
    for source in sources {
        found.insert(*source)?;
        if let Some(set) = site.parent(*source) {
            found.insert(source.beside(set.grandmaster))?;
            found.insert(source.beside(set.parent.clock))?;
        }
    }
    for one in heard {
        match one {
            Heard::Sent(sender) => {
                found.insert(sender.source)?;
            }
            Heard::Untaken(answer) => {
                found.insert(answer.source)?;
            }
            _ => {}
        }
    }
    found.iter().copied().collect(alloc)
}
