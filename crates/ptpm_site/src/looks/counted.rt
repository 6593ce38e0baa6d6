//! What counts of a site whose clocks may be gone.

use crate::looks::gone::gone_set;
use crate::looks::{LastLooks, Look};
use crate::reading::heard::Heard;
use crate::reading::site::Site;
use crate::reading::source::Source;
use std::alloc::{AllocError, Global};
use std::collections::{BTreeMap, BTreeSet};

impl Site {
    /// Drops what clocks said that are gone, except their descriptions, and the messages that they sent before they were asked
    /// last. The site knows further on that they are gone.
    pub fn drop_gone(&mut self, alloc: Global) -> Result<(), AllocError> {
        let last = LastLooks::of(alloc, self.heard.as_slice())?;
        let gone = gone_set(alloc, self.heard.as_slice(), &last)?;
        let heard = counted(alloc, self.heard.as_slice(), &last, &gone)?;
        self.gone_descriptions = descriptions_of(alloc, self, &gone)?;
        self.clocks.retain(|source, _| !gone.contains(source));
        self.heard = heard;
        Ok(())
    }
}

/// All that counts of what was heard: of a clock that is gone, what came after the last look in its domain.
fn counted(
    alloc: Global,
    heard: &[Heard],
    last: &LastLooks,
    gone: &BTreeSet<Source>,
) -> Result<Vec<Heard>, AllocError> {
    let mut begun = BTreeSet::new(alloc);
    let mut found = Vec::new(alloc);
    for one in heard {
        let counts = match sent_by(one) {
            Some(source) => !gone.contains(&source) || begun.contains(&source.domain),
            None => true,
        };
        if counts {
            found.push(*one)?;
        }
        if let Some(look) = Look::of(one) {
            if last.is_latest(look.topic, look.request) {
                begun.insert(look.topic.domain)?;
            }
        }
    }
    Ok(found)
}

/// The clock that sent a message by itself, or an answer that was not taken.
fn sent_by(one: &Heard) -> Option<Source> {
    match one {
        Heard::Sent(sender) => Some(sender.source),
        Heard::Untaken(answer) => Some(answer.source),
        Heard::Timed(origin) => Some(origin.source),
        Heard::Announces(announced) => Some(announced.port.source),
        _ => None,
    }
}

/// The last userDescription of each of these clocks that answered one.
fn descriptions_of(
    alloc: Global,
    site: &Site,
    clocks: &BTreeSet<Source>,
) -> Result<BTreeMap<Source, String>, AllocError> {
    let mut kept = BTreeMap::new(alloc);
    for source in clocks.iter() {
        if let Some(text) = site.last_description(*source) {
            kept.insert(*source, String::from_str(alloc, text)?)?;
        }
    }
    Ok(kept)
}
