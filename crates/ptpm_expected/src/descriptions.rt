//! The descriptions that the clocks of an inventory are to have.

use crate::inventory::{Entry, MemberRule, Rule};
use ptpm_data::Member::UserDescription;
use ptpm_members::Member::DataSet;
use ptpm_site::judging::expected::Wanted;
use ptpm_site::reading::source::Source;
use std::alloc::{AllocError, Global};
use std::collections::BTreeMap;

/// Of each clock the last description that an inventory wants as the only one.
#[derive(Drop)]
pub(crate) struct Descriptions<'a> {
    by_clock: BTreeMap<Source, &'a str>,
}

impl<'a> Descriptions<'a> {
    pub(crate) fn of(alloc: Global, entries: &'a [Entry]) -> Result<Descriptions<'a>, AllocError> {
        let mut by_clock = BTreeMap::new(alloc);
        for entry in entries {
            if let Rule::Member(clock, rule) = &entry.rule {
                let (domain, clock) = (entry.domain, *clock);
                if let Some(text) = only_text(rule) {
                    let _ = by_clock.insert(Source { domain, clock }, text)?;
                }
            }
        }
        Ok(Descriptions { by_clock })
    }

    pub(crate) fn get(&self, source: Source) -> Option<&'a str> {
        self.by_clock.get(&source).copied()
    }
}

/// The description that a rule wants, if that is the only one.
fn only_text(rule: &MemberRule) -> Option<&str> {
    if !matches!(rule.member, DataSet(UserDescription)) {
        return None;
    }
    match rule.wanted.as_slice() {
        [one] => match one {
            Wanted::Text(text) => Some(text.as_str()),
            _ => None,
        },
        _ => None,
    }
}
