//! Two clocks with one identity.

use crate::judging::two_addresses::TwoAddresses;
use crate::judging::two_offsets::TwoOffsets;
use crate::looks::changes::Change;
use std::alloc::Global;

/// A member in which two answers of a clock differ.
#[derive(Clone, Copy)]
pub struct OtherMember<'a> {
    /// The port. `None` if it is a member of the clock.
    pub port: Option<u16>,
    pub change: Change<'a>,
}

/// What shows that two clocks have one identity: one of the three at least.
#[derive(Drop)]
pub struct Twice<'a> {
    pub addresses: Option<TwoAddresses<'a>>,
    pub offsets: Option<TwoOffsets>,
    /// The members in which answers to one request differ, by id, by port, and by their place in the data set.
    pub members: Vec<OtherMember<'a>>,
}

impl<'a> Twice<'a> {
    /// Two offsets alone.
    pub fn by_offsets(alloc: Global, offsets: TwoOffsets) -> Twice<'a> {
        Twice {
            addresses: None,
            offsets: Some(offsets),
            members: Vec::new(alloc),
        }
    }
}
