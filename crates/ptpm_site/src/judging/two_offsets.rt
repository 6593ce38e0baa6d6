//! Two clocks with one identity, which answer with two offsets each time.

use crate::looks::stay::is_another;
use crate::reading::clock::Received;

/// Two values of offsetFromMaster that came to one request.
#[derive(Clone, Copy)]
pub struct TwoOffsets {
    pub first: i64,
    pub second: i64,
}

/// Whether an answer came to the request of another, and says another offset or delay.
fn is_other_answer(one: &Received, other: &Received) -> bool {
    match (one.current(), other.current()) {
        (Some(a), Some(b)) => {
            other.request == one.request
                && (a.offset_from_master != b.offset_from_master || a.mean_delay != b.mean_delay)
        }
        _ => false,
    }
}

/// The first of these answers that came to the request of one, and says another offset or delay.
fn other_answer<'a>(received: &'a [Received], one: &Received) -> Option<&'a Received> {
    received.iter().find(|other| is_other_answer(one, other))
}

/// Two offsets in the last look, if there were two in the look before as well.
pub fn two_offsets(received: &[Received]) -> Option<TwoOffsets> {
    let last = received.last()?;
    let other = other_answer(received, last)?;
    let before = received
        .iter()
        .rev()
        .find(|earlier| is_another(&earlier.request, &last.request))?;
    let _ = other_answer(received, before)?;
    offsets_of(other, last)
}

/// Two offsets in the last look alone: a Sync that comes between two copies of a request does this too.
pub fn open_offsets(received: &[Received]) -> Option<TwoOffsets> {
    if two_offsets(received).is_some() {
        return None;
    }
    let last = received.last()?;
    offsets_of(other_answer(received, last)?, last)
}

fn offsets_of(other: &Received, last: &Received) -> Option<TwoOffsets> {
    Some(TwoOffsets {
        first: other.current()?.offset_from_master,
        second: last.current()?.offset_from_master,
    })
}
