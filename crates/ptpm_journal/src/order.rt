//! In which order the steps of a change are begun.

ghost use Rattle.std.specs.Prelude.{◌≡◌, ◌<◌, ℕ, IfNone, IfSome, IsTrue, length, true};
ghost use Rattle.ptpm_journal.specs.Order.{MayBegin, is_before};

use crate::record::{Mark, Step};

/// The group of steps that come in any order.
const FREE: u8 = 3;

/// The group of ranks, which are asked one after the other.
const RANKS: u8 = 5;

/// The group of moves to another domain, which come after all before them.
pub const MOVES: u8 = 6;

/// Whether a step has to be done before a later one is begun.
fn is_before(earlier: Step, later: Step) -> bool
    ensures { result ≡ is_before earlier later }
{
    if earlier.clock == later.clock || later.group == MOVES {
        return true;
    }
    if earlier.domain != later.domain || earlier.group == FREE || later.group == FREE {
        return false;
    }
    earlier.group < later.group || later.group == RANKS
}

/// Whether a step may be begun now: it is untouched, and all that have to be done before it are done.
pub fn may_begin(steps: &[Step], marks: &[Mark], place: usize) -> bool
    requires as_many { length steps.now ≡ length marks.now }
    requires in_range { place < length steps.now }
    ensures yes { IsTrue result → MayBegin steps.now marks.now place }
    ensures no { MayBegin steps.now marks.now place → result ≡ true }
{
    if marks[place] != Mark::Untouched {
        return false;
    }
    for earlier in 0..place {
        if marks[earlier] != Mark::Done && is_before(steps[earlier], steps[place]) {
            return false;
        }
    }
    true
}

/// The first step that may be begun now.
pub fn next_step(steps: &[Step], marks: &[Mark]) -> Option<usize>
    requires { length steps.now ≡ length marks.now }
    ensures found { IfSome result (λ place. (place < length steps.now) × MayBegin steps.now marks.now place) }
    ensures first { IfSome result
        (λ place. (earlier : ℕ) → earlier < place → MayBegin steps.now marks.now earlier → ⊥) }
    ensures none { IfNone result
        ((place : ℕ) → place < length steps.now → MayBegin steps.now marks.now place → ⊥) }
{
    for place in 0..steps.len() {
        if may_begin(steps, marks, place) {
            return Some(place);
        }
    }
    None
}
