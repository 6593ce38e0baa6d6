//! How a change may end.

ghost use Rattle.std.specs.Prelude.{◌≡◌};
ghost use Rattle.ptpm_journal.specs.Journal.{all_allow, allows, is_at, may_end};

use crate::record::{Ending, Mark};

/// Whether a change whose steps have these marks may end so, at this step.
pub fn may_end(marks: &[Mark], ending: Ending, step: u16) -> bool
    ensures { result ≡ may_end marks.now ending step }
{
    all_allow(marks, ending) && is_at(marks, ending, step)
}

fn all_allow(marks: &[Mark], ending: Ending) -> bool
    ensures { result ≡ all_allow ending marks.now }
{
    for mark in marks {
        if !allows(ending, *mark) {
            return false;
        }
    }
    true
}

/// Whether a step may have this mark at the end. None may have an answer on its way, and one that is let go is given up.
fn allows(ending: Ending, mark: Mark) -> bool
    ensures { result ≡ allows ending mark }
{
    match (ending, mark) {
        (_, Mark::Begun) => false,
        (Ending::Complete, Mark::Done) => true,
        (Ending::Complete, _) => false,
        (Ending::GivenUp, _) => true,
        (_, Mark::LetGo) => false,
        _ => true,
    }
}

/// Whether the step has the answer that ends it.
fn is_at(marks: &[Mark], ending: Ending, step: u16) -> bool
    ensures { result ≡ is_at ending step marks.now }
{
    let place = step as usize;
    match ending {
        Ending::Refused => place < marks.len() && marks[place] == Mark::Refused,
        Ending::Answered => place < marks.len() && marks[place] == Mark::Answered,
        _ => true,
    }
}
