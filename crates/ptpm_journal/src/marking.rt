//! What notes make of the marks of steps.

ghost use Rattle.std.specs.Prelude.{◌≡◌, IsTrue, false, length, true};
ghost use Rattle.ptpm_journal.specs.Order.{IsAllowedAt, mark_by, mark_told, marked, step_of};
ghost use Rattle.ptpm_journal.specs.Replay.{AreAllowedFrom, marks_after};

use crate::order::may_begin;
use crate::record::{Mark, Note, Outcome, Step};

/// Whether a run may make a note now.
pub fn is_allowed(steps: &[Step], marks: &[Mark], note: Note) -> bool
    requires { length steps.now ≡ length marks.now }
    ensures yes { IsTrue result → IsAllowedAt steps.now marks.now note }
    ensures no { IsAllowedAt steps.now marks.now note → result ≡ true }
{
    let place = step_of(note) as usize;
    if place >= marks.len() {
        return false;
    }
    match note {
        Note::Begun { .. } => may_begin(steps, marks, place),
        _ => marks[place] == Mark::Begun,
    }
}

/// The step of a note.
pub fn step_of(note: Note) -> u16
    ensures { result ≡ step_of note }
{
    match note {
        Note::Begun { step, .. } => step,
        Note::NotBegun { step } => step,
        Note::LetGo { step } => step,
        Note::Told { step, .. } => step,
    }
}

/// What its step is after a note.
fn mark_by(note: Note) -> Mark
    ensures { result ≡ mark_by note }
{
    match note {
        Note::Begun { .. } => Mark::Begun,
        Note::NotBegun { .. } => Mark::Untouched,
        Note::LetGo { .. } => Mark::LetGo,
        Note::Told { outcome, .. } => mark_told(outcome),
    }
}

fn mark_told(outcome: Outcome) -> Mark
    ensures { result ≡ mark_told outcome }
{
    match outcome {
        Outcome::Done => Mark::Done,
        Outcome::Refused => Mark::Refused,
        Outcome::Answered => Mark::Answered,
    }
}

/// Takes a note, if a run may make it now. If not, nothing changes.
pub fn mark(steps: &[Step], marks: &mut [Mark], note: Note) -> bool
    requires { length steps.now ≡ length marks.old }
    ensures allowed { IsTrue result → IsAllowedAt steps.now marks.old note }
    ensures marked { IsTrue result → marks.new ≡ marked note marks.old }
    ensures permitted { IsAllowedAt steps.now marks.old note → result ≡ true }
    ensures refused { result ≡ false → marks.new ≡ marks.old }
{
    if !is_allowed(steps, marks, note) {
        return false;
    }
    let place = step_of(note) as usize;
    marks[place] = mark_by(note);
    true
}

/// Takes the notes of a journal, the first one first. Whether a run may have made them all.
pub fn mark_all(steps: &[Step], marks: &mut [Mark], notes: &[Note]) -> bool
    requires { length steps.now ≡ length marks.old }
    ensures allowed { IsTrue result → AreAllowedFrom steps.now marks.old notes.now }
    ensures marked { IsTrue result → marks.new ≡ marks_after notes.now marks.old }
    ensures permitted { AreAllowedFrom steps.now marks.old notes.now → result ≡ true }
{
    for note in notes {
        if !mark(steps, marks, *note) {
            return false;
        }
    }
    true
}
