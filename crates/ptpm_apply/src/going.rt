//! What comes next in a change of several clocks.

ghost use Rattle.std.specs.Prelude.{◌≤◌, length};
ghost use Rattle.ptpm_apply.specs.Going.{FirstLetGo};

use crate::action::{Over, Why};
use crate::choice::Choice;
use crate::planned::Planned;
use crate::rollout::Rollout;
use crate::stage::{Stage, Then};
use ptpm_journal::{Ending, Journal, Mark, Note, Record};

impl Rollout {
    ghost use Rattle.std.specs.Prelude.{◌≡◌, ◌≢◌, ◌<◌, ◌≤◌, ◌⊎◌, ◌↔◌, ℕ, IfSome, IfNone, IsTrue, Some, None, false, true, length, slice_get};
    ghost use Rattle.ptpm_apply.specs.declared.choice.Choice.{Choice};
    ghost use Rattle.ptpm_apply.specs.declared.stage.Stage.{Stage};
    ghost use Rattle.ptpm_apply.specs.Going.{AreDone, AreLeft, AreSeen, EndsBy, FirstLetGo, Going, HasFailed, HasNoNext, HasNoneLeft, HasToCome, IsElsewhere, IsFirst, IsNext, IsToCome, IsUntouched, MayGoOn, MayPass, asks_steps, is_left_lane, left};
    ghost use Rattle.ptpm_apply.specs.Rollout.{CanBegin, is_held_at};
    ghost use Rattle.ptpm_apply.specs.Turning.{BegunAt, CheckedAt, DoneAt, Follows, awaits_check, awaits_done, awaits_number};

    /// Whether it may go on at another clock.
    pub(crate) fn check(&mut self, time: u64, passes: bool)
        requires { awaits_check self.old.stage ≡ true }
        ensures { CheckedAt time self.old self.old.stage passes self.new }
    {
        let Stage::Checking { step } = self.stage else {
            unreachable!();
        };
        if passes {
            self.stage = Stage::Reading { step };
        } else {
            self.end(time, Ending::Stopped, Some(step));
        }
    }

    /// The asker begins the step.
    pub(crate) fn begin(&mut self, time: u64, number: u16)
        requires { awaits_number self.old.stage ≡ true }
        ensures { BegunAt time self.old self.old.stage number self.new }
    {
        let Stage::Asking { step } = self.stage else {
            unreachable!();
        };
        let place = usize::from(step);
        if place < self.numbers.len() {
            self.numbers[place] = number;
        }
        self.note(time, Note::Begun { step, number }, &[], Then::Send { step });
    }

    /// What was handed out is done.
    pub(crate) fn finish(&mut self, time: u64)
        requires { awaits_done self.old.stage ≡ true }
        ensures { DoneAt time self.old self.old.stage self.new }
    {
        match self.stage {
            Stage::Noting { next } => self.follow(time, next),
            _ => self.go_on(time),
        }
    }

    /// What comes once a record is on the disk.
    fn follow(&mut self, time: u64, next: Then)
        requires { self.old.stage ≡ Stage.Noting next }
        ensures { Follows time self.old next self.new }
    {
        match next {
            Then::Send { step } => self.stage = Stage::Answering { step },
            Then::Rest { step } => {
                self.stage = Stage::Resting {
                    lane: self.lane_of(step),
                };
            }
            Then::Fail { step } => self.fail_at(time, step),
            Then::GoOn => self.go_on(time),
            Then::Yield { lane, changes } => self.yield_to(lane, changes),
            Then::LetGo { lane } => self.stage = Stage::LettingGo { lane },
            Then::End { ending, step } => {
                self.stage = Stage::Over {
                    how: Over::Ended { ending, step },
                };
            }
        }
    }

    /// The next lane to look at, and after the last one the next step.
    pub(crate) fn go_on(&mut self, time: u64)
        ensures { Going time self.old self.new }
    {
        if let Some(lane) = self.next_unseen() {
            self.stage = Stage::Looking { lane };
            return;
        }
        match self.choice {
            Choice::Stop => self.go_on_in_row(time),
            Choice::KeepGoing => self.go_on_apart(time),
            Choice::GiveUp => self.end(time, Ending::GivenUp, self.first_let_go()),
            Choice::Settle => self.stage = Stage::Over { how: Over::Settled },
        }
    }

    /// The next lane that is to be looked at.
    fn next_unseen(&self) -> Option<u16>
        ensures later { IfSome result (λ lane. (self.now.seen ≤ lane) × (lane < length self.now.lanes)) }
        ensures next { IfSome result (λ lane. self.now.choice ≢ Choice.Settle → lane ≡ self.now.seen) }
        ensures passed { IfSome result (λ lane. (earlier : ℕ) → self.now.seen ≤ earlier → earlier < lane → IsUntouched self.now earlier) }
        ensures touched { IfSome result (λ lane. self.now.choice ≡ Choice.Settle → IsUntouched self.now lane → ⊥) }
        ensures none { IfNone result (self.now.choice ≢ Choice.Settle → AreSeen self.now) }
        ensures left { IfNone result (HasNoneLeft self.now) }
    {
        for lane in self.seen..self.lane_count() {
            if !matches!(self.choice, Choice::Settle) || self.is_touched(lane) {
                return Some(lane);
            }
        }
        None
    }

    /// Whether a step of it is begun, or has an answer.
    #[tactic(auto, unfolding(crate::specs::Going::IsUntouched))]
    fn is_touched(&self, lane: u16) -> bool
        ensures untouched { result ≡ false → IsUntouched self.now lane }
        ensures touched { result ≡ true → IsUntouched self.now lane → ⊥ }
    {
        self.begun_in(lane).is_some() || self.latest_told(lane).is_some()
    }

    /// The first step that was given up.
    fn first_let_go(&self) -> Option<u16>
        ensures { FirstLetGo self.now.journal.marks (length self.now.steps) result }
    {
        first_let_go(&self.journal, self.steps.as_slice())
    }

    /// The first fault ends it.
    fn go_on_in_row(&mut self, time: u64)
        requires seen { AreSeen self.old }
        requires stops { self.old.choice ≡ Choice.Stop }
        ensures { Going time self.old self.new }
    {
        if self.is_changed {
            self.end(time, Ending::Changed, None);
        } else if let Some((step, ending)) = self.failed() {
            self.end(time, ending, Some(step));
        } else if let Some(step) = self.next_step() {
            self.take(time, step);
        } else if self.are_done() {
            self.verify(time);
        } else {
            self.stop(Why::Silent, None);
        }
    }

    /// A fault holds only what comes after it.
    fn go_on_apart(&mut self, time: u64)
        requires seen { AreSeen self.old }
        requires keeps_going { self.old.choice ≡ Choice.KeepGoing }
        ensures { Going time self.old self.new }
    {
        if let Some(lane) = self.next_to_leave() {
            self.leave(lane);
        } else if let Some(step) = self.next_step() {
            self.take(time, step);
        } else if !self.are_done() {
            self.end(time, Ending::InPart, None);
        } else if self.is_changed {
            self.end(time, Ending::Changed, None);
        } else {
            self.verify(time);
        }
    }

    /// The first step whose answer is not what was asked, and the end that it makes.
    fn failed(&self) -> Option<(u16, Ending)>
        ensures found { IfSome result (λ f. self.now.choice ≡ Choice.Stop → EndsBy self.now f.1 (Some f.0)) }
        ensures none { IfNone result ((step : ℕ) → step < length self.now.steps → HasFailed self.now step → ⊥) }
    {
        for step in 0..self.step_count() {
            if self.has_mark(step, Mark::Refused) {
                return Some((step, Ending::Refused));
            }
            if self.has_mark(step, Mark::Answered) {
                return Some((step, Ending::Answered));
            }
        }
        None
    }

    /// The first step that may be begun now, of a clock that is not held.
    fn next_step(&self) -> Option<u16>
        ensures found { IfSome result (λ step. IsNext self.now step) }
        ensures first { IfSome result (λ step. IsFirst self.now step) }
        ensures none { IfNone result (HasNoNext self.now) }
    {
        for step in 0..self.step_count() {
            if self.can_begin(step) && !self.is_held_at(step) {
                return Some(step);
            }
        }
        None
    }

    fn can_begin(&self, step: u16) -> bool
        ensures { result ≡ true ↔ CanBegin self.now.journal step }
    {
        self.journal.may_take(Record::Note {
            time: 0,
            note: Note::Begun { step, number: 0 },
        })
    }

    fn is_held_at(&self, step: u16) -> bool
        ensures { result ≡ is_held_at self.now step }
    {
        let lane = self.lane_of(step);
        match self.lanes.as_slice().get(usize::from(lane)) {
            Some(lane) => lane.is_held,
            None => false,
        }
    }

    fn are_done(&self) -> bool
        ensures { result ≡ true ↔ AreDone self.now.journal }
    {
        self.journal.may_take(Record::End {
            time: 0,
            ending: Ending::Complete,
            step: 65_535,
        })
    }

    /// The first lane without a step to come, whose mark is there yet.
    fn next_to_leave(&self) -> Option<u16>
        ensures marked { IfSome result (λ lane. is_left_lane (slice_get self.now.lanes lane) ≡ false) }
        ensures over { IfSome result (λ lane. (step : ℕ) → step < length self.now.steps → IsToCome self.now lane step → ⊥) }
        ensures none { IfNone result (AreLeft self.now) }
    {
        for lane in 0..self.lane_count() {
            if !self.is_left(lane) && !self.has_to_come(lane) {
                return Some(lane);
            }
        }
        None
    }

    fn is_left(&self, lane: u16) -> bool
        ensures { result ≡ is_left_lane (slice_get self.now.lanes lane) }
    {
        match self.lanes.as_slice().get(usize::from(lane)) {
            Some(lane) => lane.is_left,
            None => true,
        }
    }

    /// Whether a step of it is untouched, or has no answer.
    fn has_to_come(&self, lane: u16) -> bool
        ensures none { result ≡ false → (step : ℕ) → step < length self.now.steps → IsToCome self.now lane step → ⊥ }
        ensures some { result ≡ true → HasToCome self.now lane }
    {
        for step in 0..self.step_count() {
            if self.is_of(step, lane)
                && (self.has_mark(step, Mark::Untouched) || self.has_mark(step, Mark::Begun))
            {
                return true;
            }
        }
        false
    }

    fn leave(&mut self, lane: u16)
        ensures { self.new ≡ left self.old lane }
    {
        let place = usize::from(lane);
        if place < self.lanes.len() {
            let mut left = self.lanes[place];
            left.is_left = true;
            self.lanes[place] = left;
        }
        self.stage = Stage::Leaving { lane };
    }

    /// Before the first step at another clock than the one before, the host says whether to go on.
    fn take(&mut self, time: u64, step: u16)
        requires seen { AreSeen self.old }
        requires next { IsNext self.old step }
        requires goes_on { MayGoOn self.old }
        requires asks { asks_steps self.old.choice ≡ true }
        requires first { IsFirst self.old step }
        requires passes { MayPass self.old }
        ensures { Going time self.old self.new }
    {
        if self.is_elsewhere(step) {
            self.stage = Stage::Checking { step };
        } else {
            self.stage = Stage::Reading { step };
        }
    }

    fn is_elsewhere(&self, step: u16) -> bool
        ensures { result ≡ true ↔ IsElsewhere self.now step }
    {
        step > 0 && self.clock_of(step) != self.clock_of(step - 1)
    }

    /// Each member is read once more.
    fn verify(&mut self, time: u64)
        requires seen { AreSeen self.old }
        requires done { AreDone self.old.journal }
        requires unchanged { self.old.is_changed ≡ false }
        requires passes { MayPass self.old }
        ensures { Going time self.old self.new }
    {
        if self.step_count() == 0 {
            self.end(time, Ending::Complete, None);
        } else {
            self.stage = Stage::Verifying { step: 0 };
        }
    }
}

/// The first of these steps that was given up.
pub(crate) fn first_let_go(journal: &Journal, steps: &[Planned]) -> Option<u16>
    requires { length steps.now ≤ 65535 }
    ensures { FirstLetGo journal.now.marks.items (length steps.now) result }
{
    for step in 0..steps.len() as u16 {
        if journal.mark_of(step) == Some(Mark::LetGo) {
            return Some(step);
        }
    }
    None
}
