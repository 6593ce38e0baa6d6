//! What clocks answer in a change of several clocks.

use crate::action::Why;
use crate::event::Event;
use crate::heard::Heard;
use crate::rollout::Rollout;
use crate::stage::{Stage, Then};
use crate::value::is_same;
use ptpm_journal::{Ending, Note, Outcome};
use std::alloc::AllocError;

/// The most octets of an answer that are noted: those of a text.
const ANSWER_OCTETS: usize = 258;

impl Rollout {
    ghost use Rattle.std.specs.Prelude.{◌≡◌, ◌<◌, ◌≢◌, IfOk, OnErr, Some, false, true, length, slice_get, option_map};
    ghost use Rattle.ptpm_apply.specs.declared.heard.Heard.{Heard};
    ghost use Rattle.ptpm_apply.specs.Going.{FailingAt};
    ghost use Rattle.ptpm_apply.specs.Rollout.{CanBegin, IsBegun, domain_of, is_after, is_before, moved_by};
    ghost use Rattle.ptpm_apply.specs.Turning.{HeardAfter, HeardAnswer, HeardAt, HeardBefore, HeardOther, HeardSettled, Seeking, has_value, is_heard, is_wanted, told};

    /// Whether a value is the one that is looked for.
    pub(crate) fn is_wanted(&self, event: &Event<'_>) -> Result<bool, AllocError>
        ensures wanted { IfOk result (λ b. b ≡ is_wanted self.now event.now) }
        ensures memory { OnErr result (has_value self.now.stage event.now ≡ true) }
    {
        let Event::Value { octets } = event else {
            return Ok(false);
        };
        match self.stage {
            Stage::Reading { step } => self.is_before(step, octets),
            Stage::Answering { step } | Stage::Settling { step, .. } | Stage::Verifying { step } =>
                self.is_after(step, octets),
            _ => Ok(false),
        }
    }

    /// Whether it is the value that the plan has before a step.
    #[tactic(auto, unfolding(crate::specs::Rollout::is_before))]
    fn is_before(&self, step: u16, octets: &[u8]) -> Result<bool, AllocError>
        ensures { IfOk result (λ b. b ≡ is_before self.now step octets.now) }
    {
        match self.step(step) {
            Some(planned) => is_same(self.alloc, planned.id, planned.before.as_slice(), octets),
            None => Ok(false),
        }
    }

    /// Whether it is the value that a step asks for.
    #[tactic(auto, unfolding(crate::specs::Rollout::is_after))]
    fn is_after(&self, step: u16, octets: &[u8]) -> Result<bool, AllocError>
        ensures { IfOk result (λ b. b ≡ is_after self.now step octets.now) }
    {
        match self.step(step) {
            Some(planned) => is_same(self.alloc, planned.id, planned.after.as_slice(), octets),
            None => Ok(false),
        }
    }

    /// What was heard where an answer is waited for.
    pub(crate) fn hear(&mut self, time: u64, heard: Heard, octets: &[u8])
        requires { is_heard self.old.stage ≡ true }
        ensures { HeardAt time self.old self.old.stage heard octets.now self.new }
    {
        match self.stage {
            Stage::Reading { step } => self.hear_before(time, step, heard),
            Stage::Verifying { step } => self.hear_after(time, step, heard),
            Stage::Answering { step } => self.hear_answer(time, step, heard, octets),
            Stage::Settling { step, domain } => {
                self.hear_settled(time, step, domain, heard, octets);
            }
            Stage::Yielding { lane, changes, .. } => self.hear_other(time, lane, changes, heard),
            Stage::Asking { step } => self.fail_at(time, step),
            _ => unreachable!(),
        }
    }

    /// The value of a member before its step.
    fn hear_before(&mut self, time: u64, step: u16, heard: Heard)
        requires { CanBegin self.old.journal step }
        ensures { HeardBefore time self.old step heard self.new }
    {
        match heard {
            Heard::Wanted => self.stage = Stage::Asking { step },
            Heard::Silent | Heard::Unsent => self.fail_at(time, step),
            Heard::Other | Heard::Refused { .. } => self.change_at(time, step),
        }
    }

    /// The value of a member after all steps.
    fn hear_after(&mut self, time: u64, step: u16, heard: Heard)
        requires { step < length self.old.steps }
        ensures { HeardAfter time self.old step heard self.new }
    {
        match heard {
            Heard::Wanted if usize::from(step) + 1 < self.steps.len() => {
                self.stage = Stage::Verifying { step: step + 1 };
            }
            Heard::Wanted => self.end(time, Ending::Complete, None),
            Heard::Silent | Heard::Unsent => self.stop(Why::Silent, Some(step)),
            Heard::Other | Heard::Refused { .. } => self.end(time, Ending::Changed, Some(step)),
        }
    }

    /// The answer to a step that was begun in this run.
    fn hear_answer(&mut self, time: u64, step: u16, heard: Heard, octets: &[u8])
        requires { IsBegun self.old.journal step }
        ensures { HeardAnswer time self.old step heard octets.now self.new }
    {
        match heard {
            Heard::Unsent => self.note(time, Note::NotBegun { step }, &[], Then::Fail { step }),
            Heard::Silent => self.seek(time, step, self.domain_of(step)),
            _ => self.tell(time, step, heard, octets),
        }
    }

    /// The answer to a step that was sent again.
    fn hear_settled(&mut self, time: u64, step: u16, domain: u8, heard: Heard, octets: &[u8])
        requires { IsBegun self.old.journal step }
        ensures { HeardSettled time self.old step domain heard octets.now self.new }
    {
        match heard {
            Heard::Unsent | Heard::Silent => self.seek(time, step, domain),
            _ => self.tell(time, step, heard, octets),
        }
    }

    /// A clock that has carried out its move hears only what is sent in the new domain.
    fn seek(&mut self, time: u64, step: u16, domain: u8)
        requires { IsBegun self.old.journal step }
        ensures { Seeking time self.old step domain self.new }
    {
        match self.moved_to(step) {
            Some(moved) if moved != domain => {
                self.stage = Stage::Settling {
                    step,
                    domain: moved,
                };
            }
            _ => self.fail_at(time, step),
        }
    }

    fn moved_to(&self, step: u16) -> Option<u8>
        ensures { result ≡ moved_by (slice_get self.now.steps step) }
    {
        match self.step(step) {
            Some(planned) => planned.moved_to(),
            None => None,
        }
    }

    /// Notes an answer.
    fn tell(&mut self, time: u64, step: u16, heard: Heard, octets: &[u8])
        requires { IsBegun self.old.journal step }
        ensures { self.new ≡ told time self.old step heard octets.now }
    {
        let octets = &octets[..octets.len().min(ANSWER_OCTETS)];
        let (outcome, error) = match heard {
            Heard::Wanted => (Outcome::Done, 0),
            Heard::Refused { error } => (Outcome::Refused, error),
            _ => (Outcome::Answered, 0),
        };
        let note = Note::Told {
            step,
            outcome,
            error,
        };
        self.note(time, note, octets, Then::Rest { step });
    }

    /// The answer to another program's request.
    fn hear_other(&mut self, time: u64, lane: u16, changes: bool, heard: Heard)
        ensures { HeardOther time self.old lane changes heard self.new }
    {
        match heard {
            Heard::Silent | Heard::Unsent => self.fail(time, Why::Silent, lane, None),
            _ => {
                if changes {
                    self.hold(lane);
                    self.is_changed = true;
                }
                self.stage = Stage::Resting { lane };
            }
        }
    }
}
