//! A change of several clocks, step by step. It does no input or output: it takes what came of an action, and hands out the next one.

use crate::action::{Action, Why};
use crate::choice::{Choice, TurnError};
use crate::event::Event;
use crate::heard::Heard;
use crate::lane::{Lane, place_in};
use crate::planned::Planned;
use crate::stage::Stage;
use ptpm_journal::Journal;
use std::alloc::Global;
use std::marker::Model;

/// A change that goes on. Contracts see what its journal says, and the stage.
#[derive(Drop)]
pub struct Rollout {
    pub(crate) alloc: Global,
    pub(crate) choice: Choice,
    pub(crate) journal: Journal,
    pub(crate) steps: Vec<Planned>,
    /// Of each step that was begun, the latest sequenceId.
    pub(crate) numbers: Vec<u16>,
    /// The clocks of the steps, each once, in the order of their identities.
    pub(crate) lanes: Vec<Lane>,
    /// How many lanes were looked at.
    pub(crate) seen: u16,
    /// Whether another program's request has changed a clock.
    pub(crate) is_changed: bool,
    pub(crate) stage: Stage,
    /// Room for a record, and how many octets the latest one has.
    pub(crate) room: Vec<u8>,
    pub(crate) size: usize,
}

impl Model for Rollout {
    ghost use Rattle.ptpm_apply.specs.Rollout.{IsRollout, RolloutValue, rollout_value};

    ghost Value = { RolloutValue };

    ghost view = { rollout_value };

    ghost invariant = { IsRollout };
}

impl Rollout {
    ghost use Rattle.std.specs.Prelude.{◌≡◌, ◌≤◌, ◌↔◌, OnErr, OnOk, IfOk, Err, Some, false, true, length, slice_get};
    ghost use Rattle.std.specs.Option.{option_copied};
    ghost use Rattle.ptpm_apply.specs.declared.choice.TurnError.{TurnError};
    ghost use Rattle.ptpm_apply.specs.Rollout.{clock_in, clock_of, domain_of, lane_of, last_domain};
    ghost use Rattle.ptpm_apply.specs.Moves.{IsMove};
    ghost use Rattle.ptpm_apply.specs.Turning.{Turned, action_of, answers, has_value, is_wanted};

    /// Takes what came of the latest action, at a time in seconds since 1970, and hands out the next one. If it is refused, nothing
    /// changes. Memory is asked for the comparison of values alone.
    pub fn turn(&mut self, time: u64, event: Event<'_>) -> Result<Action, TurnError>
        ensures turned { IfOk result (λ a. Turned time self.old event.entry self.new) }
        ensures action { IfOk result (λ a. a ≡ action_of self.new self.new.stage) }
        ensures out_of_turn { result ≡ Err TurnError.OutOfTurn ↔ (answers self.old.stage event.entry ≡ false) }
        ensures memory { result ≡ Err TurnError.OutOfMemory → has_value self.old.stage event.entry ≡ true }
        ensures unchanged { OnErr result (self.new ≡ self.old) }
        ensures moves { OnOk result (IsMove self.old event.entry self.new) }
    {
        if !self.stage.is_answered_by(&event) {
            return Err(TurnError::OutOfTurn);
        }
        let Ok(wanted) = self.is_wanted(&event) else {
            return Err(TurnError::OutOfMemory);
        };
        self.handle(time, &event, wanted);
        Ok(self.action())
    }

    /// The record that is to be noted.
    pub fn record(&self) -> &[u8]
        ensures { result.now ≡ self.now.noted }
    {
        &self.room[..self.size]
    }

    /// The clockIdentity of a lane, as a number.
    pub fn lane(&self, lane: u16) -> Option<u64>
        ensures { result ≡ clock_in self.now lane }
    {
        match self.lanes.as_slice().get(usize::from(lane)) {
            Some(lane) => Some(lane.clock),
            None => None,
        }
    }

    /// What the host is to do at this stage.
    fn action(&self) -> Action
        ensures { result ≡ action_of self.now self.now.stage }
    {
        match self.stage {
            Stage::Fresh | Stage::Noting { .. } => Action::Note,
            Stage::Looking { lane } => Action::Look { lane },
            Stage::Settling { step, domain } => Action::Settle {
                lane: self.lane_of(step),
                step: Some(step),
                domain,
            },
            Stage::Yielding { lane, domain, .. } => Action::Settle {
                lane,
                step: None,
                domain,
            },
            Stage::LettingGo { lane } => Action::LetGo { lane },
            Stage::Checking { step } => Action::Check { step },
            Stage::Reading { step } => Action::Read {
                step,
                domain: self.domain_of(step),
            },
            Stage::Asking { step } => Action::Ask { step },
            Stage::Answering { step } => Action::GoOn {
                lane: self.lane_of(step),
            },
            Stage::Resting { lane } => Action::GoOn { lane },
            Stage::Leaving { lane } => Action::Leave { lane },
            Stage::Verifying { step } => Action::Read {
                step,
                domain: self.last_domain(step),
            },
            Stage::Over { how } => Action::Over { how },
        }
    }

    fn handle(&mut self, time: u64, event: &Event<'_>, wanted: bool)
        requires answers { answers self.old.stage event.now ≡ true }
        requires wanted { wanted ≡ is_wanted self.old event.now }
        ensures { Turned time self.old event.now self.new }
    {
        match event {
            Event::Begin => self.go_on(time),
            Event::Found { image } => self.find(time, image),
            Event::Begins { number } => self.begin(time, *number),
            Event::Unsent => self.hear(time, Heard::Unsent, &[]),
            Event::Value { octets } if wanted => self.hear(time, Heard::Wanted, octets),
            Event::Value { octets } => self.hear(time, Heard::Other, octets),
            Event::Refused { error } => self.hear(time, Heard::Refused { error: *error }, &[]),
            Event::Silent => self.hear(time, Heard::Silent, &[]),
            Event::Done => self.finish(time),
            Event::Checked { passes } => self.check(time, *passes),
            Event::NotWritten => self.stop(Why::NotWritten, None),
            Event::Interrupted => self.stop(Why::Interrupted, None),
        }
    }

    // ---- its parts

    pub(crate) fn step(&self, step: u16) -> Option<&Planned>
        ensures { option_copied result ≡ slice_get self.now.steps step }
    {
        self.steps.as_slice().get(usize::from(step))
    }

    pub(crate) fn clock_of(&self, step: u16) -> Option<u64>
        ensures { result ≡ clock_of self.now step }
    {
        match self.step(step) {
            Some(planned) => Some(planned.clock),
            None => None,
        }
    }

    pub(crate) fn domain_of(&self, step: u16) -> u8
        ensures { result ≡ domain_of self.now step }
    {
        match self.step(step) {
            Some(planned) => planned.domain,
            None => 0,
        }
    }

    /// The place of the clock of a step among the lanes.
    #[tactic(auto, unfolding(crate::specs::Rollout::lane_of))]
    pub(crate) fn lane_of(&self, step: u16) -> u16
        ensures { result ≡ lane_of self.now step }
    {
        let Some(clock) = self.clock_of(step) else {
            return 0;
        };
        place_in(self.lanes.as_slice(), clock)
    }

    /// Whether a step is one of this lane.
    pub(crate) fn is_of(&self, step: u16, lane: u16) -> bool
        ensures { result ≡ true ↔ (clock_of self.now step ≡ clock_in self.now lane) }
    {
        self.clock_of(step) == self.lane(lane)
    }

    pub(crate) fn lane_count(&self) -> u16
        ensures { result ≡ length self.now.lanes }
    {
        self.lanes.len() as u16
    }

    pub(crate) fn step_count(&self) -> u16
        ensures { result ≡ length self.now.steps }
    {
        self.steps.len() as u16
    }

    /// The domain of the clock of a step after all moves.
    #[tactic(auto, unfolding(crate::specs::Rollout::last_domain))]
    fn last_domain(&self, step: u16) -> u8
        ensures { result ≡ last_domain self.now step }
    {
        match self.step(step) {
            Some(planned) => planned.domain_after(self.steps.as_slice()),
            None => 0,
        }
    }
}
