//! What a change of several clocks hands out, as a host in C takes it over.

ghost use Rattle.std.specs.Prelude.{◌≡◌};
ghost use Rattle.ptpm_journal.specs.Octets.{ending_code};
ghost use Rattle.ptpm_host.specs.Rollout.{kind_alone, no_action, over_action, plain_action, step_number, why_number};

use crate::journal_numbers::NO_STEP;
use ptpm_apply::{Action, Over, Why};
use ptpm_journal::Ending;

/// What is to be done next. What its kind lacks is 0, and `NO_STEP`.
#[repr(C)]
#[derive(Clone, Copy)]
pub struct RolloutAction {
    /// Its place in `ptpm_apply::Action`, from 1 on.
    pub what: u32,
    pub lane: u16,
    pub step: u16,
    pub domain: u8,
    /// How the change ended, or 0.
    pub ending: u8,
    /// Why it stays open, or 0.
    pub why: u8,
    pub zero: u8,
}

const _: () = prove!(size_of::<RolloutAction>() == 12);

impl RolloutAction {
    /// Nothing.
    pub fn nothing() -> RolloutAction
        ensures { result ≡ no_action }
    {
        let mut plain = RolloutAction::of(0);
        plain.step = 0;
        plain
    }

    /// Of this kind alone, at no step.
    fn of(what: u32) -> RolloutAction
        ensures { result ≡ kind_alone what }
    {
        RolloutAction {
            what,
            lane: 0,
            step: NO_STEP,
            domain: 0,
            ending: 0,
            why: 0,
            zero: 0,
        }
    }

    fn at_lane(what: u32, lane: u16) -> RolloutAction
        ensures { result ≡ record (kind_alone what) { lane = lane } }
    {
        let mut plain = RolloutAction::of(what);
        plain.lane = lane;
        plain
    }

    fn at_step(what: u32, step: u16, domain: u8) -> RolloutAction
        ensures { result ≡ record (kind_alone what) { step = step; domain = domain } }
    {
        let mut plain = RolloutAction::of(what);
        plain.step = step;
        plain.domain = domain;
        plain
    }

    /// In plain numbers.
    pub fn of_action(action: Action) -> RolloutAction
        ensures { result ≡ plain_action action }
    {
        match action {
            Action::Look { lane } => RolloutAction::at_lane(1, lane),
            Action::Settle { lane, step, domain } => {
                let mut plain = RolloutAction::at_step(2, step_number(step), domain);
                plain.lane = lane;
                plain
            }
            Action::LetGo { lane } => RolloutAction::at_lane(3, lane),
            Action::Read { step, domain } => RolloutAction::at_step(4, step, domain),
            Action::Check { step } => RolloutAction::at_step(5, step, 0),
            Action::Ask { step } => RolloutAction::at_step(6, step, 0),
            Action::Note => RolloutAction::of(7),
            Action::GoOn { lane } => RolloutAction::at_lane(8, lane),
            Action::Leave { lane } => RolloutAction::at_lane(9, lane),
            Action::Over { how } => RolloutAction::of_over(how),
        }
    }

    fn of_over(how: Over) -> RolloutAction
        ensures { result ≡ over_action how }
    {
        let mut plain = RolloutAction::of(10);
        match how {
            Over::Ended { ending, step } => {
                plain.ending = ending_number(ending);
                plain.step = step_number(step);
            }
            Over::Open { why, step } => {
                plain.why = why_number(why);
                plain.step = step_number(step);
            }
            Over::Settled => plain.why = 5,
        }
        plain
    }
}

fn step_number(step: Option<u16>) -> u16
    ensures { result ≡ step_number step }
{
    match step {
        None => NO_STEP,
        Some(step) => step,
    }
}

/// As a record of the journal has it.
fn ending_number(ending: Ending) -> u8
    ensures { result ≡ ending_code ending }
{
    match ending {
        Ending::Complete => 1,
        Ending::Refused => 2,
        Ending::Answered => 3,
        Ending::Changed => 4,
        Ending::GivenUp => 5,
        Ending::RolledBack => 6,
        Ending::Stopped => 7,
        Ending::InPart => 8,
    }
}

fn why_number(why: Why) -> u8
    ensures { result ≡ why_number why }
{
    match why {
        Why::Silent => 1,
        Why::Unknown => 2,
        Why::NotWritten => 3,
        Why::Interrupted => 4,
    }
}
