//! What an earlier run left of a change of several clocks, and what is seen to first.

ghost use Rattle.std.specs.Prelude.{◌≡◌};
ghost use Rattle.ptpm_apply.specs.Turning.{may_change, target_port};

use crate::action::Why;
use crate::choice::Choice;
use crate::in_file::InFile;
use crate::noted::{Begun, Noted};
use crate::rollout::Rollout;
use crate::stage::{Stage, Then};
use crate::standing::{Standing, find_standing};
use ptpm_codec::Action;
use ptpm_data::Request;
use ptpm_journal::{Mark, Note, Record};

/// The managementId of NULL_PTP_MANAGEMENT, which changes nothing.
const NULL_PTP_MANAGEMENT: u16 = 0;

/// The portNumber that means every port.
const EVERY_PORT: u16 = 0xFFFF;

impl Rollout {
    ghost use Rattle.std.specs.Prelude.{◌≡◌, ◌<◌, ◌≤◌, ◌⊎◌, ◌↔◌, ◌+◌, ℕ, [], IfSome, IfNone, IsTrue, Some, None, false, true, length, slice_get};
    ghost use Rattle.ptpm_journal.specs.declared.record.Mark.{Mark};
    ghost use Rattle.ptpm_apply.specs.Rollout.{IsBegun, clock_in, clock_of};
    ghost use Rattle.ptpm_apply.specs.Going.{BegunIn, IsIn, LatestTold, is_told};
    ghost use Rattle.ptpm_apply.specs.Turning.{FirstIn, FoundAt, GivesUp, IsDomainIn, LetGoIn, SeesTo, Yields, awaits_file, begun_of, either, is_of_step, number_at, standing_at};

    pub(crate) fn find(&mut self, time: u64, image: &[u8])
        requires { awaits_file self.old.stage ≡ true }
        ensures { FoundAt time self.old self.old.stage image.now self.new }
    {
        let Stage::Looking { lane } = self.stage else {
            unreachable!();
        };
        let begun = self.begun_in(lane);
        let let_go = self.let_go_in(lane);
        let standing = self.standing_at(begun.or(let_go), self.latest_told(lane), image);
        let changes = may_change(image);
        self.seen = lane + 1;
        match self.choice {
            Choice::GiveUp => self.give_up(time, lane, standing, begun),
            _ => self.see_to(time, lane, standing, begun, changes),
        }
    }

    /// What became of a step, by the latest step with an answer and by the image of the session's file.
    #[tactic(auto, unfolding(crate::specs::Turning::standing_at))]
    fn standing_at(&self, step: Option<u16>, told: Option<u16>, image: &[u8]) -> Standing
        ensures { result ≡ standing_at self.now step told image.now }
    {
        let noted = Noted {
            begun: self.begun_of(step),
            told: self.number_at(told),
        };
        find_standing(&noted, image)
    }

    /// The request of a step, with its number.
    fn begun_of(&self, step: Option<u16>) -> Option<Begun<'_>>
        ensures { result ≡ begun_of self.now step }
    {
        let step = step?;
        let planned = self.step(step)?;
        let number = self.number_of(step)?;
        Some(Begun {
            number,
            request: Request {
                action: Action::Set,
                id: planned.id,
                port: target_port(planned.port),
                octets: planned.after.as_slice(),
            },
        })
    }

    fn number_of(&self, step: u16) -> Option<u16>
        ensures { result ≡ slice_get self.now.numbers step }
    {
        self.numbers.as_slice().get(usize::from(step)).copied()
    }

    fn number_at(&self, step: Option<u16>) -> Option<u16>
        ensures { result ≡ number_at self.now step }
    {
        self.number_of(step?)
    }

    /// The step of a lane that is begun and has no answer.
    pub(crate) fn begun_in(&self, lane: u16) -> Option<u16>
        ensures { BegunIn self.now lane result }
    {
        for step in 0..self.step_count() {
            if self.is_of(step, lane) && self.is_begun(step) {
                return Some(step);
            }
        }
        None
    }

    fn is_begun(&self, step: u16) -> bool
        ensures { result ≡ true ↔ IsBegun self.now.journal step }
    {
        self.journal.may_take(Record::Note {
            time: 0,
            note: Note::NotBegun { step },
        })
    }

    /// The step of a lane that was given up.
    fn let_go_in(&self, lane: u16) -> Option<u16>
        ensures { LetGoIn self.now lane result }
    {
        for step in 0..self.step_count() {
            if self.is_of(step, lane) && self.has_mark(step, Mark::LetGo) {
                return Some(step);
            }
        }
        None
    }

    pub(crate) fn has_mark(&self, step: u16, mark: Mark) -> bool
        ensures { result ≡ true ↔ (slice_get self.now.journal.marks step ≡ Some mark) }
    {
        self.journal.mark_of(step) == Some(mark)
    }

    /// The latest step of a lane whose answer is noted.
    pub(crate) fn latest_told(&self, lane: u16) -> Option<u16>
        ensures { LatestTold self.now lane result }
    {
        for step in (0..self.step_count()).rev() {
            if self.is_in(step, lane, true) {
                return Some(step);
            }
        }
        None
    }

    /// The first step of a lane whose answer is noted, or is not.
    fn first_in(&self, lane: u16, is_told: bool) -> Option<u16>
        ensures { FirstIn self.now lane is_told result }
    {
        for step in 0..self.step_count() {
            if self.is_in(step, lane, is_told) {
                return Some(step);
            }
        }
        None
    }

    fn is_in(&self, step: u16, lane: u16, is_told: bool) -> bool
        ensures { result ≡ true ↔ IsIn self.now lane is_told step }
    {
        self.is_of(step, lane) && self.is_told(step) == is_told
    }

    fn is_told(&self, step: u16) -> bool
        ensures { result ≡ is_told self.now step }
    {
        matches!(
            self.journal.mark_of(step),
            Some(Mark::Done | Mark::Refused | Mark::Answered)
        )
    }

    fn see_to(
        &mut self,
        time: u64,
        lane: u16,
        standing: Standing,
        begun: Option<u16>,
        changes: bool,
    )
        requires { (step : ℕ) → begun ≡ Some step → IsBegun self.old.journal step }
        ensures { SeesTo time self.old lane standing begun changes self.new }
    {
        match standing {
            Standing::Told => self.stage = Stage::LettingGo { lane },
            Standing::OfAnother => self.yield_to(lane, changes),
            Standing::Unknown => self.fail(time, Why::Unknown, lane, begun),
            Standing::NothingLeft => self.go_on(time),
            _ => match begun {
                Some(step) => self.see_to_step(time, lane, standing, step, changes),
                None => self.go_on(time),
            },
        }
    }

    /// The same of a step that is begun, and whose request or whose number the file has.
    fn see_to_step(&mut self, time: u64, lane: u16, standing: Standing, step: u16, changes: bool)
        requires begun { IsBegun self.old.journal step }
        requires known { is_of_step standing ≡ true }
        ensures { SeesTo time self.old lane standing (Some step) changes self.new }
    {
        match standing {
            Standing::UnderWay => {
                self.stage = Stage::Settling {
                    step,
                    domain: self.domain_of(step),
                };
            }
            Standing::NeverBegun => {
                self.note(time, Note::NotBegun { step }, &[], Then::GoOn);
            }
            Standing::NumberTaken => {
                let next = Then::Yield { lane, changes };
                self.note(time, Note::NotBegun { step }, &[], next);
            }
            _ => unreachable!(),
        }
    }

    /// Nothing is sent. What is given up is noted first.
    fn give_up(&mut self, time: u64, lane: u16, standing: Standing, begun: Option<u16>)
        requires { (step : ℕ) → begun ≡ Some step → IsBegun self.old.journal step }
        ensures { GivesUp time self.old lane standing begun self.new }
    {
        let Some(step) = begun else {
            return self.give_up_left(time, lane, standing);
        };
        match standing {
            Standing::NeverBegun | Standing::NumberTaken => {
                self.note(time, Note::NotBegun { step }, &[], Then::GoOn);
            }
            Standing::UnderWay => {
                self.note(time, Note::LetGo { step }, &[], Then::LetGo { lane });
            }
            _ => self.note(time, Note::LetGo { step }, &[], Then::GoOn),
        }
    }

    /// What is under way of a step that has an answer, or is noted as given up, is let go.
    fn give_up_left(&mut self, time: u64, lane: u16, standing: Standing)
        ensures { GivesUp time self.old lane standing None self.new }
    {
        match standing {
            Standing::UnderWay | Standing::Told => self.stage = Stage::LettingGo { lane },
            _ => self.go_on(time),
        }
    }

    /// Another program's request is settled.
    pub(crate) fn yield_to(&mut self, lane: u16, changes: bool)
        ensures { Yields self.old lane changes self.new }
    {
        self.stage = Stage::Yielding {
            lane,
            domain: self.domain_in(lane),
            changes,
        };
    }

    /// The domain of the first step of a lane without an answer, or else of its first one.
    fn domain_in(&self, lane: u16) -> u8
        ensures { IsDomainIn self.now lane result }
    {
        match self.first_in(lane, false).or(self.first_in(lane, true)) {
            Some(step) => self.domain_of(step),
            None => 0,
        }
    }
}

/// The port of a request, for a step with this portNumber. Without one it goes to every port.
fn target_port(port: u16) -> u16
    ensures { result ≡ target_port port }
{
    if port == 0 { EVERY_PORT } else { port }
}

/// Whether the request under way in a session's file may change its clock.
#[tactic(auto, unfolding(crate::specs::Turning::may_change))]
fn may_change(image: &[u8]) -> bool
    ensures { result ≡ may_change image.now }
{
    let Some(file) = InFile::of_image(image) else {
        return false;
    };
    let Some(request) = file.left else {
        return false;
    };
    !matches!(request.action, Action::Get) && request.id != NULL_PTP_MANAGEMENT
}
