//! What a change of several clocks notes in its journal, and how its run ends.

ghost use Rattle.std.specs.Prelude.{◌≡◌};
ghost use Rattle.ptpm_apply.specs.Rollout.{place_of};

use crate::action::{Over, Why};
use crate::choice::Choice;
use crate::rollout::Rollout;
use crate::stage::{Stage, Then};
use ptpm_journal::{Ending, Note, Record};

/// The step of an ending that no step made.
const NO_STEP: u16 = 65_535;

impl Rollout {
    ghost use Rattle.std.specs.Prelude.{◌≡◌, ◌≤◌, ◌⊎◌, ◌&&◌, [], Some, None, false, true, length};
    ghost use Rattle.ptpm_journal.specs.Journal.{MayTake, goes_on, is_step, may_end, taken};
    ghost use Rattle.ptpm_journal.specs.Octets.{is_short, kind_of, note_kind};
    ghost use Rattle.ptpm_journal.specs.declared.record.Record.{Record};
    ghost use Rattle.ptpm_apply.specs.declared.action.Over.{Over};
    ghost use Rattle.ptpm_apply.specs.declared.stage.Stage.{Stage};
    ghost use Rattle.ptpm_apply.specs.Going.{ChangingAt, Failing, FailingAt};
    ghost use Rattle.ptpm_apply.specs.Rollout.{FitsThen, at, ended, held, noted_with, place_of};

    /// The clock of a step gave no answer.
    pub(crate) fn fail_at(&mut self, time: u64, step: u16)
        ensures { FailingAt time self.old step self.new }
    {
        self.fail(time, Why::Silent, self.lane_of(step), Some(step));
    }

    /// The run ends, or this clock is held.
    pub(crate) fn fail(&mut self, time: u64, why: Why, lane: u16, step: Option<u16>)
        ensures { Failing time self.old why lane step self.new }
    {
        match self.choice {
            Choice::KeepGoing => {
                self.hold(lane);
                self.go_on(time);
            }
            _ => self.stop(why, step),
        }
    }

    /// The member of a step has another value before it: the change ends, or the clock is held.
    pub(crate) fn change_at(&mut self, time: u64, step: u16)
        ensures { ChangingAt time self.old step self.new }
    {
        match self.choice {
            Choice::KeepGoing => {
                self.hold(self.lane_of(step));
                self.go_on(time);
            }
            _ => self.end(time, Ending::Changed, Some(step)),
        }
    }

    /// No further step is begun at this clock.
    pub(crate) fn hold(&mut self, lane: u16)
        ensures { self.new ≡ held self.old lane }
    {
        let place = usize::from(lane);
        if place < self.lanes.len() {
            let mut lane = self.lanes[place];
            lane.is_held = true;
            self.lanes[place] = lane;
        }
    }

    /// Ends it, if the journal may have this end. Else it stays open, since an answer is missing.
    pub(crate) fn end(&mut self, time: u64, ending: Ending, step: Option<u16>)
        ensures { self.new ≡ ended time self.old ending step }
    {
        let entry = Record::End {
            time,
            ending,
            step: place_of(step),
        };
        if self.journal.may_take(entry) {
            self.add(entry, &[], Then::End { ending, step });
        } else {
            self.stop(Why::Silent, step);
        }
    }

    /// The journal stays open.
    pub(crate) fn stop(&mut self, why: Why, step: Option<u16>)
        ensures { self.new ≡ at self.old (Stage.Over (Over.Open why step)) }
    {
        self.stage = Stage::Over {
            how: Over::Open { why, step },
        };
    }

    pub(crate) fn note(&mut self, time: u64, note: Note, octets: &[u8], next: Then)
        requires may { MayTake self.old.journal (Record.Note time note) }
        requires short { length octets.now ≤ 258 }
        requires group { (note_kind note ≡ 6) ⊎ (octets.now ≡ []) }
        requires fits { FitsThen (taken self.old.journal (Record.Note time note)) next }
        ensures { self.new ≡ noted_with self.old (Record.Note time note) octets.now next }
    {
        self.add(Record::Note { time, note }, octets, next);
    }

    /// Takes a record that a run may make now.
    #[tactic(auto, unfolding(crate::specs::Rollout::record_octets, crate::specs::Rollout::record_crc))]
    fn add(&mut self, entry: Record, octets: &[u8], next: Then)
        requires may { MayTake self.old.journal entry }
        requires no_step { is_step entry ≡ false }
        requires short { is_short (kind_of entry) (length octets.now) 0 ≡ true }
        requires fits { FitsThen (taken self.old.journal entry) next }
        ensures { self.new ≡ noted_with self.old entry octets.now next }
    {
        if let Ok(size) = self
            .journal
            .add(entry, octets, &[], self.room.as_mut_slice())
        {
            self.size = size;
        }
        self.stage = Stage::Noting { next };
    }
}

/// A step as an ending has it.
fn place_of(step: Option<u16>) -> u16
    ensures { result ≡ place_of step }
{
    match step {
        Some(step) => step,
        None => NO_STEP,
    }
}
