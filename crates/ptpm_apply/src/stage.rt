//! What a run of a change does, or what it waits for.

use crate::action::Over;
use crate::event::Event;
use ptpm_journal::Ending;

/// What it waits for.
#[derive(Clone, Copy)]
pub enum Stage {
    /// Its begin.
    Fresh,
    /// What the file of a session has.
    Looking {
        lane: u16,
    },
    /// The answer to a step that an earlier run, or another domain, left under way.
    Settling {
        step: u16,
        domain: u8,
    },
    /// The answer to another program's request, which may change the clock.
    Yielding {
        lane: u16,
        domain: u8,
        changes: bool,
    },
    /// That a request is let go.
    LettingGo {
        lane: u16,
    },
    /// That a record is on the disk.
    Noting {
        next: Then,
    },
    /// Whether it may go on at another clock.
    Checking {
        step: u16,
    },
    /// The value before a step.
    Reading {
        step: u16,
    },
    /// That a step is begun.
    Asking {
        step: u16,
    },
    /// The answer to a step that was begun in this run.
    Answering {
        step: u16,
    },
    /// That an asker rests.
    Resting {
        lane: u16,
    },
    /// That a mark is gone.
    Leaving {
        lane: u16,
    },
    /// The value of a step's member after all steps.
    Verifying {
        step: u16,
    },
    /// Nothing: the run is over.
    Over {
        how: Over,
    },
}

/// What comes once a record is on the disk.
#[derive(Clone, Copy)]
pub enum Then {
    /// The request of the step is sent.
    Send { step: u16 },
    /// The asker of the step lets its answer go.
    Rest { step: u16 },
    /// The clock of the step was not reached.
    Fail { step: u16 },
    /// What comes next.
    GoOn,
    /// Another program's request is settled.
    Yield { lane: u16, changes: bool },
    /// What is under way is let go.
    LetGo { lane: u16 },
    /// The run is over.
    End { ending: Ending, step: Option<u16> },
}

impl Stage {
    ghost use Rattle.std.specs.Prelude.{◌≡◌};
    ghost use Rattle.ptpm_apply.specs.Turning.{answers, awaits_answer, awaits_done, awaits_value};

    /// Whether an event answers what is waited for.
    pub fn is_answered_by(self, event: &Event<'_>) -> bool
        ensures { result ≡ answers self event.now }
    {
        match event {
            Event::Begin => matches!(self, Stage::Fresh),
            Event::Found { .. } => matches!(self, Stage::Looking { .. }),
            Event::Begins { .. } => matches!(self, Stage::Asking { .. }),
            Event::Checked { .. } => matches!(self, Stage::Checking { .. }),
            Event::Unsent => self.is_asked() || matches!(self, Stage::Asking { .. }),
            Event::Silent => self.is_asked()
                || self.is_read()
                || matches!(self, Stage::Asking { .. }),
            Event::Value { .. } | Event::Refused { .. } => self.is_asked() || self.is_read(),
            Event::Done => self.is_to_be_done(),
            Event::NotWritten | Event::Interrupted => {
                !matches!(self, Stage::Fresh | Stage::Over { .. })
            }
        }
    }

    /// Whether the answer to a request is waited for.
    fn is_asked(self) -> bool
        ensures { result ≡ awaits_answer self }
    {
        matches!(
            self,
            Stage::Settling { .. } | Stage::Yielding { .. } | Stage::Answering { .. }
        )
    }

    fn is_read(self) -> bool
        ensures { result ≡ awaits_value self }
    {
        matches!(self, Stage::Reading { .. } | Stage::Verifying { .. })
    }

    fn is_to_be_done(self) -> bool
        ensures { result ≡ awaits_done self }
    {
        matches!(
            self,
            Stage::LettingGo { .. }
                | Stage::Noting { .. }
                | Stage::Resting { .. }
                | Stage::Leaving { .. }
        )
    }
}
