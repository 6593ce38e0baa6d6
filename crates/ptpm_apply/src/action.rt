//! What a change of several clocks has its host do next.

use ptpm_journal::Ending;

/// What is to be done next. Steps and lanes are named by their places, from 0 on. A lane is a clock.
#[derive(Clone, Copy)]
pub enum Action {
    /// What the file of the session with this clock has is handed in.
    Look {
        lane: u16,
    },
    /// What an earlier run left under way is sent again in this domain. Without a step it is another program's.
    Settle {
        lane: u16,
        step: Option<u16>,
        domain: u8,
    },
    /// What is under way is given up, and the session is saved without it.
    LetGo {
        lane: u16,
    },
    /// The member of the step is read in this domain, by nobody.
    Read {
        step: u16,
        domain: u8,
    },
    /// The program that says whether to go on at another clock is asked. Without one it goes on.
    Check {
        step: u16,
    },
    /// The step is asked.
    Ask {
        step: u16,
    },
    /// The record is appended to the journal, and synchronized.
    Note,
    /// The asker hears that its note is made, and is driven further.
    GoOn {
        lane: u16,
    },
    /// No step of it is to come: its mark goes.
    Leave {
        lane: u16,
    },
    Over {
        how: Over,
    },
}

/// How a run ends.
#[derive(Clone, Copy)]
pub enum Over {
    /// The journal has its end, at a step if one made it.
    Ended { ending: Ending, step: Option<u16> },
    /// The journal stays open, at a step if one made that.
    Open { why: Why, step: Option<u16> },
    /// What an earlier run left is settled, and nothing else was wanted.
    Settled,
}

/// Why a journal stays open.
#[derive(Clone, Copy)]
pub enum Why {
    /// A clock gave no answer.
    Silent,
    /// Nobody knows whether the step was carried out: another program used the session since, or its file is gone.
    Unknown,
    /// A file could not be written.
    NotWritten,
    Interrupted,
}
