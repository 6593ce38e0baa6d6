//! What a journal has.

/// A SET of a member of a clock, as far as the order of steps is concerned.
#[derive(Clone, Copy)]
pub struct Step {
    /// The clockIdentity, as a number.
    pub clock: u64,
    pub domain: u8,
    /// One of the six groups of a plan.
    pub group: u8,
}

/// What is known of a step.
#[derive(Clone, Copy, PartialEq, Eq)]
pub enum Mark {
    /// No message of it left.
    Untouched,
    /// It is begun, and has no answer.
    Begun,
    /// The clock has what was asked.
    Done,
    Refused,
    /// The clock answered by another value.
    Answered,
    /// It is given up, and may have been carried out.
    LetGo,
}

/// What the answer to a step says.
#[derive(Clone, Copy)]
pub enum Outcome {
    Done,
    Refused,
    Answered,
}

/// What became of a step.
#[derive(Clone, Copy)]
pub enum Note {
    /// A message of it may leave from now on, under this sequenceId.
    Begun {
        step: u16,
        number: u16,
    },
    /// None left after all.
    NotBegun {
        step: u16,
    },
    /// No run sends it again.
    LetGo {
        step: u16,
    },
    /// It is answered; a refusal has this managementErrorId.
    Told {
        step: u16,
        outcome: Outcome,
        error: u16,
    },
}

/// How a change goes on: its flags, and at how many clocks at a time.
#[derive(Clone, Copy)]
pub struct Policy {
    pub flags: u8,
    pub together: u8,
}

/// How a change ended.
#[derive(Clone, Copy)]
pub enum Ending {
    Complete,
    Refused,
    Answered,
    Changed,
    GivenUp,
    RolledBack,
    Stopped,
    InPart,
}

/// What a journal begins with.
#[derive(Clone, Copy)]
pub struct Head {
    pub policy: Policy,
    /// The clockIdentity of the manager, as a number.
    pub manager: u64,
    /// The portNumber of the manager.
    pub port: u16,
    /// How many steps there are.
    pub count: u16,
}

/// A record, without its octets of variable number. Times are in seconds.
#[derive(Clone, Copy)]
pub enum Record {
    Head {
        head: Head,
    },
    Step {
        step: Step,
        port: u16,
        id: u16,
    },
    Note {
        time: u64,
        note: Note,
    },
    /// The change goes on otherwise.
    Policy {
        time: u64,
        policy: Policy,
    },
    /// At this step; 65,535 is none.
    End {
        time: u64,
        ending: Ending,
        step: u16,
    },
    /// A text of the host.
    Text {
        what: u8,
    },
}
