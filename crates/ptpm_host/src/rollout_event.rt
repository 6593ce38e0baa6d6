//! What is said to a change of several clocks, as a host in C says it.

ghost use Rattle.std.specs.Prelude.{◌≡◌};
ghost use Rattle.ptpm_host.specs.Rollout.{choice_of, event_of};

use ptpm_apply::{Choice, Event};

/// What the last action came to.
#[repr(C)]
#[derive(Clone, Copy)]
pub struct RolloutEvent {
    /// In seconds since 1970.
    pub time: u64,
    /// Its place in `ptpm_apply::Event`; whether a program lets it go on are two, 8 and 9.
    pub what: u32,
    /// The sequenceId of a step that begins.
    pub number: u16,
    /// The managementErrorId of a refusal.
    pub error: u16,
}

const _: () = prove!(size_of::<RolloutEvent>() == 16);

impl RolloutEvent {
    /// The event with these octets, if there is one of this number.
    pub fn event<'a>(&self, octets: &'a [u8]) -> Option<Event<'a>>
        ensures { result ≡ event_of self.now octets.entry }
    {
        match self.what {
            0 => Some(Event::Begin),
            1 => Some(Event::Found { image: octets }),
            2 => Some(Event::Begins {
                number: self.number,
            }),
            3 => Some(Event::Unsent),
            4 => Some(Event::Value { octets }),
            5 => Some(Event::Refused { error: self.error }),
            6 => Some(Event::Silent),
            7 => Some(Event::Done),
            8 => Some(Event::Checked { passes: true }),
            9 => Some(Event::Checked { passes: false }),
            10 => Some(Event::NotWritten),
            11 => Some(Event::Interrupted),
            _ => None,
        }
    }
}

/// What a run is to do, if there is a choice of this number.
pub fn choice_of(number: u32) -> Option<Choice>
    ensures { result ≡ choice_of number }
{
    match number {
        0 => Some(Choice::Stop),
        1 => Some(Choice::KeepGoing),
        2 => Some(Choice::GiveUp),
        3 => Some(Choice::Settle),
        _ => None,
    }
}
