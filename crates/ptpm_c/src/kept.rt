//! What a handle's block holds.

ghost use Rattle.std.specs.Prelude.{◌≡◌};

use ptpm_apply::Rollout;
use ptpm_data::DataSets;
use ptpm_host::{HostedAsker, HostedClock, HostedSession, HostedSurvey, SavingClock};
use ptpm_journal::Journal;
use std::mem::ManuallyDrop;

/// One of the things that a handle can hold, each in a block of its own.
#[derive(Drop)]
pub enum Hosted {
    /// Not yet anything.
    Nothing,
    Clock(Box<HostedClock>),
    Session(Box<HostedSession>),
    Survey(Box<HostedSurvey>),
    /// A clock that is saved while it takes datagrams.
    SavingClock(Box<SavingClock>),
    Asker(Box<HostedAsker>),
    Journal(Box<Journal>),
    Rollout(Box<Rollout>),
}

impl Hosted {
    ghost use Rattle.std.specs.Option.{option_copied};
    ghost use Rattle.ptpm_c.specs.Held.{any_clock_of, shown_of};

    /// The clock as it is, of either kind.
    pub fn clock(&self) -> Option<&HostedClock>
        ensures { option_copied result ≡ any_clock_of self.now }
    {
        match self {
            Hosted::Clock(clock) => Some(clock.as_ref()),
            Hosted::SavingClock(clock) => Some(clock.clock()),
            _ => None,
        }
    }

    /// The data sets that a clock shows.
    pub fn shown(&self) -> Option<&DataSets>
        ensures { option_copied result ≡ shown_of self.now }
    {
        match self {
            Hosted::Clock(clock) => Some(clock.sets()),
            Hosted::SavingClock(clock) => Some(clock.shown()),
            _ => None,
        }
    }
}

/// Only `into_hosted` lets it go. So nothing is to be done when its box is let go.
#[derive(Drop)]
pub struct Kept {
    hosted: ManuallyDrop<Hosted>,
}

impl Kept {
    ghost use Rattle.std.specs.Borrow.{sem};
    ghost use Rattle.ptpm_c.specs.Lending.{LendsHostedIn};

    /// Keeps this.
    pub fn of(hosted: Hosted) -> Kept
        ensures { result.hosted.value ≡ hosted }
    {
        Kept {
            hosted: ManuallyDrop::new(hosted),
        }
    }

    /// What is kept, in place.
    pub fn as_hosted(&mut self) -> &mut Hosted
        ensures* writes_back { sem 𝓛 (LendsHostedIn self.entry result) }
        ensures value { result.now ≡ self.old.hosted.value }
    {
        &mut *self.hosted
    }

    /// What is kept.
    pub fn into_hosted(self) -> Hosted
        ensures { result ≡ self.hosted.value }
    {
        ManuallyDrop::into_inner(self.hosted)
    }
}
