//! A change at the device itself, for hosts in C.

ghost use Rattle.std.specs.Prelude.{◌≡◌, MatchResult, None, Some, false};
ghost use Rattle.ptpm_data.specs.Changed.{no_members};
ghost use Rattle.ptpm_host.specs.declared.clock.HostedClock.{HostedClock};
ghost use Rattle.ptpm_host.specs.declared.saving_clock.SavingClock.{SavingClock};
ghost use Rattle.ptpm_host.specs.Changing.{change_refusal, request_here};
ghost use Rattle.ptpm_host.specs.Numbers.{change_number, no_clock};
ghost use Rattle.ptpm_c.specs.Changing.{ChangesHere, ChangesUnsaved, RefusesHere, error_in};
ghost use Rattle.ptpm_c.specs.Held.{any_clock_held, clock_held, held, saving_clock_held};

use crate::handle::Handle;
use crate::kept::Hosted;
use ptpm_data::ChangedMembers;
use ptpm_host::{ChangeRefusal, NO_CLOCK, change_number};

/// Carries out a SET or a COMMAND of the device's owner, as one of a manager with every right: 0. `members` gets those that have
/// another value then. What is kept of each manager stays. A clock that is saved meanwhile is unsaved after it.
/// Otherwise it answers the number of the refusal, and nothing changes. `error` gets the error with which that manager would
/// be refused, if that is the reason. Takes no memory.
#[unsafe(no_mangle)]
pub extern "C" fn ptpm_clock_set(
    handle: &mut Handle,
    action: u8,
    id: u16,
    port: u16,
    octets: &[u8],
    members: &mut ChangedMembers,
    error: &mut u16,
) -> u32
    ensures changed { (c : HostedClock)
        → clock_held handle.old.keeping ≡ Some c
        → ChangesHere c (request_here action id port octets.now) result error.new members.new
        (clock_held handle.new.keeping) }
    ensures refused { (c : HostedClock)
        → clock_held handle.old.keeping ≡ Some c
        → RefusesHere (change_refusal (request_here action id port octets.now) c) result
        error.new members.new c (clock_held handle.new.keeping) }
    ensures saving { (w : SavingClock)
        → saving_clock_held handle.old.keeping ≡ Some w
        → ChangesUnsaved w (request_here action id port octets.now) result error.new members.new
        (saving_clock_held handle.new.keeping) }
    ensures saving_refused { (w : SavingClock)
        → saving_clock_held handle.old.keeping ≡ Some w
        → RefusesHere
        (change_refusal (request_here action id port octets.now) w.clock.value) result
        error.new members.new w (saving_clock_held handle.new.keeping) }
    ensures empty { any_clock_held handle.old.keeping ≡ None
        → (result ≡ no_clock)
        × ((error.new ≡ 0)
        × ((members.new ≡ no_members) × (held handle.new.keeping ≡ held handle.old.keeping))) }
    ensures restored { handle.new.restored ≡ false }
{
    *members = ChangedMembers::NONE;
    *error = 0;
    handle.restored = false;
    let Some(hosted) = handle.hosted() else {
        return NO_CLOCK;
    };
    match hosted {
        Hosted::Clock(clock) => tell(clock.change_here(action, id, port, octets), members, error),
        Hosted::SavingClock(clock) => {
            tell(clock.change_here(action, id, port, octets), members, error)
        }
        _ => NO_CLOCK,
    }
}

/// The number of what became of a change. `members` gets those that were changed, or `error` the error of a refusal; what does not
/// apply is none.
fn tell(
    outcome: Result<ChangedMembers, ChangeRefusal>,
    members: &mut ChangedMembers,
    error: &mut u16,
) -> u32
    ensures { MatchResult outcome
        (λ changed. (result ≡ 0) × ((error.new ≡ 0) × (members.new ≡ changed)))
        (λ e. (result ≡ change_number e) × ((error.new ≡ error_in e) × (members.new ≡ no_members))) }
{
    *members = ChangedMembers::NONE;
    *error = 0;
    match outcome {
        Ok(changed) => {
            *members = changed;
            0
        }
        Err(refusal) => {
            *error = error_in(refusal);
            change_number(refusal)
        }
    }
}

/// The error with which a manager would be refused; 0 if it is refused for another reason.
fn error_in(refusal: ChangeRefusal) -> u16
    ensures { result ≡ error_in refusal }
{
    match refusal {
        ChangeRefusal::Refused(error) => error.number(),
        _ => 0,
    }
}
