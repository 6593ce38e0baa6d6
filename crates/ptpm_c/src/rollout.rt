//! The calls of a rollout for hosts in C, each one of `ptpm_apply`.

ghost use Rattle.std.specs.Prelude.{◌≡◌, ◌≢◌, ◌≤◌, ◌++◌, ◌↔◌, IsSomeAnd, None, Some, drop, false, length, true};
ghost use Rattle.ptpm_journal.specs.Journal.{goes_on};
ghost use Rattle.ptpm_journal.specs.Turns.{IsAtEnd};
ghost use Rattle.ptpm_apply.specs.declared.choice.Choice.{Choice};
ghost use Rattle.ptpm_apply.specs.declared.choice.OpenError.{OpenError};
ghost use Rattle.ptpm_apply.specs.declared.event.Event.{Event};
ghost use Rattle.ptpm_apply.specs.declared.stage.Stage.{Stage};
ghost use Rattle.ptpm_apply.specs.Lanes.{AreLanesOf};
ghost use Rattle.ptpm_apply.specs.Opening.{AreRead, HasEnd, IsChosen, IsUnreadable, MayLackMemory};
ghost use Rattle.ptpm_apply.specs.Rollout.{RolloutValue};
ghost use Rattle.ptpm_apply.specs.Turning.{Turned, action_of, answers, has_value};
ghost use Rattle.ptpm_host.specs.Numbers.{no_memory, no_room};
ghost use Rattle.ptpm_host.specs.Rollout.{choice_of, event_of, no_action, no_choice, no_rollout, open_number, out_of_turn, plain_action};
ghost use Rattle.ptpm_c.specs.declared.kept.Hosted.TheVariants.{Nothing};
ghost use Rattle.ptpm_c.specs.Held.{held};
ghost use Rattle.ptpm_c.specs.RolloutHeld.{rollout_held};

use crate::handle::{Handle, held};
use crate::kept::Hosted;
use ptpm_apply::Rollout;
use ptpm_host::rollout_numbers::{NO_CHOICE, NO_ROLLOUT, OUT_OF_TURN, open_number, turn_number};
use ptpm_host::{NO_MEMORY, NO_ROOM, RolloutAction, RolloutEvent, choice_of};
use std::alloc::Global;

/// Puts a change with this journal in a handle, in place of what it holds: 0, and how many octets of the journal are whole. If it is refused,
/// by the number of the refusal, the handle holds what it held.
#[tactic(auto, using(crate::proofs::Numbers::unreadable, crate::proofs::Numbers::of_other_version, crate::proofs::Numbers::has_end, crate::proofs::Numbers::may_lack, crate::proofs::Numbers::read_whole))]
#[unsafe(no_mangle)]
pub extern "C" fn ptpm_rollout_open(
    alloc: Global,
    handle: &mut Handle,
    journal: &[u8],
    choice: u32,
    whole: &mut usize,
) -> u32
    ensures opened { (c : Choice) → choice_of choice ≡ Some c → result ≡ 0
        → IsSomeAnd (rollout_held handle.new.keeping)
        (λ r. AreRead journal.now whole.new r.journal r.crc r.steps r.numbers × (goes_on r.journal ≡ true)
        × (r.stage ≡ Stage.Fresh) × (r.seen ≡ 0) × (r.is_changed ≡ false) × IsChosen r c) }
    ensures all { (c : Choice) → choice_of choice ≡ Some c → result ≡ 0
        → IsSomeAnd (rollout_held handle.new.keeping)
        (λ r. IsAtEnd r.journal r.crc (drop whole.new journal.now) × AreLanesOf r.steps (length r.steps) r.lanes) }
    ensures no_choice { choice_of choice ≡ None → result ≡ no_choice }
    ensures damaged { result ≡ open_number OpenError.Damaged → IsUnreadable journal.now }
    ensures version { result ≡ open_number OpenError.OtherVersion → IsUnreadable journal.now }
    ensures ended { result ≡ open_number OpenError.Ended → HasEnd journal.now }
    ensures memory { result ≡ no_memory → MayLackMemory journal.now }
    ensures unchanged { result ≢ 0 → (whole.new ≡ 0) × (held handle.new.keeping ≡ held handle.old.keeping) }
{
    *whole = 0;
    let Some(choice) = choice_of(choice) else {
        return NO_CHOICE;
    };
    let (rollout, size) = match Rollout::open(alloc, journal, choice) {
        Ok(opened) => opened,
        Err(refusal) => return open_number(refusal),
    };
    let Ok(rollout) = Box::new(alloc, rollout) else {
        return NO_MEMORY;
    };
    match handle.put(alloc, Hosted::Rollout(rollout)) {
        Ok(()) => {
            *whole = size;
            0
        }
        Err(_) => NO_MEMORY,
    }
}

/// Takes what the last action came to: 0, and `action` is what is to be done next. If it is refused, by the number of the refusal, nothing
/// changes.
#[unsafe(no_mangle)]
pub extern "C" fn ptpm_rollout_turn(
    handle: &mut Handle,
    event: &RolloutEvent,
    octets: &[u8],
    action: &mut RolloutAction,
) -> u32
    ensures turned { (r : RolloutValue) → rollout_held handle.old.keeping ≡ Some r → result ≡ 0
        → (e : Event) × (event_of event.now octets.entry ≡ Some e)
        × IsSomeAnd (rollout_held handle.new.keeping)
        (λ s. Turned event.now.time r e s × (action.new ≡ plain_action (action_of s s.stage))) }
    ensures out_of_turn { (r : RolloutValue) (e : Event) → rollout_held handle.old.keeping ≡ Some r
        → event_of event.now octets.entry ≡ Some e
        → result ≡ out_of_turn ↔ (answers r.stage e ≡ false) }
    ensures memory { (r : RolloutValue) (e : Event) → rollout_held handle.old.keeping ≡ Some r
        → event_of event.now octets.entry ≡ Some e → result ≡ no_memory → has_value r.stage e ≡ true }
    ensures no_event { (r : RolloutValue) → rollout_held handle.old.keeping ≡ Some r
        → event_of event.now octets.entry ≡ None → result ≡ out_of_turn }
    ensures unchanged { (r : RolloutValue) → rollout_held handle.old.keeping ≡ Some r → result ≢ 0
        → (action.new ≡ no_action) × (rollout_held handle.new.keeping ≡ Some r) }
    ensures empty { rollout_held handle.old.keeping ≡ None
        → (result ≡ no_rollout) × (action.new ≡ no_action) × (held handle.new.keeping ≡ held handle.old.keeping) }
{
    *action = RolloutAction::nothing();
    held!(handle, Hosted::Rollout(rollout), NO_ROLLOUT);
    let Some(said) = event.event(octets) else {
        return OUT_OF_TURN;
    };
    match rollout.turn(event.time, said) {
        Ok(due) => {
            *action = RolloutAction::of_action(due);
            0
        }
        Err(refusal) => turn_number(refusal),
    }
}

/// Leaves the record that is to be noted at the head of `octets`: 0, and how many octets it has. If there is room for fewer, or no rollout,
/// nothing is written. Takes no memory.
#[unsafe(no_mangle)]
pub extern "C" fn ptpm_rollout_record(
    handle: &mut Handle,
    octets: &mut [u8],
    size: &mut usize,
) -> u32
    ensures kept { held handle.new.keeping ≡ held handle.old.keeping }
    ensures room { (r : RolloutValue) → rollout_held handle.old.keeping ≡ Some r
        → result ≡ 0 ↔ (length r.noted ≤ length octets.old) }
    ensures record { (r : RolloutValue) → rollout_held handle.old.keeping ≡ Some r → result ≡ 0
        → (size.new ≡ length r.noted) × (octets.new ≡ r.noted ++ drop size.new octets.old) }
    ensures refused { (r : RolloutValue) → rollout_held handle.old.keeping ≡ Some r → result ≢ 0
        → (result ≡ no_room) × (size.new ≡ 0) × (octets.new ≡ octets.old) }
    ensures empty { rollout_held handle.old.keeping ≡ None
        → (result ≡ no_rollout) × (size.new ≡ 0) × (octets.new ≡ octets.old) }
{
    *size = 0;
    held!(handle, Hosted::Rollout(rollout), NO_ROLLOUT);
    let record = rollout.record();
    if octets.len() < record.len() {
        return NO_ROOM;
    }
    octets[..record.len()].copy_from_slice(record);
    *size = record.len();
    0
}

/// Ends what a handle holds, if it holds anything.
#[unsafe(no_mangle)]
pub extern "C" fn ptpm_rollout_stop(alloc: Global, handle: &mut Handle)
    ensures { held handle.new.keeping ≡ Nothing }
{
    handle.end(alloc);
}
