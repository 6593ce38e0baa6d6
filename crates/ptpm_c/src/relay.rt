//! The table of a device's own ids, for hosts in C.

ghost use Rattle.std.specs.Prelude.{◌≡◌, None, Some};
ghost use Rattle.ptpm_host.specs.declared.clock.HostedClock.{HostedClock};
ghost use Rattle.ptpm_host.specs.Numbers.{no_clock};
ghost use Rattle.ptpm_c.specs.Held.{clock_held, held};
ghost use Rattle.ptpm_c.specs.Relaying.{RefusesIds, RelaysIds};

use crate::handle::{Handle, held};
use crate::kept::Hosted;
use ptpm_host::{HostedClock, NO_CLOCK, RelayedSettings, relay_number};
use std::alloc::Global;

/// Gives a clock that sends at once these ids of its device, in place of those that it has: 0. Otherwise it answers the number of the
/// refusal, and nothing changes. A clock that is saved while it takes datagrams is none here.
#[unsafe(no_mangle)]
pub extern "C" fn ptpm_clock_relay(
    alloc: Global,
    handle: &mut Handle,
    ids: &[RelayedSettings],
) -> u32
    ensures relayed { (c : HostedClock)
        → clock_held handle.old.keeping ≡ Some c
        → RelaysIds c ids.now result (clock_held handle.new.keeping) }
    ensures refused { (c : HostedClock)
        → clock_held handle.old.keeping ≡ Some c
        → RefusesIds c ids.now result (clock_held handle.new.keeping) }
    ensures empty { clock_held handle.old.keeping ≡ None
        → (result ≡ no_clock) × (held handle.new.keeping ≡ held handle.old.keeping) }
    ensures restored { handle.new.restored ≡ handle.old.restored }
{
    held!(handle, Hosted::Clock(clock), NO_CLOCK);
    relay(alloc, clock, ids)
}

/// 0, or the number of the refusal.
fn relay(alloc: Global, clock: &mut HostedClock, ids: &[RelayedSettings]) -> u32
    ensures relayed { RelaysIds clock.old ids.now result (Some clock.new) }
    ensures refused { RefusesIds clock.old ids.now result (Some clock.new) }
{
    match clock.relay(alloc, ids) {
        Ok(()) => 0,
        Err(refusal) => relay_number(refusal),
    }
}
