//! The image of a clock for hosts in C: the octets in which it outlasts the host.

ghost use Rattle.std.specs.Prelude.{◌≡◌, ◌≢◌, ◌≤◌, ◌<◌, ◌++◌, IsSomeAnd, None, Option, Some, drop, length, true};
ghost use Rattle.ptpm_saved.specs.Image.{SavedClock};
ghost use Rattle.ptpm_saved.specs.SavingClock.{Datagram};
ghost use Rattle.ptpm_host.specs.declared.clock.HostedClock.{HostedClock};
ghost use Rattle.ptpm_host.specs.declared.refusal.ClockRestoreRefusal.{ClockRestoreRefusal};
ghost use Rattle.ptpm_host.specs.Numbers.{clock_restore_number, no_clock, no_memory, no_room};
ghost use Rattle.ptpm_host.specs.Restoring.{CanRestoreWith, IsBackWith, IsRefusedBy};
ghost use Rattle.ptpm_host.specs.UnderWay.{has_under_way};
ghost use Rattle.ptpm_c.specs.Batching.{image_of};
ghost use Rattle.ptpm_c.specs.Held.{any_clock_held, clock_held, held};

use crate::handle::Handle;
use crate::kept::Hosted;
use ptpm_host::{HostedClock, ManagerSettings, NO_CLOCK, NO_MEMORY, NO_ROOM, clock_restore_number};
use std::alloc::Global;

/// Leaves the clock's image at the head of `octets`: `size` octets, 104 to 216,289. Answers 0, or the number of the refusal, and
/// then nothing is written. What comes after the image stays. Takes no memory.
#[unsafe(no_mangle)]
pub extern "C" fn ptpm_clock_image(handle: &mut Handle, octets: &mut [u8], size: &mut usize) -> u32
    ensures kept { held handle.new.keeping ≡ held handle.old.keeping }
    ensures restored { handle.new.restored ≡ handle.old.restored }
    ensures image { (c : HostedClock)
        → any_clock_held handle.old.keeping ≡ Some c
        → length (image_of c) ≤ length octets.old
        → (result ≡ 0)
        × ((size.new ≡ length (image_of c))
        × (octets.new ≡ image_of c ++ drop size.new octets.old)) }
    ensures room { (c : HostedClock)
        → any_clock_held handle.old.keeping ≡ Some c
        → length octets.old < length (image_of c)
        → (result ≡ no_room) × ((size.new ≡ 0) × (octets.new ≡ octets.old)) }
    ensures empty { any_clock_held handle.old.keeping ≡ None
        → (result ≡ no_clock) × ((size.new ≡ 0) × (octets.new ≡ octets.old)) }
{
    *size = 0;
    let Some(hosted) = handle.hosted() else {
        return NO_CLOCK;
    };
    let Some(clock) = hosted.clock() else {
        return NO_CLOCK;
    };
    match clock.image(octets) {
        Some(count) => {
            *size = count;
            0
        }
        None => NO_ROOM,
    }
}

/// Puts the clock whose image this is in a handle, in place of what it holds: 0. It has this identity, this many ports, and
/// these managers with these rights. All else is as it was saved, with what is under way. `gone` gets how many entries were let go, since their managers
/// are not among these. If it is refused, by the number of the refusal, the handle holds what it held, and `gone` is 0.
#[unsafe(no_mangle)]
pub extern "C" fn ptpm_clock_restore(
    alloc: Global,
    handle: &mut Handle,
    identity: &[u8; 8],
    ports: usize,
    managers: &[ManagerSettings],
    image: &[u8],
    gone: &mut usize,
) -> u32
    ensures restored { result ≡ 0 → IsSomeAnd (clock_held handle.new.keeping)
        (λ d. (c : SavedClock) × (under_way : Option Datagram)
        × CanRestoreWith (record { 0 = identity.now }) ports managers.now image.now c under_way
        × IsBackWith c under_way managers.now d gone.new) }
    ensures found { (c : SavedClock) (under_way : Option Datagram)
        → CanRestoreWith (record { 0 = identity.now }) ports managers.now image.now c under_way
        → result ≢ no_memory
        → (result ≡ 0)
        × IsSomeAnd (clock_held handle.new.keeping)
        (λ d. IsBackWith c under_way managers.now d gone.new) }
    ensures refused { result ≢ 0 → (e : ClockRestoreRefusal)
        × IsRefusedBy (has_under_way image.now) (record { 0 = identity.now }) ports managers.now
        image.now e
        × (result ≡ clock_restore_number e) }
    ensures fresh { result ≡ 0 → handle.new.restored ≡ true }
    ensures unchanged { result ≢ 0
        → (gone.new ≡ 0)
        × (held handle.new.keeping ≡ held handle.old.keeping)
        × (handle.new.restored ≡ handle.old.restored) }
{
    *gone = 0;
    let (clock, lost) = match HostedClock::restored_boxed(alloc, identity, ports, managers, image) {
        Ok(restored) => restored,
        Err(refusal) => return clock_restore_number(refusal),
    };
    if handle.put(alloc, Hosted::Clock(clock)).is_err() {
        return NO_MEMORY;
    }
    handle.restored = true;
    *gone = lost as usize;
    0
}
