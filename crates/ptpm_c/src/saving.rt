//! The image of a session for hosts in C: the octets in which it outlasts the host.

ghost use Rattle.std.specs.Prelude.{◌≡◌, ◌≢◌, ◌≤◌, ◌<◌, ◌++◌, IsSomeAnd, None, Some, drop, length};
ghost use Rattle.ptpm_manager.specs.Image.{session_image};
ghost use Rattle.ptpm_manager.specs.ImageReading.{session_at};
ghost use Rattle.ptpm_host.specs.declared.session.HostedSession.{HostedSession};
ghost use Rattle.ptpm_host.specs.Numbers.{no_room, no_session, restore_number};
ghost use Rattle.ptpm_host.specs.Session.{IsAt};
ghost use Rattle.ptpm_host.specs.SessionSettings.{settings_refusal};
ghost use Rattle.ptpm_c.specs.Held.{held, session_held};
ghost use Rattle.ptpm_c.specs.Numbered.{IsNumberedBy};

use crate::handle::{Handle, held};
use crate::kept::Hosted;
use ptpm_host::{HostedSession, NO_MEMORY, NO_ROOM, NO_SESSION, SessionSettings, restore_number};
use std::alloc::Global;

/// Leaves the session's image at the head of `octets`: `size` octets, 53 to 1,478. Answers 0, or the number of the refusal, and
/// then nothing is written. What comes after the image stays. Takes no memory.
#[unsafe(no_mangle)]
pub extern "C" fn ptpm_session_image(
    handle: &mut Handle,
    octets: &mut [u8],
    size: &mut usize,
) -> u32
    ensures kept { held handle.new.keeping ≡ held handle.old.keeping }
    ensures image { (s : HostedSession)
        → session_held handle.old.keeping ≡ Some s
        → length (session_image s.session) ≤ length octets.old
        → (result ≡ 0)
        × ((size.new ≡ length (session_image s.session))
        × (octets.new ≡ session_image s.session ++ drop size.new octets.old)) }
    ensures room { (s : HostedSession)
        → session_held handle.old.keeping ≡ Some s
        → length octets.old < length (session_image s.session)
        → (result ≡ no_room) × ((size.new ≡ 0) × (octets.new ≡ octets.old)) }
    ensures empty { session_held handle.old.keeping ≡ None
        → (result ≡ no_session) × ((size.new ≡ 0) × (octets.new ≡ octets.old)) }
{
    *size = 0;
    held!(handle, Hosted::Session(session), NO_SESSION);
    match session.image(octets) {
        Some(count) => {
            *size = count;
            0
        }
        None => NO_ROOM,
    }
}

/// Puts the session whose image this is in a handle, in place of what it holds: 0. Manager, managed clock, its number of ports
/// and the first number must be those of the settings. Domain, hop field and attempts are those of the image. If it is refused,
/// by the number of the refusal, the handle holds what it held.
#[tactic(auto, using(crate::proofs::Numbers::memory_of_restore))]
#[unsafe(no_mangle)]
pub extern "C" fn ptpm_session_restore(
    alloc: Global,
    handle: &mut Handle,
    settings: &SessionSettings,
    image: &[u8],
) -> u32
    ensures restored { result ≡ 0 → IsSomeAnd (session_held handle.new.keeping)
        (λ s.
        IsAt s (session_at image.now) None
        × (image.now ≡ session_image s.session)) }
    ensures number { IsNumberedBy restore_number (settings_refusal settings.now image.now) result }
    ensures unchanged { result ≢ 0 → held handle.new.keeping ≡ held handle.old.keeping }
{
    let session = match HostedSession::restored(alloc, settings, image) {
        Ok(session) => session,
        Err(refusal) => return restore_number(refusal),
    };
    let Ok(session) = Box::new(alloc, session) else {
        return NO_MEMORY;
    };
    match handle.put(alloc, Hosted::Session(session)) {
        Ok(()) => 0,
        Err(_) => NO_MEMORY,
    }
}
