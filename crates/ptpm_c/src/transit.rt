//! What a clock passes on unread, for hosts in C.

ghost use Rattle.std.specs.Prelude.{◌≡◌, ◌≤◌, All, None, Some, drop, length, take};
ghost use Rattle.std.specs.List.{AllZip};
ghost use Rattle.ptpm_data.specs.Members.{DataSetsValue, HasPort};
ghost use Rattle.ptpm_host.specs.Clock.{IsWhole, KeepsBehind, messages_in};
ghost use Rattle.ptpm_host.specs.Transit.{transited};
ghost use Rattle.ptpm_c.specs.Held.{held, shown_held};

use crate::handle::Handle;
use ptpm_host::{Sent, pass_unread};

/// Writes the copies of a datagram that the clock passes on unread. They are in the first places of `sent`, and their number is the
/// answer. The places after them stay. None if the handle holds no clock, if the clock lacks the port, or if it has more ports than places.
/// Nothing changes. Takes no memory.
#[tactic(auto, using(ptpm_host::specs::OutboxLaws::kept_by_none))]
#[unsafe(no_mangle)]
pub extern "C" fn ptpm_clock_transit(
    handle: &mut Handle,
    port: u16,
    datagram: &[u8],
    sent: &mut [Sent],
) -> usize
    ensures kept { held handle.new.keeping ≡ held handle.old.keeping }
    ensures restored { handle.new.restored ≡ handle.old.restored }
    ensures copies { (d : DataSetsValue) → shown_held handle.old.keeping ≡ Some d → HasPort port d
        → length d.ports ≤ length sent.old → messages_in (take result sent.new) ≡ transited port d datagram.now }
    ensures none { (d : DataSetsValue) → shown_held handle.old.keeping ≡ Some d
        → (HasPort port d → length d.ports ≤ length sent.old → ⊥) → result ≡ 0 }
    ensures empty { shown_held handle.old.keeping ≡ None → result ≡ 0 }
    ensures count { result ≤ length sent.new }
    ensures whole { All IsWhole (take result sent.new) }
    ensures places { drop result sent.new ≡ drop result sent.old }
    ensures behind { AllZip KeepsBehind sent.old sent.new }
{
    let Some(hosted) = handle.hosted() else {
        return 0;
    };
    match hosted.shown() {
        Some(sets) => pass_unread(sets, port, datagram, sent),
        None => 0,
    }
}
