//! A turn that needs little room, for hosts in C.

ghost use Rattle.std.specs.Prelude.{◌≡◌, ◌≤◌, All, Some, length, take, false};
ghost use Rattle.ptpm_host.specs.declared.clock.HostedClock.{HostedClock};
ghost use Rattle.ptpm_host.specs.Answers.{IsWholeAnswer};
ghost use Rattle.ptpm_c.specs.Held.{clock_held};
ghost use Rattle.ptpm_c.specs.Sharing.{FindsNoneToShare, RefusesShared, TakesShared, nothing_shared};

use crate::handle::{Handle, held};
use crate::kept::Hosted;
use ptpm_host::{HostedClock, NO_CLOCK, SentAnswer, handle_number, verdict_number};

/// What is sent for a datagram, as C has it.
#[repr(C)]
#[derive(Clone, Copy)]
pub struct Shared {
    /// The ports at which the datagram goes on: 1 for port 1, 2 for port 2, 4 for port 3, and so on, summed up.
    pub ports: u64,
    /// How many of its octets go on.
    pub size: u64,
    /// How many answers there are.
    pub count: u64,
}

const _: () = prove!(size_of::<Shared>() == 24);

impl Shared {
    /// Nothing.
    fn nothing() -> Shared
        ensures { result ≡ nothing_shared }
    {
        Shared {
            ports: 0,
            size: 0,
            count: 0,
        }
    }
}

/// What becomes of a datagram that comes in at a port: the number of the verdict, or of the refusal. The first `size` octets of the
/// datagram are then the copy that goes on at other ports, and the first `count` places have the answers. A clock that is saved while
/// it takes datagrams is none here. Takes no memory.
#[unsafe(no_mangle)]
pub extern "C" fn ptpm_clock_handle_shared(
    handle: &mut Handle,
    port: u16,
    datagram: &mut [u8],
    answers: &mut [SentAnswer],
    shared: &mut Shared,
) -> u32
    ensures turned { (c : HostedClock)
        → clock_held handle.old.keeping ≡ Some c
        → TakesShared c port datagram.old datagram.new answers.old result shared.new answers.new
        (clock_held handle.new.keeping) }
    ensures refused { (c : HostedClock)
        → clock_held handle.old.keeping ≡ Some c
        → RefusesShared c port datagram.old datagram.new answers.old result shared.new answers.new
        (clock_held handle.new.keeping) }
    ensures count { shared.new.count ≤ length answers.new }
    ensures whole { All IsWholeAnswer (take shared.new.count answers.new) }
    ensures empty { FindsNoneToShare handle.old.keeping datagram.old datagram.new answers.old result shared.new answers.new
        handle.new.keeping }
    ensures restored { handle.new.restored ≡ false }
{
    *shared = Shared::nothing();
    handle.restored = false;
    held!(handle, Hosted::Clock(clock), NO_CLOCK);
    hand_in(clock, port, datagram, answers, shared)
}

/// What becomes of a datagram: the number of the verdict, or of the refusal, and then nothing is sent.
fn hand_in(
    clock: &mut HostedClock,
    port: u16,
    datagram: &mut [u8],
    answers: &mut [SentAnswer],
    shared: &mut Shared,
) -> u32
    ensures taken { TakesShared clock.old port datagram.old datagram.new answers.old result shared.new answers.new
        (Some clock.new) }
    ensures refused { RefusesShared clock.old port datagram.old datagram.new answers.old result shared.new answers.new
        (Some clock.new) }
    ensures count { shared.new.count ≤ length answers.new }
    ensures whole { All IsWholeAnswer (take shared.new.count answers.new) }
{
    *shared = Shared::nothing();
    match clock.handle_shared(port, datagram, answers) {
        Ok(handled) => {
            *shared = Shared {
                ports: handled.ports,
                size: handled.size as u64,
                count: handled.count as u64,
            };
            verdict_number(handled.verdict)
        }
        Err(refusal) => handle_number(refusal),
    }
}
