//! A clock, a manager's session, asker or survey, and a change of several clocks, for hosts in C: a static library. `hosts/ptpm.h` is its
//! header.
#![tactic(auto)]

ghost use Rattle.std.specs.Prelude.{◌≡◌, ◌≢◌, ◌≤◌, IfNone, IfSome, IsSomeAnd, MatchResult, None, Ok, Some, drop, length, take, false};
ghost use Rattle.ptpm_data.specs.DataField.{data_field_of_id};
ghost use Rattle.ptpm_data.specs.Members.{DataSetsValue};
ghost use Rattle.ptpm_data.specs.Start.{default_clock, default_port};
ghost use Rattle.ptpm_data.specs.declared.observation.ObservationError.{ObservationError};
ghost use Rattle.ptpm_host.specs.declared.clock.HostedClock.{HostedClock};
ghost use Rattle.ptpm_host.specs.declared.refusal.ReadRefusal.{ReadRefusal};
ghost use Rattle.ptpm_host.specs.declared.refusal.StartRefusal.{StartRefusal};
ghost use Rattle.ptpm_host.specs.declared.saving_clock.SavingClock.{SavingClock};
ghost use Rattle.ptpm_host.specs.Clock.{IsFreshClock, start_by, start_refusal, state_in};
ghost use Rattle.ptpm_host.specs.MostSent.{most_sent};
ghost use Rattle.ptpm_host.specs.Numbers.{no_clock, no_memory, observe_number, read_number, start_number, verdict_number};
ghost use Rattle.ptpm_host.specs.Observing.{IsObserved, left_number, observe_refusal, ports_left};
ghost use Rattle.ptpm_host.specs.DataSetReading.{read_refusal};
ghost use Rattle.ptpm_host.specs.Settings.{clock_start, default_identity, port_start};
ghost use Rattle.ptpm_c.specs.declared.kept.Hosted.TheVariants.{Nothing};
ghost use Rattle.ptpm_c.specs.Held.{any_clock_held, clock_held, held, saving_clock_held, shown_held};
ghost use Rattle.ptpm_c.specs.Turned.{AreWritten, FindsNoClock, RefusesTurn, TakesTurn};
ghost use Rattle.ptpm_c.specs.Batching.{NotesCall, ObservesCall};

mod agreement;
mod asker;
mod batching;
mod changing;
mod device;
mod fields;
mod handle;
mod journal;
mod keeping;
mod kept;
mod limits;
mod names;
mod network;
mod relay;
mod rollout;
mod saving;
mod saving_clock;
mod sealing;
mod session;
mod sharing;
mod survey;
mod transit;

use crate::handle::{Handle, held};
use crate::kept::Hosted;
use ptpm_data::{ObservationError, PortsLeftDisabled};
use ptpm_host::{
    ClockSettings, HostedClock, ManagerSettings, NO_CLOCK, NO_MEMORY, ObservedClock, ObservedPort,
    PortSettings, Sent, handle_number, left_number, observe_number, read, read_number,
    start_number, verdict_number,
};
use std::alloc::Global;

/// Writes over settings: a clock of identity 0 in domain 0 with this profile's defaults.
#[unsafe(no_mangle)]
pub extern "C" fn ptpm_clock_defaults(settings: &mut ClockSettings)
    ensures { clock_start settings.new ≡ default_clock default_identity 0 }
{
    *settings = ClockSettings::new();
}

/// Writes over the settings of a port: MASTER, with this profile's defaults.
#[unsafe(no_mangle)]
pub extern "C" fn ptpm_port_defaults(settings: &mut PortSettings)
    ensures { port_start settings.new ≡ default_port }
{
    *settings = PortSettings::new();
}

/// Starts a clock in a handle, in place of the one that it holds: 0. If it is refused, answers the number of the refusal, and
/// the handle holds none. Want of memory can come in place of any other refusal.
#[tactic(auto, using(crate::proofs::Numbers::number_of_start_refusal, crate::proofs::Numbers::memory_of_start_refusal))]
#[unsafe(no_mangle)]
pub extern "C" fn ptpm_clock_start(
    alloc: Global,
    handle: &mut Handle,
    settings: &ClockSettings,
    ports: &[PortSettings],
    managers: &[ManagerSettings],
) -> u32
    ensures started { IfSome (clock_held handle.new.keeping)
        (λ c. (result ≡ 0) × (start_by settings.now ports.now ≡ Ok c.agent.sets)) }
    ensures fresh { IfSome (clock_held handle.new.keeping)
        (λ c. IsFreshClock settings.now managers.now c) }
    ensures refused { IfNone (clock_held handle.new.keeping)
        ((1 ≤ result) × (held handle.new.keeping ≡ Nothing)) }
    ensures number { (e : StartRefusal)
        → start_refusal settings.now ports.now managers.now ≡ Some e
        → result ≢ no_memory
        → result ≡ start_number e }
    ensures memory { start_refusal settings.now ports.now managers.now ≡ None
        → result ≢ 0
        → result ≡ no_memory }
    ensures restored { handle.new.restored ≡ false }
{
    handle.end(alloc);
    let clock = match HostedClock::start_boxed(alloc, settings, ports, managers) {
        Ok(clock) => clock,
        Err(refusal) => return start_number(refusal),
    };
    match handle.put(alloc, Hosted::Clock(clock)) {
        Ok(()) => 0,
        Err(_) => NO_MEMORY,
    }
}

/// What becomes of a datagram that comes in at a port: the number of the verdict, or of the refusal. The first `count` places
/// of `sent` get what the clock sends. The places after them stay as they are, and so does what follows each message. A clock
/// that is saved while it takes datagrams is none here. Takes no memory.
#[tactic(auto, using(ptpm_host::specs::OutboxLaws::kept_by_none))]
#[unsafe(no_mangle)]
pub extern "C" fn ptpm_clock_handle(
    handle: &mut Handle,
    port: u16,
    datagram: &[u8],
    sent: &mut [Sent],
    count: &mut usize,
) -> u32
    ensures turned { (c : HostedClock)
        → clock_held handle.old.keeping ≡ Some c
        → TakesTurn c port datagram.now sent.old result count.new sent.new
        (clock_held handle.new.keeping) }
    ensures refused { (c : HostedClock)
        → clock_held handle.old.keeping ≡ Some c
        → RefusesTurn c port sent.old result count.new sent.new (clock_held handle.new.keeping) }
    ensures places { AreWritten sent.old count.new sent.new }
    ensures empty { FindsNoClock handle.old.keeping sent.old result count.new sent.new
        handle.new.keeping }
    ensures restored { handle.new.restored ≡ false }
{
    *count = 0;
    handle.restored = false;
    held!(handle, Hosted::Clock(clock), NO_CLOCK);
    hand_in(clock, port, datagram, sent, count)
}

/// What becomes of a datagram: the number of the verdict, or of the refusal, and then nothing is sent.
#[tactic(auto, using(ptpm_host::specs::OutboxLaws::kept_by_none))]
fn hand_in(
    clock: &mut HostedClock,
    port: u16,
    datagram: &[u8],
    sent: &mut [Sent],
    count: &mut usize,
) -> u32
    ensures taken { TakesTurn clock.old port datagram.now sent.old result count.new sent.new
        (Some clock.new) }
    ensures refused { RefusesTurn clock.old port sent.old result count.new sent.new
        (Some clock.new) }
    ensures written { AreWritten sent.old count.new sent.new }
{
    *count = 0;
    match clock.handle(port, datagram, sent) {
        Ok(handled) => {
            *count = handled.count;
            verdict_number(handled.verdict)
        }
        Err(refusal) => handle_number(refusal),
    }
}

/// Sets what the host observes of its clock, and of the clock's ports from 1 on, and nothing else. Answers 0, or the number of
/// the refusal, and then nothing changes. A state that is observed at a disabled port is not taken. `left` gets these ports:
/// the sum of 1 for port 1, 2 for port 2, 4 for port 3, and so on. Takes no memory.
#[unsafe(no_mangle)]
pub extern "C" fn ptpm_clock_observe(
    handle: &mut Handle,
    observed: &ObservedClock,
    ports: &[ObservedPort],
    left: &mut u64,
) -> u32
    ensures observed { (c : HostedClock)
        → clock_held handle.old.keeping ≡ Some c
        → IsSomeAnd (clock_held handle.new.keeping)
        (λ d. IsObserved observed.now ports.now c d) }
    ensures accepted { (c : HostedClock)
        → clock_held handle.old.keeping ≡ Some c
        → observe_refusal observed.now ports.now c ≡ None
        → (result ≡ 0) × (left.new ≡ left_number (ports_left ports.now c)) }
    ensures refused { (c : HostedClock) (e : ObservationError)
        → clock_held handle.old.keeping ≡ Some c
        → observe_refusal observed.now ports.now c ≡ Some e
        → (result ≡ observe_number e)
        × ((left.new ≡ 0) × (clock_held handle.new.keeping ≡ Some c)) }
    ensures saving { (w : SavingClock)
        → saving_clock_held handle.old.keeping ≡ Some w
        → ObservesCall w observed.now ports.now result left.new
        (saving_clock_held handle.new.keeping) }
    ensures noted { (w : SavingClock)
        → saving_clock_held handle.old.keeping ≡ Some w
        → NotesCall w observed.now ports.now (saving_clock_held handle.new.keeping) }
    ensures empty { any_clock_held handle.old.keeping ≡ None
        → (result ≡ no_clock)
        × ((left.new ≡ 0) × (held handle.new.keeping ≡ held handle.old.keeping)) }
    ensures restored { handle.new.restored ≡ false }
{
    *left = 0;
    handle.restored = false;
    let Some(hosted) = handle.hosted() else {
        return NO_CLOCK;
    };
    match hosted {
        Hosted::Clock(clock) => say_left(clock.observe(observed, ports), left),
        Hosted::SavingClock(clock) => say_left(clock.observe(observed, ports), left),
        _ => NO_CLOCK,
    }
}

/// The number of what became of an observation. `left` gets the ports that stay disabled; 0 if it was refused.
fn say_left(outcome: Result<PortsLeftDisabled, ObservationError>, left: &mut u64) -> u32
    ensures { MatchResult outcome
        (λ ports. (result ≡ 0) × (left.new ≡ left_number ports))
        (λ e. (result ≡ observe_number e) × (left.new ≡ 0)) }
{
    match outcome {
        Ok(stayed) => {
            *left = left_number(&stayed);
            0
        }
        Err(refusal) => {
            *left = 0;
            observe_number(refusal)
        }
    }
}

/// Leaves what a GET of this id is answered at the head of `octets`, `size` octets: 0, or the number of the refusal. What
/// follows them stays. The port matters only for an id of a port. Takes no memory.
#[unsafe(no_mangle)]
pub extern "C" fn ptpm_clock_read(
    handle: &mut Handle,
    id: u16,
    port: u16,
    octets: &mut [u8],
    size: &mut usize,
) -> u32
    ensures kept { held handle.new.keeping ≡ held handle.old.keeping }
    ensures restored { handle.new.restored ≡ handle.old.restored }
    ensures field { (d : DataSetsValue) → shown_held handle.old.keeping ≡ Some d →
        read_refusal id port (length octets.old) d ≡ None →
        (result ≡ 0) × (take size.new octets.new ≡ data_field_of_id id port d) }
    ensures within { size.new ≤ length octets.new }
    ensures behind { drop size.new octets.new ≡ drop size.new octets.old }
    ensures refused { (d : DataSetsValue) (e : ReadRefusal)
        → shown_held handle.old.keeping ≡ Some d
        → read_refusal id port (length octets.old) d ≡ Some e
        → (result ≡ read_number e) × (size.new ≡ 0) }
    ensures empty { shown_held handle.old.keeping ≡ None → (result ≡ no_clock) × (size.new ≡ 0) }
{
    *size = 0;
    let Some(hosted) = handle.hosted() else {
        return NO_CLOCK;
    };
    let Some(sets) = hosted.shown() else {
        return NO_CLOCK;
    };
    match read(sets, id, port, octets) {
        Ok(count) => {
            *size = count;
            0
        }
        Err(refusal) => read_number(refusal),
    }
}

/// The most messages that one datagram makes; 0 if the handle holds no clock. Takes no memory.
#[unsafe(no_mangle)]
pub extern "C" fn ptpm_clock_most_sent(handle: &mut Handle) -> usize
    ensures kept { held handle.new.keeping ≡ held handle.old.keeping }
    ensures restored { handle.new.restored ≡ handle.old.restored }
    ensures most { (c : HostedClock)
        → any_clock_held handle.old.keeping ≡ Some c
        → result ≡ most_sent (state_in c) }
    ensures empty { any_clock_held handle.old.keeping ≡ None → result ≡ 0 }
{
    let Some(hosted) = handle.hosted() else {
        return 0;
    };
    match hosted.clock() {
        Some(clock) => clock.most_sent(),
        None => 0,
    }
}

/// Ends the clock that a handle holds, if it holds one.
#[unsafe(no_mangle)]
pub extern "C" fn ptpm_clock_stop(alloc: Global, handle: &mut Handle)
    ensures { held handle.new.keeping ≡ Nothing }
{
    handle.end(alloc);
}
