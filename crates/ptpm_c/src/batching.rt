//! The calls of a clock that is saved while it takes datagrams, for hosts in C.

ghost use Rattle.std.specs.Prelude.{◌≡◌, ◌≢◌, ◌≤◌, ◌<◌, ◌==◌, ◌&&◌, IsSomeAnd, None, Some, false, true};
ghost use Rattle.ptpm_data.specs.Changed.{no_members};
ghost use Rattle.ptpm_agent.specs.declared.verdict.Verdict.{Verdict};
ghost use Rattle.ptpm_host.specs.declared.clock.HostedClock.{HostedClock};
ghost use Rattle.ptpm_host.specs.declared.refusal.SavedRefusal.{SavedRefusal};
ghost use Rattle.ptpm_host.specs.declared.saving_clock.SavingClock.{SavingClock};
ghost use Rattle.ptpm_host.specs.Clock.{IsWhole, KeepsBehind, state_in};
ghost use Rattle.ptpm_host.specs.MostSent.{most_sent};
ghost use Rattle.ptpm_host.specs.Numbers.{no_clock, no_memory, no_room, saved_number, verdict_number};
ghost use Rattle.ptpm_host.specs.SavingClock.{free_places, is_unsaved};
ghost use Rattle.ptpm_c.specs.Batching.{BeginsSaved, DecidesCall, ForgoesImage, GivesMessage, IsSaved, MakesImage, RefusesCall, RefusesDecision, RefusesImage, ReportsCall, TakesCall, done_number};
ghost use Rattle.ptpm_c.specs.Held.{any_clock_held, clock_held, clock_of, held, saving_clock_held, saving_clock_of};
ghost use Rattle.ptpm_c.specs.Said.{ArePlaced, nothing_taken};

use crate::device::Taken;
use crate::handle::{Handle, held};
use crate::kept::Hosted;
use ptpm_host::{
    ACT_NOW, HostedClock, ImageRefusal, NO_CLOCK, NO_MEMORY, NO_ROOM, Saved, SavingClock,
    SavingRefusal, Say, Sent, decide_number, saved_number, take_number, verdict_number,
};
use std::alloc::Global;
use std::mem;

/// From now on the clock that a handle holds shows no change before its host says that it is saved: 0. So many messages may wait
/// in it meanwhile. It counts as saved if it was restored and is as it was then. Otherwise it takes no datagram before it is saved
/// for the first time. If it is refused, the clock goes on as it was. Nothing changes if it is so already.
#[unsafe(no_mangle)]
pub extern "C" fn ptpm_clock_saving(alloc: Global, handle: &mut Handle, places: usize) -> u32
    ensures saving { (c : HostedClock)
        → clock_held handle.old.keeping ≡ Some c
        → result ≡ 0
        → IsSomeAnd (saving_clock_held handle.new.keeping)
        (BeginsSaved c handle.old.restored places) }
    ensures already { (w : SavingClock)
        → saving_clock_held handle.old.keeping ≡ Some w
        → (result ≡ 0) × (saving_clock_held handle.new.keeping ≡ Some w) }
    ensures refused { (c : HostedClock)
        → clock_held handle.old.keeping ≡ Some c
        → result ≢ 0
        → (clock_held handle.new.keeping ≡ Some c)
        × (handle.new.restored ≡ handle.old.restored) }
    ensures room { (c : HostedClock)
        → clock_held handle.old.keeping ≡ Some c
        → places < most_sent (state_in c)
        → result ≡ no_room }
    ensures memory { (c : HostedClock)
        → clock_held handle.old.keeping ≡ Some c
        → most_sent (state_in c) ≤ places
        → result ≢ 0
        → result ≡ no_memory }
    ensures empty { any_clock_held handle.old.keeping ≡ None
        → (result ≡ no_clock) × (held handle.new.keeping ≡ held handle.old.keeping) }
{
    let saved = handle.restored;
    let Some(hosted) = handle.hosted() else {
        return NO_CLOCK;
    };
    match mem::replace(hosted, Hosted::Nothing) {
        Hosted::Clock(clock) => begin_saving(alloc, hosted, clock, saved, places),
        Hosted::SavingClock(saving) => {
            *hosted = Hosted::SavingClock(saving);
            0
        }
        other => {
            *hosted = other;
            NO_CLOCK
        }
    }
}

/// Puts this clock into `hosted`: one that is saved while it takes datagrams, or the clock as it was.
fn begin_saving(
    alloc: Global,
    hosted: &mut Hosted,
    clock: Box<HostedClock>,
    saved: bool,
    places: usize,
) -> u32
    ensures saving { result ≡ 0 → IsSomeAnd (saving_clock_of hosted.new)
        (BeginsSaved clock.value saved places) }
    ensures refused { result ≢ 0 → clock_of hosted.new ≡ Some clock.value }
    ensures room { places < most_sent (state_in clock.value) → result ≡ no_room }
    ensures memory { most_sent (state_in clock.value) ≤ places → result ≢ 0 → result ≡ no_memory }
{
    let saving = match SavingClock::new(alloc, clock, saved, places) {
        Ok(saving) => saving,
        Err(SavingRefusal::NoRoom(clock)) => {
            *hosted = Hosted::Clock(clock);
            return NO_ROOM;
        }
        Err(SavingRefusal::OutOfMemory(clock)) => {
            *hosted = Hosted::Clock(clock);
            return NO_MEMORY;
        }
    };
    match Box::new(alloc, saving) {
        Ok(saving) => {
            *hosted = Hosted::SavingClock(saving);
            0
        }
        Err(refused) => {
            *hosted = Hosted::Clock(refused.value.into_clock());
            NO_MEMORY
        }
    }
}

/// What becomes of a datagram at such a clock.
#[inline(never)]
pub(crate) fn hand_in(
    clock: &mut SavingClock,
    port: u16,
    datagram: &[u8],
    say: &Say,
    of_owner: bool,
    sent: &mut [Sent],
    taken: &mut Taken,
) -> u32
    requires nothing { taken.old ≡ nothing_taken }
    ensures taken { TakesCall clock.old port datagram.now say.now of_owner sent.old result taken.new
        sent.new (Some clock.new) }
    ensures changed { ReportsCall clock.old port datagram.now say.now of_owner sent.old taken.new
        (Some clock.new) }
    ensures new_alone { result ≢ verdict_number Verdict.AnsweredNew → taken.new.changed ≡ no_members }
    ensures refused { RefusesCall clock.old port datagram.now say.now of_owner sent.old result
        taken.new sent.new (Some clock.new) }
    ensures places { ArePlaced taken.new sent.old sent.new }
{
    match clock.take(port, datagram, say, of_owner, sent, &mut taken.changed) {
        Ok(outcome) => {
            taken.count = outcome.count as u64;
            taken.waiting = outcome.waiting as u64;
            verdict_number(outcome.verdict)
        }
        Err(refusal) => take_number(refusal),
    }
}

/// What becomes of what is under way at such a clock.
pub(crate) fn decide(
    clock: &mut SavingClock,
    say: &Say,
    sent: &mut [Sent],
    taken: &mut Taken,
) -> u32
    ensures decided { DecidesCall clock.old say.now sent.old result taken.new (Some clock.new) }
    ensures refused { RefusesDecision clock.old say.now sent.old result taken.new sent.new
        (Some clock.new) }
    ensures places { ArePlaced taken.new sent.old sent.new }
{
    *taken = Taken::nothing();
    match clock.decide(say, sent, &mut taken.changed) {
        Ok(outcome) => {
            taken.count = outcome.count as u64;
            taken.waiting = outcome.waiting as u64;
            verdict_number(outcome.verdict)
        }
        Err(refusal) => decide_number(refusal),
    }
}

/// Does what `ptpm_clock_image` does, for such a clock. Also leaves in `token` how many images were made of it; 0 if it is refused.
/// No earlier image can be said to be saved then. Takes memory for a clock of more than `ptpm_data::INLINE_PORTS` ports alone.
#[unsafe(no_mangle)]
pub extern "C" fn ptpm_clock_image_of(
    alloc: Global,
    handle: &mut Handle,
    octets: &mut [u8],
    size: &mut usize,
    token: &mut u64,
) -> u32
    ensures restored { handle.new.restored ≡ handle.old.restored }
    ensures image { (w : SavingClock)
        → saving_clock_held handle.old.keeping ≡ Some w
        → MakesImage w octets.old result size.new token.new octets.new
        (saving_clock_held handle.new.keeping) }
    ensures room { (w : SavingClock)
        → saving_clock_held handle.old.keeping ≡ Some w
        → RefusesImage w octets.old result size.new token.new octets.new
        (saving_clock_held handle.new.keeping) }
    ensures memory { (w : SavingClock)
        → saving_clock_held handle.old.keeping ≡ Some w
        → ForgoesImage w octets.old result size.new token.new octets.new
        (saving_clock_held handle.new.keeping) }
    ensures empty { saving_clock_held handle.old.keeping ≡ None
        → (result ≡ no_clock)
        × ((size.new ≡ 0)
        × ((token.new ≡ 0)
        × ((octets.new ≡ octets.old) × (held handle.new.keeping ≡ held handle.old.keeping)))) }
{
    *size = 0;
    *token = 0;
    held!(handle, Hosted::SavingClock(clock), NO_CLOCK);
    make_image(alloc, clock, octets, size, token)
}

/// Makes an image of such a clock, or says why there is none.
fn make_image(
    alloc: Global,
    clock: &mut SavingClock,
    octets: &mut [u8],
    size: &mut usize,
    token: &mut u64,
) -> u32
    ensures image { MakesImage clock.old octets.old result size.new token.new octets.new
        (Some clock.new) }
    ensures room { RefusesImage clock.old octets.old result size.new token.new octets.new
        (Some clock.new) }
    ensures memory { ForgoesImage clock.old octets.old result size.new token.new octets.new
        (Some clock.new) }
{
    *size = 0;
    *token = 0;
    match clock.image(alloc, octets) {
        Ok((count, of)) => {
            *size = count;
            *token = of;
            0
        }
        Err(ImageRefusal::NoRoom) => NO_ROOM,
        Err(ImageRefusal::OutOfMemory) => NO_MEMORY,
    }
}

/// Takes the host's word that a restart would find the image of this token. What waited for it is released. Answers 0, or that the host
/// asks its device now for what is under way. Otherwise it answers the number of the refusal, and nothing changes. Takes no memory.
#[unsafe(no_mangle)]
pub extern "C" fn ptpm_clock_saved(handle: &mut Handle, token: u64) -> u32
    ensures saved { (w : SavingClock)
        → saving_clock_held handle.old.keeping ≡ Some w
        → (w.is_imaged && token == w.images) ≡ true
        → IsSomeAnd (saving_clock_held handle.new.keeping) (IsSaved w result) }
    ensures other { (w : SavingClock)
        → saving_clock_held handle.old.keeping ≡ Some w
        → (w.is_imaged && token == w.images) ≡ false
        → (result ≡ saved_number SavedRefusal.OtherImage)
        × (saving_clock_held handle.new.keeping ≡ Some w) }
    ensures empty { saving_clock_held handle.old.keeping ≡ None
        → (result ≡ no_clock) × (held handle.new.keeping ≡ held handle.old.keeping) }
{
    held!(handle, Hosted::SavingClock(clock), NO_CLOCK);
    match clock.saved(token) {
        Ok(done) => done_number(done),
        Err(refusal) => saved_number(refusal),
    }
}

/// Answers 0, or that the host asks its device now.
fn done_number(done: Saved) -> u32
    ensures { result ≡ done_number done }
{
    match done {
        Saved::Saved => 0,
        Saved::ActNow => ACT_NOW,
    }
}

/// Takes the first message that was released into `sent`, and answers 1; 0 if there is none. What follows it there stays. Takes no
/// memory.
#[unsafe(no_mangle)]
pub extern "C" fn ptpm_clock_next(handle: &mut Handle, sent: &mut Sent) -> usize
    ensures given { (w : SavingClock)
        → saving_clock_held handle.old.keeping ≡ Some w
        → w.ready ≢ 0
        → (result ≡ 1)
        × (IsWhole sent.new
        × IsSomeAnd (saving_clock_held handle.new.keeping) (GivesMessage w sent.new)) }
    ensures none { (w : SavingClock)
        → saving_clock_held handle.old.keeping ≡ Some w
        → w.ready ≡ 0
        → (result ≡ 0) × ((sent.new ≡ sent.old) × (saving_clock_held handle.new.keeping ≡ Some w)) }
    ensures behind { KeepsBehind sent.old sent.new }
    ensures empty { saving_clock_held handle.old.keeping ≡ None
        → (result ≡ 0)
        × ((sent.new ≡ sent.old) × (held handle.new.keeping ≡ held handle.old.keeping)) }
{
    held!(handle, Hosted::SavingClock(clock), 0);
    if clock.next(sent) { 1 } else { 0 }
}

/// How many more messages may wait: as many as there are numbers, in a clock that sends at once. It is 0 if there is no clock.
#[unsafe(no_mangle)]
pub extern "C" fn ptpm_clock_free(handle: &mut Handle) -> usize
    ensures kept { held handle.new.keeping ≡ held handle.old.keeping }
    ensures restored { handle.new.restored ≡ handle.old.restored }
    ensures free { (w : SavingClock)
        → saving_clock_held handle.old.keeping ≡ Some w
        → result ≡ free_places w }
    ensures any { (c : HostedClock)
        → clock_held handle.old.keeping ≡ Some c
        → result ≡ 18446744073709551615 }
    ensures empty { any_clock_held handle.old.keeping ≡ None → result ≡ 0 }
{
    let Some(hosted) = handle.hosted() else {
        return 0;
    };
    match hosted {
        Hosted::Clock(_) => usize::MAX,
        Hosted::SavingClock(clock) => clock.free(),
        _ => 0,
    }
}

/// Whether such a clock has to be saved: 1, or 0.
#[unsafe(no_mangle)]
pub extern "C" fn ptpm_clock_unsaved(handle: &mut Handle) -> u32
    ensures kept { held handle.new.keeping ≡ held handle.old.keeping }
    ensures restored { handle.new.restored ≡ handle.old.restored }
    ensures unsaved { (w : SavingClock)
        → saving_clock_held handle.old.keeping ≡ Some w
        → is_unsaved w ≡ true
        → result ≡ 1 }
    ensures saved { (w : SavingClock)
        → saving_clock_held handle.old.keeping ≡ Some w
        → is_unsaved w ≡ false
        → result ≡ 0 }
    ensures empty { saving_clock_held handle.old.keeping ≡ None → result ≡ 0 }
{
    held!(handle, Hosted::SavingClock(clock), 0);
    clock.is_unsaved() as u32
}
