//! The calls of a clock whose device, or whose owner, has a say, for hosts in C.

ghost use Rattle.std.specs.Prelude.{◌≡◌, ◌≢◌, ◌==◌, false, IsTrue, MatchResult, None, Option, Some, true};
ghost use Rattle.ptpm_data.specs.Changed.{no_members};
ghost use Rattle.ptpm_data.specs.Members.{has_port};
ghost use Rattle.ptpm_agent.specs.declared.verdict.Verdict.{Verdict};
ghost use Rattle.ptpm_host.specs.declared.clock.HostedClock.{HostedClock};
ghost use Rattle.ptpm_host.specs.declared.saving_clock.SavingClock.{SavingClock};
ghost use Rattle.ptpm_host.specs.Clock.{clock_in, state_in};
ghost use Rattle.ptpm_agent.specs.Turn.{NumberedRequest};
ghost use Rattle.ptpm_host.specs.Device.{Answers, AsksNothing};
ghost use Rattle.ptpm_host.specs.Numbers.{handle_number, no_clock, verdict_number};
ghost use Rattle.ptpm_host.specs.SavingClock.{request_under_way, state_asked};
ghost use Rattle.ptpm_host.specs.UnderWay.{AnswersAsked, asked_of};
ghost use Rattle.ptpm_c.specs.Batching.{DecidesCall, RefusesCall, RefusesDecision, RefusesUndertaking, ReportsCall, TakesCall, UndertakesCall};
ghost use Rattle.ptpm_c.specs.Held.{any_clock_held, clock_held, held, saving_clock_held};
ghost use Rattle.ptpm_c.specs.Said.{ArePlaced, AsksBy, AsksIn, RefusesSaid, ReportsSaid, TakesSaid, nothing_taken};

use crate::batching;
use crate::handle::{Handle, held};
use crate::kept::Hosted;
use ptpm_data::ChangedMembers;
use ptpm_host::{
    ASKED_CHANGE, ASKED_VALUE, Asking, HandleRefusal, HostedClock, NO_CLOCK, Question, SavingClock,
    Say, Sent, handle_number, said_number, undertake_number, verdict_number,
};

/// What came of a datagram, as C has it.
#[repr(C)]
#[derive(Clone, Copy)]
pub struct Taken {
    /// How many messages are sent at once, and how many wait for a save.
    pub count: u64,
    pub waiting: u64,
    pub changed: ChangedMembers,
}

const _: () = prove!(size_of::<Taken>() == 88);

impl Taken {
    /// Nothing.
    pub fn nothing() -> Taken
        ensures { result ≡ nothing_taken }
    {
        Taken {
            count: 0,
            waiting: 0,
            changed: ChangedMembers::NONE,
        }
    }
}

/// Says what a datagram would have the device do, if it came in now at this port. Answers the number of a change or of a value, 0 for
/// nothing, or the number of the refusal. `asked` gets what the device is asked; all zeros if it is nothing. Nothing changes. Takes no
/// memory.
#[unsafe(no_mangle)]
pub extern "C" fn ptpm_clock_ask(
    handle: &mut Handle,
    port: u16,
    datagram: &[u8],
    asked: &mut Question,
) -> u32
    ensures kept { held handle.new.keeping ≡ held handle.old.keeping }
    ensures restored { handle.new.restored ≡ handle.old.restored }
    ensures asks { (c : HostedClock)
        → clock_held handle.old.keeping ≡ Some c
        → IsTrue (has_port port c.agent.sets)
        → AsksBy (clock_in c) (state_in c) datagram.now result asked.new }
    ensures saving { (w : SavingClock)
        → saving_clock_held handle.old.keeping ≡ Some w
        → IsTrue (has_port port w.clock.value.agent.sets)
        → AsksBy (clock_in w.clock.value) (state_asked w port datagram.now false) datagram.now
        result asked.new }
    ensures no_port { (c : HostedClock)
        → any_clock_held handle.old.keeping ≡ Some c
        → has_port port c.agent.sets ≡ false
        → (result ≡ 33) × AsksNothing asked.new }
    ensures empty { any_clock_held handle.old.keeping ≡ None
        → (result ≡ no_clock) × AsksNothing asked.new }
{
    *asked = Question::nothing();
    let Some(hosted) = handle.hosted() else {
        return NO_CLOCK;
    };
    match hosted {
        Hosted::Clock(clock) => tell(clock.ask(port, datagram), asked),
        Hosted::SavingClock(clock) => tell(clock.ask(port, datagram), asked),
        _ => NO_CLOCK,
    }
}

/// Does what `ptpm_clock_ask` does, of a clock that is saved while it takes datagrams, and by the clock as it is. A change is under way
/// from now on, and the clock is unsaved. Takes no memory.
#[unsafe(no_mangle)]
pub extern "C" fn ptpm_clock_undertake(
    handle: &mut Handle,
    port: u16,
    datagram: &[u8],
    asked: &mut Question,
) -> u32
    ensures undertaken { (w : SavingClock)
        → saving_clock_held handle.old.keeping ≡ Some w
        → UndertakesCall w port datagram.now result asked.new
        (saving_clock_held handle.new.keeping) }
    ensures refused { (w : SavingClock)
        → saving_clock_held handle.old.keeping ≡ Some w
        → RefusesUndertaking w port datagram.now result asked.new
        (saving_clock_held handle.new.keeping) }
    ensures empty { saving_clock_held handle.old.keeping ≡ None
        → (result ≡ no_clock)
        × (AsksNothing asked.new × (held handle.new.keeping ≡ held handle.old.keeping)) }
    ensures restored { handle.new.restored ≡ handle.old.restored }
{
    *asked = Question::nothing();
    held!(handle, Hosted::SavingClock(clock), NO_CLOCK);
    undertake(clock, port, datagram, asked)
}

/// The number of what the device is to be asked, which `asked` gets; or that of the refusal.
fn undertake(clock: &mut SavingClock, port: u16, datagram: &[u8], asked: &mut Question) -> u32
    ensures undertaken { UndertakesCall clock.old port datagram.now result asked.new (Some clock.new) }
    ensures refused { RefusesUndertaking clock.old port datagram.now result asked.new
        (Some clock.new) }
{
    match clock.undertake(port, datagram) {
        Ok(asking) => say_asking(asking, asked),
        Err(refusal) => {
            *asked = Question::nothing();
            undertake_number(refusal)
        }
    }
}

/// Says which change is under way at a clock of either kind: the number of a change, or 0 for none. Nothing changes. Takes no memory.
#[unsafe(no_mangle)]
pub extern "C" fn ptpm_clock_under_way(handle: &mut Handle, asked: &mut Question) -> u32
    ensures kept { held handle.new.keeping ≡ held handle.old.keeping }
    ensures restored { handle.new.restored ≡ handle.old.restored }
    ensures asks { (c : HostedClock)
        → any_clock_held handle.old.keeping ≡ Some c
        → AsksIn (asked_of (request_under_way c.under_way)) None result asked.new }
    ensures empty { any_clock_held handle.old.keeping ≡ None
        → (result ≡ no_clock) × AsksNothing asked.new }
{
    *asked = Question::nothing();
    let Some(hosted) = handle.hosted() else {
        return NO_CLOCK;
    };
    let Some(clock) = hosted.clock() else {
        return NO_CLOCK;
    };
    tell_under_way(clock.under_way(), asked)
}

/// The number of a change, which `asked` gets; or 0 if there is none.
fn tell_under_way(change: Option<Question>, asked: &mut Question) -> u32
    ensures { (r : Option NumberedRequest) → AnswersAsked r change → AsksIn r None result asked.new }
{
    *asked = Question::nothing();
    match change {
        Some(change) => {
            *asked = change;
            ASKED_CHANGE
        }
        None => 0,
    }
}

/// Does what `ptpm_clock_take` does with the datagram that is under way, at its port, with what the device says of it. Nothing is under
/// way then, and its messages wait. Takes no memory.
#[unsafe(no_mangle)]
pub extern "C" fn ptpm_clock_decide(
    handle: &mut Handle,
    say: &Say,
    sent: &mut [Sent],
    taken: &mut Taken,
) -> u32
    ensures decided { (w : SavingClock)
        → saving_clock_held handle.old.keeping ≡ Some w
        → DecidesCall w say.now sent.old result taken.new (saving_clock_held handle.new.keeping) }
    ensures refused { (w : SavingClock)
        → saving_clock_held handle.old.keeping ≡ Some w
        → RefusesDecision w say.now sent.old result taken.new sent.new
        (saving_clock_held handle.new.keeping) }
    ensures places { ArePlaced taken.new sent.old sent.new }
    ensures empty { saving_clock_held handle.old.keeping ≡ None
        → (result ≡ no_clock)
        × ((taken.new ≡ nothing_taken)
        × ((sent.new ≡ sent.old) × (held handle.new.keeping ≡ held handle.old.keeping))) }
    ensures restored { handle.new.restored ≡ handle.old.restored }
{
    *taken = Taken::nothing();
    held!(handle, Hosted::SavingClock(clock), NO_CLOCK);
    batching::decide(clock, say, sent, taken)
}

/// The number of what the device is asked, which `asked` gets; or that of the refusal.
fn tell(asking: Result<Asking, HandleRefusal>, asked: &mut Question) -> u32
    ensures { (change value : Option NumberedRequest) → MatchResult asking
        (λ a. Answers change value a → AsksIn change value result asked.new)
        (λ e. (result ≡ handle_number e) × AsksNothing asked.new) }
{
    match asking {
        Ok(asking) => say_asking(asking, asked),
        Err(refusal) => {
            *asked = Question::nothing();
            handle_number(refusal)
        }
    }
}

/// The number of what the device is asked, which `asked` gets.
fn say_asking(asking: Asking, asked: &mut Question) -> u32
    ensures { (change value : Option NumberedRequest) → Answers change value asking
        → AsksIn change value result asked.new }
{
    *asked = Question::nothing();
    match asking {
        Asking::Change(change) => {
            *asked = change;
            ASKED_CHANGE
        }
        Asking::Value(get) => {
            *asked = get;
            ASKED_VALUE
        }
        Asking::Nothing => 0,
    }
}

/// What becomes of a datagram that comes in at a port: the number of the verdict, or of the refusal. The device has its say, and its
/// owner sent the datagram if `of_owner` is 1. `taken` gets what came of it, and the first places of `sent` what is sent at once. If
/// messages wait until the clock is saved, as many places get zeros instead. The places after them stay. Takes no memory.
#[unsafe(no_mangle)]
pub extern "C" fn ptpm_clock_take(
    handle: &mut Handle,
    port: u16,
    datagram: &[u8],
    say: &Say,
    of_owner: u8,
    sent: &mut [Sent],
    taken: &mut Taken,
) -> u32
    ensures turned { (c : HostedClock)
        → clock_held handle.old.keeping ≡ Some c
        → TakesSaid c port datagram.now say.now (of_owner == 1) sent.old result taken.new sent.new
        (clock_held handle.new.keeping) }
    ensures changed { (c : HostedClock)
        → clock_held handle.old.keeping ≡ Some c
        → ReportsSaid c port say.now sent.old taken.new (clock_held handle.new.keeping) }
    ensures refused { (c : HostedClock)
        → clock_held handle.old.keeping ≡ Some c
        → RefusesSaid c port say.now sent.old result taken.new sent.new
        (clock_held handle.new.keeping) }
    ensures called { (w : SavingClock)
        → saving_clock_held handle.old.keeping ≡ Some w
        → TakesCall w port datagram.now say.now (of_owner == 1) sent.old result taken.new sent.new
        (saving_clock_held handle.new.keeping) }
    ensures called_changed { (w : SavingClock)
        → saving_clock_held handle.old.keeping ≡ Some w
        → ReportsCall w port datagram.now say.now (of_owner == 1) sent.old taken.new
        (saving_clock_held handle.new.keeping) }
    ensures called_refused { (w : SavingClock)
        → saving_clock_held handle.old.keeping ≡ Some w
        → RefusesCall w port datagram.now say.now (of_owner == 1) sent.old result taken.new sent.new
        (saving_clock_held handle.new.keeping) }
    ensures new_alone { result ≢ verdict_number Verdict.AnsweredNew → taken.new.changed ≡ no_members }
    ensures places { ArePlaced taken.new sent.old sent.new }
    ensures empty { any_clock_held handle.old.keeping ≡ None
        → (result ≡ no_clock)
        × ((taken.new ≡ nothing_taken)
        × ((sent.new ≡ sent.old) × (held handle.new.keeping ≡ held handle.old.keeping))) }
    ensures restored { handle.new.restored ≡ false }
{
    *taken = Taken::nothing();
    handle.restored = false;
    let Some(hosted) = handle.hosted() else {
        return NO_CLOCK;
    };
    let of_owner = of_owner == 1;
    match hosted {
        Hosted::Clock(clock) => hand_in(clock, port, datagram, say, of_owner, sent, taken),
        Hosted::SavingClock(clock) => {
            batching::hand_in(clock, port, datagram, say, of_owner, sent, taken)
        }
        _ => NO_CLOCK,
    }
}

/// What becomes of a datagram at a clock that sends at once.
#[inline(always)]
fn hand_in(
    clock: &mut HostedClock,
    port: u16,
    datagram: &[u8],
    say: &Say,
    of_owner: bool,
    sent: &mut [Sent],
    taken: &mut Taken,
) -> u32
    requires nothing { taken.old ≡ nothing_taken }
    ensures taken { TakesSaid clock.old port datagram.now say.now of_owner sent.old result taken.new
        sent.new (Some clock.new) }
    ensures changed { ReportsSaid clock.old port say.now sent.old taken.new (Some clock.new) }
    ensures new_alone { result ≢ verdict_number Verdict.AnsweredNew → taken.new.changed ≡ no_members }
    ensures refused { RefusesSaid clock.old port say.now sent.old result taken.new sent.new
        (Some clock.new) }
    ensures places { ArePlaced taken.new sent.old sent.new }
{
    match clock.take(port, datagram, say, of_owner, sent, &mut taken.changed) {
        Ok(handled) => {
            taken.count = handled.count as u64;
            verdict_number(handled.verdict)
        }
        Err(refusal) => said_number(refusal),
    }
}
