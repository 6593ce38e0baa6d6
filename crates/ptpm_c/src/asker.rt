//! The calls of an asker for hosts in C, each one of `ptpm_host`.

ghost use Rattle.std.specs.Prelude.{◌≡◌, ◌≢◌, ◌≤◌, ◌<◌, ◌⊎◌, ◌++◌, false, true, IfNone, IfSome, IsSome, IsSomeAnd, None, Some, drop, length, take};
ghost use Rattle.ptpm_manager.specs.declared.error.GiveUpRefusal.{GiveUpRefusal};
ghost use Rattle.ptpm_manager.specs.declared.report.Outcome.{Outcome};
ghost use Rattle.ptpm_manager.specs.Image.{session_image};
ghost use Rattle.ptpm_manager.specs.ImageReading.{session_at};
ghost use Rattle.ptpm_manager.specs.Receiving.{NeedsMemory, received_of};
ghost use Rattle.ptpm_asker.specs.declared.stage.Stage.{Stage};
ghost use Rattle.ptpm_asker.specs.Asker.{opened, opened_new};
ghost use Rattle.ptpm_asker.specs.Turns.{asks, asks_refusal, begins_waking, can_settle, hears, lets_go, lets_go_refusal, noted, noted_refusal, saved, settles, settling_domain, unsents, wakes};
ghost use Rattle.ptpm_host.specs.declared.asker.HostedAsker.{HostedAsker};
ghost use Rattle.ptpm_host.specs.declared.refusal.ReportRefusal.{ReportRefusal};
ghost use Rattle.ptpm_host.specs.declared.refusal.SessionRefusal.{SessionRefusal};
ghost use Rattle.ptpm_host.specs.Asker.{HasTurned, HasTurnedWith, IsAskerAt, asker_refusal, asker_settings, earlier_number, handed, restore_asker_refusal, told_refusal, wanted_of};
ghost use Rattle.ptpm_host.specs.Numbers.{asker_number, begin_number, give_up_number, no_asker, no_memory, no_room, outcome_number, report_number, session_number};
ghost use Rattle.ptpm_host.specs.ReportedOutcome.{outcome_octets, reported_error, reported_of};
ghost use Rattle.ptpm_c.specs.declared.kept.Hosted.TheVariants.{Nothing};
ghost use Rattle.ptpm_c.specs.Held.{FindsNoAsker, HandsOutNothing, asker_held, held};
ghost use Rattle.ptpm_c.specs.Numbered.{IsNumberedBy};

use crate::handle::{Handle, held};
use crate::kept::Hosted;
use ptpm_asker::DRAWN_OCTETS;
use ptpm_host::{
    AskerSettings, Handed, HostedAsker, NO_ASKER, NO_MEMORY, NO_ROOM, asker_number, begin_number,
    earlier_number, give_up_number, outcome_number, report_number, session_number,
};
use ptpm_manager::GiveUpRefusal;
use std::alloc::Global;

/// Starts an asker without a file in a handle, in place of what it holds: 0. If it is refused, answers the number of the refusal,
/// and the handle holds nothing.
#[unsafe(no_mangle)]
pub extern "C" fn ptpm_asker_start(
    alloc: Global,
    handle: &mut Handle,
    settings: &AskerSettings,
    drawn: &[u8; DRAWN_OCTETS],
) -> u32
    ensures started { IfSome (asker_held handle.new.keeping) (λ a. (result ≡ 0)
        × IsAskerAt a
        (opened_new (asker_settings settings.now) drawn.now settings.now.session.first) None) }
    ensures refused { IfNone (asker_held handle.new.keeping)
        ((1 ≤ result) × (held handle.new.keeping ≡ Nothing)) }
    ensures number { (e : SessionRefusal)
        → asker_refusal settings.now ≡ Some e
        → result ≡ session_number e }
    ensures memory { asker_refusal settings.now ≡ None → result ≢ 0 → result ≡ no_memory }
{
    handle.end(alloc);
    let asker = match HostedAsker::start(alloc, settings, *drawn) {
        Ok(asker) => asker,
        Err(refusal) => return session_number(refusal),
    };
    let Ok(asker) = Box::new(alloc, asker) else {
        return NO_MEMORY;
    };
    match handle.put(alloc, Hosted::Asker(asker)) {
        Ok(()) => 0,
        Err(_) => NO_MEMORY,
    }
}

/// Puts the asker of a session whose image this is in a handle, in place of what it holds: 0. If it is refused, by the number of the
/// refusal, the handle holds what it held.
#[tactic(auto, using(crate::proofs::Numbers::memory_of_asker_restore))]
#[unsafe(no_mangle)]
pub extern "C" fn ptpm_asker_restore(
    alloc: Global,
    handle: &mut Handle,
    settings: &AskerSettings,
    drawn: &[u8; DRAWN_OCTETS],
    image: &[u8],
) -> u32
    ensures restored { result ≡ 0 → IsSomeAnd (asker_held handle.new.keeping) (λ a.
        IsAskerAt a (opened (asker_settings settings.now) drawn.now (session_at image.now)) None) }
    ensures number { IsNumberedBy asker_number (restore_asker_refusal settings.now image.now) result }
    ensures unchanged { result ≢ 0 → held handle.new.keeping ≡ held handle.old.keeping }
{
    let asker = match HostedAsker::restored(alloc, settings, *drawn, image) {
        Ok(asker) => asker,
        Err(refusal) => return asker_number(refusal),
    };
    let Ok(asker) = Box::new(alloc, asker) else {
        return NO_MEMORY;
    };
    match handle.put(alloc, Hosted::Asker(asker)) {
        Ok(()) => 0,
        Err(_) => NO_MEMORY,
    }
}

/// Asks a request, which the owner names `tag`, in a domain: 0, and `out` is what is to be done next. If it is refused, by the number
/// of the refusal, nothing changes, and nothing is handed out.
#[tactic(auto, using(crate::proofs::Numbers::memory_of_refusal))]
#[unsafe(no_mangle)]
pub extern "C" fn ptpm_asker_ask(
    handle: &mut Handle,
    now: u64,
    tag: u64,
    action: u8,
    id: u16,
    port: u16,
    octets: &[u8],
    domain: u8,
    out: &mut Handed,
) -> u32
    ensures turned { (s : HostedAsker)
        → asker_held handle.old.keeping ≡ Some s
        → result ≡ 0
        → IsSomeAnd (asker_held handle.new.keeping)
        (λ t. HasTurnedWith s (asks s.asker now tag (wanted_of action id port octets.now) domain) out.new t) }
    ensures number { (s : HostedAsker)
        → asker_held handle.old.keeping ≡ Some s
        → IsNumberedBy begin_number (asks_refusal s.asker (wanted_of action id port octets.now)) result }
    ensures unchanged { (s : HostedAsker)
        → asker_held handle.old.keeping ≡ Some s
        → result ≢ 0
        → HandsOutNothing out.new
        × IsSomeAnd (asker_held handle.new.keeping) (λ t. IsAskerAt t s.asker s.told) }
    ensures empty { FindsNoAsker handle.old.keeping result out.new handle.new.keeping }
{
    *out = Handed::nothing();
    held!(handle, Hosted::Asker(asker), NO_ASKER);
    match asker.ask(now, tag, action, id, port, octets, domain) {
        Ok(handed) => {
            *out = handed;
            0
        }
        Err(refusal) => begin_number(refusal),
    }
}

/// Sends the request of an earlier run again, which the owner names `tag`: 0. If there is none, or the asker does not rest, it is
/// refused as idle, and nothing changes. Takes no memory.
#[unsafe(no_mangle)]
pub extern "C" fn ptpm_asker_settle(
    handle: &mut Handle,
    now: u64,
    tag: u64,
    domain: u8,
    out: &mut Handed,
) -> u32
    ensures turned { (s : HostedAsker)
        → asker_held handle.old.keeping ≡ Some s
        → result ≡ 0
        → IsSomeAnd (asker_held handle.new.keeping)
        (λ t. HasTurnedWith s (settles s.asker now tag domain) out.new t) }
    ensures refused { (s : HostedAsker)
        → asker_held handle.old.keeping ≡ Some s
        → can_settle s.asker ≡ false
        → result ≡ give_up_number GiveUpRefusal.Idle }
    ensures permitted { (s : HostedAsker)
        → asker_held handle.old.keeping ≡ Some s
        → can_settle s.asker ≡ true
        → result ≡ 0 }
    ensures unchanged { (s : HostedAsker)
        → asker_held handle.old.keeping ≡ Some s
        → result ≢ 0
        → HandsOutNothing out.new
        × IsSomeAnd (asker_held handle.new.keeping) (λ t. IsAskerAt t s.asker s.told) }
    ensures empty { FindsNoAsker handle.old.keeping result out.new handle.new.keeping }
{
    *out = Handed::nothing();
    held!(handle, Hosted::Asker(asker), NO_ASKER);
    match asker.settle(now, tag, domain) {
        Some(handed) => {
            *out = handed;
            0
        }
        None => give_up_number(GiveUpRefusal::Idle),
    }
}

/// Gives up the request of an earlier run, which the owner has noted before: 0, or the number of the refusal. Takes no memory.
#[unsafe(no_mangle)]
pub extern "C" fn ptpm_asker_let_go(handle: &mut Handle, out: &mut Handed) -> u32
    ensures turned { (s : HostedAsker)
        → asker_held handle.old.keeping ≡ Some s
        → result ≡ 0
        → IsSomeAnd (asker_held handle.new.keeping)
        (λ t. HasTurned s (lets_go s.asker) out.new t) }
    ensures permitted { (s : HostedAsker)
        → asker_held handle.old.keeping ≡ Some s
        → lets_go_refusal s.asker ≡ None
        → result ≡ 0 }
    ensures refused { (s : HostedAsker) (e : GiveUpRefusal)
        → asker_held handle.old.keeping ≡ Some s
        → lets_go_refusal s.asker ≡ Some e
        → result ≡ give_up_number e }
    ensures unchanged { (s : HostedAsker)
        → asker_held handle.old.keeping ≡ Some s
        → result ≢ 0
        → HandsOutNothing out.new
        × IsSomeAnd (asker_held handle.new.keeping) (λ t. IsAskerAt t s.asker s.told) }
    ensures empty { FindsNoAsker handle.old.keeping result out.new handle.new.keeping }
{
    *out = Handed::nothing();
    held!(handle, Hosted::Asker(asker), NO_ASKER);
    match asker.let_go() {
        Ok(handed) => {
            *out = handed;
            0
        }
        Err(refusal) => give_up_number(refusal),
    }
}

/// Hands in a datagram that came in: 0. Only memory for the dataField of an answer is ever refused.
#[unsafe(no_mangle)]
pub extern "C" fn ptpm_asker_hear(handle: &mut Handle, datagram: &[u8], out: &mut Handed) -> u32
    ensures turned { (s : HostedAsker)
        → asker_held handle.old.keeping ≡ Some s
        → result ≡ 0
        → IsSomeAnd (asker_held handle.new.keeping)
        (λ t. HasTurned s (hears s.asker datagram.now) out.new t) }
    ensures memory { (s : HostedAsker)
        → asker_held handle.old.keeping ≡ Some s
        → result ≢ 0
        → (result ≡ no_memory)
        × (NeedsMemory (received_of s.asker.session datagram.now)
        ⊎ NeedsMemory (received_of s.asker.reader datagram.now)) }
    ensures unchanged { (s : HostedAsker)
        → asker_held handle.old.keeping ≡ Some s
        → result ≢ 0
        → HandsOutNothing out.new
        × IsSomeAnd (asker_held handle.new.keeping) (λ t. IsAskerAt t s.asker s.told) }
    ensures empty { FindsNoAsker handle.old.keeping result out.new handle.new.keeping }
{
    *out = Handed::nothing();
    held!(handle, Hosted::Asker(asker), NO_ASKER);
    match asker.hear(datagram) {
        Ok(handed) => {
            *out = handed;
            0
        }
        Err(_) => NO_MEMORY,
    }
}

/// Time has come, in milliseconds: 0. Earlier than the time that was handed out, nothing is to be done. Only memory for a question or
/// a read by nobody is ever refused.
#[unsafe(no_mangle)]
pub extern "C" fn ptpm_asker_wake(handle: &mut Handle, now: u64, out: &mut Handed) -> u32
    ensures turned { (s : HostedAsker)
        → asker_held handle.old.keeping ≡ Some s
        → result ≡ 0
        → IsSomeAnd (asker_held handle.new.keeping)
        (λ t. HasTurnedWith s (wakes s.asker now) out.new t) }
    ensures memory { (s : HostedAsker)
        → asker_held handle.old.keeping ≡ Some s
        → result ≢ 0
        → (result ≡ no_memory) × (begins_waking s.asker now ≡ true) }
    ensures unchanged { (s : HostedAsker)
        → asker_held handle.old.keeping ≡ Some s
        → result ≢ 0
        → HandsOutNothing out.new
        × IsSomeAnd (asker_held handle.new.keeping) (λ t. IsAskerAt t s.asker s.told) }
    ensures empty { FindsNoAsker handle.old.keeping result out.new handle.new.keeping }
{
    *out = Handed::nothing();
    held!(handle, Hosted::Asker(asker), NO_ASKER);
    match asker.wake(now) {
        Ok(handed) => {
            *out = handed;
            0
        }
        Err(_) => NO_MEMORY,
    }
}

/// There was no way for the message that was handed out: 0. Takes no memory.
#[unsafe(no_mangle)]
pub extern "C" fn ptpm_asker_unsent(handle: &mut Handle, out: &mut Handed) -> u32
    ensures turned { (s : HostedAsker)
        → asker_held handle.old.keeping ≡ Some s
        → result ≡ 0
        → IsSomeAnd (asker_held handle.new.keeping)
        (λ t. HasTurned s (unsents s.asker) out.new t) }
    ensures done { (s : HostedAsker) → asker_held handle.old.keeping ≡ Some s → result ≡ 0 }
    ensures empty { FindsNoAsker handle.old.keeping result out.new handle.new.keeping }
{
    *out = Handed::nothing();
    held!(handle, Hosted::Asker(asker), NO_ASKER);
    *out = asker.unsent();
    0
}

/// The session is in its file, on the disk: 0. Takes no memory.
#[unsafe(no_mangle)]
pub extern "C" fn ptpm_asker_saved(handle: &mut Handle, now: u64, out: &mut Handed) -> u32
    ensures turned { (s : HostedAsker)
        → asker_held handle.old.keeping ≡ Some s
        → result ≡ 0
        → IsSomeAnd (asker_held handle.new.keeping)
        (λ t. HasTurnedWith s (saved s.asker now) out.new t) }
    ensures done { (s : HostedAsker) → asker_held handle.old.keeping ≡ Some s → result ≡ 0 }
    ensures empty { FindsNoAsker handle.old.keeping result out.new handle.new.keeping }
{
    *out = Handed::nothing();
    held!(handle, Hosted::Asker(asker), NO_ASKER);
    *out = asker.saved(now);
    0
}

/// What was handed out to be noted is written: 0, or the number of the refusal.
#[tactic(auto, using(crate::proofs::Numbers::memory_of_refusal))]
#[unsafe(no_mangle)]
pub extern "C" fn ptpm_asker_noted(handle: &mut Handle, out: &mut Handed) -> u32
    ensures turned { (s : HostedAsker)
        → asker_held handle.old.keeping ≡ Some s
        → result ≡ 0
        → IsSomeAnd (asker_held handle.new.keeping)
        (λ t. HasTurned s (noted s.asker) out.new t) }
    ensures number { (s : HostedAsker)
        → asker_held handle.old.keeping ≡ Some s
        → IsNumberedBy begin_number (noted_refusal s.asker) result }
    ensures begins { (s : HostedAsker)
        → asker_held handle.old.keeping ≡ Some s
        → result ≢ 0
        → (s.asker.stage ≡ Stage.Noting) × IsSome s.asker.wanted }
    ensures unchanged { (s : HostedAsker)
        → asker_held handle.old.keeping ≡ Some s
        → result ≢ 0
        → HandsOutNothing out.new
        × IsSomeAnd (asker_held handle.new.keeping) (λ t. IsAskerAt t s.asker s.told) }
    ensures empty { FindsNoAsker handle.old.keeping result out.new handle.new.keeping }
{
    *out = Handed::nothing();
    held!(handle, Hosted::Asker(asker), NO_ASKER);
    match asker.noted() {
        Ok(handed) => {
            *out = handed;
            0
        }
        Err(refusal) => begin_number(refusal),
    }
}

/// Leaves the message that was handed out to be sent last at the head of `octets`, `size` octets: 0, or the number of the refusal.
/// What follows it stays. Takes no memory.
#[unsafe(no_mangle)]
pub extern "C" fn ptpm_asker_message(
    handle: &mut Handle,
    octets: &mut [u8],
    size: &mut usize,
) -> u32
    ensures kept { held handle.new.keeping ≡ held handle.old.keeping }
    ensures message { (s : HostedAsker)
        → asker_held handle.old.keeping ≡ Some s
        → length s.buffer.items ≤ length octets.old
        → (result ≡ 0)
        × ((size.new ≡ length s.buffer.items)
        × (octets.new ≡ s.buffer.items ++ drop size.new octets.old)) }
    ensures room { (s : HostedAsker)
        → asker_held handle.old.keeping ≡ Some s
        → length octets.old < length s.buffer.items
        → (result ≡ no_room) × ((size.new ≡ 0) × (octets.new ≡ octets.old)) }
    ensures empty { asker_held handle.old.keeping ≡ None
        → (result ≡ no_asker) × ((size.new ≡ 0) × (octets.new ≡ octets.old)) }
{
    *size = 0;
    held!(handle, Hosted::Asker(asker), NO_ASKER);
    match asker.message(octets) {
        Some(count) => {
            *size = count;
            0
        }
        None => NO_ROOM,
    }
}

/// Leaves the image of the asker's session at the head of `octets`: `size` octets, 53 to 1,478. Answers 0, or the number of the
/// refusal, and then nothing is written. Takes no memory.
#[unsafe(no_mangle)]
pub extern "C" fn ptpm_asker_image(handle: &mut Handle, octets: &mut [u8], size: &mut usize) -> u32
    ensures kept { held handle.new.keeping ≡ held handle.old.keeping }
    ensures image { (s : HostedAsker)
        → asker_held handle.old.keeping ≡ Some s
        → length (session_image s.asker.session) ≤ length octets.old
        → (result ≡ 0)
        × ((size.new ≡ length (session_image s.asker.session))
        × (octets.new ≡ session_image s.asker.session ++ drop size.new octets.old)) }
    ensures room { (s : HostedAsker)
        → asker_held handle.old.keeping ≡ Some s
        → length octets.old < length (session_image s.asker.session)
        → (result ≡ no_room) × ((size.new ≡ 0) × (octets.new ≡ octets.old)) }
    ensures empty { asker_held handle.old.keeping ≡ None
        → (result ≡ no_asker) × ((size.new ≡ 0) × (octets.new ≡ octets.old)) }
{
    *size = 0;
    held!(handle, Hosted::Asker(asker), NO_ASKER);
    match asker.image(octets) {
        Some(count) => {
            *size = count;
            0
        }
        None => NO_ROOM,
    }
}

/// What an earlier run left under way, as a number. `there` gets the domain in which it is settled, if this run asks in `domain`.
/// If the handle holds no asker, answers 0, and `there` gets this domain. Takes no memory.
#[unsafe(no_mangle)]
pub extern "C" fn ptpm_asker_earlier(handle: &mut Handle, domain: u8, there: &mut u8) -> u32
    ensures kept { held handle.new.keeping ≡ held handle.old.keeping }
    ensures earlier { (s : HostedAsker)
        → asker_held handle.old.keeping ≡ Some s
        → result ≡ earlier_number s.asker.earlier }
    ensures domain { (s : HostedAsker)
        → asker_held handle.old.keeping ≡ Some s
        → there.new ≡ settling_domain s.asker.earlier s.asker.session.domain domain }
    ensures empty { asker_held handle.old.keeping ≡ None → (result ≡ 0) × (there.new ≡ domain) }
{
    *there = domain;
    held!(handle, Hosted::Asker(asker), 0);
    *there = asker.settling_domain(domain);
    earlier_number(asker.earlier())
}

/// What the answer says that was reported last, as `ptpm_session_report` has it. Takes no memory.
#[unsafe(no_mangle)]
pub extern "C" fn ptpm_asker_report(
    handle: &mut Handle,
    octets: &mut [u8],
    size: &mut usize,
    error: &mut u16,
) -> u32
    ensures kept { held handle.new.keeping ≡ held handle.old.keeping }
    ensures outcome { (s : HostedAsker) (o : Outcome)
        → asker_held handle.old.keeping ≡ Some s
        → s.told ≡ Some o
        → told_refusal (length octets.old) s.told ≡ None
        → (result ≡ outcome_number (reported_of o)) × (take size.new octets.new ≡ outcome_octets o) }
    ensures error { (s : HostedAsker) (o : Outcome)
        → asker_held handle.old.keeping ≡ Some s
        → s.told ≡ Some o
        → told_refusal (length octets.old) s.told ≡ None
        → error.new ≡ reported_error (reported_of o) }
    ensures within { size.new ≤ length octets.new }
    ensures behind { drop size.new octets.new ≡ drop size.new octets.old }
    ensures refused { (s : HostedAsker) (e : ReportRefusal)
        → asker_held handle.old.keeping ≡ Some s
        → told_refusal (length octets.old) s.told ≡ Some e
        → (result ≡ report_number e) × ((size.new ≡ 0) × (error.new ≡ 0)) }
    ensures empty { asker_held handle.old.keeping ≡ None
        → (result ≡ no_asker) × ((size.new ≡ 0) × (error.new ≡ 0)) }
{
    *size = 0;
    *error = 0;
    held!(handle, Hosted::Asker(asker), NO_ASKER);
    match asker.report(octets) {
        Ok(outcome) => {
            *size = outcome.size();
            *error = outcome.error();
            outcome_number(outcome)
        }
        Err(refusal) => report_number(refusal),
    }
}

/// Ends the asker that a handle holds, if it holds one.
#[unsafe(no_mangle)]
pub extern "C" fn ptpm_asker_stop(alloc: Global, handle: &mut Handle)
    ensures { held handle.new.keeping ≡ Nothing }
{
    handle.end(alloc);
}
