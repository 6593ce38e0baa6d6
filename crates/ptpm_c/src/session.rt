//! The calls of a session for hosts in C, each one of `ptpm_host`.

ghost use Rattle.std.specs.Prelude.{◌≡◌, ◌≢◌, ◌≤◌, false, true, IfNone, IfSome, IsSomeAnd, None, Some, drop, length, take};
ghost use Rattle.ptpm_codec.specs.declared.message.Message.{Message};
ghost use Rattle.ptpm_codec.specs.Canonical.{canonical};
ghost use Rattle.ptpm_manager.specs.Ask.{request_at_port, request_of};
ghost use Rattle.ptpm_manager.specs.declared.error.GiveUpRefusal.{GiveUpRefusal};
ghost use Rattle.ptpm_manager.specs.declared.error.SendError.{SendError};
ghost use Rattle.ptpm_manager.specs.declared.report.Report.{Report};
ghost use Rattle.ptpm_manager.specs.Receiving.{NeedsMemory, received_of};
ghost use Rattle.ptpm_manager.specs.Session.{begin_at_refusal, begin_refusal, due_message, give_up_refusal, given_up, is_waiting, resumed, retuned, sent};
ghost use Rattle.ptpm_host.specs.declared.refusal.ReportRefusal.{ReportRefusal};
ghost use Rattle.ptpm_host.specs.declared.refusal.SendRefusal.{SendRefusal};
ghost use Rattle.ptpm_host.specs.declared.refusal.SessionRefusal.{SessionRefusal};
ghost use Rattle.ptpm_host.specs.declared.session.HostedSession.{HostedSession};
ghost use Rattle.ptpm_host.specs.Numbers.{begin_number, give_up_number, heard_number, no_memory, no_session, report_number, resume_number, send_number, session_number, outcome_number};
ghost use Rattle.ptpm_host.specs.Session.{HasBegun, IsAt, ask_of, hand_refusal, heard_of, report_refusal};
ghost use Rattle.ptpm_host.specs.SessionSettings.{session_refusal, session_start};
ghost use Rattle.ptpm_host.specs.ReportedOutcome.{reported_error, outcome_octets, reported_of};
ghost use Rattle.ptpm_c.specs.declared.kept.Hosted.TheVariants.{Nothing};
ghost use Rattle.ptpm_c.specs.Held.{FindsNoSession, held, session_held};
ghost use Rattle.ptpm_c.specs.Numbered.{IsNumberedBy};
ghost use Rattle.ptpm_c.specs.Session.{HasHeard};

use crate::handle::{Handle, held};
use crate::kept::Hosted;
use ptpm_host::{
    HostedSession, NO_MEMORY, NO_SESSION, SessionSettings, begin_number, give_up_number,
    heard_number, outcome_number, report_number, resume_number, send_number, session_number,
};
use std::alloc::Global;

/// Starts a session in a handle, in place of the one that it holds: 0. If it is refused, answers the number of the refusal, and
/// the handle holds none.
#[unsafe(no_mangle)]
pub extern "C" fn ptpm_session_start(
    alloc: Global,
    handle: &mut Handle,
    settings: &SessionSettings,
) -> u32
    ensures started { IfSome (session_held handle.new.keeping)
        (λ s. (result ≡ 0) × IsAt s (session_start settings.now) None) }
    ensures refused { IfNone (session_held handle.new.keeping)
        ((1 ≤ result) × (held handle.new.keeping ≡ Nothing)) }
    ensures number { (e : SessionRefusal)
        → session_refusal settings.now ≡ Some e
        → result ≡ session_number e }
    ensures memory { session_refusal settings.now ≡ None → result ≢ 0 → result ≡ no_memory }
{
    handle.end(alloc);
    let session = match HostedSession::start(alloc, settings) {
        Ok(session) => session,
        Err(refusal) => return session_number(refusal),
    };
    let Ok(session) = Box::new(alloc, session) else {
        return NO_MEMORY;
    };
    match handle.put(alloc, Hosted::Session(session)) {
        Ok(()) => 0,
        Err(_) => NO_MEMORY,
    }
}

/// Begins a request: 0. If it is refused, by the number of the refusal, nothing changes. Memory is asked for if nothing
/// else refuses it.
#[tactic(auto, using(crate::proofs::Numbers::memory_of_refusal))]
#[unsafe(no_mangle)]
pub extern "C" fn ptpm_session_begin(
    handle: &mut Handle,
    action: u8,
    id: u16,
    port: u16,
    octets: &[u8],
) -> u32
    ensures begun { (s : HostedSession)
        → session_held handle.old.keeping ≡ Some s
        → result ≡ 0
        → IsSomeAnd (session_held handle.new.keeping)
        (HasBegun s (request_of (ask_of action id port octets.now))) }
    ensures number { (s : HostedSession)
        → session_held handle.old.keeping ≡ Some s
        → IsNumberedBy begin_number
        (begin_refusal s.session (ask_of action id port octets.now)) result }
    ensures unchanged { (s : HostedSession)
        → session_held handle.old.keeping ≡ Some s
        → result ≢ 0
        → session_held handle.new.keeping ≡ Some s }
    ensures empty { FindsNoSession handle.old.keeping result handle.new.keeping }
{
    held!(handle, Hosted::Session(session), NO_SESSION);
    match session.begin(action, id, port, octets) {
        Ok(()) => 0,
        Err(refusal) => begin_number(refusal),
    }
}

/// Does what `ptpm_session_begin` does at the port that is named, also for an id of the clock; it has to be one of the clock's.
#[tactic(auto, using(crate::proofs::Numbers::memory_of_refusal))]
#[unsafe(no_mangle)]
pub extern "C" fn ptpm_session_begin_at(
    handle: &mut Handle,
    action: u8,
    id: u16,
    port: u16,
    octets: &[u8],
) -> u32
    ensures begun { (s : HostedSession)
        → session_held handle.old.keeping ≡ Some s
        → result ≡ 0
        → IsSomeAnd (session_held handle.new.keeping)
        (HasBegun s (request_at_port (ask_of action id port octets.now))) }
    ensures number { (s : HostedSession)
        → session_held handle.old.keeping ≡ Some s
        → IsNumberedBy begin_number
        (begin_at_refusal s.session (ask_of action id port octets.now)) result }
    ensures unchanged { (s : HostedSession)
        → session_held handle.old.keeping ≡ Some s
        → result ≢ 0
        → session_held handle.new.keeping ≡ Some s }
    ensures empty { FindsNoSession handle.old.keeping result handle.new.keeping }
{
    held!(handle, Hosted::Session(session), NO_SESSION);
    match session.begin_at(action, id, port, octets) {
        Ok(()) => 0,
        Err(refusal) => begin_number(refusal),
    }
}

/// Leaves the unanswered request at the head of `octets`, `size` octets: 0, or the number of the refusal. What follows
/// them stays. Takes no memory.
#[unsafe(no_mangle)]
pub extern "C" fn ptpm_session_send(handle: &mut Handle, octets: &mut [u8], size: &mut usize) -> u32
    ensures sent { (s : HostedSession)
        → session_held handle.old.keeping ≡ Some s
        → hand_refusal (length octets.old) s.session ≡ None
        → (result ≡ 0)
        × IsSomeAnd (session_held handle.new.keeping)
        (λ t. IsAt t (sent s.session) s.report) }
    ensures octets { (s : HostedSession) (v : Message) → session_held handle.old.keeping ≡ Some s →
        hand_refusal (length octets.old) s.session ≡ None → due_message s.session ≡ Some v →
        take size.new octets.new ≡ canonical v }
    ensures within { size.new ≤ length octets.new }
    ensures behind { drop size.new octets.new ≡ drop size.new octets.old }
    ensures refused { (s : HostedSession) (e : SendRefusal)
        → session_held handle.old.keeping ≡ Some s
        → hand_refusal (length octets.old) s.session ≡ Some e
        → (result ≡ send_number e)
        × ((size.new ≡ 0)
        × IsSomeAnd (session_held handle.new.keeping)
        (λ t. IsAt t s.session s.report)) }
    ensures empty { session_held handle.old.keeping ≡ None
        → (result ≡ no_session)
        × ((size.new ≡ 0) × (held handle.new.keeping ≡ held handle.old.keeping)) }
{
    *size = 0;
    held!(handle, Hosted::Session(session), NO_SESSION);
    match session.send(octets) {
        Ok(count) => {
            *size = count;
            0
        }
        Err(refusal) => send_number(refusal),
    }
}

/// Gives the unanswered request this many attempts: 0, or the number of the refusal. Takes no memory.
#[unsafe(no_mangle)]
pub extern "C" fn ptpm_session_resume(handle: &mut Handle, attempts: u8) -> u32
    ensures resumed { (s : HostedSession)
        → session_held handle.old.keeping ≡ Some s
        → is_waiting s.session ≡ true
        → (result ≡ 0)
        × IsSomeAnd (session_held handle.new.keeping)
        (λ t. IsAt t (resumed s.session attempts) s.report) }
    ensures idle { (s : HostedSession)
        → session_held handle.old.keeping ≡ Some s
        → is_waiting s.session ≡ false
        → (result ≡ resume_number SendError.Idle) × (session_held handle.new.keeping ≡ Some s) }
    ensures empty { FindsNoSession handle.old.keeping result handle.new.keeping }
{
    held!(handle, Hosted::Session(session), NO_SESSION);
    match session.resume(attempts) {
        Ok(()) => 0,
        Err(refusal) => resume_number(refusal),
    }
}

/// Lets the unanswered request go: 0, or the number of the refusal. Takes no memory.
#[unsafe(no_mangle)]
pub extern "C" fn ptpm_session_give_up(handle: &mut Handle) -> u32
    ensures given_up { (s : HostedSession)
        → session_held handle.old.keeping ≡ Some s
        → give_up_refusal s.session ≡ None
        → (result ≡ 0)
        × IsSomeAnd (session_held handle.new.keeping)
        (λ t. IsAt t (given_up s.session) s.report) }
    ensures refused { (s : HostedSession) (e : GiveUpRefusal)
        → session_held handle.old.keeping ≡ Some s
        → give_up_refusal s.session ≡ Some e
        → (result ≡ give_up_number e) × (session_held handle.new.keeping ≡ Some s) }
    ensures empty { FindsNoSession handle.old.keeping result handle.new.keeping }
{
    held!(handle, Hosted::Session(session), NO_SESSION);
    match session.give_up() {
        Ok(()) => 0,
        Err(refusal) => give_up_number(refusal),
    }
}

/// From now on requests are sent, and replies expected, in this domain: 0, or the number of the refusal. Takes no memory.
#[unsafe(no_mangle)]
pub extern "C" fn ptpm_session_retune(handle: &mut Handle, domain: u8) -> u32
    ensures retuned { (s : HostedSession)
        → session_held handle.old.keeping ≡ Some s
        → (result ≡ 0)
        × IsSomeAnd (session_held handle.new.keeping)
        (λ t. IsAt t (retuned s.session domain) s.report) }
    ensures empty { FindsNoSession handle.old.keeping result handle.new.keeping }
{
    held!(handle, Hosted::Session(session), NO_SESSION);
    session.retune(domain);
    0
}

/// What the session makes of a datagram: 0 for the answer, or the number of the reason to ignore it. Or it is the number of the
/// refusal, and then nothing changes.
#[unsafe(no_mangle)]
pub extern "C" fn ptpm_session_receive(handle: &mut Handle, datagram: &[u8]) -> u32
    ensures heard { (s : HostedSession)
        → session_held handle.old.keeping ≡ Some s
        → result ≢ no_memory
        → (result ≡ heard_number (heard_of (received_of s.session datagram.now)))
        × IsSomeAnd (session_held handle.new.keeping)
        (λ t. HasHeard s (received_of s.session datagram.now) t) }
    ensures refused { (s : HostedSession)
        → session_held handle.old.keeping ≡ Some s
        → result ≢ heard_number (heard_of (received_of s.session datagram.now))
        → (result ≡ no_memory)
        × (NeedsMemory (received_of s.session datagram.now)
        × (session_held handle.new.keeping ≡ Some s)) }
    ensures empty { FindsNoSession handle.old.keeping result handle.new.keeping }
{
    held!(handle, Hosted::Session(session), NO_SESSION);
    match session.receive(datagram) {
        Ok(heard) => heard_number(heard),
        Err(_) => NO_MEMORY,
    }
}

/// How many requests were begun; 0 if the handle holds no session. Takes no memory.
#[unsafe(no_mangle)]
pub extern "C" fn ptpm_session_issued(handle: &mut Handle) -> u64
    ensures kept { held handle.new.keeping ≡ held handle.old.keeping }
    ensures issued { (s : HostedSession)
        → session_held handle.old.keeping ≡ Some s
        → result ≡ s.session.issued }
    ensures empty { session_held handle.old.keeping ≡ None → result ≡ 0 }
{
    held!(handle, Hosted::Session(session), 0);
    session.issued()
}

/// What the answer to the latest request says, as a number. A dataField is left at the head of `octets`, `size` octets, and a
/// managementErrorId in `error`. If there is none, they are 0. What follows a dataField stays. Takes no memory.
#[unsafe(no_mangle)]
pub extern "C" fn ptpm_session_report(
    handle: &mut Handle,
    octets: &mut [u8],
    size: &mut usize,
    error: &mut u16,
) -> u32
    ensures kept { held handle.new.keeping ≡ held handle.old.keeping }
    ensures outcome { (s : HostedSession) (r : Report)
        → session_held handle.old.keeping ≡ Some s
        → s.report ≡ Some r
        → report_refusal (length octets.old) s.report ≡ None
        → (result ≡ outcome_number (reported_of r.outcome))
        × (take size.new octets.new ≡ outcome_octets r.outcome) }
    ensures error { (s : HostedSession) (r : Report)
        → session_held handle.old.keeping ≡ Some s
        → s.report ≡ Some r
        → report_refusal (length octets.old) s.report ≡ None
        → error.new ≡ reported_error (reported_of r.outcome) }
    ensures within { size.new ≤ length octets.new }
    ensures behind { drop size.new octets.new ≡ drop size.new octets.old }
    ensures refused { (s : HostedSession) (e : ReportRefusal)
        → session_held handle.old.keeping ≡ Some s
        → report_refusal (length octets.old) s.report ≡ Some e
        → (result ≡ report_number e) × ((size.new ≡ 0) × (error.new ≡ 0)) }
    ensures empty { session_held handle.old.keeping ≡ None
        → (result ≡ no_session) × ((size.new ≡ 0) × (error.new ≡ 0)) }
{
    *size = 0;
    *error = 0;
    held!(handle, Hosted::Session(session), NO_SESSION);
    match session.report(octets) {
        Ok(outcome) => {
            *size = outcome.size();
            *error = outcome.error();
            outcome_number(outcome)
        }
        Err(refusal) => report_number(refusal),
    }
}

/// Ends the session that a handle holds, if it holds one.
#[unsafe(no_mangle)]
pub extern "C" fn ptpm_session_stop(alloc: Global, handle: &mut Handle)
    ensures { held handle.new.keeping ≡ Nothing }
{
    handle.end(alloc);
}
