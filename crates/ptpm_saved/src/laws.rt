//! Laws of images, each the contract of a function that changes nothing.

ghost use Rattle.std.specs.Prelude.{◌≡◌, ◌+◌, ◌<◌, ℕ, List, map, true, false};
ghost use Rattle.std.specs.FinMap as fin;
ghost use Rattle.std.specs.List.{All};
ghost use Rattle.ptpm_agent.specs.Agent.{state_of};
ghost use Rattle.ptpm_table.specs.Entries.{Entries, HaveAnswers, is_known};
ghost use Rattle.ptpm_agent.specs.Turn.{State, outbox_of, turn};
ghost use Rattle.ptpm_data.specs.Members.{IsConsistent};
ghost use Rattle.ptpm_data.specs.ObservationBack.{Observation};
ghost use Rattle.ptpm_data.specs.Request.{RequestValue};
ghost use Rattle.ptpm_table.specs.Managers.{Clock};
ghost use Rattle.ptpm_saved.specs.NextSession.{CanBeginEach, CanGiveUpEach, IsIdle, IsOver, counted_after, message_with_hops, next_session, with_hops};
ghost use Rattle.ptpm_saved.specs.Saving.{Event, Happening, IsAsIfPowered, ReportsAsIfPowered, all_messages, all_reports, happen_all, started};
ghost use Rattle.ptpm_saved.specs.Batching.{Call, IsDevice, all_events, as_device, begun, calls_each};
ghost use Rattle.ptpm_saved.specs.BatchingClock.{is_of_manager};
ghost use Rattle.ptpm_manager.specs.Session.{SessionValue};
ghost use Rattle.ptpm_manager.specs.Setup.{request_message};
ghost use Rattle.ptpm_saved.specs.SavingSession.{SessionInput, SessionNote, session_process, session_reports};
ghost use Rattle.ptpm_saved.specs.SavingClock.{Datagram, clock_process};
ghost use Rattle.ptpm_saved.specs.Image.{AreEntries, IsSaved, answers_kept, clock_image, saved_of};

use ptpm_agent::Agent;
use ptpm_data::{PORTS, data_sets_law, fits_law};
use ptpm_table::LendingTable;

/// Every clock can be saved, none of whose kept replies has more answers than it has ports, or `INLINE_PORTS`. Its image restores it,
/// and nothing is lost if the managers are the same.
pub fn clock_law<T: LendingTable + Drop>(agent: &Agent<T>)
    ensures saved { HaveAnswers (answers_kept agent.now.sets) (fin.entries (T.entries agent.now.table))
        → IsSaved (saved_of (state_of T.entries agent.now)) }
    ensures known { All (λ e. is_known e.0 (T.owner agent.now.table).managers ≡ true)
        (fin.entries (T.entries agent.now.table)) }
{
    let sets = agent.sets();
    data_sets_law(sets);
    fits_law(sets);
    entries_law(agent.table());
}

/// No two clocks have the same image. Every clock is one that can be saved, by `clock_law`.
pub fn image_law()
    ensures { (s t : State) → IsSaved (saved_of s) → IsSaved (saved_of t)
        → clock_image s ≡ clock_image t → s ≡ t }
{}

/// A clock that saves before it answers may lose its power at any moment and as often as it likes. It is as one whose power never
/// failed, and which heard and observed what counts. That is all that happened, in its order, except this: a failure loses what
/// came since a change that was not saved. And a failure counts as one observation, of what was saved last. What the clock sent
/// is some of what the other one sends.
pub fn saving_clock_law()
    ensures { (c : Clock) (s : State) (es : List (Event Datagram Observation)) → IsConsistent s.sets
        → IsAsIfPowered (clock_process c) s es (happen_all (clock_process c) (started s) es) }
{}

/// The same for a session that saves before it asks. So each request is sent in a domain that its owner gave it, or that was
/// saved. What the other one reports was reported here, in its order. Whatever was reported here, also before a failure, the other
/// one reports too, after some of what happened.
pub fn saving_session_law()
    ensures powered { (s : SessionValue) (es : List (Event SessionInput SessionNote))
        → IsAsIfPowered session_process s es (happen_all session_process (started s) es) }
    ensures reports { (s : SessionValue) (es : List (Event SessionInput SessionNote))
        → ReportsAsIfPowered session_reports session_process s es }
{}

/// A session that is over may go on as another, at its next number. So it does once it has begun as many requests as it can, or if its
/// messages are to have other hops. The other starts afresh:
/// - its request k is the message that the first one's request k would be after the requests of that one, with these hops;
/// - whatever happens then, the other sends what the first would send, if that had these hops. That is so until the first is asked for
///   more requests than it can begin;
/// - and it reports what the first would report, each as a request before which that many fewer were begun.
///
/// If its last request was let go, all of that holds as long as the first may give up what it is asked to.
pub fn next_session_law()
    ensures requests { (s : SessionValue) (hops domain k : ℕ) (q : RequestValue) → 0 < k
        → request_message (next_session s hops).setup domain k q
        ≡ message_with_hops hops (request_message s.setup domain (s.issued + k) q) }
    ensures messages { (s : SessionValue) (hops : ℕ) (hs : List (Happening SessionInput SessionNote)) → IsOver s
        → CanBeginEach (with_hops hops s) hs
        → all_messages session_process (next_session s hops) hs
        ≡ all_messages session_process (with_hops hops s) hs }
    ensures reports { (s : SessionValue) (hops : ℕ) (hs : List (Happening SessionInput SessionNote)) → IsOver s
        → CanBeginEach (with_hops hops s) hs
        → all_reports session_reports session_process (with_hops hops s) hs
        ≡ map (counted_after s.issued) (all_reports session_reports session_process (next_session s hops) hs) }
    ensures messages_after_let_go { (s : SessionValue) (hops : ℕ) (hs : List (Happening SessionInput SessionNote)) → IsIdle s
        → CanBeginEach (with_hops hops s) hs → CanGiveUpEach (with_hops hops s) hs
        → all_messages session_process (next_session s hops) hs
        ≡ all_messages session_process (with_hops hops s) hs }
    ensures reports_after_let_go { (s : SessionValue) (hops : ℕ) (hs : List (Happening SessionInput SessionNote)) → IsIdle s
        → CanBeginEach (with_hops hops s) hs → CanGiveUpEach (with_hops hops s) hs
        → all_reports session_reports session_process (with_hops hops s) hs
        ≡ map (counted_after s.issued) (all_reports session_reports session_process (next_session s hops) hs) }
{}

/// A clock may go on while it is being saved. Then it is a clock that saves before it answers, to which the requests that wait come in
/// late, at their save. So `saving_clock_law` holds for it, whatever its host calls, in whatever order, and whenever power fails. Any
/// other datagram changes nothing, and its answer does not depend on what is kept for managers. The premise is that the host confirms
/// no image that a restart would not find.
pub fn batching_clock_law()
    ensures device { (c : Clock) (s : State) (calls : List (Call Datagram Observation)) → IsConsistent s.sets
        → IsDevice (clock_process c) (is_of_manager c) s calls }
    ensures powered { (c : Clock) (s : State) (calls : List (Call Datagram Observation)) → IsConsistent s.sets
        → IsAsIfPowered (clock_process c) s
        (all_events (clock_process c) (is_of_manager c) (begun s) calls)
        (as_device (clock_process c) (calls_each (clock_process c) (is_of_manager c) (begun s) calls)) }
    ensures alone { (c : Clock) (s : State) (e : Entries) (x : Datagram) → is_of_manager c x ≡ false
        → outbox_of (turn c s x.0 x.1) ≡ outbox_of (turn c (record { sets = s.sets; entries = e }) x.0 x.1) }
{}

/// The entries of a table are in the order of their managers. Their managers are those of the table, and the table would keep each
/// entry.
fn entries_law<T: LendingTable>(table: &T)
    ensures entries { AreEntries PORTS (fin.entries (T.entries table.now)) }
    ensures known { All (λ e. is_known e.0 (T.owner table.now).managers ≡ true)
        (fin.entries (T.entries table.now)) }
{
    let mut after = None;
    for _place in 0..table.entry_count() {
        let Some(entry) = table.next_entry(after) else {
            unreachable!()
        };
        after = Some(entry.manager());
    }
}
