//! What a manager is served while its own messages come in time, whatever comes late of others. Each law is the contract of a
//! function that does nothing, and speaks only of the definitions.

ghost use Rattle.std.specs.Prelude.{◌≡◌, ◌<◌, ℕ, [], List, Ok, false};
ghost use Rattle.std.specs.List.{AllByRecursion};
ghost use Rattle.ptpm_network.specs.ByManager.{Account, StaysInTime, account_of, account_with, is_late_for};
ghost use Rattle.ptpm_network.specs.Events.{Event, IsInRange};
ghost use Rattle.ptpm_network.specs.Machine.{AreInTime, taken};
ghost use Rattle.ptpm_network.specs.Network.{IsNetwork, Network};
ghost use Rattle.ptpm_network.specs.RunningNetwork.{Happened, RunningNetwork, initial_network, network_event, network_run};
ghost use Rattle.ptpm_network.specs.Served.{IsServed, IsServedSoFar};
ghost use Rattle.ptpm_network.specs.Stands.{StandsAfter};
ghost use Rattle.ptpm_network.specs.State.{initial_state};

/// One late manager disturbs at most its own requests. This holds over every list of events, up to the first that is refused,
/// however late the messages of any other manager come. A manager is served if none of its copies came late to its target, and no
/// reply came late to it.
/// - Its target carried out its requests from 1 on, each once, in this order. They are as many as were begun, or one less.
/// - What was reported to it are the first of the replies given then, in order.
/// - A copy of the last of them gets that reply again, in whatever domain; a copy of an older one gets none.
///
/// If no delivery that happens is late, as in the headline, every manager's messages come in time.
/// `requests_carried_out` says what every clock has after its turns, late or not.
pub fn managers_in_time_are_served()
    ensures served { (N : Network) (s : ℕ) (es : List Event) →
        IsNetwork N → s < N.sessions → AllByRecursion IsInRange es →
        StaysInTime N s (initial_network N) es →
        IsServed N s (network_run N (initial_network N) es) (account_of N s es) }
    ensures all { (N : Network) (s : ℕ) (es : List Event) →
        IsNetwork N → AllByRecursion IsInRange es →
        AreInTime N (initial_state N) (taken N (initial_state N) es) →
        StaysInTime N s (initial_network N) es }
{}

/// It is served so far when a network starts. If it was before, it still is after an event that is not refused and is no late
/// delivery for it. The event may be a late delivery for others.
pub fn served_so_far()
    ensures first { (N : Network) (s : ℕ) (r : RunningNetwork) →
        s < N.sessions → StandsAfter N [] r → IsServedSoFar N s r (account_of N s []) }
    ensures event { (N : Network) (s : ℕ) (r : RunningNetwork) (a : Account) (e : Event) (h : Happened) →
        IsServedSoFar N s r a → IsInRange e → network_event N r e ≡ Ok h → is_late_for N s r e ≡ false →
        IsServedSoFar N s h.network (account_with N s r e a) }
{}
