//! What a report is worth. Each law is the contract of a function that does nothing, and speaks only of the definitions.

ghost use Rattle.std.specs.Prelude.{◌≡◌, ◌+◌, ◌<◌, ◌≤◌, ℕ, length, List, slice_get, Some};
ghost use Rattle.std.specs.List.{AllByRecursion};
ghost use Rattle.ptpm_codec.specs.declared.identity.PortIdentity.{PortIdentity};
ghost use Rattle.ptpm_manager.specs.declared.ask.Ask.{Ask};
ghost use Rattle.ptpm_manager.specs.declared.error.BeginError.TheVariants as begins;
ghost use Rattle.ptpm_manager.specs.declared.report.Report.{Report};
ghost use Rattle.ptpm_network.specs.Events.{Begin, BeginRefused, Event, IsInRange, refusal};
ghost use Rattle.ptpm_network.specs.Stands.{StandsAfter};
ghost use Rattle.ptpm_network.specs.Machine.{state_after};
ghost use Rattle.ptpm_network.specs.Network.{IsNetwork, Network};
ghost use Rattle.ptpm_network.specs.RunningNetwork.{RunningNetwork};
ghost use Rattle.ptpm_network.specs.State.{history, issued};
ghost use Rattle.ptpm_network.specs.Worth.{IsWorth, entries_of};

/// What is reported was carried out exactly once. After every list of events, late deliveries among them:
/// - the reports of a session are of its requests 1, 2, 3, .. in their order;
/// - each is worth this: its request, as the session began it, was carried out exactly once at the session's target. The report
///   gives the one answer that the clock made at that moment, from its data sets as they were then;
/// - no request of any manager was carried out more than once at any clock, reported or not;
/// - a request that is not reported is the last that its session began, and until it is reported the session begins no other.
pub fn reported_exactly_once()
    ensures in_order { (N : Network) (es : List Event) (s i : ℕ) (r : Report) →
        IsNetwork N → AllByRecursion IsInRange es → s < N.sessions →
        slice_get ((state_after N es).session s).reports i ≡ Some r → r.index ≡ i + 1 }
    ensures worth { (N : Network) (es : List Event) (s i : ℕ) (r : Report) →
        IsNetwork N → AllByRecursion IsInRange es → s < N.sessions →
        slice_get ((state_after N es).session s).reports i ≡ Some r
        → IsWorth N (state_after N es) s r }
    ensures at_most_once { (N : Network) (es : List Event) (c : ℕ) (m : PortIdentity) (k : ℕ) →
        length (entries_of m k (history N (state_after N es) c).accepted) ≤ 1 }
    ensures last { (N : Network) (es : List Event) (s k : ℕ) →
        IsNetwork N → AllByRecursion IsInRange es → s < N.sessions →
        length ((state_after N es).session s).reports < k → k ≤ issued (state_after N es) s →
        k ≡ issued (state_after N es) s }
    ensures busy { (N : Network) (es : List Event) (s : ℕ) (a : Ask) →
        s < N.sessions →
        length ((state_after N es).session s).reports < issued (state_after N es) s →
        refusal N (state_after N es) (Begin s a) ≡ Some (BeginRefused begins.Busy) }
{}

/// A network that runs, whose clocks and sessions distinguish requests by sequenceIds and octets, reports no less. Wherever it
/// is after events without a late delivery:
/// - the reports of a session are of its requests 1, 2, 3, .. in their order;
/// - each is worth what it is in the machine. Its request was carried out exactly once, and the report gives the one answer that
///   the clock made then.
#[tactic(auto, using(crate::proofs::Reporting::running_networks_report_laws))]
pub fn running_networks_report()
    ensures in_order { (N : Network) (past : List Event) (r : RunningNetwork) (s i : ℕ)
        (report : Report) →
        StandsAfter N past r → s < N.sessions → slice_get (r.reports s) i ≡ Some report
        → report.index ≡ i + 1 }
    ensures worth { (N : Network) (past : List Event) (r : RunningNetwork) (s i : ℕ)
        (report : Report) →
        StandsAfter N past r → s < N.sessions → slice_get (r.reports s) i ≡ Some report →
        IsWorth N (state_after N past) s report }
{}
