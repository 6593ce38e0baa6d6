//! What may happen while a request is on its way and is answered. Each law is the contract of a function that does nothing, and
//! speaks only of the definitions.

ghost use Rattle.std.specs.Prelude.{◌≡◌, ◌+◌, ◌<◌, ◌≤◌, ◌⊎◌, ℕ, false, length, List};
ghost use Rattle.std.specs.List.{AllByRecursion};
ghost use Rattle.ptpm_network.specs.Events.{Event, IsInRange, frames_limit};
ghost use Rattle.ptpm_network.specs.Exchange.{HasReported};
ghost use Rattle.ptpm_network.specs.Machine.{AreInTime, run, state_after, step, taken};
ghost use Rattle.ptpm_network.specs.Meanwhile.{IsAnswerableMeanwhile, IsReady, LeavesWay, StaysOpen, concerns, may_close};
ghost use Rattle.ptpm_network.specs.Network.{IsNetwork, Network};
ghost use Rattle.ptpm_network.specs.RunningNetwork.{RunningNetwork};
ghost use Rattle.ptpm_network.specs.Stands.{StandsAfter};
ghost use Rattle.ptpm_network.specs.State.{NetworkState, greatest_accepted, issued};
ghost use Rattle.ptpm_network.specs.Way.{Hop, IsAnswerable, LinksHaveAtMost, ReportsAfter};

/// Nothing else keeps a request from its answer. Take any list of events, late deliveries among them. After it let a session
/// wait for a report and have an attempt left. Let a way lead to its target, and let there be room for the frames. Then the
/// session sends the request, one copy each way comes in at the ends of the way, and the request is reported. Before each of
/// these deliveries any number of other events may happen that leave the way open. With no others this is what
/// `answerable_along_a_way` says. A network that runs reports as the machine does, if none of all these events is refused or
/// late.
pub fn answerable_meanwhile()
    ensures answered { (N : Network) (es : List Event) (s : ℕ) (hops : List Hop) (port ends : ℕ) →
        IsNetwork N → AllByRecursion IsInRange es → s < N.sessions → LinksHaveAtMost N ends →
        IsReady N (state_after N es) s hops port ends →
        IsAnswerableMeanwhile N (state_after N es) s hops port ends }
    ensures alone { (N : Network) (w : NetworkState) (s : ℕ) (hops : List Hop) (port ends : ℕ) →
        IsAnswerableMeanwhile N w s hops port ends → IsAnswerable N w s hops port }
    ensures runs { (N : Network) (past es : List Event) (r : RunningNetwork) (s : ℕ) →
        StandsAfter N past r → s < N.sessions → AllByRecursion IsInRange es →
        taken N (state_after N past) es ≡ es → AreInTime N (state_after N past) es →
        HasReported (state_after N past) (run N (state_after N past) es) s →
        ReportsAfter N r s es }
{}

/// A way is left open by events one after another, if each does so, and by an event
/// - by which its session begins nothing, is not retuned, and hears no reply to its last request;
/// - by which each clock on the way stays in its domain and forwards at the same ports. So does the target, unless it has
///   accepted the request by then;
/// - after which there is room for the frames that are still to be made.
///
/// A clock stays so unless a copy of a request for DOMAIN or DISABLE_PORT of one of its managers comes in there. So what
/// strangers send leaves the way open, and so does what other sessions begin and send, and what is delivered of it. SETs of all
/// other ids are among these.
pub fn ways_stay_open()
    ensures nothing { (N : Network) (w : NetworkState) (s : ℕ) (hops : List Hop) (port frames : ℕ) →
        LeavesWay N w w s hops port frames }
    ensures both { (N : Network) (w u v : NetworkState) (s : ℕ) (hops : List Hop) (port frames : ℕ) →
        LeavesWay N w u s hops port frames → LeavesWay N u v s hops port frames →
        LeavesWay N w v s hops port frames }
    ensures event { (N : Network) (es : List Event) (e : Event) (s : ℕ) (hops : List Hop)
        (port frames : ℕ) →
        IsNetwork N → AllByRecursion IsInRange es → IsInRange e → s < N.sessions →
        concerns (state_after N es) s e ≡ false →
        AllByRecursion (λ h. StaysOpen N (state_after N es) (step N (state_after N es) e) h.clock) hops →
        StaysOpen N (state_after N es) (step N (state_after N es) e) (N.session s).target
        ⊎ (greatest_accepted N (step N (state_after N es) e) s ≡ issued (step N (state_after N es) e) s) →
        length (step N (state_after N es) e).frames + frames ≤ frames_limit →
        LeavesWay N (state_after N es) (step N (state_after N es) e) s hops port frames }
    ensures open_clock { (N : Network) (es : List Event) (e : Event) (c : ℕ) →
        IsNetwork N → AllByRecursion IsInRange es → IsInRange e →
        may_close N (state_after N es) c e ≡ false →
        StaysOpen N (state_after N es) (step N (state_after N es) e) c }
{}
