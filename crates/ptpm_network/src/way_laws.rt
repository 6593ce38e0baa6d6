//! What the network has to do for a request to be answered. Each law is the contract of a function that does nothing, and speaks
//! only of the definitions.

ghost use Rattle.std.specs.Prelude.{◌≡◌, ◌++◌, ◌∷◌, ◌+◌, ◌<◌, ◌≤◌, [], ℕ, false, length, List, None, Some};
ghost use Rattle.std.specs.List.{AllByRecursion};
ghost use Rattle.ptpm_codec.specs.declared.identity.PortIdentity.{PortIdentity};
ghost use Rattle.ptpm_codec.specs.Layout.{domain_number};
ghost use Rattle.ptpm_network.specs.Events.{Deliver, Event, IsInRange, Resume, Retune, Send, frame_at, frames_limit, refusal};
ghost use Rattle.ptpm_network.specs.Exchange.{HasReplied, HasReported, HasRoom, IsHeardBy, LastIsForOne};
ghost use Rattle.ptpm_network.specs.Stands.{StandsAfter};
ghost use Rattle.ptpm_network.specs.Machine.{AreInTime, state_after, step, taken};
ghost use Rattle.ptpm_network.specs.Meanwhile.{IsAnswerableMeanwhile};
ghost use Rattle.ptpm_network.specs.Network.{AtPort, AtSession, IsNetwork, Network, expected_ports, ports};
ghost use Rattle.ptpm_network.specs.RunningNetwork.{RunningNetwork, network_run};
ghost use Rattle.ptpm_network.specs.Stands.{AreFirsts, Stands};
ghost use Rattle.ptpm_network.specs.State.{Frame, NetworkState, ReplyTo, RequestOf, is_idle, is_late, issued};
ghost use Rattle.ptpm_network.specs.Way.{Hop, IsAnswerable, IsWay, IsWayIn, LinksHaveAtMost, RunsToReport, handed_in, made_each_way};

/// One copy each way suffices. After every list of events, for the last request that a session has begun:
/// - its copies and those of the reply are never late, and a delivery is not refused if there is room for frames;
/// - a copy of the request may come in at a port of the session's target, in the clock's domain or as a repeat. Let the target have the
///   port that is asked. Then it makes a copy of the reply for each other end of that port's link, and no other frame;
/// - a copy of the reply may come in at the session, in the session's domain and while the request is not reported. It is
///   reported then, and the session waits for nothing after it.
///
/// If a session takes its target to have as many ports as it has, the target has each port that is asked.
pub fn one_copy_each_way()
    ensures in_time { (w : NetworkState) (s : ℕ) →
        (is_late w (RequestOf s (issued w s)) ≡ false)
        × (is_late w (ReplyTo s (issued w s)) ≡ false) }
    ensures taken { (N : Network) (w : NetworkState) (n : ℕ) (f : Frame) →
        frame_at w.frames n ≡ Some f → HasRoom w → refusal N w (Deliver n) ≡ None }
    ensures request { (N : Network) (es : List Event) (n s port : ℕ) (f : Frame) →
        IsNetwork N → AllByRecursion IsInRange es → s < N.sessions →
        frame_at (state_after N es).frames n ≡ Some f → f.end ≡ AtPort (N.session s).target port →
        f.origin ≡ RequestOf s (issued (state_after N es) s) →
        LastIsForOne N s ((state_after N es).session s).begun →
        IsHeardBy N (state_after N es) s f.octets → HasRoom (state_after N es) →
        HasReplied N (state_after N es) (step N (state_after N es) (Deliver n)) s port f.octets }
    ensures reply { (N : Network) (es : List Event) (n s : ℕ) (f : Frame) →
        IsNetwork N → AllByRecursion IsInRange es → s < N.sessions →
        frame_at (state_after N es).frames n ≡ Some f → f.end ≡ AtSession s →
        f.origin ≡ ReplyTo s (issued (state_after N es) s) →
        is_idle ((state_after N es).session s) ≡ false →
        domain_number f.octets ≡ ((state_after N es).session s).domain
        → HasRoom (state_after N es) →
        HasReported (state_after N es) (step N (state_after N es) (Deliver n)) s }
    ensures for_one { (N : Network) (es : List Event) (s : ℕ) →
        IsNetwork N → AllByRecursion IsInRange es → s < N.sessions →
        expected_ports N s ≡ ports N (N.session s).target →
        LastIsForOne N s ((state_after N es).session s).begun }
{}

/// Nothing deadlocks. Take any list of events, late deliveries among them. After it let a session wait for a report and have an
/// attempt left. Let a way lead to its target over clocks that pass messages on, and let there be room for the frames. Then the
/// request can be answered. The session sends it. One copy comes in at each clock of the way and at the target. Then one comes
/// in at each clock on the way back and at the session. No other event happens between. Then the request is reported. No event
/// of these is refused, and no delivery is late, so a running network goes through them as the machine does.
pub fn answerable_along_a_way()
    ensures answered { (N : Network) (es : List Event) (s : ℕ) (hops : List Hop) (port ends : ℕ) →
        IsNetwork N → AllByRecursion IsInRange es → s < N.sessions →
        is_idle ((state_after N es).session s) ≡ false
        → 0 < ((state_after N es).session s).attempts_left →
        IsWay N (state_after N es) s hops port → LinksHaveAtMost N ends →
        length (state_after N es).frames + made_each_way ends hops ≤ frames_limit →
        IsAnswerable N (state_after N es) s hops port }
    ensures runs { (N : Network) (w : NetworkState) (s : ℕ) (hops : List Hop) (port : ℕ)
        (a : IsAnswerable N w s hops port) →
        AllByRecursion IsInRange (Send s ∷ handed_in a.deliveries)
        × (taken N w (Send s ∷ handed_in a.deliveries) ≡ Send s ∷ handed_in a.deliveries)
        × AreInTime N w (Send s ∷ handed_in a.deliveries) }
{}

/// A network that runs, whose clocks and sessions distinguish requests by sequenceIds and octets, answers no less. Let it be
/// at a state that the machine reaches, such as after any events without a late delivery. If a request can be answered along
/// a way there, it is.
pub fn running_networks_answer()
    ensures answered { (N : Network) (es : List Event) (first : ℕ → PortIdentity → ℕ)
        (r : RunningNetwork) (s : ℕ) (hops : List Hop) (port ends : ℕ) →
        IsNetwork N → AllByRecursion IsInRange es →
        AreFirsts N first → Stands N first r (state_after N es) → s < N.sessions →
        is_idle ((state_after N es).session s) ≡ false
        → 0 < ((state_after N es).session s).attempts_left →
        IsWay N (state_after N es) s hops port → LinksHaveAtMost N ends →
        length (state_after N es).frames + made_each_way ends hops ≤ frames_limit →
        RunsToReport N r s hops port }
    ensures after { (N : Network) (past : List Event) (r : RunningNetwork) (s : ℕ)
        (hops : List Hop) (port ends : ℕ) →
        StandsAfter N past r → s < N.sessions →
        is_idle ((state_after N past).session s) ≡ false
        → 0 < ((state_after N past).session s).attempts_left →
        IsWay N (state_after N past) s hops port → LinksHaveAtMost N ends →
        length (state_after N past).frames + made_each_way ends hops ≤ frames_limit →
        RunsToReport N r s hops port }
{}

/// A session that has used up its attempts, or is in another domain, is not kept from its answer for good. While it waits for a
/// report, no event that resumes or retunes it is refused. Let a way lead to its target, and let there be room for the frames.
/// Whatever else happens meanwhile and leaves the way open, the request can be answered once the session
/// - is resumed with an attempt or more, if the way is in its domain;
/// - is retuned, if the way is in the domain that it is retuned to and it has an attempt left;
/// - is retuned and resumed.
///
/// A network that runs, after any events without a late delivery, runs to the report from there.
pub fn answerable_once_moved()
    ensures resumed { (N : Network) (es : List Event) (s : ℕ) (hops : List Hop) (port ends : ℕ) →
        IsNetwork N → AllByRecursion IsInRange es → s < N.sessions →
        is_idle ((state_after N es).session s) ≡ false → LinksHaveAtMost N ends →
        length (state_after N es).frames + made_each_way ends hops ≤ frames_limit →
        (attempts : ℕ) → 0 < attempts → IsWay N (state_after N es) s hops port →
        IsAnswerableMeanwhile N (state_after N (es ++ Resume s attempts ∷ [])) s hops port ends }
    ensures retuned { (N : Network) (es : List Event) (s : ℕ) (hops : List Hop) (port ends : ℕ) →
        IsNetwork N → AllByRecursion IsInRange es → s < N.sessions →
        is_idle ((state_after N es).session s) ≡ false → LinksHaveAtMost N ends →
        length (state_after N es).frames + made_each_way ends hops ≤ frames_limit →
        (domain : ℕ) → 0 < ((state_after N es).session s).attempts_left →
        IsWayIn N (state_after N es) s domain hops port →
        IsAnswerableMeanwhile N (state_after N (es ++ Retune s domain ∷ [])) s hops port ends }
    ensures moved { (N : Network) (es : List Event) (s : ℕ) (hops : List Hop) (port ends : ℕ) →
        IsNetwork N → AllByRecursion IsInRange es → s < N.sessions →
        is_idle ((state_after N es).session s) ≡ false → LinksHaveAtMost N ends →
        length (state_after N es).frames + made_each_way ends hops ≤ frames_limit →
        (domain attempts : ℕ) → 0 < attempts →
        IsWayIn N (state_after N es) s domain hops port →
        IsAnswerableMeanwhile N (state_after N (es ++ Retune s domain ∷ Resume s attempts ∷ [])) s hops port ends }
    ensures taken { (N : Network) (w : NetworkState) (s domain attempts : ℕ) →
        s < N.sessions → is_idle (w.session s) ≡ false →
        (taken N w (Resume s attempts ∷ []) ≡ Resume s attempts ∷ [])
        × (taken N w (Retune s domain ∷ Resume s attempts ∷ [])
        ≡ Retune s domain ∷ Resume s attempts ∷ []) }
    ensures runs_resumed { (N : Network) (past : List Event) (r : RunningNetwork) (s : ℕ)
        (hops : List Hop) (port ends : ℕ) →
        StandsAfter N past r → s < N.sessions →
        is_idle ((state_after N past).session s) ≡ false → LinksHaveAtMost N ends →
        length (state_after N past).frames + made_each_way ends hops ≤ frames_limit →
        (attempts : ℕ) → 0 < attempts → IsWay N (state_after N past) s hops port →
        RunsToReport N (network_run N r (Resume s attempts ∷ [])) s hops port }
    ensures runs_moved { (N : Network) (past : List Event) (r : RunningNetwork) (s : ℕ)
        (hops : List Hop) (port ends : ℕ) →
        StandsAfter N past r → s < N.sessions →
        is_idle ((state_after N past).session s) ≡ false → LinksHaveAtMost N ends →
        length (state_after N past).frames + made_each_way ends hops ≤ frames_limit →
        (domain attempts : ℕ) → 0 < attempts →
        IsWayIn N (state_after N past) s domain hops port →
        RunsToReport N (network_run N r (Retune s domain ∷ Resume s attempts ∷ [])) s hops port }
{}
