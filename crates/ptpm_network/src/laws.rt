//! What the network promises over every list of events. Each law is the contract of a function that does nothing, and
//! speaks only of the definitions.

ghost use Rattle.std.specs.Prelude.{◌≡◌, ◌↔◌, ◌+◌, ◌-◌, ◌++◌, ◌∷◌, ◌<◌, ◌≤◌, ℕ, false, length, List, None, Ok, Some};
ghost use Rattle.std.specs.Result.{result_err};
ghost use Rattle.std.specs.List.{AllByRecursion};
ghost use Rattle.ptpm_codec.specs.declared.identity.PortIdentity.{PortIdentity};
ghost use Rattle.ptpm_codec.specs.Layout.{boundary_hops};
ghost use Rattle.ptpm_data.specs.declared.ports.TheConstants.{INLINE_PORTS};
ghost use Rattle.ptpm_agent.specs.Forwarding.{forwarded};
ghost use Rattle.ptpm_agent.specs.Laws.{StandsAt, initial_clock_state, turns};
ghost use Rattle.ptpm_agent.specs.Once.{Accepted, History, RequestCopy, initial_history, copy_of, kept_reply};
ghost use Rattle.ptpm_agent.specs.Turn.{Clock, State, turn};
ghost use Rattle.ptpm_agent.specs.Window.{AreNumbered, IsInTime, KeepsWindow};
ghost use Rattle.ptpm_manager.specs.declared.receiving.Received.TheVariants as received;
ghost use Rattle.ptpm_manager.specs.declared.report.Report.{Report};
ghost use Rattle.ptpm_manager.specs.Receiving.{received_of};
ghost use Rattle.ptpm_network.specs.Events.{Event, IsInRange, frame_at, frames_of_event, refusal};
ghost use Rattle.ptpm_network.specs.RunningNetwork.{Happened, RunningNetwork, after_turn, initial_network, network_event, network_run};
ghost use Rattle.ptpm_network.specs.Invariant.{IsReached};
ghost use Rattle.ptpm_network.specs.Machine.{AreInTime, answer_messages, delivered_at_clock, delivery, happens, is_late_delivery, report_from, run, state_after, taken};
ghost use Rattle.ptpm_network.specs.Network.{AtPort, AtSession, ClocksHaveAtMost, IsNetwork, Network, manager, ports};
ghost use Rattle.ptpm_network.specs.Stands.{AreFirsts, Stands};
ghost use Rattle.ptpm_network.specs.State.{Frame, NetworkState, accepted_at_target, copies_at, greatest_accepted, history, initial_state, is_late, issued, outcomes_kept, session_value};

/// The invariant holds after every list of events, late deliveries among them.
#[tactic(auto, using(crate::proofs::Reaching::reached))]
pub fn every_schedule()
    ensures { (N : Network) (es : List Event) →
        IsNetwork N → AllByRecursion IsInRange es →
        IsReached N (state_after N es) }
{}

/// One request at a time. After every list of events, late deliveries among them, for each session:
/// - the greatest index that its target accepted is the number of its requests, or one less. Exactly the requests from 1 to
///   that index were accepted;
/// - it has as many reports as requests, or one less. They are the outcomes of the replies that are kept for its first
///   requests, in order.
pub fn one_request_at_a_time()
    ensures accepted_begun { (N : Network) (es : List Event) (s : ℕ) →
        IsNetwork N → AllByRecursion IsInRange es → s < N.sessions →
        greatest_accepted N (state_after N es) s ≤ issued (state_after N es) s }
    ensures begun_accepted { (N : Network) (es : List Event) (s : ℕ) →
        IsNetwork N → AllByRecursion IsInRange es → s < N.sessions →
        issued (state_after N es) s ≤ greatest_accepted N (state_after N es) s + 1 }
    ensures accepted { (N : Network) (es : List Event) (s k : ℕ) →
        IsNetwork N → AllByRecursion IsInRange es → s < N.sessions →
        ((0 < k) × (k ≤ greatest_accepted N (state_after N es) s))
        ↔ ((e : Accepted) × (kept_reply (manager N s) k (accepted_at_target N (state_after N es) s)
        ≡ Some e)) }
    ensures reported_begun { (N : Network) (es : List Event) (s : ℕ) →
        IsNetwork N → AllByRecursion IsInRange es → s < N.sessions →
        length ((state_after N es).session s).reports ≤ issued (state_after N es) s }
    ensures begun_reported { (N : Network) (es : List Event) (s : ℕ) →
        IsNetwork N → AllByRecursion IsInRange es → s < N.sessions →
        issued (state_after N es) s ≤ length ((state_after N es).session s).reports + 1 }
    ensures reports { (N : Network) (es : List Event) (s : ℕ) →
        IsNetwork N → AllByRecursion IsInRange es → s < N.sessions →
        ((state_after N es).session s).reports
        ≡ outcomes_kept (manager N s) (accepted_at_target N (state_after N es) s)
        (length ((state_after N es).session s).reports) }
{}

/// A frame's boundaryHops are those that it was first sent with, less its forwardings, which are never more than those.
pub fn hops_lost()
    ensures hops { (N : Network) (es : List Event) (n : ℕ) (f : Frame) →
        IsNetwork N → AllByRecursion IsInRange es →
        frame_at (state_after N es).frames n ≡ Some f
        → boundary_hops f.octets ≡ f.first_hops - f.forwardings }
    ensures forwardings { (N : Network) (es : List Event) (n : ℕ) (f : Frame) →
        IsNetwork N → AllByRecursion IsInRange es →
        frame_at (state_after N es).frames n ≡ Some f → f.forwardings ≤ f.first_hops }
{}

/// An event makes at most as many frames as the ports of a clock let it. So there are never over 400,000 frames where no clock has
/// more than eight ports, like those of a network file.
pub fn few_frames()
    ensures event { (N : Network) (most : ℕ) (es : List Event) (e : Event) →
        IsNetwork N → ClocksHaveAtMost N most → 1 ≤ most → AllByRecursion IsInRange es →
        IsInRange e → refusal N (state_after N es) e ≡ None →
        length (happens N (state_after N es) e).frames
        ≤ length (state_after N es).frames + frames_of_event most }
    ensures ever { (N : Network) (es : List Event) →
        IsNetwork N → ClocksHaveAtMost N INLINE_PORTS → AllByRecursion IsInRange es →
        length (state_after N es).frames ≤ 400000 }
{}

/// The window of 65,536 sequenceIds in which a clock distinguishes new requests from old is never left:
/// - a copy of a manager's request that is not late lies in it, whatever came before;
/// - each copy that came in at a clock has the sequenceId that its index gives, late or not;
/// - if no delivery of a list of events was late, all of them lie in the window;
/// - a clock that takes its turn at each of them then has the data sets after its managers' accepted requests. Each of these is
///   applied once, in order of first acceptance.
pub fn in_the_window()
    ensures copy { (N : Network) (es : List Event) (first : ℕ → PortIdentity → ℕ) (n c port : ℕ)
        (f : Frame) (copy : RequestCopy) →
        IsNetwork N → AllByRecursion IsInRange es →
        AreFirsts N first →
        frame_at (state_after N es).frames n ≡ Some f → f.end ≡ AtPort c port
        → is_late (state_after N es) f.origin ≡ false →
        copy_of (N.clock c) (ports N c) (delivery port f) ≡ Some copy →
        IsInTime (first c) (history N (state_after N es) c) copy }
    ensures numbered { (N : Network) (es : List Event) (first : ℕ → PortIdentity → ℕ) (c : ℕ) →
        IsNetwork N → AllByRecursion IsInRange es →
        AreFirsts N first → c < N.clocks →
        AreNumbered (first c) (copies_at N (state_after N es) c) }
    ensures copies { (N : Network) (es : List Event) (c : ℕ) →
        IsNetwork N → AllByRecursion IsInRange es →
        AreInTime N (initial_state N) es → c < N.clocks →
        KeepsWindow (N.clock c) (initial_history (N.start c)) (copies_at N (state_after N es) c) }
    ensures sets { (N : Network) (es : List Event) (first : ℕ → PortIdentity → ℕ) (c : ℕ) →
        IsNetwork N → AllByRecursion IsInRange es →
        AreFirsts N first →
        AreInTime N (initial_state N) es → c < N.clocks →
        (turns (N.clock c) (initial_clock_state (N.start c)) ((state_after N es).arrivals c)).sets
        ≡ (history N (state_after N es) c).sets }
{}

/// Let a clock be at its history, and the copy in its window. The machine makes frames of exactly what the clock sends in one
/// turn. That is the copies that are passed on, and the reply: the one due to a numbered copy, or what any other request reads.
pub fn outbox_of_turns()
    ensures forwards { (c : Clock) (first : PortIdentity → ℕ) (s : State) (h : History)
        (ingress : ℕ) (f : Frame) → StandsAt first s h →
        (turn c s ingress f.octets).forwards ≡ forwarded c.identity ingress h.sets f.octets }
    ensures replies { (c : Clock) (first : PortIdentity → ℕ) (s : State) (h : History) (ingress : ℕ)
        (f : Frame) → StandsAt first s h →
        ((k : RequestCopy) → copy_of c (length h.sets.ports) (delivery ingress f) ≡ Some k →
        IsInTime first h k) →
        (turn c s ingress f.octets).replies ≡ answer_messages c h ingress f.octets
        (copy_of c (length h.sets.ports) (delivery ingress f)) }
{}

/// The clocks of a running network distinguish requests by sequenceIds. The network is at the machine's state when both start.
/// If it is there before a clock's turn at a frame that is not late, it is there after the turn.
pub fn clocks_stand()
    ensures first { (N : Network) (first : ℕ → PortIdentity → ℕ)
        → Stands N first (initial_network N) (initial_state N) }
    ensures turned { (N : Network) (es : List Event) (first : ℕ → PortIdentity → ℕ) (r : RunningNetwork)
        (n c ingress : ℕ) (f : Frame) →
        IsNetwork N → AllByRecursion IsInRange es →
        AreFirsts N first → Stands N first r (state_after N es) →
        frame_at (state_after N es).frames n ≡ Some f → f.end ≡ AtPort c ingress
        → is_late (state_after N es) f.origin ≡ false →
        Stands N first (after_turn N r c ingress f)
        (delivered_at_clock N (state_after N es) c ingress f) }
{}

/// Let a frame that is not late come in at a session. By its octets the session takes it for the answer to its request exactly
/// if it belongs to the reply to that request. It then reports what the machine reports.
pub fn answers_by_octets()
    ensures { (N : Network) (es : List Event) (n s : ℕ) (f : Frame) (report : Report) →
        IsNetwork N → AllByRecursion IsInRange es →
        frame_at (state_after N es).frames n ≡ Some f → f.end ≡ AtSession s
        → is_late (state_after N es) f.origin ≡ false →
        (report_from s ((state_after N es).session s) f ≡ Some report)
        ↔ (received_of (session_value (N.session s) ((state_after N es).session s)) f.octets
        ≡ received.Answered report) }
{}

/// Of a list of events those before the first that is refused are taken. That is the whole list if none of it is refused in its
/// turn. What the other laws ask of a list holds for those that are taken. Of two lists, one after another, the first is taken
/// and what is taken of the second, if the first is taken whole.
#[tactic(auto, using(crate::proofs::Taking::events_taken_laws))]
pub fn events_taken()
    ensures whole { (N : Network) (w : NetworkState) (es : List Event) →
        ((front rest : List Event) (e : Event) → es ≡ front ++ e ∷ rest
        → refusal N (run N w front) e ≡ None) →
        taken N w es ≡ es }
    ensures in_range { (N : Network) (w : NetworkState) (es : List Event) →
        AllByRecursion IsInRange es → AllByRecursion IsInRange (taken N w es) }
    ensures in_time { (N : Network) (w : NetworkState) (es : List Event) →
        AreInTime N w es → AreInTime N w (taken N w es) }
    ensures appended { (N : Network) (w : NetworkState) (front rest : List Event) →
        taken N w front ≡ front → taken N w (front ++ rest)
        ≡ front ++ taken N (run N w front) rest }
{}

/// Two lists of events happen one after another: the second goes on from the state to which the first leads. If neither has a
/// late delivery, both together have none.
#[tactic(auto, using(crate::proofs::Taking::events_appended_laws))]
pub fn events_appended()
    ensures run { (N : Network) (w : NetworkState) (front rest : List Event) →
        run N w (front ++ rest) ≡ run N (run N w front) rest }
    ensures in_time { (N : Network) (w : NetworkState) (front rest : List Event) →
        AreInTime N w (front ++ rest) ↔ (AreInTime N w front × AreInTime N (run N w front) rest) }
{}

/// A running network, whose clocks and sessions distinguish requests by sequenceIds and octets, goes through every list of
/// events as the machine does:
/// - if it is at a state that the machine reaches, it refuses the events that the machine refuses, for the same reasons;
/// - after an event that is not refused, and is no late delivery, it is at the machine's next state;
/// - so from any such state it goes through the events up to the first that is refused. It is then at the state to which they
///   lead the machine, if none of them delivers a frame late.
pub fn running_networks_stand()
    ensures refused { (N : Network) (es : List Event) (first : ℕ → PortIdentity → ℕ)
        (r : RunningNetwork) (e : Event) →
        IsNetwork N → AllByRecursion IsInRange es →
        Stands N first r (state_after N es) →
        result_err (network_event N r e) ≡ refusal N (state_after N es) e }
    ensures happened { (N : Network) (es : List Event) (first : ℕ → PortIdentity → ℕ)
        (r : RunningNetwork) (e : Event) (h : Happened) →
        IsNetwork N → AllByRecursion IsInRange es →
        AreFirsts N first → Stands N first r (state_after N es) →
        IsInRange e → network_event N r e ≡ Ok h
        → is_late_delivery (state_after N es) e ≡ false →
        Stands N first h.network (happens N (state_after N es) e) }
    ensures every { (N : Network) (past es : List Event) (first : ℕ → PortIdentity → ℕ)
        (r : RunningNetwork) →
        IsNetwork N → AllByRecursion IsInRange past →
        AreFirsts N first → Stands N first r (state_after N past) →
        AllByRecursion IsInRange es
        → AreInTime N (state_after N past) (taken N (state_after N past) es) →
        Stands N first (network_run N r es)
        (state_after N (past ++ taken N (state_after N past) es)) }
{}
