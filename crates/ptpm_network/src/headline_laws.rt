//! The promise of a network, and the states of a running network in which it holds. Each law is the contract of a function that
//! does nothing, and speaks only of the definitions.

ghost use Rattle.std.specs.Prelude.{◌≡◌, ◌++◌, ◌∷◌, ◌<◌, [], ℕ, false, List, None, Ok, Some};
ghost use Rattle.std.specs.Result.{result_err};
ghost use Rattle.std.specs.List.{AllByRecursion, Contains};
ghost use Rattle.ptpm_codec.specs.declared.error.ErrorId.{ErrorId};
ghost use Rattle.ptpm_data.specs.Reply.{Answer, Refused, ReplyValue};
ghost use Rattle.ptpm_agent.specs.CarriedOut.{after_requests};
ghost use Rattle.ptpm_agent.specs.Laws.{due_messages};
ghost use Rattle.ptpm_agent.specs.Once.{Accepted, Delivery, History, RequestCopy, after_copy, copy_of, due_reply, greatest, kept_reply};
ghost use Rattle.ptpm_agent.specs.Turn.{Clock};
ghost use Rattle.ptpm_manager.specs.Receiving.{received_of};
ghost use Rattle.ptpm_network.specs.CarriedOut.{carried_by_event, carried_by_events};
ghost use Rattle.ptpm_network.specs.Copies.{IsCopyAt};
ghost use Rattle.ptpm_network.specs.Events.{Deliver, Event, IsInRange, Refusal, Stranger, is_forged, refusal};
ghost use Rattle.ptpm_network.specs.RunningNetwork.{Happened, RunningNetwork, hears, initial_network, network_event, network_run};
ghost use Rattle.ptpm_network.specs.Headline.{Headline};
ghost use Rattle.ptpm_network.specs.Machine.{AreInTime, arrives, happens, is_late_delivery, reply_frames, reply_origin, state_after, step, taken};
ghost use Rattle.ptpm_network.specs.Network.{IsNetwork, Network, ports};
ghost use Rattle.ptpm_network.specs.Stands.{StandsAfter};
ghost use Rattle.ptpm_network.specs.State.{Frame, NetworkState, history};

/// The headline. A network may lose, repeat, reorder or duplicate messages in any way, and anybody may replay them anywhere. Let
/// none arrive after more than 32,768 later requests of its manager. Then each clock's data sets are those after its managers'
/// delivered requests, each applied once in order of first acceptance. Repeats of the latest request get the one reply that is
/// kept, and repeats of older ones get none. Each manager reports those replies. Strangers and refused SETs change no data set.
pub fn headline()
    ensures { (N : Network) (events : List Event) (r : RunningNetwork) →
        StandsAfter N events r → Headline N (state_after N events) r }
{}

/// It holds of a network that starts, and, if it held before,
/// - after an event that is not refused, and is no late delivery;
/// - with an event more that is refused, for the machine's reason, and leaves the running network as it was;
/// - after a list of events, up to the first that is refused, if none of these delivers a frame late.
pub fn stands_after()
    ensures first { (N : Network) → IsNetwork N → StandsAfter N [] (initial_network N) }
    ensures event { (N : Network) (past : List Event) (r : RunningNetwork) (e : Event)
        (h : Happened) →
        StandsAfter N past r → IsInRange e →
        network_event N r e ≡ Ok h → is_late_delivery (state_after N past) e ≡ false →
        StandsAfter N (past ++ e ∷ []) h.network }
    ensures refused { (N : Network) (past : List Event) (r : RunningNetwork) (e : Event) →
        StandsAfter N past r →
        result_err (network_event N r e) ≡ refusal N (state_after N past) e }
    ensures unchanged { (N : Network) (past : List Event) (r : RunningNetwork) (e : Event)
        (reason : Refusal) →
        StandsAfter N past r → IsInRange e → refusal N (state_after N past) e ≡ Some reason →
        StandsAfter N (past ++ e ∷ []) r }
    ensures every { (N : Network) (past : List Event) (r : RunningNetwork) (es : List Event) →
        StandsAfter N past r → AllByRecursion IsInRange es →
        AreInTime N (state_after N past) (taken N (state_after N past) es) →
        StandsAfter N (past ++ taken N (state_after N past) es) (network_run N r es) }
{}

/// Repeats of the latest get the one reply kept, older ones none. In every state that the machine reaches, to a copy of a
/// manager's request
/// - that is the latest which its clock accepted of the manager, the reply is due that is kept for this request;
/// - that is older, none is;
/// - its delivery makes frames of what is due, and of nothing else.
#[tactic(auto, using(crate::proofs::Exchanging::one_reply_kept_laws))]
pub fn one_reply_kept()
    ensures latest { (N : Network) (es : List Event) (n c port : ℕ) (f : Frame)
        (copy : RequestCopy) →
        IsNetwork N → AllByRecursion IsInRange es →
        IsCopyAt N (state_after N es) n c port f copy →
        greatest copy.heard.source (history N (state_after N es) c).accepted ≡ copy.index →
        (kept : Accepted) × (kept_reply copy.heard.source copy.index
        (history N (state_after N es) c).accepted ≡ Some kept)
        × (due_reply (N.clock c) (history N (state_after N es) c) copy ≡ Some kept.reply) }
    ensures older { (c : Clock) (h : History) (copy : RequestCopy) →
        copy.index < greatest copy.heard.source h.accepted → due_reply c h copy ≡ None }
    ensures delivered { (N : Network) (w : NetworkState) (n c port : ℕ) (f : Frame)
        (copy : RequestCopy) →
        IsCopyAt N w n c port f copy →
        (happens N w (Deliver n)).frames ≡ w.frames ++ reply_frames N c (reply_origin f.origin)
        (due_messages (N.clock c) copy (due_reply (N.clock c) (history N w c) copy)) }
{}

/// Strangers change no data set: a stranger's event leaves the history of every clock, its data sets and what it accepted.
#[tactic(auto, using(crate::proofs::Standing::strangers_change_nothing_laws))]
pub fn strangers_change_nothing()
    ensures { (N : Network) (es : List Event) (c port : ℕ) (datagram : List ℕ) (clock : ℕ) →
        IsNetwork N → AllByRecursion IsInRange es → IsInRange (Stranger c port datagram) →
        history N (step N (state_after N es) (Stranger c port datagram)) clock
        ≡ history N (state_after N es) clock }
{}

/// A stranger's datagram that comes in at a session is ignored, and the network stays as it was. So no event of a network has one
/// come in there.
pub fn sessions_ignore_strangers()
    ensures { (N : Network) (events : List Event) (r : RunningNetwork) (s : ℕ) (datagram : List ℕ) →
        StandsAfter N events r → s < N.sessions → is_forged N datagram ≡ false →
        hears r s (received_of (r.session s) datagram) ≡ r }
{}

/// Refused SETs change no data set, nor does any other request with an error among its answers. What is no numbered copy of a
/// request leaves all that a clock has as it was.
pub fn refused_requests_change_no_data()
    ensures refused { (c : Clock) (h : History) (copy : RequestCopy) (r : ReplyValue) (a : Answer)
        (error : ErrorId) →
        due_reply c h copy ≡ Some r → Contains r.answers a → a.outcome ≡ Refused error →
        (after_copy c h copy).sets ≡ h.sets }
    ensures delivered { (N : Network) (w : NetworkState) (c : ℕ) (x : Delivery) (copy : RequestCopy)
        (r : ReplyValue) (a : Answer) (error : ErrorId) →
        copy_of (N.clock c) (ports N c) x ≡ Some copy →
        due_reply (N.clock c) (history N w c) copy ≡ Some r →
        Contains r.answers a → a.outcome ≡ Refused error →
        (history N (arrives w c x) c).sets ≡ (history N w c).sets }
    ensures no_copy { (N : Network) (w : NetworkState) (c : ℕ) (x : Delivery) →
        copy_of (N.clock c) (ports N c) x ≡ None →
        history N (arrives w c x) c ≡ history N w c }
{}

/// This holds without the premise. Whatever happens in a network, in time or late, a clock has what it had before, after the
/// requests of its turns that were `AnsweredNew`. Each is carried out as the clock was in its turn, in their order. Nothing else
/// changes its data sets or what it keeps, at one event or at a list of them. `requests_of_turns` of ptpm_agent says what such
/// requests leave.
pub fn requests_carried_out()
    ensures event { (N : Network) (r : RunningNetwork) (c : ℕ) (e : Event) (h : Happened) →
        network_event N r e ≡ Ok h →
        h.network.clock c
        ≡ after_requests (N.clock c) (r.clock c) (carried_by_event N r c e) }
    ensures events { (N : Network) (r : RunningNetwork) (c : ℕ) (es : List Event) →
        (network_run N r es).clock c
        ≡ after_requests (N.clock c) (r.clock c) (carried_by_events N r c es) }
{}
