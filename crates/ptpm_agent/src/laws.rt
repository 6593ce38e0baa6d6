//! What a clock's agent promises over whole lists of datagrams. Each law is the contract of a function that does nothing,
//! and speaks only of the definitions.

ghost use Rattle.std.specs.Prelude.{◌≡◌, ◌∷◌, [], ◌++◌, ℕ, true, false, length, List, None, Some};
ghost use Rattle.std.specs.FinMap.{get};
ghost use Rattle.std.specs.List.{Contains};
ghost use Rattle.ptpm_codec.specs.declared.error.ErrorId.{ErrorId};
ghost use Rattle.ptpm_codec.specs.declared.identity.PortIdentity.{PortIdentity};
ghost use Rattle.ptpm_codec.specs.declared.message.Message.{Message};
ghost use Rattle.ptpm_codec.specs.Reading.{message_of};
ghost use Rattle.ptpm_data.specs.Members.{DataSetsValue};
ghost use Rattle.ptpm_data.specs.Replies.{reply_to};
ghost use Rattle.ptpm_data.specs.Reply.{Answer, Refused, ReplyValue};
ghost use Rattle.ptpm_agent.specs.Turn.{Clock, NumberedRequest, State, entry_of, judged, outbox_of, reply_by, turn};
ghost use Rattle.ptpm_agent.specs.Once.{Delivery, History, RequestCopy, after_copy, applied_once, copies, copy_of, due_reply, greatest, initial_history, joins};
ghost use Rattle.ptpm_agent.specs.Window.{AreNumbered, IsInTime, KeepsWindow};
ghost use Rattle.ptpm_agent.specs.Observing.{AreOfOneRequest, ComeInTime, Delivered, Happening, after_happenings, applied_in_place, deliveries_alone};
ghost use Rattle.ptpm_agent.specs.CarriedOut.{AreOfOthers, after_requests, carried_in, carried_in_turns};
ghost use Rattle.ptpm_agent.specs.Laws.{AreOfManagers, StandsAt, after_each, due_messages, initial_clock_state, turns};

/// At-most-once execution. Let any list of datagrams come in at a fresh clock. Let each copy of a manager's request among
/// them have the sequenceId that its index gives. Let its index, as it comes, be at most 32,768 less and at most 32,767 more
/// than the greatest accepted one of that manager. Then:
/// - the data sets are those after the accepted requests, each applied once, in order of first acceptance;
/// - each copy is sent the reply that is due to it, and nothing else is sent for it;
/// - a copy of a request that is not newly accepted changes neither data sets nor entries.
pub fn at_most_once()
    ensures sets { (c : Clock) (first : PortIdentity → ℕ) (d : DataSetsValue) (xs : List Delivery) →
        let came_in = copies c (length d.ports) xs in
        AreNumbered first came_in → KeepsWindow c (initial_history d) came_in →
        (turns c (initial_clock_state d) xs).sets
        ≡ (applied_once c (initial_history d) came_in).sets }
    ensures outbox { (c : Clock) (first : PortIdentity → ℕ) (d : DataSetsValue) (xs : List Delivery)
        (x : Delivery) (k : RequestCopy) →
        let came_in = copies c (length d.ports) xs in
        copy_of c (length d.ports) x ≡ Some k →
        AreNumbered first (came_in ++ k ∷ []) →
        KeepsWindow c (initial_history d) (came_in ++ k ∷ []) →
        outbox_of (turn c (turns c (initial_clock_state d) xs) x.ingress x.datagram)
        ≡ due_messages c k (due_reply c (applied_once c (initial_history d) came_in) k) }
    ensures repeats { (c : Clock) (first : PortIdentity → ℕ) (d : DataSetsValue)
        (xs : List Delivery) (x : Delivery) (k : RequestCopy) →
        let came_in = copies c (length d.ports) xs in
        copy_of c (length d.ports) x ≡ Some k →
        AreNumbered first (came_in ++ k ∷ []) →
        KeepsWindow c (initial_history d) (came_in ++ k ∷ []) →
        joins (applied_once c (initial_history d) came_in) k ≡ false →
        turns c (initial_clock_state d) (xs ++ x ∷ []) ≡ turns c (initial_clock_state d) xs }
{}

/// At-most-once execution at a clock whose host observes. Let there be any list of deliveries and observations at a fresh
/// clock. Let each copy of a manager's request among them come in time, as in `at_most_once`. Then:
/// - the data sets are those after the accepted requests, in order of first acceptance, with each observation in its place among
///   them. Each request is applied once, to the data sets as they were then;
/// - each copy is sent the reply that is due to it, and nothing else is sent for it;
/// - a copy of a request that is not newly accepted changes neither data sets nor entries.
///
/// A copy of the latest accepted request of its manager is due one reply, whatever has happened since. It was made from the data
/// sets as they were when the request was accepted. For example, the reply to a GET shows what was true then. A list of
/// deliveries without observations is the case of `at_most_once`.
pub fn at_most_once_observed()
    ensures sets { (c : Clock) (first : PortIdentity → ℕ) (d : DataSetsValue)
        (xs : List Happening) →
        ComeInTime first c (length d.ports) (initial_history d) xs →
        (after_happenings c (initial_clock_state d) xs).sets
        ≡ (applied_in_place c (length d.ports) (initial_history d) xs).sets }
    ensures outbox { (c : Clock) (first : PortIdentity → ℕ) (d : DataSetsValue)
        (xs : List Happening) (x : Delivery) (k : RequestCopy) →
        copy_of c (length d.ports) x ≡ Some k →
        ComeInTime first c (length d.ports) (initial_history d) (xs ++ Delivered x ∷ []) →
        outbox_of (turn c (after_happenings c (initial_clock_state d) xs) x.ingress x.datagram)
        ≡ due_messages c k
        (due_reply c (applied_in_place c (length d.ports) (initial_history d) xs) k) }
    ensures repeats { (c : Clock) (first : PortIdentity → ℕ) (d : DataSetsValue)
        (xs : List Happening) (x : Delivery) (k : RequestCopy) →
        copy_of c (length d.ports) x ≡ Some k →
        ComeInTime first c (length d.ports) (initial_history d) (xs ++ Delivered x ∷ []) →
        joins (applied_in_place c (length d.ports) (initial_history d) xs) k ≡ false →
        after_happenings c (initial_clock_state d) (xs ++ Delivered x ∷ [])
        ≡ after_happenings c (initial_clock_state d) xs }
    ensures kept { (c : Clock) (ports : ℕ) (h : History) (k j : RequestCopy) (xs : List Happening) →
        let since = applied_in_place c ports (after_copy c h k) xs in
        joins h k ≡ true → AreOfOneRequest k j → greatest k.heard.source since.accepted ≡ k.index →
        due_reply c since j ≡ Some (reply_to k.request (c.rights k.heard.source) h.sets) }
    ensures stands { (c : Clock) (first : PortIdentity → ℕ) (s : State) (h : History)
        (xs : List Happening) →
        StandsAt first s h → ComeInTime first c (length h.sets.ports) h xs →
        StandsAt first (after_happenings c s xs)
        (applied_in_place c (length h.sets.ports) h xs) }
    ensures turns_alone { (c : Clock) (s : State) (xs : List Delivery) →
        after_happenings c s (deliveries_alone xs) ≡ turns c s xs }
    ensures applied_alone { (c : Clock) (ports : ℕ) (h : History) (xs : List Delivery) →
        applied_in_place c ports h (deliveries_alone xs) ≡ applied_once c h (copies c ports xs) }
    ensures time_alone { (first : PortIdentity → ℕ) (c : Clock) (ports : ℕ) (h : History)
        (xs : List Delivery) →
        AreNumbered first (copies c ports xs) → KeepsWindow c h (copies c ports xs) →
        ComeInTime first c ports h (deliveries_alone xs) }
{}

/// One delivery at a clock whose state agrees with a history. With a copy in time both go on and agree again, and the copy is
/// sent what is due. A datagram that is no copy of a manager's request changes neither data sets nor entries, whatever came
/// before. Nothing is said of a copy that is not in time.
pub fn one_delivery()
    ensures begins { (first : PortIdentity → ℕ) (d : DataSetsValue)
        → StandsAt first (initial_clock_state d) (initial_history d) }
    ensures stands { (c : Clock) (first : PortIdentity → ℕ) (s : State) (h : History) (x : Delivery)
        (k : RequestCopy) →
        StandsAt first s h → copy_of c (length h.sets.ports) x ≡ Some k → IsInTime first h k →
        StandsAt first (turn c s x.ingress x.datagram).next (after_copy c h k) }
    ensures replies { (c : Clock) (first : PortIdentity → ℕ) (s : State) (h : History)
        (x : Delivery) (k : RequestCopy) →
        StandsAt first s h → copy_of c (length h.sets.ports) x ≡ Some k → IsInTime first h k →
        (turn c s x.ingress x.datagram).replies ≡ due_messages c k (due_reply c h k) }
    ensures stays { (c : Clock) (first : PortIdentity → ℕ) (s : State) (h : History) (x : Delivery)
        (k : RequestCopy) →
        StandsAt first s h → copy_of c (length h.sets.ports) x ≡ Some k → IsInTime first h k →
        joins h k ≡ false →
        (turn c s x.ingress x.datagram).next ≡ s }
    ensures others { (c : Clock) (s : State) (x : Delivery) →
        copy_of c (length s.sets.ports) x ≡ None →
        (turn c s x.ingress x.datagram).next ≡ s }
{}

/// A clock keeps its number of ports, in each turn and with each request that it accepts.
pub fn ports_stay()
    ensures in_turn { (c : Clock) (s : State) (ingress : ℕ) (datagram : List ℕ) →
        length (turn c s ingress datagram).next.sets.ports ≡ length s.sets.ports }
    ensures accepted { (c : Clock) (h : History) (xs : List RequestCopy) →
        length (applied_once c h xs).sets.ports ≡ length h.sets.ports }
{}

/// A copy of a numbered request is never passed on.
pub fn no_copy_forwarded()
    ensures { (c : Clock) (s : State) (x : Delivery) (k : RequestCopy)
        → copy_of c (length s.sets.ports) x ≡ Some k →
        (turn c s x.ingress x.datagram).forwards ≡ [] }
{}

/// Nothing is ever kept of anyone except the configured managers.
pub fn only_managers()
    ensures first { (c : Clock) (d : DataSetsValue)
        → AreOfManagers c (initial_clock_state d).entries }
    ensures next { (c : Clock) (s : State) (ingress : ℕ) (datagram : List ℕ)
        → AreOfManagers c s.entries →
        AreOfManagers c (turn c s ingress datagram).next.entries }
{}

/// A request that is refused, for whatever reason and whoever sent it, leaves the data sets as they were. So they stay if the
/// reply to a datagram has an error.
pub fn refused_changes_no_data()
    ensures { (c : Clock) (s : State) (ingress : ℕ) (datagram : List ℕ) (v : Message)
        (r : ReplyValue) (a : Answer) (error : ErrorId) →
        message_of datagram ≡ Some v → reply_by (judged c s v) c s v ≡ Some r →
        Contains r.answers a → a.outcome ≡ Refused error →
        (turn c s ingress datagram).next.sets ≡ s.sets }
{}

/// Whatever comes in at a clock, in time or late, its data sets and what it keeps change only by turns that are `AnsweredNew`.
/// They are those that it had, after the requests of these turns. Each request is carried out as the clock was in its turn, in
/// their order. So a stranger's request, a repeat and what is passed on leave them. What is kept of a manager is the latest of
/// its requests among these, with the reply that was made to it then.
pub fn requests_of_turns()
    ensures one { (c : Clock) (s : State) (ingress : ℕ) (datagram : List ℕ) →
        (turn c s ingress datagram).next ≡ after_requests c s (carried_in c s datagram) }
    ensures each { (c : Clock) (s : State) (xs : List (ℕ × List ℕ)) →
        after_each c s xs ≡ after_requests c s (carried_in_turns c s xs) }
    ensures latest { (c : Clock) (s : State) (front rest : List NumberedRequest)
        (r : NumberedRequest) → AreOfOthers r.manager rest →
        get (after_requests c s (front ++ r ∷ rest)).entries r.manager
        ≡ Some (entry_of c (after_requests c s front) r) }
    ensures others { (c : Clock) (s : State) (rs : List NumberedRequest) (m : PortIdentity)
        → AreOfOthers m rs →
        get (after_requests c s rs).entries m ≡ get s.entries m }
{}
