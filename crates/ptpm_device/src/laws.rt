//! What a clock promises whose device has a say. Each law is the contract of a function that does nothing, and speaks only of
//! the definitions.

ghost use Rattle.std.specs.Prelude.{◌≡◌, ◌∷◌, [], ◌++◌, ℕ, true, false, length, List, None, Some};
ghost use Rattle.ptpm_codec.specs.declared.error.ErrorId.{ErrorId};
ghost use Rattle.ptpm_codec.specs.declared.identity.PortIdentity.{PortIdentity};
ghost use Rattle.ptpm_codec.specs.declared.message.Action.TheVariants as actions;
ghost use Rattle.ptpm_codec.specs.declared.message.Message.{Message};
ghost use Rattle.ptpm_codec.specs.Reading.{message_of};
ghost use Rattle.ptpm_data.specs.ManagementId.{row_of};
ghost use Rattle.ptpm_data.specs.Members.{DataSetsValue};
ghost use Rattle.ptpm_data.specs.declared.rights.Rights.{Rights};
ghost use Rattle.ptpm_data.specs.Refusals.{refusal_of};
ghost use Rattle.ptpm_data.specs.Request.{RequestValue};
ghost use Rattle.ptpm_table.specs.Rendering.{rendered};
ghost use Rattle.ptpm_agent.specs.declared.verdict.Verdict.TheVariants as verdicts;
ghost use Rattle.ptpm_agent.specs.Addressing.{heard_of, request_of};
ghost use Rattle.ptpm_agent.specs.Laws.{StandsAt, due_messages, initial_clock_state};
ghost use Rattle.ptpm_agent.specs.Once.{Delivery, History, RequestCopy, copy_of, greatest, initial_history, joins};
ghost use Rattle.ptpm_agent.specs.Observing.{AreOfOneRequest};
ghost use Rattle.ptpm_agent.specs.Turn.{Clock, State, judged, numbered_from, outbox_of, turn};
ghost use Rattle.ptpm_device.specs.declared.relayed.RelayedId.{RelayedId};
ghost use Rattle.ptpm_device.specs.Asking.{asked, is_asked, is_read, is_relayed, is_wanted, is_wanted_new, wanted};
ghost use Rattle.ptpm_device.specs.Decided.{ComeInTime, Delivered, Happening, after_decision, after_happenings, decided_in_place, due_decided};
ghost use Rattle.ptpm_device.specs.Relayed.{is_change, refusal_in, relayed, relayed_refusal};
ghost use Rattle.ptpm_device.specs.Saying.{Agrees, Gives, Objects, Say, after_reply, most_given, reply_given, reply_relayed, turn_said};

/// At-most-once execution at a clock whose device has a say. Let any list of datagrams come in at a fresh clock, with whatever
/// the device says of each. Between them the host may observe, and the owner may change something at the device itself. Let each
/// copy of a manager's request come in time. Then:
/// - the data sets are those after the accepted requests, in order of first acceptance. Each observation and each change at the
///   device is in its place. Each request is applied once, or answered once by the device or the row of its id, and then it changes nothing;
/// - each copy is sent the reply that is due to it, and nothing else is sent for it. If the device answered the request, that is its
///   error or its value, whatever it says of a later copy;
/// - a copy of a request that is not newly accepted changes neither data sets nor entries.
pub fn at_most_once_decided()
    ensures sets { (rows : List RelayedId) (c : Clock) (first : PortIdentity → ℕ) (d : DataSetsValue)
        (xs : List Happening) →
        ComeInTime first rows c (length d.ports) (initial_history d) xs →
        (after_happenings rows c (initial_clock_state d) xs).sets
        ≡ (decided_in_place rows c (length d.ports) (initial_history d) xs).sets }
    ensures outbox { (rows : List RelayedId) (c : Clock) (first : PortIdentity → ℕ) (d : DataSetsValue)
        (xs : List Happening) (x : Delivery) (say : Say) (k : RequestCopy) →
        copy_of c (length d.ports) x ≡ Some k →
        ComeInTime first rows c (length d.ports) (initial_history d) (xs ++ Delivered x say ∷ []) →
        outbox_of (turn_said rows c (after_happenings rows c (initial_clock_state d) xs) say x.ingress x.datagram)
        ≡ due_messages c k
        (due_decided rows c (decided_in_place rows c (length d.ports) (initial_history d) xs) k say) }
    ensures repeats { (rows : List RelayedId) (c : Clock) (first : PortIdentity → ℕ) (d : DataSetsValue)
        (xs : List Happening) (x : Delivery) (say : Say) (k : RequestCopy) →
        copy_of c (length d.ports) x ≡ Some k →
        ComeInTime first rows c (length d.ports) (initial_history d) (xs ++ Delivered x say ∷ []) →
        joins (decided_in_place rows c (length d.ports) (initial_history d) xs) k ≡ false →
        after_happenings rows c (initial_clock_state d) (xs ++ Delivered x say ∷ [])
        ≡ after_happenings rows c (initial_clock_state d) xs }
    ensures stands { (rows : List RelayedId) (c : Clock) (first : PortIdentity → ℕ) (s : State) (h : History)
        (xs : List Happening) →
        StandsAt first s h → ComeInTime first rows c (length h.sets.ports) h xs →
        StandsAt first (after_happenings rows c s xs)
        (decided_in_place rows c (length h.sets.ports) h xs) }
    ensures kept { (rows : List RelayedId) (c : Clock) (ports : ℕ) (h : History) (k j : RequestCopy) (say later : Say)
        (xs : List Happening) →
        let since = decided_in_place rows c ports (after_decision rows c h k say) xs in
        joins h k ≡ true → AreOfOneRequest k j → greatest k.heard.source since.accepted ≡ k.index →
        due_decided rows c since j later ≡ due_decided rows c h k say }
{}

/// The device is asked to carry out each new SET or COMMAND that nothing refuses before, and nothing else. The row of its id may
/// refuse it, or without a row the clock itself. It is asked for the value of each GET that is answered, of an id that the clock
/// lacks, and of nothing else. Of a request without a row, an objection to anything else doesn't count, nor does a value of
/// anything else. Whatever it says, the verdict and what is passed on are those of the clock without a device.
pub fn device_judged_last()
    ensures asked { (rows : List RelayedId) (c : Clock) (s : State) (v : Message) → is_asked rows c s v ≡ true →
        (judged c s v ≡ verdicts.AnsweredNew) × ((is_change (request_of v).action ≡ true)
        × (refusal_in rows (request_of v) (c.rights v.source) ≡ None)) }
    ensures asked_each { (rows : List RelayedId) (c : Clock) (s : State) (v : Message) → judged c s v ≡ verdicts.AnsweredNew →
        is_change (request_of v).action ≡ true → refusal_in rows (request_of v) (c.rights v.source) ≡ None →
        is_asked rows c s v ≡ true }
    ensures wanted { (c : Clock) (s : State) (v : Message) → is_wanted c s v ≡ true →
        (is_read (judged c s v) ≡ true) × (((request_of v).action ≡ actions.Get)
        × (row_of (request_of v).id ≡ None)) }
    ensures wanted_each { (c : Clock) (s : State) (v : Message) → is_read (judged c s v) ≡ true →
        (request_of v).action ≡ actions.Get → row_of (request_of v).id ≡ None →
        is_wanted c s v ≡ true }
    ensures not_asked { (rows : List RelayedId) (c : Clock) (s : State) (error : ErrorId) (ingress : ℕ)
        (datagram : List ℕ) → is_relayed rows datagram ≡ false → asked rows c s datagram ≡ None →
        turn_said rows c s (Objects error) ingress datagram ≡ turn c s ingress datagram }
    ensures not_wanted { (rows : List RelayedId) (c : Clock) (s : State) (octets : List ℕ) (ingress : ℕ)
        (datagram : List ℕ) → is_relayed rows datagram ≡ false → wanted c s datagram ≡ None →
        turn_said rows c s (Gives octets) ingress datagram ≡ turn c s ingress datagram }
    ensures verdict { (rows : List RelayedId) (c : Clock) (s : State) (say : Say) (ingress : ℕ)
        (datagram : List ℕ) →
        (turn_said rows c s say ingress datagram).verdict ≡ (turn c s ingress datagram).verdict }
    ensures forwards { (rows : List RelayedId) (c : Clock) (s : State) (say : Say) (ingress : ℕ)
        (datagram : List ℕ) →
        (turn_said rows c s say ingress datagram).forwards ≡ (turn c s ingress datagram).forwards }
{}

/// If the device is asked for a value, what it gives is the answer: one RESPONSE of the clock. To a manager's numbered GET it has
/// 130 octets at most, since it is kept. Of more than that the answer is RESPONSE_TOO_BIG, and this is kept. To any other GET it
/// has 1,418 at most. The data sets stay.
pub fn given_is_answered()
    ensures answer { (rows : List RelayedId) (c : Clock) (s : State) (ingress : ℕ) (datagram octets : List ℕ) (v : Message) →
        message_of datagram ≡ Some v → is_wanted c s v ≡ true →
        (turn_said rows c s (Gives octets) ingress datagram).replies
        ≡ rendered c.identity (heard_of v)
        (reply_given (most_given (judged c s v)) (request_of v) octets) ingress }
    ensures sets { (rows : List RelayedId) (c : Clock) (s : State) (ingress : ℕ) (datagram octets : List ℕ) →
        (turn_said rows c s (Gives octets) ingress datagram).next.sets
        ≡ (turn c s ingress datagram).next.sets }
    ensures kept { (rows : List RelayedId) (c : Clock) (s : State) (ingress : ℕ) (datagram octets : List ℕ) (v : Message) →
        message_of datagram ≡ Some v → is_wanted_new c s v ≡ true →
        (turn_said rows c s (Gives octets) ingress datagram).next
        ≡ after_reply s (numbered_from v) (reply_given 130 (request_of v) octets) }
{}

/// A new SET or COMMAND of one of the device's own ids is answered once, and that reply is kept. The data sets stay. If the row of
/// the id refuses it, its error is the reply, and the device is not asked. Otherwise the device is asked, and the reply is what it
/// says.
pub fn relayed_is_decided()
    ensures turned { (rows : List RelayedId) (c : Clock) (s : State) (say : Say) (ingress : ℕ)
        (datagram : List ℕ) (v : Message) (r : RelayedId) →
        message_of datagram ≡ Some v → judged c s v ≡ verdicts.AnsweredNew →
        relayed rows (request_of v) ≡ Some r →
        let reply = reply_relayed (relayed_refusal r (request_of v) (c.rights v.source)) (request_of v) say in
        turn_said rows c s say ingress datagram ≡ record {
          verdict = verdicts.AnsweredNew;
          forwards = [];
          replies = rendered c.identity (heard_of v) reply ingress;
          next = after_reply s (numbered_from v) reply;
        } }
    ensures refused { (rows : List RelayedId) (c : Clock) (s : State) (v : Message) (r : RelayedId)
        (error : ErrorId) → relayed rows (request_of v) ≡ Some r →
        relayed_refusal r (request_of v) (c.rights v.source) ≡ Some error →
        is_asked rows c s v ≡ false }
    ensures asked { (rows : List RelayedId) (c : Clock) (s : State) (v : Message) (r : RelayedId) →
        judged c s v ≡ verdicts.AnsweredNew → relayed rows (request_of v) ≡ Some r →
        relayed_refusal r (request_of v) (c.rights v.source) ≡ None →
        is_asked rows c s v ≡ true }
{}

/// A clock whose device says nothing is as one that asks no device, except of the SETs and COMMANDs of the device's own ids.
/// Without such ids there are none, and what is refused before is what the clock itself refuses.
pub fn silent_device()
    ensures silent { (rows : List RelayedId) (c : Clock) (s : State) (ingress : ℕ) (datagram : List ℕ)
        → is_relayed rows datagram ≡ false
        → turn_said rows c s Agrees ingress datagram ≡ turn c s ingress datagram }
    ensures none { (datagram : List ℕ) → is_relayed [] datagram ≡ false }
    ensures own { (q : RequestValue) (rights : Rights) → refusal_in [] q rights ≡ refusal_of q rights }
{}
