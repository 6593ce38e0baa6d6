//! What holds for names, rates, what a clock sends, what is passed on, and a clock that is saved while it goes on. Each law is the contract of a function that does nothing.

ghost use Rattle.std.specs.FinMap.{get};
ghost use Rattle.std.specs.Prelude.{◌≡◌, ◌≢◌, ◌≤◌, ◌++◌, ℕ, IsSomeAnd, List, Some, codes, false, length, true};
ghost use Rattle.ptpm_codec.specs.declared.error.ErrorId.{ErrorId};
ghost use Rattle.ptpm_codec.specs.declared.message.Message.{Message};
ghost use Rattle.ptpm_codec.specs.Message.{error_number};
ghost use Rattle.ptpm_codec.specs.Reading.{message_of};
ghost use Rattle.ptpm_codec.specs.Message as codec;
ghost use Rattle.ptpm_agent.specs.declared.verdict.Verdict.{Verdict};
ghost use Rattle.ptpm_data.specs.declared.members.Member.{Member};
ghost use Rattle.ptpm_data.specs.declared.start.StartError.TheVariants.{BadValue};
ghost use Rattle.ptpm_data.specs.MemberNames.{member_name};
ghost use Rattle.ptpm_manager.specs.declared.error.BeginError.{BeginError};
ghost use Rattle.ptpm_manager.specs.declared.error.BeginError.TheVariants.{OutOfMemory};
ghost use Rattle.ptpm_manager.specs.declared.error.GiveUpRefusal.{GiveUpRefusal};
ghost use Rattle.ptpm_manager.specs.declared.error.RestoreError.{RestoreError};
ghost use Rattle.ptpm_manager.specs.declared.error.SendError.{SendError};
ghost use Rattle.ptpm_manager.specs.declared.receiving.Reason.{Reason};
ghost use Rattle.ptpm_manager.specs.ErrorText.{begin_error_text, give_up_refusal_text, restore_error_text, send_error_text};
ghost use Rattle.ptpm_saved.specs.declared.error.RestoreError.{RestoreError as ClockImageError};
ghost use Rattle.ptpm_saved.specs.ErrorText.{restore_error_text as clock_image_error_text};
ghost use Rattle.ptpm_host.specs.AnswerNames.{answer_name, reason_word, verdict_word, words_in_capitals};
ghost use Rattle.ptpm_host.specs.ErrorNames.{error_name};
ghost use Rattle.ptpm_members.specs.IdNames.{capitals, id_name};
ghost use Rattle.ptpm_host.specs.Numbers.{begin_number, give_up_number, image_number, reason_number, restore_number, resume_number, values_number, verdict_number};
ghost use Rattle.ptpm_host.specs.MostSent.{SendsNoMore, SendsNoMoreAlone, SendsNoMoreHere};
ghost use Rattle.ptpm_data.specs.Members.{IsConsistent};
ghost use Rattle.ptpm_data.specs.ObservationBack.{Observation};
ghost use Rattle.ptpm_table.specs.declared.serial.Serial.TheVariants.{Newer};
ghost use Rattle.ptpm_table.specs.Entries.{Entry};
ghost use Rattle.ptpm_table.specs.Serial.{serial_of};
ghost use Rattle.ptpm_agent.specs.Observing.{moved_state};
ghost use Rattle.ptpm_agent.specs.Turn.{judged};
ghost use Rattle.ptpm_device.specs.Saying.{Say, turn_said};
ghost use Rattle.ptpm_saved.specs.Batching.{Call, IsDevice, all_events, as_device, begun, calls_each};
ghost use Rattle.ptpm_saved.specs.Saving.{IsAsIfPowered};
ghost use Rattle.ptpm_saved.specs.SavingClock.{Datagram};
ghost use Rattle.ptpm_host.specs.Clock.{DeviceClock};
ghost use Rattle.ptpm_host.specs.Coming.{ClockBatch, ClockState, Coming, Decides, Undertakes, after_coming, coming_process, is_held_by, messages_for, undertakes};
ghost use Rattle.ptpm_host.specs.KeptBatch.{IsGivenOut};
ghost use Rattle.ptpm_host.specs.PassedOn.{NotTwice};
ghost use Rattle.ptpm_host.specs.Rate.{WithinRate};
ghost use Rattle.ptpm_host.specs.Undertaking.{AsksAtMostOnce, IsInItsDomain, is_taken_meanwhile};

/// The number of a verdict, of a reason and of a refusal has its name, in words of capitals: `ANSWERED_NEW` for `AnsweredNew`.
/// A malformed datagram has the name of its cause. The number of a member has its name after `BAD_`. A managementErrorId that
/// a message can name has the name that it is written by. A name of an id, of an answer or of an error has at most 27 octets.
pub fn names_law()
    ensures verdict { (v : Verdict) → answer_name (verdict_number v) ≡ verdict_word v }
    ensures reason { (r : Reason) → answer_name (reason_number r) ≡ reason_word r }
    ensures begin { (e : BeginError)
        → e ≢ OutOfMemory
        → answer_name (begin_number e) ≡ Some (words_in_capitals (begin_error_text e)) }
    ensures send { (e : SendError)
        → answer_name (resume_number e) ≡ Some (words_in_capitals (send_error_text e)) }
    ensures give_up { (e : GiveUpRefusal)
        → answer_name (give_up_number e) ≡ Some (words_in_capitals (give_up_refusal_text e)) }
    ensures restore { (e : RestoreError)
        → e ≢ RestoreError.OutOfMemory
        → answer_name (restore_number e) ≡ Some (words_in_capitals (restore_error_text e)) }
    ensures image { (e : ClockImageError)
        → answer_name (image_number e) ≡ Some (words_in_capitals (clock_image_error_text e)) }
    ensures member { (m : Member)
        → answer_name (values_number (BadValue m))
        ≡ Some (codes "BAD_" ++ capitals (member_name m)) }
    ensures error { (e : ErrorId) → error_name (error_number e) ≡ Some (codec.error_name e) }
    // no name is longer than LOG_MIN_PDELAY_REQ_INTERVAL
    ensures id_size { (id : ℕ) (name : List ℕ) → id_name id ≡ Some name → length name ≤ 27 }
    ensures answer_size { (number : ℕ) (name : List ℕ)
        → answer_name number ≡ Some name
        → length name ≤ 27 }
    ensures error_size { (number : ℕ) (name : List ℕ)
        → error_name number ≡ Some name
        → length name ≤ 27 }
{}

/// No datagram has a clock send more messages than `most_sent` answers, nor has one of its owner.
pub fn most_sent_law()
    ensures said { SendsNoMore }
    ensures turned { SendsNoMoreAlone }
    ensures here { SendsNoMoreHere }
{}

/// A message that a table let through is not let through again within its time.
pub fn passed_on_law()
    ensures { NotTwice }
{}

/// A bucket gives no more tokens than a second's, and those that the time has brought.
pub fn rate_law()
    ensures { WithinRate }
{}

/// A clock may take datagrams while it is saved, with what its device says and what its owner asks. A change may be under way at
/// the device meanwhile. It is one that saves before it answers, at other events: what waits comes in late, at its save. So that
/// clock's law holds for it, whatever is called, in whatever order, and whenever power fails. Anybody else's datagram is judged
/// and answered by the data sets alone.
pub fn coming_clock_law()
    ensures device { (c : DeviceClock) (s : ClockState) (calls : List (Call Coming Observation))
        → IsConsistent s.state.sets
        → IsDevice (coming_process c) (is_held_by c) s calls }
    ensures powered { (c : DeviceClock) (s : ClockState) (calls : List (Call Coming Observation))
        → IsConsistent s.state.sets
        → IsAsIfPowered (coming_process c) s
        (all_events (coming_process c) (is_held_by c) (begun s) calls)
        (as_device (coming_process c) (calls_each (coming_process c) (is_held_by c) (begun s) calls)) }
    ensures alone { (c : DeviceClock) (s t : ClockState) (x : Coming)
        → is_held_by c x ≡ false
        → s.state.sets ≡ t.state.sets
        → messages_for c s x ≡ messages_for c t x }
    ensures given { (c : DeviceClock) (b : ClockBatch)
        → IsGivenOut (coming_process c) (is_held_by c) b }
{}

/// A clock's device is asked for each change at most once, at the first save that has it. It is asked only for changes that the clock
/// undertook. So it is whatever is called, in whatever order, and whenever power fails. What is undertaken is newer than what the
/// clock keeps of its manager. It is under way as it was sent. If the decision is its new answer, the clock keeps its number. So no
/// copy of it is undertaken again while that is kept.
pub fn undertaken_at_most_once()
    ensures once { (c : DeviceClock) (s : ClockState) (calls : List (Call Coming Observation))
        → IsConsistent s.state.sets
        → AsksAtMostOnce c s calls }
    ensures newer { (c : DeviceClock) (s : ClockState) (datagram : List ℕ) (v : Message) (e : Entry)
        → undertakes c s datagram ≡ true
        → message_of datagram ≡ Some v
        → get s.state.entries v.source ≡ Some e
        → serial_of e.number v.number ≡ Newer }
    ensures same { (c : DeviceClock) (s : ClockState) (port : ℕ) (datagram : List ℕ) (v : Message)
        → undertakes c s datagram ≡ true
        → message_of datagram ≡ Some v
        → IsSomeAnd (after_coming c s (Undertakes port datagram)).under_way
        (λ x. message_of x.1 ≡ Some v) }
    ensures kept { (c : DeviceClock) (s : ClockState) (x : Datagram) (say : Say) (v : Message)
        → s.under_way ≡ Some x
        → message_of x.1 ≡ Some v
        → judged c.clock s.state v ≡ Verdict.AnsweredNew
        → IsSomeAnd (get (after_coming c s (Decides say)).state.entries v.source)
        (λ e. e.number ≡ v.number) }
{}

/// A clock stays in the domain of the change that is under way: by what it takes meanwhile, and by what its host observes. So the
/// decision never answers OtherDomain.
pub fn decided_in_its_domain()
    ensures undertaken { (c : DeviceClock) (s : ClockState) (port : ℕ) (datagram : List ℕ)
        → undertakes c s datagram ≡ true
        → IsInItsDomain (after_coming c s (Undertakes port datagram)) }
    ensures stays { (c : DeviceClock) (s : ClockState) (x : Coming)
        → is_taken_meanwhile c s x ≡ true
        → IsInItsDomain s
        → IsInItsDomain (after_coming c s x) }
    ensures observed { (s : ClockState) (o : Observation)
        → IsInItsDomain s
        → IsInItsDomain (record s { state = moved_state o.clock o.ports s.state }) }
    ensures decided { (c : DeviceClock) (s : ClockState) (x : Datagram) (say : Say)
        → IsInItsDomain s
        → s.under_way ≡ Some x
        → (turn_said c.rows c.clock s.state say x.0 x.1).verdict ≢ Verdict.OtherDomain }
{}
