//! What a journal shows after any crash. Each law is the contract of a function that does nothing.

ghost use Rattle.std.specs.Prelude.{◌≡◌, List, ℕ, Some, get_or, length, take, true};
ghost use Rattle.ptpm_journal.specs.declared.record.Mark.{Mark};
ghost use Rattle.ptpm_journal.specs.declared.record.Note.{Note};
ghost use Rattle.ptpm_journal.specs.declared.record.Step.{Step};
ghost use Rattle.ptpm_journal.specs.declared.record.Record.{Record};
ghost use Rattle.ptpm_journal.specs.Frames.{AreBodies, AreReadFrom, IsBeginning, octets_of};
ghost use Rattle.ptpm_journal.specs.Replay.{AreAllowedFrom, AreThoseOf, marks_after, then_notes};
ghost use Rattle.ptpm_journal.specs.Octets.{Fits, body_of, found_as, found_in, is_short, kind_of};
ghost use Rattle.ptpm_journal.specs.InOrder.{AreAllowed, HasOneEach, IsBegunInOrder, IsInOrder, StaysTold};

/// Let each note of a journal be one that a run may make after those before it. A crash loses the latest one at most, and the rest is such
/// a journal. All that has to be done before a step is done, if the step is not untouched or was ever begun. Of a clock one step at most
/// is begun. An answer that is noted stays.
pub fn notes_in_order()
    ensures order { (steps : ℕ → Step) (journal : List Note) → AreAllowed steps journal → IsInOrder steps journal }
    ensures one { (steps : ℕ → Step) (journal : List Note) → AreAllowed steps journal → HasOneEach steps journal }
    ensures begun { (steps : ℕ → Step) (journal : List Note) → AreAllowed steps journal → IsBegunInOrder steps journal }
    ensures told { (steps : ℕ → Step) (journal : List Note) → AreAllowed steps journal → StaysTold journal }
{}

/// Let the steps have the marks that a journal says, and let further notes be taken, the first one first. So they are allowed after it, and the
/// steps have the marks that the journal says then.
pub fn marks_are_those_of_the_notes()
    ensures { (steps : List Step) (other : Step) (ms : List Mark) (journal notes : List Note) → length steps ≡ length ms
        → AreThoseOf journal ms → AreAllowed (λ t. get_or steps t other) journal → AreAllowedFrom steps ms notes
        → AreAllowed (λ t. get_or steps t other) (then_notes journal notes)
        × AreThoseOf (then_notes journal notes) (marks_after notes ms) }
{}

/// A record is read back from its body. All records of a file are read back, and of a file whose end was torn the first ones.
pub fn journal_is_read_back()
    ensures entry { (r : Record) (first second : List ℕ) → Fits r → is_short (kind_of r) (length first) (length second) ≡ true
        → found_in (body_of r first second) ≡ Some (found_as (kind_of r) r (length first) (length second)) }
    ensures whole { (bodies : List (List ℕ)) → AreBodies bodies → AreReadFrom 0 (octets_of 0 bodies) bodies }
    ensures torn { (bodies found : List (List ℕ)) (n : ℕ) → AreBodies bodies → AreReadFrom 0 (take n (octets_of 0 bodies)) found
        → IsBeginning found bodies }
{}
