//! What a journal and the file of a session show after any crash. Each law is the contract of a function that does nothing, and
//! speaks of the definitions alone. The moves of an asker and its driver are allowed (`asker_is_allowed` of ptpm_asker).

ghost use Rattle.std.specs.Prelude.{◌≡◌, ◌<◌, ℕ, ◌⊎◌, List, ◌∷◌, length, Option, Some, false, true};
ghost use Rattle.std.specs.List.{AllByRecursion};
ghost use Rattle.ptpm_data.specs.Request.{RequestValue};
ghost use Rattle.ptpm_manager.specs.declared.report.Outcome.{Outcome};
ghost use Rattle.ptpm_manager.specs.Session.{SessionValue};
ghost use Rattle.ptpm_asker.specs.Desk.{AreAllowed, HasRequest, IsBegun, IsFree, IsTold, Move, Note};
ghost use Rattle.ptpm_asker.specs.Question.{is_question};
ghost use Rattle.ptpm_apply.specs.Resuming.{HasNotLeft, desk_after, noted_begun, noted_told, opened_desk, standing_at, watch_after};
ghost use Rattle.ptpm_journal.specs.declared.record.Note.{Note as Noted};
ghost use Rattle.ptpm_journal.specs.declared.record.Step.{Step};
ghost use Rattle.ptpm_journal.specs.InOrder.{AreAllowed as AreNotesAllowed};
ghost use Rattle.ptpm_apply.specs.Steps.{AreAsked, HasBegun, IsNoted, IsSentInOrder};
ghost use Rattle.ptpm_apply.specs.Watching.{Sent, sent_in};
ghost use Rattle.ptpm_journal.specs.declared.record.Ending.TheVariants as endings;
ghost use Rattle.ptpm_apply.specs.declared.event.Event.{Event};
ghost use Rattle.ptpm_apply.specs.declared.stage.Stage.TheVariants as stages;
ghost use Rattle.ptpm_apply.specs.declared.stage.Then.TheVariants as thens;
ghost use Rattle.ptpm_apply.specs.Going.{AreDone};
ghost use Rattle.ptpm_apply.specs.Moves.{IsMove};
ghost use Rattle.ptpm_apply.specs.Rollout.{RolloutValue};
ghost use Rattle.ptpm_apply.specs.Runs.{IsRun, Turn, WasRead};

use crate::standing::Standing;

/// What is said of a step is so. Let a program begin with what the file of a session has, and with nothing noted. Let any moves
/// follow that are allowed at its desk, with crashes anywhere among them.
/// - If a step is said to be under way, the file has its request under its number.
/// - Let the latest note say that a step is begun. If it is said to be never begun, or its number to be taken, no message of it
///   left since that note.
/// - Let the latest note have the answer to a step. If the request under way is said to be that step's, it is the one that was
///   answered.
pub fn standing_is_right()
    ensures under_way { (file : Option SessionValue) (s : SessionValue) (moves : List Move)
        (number : ℕ) (q : RequestValue) (told : Option ℕ) →
        standing_at (noted_begun number q told) (desk_after file s moves) ≡ Standing.UnderWay →
        HasRequest (desk_after file s moves).file (Some q) number }
    ensures never_begun { (file : Option SessionValue) (s : SessionValue) (moves : List Move)
        (tag number : ℕ) (q : RequestValue) (told : Option ℕ) (further : List Note) →
        AreAllowed (opened_desk file s) moves →
        (desk_after file s moves).notes ≡ IsBegun tag number ∷ further → is_question q ≡ false →
        standing_at (noted_begun number q told) (desk_after file s moves) ≡ Standing.NeverBegun →
        HasNotLeft q (watch_after file s moves).left }
    ensures number_taken { (file : Option SessionValue) (s : SessionValue) (moves : List Move)
        (tag number : ℕ) (q : RequestValue) (told : Option ℕ) (further : List Note) →
        AreAllowed (opened_desk file s) moves →
        (desk_after file s moves).notes ≡ IsBegun tag number ∷ further → is_question q ≡ false →
        standing_at (noted_begun number q told) (desk_after file s moves) ≡ Standing.NumberTaken →
        HasNotLeft q (watch_after file s moves).left }
    ensures told { (file : Option SessionValue) (s : SessionValue) (moves : List Move)
        (tag number : ℕ) (outcome : Outcome) (further : List Note) →
        AreAllowed (opened_desk file s) moves →
        (desk_after file s moves).notes ≡ IsTold tag number outcome ∷ further →
        standing_at (noted_told number) (desk_after file s moves) ≡ Standing.Told →
        HasRequest (desk_after file s moves).file (watch_after file s moves).told number }
{}

/// No step is sent before it is noted as begun. Let nothing but a question be under way in the file at first, and let nothing but
/// questions and steps be begun. Then each message has a question, or a step that the notes have as begun under its number.
pub fn begun_before_sent()
    ensures { (steps : ℕ → RequestValue) (file : Option SessionValue) (s : SessionValue) (moves : List Move) →
        IsFree file → AreAllowed (opened_desk file s) moves → AreAsked steps moves →
        AllByRecursion (IsNoted steps (desk_after file s moves).notes) (sent_in (opened_desk file s) moves) }
{}

/// Whatever is sent is in order. Let each note of a journal be one that a run may make after those before it. Let the journal have what a
/// session noted as begun. Then each message that the session hands out has a question, or a step that the journal has as begun under its
/// number. Each step that has to be done before that step is done.
pub fn sent_in_order()
    ensures { (requests : ℕ → RequestValue) (steps : ℕ → Step) (journal : List Noted)
        (file : Option SessionValue) (s : SessionValue) (moves : List Move) →
        AreNotesAllowed steps journal → HasBegun journal (desk_after file s moves).notes →
        IsFree file → AreAllowed (opened_desk file s) moves → AreAsked requests moves →
        AllByRecursion (λ (m : Sent). (is_question m.request ≡ true) ⊎ IsSentInOrder requests steps journal m)
        (sent_in (opened_desk file s) moves) }
{}

/// A change ends as complete only if each step is done, and if after that each member was read with the value that was asked.
pub fn complete_was_read()
    ensures { (turns : List Turn) (o v : RolloutValue) (e : Event) (step : Option ℕ) → IsRun o turns → IsMove o e v
        → v.stage ≡ stages.Noting (thens.End endings.Complete step) → (place : ℕ) → place < length o.steps
        → AreDone o.journal × WasRead o.journal (record { before = o; event = e } ∷ turns) place }
{}
