//! What a journal says is so. Each law is the contract of a function that does nothing, and speaks only of the definitions.

ghost use Rattle.std.specs.Prelude.{◌≡◌, ◌⊎◌, ◌<◌, [], ℕ, List, None, Some, true};
ghost use Rattle.std.specs.List.{Contains};
ghost use Rattle.ptpm_codec.specs.SequenceNumber.{number_of};
ghost use Rattle.ptpm_data.specs.Request.{RequestValue};
ghost use Rattle.ptpm_agent.specs.Once.{Accepted, kept_reply};
ghost use Rattle.ptpm_manager.specs.declared.report.Outcome.{Outcome};
ghost use Rattle.ptpm_manager.specs.declared.setup.Setup.{Setup};
ghost use Rattle.ptpm_manager.specs.Session.{fresh};
ghost use Rattle.ptpm_network.specs.Network.{Network, manager};
ghost use Rattle.ptpm_asker.specs.Desk.{IsTold};
ghost use Rattle.ptpm_asker.specs.Question.{is_question};
ghost use Rattle.ptpm_journal.specs.declared.record.Note.{Note};
ghost use Rattle.ptpm_journal.specs.declared.record.Step.{Step};
ghost use Rattle.ptpm_apply.specs.Steps.{IsNoted};
ghost use Rattle.ptpm_apply.specs.Watching.{Sent};
ghost use Rattle.ptpm_restarts.specs.ActsAsIfNever.{ActsAsIfNever};
ghost use Rattle.ptpm_restarts.specs.DeskIncidents.{IsSetUpFor};
ghost use Rattle.ptpm_restarts.specs.Incidents.{Incident};
ghost use Rattle.ptpm_restarts.specs.Restarting.{RestartingNetwork};
ghost use Rattle.ptpm_changes.specs.Change.{IsCarriedOut, IsChange, IsInOrder};
ghost use Rattle.ptpm_changes.specs.Lane.{IsLane, Lane, messages_of, notes_of};

/// What is noted as the answer to a step is true, wherever programs, sessions and clocks crash. The clock of the step carried the
/// step's request out, once, as the one of the number that was noted. Its one answer then is the one that was noted. A new session without
/// a file is where this begins.
///
/// The premises, beside those of `restarts_among_acts` and `allowed_saves_in_time` of ptpm_restarts:
/// - when the change begins, nothing is under way in the session's file, but perhaps a question;
/// - nothing is begun but questions and steps;
/// - a step is noted as begun while nothing is under way, in the session or its file, and under the session's next number;
/// - what is noted as the answer to a step is what was heard, if the latest note has the step as begun under its number. What is heard
///   of a question is not noted.
pub fn told_is_carried_out()
    ensures first { (N : Network) (s : ℕ) (steps : ℕ → RequestValue) (setup : Setup) (domain : ℕ) →
        s < N.sessions → IsSetUpFor (N.session s).setup setup → setup.first ≡ (N.session s).setup.first →
        IsLane N s steps [] (record { file = None; value = fresh setup domain; happened = [] }) }
    ensures told { (N : Network) (s : ℕ) (steps : ℕ → RequestValue) (is : List Incident) (l : Lane)
        (k : RestartingNetwork) (a : ActsAsIfNever N is k) (tag number : ℕ) (outcome : Outcome) →
        IsLane N s steps is l → Contains (notes_of l) (IsTold tag number outcome) →
        IsCarriedOut N s (a.account s) (steps tag) number outcome }
{}

/// Nothing else is carried out. Each request of the session that its clock carried out is a question, or a step that is noted as begun
/// under its number.
pub fn only_steps_are_carried_out()
    ensures { (N : Network) (s : ℕ) (steps : ℕ → RequestValue) (is : List Incident) (l : Lane)
        (k : RestartingNetwork) (a : ActsAsIfNever N is k) (index : ℕ) (entry : Accepted) →
        IsLane N s steps is l → kept_reply (manager N s) index (a.account s).accepted ≡ Some entry →
        IsNoted steps (notes_of l) (record { number = number_of (N.session s).setup.first index; request = entry.request }) }
{}

/// Steps are carried out in their order, at one clock and over several. At any moment let a message have left. It is a question, or has
/// a step. Each step that precedes that one was carried out by then, and its answer has a value.
///
/// The premises are those of `told_is_carried_out` at each clock, and one journal, in which each note is one that a run may make. Each step
/// that is noted as begun at a clock is noted so in the journal. Each answer that the journal has is noted at its clock.
pub fn carried_out_in_order()
    ensures { (N : Network) (requests : ℕ → RequestValue) (steps : ℕ → Step) (session_of : ℕ → ℕ) (lane : ℕ → Lane)
        (journal : List Note) (is : List Incident) (k : RestartingNetwork) (a : ActsAsIfNever N is k) (v : ℕ) (m : Sent) →
        IsChange N requests steps session_of lane journal is → Contains (messages_of (lane (session_of v))) m →
        (is_question m.request ≡ true) ⊎ IsInOrder N requests steps session_of a.account m }
{}
