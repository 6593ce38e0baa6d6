//! An asker's desk is a session of the network. The law is the contract of a function that does nothing, and speaks only of the
//! definitions.

ghost use Rattle.std.specs.Prelude.{◌≡◌, ◌<◌, [], ℕ, List, None, Option};
ghost use Rattle.std.specs.List.{Contains};
ghost use Rattle.ptpm_asker.specs.Allowed.{Input, Opening, all_moves, begins_driven, desk_of};
ghost use Rattle.ptpm_asker.specs.Desk.{AreAllowed, Desk, IsTold, Note, new_run};
ghost use Rattle.ptpm_manager.specs.declared.report.Outcome.{Outcome};
ghost use Rattle.ptpm_manager.specs.declared.setup.Setup.{Setup};
ghost use Rattle.ptpm_manager.specs.Session.{SessionValue, fresh};
ghost use Rattle.ptpm_network.specs.Network.{IsNetwork, Network};
ghost use Rattle.ptpm_restarts.specs.ActsAsIfNever.{ActsAsIfNever};
ghost use Rattle.ptpm_restarts.specs.AsIfNever.{AreTimely};
ghost use Rattle.ptpm_restarts.specs.DeskIncidents.{AreStepsOf, DeskStep, IsKeptReply, IsSetUpFor, Mirrors, SaveInTime, desk_incidents, desk_moves};
ghost use Rattle.ptpm_restarts.specs.Incidents.{Incident, after_incidents};
ghost use Rattle.ptpm_restarts.specs.Restarting.{RestartingNetwork, initial_restarting};

/// What is allowed at an asker's desk are incidents of its session that save in time:
/// - a desk of a new session begins as the session does;
/// - the session stays that of the desk. The same request is under way, it is stored as the file has it, and what the desk hears is
///   reported. A message that leaves is the same octet for octet, and its request is stored before. A request none of whose messages
///   left has not begun in the network;
/// - by `asker_is_allowed` of ptpm_asker, so is all that an asker and its driver do, wherever the program ends;
/// - so if no frame is late, `restarts_among_acts` holds of the network;
/// - and what is noted as reported is the reply that was kept for the request of this number.
///
/// The premises, beside those of `restarts_among_acts`:
/// - each session that the desk goes on as is for the same manager, clock, ports and hops. They begin 1,000,000 requests at most;
/// - a request names every port, unless its id is of a port;
/// - as long as there is no file, the desk starts at the session's next number and does not crash. A question under another number is
///   no session's;
/// - what leaves has room among the frames, and an answer that is taken is one of them;
/// - only what did not leave is said to have had no way;
/// - what is let go is at most 32,765 requests after the latest that was reported;
/// - nobody else moves the session, or writes its file.
pub fn allowed_saves_in_time()
    ensures first { (N : Network) (s : ℕ) (setup : Setup) (domain : ℕ) →
        IsSetUpFor (N.session s).setup setup → setup.first ≡ (N.session s).setup.first →
        Mirrors N s (record { live = fresh setup domain; file = None; notes = []; run = new_run }) (initial_restarting N) }
    ensures in_time { (N : Network) (s : ℕ) (d : Desk) (k : RestartingNetwork) (xs : List DeskStep) →
        s < N.sessions → Mirrors N s d k → AreAllowed d (desk_moves xs) → AreStepsOf N s d k xs →
        SaveInTime N s d k xs }
    ensures of_asker { (N : Network) (s : ℕ) (k : RestartingNetwork)
        (o : Opening) (file : Option SessionValue) (notes : List Note) (inputs : List Input) (xs : List DeskStep) →
        s < N.sessions → Mirrors N s (desk_of (begins_driven o file notes)) k →
        desk_moves xs ≡ all_moves (begins_driven o file notes) inputs →
        AreStepsOf N s (desk_of (begins_driven o file notes)) k xs →
        SaveInTime N s (desk_of (begins_driven o file notes)) k xs }
    ensures as_if_never { (N : Network) (s : ℕ) (d : Desk) (xs : List DeskStep) →
        IsNetwork N → SaveInTime N s d (initial_restarting N) xs →
        AreTimely N (initial_restarting N) (desk_incidents N s d (initial_restarting N) xs) →
        ActsAsIfNever N (desk_incidents N s d (initial_restarting N) xs)
        (after_incidents N (initial_restarting N) (desk_incidents N s d (initial_restarting N) xs)) }
    ensures kept { (N : Network) (is : List Incident) (k : RestartingNetwork) (s : ℕ) (d : Desk) (tag number : ℕ) (outcome : Outcome)
        (a : ActsAsIfNever N is k) →
        s < N.sessions → Mirrors N s d k → Contains d.notes (IsTold tag number outcome) →
        IsKeptReply N s (a.account s).accepted number outcome }
{}
