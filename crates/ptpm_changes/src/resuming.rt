//! How a change goes on after a crash. The law is the contract of a function that does nothing, and speaks only of the definitions.

ghost use Rattle.std.specs.Prelude.{◌≡◌, ◌<◌, ◌++◌, ◌∷◌, [], ℕ, List, Some};
ghost use Rattle.ptpm_data.specs.Request.{RequestValue};
ghost use Rattle.ptpm_manager.specs.Session.{SessionValue};
ghost use Rattle.ptpm_network.specs.Events.{Send};
ghost use Rattle.ptpm_network.specs.Network.{Network};
ghost use Rattle.ptpm_asker.specs.Desk.{Crashes, Desk, Retunes, Sends, latest_number};
ghost use Rattle.ptpm_restarts.specs.AsIfNever.{IsPromisedRestarting};
ghost use Rattle.ptpm_restarts.specs.DeskIncidents.{Mirrors, Moves, desk_incidents};
ghost use Rattle.ptpm_restarts.specs.Incidents.{Happens, Incident, after_incidents};
ghost use Rattle.ptpm_restarts.specs.Restarting.{RestartingNetwork, initial_restarting};
ghost use Rattle.ptpm_changes.specs.Resume.{CanBeAnswered, opened_again};

/// A step that is under way when the program is ended can be answered. Let the file of its session have its request. The program is opened
/// again, saves, and may send in any domain that it chooses. Then the request is under way with its number. Let a way lead to its clock
/// in that domain, and let there be room for frames. Then one copy each way suffices. The session reports the answer, and waits for
/// nothing. Up to the message, these are the incidents of three moves at the desk: it crashes, is retuned, and sends.
///
/// The premises are those of `restarts_lose_messages_alone`, so nobody gives a request up, and no host observes. The session is that of the
/// desk, as `allowed_saves_in_time` says.
pub fn resume_can_end()
    ensures moves { (N : Network) (s : ℕ) (k : RestartingNetwork) (d : Desk) (file : SessionValue) (domain : ℕ) →
        d.file ≡ Some file →
        desk_incidents N s d k (Moves Crashes ∷ Moves (Retunes domain) ∷ Moves Sends ∷ [])
        ≡ opened_again s file k domain ++ Happens (Send s) ∷ [] }
    ensures answered { (N : Network) (s : ℕ) (is : List Incident) (d : Desk) (file : SessionValue) (request : RequestValue) (domain : ℕ) →
        s < N.sessions → IsPromisedRestarting N is → Mirrors N s d (after_incidents N (initial_restarting N) is) →
        d.file ≡ Some file → file.unanswered ≡ Some request →
        CanBeAnswered N s (is ++ opened_again s file (after_incidents N (initial_restarting N) is) domain)
        (after_incidents N (after_incidents N (initial_restarting N) is) (opened_again s file (after_incidents N (initial_restarting N) is) domain))
        request (latest_number file) }
{}
