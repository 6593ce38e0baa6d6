//! How a network goes on that was restarted. Each law is the contract of a function that does nothing, and speaks only of the definitions.

ghost use Rattle.std.specs.Prelude.{◌≡◌, ◌≢◌, ◌+◌, ◌%◌, ◌<◌, ◌≤◌, [], ◌∷◌, ℕ, length, List, map, Ok, Some, true};
ghost use Rattle.std.specs.FinMap.{get};
ghost use Rattle.std.specs.Result.{result_err};
ghost use Rattle.ptpm_codec.specs.declared.message.Message.{Message};
ghost use Rattle.ptpm_codec.specs.Reading.{message_of};
ghost use Rattle.ptpm_data.specs.Members.{DataSetsValue, IsConsistent};
ghost use Rattle.ptpm_data.specs.ObservationBack.{Observation, clock_observation, observed_each, port_observation};
ghost use Rattle.ptpm_table.specs.declared.reply_table.Look.TheVariants as looks;
ghost use Rattle.ptpm_table.specs.Entries.{Entry, HasEntry};
ghost use Rattle.ptpm_agent.specs.Addressing.{is_numbered};
ghost use Rattle.ptpm_agent.specs.Turn.{Clock, State, look, turn};
ghost use Rattle.ptpm_agent.specs.declared.verdict.Verdict.TheVariants as verdicts;
ghost use Rattle.ptpm_manager.specs.declared.ask.Ask.{Ask};
ghost use Rattle.ptpm_manager.specs.Session.{is_waiting, resumed, retuned};
ghost use Rattle.ptpm_network.specs.Events.{Begin, Deliver, Event, Resume, Retune, frame_at, frames_limit};
ghost use Rattle.ptpm_network.specs.Machine.{state_after};
ghost use Rattle.ptpm_network.specs.Network.{AtPort, Network};
ghost use Rattle.ptpm_network.specs.RunningNetwork.{Happened, Held, network_event};
ghost use Rattle.ptpm_network.specs.Way.{Hop, IsWay, LinksHaveAtMost, made_each_way};
ghost use Rattle.ptpm_restarts.specs.AsIfNever.{IsAsIfNever};
ghost use Rattle.ptpm_restarts.specs.GoingOn.{IsAnsweredAgain, IsCalm, StandsWithFewer, save_due};
ghost use Rattle.ptpm_restarts.specs.Incidents.{CrashClock, CrashSession, GivesUp, Happens, Observes, Incident, after_incidents, refused};
ghost use Rattle.ptpm_restarts.specs.Restarting.{RestartingNetwork, held_frames, running};
ghost use Rattle.ptpm_restarts.specs.Storage.{saved_as};

/// A request that was under way is answered by sending it again. Let a network be as one that never crashed. It is at the state
/// to which the events of that one lead the machine, with fewer frames. Let a session of it wait for an answer and be allowed to
/// send. Let a way lead to its target, and let there be room for the frames. Then the session saves, and each clock at which a
/// frame waits. The session sends its request. One copy each way comes in at the ends of the way, and each end saves then. At
/// last the session reports the answer, and waits for nothing. None of these deliveries is late.
pub fn answered_after_restarts()
    ensures stands { (N : Network) (is : List Incident) (k : RestartingNetwork)
        (a : IsAsIfNever N is k) → StandsWithFewer N (state_after N a.events) (running k) }
    ensures answered { (N : Network) (is : List Incident) (k : RestartingNetwork) (s : ℕ)
        (hops : List Hop) (port ends : ℕ) (a : IsAsIfNever N is k) →
        s < N.sessions →
        is_waiting (k.session s).live.session ≡ true → 0 < (k.session s).live.session.attempts_left →
        IsWay N (state_after N a.events) s hops port → LinksHaveAtMost N ends →
        length (held_frames k) + made_each_way ends hops ≤ frames_limit →
        IsAnsweredAgain N k s hops port }
{}

/// If no frame waits, no session has an unsaved change, and each change is saved at once, all is as in a network that runs. An
/// event is refused for the same reason, or makes the same of the network. After the save that it makes due this is so again.
pub fn saved_at_once()
    ensures refused { (N : Network) (k : RestartingNetwork) (e : Event) →
        IsCalm k → refused N k e ≡ result_err (network_event N (running k) e) }
    ensures happened { (N : Network) (k : RestartingNetwork) (e : Event) (h : Happened) →
        IsCalm k → network_event N (running k) e ≡ Ok h →
        (running (after_incidents N k (Happens e ∷ save_due k e)) ≡ h.network)
        × IsCalm (after_incidents N k (Happens e ∷ save_due k e)) }
{}

/// A session that starts again goes on with what it saved, in any domain and with any number of attempts. It is one that crashed,
/// was retuned and was resumed. A clock that starts again has the data sets that it saved, with what its host observes as it was then.
/// It is one that crashed, and whose host observed just that.
pub fn started_again()
    ensures domain { (N : Network) (k : RestartingNetwork) (s domain : ℕ) →
        s < N.sessions →
        (after_incidents N k (CrashSession s ∷ Happens (Retune s domain) ∷ [])).session s
        ≡ saved_as (record ((k.session s).stored) { session = retuned (k.session s).stored.session domain }) }
    ensures attempts { (N : Network) (k : RestartingNetwork) (s domain attempts : ℕ) →
        s < N.sessions → is_waiting (k.session s).stored.session ≡ true →
        (after_incidents N k (CrashSession s ∷ Happens (Retune s domain) ∷ Happens (Resume s attempts) ∷ [])).session s
        ≡ saved_as (record ((k.session s).stored) { session = resumed (retuned (k.session s).stored.session domain) attempts }) }
    ensures observed { (N : Network) (k : RestartingNetwork) (c : ℕ) (d : DataSetsValue) (os : List Observation) →
        c < N.clocks → IsConsistent d → (k.clock c).stored.sets ≡ observed_each os d →
        (after_incidents N k (CrashClock c
        ∷ Observes c (record { clock = clock_observation d; ports = map port_observation d.ports }) ∷ [])).clock c
        ≡ saved_as (record { sets = d; entries = (k.clock c).stored.entries }) }
{}

/// What is not saved has not happened. Let a clock answer a request for the first time, or let a session begin a request or give one
/// up. Let it crash before it saves. If nothing was unsaved before, the network is then as it was: no frame has left.
pub fn undone_before_the_save()
    ensures clock { (N : Network) (k : RestartingNetwork) (n c port : ℕ) (h : Held) →
        frame_at k.frames n ≡ Some h → h.end ≡ AtPort c port →
        (turn (N.clock c) (k.clock c).live port h.octets).verdict ≡ verdicts.AnsweredNew →
        k.waiting ≡ [] → k.clock c ≡ saved_as (k.clock c).live →
        after_incidents N k (Happens (Deliver n) ∷ CrashClock c ∷ []) ≡ k }
    ensures session { (N : Network) (k : RestartingNetwork) (s : ℕ) (a : Ask) →
        k.session s ≡ saved_as (k.session s).live →
        after_incidents N k (Happens (Begin s a) ∷ CrashSession s ∷ []) ≡ k }
    ensures given_up { (N : Network) (k : RestartingNetwork) (s : ℕ) →
        k.session s ≡ saved_as (k.session s).live →
        after_incidents N k (GivesUp s ∷ CrashSession s ∷ []) ≡ k }
{}

/// A manager that does not know its numbers may ask with any, and go on from one that is answered. Let a clock reply to a manager's
/// request whose target is this clock. Then the request's sequenceId is the latest that the clock accepted of that manager. The next
/// 32,767 sequenceIds are new there. The premise is that sequenceIds have 16 bits, those that the clock keeps too.
pub fn answer_shows_latest()
    ensures latest { (c : Clock) (s : State) (ingress : ℕ) (datagram : List ℕ) (v : Message) →
        message_of datagram ≡ Some v → is_numbered c v ≡ true → v.number < 65536 →
        ((e : Entry) → get s.entries v.source ≡ Some e → e.number < 65536) →
        (turn c s ingress datagram).replies ≢ [] →
        HasEntry (turn c s ingress datagram).next.entries v.source v.number }
    ensures next { (c : Clock) (s : State) (w : Message) (n k : ℕ) →
        is_numbered c w ≡ true → HasEntry s.entries w.source (n % 65536) →
        w.number ≡ (n + k) % 65536 → 0 < k → k ≤ 32767 →
        look c s w ≡ looks.New }
{}
