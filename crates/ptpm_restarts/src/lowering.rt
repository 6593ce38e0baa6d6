//! What lowered hops change in a network that loses power. Each law is the contract of a function that does nothing, and speaks only of
//! the definitions.

ghost use Rattle.std.specs.Prelude.{◌≡◌, length, List, None};
ghost use Rattle.std.specs.List.{AllByRecursion};
ghost use Rattle.ptpm_network.specs.Events.{no_room};
ghost use Rattle.ptpm_network.specs.Network.{Network};
ghost use Rattle.ptpm_restarts.specs.ActsAsIfNever.{ActsAsIfNever};
ghost use Rattle.ptpm_restarts.specs.HostsLowering.{AreOfHost, AreTimelyOfHost, GoesBeside, HasRoomAfter, HostIncident, IsLoweredNetwork, IsOfHost, IsPossibleOfHost, IsTimelyOfHost, after_host_incidents, host_incident};
ghost use Rattle.ptpm_restarts.specs.Incidents.{Incident};
ghost use Rattle.ptpm_restarts.specs.Restarting.{RestartingNetwork, held_frames, initial_restarting, running};

/// Hosts that lower boundaryHops of messages as these come in do nothing but lose messages. Beside such a network goes one in which
/// nobody does. It has the same clocks, sessions and reports, and of each frame one with as many hops or more:
/// - so it is when both start;
/// - whatever happens here, the other one goes on beside it, by one incident or none. It may be an event, a save, a crash, a give-up,
///   an observation, or a message that comes in with lowered hops. If that is in time here, it is there. The premise is that the other
///   one has room for frames;
/// - so it is for a list of these, by as many incidents there or fewer. The premise is that there is room after that many
///   incidents, whichever they are;
/// - so what `restarts_among_acts` says of the other one, after its incidents, it says of this one: of the same clocks, sessions and
///   reports.
pub fn lowered_hops_lose_messages_alone()
    ensures first { (N : Network) → IsLoweredNetwork (initial_restarting N) (initial_restarting N) }
    ensures goes_on { (N : Network) (low k : RestartingNetwork) (i : HostIncident) →
        IsLoweredNetwork low k → IsOfHost low i → no_room (held_frames k) ≡ None →
        GoesBeside N k 1 (host_incident N low i) (IsPossibleOfHost i) (IsTimelyOfHost N low i) }
    ensures go_on { (N : Network) (low k : RestartingNetwork) (is : List HostIncident) →
        IsLoweredNetwork low k → AreOfHost N low is → HasRoomAfter N k (length is) →
        GoesBeside N k (length is) (after_host_incidents N low is)
        (AllByRecursion IsPossibleOfHost is) (AreTimelyOfHost N low is) }
    ensures among_acts { (N : Network) (is : List Incident) (low k : RestartingNetwork)
        (a : ActsAsIfNever N is k) → IsLoweredNetwork low k →
        (record (running low) { frames = a.network.frames } ≡ a.network) × (low.told ≡ k.told) }
{}
