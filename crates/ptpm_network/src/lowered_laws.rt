//! What lowering the hops of a message changes. Each law is the contract of a function that does nothing, and speaks only of the
//! definitions.

ghost use Rattle.std.specs.Prelude.{◌≡◌, ◌-◌, ◌<◌, [], ℕ, List};
ghost use Rattle.ptpm_agent.specs.Turn.{Clock, State, turn};
ghost use Rattle.ptpm_network.specs.Lowered.{AreLowered, IsLowered};

/// A host may lower boundaryHops of a message that comes in, and startingBoundaryHops by as much. Its clock then judges the message
/// as it would have, becomes what it would have, and replies with the same octets. It passes the message on at the same ports, lowered
/// in the same way, or not at all if no hop is left. So for whoever hears no forwarded message nothing has changed. The next clock
/// answers a message that is passed on as it would have, since that is a lowered one too. One that is not passed on is a message that
/// was lost.
pub fn lowered_hops_answer_the_same()
    ensures same { (c : Clock) (s : State) (ingress most : ℕ) (datagram lowered : List ℕ) →
        IsLowered most datagram lowered →
        ((turn c s ingress lowered).verdict ≡ (turn c s ingress datagram).verdict)
        × ((turn c s ingress lowered).next ≡ (turn c s ingress datagram).next)
        × ((turn c s ingress lowered).replies ≡ (turn c s ingress datagram).replies) }
    ensures passed { (c : Clock) (s : State) (ingress most : ℕ) (datagram lowered : List ℕ) →
        IsLowered most datagram lowered → 0 < most →
        AreLowered (most - 1) (turn c s ingress datagram).forwards (turn c s ingress lowered).forwards }
    ensures stopped { (c : Clock) (s : State) (ingress : ℕ) (datagram lowered : List ℕ) →
        IsLowered 0 datagram lowered → (turn c s ingress lowered).forwards ≡ [] }
{}
