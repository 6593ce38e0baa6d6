//! What a manager may rely on that lets requests go, in a network whose hosts observe their clocks. Each law is the contract of a function that does nothing, and speaks only of
//! the definitions.

ghost use Rattle.std.specs.Prelude.{◌≡◌, ◌≤◌, ℕ, Some};
ghost use Rattle.ptpm_data.specs.ObservationBack.{Observation};
ghost use Rattle.ptpm_agent.specs.Observing.{moved_state};
ghost use Rattle.ptpm_agent.specs.Once.{kept_reply};
ghost use Rattle.ptpm_network.specs.ByManager.{Account};
ghost use Rattle.ptpm_network.specs.GivingUp.{GivesUp, GoesOn, HasHistory, IsServedInOrder, Observes, network_act};
ghost use Rattle.ptpm_network.specs.Machine.{with_place};
ghost use Rattle.ptpm_network.specs.Network.{Network, manager};
ghost use Rattle.ptpm_network.specs.RunningNetwork.{RunningNetwork};

/// A manager that lets requests go is served in order. A network started, and then went through acts that were not refused. These are
/// events, give-ups of whatever sessions, and observations of whatever clocks by their hosts. The messages of this manager came in time, those of others as late as could be. Then, of this
/// manager:
/// - its target carried out some of its requests, each as it was begun, once at most, and in the order in which they were begun;
/// - its reports are replies that were given then, in the same order, and the last is not later than the last that was carried out;
/// - a copy of the last that was carried out gets the reply given then, and a copy of an older one gets none;
/// - the fence: once a request is reported, each earlier one was carried out before, or never will be. What is kept for it stays as
///   it is, whatever comes.
///
/// Giving up changes no clock. An observation moves the data sets of its clock as `at_most_once_observed` of ptpm_agent says, and
/// changes nothing else. What events change at a clock is what `requests_carried_out` says.
#[tactic(auto, using(crate::proofs::GivingUp::decided, crate::proofs::GivingUp::managers_that_give_up_are_served_laws))]
pub fn managers_that_give_up_are_served()
    ensures served { (N : Network) (s : ℕ) (r : RunningNetwork) (a : Account) →
        HasHistory N s r a → IsServedInOrder N s r a }
    ensures fence { (N : Network) (s k : ℕ) (r later : RunningNetwork) (a b : Account) →
        HasHistory N s r a → GoesOn N s r a later b → k ≤ (r.session s).reported →
        kept_reply (manager N s) k b.accepted ≡ kept_reply (manager N s) k a.accepted }
    ensures clocks { (N : Network) (r next : RunningNetwork) (s c : ℕ) →
        network_act N r (GivesUp s) ≡ Some next → next.clock c ≡ r.clock c }
    ensures observed { (N : Network) (r next : RunningNetwork) (c : ℕ) (o : Observation) →
        network_act N r (Observes c o) ≡ Some next →
        next ≡ record r { clock = with_place r.clock c (moved_state o.clock o.ports (r.clock c)) } }
{}
