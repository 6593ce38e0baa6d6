//! A turn that needs little room. What the clock passes on is the datagram itself, and only answers have places.

ghost use Rattle.std.specs.Prelude.{◌≡◌, ◌<◌, ◌≤◌, IfOk, IsTrue, MatchResult, None, OnErr, Some, All, length, nat_lt, take};
ghost use Rattle.ptpm_codec.specs.Reading.{IsWellFormed};
ghost use Rattle.ptpm_data.specs.Members.{has_port};
ghost use Rattle.ptpm_agent.specs.Forwarding.{with_less_hop};
ghost use Rattle.ptpm_agent.specs.Turn.{turn};
ghost use Rattle.ptpm_host.specs.Answers.{IsShared, IsWholeAnswer, answers_in, egress_from, egress_if, most_replied};
ghost use Rattle.ptpm_host.specs.Clock.{clock_in, handle_refusal, state_in};

use crate::answer_places::{AnswerPlaces, SentAnswer};
use crate::clock::HostedClock;
use crate::refusal::HandleRefusal;
use crate::transit::is_egress;
use ptpm_agent::Verdict;
use ptpm_codec::message_size;
use ptpm_data::{DataSets, data_sets_law};
use ptpm_table::Outgoing;

/// What became of a datagram.
#[derive(Clone, Copy)]
pub struct Shared {
    pub verdict: Verdict,
    /// The ports at which it goes on: 1 for port 1, 2 for port 2, 4 for port 3, and so on, summed up.
    pub ports: u64,
    /// How many octets go on; 0 if it does not.
    pub size: usize,
    /// How many answers there are.
    pub count: usize,
}

impl HostedClock {
    /// What `handle` does, in less room. If the datagram goes on at other ports, its first octets are the copy afterwards. The answers
    /// are written into the first places of `room`. If it is refused, nothing changes. Takes no memory.
    pub fn handle_shared(
        &mut self,
        port: u16,
        datagram: &mut [u8],
        room: &mut [SentAnswer],
    ) -> Result<Shared, HandleRefusal>
        ensures turned { IfOk result (λ h. IsShared
            (turn (clock_in self.old).clock (state_in self.old) port datagram.old) self.old.agent.sets port
            datagram.old datagram.new h.verdict h.ports h.size
            (answers_in (take h.count room.new)) (state_in self.new)) }
        ensures count { IfOk result (λ h. h.count ≤ length room.new) }
        ensures whole { IfOk result (λ h. All IsWholeAnswer (take h.count room.new)) }
        ensures refusal { MatchResult result
            (λ _. handle_refusal (has_port port self.old.agent.sets) (most_replied (state_in self.old)) (length room.old) ≡ None)
            (λ e. handle_refusal (has_port port self.old.agent.sets) (most_replied (state_in self.old)) (length room.old) ≡ Some e) }
        ensures unchanged { OnErr result (self.new ≡ self.old) }
        ensures untouched { OnErr result ((datagram.new ≡ datagram.old) × (room.new ≡ room.old)) }
        ensures clock { clock_in self.new ≡ clock_in self.old }
        ensures under_way { self.new.under_way ≡ self.old.under_way }
    {
        if !self.agent.sets().has_port(port) {
            return Err(HandleRefusal::NoPort);
        }
        if !self.has_answer_room(room.len()) {
            return Err(HandleRefusal::NoRoom);
        }
        self.sent_law();
        let mut places = AnswerPlaces::new(room);
        let (verdict, passed) = self.agent.reply_into(port, datagram, &mut places);
        let count = places.count();
        let (ports, size) = pass_on(self.agent.sets(), port, datagram, passed);
        Ok(Shared {
            verdict,
            ports,
            size,
            count,
        })
    }
}

/// Makes the datagram its own copy, if it is passed on. Answers at which ports it goes on, and how many octets.
#[tactic(auto, using(std::proofs::lemmas::Bool::Decides::nat_tests))]
fn pass_on(sets: &DataSets, ingress: u16, datagram: &mut [u8], passed: bool) -> (u64, usize)
    requires { IsTrue passed → IsWellFormed datagram.old }
    ensures ports { result.0 ≡ egress_if passed ingress sets.now }
    ensures told { nat_lt 0 result.1 ≡ passed }
    ensures copy { 0 < result.1 → take result.1 datagram.new ≡ with_less_hop datagram.old }
    ensures stays { result.1 ≡ 0 → datagram.new ≡ datagram.old }
{
    if !passed {
        return (0, 0);
    }
    data_sets_law(sets);
    let ports = egress_number(sets, ingress);
    let size = lower_hop(datagram);
    (ports, size)
}

/// Lowers boundaryHops of a datagram. Answers how many octets its message has.
fn lower_hop(datagram: &mut [u8]) -> usize
    requires { IsWellFormed datagram.old }
    ensures copy { take result datagram.new ≡ with_less_hop datagram.old }
    ensures some { 0 < result }
{
    let size = message_size(datagram);
    let hops = datagram[45].saturating_sub(1);
    let message = &mut datagram[..size];
    message[45] = hops;
    size
}

/// The egress ports: 1 for port 1, 2 for port 2, 4 for port 3, and so on, summed up.
#[tactic(auto, using(crate::proofs::ObservedPlaces::next_egress, crate::proofs::ObservedPlaces::next_fits, crate::proofs::ObservedPlaces::in_word, crate::proofs::ObservedPlaces::bit_small))]
fn egress_number(sets: &DataSets, ingress: u16) -> u64
    ensures { result ≡ egress_from 1 (length sets.now.ports) ingress sets.now }
{
    let count = sets.port_count();
    let mut number = 0;
    for above in 0..count {
        number = is_egress(sets, ingress, count - above) as u64 + 2 * number;
    }
    number
}
