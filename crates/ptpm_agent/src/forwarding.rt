//! What a boundary clock passes on (15.3.3).

ghost use Rattle.std.specs.Prelude.{◌≡◌, ◌≢◌, ◌≤◌, ◌<◌, ◌==◌, ◌&&◌, nat_lt, not, Ok, [], length, map};
ghost use Rattle.ptpm_codec.specs.Identity.{same_clock};
ghost use Rattle.ptpm_codec.specs.Layout.{boundary_hops, message_octets};
ghost use Rattle.ptpm_codec.specs.Reading.{IsWellFormed, reading};
ghost use Rattle.ptpm_codec.specs.Spelling.{Spells};
ghost use Rattle.ptpm_data.specs.Members.{HasPort, is_forwarding_port, may_forward, port_among};
ghost use Rattle.ptpm_agent.specs.Agent.{clock_of, state_of};
ghost use Rattle.ptpm_agent.specs.Forwarding.{egress_ports, forwarded, is_forwarded, with_less_hop};
ghost use Rattle.ptpm_agent.specs.Turn.{judged};

use crate::agent::Agent;
use crate::verdict::Verdict;
use ptpm_codec::{ClockIdentity, View};
use ptpm_data::{DataSets, PortDataSet, data_sets_law, is_forwarding_port};
use ptpm_table::{LongOutgoing, ReplyTable};

impl<T: ReplyTable + Drop> Agent<T> {
    /// Sends the copies of a datagram that the clock passes on, before anything else was sent. Takes no memory.
    #[inline(always)]
    pub(crate) fn forward<O: LongOutgoing>(
        &self,
        verdict: Verdict,
        ingress: u16,
        datagram: &[u8],
        message: &View<'_>,
        out: &mut O,
    )
        requires port { HasPort ingress self.now.sets }
        requires read { reading datagram.now ≡ Ok message.now }
        requires spelled { Spells message.now (message_octets datagram.now) }
        requires verdict { verdict ≡ judged
            (clock_of T.owner self.now) (state_of T.entries self.now) message.now }
        requires not_repeat { verdict ≢ Verdict.AnsweredRepeat }
        requires empty { O.sent out.old ≡ [] }
        requires room { length (forwarded (clock_of T.owner self.now).identity ingress self.now.sets datagram.now)
            ≤ O.most out.old }
        ensures copies { O.sent out.new
            ≡ forwarded (clock_of T.owner self.now).identity ingress self.now.sets datagram.now }
        ensures grown { O.grown out.old out.new }
    {
        if self.passes_on(verdict, ingress, message) {
            send_on(&self.sets, ingress, datagram, out);
        }
    }

    /// Whether a message that is neither carried out nor a repeat is passed on. Its verdict says whether it is of the clock's domain,
    /// and from another clock, so that this is not tested again.
    #[inline(always)]
    pub(crate) fn passes_on(&self, verdict: Verdict, ingress: u16, message: &View<'_>) -> bool
        requires verdict { verdict ≡ judged
            (clock_of T.owner self.now) (state_of T.entries self.now) message.now }
        requires not_repeat { verdict ≢ Verdict.AnsweredRepeat }
        ensures { result ≡ is_forwarded
            (clock_of T.owner self.now).identity ingress self.now.sets message.now }
    {
        match verdict {
            Verdict::OtherDomain => false,
            Verdict::OwnMessage => false,
            _ => goes_on(&self.table.clock(), &self.sets, ingress, message),
        }
    }
}

/// Whether a message of the clock's domain, from another clock, is passed on. Then it is not for exactly this clock, has a hop left, and
/// came in at a port in a forwarding state.
fn goes_on(me: &ClockIdentity, sets: &DataSets, ingress: u16, message: &View<'_>) -> bool
    ensures { result ≡ (not (same_clock message.now.target.clock me.now)
        && (nat_lt 0 message.now.hops && may_forward ingress sets.now)) }
{
    message.target().clock != *me && message.hops() > 0 && sets.may_forward(ingress)
}

/// Sends a copy at each egress port. It is never inlined, so that its loop keeps what it reads in registers.
#[inline(never)]
fn send_on<O: LongOutgoing>(sets: &DataSets, ingress: u16, datagram: &[u8], out: &mut O)
    requires empty { O.sent out.old ≡ [] }
    requires port { HasPort ingress sets.now }
    requires well_formed { IsWellFormed datagram.now }
    requires hops { 0 < boundary_hops datagram.now }
    requires room { length (egress_ports ingress sets.now) ≤ O.most out.old }
    ensures copies { O.sent out.new ≡ map (λ port. (port, with_less_hop datagram.now))
        (egress_ports ingress sets.now) }
    ensures grown { O.grown out.old out.new }
{
    data_sets_law(sets);
    let ports = sets.port_sets();
    for port in 1..sets.port_count() + 1 {
        if is_egress(ports, ingress, port) {
            out.push_less_hop(port, datagram);
        }
    }
}

/// Whether a copy goes out at this port, given the data sets of all.
fn is_egress(ports: &[PortDataSet], ingress: u16, port: u16) -> bool
    ensures { result ≡ (not (port == ingress) && is_forwarding_port (port_among port ports.now)) }
{
    port != ingress && is_forwarding_port(ports, port)
}
