//! What a clock passes on of a request that its device answers (15.3.3).

ghost use Rattle.std.specs.Prelude.{◌≡◌, ◌≤◌, ◌<◌, ◌==◌, ◌&&◌, not, Ok, [], length, map};
ghost use Rattle.ptpm_codec.specs.Layout.{boundary_hops, message_octets};
ghost use Rattle.ptpm_codec.specs.Reading.{IsWellFormed, reading};
ghost use Rattle.ptpm_codec.specs.Spelling.{Spells};
ghost use Rattle.ptpm_data.specs.Members.{HasPort, may_forward};
ghost use Rattle.ptpm_agent.specs.Agent.{clock_of};
ghost use Rattle.ptpm_agent.specs.Forwarding.{egress_ports, forwarded, is_forwarded, with_less_hop};

use ptpm_agent::Agent;
use ptpm_codec::View;
use ptpm_data::{DataSets, data_sets_law};
use ptpm_table::{LongOutgoing, ReplyTable};

/// Sends the copies of a datagram that the clock passes on, as its own turn does. Takes no memory.
pub(crate) fn pass_on<T: ReplyTable + Drop, O: LongOutgoing>(
    agent: &Agent<T>,
    ingress: u16,
    datagram: &[u8],
    message: &View<'_>,
    out: &mut O,
)
    requires port { HasPort ingress agent.now.sets }
    requires read { reading datagram.now ≡ Ok message.now }
    requires spelled { Spells message.now (message_octets datagram.now) }
    requires empty { O.sent out.old ≡ [] }
    requires room { length (forwarded
        (clock_of T.owner agent.now).identity ingress agent.now.sets datagram.now)
        ≤ O.most out.old }
    ensures copies { O.sent out.new ≡ forwarded
        (clock_of T.owner agent.now).identity ingress agent.now.sets datagram.now }
    ensures grown { O.grown out.old out.new }
{
    if is_passed_on(agent, ingress, message) {
        copy_to_others(agent.sets(), ingress, datagram, out);
    }
}

/// Whether a message is passed on at all.
fn is_passed_on<T: ReplyTable + Drop>(agent: &Agent<T>, ingress: u16, message: &View<'_>) -> bool
    ensures { result ≡ is_forwarded
        (clock_of T.owner agent.now).identity ingress agent.now.sets message.now }
{
    let clock = agent.table().clock();
    message.sdo() == 0
        && message.domain() == agent.sets().domain()
        && message.source().clock != clock
        && message.target().clock != clock
        && message.hops() > 0
        && agent.sets().may_forward(ingress)
}

/// Sends a copy at each other port that may pass it on.
fn copy_to_others<O: LongOutgoing>(sets: &DataSets, ingress: u16, datagram: &[u8], out: &mut O)
    requires empty { O.sent out.old ≡ [] }
    requires port { HasPort ingress sets.now }
    requires well_formed { IsWellFormed datagram.now }
    requires hops { 0 < boundary_hops datagram.now }
    requires room { length (egress_ports ingress sets.now) ≤ O.most out.old }
    ensures copies { O.sent out.new ≡ map (λ port. (port, with_less_hop datagram.now))
        (egress_ports ingress sets.now) }
    ensures grown { O.grown out.old out.new }
{
    data_sets_law(sets);
    for port in 1..sets.port_count() + 1 {
        if is_other(sets, ingress, port) {
            out.push_less_hop(port, datagram);
        }
    }
}

/// Whether a copy goes out at this port.
fn is_other(sets: &DataSets, ingress: u16, port: u16) -> bool
    ensures { result ≡ (not (port == ingress) && may_forward port sets.now) }
{
    port != ingress && sets.may_forward(port)
}
