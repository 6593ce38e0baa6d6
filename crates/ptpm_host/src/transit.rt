//! What a boundary clock passes on though this profile does not read it: a message whose action or TLV is refused (15.3.3).

ghost use Rattle.std.specs.Prelude.{◌≡◌, ◌<◌, ◌≤◌, ◌==◌, ◌&&◌, not, All, MatchOption, [], drop, false, length, map, take, true};
ghost use Rattle.std.specs.List.{AllZip};
ghost use Rattle.ptpm_codec.specs.Layout.{boundary_hops, message_octets};
ghost use Rattle.ptpm_codec.specs.Reading.{message_at};
ghost use Rattle.ptpm_data.specs.Members.{HasPort, may_forward};
ghost use Rattle.ptpm_agent.specs.Forwarding.{egress_ports, is_forwarded, with_less_hop};
ghost use Rattle.ptpm_host.specs.Clock.{IsWhole, KeepsBehind, messages_in};
ghost use Rattle.ptpm_host.specs.Transit.{is_past_header, is_unread, transited};

use crate::outbox::Outbox;
use crate::sent::Sent;
use ptpm_codec::{DecodeError, port_identity_at, u16_at, view};
use ptpm_data::{DataSets, data_sets_law};
use ptpm_table::Outgoing;

/// Writes the copies of a datagram that a clock of these data sets passes on unread. They are in the first places of `room`, and
/// their number is the answer. The places after them stay. None if the clock lacks the port, or if it has more ports than places.
/// Takes no memory.
#[tactic(auto, using(crate::specs::OutboxLaws::kept_by_none))]
pub fn pass_unread(sets: &DataSets, ingress: u16, datagram: &[u8], room: &mut [Sent]) -> usize
    ensures copies { HasPort ingress sets.now → length sets.now.ports ≤ length room.old →
        messages_in (take result room.new) ≡ transited ingress sets.now datagram.now }
    ensures none { (HasPort ingress sets.now → length sets.now.ports ≤ length room.old → ⊥) → result ≡ 0 }
    ensures count { result ≤ length room.new }
    ensures whole { All IsWhole (take result room.new) }
    ensures places { drop result room.new ≡ drop result room.old }
    ensures behind { AllZip KeepsBehind room.old room.new }
{
    if !sets.has_port(ingress) || room.len() < sets.port_count() as usize {
        return 0;
    }
    match unread(datagram) {
        Some(message) if is_passed_on(sets, ingress, message) => {
            send_on(sets, ingress, datagram, message.len(), room)
        }
        _ => 0,
    }
}

/// The octets of a management message, if this profile refuses only its action or its TLV.
pub(crate) fn unread(datagram: &[u8]) -> Option<&[u8]>
    ensures { MatchOption result (is_unread datagram.now ≡ false)
        (λ m. (is_unread datagram.now ≡ true) × ((m.now ≡ message_octets datagram.now)
        × ((54 ≤ length m.now) × (length m.now ≤ 1472)))) }
{
    match view(datagram) {
        Err(error) if is_past_header(error) => Some(&datagram[..u16_at(datagram, 2) as usize]),
        _ => None,
    }
}

/// Whether a datagram that is refused so has the header of a management message.
fn is_past_header(error: DecodeError) -> bool
    ensures { result ≡ is_past_header error }
{
    matches!(
        error,
        DecodeError::BadAction
            | DecodeError::BadTlvType
            | DecodeError::BadTlvLength
            | DecodeError::BadText
    )
}

/// Whether it is passed on at all.
fn is_passed_on(sets: &DataSets, ingress: u16, message: &[u8]) -> bool
    requires { 54 ≤ length message.now }
    ensures { result
        ≡ is_forwarded sets.now.default.identity ingress sets.now (message_at message.now) }
{
    let me = sets.identity();
    message[0] / 16 == 0
        && message[5] == 0
        && message[4] == sets.domain()
        && port_identity_at(message, 20).clock != me
        && port_identity_at(message, 34).clock != me
        && message[45] > 0
        && sets.may_forward(ingress)
}

/// Writes a copy of the first octets of a datagram for each egress port into the first places, and answers how many there are.
fn send_on(sets: &DataSets, ingress: u16, datagram: &[u8], size: usize, room: &mut [Sent]) -> usize
    requires port { HasPort ingress sets.now }
    requires long { 54 ≤ size }
    requires small { size ≤ 1472 }
    requires inside { size ≤ length datagram.now }
    requires size { take size datagram.now ≡ message_octets datagram.now }
    requires hops { 0 < boundary_hops datagram.now }
    requires room { length sets.now.ports ≤ length room.old }
    ensures copies { messages_in (take result room.new)
        ≡ map (λ port. (port, with_less_hop datagram.now)) (egress_ports ingress sets.now) }
    ensures count { result ≤ length room.new }
    ensures whole { All IsWhole (take result room.new) }
    ensures places { drop result room.new ≡ drop result room.old }
    ensures behind { AllZip KeepsBehind room.old room.new }
{
    data_sets_law(sets);
    let mut outbox = Outbox::new(room);
    for port in 1..sets.port_count() + 1 {
        if is_egress(sets, ingress, port) {
            outbox.push_lowered(port, datagram, size);
        }
    }
    outbox.count()
}

/// Whether a copy goes out at this port.
pub(crate) fn is_egress(sets: &DataSets, ingress: u16, port: u16) -> bool
    ensures { result ≡ (not (port == ingress) && may_forward port sets.now) }
{
    port != ingress && sets.may_forward(port)
}
