//! Messages as a host in C takes them over, each written in place.

ghost use Rattle.std.specs.Prelude.{◌≡◌, ◌-◌, ◌<◌, ◌≤◌, ℕ, [], length, slice_set, take};
ghost use Rattle.ptpm_codec.specs.Canonical.{canonical};
ghost use Rattle.ptpm_codec.specs.Layout.{boundary_hops, message_octets};
ghost use Rattle.ptpm_codec.specs.declared.message.Action.{Action};
ghost use Rattle.ptpm_codec.specs.declared.message.Body.TheVariants as bodies;
ghost use Rattle.ptpm_codec.specs.declared.message.Message.{Message};
ghost use Rattle.ptpm_codec.specs.Envelope.{envelope_of, sent_with};
ghost use Rattle.ptpm_codec.specs.Message.{Fits};
ghost use Rattle.ptpm_codec.specs.Reading.{IsWellFormed};
ghost use Rattle.ptpm_table.specs.KeptMessages.{renewed};
ghost use Rattle.ptpm_host.specs.Blanks.{IsBlank};
ghost use Rattle.ptpm_host.specs.Clock.{IsWhole, KeepsBehind, message_in};

use ptpm_codec::{Envelope, MESSAGE_OCTETS, REFUSAL_OCTETS, copy_message, message_size};
use ptpm_table::{Renewal, renew};

/// A message, and the port that it is to be sent at.
#[repr(C)]
#[derive(Clone, Copy)]
pub struct Sent {
    pub port: u16,
    /// How many octets the message has.
    pub size: u16,
    /// The message, and after it what was there before.
    pub octets: [u8; MESSAGE_OCTETS],
}

const _: () = prove!(size_of::<Sent>() == 1_476);

impl Sent {
    /// A message without octets, for no port, in a place of zeros.
    pub fn empty() -> Sent
        ensures message { message_in result ≡ (0, []) }
        ensures blank { IsBlank result }
    {
        Sent {
            port: 0,
            size: 0,
            octets: [0; MESSAGE_OCTETS],
        }
    }

    /// The message, without its port.
    pub(crate) fn message(&self) -> &[u8]
        requires { IsWhole self.now }
        ensures { result.now ≡ (message_in self.now).1 }
    {
        &self.octets[..self.size as usize]
    }

    /// Writes another message, with its port, in place of the one that is here.
    pub(crate) fn put(&mut self, other: &Sent)
        requires { IsWhole other.now }
        ensures message { message_in self.new ≡ message_in other.now }
        ensures whole { IsWhole self.new }
        ensures behind { KeepsBehind self.old self.new }
    {
        let message = other.message();
        self.port = other.port;
        self.size = other.size;
        copy_message(&mut self.octets[..message.len()], message);
    }

    /// Writes the message of an envelope that answers this dataField from the source port in place of the one that is here.
    #[inline(always)]
    pub(crate) fn put_answer(&mut self, port: u16, envelope: &Envelope, source: u16, octets: &[u8])
        requires { length octets.now ≤ 1418 }
        ensures message { (v : Message) (action : Action) (id : ℕ) → Fits v →
            envelope.now ≡ envelope_of v action id →
            message_in self.new
            ≡ (port, canonical (sent_with v source (bodies.Answer action id octets.now))) }
        ensures whole { IsWhole self.new }
        ensures behind { KeepsBehind self.old self.new }
    {
        let size = 54 + octets.len();
        self.port = port;
        self.size = size as u16;
        envelope.answer_in(source, octets, &mut self.octets[..size]);
    }

    /// Writes the message of an envelope that refuses this id from the source port in place of the one that is here.
    pub(crate) fn put_refusal(
        &mut self,
        port: u16,
        envelope: &Envelope,
        source: u16,
        error: u16,
        id: u16,
    )
        ensures message { (v : Message) (action : Action) (answered : ℕ) → Fits v →
            envelope.now ≡ envelope_of v action answered →
            message_in self.new
            ≡ (port, canonical (sent_with v source (bodies.Fault action error id []))) }
        ensures whole { IsWhole self.new }
        ensures behind { KeepsBehind self.old self.new }
    {
        self.port = port;
        self.size = REFUSAL_OCTETS as u16;
        envelope.refuse_in(source, error, id, &mut self.octets[..REFUSAL_OCTETS]);
    }

    /// Writes a well-formed datagram's message, with boundaryHops less by one, in place of the one that is here.
    pub(crate) fn put_less_hop(&mut self, port: u16, datagram: &[u8])
        requires well_formed { IsWellFormed datagram.now }
        requires hops { 0 < boundary_hops datagram.now }
        ensures message { message_in self.new ≡ (
          port,
          slice_set (message_octets datagram.now) 45 (boundary_hops datagram.now - 1),
        ) }
        ensures whole { IsWhole self.new }
        ensures behind { KeepsBehind self.old self.new }
    {
        self.put_lowered(port, datagram, message_size(datagram));
    }

    /// Writes the first octets of a datagram, with octet 45, boundaryHops, less by one, in place of the message that is here.
    pub(crate) fn put_lowered(&mut self, port: u16, datagram: &[u8], size: usize)
        requires long { 54 ≤ size }
        requires small { size ≤ 1472 }
        requires inside { size ≤ length datagram.now }
        requires hops { 0 < boundary_hops datagram.now }
        ensures message { message_in self.new
            ≡ (port, slice_set (take size datagram.now) 45 (boundary_hops datagram.now - 1)) }
        ensures whole { IsWhole self.new }
        ensures behind { KeepsBehind self.old self.new }
    {
        self.port = port;
        self.size = size as u16;
        let octets = &mut self.octets[..size];
        copy_message(octets, &datagram[..size]);
        octets[45] = datagram[45] - 1;
    }

    /// Writes a copy of a kept message in place of the one that is here. What depends on the copy of the request that is
    /// answered is written over.
    pub(crate) fn put_renewed(&mut self, port: u16, message: &[u8], renewal: &Renewal)
        requires long { 54 ≤ length message.now }
        requires small { length message.now ≤ 1472 }
        ensures message { message_in self.new ≡ (
          port,
          renewed renewal.now.domain renewal.now.port renewal.now.hops message.now,
        ) }
        ensures whole { IsWhole self.new }
        ensures behind { KeepsBehind self.old self.new }
    {
        self.port = port;
        self.size = message.len() as u16;
        let octets = &mut self.octets[..message.len()];
        copy_message(octets, message);
        renew(octets, renewal);
    }
}
