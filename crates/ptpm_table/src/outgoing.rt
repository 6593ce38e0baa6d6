//! What the messages of one call are appended to.

use crate::renewal::Renewal;
use ptpm_codec::Envelope;

/// Takes the answers that a call at a clock sends, of 184 octets at most, each with the port that it is sent at. An `Outbox`
/// keeps them; a host can have them written in the place that it sends them from. Each `push_..` appends one message, if there are
/// fewer than it takes. Contracts see a list of pairs.
pub trait Outgoing {
    ghost use Rattle.std.specs.Prelude.{◌≡◌, ◌<◌, ◌≤◌, ◌+◌, ◌∷◌, ◌++◌, [], ℕ, List, get_or, length};
    ghost use Rattle.ptpm_codec.specs.Canonical.{canonical};
    ghost use Rattle.ptpm_codec.specs.declared.message.Action.{Action};
    ghost use Rattle.ptpm_codec.specs.declared.message.Body.TheVariants as bodies;
    ghost use Rattle.ptpm_codec.specs.declared.message.Message.{Message};
    ghost use Rattle.ptpm_codec.specs.Envelope.{envelope_of, sent_with};
    ghost use Rattle.ptpm_codec.specs.Message.{Fits};
    ghost use Rattle.ptpm_table.specs.KeptMessages.{renewed};

    /// The messages that it has, each with its port.
    ghost sent: { Self → List (ℕ × List ℕ) };

    /// How many messages it takes, with those that it has.
    ghost most: { Self → ℕ };

    /// The second is the first after messages were appended, and nothing else.
    ghost grown: { Self → Self → Type 0 };

    /// How many messages it has.
    fn count(&self) -> usize
        ensures { result ≡ length (sent self.now) };

    /// One of its messages, counted from 0.
    fn message(&self, place: usize) -> &[u8]
        requires { place < length (sent self.now) }
        ensures { result.now ≡ (get_or (sent self.now) place (0, [])).1 };

    /// Appends the message of an envelope that answers this dataField, of 130 octets at most, from the source port.
    fn push_answer(&mut self, port: u16, envelope: &Envelope, source: u16, octets: &[u8])
        requires room { length (sent self.old) < most self.old }
        requires small { length octets.now ≤ 130 }
        ensures messages { (v : Message) (action : Action) (id : ℕ) → Fits v →
            envelope.now ≡ envelope_of v action id →
            sent self.new ≡ sent self.old
            ++ (port, canonical (sent_with v source (bodies.Answer action id octets.now))) ∷ [] }
        ensures count { length (sent self.new) ≡ length (sent self.old) + 1 }
        ensures grown { grown self.old self.new };

    /// Appends the message of an envelope that refuses this id from the source port.
    fn push_refusal(&mut self, port: u16, envelope: &Envelope, source: u16, error: u16, id: u16)
        requires room { length (sent self.old) < most self.old }
        ensures messages { (v : Message) (action : Action) (answered : ℕ) → Fits v →
            envelope.now ≡ envelope_of v action answered →
            sent self.new ≡ sent self.old
            ++ (port, canonical (sent_with v source (bodies.Fault action error id []))) ∷ [] }
        ensures count { length (sent self.new) ≡ length (sent self.old) + 1 }
        ensures grown { grown self.old self.new };

    /// Appends a copy of a kept message, of 54 to 184 octets, for a port. What depends on the copy of the request that is
    /// answered is written over.
    fn push_renewed(&mut self, port: u16, message: &[u8], renewal: &Renewal)
        requires room { length (sent self.old) < most self.old }
        requires long { 54 ≤ length message.now }
        requires small { length message.now ≤ 184 }
        ensures messages { sent self.new
            ≡ sent self.old
            ++ (port, renewed renewal.now.domain renewal.now.port renewal.now.hops message.now)
            ∷ [] }
        ensures grown { grown self.old self.new };

    ghost grown_by_none: { (a : Self) → grown a a };

    ghost grown_twice: { (a b c : Self) → grown a b → grown b c → grown a c };

    ghost as_many: { (a b : Self) → grown a b → most b ≡ most a };
}

/// Takes messages of every size too: what a clock passes on, and what its device answers.
pub trait LongOutgoing: Outgoing {
    ghost use Rattle.std.specs.Prelude.{◌≡◌, ◌<◌, ◌≤◌, ◌-◌, ◌+◌, ◌∷◌, ◌++◌, [], ℕ, length, slice_set};
    ghost use Rattle.ptpm_codec.specs.Canonical.{canonical};
    ghost use Rattle.ptpm_codec.specs.Layout.{boundary_hops, message_octets};
    ghost use Rattle.ptpm_codec.specs.declared.message.Action.{Action};
    ghost use Rattle.ptpm_codec.specs.declared.message.Body.TheVariants as bodies;
    ghost use Rattle.ptpm_codec.specs.declared.message.Message.{Message};
    ghost use Rattle.ptpm_codec.specs.Envelope.{envelope_of, sent_with};
    ghost use Rattle.ptpm_codec.specs.Message.{Fits};
    ghost use Rattle.ptpm_codec.specs.Reading.{IsWellFormed};

    /// What `push_answer` does, with a dataField of 1,418 octets at most.
    fn push_value(&mut self, port: u16, envelope: &Envelope, source: u16, octets: &[u8])
        requires room { length (Self.sent self.old) < Self.most self.old }
        requires small { length octets.now ≤ 1418 }
        ensures messages { (v : Message) (action : Action) (id : ℕ) → Fits v →
            envelope.now ≡ envelope_of v action id →
            Self.sent self.new ≡ Self.sent self.old
            ++ (port, canonical (sent_with v source (bodies.Answer action id octets.now))) ∷ [] }
        ensures count { length (Self.sent self.new) ≡ length (Self.sent self.old) + 1 }
        ensures grown { Self.grown self.old self.new };

    /// Appends a well-formed datagram's message for a port, with boundaryHops less by one (15.3.3); they are not 0.
    fn push_less_hop(&mut self, port: u16, datagram: &[u8])
        requires room { length (Self.sent self.old) < Self.most self.old }
        requires well_formed { IsWellFormed datagram.now }
        requires hops { 0 < boundary_hops datagram.now }
        ensures messages { Self.sent self.new
            ≡ Self.sent self.old
            ++ (
              port,
              slice_set (message_octets datagram.now) 45
                  (boundary_hops datagram.now - 1),
            ) ∷ [] }
        ensures grown { Self.grown self.old self.new };
}
