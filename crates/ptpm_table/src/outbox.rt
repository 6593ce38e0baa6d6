//! What one call at a clock sends.

ghost use Rattle.std.specs.Prelude.{◌≡◌, ◌<◌, ◌≤◌, ◌∷◌, ◌++◌, [], length};
ghost use Rattle.ptpm_codec.specs.Canonical.{canonical};
ghost use Rattle.ptpm_codec.specs.Message.{IsValid};
ghost use Rattle.ptpm_table.specs.Outbox.{sent};

use crate::outgoing::{LongOutgoing, Outgoing};
use crate::renewal::{Renewal, renew};
use ptpm_codec::{Buffer, Draft, Envelope, encode, less_hop, overwrite_message};
use ptpm_data::INLINE_PORTS;
use std::marker::Model;

/// How many messages an outbox holds. A clock of `INLINE_PORTS` ports sends no more in a turn: a copy at each port but one, and
/// a reply of each.
pub const OUTBOX_MESSAGES: usize = 2 * INLINE_PORTS - 1;

/// At most `OUTBOX_MESSAGES` messages, each with the port that it is sent at. All buffers are in the value, which has 22,328
/// octets, and are written over and over. Each message is written in place, and emptying the outbox touches none of them. Takes
/// no memory. Contracts see it as the list of pairs.
#[derive(Drop)]
pub struct Outbox {
    places: [(u16, Buffer); OUTBOX_MESSAGES],
    /// How many places hold a message, from the first on.
    count: usize,
}

const _: () = prove!(size_of::<Outbox>() == 22_328);

impl Model for Outbox {
    ghost use Rattle.std.specs.Prelude.{List, ℕ, ◌≡◌, ◌≤◌, length, take};
    ghost use Rattle.ptpm_table.specs.declared.outbox.TheConstants.{OUTBOX_MESSAGES};
    ghost use Rattle.ptpm_table.specs.Outbox.{sent};

    ghost Value = { List (ℕ × List ℕ) };

    ghost view = { λ o. sent (take o.count o.places) };

    ghost invariant = { λ o. (o.count ≤ OUTBOX_MESSAGES) × (length o.places ≡ OUTBOX_MESSAGES) };
}

impl Outbox {
    /// An empty outbox.
    pub fn new() -> Outbox
        ensures { result ≡ [] }
    {
        Outbox {
            places: Default::default(),
            count: 0,
        }
    }

    /// The messages in the order in which they were put in, each with its port.
    pub fn entries(&self) -> &[(u16, Buffer)]
        ensures messages { sent result.now ≡ self.now }
        ensures few { length result.now ≤ OUTBOX_MESSAGES }
    {
        &self.places[..self.count]
    }

    /// Takes every message out.
    pub fn clear(&mut self)
        ensures { self.new ≡ [] }
    {
        self.count = 0;
    }

    /// Appends the canonical spelling of a valid draft for a port, if the outbox has room.
    pub fn push_draft(&mut self, port: u16, draft: &Draft<'_>)
        requires room { length self.old < OUTBOX_MESSAGES }
        requires valid { IsValid draft.now }
        ensures { self.new ≡ self.old ++ (port, canonical draft.now) ∷ [] }
    {
        let place = &mut self.places[self.count];
        place.0 = port;
        encode(draft, &mut place.1);
        self.count += 1;
    }
}

impl Outgoing for Outbox {
    ghost use Rattle.std.specs.Prelude.{⊤};
    ghost use Rattle.ptpm_table.specs.declared.outbox.TheConstants.{OUTBOX_MESSAGES};

    ghost sent = { λ o. o };

    ghost most = { λ o. OUTBOX_MESSAGES };

    ghost grown = { λ a b. ⊤ };

    ghost grown_by_none = { λ a. tt };

    ghost grown_twice = { λ a b c first second. tt };

    ghost as_many = { λ a b grown i. OUTBOX_MESSAGES };

    fn count(&self) -> usize {
        self.count
    }

    fn message(&self, place: usize) -> &[u8] {
        self.entries()[place].1.as_slice()
    }

    #[inline(always)]
    fn push_answer(&mut self, port: u16, envelope: &Envelope, source: u16, octets: &[u8]) {
        self.push_value(port, envelope, source, octets);
    }

    fn push_refusal(&mut self, port: u16, envelope: &Envelope, source: u16, error: u16, id: u16) {
        let place = &mut self.places[self.count];
        place.0 = port;
        envelope.refuse(source, error, id, &mut place.1);
        self.count += 1;
    }

    fn push_renewed(&mut self, port: u16, message: &[u8], renewal: &Renewal) {
        let place = &mut self.places[self.count];
        place.0 = port;
        overwrite_message(&mut place.1, message);
        renew(place.1.as_mut_slice(), renewal);
        self.count += 1;
    }
}

impl LongOutgoing for Outbox {
    #[inline(always)]
    fn push_value(&mut self, port: u16, envelope: &Envelope, source: u16, octets: &[u8]) {
        let place = &mut self.places[self.count];
        place.0 = port;
        envelope.answer(source, octets, &mut place.1);
        self.count += 1;
    }

    fn push_less_hop(&mut self, port: u16, datagram: &[u8]) {
        let place = &mut self.places[self.count];
        place.0 = port;
        less_hop(datagram, &mut place.1);
        self.count += 1;
    }
}
