//! A host's places, into which a clock's messages are written.

ghost use Rattle.std.specs.Prelude.{◌≡◌, ◌≤◌, All, length, take};
ghost use Rattle.ptpm_host.specs.Clock.{IsWhole};

use crate::sent::Sent;
use ptpm_codec::Envelope;
use ptpm_table::{LongOutgoing, Outgoing, Renewal};

/// A host's places. The first of them have messages.
#[derive(Drop)]
pub(crate) struct Outbox<'a> {
    room: &'a mut [Sent],
    /// How many have a message.
    count: usize,
    ghost few: { count ≤ length room.now },
    ghost whole: { All IsWhole (take count room.now) },
}

impl<'a> Outbox<'a> {
    ghost use Rattle.std.specs.Prelude.{◌<◌, ◌-◌, ◌∷◌, ◌++◌, [], slice_set};
    ghost use Rattle.ptpm_codec.specs.Layout.{boundary_hops};
    ghost use Rattle.ptpm_host.specs.Clock.{messages_in};
    ghost use Rattle.ptpm_host.specs.Outbox.{HasGrown};

    /// These places, without messages.
    #[inline(always)]
    pub(crate) fn new(room: &'a mut [Sent]) -> Outbox<'a>
        ensures same_reference { result.room.ghost_name ≡ room.entry.ghost_name }
        ensures room { result.room.now ≡ room.old }
        ensures count { result.count ≡ 0 }
    {
        Outbox { room, count: 0 }
    }

    /// Writes the first octets of a datagram, with one hop less, into the next place.
    pub(crate) fn push_lowered(&mut self, port: u16, datagram: &[u8], size: usize)
        requires room { self.old.count < length self.old.room.now }
        requires long { 54 ≤ size }
        requires small { size ≤ 1472 }
        requires inside { size ≤ length datagram.now }
        requires hops { 0 < boundary_hops datagram.now }
        ensures messages { messages_in (take self.new.count self.new.room.now)
            ≡ messages_in (take self.old.count self.old.room.now)
            ++ (port, slice_set (take size datagram.now) 45 (boundary_hops datagram.now - 1)) ∷ [] }
        ensures grown { HasGrown self.old self.new }
    {
        let room = &mut *self.room;
        room[self.count].put_lowered(port, datagram, size);
        self.count += 1;
    }
}

impl Outgoing for Outbox<'_> {
    ghost use Rattle.std.specs.Prelude.{length, take};
    ghost use Rattle.ptpm_host.specs.Clock.{messages_in};
    ghost use Rattle.ptpm_host.specs.Outbox.{HasGrown};
    ghost use Rattle.ptpm_host.specs.OutboxLaws.{as_many, grown_by_none, grown_twice};

    ghost sent = { λ p. messages_in (take p.count p.room.now) };

    ghost most = { λ p. length p.room.now };

    ghost grown = { HasGrown };

    ghost grown_by_none = { grown_by_none };

    ghost grown_twice = { grown_twice };

    ghost as_many = { as_many };

    fn count(&self) -> usize {
        self.count
    }

    fn message(&self, place: usize) -> &[u8] {
        let room = &*self.room;
        room[place].message()
    }

    #[inline(always)]
    fn push_answer(&mut self, port: u16, envelope: &Envelope, source: u16, octets: &[u8]) {
        self.push_value(port, envelope, source, octets);
    }

    fn push_refusal(&mut self, port: u16, envelope: &Envelope, source: u16, error: u16, id: u16) {
        let room = &mut *self.room;
        room[self.count].put_refusal(port, envelope, source, error, id);
        self.count += 1;
    }

    fn push_renewed(&mut self, port: u16, message: &[u8], renewal: &Renewal) {
        let room = &mut *self.room;
        room[self.count].put_renewed(port, message, renewal);
        self.count += 1;
    }
}

impl LongOutgoing for Outbox<'_> {
    #[inline(always)]
    fn push_value(&mut self, port: u16, envelope: &Envelope, source: u16, octets: &[u8]) {
        let room = &mut *self.room;
        room[self.count].put_answer(port, envelope, source, octets);
        self.count += 1;
    }

    fn push_less_hop(&mut self, port: u16, datagram: &[u8]) {
        let room = &mut *self.room;
        room[self.count].put_less_hop(port, datagram);
        self.count += 1;
    }
}
