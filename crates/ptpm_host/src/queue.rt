//! Messages that wait, in the order in which they came, in a block of memory that is taken once.

ghost use Rattle.std.specs.Prelude.{◌≡◌, ◌≤◌, ◌-◌, ◌+◌, ◌++◌, ◌∷◌, All, IfOk, [], length, take};
ghost use Rattle.ptpm_host.specs.Blanks.{AreBlanked};
ghost use Rattle.ptpm_host.specs.Clock.{IsWhole, message_in, messages_in};

use crate::blanks::blank;
use crate::sent::Sent;
use ptpm_codec::OutOfMemory;
use std::alloc::Global;

/// Messages that wait. The first came first.
#[derive(Drop)]
pub(crate) struct Queue {
    places: Vec<Sent>,
    /// How many were taken out again of those that have a message.
    taken: usize,
    /// How many places have a message.
    end: usize,
    ghost ordered: { taken ≤ end },
    ghost inside: { end ≤ length places.items },
    ghost whole: { All IsWhole (take end places.items) },
}

#[tactic(auto, unfolding(crate::specs::Queue::queued, crate::specs::Queue::room_of))]
impl Queue {
    ghost use Rattle.std.specs.Prelude.{◌<◌};
    ghost use Rattle.ptpm_host.specs.Clock.{KeepsBehind};
    ghost use Rattle.ptpm_host.specs.Queue.{queued, room_of};

    /// No message, and this many places. Memory is taken here alone.
    pub(crate) fn new(alloc: Global, places: usize) -> Result<Queue, OutOfMemory>
        ensures queued { IfOk result (λ q. queued q ≡ []) }
        ensures room { IfOk result (λ q. room_of q ≡ places) }
    {
        match Vec::from_elem(alloc, Sent::empty(), places) {
            Ok(places) => Ok(Queue {
                places,
                taken: 0,
                end: 0,
            }),
            Err(_) => Err(OutOfMemory),
        }
    }

    /// How many messages wait.
    pub(crate) fn count(&self) -> usize
        ensures { result ≡ length (queued self.now) }
    {
        self.end - self.taken
    }

    /// How many more there is room for.
    pub(crate) fn free(&self) -> usize
        ensures { result ≡ room_of self.now - length (queued self.now) }
    {
        self.places.len() - self.count()
    }

    /// Takes over the messages of the first places of `room`, and blanks these.
    pub(crate) fn take_over(&mut self, room: &mut [Sent], count: usize)
        requires count { count ≤ length room.old }
        requires whole { All IsWhole (take count room.old) }
        requires free { length (queued self.old) + count ≤ room_of self.old }
        ensures queued { queued self.new ≡ queued self.old ++ messages_in (take count room.old) }
        ensures room { room_of self.new ≡ room_of self.old }
        ensures blanked { AreBlanked count room.old room.new }
    {
        self.close_up();
        for place in 0..count {
            self.add(&room[place]);
        }
        blank(room, count);
    }

    /// Moves the messages to the first places.
    fn close_up(&mut self)
        ensures queued { queued self.new ≡ queued self.old }
        ensures room { room_of self.new ≡ room_of self.old }
        ensures closed { self.new.taken ≡ 0 }
    {
        if self.taken > 0 {
            self.places.copy_within(self.taken..self.end, 0);
            self.end -= self.taken;
            self.taken = 0;
        }
    }

    /// Adds a message after the others.
    fn add(&mut self, sent: &Sent)
        requires whole { IsWhole sent.now }
        requires closed { self.old.taken ≡ 0 }
        requires free { length (queued self.old) + 1 ≤ room_of self.old }
        ensures queued { queued self.new ≡ queued self.old ++ message_in sent.now ∷ [] }
        ensures room { room_of self.new ≡ room_of self.old }
        ensures closed { self.new.taken ≡ 0 }
    {
        self.places[self.end].put(sent);
        self.end += 1;
    }

    /// Takes the first message out, into `sent`. What follows it there stays.
    pub(crate) fn take_first(&mut self, sent: &mut Sent)
        requires { 0 < length (queued self.old) }
        ensures queued { queued self.old ≡ message_in sent.new ∷ queued self.new }
        ensures room { room_of self.new ≡ room_of self.old }
        ensures whole { IsWhole sent.new }
        ensures behind { KeepsBehind sent.old sent.new }
    {
        sent.put(&self.places[self.taken]);
        self.taken += 1;
    }
}
