//! A host's places for answers. They are smaller than those for any message.

ghost use Rattle.std.specs.Prelude.{◌≡◌, ◌≤◌, ℕ, All, [], length, take};
ghost use Rattle.ptpm_codec.specs.Canonical.{canonical};
ghost use Rattle.ptpm_codec.specs.declared.message.Action.{Action};
ghost use Rattle.ptpm_codec.specs.declared.message.Body.TheVariants as bodies;
ghost use Rattle.ptpm_codec.specs.declared.message.Message.{Message};
ghost use Rattle.ptpm_codec.specs.Envelope.{envelope_of, sent_with};
ghost use Rattle.ptpm_codec.specs.Message.{Fits};
ghost use Rattle.ptpm_table.specs.KeptMessages.{renewed};
ghost use Rattle.ptpm_host.specs.Answers.{IsWholeAnswer, answer_in};

use ptpm_codec::{Envelope, HEAD_OCTETS, REFUSAL_OCTETS, copy_message};
use ptpm_table::{Outgoing, Renewal, renew};

/// How many octets a clock's answer has at most: 130 of them are its dataField.
pub const ANSWER_OCTETS: usize = 184;

/// An answer, and the port that it is to be sent at.
#[repr(C)]
#[derive(Clone, Copy)]
pub struct SentAnswer {
    pub port: u16,
    /// How many octets the answer has.
    pub size: u16,
    /// The answer, and after it any octets.
    pub octets: [u8; ANSWER_OCTETS],
}

const _: () = prove!(size_of::<SentAnswer>() == 188);

impl SentAnswer {
    /// The answer, without its port.
    fn message(&self) -> &[u8]
        requires { IsWholeAnswer self.now }
        ensures { result.now ≡ (answer_in self.now).1 }
    {
        &self.octets[..self.size as usize]
    }

    /// Writes the message of an envelope that answers this dataField from the source port.
    fn put_answer(&mut self, port: u16, envelope: &Envelope, source: u16, octets: &[u8])
        requires { length octets.now ≤ 130 }
        ensures message { (v : Message) (action : Action) (id : ℕ) → Fits v →
            envelope.now ≡ envelope_of v action id →
            answer_in self.new
            ≡ (port, canonical (sent_with v source (bodies.Answer action id octets.now))) }
        ensures whole { IsWholeAnswer self.new }
    {
        let size = HEAD_OCTETS + octets.len();
        self.port = port;
        self.size = size as u16;
        envelope.answer_in(source, octets, &mut self.octets[..size]);
    }

    /// Writes the message of an envelope that refuses this id from the source port.
    fn put_refusal(&mut self, port: u16, envelope: &Envelope, source: u16, error: u16, id: u16)
        ensures message { (v : Message) (action : Action) (answered : ℕ) → Fits v →
            envelope.now ≡ envelope_of v action answered →
            answer_in self.new
            ≡ (port, canonical (sent_with v source (bodies.Fault action error id []))) }
        ensures whole { IsWholeAnswer self.new }
    {
        self.port = port;
        self.size = REFUSAL_OCTETS as u16;
        envelope.refuse_in(source, error, id, &mut self.octets[..REFUSAL_OCTETS]);
    }

    /// Writes a copy of a kept message, for another copy of its request.
    fn put_renewed(&mut self, port: u16, message: &[u8], renewal: &Renewal)
        requires long { 54 ≤ length message.now }
        requires small { length message.now ≤ 184 }
        ensures message { answer_in self.new ≡ (
          port,
          renewed renewal.now.domain renewal.now.port renewal.now.hops message.now,
        ) }
        ensures whole { IsWholeAnswer self.new }
    {
        self.port = port;
        self.size = message.len() as u16;
        let octets = &mut self.octets[..message.len()];
        copy_message(octets, message);
        renew(octets, renewal);
    }
}

/// A host's places for answers. The first of them have one.
#[derive(Drop)]
pub(crate) struct AnswerPlaces<'a> {
    room: &'a mut [SentAnswer],
    /// How many have an answer.
    count: usize,
    ghost few: { count ≤ length room.now },
    ghost whole: { All IsWholeAnswer (take count room.now) },
}

impl<'a> AnswerPlaces<'a> {
    /// These places, without answers.
    pub(crate) fn new(room: &'a mut [SentAnswer]) -> AnswerPlaces<'a>
        ensures same_reference { result.room.ghost_name ≡ room.entry.ghost_name }
        ensures room { result.room.now ≡ room.old }
        ensures count { result.count ≡ 0 }
    {
        AnswerPlaces { room, count: 0 }
    }
}

impl Outgoing for AnswerPlaces<'_> {
    ghost use Rattle.std.specs.Prelude.{length, take};
    ghost use Rattle.ptpm_host.specs.Answers.{answers_in};
    ghost use Rattle.ptpm_host.specs.AnswerPlaces.{HasMore, more_by_none, more_twice, room_stays};

    ghost sent = { λ p. answers_in (take p.count p.room.now) };

    ghost most = { λ p. length p.room.now };

    ghost grown = { HasMore };

    ghost grown_by_none = { more_by_none };

    ghost grown_twice = { more_twice };

    ghost as_many = { room_stays };

    fn count(&self) -> usize {
        self.count
    }

    fn message(&self, place: usize) -> &[u8] {
        let room = &*self.room;
        room[place].message()
    }

    fn push_answer(&mut self, port: u16, envelope: &Envelope, source: u16, octets: &[u8]) {
        let room = &mut *self.room;
        room[self.count].put_answer(port, envelope, source, octets);
        self.count += 1;
    }

    fn push_refusal(&mut self, port: u16, envelope: &Envelope, source: u16, error: u16, id: u16) {
        let room = &mut *self.room;
        room[self.count].put_refusal(port, envelope, source, error, id);
        self.count += 1;
    }

    fn push_renewed(&mut self, port: u16, message: &[u8], renewal: &Renewal) {
        let room = &mut *self.room;
        room[self.count].put_renewed(port, message, renewal);
        self.count += 1;
    }
}
