//! The messages of one reply. Each has a port and an answer of its own.

ghost use Rattle.std.specs.Prelude.{◌≡◌, ◌≤◌, ◌+◌, [], ℕ, length, replicate};
ghost use Rattle.ptpm_codec.specs.declared.message.Action.{Action};
ghost use Rattle.ptpm_codec.specs.declared.message.Body.TheVariants as bodies;
ghost use Rattle.ptpm_codec.specs.declared.message.Message.{Message};
ghost use Rattle.ptpm_codec.specs.Canonical.{canonical};
ghost use Rattle.ptpm_codec.specs.Envelope.{envelope_of, sent_with};
ghost use Rattle.ptpm_codec.specs.Message.{Fits, IsValid, action_of};

use crate::buffers::fit;
use crate::draft::Draft;
use crate::encoding::{
    Buffer, HEADER_OCTETS, write_error_head, write_header, write_management_head,
};
use crate::places::write_u16;
use std::marker::Model;

/// How many octets of a message come before its dataField.
pub const HEAD_OCTETS: usize = 54;

/// How many octets an error status without text has.
pub const REFUSAL_OCTETS: usize = 60;

/// What the messages of one reply have in common, put together once: the message with an empty dataField. Contracts see its
/// octets.
#[derive(Drop)]
pub struct Envelope {
    head: [u8; HEAD_OCTETS],
}

impl Model for Envelope {
    ghost use Rattle.std.specs.Prelude.{List, ℕ};

    ghost Value = { List ℕ };

    ghost view = { λ e. e.head };
}

impl Envelope {
    /// An envelope without address. It is addressed in place, since returning it with its octets would move them.
    #[inline(always)]
    pub fn blank() -> Envelope
        ensures { result ≡ replicate 54 0 }
    {
        Envelope {
            head: [0; HEAD_OCTETS],
        }
    }

    /// Makes of a blank envelope that of the messages like this draft, which is an answer of this id without octets.
    #[inline(always)]
    #[tactic(auto, using(crate::proofs::CanonicalLaws::envelope_in_two))]
    pub fn address(&mut self, draft: &Draft<'_>, id: u16)
        requires blank { self.old ≡ replicate 54 0 }
        requires valid { IsValid draft.now }
        requires empty { draft.now.body ≡ bodies.Answer (action_of draft.now.body) id [] }
        ensures octets { self.new ≡ canonical draft.now }
        ensures fits { Fits draft.now }
    {
        let (header, tlv) = self.head.as_mut_slice().split_at_mut(HEADER_OCTETS);
        write_header(header, draft, HEAD_OCTETS as u16);
        write_management_head(tlv, id, 0);
    }

    /// Leaves the message that answers this dataField from this port in the buffer, and nothing else. The dataField has 1,418
    /// octets at most. Takes no memory.
    #[inline(always)]
    pub fn answer(&self, port: u16, octets: &[u8], buffer: &mut Buffer)
        requires { length octets.now ≤ 1418 }
        ensures { (v : Message) (action : Action) (id : ℕ) → Fits v →
            self.now ≡ envelope_of v action id →
            buffer.new.items ≡ canonical (sent_with v port (bodies.Answer action id octets.now)) }
    {
        fit(buffer, HEAD_OCTETS + octets.len());
        self.answer_in(port, octets, buffer.as_mut_slice());
    }

    /// Writes the message that answers this dataField from this port over a place of its size. That is 54 octets and those of
    /// the dataField, which are 1,418 at most.
    #[inline(always)]
    pub fn answer_in(&self, port: u16, octets: &[u8], place: &mut [u8])
        requires small { length octets.now ≤ 1418 }
        requires size { length place.old ≡ 54 + length octets.now }
        ensures { (v : Message) (action : Action) (id : ℕ) → Fits v →
            self.now ≡ envelope_of v action id →
            place.new ≡ canonical (sent_with v port (bodies.Answer action id octets.now)) }
    {
        let (head, data_field) = place.split_at_mut(HEAD_OCTETS);
        head.copy_from_slice(&self.head);
        data_field.copy_from_slice(octets);
        let size = octets.len() as u16;
        write_u16(place, 2, HEAD_OCTETS as u16 + size);
        write_u16(place, 28, port);
        write_u16(place, 50, 2 + size);
    }

    /// Leaves the error status without text that refuses an id from this port in the buffer, and nothing else. Takes no
    /// memory. It is never inlined: most answers are none.
    #[inline(never)]
    pub fn refuse(&self, port: u16, error: u16, id: u16, buffer: &mut Buffer)
        ensures { (v : Message) (action : Action) (answered : ℕ) → Fits v →
            self.now ≡ envelope_of v action answered →
            buffer.new.items ≡ canonical (sent_with v port (bodies.Fault action error id [])) }
    {
        fit(buffer, REFUSAL_OCTETS);
        self.refuse_in(port, error, id, buffer.as_mut_slice());
    }

    /// Writes the error status without text that refuses an id from this port over a place of its size, 60 octets. It is never
    /// inlined: most answers are none.
    #[inline(never)]
    pub fn refuse_in(&self, port: u16, error: u16, id: u16, place: &mut [u8])
        requires { length place.old ≡ 60 }
        ensures { (v : Message) (action : Action) (answered : ℕ) → Fits v →
            self.now ≡ envelope_of v action answered →
            place.new ≡ canonical (sent_with v port (bodies.Fault action error id [])) }
    {
        let (header, tlv) = place.split_at_mut(HEADER_OCTETS);
        header.copy_from_slice(&self.head[..HEADER_OCTETS]);
        write_error_head(tlv, error, id, 0);
        write_u16(place, 2, REFUSAL_OCTETS as u16);
        write_u16(place, 28, port);
    }
}
