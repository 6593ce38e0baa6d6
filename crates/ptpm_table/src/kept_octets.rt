//! The messages of a kept reply, in the value or in blocks of memory.

ghost use Rattle.std.specs.Prelude.{◌≡◌, ◌≤◌, ◌<◌, ◌+◌, ◌*◌, ◌++◌, ◌∷◌, [], IfOk, length, take};
ghost use Rattle.ptpm_codec.specs.Canonical.{canonical, tlv_octets};
ghost use Rattle.ptpm_codec.specs.Message.{Fits, IsValid};

use arrayvec::ArrayVec;
use ptpm_codec::{Draft, OutOfMemory, copy_message, encode_behind};
use ptpm_data::INLINE_PORTS;
use std::alloc::Global;
use std::marker::Model;

/// How many octets a reply's message has at most. It is of the clock: one of a port has `PORT_MESSAGE_OCTETS` at most.
pub(crate) const MESSAGE_OCTETS: usize = 184;

/// How many octets a message of a port's answer has at most.
pub(crate) const PORT_MESSAGE_OCTETS: usize = 80;

/// For how many octets of messages there is room in the value.
const INLINE_OCTETS: usize = PORT_MESSAGE_OCTETS * INLINE_PORTS;

/// Octets one after the other, in the value. So many of them are used.
#[derive(Drop)]
struct InlineOctets {
    room: [u8; INLINE_OCTETS],
    used: usize,
}

/// The size of each message, and the messages one after the other: in the value, or in two blocks of memory. Of the second
/// block the last number says how many octets are used.
#[derive(Drop)]
enum Places {
    Few(ArrayVec<u8, INLINE_PORTS>, InlineOctets),
    Many(Vec<u8>, Vec<u8>, usize),
}

/// The messages of a reply, and room for those of another. Once it is made, it takes no memory. Contracts see the size of each
/// message, the messages, and how many have room.
#[derive(Drop)]
pub(crate) struct KeptOctets {
    places: Places,
}

impl Model for KeptOctets {
    ghost use Rattle.ptpm_table.specs.KeptOctets.{HasRoom, OctetsValue, octets_value};

    ghost Value = { OctetsValue };

    ghost view = { octets_value };

    ghost invariant = { HasRoom };
}

impl KeptOctets {
    /// Room for `INLINE_PORTS` messages, in the value.
    #[inline(always)]
    pub(crate) fn new() -> KeptOctets
        ensures { result ≡ record { sizes = []; octets = []; most = INLINE_PORTS } }
    {
        KeptOctets {
            places: Places::Few(
                ArrayVec::new(),
                InlineOctets {
                    room: [0; INLINE_OCTETS],
                    used: 0,
                },
            ),
        }
    }

    /// Room for this many messages, in two blocks of memory.
    pub(crate) fn in_blocks(alloc: Global, most: usize) -> Result<KeptOctets, OutOfMemory>
        requires least { INLINE_PORTS ≤ most }
        requires few { most ≤ 65535 }
        ensures { IfOk result (λ kept. kept ≡ record { sizes = []; octets = []; most = most }) }
    {
        let Ok(sizes) = Vec::with_capacity(alloc, most) else {
            return Err(OutOfMemory);
        };
        let Ok(octets) = Vec::from_elem(alloc, 0, PORT_MESSAGE_OCTETS * most) else {
            return Err(OutOfMemory);
        };
        Ok(KeptOctets {
            places: Places::Many(sizes, octets, 0),
        })
    }

    /// The size of each message.
    #[inline(always)]
    pub(crate) fn sizes(&self) -> &[u8]
        ensures value { result.now ≡ self.now.sizes }
        ensures fits { length result.now ≤ self.now.most }
    {
        match &self.places {
            Places::Few(sizes, _) => sizes.as_slice(),
            Places::Many(sizes, _, _) => sizes.as_slice(),
        }
    }

    /// The messages.
    #[inline(always)]
    pub(crate) fn octets(&self) -> &[u8]
        ensures value { result.now ≡ self.now.octets }
    {
        match &self.places {
            Places::Few(_, inline) => &inline.room[..inline.used],
            Places::Many(_, octets, used) => &octets.as_slice()[..*used],
        }
    }

    /// Takes every message out.
    #[inline(always)]
    pub(crate) fn clear(&mut self)
        ensures { self.new ≡ record { sizes = []; octets = []; most = self.old.most } }
    {
        match &mut self.places {
            Places::Few(sizes, inline) => {
                *sizes = ArrayVec::new();
                inline.used = 0;
            }
            Places::Many(sizes, _, used) => {
                sizes.clear();
                *used = 0;
            }
        }
    }

    /// Appends a copy of a message.
    #[inline(always)]
    pub(crate) fn push(&mut self, message: &[u8])
        requires small { length message.now < 256 }
        requires count { length self.old.sizes < self.old.most }
        requires room { length self.old.octets + length message.now ≤ PORT_MESSAGE_OCTETS * self.old.most }
        ensures { self.new ≡ record {
          sizes = self.old.sizes ++ length message.now ∷ [];
          octets = self.old.octets ++ message.now;
          most = self.old.most;
        } }
    {
        match &mut self.places {
            Places::Few(sizes, inline) => {
                sizes.push(message.len() as u8);
                put_behind(&mut inline.room, inline.used, message);
                inline.used += message.len();
            }
            Places::Many(sizes, octets, used) => {
                sizes.push_reserved(message.len() as u8);
                put_behind(octets.as_mut_slice(), *used, message);
                *used += message.len();
            }
        }
    }

    /// Leaves a copy of one message, and nothing else.
    #[inline(always)]
    pub(crate) fn set(&mut self, message: &[u8])
        requires { length message.now ≤ MESSAGE_OCTETS }
        ensures { self.new ≡ record { sizes = length message.now ∷ []; octets = message.now; most = self.old.most } }
    {
        match &mut self.places {
            Places::Few(sizes, inline) => {
                *sizes = ArrayVec::new();
                sizes.push(message.len() as u8);
                put_behind(&mut inline.room, 0, message);
                inline.used = message.len();
            }
            Places::Many(sizes, octets, used) => {
                sizes.clear();
                sizes.push_reserved(message.len() as u8);
                put_behind(octets.as_mut_slice(), 0, message);
                *used = message.len();
            }
        }
    }

    /// Appends the canonical spelling of a draft.
    #[tactic(auto, using(crate::proofs::KeptMessageLaws::canonical_length))]
    pub(crate) fn encode(&mut self, draft: &Draft<'_>)
        requires valid { IsValid draft.now }
        requires small { 48 + length (tlv_octets draft.now.body) ≤ MESSAGE_OCTETS }
        requires count { length self.old.sizes < self.old.most }
        requires room { length self.old.octets + 48 + length (tlv_octets draft.now.body)
            ≤ PORT_MESSAGE_OCTETS * self.old.most }
        ensures kept { self.new ≡ record {
          sizes = self.old.sizes ++ length (canonical draft.now) ∷ [];
          octets = self.old.octets ++ canonical draft.now;
          most = self.old.most;
        } }
        ensures fits { Fits draft.now }
    {
        match &mut self.places {
            Places::Few(sizes, inline) => {
                let size = encode_at(draft, &mut inline.room, inline.used);
                sizes.push(size as u8);
                inline.used += size;
            }
            Places::Many(sizes, octets, used) => {
                let size = encode_at(draft, octets.as_mut_slice(), *used);
                sizes.push_reserved(size as u8);
                *used += size;
            }
        }
    }
}

/// Writes a message into a block, after the octets that are used.
#[inline(always)]
fn put_behind(block: &mut [u8], used: usize, message: &[u8])
    requires { used + length message.now ≤ length block.old }
    ensures octets { take (used + length message.now) block.new ≡ take used block.old ++ message.now }
    ensures size { length block.new ≡ length block.old }
{
    copy_message(&mut block[used..used + message.len()], message);
}

/// Writes the canonical spelling of a draft into a block, after the octets that are used; how many it has. Never inlined: so the stack
/// has room for the message only while it runs.
#[inline(never)]
#[tactic(auto, using(crate::proofs::KeptMessageLaws::canonical_length))]
fn encode_at(draft: &Draft<'_>, block: &mut [u8], used: usize) -> usize
    requires valid { IsValid draft.now }
    requires small { 48 + length (tlv_octets draft.now.body) ≤ MESSAGE_OCTETS }
    requires room { used + 48 + length (tlv_octets draft.now.body) ≤ length block.old }
    ensures octets { take (used + result) block.new ≡ take used block.old ++ canonical draft.now }
    ensures length { result ≡ length (canonical draft.now) }
    ensures within { used + result ≤ length block.old }
    ensures fits { Fits draft.now }
    ensures size { length block.new ≡ length block.old }
{
    let mut message: ArrayVec<u8, MESSAGE_OCTETS> = ArrayVec::new();
    let size = encode_behind(draft, &mut message);
    put_behind(block, used, message.as_slice());
    size
}
