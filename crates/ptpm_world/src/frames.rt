//! Every message that was ever sent, once for each end that it can reach.

ghost use Rattle.std.specs.Prelude.{◌≡◌, ◌≤◌, ◌+◌, ◌++◌, ℕ, List, [], All, OnOk, find, length, map, nat_lt, option_map, vec_capacity};
ghost use Rattle.std.specs.List.{list_any};
ghost use Rattle.std.specs.Option.{option_copied};
ghost use Rattle.ptpm_world.specs.Stored.{IsShort, IsWithin, at_end, is_same, others};

use ptpm_codec::{MESSAGE_OCTETS, OutOfMemory};
use ptpm_script::{End, MOST_ENDS, NetworkLink};
use ptpm_table::OUTBOX_MESSAGES;
use std::alloc::Global;

/// While more frames than this are held, nothing is sent or delivered. One event makes at most `FRAMES_OF_AN_EVENT`, so that
/// there are never over 400,000 (this project's profile).
pub(crate) const FRAMES_LIMIT: usize = 399_775;

/// A clock sends at most these messages in a turn, each to all other ends of a link.
const FRAMES_OF_AN_EVENT: usize = OUTBOX_MESSAGES * (MOST_ENDS - 1);

const OCTETS_OF_AN_EVENT: usize = OUTBOX_MESSAGES * MESSAGE_OCTETS;

/// What a frame belongs to.
#[derive(Clone, Copy, Debug, PartialEq, Eq)]
pub(crate) enum Origin {
    /// A session's request, by its place and the request's index from 1.
    Request { session: u16, index: u64 },
    /// The reply to it.
    Reply { session: u16, index: u64 },
    /// What strangers send, what a clock answers them, and what a clock answers to a message that is no numbered request.
    Other,
}

/// A frame in the store.
#[derive(Clone, Copy, Debug)]
struct Stored {
    end: End,
    origin: Origin,
    /// The place at which its octets begin.
    start: usize,
    size: usize,
}

/// A message on its way to one end.
#[derive(Clone, Copy, Debug)]
pub struct Frame<'a> {
    end: End,
    octets: &'a [u8],
    origin: Origin,
}

/// Frames in the order in which they were sent, over one store of octets: frames of one message share theirs. Nothing is
/// ever taken out.
#[derive(Drop)]
pub(crate) struct Frames {
    stored: Vec<Stored>,
    octets: Vec<u8>,
    ghost within: { All (IsWithin octets.items) stored.items },
    ghost short: { All IsShort stored.items },
    ghost few: { length stored.items ≤ 400000 },
}

impl Frame<'_> {
    /// The end that it reaches when it is delivered.
    pub fn end(&self) -> End
        ensures { result ≡ self.now.end }
    {
        self.end
    }

    /// The message.
    pub fn octets(&self) -> &[u8]
        ensures { result.now ≡ self.now.octets.now }
    {
        self.octets
    }

    pub(crate) fn origin(&self) -> Origin
        ensures { result ≡ self.now.origin }
    {
        self.origin
    }
}

impl Frames {
    ghost use Rattle.ptpm_network.specs.Events.{frame_at};
    ghost use Rattle.ptpm_network.specs.RunningNetwork.{posted};
    ghost use Rattle.ptpm_network.specs.Network.{peers};
    ghost use Rattle.ptpm_world.specs.Described.{described_end};
    ghost use Rattle.ptpm_world.specs.Frames.{HasRoom, frame_value, held_in, link_ends, origin_of};
    ghost use Rattle.ptpm_world.specs.Ends.{AreLinks, IsOfSession, IsStoredFrame};

    /// No frames yet. Takes no memory.
    pub(crate) fn new(alloc: Global) -> Frames
        ensures { held_in result ≡ [] }
    {
        Frames {
            stored: Vec::new(alloc),
            octets: Vec::new(alloc),
        }
    }

    /// How many are held.
    pub(crate) fn count(&self) -> usize
        ensures count { result ≡ length (held_in self.now) }
        ensures few { result ≤ 400000 }
    {
        self.stored.len()
    }

    /// Whether nothing more is sent or delivered.
    pub(crate) fn is_full(&self) -> bool
        ensures { result ≡ nat_lt FRAMES_LIMIT (length (held_in self.now)) }
    {
        self.stored.len() > FRAMES_LIMIT
    }

    /// The frame of a number, counted from 1.
    pub(crate) fn get(&self, number: u32) -> Option<Frame<'_>>
        ensures { option_map frame_value result ≡ frame_at (held_in self.now) number }
    {
        let stored = self.stored.get((number as usize).checked_sub(1)?)?;
        Some(Frame {
            end: stored.end,
            octets: &self.octets[stored.start..stored.start + stored.size],
            origin: stored.origin,
        })
    }

    /// Asks for the memory of all frames that one event makes, unless nothing more is sent. If it is refused, the frames stay as
    /// they were.
    pub(crate) fn make_room(&mut self) -> Result<(), OutOfMemory>
        ensures frames { held_in self.new ≡ held_in self.old }
        ensures stored { self.new.stored.items ≡ self.old.stored.items }
        ensures room { OnOk result (length (held_in self.old) ≤ FRAMES_LIMIT → HasRoom OUTBOX_MESSAGES self.new) }
    {
        if self.is_full() {
            return Ok(());
        }
        if self.stored.reserve(FRAMES_OF_AN_EVENT).is_err()
            || self.octets.reserve(OCTETS_OF_AN_EVENT).is_err()
        {
            return Err(OutOfMemory);
        }
        Ok(())
    }

    /// Sends a message at an end: a frame for each other end of its link, in the link's order. Without a link the message
    /// is lost. There is room for it.
    pub(crate) fn post(&mut self, links: &[NetworkLink], from: End, octets: &[u8], origin: Origin)
        requires room { HasRoom 1 self.old }
        requires small { length octets.now ≤ MESSAGE_OCTETS }
        requires few { (counts : List ℕ) × (sessions : ℕ) × AreLinks counts sessions links.now }
        ensures frames { held_in self.new
            ≡ held_in self.old
            ++ posted (peers (link_ends links.now) (described_end from)) octets.now
            (origin_of origin) }
        ensures room { (n : ℕ) → HasRoom (n + 1) self.old → HasRoom n self.new }
        ensures stored { (counts : List ℕ) (sessions : ℕ)
            → All (IsStoredFrame counts sessions) self.old.stored.items
            → AreLinks counts sessions links.now
            → IsOfSession sessions origin
            → All (IsStoredFrame counts sessions) self.new.stored.items }
    {
        let Some(link) = link_at(links, from) else {
            return;
        };
        let start = self.octets.len();
        if self.octets.extend_from_slice(octets).is_err() {
            unreachable!()
        }
        let sent = Stored {
            end: from,
            origin,
            start,
            size: octets.len(),
        };
        push_others(&mut self.stored, link.ends.as_slice(), sent);
    }
}

/// The link that an end is on.
fn link_at(links: &[NetworkLink], end: End) -> Option<&NetworkLink>
    ensures { option_copied result ≡ find (λ l. list_any (is_same end) l.ends.items) links.now }
{
    links.iter().find(|link| link.ends.contains(&end))
}

/// Stores a frame once for each of these ends except its own, in their order. There is room for them.
fn push_others(stored: &mut Vec<Stored>, ends: &[End], frame: Stored)
    requires { length stored.old.items + length (others frame.end ends.now)
        ≤ vec_capacity stored.old }
    ensures items { stored.new.items
        ≡ stored.old.items ++ map (at_end frame) (others frame.end ends.now) }
    ensures capacity { vec_capacity stored.new ≡ vec_capacity stored.old }
{
    for end in ends {
        if *end != frame.end {
            stored.push_reserved(Stored { end: *end, ..frame });
        }
    }
}
