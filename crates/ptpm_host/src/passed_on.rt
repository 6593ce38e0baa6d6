//! Which messages were passed on last, in a table of fixed size. A message that comes round again is recognized by it (this
//! project's profile).

ghost use Rattle.std.specs.Prelude.{◌≡◌, ◌<◌, ◌≤◌, IfSome, MatchBool, MatchOption, false, length};
ghost use Rattle.ptpm_codec.specs.declared.message.Message.{Message};
ghost use Rattle.ptpm_host.specs.Transit.{header_key, key_in};
ghost use Rattle.ptpm_host.specs.PassedOn.{FreeFrom, HasFrom, IsAsked, IsTableSize, LacksFrom, NotesNothing, TakenFrom, first_place, free, is_live, is_noted, key_of, nth_from, place_from, same_key, stirred, table_of};

use crate::transit::unread;
use ptpm_codec::{View, port_identity_at, u16_at, view};

/// How many places a message may be noted in. A table has as many at least.
const TRIED: usize = 16;

/// How many places a table has at most.
const MOST_PLACES: usize = 1_048_576;

/// What distinguishes one message from another: who sent it, under which sequenceId, to whom, and what it does (13.3 and 15.4).
/// A clockIdentity is one number.
#[repr(C)]
#[derive(Clone, Copy, PartialEq, Eq)]
pub struct MessageKey {
    pub source_clock: u64,
    pub target_clock: u64,
    pub source_port: u16,
    pub number: u16,
    pub target_port: u16,
    /// managementId.
    pub id: u16,
    /// actionField.
    pub action: u8,
}

/// A message that was passed on, when, and for how long it stays noted. All zeros: a free place.
#[repr(C)]
#[derive(Clone, Copy)]
pub struct PassedOnPlace {
    since: u64,
    time: u64,
    key: MessageKey,
}

/// The messages that were passed on last. Times are its host's, in one unit.
#[repr(C)]
#[derive(Drop)]
pub struct PassedOn {
    /// Keeps anyone else from knowing a message's places.
    seed: u64,
    places: [PassedOnPlace; 4096],
}

const _: () = prove!(size_of::<PassedOn>() == 196_616);

impl MessageKey {
    /// The key of a message.
    pub fn of(message: &View<'_>) -> MessageKey
        ensures { result ≡ key_of message.now }
    {
        MessageKey {
            source_clock: u64::from_be_bytes(message.source().clock.0),
            target_clock: u64::from_be_bytes(message.target().clock.0),
            source_port: message.source().port,
            number: message.number(),
            target_port: message.target().port,
            id: message.id(),
            action: message.action().code(),
        }
    }

    /// The key of one that is passed on unread.
    fn of_header(message: &[u8]) -> MessageKey
        requires { 54 ≤ length message.now }
        ensures { result ≡ header_key message.now }
    {
        let source = port_identity_at(message, 20);
        let target = port_identity_at(message, 34);
        MessageKey {
            source_clock: u64::from_be_bytes(source.clock.0),
            target_clock: u64::from_be_bytes(target.clock.0),
            source_port: source.port,
            number: u16_at(message, 30),
            target_port: target.port,
            id: u16_at(message, 52),
            action: message[46] % 16,
        }
    }

    /// Whether both keys are the same.
    fn is_same(&self, other: &MessageKey) -> bool
        ensures { result ≡ same_key self.now other.now }
    {
        self == other
    }

    /// The first of its places in a table of this number of places and this seed.
    #[tactic(auto, unfolding(crate::specs::PassedOn::first_place))]
    fn first_place(&self, count: usize, seed: u64) -> usize
        requires { IsTableSize count }
        ensures place { result ≡ first_place count seed self.now }
        ensures within { result < count }
    {
        let ports = (self.source_port as u64) << 32 | (self.target_port as u64) << 16;
        let clocks = stirred(stirred(seed, self.source_clock), self.target_clock);
        let rest = (self.number as u64) << 32 | (self.id as u64) << 8 | self.action as u64;
        (stirred(stirred(clocks, ports), rest) % count as u64) as usize
    }
}

/// Mixes a number with another one, to choose a message's places.
#[tactic(auto, unfolding(crate::specs::PassedOn::stirred))]
fn stirred(number: u64, by: u64) -> u64
    ensures { result ≡ stirred number by }
{
    let product = (number ^ by).wrapping_mul(0x9e37_79b9_7f4a_7c15);
    product ^ product >> 32
}

impl PassedOnPlace {
    /// Nothing is noted in it.
    const FREE: PassedOnPlace = PassedOnPlace {
        since: 0,
        time: 0,
        key: MessageKey {
            source_clock: 0,
            target_clock: 0,
            source_port: 0,
            number: 0,
            target_port: 0,
            id: 0,
            action: 0,
        },
    };

    /// Whether something is still noted in it.
    fn is_live(&self, now: u64) -> bool
        ensures { result ≡ is_live now self.now }
    {
        now.saturating_sub(self.since) < self.time
    }

    /// Whether a message of this key is noted in it.
    fn is_noted(&self, key: &MessageKey, now: u64) -> bool
        ensures { result ≡ is_noted now key.now self.now }
    {
        self.is_live(now) && self.key.is_same(key)
    }
}

impl PassedOn {
    /// A table in which nothing is noted.
    pub fn new(seed: u64) -> PassedOn
        ensures seed { result.seed ≡ seed }
        ensures empty { NotesNothing result }
    {
        PassedOn {
            seed,
            places: [PassedOnPlace::FREE; 4096],
        }
    }

    /// Whether a message is to be passed on: if none with its key is noted, and a place is free. It is noted there from now on
    /// for `time`. Octets that are no management message are not passed on.
    pub fn is_first(&mut self, message: &[u8], now: u64, time: u64) -> bool
        ensures asked { MatchOption (key_in message.now)
            ((result ≡ false) × (self.new ≡ self.old))
            (λ key. IsAsked self.old key now time result self.new) }
    {
        is_first_of(self.seed, &mut self.places, message, now, time)
    }
}

/// What `PassedOn::is_first` does, over places of its host's and with this seed. A table has 16 to 1,048,576 places. If there are
/// fewer or more, no message is passed on.
#[inline(always)]
pub fn is_first_of(
    seed: u64,
    places: &mut [PassedOnPlace],
    message: &[u8],
    now: u64,
    time: u64,
) -> bool
    ensures asked { IsTableSize (length places.old) → MatchOption (key_in message.now)
        ((result ≡ false) × (places.new ≡ places.old))
        (λ key. IsAsked (table_of seed places.old) key now time result (table_of seed places.new)) }
    ensures no_table { (IsTableSize (length places.old) → ⊥)
        → (result ≡ false) × (places.new ≡ places.old) }
{
    if places.len() < TRIED || places.len() > MOST_PLACES {
        return false;
    }
    match key_in(message) {
        Some(key) => notes(seed, places, &key, now, time),
        None => false,
    }
}

/// The key of a datagram that is a management message, read or not.
fn key_in(datagram: &[u8]) -> Option<MessageKey>
    ensures { result ≡ key_in datagram.now }
{
    match view(datagram) {
        Ok(message) => Some(MessageKey::of(&message)),
        Err(_) => unread(datagram).map(MessageKey::of_header),
    }
}

/// The same for the message's key.
fn notes(seed: u64, places: &mut [PassedOnPlace], key: &MessageKey, now: u64, time: u64) -> bool
    requires { IsTableSize (length places.old) }
    ensures { IsAsked (table_of seed places.old) key.now now time result (table_of seed places.new) }
{
    let first = key.first_place(places.len(), seed);
    if has_from(places, first, key, now) {
        return false;
    }
    match free_from(places, first, now) {
        Some(place) => {
            places[place] = PassedOnPlace {
                since: now,
                time,
                key: *key,
            };
            true
        }
        None => false,
    }
}

/// Whether one of sixteen places from this one on has a message of this key.
fn has_from(places: &[PassedOnPlace], first: usize, key: &MessageKey, now: u64) -> bool
    requires size { IsTableSize (length places.now) }
    requires first { first < length places.now }
    ensures { MatchBool result (HasFrom places.now first now key.now)
        (LacksFrom places.now first now key.now) }
{
    for i in 0..TRIED {
        if nth_from(places, first, i).is_noted(key, now) {
            return true;
        }
    }
    false
}

/// The first of sixteen places from this one on that is free.
fn free_from(places: &[PassedOnPlace], first: usize, now: u64) -> Option<usize>
    requires size { IsTableSize (length places.now) }
    requires first { first < length places.now }
    ensures free { MatchOption result (TakenFrom places.now first now)
        (λ place. FreeFrom places.now first now place) }
    ensures within { IfSome result (λ place. place < length places.now) }
{
    for i in 0..TRIED {
        if !nth_from(places, first, i).is_live(now) {
            return Some(place_from(places.len(), first, i));
        }
    }
    None
}

/// A place counted from another one on. After the last place comes the first again.
fn nth_from(places: &[PassedOnPlace], first: usize, i: usize) -> &PassedOnPlace
    requires size { IsTableSize (length places.now) }
    requires first { first < length places.now }
    requires nth { i < 16 }
    ensures { result.now ≡ nth_from places.now first i }
{
    &places[place_from(places.len(), first, i)]
}

/// The same as a number, of a table of this number of places. Cheaper than a remainder.
#[inline(always)]
fn place_from(count: usize, first: usize, i: usize) -> usize
    requires size { IsTableSize count }
    requires first { first < count }
    requires nth { i < 16 }
    ensures place { result ≡ place_from count first i }
    ensures within { result < count }
{
    let place = first + i;
    if place < count { place } else { place - count }
}
