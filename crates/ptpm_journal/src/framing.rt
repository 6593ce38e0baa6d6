//! The frames of records in a file.

ghost use Rattle.std.specs.Prelude.{◌≡◌, ◌≤◌, ◌<◌, ◌+◌, ◌^◌, ◌++◌, ℕ, length};
ghost use Rattle.ptpm_journal.specs.Frames.{are_zeros, counted, crc_after, frame_at, framed};

use arrayvec::ArrayVec;
use byteorder::{BigEndian, ByteOrder};
use ptpm_codec::{put, put_u16};
use ptpm_seal::crc32;

/// How many octets a record has besides its body.
pub const FRAME_OCTETS: usize = 6;

/// The most octets of a record.
pub const RECORD_OCTETS: usize = 8_221;

/// What comes next in a file.
#[derive(Clone, Copy)]
pub enum Frame {
    /// A record whose body has this size.
    Whole { size: usize },
    /// Nothing that was written whole.
    Torn,
    Damaged,
}

/// What comes next, after this CRC-32. Takes no memory.
#[tactic(auto, unfolding(crate::specs::Frames::frame_at))]
pub fn frame_at(crc: u32, octets: &[u8]) -> Frame
    ensures frame { result ≡ frame_at crc octets.now }
    ensures within { (size : ℕ) → result ≡ Frame.Whole size → (size + 6 ≤ length octets.now) × (size < 2 ^ 16) }
{
    if are_zeros(octets) || octets.len() < FRAME_OCTETS {
        return Frame::Torn;
    }
    let size = usize::from(BigEndian::read_u16(octets));
    if octets.len() < size + FRAME_OCTETS {
        return Frame::Torn;
    }
    let found = BigEndian::read_u32(&octets[size + 2..]);
    if size == 0 || found != crc_after(crc, &octets[..size + 2]) {
        return Frame::Damaged;
    }
    Frame::Whole { size }
}

pub fn are_zeros(octets: &[u8]) -> bool
    ensures { result ≡ are_zeros octets.now }
{
    for octet in octets {
        if *octet != 0 {
            return false;
        }
    }
    true
}

/// The CRC-32 after a size and a body.
pub fn crc_after(crc: u32, octets: &[u8]) -> u32
    ensures { result ≡ crc_after crc octets.now }
{
    crc32(&crc.to_be_bytes(), octets)
}

/// What comes before a record, the record after this CRC-32, and its own CRC-32.
pub fn framed(lead: &[u8], crc: u32, body: &[u8]) -> (ArrayVec<u8, RECORD_OCTETS>, u32)
    requires lead { length lead.now ≤ 4 }
    requires body { length body.now ≤ 8211 }
    ensures octets { result.0.items ≡ lead.now ++ framed crc body.now }
    ensures crc { result.1 ≡ crc_after crc (counted body.now) }
{
    let mut octets = ArrayVec::new();
    put(&mut octets, lead);
    put_u16(&mut octets, body.len() as u16);
    put(&mut octets, body);
    let after = crc_after(crc, &octets.as_slice()[lead.len()..]);
    put(&mut octets, &after.to_be_bytes());
    (octets, after)
}
