//! The seal of an image: 16 octets after it, by which damage to it is found (this project's profile).

ghost use Rattle.std.specs.Prelude.{◌≡◌, ◌≤◌, ◌<◌, ◌+◌, ◌^◌, ◌++◌, ◌↔◌, length, take, drop, IfNone, IfSome, IsSome, IsTrue};
ghost use Rattle.ptpm_seal.specs.Sealing.{count_after, image_size, is_headed, is_sealed, seal_of, unsealed};

use crate::crc::crc32;
use arrayvec::ArrayVec;
use byteorder::{BigEndian, ByteOrder};
use ptpm_codec::put;

/// How many octets a seal has.
pub const SEAL_OCTETS: usize = 16;

const MARK: [u8; 4] = *b"ptps";

const IMAGE_MARK: [u8; 4] = *b"ptpm";

const IMAGE_HEAD_OCTETS: usize = 12;

/// What a place begins with: an image, and how often it was saved.
#[derive(Clone, Copy, Debug, PartialEq, Eq)]
pub struct Sealed {
    /// How many octets the image has.
    pub size: usize,
    pub count: u64,
}

/// Why octets are no image that is whole.
#[derive(Clone, Copy, Debug, PartialEq, Eq)]
pub enum UnsealError {
    /// They do not begin as an image does.
    NotAnImage,
    /// They are too few, or have no seal after the image, or are not those that were sealed.
    Damaged,
}

/// Writes the seal of an image after it, and answers how many octets both have. The image is the first `size` octets. Those after
/// the seal stay. `None` if there is no room, and then nothing is written. Takes no memory.
pub fn seal(octets: &mut [u8], size: usize, count: u64) -> Option<usize>
    ensures room { IsSome result ↔ (size + 16 ≤ length octets.old) }
    ensures size { IfSome result (λ n. n ≡ size + 16) }
    ensures octets { IfSome result
        (λ n.
        octets.new
        ≡ take size octets.old ++ seal_of (take size octets.old) count ++ drop (size + 16) octets.old) }
    ensures unchanged { IfNone result (octets.new ≡ octets.old) }
{
    if octets.len() < SEAL_OCTETS || octets.len() - SEAL_OCTETS < size {
        return None;
    }
    let seal = seal_of(&octets[..size], count);
    octets[size..size + SEAL_OCTETS].copy_from_slice(seal.as_slice());
    Some(size + SEAL_OCTETS)
}

#[tactic(auto, unfolding(crate::specs::Sealing::seal_of))]
fn seal_of(image: &[u8], count: u64) -> ArrayVec<u8, SEAL_OCTETS>
    ensures octets { result.items ≡ seal_of image.now count }
    ensures size { length result.items ≡ 16 }
{
    let mut seal = ArrayVec::new();
    put(&mut seal, &MARK);
    put(&mut seal, &count.to_be_bytes());
    let crc = crc32(image, seal.as_slice());
    put(&mut seal, &crc.to_be_bytes());
    seal
}

/// What octets begin with: an image with its seal, whatever comes after them. An image without a seal is damaged: it may have lost just
/// that. Takes no memory.
#[tactic(auto, unfolding(crate::specs::Sealing::unsealed))]
pub fn unseal(octets: &[u8]) -> Result<Sealed, UnsealError>
    ensures { result ≡ unsealed octets.now }
{
    if !is_headed(octets) {
        return Err(UnsealError::NotAnImage);
    }
    let size = image_size(octets);
    if !is_sealed(octets, size) {
        return Err(UnsealError::Damaged);
    }
    Ok(Sealed {
        size,
        count: count_after(octets, size),
    })
}

fn is_headed(octets: &[u8]) -> bool
    ensures { result ≡ is_headed octets.now }
{
    IMAGE_HEAD_OCTETS <= octets.len() && octets[..4] == IMAGE_MARK[..]
}

/// How many octets an image has by its head.
#[tactic(auto, unfolding(crate::specs::Sealing::image_size))]
fn image_size(octets: &[u8]) -> usize
    requires { 12 ≤ length octets.now }
    ensures size { result ≡ image_size octets.now }
    ensures small { result < 2 ^ 33 }
{
    IMAGE_HEAD_OCTETS + BigEndian::read_u32(&octets[8..]) as usize
}

/// Whether octets begin with an image of this size and its seal.
#[tactic(auto, unfolding(crate::specs::Sealing::is_sealed))]
fn is_sealed(octets: &[u8], size: usize) -> bool
    requires { size < 2 ^ 33 }
    ensures sealed { result ≡ is_sealed size octets.now }
    ensures room { IsTrue result → size + 16 ≤ length octets.now }
{
    size + SEAL_OCTETS <= octets.len()
        && octets[size..size + 4] == MARK[..]
        && BigEndian::read_u32(&octets[size + 12..]) == crc32(&octets[..size + 12], &[])
}

/// The count of a seal after this many octets.
#[tactic(auto, unfolding(crate::specs::Sealing::count_after))]
fn count_after(octets: &[u8], size: usize) -> u64
    requires { size + 12 ≤ length octets.now }
    ensures { result ≡ count_after size octets.now }
{
    BigEndian::read_u64(&octets[size + 4..])
}
