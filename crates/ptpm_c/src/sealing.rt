//! The seal of an image for hosts in C, and which of some places has the newest image. No call here takes a handle or memory.

ghost use Rattle.std.specs.Prelude.{◌≡◌, ◌≤◌, ◌<◌, ◌+◌, ◌++◌, IfErr, IfOk, drop, length, take};
ghost use Rattle.ptpm_host.specs.Numbers.{no_room, unseal_number};
ghost use Rattle.ptpm_seal.specs.NewestImage.{places_of};
ghost use Rattle.ptpm_seal.specs.Places.{HoldNone, IsNewest, held_in};
ghost use Rattle.ptpm_seal.specs.Sealing.{seal_of, unsealed};

use ptpm_host::{NO_ROOM, unseal_number};
use ptpm_seal::{newest_image, place_count, seal, unseal};

/// Writes the seal of an image after it: 0. The image is the first `size` octets, and `sealed` gets how many octets both have. If
/// it is refused for want of room, nothing is written, and `sealed` is 0. What comes after the seal stays.
#[unsafe(no_mangle)]
pub extern "C" fn ptpm_image_seal_in(
    octets: &mut [u8],
    size: usize,
    count: u64,
    sealed: &mut usize,
) -> u32
    ensures sealed { size + 16 ≤ length octets.old
        → (result ≡ 0)
        × ((sealed.new ≡ size + 16)
        × (octets.new
        ≡ take size octets.old ++ seal_of (take size octets.old) count ++ drop (size + 16) octets.old)) }
    ensures room { length octets.old < size + 16
        → (result ≡ no_room) × ((sealed.new ≡ 0) × (octets.new ≡ octets.old)) }
{
    match seal(octets, size, count) {
        Some(both) => {
            *sealed = both;
            0
        }
        None => {
            *sealed = 0;
            NO_ROOM
        }
    }
}

/// What octets begin with: an image with its seal, or an image alone: 0. `count` gets how often it was saved, and `image` how many
/// octets the image has. Both are 0 if it is refused, by the number of the refusal.
#[unsafe(no_mangle)]
pub extern "C" fn ptpm_image_unseal(octets: &[u8], count: &mut u64, image: &mut usize) -> u32
    ensures unsealed { IfOk (unsealed octets.now)
        (λ s. (result ≡ 0) × ((count.new ≡ s.count) × (image.new ≡ s.size))) }
    ensures refused { IfErr (unsealed octets.now)
        (λ e. (result ≡ unseal_number e) × ((count.new ≡ 0) × (image.new ≡ 0))) }
{
    *count = 0;
    *image = 0;
    match unseal(octets) {
        Ok(sealed) => {
            *count = sealed.count;
            *image = sealed.size;
            0
        }
        Err(error) => unseal_number(error),
    }
}

/// Which of the places that octets are, each of this size, holds the newest image, counted from 0. `count` gets how often it was
/// saved, and `image` how many octets it has. If no place holds one, the answer is how many places there are, and both are 0.
#[unsafe(no_mangle)]
pub extern "C" fn ptpm_newest_image_in(
    octets: &[u8],
    place: usize,
    count: &mut u64,
    image: &mut usize,
) -> usize
    ensures newest { result < places_of place (length octets.now)
        → IsNewest (held_in place octets.now) (places_of place (length octets.now)) result
        (record { size = image.new; count = count.new }) }
    ensures none { places_of place (length octets.now) ≤ result
        → (result ≡ places_of place (length octets.now))
        × ((HoldNone (held_in place octets.now) result) × ((count.new ≡ 0) × (image.new ≡ 0))) }
{
    match newest_image(octets, place) {
        Some(newest) => {
            *count = newest.sealed.count;
            *image = newest.sealed.size;
            newest.place
        }
        None => {
            *count = 0;
            *image = 0;
            place_count(octets.len(), place)
        }
    }
}
