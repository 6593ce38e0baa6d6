//! Places in which images are kept, so that one of them outlasts a torn write (this project's profile).

ghost use Rattle.std.specs.Prelude.{◌≡◌, ◌<◌, length, IfNone, IfSome, IsErr, Ok};
ghost use Rattle.ptpm_seal.specs.NewestImage.{IsNewestOf, is_newer, places_of};
ghost use Rattle.ptpm_seal.specs.Places.{held_in};

use crate::sealing::{Sealed, unseal};

/// A place, and the image that it holds.
#[derive(Clone, Copy, Debug, PartialEq, Eq)]
pub struct Newest {
    /// Counted from 0.
    pub place: usize,
    pub sealed: Sealed,
}

/// The newest whole image of the places that octets are, each of this size. It was saved most often, and if several were saved as
/// often, it is the first. Octets after the last whole place do not count. `None` if no place holds one, or the size is 0. Takes no
/// memory.
pub fn newest_image(octets: &[u8], size: usize) -> Option<Newest>
    ensures { IsNewestOf (held_in size octets.now) (places_of size (length octets.now)) result }
{
    let mut newest = None;
    if size == 0 {
        return None;
    }
    for place in 0..octets.len() / size {
        match held(octets, size, place) {
            Some(sealed) if is_newer(newest, sealed.count) => newest = Some(Newest {
                place,
                sealed,
            }),
            _ => {}
        }
    }
    newest
}

/// How many whole places of a size these octets are; none of size 0.
pub fn place_count(octets: usize, size: usize) -> usize
    ensures { result ≡ places_of size octets }
{
    if size == 0 { 0 } else { octets / size }
}

/// What a place holds.
fn held(octets: &[u8], size: usize, place: usize) -> Option<Sealed>
    requires { place < places_of size (length octets.now) }
    ensures some { IfSome result (λ s. held_in size octets.now place ≡ Ok s) }
    ensures none { IfNone result (IsErr (held_in size octets.now place)) }
{
    let start = place * size;
    match unseal(&octets[start..start + size]) {
        Ok(sealed) => Some(sealed),
        Err(_) => None,
    }
}

/// Whether an image that was saved this often is newer than the newest one before it.
fn is_newer(newest: Option<Newest>, count: u64) -> bool
    ensures { result ≡ is_newer newest count }
{
    match newest {
        None => true,
        Some(newest) => newest.sealed.count < count,
    }
}
