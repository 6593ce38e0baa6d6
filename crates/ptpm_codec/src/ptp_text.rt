//! A PTPText (5.3.9): a length octet, the text, and a pad octet if the number of both is odd.

ghost use Rattle.std.specs.Prelude.{◌≡◌, ◌≤◌, length, true};
ghost use Rattle.ptpm_codec.specs.PtpText.{is_ptp_text, ptp_text, ptp_text_octets};

use crate::buffers::fit;
use arrayvec::ArrayVec;

/// Leaves a text of at most 255 octets as a PTPText in a buffer that has room for it, and nothing else. That is one octet more
/// than the text, rounded up to an even number. The octets of the text are not judged. Takes no memory.
pub fn overwrite_ptp_text<const N: usize>(buffer: &mut ArrayVec<u8, N>, text: &[u8])
    requires small { length text.now ≤ 255 }
    requires room { length (ptp_text_octets text.now) ≤ N }
    ensures { buffer.new.items ≡ ptp_text_octets text.now }
{
    fit(buffer, ptp_text_size(text));
    write_ptp_text(buffer.as_mut_slice(), text);
}

/// Writes a text as a PTPText over a place of its size.
#[tactic(auto, unfolding(crate::specs::PtpText::ptp_text_octets))]
pub(crate) fn write_ptp_text(place: &mut [u8], text: &[u8])
    requires small { length text.now ≤ 255 }
    requires size { length place.old ≡ length (ptp_text_octets text.now) }
    ensures { place.new ≡ ptp_text_octets text.now }
{
    let (length, rest) = place.split_at_mut(1);
    let (octets, pad) = rest.split_at_mut(text.len());
    length.copy_from_slice(&[text.len() as u8]);
    octets.copy_from_slice(text);
    pad.fill(0);
}

/// How many octets a text takes as a PTPText.
#[tactic(auto, unfolding(crate::specs::PtpText::ptp_text_octets))]
pub(crate) fn ptp_text_size(text: &[u8]) -> usize
    requires { length text.now ≤ 255 }
    ensures value { result ≡ length (ptp_text_octets text.now) }
    ensures small { result ≤ 256 }
{
    1 + text.len() + (1 + text.len()) % 2
}

/// Whether the octets are one PTPText with its pad.
pub fn is_ptp_text(octets: &[u8]) -> bool
    ensures { result ≡ is_ptp_text octets.now }
{
    match octets {
        [] => false,
        [length, rest @ ..] => {
            let size = 1 + *length as usize;
            1 + rest.len() == size + size % 2
        }
    }
}

/// The text of a PTPText.
pub fn text_of_ptp_text(octets: &[u8]) -> &[u8]
    requires { is_ptp_text octets.now ≡ true }
    ensures { result.now ≡ ptp_text octets.now }
{
    match octets {
        [] => octets,
        [length, rest @ ..] => &rest[..*length as usize],
    }
}
