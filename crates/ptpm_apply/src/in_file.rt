//! What the file of a session has.

ghost use Rattle.std.specs.Prelude.{◌≡◌, ◌+◌, true};
ghost use Rattle.std.specs.Option.{option_map};
ghost use Rattle.ptpm_codec.specs.SequenceNumber.{number_of};
ghost use Rattle.ptpm_manager.specs.ImageReading.{session_at, unanswered_at};
ghost use Rattle.ptpm_manager.specs.Restoring.{is_long};
ghost use Rattle.ptpm_apply.specs.InFile.{in_file_of, left_of, session_in};

use byteorder::{BigEndian, ByteOrder};
use ptpm_asker::{is_question, request_in};
use ptpm_codec::u16_at;
use ptpm_data::Request;

/// The numbers in the file of a session, and the request there. A question whether a number is new is no request here.
#[derive(Debug, Drop)]
pub struct InFile<'a> {
    /// The number of the latest request.
    pub latest: u16,
    /// The number of the next one.
    pub next: u16,
    /// The request under way.
    pub left: Option<Request<'a>>,
}

impl<'a> InFile<'a> {
    /// What an image has. Octets that are too few for one are no file.
    pub fn of_image(image: &'a [u8]) -> Option<InFile<'a>>
        ensures { result ≡ option_map in_file_of (session_in image.now) }
    {
        if is_long(image) {
            Some(InFile::of_long(image))
        } else {
            None
        }
    }

    fn of_long(image: &'a [u8]) -> InFile<'a>
        requires { is_long image.now ≡ true }
        ensures { result ≡ in_file_of (session_at image.now) }
    {
        let issued = issued_in(image);
        let first = first_in(image);
        InFile {
            latest: latest_number(first, issued),
            next: next_number(first, issued),
            left: left_in(image),
        }
    }
}

/// Whether there are the octets up to the request, and those up to its dataField if there is one.
fn is_long(image: &[u8]) -> bool
    ensures { result ≡ is_long image.now }
{
    image.len() >= 53 && (image[52] == 0 || image.len() >= 60)
}

/// How many requests were begun.
#[tactic(auto, unfolding(ptpm_manager::specs::ImageReading::count_at))]
fn issued_in(image: &[u8]) -> u64
    requires { is_long image.now ≡ true }
    ensures { result ≡ (session_at image.now).issued }
{
    BigEndian::read_u64(&image[36..])
}

/// The number of the first request.
#[tactic(auto, unfolding(ptpm_manager::specs::ImageReading::setup_at))]
fn first_in(image: &[u8]) -> u16
    requires { is_long image.now ≡ true }
    ensures { result ≡ (session_at image.now).setup.first }
{
    u16_at(image, 31)
}

/// The number of the latest of this many requests.
fn latest_number(first: u16, issued: u64) -> u16
    ensures { result ≡ number_of first issued }
{
    let further = issued.saturating_sub(1) % 65_536;
    ((u64::from(first) + further) % 65_536) as u16
}

/// The number of the request after this many.
fn next_number(first: u16, issued: u64) -> u16
    ensures { result ≡ number_of first (issued + 1) }
{
    let further = issued % 65_536;
    ((u64::from(first) + further) % 65_536) as u16
}

/// The request under way, if it is no question.
fn left_in(image: &[u8]) -> Option<Request<'_>>
    requires { is_long image.now ≡ true }
    ensures { result ≡ left_of (unanswered_at image.now) }
{
    match request_in(image) {
        Some(request) if !is_question(&request) => Some(request),
        _ => None,
    }
}
