//! What became of the step that a journal has begun last in the session with a clock.

ghost use Rattle.std.specs.Prelude.{◌≡◌};
ghost use Rattle.std.specs.Option.{option_map};
ghost use Rattle.ptpm_table.specs.Numbering.{same_request};
ghost use Rattle.ptpm_apply.specs.InFile.{in_file_of, session_in};
ghost use Rattle.ptpm_apply.specs.Standing.{begun_in, begun_with, left_in, standing_of};

use crate::in_file::InFile;
use crate::noted::{Begun, Noted};
use ptpm_data::Request;

/// What became of it. A program that was ended goes on from there.
#[derive(Clone, Copy, Debug, PartialEq, Eq)]
pub enum Standing {
    /// No step is uncertain, and no request is under way.
    NothingLeft,
    /// The step's request is under way. It may have been carried out, so it is sent again under its number.
    UnderWay,
    /// No message of the step left. That is noted, and the step is asked.
    NeverBegun,
    /// The same; another program took the number, and its request is under way. It is settled first.
    NumberTaken,
    /// Another program used the session since, or the file is gone. Nothing is asked.
    Unknown,
    /// The request under way is that of a step whose answer is noted. It is given up, or sent again, and then the same answer comes.
    Told,
    /// The request under way is another program's. It is settled first.
    OfAnother,
}

/// What became of it, by what the journal has and by the image in the session's file. Without a file there are no octets.
pub fn find_standing(noted: &Noted<'_>, image: &[u8]) -> Standing
    ensures { result ≡ standing_of noted.now (option_map in_file_of (session_in image.now)) }
{
    let file = InFile::of_image(image);
    match &noted.begun {
        Some(begun) => standing_of_begun(begun, &file),
        None => standing_of_left(noted.told, &file),
    }
}

/// What became of a step that is begun and has no answer noted.
fn standing_of_begun(begun: &Begun<'_>, file: &Option<InFile<'_>>) -> Standing
    ensures { result ≡ begun_in begun.now file.now }
{
    let Some(file) = file else {
        return Standing::Unknown;
    };
    match &file.left {
        Some(request) if file.latest == begun.number => standing_of_request(begun, request),
        None if file.next == begun.number => Standing::NeverBegun,
        _ => Standing::Unknown,
    }
}

/// The same if a request with its number is under way.
fn standing_of_request(begun: &Begun<'_>, request: &Request<'_>) -> Standing
    ensures { result ≡ begun_with begun.now request.now }
{
    if is_same(&begun.request, request) {
        Standing::UnderWay
    } else {
        Standing::NumberTaken
    }
}

/// What is under way if no step is uncertain.
fn standing_of_left(told: Option<u16>, file: &Option<InFile<'_>>) -> Standing
    ensures { result ≡ left_in told file.now }
{
    let Some(file) = file else {
        return Standing::NothingLeft;
    };
    match (&file.left, told) {
        (None, _) => Standing::NothingLeft,
        (Some(_), Some(number)) if number == file.latest => Standing::Told,
        (Some(_), _) => Standing::OfAnother,
    }
}

/// Whether two requests have the same action, id, port and dataField.
fn is_same(begun: &Request<'_>, left: &Request<'_>) -> bool
    ensures { result ≡ same_request begun.now left.now }
{
    begun.action.code() == left.action.code()
        && begun.id == left.id
        && begun.port == left.port
        && begun.octets == left.octets
}
