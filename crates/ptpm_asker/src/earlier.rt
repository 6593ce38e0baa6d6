//! What an earlier run left under way.

ghost use Rattle.std.specs.Prelude.{◌≡◌, true, Some};
ghost use Rattle.ptpm_manager.specs.ImageReading.{request_action, unanswered_at};
ghost use Rattle.ptpm_manager.specs.Restoring.{is_long};
ghost use Rattle.ptpm_asker.specs.Question.{change_of, is_question};

use ptpm_codec::{Action, u16_at};
use ptpm_data::Request;

/// The request of an earlier run.
#[derive(Clone, Copy, Debug, PartialEq, Eq)]
pub enum Earlier {
    /// None is under way.
    NoRequest,
    /// It asks whether a number is new. It is sent again for the next request, and never given up.
    Question,
    /// A GET. It changes nothing, so it is settled in the domain of this run.
    Reads,
    /// A SET of DOMAIN to this one. The clock may be there by now.
    MovesTo(u8),
    /// Another SET or a COMMAND. It is settled in the domain in which it was asked.
    Changes,
}

/// How many octets an image has before the dataField of its request.
const FRONT: usize = 60;

/// The octet of an image that says whether a request is under way.
const IS_UNDER_WAY: usize = 52;

impl Earlier {
    ghost use Rattle.ptpm_asker.specs.Question.{earlier_of};
    ghost use Rattle.ptpm_asker.specs.Turns.{is_left_question, is_unsettled, settling_domain};

    /// What a session's image has under way.
    pub(crate) fn of_image(image: &[u8]) -> Earlier
        requires { is_long image.now ≡ true }
        ensures { result ≡ earlier_of (unanswered_at image.now) }
    {
        match request_in(image) {
            Some(request) => Earlier::of_request(&request),
            None => Earlier::NoRequest,
        }
    }

    fn of_request(request: &Request<'_>) -> Earlier
        ensures { result ≡ earlier_of (Some request.now) }
    {
        if is_question(request) {
            return Earlier::Question;
        }
        match request.action {
            Action::Get => Earlier::Reads,
            Action::Set => change_of(request),
            _ => Earlier::Changes,
        }
    }

    /// Whether it is to be settled, or let go, before anything else is asked.
    pub fn is_unsettled(self) -> bool
        ensures { result ≡ is_unsettled self }
    {
        matches!(
            self,
            Earlier::Reads | Earlier::MovesTo(_) | Earlier::Changes
        )
    }

    /// Whether it is a question, which is sent again.
    pub(crate) fn is_left_question(self) -> bool
        ensures { result ≡ is_left_question self }
    {
        matches!(self, Earlier::Question)
    }

    /// The domain in which it is settled, if it was asked in `own` and this run asks in `domain`.
    pub(crate) fn settling_domain(self, own: u8, domain: u8) -> u8
        ensures { result ≡ settling_domain self own domain }
    {
        match self {
            Earlier::Reads => domain,
            Earlier::MovesTo(there) if there == domain => domain,
            _ => own,
        }
    }
}

/// The request that a session's image has under way, its octets lent.
#[tactic(auto, unfolding(ptpm_manager::specs::ImageReading::request_at))]
pub fn request_in(image: &[u8]) -> Option<Request<'_>>
    requires { is_long image.now ≡ true }
    ensures { result ≡ unanswered_at image.now }
{
    if image[IS_UNDER_WAY] == 0 {
        return None;
    }
    let (_, octets) = image.split_at(FRONT);
    Some(Request {
        action: action_of(image[53]),
        id: u16_at(image, 54),
        port: u16_at(image, 56),
        octets,
    })
}

/// The action of a request by its code in an image.
fn action_of(code: u8) -> Action
    ensures { result ≡ request_action code }
{
    match code {
        1 => Action::Set,
        3 => Action::Command,
        _ => Action::Get,
    }
}

/// Whether a request is the question whether a number is new.
pub fn is_question(request: &Request<'_>) -> bool
    ensures { result ≡ is_question request.now }
{
    let size = request.octets.len();
    matches!(request.action, Action::Get)
        && ((request.id == 0x2000 && size == 20) || (request.id == 0x2004 && size == 26))
}

/// What a SET changes.
fn change_of(request: &Request<'_>) -> Earlier
    ensures { result ≡ change_of request.now }
{
    if request.id == 0x2007 && request.octets.len() == 2 {
        Earlier::MovesTo(request.octets[0])
    } else {
        Earlier::Changes
    }
}
