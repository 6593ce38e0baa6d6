//! Answers to GETs: which clock and port says what of an id.

ghost use Rattle.std.specs.Prelude.{◌≡◌, ◌≤◌, length};
ghost use Rattle.ptpm_plan.specs.Answers.{answer_of, field_said, said_of};

use ptpm_codec::{Action, PortIdentity, View, put};
use ptpm_data::Value;
use ptpm_members::members_in;

/// An answer to a GET.
#[derive(Drop)]
pub struct Answer {
    /// domainNumber.
    pub domain: u8,
    /// sourcePortIdentity.
    pub source: PortIdentity,
    /// How many boundary clocks it passed: startingBoundaryHops less boundaryHops (15.4.1).
    pub hops: u8,
    /// managementId.
    pub id: u16,
    /// targetPortIdentity and sequenceId: which request it answers.
    pub target: PortIdentity,
    pub number: u16,
    pub said: Said,
}

/// What an answer says of its id.
#[derive(Drop)]
pub enum Said {
    /// The dataField.
    Is(Value),
    /// The GET is refused, with this managementErrorId.
    Refused(u16),
}

impl Answer {
    /// The answer that a message is. `None` if it is no RESPONSE, or its octets are no dataField of its id.
    #[tactic(auto, unfolding(crate::specs::Answers::answer_of))]
    pub fn of(message: &View<'_>) -> Option<Answer>
        ensures { result ≡ answer_of message.now }
    {
        if !matches!(message.action(), Action::Response) {
            return None;
        }
        Some(Answer {
            domain: message.domain(),
            source: message.source(),
            hops: message.starting_hops().saturating_sub(message.hops()),
            id: message.id(),
            target: message.target(),
            number: message.number(),
            said: said_of(message)?,
        })
    }
}

/// What a message says of its id.
#[tactic(auto, unfolding(crate::specs::Answers::said_of))]
fn said_of(message: &View<'_>) -> Option<Said>
    ensures { result ≡ said_of message.now }
{
    match message.error() {
        Some(error) => Some(Said::Refused(error)),
        None => field_said(message.id(), message.octets()),
    }
}

/// The octets, if they are a dataField of the id.
#[tactic(auto, unfolding(crate::specs::Answers::field_said, ptpm_members::specs::FieldText::members_in))]
fn field_said(id: u16, octets: &[u8]) -> Option<Said>
    ensures { result ≡ field_said id octets.now }
{
    if members_in(id, octets).is_empty() || octets.len() > 130 {
        return None;
    }
    Some(Said::Is(value_of(octets)))
}

/// Octets as a dataField.
pub(crate) fn value_of(octets: &[u8]) -> Value
    requires { length octets.now ≤ 130 }
    ensures { result.items ≡ octets.now }
{
    let mut value = Value::new();
    put(&mut value, octets);
    value
}
