//! Messages whose octets are lent, to be sent without a copy.

ghost use Rattle.std.specs.Prelude.{◌≡◌, ◌↔◌, IsTrue};
ghost use Rattle.ptpm_codec.specs.Message.{is_data_field, IsDataField};

use crate::identity::PortIdentity;
use crate::message::Action;
use std::marker::Model;

/// How many octets a dataField has at most: those of a message less its header and the head of its TLV (this project's
/// profile).
pub const DATA_FIELD_OCTETS: usize = 1418;

/// A `Body` whose octets are lent.
#[derive(Clone, Copy, Debug)]
pub enum DraftBody<'a> {
    Request {
        action: Action,
        id: u16,
        octets: &'a [u8],
    },
    Answer {
        action: Action,
        id: u16,
        octets: &'a [u8],
    },
    Fault {
        action: Action,
        error: u16,
        id: u16,
        text: &'a [u8],
    },
}

/// A message whose octets are lent, to be encoded if it is `valid`. Contracts see it as the `Message` of the same fields.
#[derive(Debug, Drop)]
pub struct Draft<'a> {
    /// sdoId, of twelve bits: 0xFFF at most.
    pub sdo: u16,
    /// domainNumber.
    pub domain: u8,
    /// sourcePortIdentity.
    pub source: PortIdentity,
    /// sequenceId.
    pub number: u16,
    /// targetPortIdentity; all ones is every clock, and 0xFFFF every port.
    pub target: PortIdentity,
    /// startingBoundaryHops.
    pub starting_hops: u8,
    /// boundaryHops.
    pub hops: u8,
    /// An even number of octets, 1,418 at most, or a text of 255 at most; its action suits the variant.
    pub body: DraftBody<'a>,
}

impl<'a> Model for Draft<'a> {
    ghost use Rattle.ptpm_codec.specs.declared.message.Message.{Message};

    ghost Value = { Message };

    ghost use Rattle.ptpm_codec.specs.Draft.{drafted};

    ghost view = { drafted };
}

impl Draft<'_> {
    ghost use Rattle.ptpm_codec.specs.Message.{IsValid};

    /// Whether the fields are a message value, as `Message::valid` says.
    pub fn valid(&self) -> bool
        ensures { IsTrue result ↔ IsValid self.now }
    {
        self.sdo <= 0x0fff && self.body.valid()
    }
}

impl DraftBody<'_> {
    ghost use Rattle.ptpm_codec.specs.Draft.{body_of};
    ghost use Rattle.ptpm_codec.specs.Message.{action_of, IsValidBody};

    /// The action, whatever the body.
    pub fn action(&self) -> Action
        ensures { result ≡ action_of (body_of self.now) }
    {
        match self {
            DraftBody::Request { action, .. }
            | DraftBody::Answer { action, .. }
            | DraftBody::Fault { action, .. } => *action,
        }
    }

    fn valid(&self) -> bool
        ensures { IsTrue result ↔ IsValidBody (body_of self.now) }
    {
        match self {
            DraftBody::Request { action, octets, .. } => {
                !action.is_reply() && is_data_field(octets)
            }
            DraftBody::Answer { action, octets, .. } => action.is_reply() && is_data_field(octets),
            DraftBody::Fault { action, text, .. } => action.is_reply() && text.len() <= 255,
        }
    }
}

/// Whether a message can have these octets as its dataField: an even number of them (14.1.1), and no more than it has room for.
pub fn is_data_field(octets: &[u8]) -> bool
    ensures exact { result ≡ is_data_field octets.now }
    ensures meaning { IsTrue result ↔ IsDataField octets.now }
{
    octets.len() % 2 == 0 && octets.len() <= DATA_FIELD_OCTETS
}
