//! Management messages as values (15.4).

ghost use Rattle.std.specs.Prelude.{◌≡◌, ◌↔◌, IsTrue};

use crate::draft::{Draft, DraftBody};
use crate::identity::PortIdentity;
use crate::octets::Octets;
use std::fmt;

/// What a message asks or answers (15.4.1.6).
#[derive(Clone, Copy, Debug, PartialEq, Eq)]
pub enum Action {
    Get,
    Set,
    Response,
    Command,
    Acknowledge,
}

impl Action {
    ghost use Rattle.ptpm_codec.specs.Message.{action_code, is_reply, reply_action};

    /// Whether it answers a request. RESPONSE and ACKNOWLEDGE do.
    pub fn is_reply(self) -> bool
        ensures { result ≡ is_reply self }
    {
        matches!(self, Action::Response | Action::Acknowledge)
    }

    /// The action that answers it: ACKNOWLEDGE a COMMAND, RESPONSE a GET and a SET; of a reply, itself.
    pub fn reply(self) -> Action
        ensures { result ≡ reply_action self }
    {
        match self {
            Action::Get | Action::Set | Action::Response => Action::Response,
            Action::Command | Action::Acknowledge => Action::Acknowledge,
        }
    }

    /// Its actionField.
    pub fn code(self) -> u8
        ensures { result ≡ action_code self }
    {
        self as u8
    }
}

/// The standard's name, for example `GET`.
impl fmt::Display for Action {
    ghost use Rattle.std.specs.Prelude.{Some};
    ghost use Rattle.ptpm_codec.specs.Message.{action_name};

    ghost output = { λ action. Some (action_name action) };

    fn fmt<W: fmt::Write>(&self, f: &mut fmt::Formatter<W>) -> fmt::Result {
        f.write_str(match self {
            Action::Get => "GET",
            Action::Set => "SET",
            Action::Response => "RESPONSE",
            Action::Command => "COMMAND",
            Action::Acknowledge => "ACKNOWLEDGE",
        })
    }
}

/// What a message's action and TLV say.
#[derive(Debug, Drop)]
pub enum Body {
    /// GET, SET or COMMAND, with a MANAGEMENT TLV.
    Request {
        action: Action,
        id: u16,
        octets: Octets,
    },
    /// RESPONSE or ACKNOWLEDGE, with a MANAGEMENT TLV.
    Answer {
        action: Action,
        id: u16,
        octets: Octets,
    },
    /// RESPONSE or ACKNOWLEDGE, with a MANAGEMENT_ERROR_STATUS TLV.
    Fault {
        action: Action,
        error: u16,
        id: u16,
        text: Octets,
    },
}

/// A management message: every field that carries a value.
#[derive(Debug, Drop)]
pub struct Message {
    /// sdoId, of 12 bits: majorSdoId times 256 plus minorSdoId (7.1.4).
    pub sdo: u16,
    /// domainNumber.
    pub domain: u8,
    /// sourcePortIdentity.
    pub source: PortIdentity,
    /// sequenceId.
    pub number: u16,
    /// targetPortIdentity.
    pub target: PortIdentity,
    /// startingBoundaryHops.
    pub starting_hops: u8,
    /// boundaryHops.
    pub hops: u8,
    pub body: Body,
}

impl Message {
    ghost use Rattle.ptpm_codec.specs.Message.{IsValid};

    /// The same message, with its octets lent.
    pub fn draft(&self) -> Draft<'_>
        ensures { result ≡ self.now }
    {
        Draft {
            sdo: self.sdo,
            domain: self.domain,
            source: self.source,
            number: self.number,
            target: self.target,
            starting_hops: self.starting_hops,
            hops: self.hops,
            body: self.body.draft(),
        }
    }

    /// Whether the fields are a message value. The sdoId has 12 bits. A dataField has an even number of
    /// octets, at most 1,418, and a text at most 255. The action suits the body.
    pub fn valid(&self) -> bool
        ensures { IsTrue result ↔ IsValid self.now }
    {
        self.draft().valid()
    }
}

impl Body {
    ghost use Rattle.ptpm_codec.specs.Draft.{body_of};

    fn draft(&self) -> DraftBody<'_>
        ensures { body_of result ≡ self.now }
    {
        match self {
            Body::Request { action, id, octets } => DraftBody::Request {
                action: *action,
                id: *id,
                octets: octets.as_slice(),
            },
            Body::Answer { action, id, octets } => DraftBody::Answer {
                action: *action,
                id: *id,
                octets: octets.as_slice(),
            },
            Body::Fault {
                action,
                error,
                id,
                text,
            } => DraftBody::Fault {
                action: *action,
                error: *error,
                id: *id,
                text: text.as_slice(),
            },
        }
    }
}
