//! What a clock answers to a request.

use crate::answers::Answers;
use crate::ports::INLINE_PORTS;
use crate::request::Request;
use arrayvec::ArrayVec;
use ptpm_codec::{Action, ErrorId, put};
use std::marker::Model;

/// Room for the dataField of an answer.
pub type Value = ArrayVec<u8, 130>;

/// Room for the dataField of a port's answer.
pub(crate) type PortValue = ArrayVec<u8, 26>;

/// The answer of the clock or of one of its ports.
#[derive(Debug, Drop)]
pub enum What {
    /// The dataField of a RESPONSE.
    Value(Value),
    /// The success of a COMMAND.
    Done,
    /// Why the request was refused.
    Refused(ErrorId),
}

/// An answer, and the port that it is of; no port if it is of the clock.
#[derive(Debug, Drop)]
pub struct PortAnswer {
    pub port: Option<u16>,
    pub what: What,
}

impl Default for PortAnswer {
    ghost use Rattle.std.specs.Prelude.{◌≡◌, None};
    ghost use Rattle.ptpm_data.specs.Reply.{Done, answer_of};

    /// The clock's answer that a COMMAND is done.
    fn default() -> PortAnswer
        ensures { answer_of result ≡ record { port = None; outcome = Done } }
    {
        PortAnswer {
            port: None,
            what: What::Done,
        }
    }
}

/// The answers to a request: one of the clock, or one of each named port in ascending order. Contracts see it with its
/// answers as a list.
#[derive(Debug, Drop)]
pub struct Reply {
    /// RESPONSE, or ACKNOWLEDGE to a COMMAND.
    pub action: Action,
    /// managementId.
    pub id: u16,
    pub answers: ArrayVec<PortAnswer, INLINE_PORTS>,
}

impl Model for Reply {
    ghost use Rattle.ptpm_data.specs.Reply.{ReplyValue, reply_value};

    ghost Value = { ReplyValue };

    ghost view = { reply_value };
}

impl Answers for Reply {
    ghost use Rattle.std.specs.Prelude.{◌≡◌, length};
    ghost use Rattle.ptpm_data.specs.declared.ports.TheConstants.{INLINE_PORTS};
    ghost use Rattle.ptpm_data.specs.AnswerLaws.{answered_count, answered_more, answered_none, answered_twice};

    ghost most = { λ r. INLINE_PORTS };

    ghost count = { λ r. length r.answers };

    ghost taken = { λ a xs b. b ≡ answered_more a xs };

    ghost none_taken = { answered_none };

    ghost taken_after = { answered_twice };

    ghost counted = { answered_count };

    ghost as_many = { λ a b xs is i. INLINE_PORTS };

    fn take_value(&mut self, port: Option<u16>, octets: &[u8]) {
        let mut value = Value::new();
        put(&mut value, octets);
        self.push(port, What::Value(value));
    }

    fn take_done(&mut self, port: Option<u16>) {
        self.push(port, What::Done);
    }

    fn take_refusal(&mut self, port: Option<u16>, error: ErrorId) {
        self.push(port, What::Refused(error));
    }
}

impl Reply {
    ghost use Rattle.std.specs.Prelude.{[], ◌∷◌, ◌<◌, ◌≡◌, length};
    ghost use Rattle.ptpm_codec.specs.Message.{reply_action};
    ghost use Rattle.ptpm_data.specs.AnswerLaws.{answered_more};
    ghost use Rattle.ptpm_data.specs.Reply.{outcome_of};

    /// A reply without answers, to be written over.
    pub fn empty() -> Reply
        ensures { result ≡ record { action = Action.Response; id = 0; answers = [] } }
    {
        Reply {
            action: Action::Response,
            id: 0,
            answers: ArrayVec::new(),
        }
    }

    /// A reply to this request that has no answers yet.
    pub fn to(request: &Request<'_>) -> Reply
        ensures { result
            ≡ record { action = reply_action request.now.action; id = request.now.id; answers = [] } }
    {
        Reply {
            action: request.action.reply(),
            id: request.id,
            answers: ArrayVec::new(),
        }
    }

    fn push(&mut self, port: Option<u16>, what: What)
        requires { length self.old.answers < INLINE_PORTS }
        ensures { self.new
            ≡ answered_more self.old (record { port = port; outcome = outcome_of what } ∷ []) }
    {
        self.answers.push(PortAnswer { port, what });
    }
}
