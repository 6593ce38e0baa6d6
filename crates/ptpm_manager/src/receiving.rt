//! What is made of a datagram, and why one is ignored.

ghost use Rattle.std.specs.Prelude.{◌≡◌};
ghost use Rattle.ptpm_codec.specs.Ordered.{first_of};
ghost use Rattle.ptpm_manager.specs.Receiving.{is_answered_by, no_reply_to};

use crate::report::Report;
use ptpm_codec::{Action, DecodeError, PortIdentity, View};
use std::fmt;

/// Why a datagram is ignored, in the order in which the reasons are judged.
#[derive(Clone, Copy, Debug, PartialEq, Eq)]
pub enum Reason {
    /// It holds no management message.
    Malformed(DecodeError),
    /// Its sdoId is not 0, or it is of another domain.
    OtherDomain,
    /// It is a GET, SET or COMMAND.
    NotAReply,
    /// It is not for exactly this port.
    OtherTarget,
    /// It is from another clock than the one that is managed, or from another port than the one that was asked.
    OtherSource,
    /// No request is unanswered.
    NothingAsked,
    /// Its sequenceId is not that of the request.
    OtherNumber,
    /// Its action does not answer the request's, or its managementId is another.
    OtherContent,
}

/// The name, and after it the cause if there is one.
impl fmt::Display for Reason {
    ghost use Rattle.std.specs.Prelude.{Some};
    ghost use Rattle.ptpm_manager.specs.ErrorText.{reason_text};

    ghost output = { λ reason. Some (reason_text reason) };

    fn fmt<W: fmt::Write>(&self, f: &mut fmt::Formatter<W>) -> fmt::Result {
        match self {
            Reason::Malformed(cause) => write!(f, "Malformed {cause}"),
            Reason::OtherDomain => f.write_str("OtherDomain"),
            Reason::NotAReply => f.write_str("NotAReply"),
            Reason::OtherTarget => f.write_str("OtherTarget"),
            Reason::OtherSource => f.write_str("OtherSource"),
            Reason::NothingAsked => f.write_str("NothingAsked"),
            Reason::OtherNumber => f.write_str("OtherNumber"),
            Reason::OtherContent => f.write_str("OtherContent"),
        }
    }
}

/// What a session makes of a datagram.
#[derive(Debug, Drop)]
pub enum Received {
    /// It answers the request.
    Answered(Report),
    /// It does not, and changes nothing.
    Ignored(Reason),
}

/// What a survey makes of a datagram.
#[derive(Clone, Copy, Debug, PartialEq, Eq)]
pub enum Surveyed {
    /// It is kept, as the first answer of its port.
    Taken,
    /// Its port has answered before, and that answer stays.
    Again,
    /// It is of a further port, and 16,384 have answered.
    Full,
    /// It is no answer to the survey, and changes nothing.
    Ignored(Reason),
}

/// Why a message is no reply to this port in this domain, if it is none.
#[inline(always)]
pub(crate) fn no_reply_to(me: &PortIdentity, domain: u8, message: &View<'_>) -> Option<Reason>
    ensures { result ≡ first_of (no_reply_to me.now domain message.now) }
{
    if message.sdo() != 0 || message.domain() != domain {
        return Some(Reason::OtherDomain);
    }
    if !message.action().is_reply() {
        return Some(Reason::NotAReply);
    }
    if message.target() != *me {
        return Some(Reason::OtherTarget);
    }
    None
}

/// Whether the second action answers the first.
pub(crate) fn is_answered_by(asked: Action, reply: Action) -> bool
    ensures { result ≡ is_answered_by asked reply }
{
    match asked {
        Action::Get | Action::Set => matches!(reply, Action::Response),
        Action::Command => matches!(reply, Action::Acknowledge),
        Action::Response | Action::Acknowledge => false,
    }
}
