//! What a clock decides on a datagram.

use ptpm_codec::DecodeError;
use std::fmt;

/// What became of a datagram: the first of these that holds.
#[derive(Clone, Copy, Debug, PartialEq, Eq)]
pub enum Verdict {
    /// It holds no management message.
    Malformed(DecodeError),
    /// sdoId is not 0, or domainNumber is not the clock's; only an accepted repeat is answered in any domain (this
    /// project's profile).
    OtherDomain,
    /// It comes from this very clock.
    OwnMessage,
    /// Its target is not this clock, or a port that the clock lacks.
    NotAddressed,
    /// It is a RESPONSE or an ACKNOWLEDGE.
    NotARequest,
    /// A numbered request that is new: carried out, kept and answered.
    AnsweredNew,
    /// The latest accepted request of its manager once more: answered by the reply that was kept.
    AnsweredRepeat,
    /// A numbered request older than the latest accepted one.
    DroppedOld,
    /// The number of the latest accepted request with another request.
    DroppedConflict,
    /// Any other request: answered from the data sets as they are, and never carried out.
    AnsweredUnnumbered,
}

/// The name, such as `AnsweredNew`; after `Malformed` the name of its cause.
impl fmt::Display for Verdict {
    ghost use Rattle.std.specs.Prelude.{Some};
    ghost use Rattle.ptpm_agent.specs.VerdictText.{verdict_text};

    ghost output = { λ verdict. Some (verdict_text verdict) };

    fn fmt<W: fmt::Write>(&self, f: &mut fmt::Formatter<W>) -> fmt::Result {
        match self {
            Verdict::Malformed(cause) => write!(f, "Malformed {cause}"),
            Verdict::OtherDomain => f.write_str("OtherDomain"),
            Verdict::OwnMessage => f.write_str("OwnMessage"),
            Verdict::NotAddressed => f.write_str("NotAddressed"),
            Verdict::NotARequest => f.write_str("NotARequest"),
            Verdict::AnsweredNew => f.write_str("AnsweredNew"),
            Verdict::AnsweredRepeat => f.write_str("AnsweredRepeat"),
            Verdict::DroppedOld => f.write_str("DroppedOld"),
            Verdict::DroppedConflict => f.write_str("DroppedConflict"),
            Verdict::AnsweredUnnumbered => f.write_str("AnsweredUnnumbered"),
        }
    }
}
