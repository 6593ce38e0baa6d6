//! Clocks that answer, and whose answers were not taken.

ghost use Rattle.std.specs.Prelude.{◌≤◌, length};

use crate::judging::evidence::Evidence;
use crate::reading::answer::Request;
use crate::reading::domain::Domain;
use crate::reading::site::Site;
use crate::reading::source::Source;
use ptpm_codec::{port_identity_at, u16_at};

/// Why an answer was not taken. The first of these counts if a clock has several.
#[derive(Clone, Copy, PartialEq, Eq, PartialOrd, Ord)]
pub enum Untaken {
    /// The address of its sender is not on the link.
    OffLink,
    /// It came after its request was given up.
    Late,
    /// It can't be read.
    Unreadable,
}

/// An answer that was not taken.
#[derive(Clone, Copy)]
pub struct UntakenAnswer {
    pub source: Source,
    pub request: Request,
    pub why: Untaken,
    /// The number of the address that it came from.
    pub from: Option<usize>,
    /// When it came, in nanoseconds since 1970. `None` if that is not known.
    pub at: Option<u64>,
}

/// Why the answers of a clock were not taken, by one of them.
#[derive(Clone, Copy)]
pub struct NotTaken<'a> {
    pub why: Untaken,
    /// The address that it came from.
    pub from: Option<&'a str>,
    /// How long it came after its request, in nanoseconds. `None` if that is not known.
    pub after: Option<u64>,
}

impl Untaken {
    /// That which a line says by a word, or `None` for any other word.
    pub fn of_word(word: &str) -> Option<Untaken> {
        match word {
            "off_link" => Some(Untaken::OffLink),
            "late" => Some(Untaken::Late),
            "unreadable" => Some(Untaken::Unreadable),
            _ => None,
        }
    }

    /// The word.
    pub fn word(self) -> &'static str {
        match self {
            Untaken::OffLink => "off_link",
            Untaken::Late => "late",
            Untaken::Unreadable => "unreadable",
        }
    }
}

/// Whether the head of a message is that of an answer: a management message (table 36) of version 2 whose actionField is RESPONSE
/// (table 57). What follows the actionField does not matter.
fn is_answer(datagram: &[u8]) -> bool
    requires { 47 ≤ length datagram.now }
{
    datagram[0] % 16 == 13 && datagram[1] % 16 == 2 && datagram[46] % 16 == 2
}

/// The answer that a datagram is which was not taken.
pub fn untaken_in(
    why: Untaken,
    from: Option<usize>,
    at: Option<u64>,
    datagram: &[u8],
) -> Option<UntakenAnswer> {
    if datagram.len() < 47 || !is_answer(datagram) {
        return None;
    }
    let sdo = u16::from(datagram[0] / 16) * 256 + u16::from(datagram[5]);
    Some(UntakenAnswer {
        source: Source {
            domain: Domain::of(datagram[4], sdo),
            clock: port_identity_at(datagram, 20).clock,
        },
        request: Request {
            target: port_identity_at(datagram, 34),
            number: u16_at(datagram, 30),
        },
        why,
        from,
        at,
    })
}

/// Why the answers of a clock that is not seen were not taken, if it answered.
pub fn not_taken<'a>(site: &'a Site, evidence: &Evidence, source: Source) -> Option<NotTaken<'a>> {
    let answer = evidence.untaken.get(&source)?;
    Some(NotTaken {
        why: answer.why,
        from: answer.from.map(|number| site.words.text(number)),
        after: evidence.time_after(answer),
    })
}
