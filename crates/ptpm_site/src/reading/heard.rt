//! What datagrams show beside what the answers say: who asked, how far each answer came, and which clocks send by themselves.

ghost use Rattle.std.specs.Prelude.{◌≤◌, length};

use crate::reading::announces::Announced;
use crate::reading::answer::{Request, request_of, source_of};
use crate::reading::arrival::Arrival;
use crate::reading::asked::Asked;
use crate::reading::domain::Domain;
use crate::reading::numbers::flag_at;
use crate::reading::origin::Origin;
use crate::reading::source::Source;
use crate::reading::untaken::UntakenAnswer;
use ptpm_codec::{Action, ClockIdentity, PortIdentity, View, port_identity_at, view};

/// A GET of one of the six ids.
#[derive(Clone, Copy)]
pub struct Query {
    pub domain: Domain,
    pub asked: Asked,
    /// The port that is asked.
    pub target: PortIdentity,
    /// Who asks, and with which sequenceId.
    pub request: Request,
    /// startingBoundaryHops.
    pub hops: u8,
    /// When it was sent, in nanoseconds since 1970. `None` if that is not known.
    pub at: Option<u64>,
}

impl Query {
    /// Whether all ports of all clocks are asked.
    pub fn is_to_all(&self) -> bool {
        self.target.clock == ClockIdentity::EVERY && self.target.port == PortIdentity::EVERY_PORT
    }
}

/// An answer on its way.
#[derive(Clone, Copy)]
pub struct Travel {
    pub source: Source,
    pub asked: Asked,
    pub request: Request,
    /// startingBoundaryHops.
    pub starting_hops: u8,
    /// boundaryHops.
    pub hops: u8,
}

/// A clock that sends messages of a type.
#[derive(Clone, Copy, PartialEq, Eq, PartialOrd, Ord)]
pub struct Sender {
    pub source: Source,
    /// messageType.
    pub kind: u8,
}

/// What one datagram shows.
#[derive(Clone, Copy)]
pub enum Heard {
    /// A GET.
    Asked(Query),
    /// An answer to a GET.
    Answered(Travel),
    /// An answer that was not taken.
    Untaken(UntakenAnswer),
    /// A clock of the host that asks.
    Host(ClockIdentity),
    /// An Announce, Sync, Follow_Up or Delay_Req.
    Sent(Sender),
    /// What time its sender had.
    Timed(Origin),
    /// From which address an answer came.
    Came(Arrival),
    /// Which port an Announce is of.
    Announces(Announced),
}

impl Heard {
    /// What a datagram shows that came or was sent at a time, in nanoseconds since 1970. `None` if it is none of these.
    pub fn of(at: Option<u64>, datagram: &[u8]) -> Option<Heard> {
        match view(datagram) {
            Ok(message) => heard_of(at, &message),
            Err(_) => sent_in(datagram),
        }
    }
}

/// What a datagram that is no management message shows.
fn sent_in(datagram: &[u8]) -> Option<Heard> {
    sender_in(datagram).map(Heard::Sent)
}

/// What a management message shows.
fn heard_of(at: Option<u64>, message: &View<'_>) -> Option<Heard> {
    let asked = Asked::of_id(message.id())?;
    match message.action() {
        Action::Get => Some(Heard::Asked(get_in(asked, at, message))),
        Action::Response => Some(Heard::Answered(travel_in(asked, message))),
        _ => None,
    }
}

fn get_in(asked: Asked, at: Option<u64>, message: &View<'_>) -> Query {
    Query {
        domain: Domain::of_message(message),
        asked,
        target: message.target(),
        request: Request {
            target: message.source(),
            number: message.number(),
        },
        hops: message.starting_hops(),
        at,
    }
}

fn travel_in(asked: Asked, message: &View<'_>) -> Travel {
    Travel {
        source: source_of(message),
        asked,
        request: request_of(message),
        starting_hops: message.starting_hops(),
        hops: message.hops(),
    }
}

/// messageType of Announce.
pub const ANNOUNCE: u8 = 11;

/// messageType of Sync.
pub const SYNC: u8 = 0;

/// messageType of Follow_Up.
pub const FOLLOW_UP: u8 = 8;

/// messageType of Delay_Req.
pub const DELAY_REQ: u8 = 1;

/// Whether a clock sends messages of a type by itself (table 36): a port in MASTER those of the first three, and a slave Delay_Req.
fn is_of_sender(kind: u8) -> bool {
    kind == ANNOUNCE || kind == SYNC || kind == FOLLOW_UP || kind == DELAY_REQ
}

/// Whether an Announce is that of an alternate master: alternateMasterFlag is bit 0 of the first octet of flagField (table 37).
fn is_alternate(kind: u8, datagram: &[u8]) -> bool
    requires { 34 ≤ length datagram.now }
{
    kind == ANNOUNCE && flag_at(datagram, 6, 0)
}

/// The clock that sends an Announce, a Sync, a Follow_Up or a Delay_Req (13.3). An Announce of an alternate master counts as
/// nothing.
pub fn sender_in(datagram: &[u8]) -> Option<Sender> {
    if datagram.len() < 34 {
        return None;
    }
    let kind = datagram[0] % 16;
    if datagram[1] % 16 != 2 || !is_of_sender(kind) || is_alternate(kind, datagram) {
        return None;
    }
    let sdo = u16::from(datagram[0] / 16) * 256 + u16::from(datagram[5]);
    Some(Sender {
        source: Source {
            domain: Domain::of(datagram[4], sdo),
            clock: port_identity_at(datagram, 20).clock,
        },
        kind,
    })
}

/// The standard's name of a messageType.
pub fn kind_name(kind: u8) -> &'static str {
    match kind {
        ANNOUNCE => "Announce",
        SYNC => "Sync",
        DELAY_REQ => "Delay_Req",
        _ => "Follow_Up",
    }
}
