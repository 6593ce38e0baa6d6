//! What a session is set up with, and the numbers and messages of its requests.

ghost use Rattle.std.specs.Prelude.{◌≡◌, ◌≤◌, ◌↔◌, IsTrue};
ghost use Rattle.ptpm_manager.specs.Ask.{pending_request};
ghost use Rattle.ptpm_codec.specs.SequenceNumber.{number_of};
ghost use Rattle.ptpm_manager.specs.Setup.{IsSetup, is_setup, is_setup_of, request_message};

use crate::ask::Pending;
use ptpm_codec::{ClockIdentity, Draft, DraftBody, PortIdentity};

/// How many ports a session takes its clock to have at most: its image has one octet for them.
pub const TARGET_PORTS: u16 = 255;

/// What is settled once for all requests of a session.
#[derive(Clone, Copy, Debug)]
pub(crate) struct Setup {
    /// The manager itself.
    pub(crate) me: PortIdentity,
    /// The clock that is managed.
    pub(crate) target: ClockIdentity,
    /// How many ports that clock has.
    pub(crate) ports: u16,
    /// The sequence number of the first request.
    pub(crate) first: u16,
    /// Both hop fields of a request.
    pub(crate) hops: u8,
    /// How often a request is sent before it is given up.
    pub(crate) attempts: u8,
}

impl Setup {
    /// Whether a session can be set up so.
    pub(crate) fn is_setup(&self) -> bool
        ensures exact { result ≡ is_setup self.now }
        ensures meaning { IsTrue result ↔ IsSetup self.now }
    {
        self.me.clock != ClockIdentity::EVERY
            && self.target != ClockIdentity::EVERY
            && self.me.clock != self.target
            && 1 <= self.ports
            && self.ports <= TARGET_PORTS
    }

    /// Whether it is that of this manager with this clock of this many ports, whose first request has this number.
    pub(crate) fn is_of(
        &self,
        me: PortIdentity,
        target: ClockIdentity,
        ports: u16,
        first: u16,
    ) -> bool
        ensures { result ≡ is_setup_of me target ports first self.now }
    {
        self.me == me && self.target == target && self.ports == ports && self.first == first
    }

    /// The sequence number of the k-th request, counted from 1.
    pub(crate) fn number(&self, k: u64) -> u16
        requires one { 1 ≤ k }
        requires limit { k ≤ 1000000 }
        ensures { result ≡ number_of self.now.first k }
    {
        ((self.first as u64 + (k - 1)) % 65_536) as u16
    }

    /// The k-th request as a message of a domain, its octets lent.
    pub(crate) fn draft<'a>(&self, domain: u8, k: u64, pending: &'a Pending) -> Draft<'a>
        requires one { 1 ≤ k }
        requires limit { k ≤ 1000000 }
        ensures { result ≡ request_message self.now domain k (pending_request pending.now) }
    {
        Draft {
            sdo: 0,
            domain,
            source: self.me,
            number: self.number(k),
            target: PortIdentity {
                clock: self.target,
                port: pending.port,
            },
            starting_hops: self.hops,
            hops: self.hops,
            body: DraftBody::Request {
                action: pending.action,
                id: pending.id,
                octets: pending.octets.as_slice(),
            },
        }
    }
}
