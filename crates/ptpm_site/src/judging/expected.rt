//! How a site is not as a profile wants it, or as the inventory that its operator keeps.

use ptpm_codec::ClockIdentity;
use ptpm_members::{Member, MemberValue};

/// A member that is not what a profile allows.
#[derive(Clone, Copy)]
pub struct Outside {
    /// The port. `None` if it is a member of the clock.
    pub port: Option<u16>,
    pub member: Member,
    pub value: MemberValue<'static>,
    pub allowed: Allowed,
}

/// What a profile allows.
#[derive(Clone, Copy)]
pub enum Allowed {
    /// The numbers from the first to the last.
    Range(i64, i64),
    /// The number that the parent port has.
    OfParent(i64),
    /// E2E and P2P.
    EndToEndOrPeerToPeer,
    /// P2P, COMMON_P2P and SPECIAL.
    PeerToPeerOrSpecial,
    /// True.
    Set,
}

/// What an inventory wants of a member.
#[derive(Drop)]
pub enum Wanted {
    /// This value, which is no text.
    Value(MemberValue<'static>),
    /// A number from the first to the last.
    Range(i64, i64),
    /// clockClass alone.
    Class(u8),
    /// A number that has no name.
    Reserved,
    Text(String),
}

/// A member whose value is none of those that an inventory wants.
#[derive(Clone, Copy)]
pub struct Unmet<'a> {
    /// The port. `None` if it is a member of the clock.
    pub port: Option<u16>,
    pub member: Member,
    /// `None`: the clock did not answer it.
    pub value: Option<MemberValue<'a>>,
    pub wanted: &'a [Wanted],
}

/// The clocks of a domain that lead, which are none of those that an inventory wants.
#[derive(Drop)]
pub struct OtherLeaders<'a> {
    /// Ascending.
    pub leading: Vec<ClockIdentity>,
    pub wanted: &'a [Vec<ClockIdentity>],
}
