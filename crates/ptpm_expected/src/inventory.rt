//! The inventory of a site: what its operator says of it.

use ptpm_codec::ClockIdentity;
use ptpm_members::Member;
use ptpm_site::judging::expected::Wanted;
use ptpm_site::reading::domain::Domain;

/// What an operator says of a site, in the order of the lines of a file.
#[derive(Drop)]
pub struct Inventory {
    pub entries: Vec<Entry>,
}

/// What is said of a domain, or of a clock of it.
#[derive(Drop)]
pub struct Entry {
    pub domain: Domain,
    pub rule: Rule,
}

#[derive(Drop)]
pub enum Rule {
    /// `- grandmaster`: the clocks of one of these lists lead, each list ascending.
    Leaders(Vec<Vec<ClockIdentity>>),
    /// `- only`: the domain has no clock that is not named.
    Only,
    /// A clock is named.
    Clock(ClockIdentity, Presence),
    /// A member of a clock.
    Member(ClockIdentity, MemberRule),
    /// `*`: a member of each clock of the domain that is seen.
    EachMember(MemberRule),
}

/// Whether a clock that is named has to be seen.
#[derive(Clone, Copy)]
pub enum Presence {
    /// `clock`: it has to.
    Wanted,
    /// `optional`: it may be absent.
    Optional,
    /// `mute`: the same, and while it is heard it needs to answer nothing.
    Mute,
}

/// What a member may be.
#[derive(Drop)]
pub struct MemberRule {
    /// The port. `None` if it is a member of the clock.
    pub port: Option<u16>,
    pub member: Member,
    /// One of these.
    pub wanted: Vec<Wanted>,
}
