//! From which finding another follows at once: the rules. Each answers the first of its causes that is among the findings.

use crate::cause::Cause;
use crate::found::Found;
use crate::kind::Kind;
use crate::members::{is_by_handover, is_parent_identity, is_passed_on, is_quality};
use ptpm_codec::ClockIdentity;
use ptpm_members::Member;
use ptpm_site::judging::amounts::TooFarOff;
use ptpm_site::judging::expected::Unmet;
use ptpm_site::judging::finding::{Finding, What};
use ptpm_site::judging::grandmasters::Masterless;
use ptpm_site::judging::tai_and_utc::OffByUtc;
use ptpm_site::looks::grandmaster_changes::GrandmasterChange;
use ptpm_site::reading::origin::TimeError;
use ptpm_site::reading::site::Site;
use ptpm_site::reading::source::Source;

/// How many steps a way to a grandmaster has at most: an Announce of 255 steps is not qualified (9.3.2.5).
const LONGEST_WAY: u8 = 255;

fn at(kind: Kind, source: Source) -> Cause {
    Cause { kind, source }
}

/// The first clock above another, by parents, that is not seen, within the longest way.
fn unseen_above(site: &Site, source: Source) -> Option<Source> {
    let mut here = source;
    for _ in 0..LONGEST_WAY {
        here = here.beside(site.followed(here)?.clock);
        if !site.is_seen(here) {
            return Some(here);
        }
    }
    None
}

impl Found {
    /// That a clock is not seen.
    fn unseen_cause(&self, source: Source) -> Option<Cause> {
        self.first_of(&[
            at(Kind::Gone, source),
            at(Kind::Absent, source),
            at(Kind::NotTaken, source),
            at(Kind::Mute, source),
            at(Kind::OwnHost, source),
        ])
    }

    /// That of a clock on the way to a grandmaster no answer comes.
    fn silent_cause(&self, source: Source) -> Option<Cause> {
        self.first_of(&[
            at(Kind::NotTaken, source),
            at(Kind::Mute, source),
            at(Kind::OwnHost, source),
        ])
    }

    /// The loop in which the way of a clock ends, by parents.
    fn loop_cause(&self, site: &Site, source: Source) -> Option<Cause> {
        if !self.has_loops {
            return None;
        }
        let mut here = source;
        for _ in 0..LONGEST_WAY {
            let cause = self.first_of(&[at(Kind::Loop, here)]);
            if cause.is_some() {
                return cause;
            }
            here = here.beside(site.followed(here)?.clock);
        }
        None
    }

    /// That two clocks have the identity of a clock, or else that of its parent, or else that of its grandmaster.
    fn twin_cause(&self, site: &Site, source: Source) -> Option<Cause> {
        let own = self.first_of(&[at(Kind::IdentityTwice, source)]);
        if own.is_some() {
            return own;
        }
        let parent = source.beside(site.followed(source)?.clock);
        let grandmaster = source.beside(site.parent(source)?.grandmaster);
        self.first_of(&[
            at(Kind::IdentityTwice, parent),
            at(Kind::IdentityTwice, grandmaster),
        ])
    }

    /// The same, or else the loop in which its way ends.
    fn misled_cause(&self, site: &Site, source: Source) -> Option<Cause> {
        self.twin_cause(site, source)
            .or(self.loop_cause(site, source))
    }

    /// `grandmaster_not_seen` of a clock that names this grandmaster.
    fn grandmaster_cause(&self, site: &Site, source: Source, grandmaster: Source) -> Option<Cause> {
        if let Some(cause) = self.unseen_cause(grandmaster) {
            return Some(cause);
        }
        match unseen_above(site, source) {
            Some(above) => self.silent_cause(above),
            None => self.loop_cause(site, source),
        }
    }

    /// `parent_not_seen` of a clock whose parent this is.
    fn parent_cause(&self, parent: Source) -> Option<Cause> {
        self.unseen_cause(parent)
            .or(self.first_of(&[at(Kind::GrandmasterNotSeen, parent)]))
    }

    /// That a grandmaster or a parent of a clock is lost. That it is not seen as a grandmaster counts if that follows from nothing. That
    /// its answers are not taken is no reason, so neither is what follows from that.
    fn lost_cause(&self, site: &Site, source: Source, above: Source) -> Option<Cause> {
        if self.first_of(&[at(Kind::NotTaken, above)]).is_some() {
            return None;
        }
        let lost = self.first_of(&[at(Kind::Gone, above), at(Kind::Absent, above)]);
        if lost.is_some() || self.grandmaster_cause(site, source, above).is_some() {
            return lost;
        }
        self.first_of(&[at(Kind::GrandmasterNotSeen, above)])
    }

    /// `parent_not_seen` of the clock, if that follows from nothing.
    fn parent_lost(&self, source: Source, parent: Source) -> Option<Cause> {
        if self.parent_cause(parent).is_some() {
            None
        } else {
            self.first_of(&[at(Kind::ParentNotSeen, source)])
        }
    }

    /// `no_master` of a clock that names this grandmaster.
    fn follower_cause(
        &self,
        site: &Site,
        source: Source,
        grandmaster: ClockIdentity,
    ) -> Option<Cause> {
        let of_port = self.first_of(&[
            at(Kind::Intervals, source),
            at(Kind::DelayMechanism, source),
            at(Kind::PortState, source),
        ]);
        let of_grandmaster = self.lost_cause(site, source, source.beside(grandmaster));
        if let Some(cause) = of_port.or(of_grandmaster) {
            return Some(cause);
        }
        let parent = source.beside(site.followed(source)?.clock);
        self.lost_cause(site, source, parent)
            .or(self.parent_lost(source, parent))
    }

    fn masterless_cause(&self, site: &Site, source: Source, why: Masterless) -> Option<Cause> {
        match why {
            Masterless::Lost(grandmaster) => self.follower_cause(site, source, grandmaster),
            _ => None,
        }
    }

    /// Whether one clock went to another grandmaster, and it is one of the two.
    fn is_by_itself(&self, source: Source, change: &GrandmasterChange) -> bool {
        change.clocks == 1
            && (change.before == source.clock || change.after == source.clock)
            && self.has_moved(source)
    }

    fn handover_cause(&self, source: Source, change: &GrandmasterChange) -> Option<Cause> {
        if self.is_by_itself(source, change) {
            self.first_of(&[
                at(Kind::Intervals, source),
                at(Kind::DelayMechanism, source),
                at(Kind::NoMaster, source),
                at(Kind::NotLocked, source),
            ])
        } else {
            None
        }
    }

    /// `changed` by a change of the grandmaster, which is shown at that one or at the clock.
    fn moved_cause(&self, source: Source, member: Member, grandmaster: Source) -> Option<Cause> {
        if self.has_moved(source) && is_by_handover(member) {
            self.first_of(&[
                at(Kind::GrandmasterChanged, grandmaster),
                at(Kind::GrandmasterChanged, source),
            ])
        } else {
            None
        }
    }

    /// `changed` at a grandmaster, by what became of its source of time. Elsewhere by what changed at the grandmaster.
    fn given_cause(
        &self,
        source: Source,
        member: Member,
        grandmaster: Source,
        is_own: bool,
    ) -> Option<Cause> {
        if is_own {
            self.quality_cause(source, member)
        } else if is_passed_on(member) {
            self.first_of(&[at(Kind::Changed, grandmaster)])
        } else {
            None
        }
    }

    fn quality_cause(&self, source: Source, member: Member) -> Option<Cause> {
        if is_quality(member) {
            self.first_of(&[
                at(Kind::Holdover, source),
                at(Kind::Degraded, source),
                at(Kind::FreeRunning, source),
            ])
        } else {
            None
        }
    }

    fn change_cause(&self, site: &Site, source: Source, member: Member) -> Option<Cause> {
        if let Some(cause) = self.twin_cause(site, source) {
            return Some(cause);
        }
        let grandmaster = source.beside(site.parent(source)?.grandmaster);
        let is_own = site.is_own_grandmaster(source);
        self.moved_cause(source, member, grandmaster)
            .or(self.given_cause(source, member, grandmaster, is_own))
    }

    /// `offset`, of a clock that follows another or of its grandmaster.
    fn far_cause(&self, site: &Site, source: Source, offset: TooFarOff) -> Option<Cause> {
        match offset {
            TooFarOff::Own(_) => {
                let parent = source.beside(site.followed(source)?.clock);
                self.first_of(&[at(Kind::OffsetFrozen, source), at(Kind::Offset, parent)])
            }
            TooFarOff::Followers(_) => self.first_of(&[at(Kind::GrandmasterTime, source)]),
        }
    }

    /// `gm_time` of a clock that says a wrong difference of TAI and UTC, if its UTC is right by that.
    fn time_cause(&self, source: Source, error: &TimeError) -> Option<Cause> {
        if error.has_right_utc {
            self.first_of(&[at(Kind::UtcOffset, source)])
        } else {
            None
        }
    }

    /// `off_by_utc` of a clock whose grandmaster gives the wrong time to all.
    fn offset_cause(&self, site: &Site, source: Source, how: OffByUtc) -> Option<Cause> {
        match how {
            OffByUtc::Offset(_) => {
                let grandmaster = source.beside(site.parent(source)?.grandmaster);
                self.first_of(&[at(Kind::OffByUtc, grandmaster)])
            }
            _ => None,
        }
    }

    /// Another parent than the inventory wants, by another grandmaster of the domain.
    fn unmet_cause(&self, source: Source, unmet: &Unmet<'_>) -> Option<Cause> {
        if !is_parent_identity(unmet.member) {
            return None;
        }
        let leaders = self.leaders_of(source.domain)?;
        self.first_of(&[at(Kind::NotAsExpected, leaders)])
    }

    fn reason_of(&self, site: &Site, source: Source, what: &What<'_>) -> Option<Cause> {
        match what {
            What::Absent(_) => self.first_of(&[at(Kind::NotTaken, source), at(Kind::Gone, source)]),
            What::Gone => self.first_of(&[at(Kind::NotTaken, source)]),
            What::NotAsExpected(unmet) => self.unmet_cause(source, unmet),
            What::NoMaster(why) => self.masterless_cause(site, source, *why),
            What::GrandmasterNotSeen(clock) => {
                self.grandmaster_cause(site, source, source.beside(*clock))
            }
            What::ParentNotSeen(port) => self.parent_cause(source.beside(port.clock)),
            What::TwoGrandmasters | What::Incomplete(_) => self.twin_cause(site, source),
            What::ParentNotMaster(..)
            | What::Steps(_)
            | What::GrandmasterDiffers(_)
            | What::Utc(_) => self.misled_cause(site, source),
            What::NotLocked(..) => {
                self.first_of(&[
                    at(Kind::Intervals, source),
                    at(Kind::DelayMechanism, source),
                ])
            }
            What::Offset(offset) => self.far_cause(site, source, *offset),
            What::Delay(_) | What::LinkDelay(..) => {
                self.first_of(&[at(Kind::OffsetFrozen, source)])
            }
            What::GrandmasterTime(error) => self.time_cause(source, error),
            What::OffByUtc(how) => self.offset_cause(site, source, *how),
            What::Degraded(_) => self.first_of(&[at(Kind::TwoGrandmasters, source)]),
            What::GrandmasterChanged(change) => self.handover_cause(source, change),
            What::Changed(_, change) => self.change_cause(site, source, change.member),
            _ => None,
        }
    }

    /// From which finding a finding follows at once.
    pub(crate) fn reason(&self, site: &Site, finding: &Finding<'_>) -> Option<Cause> {
        self.reason_of(site, finding.source, &finding.what)
    }
}
