//! Who follows whom.

use crate::judging::port_groups::PortGroup;
use crate::reading::site::Site;
use crate::reading::source::Source;
use ptpm_codec::PortIdentity;

impl Site {
    /// Whether a clock names itself as its grandmaster.
    pub fn is_own_grandmaster(&self, source: Source) -> bool {
        match self.parent(source) {
            Some(set) => set.grandmaster == source.clock,
            None => false,
        }
    }

    /// Whether a clock stands by: each of its ports answered, one is in PASSIVE, and none gives or takes time. State decisions P1 and P2
    /// write no data set (9.3.5): what it says of its parent, its offset and UTC was so before.
    pub fn is_on_standby(&self, source: Source) -> bool {
        let Some(default) = self.default(source) else {
            return false;
        };
        default.quality.class < 128
            && self.has_port_of(source, PortGroup::Passive)
            && !self.has_port_of(source, PortGroup::Active)
            && self.has_ports_to(source, default.number_of_ports)
    }

    /// The port that a clock follows. `None` if it is its own grandmaster, stands by, or did not answer
    /// PARENT_DATA_SET.
    pub fn followed(&self, source: Source) -> Option<PortIdentity> {
        let set = self.parent(source)?;
        if set.grandmaster == source.clock || self.is_on_standby(source) {
            None
        } else {
            Some(set.parent)
        }
    }

    /// The clock that a clock follows, if that one is seen.
    pub fn parent_clock(&self, source: Source) -> Option<Source> {
        let parent = source.beside(self.followed(source)?.clock);
        if self.is_seen(parent) {
            Some(parent)
        } else {
            None
        }
    }
}
