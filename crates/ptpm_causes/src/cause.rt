//! The name of a finding, and the clock at which it is printed.

ghost use Rattle.std.specs.Prelude.{◌≡◌};
ghost use Rattle.ptpm_causes.specs.Kinds.{kind_of};

use crate::kind::{Kind, kind_of};
use ptpm_site::judging::amounts::TooFarOff;
use ptpm_site::judging::finding::{Finding, What};
use ptpm_site::judging::tai_and_utc::OffByUtc;
use ptpm_site::looks::stay::is_faulty;
use ptpm_site::reading::site::Site;
use ptpm_site::reading::source::Source;

/// The name of a finding, and the clock at which it is printed.
#[derive(Clone, Copy, PartialEq, Eq)]
pub struct Cause {
    pub kind: Kind,
    pub source: Source,
}

/// The key of a cause: two causes with one key are one.
#[derive(Clone, Copy, PartialEq, Eq, PartialOrd, Ord)]
pub(crate) struct Key {
    rank: u8,
    source: Source,
}

impl Cause {
    pub(crate) fn key(self) -> Key {
        Key {
            rank: self.kind.rank(),
            source: self.source,
        }
    }
}

/// The clock at which a finding is printed: a grandmaster that is not seen, in place of the clock that names it.
fn place_of(source: Source, what: &What<'_>) -> Source {
    match what {
        What::GrandmasterNotSeen(clock) => source.beside(*clock),
        _ => source,
    }
}

/// The finding's own name, and the clock at which it is printed.
pub fn named(finding: &Finding<'_>) -> Cause
    ensures { result.kind ≡ kind_of finding.now.what }
{
    Cause {
        kind: kind_of(&finding.what),
        source: place_of(finding.source, &finding.what),
    }
}

/// Whether it shows at the clock that gives the wrong time to others.
fn is_of_giver(how: OffByUtc) -> bool {
    !matches!(how, OffByUtc::Offset(_))
}

/// Whether others may follow from what is wrong with a clock.
fn may_cause(site: &Site, source: Source, what: &What<'_>) -> bool {
    match what {
        What::PortState(_, stay) => is_faulty(stay.state),
        What::NotAsExpected(_) => false,
        What::OffByUtc(how) => is_of_giver(*how),
        What::Offset(offset) => matches!(offset, TooFarOff::Followers(_)),
        What::Changed(..) => site.is_own_grandmaster(source),
        _ => true,
    }
}

/// The name under which others may follow from a finding.
pub(crate) fn cause_in(site: &Site, finding: &Finding<'_>) -> Option<Cause> {
    if may_cause(site, finding.source, &finding.what) {
        Some(named(finding))
    } else {
        None
    }
}
