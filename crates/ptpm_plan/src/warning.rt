//! A warning of a plan, as it is printed.

use crate::best_clock::Rank;
use crate::change::PlannedId;
use ptpm_codec::{ClockIdentity, PortIdentity};
use std::fmt;

/// What an operator is to know before a plan is applied. Changes are numbered from 1, in the order in which they are asked.
#[derive(Clone, Copy)]
pub enum Warning {
    /// A clock with this project's agent refuses the value of this member. The port is 0 for one of the clock.
    Refused(PortIdentity, PlannedId),
    /// The best clock of a domain changes this often.
    BestClock(u8, usize),
    /// The best clock of a domain has worse time after all changes than the one before.
    WorseTime(u8, Rank, Rank),
    /// After all changes no clock of a domain can lead.
    NoBestClock(u8),
    /// Two clocks of a domain have this identity.
    Twice(u8, ClockIdentity),
    /// A clock of this domain gave no DEFAULT_DATA_SET, so its rank is not known, and the best clock may change there.
    Unjudged(u8, ClockIdentity),
    /// From a change on a port waits for less than two Announces, and may lose its master.
    Impatient(usize, PortIdentity),
    /// A change of how a port measures delay.
    Mechanism(usize),
    /// A change moves a clock to a domain in which no request reaches it.
    OutOfReach(usize, ClockIdentity, u8),
    /// A change moves a boundary clock away from clocks that may follow it. So many that stay are past it.
    CutOff(usize, ClockIdentity, usize),
}

impl fmt::Display for Warning {
    fn fmt<W: fmt::Write>(&self, f: &mut fmt::Formatter<W>) -> fmt::Result {
        match self {
            Warning::Refused(port, id) => {
                if id.is_of_port() {
                    write!(f, "{port}")?;
                } else {
                    write!(f, "{}", port.clock)?;
                }
                write!(f, " {id}: a clock of ptpm takes {} alone", Taken(*id))
            }
            Warning::BestClock(domain, times) => {
                write!(f, "domain {domain}: the best clock changes {times} times")
            }
            Warning::WorseTime(domain, before, after) => write!(
                f,
                "domain {domain}: the time gets worse: {} before, {} after",
                Quality(*before),
                Quality(*after)
            ),
            Warning::NoBestClock(domain) => {
                write!(f, "domain {domain}: no clock is left that can lead")
            }
            Warning::Twice(domain, clock) => write!(
                f,
                "{clock} in domain {domain}: two answers to one request differ: two clocks have this identity"
            ),
            Warning::Unjudged(domain, clock) => write!(
                f,
                "{clock} in domain {domain}: it gave no DEFAULT_DATA_SET: whether it can be the best clock is not known"
            ),
            Warning::Impatient(number, port) => write!(
                f,
                "change {number}: {port} may lose its master: it waits for less than two Announces"
            ),
            Warning::Mechanism(number) => write!(
                f,
                "change {number}: no delay is measured on that link until its other end has the same mechanism"
            ),
            Warning::OutOfReach(number, clock, domain) => write!(
                f,
                "change {number}: {clock} is not reached after it: a clock before it is not in domain {domain} then"
            ),
            Warning::CutOff(number, clock, count) => write!(
                f,
                "change {number}: clocks that follow the boundary clock {clock} may lose their time; known to be past it, and not moved: {count}"
            ),
        }
    }
}

/// clockClass and clockAccuracy of a clock.
#[derive(Clone, Copy)]
pub(crate) struct Quality(pub(crate) Rank);

impl fmt::Display for Quality {
    fn fmt<W: fmt::Write>(&self, f: &mut fmt::Formatter<W>) -> fmt::Result {
        write!(
            f,
            "class {}, accuracy 0x{:02x}",
            self.0.class, self.0.accuracy
        )
    }
}

/// What a clock with this project's agent takes for a member that it does not take every value of.
#[derive(Clone, Copy)]
struct Taken(PlannedId);

impl fmt::Display for Taken {
    fn fmt<W: fmt::Write>(&self, f: &mut fmt::Formatter<W>) -> fmt::Result {
        match self.0 {
            PlannedId::ClockAccuracy => f.write_str("0x17 to 0x31, or 0xfe"),
            PlannedId::UtcProperties => f.write_str("leap61 or leap59"),
            PlannedId::DelayMechanism => f.write_str("E2E, P2P or NO_MECHANISM"),
            id => match id.setting() {
                Some(setting) => write!(f, "{}", setting.range()),
                None => Ok(()),
            },
        }
    }
}
