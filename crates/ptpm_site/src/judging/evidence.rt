//! What all lines show beside the answers: who asks, what was asked, who sends or announces, and who is gone or was not taken.

use crate::looks::gone::gone_set;
use crate::looks::{LastLooks, Topic};
use crate::reading::announces::Announced;
use crate::reading::answer::Request;
use crate::reading::arrival::SourcePort;
use crate::reading::asked::Asked;
use crate::reading::domain::Domain;
use crate::reading::heard::{Heard, Query, Sender};
use crate::reading::origin::Origin;
use crate::reading::source::Source;
use crate::reading::untaken::UntakenAnswer;
use ptpm_codec::ClockIdentity;
use std::alloc::{AllocError, Global};
use std::collections::{BTreeMap, BTreeSet};

/// What a clock is asked for.
#[derive(Clone, Copy, PartialEq, Eq, PartialOrd, Ord)]
struct Wanted {
    topic: Topic,
    clock: ClockIdentity,
}

/// What all lines show, for quick answers.
#[derive(Drop)]
pub struct Evidence {
    /// The clocks of the host that asks.
    pub hosts: BTreeSet<ClockIdentity>,
    /// The domains that a GET asks in.
    pub domains: BTreeSet<Domain>,
    /// What all clocks were asked for.
    asked_of_all: BTreeSet<Topic>,
    /// What single clocks were asked for.
    asked_of_one: BTreeSet<Wanted>,
    /// When the first GET of each request was sent.
    sent: BTreeMap<Request, Option<u64>>,
    /// Of each clock the answer that says why its answers were not taken.
    pub untaken: BTreeMap<Source, UntakenAnswer>,
    /// The senders, each with the type of what it sends.
    pub senders: BTreeSet<Sender>,
    /// The clocks that are gone.
    pub gone: BTreeSet<Source>,
    /// The last Announce of each port that announces.
    pub announced: BTreeMap<SourcePort, Announced>,
    /// The same of each clock.
    pub announcers: BTreeMap<Source, Announced>,
    /// What each clock said last of its time.
    pub origins: BTreeMap<Source, Origin>,
}

impl Evidence {
    pub fn of(alloc: Global, heard: &[Heard]) -> Result<Evidence, AllocError> {
        let last = LastLooks::of(alloc, heard)?;
        let mut evidence = Evidence {
            hosts: BTreeSet::new(alloc),
            domains: BTreeSet::new(alloc),
            asked_of_all: BTreeSet::new(alloc),
            asked_of_one: BTreeSet::new(alloc),
            sent: BTreeMap::new(alloc),
            untaken: BTreeMap::new(alloc),
            senders: BTreeSet::new(alloc),
            gone: gone_set(alloc, heard, &last)?,
            announced: BTreeMap::new(alloc),
            announcers: BTreeMap::new(alloc),
            origins: BTreeMap::new(alloc),
        };
        for one in heard {
            evidence.add(one)?;
        }
        Ok(evidence)
    }

    /// Adds what one more datagram shows.
    fn add(&mut self, one: &Heard) -> Result<(), AllocError> {
        match one {
            Heard::Asked(query) => self.add_query(query)?,
            Heard::Host(clock) => {
                self.hosts.insert(*clock)?;
            }
            Heard::Untaken(answer) => self.add_untaken(answer)?,
            Heard::Answered(travel) => {
                self.hosts.insert(travel.request.target.clock)?;
            }
            Heard::Sent(sender) => {
                self.senders.insert(*sender)?;
            }
            Heard::Announces(announced) => {
                self.announced.insert(announced.port, *announced)?;
                self.announcers.insert(announced.port.source, *announced)?;
            }
            Heard::Timed(origin) => {
                self.origins.insert(origin.source, *origin)?;
            }
            Heard::Came(_) => {}
        }
        Ok(())
    }

    /// Adds what a GET asks.
    fn add_query(&mut self, query: &Query) -> Result<(), AllocError> {
        let topic = Topic::of(query.domain, query.asked);
        self.domains.insert(query.domain)?;
        self.sent.entry(query.request)?.or_insert(query.at);
        if query.target.clock == ClockIdentity::EVERY {
            self.asked_of_all.insert(topic)?;
        } else {
            let clock = query.target.clock;
            self.asked_of_one.insert(Wanted { topic, clock })?;
        }
        Ok(())
    }

    /// Adds an answer that was not taken, unless an earlier one of its clock has a reason that counts before.
    fn add_untaken(&mut self, answer: &UntakenAnswer) -> Result<(), AllocError> {
        match self.untaken.get(&answer.source) {
            Some(earlier) if earlier.why < answer.why => {}
            _ => {
                self.untaken.insert(answer.source, *answer)?;
            }
        }
        Ok(())
    }

    /// How long an answer that was not taken came after the first GET of its request, in nanoseconds.
    pub fn time_after(&self, answer: &UntakenAnswer) -> Option<u64> {
        let sent = *self.sent.get(&answer.request)?;
        answer.at?.checked_sub(sent?)
    }

    /// Whether a clock was asked for an id, as far as the GETs of its domain show it.
    pub fn was_asked_for(&self, source: Source, asked: Asked) -> bool {
        let topic = Topic::of(source.domain, asked);
        let clock = source.clock;
        !self.domains.contains(&source.domain)
            || self.asked_of_all.contains(&topic)
            || self.asked_of_one.contains(&Wanted { topic, clock })
    }

    /// Whether the last Announce of a port was sent by unicast.
    pub fn is_by_unicast(&self, port: SourcePort) -> bool {
        match self.announced.get(&port) {
            Some(announced) => announced.is_by_unicast(),
            None => false,
        }
    }
}
