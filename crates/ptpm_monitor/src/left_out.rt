//! What a look left out for want of room, so that findings may be missing.

ghost use Rattle.std.specs.Prelude.{◌≡◌};
ghost use Rattle.ptpm_monitor.specs.Status.{is_nothing};

use std::fmt;

/// What may be left out: answers, messages that clocks send by themselves, clocks that are gone, and what a site leaves out.
#[derive(Clone, Copy, PartialEq, Eq)]
pub(crate) enum What {
    Answers,
    Announces,
    Syncs,
    FollowUps,
    DelayReqs,
    Gone,
    Clocks,
    Ports,
}

impl What {
    const ALL: [What; 8] = [
        What::Answers,
        What::Announces,
        What::Syncs,
        What::FollowUps,
        What::DelayReqs,
        What::Gone,
        What::Clocks,
        What::Ports,
    ];

    fn words(self) -> &'static str {
        match self {
            What::Answers => "answers",
            What::Announces => "Announce",
            What::Syncs => "Sync",
            What::FollowUps => "Follow_Up",
            What::DelayReqs => "Delay_Req",
            What::Gone => "clocks that are gone",
            What::Clocks => "clocks",
            What::Ports => "ports",
        }
    }

    /// It as the value of a label.
    pub(crate) fn label(self) -> &'static str {
        match self {
            What::Answers => "answers",
            What::Announces => "announce",
            What::Syncs => "sync",
            What::FollowUps => "follow_up",
            What::DelayReqs => "delay_req",
            What::Gone => "gone",
            What::Clocks => "clocks",
            What::Ports => "ports",
        }
    }

    /// It as a member of JSON. A site has those of clocks and ports itself.
    fn member(self) -> Option<&'static str> {
        match self {
            What::FollowUps => Some("followUp"),
            What::DelayReqs => Some("delayReq"),
            What::Clocks | What::Ports => None,
            _ => Some(self.label()),
        }
    }

    /// Whether the findings of this name need it. Of answers and of clocks all do.
    fn is_needed_by(self, name: &str) -> bool {
        match self {
            What::Answers | What::Clocks => true,
            What::Announces => matches!(
                name,
                "mute" | "not_asked" | "two_grandmasters" | "unexpected"
            ),
            What::Syncs | What::FollowUps => matches!(name, "mute" | "not_asked" | "off_by_utc"),
            What::DelayReqs => matches!(name, "mute" | "not_asked"),
            What::Gone => name == "gone",
            What::Ports => matches!(name, "gone" | "mute" | "own_host"),
        }
    }
}

/// The findings that need some of it.
static NEEDING: [&str; 7] = [
    "gone",
    "mute",
    "not_asked",
    "off_by_utc",
    "own_host",
    "two_grandmasters",
    "unexpected",
];

/// How many of each were left out.
#[derive(Clone, Copy, Default)]
pub(crate) struct LeftOut {
    pub(crate) answers: u64,
    pub(crate) announces: u64,
    pub(crate) syncs: u64,
    pub(crate) follow_ups: u64,
    pub(crate) delay_reqs: u64,
    pub(crate) gone: u64,
    pub(crate) clocks: u64,
    pub(crate) ports: u64,
}

impl LeftOut {
    /// Each with how many there are.
    pub(crate) fn counts(&self) -> [(What, u64); 8] {
        [
            (What::Answers, self.answers),
            (What::Announces, self.announces),
            (What::Syncs, self.syncs),
            (What::FollowUps, self.follow_ups),
            (What::DelayReqs, self.delay_reqs),
            (What::Gone, self.gone),
            (What::Clocks, self.clocks),
            (What::Ports, self.ports),
        ]
    }

    fn has(&self, what: What) -> bool {
        self.counts()
            .iter()
            .any(|(one, count)| *one == what && 0 < *count)
    }

    pub(crate) fn is_none(&self) -> bool
        ensures { result ≡ is_nothing self.now }
    {
        self.answers == 0
            && self.announces == 0
            && self.syncs == 0
            && self.follow_ups == 0
            && self.delay_reqs == 0
            && self.gone == 0
            && self.clocks == 0
            && self.ports == 0
    }

    /// How many there are of all.
    pub(crate) fn sum(&self) -> u64 {
        let mut sum = 0u64;
        for (_, count) in self.counts() {
            sum = sum.saturating_add(count);
        }
        sum
    }

    /// Whether the same kinds are left out.
    pub(crate) fn is_like(&self, other: &LeftOut) -> bool {
        What::ALL
            .iter()
            .all(|what| self.has(*what) == other.has(*what))
    }

    fn needs(&self, name: &str) -> bool {
        What::ALL
            .iter()
            .any(|what| self.has(*what) && what.is_needed_by(name))
    }

    /// Writes the names of the findings that need it, with this between them.
    fn write_needing<W: fmt::Write>(
        &self,
        between: &str,
        f: &mut fmt::Formatter<W>,
    ) -> fmt::Result {
        if self.has(What::Answers) || self.has(What::Clocks) {
            return f.write_str("all");
        }
        let mut before = "";
        for name in &NEEDING {
            before = self.write_needed(name, before, between, f)?;
        }
        Ok(())
    }

    /// Writes a name after what comes before it, if its findings need something of it. What comes before the next one.
    fn write_needed<'a, W: fmt::Write>(
        &self,
        name: &str,
        before: &'a str,
        between: &'a str,
        f: &mut fmt::Formatter<W>,
    ) -> Result<&'a str, fmt::Error> {
        if !self.needs(name) {
            return Ok(before);
        }
        write!(f, "{before}{name}")?;
        Ok(between)
    }
}

/// How many they are, and which findings were not looked for among them.
impl fmt::Display for LeftOut {
    fn fmt<W: fmt::Write>(&self, f: &mut fmt::Formatter<W>) -> fmt::Result {
        let mut before = "left out: ";
        for (what, count) in self.counts() {
            if 0 < count {
                write!(f, "{before}{count} {}", what.words())?;
                before = ", ";
            }
        }
        f.write_str("; not looked for there: ")?;
        self.write_needing(", ", f)
    }
}

/// The members of JSON for it that a site does not have itself, each with a comma after it.
#[derive(Clone, Copy)]
pub(crate) struct Members(pub(crate) LeftOut);

impl fmt::Display for Members {
    fn fmt<W: fmt::Write>(&self, f: &mut fmt::Formatter<W>) -> fmt::Result {
        for (what, count) in self.0.counts() {
            if let Some(member) = what.member() {
                if 0 < count {
                    write!(f, "\"{member}\":{count},")?;
                }
            }
        }
        f.write_str("\"notLookedFor\":[\"")?;
        self.0.write_needing("\",\"", f)?;
        f.write_str("\"],")
    }
}
