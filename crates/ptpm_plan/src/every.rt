//! What a plan file asks of every clock of a domain.

ghost use Rattle.std.specs.Prelude.{◌≡◌, count_by};
ghost use Rattle.ptpm_plan.specs.Asking.{asks_some, clock_excepted, if_answered, is_included, is_left_out, is_not_one, is_unclear, lacks_ports, may_be, ports_known, rows_of_all, rows_of_every, rows_of_every_clock};
ghost use Rattle.ptpm_plan.specs.Outcome.{found_by, is_in, is_not_of, is_short};
ghost use Rattle.ptpm_plan.specs.Rows.{Adds};

use crate::asking::{Known, Of};
use crate::naming::{Named, clock_named};
use crate::rows::{Added, Row};
use crate::surveyed::{SurveyedClock, clock_in};
use crate::wish::{EveryWishes, Target, Wish};
use ptpm_codec::ClockIdentity;

/// The most ports that a session can name.
const MOST_PORTS: u16 = 255;

/// What a table of every clock found.
#[derive(Clone, Copy)]
pub struct FoundClocks {
    pub domain: u8,
    /// How many clocks answered in the domain, those that the table leaves out among them.
    pub count: usize,
    /// How many are to answer, if the table says it.
    pub expected: Option<u16>,
    /// How many names in `except` fit no clock that answered in the domain, or several. If there is one, no clock is asked for
    /// anything.
    pub unclear: usize,
    /// How many clocks did not say that they have 1 to 255 ports, if something is asked of ports. Of theirs nothing is asked.
    pub uncounted: usize,
}

impl FoundClocks {
    /// Whether another number of clocks answered than the table says, or none; or not all that it asks for can be planned.
    pub(crate) fn is_short(&self) -> bool
        ensures { result ≡ is_short self.now }
    {
        self.is_other_count() || 0 < self.unclear || 0 < self.uncounted
    }

    /// Whether another number of clocks answered than the table says, or none.
    pub(crate) fn is_other_count(&self) -> bool
        ensures { result ≡ is_not_of self.now.count self.now.expected }
    {
        match self.expected {
            Some(expected) => self.count != usize::from(expected),
            None => self.count == 0,
        }
    }
}

impl Known<'_> {
    /// Adds the rows of what is asked of every clock, table by table.
    #[tactic(auto, using(crate::proofs::Gathering::flat_more))]
    pub fn ask_all(&self, tables: &[EveryWishes], rows: &mut Vec<Row>) -> Added
        ensures { Adds result rows.old.items rows.new.items
            (rows_of_all self.now.answers.now.list.items self.now.surveyed.now.clocks.items tables.now) }
    {
        for table in tables {
            self.ask_every(table, rows)?;
        }
        Ok(())
    }

    /// Adds the rows of what a table asks of every clock of the domain that it does not leave out.
    #[tactic(auto, using(crate::proofs::Gathering::flat_more))]
    fn ask_every(&self, table: &EveryWishes, rows: &mut Vec<Row>) -> Added
        ensures { Adds result rows.old.items rows.new.items
            (rows_of_every self.now.answers.now.list.items self.now.surveyed.now.clocks.items table.now) }
    {
        let clocks = self.surveyed.clocks.as_slice();
        for clock in clocks {
            if self.is_included(table, clock) {
                self.ask_one(table, clock, rows)?;
            }
        }
        Ok(())
    }

    /// Adds the rows of a clock and of each of its ports, also of those that did not answer.
    #[tactic(auto, using(crate::proofs::Gathering::ports_more))]
    fn ask_one(&self, table: &EveryWishes, clock: &SurveyedClock, rows: &mut Vec<Row>) -> Added
        ensures { Adds result rows.old.items rows.new.items
            (rows_of_every_clock self.now.answers.now.list.items table.now clock.now) }
    {
        let of = Of {
            place: table.place,
            domain: table.domain,
            clock: clock.identity,
        };
        self.ask_wishes(of, 0, table.wishes.as_slice(), rows)?;
        for place in 0..ports_known(clock.number_ports) {
            self.ask_wishes(of, place + 1, table.port_wishes.as_slice(), rows)?;
        }
        Ok(())
    }

    /// Whether a clock is of the domain, and not left out.
    fn is_included(&self, table: &EveryWishes, clock: &SurveyedClock) -> bool
        ensures { result ≡ is_included self.now.answers.now.list.items self.now.surveyed.now.clocks.items table.now clock.now }
    {
        clock.domain == table.domain && !self.is_left_out(table, clock.identity)
    }

    /// Whether `except` names a clock, or may name it: a name that fits no clock or several may be of any.
    fn is_left_out(&self, table: &EveryWishes, clock: ClockIdentity) -> bool
        ensures { result ≡ is_left_out self.now.answers.now.list.items self.now.surveyed.now.clocks.items table.now clock }
    {
        let mut except = table.except.iter();
        except.any(|target| may_be(clock, self.excepted(table.domain, target)))
    }

    /// The clock that a name in `except` is of, if it answered in the domain.
    fn excepted(&self, domain: u8, target: &Target) -> Named
        ensures { result ≡ clock_excepted self.now.answers.now.list.items self.now.surveyed.now.clocks.items domain target.now }
    {
        let clocks = self.surveyed.clocks.as_slice();
        if_answered(
            clocks,
            domain,
            clock_named(clocks, self.answers, domain, target),
        )
    }

    /// What a table finds among the clocks that answered.
    pub fn found_by(&self, table: &EveryWishes) -> FoundClocks
        ensures { result ≡ found_by self.now.answers.now.list.items self.now.surveyed.now.clocks.items table.now }
    {
        let clocks = self.surveyed.clocks.as_slice();
        FoundClocks {
            domain: table.domain,
            count: count_in(clocks, table.domain),
            expected: table.clocks,
            unclear: self.count_unclear(table),
            uncounted: self.count_uncounted(table, clocks),
        }
    }

    /// How many names in `except` are not those of one clock.
    fn count_unclear(&self, table: &EveryWishes) -> usize
        ensures { result ≡ count_by (is_unclear self.now.answers.now.list.items self.now.surveyed.now.clocks.items table.now)
            table.now.except.items }
    {
        let except = table.except.iter();
        except
            .filter(|target| is_not_one(self.excepted(table.domain, target)))
            .count()
    }

    /// How many of these clocks have ports that are asked for, and not known.
    fn count_uncounted(&self, table: &EveryWishes, clocks: &[SurveyedClock]) -> usize
        ensures { result ≡ count_by (lacks_ports self.now.answers.now.list.items self.now.surveyed.now.clocks.items table.now)
            clocks.now }
    {
        clocks
            .iter()
            .filter(|clock| self.lacks_ports(table, clock))
            .count()
    }

    fn lacks_ports(&self, table: &EveryWishes, clock: &SurveyedClock) -> bool
        ensures { result ≡ lacks_ports self.now.answers.now.list.items self.now.surveyed.now.clocks.items table.now clock.now }
    {
        asks_some(table.port_wishes.as_slice())
            && self.is_included(table, clock)
            && ports_known(clock.number_ports) == 0
    }
}

/// How many clocks are in a domain.
fn count_in(clocks: &[SurveyedClock], domain: u8) -> usize
    ensures { result ≡ count_by (is_in domain) clocks.now }
{
    clocks.iter().filter(|clock| clock.domain == domain).count()
}

/// The clock that is named, if it answered in a domain.
fn if_answered(clocks: &[SurveyedClock], domain: u8, named: Named) -> Named
    ensures { result ≡ if_answered clocks.now domain named }
{
    match named {
        Named::One(clock) if clock_in(clocks, domain, clock).is_none() => Named::Other(0),
        _ => named,
    }
}

/// Whether what is named is a clock, or may be it.
fn may_be(clock: ClockIdentity, named: Named) -> bool
    ensures { result ≡ may_be clock named }
{
    match named {
        Named::One(other) => other == clock,
        Named::Other(_) => true,
    }
}

fn is_not_one(named: Named) -> bool
    ensures { result ≡ is_not_one named }
{
    matches!(named, Named::Other(_))
}

fn asks_some(wishes: &[Wish]) -> bool
    ensures { result ≡ asks_some wishes.now }
{
    match wishes {
        [] => false,
        _ => true,
    }
}

/// numberPorts of a clock, if a session can name each of these ports; else 0.
fn ports_known(number_ports: Option<u16>) -> u16
    ensures { result ≡ ports_known number_ports }
{
    match number_ports {
        Some(ports) if ports <= MOST_PORTS => ports,
        _ => 0,
    }
}
