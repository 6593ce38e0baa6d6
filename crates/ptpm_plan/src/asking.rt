//! What the tables of a plan file ask for, member by member.

ghost use Rattle.std.specs.Prelude.{◌≡◌};
ghost use Rattle.ptpm_plan.specs.Asking.{rows_of_clock, rows_of_clocks, rows_of_wishes, unnamed_of};
ghost use Rattle.ptpm_plan.specs.Rows.{Adds};

use crate::answers::Answers;
use crate::naming::{Named, clock_named};
use crate::rows::{Added, Row, add_row};
use crate::subject::Subject;
use crate::surveyed::{Surveyed, SurveyedClock};
use crate::verdict::verdict_of;
use crate::wish::{ClockWishes, Wish};
use ptpm_codec::ClockIdentity;
use std::alloc::Global;

/// The clock that a table is of, and the place of the table in the file.
#[derive(Clone, Copy)]
pub(crate) struct Of {
    pub(crate) place: usize,
    pub(crate) domain: u8,
    pub(crate) clock: ClockIdentity,
}

/// A table of the file whose description is not that of one clock.
#[derive(Clone, Copy)]
pub struct Unnamed {
    /// The place of the table among the clocks of the file, from 0.
    pub place: usize,
    /// How many clocks have the description.
    pub count: usize,
}

/// What the tables of a file are read with: the answers of a survey, and what they say of clocks and ports.
#[derive(Clone, Copy)]
pub(crate) struct Known<'a> {
    pub(crate) alloc: Global,
    pub(crate) answers: &'a Answers,
    pub(crate) surveyed: &'a Surveyed,
}

impl Known<'_> {
    /// Adds the rows of what is wished of a clock, or of one of its ports.
    #[tactic(auto, using(crate::proofs::Gathering::wishes_more))]
    pub fn ask_wishes(&self, of: Of, port: u16, wishes: &[Wish], rows: &mut Vec<Row>) -> Added
        ensures { Adds result rows.old.items rows.new.items (rows_of_wishes self.now.answers.now.list.items of port wishes.now) }
    {
        for wish in wishes {
            let subject = Subject {
                domain: of.domain,
                clock: of.clock,
                port,
                id: wish.id,
            };
            let verdict = verdict_of(self.alloc, self.answers, subject, &wish.wished)?;
            let place = of.place;
            add_row(
                rows,
                Row {
                    place,
                    subject,
                    verdict,
                },
            )?;
        }
        Ok(())
    }

    /// Adds the rows of what is wished of a clock.
    #[tactic(auto, using(crate::proofs::Gathering::flat_more))]
    fn ask_clock(&self, of: Of, clock: &ClockWishes, rows: &mut Vec<Row>) -> Added
        ensures { Adds result rows.old.items rows.new.items (rows_of_clock self.now.answers.now.list.items of clock.now) }
    {
        self.ask_wishes(of, 0, clock.wishes.as_slice(), rows)?;
        let ports = clock.ports.as_slice();
        for port in ports {
            self.ask_wishes(of, port.number, port.wishes.as_slice(), rows)?;
        }
        Ok(())
    }

    /// Adds the rows of those tables of a file that name a clock.
    #[tactic(auto, using(crate::proofs::Gathering::flat_more))]
    pub fn ask_clocks(&self, tables: &[ClockWishes], rows: &mut Vec<Row>) -> Added
        ensures { Adds result rows.old.items rows.new.items
            (rows_of_clocks self.now.answers.now.list.items self.now.surveyed.now.clocks.items tables.now) }
    {
        let clocks = self.surveyed.clocks.as_slice();
        for table in tables {
            let (place, domain) = (table.place, table.domain);
            if let Named::One(clock) = clock_named(clocks, self.answers, domain, &table.target) {
                self.ask_clock(
                    Of {
                        place,
                        domain,
                        clock,
                    },
                    table,
                    rows,
                )?;
            }
        }
        Ok(())
    }
}

/// What a table is, if its description is not that of one clock.
pub(crate) fn unnamed_of(
    answers: &Answers,
    clocks: &[SurveyedClock],
    table: &ClockWishes,
) -> Option<Unnamed>
    ensures { result ≡ unnamed_of answers.now.list.items clocks.now table.now }
{
    let place = table.place;
    match clock_named(clocks, answers, table.domain, &table.target) {
        Named::One(_) => None,
        Named::Other(count) => Some(Unnamed { place, count }),
    }
}
