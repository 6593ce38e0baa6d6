//! A plan: what becomes of each member that a file asks for, and the changes in the order in which they are asked.

ghost use Rattle.std.specs.Prelude.{◌≡◌, ◌++◌, [], IfOk, OnOk, fold, map};
ghost use Rattle.std.specs.List.{filter_map};
ghost use Rattle.std.specs.List.Sorted.{IsSortedByKey};
ghost use Rattle.std.specs.Option.{option_to_list};
ghost use Rattle.ptpm_plan.specs.Asking.{rows_of_file, unnamed_of};
ghost use Rattle.ptpm_plan.specs.BestClock.{best_clocks, ranks_of, shown};
ghost use Rattle.ptpm_plan.specs.Order.{order_key};
ghost use Rattle.ptpm_plan.specs.Outcome.{found_by};
ghost use Rattle.ptpm_plan.specs.Planned.{change_of};
ghost use Rattle.ptpm_plan.specs.Rows.{with_row};
ghost use Rattle.ptpm_plan.specs.Warnings.{AreWarnings};

use crate::answer::value_of;
use crate::answers::Answers;
use crate::asking::{Known, Unnamed, unnamed_of};
use crate::best_clock::{BestClocks, best_clocks};
use crate::change::Change;
use crate::every::FoundClocks;
use crate::file_fault::FileFault;
use crate::order::{OrderKey, in_order};
use crate::rows::Row;
use crate::surveyed::{Surveyed, SurveyedClock};
use crate::verdict::Verdict;
use crate::warning::Warning;
use crate::warnings::warnings_of;
use crate::wish::{ClockWishes, EveryWishes, PlanFile};
use std::alloc::{AllocError, Global};

/// What a file changes at the clocks of a site.
#[derive(Drop)]
pub struct Plan {
    pub surveyed: Surveyed,
    pub rows: Vec<Row>,
    /// The changes, in the order in which they are asked.
    pub changes: Vec<Change>,
    /// The tables whose description is not that of one clock.
    pub unnamed: Vec<Unnamed>,
    /// Of each table of every clock, how many clocks it found.
    pub found: Vec<FoundClocks>,
    /// How many answers came for which there was no room.
    pub left_out: u64,
    /// The best clock of each domain in which a rank changes.
    pub best: Vec<BestClocks>,
    pub warnings: Vec<Warning>,
}

impl Plan {
    ghost use Rattle.ptpm_plan.specs.Planned.{IsPlanOf};

    /// The plan of a file, by the answers of a survey.
    pub fn of(alloc: Global, file: &PlanFile, answers: &Answers) -> Result<Plan, FileFault>
        ensures plan { IfOk result (IsPlanOf file.now answers.now.list.items) }
        ensures left_out { IfOk result (λ p. p.left_out ≡ answers.now.left_out) }
        ensures sorted { IfOk result
            (λ p. IsSortedByKey (order_key p.surveyed (filter_map change_of p.rows.items)) ⟦<OrderKey as Ord>⟧.cmp p.changes.items) }
        ensures best { IfOk result
            (λ p. map shown p.best.items ≡ best_clocks p.changes.items (ranks_of p.surveyed) 256) }
        ensures warnings { IfOk result (λ p. AreWarnings p.changes.items p.best.items p.surveyed p.warnings.items) }
    {
        let surveyed = answers.surveyed(alloc)?;
        let rows = rows_of_file(alloc, file, answers, &surveyed)?;
        let clocks = surveyed.clocks.as_slice();
        let unnamed = all_unnamed(alloc, answers, clocks, file.clocks.as_slice())?;
        let found = all_found(alloc, answers, &surveyed, file.every.as_slice())?;
        let changes = changes_of(alloc, rows.as_slice())?;
        let changes = in_order(alloc, changes, &surveyed)?;
        let best = best_clocks(alloc, changes.as_slice(), &surveyed)?;
        let warnings = warnings_of(alloc, changes.as_slice(), best.as_slice(), &surveyed)?;
        Ok(Plan {
            surveyed,
            rows,
            changes,
            unnamed,
            found,
            left_out: answers.left_out,
            best,
            warnings,
        })
    }
}

/// What becomes of each member that a file asks for.
fn rows_of_file(
    alloc: Global,
    file: &PlanFile,
    answers: &Answers,
    surveyed: &Surveyed,
) -> Result<Vec<Row>, FileFault>
    ensures { IfOk result (λ v. v.items ≡ fold with_row [] (rows_of_file answers.now.list.items surveyed.now file.now)) }
{
    let known = Known {
        alloc,
        answers,
        surveyed,
    };
    let mut rows = Vec::new(alloc);
    known.ask_clocks(file.clocks.as_slice(), &mut rows)?;
    known.ask_all(file.every.as_slice(), &mut rows)?;
    Ok(rows)
}

/// The tables that name no clock.
fn all_unnamed(
    alloc: Global,
    answers: &Answers,
    clocks: &[SurveyedClock],
    tables: &[ClockWishes],
) -> Result<Vec<Unnamed>, AllocError>
    ensures { IfOk result (λ v. v.items ≡ filter_map (unnamed_of answers.now.list.items clocks.now) tables.now) }
{
    tables
        .iter()
        .filter_map(|table| unnamed_of(answers, clocks, table))
        .collect(alloc)
}

/// What each table of every clock found.
fn all_found(
    alloc: Global,
    answers: &Answers,
    surveyed: &Surveyed,
    tables: &[EveryWishes],
) -> Result<Vec<FoundClocks>, AllocError>
    ensures { IfOk result (λ v. v.items ≡ map (found_by answers.now.list.items surveyed.now.clocks.items) tables.now) }
{
    let known = Known {
        alloc,
        answers,
        surveyed,
    };
    tables
        .iter()
        .map(|table| known.found_by(table))
        .collect(alloc)
}

/// The changes among rows.
fn changes_of(alloc: Global, rows: &[Row]) -> Result<Vec<Change>, AllocError>
    ensures { IfOk result (λ v. v.items ≡ filter_map change_of rows.now) }
{
    let mut changes = Vec::new(alloc);
    for row in rows {
        add_change(row, &mut changes)?;
    }
    Ok(changes)
}

/// Adds the change that a row is, if it is one.
fn add_change(row: &Row, changes: &mut Vec<Change>) -> Result<(), AllocError>
    ensures { OnOk result (changes.new.items ≡ changes.old.items ++ option_to_list (change_of row.now)) }
{
    if let Some(change) = change_of(row) {
        changes.push(change)?;
    }
    Ok(())
}

/// The change that a row is.
#[tactic(auto, unfolding(crate::specs::Planned::change_of))]
fn change_of(row: &Row) -> Option<Change>
    ensures { result ≡ change_of row.now }
{
    match &row.verdict {
        Verdict::Changes(before, after) => Some(Change {
            place: row.place,
            domain: row.subject.domain,
            clock: row.subject.clock,
            port: row.subject.port,
            id: row.subject.id,
            before: value_of(before.as_slice()),
            after: value_of(after.as_slice()),
        }),
        _ => None,
    }
}
