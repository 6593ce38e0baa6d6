//! What becomes of each member that a plan asks for, a row each.

ghost use Rattle.std.specs.Prelude.{◌≡◌, OnOk};
ghost use Rattle.std.specs.Option.{option_copied};
ghost use Rattle.ptpm_plan.specs.Rows.{AddsRow, is_row_of, row_in, with_row};

use crate::file_fault::FileFault;
use crate::subject::Subject;
use crate::verdict::Verdict;

/// Whether rows were added: not if memory is refused, or if two tables want two values of a member.
pub(crate) type Added = Result<(), FileFault>;

/// What becomes of a member.
#[derive(Drop)]
pub struct Row {
    /// The place in the file of the first table that asks for it, as in `Change`.
    pub place: usize,
    pub subject: Subject,
    pub verdict: Verdict,
}

/// The row of a member, if there is one.
pub(crate) fn row_in(subject: Subject, rows: &[Row]) -> Option<&Row>
    ensures { option_copied result ≡ row_in subject rows.now }
{
    rows.iter().find(|row| is_row_of(row, subject))
}

fn is_row_of(row: &Row, subject: Subject) -> bool
    ensures { result ≡ is_row_of subject row.now }
{
    row.subject.domain == subject.domain
        && row.subject.clock == subject.clock
        && row.subject.port == subject.port
        && row.subject.id.number() == subject.id.number()
}

/// Adds a row. One that says the same as that of the same member is left out; one that says something else is a fault.
pub(crate) fn add_row(rows: &mut Vec<Row>, row: Row) -> Added
    ensures adds { AddsRow rows.old.items row result rows.new.items }
    ensures rows { OnOk result (rows.new.items ≡ with_row rows.old.items row) }
{
    match row_in(row.subject, rows.as_slice()) {
        Some(there) if there.verdict.is_alike(&row.verdict) => Ok(()),
        Some(_) => Err(FileFault::TwoValues(row.subject)),
        None => Ok(rows.push(row)?),
    }
}
