//! What comes of a plan: what can't be set, who is not reached, and the exit status.

ghost use Rattle.std.specs.Prelude.{◌≡◌};
ghost use Rattle.std.specs.List.{list_any};
ghost use Rattle.ptpm_plan.specs.Outcome.{has_unnamed, is_not_reached, is_refused, is_short, misses_some, or_changes, status_of, status_of_rows};

use crate::asking::Unnamed;
use crate::every::FoundClocks;
use crate::plan::Plan;
use crate::rows::Row;
use crate::subject::Subject;
use crate::verdict::Verdict;
use crate::wish::{PlanFile, Target};
use ptpm_codec::{ClockIdentity, ErrorId};
use ptpm_members::ParseFault;
use std::alloc::{AllocError, Global};
use std::fmt;

/// The exit status of a plan. 0: it can be applied, or nothing is to be done. 1: something can't be set. 3: something is not
/// reached.
pub(crate) fn status_of(plan: &Plan) -> u8
    ensures { result ≡ status_of plan.now.rows.items plan.now.unnamed.items plan.now.found.items plan.now.left_out }
{
    status_of_rows(misses_some(plan), has_refused(plan.rows.as_slice()))
}

/// The exit status, and 8 in place of 0 if there are changes.
pub(crate) fn status_telling_changes(plan: &Plan) -> u8
    ensures { result ≡ or_changes plan.now.changes.items
        (status_of plan.now.rows.items plan.now.unnamed.items plan.now.found.items plan.now.left_out) }
{
    match (status_of(plan), plan.changes.as_slice()) {
        (0, [_, ..]) => 8,
        (status, _) => status,
    }
}

/// Whether something is not reached.
fn misses_some(plan: &Plan) -> bool
    ensures { result ≡ misses_some plan.now.rows.items plan.now.unnamed.items plan.now.found.items plan.now.left_out }
{
    has_unnamed(plan.unnamed.as_slice())
        || has_not_reached(plan.rows.as_slice())
        || has_short(plan.found.as_slice())
        || 0 < plan.left_out
}

fn has_unnamed(unnamed: &[Unnamed]) -> bool
    ensures { result ≡ has_unnamed unnamed.now }
{
    match unnamed {
        [] => false,
        _ => true,
    }
}

fn has_short(found: &[FoundClocks]) -> bool
    ensures { result ≡ list_any is_short found.now }
{
    found.iter().any(|found| found.is_short())
}

/// The status, by whether some row is not reached, and whether one can't be set.
fn status_of_rows(not_reached: bool, refused: bool) -> u8
    ensures { result ≡ status_of_rows not_reached refused }
{
    if not_reached {
        3
    } else if refused {
        1
    } else {
        0
    }
}

fn has_not_reached(rows: &[Row]) -> bool
    ensures { result ≡ list_any is_not_reached rows.now }
{
    rows.iter().any(|row| is_not_reached(row))
}

fn has_refused(rows: &[Row]) -> bool
    ensures { result ≡ list_any is_refused rows.now }
{
    rows.iter().any(|row| is_refused(row))
}

/// Whether the clock gave no answer for a member.
fn is_not_reached(row: &Row) -> bool
    ensures { result ≡ is_not_reached row.now }
{
    matches!(row.verdict, Verdict::NotReached)
}

/// Whether a member can't be set.
pub(crate) fn is_refused(row: &Row) -> bool
    ensures { result ≡ is_refused row.now }
{
    matches!(
        row.verdict,
        Verdict::NoPort | Verdict::GetRefused(_) | Verdict::NoValue(_)
    )
}

/// Why a member can't be set, by its verdict.
#[derive(Clone, Copy)]
pub(crate) struct Why<'a>(pub(crate) &'a Verdict);

impl fmt::Display for Why<'_> {
    fn fmt<W: fmt::Write>(&self, f: &mut fmt::Formatter<W>) -> fmt::Result {
        match self.0 {
            Verdict::NoPort => f.write_str("it has no such port"),
            Verdict::GetRefused(number) => match ErrorId::from_number(*number) {
                Some(error) => write!(f, "GET is refused: {error}"),
                None => write!(f, "GET is refused: 0x{:04x}", *number),
            },
            Verdict::NoValue(ParseFault::NoValue(member)) => {
                write!(f, "the value is none of {}", member.name())
            }
            Verdict::NoValue(_) => f.write_str("the value is none of the id"),
            _ => Ok(()),
        }
    }
}

/// A line for each table that names no clock, and for each clock that gave no answer. So has each table of every clock that found
/// another number than it says, or none, or that can't be planned as a whole. A last one is of the answers that were left out.
pub(crate) fn not_reached(
    alloc: Global,
    plan: &Plan,
    file: &PlanFile,
) -> Result<Vec<String>, AllocError> {
    let mut lines = Vec::new(alloc);
    for unnamed in plan.unnamed.as_slice() {
        if let Some(table) = file.clocks.get(unnamed.place) {
            if let Target::Description(text) = &table.target {
                let (text, have, domain) = (text.as_str(), Have(unnamed.count), table.domain);
                lines.push(format!(in alloc;
                    "{text:?}: {have} this description in domain {domain}"
                )?)?;
            }
        }
    }
    let rows = plan.rows.as_slice();
    for place in 0..rows.len() {
        let Subject { domain, clock, .. } = rows[place].subject;
        let (earlier, _) = rows.split_at(place);
        if is_not_reached(&rows[place])
            && !earlier.iter().any(|row| is_silent(row, domain, clock))
        {
            lines.push(format!(in alloc; "{clock} in domain {domain}")?)?;
        }
    }
    for (place, found) in plan.found.as_slice().iter().enumerate() {
        if found.is_short() {
            lines.push(format!(in alloc; "every {}: {found}", place + 1)?)?;
        }
    }
    if 0 < plan.left_out {
        lines.push(format!(in alloc; "answers for which there was no room: {}", plan.left_out)?)?;
    }
    Ok(lines)
}

impl fmt::Display for FoundClocks {
    fn fmt<W: fmt::Write>(&self, f: &mut fmt::Formatter<W>) -> fmt::Result {
        let clocks = Counted(self.count, "clock");
        write!(f, "{clocks} found in domain {}", self.domain)?;
        match self.expected {
            Some(expected) if self.is_other_count() => write!(f, ", not {expected}")?,
            _ => {}
        }
        if 0 < self.unclear {
            let names = Counted(self.unclear, "name");
            write!(f, "; {names} in `except` not of one clock")?;
        }
        if 0 < self.uncounted {
            let clocks = Counted(self.uncounted, "clock");
            write!(f, "; {clocks} with ports not known")?;
        }
        Ok(())
    }
}

/// A number of things: `1 change`, `2 changes`.
#[derive(Clone, Copy)]
pub(crate) struct Counted(pub(crate) usize, pub(crate) &'static str);

impl fmt::Display for Counted {
    fn fmt<W: fmt::Write>(&self, f: &mut fmt::Formatter<W>) -> fmt::Result {
        let ending = if self.0 == 1 { "" } else { "s" };
        write!(f, "{} {}{ending}", self.0, self.1)
    }
}

/// Whether a row says that a clock of a domain was not reached.
fn is_silent(row: &Row, domain: u8, clock: ClockIdentity) -> bool {
    is_not_reached(row) && row.subject.domain == domain && row.subject.clock == clock
}

/// How many clocks have something.
#[derive(Clone, Copy)]
struct Have(usize);

impl fmt::Display for Have {
    fn fmt<W: fmt::Write>(&self, f: &mut fmt::Formatter<W>) -> fmt::Result {
        match self.0 {
            0 => f.write_str("no clock has"),
            1 => f.write_str("1 clock has"),
            count => write!(f, "{count} clocks have"),
        }
    }
}
