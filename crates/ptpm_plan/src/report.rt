//! A plan as a text.

ghost use Rattle.std.specs.Prelude.{◌≡◌, IfNone, IfOk, IfSome, OnOk, false, length, string_bytes};
ghost use Rattle.hex.specs.Hex.{encode_lower};
ghost use Rattle.ptpm_plan.specs.Digest.{digest_of};
ghost use Rattle.ptpm_plan.specs.Printed.{AreNumbered, AreRows, IsCount, IsRow, IsStep, Writes, domain_text, has_feed, name_text, port_text, row_head, row_member, step_clock, step_fields, step_head, step_member};

use crate::answers::Answers;
use crate::change::Change;
use crate::digest::{digest_of, push_clock, push_number, push_octets};
use crate::order::group_of;
use crate::outcome::{Counted, Why, is_refused, not_reached};
use crate::places::{Arrow, Values, Who, shown_of};
use crate::plan::Plan;
use crate::surveyed::Surveyed;
use crate::verdict::Verdict;
use crate::wish::PlanFile;
use ptpm_commands::Fault;
use std::alloc::{AllocError, Global};
use std::io::Write;

/// A plan that is printed, with the file that asks for it and the answers of its clocks.
#[derive(Clone, Copy)]
pub(crate) struct Report<'a> {
    pub(crate) plan: &'a Plan,
    pub(crate) file: &'a PlanFile,
    pub(crate) answers: &'a Answers,
}

impl Report<'_> {
    ghost use Rattle.ptpm_plan.specs.Printed.{AreNumbered, AreRows, IsCount, IsNamed, IsRow, IsWithSteps};

    /// Prints the plan, and after an empty line its steps.
    pub(crate) fn print_with_steps<O: Write>(&self, alloc: Global, out: &mut O) -> Result<(), Fault>
        ensures { OnOk result (Writes (IsWithSteps self.now.plan.now) (O.contents out.old) (O.contents out.new)) }
    {
        self.print(alloc, out)?;
        out.write_all(b"\n")?;
        let plan = self.plan;
        print_steps(alloc, &plan.surveyed, plan.changes.as_slice(), out)?;
        Ok(())
    }

    /// Prints the plan: its name, and what is made in memory after it.
    #[tactic(auto, using(crate::proofs::Printing::named))]
    pub(crate) fn print<O: Write>(&self, alloc: Global, out: &mut O) -> Result<(), Fault>
        ensures { OnOk result
            (Writes (IsNamed self.now.plan.now.changes.items) (O.contents out.old) (O.contents out.new)) }
    {
        let name = name_text(alloc, self.plan.changes.as_slice())?;
        let rows = self.rows_text(alloc)?;
        let mut words: Vec<u8> = Vec::new(alloc);
        match self.print_words(alloc, &mut words) {
            Ok(()) => {}
            Err(_) => return Err(Fault::OutOfMemory),
        }
        out.write_all(name.as_bytes())?;
        out.write_all(rows.as_slice())?;
        out.write_all(words.as_slice())?;
        Ok(())
    }

    /// How many changes there are, and a row for each.
    #[tactic(auto, using(crate::proofs::Printing::rows_made))]
    fn rows_text(&self, alloc: Global) -> Result<Vec<u8>, Fault>
        ensures { IfOk result (λ t. AreRows self.now.plan.now.changes.items t.items) }
    {
        let mut rows: Vec<u8> = Vec::new(alloc);
        match self.print_rows(alloc, &mut rows) {
            Ok(()) => Ok(rows),
            Err(_) => Err(Fault::OutOfMemory),
        }
    }

    #[tactic(auto, using(crate::proofs::Printing::counted_rows))]
    fn print_rows<O: Write>(&self, alloc: Global, out: &mut O) -> Result<(), Fault>
        ensures { OnOk result
            (Writes (AreRows self.now.plan.now.changes.items) (O.contents out.old) (O.contents out.new)) }
    {
        let changes = self.plan.changes.as_slice();
        print_count(alloc, changes, out)?;
        self.print_changes(alloc, changes, out)
    }

    /// Prints what comes after the rows of the changes. In memory it is refused only memory.
    fn print_words<O: Write>(&self, alloc: Global, out: &mut O) -> Result<(), Fault> {
        self.print_staying(alloc, out)?;
        self.print_refused(out)?;
        self.print_found(out)?;
        self.print_not_reached(alloc, out)?;
        self.print_best(out)?;
        for warning in self.plan.warnings.as_slice() {
            writeln!(out, "warning: {warning}")?;
        }
        Ok(())
    }

    /// Prints a row for each change.
    fn print_changes<O: Write>(
        &self,
        alloc: Global,
        changes: &[Change],
        out: &mut O,
    ) -> Result<(), Fault>
        ensures { OnOk result
            (Writes (AreNumbered IsRow 1 changes.now) (O.contents out.old) (O.contents out.new)) }
    {
        for place in 0..changes.len() {
            self.print_change(alloc, place + 1, &changes[place], out)?;
        }
        Ok(())
    }

    fn print_change<O: Write>(
        &self,
        alloc: Global,
        number: usize,
        change: &Change,
        out: &mut O,
    ) -> Result<(), Fault>
        ensures { OnOk result (Writes (IsRow number change.now) (O.contents out.old) (O.contents out.new)) }
    {
        let head = row_head(alloc, number, change)?;
        let name = self.quoted(alloc, change.domain, change.clock)?;
        let name = format!(in alloc; "{name}")?;
        let member = row_member(alloc, change)?;
        let values = values_text(alloc, change)?;
        let (name, values) = (first_line(name.as_str()), first_line(values.as_str()));
        writeln!(out, "{}{name}{}{values}", head.as_str(), member.as_str())?;
        Ok(())
    }

    fn print_staying<O: Write>(&self, alloc: Global, out: &mut O) -> Result<(), Fault> {
        let mut head = "stays:\n";
        for row in self.plan.rows.as_slice() {
            if let Verdict::Stays(field) = &row.verdict {
                let id = row.subject.id;
                let lines = shown_of(alloc, id, field.as_slice())?;
                let values = Values(id, lines.as_str());
                let who = Who(row.subject.clock, row.subject.port);
                writeln!(out, "{head}  {who} {id} {values}")?;
                head = "";
            }
        }
        Ok(())
    }

    fn print_refused<O: Write>(&self, out: &mut O) -> Result<(), Fault> {
        let mut head = "can't be set:\n";
        for row in self.plan.rows.as_slice() {
            if is_refused(row) {
                let who = Who(row.subject.clock, row.subject.port);
                let (id, why) = (row.subject.id, Why(&row.verdict));
                writeln!(out, "{head}  {who} {id}: {why}")?;
                head = "";
            }
        }
        Ok(())
    }

    /// Prints how many clocks each table of every clock found. One that found another number than it says is not reached.
    fn print_found<O: Write>(&self, out: &mut O) -> Result<(), Fault> {
        for (place, found) in self.plan.found.as_slice().iter().enumerate() {
            if !found.is_short() {
                writeln!(out, "every {}: {found}", place + 1)?;
            }
        }
        Ok(())
    }

    fn print_not_reached<O: Write>(&self, alloc: Global, out: &mut O) -> Result<(), Fault> {
        let mut head = "not reached:\n";
        let lines = not_reached(alloc, self.plan, self.file)?;
        for line in lines.as_slice() {
            writeln!(out, "{head}  {line}")?;
            head = "";
        }
        Ok(())
    }

    fn print_best<O: Write>(&self, out: &mut O) -> Result<(), Fault> {
        for best in self.plan.best.as_slice() {
            let (domain, before) = (best.domain, best.before);
            write!(out, "best clock of domain {domain}: {}", before.identity)?;
            for altered in best.alterations.as_slice() {
                write!(out, ", after change {} {}", altered.after, altered.clock)?;
            }
            match best.after {
                None => writeln!(out, ", after the moves none")?,
                Some(after) if after.identity != best.last_identity() => {
                    writeln!(out, ", after the moves {}", after.identity)?
                }
                Some(_) if best.alterations.is_empty() => writeln!(out, " stays")?,
                Some(_) => writeln!(out)?,
            }
            if best.is_altered() {
                writeln!(out, "  before: {}", self.time_of(domain, before))?;
                if let Some(after) = best.after {
                    writeln!(out, "  after: {}", self.time_of(domain, after))?;
                }
            }
        }
        Ok(())
    }
}

/// Prints a line for each change with its dataFields.
fn print_steps<O: Write>(
    alloc: Global,
    surveyed: &Surveyed,
    changes: &[Change],
    out: &mut O,
) -> Result<(), Fault>
    ensures { OnOk result (Writes (AreNumbered (IsStep surveyed.now) 1 changes.now) (O.contents out.old) (O.contents out.new)) }
{
    for place in 0..changes.len() {
        print_step(alloc, surveyed, place + 1, &changes[place], out)?;
    }
    Ok(())
}

fn print_step<O: Write>(
    alloc: Global,
    surveyed: &Surveyed,
    number: usize,
    change: &Change,
    out: &mut O,
) -> Result<(), Fault>
    ensures { OnOk result (Writes (IsStep surveyed.now number change.now) (O.contents out.old) (O.contents out.new)) }
{
    let head = step_head(alloc, surveyed, number, change)?;
    let values = values_text(alloc, change)?;
    let who = Who(change.clock, change.port);
    let words = format!(in alloc; "{who} {} {}", change.id, values.as_str())?;
    writeln!(out, "{}{}", head.as_str(), first_line(words.as_str()))?;
    Ok(())
}

/// What a step is, up to its words.
fn step_head(
    alloc: Global,
    surveyed: &Surveyed,
    number: usize,
    change: &Change,
) -> Result<String, AllocError>
    ensures { IfOk result (λ t. string_bytes t ≡ step_head surveyed.now number change.now) }
{
    let mut text = step_clock(alloc, number, group_of(surveyed, change), change)?;
    text.push_str(step_member(alloc, change)?.as_str())?;
    text.push_str(step_fields(alloc, change)?.as_str())?;
    Ok(text)
}

#[tactic(auto, unfolding(crate::specs::Printed::step_clock))]
fn step_clock(
    alloc: Global,
    number: usize,
    group: u8,
    change: &Change,
) -> Result<String, AllocError>
    ensures { IfOk result (λ t. string_bytes t ≡ step_clock number group change.now) }
{
    let mut text = String::from_str(alloc, "step ")?;
    push_number(alloc, number, &mut text)?;
    text.push_str(" ")?;
    push_number(alloc, usize::from(group), &mut text)?;
    text.push_str(" ")?;
    push_number(alloc, usize::from(change.domain), &mut text)?;
    text.push_str(" ")?;
    push_clock(alloc, change.clock, &mut text)?;
    Ok(text)
}

#[tactic(auto, unfolding(crate::specs::Printed::step_member))]
fn step_member(alloc: Global, change: &Change) -> Result<String, AllocError>
    ensures { IfOk result (λ t. string_bytes t ≡ step_member change.now) }
{
    let mut text = String::from_str(alloc, " ")?;
    push_number(alloc, usize::from(change.port), &mut text)?;
    text.push_str(" ")?;
    let id = change.id.number().to_be_bytes();
    push_octets(alloc, id.as_slice(), &mut text)?;
    Ok(text)
}

#[tactic(auto, unfolding(crate::specs::Printed::step_fields))]
fn step_fields(alloc: Global, change: &Change) -> Result<String, AllocError>
    ensures { IfOk result (λ t. string_bytes t ≡ step_fields change.now) }
{
    let mut text = String::from_str(alloc, " ")?;
    push_octets(alloc, change.before.as_slice(), &mut text)?;
    text.push_str(" ")?;
    push_octets(alloc, change.after.as_slice(), &mut text)?;
    text.push_str(" ")?;
    Ok(text)
}

/// A text up to its first line feed.
fn first_line(text: &str) -> &str
    ensures { has_feed result.now ≡ false }
{
    match cut(text) {
        Some((line, _)) => line,
        None => text,
    }
}

/// What is before the first line feed, and what comes after it.
fn cut(text: &str) -> Option<(&str, &str)>
    ensures none { IfNone result (has_feed text.now ≡ false) }
    ensures some { IfSome result (λ parts. has_feed parts.0.now ≡ false) }
{
    text.split_once('\n')
}

/// The values of a change before and after.
fn values_text(alloc: Global, change: &Change) -> Result<String, AllocError> {
    let id = change.id;
    let before = shown_of(alloc, id, change.before.as_slice())?;
    let after = shown_of(alloc, id, change.after.as_slice())?;
    format!(in alloc; "{}", Arrow(id, before.as_str(), after.as_str()))
}

/// Prints how many changes there are, and at how many clocks.
fn print_count<O: Write>(alloc: Global, changes: &[Change], out: &mut O) -> Result<(), Fault>
    ensures { OnOk result
        (Writes (IsCount (length changes.now)) (O.contents out.old) (O.contents out.new)) }
{
    let count = changes.len();
    let clocks = Counted(clock_count(changes), "clock");
    let noun = if count == 1 { "change" } else { "changes" };
    let words = format!(in alloc; " {noun} at {clocks}")?;
    writeln!(out, " {count}{}", first_line(words.as_str()))?;
    Ok(())
}

/// The number of a change, its clock and its port.
#[tactic(auto, unfolding(crate::specs::Printed::row_head))]
fn row_head(alloc: Global, number: usize, change: &Change) -> Result<String, AllocError>
    ensures { IfOk result (λ t. string_bytes t ≡ row_head number change.now) }
{
    let mut text = String::from_str(alloc, "  ")?;
    push_number(alloc, number, &mut text)?;
    text.push_str(" ")?;
    push_clock(alloc, change.clock, &mut text)?;
    text.push_str(port_text(alloc, change.port)?.as_str())?;
    Ok(text)
}

fn port_text(alloc: Global, port: u16) -> Result<String, AllocError>
    ensures { IfOk result (λ t. string_bytes t ≡ port_text port) }
{
    let mut text = String::new(alloc);
    if port != 0 {
        text.push_str("/")?;
        push_number(alloc, usize::from(port), &mut text)?;
    }
    Ok(text)
}

/// The domain of a change, and its id.
#[tactic(auto, unfolding(crate::specs::Printed::row_member))]
fn row_member(alloc: Global, change: &Change) -> Result<String, AllocError>
    ensures { IfOk result (λ t. string_bytes t ≡ row_member change.now) }
{
    let mut text = domain_text(alloc, change.domain)?;
    text.push_str(" ")?;
    text.push_str(change.id.name())?;
    text.push_str(" ")?;
    Ok(text)
}

/// A domain after a space; nothing for domain 0.
fn domain_text(alloc: Global, domain: u8) -> Result<String, AllocError>
    ensures { IfOk result (λ t. string_bytes t ≡ domain_text domain) }
{
    let mut text = String::new(alloc);
    if domain != 0 {
        text.push_str(" domain ")?;
        push_number(alloc, usize::from(domain), &mut text)?;
    }
    Ok(text)
}

/// What a plan's text begins with.
#[tactic(auto, unfolding(crate::specs::Printed::name_text))]
fn name_text(alloc: Global, changes: &[Change]) -> Result<String, AllocError>
    ensures { IfOk result (λ t. string_bytes t ≡ name_text changes.now) }
{
    let mut text = String::from_str(alloc, "plan ")?;
    text.push_str(id_text(alloc, changes)?.as_str())?;
    text.push_str(":")?;
    Ok(text)
}

/// The id of a plan.
pub(crate) fn id_text(alloc: Global, changes: &[Change]) -> Result<String, AllocError>
    ensures { IfOk result (λ t. string_bytes t ≡ encode_lower (digest_of changes.now)) }
{
    let digest = digest_of(alloc, changes)?;
    hex::encode(alloc, digest.as_slice())
}

/// How many clocks the changes are at.
fn clock_count(changes: &[Change]) -> usize {
    let mut count = 0usize;
    for place in 0..changes.len() {
        let clock = changes[place].clock;
        let (earlier, _) = changes.split_at(place);
        if !earlier.iter().any(|change| change.clock == clock) {
            count = count.saturating_add(1);
        }
    }
    count
}
