//! A plan as one JSON object, by the standard's names.

ghost use Rattle.std.specs.Prelude.{◌≡◌, IfOk, OnOk, map};
ghost use Rattle.serde_json.specs.Data.{array};
ghost use Rattle.serde_json.specs.View.{items_of, members_view, view};
ghost use Rattle.ptpm_message_json.specs.Values.{clock_data};
ghost use Rattle.ptpm_plan.specs.PlanObject.{change_data, changes_data, field_data, port_data, subject_data};

use crate::best_clock::BestClocks;
use crate::change::{Change, PlannedId};
use crate::clock_time::ClockTime;
use crate::every::FoundClocks;
use crate::outcome::{Why, is_refused, not_reached};
use crate::places::Who;
use crate::report::{Report, id_text};
use crate::rows::Row;
use crate::subject::Subject;
use crate::verdict::Verdict;
use ptpm_codec::ClockIdentity;
use ptpm_commands::Fault;
use ptpm_members::Enumeration;
use ptpm_message_json::members_value;
use serde_json::{Map, Value, json, put};
use std::alloc::{AllocError, Global};
use std::io::Write;

impl Report<'_> {
    ghost use Rattle.ptpm_plan.specs.PlanObject.{IsObject, IsObjectLine};
    ghost use Rattle.ptpm_plan.specs.Printed.{Writes};

    /// Prints one object, in a line.
    pub(crate) fn print_json<O: Write>(&self, alloc: Global, out: &mut O) -> Result<(), Fault>
        ensures { OnOk result
            (Writes (IsObjectLine self.now.plan.now.changes.items) (O.contents out.old) (O.contents out.new)) }
    {
        let value = self.value(alloc)?;
        let text = value.to_string(alloc)?;
        writeln!(out, "{text}")?;
        Ok(())
    }

    fn value(&self, alloc: Global) -> Result<Value, AllocError>
        ensures { IfOk result (λ v. IsObject self.now.plan.now.changes.items (view v)) }
    {
        let changes = self.plan.changes.as_slice();
        let mut map = self.other_members(alloc)?;
        put(&mut map, alloc, "changes", changes_value(alloc, changes)?)?;
        let id = id_text(alloc, changes)?;
        put(&mut map, alloc, "plan", Value::String(id))?;
        Ok(Value::Object(map))
    }

    /// What it has beside its name and its changes.
    fn other_members(&self, alloc: Global) -> Result<Map<String, Value>, AllocError> {
        let (plan, rows) = (self.plan, self.plan.rows.as_slice());
        let mut map = Map::new(alloc);
        put(&mut map, alloc, "stays", staying_value(alloc, rows)?)?;
        put(&mut map, alloc, "cannotBeSet", refused_value(alloc, rows)?)?;
        let lines = self.not_reached_value(alloc)?;
        put(&mut map, alloc, "notReached", lines)?;
        put(
            &mut map,
            alloc,
            "every",
            found_value(alloc, plan.found.as_slice())?,
        )?;
        put(
            &mut map,
            alloc,
            "answersLeftOut",
            Value::from(plan.left_out),
        )?;
        put(&mut map, alloc, "bestClock", self.best_value(alloc)?)?;
        put(&mut map, alloc, "warnings", self.warnings_value(alloc)?)?;
        Ok(map)
    }

    fn not_reached_value(&self, alloc: Global) -> Result<Value, AllocError> {
        let mut lines = Vec::new(alloc);
        for line in not_reached(alloc, self.plan, self.file)? {
            lines.push(Value::String(line))?;
        }
        Ok(Value::Array(lines))
    }

    fn best_value(&self, alloc: Global) -> Result<Value, AllocError> {
        let mut values = Vec::new(alloc);
        for best in self.plan.best.as_slice() {
            let mut map = best_map(alloc, best)?;
            let before = time_value(alloc, self.time_of(best.domain, best.before))?;
            put(&mut map, alloc, "before", before)?;
            let after = match best.after {
                Some(after) => time_value(alloc, self.time_of(best.domain, after))?,
                None => Value::Null,
            };
            put(&mut map, alloc, "after", after)?;
            values.push(Value::Object(map))?;
        }
        Ok(Value::Array(values))
    }

    fn warnings_value(&self, alloc: Global) -> Result<Value, AllocError> {
        let mut lines = Vec::new(alloc);
        for warning in self.plan.warnings.as_slice() {
            lines.push(Value::String(format!(in alloc; "{warning}")?))?;
        }
        Ok(Value::Array(lines))
    }
}

fn changes_value(alloc: Global, changes: &[Change]) -> Result<Value, AllocError>
    ensures { IfOk result (λ v. view v ≡ array (items_of (changes_data 1 changes.now))) }
{
    Ok(Value::Array(change_values(alloc, changes)?))
}

/// An object for each change.
#[tactic(auto, using(crate::proofs::PlanObjects::object_added, crate::proofs::PlanObjects::all_objects))]
fn change_values(alloc: Global, changes: &[Change]) -> Result<Vec<Value>, AllocError>
    ensures { IfOk result (λ v. map view v.items ≡ changes_data 1 changes.now) }
{
    let mut values = Vec::new(alloc);
    for place in 0..changes.len() {
        values.push(change_value(alloc, place + 1, &changes[place])?)?;
    }
    Ok(values)
}

#[tactic(auto, unfolding(crate::specs::PlanObject::change_data))]
fn change_value(alloc: Global, number: usize, change: &Change) -> Result<Value, AllocError>
    ensures { IfOk result (λ v. view v ≡ change_data number change.now) }
{
    let subject = Subject {
        domain: change.domain,
        clock: change.clock,
        port: change.port,
        id: change.id,
    };
    let mut map = subject_map(alloc, subject)?;
    put(&mut map, alloc, "number", Value::from(number))?;
    let before = field_value(alloc, change.id, change.before.as_slice())?;
    put(&mut map, alloc, "before", before)?;
    let after = field_value(alloc, change.id, change.after.as_slice())?;
    put(&mut map, alloc, "after", after)?;
    Ok(Value::Object(map))
}

/// The members of a dataField.
fn field_value(alloc: Global, id: PlannedId, octets: &[u8]) -> Result<Value, AllocError>
    ensures { IfOk result (λ v. view v ≡ field_data id octets.now) }
{
    members_value(alloc, id.number(), octets)
}

/// Which member it is. A member of the clock has no portNumber.
#[tactic(auto, unfolding(crate::specs::PlanObject::subject_data))]
fn subject_map(alloc: Global, subject: Subject) -> Result<Map<String, Value>, AllocError>
    ensures { IfOk result (λ m. members_view m.entries ≡ subject_data subject) }
{
    let mut map = Map::new(alloc);
    put(&mut map, alloc, "domainNumber", Value::from(subject.domain))?;
    let clock = clock_value(alloc, subject.clock)?;
    put(&mut map, alloc, "clockIdentity", clock)?;
    put(&mut map, alloc, "portNumber", port_value(subject.port))?;
    let id = String::from_str(alloc, subject.id.name())?;
    put(&mut map, alloc, "managementId", Value::String(id))?;
    Ok(map)
}

fn port_value(port: u16) -> Value
    ensures { view result ≡ port_data port }
{
    match port {
        0 => Value::Null,
        port => Value::from(port),
    }
}

fn staying_value(alloc: Global, rows: &[Row]) -> Result<Value, AllocError> {
    let mut values = Vec::new(alloc);
    for row in rows {
        if let Verdict::Stays(field) = &row.verdict {
            let mut map = subject_map(alloc, row.subject)?;
            let members = field_value(alloc, row.subject.id, field.as_slice())?;
            put(&mut map, alloc, "members", members)?;
            values.push(Value::Object(map))?;
        }
    }
    Ok(Value::Array(values))
}

fn refused_value(alloc: Global, rows: &[Row]) -> Result<Value, AllocError> {
    let mut values = Vec::new(alloc);
    for row in rows {
        if is_refused(row) {
            let who = Who(row.subject.clock, row.subject.port);
            let what = format!(in alloc; "{who} {}", row.subject.id)?;
            let why = format!(in alloc; "{}", Why(&row.verdict))?;
            values.push(json!(in alloc; {"what": what, "why": why})?)?;
        }
    }
    Ok(Value::Array(values))
}

fn found_value(alloc: Global, found: &[FoundClocks]) -> Result<Value, AllocError> {
    let mut values = Vec::new(alloc);
    for of_table in found {
        let mut map = Map::new(alloc);
        put(
            &mut map,
            alloc,
            "domainNumber",
            Value::from(of_table.domain),
        )?;
        put(
            &mut map,
            alloc,
            "clocks",
            Value::from(of_table.count as u64),
        )?;
        let expected = match of_table.expected {
            Some(expected) => Value::from(expected),
            None => Value::Null,
        };
        put(&mut map, alloc, "expected", expected)?;
        values.push(Value::Object(map))?;
    }
    Ok(Value::Array(values))
}

/// The best clock of a domain now, and each that follows it.
fn best_map(alloc: Global, best: &BestClocks) -> Result<Map<String, Value>, AllocError> {
    let mut map = Map::new(alloc);
    put(&mut map, alloc, "domainNumber", Value::from(best.domain))?;
    let first = clock_value(alloc, best.before.identity)?;
    put(&mut map, alloc, "clockIdentity", first)?;
    let mut changes = Vec::new(alloc);
    for altered in best.alterations.as_slice() {
        let (after, clock) = (altered.after as u64, clock_value(alloc, altered.clock)?);
        changes.push(json!(in alloc; {"after": after, "clockIdentity": clock})?)?;
    }
    put(&mut map, alloc, "changes", Value::Array(changes))?;
    Ok(map)
}

/// What a clock says of its time. What is not known is null.
fn time_value(alloc: Global, time: ClockTime) -> Result<Value, AllocError> {
    let mut map = Map::new(alloc);
    let clock = clock_value(alloc, time.rank.identity)?;
    put(&mut map, alloc, "clockIdentity", clock)?;
    let (class, accuracy) = (Value::from(time.rank.class), time.rank.accuracy);
    put(&mut map, alloc, "clockClass", class)?;
    let accuracy = Value::String(format!(in alloc; "0x{accuracy:02x}")?);
    put(&mut map, alloc, "clockAccuracy", accuracy)?;
    let (source, is_time, is_frequency) = match time.properties {
        Some(properties) => (
            source_value(alloc, properties.source)?,
            Value::Bool(properties.is_time_traceable),
            Value::Bool(properties.is_frequency_traceable),
        ),
        None => (Value::Null, Value::Null, Value::Null),
    };
    put(&mut map, alloc, "timeSource", source)?;
    put(&mut map, alloc, "timeTraceable", is_time)?;
    put(&mut map, alloc, "frequencyTraceable", is_frequency)?;
    Ok(Value::Object(map))
}

/// The standard's name of a timeSource, or its number.
fn source_value(alloc: Global, source: u8) -> Result<Value, AllocError> {
    Ok(Value::String(match Enumeration::TimeSource.name_of(source) {
        Some(name) => String::from_str(alloc, name)?,
        None => format!(in alloc; "0x{source:02x}")?,
    }))
}

fn clock_value(alloc: Global, clock: ClockIdentity) -> Result<Value, AllocError>
    ensures { IfOk result (λ v. view v ≡ clock_data clock) }
{
    Ok(Value::String(format!(in alloc; "{clock}")?))
}
