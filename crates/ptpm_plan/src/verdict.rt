//! What becomes of a member that a plan asks for.

ghost use Rattle.std.specs.Prelude.{◌≡◌, ◌≤◌, IfOk, length, string_bytes, []};
ghost use Rattle.ptpm_members.specs.FieldText.{field_text};
ghost use Rattle.ptpm_plan.specs.PlannedId.{number_of};
ghost use Rattle.ptpm_plan.specs.Verdicts.{changed, has_fewer_ports, is_same, lacks_port, verdict_of, verdict_of_said};

use crate::after::after;
use crate::answer::{Said, value_of};
use crate::answers::Answers;
use crate::change::PlannedId;
use crate::octets::pair_at;
use crate::subject::Subject;
use crate::wish::Wished;
use ptpm_data::Value;
use ptpm_members::{FieldText, ParseFault};
use std::alloc::{AllocError, Global};

/// managementId of DEFAULT_DATA_SET.
const DEFAULT_DATA_SET: u16 = 0x2000;

/// What becomes of a member that is asked for.
#[derive(Drop)]
pub enum Verdict {
    /// The clock gave no answer for it.
    NotReached,
    /// The clock has no port of this number.
    NoPort,
    /// The GET is refused, with this managementErrorId.
    GetRefused(u16),
    /// What is wished is no value of the id.
    NoValue(ParseFault),
    /// It is there already. This is the dataField.
    Stays(Value),
    /// The dataField before, and the one that is to be set.
    Changes(Value, Value),
}

impl Verdict {
    ghost use Rattle.ptpm_plan.specs.Verdicts.{is_alike};

    /// Whether two tables that ask for one member ask for the same.
    pub fn is_alike(&self, other: &Verdict) -> bool
        ensures { result ≡ is_alike self.now other.now }
    {
        match (self, other) {
            (Verdict::NotReached, Verdict::NotReached)
            | (Verdict::NoPort, Verdict::NoPort)
            | (Verdict::NoValue(_), Verdict::NoValue(_)) => true,
            (Verdict::GetRefused(one), Verdict::GetRefused(two)) => one == two,
            (Verdict::Stays(one), Verdict::Stays(two)) => one.as_slice() == two.as_slice(),
            (Verdict::Changes(_, one), Verdict::Changes(_, two)) => one.as_slice()
                == two.as_slice(),
            _ => false,
        }
    }
}

/// What becomes of a member, by the answers of its clock.
pub fn verdict_of(
    alloc: Global,
    answers: &Answers,
    subject: Subject,
    wished: &Wished,
) -> Result<Verdict, AllocError>
    ensures { IfOk result (λ v. v ≡ verdict_of answers.now.list.items subject wished.now) }
{
    let number = subject.id.number();
    match answers.last(subject.domain, subject.clock, subject.port, number) {
        Some(answer) => verdict_of_said(alloc, subject.id, wished, &answer.said),
        None if lacks_port(answers, subject) => Ok(Verdict::NoPort),
        None => Ok(Verdict::NotReached),
    }
}

/// Whether DEFAULT_DATA_SET says that the clock has fewer ports.
#[tactic(auto, unfolding(crate::specs::Verdicts::lacks_port))]
fn lacks_port(answers: &Answers, subject: Subject) -> bool
    ensures { result ≡ lacks_port answers.now.list.items subject }
{
    let answer = answers.last(subject.domain, subject.clock, 0, DEFAULT_DATA_SET);
    answer.map_or(false, |answer| has_fewer_ports(&answer.said, subject.port))
}

/// Whether numberPorts of a DEFAULT_DATA_SET is below a port's number.
fn has_fewer_ports(said: &Said, port: u16) -> bool
    ensures { result ≡ has_fewer_ports port said.now }
{
    match said {
        Said::Is(field) => pair_at(field.as_slice(), 2) < port,
        Said::Refused(_) => false,
    }
}

/// What becomes of a member, by what the clock says of it.
fn verdict_of_said(
    alloc: Global,
    id: PlannedId,
    wished: &Wished,
    said: &Said,
) -> Result<Verdict, AllocError>
    ensures { IfOk result (λ v. v ≡ verdict_of_said id wished.now said.now) }
{
    match said {
        Said::Is(before) => match after(alloc, id, wished, before.as_slice())? {
            Ok(after) => changed(alloc, id, before.as_slice(), after),
            Err(fault) => Ok(Verdict::NoValue(fault)),
        },
        Said::Refused(error) => Ok(Verdict::GetRefused(*error)),
    }
}

/// What becomes of a member that is to be this.
fn changed(alloc: Global, id: PlannedId, before: &[u8], after: Value) -> Result<Verdict, AllocError>
    requires { length before.now ≤ 130 }
    ensures { IfOk result (λ v. v ≡ changed id before.now after.items) }
{
    if is_same(alloc, id, before, after.as_slice())? {
        return Ok(Verdict::Stays(value_of(before)));
    }
    Ok(Verdict::Changes(value_of(before), after))
}

/// Whether two dataFields of an id have members of the same values: reserved octets and bits do not count.
#[tactic(auto, unfolding(crate::specs::Verdicts::is_same))]
fn is_same(alloc: Global, id: PlannedId, before: &[u8], after: &[u8]) -> Result<bool, AllocError>
    ensures { IfOk result (λ b. b ≡ is_same id before.now after.now) }
{
    let before = text_of(alloc, id, before)?;
    let after = text_of(alloc, id, after)?;
    Ok(before.as_str() == after.as_str())
}

/// The members of a dataField, one a line.
pub(crate) fn text_of(alloc: Global, id: PlannedId, octets: &[u8]) -> Result<String, AllocError>
    ensures { IfOk result (λ t. string_bytes t ≡ field_text [] (number_of id) octets.now) }
{
    let text = FieldText {
        lead: "",
        id: id.number(),
        octets,
    };
    format!(in alloc; "{text}")
}
