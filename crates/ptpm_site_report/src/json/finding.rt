//! A finding as a JSON object.

use crate::finding::found_line::FoundLine;
use crate::finding::phrases::{clock_of, clock_of_cause};
use crate::finding::remarks::Remark;
use crate::finding::report::key_of;
use crate::finding::values::{FindingValue, FindingValues, TakeValues, hand_values};
use crate::json::members::{Members, identity_value, text_value};
use crate::look::Look;
use ptpm_causes::Cause;
use ptpm_codec::ClockIdentity;
use ptpm_message_json::member_value;
use ptpm_site::judging::twice::OtherMember;
use ptpm_site::reading::asked::Asked;
use serde_json::{Value, json};
use std::alloc::{AllocError, Global};

/// A finding as a text of JSON.
pub(crate) fn found_object(
    alloc: Global,
    look: &Look<'_, '_>,
    remark: &Remark<'_>,
) -> Result<FoundLine, AllocError> {
    let described = look.picture.site.description(remark.source());
    Ok(FoundLine {
        domain: remark.source().domain,
        kind: remark.named.kind,
        key: key_of(alloc, remark)?,
        words: finding_value(alloc, remark, None)?.to_string(alloc)?,
        whole: finding_value(alloc, remark, described)?.to_string(alloc)?,
        follows: remark.cause.is_some(),
    })
}

/// A finding: its clock with its description, its name, from which other it follows, and its values.
fn finding_value(
    alloc: Global,
    remark: &Remark<'_>,
    described: Option<&str>,
) -> Result<Value, AllocError> {
    let mut members = Members::none(alloc);
    members.put_value("because", cause_value(alloc, remark.cause)?)?;
    put_place(&mut members, remark)?;
    if let Some(text) = described {
        members.put_text("userDescription", text)?;
    }
    members.put_text("finding", remark.named.kind.name())?;
    members.put_text("severity", remark.severity.word())?;
    hand_values(&remark.finding.what, &mut members)?;
    Ok(members.object())
}

impl TakeValues for Members {
    type Error = AllocError;

    fn take(&mut self, values: &FindingValues<'_>) -> Result<(), AllocError> {
        for (name, value) in values {
            if !name.is_empty() {
                self.put_value(name, value_of(self.alloc, value)?)?;
            }
        }
        Ok(())
    }
}

/// Puts the domain and the clock.
fn put_place(members: &mut Members, remark: &Remark<'_>) -> Result<(), AllocError> {
    let source = remark.source();
    members.put_number("domainNumber", source.domain.number() as i64)?;
    members.put_number("sdoId", source.domain.sdo() as i64)?;
    put_clock(members, clock_of(remark.finding))
}

/// Puts the identity of a clock, or a dash for a whole domain.
fn put_clock(members: &mut Members, clock: Option<ClockIdentity>) -> Result<(), AllocError> {
    match clock {
        Some(clock) => members.put_clock("clockIdentity", clock),
        None => members.put_text("clockIdentity", "-"),
    }
}

/// The name and the clock of the finding from which one follows, or null.
fn cause_value(alloc: Global, cause: Option<Cause>) -> Result<Value, AllocError> {
    let Some(cause) = cause else {
        return Ok(Value::Null);
    };
    let mut members = Members::none(alloc);
    put_clock(&mut members, clock_of_cause(cause))?;
    members.put_text("finding", cause.kind.name())?;
    Ok(members.object())
}

fn value_of(alloc: Global, value: &FindingValue<'_>) -> Result<Value, AllocError> {
    match *value {
        FindingValue::Template(_) | FindingValue::Null(_) => Ok(Value::Null),
        FindingValue::Name(name) => text_value(alloc, name),
        FindingValue::Of(value) => member_value(alloc, value),
        FindingValue::AtPort(port) => Ok(port_value(port)),
        FindingValue::Exact(interval) | FindingValue::Rounded(interval) => {
            Ok(Value::from(interval))
        }
        FindingValue::Power(log) => Ok(seconds_value(log)),
        FindingValue::Hexadecimal(number) => Ok(Value::from(number)),
        FindingValue::Tenths(_)
        | FindingValue::Time(_)
        | FindingValue::Origin(_)
        | FindingValue::Error(_)
        | FindingValue::Date(_)
        | FindingValue::Words(_) => words_value(alloc, value),
        FindingValue::Clocks(clocks) => clocks_value(alloc, clocks),
        FindingValue::Ids(ids) => ids_value(alloc, ids),
        FindingValue::Ports(runs) => runs_value(alloc, runs),
        FindingValue::Addresses(two) => json!(in alloc; [two.first, two.second]),
        FindingValue::Offsets(two) => json!(in alloc; [two.first, two.second]),
        FindingValue::Members(members) => members_value(alloc, members),
    }
}

fn port_value(port: Option<u16>) -> Value {
    match port {
        Some(port) => Value::from(port),
        None => Value::Null,
    }
}

/// A value in words, as a text.
fn words_value(alloc: Global, value: &FindingValue<'_>) -> Result<Value, AllocError> {
    Ok(Value::String(format!(in alloc; "{value}")?))
}

/// Two to a logarithm.
fn seconds_value(log: i8) -> Value {
    if 0 <= log && log < 63 {
        return Value::from(1u64 << log as u32);
    }
    let factor = if log < 0 { 0.5 } else { 2.0 };
    let mut seconds = 1.0;
    for _ in 0..log.unsigned_abs() {
        seconds *= factor;
    }
    Value::from(seconds)
}

fn clocks_value(alloc: Global, clocks: &[ClockIdentity]) -> Result<Value, AllocError> {
    let mut values = Vec::new(alloc);
    for clock in clocks {
        values.push(identity_value(alloc, *clock)?)?;
    }
    Ok(Value::Array(values))
}

fn ids_value(alloc: Global, ids: &[Asked]) -> Result<Value, AllocError> {
    let mut values = Vec::new(alloc);
    for asked in ids {
        values.push(text_value(alloc, asked.name())?)?;
    }
    Ok(Value::Array(values))
}

fn runs_value(alloc: Global, runs: &[(u16, u16)]) -> Result<Value, AllocError> {
    let mut values = Vec::new(alloc);
    for (first, last) in runs {
        values.push(json!(in alloc; [*first, *last])?)?;
    }
    Ok(Value::Array(values))
}

/// Members in which two answers differ: the port or null, the name, the value of the earlier answer, and that of the later.
fn members_value(alloc: Global, all: &[OtherMember<'_>]) -> Result<Value, AllocError> {
    let mut values = Vec::new(alloc);
    for one in all {
        let mut members = Members::none(alloc);
        members.put_value("portNumber", port_value(one.port))?;
        members.put_text("member", one.change.member.name())?;
        members.put("before", one.change.before)?;
        members.put("after", one.change.after)?;
        values.push(members.object())?;
    }
    Ok(Value::Array(values))
}
