//! A site as one JSON object, by the standard's names.

pub(crate) mod finding;
pub(crate) mod members;

use crate::finding::found_line::FoundLine;
use crate::finding::remarks::Remark;
use crate::json::finding::found_object;
use crate::json::members::Members;
use crate::look::Look;
use crate::names::Names;
use crate::reading::asked_domains::AskedDomain;
use crate::reading::span::Span;
use crate::text::grandmaster_line::judged_time;
use crate::trees::leaders_in;
use crate::utc_text::UtcText;
use ptpm_causes::not_judged;
use ptpm_codec::{ClockIdentity, PortIdentity};
use ptpm_commands::Fault;
use ptpm_data::Member::{
    FrequencyTraceable, Leap59, Leap61, PtpTimescale, TimeSource, TimeTraceable, UtcOffset,
    UtcValid,
};
use ptpm_members::Member::DataSet;
use ptpm_members::{Enumeration, MemberValue};
use ptpm_site::judging::lacks::Lack;
use ptpm_site::judging::leaders::{HeardBy, Leader};
use ptpm_site::reading::asked::{Asked, OF_CLOCK};
use ptpm_site::reading::clock::{Clock, Received};
use ptpm_site::reading::data_sets::TimePropertiesDataSet;
use ptpm_site::reading::domain::Domain;
use ptpm_site::reading::member::{members_of, value_of};
use ptpm_site::reading::origin::{JudgedTime, TimeVerdict};
use ptpm_site::reading::source::Source;
use serde_json::Value;
use std::alloc::{AllocError, Global};
use std::io::Write;
use std::{fmt, io};

/// Prints one object: what was asked and when, the domains with their clocks, what is open, and the findings. Last is what is not judged,
/// and how much was left out. Answers the objects of the findings.
pub(crate) fn print_object<O: Write>(
    alloc: Global,
    look: &Look<'_, '_>,
    out: &mut O,
) -> Result<Vec<FoundLine>, Fault> {
    let picture = look.picture;
    print_head(look, out)?;
    print_domains(alloc, look, out)?;
    if let Some(count) = look.momentary() {
        writeln!(out, "\"momentary\":{count},")?;
    }
    let _ = print_findings(alloc, look, "open", look.open.as_slice(), out)?;
    let found = print_findings(alloc, look, "findings", look.found.as_slice(), out)?;
    print_lacks(picture.lacks.as_slice(), out)?;
    let (clocks, ports) = (picture.left_out.clocks, picture.left_out.ports);
    writeln!(
        out,
        "\"leftOut\":{{\"clocks\":{clocks},\"ports\":{ports}}}}}"
    )?;
    Ok(found)
}

/// Prints when the datagrams came, and in which domains the clocks were asked.
fn print_head<O: Write>(look: &Look<'_, '_>, out: &mut O) -> io::Result<()> {
    match look.beside.said.span {
        Some(Span { begin, end }) => write!(
            out,
            "{{\"time\":{{\"begin\":\"{}\",\"end\":\"{}\"}},\n\"asked\":[",
            UtcText(begin),
            UtcText(end)
        )?,
        None => write!(
            out,
            "{{\"time\":{{\"begin\":null,\"end\":null}},\n\"asked\":["
        )?,
    }
    let mut between = "";
    for AskedDomain { domain, hops } in look.beside.said.asked.as_slice() {
        let domain = DomainMembers(*domain);
        write!(out, "{between}{{{domain},\"boundaryHops\":{hops}}}")?;
        between = ",";
    }
    writeln!(out, "],")
}

/// Prints the member with the domains, each with those of its clocks that lead, and with all its clocks.
fn print_domains<O: Write>(alloc: Global, look: &Look<'_, '_>, out: &mut O) -> Result<(), Fault> {
    write!(out, "\"domains\":[")?;
    let mut domain = None;
    for (source, clock) in look.picture.site.clocks.iter() {
        if domain == Some(source.domain) {
            writeln!(out, ",")?;
        } else {
            let between = if domain.is_some() { "]}," } else { "" };
            writeln!(out, "{between}")?;
            print_domain_head(alloc, look, source.domain, out)?;
            domain = Some(source.domain);
        }
        let value = clock_value(alloc, *source, clock, look.beside.names)?;
        print_value(alloc, &value, out)?;
    }
    writeln!(out, "{}],", if domain.is_some() { "]}" } else { "" })?;
    Ok(())
}

/// Prints what comes before the clocks of a domain.
fn print_domain_head<O: Write>(
    alloc: Global,
    look: &Look<'_, '_>,
    domain: Domain,
    out: &mut O,
) -> Result<(), Fault> {
    write!(out, "{{{},\"grandmasters\":", DomainMembers(domain))?;
    print_value(alloc, &grandmasters_value(alloc, look, domain)?, out)?;
    writeln!(out, ",\"clocks\":[")?;
    Ok(())
}

/// A domain as members of an object.
#[derive(Clone, Copy)]
struct DomainMembers(Domain);

impl fmt::Display for DomainMembers {
    fn fmt<W: fmt::Write>(&self, f: &mut fmt::Formatter<W>) -> fmt::Result {
        let (number, sdo) = (self.0.number(), self.0.sdo());
        write!(f, "\"domainNumber\":{number},\"sdoId\":{sdo}")
    }
}

/// The grandmasters that lead a domain.
fn grandmasters_value(
    alloc: Global,
    look: &Look<'_, '_>,
    domain: Domain,
) -> Result<Value, AllocError> {
    let mut values = Vec::new(alloc);
    for leader in leaders_in(look.picture, domain) {
        let time = judged_time(look.picture, leader);
        values.push(grandmaster_value(alloc, leader, time)?)?;
    }
    Ok(Value::Array(values))
}

/// A grandmaster that leads: its identity, its quality, what is said of its time, whether that is right, and by what it is known.
fn grandmaster_value(
    alloc: Global,
    leader: &Leader,
    time: Option<JudgedTime>,
) -> Result<Value, AllocError> {
    let mut members = Members::none(alloc);
    match time {
        Some(judged) => members.put_text("time", verdict_word(judged.verdict))?,
        None => members.put_value("time", Value::Null)?,
    }
    if let Some(time) = &leader.time {
        put_time(&mut members, time)?;
    }
    if let Some(told) = leader.attributes {
        members.put("clockQuality", MemberValue::Quality(told.quality))?;
    }
    members.put_clock("clockIdentity", leader.source.clock)?;
    members.put_text("heard", heard_word(leader.heard))?;
    Ok(members.object())
}

fn verdict_word(verdict: TimeVerdict) -> &'static str {
    match verdict {
        TimeVerdict::Right => "right",
        TimeVerdict::Utc | TimeVerdict::Wrong => "wrong",
    }
}

fn heard_word(heard: HeardBy) -> &'static str {
    match heard {
        HeardBy::Answer => "answer",
        HeardBy::Announce => "announce",
        HeardBy::Followers => "followers",
    }
}

/// Puts the members of TIME_PROPERTIES_DATA_SET.
fn put_time(members: &mut Members, time: &TimePropertiesDataSet) -> Result<(), AllocError> {
    let offset = MemberValue::Signed(i64::from(time.utc_offset));
    members.put(DataSet(UtcOffset).name(), offset)?;
    for (member, flag) in [
        (UtcValid, time.utc_valid),
        (Leap59, time.leap59),
        (Leap61, time.leap61),
        (TimeTraceable, time.time_traceable),
        (FrequencyTraceable, time.frequency_traceable),
        (PtpTimescale, time.ptp_timescale),
    ] {
        members.put(DataSet(member).name(), MemberValue::Flag(flag))?;
    }
    let source = MemberValue::Named(Enumeration::TimeSource, time.time_source);
    members.put(DataSet(TimeSource).name(), source)
}

/// Prints the member with the findings, or with what is open. Answers the objects.
fn print_findings<O: Write>(
    alloc: Global,
    look: &Look<'_, '_>,
    name: &str,
    remarks: &[Remark<'_>],
    out: &mut O,
) -> Result<Vec<FoundLine>, Fault> {
    write!(out, "\"{name}\":[")?;
    let mut objects = Vec::new(alloc);
    let mut between = "\n";
    for remark in remarks {
        let object = found_object(alloc, look, remark)?;
        write!(out, "{between}{}", object.whole)?;
        objects.push(object).map_err(AllocError::from)?;
        between = ",\n";
    }
    writeln!(out, "],")?;
    Ok(objects)
}

/// Prints the member with what lines lack, each with the findings that are not judged for that.
fn print_lacks<O: Write>(lacks: &[Lack], out: &mut O) -> io::Result<()> {
    write!(out, "\"notJudged\":[")?;
    let mut between = "";
    for lack in lacks {
        write!(out, "{between}{{\"findings\":[")?;
        let mut comma = "";
        for kind in not_judged(*lack) {
            write!(out, "{comma}\"{}\"", kind.name())?;
            comma = ",";
        }
        write!(out, "],\"lack\":\"{}\"}}", lack.name())?;
        between = ",";
    }
    writeln!(out, "],")
}

fn print_value<O: Write>(alloc: Global, value: &Value, out: &mut O) -> Result<(), Fault> {
    write!(out, "{}", value.to_string(alloc)?)?;
    Ok(())
}

/// A clock: its identity, the name that an operator gave it, and what it answered, under the name of each id.
fn clock_value(
    alloc: Global,
    source: Source,
    clock: &Clock,
    names: &Names,
) -> Result<Value, AllocError> {
    let mut members = Members::none(alloc);
    members.put_clock("clockIdentity", source.clock)?;
    if let Some(name) = names.get(source.clock) {
        members.put_text("name", name)?;
    }
    for asked in &OF_CLOCK {
        put_last(alloc, &mut members, *asked, clock)?;
    }
    let ports = ports_value(alloc, source.clock, clock)?;
    members.put_value("PORT_DATA_SET", ports)?;
    Ok(members.object())
}

/// What a clock answered of its ports.
fn ports_value(alloc: Global, identity: ClockIdentity, clock: &Clock) -> Result<Value, AllocError> {
    let mut ports = Vec::new(alloc);
    for (number, received) in clock.ports.iter() {
        if let Some(last) = received.last() {
            let mut members = Members::none(alloc);
            put_set(&mut members, Asked::PortDataSet, last)?;
            let port = PortIdentity {
                clock: identity,
                port: *number,
            };
            members.put("portIdentity", MemberValue::Port(port))?;
            ports.push(members.object())?;
        }
    }
    Ok(Value::Array(ports))
}

/// Puts what the answer to an id says that counts, if there is one.
fn put_last(
    alloc: Global,
    members: &mut Members,
    asked: Asked,
    clock: &Clock,
) -> Result<(), AllocError> {
    match clock.answers_to(asked).last() {
        Some(last) => {
            let mut set = Members::none(alloc);
            put_set(&mut set, asked, last)?;
            members.put_value(asked.name(), set.object())
        }
        None => Ok(()),
    }
}

/// Puts the members of an answer to an id.
fn put_set(members: &mut Members, asked: Asked, received: &Received) -> Result<(), AllocError> {
    for member in members_of(asked) {
        if let Some(value) = value_of(asked, received.octets.as_slice(), *member) {
            members.put(member.name(), value)?;
        }
    }
    Ok(())
}
