//! A finding as a line of text.

use crate::finding::phrases::{Phrase, Shown, clock_of};
use crate::finding::remarks::Remark;
use crate::finding::values::{FindingValue, FindingValues, TakeValues, hand_values};
use crate::intervals::{Exact, Seconds, Whole};
use crate::monitoring::seconds::NanosecondSeconds;
use crate::printable::Printable;
use ptpm_site::judging::twice::OtherMember;
use ptpm_site::judging::two_addresses::TwoAddresses;
use ptpm_site::judging::two_offsets::TwoOffsets;
use ptpm_site::reading::asked::Asked;
use ptpm_site::reading::origin::{Origin, TimeError};
use std::fmt;

/// A finding in words: the domain, the clock, and what is wrong.
#[derive(Clone, Copy)]
pub(crate) struct Words<'a>(pub(crate) &'a Remark<'a>);

impl fmt::Display for Words<'_> {
    fn fmt<W: fmt::Write>(&self, f: &mut fmt::Formatter<W>) -> fmt::Result {
        let (domain, text) = (self.0.source().domain, FindingText(self.0));
        match clock_of(self.0.finding) {
            Some(clock) => write!(f, "{domain} {clock} {text}"),
            None => write!(f, "{domain} - {text}"),
        }
    }
}

/// What is wrong: the finding's name, and the values.
#[derive(Clone, Copy)]
pub(crate) struct FindingText<'a>(pub(crate) &'a Remark<'a>);

impl fmt::Display for FindingText<'_> {
    fn fmt<W: fmt::Write>(&self, f: &mut fmt::Formatter<W>) -> fmt::Result {
        f.write_str(self.0.named.kind.name())?;
        hand_values(&self.0.finding.what, f)
    }
}

impl<W: fmt::Write> TakeValues for fmt::Formatter<W> {
    type Error = fmt::Error;

    fn take(&mut self, values: &FindingValues<'_>) -> fmt::Result {
        let words = match values.first() {
            Some((_, FindingValue::Template(words))) => *words,
            _ => return Ok(()),
        };
        for (place, piece) in words.split("{}").enumerate() {
            match values.get(place) {
                Some((_, value)) if 0 < place => write!(self, "{value}")?,
                _ => {}
            }
            self.write_str(piece)?;
        }
        Ok(())
    }
}

impl fmt::Display for FindingValue<'_> {
    fn fmt<W: fmt::Write>(&self, f: &mut fmt::Formatter<W>) -> fmt::Result {
        match *self {
            FindingValue::Template(word) | FindingValue::Null(word) => f.write_str(word),
            FindingValue::Name(word) => write!(f, "{}", Printable(word)),
            FindingValue::Of(value) => write!(f, "{}", Shown(value)),
            FindingValue::AtPort(Some(port)) => write!(f, " port {port}"),
            FindingValue::AtPort(None) => Ok(()),
            FindingValue::Exact(interval) => write!(f, "{}", Exact(interval)),
            FindingValue::Rounded(interval) => write!(f, "{}", Whole(interval)),
            FindingValue::Power(log) => write!(f, "{}", Seconds(log)),
            FindingValue::Tenths(tenths) => write!(f, "{}.{}", tenths / 10, tenths % 10),
            FindingValue::Hexadecimal(number) => write!(f, "0x{number:02x}"),
            FindingValue::Time(time) => write!(f, "{}", NanosecondSeconds(time)),
            FindingValue::Origin(origin) => write_origin(origin, f),
            FindingValue::Error(error) => write_error(error, f),
            FindingValue::Date(date) => write!(f, "{date}"),
            FindingValue::Words(phrase) => write!(f, "{phrase}"),
            FindingValue::Clocks(clocks) => write!(f, "{}", Phrase::Clocks(clocks)),
            FindingValue::Ids(ids) => write_ids(ids, f),
            FindingValue::Ports(runs) => write_ports(runs, f),
            FindingValue::Addresses(two) => write_addresses(two, f),
            FindingValue::Offsets(two) => write_offsets(two, f),
            FindingValue::Members(members) => write_members(members, f),
        }
    }
}

fn write_ids<W: fmt::Write>(ids: &[Asked], f: &mut fmt::Formatter<W>) -> fmt::Result {
    for asked in ids {
        write!(f, " {}", asked.name())?;
    }
    Ok(())
}

fn write_ports<W: fmt::Write>(runs: &[(u16, u16)], f: &mut fmt::Formatter<W>) -> fmt::Result {
    for (first, last) in runs {
        if first == last {
            write!(f, " port {first}")?;
        } else {
            write!(f, " ports {first}-{last}")?;
        }
    }
    Ok(())
}

fn write_addresses<W: fmt::Write>(
    two: &TwoAddresses<'_>,
    f: &mut fmt::Formatter<W>,
) -> fmt::Result {
    write!(f, "{} and {}", Printable(two.first), Printable(two.second))
}

fn write_offsets<W: fmt::Write>(two: &TwoOffsets, f: &mut fmt::Formatter<W>) -> fmt::Result {
    write!(f, "{} ns and {} ns", Whole(two.first), Whole(two.second))
}

fn write_origin<W: fmt::Write>(origin: &Origin, f: &mut fmt::Formatter<W>) -> fmt::Result {
    write!(f, "{}.{:09}", origin.seconds, origin.nanoseconds)
}

/// Writes how far a time is from TAI, cut off after its milliseconds.
fn write_error<W: fmt::Write>(error: &TimeError, f: &mut fmt::Formatter<W>) -> fmt::Result {
    let sign = if error.is_behind { "-" } else { "" };
    let milliseconds = error.nanoseconds / 1_000_000;
    write!(f, "{sign}{}.{milliseconds:03}", error.seconds)
}

/// Writes the names of members, with the port before that of a port.
fn write_members<W: fmt::Write>(
    members: &[OtherMember<'_>],
    f: &mut fmt::Formatter<W>,
) -> fmt::Result {
    let mut between = "";
    for one in members {
        f.write_str(between)?;
        if let Some(port) = one.port {
            write!(f, "port {port} ")?;
        }
        f.write_str(one.change.member.name())?;
        between = ", ";
    }
    Ok(())
}
