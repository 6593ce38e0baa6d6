//! How a site is not as a profile or an inventory wants it, in words.

use ptpm_causes::{Cause, Kind};
use ptpm_codec::ClockIdentity;
use ptpm_members::{Member, MemberValue};
use ptpm_site::judging::expected::{Allowed, Wanted};
use ptpm_site::judging::finding::{Finding, What};
use std::{fmt, str};

/// The clock of a finding. `None` if it is of the whole domain: no clock leads, and one should.
pub(crate) fn clock_of(finding: &Finding<'_>) -> Option<ClockIdentity> {
    match &finding.what {
        What::OtherLeaders(other) if other.leading.is_empty() => None,
        What::NotAsked(_) => None,
        _ => Some(finding.source.clock),
    }
}

/// The clock of a finding from which others follow. `None` if it is of the whole domain.
pub(crate) fn clock_of_cause(cause: Cause) -> Option<ClockIdentity> {
    let clock = cause.source.clock;
    if matches!(cause.kind, Kind::NotAsExpected) && clock == ClockIdentity([0; 8]) {
        None
    } else {
        Some(clock)
    }
}

/// Words of a profile or an inventory.
#[derive(Clone, Copy)]
pub(crate) enum Phrase<'a> {
    /// A member as an inventory names it: with `port/N.` before a port's.
    Member(Option<u16>, Member),
    /// The value of a member, as far as an inventory wants it.
    Said(MemberValue<'a>, &'a [Wanted]),
    /// What an inventory wants of a member: the values, with ` | ` between them.
    Wanted(&'a [Wanted]),
    /// Clocks with a space between them; `none` if there is none.
    Clocks(&'a [ClockIdentity]),
    /// The clocks that may lead: those of each choice, with ` | ` between the choices.
    Choices(&'a [Vec<ClockIdentity>]),
    /// What a profile allows.
    Allowed(Allowed),
}

impl fmt::Display for Phrase<'_> {
    fn fmt<W: fmt::Write>(&self, f: &mut fmt::Formatter<W>) -> fmt::Result {
        match *self {
            Phrase::Member(Some(port), member) => write!(f, "port/{port}.{}", member.name()),
            Phrase::Member(None, member) => f.write_str(member.name()),
            Phrase::Said(value, wanted) => write_said(value, wanted, f),
            Phrase::Wanted(wanted) => write_all_wanted(wanted, f),
            Phrase::Clocks(clocks) => write_clocks(clocks, f),
            Phrase::Choices(choices) => write_choices(choices, f),
            Phrase::Allowed(allowed) => write_allowed(allowed, f),
        }
    }
}

/// Writes clockClass alone if an inventory wants no more.
fn write_said<W: fmt::Write>(
    value: MemberValue<'_>,
    wanted: &[Wanted],
    f: &mut fmt::Formatter<W>,
) -> fmt::Result {
    match value {
        MemberValue::Quality(quality) if wants_class(wanted) => {
            write!(f, "class {}", quality.class)
        }
        _ => write!(f, "{}", Shown(value)),
    }
}

fn wants_class(wanted: &[Wanted]) -> bool {
    wanted.iter().all(|one| matches!(one, Wanted::Class(_)))
}

/// A value of a member in a finding: as everywhere, but a text is in quotes, and a TimeInterval is the number that is sent.
#[derive(Clone, Copy)]
pub(crate) struct Shown<'a>(pub(crate) MemberValue<'a>);

impl fmt::Display for Shown<'_> {
    fn fmt<W: fmt::Write>(&self, f: &mut fmt::Formatter<W>) -> fmt::Result {
        match self.0 {
            MemberValue::Text(octets) => match str::from_utf8(octets) {
                Ok(text) => write!(f, "{text:?}"),
                Err(_) => write!(f, "\"{}\"", self.0),
            },
            MemberValue::Interval(number) => write!(f, "{number}"),
            value => write!(f, "{value}"),
        }
    }
}

fn write_all_wanted<W: fmt::Write>(wanted: &[Wanted], f: &mut fmt::Formatter<W>) -> fmt::Result {
    let mut between = "";
    for one in wanted {
        f.write_str(between)?;
        write_wanted(one, f)?;
        between = " | ";
    }
    Ok(())
}

fn write_wanted<W: fmt::Write>(wanted: &Wanted, f: &mut fmt::Formatter<W>) -> fmt::Result {
    match wanted {
        Wanted::Value(value) => write!(f, "{}", Shown(*value)),
        Wanted::Range(least, greatest) if least != greatest => write!(f, "{least}..{greatest}"),
        Wanted::Range(number, _) => write!(f, "{number}"),
        Wanted::Class(class) => write!(f, "class {class}"),
        Wanted::Reserved => f.write_str("reserved"),
        Wanted::Text(text) => write!(f, "{:?}", text.as_str()),
    }
}

fn write_clocks<W: fmt::Write>(clocks: &[ClockIdentity], f: &mut fmt::Formatter<W>) -> fmt::Result {
    if clocks.is_empty() {
        return f.write_str("none");
    }
    let mut between = "";
    for clock in clocks {
        write!(f, "{between}{clock}")?;
        between = " ";
    }
    Ok(())
}

fn write_choices<W: fmt::Write>(
    choices: &[Vec<ClockIdentity>],
    f: &mut fmt::Formatter<W>,
) -> fmt::Result {
    let mut between = "";
    for clocks in choices {
        f.write_str(between)?;
        write_clocks(clocks.as_slice(), f)?;
        between = " | ";
    }
    Ok(())
}

fn write_allowed<W: fmt::Write>(allowed: Allowed, f: &mut fmt::Formatter<W>) -> fmt::Result {
    match allowed {
        Allowed::Range(least, greatest) if least == greatest => write!(f, "{least}"),
        Allowed::Range(least, greatest) => write!(f, "{least} to {greatest}"),
        Allowed::OfParent(number) => write!(f, "{number} as its parent"),
        Allowed::EndToEndOrPeerToPeer => f.write_str("E2E or P2P"),
        Allowed::PeerToPeerOrSpecial => f.write_str("P2P, COMMON_P2P or SPECIAL"),
        Allowed::Set => f.write_str("true"),
    }
}
