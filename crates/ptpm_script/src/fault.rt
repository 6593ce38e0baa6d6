//! A fault of a network file.

use crate::limits::{LEAST_ENDS, MANAGERS, MOST_ENDS, TEXT_OCTETS};
use crate::net_error::NetError;
use crate::place::Place;
use crate::rules::Kind;
use crate::value_text::{Quoted, ValueText};
use ptpm_data::Member;
use std::fmt;
use toml::Value;

/// A fault of a network file, with its place, what is there, and what may be there.
#[derive(Clone, Copy)]
pub struct Fault<'a> {
    /// Which refusal of a network file it is of.
    pub class: NetError,
    pub place: Place<'a>,
    pub found: Found<'a>,
    pub wanted: Wanted<'a>,
}

/// What is at a place.
#[derive(Clone, Copy)]
pub enum Found<'a> {
    /// Nothing that is shown.
    Untold,
    /// Nothing at a key.
    Missing(&'a str),
    /// A value at a key.
    Value(&'a str, &'a Value),
    /// An item of the array at a key, by its number from 1.
    Item(&'a str, usize, &'a Value),
    /// The table is this value.
    Whole(&'a Value),
    /// This number of something.
    Count(usize, &'static str),
}

/// What may be at a place, or why what is there may not.
#[derive(Clone, Copy)]
pub enum Wanted<'a> {
    /// At most 262,144 octets; there are more.
    Size,
    /// TOML, which ends here for this reason.
    Toml(toml::de::Error),
    /// A value of this kind.
    Kind(Kind),
    /// A table.
    Table,
    /// No rights, in version 1.
    NoRights,
    /// Some of the three rights.
    Rights,
    /// One of the three rights.
    Right,
    /// A right that was not given before it.
    OtherRight,
    /// An end of a link.
    End,
    /// At most this number.
    AtMost(usize),
    /// As many ends as a link has.
    Ends(usize),
    /// Fewer sessions with this target than this many.
    Managers(usize),
    /// A port of a clock that has this many.
    PortUpTo(u16),
    /// A number of ports with which a clock can start.
    Ports,
    /// A value of this member with which a clock can start.
    Start(Member),
    /// The clock's own value, since it is its own grandmaster.
    OwnGrandmaster,
    /// A name of this kind that is known; this one is the nearest.
    Known(Names, Option<&'a str>),
    /// What is not at this place too.
    Once(Place<'a>),
    /// Another clockIdentity than that of the clock at this place.
    OtherClock(Place<'a>),
}

/// What a name is to be of.
#[derive(Clone, Copy)]
pub enum Names {
    Key,
    Clock,
    Session,
}

/// For example, `session 1 "m": attempts = 300: a whole number from 0 to 255`.
impl fmt::Display for Fault<'_> {
    fn fmt<W: fmt::Write>(&self, f: &mut fmt::Formatter<W>) -> fmt::Result {
        let (place, wanted) = (self.place, self.wanted);
        match self.found {
            Found::Untold => write!(f, "{place}: {wanted}"),
            Found::Missing(key) => write!(f, "{place}: {} is missing: {wanted}", Key(key)),
            Found::Value(key, value) => {
                let (key, value) = (Key(key), ValueText(value));
                write!(f, "{place}: {key} = {value}: {wanted}")
            }
            Found::Item(key, number, value) => {
                let (key, value) = (Key(key), ValueText(value));
                write!(f, "{place}: {key}[{number}] = {value}: {wanted}")
            }
            Found::Whole(value) => write!(f, "{place}: {}: {wanted}", ValueText(value)),
            Found::Count(count, of) => write!(f, "{place}: {count} {of}: {wanted}"),
        }
    }
}

/// A key: as it is if it is a bare one, else as a text.
#[derive(Clone, Copy)]
struct Key<'a>(&'a str);

impl fmt::Display for Key<'_> {
    fn fmt<W: fmt::Write>(&self, f: &mut fmt::Formatter<W>) -> fmt::Result {
        if is_bare(self.0) {
            f.write_str(self.0)
        } else {
            write!(f, "{}", Quoted(self.0))
        }
    }
}

/// Whether a key is a short one that needs no quotes.
fn is_bare(key: &str) -> bool {
    !key.is_empty()
        && key.len() <= 40
        && key.as_bytes().iter().all(
            |octet| matches!(octet, b'a'..=b'z' | b'A'..=b'Z' | b'0'..=b'9' | b'_' | b'-'),
        )
}

impl fmt::Display for Wanted<'_> {
    fn fmt<W: fmt::Write>(&self, f: &mut fmt::Formatter<W>) -> fmt::Result {
        match *self {
            Wanted::Size => write!(f, "over {TEXT_OCTETS} octets"),
            Wanted::Toml(error) => f.write_str(error.message()),
            Wanted::Kind(kind) => write!(f, "{kind}"),
            Wanted::AtMost(most) => write!(f, "at most {most}"),
            Wanted::Ends(1) => write!(f, "one end; a link has {LEAST_ENDS} to {MOST_ENDS}"),
            Wanted::Ends(count) => {
                write!(f, "{count} ends; a link has {LEAST_ENDS} to {MOST_ENDS}")
            }
            Wanted::Managers(count) => {
                write!(f, "{count} sessions have this target; at most {MANAGERS}")
            }
            Wanted::PortUpTo(1) => f.write_str("the clock has port 1 alone"),
            Wanted::PortUpTo(count) => write!(f, "the clock has ports 1 to {count}"),
            Wanted::Start(Member::Setting(setting)) => write!(f, "{}", setting.range()),
            Wanted::Start(member) => f.write_str(start_range(member)),
            Wanted::Known(names, None) => write!(f, "{}; there is none", names.none()),
            Wanted::Known(Names::Key, Some(name)) => {
                write!(f, "no such key; the nearest is {name}")
            }
            Wanted::Known(names, Some(name)) => {
                write!(f, "{}; the nearest is \"{name}\"", names.none())
            }
            Wanted::Once(place) => write!(f, "stands at {place} too"),
            Wanted::OtherClock(place) => write!(f, "has the clockIdentity of {place}"),
            _ => f.write_str(self.words()),
        }
    }
}

impl Names {
    /// That there is none.
    fn none(self) -> &'static str {
        match self {
            Names::Key => "no such key",
            Names::Clock => "no clock of this name",
            Names::Session => "no session of this name",
        }
    }
}

impl Wanted<'_> {
    /// The words of what has no further part.
    fn words(&self) -> &'static str {
        match self {
            Wanted::Table => "a table",
            Wanted::NoRights => "no key of version 1, in which each session has all rights",
            Wanted::Rights => "an array of clock-set, port-set and port-command, each once at most",
            Wanted::Right => "clock-set, port-set or port-command",
            Wanted::OtherRight => "stands in the array before",
            Wanted::End => "the name of a session, or the name of a clock, a dot and a port",
            Wanted::Ports => "1 to 8 ports",
            Wanted::OwnGrandmaster => "the clock's own, since it is its own grandmaster",
            _ => "",
        }
    }
}

/// What a key of this kind holds.
impl fmt::Display for Kind {
    fn fmt<W: fmt::Write>(&self, f: &mut fmt::Formatter<W>) -> fmt::Result {
        match *self {
            Kind::Whole(least, most) => write!(f, "a whole number from {least} to {most}"),
            Kind::Flag => f.write_str("true or false"),
            Kind::Text => f.write_str("a text"),
            Kind::Name => f.write_str("1 to 32 of a to z, A to Z, 0 to 9 and _, as a text"),
            Kind::Clock => f.write_str("sixteen hexadecimal digits, not all f, as a text"),
            Kind::Port(most) => write!(
                f,
                "sixteen hexadecimal digits, not all f, a slash and a port from 0 to {most}, as a text"
            ),
            Kind::Array => f.write_str("an array"),
        }
    }
}

/// What a clock can start with in a member whose type has room for more, and which is no setting of a port.
fn start_range(member: Member) -> &'static str {
    match member {
        Member::UserDescription => "at most 128 octets",
        Member::ClockAccuracy => "0x17 to 0x31, or 0xfe",
        Member::Leap59 => "not both leap61 and leap59",
        Member::State => "1 to 9",
        _ => "what a clock starts with",
    }
}
