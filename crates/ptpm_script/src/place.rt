//! The place of a fault.

use std::fmt;
use toml::Table;

/// An array of tables of a network file.
#[derive(Clone, Copy)]
pub enum Array {
    Clock,
    Session,
    Link,
}

/// The key that it is at.
impl fmt::Display for Array {
    ghost use Rattle.std.specs.Prelude.{Some};
    ghost use Rattle.ptpm_script.specs.Place.{array_key};

    ghost output = { λ a. Some (array_key a) };

    fn fmt<W: fmt::Write>(&self, f: &mut fmt::Formatter<W>) -> fmt::Result {
        f.write_str(match self {
            Array::Clock => "clock",
            Array::Session => "session",
            Array::Link => "link",
        })
    }
}

/// The place of a fault. Lines, and the tables of an array, are counted from 1.
#[derive(Clone, Copy)]
pub enum Place<'a> {
    /// The file as a whole, or a key outside of its arrays.
    File,
    /// A line.
    Line(usize),
    /// A table of an array, and its name if it has one.
    Table(Array, usize, Option<&'a str>),
    /// A table `clock.port` of the clock of this number and name.
    Port(usize, Option<&'a str>, usize),
}

/// For example `clock 2 "K"`, and of a port `clock 2 "K", port table 1`.
impl fmt::Display for Place<'_> {
    fn fmt<W: fmt::Write>(&self, f: &mut fmt::Formatter<W>) -> fmt::Result {
        match *self {
            Place::File => f.write_str("file"),
            Place::Line(line) => write!(f, "line {line}"),
            Place::Table(array, number, Some(name)) => write!(f, "{array} {number} \"{name}\""),
            Place::Table(array, number, None) => write!(f, "{array} {number}"),
            Place::Port(clock, Some(name), number) => write!(
                f,
                "clock {clock} \"{name}\", port table {number}"
            ),
            Place::Port(clock, None, number) => write!(f, "clock {clock}, port table {number}"),
        }
    }
}

/// A table, and its place.
#[derive(Clone, Copy)]
pub(crate) struct TableAt<'a> {
    pub(crate) place: Place<'a>,
    pub(crate) table: &'a Table,
}
