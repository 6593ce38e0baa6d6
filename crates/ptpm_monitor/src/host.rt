//! The program that asks the clocks, prints and waits: what it is to do, and what it answers, a line each.

use crate::collected::{Collected, number};
use crate::ended::Ended;
use ptpm_commands::lines::Lines;
use std::alloc::Global;
use std::fmt;
use std::io::{Read, Write};

/// The version of these lines.
const VERSION: &str = "1";

/// A line has this if it ends what a host collected.
const END: &str = "end";

/// Whether what is printed is text or JSON, which is made fit for a terminal, or neither.
#[derive(Clone, Copy)]
pub(crate) enum Printed {
    Text,
    Json,
    Octets,
}

impl Printed {
    fn word(self) -> &'static str {
        match self {
            Printed::Text => "text",
            Printed::Json => "json",
            Printed::Octets => "octets",
        }
    }
}

/// The host.
#[derive(Drop)]
pub(crate) struct Host<R, W> {
    lines: Lines<R>,
    /// The number of the line that was read last.
    number: u64,
    out: W,
}

impl<R: Read + Drop, W: Write + Drop> Host<R, W> {
    /// Greets a host, and answers when that was, in milliseconds by a clock that nobody sets.
    pub(crate) fn greet(alloc: Global, reader: R, out: W) -> Result<(Host<R, W>, u64), Ended> {
        let mut host = Host {
            lines: Lines::new(alloc, reader)?,
            number: 0,
            out,
        };
        writeln!(host.out, "monitor {VERSION}")?;
        let now = match host.answer()?.split_once(' ') {
            Some(("host", now)) => number(Some(now))?,
            _ => return Err(Ended::Host),
        };
        Ok((host, now))
    }

    /// The next line, for which it is waited.
    fn answer(&mut self) -> Result<&str, Ended> {
        self.out.flush()?;
        self.number = self.number.saturating_add(1);
        if !self.lines.read(self.number)? {
            return Err(Ended::Host);
        }
        Ok(self.lines.text(self.number)?)
    }

    /// Has it look: ask every clock, over this many boundary hops.
    pub(crate) fn look(&mut self, alloc: Global, hops: u8) -> Result<Collected, Ended> {
        writeln!(self.out, "look {hops}")?;
        let mut collected = match self.answer()?.split_once(' ') {
            Some(("looked", said)) => Collected::of(alloc, said)?,
            _ => return Err(Ended::Host),
        };
        for _ in 0..u64::MAX {
            let line = self.answer()?;
            if line == END {
                break;
            }
            collected.take(alloc, line)?;
        }
        Ok(collected)
    }

    /// Has it hear what comes in for this many milliseconds. When that is over.
    pub(crate) fn listen(&mut self, milliseconds: u64) -> Result<u64, Ended> {
        writeln!(self.out, "listen {milliseconds}")?;
        match self.answer()?.split_once(' ') {
            Some(("listened", now)) => number(Some(now)),
            _ => Err(Ended::Host),
        }
    }

    /// The same between two looks of a watch, after which it opens its sockets again. False if nobody reads what is printed.
    pub(crate) fn watch(&mut self, milliseconds: u64) -> Result<bool, Ended> {
        writeln!(self.out, "watch {milliseconds}")?;
        Ok(self.answer()?.starts_with("listened "))
    }

    /// Has it ask the clock of its own host too, at a socket there; whether it will.
    pub(crate) fn open_own(&mut self) -> Result<bool, Ended> {
        writeln!(self.out, "open")?;
        Ok(self.answer()? == "opened")
    }

    /// From now on it asks each clock that answered by itself if it does not answer with the others; also those that did so before.
    pub(crate) fn expect(&mut self, also: bool) -> Result<(), Ended> {
        writeln!(self.out, "expect {}", if also { "also" } else { "these" })?;
        Ok(())
    }

    /// Has it say whether the clock of its own host is not asked.
    pub(crate) fn tell_own(&mut self) -> Result<(), Ended> {
        writeln!(self.out, "own")?;
        Ok(())
    }

    /// Has it show what goes on.
    pub(crate) fn show<D: fmt::Display>(&mut self, progress: &D) -> Result<(), Ended> {
        writeln!(self.out, "show {progress}")?;
        Ok(())
    }

    /// Has it print; whether it could.
    pub(crate) fn print(&mut self, printed: Printed, octets: &[u8]) -> Result<bool, Ended> {
        writeln!(self.out, "print {} {}", printed.word(), octets.len())?;
        self.out.write_all(octets)?;
        Ok(self.answer()? == "printed")
    }
}
