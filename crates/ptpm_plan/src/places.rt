//! Clocks, ports and values as a plan prints them.

use crate::answers::text_in;
use crate::change::PlannedId;
use crate::verdict::text_of;
use ptpm_codec::ClockIdentity;
use std::alloc::{AllocError, Global};
use std::fmt;

/// A clock, or one of its ports: `aabbccfffeddee01/1`. Port 0 means the clock itself.
#[derive(Clone, Copy)]
pub(crate) struct Who(pub(crate) ClockIdentity, pub(crate) u16);

impl fmt::Display for Who {
    fn fmt<W: fmt::Write>(&self, f: &mut fmt::Formatter<W>) -> fmt::Result {
        match self.1 {
            0 => write!(f, "{}", self.0),
            port => write!(f, "{}/{port}", self.0),
        }
    }
}

/// The members of a dataField, one a line. A text is in quotes, as the name of a clock is.
pub(crate) fn shown_of(alloc: Global, id: PlannedId, octets: &[u8]) -> Result<String, AllocError> {
    match (id, text_in(octets)) {
        (PlannedId::UserDescription, Some(text)) => {
            let text = String::from_utf8_lossy(alloc, text)?;
            format!(in alloc; "userDescription {:?}", text.as_str())
        }
        _ => text_of(alloc, id, octets),
    }
}

/// What changes, by the lines of a dataField before and after: `128 -> 10`, or each member that changes after its name.
#[derive(Clone, Copy)]
pub(crate) struct Arrow<'a>(pub(crate) PlannedId, pub(crate) &'a str, pub(crate) &'a str);

impl fmt::Display for Arrow<'_> {
    fn fmt<W: fmt::Write>(&self, f: &mut fmt::Formatter<W>) -> fmt::Result {
        let mut is_first = true;
        let mut lines_after = self.2.lines();
        for before in self.1.lines() {
            let after = lines_after.next().unwrap_or("");
            if before != after {
                let ((name, before), (_, after)) = (split_line(before), split_line(after));
                begin_member(self.0, is_first, name, f)?;
                write!(f, "{before} -> {after}")?;
                is_first = false;
            }
        }
        Ok(())
    }
}

/// The values of a dataField by its lines: of the sole member, or of each after its name.
#[derive(Clone, Copy)]
pub(crate) struct Values<'a>(pub(crate) PlannedId, pub(crate) &'a str);

impl fmt::Display for Values<'_> {
    fn fmt<W: fmt::Write>(&self, f: &mut fmt::Formatter<W>) -> fmt::Result {
        let mut is_first = true;
        for line in self.1.lines() {
            let (name, value) = split_line(line);
            begin_member(self.0, is_first, name, f)?;
            f.write_str(value)?;
            is_first = false;
        }
        Ok(())
    }
}

/// Writes what is before a member: a comma unless it is the first, and its name if the id has more members than one.
fn begin_member<W: fmt::Write>(
    id: PlannedId,
    is_first: bool,
    name: &str,
    f: &mut fmt::Formatter<W>,
) -> fmt::Result {
    if !is_first {
        f.write_str(", ")?;
    }
    match id {
        PlannedId::UtcProperties => write!(f, "{name} "),
        _ => Ok(()),
    }
}

/// The name and the value of a line.
fn split_line(line: &str) -> (&str, &str) {
    line.split_once(' ').unwrap_or((line, ""))
}
