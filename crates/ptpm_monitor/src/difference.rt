//! What a look has that another lacks.

use ptpm_causes::{Course, Kind};
use ptpm_site_report::FoundLine;
use std::alloc::{AllocError, Global};

const RED: &str = "\x1b[31m";

const GREEN: &str = "\x1b[32m";

const PLAIN: &str = "\x1b[0m";

/// How differences are printed.
#[derive(Clone, Copy)]
pub(crate) struct Manner<'a> {
    /// When they were seen, in UTC.
    pub(crate) time: &'a str,
    /// As objects of JSON.
    pub(crate) is_json: bool,
    pub(crate) is_coloured: bool,
}

/// Whether a finding came since the look before, or went.
#[derive(Clone, Copy, PartialEq, Eq)]
enum Change {
    Went,
    Came,
}

impl Manner<'_> {
    /// Adds the findings that came since an earlier look and those that went, but none that follows from another.
    pub(crate) fn write_findings(
        self,
        alloc: Global,
        now: &[FoundLine],
        before: &[FoundLine],
        text: &mut String,
    ) -> Result<(), AllocError> {
        self.write_lacking(alloc, Change::Went, before, now, text)?;
        self.write_lacking(alloc, Change::Came, now, before, text)
    }

    /// Adds the findings that others lack. One with other values counts as another, unless its values are other ones each time. Of
    /// those that report a change it adds none that went.
    fn write_lacking(
        self,
        alloc: Global,
        change: Change,
        found: &[FoundLine],
        others: &[FoundLine],
        text: &mut String,
    ) -> Result<(), AllocError> {
        let (mut keys, mut words) = (Vec::new(alloc), Vec::new(alloc));
        for other in others {
            keys.push(other.key.as_str())?;
            words.push(other.words.as_str())?;
        }
        keys.sort()?;
        words.sort()?;
        for line in found {
            let course = line.kind.row().course;
            let is_same = match course {
                Course::Moving | Course::MovingOverTime => keys
                    .binary_search(&line.key.as_str())
                    .is_ok(),
                _ => words.binary_search(&line.words.as_str()).is_ok(),
            };
            let is_over = matches!(course, Course::Change) && change == Change::Went;
            if !line.follows && !is_same && !is_over {
                self.write_line(change, line, text)?;
            }
        }
        Ok(())
    }

    fn write_line(
        self,
        change: Change,
        line: &FoundLine,
        text: &mut String,
    ) -> Result<(), AllocError> {
        let is_new_leader = matches!(line.kind, Kind::GrandmasterChanged);
        let (event, sign) = match change {
            _ if is_new_leader => ("grandmaster", '='),
            Change::Went => ("went", '-'),
            Change::Came => ("came", '+'),
        };
        if self.is_json {
            let members = line.whole.as_str().strip_prefix('{').unwrap_or("}");
            return writeln!(
                text,
                "{{\"time\":\"{}\",\"event\":\"{event}\",{members}",
                self.time
            );
        }
        let (colour, plain) = match change {
            _ if !self.is_coloured => ("", ""),
            Change::Went => (GREEN, PLAIN),
            Change::Came => (RED, PLAIN),
        };
        write!(text, "{} {colour}{sign} ", self.time)?;
        if is_new_leader {
            let words = line
                .whole
                .as_str()
                .strip_prefix(line.key.as_str())
                .unwrap_or("");
            write!(text, "{} grandmaster{words}", line.domain)?;
        } else {
            text.push_str(line.whole.as_str())?;
        }
        writeln!(text, "{plain}")
    }
}

/// Adds a text with the lines of its findings in red, which come after their heading.
pub(crate) fn write_in_red(
    report: &str,
    findings: usize,
    text: &mut String,
) -> Result<(), AllocError> {
    let mut left: Option<usize> = None;
    for line in report.split_inclusive('\n') {
        match left {
            Some(count) if 0 < count => {
                let line = line.strip_suffix('\n').unwrap_or(line);
                writeln!(text, "{RED}{line}{PLAIN}")?;
                left = Some(count.saturating_sub(1));
                continue;
            }
            None if line.starts_with("findings: ") => left = Some(findings),
            _ => {}
        }
        text.push_str(line)?;
    }
    Ok(())
}
