//! A look at a site: the lines by which it is judged, and what they show.

ghost use Rattle.std.specs.Prelude.{◌≡◌};
ghost use Rattle.ptpm_monitor.specs.Status.{is_known};

use crate::collected::{Asked, Collected};
use crate::judging::Judged;
use crate::left_out::LeftOut;
use crate::line::Line;
use crate::message::Head;
use crate::status::NOT_KNOWN;
use ptpm_causes::{Course, Kind};
use std::alloc::{AllocError, Global};

/// The lines by which a look is judged: those of clocks that are gone, those of looks before, and its own.
#[derive(Drop)]
pub(crate) struct Basis {
    pub(crate) gone: Vec<String>,
    pub(crate) earlier: Vec<Line>,
    pub(crate) own: Collected,
}

impl Basis {
    /// All of them as a text. After another look its lines stand for those of looks before, but no answer of a clock that did not
    /// answer in this look.
    pub(crate) fn text(&self, alloc: Global, after: Option<&Basis>) -> Result<String, AllocError> {
        let mut text = String::new(alloc);
        for line in self.gone.as_slice() {
            text.push_str(line.as_str())?;
        }
        match after {
            Some(after) => {
                self.write_seen(after.earlier.as_slice(), &mut text)?;
                self.write_seen(after.own.lines.as_slice(), &mut text)?;
            }
            None => write_lines(self.earlier.as_slice(), &mut text)?,
        }
        write_lines(self.own.lines.as_slice(), &mut text)?;
        Ok(text)
    }

    fn write_seen(&self, lines: &[Line], text: &mut String) -> Result<(), AllocError> {
        for line in lines {
            if self.is_needed(line) {
                line.write(text)?;
            }
        }
        Ok(())
    }

    /// Whether a line of an earlier look has no answer of a clock that did not answer in this one.
    fn is_needed(&self, line: &Line) -> bool {
        match Head::of_answer(line.octets.as_slice()) {
            Some(head) => self.own.seen.has(head.source),
            None => true,
        }
    }

    /// Takes over the lines of the look after which it was judged.
    pub(crate) fn take_earlier(&mut self, after: Basis) -> Result<(), AllocError> {
        let Basis { earlier, own, .. } = after;
        self.add_needed(earlier)?;
        self.add_needed(own.lines)
    }

    fn add_needed(&mut self, lines: Vec<Line>) -> Result<(), AllocError> {
        for line in lines {
            if self.is_needed(&line) {
                self.earlier.push(line)?;
            }
        }
        Ok(())
    }

    /// Makes it one after which another look is judged. The GETs to one clock or port are left out. In their own look an answer with the
    /// number of one shows that its clock is there, whatever came after it. In a later look it does not.
    pub(crate) fn make_earlier(&mut self, step: Option<i64>) {
        make_lines_earlier(&mut self.earlier, step);
        make_lines_earlier(&mut self.own.lines, step);
    }
}

fn make_lines_earlier(lines: &mut Vec<Line>, step: Option<i64>) {
    lines.retain(|line| match Head::of(line.octets.as_slice()) {
        Some(head) => !head.is_single(),
        None => true,
    });
    if let Some(step) = step {
        for line in lines.iter_mut() {
            line.shift(step);
        }
    }
}

fn write_lines(lines: &[Line], text: &mut String) -> Result<(), AllocError> {
    for line in lines {
        line.write(text)?;
    }
    Ok(())
}

/// A look.
#[derive(Drop)]
pub(crate) struct Look {
    pub(crate) basis: Basis,
    /// That of the first of two, if this is the second.
    pub(crate) first: Option<Basis>,
    /// What is shown of the site; nothing if something failed.
    pub(crate) judged: Option<Judged>,
    pub(crate) status: u8,
    pub(crate) left_out: LeftOut,
}

impl Look {
    /// One that is not judged.
    pub(crate) fn of(alloc: Global, own: Collected, first: Option<Basis>) -> Look {
        let status = match own.asked {
            Asked::Answered => 0,
            Asked::NoClock => NOT_KNOWN,
            Asked::Not(status) => status,
        };
        let left_out = own.left_out;
        let basis = Basis {
            gone: Vec::new(alloc),
            earlier: Vec::new(alloc),
            own,
        };
        Look {
            basis,
            first,
            judged: None,
            status,
            left_out,
        }
    }

    /// Whether clocks were asked.
    pub(crate) fn is_asked(&self) -> bool {
        !matches!(self.basis.own.asked, Asked::Not(_))
    }

    /// Whether a finding of this name is shown.
    pub(crate) fn has(&self, kind: Kind) -> bool {
        match &self.judged {
            Some(judged) => judged.told.lines.iter().any(|line| line.kind == kind),
            None => false,
        }
    }

    /// How many findings are shown.
    pub(crate) fn found(&self) -> usize {
        match &self.judged {
            Some(judged) => judged.told.lines.len(),
            None => 0,
        }
    }

    /// How many are not, since the look before lacks them.
    pub(crate) fn momentary(&self) -> usize {
        match &self.judged {
            Some(judged) => judged.told.momentary,
            None => 0,
        }
    }

    /// Whether something is open that only time decides. Of what is open these two names stay so, whatever the time.
    pub(crate) fn has_open(&self) -> bool {
        match &self.judged {
            Some(judged) => judged
                .told
                .open
                .iter()
                .any(|kind| !matches!(kind, Kind::NotAsked | Kind::Mute)),
            None => false,
        }
    }

    /// Whether that is so, or something was found so. A later look shows it only beside the earlier ones.
    pub(crate) fn is_over_time(&self) -> bool {
        let Some(judged) = &self.judged else {
            return false;
        };
        let is_over_time = judged.told.lines.iter().any(|line| {
            matches!(
                line.kind.row().course,
                Course::OverTime | Course::MovingOverTime
            )
        });
        is_over_time || self.has_open()
    }

    /// Whether another clock names the host that asks, or a clock that is not seen: it may be on that host, whatever its identity is.
    pub(crate) fn may_be_here(&self) -> bool {
        self.has(Kind::OwnHost)
            || self.has(Kind::GrandmasterNotSeen)
            || self.has(Kind::ParentNotSeen)
    }

    /// Whether each way has a clock that answered, and nothing was left out.
    pub(crate) fn is_known(&self) -> bool
        ensures { result ≡ is_known self.now }
    {
        self.basis.own.is_answered_everywhere() && self.left_out.is_none()
    }
}
