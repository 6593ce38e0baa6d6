//! Arrows, stubs, marks and their labels, in SVG.

use crate::lifelines::CHARACTER;
use crate::strokes::{Head, Stroke};
use crate::words::Written;

/// How far out an arrow goes that comes back to where it began.
const LOOP: usize = 32;

/// How long a stub is.
const STUB: usize = 36;

/// Which part of a label is at its place.
#[derive(Clone, Copy)]
enum Anchor {
    Start,
    Middle,
    End,
}

/// A line from one place to another at the same height.
#[derive(Clone, Copy)]
pub(crate) struct Arrow {
    pub(crate) from: usize,
    pub(crate) to: usize,
    pub(crate) y: usize,
    pub(crate) stroke: Stroke,
}

impl Arrow {
    /// Writes the arrow and a label above it.
    pub(crate) fn write(&self, label: &str, text: &mut String) -> Written {
        if self.from == self.to {
            return self.write_loop(label, text);
        }
        let (middle, above) = (self.from / 2 + self.to / 2, self.y.saturating_sub(8));
        write_label(middle, above, Anchor::Middle, label, text)?;
        self.write_line(text)
    }

    /// Writes an arrow out and back to where it began, with a label beside it.
    fn write_loop(&self, label: &str, text: &mut String) -> Written {
        let (x, y) = (self.from, self.y.saturating_sub(8));
        write!(text, r#"<path d="M{x} {y}h{LOOP}v14" fill="none" "#)?;
        writeln!(text, r#"stroke="{}"/>"#, self.stroke.colour)?;
        let back = Arrow {
            from: x.saturating_add(LOOP),
            to: x,
            y: y.saturating_add(14),
            stroke: self.stroke,
        };
        back.write_line(text)?;
        let start = x.saturating_add(LOOP + 8);
        write_label(start, self.y.saturating_add(4), Anchor::Start, label, text)
    }

    /// Writes a short arrow in the same direction, which ends in a cross, and a label after it.
    pub(crate) fn write_stub(&self, label: &str, text: &mut String) -> Written {
        let (to, start, anchor) = if self.to < self.from {
            let to = self.from.saturating_sub(STUB);
            (to, to.saturating_sub(4), Anchor::End)
        } else {
            let to = self.from.saturating_add(STUB);
            (to, to.saturating_add(4), Anchor::Start)
        };
        Arrow { to, ..*self }.write_line(text)?;
        write_label(start, self.y.saturating_add(4), anchor, label, text)
    }

    /// Writes the line with its end.
    fn write_line(&self, text: &mut String) -> Written {
        let (from, y, stroke) = (self.from, self.y, self.stroke);
        let end = self.before_end(inset_of(stroke.head));
        write!(text, r#"<path d="M{from} {y}H{end}" "#)?;
        write!(text, r#"stroke="{}" "#, stroke.colour)?;
        write!(text, r#"stroke-width="{}" "#, stroke.width)?;
        writeln!(text, r#"stroke-dasharray="{}"/>"#, stroke.dashes)?;
        self.write_head(text)
    }

    /// Writes the end.
    fn write_head(&self, text: &mut String) -> Written {
        let (to, y, colour) = (self.to, self.y, self.stroke.colour);
        let back = if self.from < self.to { "-" } else { "" };
        match self.stroke.head {
            Head::Filled => writeln!(
                text,
                r#"<path d="M{to} {y}l{back}10 -5v10z" fill="{colour}"/>"#
            ),
            Head::Empty => writeln!(
                text,
                r##"<path d="M{to} {y}l{back}10 -5v10z" fill="#ffffff" stroke="{colour}"/>"##
            ),
            Head::Open => {
                let side = self.before_end(10);
                let (above, below) = (y.saturating_sub(5), y.saturating_add(5));
                write!(text, r#"<path d="M{side} {above}L{to} {y}"#)?;
                write!(text, r#"L{side} {below}" fill="none" "#)?;
                writeln!(text, r#"stroke="{colour}" stroke-width="1.5"/>"#)
            }
            Head::Cross => write_cross(self.before_end(7), y, colour, text),
            Head::Ring => write_ring(self.before_end(5), y, colour, "#ffffff", text),
        }
    }

    /// The place so far before its end.
    fn before_end(&self, by: usize) -> usize {
        if self.from < self.to {
            self.to.saturating_sub(by)
        } else {
            self.to.saturating_add(by)
        }
    }
}

/// How far before its end a line with this head stops.
fn inset_of(head: Head) -> usize {
    match head {
        Head::Filled | Head::Empty | Head::Ring => 9,
        Head::Open => 1,
        Head::Cross => 7,
    }
}

/// Writes a mark on a lifeline, with a label to the right of it: a cross if an event was refused, else a dot.
pub(crate) fn write_mark(
    x: usize,
    y: usize,
    stroke: Stroke,
    label: &str,
    text: &mut String,
) -> Written {
    if let Head::Cross = stroke.head {
        write_cross(x, y, stroke.colour, text)?;
    } else {
        write_ring(x, y, stroke.colour, stroke.colour, text)?;
    }
    let start = x.saturating_add(12);
    write_label(start, y.saturating_add(4), Anchor::Start, label, text)
}

fn write_cross(x: usize, y: usize, colour: &str, text: &mut String) -> Written {
    let (left, above) = (x.saturating_sub(5), y.saturating_sub(5));
    write!(text, r#"<path d="M{left} {above}l10 10m0 -10l-10 10" "#)?;
    writeln!(text, r#"fill="none" stroke="{colour}" stroke-width="2"/>"#)
}

fn write_ring(x: usize, y: usize, colour: &str, fill: &str, text: &mut String) -> Written {
    write!(text, r#"<circle cx="{x}" cy="{y}" r="4" fill="{fill}" "#)?;
    writeln!(text, r#"stroke="{colour}" stroke-width="1.5"/>"#)
}

/// Writes a label on white, so that lifelines do not run through it.
fn write_label(x: usize, y: usize, anchor: Anchor, label: &str, text: &mut String) -> Written {
    let width = label.len().saturating_mul(CHARACTER);
    let (left, anchor) = match anchor {
        Anchor::Start => (x, "start"),
        Anchor::Middle => (x.saturating_sub(width / 2), "middle"),
        Anchor::End => (x.saturating_sub(width), "end"),
    };
    let top = y.saturating_sub(12);
    write!(text, r#"<rect x="{left}" y="{top}" width="{width}" "#)?;
    writeln!(text, r##"height="16" fill="#ffffff"/>"##)?;
    write!(text, r#"<text x="{x}" y="{y}" text-anchor="{anchor}">"#)?;
    writeln!(text, "{label}</text>")
}
