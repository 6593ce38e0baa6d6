//! A site as a picture in SVG 1.1: its tree, and below each clock what is wrong with it.

use crate::finding::remarks::Weight;
use crate::look::Look;
use crate::not_judged::NotJudged;
use crate::page::lines::{DrawnRemark, Frame, Line, lines_of};
use ptpm_commands::Fault;
use ptpm_site::judging::lacks::Lack;
use ptpm_text::Escaped;
use std::alloc::Global;
use std::io;
use std::io::Write;

/// How wide a character is, in the picture's units.
const CHARACTER: usize = 8;

/// How far the picture's edge is.
const MARGIN: usize = 16;

/// From the top of a row to the next.
const ROW: usize = 32;

/// How high the box of a name is.
const BOX: usize = 22;

/// From a finding, or what is open, to the next.
const REMARK: usize = 18;

/// How far the first finding's words are below the top of its row.
const FIRST_REMARK: usize = 38;

/// How far to the right a row is that is below another.
const STEP: usize = 32;

/// How far the line to the rows below is from the left of a box.
const STEM: usize = 12;

/// How a remark looks: its colour, what is in the sign before its words, and what is read aloud there.
#[derive(Clone, Copy)]
struct Manner {
    colour: &'static str,
    sign: &'static str,
    aloud: &'static str,
}

fn manner_of(weight: Weight) -> Manner {
    let (colour, sign, aloud) = match weight {
        Weight::Wrong => ("#b42318", "!", "wrong"),
        Weight::Follows => ("#57606a", "!", "wrong"),
        Weight::Open => ("#8a5300", "?", "open"),
    };
    Manner {
        colour,
        sign,
        aloud,
    }
}

impl Line {
    fn x(&self) -> usize {
        MARGIN.saturating_add(self.depth.saturating_mul(STEP))
    }

    fn width(&self) -> usize {
        width_of(self.name.as_str()).saturating_add(2 * CHARACTER)
    }

    fn height(&self) -> usize {
        ROW.saturating_add(self.remarks.len().saturating_mul(REMARK))
    }
}

fn width_of(text: &str) -> usize {
    text.chars().count().saturating_mul(CHARACTER)
}

/// How large a picture is.
#[derive(Clone, Copy)]
struct Sizes {
    /// The place at which the facts begin.
    facts: usize,
    width: usize,
    height: usize,
}

fn sizes_of(lines: &[Line]) -> Sizes {
    let mut sizes = Sizes {
        facts: 0,
        width: 0,
        height: MARGIN,
    };
    let mut longest = 0;
    for line in lines {
        sizes.height = sizes.height.saturating_add(line.height());
        let end = line.x().saturating_add(line.width());
        sizes.width = sizes.width.max(end);
        if !line.facts.as_str().is_empty() {
            sizes.facts = sizes.facts.max(end.saturating_add(MARGIN));
            longest = width_of(line.facts.as_str()).max(longest);
        }
        for remark in line.remarks.as_slice() {
            let end = line.x().saturating_add(STEP + MARGIN);
            let end = end.saturating_add(width_of(remark.words.as_str()));
            sizes.width = sizes.width.max(end);
        }
    }
    sizes.width = sizes
        .width
        .max(sizes.facts.saturating_add(longest))
        .saturating_add(MARGIN);
    sizes
}

/// Draws a picture.
pub(crate) fn draw<O: Write>(alloc: Global, look: &Look<'_, '_>, out: &mut O) -> Result<(), Fault> {
    let lines = lines_of(alloc, look)?;
    let sizes = sizes_of(lines.as_slice());
    write_head(sizes, lines.as_slice(), look.picture.lacks.as_slice(), out)?;
    let mut tops: Vec<usize> = Vec::new(alloc);
    let mut top = MARGIN;
    for line in lines.as_slice() {
        tops.truncate(line.depth);
        write_line(line, top, tops.last().copied(), sizes.facts, out)?;
        if tops.push(top).is_err() {
            return Err(Fault::OutOfMemory);
        }
        top = top.saturating_add(line.height());
    }
    writeln!(out, "</svg>")?;
    Ok(())
}

/// Writes what comes before the rows.
fn write_head<O: Write>(
    sizes: Sizes,
    lines: &[Line],
    lacks: &[Lack],
    out: &mut O,
) -> io::Result<()> {
    let Sizes { width, height, .. } = sizes;
    let findings = count_wrong(lines);
    write!(
        out,
        r##"<?xml version="1.0" encoding="UTF-8"?>
<svg xmlns="http://www.w3.org/2000/svg" version="1.1" width="{width}" height="{height}" viewBox="0 0 {width} {height}"
font-family="DejaVu Sans Mono, Menlo, Consolas, monospace" font-size="13" fill="#24292f">
<title>Which clock follows which, and what is wrong</title>
<desc>From top to bottom: the clocks of each domain, each below the clock that it follows. Findings: {findings}."##
    )?;
    for lack in lacks {
        write!(out, " {}.", NotJudged(*lack))?;
    }
    writeln!(
        out,
        r##"</desc>
<rect width="{width}" height="{height}" fill="#ffffff"/>"##
    )
}

/// How many findings follow from no other.
fn count_wrong(lines: &[Line]) -> usize {
    let mut count = 0usize;
    for line in lines {
        for remark in line.remarks.as_slice() {
            if matches!(remark.weight, Weight::Wrong) {
                count = count.saturating_add(1);
            }
        }
    }
    count
}

/// Writes a row: what is read aloud, the line to the row that it is below, its box, its facts, and its remarks. The box has
/// the name.
fn write_line<O: Write>(
    line: &Line,
    top: usize,
    above: Option<usize>,
    facts: usize,
    out: &mut O,
) -> io::Result<()> {
    write_aloud(line, out)?;
    let x = line.x();
    if let Some(above) = above {
        write_stem(x, top, above, out)?;
    }
    write_box(line, top, out)?;
    let base = top.saturating_add(BOX - 7);
    write_text(x.saturating_add(CHARACTER), base, line.name.as_str(), out)?;
    if !line.facts.as_str().is_empty() {
        write_text(facts, base, line.facts.as_str(), out)?;
    }
    for (place, remark) in line.remarks.as_slice().iter().enumerate() {
        let below = FIRST_REMARK.saturating_add(place.saturating_mul(REMARK));
        let base = top.saturating_add(below);
        write_remark(x.saturating_add(STEP), base, remark, out)?;
    }
    writeln!(out, "</g>")
}

/// Writes the beginning of a row's group, with its words for whoever has the picture read aloud.
fn write_aloud<O: Write>(line: &Line, out: &mut O) -> io::Result<()> {
    let (name, follows) = (Escaped(line.name.as_str()), Escaped(line.follows.as_str()));
    write!(out, "<g><title>{name}{follows}</title>")?;
    if !line.facts.as_str().is_empty() {
        write!(out, "<desc>{}", Escaped(line.facts.as_str()))?;
        for remark in line.remarks.as_slice() {
            let (manner, words) = (manner_of(remark.weight), Escaped(remark.words.as_str()));
            write!(out, "; {}: {words}", manner.aloud)?;
        }
        write!(out, "</desc>")?;
    }
    writeln!(out)
}

/// Writes the line from the row above to the box at a place.
fn write_stem<O: Write>(x: usize, top: usize, above: usize, out: &mut O) -> io::Result<()> {
    let from = x.saturating_sub(STEP - STEM);
    let (start, end) = (above.saturating_add(BOX), top.saturating_add(BOX / 2));
    writeln!(
        out,
        r##"<path d="M{from} {start}V{end}H{x}" fill="none" stroke="#57606a"/>"##
    )
}

/// Writes the box of a row.
fn write_box<O: Write>(line: &Line, top: usize, out: &mut O) -> io::Result<()> {
    let stroke = match line.frame {
        Frame::Nothing => return Ok(()),
        Frame::Thick => r#"stroke-width="2.5""#,
        Frame::Thin => r#"stroke-width="1""#,
        Frame::Dashed => r#"stroke-width="1" stroke-dasharray="4 3""#,
    };
    let (x, width) = (line.x(), line.width());
    writeln!(
        out,
        r##"<rect x="{x}" y="{top}" width="{width}" height="{BOX}" fill="#f6f8fa" stroke="#24292f" {stroke}/>"##
    )
}

fn write_text<O: Write>(x: usize, y: usize, text: &str, out: &mut O) -> io::Result<()> {
    writeln!(out, r#"<text x="{x}" y="{y}">{}</text>"#, Escaped(text))
}

/// Writes a remark, with a sign before it: a triangle with an exclamation mark, or with a question mark for what is open.
fn write_remark<O: Write>(
    x: usize,
    base: usize,
    remark: &DrawnRemark,
    out: &mut O,
) -> io::Result<()> {
    let Manner { colour, sign, .. } = manner_of(remark.weight);
    let (middle, start) = (x.saturating_add(7), x.saturating_add(MARGIN + 4));
    let words = Escaped(remark.words.as_str());
    writeln!(
        out,
        r#"<path d="M{x} {base}h14l-7 -13z" fill="none" stroke="{colour}" stroke-width="1.5"/>
<text x="{middle}" y="{base}" text-anchor="middle" font-size="10" fill="{colour}">{sign}</text>
<text x="{start}" y="{base}" fill="{colour}">{words}</text>"#
    )
}
