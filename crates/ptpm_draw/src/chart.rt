//! A picture in SVG 1.1: the places of all that is in it, and how it is written.

ghost use Rattle.std.specs.Prelude.{◌≡◌, ◌++◌, IfErr, IfOk, OnOk, map, true};
ghost use Rattle.std.specs.Io.KnownBytes.{Appends};
ghost use Rattle.ptpm_draw.specs.Drawing.{AddsParts, ShowsLines, opening};
ghost use Rattle.ptpm_world.specs.ScriptError.{is_of_writing};

use crate::changes::{Change, Changes};
use crate::lifelines::{CHARACTER, Lifelines, kind_of};
use crate::members::member_texts;
use crate::party::Party;
use crate::picture::{EventRow, Message, Way};
use crate::selection::Selection;
use crate::shapes::{Arrow, write_mark};
use crate::sizes::{MEMBER, STUB, Sizes, row_height};
use crate::strokes::{LOST, Stroke, stroke_of};
use crate::words::{
    LabelText, LineText, ListText, LostText, OutcomeText, VerbText, Written, error_shown, spell,
};
use ptpm_text::Escaped;
use ptpm_world::{Event, ScriptError};
use std::alloc::{AllocError, Global};
use std::io;
use std::io::Write;

/// From the top to the first row.
const HEADER: usize = 72;

/// Around the picture.
const MARGIN: usize = 16;

/// What a picture begins with.
const START: &str = r#"<?xml version="1.0" encoding="UTF-8"?>
<svg xmlns="http://www.w3.org/2000/svg" version="1.1" "#;

/// What is after the size of a picture.
const STYLE: &str = r##"
font-family="DejaVu Sans Mono, Menlo, Consolas, monospace" font-size="13" fill="#24292f">
<title>What happens in a network, event by event</title>
<desc>From left to right: the numbers of events, "##;

/// What a picture ends with.
const END: &str = "</svg>\n";

/// Between a row's upper edge and its arrow.
const RISE: usize = 28;

/// A picture with the places of all that is in it, in the picture's units.
#[derive(Drop)]
pub(crate) struct Chart<'a> {
    selection: &'a Selection,
    sizes: Sizes,
    lifelines: Lifelines<'a>,
    /// The x at which arrows from the edge begin.
    edge: usize,
    /// The x at which the words for what became of events begin.
    right: usize,
    width: usize,
    height: usize,
}

impl<'a> Chart<'a> {
    /// Lays out a picture.
    pub(crate) fn new(alloc: Global, selection: &'a Selection) -> Result<Chart<'a>, AllocError>
        ensures { IfOk result (λ chart. chart.selection.now ≡ selection.now) }
    {
        let sizes = Sizes::of(alloc, selection)?;
        let box_half = across(sizes.name, 24) / 2;
        let label = across(sizes.label, 32);
        let edge = across(sizes.line, 2 * MARGIN);
        let lead = if sizes.has_edge { label } else { box_half };
        let beside = label.max(across(sizes.stub, 64));
        let lifelines = Lifelines {
            network: &selection.network,
            first: edge.saturating_add(lead).saturating_add(MARGIN),
            step: beside.max(across(sizes.name, 48)),
        };
        let overhang = if sizes.has_overhang { beside } else { box_half };
        let right = lifelines.last().saturating_add(overhang);
        let right = right.saturating_add(MARGIN);
        Ok(Chart {
            selection,
            sizes,
            lifelines,
            edge,
            right,
            width: right.saturating_add(across(sizes.outcome, MARGIN)),
            height: sizes.height.saturating_add(HEADER + MARGIN),
        })
    }

    /// Writes the picture: its head, and then a part for each row.
    pub(crate) fn write<W: Write>(&self, alloc: Global, out: &mut W) -> Result<(), ScriptError>
        ensures shown { OnOk result
            (ShowsLines (map (λ row. row.line) self.now.selection.now.picture.rows.items)
            (W.contents out.old) (W.contents out.new)) }
        ensures fault { IfErr result (λ e. is_of_writing e ≡ true) }
    {
        let Ok(head) = self.head(alloc) else {
            return Err(ScriptError::OutOfMemory);
        };
        out.write_all(head.as_bytes())?;
        self.write_rows(alloc, out)?;
        out.write_all(END.as_bytes())?;
        Ok(())
    }

    /// All that comes before the rows.
    fn head(&self, alloc: Global) -> Result<String, AllocError> {
        let mut text = String::new(alloc);
        self.write_start(&mut text)?;
        for place in 0..self.lifelines.count() {
            self.write_lifeline(self.lifelines.party(place), &mut text)?;
        }
        Ok(text)
    }

    /// Writes a part for each row, in their order.
    fn write_rows<W: Write>(&self, alloc: Global, out: &mut W) -> Result<(), ScriptError>
        ensures added { OnOk result
            (AddsParts (map (λ row. row.line) self.now.selection.now.picture.rows.items)
            (W.contents out.old) (W.contents out.new)) }
        ensures fault { IfErr result (λ e. is_of_writing e ≡ true) }
    {
        let Selection { lines, picture, .. } = self.selection;
        let mut text = String::new(alloc);
        let mut label = String::new(alloc);
        let mut changes = Changes::of(picture);
        let mut top = HEADER;
        for place in 0..picture.rows.len() {
            let row = &picture.rows[place];
            let event = &lines[place].event;
            let change = changes.take(row.line);
            let Ok(below) = self.spell_row(alloc, row, event, change, top, &mut label, &mut text)
            else {
                return Err(ScriptError::OutOfMemory);
            };
            top = below;
            write_part(row.line, text.as_str(), out)?;
        }
        Ok(())
    }

    /// Makes the text of only a row's part, and answers where the next one begins.
    fn spell_row(
        &self,
        alloc: Global,
        row: &EventRow,
        event: &Event,
        change: Option<&Change>,
        top: usize,
        label: &mut String,
        text: &mut String,
    ) -> Result<usize, AllocError> {
        let changed = member_texts(alloc, change)?;
        text.clear();
        self.write_row(row, event, changed.as_slice(), top, label, text)?;
        let below = top.saturating_add(row_height(changed.len()));
        self.write_lost(row, below, label, text)
    }

    /// The start of the file, and what is said of the picture as a whole.
    fn write_start(&self, text: &mut String) -> Written {
        let (width, height) = (self.width, self.height);
        text.push_str(START)?;
        write!(text, r#"width="{width}" height="{height}" "#)?;
        write!(text, r#"viewBox="0 0 {width} {height}""#)?;
        text.push_str(STYLE)?;
        for place in 0..self.lifelines.count() {
            let party = self.lifelines.party(place);
            let name = self.lifelines.name(Some(party));
            write!(text, "{} {name}, ", kind_of(party))?;
        }
        let (rows, all) = (self.selection.lines.len(), self.selection.events);
        write!(text, "and what became of events. From top to bottom: ")?;
        writeln!(text, "{rows} of {all} events.</desc>")?;
        write!(text, r#"<rect width="{width}" height="{height}" "#)?;
        writeln!(text, r##"fill="#ffffff"/>"##)
    }

    /// A lifeline with its name: a session's in a round box, a clock's in a square one.
    fn write_lifeline(&self, party: Party, text: &mut String) -> Written {
        let x = self.lifelines.x(party);
        let end = self.height.saturating_sub(MARGIN);
        let width = across(self.sizes.name, 24);
        let left = x.saturating_sub(width / 2);
        let round = match party {
            Party::Session(_) => 14,
            Party::Clock(_) => 0,
        };
        let (kind, name) = (kind_of(party), self.lifelines.name(Some(party)));
        writeln!(text, "<g><title>{kind} {name}</title>")?;
        writeln!(text, r##"<path d="M{x} 56V{end}" stroke="#8c959f"/>"##)?;
        write!(text, r#"<rect x="{left}" y="16" width="{width}" "#)?;
        write!(text, r##"height="40" rx="{round}" fill="#f6f8fa" "##)?;
        writeln!(text, r##"stroke="#57606a"/>"##)?;
        write!(text, r#"<text x="{x}" y="32" text-anchor="middle" "#)?;
        writeln!(text, r#"font-size="11">{kind}</text>"#)?;
        write!(text, r#"<text x="{x}" y="49" text-anchor="middle" "#)?;
        writeln!(text, r#"font-weight="bold">{name}</text></g>"#)
    }

    /// Writes a row whose upper edge is here, and whose event changed these members.
    fn write_row(
        &self,
        row: &EventRow,
        event: &Event,
        changed: &[String],
        top: usize,
        label: &mut String,
        text: &mut String,
    ) -> Written {
        let picture = &self.selection.picture;
        spell(label, LabelText(picture, row, event))?;
        let y = top.saturating_add(RISE);
        let base = y.saturating_add(4);
        write!(text, "{}: {label}", VerbText(event))?;
        match self.ends(row) {
            Some((from, to)) => self.write_ends(from, to, text)?,
            None => write!(text, ", at {}", self.lifelines.name(row.at))?,
        }
        write!(text, "</title><desc>{}", OutcomeText(picture, row))?;
        writeln!(text, "{}</desc>", ListText(changed))?;
        write!(text, r##"<text x="{MARGIN}" y="{base}" fill="#57606a">"##)?;
        writeln!(text, "{}</text>", LineText(row.line, event))?;
        self.write_way(row, y, label.as_str(), text)?;
        self.write_outcome(row, changed, base, text)
    }

    /// Writes what became of a row's event, and below it each member that it changed.
    fn write_outcome(
        &self,
        row: &EventRow,
        changed: &[String],
        base: usize,
        text: &mut String,
    ) -> Written {
        let (right, picture) = (self.right, &self.selection.picture);
        let colour = self.stroke(row).colour;
        write!(text, r#"<text x="{right}" y="{base}" fill="{colour}">"#)?;
        write!(text, "{}</text>", OutcomeText(picture, row))?;
        let mut below = base;
        for member in changed {
            below = below.saturating_add(MEMBER);
            write!(text, "\n")?;
            write!(text, r#"<text x="{right}" y="{below}" fill="{colour}">"#)?;
            write!(text, "{}</text>", Escaped(member.as_str()))?;
        }
        writeln!(text, "</g>")
    }

    /// From whom to whom a row's message went; `None` of a mark.
    fn ends(&self, row: &EventRow) -> Option<(Option<Party>, Option<Party>)> {
        match row.way {
            Way::Mark => None,
            Way::FromEdge => Some((None, row.at)),
            Way::Arrow(frame) => {
                let message = self.selection.picture.message(frame)?;
                Some((message.from, Some(message.to)))
            }
        }
    }

    fn write_ends(&self, from: Option<Party>, to: Option<Party>, text: &mut String) -> Written {
        let (from, to) = (self.lifelines.name(from), self.lifelines.name(to));
        write!(text, ", from {from} to {to}")
    }

    /// Writes the arrow or the mark of a row.
    fn write_way(&self, row: &EventRow, y: usize, label: &str, text: &mut String) -> Written {
        let stroke = self.stroke(row);
        match self.ends(row) {
            Some((from, to)) => self.arrow(from, to, y, stroke).write(label, text),
            None => write_mark(self.x(row.at), y, stroke, label, text),
        }
    }

    /// Writes the messages of a row that no event delivered, one below the other from here on. Answers where they end.
    fn write_lost(
        &self,
        row: &EventRow,
        top: usize,
        label: &mut String,
        text: &mut String,
    ) -> Result<usize, AllocError> {
        let mut top = top;
        for count in row.before..row.after {
            if let Some(&Message { from, to, .. }) = self.selection.lost(count + 1) {
                spell(label, LostText(&self.selection.picture, count + 1))?;
                write!(text, "<g><title>{label}")?;
                self.write_ends(from, Some(to), text)?;
                writeln!(text, "</title><desc>lost</desc>")?;
                let arrow = self.arrow(from, Some(to), top.saturating_add(4), LOST);
                arrow.write_stub(label.as_str(), text)?;
                writeln!(text, "</g>")?;
                top = top.saturating_add(STUB);
            }
        }
        Ok(top)
    }

    /// How a row is drawn.
    fn stroke(&self, row: &EventRow) -> Stroke {
        let error = error_shown(&self.selection.picture, row);
        stroke_of(row.outcome(), error.is_some())
    }

    /// The arrow of a message between these, at this height.
    fn arrow(&self, from: Option<Party>, to: Option<Party>, y: usize, stroke: Stroke) -> Arrow {
        let (from, to) = (self.x(from), self.x(to));
        Arrow {
            from,
            to,
            y,
            stroke,
        }
    }

    /// The x of a party's lifeline, or that of the edge for nobody.
    fn x(&self, party: Option<Party>) -> usize {
        match party {
            Some(party) => self.lifelines.x(party),
            None => self.edge,
        }
    }
}

/// Writes the part of a row: its opening, with the number of its line, and then the row's text.
fn write_part<W: Write>(line: u32, text: &str, out: &mut W) -> io::Result<()>
    ensures { OnOk result (Appends (W.contents out.old) (W.contents out.new) (opening line ++ text.now)) }
{
    write!(out, "<g><title>{line} ")?;
    out.write_all(text.as_bytes())
}

/// How wide this many characters are, and this besides.
fn across(characters: usize, besides: usize) -> usize {
    characters.saturating_mul(CHARACTER).saturating_add(besides)
}
