//! How large a picture is, by the longest of its words.

use crate::changes::{Change, Changes};
use crate::members::member_texts;
use crate::party::Party;
use crate::picture::{EventRow, Way};
use crate::selection::Selection;
use crate::words::{LabelText, LineText, LostText, OutcomeText, Written, spell};
use ptpm_world::Network;
use std::alloc::{AllocError, Global};
use std::fmt;

/// From a row to the next, in the picture's units.
const ROW: usize = 44;

/// Below what became of an event for each member that it changed.
pub(crate) const MEMBER: usize = 16;

/// Below a row for each message that was lost there.
pub(crate) const STUB: usize = 22;

/// The most characters of each kind of words, and what else says how large a picture is.
#[derive(Clone, Copy, Default)]
pub(crate) struct Sizes {
    /// Of what is written at arrows and marks.
    pub(crate) label: usize,
    /// Of what is written after stubs.
    pub(crate) stub: usize,
    /// Of what became of events, and of what they changed.
    pub(crate) outcome: usize,
    /// Of numbers and verbs.
    pub(crate) line: usize,
    /// Of names.
    pub(crate) name: usize,
    /// How high all rows are together.
    pub(crate) height: usize,
    /// Whether something comes from the edge, or happens at nobody.
    pub(crate) has_edge: bool,
    /// Whether something is to the right of the last lifeline.
    pub(crate) has_overhang: bool,
}

impl Sizes {
    /// The sizes of what is drawn of a script.
    pub(crate) fn of(alloc: Global, selection: &Selection) -> Result<Sizes, AllocError> {
        let picture = &selection.picture;
        let mut sizes = Sizes {
            name: longest_name(&selection.network),
            ..Sizes::default()
        };
        let mut text = String::new(alloc);
        let mut changes = Changes::of(picture);
        for (row, line) in picture.rows.iter().zip(selection.lines.as_slice()) {
            let event = &line.event;
            note(&mut sizes.label, LabelText(picture, row, event), &mut text)?;
            note(&mut sizes.outcome, OutcomeText(picture, row), &mut text)?;
            note(&mut sizes.line, LineText(row.line, event), &mut text)?;
            sizes.note_changed(alloc, changes.take(row.line))?;
            sizes.note_lost(selection, row, &mut text)?;
            sizes.note_ends(selection, row);
        }
        Ok(sizes)
    }

    /// Notes how high a row is by itself, and the members that its event changed.
    fn note_changed(&mut self, alloc: Global, change: Option<&Change>) -> Written {
        let texts = member_texts(alloc, change)?;
        for text in texts.as_slice() {
            self.outcome = self.outcome.max(text.len());
        }
        self.height = self.height.saturating_add(row_height(texts.len()));
        Ok(())
    }

    /// Notes the messages of a row that no event delivered.
    fn note_lost(&mut self, selection: &Selection, row: &EventRow, text: &mut String) -> Written {
        for count in row.before..row.after {
            if let Some(message) = selection.lost(count + 1) {
                note(
                    &mut self.stub,
                    LostText(&selection.picture, count + 1),
                    text,
                )?;
                self.height = self.height.saturating_add(STUB);
                self.has_overhang |= message.from == Some(message.to);
            }
        }
        Ok(())
    }

    /// Notes what reaches past the first and the last lifeline.
    fn note_ends(&mut self, selection: &Selection, row: &EventRow) {
        match row.way {
            Way::FromEdge => self.has_edge = true,
            Way::Mark if row.at.is_none() => self.has_edge = true,
            Way::Mark => self.has_overhang |= row.at == last_party(&selection.network),
            Way::Arrow(frame) => {
                if let Some(message) = selection.picture.message(frame) {
                    self.has_overhang |= message.from == Some(message.to);
                }
            }
        }
    }
}

/// Notes how many characters this has, if none of its kind had more.
fn note<T: fmt::Display + Drop>(most: &mut usize, shown: T, text: &mut String) -> Written {
    spell(text, shown)?;
    *most = text.len().max(*most);
    Ok(())
}

/// How high a row is whose event changed this many members.
pub(crate) fn row_height(members: usize) -> usize {
    members.saturating_mul(MEMBER).saturating_add(ROW)
}

/// Whose lifeline is the last.
fn last_party(network: &Network) -> Option<Party> {
    match network.clocks().len().checked_sub(1) {
        Some(place) => Some(Party::Clock(place)),
        None => Some(Party::Session(network.sessions().len().checked_sub(1)?)),
    }
}

/// The characters of the longest name.
fn longest_name(network: &Network) -> usize {
    let mut most = 7;
    for session in network.sessions() {
        most = most.max(session.name.as_str().len());
    }
    for clock in network.clocks() {
        most = most.max(clock.name.as_str().len());
    }
    most
}
