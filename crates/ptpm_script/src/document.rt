//! A text, read as a network file: every fault in it, or the network that it is.

ghost use Rattle.std.specs.Prelude.{◌≡◌, IfOk, Some, map};
ghost use Rattle.std.specs.Result.{result_err};
ghost use Rattle.toml.specs.View.{table_view};
ghost use Rattle.ptpm_script.specs.NetworkText.{IsAnswerAs, document_network, network_of, network_of_document};
ghost use Rattle.ptpm_script.specs.Faults.{document_marks, file_marks, first_class, first_refusal, text_marks};
ghost use Rattle.ptpm_script.specs.Heads.{clock_value, clocks_of, end_value, ends_of, session_value, sessions_of};
ghost use Rattle.ptpm_script.specs.NetworkValue.{value_of};
ghost use Rattle.ptpm_script.specs.Marks.{Adds, marks_in};

use crate::fault::{Fault, Found, Wanted};
use crate::faults::{Added, Faults};
use crate::heads::Heads;
use crate::limits::TEXT_OCTETS;
use crate::net_error::NetError;
use crate::place::Place;
use crate::reading::Parts;
use ptpm_codec::OutOfMemory;
use std::alloc::{AllocError, Global};
use toml::Table;

/// A text, read as a network file. It keeps what its faults point to.
#[derive(Drop)]
pub enum Document {
    /// A text that is too long.
    Long,
    /// A text that is no TOML from this line on.
    Broken(usize, toml::de::Error),
    Table(Table),
}

impl Document {
    /// Reads a text, whether or not it is a network file. The first fault of it is of the refusal that `Network::from_toml` answers.
    /// Nothing is made if memory is refused.
    pub fn of(alloc: Global, text: &str) -> Result<Document, OutOfMemory>
        ensures refusal { IfOk result
            (λ d. first_refusal (document_marks d) ≡ result_err (network_of text.now)) }
        ensures found { IfOk result (λ d. document_marks d ≡ text_marks text.now) }
        ensures network { IfOk result (λ d. document_network d ≡ network_of text.now) }
    {
        document_of(alloc, text)
    }

    /// Its faults, in the order of the refusals: none exactly if the text is a network file. They are those of the text by the
    /// definitions, and none is left out.
    pub fn faults(&self, alloc: Global) -> Result<Vec<Fault<'_>>, OutOfMemory>
        ensures first { IfOk result
            (λ faults. first_class faults.items ≡ first_refusal (document_marks self.now)) }
        ensures all { IfOk result (λ faults. marks_in faults.items ≡ document_marks self.now) }
    {
        Ok(faults_in(alloc, self).map_err(|_| OutOfMemory)?.into_vec())
    }

    /// The parts of the network that it is, or the refusal that its first fault is of.
    pub(crate) fn parts(&self, alloc: Global) -> Result<Parts, NetError>
        ensures { IsAnswerAs (λ p. value_of p.clocks.items p.sessions.items p.links.items) result
            (document_network self.now) }
    {
        match self {
            Document::Long => Err(NetError::TooLong),
            Document::Broken(..) => Err(NetError::NotToml),
            Document::Table(file) => parts_of(alloc, file),
        }
    }
}

/// A text, read as a network file, whether or not it is one.
#[tactic(auto, unfolding(crate::specs::Faults::text_marks, crate::specs::NetworkText::network_of))]
fn document_of(alloc: Global, text: &str) -> Result<Document, OutOfMemory>
    ensures found { IfOk result (λ d. document_marks d ≡ text_marks text.now) }
    ensures network { IfOk result (λ d. document_network d ≡ network_of text.now) }
{
    if text.len() > TEXT_OCTETS {
        return Ok(Document::Long);
    }
    match toml::table_from_str(alloc, text) {
        Ok(table) => Ok(Document::Table(table)),
        Err(error) if error.is_memory() => Err(OutOfMemory),
        Err(error) => Ok(Document::Broken(line_of(text, &error), error)),
    }
}

/// The parts of the network that a document is, or the refusal that its first fault is of.
#[tactic(auto, using(crate::proofs::TellLemmas::judged_by_first))]
fn parts_of(alloc: Global, file: &Table) -> Result<Parts, NetError>
    ensures { IsAnswerAs (λ p. value_of p.clocks.items p.sessions.items p.links.items) result
        (network_of_document (Some (table_view file.now))) }
{
    let heads = Heads::of(alloc, file)?;
    let mut faults = Faults::new(alloc);
    faults.add_file(file, &heads)?;
    match faults.refusal() {
        Some(class) => Err(class),
        None => Ok(Parts::of(alloc, file, &heads)?),
    }
}

/// The line of a text, from 1, that has an error.
fn line_of(text: &str, error: &toml::de::Error) -> usize {
    let before = error.span().map_or(0, |span| span.start);
    let octets = text.as_bytes().iter().take(before);
    let lines = octets.filter(|octet| **octet == b'\n').count();
    lines.saturating_add(1)
}

/// The faults that are found in a text, in the order of the refusals.
fn faults_in(alloc: Global, document: &Document) -> Result<Faults<'_>, AllocError>
    ensures { IfOk result (λ faults. faults ≡ document_marks document.now) }
{
    let mut faults = Faults::new(alloc);
    match document {
        Document::Long => faults.add(NetError::TooLong, Place::File, Found::Untold, Wanted::Size)?,
        Document::Broken(line, error) => {
            let wanted = Wanted::Toml(*error);
            faults.add(NetError::NotToml, Place::Line(*line), Found::Untold, wanted)?
        }
        Document::Table(file) => faults.add_file(file, &Heads::of(alloc, file)?)?,
    }
    Ok(faults)
}

impl<'a> Faults<'a> {
    /// Adds the faults of a document.
    #[tactic(auto, unfolding(crate::specs::Faults::file_marks))]
    fn add_file(&mut self, file: &'a Table, heads: &Heads<'a>) -> Added
        requires clocks { map clock_value heads.now.clocks.items ≡ clocks_of (table_view file.now) }
        requires sessions { map session_value heads.now.sessions.items ≡ sessions_of (table_view file.now) }
        requires ends { map end_value heads.now.ends.items ≡ ends_of (table_view file.now) }
        ensures { Adds result self.old self.new (file_marks (table_view file.now)) }
    {
        self.add_shape_faults(file)?;
        self.add_limit_faults(file, heads.sessions.as_slice())?;
        self.add_repeat_faults(heads)?;
        self.add_name_faults(heads)?;
        self.add_start_faults(heads.clocks.as_slice())
    }
}
