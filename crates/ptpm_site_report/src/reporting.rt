//! `ptpm site`: a site's tree and what is wrong with it, by the answers among lines of datagrams.

ghost use Rattle.std.specs.Prelude.{◌≡◌, ℕ, ◌<◌, IfOk, List, OnOk, length, map};
ghost use Rattle.ptpm_causes.specs.Roots.{IsRoot};
ghost use Rattle.ptpm_site.specs.declared.judging.finding.Finding.{Finding};
ghost use Rattle.ptpm_site.specs.declared.picture.Picture.{Picture};
ghost use Rattle.ptpm_site.specs.declared.reading.site.Site.{Site};
ghost use Rattle.ptpm_site_report.specs.Reporting.{AreConcluded, IsShown, outcome, status, status_of_numbers};

use crate::finding::found_line::FoundLine;
use crate::ignored::Ignored;
use crate::json::print_object;
use crate::look::{Beside, Look};
use crate::monitoring::nagios::{Standing, print_plugin};
use crate::monitoring::openmetrics::print_metrics;
use crate::names::Names;
use crate::page::drawing::draw;
use crate::page::print_page;
use crate::reading::before::Before;
use crate::reading::site_lines::{LinesSaid, SiteLines, read_shown};
use crate::text::print_text;
use ptpm_causes::Kind;
use ptpm_commands::Fault;
use ptpm_expected::expectations::Judge;
use ptpm_site::judging::finding::Finding;
use ptpm_site::judging::limits::Limits;
use ptpm_site::picture::Picture;
use ptpm_site::reading::left_out::LeftOut;
use std::alloc::{AllocError, Global};
use std::io::{Read, Write};

/// How a site is printed.
#[derive(Clone, Copy)]
pub enum Form {
    /// A tree, and the findings one a line.
    Text,
    /// One object.
    Json,
    /// The tree as a picture in SVG, with the findings.
    Drawing,
    /// The tree as a page in HTML, with the findings.
    Page,
    /// Numbers for a monitoring system.
    OpenMetrics,
    /// As a plugin of Nagios prints it.
    Plugin,
}

/// What an operator asks for.
#[derive(Clone, Copy)]
pub struct Options {
    pub form: Form,
    pub limits: Limits,
}

/// What came of it.
#[derive(Clone, Copy)]
pub enum Conclusion {
    /// No clock answered.
    NoClock,
    /// Nothing is wrong.
    Sound,
    /// Findings are printed.
    Findings,
}

impl Conclusion {
    /// The exit status of a form whose numbers have the findings: these change no status.
    pub fn status_of_numbers(self) -> u8
        ensures { result ≡ status_of_numbers self }
    {
        match self {
            Conclusion::Sound | Conclusion::Findings => 0,
            Conclusion::NoClock => self.status(),
        }
    }

    /// The exit status.
    pub fn status(self) -> u8
        ensures { result ≡ status self }
    {
        match self {
            Conclusion::Sound => 0,
            Conclusion::Findings => 1,
            Conclusion::NoClock => 3,
        }
    }
}

/// How the clocks of a site are named, and what is printed of its findings.
#[derive(Clone, Copy)]
pub struct Viewing<'a, 'b> {
    pub names: &'a Names,
    /// The findings that are left out.
    pub ignored: &'b Ignored,
    /// Whether the text has what follows from another finding too, and each of many lines that are alike.
    pub is_all: bool,
    /// The look before. What may be there only for a moment counts if that has it too.
    pub before: Option<&'b Before>,
    /// Whether it is printed how many findings the look before lacks.
    pub tells_momentary: bool,
}

impl Viewing<'_, '_> {
    /// Leaves out of a picture the findings that `--ignore` names, and those that the look before lacks. Answers how many it lacks.
    fn leave_out<J: Judge>(
        self,
        alloc: Global,
        limits: Limits,
        judge: &J,
        picture: &mut Picture<'_>,
    ) -> Result<Option<usize>, AllocError>
        ensures shown { OnOk result (IsShown self.entry picture.old.findings.items picture.new.findings.items) }
        ensures clocks { picture.new.forest ≡ picture.old.forest }
    {
        self.ignored.leave_out(&mut picture.findings);
        self.ignored.leave_out(&mut picture.open_findings);
        match self.before {
            Some(before) => Ok(Some(before.leave_out(alloc, limits, judge, picture)?)),
            None => Ok(None),
        }
    }
}

/// What came of a site, and how a plugin says it.
#[derive(Drop)]
pub struct Came {
    pub conclusion: Conclusion,
    pub standing: Standing,
    pub told: Told,
}

/// What is known of a site for whoever looks at it again.
#[derive(Drop)]
pub struct Told {
    /// The findings as a text or as JSON has them. Another form has none.
    pub lines: Vec<FoundLine>,
    /// The names of what is open.
    pub open: Vec<Kind>,
    /// How many findings the look before lacks, and so are left out.
    pub momentary: usize,
    pub left_out: LeftOut,
}

/// Prints the site of a reader's lines, as its judge has it and as an operator wants to see it.
pub fn report<R: Read + Drop, O: Write, J: Judge>(
    alloc: Global,
    options: Options,
    judge: &J,
    viewing: Viewing<'_, '_>,
    reader: R,
    out: &mut O,
) -> Result<Came, Fault>
    ensures { IfOk result (λ came. (site : Site) × (judged : Picture) × (shown : List Finding)
        × J.IsJudged site judged
        × IsShown viewing.entry judged.findings.items shown
        × AreConcluded judged.forest.sources.items shown came) }
{
    let SiteLines { shown, said } = read_shown(alloc, reader)?;
    let limits = options.limits.at_host(said.is_synchronised);
    let picture = judge.picture_of(alloc, &shown.site, shown.left_out, limits)?;
    let came = print_judged(alloc, options, judge, viewing, said, picture, out)?;
    Ok(came)
}

/// Prints a picture as it was judged, without the findings that an operator does not want to see.
fn print_judged<O: Write, J: Judge>(
    alloc: Global,
    options: Options,
    judge: &J,
    viewing: Viewing<'_, '_>,
    said: LinesSaid,
    mut picture: Picture<'_>,
    out: &mut O,
) -> Result<Came, Fault>
    ensures { IfOk result (λ came. (shown : List Finding)
        × IsShown viewing.entry picture.entry.findings.items shown
        × AreConcluded picture.entry.forest.sources.items shown came) }
{
    let beside = Beside {
        names: viewing.names,
        said,
        is_all: viewing.is_all,
        momentary: viewing.leave_out(alloc, options.limits, judge, &mut picture)?,
        tells_momentary: viewing.tells_momentary,
    };
    let came = print_picture(alloc, options, &picture, beside, out)?;
    Ok(came)
}

/// Prints a picture, and answers what came of its site.
fn print_picture<O: Write>(
    alloc: Global,
    options: Options,
    picture: &Picture<'_>,
    beside: Beside<'_>,
    out: &mut O,
) -> Result<Came, Fault>
    ensures { IfOk result (AreConcluded picture.now.forest.sources.items picture.now.findings.items) }
{
    let look = Look::of(alloc, picture, beside)?;
    let lines = print_look(alloc, options, &look, out)?;
    let told = told_of(alloc, &look, lines)?;
    Ok(came_of(&look, told))
}

fn told_of(alloc: Global, look: &Look<'_, '_>, lines: Vec<FoundLine>) -> Result<Told, AllocError> {
    let mut open = Vec::new(alloc);
    for remark in look.open.as_slice() {
        open.push(remark.named.kind)?;
    }
    Ok(Told {
        lines,
        open,
        momentary: look.beside.momentary.unwrap_or(0),
        left_out: look.picture.left_out,
    })
}

/// What came of a site that is shown.
fn came_of(look: &Look<'_, '_>, told: Told) -> Came
    requires findings { map (λ r. r.finding.now) look.now.found.items ≡ look.now.picture.now.findings.items }
    requires printed { 0 < length look.now.found.items → (place : ℕ) × IsRoot (map (λ r. r.cause) look.now.found.items) place }
    ensures { AreConcluded look.now.picture.now.forest.sources.items look.now.picture.now.findings.items result }
{
    Came {
        conclusion: outcome_of(look.picture),
        standing: Standing::of(look),
        told,
    }
}

/// Prints a site. Answers the lines of the findings of a text, or their objects.
fn print_look<O: Write>(
    alloc: Global,
    options: Options,
    look: &Look<'_, '_>,
    out: &mut O,
) -> Result<Vec<FoundLine>, Fault> {
    match options.form {
        Form::Text => return print_text(alloc, look, out),
        Form::Json => return print_object(alloc, look, out),
        Form::Drawing => draw(alloc, look, out)?,
        Form::Page => print_page(alloc, look, out)?,
        Form::OpenMetrics => print_metrics(alloc, look, out)?,
        Form::Plugin => print_plugin(alloc, look, options.limits.offset, out)?,
    }
    Ok(Vec::new(alloc))
}

/// What came of a site that is judged.
fn outcome_of(picture: &Picture<'_>) -> Conclusion
    ensures { result ≡ outcome picture.now.forest.sources.items picture.now.findings.items }
{
    if picture.forest.sources.is_empty() {
        Conclusion::NoClock
    } else if picture.findings.is_empty() {
        Conclusion::Sound
    } else {
        Conclusion::Findings
    }
}
