//! `ptpm plan`: a plan file, and answers among lines of datagrams, as the plan that they make.

ghost use Rattle.std.specs.Prelude.{◌≡◌, IfOk, OnOk};
ghost use Rattle.ptpm_commands.specs.Lines.{datagram_in, latest_line};
ghost use Rattle.std.specs.Io.KnownBytes.{Appends};
ghost use Rattle.ptpm_plan.specs.Asks.{AreAsked, lines_below};
ghost use Rattle.ptpm_plan.specs.Printed.{AreAnswersOf, IsPrinted, IsReport, TakesLine, status_by};

use crate::answers::Answers;
use crate::file_fault::FileFault;
use crate::outcome::{status_of, status_telling_changes};
use crate::plan::Plan;
use crate::report::Report;
use crate::wish::PlanFile;
use ptpm_commands::Fault;
use ptpm_commands::lines::Lines;
use std::alloc::Global;
use std::io::{Read, Write};

/// How a plan is printed.
#[derive(Clone, Copy)]
pub enum PlanForm {
    Text,
    /// One object.
    Json,
    /// The text, an empty line, and a line for each change with its dataFields.
    Steps,
}

/// How a plan is printed, and what its exit status says.
#[derive(Clone, Copy)]
pub struct PlanOptions {
    pub form: PlanForm,
    /// Changes that can be made have a status of their own.
    pub tells_changes: bool,
}

/// Why there is no plan.
#[derive(Drop)]
pub enum PlanFault {
    /// The file is refused.
    File(FileFault),
    /// Its lines could not be read, or it could not be printed.
    Other(Fault),
}

impl From<Fault> for PlanFault {
    fn from(fault: Fault) -> PlanFault {
        PlanFault::Other(fault)
    }
}

impl From<FileFault> for PlanFault {
    fn from(fault: FileFault) -> PlanFault {
        match fault {
            FileFault::OutOfMemory => PlanFault::Other(Fault::OutOfMemory),
            other => PlanFault::File(other),
        }
    }
}

/// Prints the plan of a file, by the answers among a reader's lines, and answers the exit status. The file is read first: if it is
/// refused, no line is read, and nothing is printed.
pub fn print_plan<R: Read + Drop, O: Write>(
    alloc: Global,
    text: &[u8],
    options: PlanOptions,
    reader: R,
    out: &mut O,
) -> Result<u8, PlanFault>
    ensures { IfOk result
        (IsPrinted text.now (R.remaining reader) options (O.contents out.old) (O.contents out.new)) }
{
    let file = PlanFile::read(alloc, text)?;
    let answers = read_answers(alloc, reader)?;
    let plan = Plan::of(alloc, &file, &answers)?;
    let report = Report {
        plan: &plan,
        file: &file,
        answers: &answers,
    };
    print_report(alloc, options.form, &report, out)?;
    Ok(status_by(options.tells_changes, &plan))
}

fn print_report<O: Write>(
    alloc: Global,
    form: PlanForm,
    report: &Report<'_>,
    out: &mut O,
) -> Result<(), Fault>
    ensures { OnOk result (IsReport form report.now.plan.now (O.contents out.old) (O.contents out.new)) }
{
    match form {
        PlanForm::Text => report.print(alloc, out),
        PlanForm::Json => report.print_json(alloc, out),
        PlanForm::Steps => report.print_with_steps(alloc, out),
    }
}

/// The exit status. Changes may have one of their own.
fn status_by(tells_changes: bool, plan: &Plan) -> u8
    ensures { result ≡ status_by tells_changes plan.now }
{
    if tells_changes {
        status_telling_changes(plan)
    } else {
        status_of(plan)
    }
}

/// Prints what is asked before the plan of a file can be made.
pub fn print_questions<O: Write>(alloc: Global, text: &[u8], out: &mut O) -> Result<(), PlanFault>
    ensures { OnOk result (AreAsked text.now (O.contents out.old) (O.contents out.new)) }
{
    let file = PlanFile::read(alloc, text)?;
    print_asks(alloc, &file, out)?;
    Ok(())
}

fn print_asks<O: Write>(alloc: Global, file: &PlanFile, out: &mut O) -> Result<(), Fault>
    ensures { OnOk result (Appends (O.contents out.old) (O.contents out.new) (lines_below file.now 256)) }
{
    let text = file.asks(alloc)?;
    out.write_all(text.as_bytes())?;
    Ok(())
}

/// The answers among a reader's lines. A datagram that is no answer is passed over; a line that is no datagram in hexadecimal is a
/// fault. A note `#ptpm` may have the word `left_out=` and how many answers were left out; the last one counts.
fn read_answers<R: Read + Drop>(alloc: Global, reader: R) -> Result<Answers, Fault>
    ensures { IfOk result (λ answers. AreAnswersOf (R.remaining reader) answers.list.items) }
{
    let mut lines = Lines::new(alloc, reader)?;
    let mut answers = Answers::new(alloc);
    for number in 1..u64::MAX {
        if !lines.read(number)? {
            return Ok(answers);
        }
        take_line(alloc, &lines, number, &mut answers)?;
    }
    Ok(answers)
}

/// Takes the answer in the line that was read last, which has this number, or what it notes.
fn take_line<R: Read + Drop>(
    alloc: Global,
    lines: &Lines<R>,
    number: u64,
    answers: &mut Answers,
) -> Result<(), Fault>
    ensures { OnOk result (TakesLine (datagram_in number (latest_line lines.now)) answers.old.list.items answers.new.list.items) }
{
    match lines.datagram(alloc, number)? {
        Some(datagram) => answers.take(datagram.as_slice())?,
        None => note(lines.text(number)?, answers),
    }
    Ok(())
}

/// Takes how many answers were left out from a line, if it is a note that says it.
fn note(line: &str, answers: &mut Answers)
    ensures { answers.new.list.items ≡ answers.old.list.items }
{
    if let Some(count) = left_out(line) {
        answers.left_out = count;
    }
}

/// How many answers were left out, if a line is a note that says it.
fn left_out(line: &str) -> Option<u64> {
    let mut words = line.strip_prefix("#ptpm ")?.split(' ');
    words.find_map(|word| word.strip_prefix("left_out=")?.parse().ok())
}
