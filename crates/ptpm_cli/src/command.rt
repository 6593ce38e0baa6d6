//! What the program does for the words of its command line, and how it ends.

use crate::plan::plan;
use crate::site::show_site;
use crate::task::{Datagrams, Task, parse};
use clap::error::ErrorKind;
use ptpm_commands::answer::{answer, answer_lines};
use ptpm_commands::ids::ids;
use ptpm_commands::make::{make, make_with_members};
use ptpm_commands::show::{show_as, show_good_lines_as, show_lines_as};
use ptpm_commands::{Fault, tell};
use ptpm_draw::draw;
use ptpm_monitor::monitor_site;
use ptpm_schedule::schedule;
use ptpm_site_report::findings;
use ptpm_world::{ScriptError, check_script, run_script};
use std::alloc::Global;
use std::fmt;
use std::io::{Read, Write};
use std::rt::Files;

/// Does what the words say, and answers the exit status. The first word is the program's name. 0: it was done.
/// 1: a fault, with the line `ptpm: FAULT` on `err`, or `check` wrote faults on `out`. 2: the words were refused,
/// with the reason on `err`. `plan` answers 1 if something can't be set, 2 if its file is refused, and 3 if something is not
/// reached. `site` and `monitor` answer 1 if they found something, and 3 if no clock answered. With
/// `--nagios` it answers as a plugin of Nagios: 3 at a fault and if the words were refused, too. What `err` does changes nothing.
/// Only `run`, `check`, `schedule`, `draw`, `site`, `monitor`, `plan` and the option `--lines` read.
/// Whatever was written on `out` is flushed, at a fault too.
pub fn command<F: Files, R: Read, O: Write, E: Write>(
    alloc: Global,
    files: &F,
    words: &[&str],
    reader: &mut R,
    out: &mut O,
    err: &mut E,
) -> u8 {
    match run(alloc, files, words, reader, out, err) {
        Ok(status) => status,
        Err(failure) => {
            let status = end_at_failure(&failure, out, err);
            if is_for_plugin(words) {
                end_unknown(&failure, out)
            } else {
                status
            }
        }
    }
}

fn end_at_failure<O: Write, E: Write>(failure: &Failure, out: &mut O, err: &mut E) -> u8 {
    match failure {
        Failure::Fault(fault) => end_at_fault(fault, out, err),
        Failure::Script(fault) => end_at_fault(fault, out, err),
        Failure::Refused(reason) => {
            let _ = write!(err, "{reason}");
            2
        }
    }
}

/// Whether the words are of `site`, and ask for what a plugin of Nagios shows.
fn is_for_plugin(words: &[&str]) -> bool {
    match words.get(1) {
        Some(word) => *word == "site" && words.iter().any(|word| *word == "--nagios"),
        None => false,
    }
}

/// Ends as a plugin does that can't say how the site is. Its line says why.
fn end_unknown<O: Write>(failure: &Failure, out: &mut O) -> u8 {
    let _ = match failure {
        Failure::Fault(fault) => writeln!(out, "PTP UNKNOWN - {fault}"),
        Failure::Script(fault) => writeln!(out, "PTP UNKNOWN - {fault}"),
        Failure::Refused(_) => writeln!(out, "PTP UNKNOWN - the command line was refused"),
    };
    let _ = out.flush();
    3
}

/// Ends at a fault, which is named on `err`. What was written before it may still be in a buffer and is flushed; if `out`
/// refuses that, a write failed first.
fn end_at_fault<F: fmt::Display, O: Write, E: Write>(fault: &F, out: &mut O, err: &mut E) -> u8 {
    let _ = match out.flush() {
        Ok(()) => tell(fault, err),
        Err(_) => tell(&Fault::WriteFault, err),
    };
    1
}

/// Why a command line was not done.
#[derive(Drop)]
enum Failure {
    Fault(Fault),
    /// A script ended before its last event, or could not be checked.
    Script(ScriptError),
    Refused(clap::Error),
}

impl From<Fault> for Failure {
    fn from(fault: Fault) -> Failure {
        Failure::Fault(fault)
    }
}

fn run<F: Files, R: Read, O: Write, E: Write>(
    alloc: Global,
    files: &F,
    words: &[&str],
    reader: &mut R,
    out: &mut O,
    err: &mut E,
) -> Result<u8, Failure> {
    let status = match parse(alloc, words) {
        Ok(task) => carry_out(alloc, files, task, reader, out, err)?,
        Err(error) => end_without_task(error, out)?,
    };
    out.flush().map_err(Fault::from)?;
    Ok(status)
}

/// Prints the help or the version that the words ask for, or says why they were refused.
fn end_without_task<O: Write>(error: clap::Error, out: &mut O) -> Result<u8, Failure> {
    if error.kind() == ErrorKind::OutOfMemory {
        return Err(Failure::Fault(Fault::OutOfMemory));
    }
    if error.use_stderr() {
        return Err(Failure::Refused(error));
    }
    write!(out, "{error}").map_err(Fault::from)?;
    Ok(0)
}

/// Does what a task asks for, and answers the exit status.
fn carry_out<F: Files, R: Read, O: Write, E: Write>(
    alloc: Global,
    files: &F,
    task: Task<'_>,
    reader: &mut R,
    out: &mut O,
    err: &mut E,
) -> Result<u8, Failure> {
    match task {
        Task::Answer(Datagrams::One(text)) => done(answer(alloc, text, out)),
        Task::Answer(Datagrams::Lines) => done(answer_lines(alloc, reader, out)),
        Task::Show(form, Datagrams::One(text)) => done(show_as(alloc, form, text, out)),
        Task::Show(form, Datagrams::Lines) => done(show_lines_as(alloc, form, reader, out)),
        Task::ShowGoodLines(form) => done(show_good_lines_as(alloc, form, reader, out, err)),
        Task::Ids => done(ids(out)),
        Task::Findings => done(findings(out)),
        Task::Make(words) => done(make(alloc, &words, out)),
        Task::MakeWithMembers(words, members) => {
            done(make_with_members(alloc, &words, members.as_slice(), out))
        }
        Task::Run => played(run_script(alloc, reader, out)),
        Task::Schedule(chances) => played(schedule(alloc, chances, reader, out, err)),
        Task::Draw(chosen) => played(draw(alloc, chosen, reader, out)),
        Task::Site(words) => Ok(show_site(alloc, files, &words, reader, out, err)?),
        Task::Monitor(settings) => Ok(monitor_site(alloc, files, &settings, reader, out, err)?),
        Task::Plan(words) => Ok(plan(alloc, files, words, reader, out, err)?),
        Task::Check => check(alloc, reader, out),
    }
}

/// The status of a subcommand that ended so.
fn done(ended: Result<(), Fault>) -> Result<u8, Failure> {
    ended?;
    Ok(0)
}

/// The status of a subcommand that read a script and ended so.
fn played(ended: Result<(), ScriptError>) -> Result<u8, Failure> {
    ended.map_err(Failure::Script)?;
    Ok(0)
}

/// Checks a script. The status is 1 if it has a fault.
fn check<R: Read, O: Write>(alloc: Global, reader: &mut R, out: &mut O) -> Result<u8, Failure> {
    let findings = check_script(alloc, reader, out).map_err(Failure::Script)?;
    Ok(if findings.first.is_some() { 1 } else { 0 })
}
