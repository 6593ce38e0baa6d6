//! `ptpm plan` at the command line.

use crate::files::{MOST_PLAN, read_file};
use ptpm_commands::Fault;
use ptpm_plan::{PlanFault, PlanOptions, print_plan, print_questions};
use std::alloc::Global;
use std::io;
use std::io::{Read, Write};
use std::rt::Files;

/// What `plan` is asked for.
#[derive(Clone, Copy)]
pub(crate) struct PlanWords<'a> {
    /// The path of the plan file.
    pub(crate) file: &'a str,
    pub(crate) shown: PlanShown,
}

/// What `plan` prints.
#[derive(Clone, Copy)]
pub(crate) enum PlanShown {
    /// The plan, by the answers on standard input.
    Plan(PlanOptions),
    /// What is to be asked first.
    Questions,
}

/// Prints what is asked for, and answers the exit status. That is the plan's, or 2 if the file is refused, with a line on `err`.
pub(crate) fn plan<F: Files, R: Read, O: Write, E: Write>(
    alloc: Global,
    files: &F,
    words: PlanWords<'_>,
    reader: &mut R,
    out: &mut O,
    err: &mut E,
) -> Result<u8, Fault> {
    let text = match read_file(alloc, files, words.file, MOST_PLAN) {
        Ok(text) => text,
        Err(error) if error.kind() == io::ErrorKind::OutOfMemory => return Err(Fault::OutOfMemory),
        Err(error) => {
            let _ = writeln!(err, "{}: {error}", words.file);
            return Ok(2);
        }
    };
    let printed = match words.shown {
        PlanShown::Plan(options) => print_plan(alloc, text.as_slice(), options, reader, out),
        PlanShown::Questions => questions(alloc, text.as_slice(), out),
    };
    match printed {
        Ok(status) => Ok(status),
        Err(PlanFault::Other(fault)) => Err(fault),
        Err(PlanFault::File(fault)) => {
            let _ = writeln!(err, "{}: {fault}", words.file);
            Ok(2)
        }
    }
}

fn questions<O: Write>(alloc: Global, text: &[u8], out: &mut O) -> Result<u8, PlanFault> {
    print_questions(alloc, text, out)?;
    Ok(0)
}
