//! Every fault of a script, without running it.

ghost use Rattle.std.specs.Prelude.{◌≡◌, ◌<◌, ◌+◌, ℕ, IfErr, IfOk, IfSome, Ok, OnOk, Some, false, option_map, true};
ghost use Rattle.std.specs.Option.{option_or};
ghost use Rattle.std.specs.Result.{result_err};
ghost use Rattle.ptpm_world.specs.Findings.{IsCounted, events_fault};
ghost use Rattle.ptpm_script.specs.NetworkText.{network_of};
ghost use Rattle.ptpm_world.specs.declared.script_error.ScriptError.TheVariants.{BadNetwork};
ghost use Rattle.ptpm_text.specs.Lines.{whole_lines};
ghost use Rattle.ptpm_world.specs.Lines.{latest_line, left_in, line_count};
ghost use Rattle.ptpm_world.specs.Script.{event_of, scripted, scripted_from};
ghost use Rattle.ptpm_world.specs.ScriptError.{ReadsWhole, is_of_reading, is_outside, text_fault};

use crate::lines::Lines;
use crate::script::{is_skipped, read_text};
use crate::script_error::ScriptError;
use crate::writing::Written;
use ptpm_script::{Document, event_fault};
use std::alloc::Global;
use std::io::{Read, Write};

/// What was found in a script.
#[derive(Clone, Copy, Debug, PartialEq, Eq)]
pub struct Findings {
    /// The first fault, as `run_script` names it; `None` if there is none.
    pub first: Option<ScriptError>,
    /// How many faults were written.
    pub count: usize,
}

/// Reads a network file, or a script, and writes each of its faults on a line of its own. No event happens. The first fault is the
/// one that `run_script` answers for the same octets.
///
/// An error says nothing of the script: reading or writing failed, or memory was refused. After a line that is too long, and
/// after one of the network file that is not UTF-8, nothing is read.
#[inline(never)]
pub fn check_script<R: Read + Drop, W: Write>(
    alloc: Global,
    reader: R,
    out: &mut W,
) -> Result<Findings, ScriptError>
    ensures first { IfOk result
        (λ found.
        IfSome (R.remaining reader) (λ input. found.first ≡ result_err (scripted input).end)) }
    ensures counted { IfOk result IsCounted }
    ensures outside { IfErr result (λ e. is_outside e ≡ true) }
{
    let mut script = Lines::new(alloc, reader)?;
    let findings = check_lines(alloc, &mut script, out)?;
    out.flush()?;
    Ok(findings)
}

impl Findings {
    /// Counts this many faults; this is the first.
    fn note(&mut self, fault: ScriptError, count: usize)
        requires { 0 < count }
        ensures first { self.new.first ≡ option_or self.old.first (Some fault) }
        ensures counted { IsCounted self.new }
    {
        self.first = self.first.or(Some(fault));
        self.count = self.count.saturating_add(count);
    }
}

/// Writes the faults of all lines: of the network file, and of the events after it.
fn check_lines<R: Read + Drop, W: Write>(
    alloc: Global,
    script: &mut Lines<R>,
    out: &mut W,
) -> Result<Findings, ScriptError>
    ensures first { IfOk result
        (λ found.
        IfSome (left_in R.remaining script.old)
        (λ octets. found.first ≡ result_err (scripted_from (line_count script.old + 1) octets).end)) }
    ensures counted { IfOk result IsCounted }
    ensures outside { IfErr result (λ e. is_outside e ≡ true) }
{
    let mut findings = Findings {
        first: None,
        count: 0,
    };
    match read_text(alloc, script) {
        Ok(text) => {
            check_network(alloc, text.as_str(), &mut findings, out)?;
            check_events(alloc, script, &mut findings, out)?;
        }
        Err(fault) => note_line(fault, &mut findings, out)?,
    }
    Ok(findings)
}

/// Writes the faults of a network file.
fn check_network<W: Write>(
    alloc: Global,
    text: &str,
    findings: &mut Findings,
    out: &mut W,
) -> Written
    ensures first { OnOk result
        (findings.new.first
        ≡ option_or findings.old.first
        (option_map BadNetwork (result_err (network_of text.now)))) }
    ensures counted { IsCounted findings.old → OnOk result (IsCounted findings.new) }
    ensures outside { IfErr result (λ e. is_outside e ≡ true) }
{
    let document = Document::of(alloc, text)?;
    let faults = document.faults(alloc)?;
    for fault in faults.as_slice() {
        writeln!(out, "{fault}")?;
    }
    if let Some(first) = faults.first() {
        findings.note(ScriptError::BadNetwork(first.class), faults.len());
    }
    Ok(())
}

/// Writes the faults of all further lines, each with its number in all that is read. Lines are counted from 1 here.
fn check_events<R: Read + Drop, W: Write>(
    alloc: Global,
    script: &mut Lines<R>,
    findings: &mut Findings,
    out: &mut W,
) -> Written
    ensures first { OnOk result
        (IfSome (left_in R.remaining script.old)
        (λ octets.
        findings.new.first
        ≡ option_or findings.old.first
        (events_fault (line_count script.old + 1) 1 (whole_lines octets)))) }
    ensures counted { IsCounted findings.old → OnOk result (IsCounted findings.new) }
    ensures outside { IfErr result (λ e. is_outside e ≡ true) }
{
    let mut number = 0;
    while read_next(script, findings, out)? {
        number += 1;
        check_event(alloc, script, number, findings, out)?;
    }
    Ok(())
}

/// Reads the next line; false if there are no more, or none that may be read, which is written.
fn read_next<R: Read + Drop, W: Write>(
    script: &mut Lines<R>,
    findings: &mut Findings,
    out: &mut W,
) -> Result<bool, ScriptError>
    ensures count { result ≡ Ok true → line_count script.new ≡ line_count script.old + 1 }
    ensures same { result ≡ Ok true → findings.new.first ≡ findings.old.first }
    ensures line { result ≡ Ok true
        → ReadsWhole (line_count script.old + 1) (left_in R.remaining script.old) true
        (latest_line script.new) (left_in R.remaining script.new) }
    ensures end { result ≡ Ok false
        → IfSome (left_in R.remaining script.old)
        (λ octets.
        (place : ℕ)
        → findings.new.first
        ≡ option_or findings.old.first
        (events_fault (line_count script.old + 1) place (whole_lines octets))) }
    ensures counted { IsCounted findings.old → OnOk result (IsCounted findings.new) }
    ensures outside { IfErr result (λ e. is_outside e ≡ true) }
{
    match script.read() {
        Ok(more) => Ok(more),
        Err(fault) => {
            note_line(fault, findings, out)?;
            Ok(false)
        }
    }
}

/// Writes the fault of the line that was read last, if it has one.
fn check_event<R: Read + Drop, W: Write>(
    alloc: Global,
    script: &Lines<R>,
    number: u32,
    findings: &mut Findings,
    out: &mut W,
) -> Written
    ensures first { OnOk result
        (findings.new.first
        ≡ option_or findings.old.first
        (option_or (text_fault (line_count script.now) (latest_line script.now))
        (result_err (event_of number (latest_line script.now))))) }
    ensures counted { IsCounted findings.old → OnOk result (IsCounted findings.new) }
    ensures outside { IfErr result (λ e. is_outside e ≡ true) }
{
    let line = match script.text() {
        Ok(line) => line,
        Err(fault) => return note_line(fault, findings, out),
    };
    if is_skipped(line) {
        return Ok(());
    }
    if let Some(fault) = event_fault(alloc, line)? {
        writeln!(out, "line {}: {fault}", script.count())?;
        findings.note(ScriptError::BadLine(number, fault.error), 1);
    }
    Ok(())
}

/// Writes the fault of a line that can't be read as one. If reading itself failed, that is the answer.
fn note_line<W: Write>(fault: ScriptError, findings: &mut Findings, out: &mut W) -> Written
    requires { is_of_reading fault ≡ true }
    ensures first { OnOk result (findings.new.first ≡ option_or findings.old.first (Some fault)) }
    ensures inside { OnOk result (is_outside fault ≡ false) }
    ensures counted { IsCounted findings.old → OnOk result (IsCounted findings.new) }
    ensures outside { IfErr result (λ e. is_outside e ≡ true) }
{
    match fault {
        ScriptError::LineTooLong(line) => writeln!(
            out,
            "line {line}: at most 4096 octets; nothing behind it is read"
        )?,
        ScriptError::TooManyLines => writeln!(
            out,
            "file: at most 2000000 lines; nothing behind them is read"
        )?,
        ScriptError::NotText(line) => writeln!(out, "line {line}: not UTF-8")?,
        outside => return Err(outside),
    }
    findings.note(fault, 1);
    Ok(())
}
