//! The lines of a script.

ghost use Rattle.std.specs.Prelude.{◌≡◌, ◌≤◌, ◌+◌, IfErr, IfOk, IfSome, None, OnOk, Ok, Some, false, true};
ghost use Rattle.std.specs.Io.KnownBytes.{Keeps};

use crate::script_error::ScriptError;
use ptpm_text::{LineReadError, LineReader};
use std::alloc::Global;
use std::io::{Read, Write};

/// A script has at most this many lines (this project's profile).
pub const SCRIPT_LINES: u32 = 2_000_000;

/// A reader of a script, line by line.
#[derive(Drop)]
pub struct Lines<R> {
    reader: LineReader<R>,
    /// How many lines were read.
    count: u32,
    ghost few: { count ≤ 2000000 },
}

impl<R: Read + Drop> Lines<R> {
    ghost use Rattle.ptpm_world.specs.Lines.{latest_line, left_in, line_count};
    ghost use Rattle.ptpm_world.specs.ScriptError.{HasNextFault, ReadsWhole, is_of_reading, is_outside, text_fault};

    /// The lines of a reader. Takes the memory for one line and for the reader's buffer.
    pub fn new(alloc: Global, reader: R) -> Result<Lines<R>, ScriptError>
        ensures octets { IfOk result
            (λ l. IfSome (R.remaining reader) (λ octets. left_in R.remaining l ≡ Some octets)) }
        ensures count { IfOk result (λ l. line_count l ≡ 0) }
        ensures fault { IfErr result (λ e. is_outside e ≡ true) }
        ensures reading { IfErr result (λ e. is_of_reading e ≡ true) }
    {
        let reader = LineReader::new(alloc, reader)?;
        Ok(Lines { reader, count: 0 })
    }

    /// Reads the next line; false if there are no more. The line that was read before is gone.
    ///
    /// A line ends with a line feed, or with a carriage return and a line feed. The last may lack its end, and then a carriage
    /// return stays.
    pub fn read(&mut self) -> Result<bool, ScriptError>
        ensures count { result ≡ Ok true → line_count self.new ≡ line_count self.old + 1 }
        ensures same { result ≡ Ok false → line_count self.new ≡ line_count self.old }
        ensures whole { IfOk result
            (λ more.
            ReadsWhole (line_count self.old + 1) (left_in R.remaining self.old) more
            (latest_line self.new) (left_in R.remaining self.new)) }
        ensures fault { IfErr result
            (λ e.
            is_outside e ≡ false
            → HasNextFault (line_count self.old + 1) (left_in R.remaining self.old) e) }
        ensures reading { IfErr result (λ e. is_of_reading e ≡ true) }
    {
        if self.count == SCRIPT_LINES {
            return self.read_past_the_last();
        }
        match self.reader.read() {
            Ok(true) => {
                self.count += 1;
                Ok(true)
            }
            Ok(false) => Ok(false),
            Err(LineReadError::TooLong) => Err(ScriptError::LineTooLong(self.count + 1)),
            Err(LineReadError::ReadFault) => Err(ScriptError::ReadFault),
            Err(LineReadError::OutOfMemory) => Err(ScriptError::OutOfMemory),
        }
    }

    /// What `read` does after the last line that a script may have: a further line is one too many.
    #[tactic(auto, using(crate::proofs::FaultLemmas::whole_none, crate::proofs::FaultLemmas::next_many, crate::proofs::FaultLemmas::long_many))]
    fn read_past_the_last(&mut self) -> Result<bool, ScriptError>
        requires full { self.old.count ≡ 2000000 }
        ensures same { self.new.count ≡ self.old.count }
        ensures none { IfOk result (λ more. more ≡ false) }
        ensures whole { IfOk result
            (λ more.
            ReadsWhole (line_count self.old + 1) (left_in R.remaining self.old) more
            (latest_line self.new) (left_in R.remaining self.new)) }
        ensures fault { IfErr result
            (λ e.
            is_outside e ≡ false
            → HasNextFault (line_count self.old + 1) (left_in R.remaining self.old) e) }
        ensures reading { IfErr result (λ e. is_of_reading e ≡ true) }
    {
        match self.reader.read() {
            Ok(false) => Ok(false),
            Ok(true) | Err(LineReadError::TooLong) => Err(ScriptError::TooManyLines),
            Err(LineReadError::ReadFault) => Err(ScriptError::ReadFault),
            Err(LineReadError::OutOfMemory) => Err(ScriptError::OutOfMemory),
        }
    }

    /// The same. What was written is flushed before, if that line may have to be waited for.
    pub(crate) fn read_shown<W: Write>(&mut self, out: &mut W) -> Result<bool, ScriptError>
        ensures count { result ≡ Ok true → line_count self.new ≡ line_count self.old + 1 }
        ensures whole { IfOk result
            (λ more.
            ReadsWhole (line_count self.old + 1) (left_in R.remaining self.old) more
            (latest_line self.new) (left_in R.remaining self.new)) }
        ensures fault { IfErr result
            (λ e.
            is_outside e ≡ false
            → HasNextFault (line_count self.old + 1) (left_in R.remaining self.old) e) }
        ensures kept { Keeps (W.contents out.old) (W.contents out.new) }
    {
        if !self.reader.is_next_at_hand() {
            out.flush()?;
        }
        self.read()
    }

    /// How many lines were read.
    pub fn count(&self) -> u32
        ensures { result ≡ line_count self.now }
    {
        self.count
    }

    /// The line that was read last, without its end.
    pub fn text(&self) -> Result<&str, ScriptError>
        ensures text { IfOk result (λ text. text.now ≡ latest_line self.now) }
        ensures none { OnOk result (text_fault (line_count self.now) (latest_line self.now) ≡ None) }
        ensures fault { IfErr result (λ e. text_fault (line_count self.now) (latest_line self.now) ≡ Some e) }
        ensures reading { IfErr result (λ e. is_of_reading e ≡ true) }
    {
        match self.reader.text() {
            Some(line) => Ok(line),
            None => Err(ScriptError::NotText(self.count)),
        }
    }
}
