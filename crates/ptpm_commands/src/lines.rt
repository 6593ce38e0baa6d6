//! Standard input line by line, a datagram each.

ghost use Rattle.std.specs.Prelude.{◌≡◌, ◌⊎◌, Err, IfErr, IfOk, IfSome, Ok, OnErr, OnOk, Some, false, option_map, true};
ghost use Rattle.std.specs.Io.KnownBytes.{Keeps};
ghost use Rattle.std.specs.Str.{is_utf8};
ghost use Rattle.ptpm_text.specs.Lines.{ReadsNext};
ghost use Rattle.ptpm_commands.specs.Faults.{IsAtLine, is_outside};
ghost use Rattle.ptpm_commands.specs.Lines.{FailsNext, datagram_in, latest_line, left_in, row_in, row_value};

use crate::columns::{Row, row_of};
use crate::datagram_line::datagram_of;
use crate::faults::{Fault, LineFault};
use ptpm_text::{LineReadError, LineReader};
use std::alloc::Global;
use std::io::{Read, Write};

/// The lines of a reader. At most one is kept, and it is written over by the next.
#[derive(Drop)]
pub struct Lines<R> {
    reader: LineReader<R>,
}

impl<R: Read + Drop> Lines<R> {
    /// The lines of a reader. Takes the memory for one line and for the reader's buffer.
    pub fn new(alloc: Global, reader: R) -> Result<Lines<R>, Fault>
        ensures octets { IfOk result (λ l. IfSome (R.remaining reader) (λ octets. left_in R.remaining l ≡ Some octets)) }
        ensures fault { IfErr result (λ e. is_outside e ≡ true) }
    {
        let reader = LineReader::new(alloc, reader).map_err(|_| Fault::OutOfMemory)?;
        Ok(Lines { reader })
    }

    /// Reads the next line, which has this number; false if there are no more. The line that was read before is gone.
    ///
    /// A line ends with a line feed, or with a carriage return and a line feed. The last may lack its end. After LineTooLong
    /// the line after the long one is next.
    pub fn read(&mut self, number: u64) -> Result<bool, Fault>
        ensures next { IfOk result
            (λ more.
            ReadsNext (left_in R.remaining self.old) more
            (latest_line self.new) (left_in R.remaining self.new)) }
        ensures line { IfErr result (λ e. IsAtLine number e) }
        ensures fault { IfErr result (λ e. FailsNext number (left_in R.remaining self.old) (left_in R.remaining self.new) e) }
    {
        match self.reader.read() {
            Ok(more) => Ok(more),
            Err(LineReadError::TooLong) => Err(Fault::LineTooLong(number)),
            Err(LineReadError::ReadFault) => Err(Fault::ReadFault),
            Err(LineReadError::OutOfMemory) => Err(Fault::OutOfMemory),
        }
    }

    /// Flushes what was printed, unless the next line is at hand.
    pub(crate) fn flush_before_wait<O: Write>(&self, out: &mut O) -> Result<(), Fault>
        ensures kept { OnOk result (Keeps (O.contents out.old) (O.contents out.new)) }
        ensures fault { IfErr result (λ e. e ≡ Fault.WriteFault) }
    {
        if !self.reader.is_next_at_hand() {
            out.flush()?;
        }
        Ok(())
    }

    /// The columns and the datagram of the line that was read last, which has this number.
    pub(crate) fn row(&self, alloc: Global, number: u64) -> Result<Row<'_>, Fault>
        ensures row { IfOk result (λ row. row_in number (latest_line self.now) ≡ Ok (row_value row)) }
        ensures line { IfErr result (λ e. IsAtLine number e) }
        ensures fault { IfErr result (λ e. (is_outside e ≡ true) ⊎ (row_in number (latest_line self.now) ≡ Err e)) }
    {
        let line = self.text(number)?;
        match row_of(alloc, line) {
            Ok(row) => Ok(row),
            Err(fault) => Err(fault.at_line(number)),
        }
    }

    /// The datagram of the line that was read last, which has this number; `None` if the line is `nothing`.
    #[tactic(auto, using(crate::proofs::CellLemmas::datagram_laws))]
    pub fn datagram(&self, alloc: Global, number: u64) -> Result<Option<Vec<u8>>, Fault>
        ensures datagram { IfOk result (λ d. datagram_in number (latest_line self.now) ≡ Ok (option_map (λ v. v.items) d)) }
        ensures line { IfErr result (λ e. IsAtLine number e) }
        ensures fault { IfErr result (λ e. (is_outside e ≡ true) ⊎ (datagram_in number (latest_line self.now) ≡ Err e)) }
    {
        let line = self.text(number)?;
        match datagram_of(alloc, line) {
            Ok(datagram) => Ok(datagram),
            Err(fault) => Err(fault.at_line(number)),
        }
    }

    /// The text of the line that was read last, which has this number.
    pub fn text(&self, number: u64) -> Result<&str, Fault>
        ensures text { IfOk result (λ text. text.now ≡ latest_line self.now) }
        ensures utf8 { OnOk result (is_utf8 (latest_line self.now) ≡ true) }
        ensures none { OnErr result (is_utf8 (latest_line self.now) ≡ false) }
        ensures fault { IfErr result (λ e. e ≡ Fault.BadLine number LineFault.BadHex) }
    {
        match self.reader.text() {
            Some(line) => Ok(line),
            None => Err(Fault::BadLine(number, LineFault::BadHex)),
        }
    }
}
