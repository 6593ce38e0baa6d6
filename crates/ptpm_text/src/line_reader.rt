//! A reader, line by line.

ghost use Rattle.std.specs.Prelude.{[], ◌≡◌, ◌≤◌, ◌∷◌, IfErr, IfNone, IfOk, IfSome, IsSome, OnOk, OnSome, false, is_some, option_map, true};
ghost use Rattle.std.specs.Io.KnownBytes.{Consumes, IsAtEnd, Keeps};
ghost use Rattle.std.specs.Io.Buffered.{reader_buffer};
ghost use Rattle.std.specs.Str.{is_utf8};
ghost use Rattle.std.specs.Str.Lines.{strip_carriage_return};
ghost use Rattle.memchr.specs.Find.{IsFirstByte, is_byte};
ghost use Rattle.ptpm_text.specs.Lines.{LeavesLong, ReadsNext, given, reader_left, reader_line};
ghost use Rattle.ptpm_text.specs.declared.line_reader.LineReadError.TheVariants as errors;

use memchr::memchr;
use ptpm_codec::OutOfMemory;
use std::alloc::Global;
use std::io::{BufRead, BufReader, Read};

/// A line has at most this many octets before its line feed (this project's profile).
const LINE_OCTETS: usize = 4_096;

/// Why the next line was not read.
#[derive(Clone, Copy, Debug, PartialEq, Eq)]
pub enum LineReadError {
    /// Reading failed, in whatever way. It is not tried again.
    ReadFault,
    /// The line has over 4,096 octets. The line after it is next.
    TooLong,
    /// Memory was refused.
    OutOfMemory,
}

/// A reader, line by line. At most one line's octets are kept, and they are written over by the next.
#[derive(Drop)]
pub struct LineReader<R> {
    reader: BufReader<R>,
    /// The line that was read last, without its end.
    line: Vec<u8>,
    /// Whether that line is too long, and the rest of it is still to be read over.
    is_cut: bool,
}

impl<R: Read + Drop> LineReader<R> {
    /// The lines of a reader. Takes the memory for one line and for the reader's buffer.
    pub fn new(alloc: Global, reader: R) -> Result<LineReader<R>, OutOfMemory>
        ensures octets { IfOk result
            (λ l. IfSome (R.remaining reader) (λ octets. reader_left R.remaining l ≡ Some octets)) }
    {
        let line = Vec::with_capacity(alloc, LINE_OCTETS).map_err(|_| OutOfMemory)?;
        let reader = BufReader::new(alloc, reader).map_err(|_| OutOfMemory)?;
        Ok(LineReader {
            reader,
            line,
            is_cut: false,
        })
    }

    /// Reads the next line; false if there are no more. The line that was read before is gone.
    ///
    /// A line ends with a line feed, or with a carriage return and a line feed. The last may lack its end, and then a carriage
    /// return stays. After TooLong the line after the long one is next.
    pub fn read(&mut self) -> Result<bool, LineReadError>
        ensures next { IfOk result
            (λ more.
            ReadsNext (reader_left R.remaining self.old) more
            (reader_line self.new) (reader_left R.remaining self.new)) }
        ensures long { IfErr result
            (λ e.
            e ≡ errors.TooLong
            → LeavesLong (reader_left R.remaining self.old) (reader_left R.remaining self.new)) }
    {
        match self.line_at_hand() {
            Some(size) => self.take_line(size),
            None => self.read_by_octets(),
        }
    }

    /// Whether the next line, its end too, is at hand, so that reading it waits for nothing.
    pub fn is_next_at_hand(&self) -> bool {
        self.line_at_hand().is_some()
    }

    /// The text of the line that was read last; none if its octets are no UTF-8.
    #[tactic(auto, using(crate::proofs::NextLine::text_laws))]
    pub fn text(&self) -> Option<&str>
        ensures text { IfSome result (λ text. text.now ≡ reader_line self.now) }
        ensures utf8 { is_utf8 (reader_line self.now) ≡ is_some result }
    {
        match std::str::from_utf8(self.line.as_slice()) {
            Ok(text) => Some(text),
            Err(_) => None,
        }
    }

    /// How many octets come before the next line feed, if it is at hand and ends a line that may be read.
    fn line_at_hand(&self) -> Option<usize>
        ensures feed { IfSome result
            (λ size. IsFirstByte (is_byte 10) (reader_buffer self.now.reader) (Some size)) }
        ensures short { IfSome result (λ size. size ≤ 4096) }
        ensures whole { IsSome result → self.now.is_cut ≡ false }
    {
        match memchr(b'\n', self.reader.buffer()) {
            Some(size) if size <= LINE_OCTETS && !self.is_cut => Some(size),
            _ => None,
        }
    }

    /// Takes the next line, which is at hand, with this many octets before its line feed.
    #[tactic(auto, using(crate::proofs::NextLine::take_line_laws))]
    fn take_line(&mut self, size: usize) -> Result<bool, LineReadError>
        requires feed { IsFirstByte (is_byte 10) (reader_buffer self.old.reader) (Some size) }
        requires short { size ≤ 4096 }
        requires whole { self.old.is_cut ≡ false }
        ensures next { IfOk result
            (λ more.
            ReadsNext (reader_left R.remaining self.old) more
            (reader_line self.new) (reader_left R.remaining self.new)) }
        ensures fault { IfErr result (λ e. e ≡ errors.OutOfMemory) }
    {
        let ahead = self.reader.buffer();
        self.line.clear();
        if self.line.extend_from_slice(&ahead[..size]).is_err() {
            return Err(LineReadError::OutOfMemory);
        }
        self.reader.consume(size + 1);
        self.drop_return();
        Ok(true)
    }

    /// What `read` does, octet by octet, however much is at hand.
    #[tactic(auto, using(crate::proofs::NextLine::read_by_octets_laws))]
    fn read_by_octets(&mut self) -> Result<bool, LineReadError>
        ensures next { IfOk result
            (λ more.
            ReadsNext (reader_left R.remaining self.old) more
            (reader_line self.new) (reader_left R.remaining self.new)) }
        ensures long { IfErr result
            (λ e.
            e ≡ errors.TooLong
            → LeavesLong (reader_left R.remaining self.old) (reader_left R.remaining self.new)) }
    {
        self.line.clear();
        match self.read_octet()? {
            None => Ok(false),
            Some(first) => {
                self.read_rest(first)?;
                Ok(true)
            }
        }
    }

    /// Reads the rest of a line, after its first octet. Of a line that is too long no more is read than shows it.
    fn read_rest(&mut self, first: u8) -> Result<(), LineReadError>
        requires empty { reader_line self.old ≡ [] }
        requires whole { self.old.is_cut ≡ false }
        ensures next { OnOk result
            (ReadsNext (option_map (λ octets. first ∷ octets) (reader_left R.remaining self.old)) true
            (reader_line self.new) (reader_left R.remaining self.new)) }
        ensures long { IfErr result
            (λ e.
            e ≡ errors.TooLong
            → LeavesLong (option_map (λ octets. first ∷ octets) (reader_left R.remaining self.old))
            (reader_left R.remaining self.new)) }
    {
        let mut next = Some(first);
        while let Some(octet) = next {
            if octet == b'\n' {
                self.drop_return();
                return Ok(());
            }
            if self.line.len() == LINE_OCTETS {
                self.is_cut = true;
                return Err(LineReadError::TooLong);
            }
            self.line
                .push(octet)
                .map_err(|_| LineReadError::OutOfMemory)?;
            next = self.read_octet()?;
        }
        Ok(())
    }

    /// Takes the carriage return off the line that ends with one.
    fn drop_return(&mut self)
        ensures line { reader_line self.new ≡ strip_carriage_return (reader_line self.old) }
        ensures reader { self.new.reader ≡ self.old.reader }
        ensures cut { self.new.is_cut ≡ self.old.is_cut }
    {
        if self.line.last() == Some(&b'\r') {
            self.line.pop();
        }
    }

    /// The next octet that is left; none at the end.
    fn read_octet(&mut self) -> Result<Option<u8>, LineReadError>
        ensures octet { IfOk result
            (λ o.
            Consumes (reader_left R.remaining self.old) (reader_left R.remaining self.new) (given o)) }
        ensures end { IfOk result
            (λ o.
            IfNone o
            (OnSome (reader_left R.remaining self.old)
            (IsAtEnd (reader_left R.remaining self.new)))) }
        ensures whole { OnOk result (self.new.is_cut ≡ false) }
        ensures line { reader_line self.new ≡ reader_line self.old }
        ensures fault { IfErr result (λ e. e ≡ errors.ReadFault) }
    {
        self.leave_long_line()?;
        next_octet(&mut self.reader)
    }

    /// Reads over the rest of a line that is too long.
    fn leave_long_line(&mut self) -> Result<(), LineReadError>
        ensures left { OnOk result
            (Keeps (reader_left R.remaining self.old) (reader_left R.remaining self.new)) }
        ensures whole { OnOk result (self.new.is_cut ≡ false) }
        ensures line { reader_line self.new ≡ reader_line self.old }
        ensures fault { IfErr result (λ e. e ≡ errors.ReadFault) }
    {
        if self.is_cut {
            self.reader
                .skip_until(b'\n')
                .map_err(|_| LineReadError::ReadFault)?;
            self.is_cut = false;
        }
        Ok(())
    }
}

/// The next octet of a reader that shows what it has read ahead; none at its end. What fails is not tried again.
#[tactic(auto, using(crate::proofs::NextLine::next_octet_laws))]
fn next_octet<B: BufRead>(reader: &mut B) -> Result<Option<u8>, LineReadError>
    ensures octet { IfOk result
        (λ o. Consumes (B.remaining reader.old) (B.remaining reader.new) (given o)) }
    ensures end { IfOk result
        (λ o. IfNone o (OnSome (B.remaining reader.old) (IsAtEnd (B.remaining reader.new)))) }
    ensures fault { IfErr result (λ e. e ≡ errors.ReadFault) }
{
    let ahead = match reader.fill_buf() {
        Ok(ahead) => ahead,
        Err(_) => return Err(LineReadError::ReadFault),
    };
    let Some(octet) = ahead.first().copied() else {
        return Ok(None);
    };
    reader.consume(1);
    Ok(Some(octet))
}
