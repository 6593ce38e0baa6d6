//! A text that a writer takes whole, or, if it fails, a beginning of it.

ghost use Rattle.std.specs.Prelude.{IfSome};
ghost use Rattle.ptpm_world.specs.Writing.{Writes};

use crate::script_error::ScriptError;
use arrayvec::ArrayString;
use ptpm_codec::OutOfMemory;
use std::alloc::Global;
use std::fmt;
use std::io::{ErrorKind, Write};

/// Room for what is displayed without memory: a line of any event, and of a report whose value is short.
const SHORT: usize = 128;

/// Whether something was written.
pub(crate) type Written = Result<(), ScriptError>;

/// What a value displays, in one piece, since each piece costs a writer as much again.
#[inline(always)]
pub(crate) fn write_shown<W: Write, D: fmt::Display>(
    alloc: Global,
    value: &D,
    out: &mut W,
) -> Written
    ensures { IfSome (D.output value.now)
        (λ text. Writes text (W.contents out.old) (W.contents out.new) result) }
{
    let mut text = ArrayString::<SHORT>::new();
    match fmt::Write::write(&mut text, value) {
        Ok(()) => write_whole(text.as_str().as_bytes(), out),
        Err(_) => write_long(alloc, value, out),
    }
}

/// The same for a long text. It takes memory, and if there is none, nothing is written.
#[cold]
#[inline(never)]
fn write_long<W: Write, D: fmt::Display>(alloc: Global, value: &D, out: &mut W) -> Written
    ensures { IfSome (D.output value.now)
        (λ text. Writes text (W.contents out.old) (W.contents out.new) result) }
{
    let text = value.to_string(alloc).map_err(|_| OutOfMemory)?;
    write_whole(text.as_bytes(), out)
}

/// Writes octets whole. An interrupted write is tried again. A writer that takes nothing has failed.
fn write_whole<W: Write>(octets: &[u8], out: &mut W) -> Written
    ensures { Writes octets.now (W.contents out.old) (W.contents out.new) result }
{
    let mut rest = octets;
    for _ in 0..u64::MAX {
        if rest.is_empty() {
            return Ok(());
        }
        match out.write(rest) {
            Ok(0) => return Err(ScriptError::WriteFault),
            Ok(count) => rest = &rest[count..],
            Err(error) => {
                if error.kind() != ErrorKind::Interrupted {
                    return Err(ScriptError::WriteFault);
                }
            }
        }
    }
    Err(ScriptError::WriteFault)
}
