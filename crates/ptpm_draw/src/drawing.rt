//! A script, drawn.

ghost use Rattle.std.specs.Prelude.{◌≡◌, IfErr, IfSome, OnOk, map, true};
ghost use Rattle.ptpm_draw.specs.Drawing.{HasDrawn, IsSelection, ShowsLines};
ghost use Rattle.ptpm_world.specs.ScriptError.{is_of_writing};

use crate::chart::Chart;
use crate::chosen::Chosen;
use crate::picture::Picture;
use crate::selection::Selection;
use ptpm_world::{ScriptError, read_script};
use std::alloc::Global;
use std::io::{Read, Write};

/// Reads a network file, the line `%%` and events from a reader, and lets all events happen. Writes a picture of those that are
/// chosen, in SVG 1.1: a message sequence chart. Each of them has a part of its own there, which begins with the number of its
/// line.
///
/// A script that cannot be read is refused as `run_script` refuses it, and then nothing is written. Ends for every reader. The
/// world that runs is in a frame of its own, so that no other subcommand pays for it.
#[inline(never)]
pub fn draw<R: Read + Drop, W: Write>(
    alloc: Global,
    chosen: Chosen,
    reader: R,
    out: &mut W,
) -> Result<(), ScriptError>
    ensures { IfSome (R.remaining reader)
        (λ input. HasDrawn input chosen (W.contents out.old) (W.contents out.new) result) }
{
    let selection = read_selection(alloc, chosen, reader)?;
    write_selection(alloc, &selection, out)
}

/// Reads a script, lets all of its events happen, and keeps what is chosen.
#[inline(never)]
fn read_selection<R: Read + Drop>(
    alloc: Global,
    chosen: Chosen,
    reader: R,
) -> Result<Selection, ScriptError>
    ensures { IfSome (R.remaining reader) (λ input. IsSelection input chosen result) }
{
    let script = read_script(alloc, reader)?;
    let picture = Picture::of(alloc, &script)?;
    let is_delivered = picture.is_delivered(alloc)?;
    Ok(Selection::of(script, picture, is_delivered, chosen))
}

/// Writes the picture of what was chosen.
#[inline(never)]
fn write_selection<W: Write>(
    alloc: Global,
    selection: &Selection,
    out: &mut W,
) -> Result<(), ScriptError>
    ensures shown { OnOk result
        (ShowsLines (map (λ line. line.number) selection.now.lines.items)
        (W.contents out.old) (W.contents out.new)) }
    ensures fault { IfErr result (λ e. is_of_writing e ≡ true) }
{
    let Ok(chart) = Chart::new(alloc, selection) else {
        return Err(ScriptError::OutOfMemory);
    };
    chart.write(alloc, out)?;
    out.flush()?;
    Ok(())
}
