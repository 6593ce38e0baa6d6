//! A script of requests, made into one of everything that happens to them.

ghost use Rattle.std.specs.Prelude.{◌≡◌, ◌≤◌, ◌==◌, ◌+◌, ◌++◌, ◌∷◌, IfOk, IfSome, OnOk, [], codes, count_by};
ghost use Rattle.std.specs.Io.KnownBytes.{Appends};
ghost use Rattle.std.specs.Result.{result_err};
ghost use Rattle.ptpm_schedule.specs.Going.{Went, asked_in};
ghost use Rattle.ptpm_schedule.specs.Scheduled.{HasScheduled, IsScheduled, is_asked, unasked};

use crate::chances::Chances;
use crate::left_out::LeftOut;
use crate::traffic::{Gone, Traffic};
use ptpm_world::{DIVIDER, Event, EventError, EventLine, ScriptError, World, read_script};
use std::alloc::Global;
use std::io;
use std::io::{Read, Write};

/// Reads a script whose events are those of sessions: `begin`, `resume` and `retune`. Writes a whole script with the same network.
/// In it each request is sent, and its messages are delivered in an order that is drawn, some never and some twice. It is sent
/// again until it is answered or has no attempts left.
///
/// An event waits until the request that its session began before is answered or has no attempts left. If it is refused then, it
/// has no line, and is reported on `err`; what `err` does changes nothing. Each line that is written is one that happens, and
/// none of them delivers a frame late (`IsScheduled`). The same chances and the same script give the same octets.
///
/// A script that cannot be read is refused as `run_script` refuses it; any other event is UnknownWord. Nothing is written then. Ends
/// for every reader. A script that would have over 2,000,000 lines ends with TooManyLines after as many.
#[inline(never)]
pub fn schedule<R: Read + Drop, W: Write, E: Write>(
    alloc: Global,
    chances: Chances,
    reader: R,
    out: &mut W,
    err: &mut E,
) -> Result<(), ScriptError>
    ensures scheduled { OnOk result (IsScheduled (W.contents out.old) (W.contents out.new)) }
    ensures read { IfSome (R.remaining reader) (λ input. HasScheduled input (W.contents out.old) (W.contents out.new) result) }
{
    let script = read_script(alloc, reader)?;
    judge(script.lines.as_slice())?;
    let mut world = World::new(alloc, &script.network)?;
    let lines = write_network(script.text.as_str(), out)?;
    let mut traffic = Traffic::new(alloc, &script.network, chances, lines);
    play(&mut traffic, script.lines.as_slice(), &mut world, out, err)?;
    out.flush()?;
    Ok(())
}

/// Lets the events of a script happen, each in its turn, and what follows of them. Those that are refused are reported.
fn play<W: Write, E: Write>(
    traffic: &mut Traffic<'_>,
    lines: &[EventLine],
    world: &mut World,
    out: &mut W,
    err: &mut E,
) -> Gone
    ensures { Went result (asked_in lines.now) world.old world.new (W.contents out.old)
        (W.contents out.new) traffic.old.lines traffic.new.lines }
{
    for line in lines {
        if let Some(why) = traffic.ask(world, &line.event, out)? {
            let line = line.number;
            let _ = writeln!(err, "ptpm: {}", LeftOut { line, why });
        }
    }
    traffic.finish(world, out)
}

/// Refuses the first line whose event is none of `begin`, `resume` and `retune`.
fn judge(lines: &[EventLine]) -> Result<(), ScriptError>
    ensures { result_err result ≡ unasked lines.now }
{
    for line in lines {
        if !is_asked(&line.event) {
            return Err(ScriptError::BadLine(line.number, EventError::UnknownWord));
        }
    }
    Ok(())
}

/// Whether a session is asked for an event.
fn is_asked(event: &Event) -> bool
    ensures { result ≡ is_asked event.now }
{
    match event {
        Event::Begin(..) | Event::Resume(..) | Event::Retune(..) => true,
        Event::Send(_) | Event::Deliver(_) | Event::Stranger(..) => false,
    }
}

/// Writes the network file and the divider. Answers how many lines that were.
fn write_network<W: Write>(text: &str, out: &mut W) -> io::Result<u64>
    ensures written { OnOk result (Appends (W.contents out.old) (W.contents out.new) (text.now ++ codes "%%" ++ 10 ∷ [])) }
    ensures counted { IfOk result (λ lines. lines ≤ count_by (λ octet. octet == 10) text.now + 1) }
{
    writeln!(out, "{text}{DIVIDER}")?;
    let ends = text.bytes().filter(|octet| *octet == b'\n').count();
    Ok((ends as u64).saturating_add(1))
}
