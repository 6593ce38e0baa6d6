//! `ptpm answer`: what a fresh clock sends for datagrams that come in at its port 1.

ghost use Rattle.std.specs.Prelude.{◌≡◌, [], IfErr, IfSome, IsErr, OnOk, false};
ghost use Rattle.std.specs.Io.KnownBytes.{Appends};
ghost use Rattle.hex.specs.Hex.{decode_of};
ghost use Rattle.ptpm_agent.specs.Turn.{turn};
ghost use Rattle.ptpm_agent.specs.Laws.{initial_clock_state};
ghost use Rattle.ptpm_commands.specs.Answer.{IsAnswered, IsAnsweredEach, answered, answered_each, answered_first, clock_shown, sent_line, sent_lines, state_shown};
ghost use Rattle.ptpm_commands.specs.Faults.{IsAtSomeLine, is_outside};
ghost use Rattle.ptpm_commands.specs.FreshClock.{fresh_sets, managers, shown};
ghost use Rattle.ptpm_commands.specs.Lines.{left_in};
ghost use Rattle.ptpm_commands.specs.Taken.{HasNumbers, HasTaken, line_datagram, taken};
ghost use Rattle.ptpm_data.specs.declared.ports.TheConstants.{INLINE_PORTS};
ghost use Rattle.ptpm_data.specs.Members.{HasPort};
ghost use Rattle.ptpm_table.specs.Managers.{IsFresh, clock_with};
ghost use Rattle.ptpm_text.specs.Lines.{whole_lines};

use crate::clock::{admit_manager, fresh_clock};
use crate::faults::{Done, Fault};
use crate::lines::Lines;
use ptpm_agent::Agent;
use ptpm_table::{BoundTable, Outbox, ReplyTable};
use ptpm_text::Hexadecimal;
use std::alloc::Global;
use std::io;
use std::io::{Read, Write};

/// Prints a line for each message that the clock sends for the datagram that the text spells in hexadecimal: its port and its
/// octets. Prints `nothing` if it sends none.
#[inline(never)]
pub fn answer<O: Write>(alloc: Global, text: &str, out: &mut O) -> Done
    ensures answered { OnOk result (IsAnswered text.now (O.contents out.old) (O.contents out.new)) }
    ensures fault { IfErr result (λ e. is_outside e ≡ false → (e ≡ Fault.BadHex) × IsErr (decode_of text.now)) }
{
    let datagram = hex::decode(alloc, text)?;
    answer_one(datagram.as_slice(), out)
}

/// Lets a fresh clock answer one datagram.
#[inline(never)]
fn answer_one<O: Write>(datagram: &[u8], out: &mut O) -> Done
    ensures answered { OnOk result (Appends (O.contents out.old) (O.contents out.new) (answered_first datagram.now)) }
    ensures fault { IfErr result (λ e. e ≡ Fault.WriteFault) }
{
    answer_once(fresh_clock(), datagram, out)
}

/// Gives a fresh clock its manager, and lets it answer one datagram.
#[inline(never)]
fn answer_once<O: Write>(mut clock: Agent<BoundTable>, datagram: &[u8], out: &mut O) -> Done
    requires sets { clock.sets ≡ fresh_sets }
    requires table { IsFresh shown []
        (⟦<BoundTable as ReplyTable>⟧.owner clock.table)
        (⟦<BoundTable as ReplyTable>⟧.entries clock.table) }
    requires most { ⟦<BoundTable as ReplyTable>⟧.most clock.table ≡ INLINE_PORTS }
    requires port { HasPort 1 clock.sets }
    ensures answered { OnOk result (Appends (O.contents out.old) (O.contents out.new) (answered_first datagram.now)) }
    ensures fault { IfErr result (λ e. e ≡ Fault.WriteFault) }
{
    admit_manager(&mut clock);
    answer_datagram(&mut clock, datagram, out)
}

/// The same for each line of a reader in turn, all of them at one clock. A line that is `nothing` is passed over. What is printed
/// is flushed before a line that is not at hand.
#[inline(never)]
pub fn answer_lines<R: Read + Drop, O: Write>(alloc: Global, reader: R, out: &mut O) -> Done
    ensures lines { IfSome (R.remaining reader)
        (λ octets.
        HasNumbers octets
        → HasTaken (answered_each (clock_with shown managers) (initial_clock_state fresh_sets))
        (taken line_datagram 1 (whole_lines octets)) (O.contents out.old) (O.contents out.new) result) }
    ensures answered { OnOk result (IsAnsweredEach (O.contents out.old) (O.contents out.new)) }
    ensures fault { IfErr result (λ e. IsAtSomeLine e) }
{
    let mut lines = Lines::new(alloc, reader)?;
    answer_rest(alloc, &mut lines, out)
}

/// Lets a fresh clock answer the datagram of each line that is left.
#[inline(never)]
fn answer_rest<R: Read + Drop, O: Write>(alloc: Global, lines: &mut Lines<R>, out: &mut O) -> Done
    ensures lines { IfSome (left_in R.remaining lines.old)
        (λ octets.
        HasNumbers octets
        → HasTaken (answered_each (clock_with shown managers) (initial_clock_state fresh_sets))
        (taken line_datagram 1 (whole_lines octets)) (O.contents out.old) (O.contents out.new) result) }
    ensures answered { OnOk result (IsAnsweredEach (O.contents out.old) (O.contents out.new)) }
    ensures fault { IfErr result (λ e. IsAtSomeLine e) }
{
    answer_each(fresh_clock(), alloc, lines, out)
}

/// Gives a fresh clock its manager, and lets it answer the datagram of each line that is left.
#[inline(never)]
fn answer_each<R: Read + Drop, O: Write>(
    mut clock: Agent<BoundTable>,
    alloc: Global,
    lines: &mut Lines<R>,
    out: &mut O,
) -> Done
    requires sets { clock.sets ≡ fresh_sets }
    requires table { IsFresh shown []
        (⟦<BoundTable as ReplyTable>⟧.owner clock.table)
        (⟦<BoundTable as ReplyTable>⟧.entries clock.table) }
    requires most { ⟦<BoundTable as ReplyTable>⟧.most clock.table ≡ INLINE_PORTS }
    requires port { HasPort 1 clock.sets }
    ensures lines { IfSome (left_in R.remaining lines.old)
        (λ octets.
        HasNumbers octets
        → HasTaken (answered_each (clock_with shown managers) (initial_clock_state fresh_sets))
        (taken line_datagram 1 (whole_lines octets)) (O.contents out.old) (O.contents out.new) result) }
    ensures answered { OnOk result (IsAnsweredEach (O.contents out.old) (O.contents out.new)) }
    ensures fault { IfErr result (λ e. IsAtSomeLine e) }
{
    admit_manager(&mut clock);
    for number in 1..u64::MAX {
        if !lines.read(number)? {
            break;
        }
        if let Some(datagram) = lines.datagram(alloc, number)? {
            answer_datagram(&mut clock, datagram.as_slice(), out)?;
        }
        lines.flush_before_wait(out)?;
    }
    Ok(())
}

/// Lets the clock take its turn at a datagram at its port 1, and prints what it sends.
#[inline(never)]
fn answer_datagram<O: Write>(clock: &mut Agent<BoundTable>, datagram: &[u8], out: &mut O) -> Done
    requires port { HasPort 1 clock.old.sets }
    requires most { ⟦<BoundTable as ReplyTable>⟧.most clock.old.table ≡ INLINE_PORTS }
    ensures most { ⟦<BoundTable as ReplyTable>⟧.most clock.new.table ≡ INLINE_PORTS }
    ensures clock { clock_shown clock.new ≡ clock_shown clock.old }
    ensures state { state_shown clock.new ≡ (turn (clock_shown clock.old) (state_shown clock.old) 1 datagram.now).next }
    ensures port { HasPort 1 clock.new.sets }
    ensures answered { OnOk result (Appends (O.contents out.old) (O.contents out.new)
        (answered (clock_shown clock.old) (state_shown clock.old) datagram.now)) }
    ensures fault { IfErr result (λ e. e ≡ Fault.WriteFault) }
{
    let mut outbox = Outbox::new();
    clock.handle(1, datagram, &mut outbox);
    write_messages(&outbox, out)?;
    Ok(())
}

/// A line for each message of an outbox; `nothing` if it has none.
fn write_messages<O: Write>(outbox: &Outbox, out: &mut O) -> io::Result<()>
    ensures { OnOk result (Appends (O.contents out.old) (O.contents out.new) (sent_lines outbox.now)) }
{
    let entries = outbox.entries();
    if entries.is_empty() {
        return writeln!(out, "nothing");
    }
    for (port, message) in entries {
        write_message(*port, message.as_slice(), out)?;
    }
    Ok(())
}

fn write_message<O: Write>(port: u16, message: &[u8], out: &mut O) -> io::Result<()>
    ensures { OnOk result (Appends (O.contents out.old) (O.contents out.new) (sent_line (port, message.now))) }
{
    writeln!(out, "{port} {}", Hexadecimal(message))
}
