//! A script: a network file, a line `%%`, and events, one a line.

ghost use Rattle.std.specs.Prelude.{◌≡◌, ◌≢◌, ◌==◌, ◌+◌, ◌++◌, ◌<◌, ◌≤◌, ℕ, Err, IfErr, IfOk, IfSome, List, None, Ok, OnOk, Option, Some, false, find, length, not, string_bytes, true};
ghost use Rattle.std.specs.Option.{option_copied};
ghost use Rattle.ptpm_network.specs.Network as machine;
ghost use Rattle.ptpm_script.specs.EventLine.{reading};
ghost use Rattle.ptpm_script.specs.NetworkText.{network_of};
ghost use Rattle.ptpm_script.specs.NetworkView.{network_value};
ghost use Rattle.ptpm_text.specs.Words.{space};
ghost use Rattle.ptpm_text.specs.Lines.{BothKnown, whole_lines};
ghost use Rattle.ptpm_world.specs.Lines.{left_in, line_count};
ghost use Rattle.ptpm_world.specs.MachineTrace.{ShowsNetwork};
ghost use Rattle.ptpm_world.specs.Placed.{names_in};
ghost use Rattle.ptpm_world.specs.Running.{IsOf, running};
ghost use Rattle.ptpm_world.specs.Script.{HasPlayed, HasPrinted, Played, Prints, StandsFor, ends, from_file, in_network, is_divider, is_skipped, network_text, played, read_as, scripted_from};
ghost use Rattle.ptpm_world.specs.ScriptError.{is_of_reading, is_outside};
ghost use Rattle.ptpm_world.specs.Took.{after};
ghost use Rattle.ptpm_world.specs.Trace.{line_feed};
ghost use Rattle.ptpm_world.specs.declared.script_error.ScriptError.TheVariants as faults;

use crate::lines::Lines;
use crate::network_laws::placed_event;
use crate::script_error::ScriptError;
use crate::trace::{write_data_sets, write_event, write_reports};
use crate::world::World;
use ptpm_codec::OutOfMemory;
use ptpm_script::{Event, EventError, NetError, Network, TEXT_OCTETS, read_event};
use std::alloc::Global;
use std::io::{Read, Write};

/// The line of a script between the network file and the events.
pub const DIVIDER: &str = "%%";

/// The lines of a script print one text at most.
pub fn one_trace()
    ensures { (input first second : List ℕ)
        → Prints input first
        → Prints input second
        → first ≡ second }
{}

/// Reads a network file, the line `%%` and events from a reader. Lets the events happen one after another, and writes the
/// trace. That is a line for each event, and at the end each session's reports and each clock's data sets. An event that is
/// refused is a line of the trace too. Without the divider there are no events.
///
/// The reports and data sets at the end are those of the network after the script's events. If no delivery of the script is
/// late, the headline holds for it, however the events lose, repeat, reorder or duplicate messages. And each event's line
/// says what the network machine does, with `Answered` exactly if a report is appended (`ShowsNetwork`).
///
/// All lines before the divider are read before the network is judged. Each event's line is written before the next is read,
/// and flushed if that may have to be waited for. Whichever way it ends, also if writing fails, what was written is a
/// beginning of the trace. If it ends with a fault of the script, that is the lines of all events before the fault. Ends for
/// every reader, since lines and their octets are bounded. The world that runs is in a frame of its own, so that no other
/// subcommand pays for it.
#[inline(never)]
pub fn run_script<R: Read + Drop, W: Write>(
    alloc: Global,
    reader: R,
    out: &mut W,
) -> Result<(), ScriptError>
    ensures printed { IfSome (R.remaining reader)
        (λ input. HasPrinted input (W.contents out.old) (W.contents out.new) result) }
    ensures headline { IfSome (R.remaining reader) (λ input. OnOk result (ShowsNetwork input)) }
{
    let mut script = Lines::new(alloc, reader)?;
    let network = read_network(alloc, &mut script)?;
    let mut world = World::new(alloc, &network)?;
    play(alloc, &mut script, &mut world, out)?;
    write_reports(alloc, &world, out)?;
    write_data_sets(alloc, &world, out)?;
    out.flush()?;
    Ok(())
}

/// The network of the lines up to the divider.
fn read_network<R: Read + Drop>(
    alloc: Global,
    script: &mut Lines<R>,
) -> Result<Network, ScriptError>
    ensures network { IfOk result
        (λ network.
        BothKnown (left_in R.remaining script.old) (left_in R.remaining script.new)
        (λ before after.
        (scripted_from (line_count script.old + 1) before
        ≡ in_network (Ok (network_value network)) (line_count script.new + 1) (whole_lines after))
        × (network_of (network_text (whole_lines before)) ≡ Ok (network_value network)))) }
    ensures fault { IfErr result
        (λ e.
        is_outside e ≡ false
        → IfSome (left_in R.remaining script.old)
        (λ octets. scripted_from (line_count script.old + 1) octets ≡ ends (Err e))) }
{
    let text = read_text(alloc, script)?;
    network_of_text(alloc, text.as_str())
}

/// The network of a text.
pub(crate) fn network_of_text(alloc: Global, text: &str) -> Result<Network, ScriptError>
    ensures network { IfOk result (λ network. network_of text.now ≡ Ok (network_value network)) }
    ensures fault { IfErr result
        (λ e.
        is_outside e ≡ false
        → (number : ℕ) (lines : List (List ℕ × List ℕ))
        → in_network (network_of text.now) number lines ≡ ends (Err e)) }
    ensures unwritten { IfErr result (λ e. e ≢ faults.WriteFault) }
{
    match Network::from_toml(alloc, text) {
        Ok(network) => Ok(network),
        Err(NetError::OutOfMemory) => Err(ScriptError::OutOfMemory),
        Err(error) => Err(ScriptError::BadNetwork(error)),
    }
}

/// The lines up to the divider, each followed by a line feed. A text over the limit is not kept whole. What is kept of it is
/// over the limit too.
pub fn read_text<R: Read + Drop>(
    alloc: Global,
    script: &mut Lines<R>,
) -> Result<String, ScriptError>
    ensures text { IfOk result
        (λ text.
        BothKnown (left_in R.remaining script.old) (left_in R.remaining script.new)
        (λ before after.
        StandsFor (string_bytes text) (network_text (whole_lines before))
        × ((others : ℕ → List (List ℕ × List ℕ) → Played (List ℕ))
        → from_file others (line_count script.old + 1) (whole_lines before)
        ≡ others (line_count script.new + 1) (whole_lines after)))) }
    ensures fault { IfErr result
        (λ e.
        is_outside e ≡ false
        → IfSome (left_in R.remaining script.old)
        (λ octets.
        (others : ℕ → List (List ℕ × List ℕ) → Played (List ℕ))
        → from_file others (line_count script.old + 1) (whole_lines octets) ≡ ends (Err e))) }
    ensures reading { IfErr result (λ e. is_of_reading e ≡ true) }
{
    let mut text = String::new(alloc);
    while script.read()? {
        let line = script.text()?;
        if is_divider(line) {
            return Ok(text);
        }
        keep_line(&mut text, line)?;
    }
    Ok(text)
}

fn is_divider(line: &str) -> bool
    ensures { result ≡ is_divider line.now }
{
    line == DIVIDER
}

/// Puts a line and a line feed at the end of a text that is not over the limit.
fn keep_line(text: &mut String, line: &str) -> Result<(), OutOfMemory>
    ensures long { OnOk result
        (262144 < length (string_bytes text.old) → string_bytes text.new ≡ string_bytes text.old) }
    ensures short { OnOk result (length (string_bytes text.old) ≤ 262144
        → string_bytes text.new ≡ (string_bytes text.old ++ line.now) ++ line_feed) }
{
    if text.len() > TEXT_OCTETS {
        return Ok(());
    }
    text.push_str(line).map_err(|_| OutOfMemory)?;
    text.push('\n').map_err(|_| OutOfMemory)?;
    Ok(())
}

/// Lets the events of all further lines happen, and writes a line for each. Lines are counted from 1 here.
fn play<R: Read + Drop, W: Write>(
    alloc: Global,
    script: &mut Lines<R>,
    world: &mut World,
    out: &mut W,
) -> Result<(), ScriptError>
    ensures played { (N : machine.Network)
        → IsOf N world.old
        → IfSome (left_in R.remaining script.old)
        (λ octets.
        HasPlayed (names_in world.old)
        (played N (names_in world.old) (running world.old) (line_count script.old + 1) 1
        (whole_lines octets)) (running world.new) (W.contents out.old) (W.contents out.new)
        result) }
    ensures names { OnOk result (names_in world.new ≡ names_in world.old) }
{
    let mut number = 0;
    while script.read_shown(out)? {
        number += 1;
        let line = script.text()?;
        if is_skipped(line) {
            continue;
        }
        let event = event_of(alloc, number, line)?;
        // it is in the range that the laws of networks ask for
        placed_event(&event);
        write_event(alloc, world, number, &event, out)?;
        drop(event);
    }
    Ok(())
}

/// The event of a line.
pub(crate) fn event_of(alloc: Global, number: u32, line: &str) -> Result<Event, ScriptError>
    ensures event { IfOk result (λ event. read_as number (reading line.now) ≡ Ok (Some event)) }
    ensures fault { IfErr result
        (λ e. is_outside e ≡ false → read_as number (reading line.now) ≡ Err e) }
    ensures unwritten { IfErr result (λ e. e ≢ faults.WriteFault) }
{
    match read_event(alloc, line) {
        Ok(event) => Ok(event),
        Err(EventError::OutOfMemory) => Err(ScriptError::OutOfMemory),
        Err(error) => Err(ScriptError::BadLine(number, error)),
    }
}

/// Whether a line has no words, or is a comment.
pub fn is_skipped(line: &str) -> bool
    ensures { result ≡ is_skipped line.now }
{
    match first_but_spaces(line) {
        Some(octet) => *octet == b'#',
        None => true,
    }
}

/// The first octet of a line that is no space.
fn first_but_spaces(line: &str) -> Option<&u8>
    ensures { option_copied result ≡ find (λ octet. not (octet == space)) line.now }
{
    line.as_bytes().iter().find(|octet| **octet != b' ')
}
