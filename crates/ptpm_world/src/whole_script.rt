//! A script that is read whole, before any of its events happens.

ghost use Rattle.std.specs.Prelude.{◌≡◌, ◌≢◌, ◌+◌, ◌++◌, ◌∷◌, IfErr, IfOk, IfSome, Ok, OnOk, [], false, string_bytes};
ghost use Rattle.ptpm_script.specs.NetworkText.{network_of};
ghost use Rattle.ptpm_script.specs.NetworkView.{network_value};
ghost use Rattle.ptpm_world.specs.declared.script_error.ScriptError.TheVariants as faults;
ghost use Rattle.ptpm_world.specs.Lines.{left_in, line_count};
ghost use Rattle.ptpm_world.specs.ScriptError.{is_outside};
ghost use Rattle.ptpm_world.specs.WholeScript.{AreEvents, EndsWith, IsRead};

use crate::lines::Lines;
use crate::script::{event_of, is_skipped, network_of_text, read_text};
use crate::script_error::ScriptError;
use ptpm_codec::OutOfMemory;
use ptpm_script::{Event, Network};
use std::alloc::Global;
use std::io::Read;

/// A script: its network file and its events.
#[derive(Drop)]
pub struct Script {
    /// The lines of the network file, each followed by a line feed.
    pub text: String,
    /// The network of that text.
    pub network: Network,
    pub lines: Vec<EventLine>,
}

/// An event of a script.
#[derive(Drop)]
pub struct EventLine {
    /// The number of its line, counted from 1 after the divider.
    pub number: u32,
    pub event: Event,
}

/// Reads a script whole: a network file, the line `%%` and events. Lines without words and comments are counted and left out.
/// A script that cannot be read is refused as `run_script` refuses it. Ends for every reader, as that does.
pub fn read_script<R: Read + Drop>(alloc: Global, reader: R) -> Result<Script, ScriptError>
    ensures network { IfOk result
        (λ s. network_of (string_bytes s.text) ≡ Ok (network_value s.network)) }
    ensures read { IfSome (R.remaining reader) (λ input. IsRead input result) }
    ensures unwritten { IfErr result (λ e. e ≢ faults.WriteFault) }
{
    let mut script = Lines::new(alloc, reader)?;
    let text = read_text(alloc, &mut script)?;
    let network = network_of_text(alloc, text.as_str())?;
    let lines = read_events(alloc, &mut script)?;
    Ok(Script {
        text,
        network,
        lines,
    })
}

/// The events of the lines that are left. Lines are counted from 1 here.
fn read_events<R: Read + Drop>(
    alloc: Global,
    script: &mut Lines<R>,
) -> Result<Vec<EventLine>, ScriptError>
    ensures events { IfOk result
        (λ events.
        IfSome (left_in R.remaining script.old)
        (λ octets. AreEvents (line_count script.old + 1) octets events.items)) }
    ensures fault { IfErr result
        (λ e.
        is_outside e ≡ false
        → IfSome (left_in R.remaining script.old)
        (λ octets. EndsWith (line_count script.old + 1) octets e)) }
    ensures unwritten { IfErr result (λ e. e ≢ faults.WriteFault) }
{
    let mut events = Vec::new(alloc);
    let mut number = 0;
    while script.read()? {
        number += 1;
        let line = script.text()?;
        if is_skipped(line) {
            continue;
        }
        let event = event_of(alloc, number, line)?;
        keep_event(&mut events, EventLine { number, event })?;
    }
    Ok(events)
}

/// Puts an event after the others.
fn keep_event(events: &mut Vec<EventLine>, event: EventLine) -> Result<(), OutOfMemory>
    ensures { OnOk result (events.new.items ≡ events.old.items ++ event ∷ []) }
{
    events.push(event).map_err(|_| OutOfMemory)
}
