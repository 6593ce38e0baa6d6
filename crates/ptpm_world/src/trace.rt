//! The trace of a script: what each event did, and the state of the network at the end.

ghost use Rattle.std.specs.Prelude.{◌≡◌, OnOk, decimal, false, flat_map, true};
ghost use Rattle.std.specs.Fmt.{WritesOnOk};
ghost use Rattle.ptpm_codec.specs.declared.message.Action.TheVariants.{Get};
ghost use Rattle.ptpm_data.specs.DataField.{data_field_of_id, permits};
ghost use Rattle.ptpm_data.specs.ManagementId.{is_of_port};
ghost use Rattle.ptpm_data.specs.Members.{HasPort};
ghost use Rattle.ptpm_network.specs.Network.{Network};
ghost use Rattle.ptpm_script.specs.EventLine.{verb_of};
ghost use Rattle.ptpm_world.specs.Placed.{names_in, placed};
ghost use Rattle.ptpm_world.specs.Running.{IsOf, running};
ghost use Rattle.ptpm_world.specs.Took.{after};
ghost use Rattle.ptpm_world.specs.Trace.{answer_text, clock_lines, data_line, data_lines, data_set_lines, event_line, event_text, frames_text, is_out_of_memory, outcome_text, port_line, report_line, report_lines};
ghost use Rattle.ptpm_world.specs.Writing.{Writes};

use crate::script_error::ScriptError;
use crate::took::{StepError, Took};
use crate::world::World;
use crate::writing::{Written, write_shown};
use itoa::Buffer;
use ptpm_codec::ErrorId;
use ptpm_data::{DataSets, Value};
use ptpm_manager::{Outcome, Report};
use ptpm_script::Event;
use ptpm_text::Hexadecimal;
use std::alloc::Global;
use std::fmt;
use std::io::Write;

/// Lets an event happen and writes its line. The line has its number and its verb, and what it did or why it was
/// refused. It says whether the event delivered a late frame, and which frames were made.
pub(crate) fn write_event<W: Write>(
    alloc: Global,
    world: &mut World,
    number: u32,
    event: &Event,
    out: &mut W,
) -> Written
    ensures line { (N : Network) → IsOf N world.old
        → Writes (event_line N (names_in world.old) (running world.old) number event.now)
        (W.contents out.old) (W.contents out.new) result }
    ensures after { (N : Network)
        → IsOf N world.old
        → OnOk result
        (running world.new
        ≡ after N (running world.old) (placed (names_in world.old) event.now)) }
    ensures names { names_in world.new ≡ names_in world.old }
    ensures network { (N : Network) → IsOf N world.old → IsOf N world.new }
{
    let is_late = world.is_late_delivery(event);
    let before = world.frames();
    let took = world.step(event);
    if is_out_of_memory(&took) {
        return Err(ScriptError::OutOfMemory);
    }
    let after = world.frames();
    let line = EventText {
        number,
        verb: event.verb(),
        took,
        is_late,
        before,
        after,
    };
    write_shown(alloc, &line, out)?;
    Ok(())
}

/// Whether an event is refused for want of memory.
fn is_out_of_memory(took: &Result<Took, StepError>) -> bool
    ensures { result ≡ is_out_of_memory took.now }
{
    matches!(took, Err(StepError::OutOfMemory))
}

/// What an event's line says.
#[derive(Clone, Copy)]
struct EventText<'a> {
    number: u32,
    verb: &'a str,
    took: Result<Took, StepError>,
    /// Whether it is the delivery of a late frame.
    is_late: bool,
    /// How many frames there were before it, and after it.
    before: u32,
    after: u32,
}

impl fmt::Display for EventText<'_> {
    ghost use Rattle.std.specs.Prelude.{Some};

    ghost output = { λ e. Some (event_text e.number e.verb.now e.took e.is_late e.before e.after) };

    fn fmt<W: fmt::Write>(&self, f: &mut fmt::Formatter<W>) -> fmt::Result {
        show_number(self.number as u64, f)?;
        f.write_str(" ")?;
        f.write_str(self.verb)?;
        f.write_str(" ")?;
        show_answer(self.took, self.is_late, f)?;
        show_frames(self.before, self.after, f)?;
        f.write_str("\n")
    }
}

/// A number in decimal. It is inlined, so that whoever puts the pieces together knows where the text goes.
#[inline(always)]
fn show_number<W: fmt::Write>(number: u64, f: &mut fmt::Formatter<W>) -> fmt::Result
    ensures { WritesOnOk W.write_str_gives f.old result (decimal number) f.new }
{
    let mut buffer = Buffer::new();
    f.write_str(buffer.format(number))
}

/// What an event did or why it was refused, and whether it is the delivery of a late frame.
fn show_answer<W: fmt::Write>(
    took: Result<Took, StepError>,
    is_late: bool,
    f: &mut fmt::Formatter<W>,
) -> fmt::Result
    ensures { WritesOnOk W.write_str_gives f.old result (answer_text took is_late) f.new }
{
    match took {
        Ok(took) if is_late => write!(f, "{took} late"),
        Ok(took) => write!(f, "{took}"),
        Err(error) => write!(f, "refused {error}"),
    }
}

/// The frames that were made between two counts: nothing if none were.
fn show_frames<W: fmt::Write>(before: u32, after: u32, f: &mut fmt::Formatter<W>) -> fmt::Result
    ensures { WritesOnOk W.write_str_gives f.old result (frames_text before after) f.new }
{
    if before < after {
        f.write_str(" frames ")?;
        show_number(before as u64 + 1, f)?;
        f.write_str("-")?;
        show_number(after as u64, f)?;
    }
    Ok(())
}

/// A line for each report, session by session.
pub(crate) fn write_reports<W: Write>(alloc: Global, world: &World, out: &mut W) -> Written
    ensures { Writes (report_lines (names_in world.now) (running world.now))
        (W.contents out.old) (W.contents out.new) result }
{
    for session in &world.sessions {
        let reports = session.reports.as_slice();
        write_session(alloc, session.name.as_str(), reports, out)?;
    }
    Ok(())
}

/// A line for each report of a session.
fn write_session<W: Write>(alloc: Global, name: &str, reports: &[Report], out: &mut W) -> Written
    ensures { Writes (flat_map (report_line name.now) reports.now)
        (W.contents out.old) (W.contents out.new) result }
{
    for report in reports {
        write_shown(alloc, &ReportText(name, report), out)?;
    }
    Ok(())
}

/// A line for each data set of the clocks and of their ports.
pub(crate) fn write_data_sets<W: Write>(alloc: Global, world: &World, out: &mut W) -> Written
    ensures { Writes (data_lines (names_in world.now) (running world.now))
        (W.contents out.old) (W.contents out.new) result }
{
    for clock in &world.clocks {
        write_sets(alloc, clock.name.as_str(), clock.agent.sets(), out)?;
    }
    Ok(())
}

/// A line for each data set of a clock and of its ports.
fn write_sets<W: Write>(alloc: Global, name: &str, sets: &DataSets, out: &mut W) -> Written
    ensures { Writes (clock_lines name.now sets.now)
        (W.contents out.old) (W.contents out.new) result }
{
    write_clock(alloc, name, sets, out)?;
    for port in 1..sets.port_count() + 1 {
        write_port(alloc, name, sets, port, out)?;
    }
    Ok(())
}

/// USER_DESCRIPTION and the four data sets of a clock, a line each.
#[tactic(auto, unfolding(ptpm_data::specs::ManagementId::row_of, crate::specs::Trace::data_set_lines))]
fn write_clock<W: Write>(alloc: Global, name: &str, sets: &DataSets, out: &mut W) -> Written
    ensures { Writes (data_set_lines name.now sets.now)
        (W.contents out.old) (W.contents out.new) result }
{
    write_data(alloc, name, sets, 0x0002, "0002", out)?;
    write_data(alloc, name, sets, 0x2000, "2000", out)?;
    write_data(alloc, name, sets, 0x2001, "2001", out)?;
    write_data(alloc, name, sets, 0x2002, "2002", out)?;
    write_data(alloc, name, sets, 0x2003, "2003", out)
}

/// A data set of a clock, by its managementId, which is spelled in four digits.
#[tactic(auto, unfolding(crate::specs::Trace::data_line))]
fn write_data<W: Write>(
    alloc: Global,
    name: &str,
    sets: &DataSets,
    id: u16,
    digits: &str,
    out: &mut W,
) -> Written
    requires permits { permits Get id ≡ true }
    requires clock { is_of_port id ≡ false }
    ensures { Writes (data_line name.now digits.now (data_field_of_id id 0 sets.now))
        (W.contents out.old) (W.contents out.new) result }
{
    let mut value = Value::new();
    sets.lay(id, 0, &mut value);
    let value = Hexadecimal(value.as_slice());
    write_shown(alloc, &format_args!("data {name} {digits} {value}\n"), out)
}

/// PORT_DATA_SET of one of a clock's ports.
#[tactic(auto, unfolding(ptpm_data::specs::ManagementId::row_of, crate::specs::Trace::port_line, crate::specs::Trace::data_line))]
fn write_port<W: Write>(
    alloc: Global,
    name: &str,
    sets: &DataSets,
    port: u16,
    out: &mut W,
) -> Written
    requires { HasPort port sets.now }
    ensures { Writes (port_line name.now sets.now port)
        (W.contents out.old) (W.contents out.new) result }
{
    let mut value = Value::new();
    sets.lay(0x2004, port, &mut value);
    let value = Hexadecimal(value.as_slice());
    write_shown(
        alloc,
        &format_args!("data {name}.{port} 2004 {value}\n"),
        out,
    )
}

/// What the line of a session's report says.
#[derive(Clone, Copy)]
struct ReportText<'a>(&'a str, &'a Report);

impl fmt::Display for ReportText<'_> {
    ghost use Rattle.std.specs.Prelude.{Some};

    ghost output = { λ r. Some (report_line r.0.now r.1.now) };

    fn fmt<W: fmt::Write>(&self, f: &mut fmt::Formatter<W>) -> fmt::Result {
        f.write_str("report ")?;
        f.write_str(self.0)?;
        f.write_str(" ")?;
        show_number(self.1.index, f)?;
        f.write_str(" ")?;
        write!(f, "{}", OutcomeText(&self.1.outcome))?;
        f.write_str("\n")
    }
}

/// What a report says.
#[derive(Clone, Copy)]
struct OutcomeText<'a>(&'a Outcome);

impl fmt::Display for OutcomeText<'_> {
    ghost use Rattle.std.specs.Prelude.{Some};

    ghost output = { λ o. Some (outcome_text o.0.now) };

    fn fmt<W: fmt::Write>(&self, f: &mut fmt::Formatter<W>) -> fmt::Result {
        match self.0 {
            Outcome::Value(octets) => write!(f, "value {}", Hexadecimal(octets.as_slice())),
            Outcome::Done => f.write_str("done"),
            Outcome::Refused(number) => write!(f, "refused {}", ErrorText(*number)),
        }
    }
}

/// A managementErrorId by the standard's name, or by four hexadecimal digits if it has none (15.5.4.3).
#[derive(Clone, Copy)]
struct ErrorText(u16);

impl fmt::Display for ErrorText {
    ghost use Rattle.std.specs.Prelude.{Some};
    ghost use Rattle.ptpm_world.specs.Trace.{error_text};

    ghost output = { λ e. Some (error_text e.0) };

    fn fmt<W: fmt::Write>(&self, f: &mut fmt::Formatter<W>) -> fmt::Result {
        match ErrorId::from_number(self.0) {
            Some(error) => write!(f, "{error}"),
            None => write!(f, "{}", Hexadecimal(&self.0.to_be_bytes())),
        }
    }
}
