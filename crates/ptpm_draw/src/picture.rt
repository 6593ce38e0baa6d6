//! What a picture of a run shows: a row for each event, each message that was sent, and what changed.

ghost use Rattle.std.specs.Prelude.{◌≡◌, ◌++◌, IfErr, IfOk, OnOk, drop, length, map, option_and_then, option_map, option_to_list};
ghost use Rattle.std.specs.List.{range_with_len};
ghost use Rattle.std.specs.Option.{option_copied};
ghost use Rattle.ptpm_codec.specs.Reading.{reading};
ghost use Rattle.ptpm_draw.specs.Chosen.{chosen_of};
ghost use Rattle.ptpm_draw.specs.Picture.{IsWorldOf, drawn_by, drawn_in, is_delivered, marked, marked_by, message_of, picture_of, says_in, then_drawn, way_of};
ghost use Rattle.ptpm_network.specs.Events.{frame_at};
ghost use Rattle.ptpm_network.specs.Network as machine;
ghost use Rattle.ptpm_script.specs.NetworkView.{network_value};
ghost use Rattle.ptpm_world.specs.declared.script_error.ScriptError.TheVariants as faults;
ghost use Rattle.ptpm_world.specs.Described.{described};
ghost use Rattle.ptpm_world.specs.Frames.{frame_value};
ghost use Rattle.ptpm_world.specs.Placed.{names_in, names_of, placed};
ghost use Rattle.ptpm_world.specs.Running.{IsOf, running};
ghost use Rattle.ptpm_world.specs.Took.{after, answer};
ghost use Rattle.ptpm_world.specs.Trace.{is_late_event, is_out_of_memory};

use crate::changes::{Change, change_of, sets_of, snapshot_of};
use crate::chosen::Chosen;
use crate::party::{Party, party_at, party_of};
use ptpm_codec::{Action, OutOfMemory, view};
use ptpm_data::{PORTS, PortDataSet};
use ptpm_world::{Event, EventLine, Frame, Network, Script, ScriptError, StepError, Took, World};
use std::alloc::Global;

/// What a management message says.
#[derive(Clone, Copy)]
pub struct Says {
    pub action: Action,
    /// managementId.
    pub id: u16,
    /// sequenceId.
    pub number: u16,
    /// managementErrorId of an error status.
    pub error: Option<u16>,
}

/// A frame: a message on its way to one end.
#[derive(Clone, Copy)]
pub struct Message {
    /// Who sent it: at whom the event happened that made it.
    pub from: Option<Party>,
    /// Whom it reaches when it is delivered.
    pub to: Party,
    /// `None` if it is no management message.
    pub says: Option<Says>,
}

/// How an event is drawn.
#[derive(Clone, Copy)]
pub enum Way {
    /// A mark: an act of a session, or an event that was refused.
    Mark,
    /// An arrow: the frame of this number reached its end.
    Arrow(u32),
    /// An arrow from the edge: a stranger's datagram came in.
    FromEdge,
}

/// An event as it is drawn.
#[derive(Clone, Copy)]
pub struct EventRow {
    /// The number of its line, counted from 1 after the divider.
    pub line: u32,
    /// At whom it happens, if that is somebody of the network.
    pub at: Option<Party>,
    pub way: Way,
    /// What it did, or why it was refused.
    pub answer: Result<Took, StepError>,
    /// Whether it is the delivery of a late frame.
    pub is_late: bool,
    /// How many frames there were before it.
    pub before: u32,
    /// And after it: it made those from `before + 1` on.
    pub after: u32,
}

/// What is drawn of a run.
#[derive(Drop)]
pub struct Picture {
    /// A row for each event, in their order.
    pub rows: Vec<EventRow>,
    /// The message of each frame, in the order of their numbers from 1.
    pub messages: Vec<Message>,
    /// What events changed at their clocks, in their order.
    pub changes: Vec<Change>,
}

impl Picture {
    /// Runs a script, and keeps what is drawn of it. For each event it keeps its row, by the network that those before it lead
    /// to. It also keeps the messages of the frames that the event made, and what it changed at its clock. These messages are
    /// sent by the party at which the event happens.
    pub fn of(alloc: Global, script: &Script) -> Result<Picture, ScriptError>
        ensures drawn { IfOk result (λ p. drawn_in p ≡ picture_of (network_value script.now.network) script.now.lines.items) }
        ensures memory { IfErr result (λ e. e ≡ faults.OutOfMemory) }
    {
        let mut world = World::new(alloc, &script.network)?;
        let mut picture = Picture {
            rows: Vec::new(alloc),
            messages: Vec::new(alloc),
            changes: Vec::new(alloc),
        };
        for line in script.lines.as_slice() {
            picture.play(&script.network, &mut world, line)?;
        }
        Ok(picture)
    }

    /// Lets an event happen, and keeps what is drawn of it.
    fn play(
        &mut self,
        network: &Network,
        world: &mut World,
        line: &EventLine,
    ) -> Result<(), OutOfMemory>
        requires { IsWorldOf (network_value network.now) world.old }
        ensures drawn { OnOk result
            (drawn_in self.new
            ≡ then_drawn (drawn_in self.old)
            (drawn_by (described (network_value network.now))
            (names_of (network_value network.now)) (running world.old) (running world.new)
            line.now)) }
        ensures goes { OnOk result
            (running world.new
            ≡ after (described (network_value network.now)) (running world.old)
            (placed (names_of (network_value network.now)) line.now.event)) }
        ensures world { OnOk result (IsWorldOf (network_value network.now) world.new) }
    {
        let at = party_at(network, world, &line.event);
        let mut room = [PortDataSet::default(); PORTS];
        let before = snapshot_of(sets_of(network, world, at), &mut room);
        let row = play_event(world, line, at)?;
        self.rows.push(row).map_err(|_| OutOfMemory)?;
        self.keep_messages(world, &row)?;
        let change = change_of(line.number, before, sets_of(network, world, at));
        self.keep_change(change)?;
        Ok(())
    }

    /// Keeps the messages that the event of a row made, which was the last.
    fn keep_messages(&mut self, world: &World, row: &EventRow) -> Result<(), OutOfMemory>
        requires { row.now.after ≡ length (running world.now).frames }
        ensures messages { OnOk result
            (self.new.messages.items
            ≡ self.old.messages.items
            ++ map (message_of row.now.at) (drop row.now.before (running world.now).frames)) }
        ensures rows { self.new.rows.items ≡ self.old.rows.items }
        ensures changes { self.new.changes.items ≡ self.old.changes.items }
    {
        for count in row.before..row.after {
            self.keep_message(world, row.at, count + 1)?;
        }
        Ok(())
    }

    /// Keeps the message of the frame of a number, if it is there, from this party.
    fn keep_message(
        &mut self,
        world: &World,
        from: Option<Party>,
        number: u32,
    ) -> Result<(), OutOfMemory>
        ensures messages { OnOk result
            (self.new.messages.items
            ≡ self.old.messages.items
            ++ option_to_list
            (option_map (message_of from) (frame_at (running world.now).frames number))) }
        ensures rows { self.new.rows.items ≡ self.old.rows.items }
        ensures changes { self.new.changes.items ≡ self.old.changes.items }
    {
        if let Some(frame) = world.frame(number) {
            self.messages
                .push(message_of(from, &frame))
                .map_err(|_| OutOfMemory)?;
        }
        Ok(())
    }

    /// Keeps what an event changed, if it changed anything.
    fn keep_change(&mut self, change: Option<Change>) -> Result<(), OutOfMemory>
        ensures changes { OnOk result (self.new.changes.items ≡ self.old.changes.items ++ option_to_list change) }
        ensures rows { self.new.rows.items ≡ self.old.rows.items }
        ensures messages { self.new.messages.items ≡ self.old.messages.items }
    {
        if let Some(change) = change {
            self.changes.push(change).map_err(|_| OutOfMemory)?;
        }
        Ok(())
    }

    /// Keeps the rows and the changes of the lines that are chosen, and every message.
    pub(crate) fn choose(&mut self, chosen: Chosen)
        ensures { drawn_in self.new ≡ chosen_of chosen (drawn_in self.old) }
    {
        self.rows.retain(|row| chosen.contains(row.line));
        self.changes.retain(|change| chosen.contains(change.line));
    }

    /// The message of the frame of a number, counted from 1.
    pub fn message(&self, number: u32) -> Option<&Message>
        ensures { option_copied result ≡ frame_at self.now.messages.items number }
    {
        self.messages.get((number as usize).checked_sub(1)?)
    }

    /// Of each frame, in the order of their numbers from 1, whether an event delivered it.
    pub fn is_delivered(&self, alloc: Global) -> Result<Vec<bool>, OutOfMemory>
        ensures { IfOk result
            (λ flags.
            flags.items
            ≡ map (is_delivered self.now.rows.items)
            (range_with_len 1 (length self.now.messages.items))) }
    {
        let Ok(mut flags) = vec![in alloc; false; self.messages.len()] else {
            return Err(OutOfMemory);
        };
        for row in self.rows.as_slice() {
            note_way(&mut flags, row.way);
        }
        Ok(flags)
    }

    /// What the message of the frame of a number says.
    pub fn says(&self, number: u32) -> Option<Says>
        ensures { result ≡ option_and_then (λ m. m.says) (frame_at self.now.messages.items number) }
    {
        self.message(number)?.says
    }
}

/// Notes the frame that an arrow delivers.
fn note_way(flags: &mut Vec<bool>, way: Way)
    ensures { flags.new.items ≡ marked_by way flags.old.items }
{
    if let Way::Arrow(frame) = way {
        note_delivered(flags, frame as usize);
    }
}

/// Notes the frame of a number, counted from 1.
fn note_delivered(flags: &mut Vec<bool>, number: usize)
    ensures { flags.new.items ≡ marked number flags.old.items }
{
    if 1 <= number && number <= flags.len() {
        flags[number - 1] = true;
    }
}

/// Lets an event happen at a party, and answers its row.
fn play_event(
    world: &mut World,
    line: &EventLine,
    at: Option<Party>,
) -> Result<EventRow, OutOfMemory>
    ensures line { IfOk result (λ row. row.line ≡ line.now.number) }
    ensures at { IfOk result (λ row. row.at ≡ at) }
    ensures way { IfOk result (λ row. row.way ≡ way_of line.now.event row.answer) }
    ensures answer { (N : machine.Network)
        → IsOf N world.old
        → IfOk result
        (λ row.
        row.answer ≡ answer N (running world.old) (placed (names_in world.old) line.now.event)) }
    ensures late { IfOk result
        (λ row.
        row.is_late ≡ is_late_event (running world.old) (placed (names_in world.old) line.now.event)) }
    ensures before { IfOk result (λ row. row.before ≡ length (running world.old).frames) }
    ensures after { IfOk result (λ row. row.after ≡ length (running world.new).frames) }
    ensures goes { (N : machine.Network)
        → IsOf N world.old
        → OnOk result
        (running world.new
        ≡ after N (running world.old) (placed (names_in world.old) line.now.event)) }
    ensures network { (N : machine.Network) → IsOf N world.old → IsOf N world.new }
    ensures names { names_in world.new ≡ names_in world.old }
{
    let event = &line.event;
    let is_late = world.is_late_delivery(event);
    let before = world.frames();
    let answer = world.step(event);
    if is_out_of_memory(&answer) {
        return Err(OutOfMemory);
    }
    Ok(EventRow {
        line: line.number,
        at,
        way: way_of(event, &answer),
        answer,
        is_late,
        before,
        after: world.frames(),
    })
}

/// Whether an event is refused for want of memory.
fn is_out_of_memory(answer: &Result<Took, StepError>) -> bool
    ensures { result ≡ is_out_of_memory answer.now }
{
    matches!(answer, Err(StepError::OutOfMemory))
}

/// How an event is drawn that was answered so.
fn way_of(event: &Event, answer: &Result<Took, StepError>) -> Way
    ensures { result ≡ way_of event.now answer.now }
{
    match (event, answer) {
        (Event::Deliver(frame), Ok(_)) => Way::Arrow(*frame),
        (Event::Stranger(..), Ok(_)) => Way::FromEdge,
        _ => Way::Mark,
    }
}

/// A frame that this party sent.
fn message_of(from: Option<Party>, frame: &Frame<'_>) -> Message
    ensures { result ≡ message_of from (frame_value frame.now) }
{
    Message {
        from,
        to: party_of(frame.end()),
        says: said_by(frame.octets()),
    }
}

/// What a datagram says; `None` if it is no management message.
pub(crate) fn said_by(datagram: &[u8]) -> Option<Says>
    ensures { result ≡ says_in (reading datagram.now) }
{
    match view(datagram) {
        Ok(message) => Some(Says {
            action: message.action(),
            id: message.id(),
            number: message.number(),
            error: message.error(),
        }),
        Err(_) => None,
    }
}
