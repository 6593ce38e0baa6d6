//! What is under way in a network that loses, repeats and reorders messages.

ghost use Rattle.std.specs.Prelude.{◌≡◌, ◌≢◌, ◌++◌, ◌∷◌, IfOk, List, OnErr, OnOk, []};
ghost use Rattle.std.specs.Io.KnownBytes.{Appends};
ghost use Rattle.ptpm_network.specs.Events as machine;
ghost use Rattle.ptpm_network.specs.Stands.{StandsAfter};
ghost use Rattle.ptpm_network.specs.Machine.{is_late_delivery, state_after};
ghost use Rattle.ptpm_network.specs.Network as net;
ghost use Rattle.ptpm_schedule.specs.EventText.{event_text};
ghost use Rattle.ptpm_schedule.specs.Going.{Became, IsSame, Went, asked_by};
ghost use Rattle.ptpm_world.specs.Placed.{names_in, placed};
ghost use Rattle.ptpm_world.specs.Running.{running};

use crate::chances::{Chances, Draws};
use crate::event_text::EventText;
use ptpm_codec::OutOfMemory;
use ptpm_world::{End, Event, Network, SCRIPT_LINES, ScriptError, StepError, Took, World};
use std::alloc::Global;
use std::io;
use std::io::Write;

/// What became of an event.
#[derive(Clone, Copy)]
pub(crate) enum Tried {
    /// It happened, and did this.
    Happened(Took),
    /// It would have been a late delivery. Nothing has changed.
    Late,
    /// It was refused. Nothing has changed.
    Refused(StepError),
}

/// Whether the network went on as far as that.
pub(crate) type Gone = Result<(), ScriptError>;

/// How long a network goes on.
#[derive(Clone, Copy)]
enum Until {
    /// Until nothing is under way and no session waits.
    Quiet,
    /// Until the session at this place waits no more.
    Settled(u16),
}

/// The messages that are under way, and who waits for one.
#[derive(Drop)]
pub(crate) struct Traffic<'a> {
    alloc: Global,
    network: &'a Network,
    chances: Chances,
    draws: Draws,
    /// The numbers of the frames that will be delivered; twice if a frame is repeated.
    under_way: Vec<u32>,
    /// The places of the sessions whose request is not answered and may be sent again.
    waiting: Vec<u16>,
    /// How many lines were printed.
    lines: u64,
}

impl<'a> Traffic<'a> {
    /// Nothing is under way, and this many lines are printed.
    pub(crate) fn new(
        alloc: Global,
        network: &'a Network,
        chances: Chances,
        lines: u64,
    ) -> Traffic<'a>
        ensures { result.lines ≡ lines }
    {
        Traffic {
            alloc,
            network,
            chances,
            draws: Draws::new(chances.seed),
            under_way: Vec::new(alloc),
            waiting: Vec::new(alloc),
            lines,
        }
    }

    /// Lets an event of a session happen once its request before is answered or has no attempts left, and sends what it begins or
    /// resumes. Answers why it was refused, if it was.
    pub(crate) fn ask<W: Write>(
        &mut self,
        world: &mut World,
        event: &Event,
        out: &mut W,
    ) -> Result<Option<StepError>, ScriptError>
        ensures { Went result (asked_by event.now) world.old world.new (W.contents out.old) (W.contents out.new)
            self.old.lines self.new.lines }
    {
        let place = place_of(self.network, event);
        self.settle(world, place, out)?;
        self.ask_settled(world, event, place, out)
    }

    /// The same for the session at this place, which waits no more.
    fn ask_settled<W: Write>(
        &mut self,
        world: &mut World,
        event: &Event,
        place: Option<u16>,
        out: &mut W,
    ) -> Result<Option<StepError>, ScriptError>
        ensures { Went result (asked_by event.now) world.old world.new (W.contents out.old) (W.contents out.new)
            self.old.lines self.new.lines }
    {
        match (self.happen(world, event, out)?, event, place) {
            (Tried::Refused(why), _, _) => Ok(Some(why)),
            (Tried::Happened(_), Event::Begin(..) | Event::Resume(..), Some(place)) => {
                self.waiting.push(place).map_err(|_| OutOfMemory)?;
                self.send(world, place, out)?;
                Ok(None)
            }
            _ => Ok(None),
        }
    }

    /// Lets the network go on until nothing is under way and no session waits.
    pub(crate) fn finish<W: Write>(&mut self, world: &mut World, out: &mut W) -> Gone
        ensures { Went result [] world.old world.new (W.contents out.old) (W.contents out.new) self.old.lines self.new.lines }
    {
        self.go_on_until(Until::Quiet, world, out)
    }

    /// Lets the network go on until the session at this place, if there is one, waits no more.
    fn settle<W: Write>(&mut self, world: &mut World, place: Option<u16>, out: &mut W) -> Gone
        ensures { Went result [] world.old world.new (W.contents out.old) (W.contents out.new) self.old.lines self.new.lines }
    {
        match place {
            Some(place) => self.go_on_until(Until::Settled(place), world, out),
            None => Ok(()),
        }
    }

    /// Lets the network go on until then.
    fn go_on_until<W: Write>(&mut self, until: Until, world: &mut World, out: &mut W) -> Gone
        ensures { Went result [] world.old world.new (W.contents out.old) (W.contents out.new) self.old.lines self.new.lines }
    {
        for _ in 0..u64::MAX {
            if self.has_come(until) {
                break;
            }
            self.go_on(world, out)?;
        }
        Ok(())
    }

    /// Whether it has gone on so long.
    fn has_come(&self, until: Until) -> bool {
        match until {
            Until::Quiet => self.under_way.is_empty() && self.waiting.is_empty(),
            Until::Settled(place) => !self.waiting.contains(&place),
        }
    }

    /// Delivers one of the frames that are under way. If there are none, one of the sessions that wait sends again.
    fn go_on<W: Write>(&mut self, world: &mut World, out: &mut W) -> Gone
        ensures { Went result [] world.old world.new (W.contents out.old) (W.contents out.new) self.old.lines self.new.lines }
    {
        if !self.under_way.is_empty() {
            let place = self.draws.place(self.under_way.len());
            let frame = self.under_way.swap_remove(place);
            return self.deliver(world, frame, out);
        }
        if !self.waiting.is_empty() {
            let place = self.draws.place(self.waiting.len());
            let session = self.waiting[place];
            return self.send(world, session, out);
        }
        Ok(())
    }

    /// Delivers a frame. The session that it answers waits no more.
    fn deliver<W: Write>(&mut self, world: &mut World, frame: u32, out: &mut W) -> Gone
        ensures { Went result [] world.old world.new (W.contents out.old) (W.contents out.new) self.old.lines self.new.lines }
    {
        let tried = self.happen(world, &Event::Deliver(frame), out)?;
        if let Tried::Happened(Took::Answered) = tried {
            leave_reached(&mut self.waiting, world, frame);
        }
        Ok(())
    }

    /// Lets the session at a place send. If it may not, it waits no more.
    fn send<W: Write>(&mut self, world: &mut World, session: u16, out: &mut W) -> Gone
        ensures { Went result [] world.old world.new (W.contents out.old) (W.contents out.new) self.old.lines self.new.lines }
    {
        let tried = self.try_send(world, session, out)?;
        if let Tried::Refused(_) = tried {
            leave(&mut self.waiting, session);
        }
        Ok(())
    }

    /// Lets the session at a place send. It is refused if there is none.
    fn try_send<W: Write>(
        &mut self,
        world: &mut World,
        session: u16,
        out: &mut W,
    ) -> Result<Tried, ScriptError>
        ensures { Went result [] world.old world.new (W.contents out.old) (W.contents out.new) self.old.lines self.new.lines }
    {
        let Some(listed) = self.network.sessions().get(session as usize) else {
            return Ok(Tried::Refused(StepError::NoSuchName));
        };
        let event = Event::Send(listed.name.copy(self.alloc)?);
        self.happen(world, &event, out)
    }

    /// Lets an event happen, unless it is a late delivery, and prints its line. What it sends is lost or under way.
    fn happen<W: Write>(
        &mut self,
        world: &mut World,
        event: &Event,
        out: &mut W,
    ) -> Result<Tried, ScriptError>
        ensures { Went result (asked_by event.now) world.old world.new (W.contents out.old) (W.contents out.new)
            self.old.lines self.new.lines }
    {
        if self.lines >= SCRIPT_LINES as u64 {
            return Err(ScriptError::TooManyLines);
        }
        let sent = world.frames();
        match try_event(world, event)? {
            Tried::Happened(took) => {
                write_line(event, out)?;
                self.lines += 1;
                self.draw_frames(sent, world.frames())?;
                Ok(Tried::Happened(took))
            }
            Tried::Late => Ok(Tried::Late),
            Tried::Refused(why) => Ok(Tried::Refused(why)),
        }
    }

    /// Draws which of the frames between two counts are under way, and which of these twice.
    fn draw_frames(&mut self, before: u32, after: u32) -> Result<(), OutOfMemory>
        ensures { self.new.lines ≡ self.old.lines }
    {
        for sent in before..after {
            if self.draws.happens(self.chances.loss) {
                continue;
            }
            self.under_way.push(sent + 1).map_err(|_| OutOfMemory)?;
            if self.draws.happens(self.chances.repeat) {
                self.under_way.push(sent + 1).map_err(|_| OutOfMemory)?;
            }
        }
        Ok(())
    }
}

/// The session at a place waits no more.
fn leave(waiting: &mut Vec<u16>, session: u16) {
    waiting.retain(|waits| *waits != session);
}

/// The session that a frame reached waits no more.
fn leave_reached(waiting: &mut Vec<u16>, world: &World, frame: u32) {
    if let Some(End::Session(place)) = world.frame(frame).map(|frame| frame.end()) {
        leave(waiting, place);
    }
}

/// Writes the line of an event.
fn write_line<W: Write>(event: &Event, out: &mut W) -> io::Result<()>
    ensures { OnOk result (Appends (W.contents out.old) (W.contents out.new) (event_text event.now ++ 10 ∷ [])) }
{
    writeln!(out, "{}", EventText(event))
}

/// Lets an event happen in a network, unless it is a late delivery.
#[tactic(auto, using(crate::proofs::Going::same_self, crate::proofs::Going::took_step))]
fn try_event(world: &mut World, event: &Event) -> Result<Tried, OutOfMemory>
    ensures same { IsSame world.old world.new }
    ensures became { IfOk result (λ t. Became world.old world.new event.now t) }
    ensures refused { OnErr result (running world.new ≡ running world.old) }
{
    if is_late(world, event) {
        return Ok(Tried::Late);
    }
    match world.step(event) {
        Ok(took) => Ok(Tried::Happened(took)),
        Err(why) => refused(why),
    }
}

/// What became of an event that was refused. Want of memory is no refusal.
fn refused(why: StepError) -> Result<Tried, OutOfMemory>
    ensures { IfOk result (λ t. (t ≡ Tried.Refused why) × (why ≢ StepError.OutOfMemory)) }
{
    match why {
        StepError::OutOfMemory => Err(OutOfMemory),
        _ => Ok(Tried::Refused(why)),
    }
}

/// Whether an event delivers a late frame.
fn is_late(world: &World, event: &Event) -> bool
    ensures { (N : net.Network) (past : List machine.Event)
        → StandsAfter N past (running world.now)
        → result ≡ is_late_delivery (state_after N past) (placed (names_in world.now) event.now) }
{
    match event {
        Event::Deliver(frame) => world.is_late(*frame),
        _ => false,
    }
}

/// The place of the session that an event names.
fn place_of(network: &Network, event: &Event) -> Option<u16> {
    let name = match event {
        Event::Begin(name, _) | Event::Resume(name, _) | Event::Retune(name, _) => name.as_str(),
        _ => return None,
    };
    let sessions = network.sessions();
    let place = sessions.iter().position(|it| it.name.as_str() == name)?;
    u16::try_from(place).ok()
}
