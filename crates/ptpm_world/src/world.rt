//! A network that runs: its clocks and sessions, the links between them, and every frame that was sent.

ghost use Rattle.std.specs.Prelude.{◌≡◌, ◌↔◌, ◌+◌, ◌≤◌, ◌<◌, ℕ, All, Contains, IfNone, IfSome, IsSome, IsTrue, List, Some, bytes_eq, length, option_map, position, slice_get};
ghost use Rattle.ptpm_world.specs.Ends.{AreLinks, AreLinks-prop, AreStored-prop, IsStoredFrame, port_counts};

use crate::frames::{Frame, Frames, Origin};
use crate::running_clock::RunningClock;
use ptpm_codec::{Buffer, PortIdentity};
use ptpm_data::DataSets;
use ptpm_manager::{Report, Session};
use ptpm_script::{Event, Name, NetworkLink};
use ptpm_table::Outbox;

/// A session at its place, with the reports of its answers.
#[derive(Drop)]
pub(crate) struct RunningSession {
    pub(crate) name: Name,
    pub(crate) identity: PortIdentity,
    pub(crate) session: Session,
    pub(crate) reports: Vec<Report>,
}

/// A network that runs. Events change it one by one, by `step`; nothing else does.
#[derive(Drop)]
pub struct World {
    pub(crate) clocks: Vec<RunningClock>,
    pub(crate) sessions: Vec<RunningSession>,
    pub(crate) links: Vec<NetworkLink>,
    pub(crate) frames: Frames,
    /// What a clock sends in one turn.
    pub(crate) outbox: Outbox,
    /// What a session sends.
    pub(crate) buffer: Buffer,
    ghost few_clocks: { length clocks.items ≤ 64 },
    ghost few_sessions: { length sessions.items ≤ 256 },
    ghost links_there: { AreLinks (port_counts clocks.items) (length sessions.items) links.items } by { AreLinks-prop (port_counts clocks.items) (length sessions.items) links.items },
    ghost frames_there: { All (IsStoredFrame (port_counts clocks.items) (length sessions.items)) frames.stored.items } by { AreStored-prop (port_counts clocks.items) (length sessions.items) frames.stored.items },
}

impl World {
    ghost use Rattle.ptpm_data.specs.declared.ports.TheConstants.{INLINE_PORTS};
    ghost use Rattle.ptpm_agent.specs.Once.{applied_once, initial_history};
    ghost use Rattle.ptpm_manager.specs.declared.report.Report.{Report};
    ghost use Rattle.ptpm_network.specs.Events as machine;
    ghost use Rattle.ptpm_network.specs.Events.{frame_at};
    ghost use Rattle.ptpm_network.specs.Stands.{StandsAfter};
    ghost use Rattle.ptpm_network.specs.Machine.{is_late_delivery, run, state_after};
    ghost use Rattle.ptpm_network.specs.Network.{Network};
    ghost use Rattle.ptpm_network.specs.RunningNetwork.{held};
    ghost use Rattle.ptpm_network.specs.State.{copies_at, initial_state};
    ghost use Rattle.ptpm_network.specs.Worth.{IsWorth};
    ghost use Rattle.ptpm_world.specs.Frames.{frame_value, origin_of};
    ghost use Rattle.ptpm_world.specs.Placed.{names_in, place_in, placed};
    ghost use Rattle.ptpm_world.specs.Running.{IsOf, IsOfSession, is_late_held, is_late_of, reports_named, running, sets_named};
    ghost use Rattle.ptpm_world.specs.Trace.{is_late_event};

    /// A clock's data sets as they are, if there is a clock of this name. If no frame was delivered late, they are those that
    /// it started with, after the requests accepted among the copies that came in at it. Each of these is applied once, in
    /// order of first acceptance.
    pub fn sets(&self, clock: &str) -> Option<&DataSets>
        ensures sets { option_map (λ d. d.now) result ≡ sets_named self.now clock.now }
        ensures known { IsSome result ↔ Contains (names_in self.now).clocks clock.now }
        ensures few { IfSome result (λ sets. length sets.now.ports ≤ INLINE_PORTS) }
        ensures applied { (N : Network) (past : List machine.Event)
            → IsOf N self.now
            → StandsAfter N past (running self.now)
            → IfSome result
            (λ sets.
            let c = place_in (names_in self.now).clocks clock.now in
            sets.now ≡ (applied_once (N.clock c) (initial_history (N.start c))
            (copies_at N (state_after N past) c)).sets) }
    {
        match self.clock_place(clock) {
            Some(place) => Some(self.clocks[place].agent.sets()),
            None => None,
        }
    }

    /// The reports of a session's answers, in order, if there is a session of this name. If no frame was delivered late, they
    /// are of its requests 1, 2, 3, .., and each is worth this (`IsWorth`). Its request was carried out exactly once at the
    /// session's target, and the report gives the one answer that the clock made then.
    pub fn reports(&self, session: &str) -> Option<&[Report]>
        ensures reports { option_map (λ r. r.now) result ≡ reports_named self.now session.now }
        ensures known { IsSome result ↔ Contains (names_in self.now).sessions session.now }
        ensures worth { (N : Network) (past : List machine.Event)
            → IsOf N self.now
            → StandsAfter N past (running self.now)
            → IfSome result
            (λ reports.
            (i : ℕ) (report : Report)
            → slice_get reports.now i ≡ Some report
            → (report.index ≡ i + 1)
            × IsWorth N (run N (initial_state N) past)
            (place_in (names_in self.now).sessions session.now) report) }
    {
        match self.session_place(session) {
            Some(place) => Some(self.sessions[place].reports.as_slice()),
            None => None,
        }
    }

    /// How many frames are held: 400,000 at most.
    pub fn frames(&self) -> u32
        ensures count { result ≡ length (running self.now).frames }
        ensures few { result ≤ 400000 }
    {
        self.frames.count() as u32
    }

    /// The frame of a number, counted from 1. If no frame was delivered late, it is the network machine's.
    pub fn frame(&self, number: u32) -> Option<Frame<'_>>
        ensures frame { option_map frame_value result ≡ frame_at (running self.now).frames number }
        ensures frame_after { (N : Network) (past : List machine.Event)
            → StandsAfter N past (running self.now)
            → option_map frame_value result
            ≡ option_map held (frame_at (state_after N past).frames number) }
        ensures known { IsSome result ↔
            ((1 ≤ number) × (number ≤ length (running self.now).frames)) }
    {
        self.frames.get(number)
    }

    /// Whether delivering a frame is late. The frame is then a copy of a request, or of a reply to one, and its session has
    /// begun over 32,768 requests since. No frame that is not there is late.
    pub fn is_late(&self, number: u32) -> bool
        ensures late { result
            ≡ is_late_held (running self.now) (frame_at (running self.now).frames number) }
        ensures late_after { (N : Network) (past : List machine.Event)
            → StandsAfter N past (running self.now)
            → result ≡ is_late_delivery (run N (initial_state N) past) (machine.Deliver number) }
        ensures there { IsTrue result
            → ((1 ≤ number) × (number ≤ length (running self.now).frames)) }
    {
        match self.frames.get(number) {
            Some(frame) => self.is_left_behind(frame.origin()),
            None => false,
        }
    }

    /// Whether an event delivers a late frame.
    pub fn is_late_delivery(&self, event: &Event) -> bool
        ensures late { result
            ≡ is_late_event (running self.now) (placed (names_in self.now) event.now) }
        ensures late_after { (N : Network) (past : List machine.Event)
            → StandsAfter N past (running self.now)
            → result
            ≡ is_late_delivery (state_after N past) (placed (names_in self.now) event.now) }
    {
        match event {
            Event::Deliver(frame) => self.is_late(*frame),
            Event::Begin(..)
            | Event::Send(_)
            | Event::Resume(..)
            | Event::Retune(..)
            | Event::Stranger(..) => false,
        }
    }

    /// Whether the session that something belongs to has begun over 32,768 requests since.
    fn is_left_behind(&self, origin: Origin) -> bool
        requires { IsOfSession (length self.now.sessions.items) origin }
        ensures { result ≡ is_late_of (running self.now) (origin_of origin) }
    {
        match origin {
            Origin::Request { session, index } | Origin::Reply { session, index } => {
                self.sessions[session as usize].session.issued() > index + 32_768
            }
            Origin::Other => false,
        }
    }

    /// The place of a clock's name.
    pub(crate) fn clock_place(&self, name: &str) -> Option<usize>
        ensures found { IfSome result
            (λ place.
            (place ≡ place_in (names_in self.now).clocks name.now)
            × (place < length self.now.clocks.items)) }
        ensures none { IfNone result
            (place_in (names_in self.now).clocks name.now ≡ length self.now.clocks.items) }
    {
        place_of_clock(self.clocks.as_slice(), name)
    }

    /// The place of a session's name.
    pub(crate) fn session_place(&self, name: &str) -> Option<usize>
        ensures found { IfSome result
            (λ place.
            (place ≡ place_in (names_in self.now).sessions name.now)
            × (place < length self.now.sessions.items)) }
        ensures none { IfNone result
            (place_in (names_in self.now).sessions name.now ≡ length self.now.sessions.items) }
    {
        place_of_session(self.sessions.as_slice(), name)
    }
}

fn place_of_clock(clocks: &[RunningClock], name: &str) -> Option<usize>
    ensures { result ≡ position (λ c. bytes_eq c.name name.now) clocks.now }
{
    clocks.iter().position(|clock| clock.name.as_str() == name)
}

fn place_of_session(sessions: &[RunningSession], name: &str) -> Option<usize>
    ensures { result ≡ position (λ s. bytes_eq s.name name.now) sessions.now }
{
    sessions
        .iter()
        .position(|session| session.name.as_str() == name)
}
