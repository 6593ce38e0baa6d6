//! At whom an event happens.

ghost use Rattle.std.specs.Prelude.{◌≡◌, bytes_eq, length, option_map, position};
ghost use Rattle.ptpm_draw.specs.Party.{IsThere, clock_named, party_at, party_of, session_named};
ghost use Rattle.ptpm_draw.specs.Picture.{IsWorldOf};
ghost use Rattle.ptpm_network.specs.Events.{frame_at};
ghost use Rattle.ptpm_script.specs.NetworkView.{network_value};
ghost use Rattle.ptpm_world.specs.Described.{described_end};
ghost use Rattle.ptpm_world.specs.Placed.{names_of};
ghost use Rattle.ptpm_world.specs.Running.{running};

use ptpm_script::{NetworkClock, NetworkSession};
use ptpm_world::{End, Event, Network, World, every_world};

/// Whose lifeline it is, by the place in the network file, from 0.
#[derive(Clone, Copy, PartialEq, Eq)]
pub enum Party {
    Session(usize),
    Clock(usize),
}

/// At whom an event happens: the session or clock that it names, or the one that its frame reaches.
pub(crate) fn party_at(network: &Network, world: &World, event: &Event) -> Option<Party>
    ensures exact { result
        ≡ party_at (names_of (network_value network.now)) (running world.now).frames event.now }
    ensures there { IsWorldOf (network_value network.now) world.now
        → IsThere (length network.now.clocks.items) result }
{
    // each frame's end is there
    every_world(world);
    find_party(network, world, event)
}

fn find_party(network: &Network, world: &World, event: &Event) -> Option<Party>
    ensures { result
        ≡ party_at (names_of (network_value network.now)) (running world.now).frames event.now }
{
    match event {
        Event::Begin(name, _)
        | Event::Send(name)
        | Event::Resume(name, _)
        | Event::Retune(name, _) => session_named(network, name.as_str()),
        Event::Deliver(frame) => party_reached(world, *frame),
        Event::Stranger(name, ..) => clock_named(network, name.as_str()),
    }
}

/// Whom the frame of a number reaches, if it is there.
fn party_reached(world: &World, frame: u32) -> Option<Party>
    ensures { result
        ≡ option_map (λ h. party_of h.end) (frame_at (running world.now).frames frame) }
{
    Some(party_of(world.frame(frame)?.end()))
}

fn session_named(network: &Network, name: &str) -> Option<Party>
    ensures { result ≡ session_named (names_of (network_value network.now)) name.now }
{
    Some(Party::Session(session_place(network.sessions(), name)?))
}

fn clock_named(network: &Network, name: &str) -> Option<Party>
    ensures { result ≡ clock_named (names_of (network_value network.now)) name.now }
{
    Some(Party::Clock(clock_place(network.clocks(), name)?))
}

fn session_place(sessions: &[NetworkSession], name: &str) -> Option<usize>
    ensures { result ≡ position (λ s. bytes_eq s.name name.now) sessions.now }
{
    sessions
        .iter()
        .position(|session| session.name.as_str() == name)
}

fn clock_place(clocks: &[NetworkClock], name: &str) -> Option<usize>
    ensures { result ≡ position (λ c. bytes_eq c.name name.now) clocks.now }
{
    clocks.iter().position(|clock| clock.name.as_str() == name)
}

/// Whose end it is.
pub(crate) fn party_of(end: End) -> Party
    ensures { result ≡ party_of (described_end end) }
{
    match end {
        End::Clock(place, _) => Party::Clock(place as usize),
        End::Session(place) => Party::Session(place as usize),
    }
}
