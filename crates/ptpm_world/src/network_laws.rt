//! What joins network files and events to the laws of networks: the contracts of functions that do nothing. The first speaks
//! only of the definitions.

ghost use Rattle.std.specs.Prelude.{◌≡◌, ◌<◌, ◌≤◌, ◌^◌, ℕ, All, List, Ok, length};
ghost use Rattle.ptpm_codec.specs.Layout.{octet};
ghost use Rattle.ptpm_agent.specs.Laws.{AreOfManagers};
ghost use Rattle.ptpm_network.specs.Events.{IsInRange};
ghost use Rattle.ptpm_network.specs.Network.{HasEnd, IsNetwork, ports};
ghost use Rattle.ptpm_network.specs.Network as machine;
ghost use Rattle.ptpm_script.specs.NetworkText.{network_of};
ghost use Rattle.ptpm_script.specs.NetworkValue.{NetworkValue};
ghost use Rattle.ptpm_script.specs.NetworkView.{network_value};
ghost use Rattle.ptpm_world.specs.Described.{described};
ghost use Rattle.ptpm_world.specs.Placed.{Names, placed};
ghost use Rattle.ptpm_world.specs.Running.{IsOf, running};

use crate::world::World;
use ptpm_script::{Event, Network};

/// The network that a text is, with clocks and sessions by their places, is one that the laws of networks speak of.
pub fn described_networks()
    ensures { (text : List ℕ) (n : NetworkValue)
        → network_of text ≡ Ok n
        → IsNetwork (described n) }
{}

/// So is every `Network`.
pub fn described_network(network: &Network)
    ensures { IsNetwork (described (network_value network.now)) }
{
    let _ = network;
}

/// Every event, with places for its names, is one that the laws of networks are about. Its managementId has 16 bits, and
/// each of its octets eight.
pub fn placed_event(event: &Event)
    ensures { (names : Names) → IsInRange (placed names event.now) }
{
    match event {
        Event::Begin(_, ask) => id_fits(ask.id),
        Event::Stranger(_, _, octets) => octets_fit(octets.as_slice()),
        _ => {}
    }
}

fn id_fits(id: u16)
    ensures { id < 2 ^ 16 }
{
    let _ = id;
}

fn octets_fit(octets: &[u8])
    ensures { (place : ℕ) → octet place octets.now < 256 }
{
    let _ = octets;
}

/// What holds of every world of a network, whatever was delivered, and however late:
/// - each clock keeps something only of its configured managers, and has as many ports as at first;
/// - each frame reaches an end that is there, and has 1,472 octets at most; and there are 400,000 at most.
pub fn every_world(world: &World)
    ensures entries { (N : machine.Network) → IsOf N world.now → (c : ℕ) → c < N.clocks
        → AreOfManagers (N.clock c) ((running world.now).clock c).entries }
    ensures ports { (N : machine.Network) → IsOf N world.now → (c : ℕ) → c < N.clocks
        → length ((running world.now).clock c).sets.ports ≡ ports N c }
    ensures ends { (N : machine.Network)
        → IsOf N world.now
        → All (λ f. HasEnd N f.end) (running world.now).frames }
    ensures octets { All (λ f. length f.octets ≤ 1472) (running world.now).frames }
    ensures frames { length (running world.now).frames ≤ 400000 }
{
    let _ = world;
}
