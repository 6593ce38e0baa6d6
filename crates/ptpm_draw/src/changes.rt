//! What events changed at their clocks.

ghost use Rattle.std.specs.Prelude.{◌≡◌, ◌<◌, ◌≤◌, ◌==◌, IfSome, Some, length, option_map};
ghost use Rattle.std.specs.List.{list_all};
ghost use Rattle.ptpm_data.specs.declared.ports.TheConstants.{INLINE_PORTS};
ghost use Rattle.ptpm_draw.specs.Changes.{change_of, is_nothing, sets_of};
ghost use Rattle.ptpm_draw.specs.Party.{IsThere};
ghost use Rattle.ptpm_draw.specs.Picture.{IsWorldOf};
ghost use Rattle.ptpm_script.specs.NetworkView.{network_value};
ghost use Rattle.ptpm_world.specs.Running.{running};

use crate::party::Party;
use crate::picture::Picture;
use ptpm_data::{ChangedMembers, DataSets, PORTS, PortDataSet, PortMembers, Snapshot};
use ptpm_world::{Network, World};

/// What an event changed at its clock.
#[derive(Drop)]
pub struct Change {
    /// The number of the event's line.
    pub line: u32,
    /// The members that have another value than before.
    pub members: ChangedMembers,
    /// The data sets since then.
    pub sets: DataSets,
}

/// The changes of a picture, which are asked for event by event.
#[derive(Clone, Copy)]
pub(crate) struct Changes<'a> {
    left: &'a [Change],
}

impl<'a> Changes<'a> {
    /// Those of all events.
    pub(crate) fn of(picture: &'a Picture) -> Changes<'a> {
        Changes {
            left: picture.changes.as_slice(),
        }
    }

    /// What the next event changed, by the number of its line.
    pub(crate) fn take(&mut self, line: u32) -> Option<&'a Change> {
        let (first, left) = self.left.split_first()?;
        if first.line != line {
            return None;
        }
        self.left = left;
        Some(first)
    }
}

/// The data sets of a party; a session has none.
pub(crate) fn sets_of<'a>(
    network: &Network,
    world: &'a World,
    party: Option<Party>,
) -> Option<&'a DataSets>
    requires world { IsWorldOf (network_value network.now) world.now }
    requires there { IsThere (length network.now.clocks.items) party }
    ensures sets { option_map (λ sets. sets.now) result ≡ sets_of party (running world.now) }
    ensures few { IfSome result (λ sets. length sets.now.ports ≤ INLINE_PORTS) }
{
    match party {
        Some(Party::Clock(place)) => clock_sets(network, world, place),
        Some(Party::Session(_)) | None => None,
    }
}

/// The data sets of the clock at a place.
fn clock_sets<'a>(network: &Network, world: &'a World, place: usize) -> Option<&'a DataSets>
    requires world { IsWorldOf (network_value network.now) world.now }
    requires there { place < length network.now.clocks.items }
    ensures sets { option_map (λ sets. sets.now) result ≡ Some ((running world.now).clock place).sets }
    ensures few { IfSome result (λ sets. length sets.now.ports ≤ INLINE_PORTS) }
{
    let clocks = network.clocks();
    world.sets(clocks[place].name.as_str())
}

/// What data sets are now, if there are any. Their ports go into this room.
pub(crate) fn snapshot_of<'a>(
    sets: Option<&DataSets>,
    room: &'a mut [PortDataSet; PORTS],
) -> Option<Snapshot<'a>>
    ensures { result ≡ option_map (λ sets. sets.now) sets.entry }
{
    Some(sets?.snapshot(room))
}

/// What the event of a line changed between these data sets and those, if there are any.
pub(crate) fn change_of(
    line: u32,
    before: Option<Snapshot<'_>>,
    after: Option<&DataSets>,
) -> Option<Change>
    requires { IfSome after (λ sets. length sets.now.ports ≤ INLINE_PORTS) }
    ensures { result ≡ change_of line before.entry (option_map (λ sets. sets.now) after.entry) }
{
    let (before, after) = (before?, after?);
    let members = after.changed_since(&before);
    if is_nothing(&members) {
        return None;
    }
    Some(Change {
        line,
        members,
        sets: after.copy(),
    })
}

/// Whether no member changed.
fn is_nothing(members: &ChangedMembers) -> bool
    ensures { result ≡ is_nothing members.now }
{
    members.clock.0 == 0 && are_nothing(&members.ports)
}

/// Whether no member of these ports changed.
fn are_nothing(ports: &[PortMembers]) -> bool
    ensures { result ≡ list_all (λ port. port.0 == 0) ports.now }
{
    ports.iter().all(|port| port.0 == 0)
}
