//! What data sets were, to be compared with.

ghost use Rattle.std.specs.Prelude.{◌≡◌};

use crate::data_sets::{
    CurrentDataSet, DataSets, DefaultDataSet, ParentDataSet, PortDataSet, TimePropertiesDataSet,
};
use crate::description::Description;
use crate::port_list::port_at;
use crate::ports::PORTS;
use std::marker::Model;

/// A copy of data sets, with its ports in room that the caller has. Contracts see it as `DataSetsValue`.
#[derive(Drop)]
pub struct Snapshot<'a> {
    pub(crate) default: DefaultDataSet,
    pub(crate) description: Description,
    pub(crate) current: CurrentDataSet,
    pub(crate) parent: ParentDataSet,
    pub(crate) time: TimePropertiesDataSet,
    pub(crate) ports: &'a [PortDataSet],
}

impl<'a> Model for Snapshot<'a> {
    ghost use Rattle.std.specs.Coded.{codes};
    ghost use Rattle.ptpm_data.specs.Members.{DataSetsValue};
    ghost use Rattle.ptpm_data.specs.Snapshot.{HasFewPorts, snapshot_value};
    ghost use Rattle.ptpm_data.specs.contracts.port_settings.PortSettings as settings;

    ghost Value = { DataSetsValue };

    ghost coded = { Prim.hlevel (codes, settings.the_row.coded) };

    ghost view = { snapshot_value };

    ghost invariant = { HasFewPorts };
}

impl DataSets {
    /// What they are now. Takes no memory: the room is a local of the caller, `[PortDataSet::default(); PORTS]`, so that the stack
    /// has it once.
    pub fn snapshot<'a>(&self, room: &'a mut [PortDataSet; PORTS]) -> Snapshot<'a>
        ensures { result ≡ self.now }
    {
        let now = self.ports.as_slice();
        let (ports, _) = room.split_at_mut(now.len());
        ports.copy_from_slice(now);
        Snapshot {
            default: self.default,
            description: Description::of(self.description.text()),
            current: self.current,
            parent: self.parent,
            time: self.time,
            ports,
        }
    }
}

impl<'a> Snapshot<'a> {
    ghost use Rattle.std.specs.Prelude.{◌≤◌, length, option_map};
    ghost use Rattle.ptpm_data.specs.Members.{port_of};

    pub(crate) fn port_count(&self) -> u16
        ensures count { result ≡ length self.now.ports }
        ensures most { result ≤ PORTS }
    {
        self.ports.len() as u16
    }

    /// The data set of a port; none if the clock lacks it.
    pub(crate) fn port(&self, port: u16) -> Option<&PortDataSet>
        ensures { option_map (λ p. p.now) result ≡ port_of port self.now }
    {
        port_at(self.ports, port)
    }
}
