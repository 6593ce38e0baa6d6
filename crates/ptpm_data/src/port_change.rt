//! What an accepted request changes at a port.

use crate::data_sets::PortDataSet;
use crate::port_setting::PortSetting;
use crate::port_state::PortState;

/// A change of one member of a port's data set, with its new value.
#[derive(Clone, Copy, Debug, PartialEq, Eq)]
pub(crate) enum PortChange {
    /// A setting is what this octet says.
    Setting(PortSetting, u8),
    /// From DISABLED to LISTENING; another state stays (this project's profile).
    Enable,
    /// To DISABLED.
    Disable,
}

impl PortDataSet {
    ghost use Rattle.std.specs.Prelude.{◌≡◌};
    ghost use Rattle.ptpm_data.specs.PortChange.{port_after};

    pub(crate) fn change(&mut self, change: PortChange)
        ensures { self.new ≡ port_after change self.old }
    {
        match change {
            PortChange::Setting(setting, octet) => self.settings.set(setting, octet),
            PortChange::Enable if self.state == PortState::Disabled => self.state =
                PortState::Listening,
            PortChange::Enable => {}
            PortChange::Disable => self.state = PortState::Disabled,
        }
    }
}
