//! Groups of the states that a port may be in (9.2.5).

use ptpm_data::PortState;

/// A group of states.
#[derive(Clone, Copy)]
pub enum PortGroup {
    /// MASTER.
    Master,
    /// MASTER, PRE_MASTER and PASSIVE: the port gives time, is about to, or is on standby.
    Giving,
    /// SLAVE and UNCALIBRATED: the port takes time, or is about to.
    Taking,
    /// MASTER, PRE_MASTER, SLAVE and UNCALIBRATED: the port gives or takes time, or is about to.
    Active,
    /// PASSIVE.
    Passive,
    /// SLAVE.
    Slave,
}

impl PortGroup {
    /// Whether a state belongs to the group. A reserved state belongs to none.
    pub fn has(self, state: Option<PortState>) -> bool {
        match self {
            PortGroup::Master => matches!(state, Some(PortState::Master)),
            PortGroup::Giving => matches!(
                state,
                Some(PortState::Master | PortState::PreMaster | PortState::Passive)
            ),
            PortGroup::Taking => matches!(state, Some(PortState::Slave | PortState::Uncalibrated)),
            PortGroup::Active => matches!(
                state,
                Some(
                    PortState::Master
                        | PortState::PreMaster
                        | PortState::Slave
                        | PortState::Uncalibrated
                )
            ),
            PortGroup::Passive => matches!(state, Some(PortState::Passive)),
            PortGroup::Slave => matches!(state, Some(PortState::Slave)),
        }
    }
}
