//! The states and delay mechanisms of a port (8.2.15.3.1, 8.2.15.4.4).

/// portState, of 9.2.5.
#[derive(Clone, Copy, Debug, PartialEq, Eq)]
pub enum PortState {
    Initializing = 1,
    Faulty,
    Disabled,
    Listening,
    PreMaster,
    Master,
    Passive,
    Uncalibrated,
    Slave,
}

impl PortState {
    ghost use Rattle.std.specs.Prelude.{◌≡◌, IfSome, Some};
    ghost use Rattle.ptpm_data.specs.PortState.{state_number, state_of, is_forwarding};
    ghost use Rattle.ptpm_data.specs.declared.port_state.PortState.{PortState};

    /// Its number, 1 to 9.
    pub fn number(self) -> u8
        ensures { result ≡ state_number self }
    {
        self as u8
    }

    /// The state of a number, if it is one's.
    pub fn from_number(number: u8) -> Option<PortState>
        ensures exact { result ≡ state_of number }
        ensures numbered { IfSome result (λ s. state_number s ≡ number) }
        ensures found { (s : PortState) → state_number s ≡ number → result ≡ Some s }
    {
        match number {
            1 => Some(PortState::Initializing),
            2 => Some(PortState::Faulty),
            3 => Some(PortState::Disabled),
            4 => Some(PortState::Listening),
            5 => Some(PortState::PreMaster),
            6 => Some(PortState::Master),
            7 => Some(PortState::Passive),
            8 => Some(PortState::Uncalibrated),
            9 => Some(PortState::Slave),
            _ => None,
        }
    }

    /// Whether a port in this state forwards management messages: PRE_MASTER, MASTER, UNCALIBRATED or SLAVE (this
    /// project's profile).
    pub fn is_forwarding(self) -> bool
        ensures { result ≡ is_forwarding self }
    {
        matches!(
            self,
            PortState::PreMaster | PortState::Master | PortState::Uncalibrated | PortState::Slave
        )
    }
}

/// delayMechanism: E2E is 1, P2P is 2, and NO_MECHANISM, none in use, is 0xFE (8.2.15.4.4, table 21).
#[derive(Clone, Copy, Debug, PartialEq, Eq)]
pub enum DelayMechanism {
    EndToEnd,
    PeerToPeer,
    NoMechanism,
}

impl DelayMechanism {
    ghost use Rattle.std.specs.Prelude.{◌≡◌, IfSome, Some};
    ghost use Rattle.ptpm_data.specs.PortState.{mechanism_number, mechanism_of};
    ghost use Rattle.ptpm_data.specs.declared.port_state.DelayMechanism.{DelayMechanism};

    /// Its number.
    pub fn number(self) -> u8
        ensures { result ≡ mechanism_number self }
    {
        match self {
            DelayMechanism::EndToEnd => 1,
            DelayMechanism::PeerToPeer => 2,
            DelayMechanism::NoMechanism => 0xfe,
        }
    }

    /// The mechanism of a number, if it is one's.
    pub fn from_number(number: u8) -> Option<DelayMechanism>
        ensures exact { result ≡ mechanism_of number }
        ensures numbered { IfSome result (λ m. mechanism_number m ≡ number) }
        ensures found { (m : DelayMechanism) → mechanism_number m ≡ number → result ≡ Some m }
    {
        match number {
            1 => Some(DelayMechanism::EndToEnd),
            2 => Some(DelayMechanism::PeerToPeer),
            0xfe => Some(DelayMechanism::NoMechanism),
            _ => None,
        }
    }
}
