//! The numbers that the standard names: one table for texts, for JSON, for charts and for what is typed.

ghost use Rattle.std.specs.Prelude.{◌≡◌, option_map};
ghost use Rattle.ptpm_members.specs.NumberNames.{is_name, mechanism_name, mechanism_number_name, name_of, named_numbers, number_of, source_name, state_name, timestamping_name};

use ptpm_data::{DelayMechanism, PortState};

/// An Enumeration8 whose numbers have names (5.2).
#[derive(Clone, Copy, Debug, PartialEq, Eq)]
pub enum Enumeration {
    /// portState (8.2.15.3.1, table 20).
    PortState,
    /// delayMechanism (8.2.15.4.4, table 21).
    DelayMechanism,
    /// timeSource (7.6.2.8, table 6).
    TimeSource,
    /// A way of timestamping, of linuxptp.
    Timestamping,
}

impl Enumeration {
    /// The name of a number; none if it has none.
    pub fn name_of(self, number: u8) -> Option<&'static str>
        ensures { option_map (λ name. name.now) result ≡ name_of self number }
    {
        match self {
            Enumeration::PortState => match PortState::from_number(number) {
                Some(state) => Some(state_name(state)),
                None => None,
            },
            Enumeration::DelayMechanism => mechanism_number_name(number),
            Enumeration::TimeSource => source_name(number),
            Enumeration::Timestamping => timestamping_name(number),
        }
    }

    /// The number of a name, in either case.
    pub fn number_of(self, name: &str) -> Option<u8>
        ensures { result ≡ number_of self name.now }
    {
        for number in self.named_numbers() {
            if is_name(name, self.name_of(*number)) {
                return Some(*number);
            }
        }
        None
    }

    /// The numbers that have a name.
    pub(crate) fn named_numbers(self) -> &'static [u8]
        ensures { result.now ≡ named_numbers self }
    {
        match self {
            Enumeration::PortState => &[1, 2, 3, 4, 5, 6, 7, 8, 9],
            Enumeration::DelayMechanism => &[1, 2, 3, 4, 0xfe],
            Enumeration::TimeSource => &[0x10, 0x20, 0x30, 0x39, 0x40, 0x50, 0x60, 0x90, 0xa0],
            Enumeration::Timestamping => &[0, 1, 2, 3, 4],
        }
    }
}

/// The standard's name of a port's state (9.2.5, table 10).
pub fn state_name(state: PortState) -> &'static str
    ensures { result.now ≡ state_name state }
{
    match state {
        PortState::Initializing => "INITIALIZING",
        PortState::Faulty => "FAULTY",
        PortState::Disabled => "DISABLED",
        PortState::Listening => "LISTENING",
        PortState::PreMaster => "PRE_MASTER",
        PortState::Master => "MASTER",
        PortState::Passive => "PASSIVE",
        PortState::Uncalibrated => "UNCALIBRATED",
        PortState::Slave => "SLAVE",
    }
}

/// The standard's name of a delay mechanism (8.2.15.4.4, table 21).
pub fn mechanism_name(mechanism: DelayMechanism) -> &'static str
    ensures { result.now ≡ mechanism_name mechanism }
{
    match mechanism {
        DelayMechanism::EndToEnd => "E2E",
        DelayMechanism::PeerToPeer => "P2P",
        DelayMechanism::NoMechanism => "NO_MECHANISM",
    }
}

/// The name of a delayMechanism by its number. Those that no clock of this project has are among them.
fn mechanism_number_name(number: u8) -> Option<&'static str>
    ensures { option_map (λ name. name.now) result ≡ mechanism_number_name number }
{
    match DelayMechanism::from_number(number) {
        Some(mechanism) => Some(mechanism_name(mechanism)),
        None => match number {
            3 => Some("COMMON_P2P"),
            4 => Some("SPECIAL"),
            _ => None,
        },
    }
}

fn source_name(number: u8) -> Option<&'static str>
    ensures { option_map (λ name. name.now) result ≡ source_name number }
{
    match number {
        0x10 => Some("ATOMIC_CLOCK"),
        0x20 => Some("GNSS"),
        0x30 => Some("TERRESTRIAL_RADIO"),
        0x39 => Some("SERIAL_TIME_CODE"),
        0x40 => Some("PTP"),
        0x50 => Some("NTP"),
        0x60 => Some("HAND_SET"),
        0x90 => Some("OTHER"),
        0xa0 => Some("INTERNAL_OSCILLATOR"),
        _ => None,
    }
}

fn timestamping_name(number: u8) -> Option<&'static str>
    ensures { option_map (λ name. name.now) result ≡ timestamping_name number }
{
    match number {
        0 => Some("SOFTWARE"),
        1 => Some("HARDWARE"),
        2 => Some("LEGACY_HW"),
        3 => Some("ONESTEP"),
        4 => Some("P2P1STEP"),
        _ => None,
    }
}

/// Whether a text is this name, in either case.
fn is_name(text: &str, name: Option<&str>) -> bool
    ensures { result ≡ is_name text.now (option_map (λ name. name.now) name.entry) }
{
    match name {
        Some(name) => text.eq_ignore_ascii_case(name),
        None => false,
    }
}
