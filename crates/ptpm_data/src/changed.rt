//! Which members of a clock and of its ports have another value than before (this project's profile).

ghost use Rattle.std.specs.Prelude.{◌≡◌, ◌≤◌, ◌<◌, ◌^◌, ℕ, length, ⊤, ◌∷◌, [], bytes_eq, codes, not};
ghost use Rattle.ptpm_data.specs.Changed.{differ, number_of};
ghost use Rattle.ptpm_data.specs.MemberMap.{port_identity};

use crate::data_sets::{DataSets, PortDataSet};
use crate::port_setting::PortSetting;
use crate::port_settings::PortSettings;
use crate::ports::PORTS;
use crate::snapshot::Snapshot;
use bitflags::{Flag, Flags, bitflag_items};
use ptpm_codec::PortIdentity;

/// A set of members of a clock, of each a bit, in the order of `Member`.
#[repr(C)]
#[derive(Clone, Copy, PartialEq, Eq, Debug)]
pub struct ClockMembers(pub u32);

impl ClockMembers {
    /// No member.
    pub const NONE: ClockMembers = ClockMembers(0);
}

/// A set of members of a port, of each a bit, in the order of `Member`.
#[repr(C)]
#[derive(Clone, Copy, PartialEq, Eq, Debug)]
pub struct PortMembers(pub u8);

impl PortMembers {
    /// No member.
    pub const NONE: PortMembers = PortMembers(0);

    /// Every member of a port.
    pub const ALL: PortMembers = PortMembers(0xff);
}

bitflag_items! {
    impl ClockMembers: u32 {
        const IDENTITY = 1 << 0;
        const DOMAIN = 1 << 1;
        const USER_DESCRIPTION = 1 << 2;
        const TWO_STEP = 1 << 3;
        const PRIORITY1 = 1 << 4;
        const CLOCK_CLASS = 1 << 5;
        const CLOCK_ACCURACY = 1 << 6;
        const VARIANCE = 1 << 7;
        const PRIORITY2 = 1 << 8;
        const STEPS_REMOVED = 1 << 9;
        const OFFSET_FROM_MASTER = 1 << 10;
        const MEAN_PATH_DELAY = 1 << 11;
        const PARENT_PORT = 1 << 12;
        const PARENT_STATS = 1 << 13;
        const OBSERVED_VARIANCE = 1 << 14;
        const OBSERVED_RATE = 1 << 15;
        const GRANDMASTER_PRIORITY1 = 1 << 16;
        const GRANDMASTER_CLASS = 1 << 17;
        const GRANDMASTER_ACCURACY = 1 << 18;
        const GRANDMASTER_VARIANCE = 1 << 19;
        const GRANDMASTER_PRIORITY2 = 1 << 20;
        const GRANDMASTER = 1 << 21;
        const UTC_OFFSET = 1 << 22;
        const LEAP61 = 1 << 23;
        const LEAP59 = 1 << 24;
        const UTC_VALID = 1 << 25;
        const PTP_TIMESCALE = 1 << 26;
        const TIME_TRACEABLE = 1 << 27;
        const FREQUENCY_TRACEABLE = 1 << 28;
        const TIME_SOURCE = 1 << 29;
    }
}

bitflag_items! {
    impl PortMembers: u8 {
        const STATE = 1 << 0;
        const LOG_MIN_DELAY_REQ = 1 << 1;
        const PEER_DELAY = 1 << 2;
        const LOG_ANNOUNCE = 1 << 3;
        const RECEIPT_TIMEOUT = 1 << 4;
        const LOG_SYNC = 1 << 5;
        const DELAY_MECHANISM = 1 << 6;
        const LOG_MIN_PDELAY = 1 << 7;
    }
}

impl Flags for ClockMembers {
    type Bits = u32;

    ghost exact = { ⊤ };

    ghost table = { (codes "IDENTITY", 1) ∷ (codes "DOMAIN", 2) ∷ (codes "USER_DESCRIPTION", 4)
        ∷ (codes "TWO_STEP", 8) ∷ (codes "PRIORITY1", 16) ∷ (codes "CLOCK_CLASS", 32) ∷ (codes "CLOCK_ACCURACY", 64)
        ∷ (codes "VARIANCE", 128) ∷ (codes "PRIORITY2", 256) ∷ (codes "STEPS_REMOVED", 512)
        ∷ (codes "OFFSET_FROM_MASTER", 1024) ∷ (codes "MEAN_PATH_DELAY", 2048) ∷ (codes "PARENT_PORT", 4096)
        ∷ (codes "PARENT_STATS", 8192) ∷ (codes "OBSERVED_VARIANCE", 16384) ∷ (codes "OBSERVED_RATE", 32768)
        ∷ (codes "GRANDMASTER_PRIORITY1", 65536) ∷ (codes "GRANDMASTER_CLASS", 131072)
        ∷ (codes "GRANDMASTER_ACCURACY", 262144) ∷ (codes "GRANDMASTER_VARIANCE", 524288)
        ∷ (codes "GRANDMASTER_PRIORITY2", 1048576) ∷ (codes "GRANDMASTER", 2097152) ∷ (codes "UTC_OFFSET", 4194304)
        ∷ (codes "LEAP61", 8388608) ∷ (codes "LEAP59", 16777216) ∷ (codes "UTC_VALID", 33554432)
        ∷ (codes "PTP_TIMESCALE", 67108864) ∷ (codes "TIME_TRACEABLE", 134217728)
        ∷ (codes "FREQUENCY_TRACEABLE", 268435456) ∷ (codes "TIME_SOURCE", 536870912) ∷ [] };

    ghost set_of = { λ m. m.0 };

    fn flags<'a>() -> &'a [Flag<ClockMembers>] {
        ClockMembers::FLAGS
    }

    fn bits(&self) -> u32 {
        self.0
    }

    fn from_bits_retain(bits: u32) -> ClockMembers {
        ClockMembers(bits)
    }
}

impl Flags for PortMembers {
    type Bits = u8;

    ghost exact = { ⊤ };

    ghost table = { (codes "STATE", 1) ∷ (codes "LOG_MIN_DELAY_REQ", 2) ∷ (codes "PEER_DELAY", 4) ∷ (codes "LOG_ANNOUNCE", 8)
        ∷ (codes "RECEIPT_TIMEOUT", 16) ∷ (codes "LOG_SYNC", 32) ∷ (codes "DELAY_MECHANISM", 64) ∷ (codes "LOG_MIN_PDELAY", 128) ∷ [] };

    ghost set_of = { λ m. m.0 };

    fn flags<'a>() -> &'a [Flag<PortMembers>] {
        PortMembers::FLAGS
    }

    fn bits(&self) -> u8 {
        self.0
    }

    fn from_bits_retain(bits: u8) -> PortMembers {
        PortMembers(bits)
    }
}

/// Members of a clock and of its ports.
#[repr(C)]
#[derive(Clone, Copy, PartialEq, Eq, Debug)]
pub struct ChangedMembers {
    pub clock: ClockMembers,
    /// Those of port 1, port 2 and so on.
    pub ports: [PortMembers; PORTS],
}

const _: () = prove!(size_of::<ChangedMembers>() == 68);

impl ChangedMembers {
    /// No member.
    pub const NONE: ChangedMembers = ChangedMembers {
        clock: ClockMembers::NONE,
        ports: [PortMembers::NONE; PORTS],
    };
}

/// The number of these binary digits, the lowest first.
pub(crate) fn number_of(digits: &[bool]) -> u32
    requires { length digits.now ≤ 32 }
    ensures exact { result ≡ number_of digits.now }
    ensures few { result < 2 ^ length digits.now }
{
    let mut number = 0;
    for place in 0..digits.len() {
        number = 2 * number + u32::from(digits[digits.len() - 1 - place]);
    }
    number
}

/// The greater of two numbers.
fn greater(a: u16, b: u16) -> u16
    ensures at_least_a { a ≤ result }
    ensures at_least_b { b ≤ result }
    ensures most { (n : ℕ) → a ≤ n → b ≤ n → result ≤ n }
{
    if a < b { b } else { a }
}

/// Whether two values differ.
pub(crate) fn differ<T: PartialEq>(before: &T, after: &T) -> bool
    ensures { result ≡ not (T.eq before.now after.now) }
{
    before != after
}

/// Whether two texts differ.
pub(crate) fn texts_differ(before: &[u8], after: &[u8]) -> bool
    ensures { result ≡ not (bytes_eq before.now after.now) }
{
    before != after
}

/// Whether two ports differ.
fn port_identities_differ(before: &PortIdentity, after: &PortIdentity) -> bool
    ensures { result ≡ differ (port_identity before.now) (port_identity after.now) }
{
    before.clock != after.clock || before.port != after.port
}

impl PortSettings {
    ghost use Rattle.ptpm_data.specs.MemberMap.{integer};

    /// Whether a setting had another value before.
    fn differs(&self, before: &PortSettings, setting: PortSetting) -> bool
        ensures { result ≡ differ (integer (before.now setting)) (integer (self.now setting)) }
    {
        differ(&before.value(setting), &self.value(setting))
    }
}

impl PortDataSet {
    ghost use Rattle.ptpm_data.specs.Changed.{members_changed};

    /// The members of the port whose values were others before.
    pub(crate) fn changed_since(&self, before: &PortDataSet) -> PortMembers
        ensures { result ≡ members_changed (Some before.now) (Some self.now) }
    {
        let settings = &self.settings;
        let digits = [
            differ(&before.state.number(), &self.state.number()),
            differ(&before.log_min_delay_req, &self.log_min_delay_req),
            differ(&before.peer_delay, &self.peer_delay),
            settings.differs(&before.settings, PortSetting::LogAnnounceInterval),
            settings.differs(&before.settings, PortSetting::AnnounceReceiptTimeout),
            settings.differs(&before.settings, PortSetting::LogSyncInterval),
            settings.differs(&before.settings, PortSetting::DelayMechanism),
            settings.differs(&before.settings, PortSetting::LogMinPdelayReqInterval),
        ];
        PortMembers(number_of(&digits) as u8)
    }
}

impl DataSets {
    ghost use Rattle.ptpm_data.specs.Changed.{changed, clock_changed, port_changed};

    /// The members whose values were others before. A port that only one of the two has differs in each member. Takes no
    /// memory.
    pub fn changed_since(&self, before: &Snapshot<'_>) -> ChangedMembers
        ensures { result ≡ changed before.now self.now }
    {
        let mut ports = [PortMembers::NONE; PORTS];
        for place in 0..greater(self.port_count(), before.port_count()) {
            ports[place as usize] = self.port_changed_since(before, place + 1);
        }
        ChangedMembers {
            clock: self.clock_changed_since(before),
            ports,
        }
    }

    /// The members of a port whose values were others before.
    #[tactic(auto, using(crate::proofs::Differing::of_neither, crate::proofs::Differing::none_told, crate::proofs::Differing::of_the_former, crate::proofs::Differing::some_told, crate::proofs::Differing::of_the_latter))]
    fn port_changed_since(&self, before: &Snapshot<'_>, port: u16) -> PortMembers
        ensures { result ≡ port_changed before.now self.now port }
    {
        match (before.port(port), self.port(port)) {
            (Some(before), Some(after)) => after.changed_since(before),
            (None, None) => PortMembers::NONE,
            (Some(_), None) => PortMembers::ALL,
            (None, Some(_)) => PortMembers::ALL,
        }
    }

    /// The members of the clock whose values were others before.
    fn clock_changed_since(&self, before: &Snapshot<'_>) -> ClockMembers
        ensures { result ≡ clock_changed before.now self.now }
    {
        let own = &before.default.precedence;
        let current = &before.current;
        let parent = &before.parent;
        let shown = &before.parent.precedence;
        let time = &before.time;
        let digits = [
            differ(&before.default.identity, &self.default.identity),
            differ(&before.default.domain, &self.default.domain),
            texts_differ(before.description.text(), self.description.text()),
            differ(&before.default.two_step, &self.default.two_step),
            differ(&own.priority1, &self.default.precedence.priority1),
            differ(&own.class, &self.default.precedence.class),
            differ(&own.accuracy, &self.default.precedence.accuracy),
            differ(&own.variance, &self.default.precedence.variance),
            differ(&own.priority2, &self.default.precedence.priority2),
            differ(&current.steps_removed, &self.current.steps_removed),
            differ(
                &current.offset_from_master,
                &self.current.offset_from_master,
            ),
            differ(&current.mean_path_delay, &self.current.mean_path_delay),
            port_identities_differ(&parent.parent_port, &self.parent.parent_port),
            differ(&parent.parent_stats, &self.parent.parent_stats),
            differ(&parent.observed_variance, &self.parent.observed_variance),
            differ(&parent.observed_rate, &self.parent.observed_rate),
            differ(&shown.priority1, &self.parent.precedence.priority1),
            differ(&shown.class, &self.parent.precedence.class),
            differ(&shown.accuracy, &self.parent.precedence.accuracy),
            differ(&shown.variance, &self.parent.precedence.variance),
            differ(&shown.priority2, &self.parent.precedence.priority2),
            differ(&parent.grandmaster, &self.parent.grandmaster),
            differ(&time.utc_offset, &self.time.utc_offset),
            differ(&time.leap61, &self.time.leap61),
            differ(&time.leap59, &self.time.leap59),
            differ(&time.utc_valid, &self.time.utc_valid),
            differ(&time.ptp_timescale, &self.time.ptp_timescale),
            differ(&time.time_traceable, &self.time.time_traceable),
            differ(&time.frequency_traceable, &self.time.frequency_traceable),
            differ(&time.time_source, &self.time.time_source),
        ];
        ClockMembers(number_of(&digits))
    }
}
