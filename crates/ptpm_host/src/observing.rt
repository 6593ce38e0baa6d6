//! What a host observes of its clock, as a host in C lays it out (clause 8.2). Which members it may observe is this
//! project's profile.

ghost use Rattle.std.specs.Prelude.{◌≡◌, ◌≤◌, length, take};
ghost use Rattle.ptpm_host.specs.Observing.{announced, clock_observation, grandmaster_of, left_number, port_observation, port_observations};

use crate::settings::given;
use ptpm_codec::{ClockIdentity, PortIdentity};
use ptpm_data::{
    AnnouncedGrandmaster, ClockObservation, ClockPrecedence, ObservedGrandmaster, PORTS,
    PortObservation, PortState, PortsLeftDisabled,
};

/// What is observed of a clock, those with the strictest alignment first. A flag is set if it is not 0. A flag `has_..` says
/// whether a member is observed. A member that is not observed stays.
#[repr(C)]
#[derive(Clone, Copy, Default)]
pub struct ObservedClock {
    /// A TimeInterval, in nanoseconds times 2^16.
    pub offset_from_master: i64,
    /// A TimeInterval, in nanoseconds times 2^16.
    pub mean_path_delay: i64,
    /// observedParentClockPhaseChangeRate.
    pub observed_rate: i32,
    /// offsetScaledLogVariance of the clock itself.
    pub variance: u16,
    pub steps_removed: u16,
    /// observedParentOffsetScaledLogVariance.
    pub observed_variance: u16,
    pub grandmaster_variance: u16,
    pub parent_port_number: u16,
    /// currentUtcOffset, in seconds.
    pub utc_offset: i16,
    pub parent_port_clock: [u8; 8],
    pub grandmaster: [u8; 8],
    /// clockClass of the clock itself.
    pub clock_class: u8,
    /// clockAccuracy of the clock itself: 0x17 to 0x31, or 0xFE.
    pub clock_accuracy: u8,
    pub parent_stats: u8,
    pub grandmaster_priority1: u8,
    pub grandmaster_class: u8,
    pub grandmaster_accuracy: u8,
    pub grandmaster_priority2: u8,
    /// Not both `leap61` and `leap59` afterwards.
    pub leap61: u8,
    pub leap59: u8,
    pub utc_valid: u8,
    pub ptp_timescale: u8,
    pub time_traceable: u8,
    pub frequency_traceable: u8,
    pub time_source: u8,
    pub has_clock_class: u8,
    pub has_clock_accuracy: u8,
    pub has_variance: u8,
    pub has_steps_removed: u8,
    pub has_offset_from_master: u8,
    pub has_mean_path_delay: u8,
    pub has_parent_stats: u8,
    pub has_observed_variance: u8,
    pub has_observed_rate: u8,
    /// The clock is its own grandmaster, and none of the members of a grandmaster counts.
    pub is_grandmaster: u8,
    /// A grandmaster is announced: its identity, priorities and quality, and the parent port.
    pub has_grandmaster: u8,
    pub has_utc_offset: u8,
    pub has_leap61: u8,
    pub has_leap59: u8,
    pub has_utc_valid: u8,
    pub has_ptp_timescale: u8,
    pub has_time_traceable: u8,
    pub has_frequency_traceable: u8,
    pub has_time_source: u8,
}

const _: () = prove!(size_of::<ObservedClock>() == 88);

/// What is observed of a port.
#[repr(C)]
#[derive(Clone, Copy, Default)]
pub struct ObservedPort {
    /// A TimeInterval, in nanoseconds times 2^16.
    pub peer_delay: i64,
    /// portState, 1 to 9; any other number counts as 3, DISABLED, which no enabled port is observed in.
    pub state: u8,
    pub has_state: u8,
    pub has_peer_delay: u8,
}

const _: () = prove!(size_of::<ObservedPort>() == 16);

impl ObservedClock {
    /// The observation that they describe.
    pub(crate) fn observation(&self) -> ClockObservation
        ensures { result ≡ clock_observation self.now }
    {
        ClockObservation {
            clock_class: given(self.has_clock_class, self.clock_class),
            clock_accuracy: given(self.has_clock_accuracy, self.clock_accuracy),
            variance: given(self.has_variance, self.variance),
            steps_removed: given(self.has_steps_removed, self.steps_removed),
            offset_from_master: given(self.has_offset_from_master, self.offset_from_master),
            mean_path_delay: given(self.has_mean_path_delay, self.mean_path_delay),
            parent_stats: given(self.has_parent_stats, self.parent_stats != 0),
            observed_variance: given(self.has_observed_variance, self.observed_variance),
            observed_rate: given(self.has_observed_rate, self.observed_rate),
            grandmaster: self.grandmaster(),
            utc_offset: given(self.has_utc_offset, self.utc_offset),
            leap61: given(self.has_leap61, self.leap61 != 0),
            leap59: given(self.has_leap59, self.leap59 != 0),
            utc_valid: given(self.has_utc_valid, self.utc_valid != 0),
            ptp_timescale: given(self.has_ptp_timescale, self.ptp_timescale != 0),
            time_traceable: given(self.has_time_traceable, self.time_traceable != 0),
            frequency_traceable: given(self.has_frequency_traceable, self.frequency_traceable != 0),
            time_source: given(self.has_time_source, self.time_source),
        }
    }

    fn grandmaster(&self) -> Option<ObservedGrandmaster>
        ensures { result ≡ grandmaster_of self.now }
    {
        if self.is_grandmaster == 0 {
            given(
                self.has_grandmaster,
                ObservedGrandmaster::Announced(self.announced()),
            )
        } else {
            Some(ObservedGrandmaster::Itself)
        }
    }

    fn announced(&self) -> AnnouncedGrandmaster
        ensures { result ≡ announced self.now }
    {
        AnnouncedGrandmaster {
            parent_port: PortIdentity {
                clock: ClockIdentity(self.parent_port_clock),
                port: self.parent_port_number,
            },
            identity: ClockIdentity(self.grandmaster),
            precedence: ClockPrecedence {
                priority1: self.grandmaster_priority1,
                class: self.grandmaster_class,
                accuracy: self.grandmaster_accuracy,
                variance: self.grandmaster_variance,
                priority2: self.grandmaster_priority2,
            },
        }
    }
}

impl ObservedPort {
    /// The observation that they describe.
    fn observation(&self) -> PortObservation
        ensures { result ≡ port_observation self.now }
    {
        let state = PortState::from_number(self.state).unwrap_or(PortState::Disabled);
        PortObservation {
            state: given(self.has_state, state),
            peer_delay: given(self.has_peer_delay, self.peer_delay),
        }
    }
}

/// What is in a place that no port has.
pub(crate) const UNOBSERVED: PortObservation = PortObservation {
    state: None,
    peer_delay: None,
};

/// Puts the observations of ports into the first places.
pub(crate) fn place_each(ports: &[ObservedPort], places: &mut [PortObservation; PORTS])
    requires { length ports.now ≤ PORTS }
    ensures { take (length ports.now) places.new ≡ port_observations ports.now }
{
    for place in 0..ports.len() {
        places[place] = ports[place].observation();
    }
}

/// The ports that stayed disabled: 1 for port 1, 2 for port 2, 4 for port 3, and so on, summed up.
#[tactic(auto, using(crate::proofs::ObservedPlaces::next_left, crate::proofs::ObservedPlaces::next_fits, crate::proofs::ObservedPlaces::in_word, crate::proofs::ObservedPlaces::bit_small), unfolding(crate::specs::Observing::left_number))]
pub fn left_number(left: &PortsLeftDisabled) -> u64
    ensures { result ≡ left_number left.now }
{
    let mut number = 0;
    for above in 0..PORTS {
        let port = (PORTS - above) as u16;
        number = left.contains(port) as u64 + 2 * number;
    }
    number
}
