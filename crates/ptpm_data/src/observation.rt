//! What a host observes of its clock, and the data sets after it (clause 8.2). These are the members that a servo, the port
//! state machines and the best master clock algorithm find. Which of them a host may observe is this project's profile. What
//! only managers set, such as priorities, intervals and texts, is not among them.

ghost use Rattle.std.specs.Prelude.{◌≡◌, ◌≤◌, length};
ghost use Rattle.ptpm_data.specs.Observation.{disables_one, grandmaster_differs, left_disabled, ports_after};

use crate::data_sets::{
    ClockPrecedence, CurrentDataSet, DataSets, DefaultDataSet, ParentDataSet, PortDataSet,
    TimePropertiesDataSet,
};
use crate::management_id::{Layout, set_of};
use crate::members::Member;
use crate::port_state::PortState;
use crate::ports::PORTS;
use arrayvec::ArrayVec;
use ptpm_codec::{ClockIdentity, PortIdentity};
use std::fmt;
use std::marker::Model;
use thiserror::Error;

/// What is observed of a clock. A member that is `None` is not observed, and stays. A member that a manager sets too has
/// two writers: the later wins.
#[derive(Clone, Copy, Debug, PartialEq, Eq, Default)]
pub struct ClockObservation {
    /// clockClass of the clock itself (8.2.1.3.1).
    pub clock_class: Option<u8>,
    /// clockAccuracy of the clock itself (8.2.1.3.1): 0x17 to 0x31, or 0xFE. A manager sets it too.
    pub clock_accuracy: Option<u8>,
    /// offsetScaledLogVariance of the clock itself (8.2.1.3.1).
    pub variance: Option<u16>,
    /// stepsRemoved (8.2.2.2).
    pub steps_removed: Option<u16>,
    /// offsetFromMaster (8.2.2.3): a TimeInterval, in nanoseconds times 2^16.
    pub offset_from_master: Option<i64>,
    /// meanDelay (8.2.2.4): a TimeInterval, in nanoseconds times 2^16.
    pub mean_path_delay: Option<i64>,
    /// parentStats (8.2.3.3): whether the two observed members are measured values.
    pub parent_stats: Option<bool>,
    /// observedParentOffsetScaledLogVariance (8.2.3.4).
    pub observed_variance: Option<u16>,
    /// observedParentClockPhaseChangeRate (8.2.3.5): seconds a second, times 2^40.
    pub observed_rate: Option<i32>,
    /// The grandmaster and the parent port (8.2.3.2, 8.2.3.6 to 8.2.3.9). If it is `None`, the quality of a grandmaster that
    /// is the clock itself follows the clock's own.
    pub grandmaster: Option<ObservedGrandmaster>,
    /// currentUtcOffset, in seconds (8.2.4.2). A manager sets it too, as the two leaps and `utc_valid`.
    pub utc_offset: Option<i16>,
    /// leap61 (8.2.4.5); `leap61` and `leap59` are not both true afterwards.
    pub leap61: Option<bool>,
    /// leap59 (8.2.4.4).
    pub leap59: Option<bool>,
    /// currentUtcOffsetValid (8.2.4.3).
    pub utc_valid: Option<bool>,
    /// ptpTimescale (8.2.4.8).
    pub ptp_timescale: Option<bool>,
    /// timeTraceable (8.2.4.6).
    pub time_traceable: Option<bool>,
    /// frequencyTraceable (8.2.4.7).
    pub frequency_traceable: Option<bool>,
    /// timeSource (8.2.4.9).
    pub time_source: Option<u8>,
}

/// The grandmaster that a clock has found, whole.
#[derive(Clone, Copy, Debug, PartialEq, Eq)]
pub enum ObservedGrandmaster {
    /// The clock itself: its own identity, priorities and quality, and its port 0 as the parent port (9.3.5, table 30).
    Itself,
    /// The grandmaster that the parent port announces.
    Announced(AnnouncedGrandmaster),
}

/// A grandmaster as the parent port announces it (8.2.3).
#[derive(Clone, Copy, Debug, PartialEq, Eq)]
pub struct AnnouncedGrandmaster {
    /// parentPortIdentity (8.2.3.2).
    pub parent_port: PortIdentity,
    /// grandmasterIdentity (8.2.3.6). If it is the clock's own, so are the priorities and the quality.
    pub identity: ClockIdentity,
    /// grandmasterClockQuality (8.2.3.7), and grandmasterPriority1 and 2 (8.2.3.8, 8.2.3.9).
    pub precedence: ClockPrecedence,
}

/// What is observed of a port. A member that is `None` is not observed, and stays.
#[derive(Clone, Copy, Debug, PartialEq, Eq, Default)]
pub struct PortObservation {
    /// portState (8.2.15.3.1). Only COMMANDs disable a port or enable it. So DISABLED is refused at an enabled port, and the
    /// state of a disabled port stays, whatever is observed.
    pub state: Option<PortState>,
    /// meanLinkDelay (8.2.15.3.3): a TimeInterval, in nanoseconds times 2^16.
    pub peer_delay: Option<i64>,
}

/// Why an observation is refused, in the order in which the reasons are judged.
#[derive(Clone, Copy, Debug, PartialEq, Eq, Error)]
pub enum ObservationError {
    /// More places than the clock has ports.
    NoPort,
    /// The member would be out of its range: clockAccuracy, leap59 beside leap61, or the state DISABLED at an enabled port.
    BadValue(Member),
    /// The clock would be its own grandmaster, with a priority or quality of the grandmaster that is not its own.
    GrandmasterDiffers,
}

/// The name, and after `BadValue` that of the member.
impl fmt::Display for ObservationError {
    ghost use Rattle.std.specs.Prelude.{Some};
    ghost use Rattle.ptpm_data.specs.ErrorText.{observation_error_text};

    ghost output = { λ fault. Some (observation_error_text fault) };

    fn fmt<W: fmt::Write>(&self, f: &mut fmt::Formatter<W>) -> fmt::Result {
        match self {
            ObservationError::NoPort => f.write_str("NoPort"),
            ObservationError::BadValue(member) => write!(f, "BadValue {member}"),
            ObservationError::GrandmasterDiffers => f.write_str("GrandmasterDiffers"),
        }
    }
}

/// The disabled ports at which a state was observed, and which stayed DISABLED: a host stops them. Contracts see it as a
/// truth value for each place of the observation.
#[derive(Debug, Drop)]
pub struct PortsLeftDisabled {
    by_place: ArrayVec<bool, PORTS>,
}

impl Model for PortsLeftDisabled {
    ghost use Rattle.std.specs.Prelude.{Bool, List};
    ghost use Rattle.ptpm_data.specs.Observation.{ports_left};

    ghost Value = { List Bool };

    ghost view = { ports_left };
}

impl PortsLeftDisabled {
    ghost use Rattle.ptpm_data.specs.Observation.{is_left};

    /// Whether that port, counted from 1, was left so.
    pub fn contains(&self, port: u16) -> bool
        ensures { result ≡ is_left port self.now }
    {
        match port
            .checked_sub(1)
            .and_then(|place| self.by_place.get(place as usize))
        {
            Some(left) => *left,
            None => false,
        }
    }
}

impl ClockObservation {
    ghost use Rattle.ptpm_data.specs.Observation.{quality_after, default_after, current_after, time_after, grandmaster_after, grandmaster_identity, grandmaster_parent, grandmaster_precedence, parent_after, statistics_after};

    fn quality_after(&self, before: ClockPrecedence) -> ClockPrecedence
        ensures { result ≡ quality_after self.now before }
    {
        ClockPrecedence {
            class: self.clock_class.unwrap_or(before.class),
            accuracy: self.clock_accuracy.unwrap_or(before.accuracy),
            variance: self.variance.unwrap_or(before.variance),
            ..before
        }
    }

    fn default_after(&self, before: &DefaultDataSet) -> DefaultDataSet
        ensures { result ≡ default_after self.now before.now }
    {
        DefaultDataSet {
            precedence: self.quality_after(before.precedence),
            ..*before
        }
    }

    fn current_after(&self, before: &CurrentDataSet) -> CurrentDataSet
        ensures { result ≡ current_after self.now before.now }
    {
        CurrentDataSet {
            steps_removed: self.steps_removed.unwrap_or(before.steps_removed),
            offset_from_master: self.offset_from_master.unwrap_or(before.offset_from_master),
            mean_path_delay: self.mean_path_delay.unwrap_or(before.mean_path_delay),
        }
    }

    fn time_after(&self, before: &TimePropertiesDataSet) -> TimePropertiesDataSet
        ensures { result ≡ time_after self.now before.now }
    {
        TimePropertiesDataSet {
            utc_offset: self.utc_offset.unwrap_or(before.utc_offset),
            leap61: self.leap61.unwrap_or(before.leap61),
            leap59: self.leap59.unwrap_or(before.leap59),
            utc_valid: self.utc_valid.unwrap_or(before.utc_valid),
            ptp_timescale: self.ptp_timescale.unwrap_or(before.ptp_timescale),
            time_traceable: self.time_traceable.unwrap_or(before.time_traceable),
            frequency_traceable: self
                .frequency_traceable
                .unwrap_or(before.frequency_traceable),
            time_source: self.time_source.unwrap_or(before.time_source),
        }
    }

    /// The grandmaster's members, by the clock's own before.
    fn grandmaster_after(&self, default: &DefaultDataSet, before: ParentDataSet) -> ParentDataSet
        ensures { result ≡ grandmaster_after self.now.grandmaster self.now default.now before }
    {
        match self.grandmaster {
            None if before.grandmaster == default.identity => ParentDataSet {
                precedence: self.quality_after(before.precedence),
                ..before
            },
            None => before,
            Some(ObservedGrandmaster::Itself) => ParentDataSet {
                parent_port: PortIdentity {
                    clock: default.identity,
                    port: 0,
                },
                grandmaster: default.identity,
                precedence: self.quality_after(default.precedence),
                ..before
            },
            Some(ObservedGrandmaster::Announced(announced)) => ParentDataSet {
                parent_port: announced.parent_port,
                grandmaster: announced.identity,
                precedence: announced.precedence,
                ..before
            },
        }
    }

    fn parent_after(&self, default: &DefaultDataSet, before: &ParentDataSet) -> ParentDataSet
        ensures { result ≡ parent_after self.now default.now before.now }
    {
        let found = self.grandmaster_after(default, *before);
        ParentDataSet {
            parent_stats: self.parent_stats.unwrap_or(found.parent_stats),
            observed_variance: self.observed_variance.unwrap_or(found.observed_variance),
            observed_rate: self.observed_rate.unwrap_or(found.observed_rate),
            ..found
        }
    }
}

impl PortDataSet {
    ghost use Rattle.ptpm_data.specs.Observation.{is_disabled};

    fn is_disabled(&self) -> bool
        ensures { result ≡ is_disabled self.now.state }
    {
        matches!(self.state, PortState::Disabled)
    }
}

impl PortObservation {
    ghost use Rattle.ptpm_data.specs.Observation.{disables, is_left_disabled, port_after};

    /// Whether the state DISABLED is observed at an enabled port.
    fn disables(&self, port: &PortDataSet) -> bool
        ensures { result ≡ disables self.now port.now }
    {
        matches!(self.state, Some(PortState::Disabled)) && !port.is_disabled()
    }

    /// Whether a state is observed at a disabled port.
    fn leaves_disabled(&self, port: &PortDataSet) -> bool
        ensures { result ≡ is_left_disabled self.now port.now }
    {
        self.state.is_some() && port.is_disabled()
    }

    fn move_members(&self, port: &mut PortDataSet)
        ensures { port.new ≡ port_after self.now port.old }
    {
        if !port.is_disabled() {
            port.state = self.state.unwrap_or(port.state);
        }
        port.peer_delay = self.peer_delay.unwrap_or(port.peer_delay);
    }
}

/// Whether the state DISABLED is observed at an enabled port.
#[tactic(auto, using(crate::proofs::Observed::disables_found, crate::proofs::Observed::disables_on), unfolding(crate::specs::Observation::disables_one))]
fn disables_one(observed: &[PortObservation], ports: &[PortDataSet]) -> bool
    requires { length observed.now ≤ length ports.now }
    ensures { result ≡ disables_one observed.now ports.now }
{
    let mut disables = false;
    for place in 0..observed.len() {
        disables = disables || observed[place].disables(&ports[place]);
    }
    disables
}

#[tactic(auto, using(crate::proofs::Observed::left_more), unfolding(crate::specs::Observation::left_disabled))]
fn left_disabled(observed: &[PortObservation], ports: &[PortDataSet]) -> PortsLeftDisabled
    requires fit { length observed.now ≤ length ports.now }
    requires few { length ports.now ≤ PORTS }
    ensures { result ≡ left_disabled observed.now ports.now }
{
    let mut by_place = ArrayVec::new();
    for place in 0..observed.len() {
        by_place.push(observed[place].leaves_disabled(&ports[place]));
    }
    PortsLeftDisabled { by_place }
}

pub(crate) fn move_ports(observed: &[PortObservation], ports: &mut [PortDataSet])
    requires { length observed.now ≤ length ports.old }
    ensures { ports.new ≡ ports_after observed.now ports.old }
{
    for place in 0..observed.len() {
        observed[place].move_members(&mut ports[place]);
    }
}

/// Whether a clock would be its own grandmaster with priorities or a quality that are not its own (9.3.5).
pub(crate) fn grandmaster_differs(default: &DefaultDataSet, parent: &ParentDataSet) -> bool
    ensures { result ≡ grandmaster_differs default.now parent.now }
{
    parent.grandmaster == default.identity && parent.precedence != default.precedence
}

impl DataSets {
    ghost use Rattle.std.specs.Prelude.{OnErr};
    ghost use Rattle.ptpm_data.specs.Start.{unless};
    ghost use Rattle.ptpm_data.specs.Observation.{observation_refusal, observed};

    /// Why an observation would be refused.
    #[tactic(auto, unfolding(crate::specs::Observation::observation_refusal))]
    fn judge_observation(
        &self,
        clock: &ClockObservation,
        ports: &[PortObservation],
    ) -> Result<(), ObservationError>
        ensures { result ≡ unless (observation_refusal clock.now ports.now self.now) tt }
    {
        let default = clock.default_after(&self.default);
        let time = clock.time_after(&self.time);
        if self.ports.as_slice().len() < ports.len() {
            Err(ObservationError::NoPort)
        } else if !set_of(Layout::ClockAccuracy).allows_octet(default.precedence.accuracy) {
            Err(ObservationError::BadValue(Member::ClockAccuracy))
        } else if time.leap61 && time.leap59 {
            Err(ObservationError::BadValue(Member::Leap59))
        } else if disables_one(ports, self.ports.as_slice()) {
            Err(ObservationError::BadValue(Member::State))
        } else if grandmaster_differs(&default, &clock.parent_after(&self.default, &self.parent)) {
            Err(ObservationError::GrandmasterDiffers)
        } else {
            Ok(())
        }
    }

    /// Sets exactly the observed members, of the clock and of its ports from 1 on. Exceptions: a disabled port keeps its state
    /// and is reported; a clock that is its own grandmaster shows its own quality as the grandmaster's. Takes no memory.
    ///
    /// Refused with the first `ObservationError` that holds, judged on the data sets as they would be; then nothing changes.
    #[tactic(auto, using(crate::proofs::Observed::observe_laws), unfolding(crate::specs::Observation::observed))]
    pub fn observe(
        &mut self,
        clock: &ClockObservation,
        ports: &[PortObservation],
    ) -> Result<PortsLeftDisabled, ObservationError>
        ensures answer { result
            ≡ unless (observation_refusal clock.now ports.now self.old)
            (left_disabled ports.now self.old.ports) }
        ensures moved { self.new ≡ observed clock.now ports.now self.old }
        ensures unchanged { OnErr result (self.new ≡ self.old) }
    {
        self.judge_observation(clock, ports)?;
        let left = left_disabled(ports, self.ports.as_slice());
        self.parent = clock.parent_after(&self.default, &self.parent);
        self.default = clock.default_after(&self.default);
        self.current = clock.current_after(&self.current);
        self.time = clock.time_after(&self.time);
        self.ports.observe(ports);
        Ok(left)
    }
}
