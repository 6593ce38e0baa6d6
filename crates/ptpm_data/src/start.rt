//! The values that a clock starts with (clause 8; ranges and defaults are this project's profile).

ghost use Rattle.std.specs.Prelude.{◌≡◌, ◌≤◌, find, length, map, IfOk, MatchResult, not, option_map, Some, None};
ghost use Rattle.std.specs.Option.{option_copied};
ghost use Rattle.ptpm_data.specs.declared.start.StartError.TheVariants.{BadValue};
ghost use Rattle.ptpm_data.specs.Start.{port_data_set, ports_fault, count_fault, grandmaster_fault, start_fault, unless};

use crate::data_field::i8_octet;
use crate::data_sets::{
    ClockPrecedence, CurrentDataSet, DataSets, DefaultDataSet, ParentDataSet, PortDataSet,
    TimePropertiesDataSet,
};
use crate::description::Description;
use crate::image_places::i8_at;
use crate::management_id::{Layout, set_of};
use crate::members::Member;
use crate::observation::grandmaster_differs;
use crate::port_list::PortList;
use crate::port_setting::PortSetting;
use crate::port_settings::PortSettings;
use crate::port_state::PortState;
use crate::ports::{INLINE_PORTS, PORTS};
use arrayvec::ArrayVec;
use ptpm_codec::{ClockIdentity, OutOfMemory, PortIdentity};
use std::alloc::Global;
use std::{array, fmt};
use thiserror::Error;

/// The start values of a clock's own members. `None` is the clock's own value, or for `parent_port` its port 0.
#[derive(Debug, Drop)]
pub struct ClockStart {
    /// clockIdentity, not all ones.
    pub identity: ClockIdentity,
    /// domainNumber.
    pub domain: u8,
    /// userDescription, at most 128 octets of UTF-8; there is room for one more, so that a text too long can be judged.
    pub user_description: ArrayVec<u8, 129>,
    pub two_step: bool,
    pub priority1: u8,
    pub clock_class: u8,
    /// clockAccuracy: 0x17 to 0x31, or 0xFE.
    pub clock_accuracy: u8,
    /// offsetScaledLogVariance.
    pub variance: u16,
    pub priority2: u8,
    pub steps_removed: u16,
    /// A TimeInterval, in nanoseconds times 2^16.
    pub offset_from_master: i64,
    /// A TimeInterval, in nanoseconds times 2^16.
    pub mean_path_delay: i64,
    pub parent_port: Option<PortIdentity>,
    pub parent_stats: bool,
    /// observedParentOffsetScaledLogVariance.
    pub observed_variance: u16,
    /// observedParentClockPhaseChangeRate.
    pub observed_rate: i32,
    pub grandmaster_priority1: Option<u8>,
    pub grandmaster_class: Option<u8>,
    pub grandmaster_accuracy: Option<u8>,
    pub grandmaster_variance: Option<u16>,
    pub grandmaster_priority2: Option<u8>,
    pub grandmaster: Option<ClockIdentity>,
    /// currentUtcOffset, in seconds.
    pub utc_offset: i16,
    /// Not both `leap61` and `leap59`.
    pub leap61: bool,
    pub leap59: bool,
    pub utc_valid: bool,
    pub ptp_timescale: bool,
    pub time_traceable: bool,
    pub frequency_traceable: bool,
    pub time_source: u8,
}

/// The start values of a port. Intervals are log2 of seconds.
#[derive(Clone, Copy, Debug, PartialEq, Eq)]
pub struct PortStart {
    /// portState, 1 to 9 (8.2.15.3.1).
    pub state: u8,
    /// logMinDelayReqInterval, log2 of seconds, of any value.
    pub log_min_delay_req: i8,
    /// meanLinkDelay: a TimeInterval, in nanoseconds times 2^16.
    pub peer_delay: i64,
    /// logAnnounceInterval, log2 of seconds. Its range, and those of the four after it, are at `PortSetting`.
    pub log_announce: i8,
    /// announceReceiptTimeout, in announce intervals.
    pub receipt_timeout: u8,
    /// logSyncInterval, log2 of seconds.
    pub log_sync: i8,
    /// delayMechanism: 1 is end-to-end, 2 peer-to-peer, 0xFE none.
    pub delay_mechanism: u8,
    /// logMinPdelayReqInterval, log2 of seconds.
    pub log_min_pdelay: i8,
}

/// Why a clock can't start, in the order in which the reasons are judged.
#[derive(Clone, Copy, Debug, PartialEq, Eq, Error)]
pub enum StartError {
    /// A clock has a port at least.
    NoPorts,
    /// A clock has `PORTS` ports at most, and one that takes no memory `INLINE_PORTS`.
    TooManyPorts,
    /// A member is out of its range: the first such of the clock, else of the first port that has one.
    BadValue(Member),
    /// The clock is its own grandmaster, and a priority or quality of its grandmaster is not its own.
    GrandmasterDiffers,
}

/// Why a clock can't start with memory of its own.
#[derive(Clone, Copy, Debug, PartialEq, Eq)]
pub enum StartFault {
    Refused(StartError),
    /// The memory of its ports was refused. It is asked for last.
    OutOfMemory,
}

/// The name, and after `BadValue` that of the member.
impl fmt::Display for StartError {
    ghost use Rattle.std.specs.Prelude.{Some};
    ghost use Rattle.ptpm_data.specs.ErrorText.{start_error_text};

    ghost output = { λ fault. Some (start_error_text fault) };

    fn fmt<W: fmt::Write>(&self, f: &mut fmt::Formatter<W>) -> fmt::Result {
        match self {
            StartError::NoPorts => f.write_str("NoPorts"),
            StartError::TooManyPorts => f.write_str("TooManyPorts"),
            StartError::BadValue(member) => write!(f, "BadValue {member}"),
            StartError::GrandmasterDiffers => f.write_str("GrandmasterDiffers"),
        }
    }
}

impl ClockStart {
    ghost use Rattle.std.specs.Prelude.{◌≡◌};
    ghost use Rattle.ptpm_data.specs.Start.{default_clock, clock_fault, is_in_clock_range, judged_of_clock, unless, default_data_set, current_data_set, parent_data_set, time_data_set};

    /// A clock that is its own grandmaster, with no text and this profile's defaults.
    pub fn new(identity: ClockIdentity, domain: u8) -> ClockStart
        ensures { result ≡ default_clock identity domain }
    {
        ClockStart {
            identity,
            domain,
            user_description: ArrayVec::new(),
            two_step: true,
            priority1: 128,
            clock_class: 248,
            clock_accuracy: 0xfe,
            variance: 0xffff,
            priority2: 128,
            steps_removed: 0,
            offset_from_master: 0,
            mean_path_delay: 0,
            parent_port: None,
            parent_stats: false,
            observed_variance: 0xffff,
            observed_rate: 0x7fff_ffff,
            grandmaster_priority1: None,
            grandmaster_class: None,
            grandmaster_accuracy: None,
            grandmaster_variance: None,
            grandmaster_priority2: None,
            grandmaster: None,
            utc_offset: 37,
            leap61: false,
            leap59: false,
            utc_valid: false,
            ptp_timescale: false,
            time_traceable: false,
            frequency_traceable: false,
            time_source: 0xa0,
        }
    }

    /// The members that a start judges, in this order. The others may have every value of their types.
    pub fn judged() -> [Member; 4]
        ensures { result ≡ judged_of_clock }
    {
        [
            Member::Identity,
            Member::UserDescription,
            Member::ClockAccuracy,
            Member::Leap59,
        ]
    }

    /// Whether a member is in its range.
    #[tactic(auto, unfolding(crate::specs::Ranges::is_description))]
    pub fn is_in_range(&self, member: Member) -> bool
        ensures { result ≡ is_in_clock_range self.now member }
    {
        match member {
            Member::Identity => self.identity != ClockIdentity::EVERY,
            Member::UserDescription => {
                set_of(Layout::UserDescription).allows_text(self.user_description.as_slice())
            }
            Member::ClockAccuracy => {
                set_of(Layout::ClockAccuracy).allows_octet(self.clock_accuracy)
            }
            Member::Leap59 => !(self.leap61 && self.leap59),
            _ => true,
        }
    }

    /// Whether each member is in its range; if not, the first that is not.
    #[tactic(auto, unfolding(crate::specs::Start::clock_fault))]
    fn judge(&self) -> Result<(), StartError>
        ensures { result ≡ unless (clock_fault self.now) tt }
    {
        none_out(self.first_out(&ClockStart::judged()).copied())
    }

    fn first_out<'a>(&self, members: &'a [Member]) -> Option<&'a Member>
        ensures { option_copied result ≡ find (λ m. not (is_in_clock_range self.now m)) members.now }
    {
        members.iter().find(|member| !self.is_in_range(**member))
    }

    pub(crate) fn default_data_set(&self) -> DefaultDataSet
        ensures { result ≡ default_data_set self.now }
    {
        DefaultDataSet {
            identity: self.identity,
            domain: self.domain,
            two_step: self.two_step,
            precedence: ClockPrecedence {
                priority1: self.priority1,
                class: self.clock_class,
                accuracy: self.clock_accuracy,
                variance: self.variance,
                priority2: self.priority2,
            },
        }
    }

    pub(crate) fn current_data_set(&self) -> CurrentDataSet
        ensures { result ≡ current_data_set self.now }
    {
        CurrentDataSet {
            steps_removed: self.steps_removed,
            offset_from_master: self.offset_from_master,
            mean_path_delay: self.mean_path_delay,
        }
    }

    pub(crate) fn parent_data_set(&self) -> ParentDataSet
        ensures { result ≡ parent_data_set self.now }
    {
        ParentDataSet {
            parent_port: self.parent_port.unwrap_or(PortIdentity {
                clock: self.identity,
                port: 0,
            }),
            parent_stats: self.parent_stats,
            observed_variance: self.observed_variance,
            observed_rate: self.observed_rate,
            grandmaster: self.grandmaster.unwrap_or(self.identity),
            precedence: ClockPrecedence {
                priority1: self.grandmaster_priority1.unwrap_or(self.priority1),
                class: self.grandmaster_class.unwrap_or(self.clock_class),
                accuracy: self.grandmaster_accuracy.unwrap_or(self.clock_accuracy),
                variance: self.grandmaster_variance.unwrap_or(self.variance),
                priority2: self.grandmaster_priority2.unwrap_or(self.priority2),
            },
        }
    }

    pub(crate) fn time_data_set(&self) -> TimePropertiesDataSet
        ensures { result ≡ time_data_set self.now }
    {
        TimePropertiesDataSet {
            utc_offset: self.utc_offset,
            leap61: self.leap61,
            leap59: self.leap59,
            utc_valid: self.utc_valid,
            ptp_timescale: self.ptp_timescale,
            time_traceable: self.time_traceable,
            frequency_traceable: self.frequency_traceable,
            time_source: self.time_source,
        }
    }
}

impl PortStart {
    ghost use Rattle.std.specs.Prelude.{◌≡◌};
    ghost use Rattle.ptpm_data.specs.PortSetting.{said_by};
    ghost use Rattle.ptpm_data.specs.Start.{default_port, is_in_port_range, judged_of_port, port_fault, port_start_of, port_start_with, start_settings, unless};

    /// A port that is MASTER, with this profile's defaults.
    pub fn new() -> PortStart
        ensures { result ≡ default_port }
    {
        let set = PortDataSet::default();
        PortStart::with(
            set.state.number(),
            set.log_min_delay_req,
            set.peer_delay,
            &set.settings.octets(),
        )
    }

    /// The start of a port that has these values, and the settings that the octets say.
    #[tactic(auto, unfolding(crate::specs::PortSetting::said_of, crate::specs::ImageReading::i8_at))]
    pub(crate) fn with(
        state: u8,
        log_min_delay_req: i8,
        peer_delay: i64,
        settings: &[u8],
    ) -> PortStart
        requires { length settings.now ≡ 5 }
        ensures { result ≡ port_start_with state log_min_delay_req peer_delay (said_by settings.now) }
    {
        PortStart {
            state,
            log_min_delay_req,
            peer_delay,
            log_announce: i8_at(settings, 0),
            receipt_timeout: settings[1],
            log_sync: i8_at(settings, 2),
            delay_mechanism: settings[3],
            log_min_pdelay: i8_at(settings, 4),
        }
    }

    /// Its settings.
    fn settings(&self) -> PortSettings
        ensures { result ≡ start_settings self.now }
    {
        PortSettings::of([
            i8_octet(self.log_announce),
            self.receipt_timeout,
            i8_octet(self.log_sync),
            self.delay_mechanism,
            i8_octet(self.log_min_pdelay),
        ])
    }

    /// The members that a start judges, in this order: the state, and each setting. The others may have every value of their types.
    pub fn judged() -> [Member; 6]
        ensures { result ≡ judged_of_port }
    {
        array::from_fn(|place| match place {
            0 => Member::State,
            _ => Member::Setting(PortSetting::ALL[place - 1]),
        })
    }

    /// Whether a member is in its range.
    pub fn is_in_range(&self, member: Member) -> bool
        ensures { result ≡ is_in_port_range self.now member }
    {
        match member {
            Member::State => PortState::from_number(self.state).is_some(),
            Member::Setting(setting) => self.settings().is_in_range(setting),
            _ => true,
        }
    }

    /// Whether each member is in its range; if not, the first that is not.
    #[tactic(auto, unfolding(crate::specs::Start::port_fault))]
    fn judge(&self) -> Result<(), StartError>
        ensures { result ≡ unless (port_fault self.now) tt }
    {
        none_out(self.first_out(&PortStart::judged()).copied())
    }

    fn first_out<'a>(&self, members: &'a [Member]) -> Option<&'a Member>
        ensures { option_copied result ≡ find (λ m. not (is_in_port_range self.now m)) members.now }
    {
        members.iter().find(|member| !self.is_in_range(**member))
    }

    /// The data set of such a port, or the first member that is out of its range.
    #[tactic(auto, unfolding(crate::specs::Start::port_start_of))]
    fn judged_data_set(&self) -> Result<PortDataSet, StartError>
        ensures { result ≡ port_start_of self.now }
    {
        self.judge()?;
        Ok(self.data_set())
    }

    /// The data set of such a port, if its members are in their ranges.
    fn data_set(&self) -> PortDataSet
        ensures { result ≡ port_data_set self.now }
    {
        PortDataSet {
            peer_delay: self.peer_delay,
            state: PortState::from_number(self.state).unwrap_or(PortState::Initializing),
            log_min_delay_req: self.log_min_delay_req,
            settings: self.settings(),
        }
    }
}

impl Default for PortStart {
    ghost use Rattle.std.specs.Prelude.{◌≡◌};
    ghost use Rattle.ptpm_data.specs.Start.{default_port};

    /// That of `new`.
    fn default() -> PortStart
        ensures { result ≡ default_port }
    {
        PortStart::new()
    }
}

/// Nothing, unless a member is out of its range; this is the first.
fn none_out(first: Option<Member>) -> Result<(), StartError>
    ensures { result ≡ unless (option_map BadValue first) tt }
{
    match first {
        Some(member) => Err(StartError::BadValue(member)),
        None => Ok(()),
    }
}

/// The data sets of ports that start, or the first fault.
fn port_data_sets(ports: &[PortStart]) -> Result<ArrayVec<PortDataSet, INLINE_PORTS>, StartError>
    requires { length ports.now ≤ INLINE_PORTS }
    ensures { MatchResult result
        (λ sets. (ports_fault ports.now ≡ None) × (sets.items ≡ map port_data_set ports.now))
        (λ fault. ports_fault ports.now ≡ Some fault) }
{
    let mut sets = ArrayVec::new();
    for port in ports {
        sets.push(port.judged_data_set()?);
    }
    Ok(sets)
}

/// Whether a clock can have this number of ports, if at most that many have room.
#[tactic(auto, unfolding(crate::specs::Start::count_fault))]
fn count_ports(count: usize, most: usize) -> Result<(), StartError>
    ensures { result ≡ unless (count_fault most count) tt }
{
    if count == 0 {
        Err(StartError::NoPorts)
    } else if most < count {
        Err(StartError::TooManyPorts)
    } else {
        Ok(())
    }
}

/// Whether each port can start; if not, the first fault.
fn judge_ports(ports: &[PortStart]) -> Result<(), StartError>
    ensures { result ≡ unless (ports_fault ports.now) tt }
{
    for port in ports {
        port.judge()?;
    }
    Ok(())
}

/// Whether a clock of any number of ports can start so; if not, the first fault.
#[tactic(auto, using(crate::proofs::StartLemmas::unless_ok, crate::proofs::StartLemmas::unless_err))]
fn judge_start(clock: &ClockStart, ports: &[PortStart]) -> Result<(), StartError>
    ensures { result ≡ unless (start_fault PORTS clock.now ports.now) tt }
{
    count_ports(ports.len(), PORTS)?;
    clock.judge()?;
    judge_ports(ports)?;
    judge_grandmaster(&clock.default_data_set(), &clock.parent_data_set())
}

/// The data sets of ports that can start, in a block of memory.
#[tactic(auto, using(crate::proofs::StartLemmas::made_so, std::proofs::lemmas::List::take_all))]
fn data_sets_in(alloc: Global, ports: &[PortStart]) -> Result<Vec<PortDataSet>, OutOfMemory>
    ensures { IfOk result (λ sets. sets.items ≡ map port_data_set ports.now) }
{
    let Ok(mut sets) = Vec::with_capacity(alloc, ports.len()) else {
        return Err(OutOfMemory);
    };
    for port in ports {
        sets.push_reserved(port.data_set());
    }
    Ok(sets)
}

/// Whether a clock that is its own grandmaster shows its own priorities and quality (9.3.5).
#[tactic(auto, unfolding(crate::specs::Start::grandmaster_fault))]
fn judge_grandmaster(default: &DefaultDataSet, parent: &ParentDataSet) -> Result<(), StartError>
    ensures { result ≡ unless (grandmaster_fault default.now parent.now) tt }
{
    if grandmaster_differs(default, parent) {
        Err(StartError::GrandmasterDiffers)
    } else {
        Ok(())
    }
}

/// The data sets of the ports of a clock that starts so, or the first fault of the start. It is never inlined: so the stack has no
/// room for its work when the data sets are put together.
#[inline(never)]
#[tactic(auto, using(crate::proofs::StartLemmas::count_sound, crate::proofs::StartLemmas::unless_ok))]
fn judged_ports(
    clock: &ClockStart,
    ports: &[PortStart],
) -> Result<ArrayVec<PortDataSet, INLINE_PORTS>, StartError>
    ensures { MatchResult result
        (λ sets. (start_fault INLINE_PORTS clock.now ports.now ≡ None) × (sets.items ≡ map port_data_set ports.now))
        (λ fault. start_fault INLINE_PORTS clock.now ports.now ≡ Some fault) }
{
    count_ports(ports.len(), INLINE_PORTS)?;
    clock.judge()?;
    let sets = port_data_sets(ports)?;
    judge_grandmaster(&clock.default_data_set(), &clock.parent_data_set())?;
    Ok(sets)
}

impl DataSets {
    ghost use Rattle.std.specs.Prelude.{◌≡◌, [], ◌∷◌, Err, MatchResult, Ok, OnErr};
    ghost use Rattle.ptpm_data.specs.Start.{IsWhyNot, default_clock, default_port, no_identity, start_of, start_within, started};

    /// The data sets of a clock that starts with these values, its ports numbered from 1.
    ///
    /// Refused with the first `StartError` that holds. TooManyPorts above `INLINE_PORTS`: `new_in` takes more.
    #[tactic(auto, using(crate::proofs::Consistency::text_fits, crate::proofs::Consistency::few_consistent), unfolding(crate::specs::Start::start_within))]
    pub fn new(clock: &ClockStart, ports: &[PortStart]) -> Result<DataSets, StartError>
        ensures { result ≡ start_of clock.now ports.now }
    {
        let ports = judged_ports(clock, ports)?;
        Ok(DataSets {
            default: clock.default_data_set(),
            description: Description::of(clock.user_description.as_slice()),
            current: clock.current_data_set(),
            parent: clock.parent_data_set(),
            time: clock.time_data_set(),
            ports: PortList::Few(ports),
        })
    }

    /// Does what `new` does, for up to `PORTS` ports. Those of more than `INLINE_PORTS` lie in a block of memory, which is taken now
    /// and never again.
    ///
    /// Refused with the first `StartError` that holds, or if memory is.
    #[tactic(auto, using(crate::proofs::Consistency::same_start))]
    pub fn new_in(
        alloc: Global,
        clock: &ClockStart,
        ports: &[PortStart],
    ) -> Result<DataSets, StartFault>
        ensures { MatchResult result
            (λ sets. start_within PORTS clock.now ports.now ≡ Ok sets)
            (λ fault. IsWhyNot fault (start_within PORTS clock.now ports.now)) }
    {
        if ports.len() <= INLINE_PORTS {
            match DataSets::new(clock, ports) {
                Ok(sets) => Ok(sets),
                Err(error) => Err(StartFault::Refused(error)),
            }
        } else {
            DataSets::new_many(alloc, clock, ports)
        }
    }

    /// Does what `new_in` does, with the ports in a block of memory.
    #[inline(never)]
    #[tactic(auto, using(crate::proofs::Consistency::text_fits, crate::proofs::Consistency::many_consistent, crate::proofs::StartLemmas::unless_ok, crate::proofs::StartLemmas::unless_err), unfolding(crate::specs::Start::start_within))]
    pub(crate) fn new_many(
        alloc: Global,
        clock: &ClockStart,
        ports: &[PortStart],
    ) -> Result<DataSets, StartFault>
        ensures { MatchResult result
            (λ sets. start_within PORTS clock.now ports.now ≡ Ok sets)
            (λ fault. IsWhyNot fault (start_within PORTS clock.now ports.now)) }
    {
        if let Err(error) = judge_start(clock, ports) {
            return Err(StartFault::Refused(error));
        }
        let Ok(ports) = data_sets_in(alloc, ports) else {
            return Err(StartFault::OutOfMemory);
        };
        Ok(DataSets {
            default: clock.default_data_set(),
            description: Description::of(clock.user_description.as_slice()),
            current: clock.current_data_set(),
            parent: clock.parent_data_set(),
            time: clock.time_data_set(),
            ports: PortList::Many(ports),
        })
    }

    /// Does what `new` does, in place. If it is refused, nothing changes.
    #[tactic(auto, using(crate::proofs::Consistency::text_fits, crate::proofs::Consistency::few_consistent), unfolding(crate::specs::Start::start_within))]
    pub(crate) fn start(
        &mut self,
        clock: &ClockStart,
        ports: &[PortStart],
    ) -> Result<(), StartError>
        ensures started { MatchResult result
            (λ _. start_of clock.now ports.now ≡ Ok self.new)
            (λ fault. start_of clock.now ports.now ≡ Err fault) }
        ensures unchanged { OnErr result (self.new ≡ self.old) }
    {
        self.ports = PortList::Few(judged_ports(clock, ports)?);
        self.default = clock.default_data_set();
        self.description = Description::of(clock.user_description.as_slice());
        self.current = clock.current_data_set();
        self.parent = clock.parent_data_set();
        self.time = clock.time_data_set();
        Ok(())
    }

    /// The data sets of a clock of one port whose identity is all zeros, with this profile's defaults. They are room for others,
    /// which `restore` puts in their place.
    #[inline(never)]
    #[tactic(auto, using(crate::proofs::Consistency::blank_starts))]
    pub fn blank() -> DataSets
        ensures { result ≡ started (default_clock no_identity 0) (default_port ∷ []) }
    {
        let clock = ClockStart::new(ClockIdentity([0; 8]), 0);
        let Ok(sets) = DataSets::new(&clock, &[PortStart::new()]) else {
            unreachable!()
        };
        sets
    }
}
