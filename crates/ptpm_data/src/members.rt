//! The members of the data sets, by name.

use crate::port_setting::PortSetting;
use std::fmt;

/// A member that a start gives a value: those of the clock, and then those of each port (clause 8). Their order here is
/// the order in which a start judges them.
#[derive(Clone, Copy, Debug, PartialEq, Eq)]
pub enum Member {
    Identity,
    Domain,
    UserDescription,
    TwoStep,
    Priority1,
    ClockClass,
    ClockAccuracy,
    Variance,
    Priority2,
    StepsRemoved,
    OffsetFromMaster,
    MeanPathDelay,
    ParentPort,
    ParentStats,
    ObservedVariance,
    ObservedRate,
    GrandmasterPriority1,
    GrandmasterClass,
    GrandmasterAccuracy,
    GrandmasterVariance,
    GrandmasterPriority2,
    Grandmaster,
    UtcOffset,
    Leap61,
    Leap59,
    UtcValid,
    PtpTimescale,
    TimeTraceable,
    FrequencyTraceable,
    TimeSource,
    State,
    LogMinDelayReq,
    PeerDelay,
    /// One that a SET changes.
    Setting(PortSetting),
}

impl Member {
    ghost use Rattle.std.specs.Prelude.{◌≡◌, ◌≤◌};
    ghost use Rattle.ptpm_data.specs.MemberNames.{member_name, member_place};

    /// Its place in this order.
    pub fn place(self) -> u8
        ensures place { result ≡ member_place self }
        ensures few { result ≤ 37 }
    {
        match self {
            Member::Identity => 0,
            Member::Domain => 1,
            Member::UserDescription => 2,
            Member::TwoStep => 3,
            Member::Priority1 => 4,
            Member::ClockClass => 5,
            Member::ClockAccuracy => 6,
            Member::Variance => 7,
            Member::Priority2 => 8,
            Member::StepsRemoved => 9,
            Member::OffsetFromMaster => 10,
            Member::MeanPathDelay => 11,
            Member::ParentPort => 12,
            Member::ParentStats => 13,
            Member::ObservedVariance => 14,
            Member::ObservedRate => 15,
            Member::GrandmasterPriority1 => 16,
            Member::GrandmasterClass => 17,
            Member::GrandmasterAccuracy => 18,
            Member::GrandmasterVariance => 19,
            Member::GrandmasterPriority2 => 20,
            Member::Grandmaster => 21,
            Member::UtcOffset => 22,
            Member::Leap61 => 23,
            Member::Leap59 => 24,
            Member::UtcValid => 25,
            Member::PtpTimescale => 26,
            Member::TimeTraceable => 27,
            Member::FrequencyTraceable => 28,
            Member::TimeSource => 29,
            Member::State => 30,
            Member::LogMinDelayReq => 31,
            Member::PeerDelay => 32,
            Member::Setting(setting) => 33 + setting.place() as u8,
        }
    }

    /// Its name, as a network file has it.
    pub fn name(&self) -> &'static str
        ensures { result.now ≡ member_name self.now }
    {
        match self {
            Member::Identity => "identity",
            Member::Domain => "domain",
            Member::UserDescription => "user_description",
            Member::TwoStep => "two_step",
            Member::Priority1 => "priority1",
            Member::ClockClass => "clock_class",
            Member::ClockAccuracy => "clock_accuracy",
            Member::Variance => "variance",
            Member::Priority2 => "priority2",
            Member::StepsRemoved => "steps_removed",
            Member::OffsetFromMaster => "offset_from_master",
            Member::MeanPathDelay => "mean_path_delay",
            Member::ParentPort => "parent_port",
            Member::ParentStats => "parent_stats",
            Member::ObservedVariance => "observed_variance",
            Member::ObservedRate => "observed_rate",
            Member::GrandmasterPriority1 => "grandmaster_priority1",
            Member::GrandmasterClass => "grandmaster_class",
            Member::GrandmasterAccuracy => "grandmaster_accuracy",
            Member::GrandmasterVariance => "grandmaster_variance",
            Member::GrandmasterPriority2 => "grandmaster_priority2",
            Member::Grandmaster => "grandmaster",
            Member::UtcOffset => "utc_offset",
            Member::Leap61 => "leap61",
            Member::Leap59 => "leap59",
            Member::UtcValid => "utc_valid",
            Member::PtpTimescale => "ptp_timescale",
            Member::TimeTraceable => "time_traceable",
            Member::FrequencyTraceable => "frequency_traceable",
            Member::TimeSource => "time_source",
            Member::State => "state",
            Member::LogMinDelayReq => "log_min_delay_req",
            Member::PeerDelay => "peer_delay",
            Member::Setting(setting) => setting.row().name,
        }
    }
}

/// Its name.
impl fmt::Display for Member {
    ghost use Rattle.std.specs.Prelude.{Some};
    ghost use Rattle.ptpm_data.specs.MemberNames.{member_name};

    ghost output = { λ member. Some (member_name member) };

    fn fmt<W: fmt::Write>(&self, f: &mut fmt::Formatter<W>) -> fmt::Result {
        f.write_str(self.name())
    }
}
