//! Ids outside this profile's table that other clocks have. Their dataFields are only read.

ghost use Rattle.std.specs.Prelude.{◌≡◌, option_map};
ghost use Rattle.std.specs.Str.{str_eq_ignore_ascii_case};
ghost use Rattle.ptpm_members.specs.OtherIds.{is_whole_other, name_of_id, other_fields, other_name, other_named, other_number, other_of, other_size};

use crate::description::{DescriptionPart, is_clock_description};
use crate::forms::Form::{
    ClockIdentities, ClockIdentity, Described, Flag, Hexadecimal, LittleEndian, Named, Octets,
    Signed, Text, Unsigned,
};
use crate::forms::{Field, Form};
use crate::names::Member;
use crate::names::Member::{
    AddressField, AsCapable, ClockType, CumulativeRateOffset, CurrentNanoseconds, CurrentSeconds,
    DataSet, GmIdentity, GrandmasterPresent, IngressTime, Interface, LastPhaseChange,
    LastPhaseChangeRate, ManufacturerIdentity, MasterOffset, NeighborDelayThreshold,
    NetworkProtocol, PathSequence, PhysicalAddress, PhysicalLayerProtocol, ProductDescription,
    ProfileIdentity, ReceivedAnnounce, ReceivedDelayReq, ReceivedDelayResp, ReceivedFollowUp,
    ReceivedManagement, ReceivedPdelayReq, ReceivedPdelayResp, ReceivedPdelayRespFollowUp,
    ReceivedSignaling, ReceivedSync, RevisionData, SentAnnounce, SentDelayReq, SentDelayResp,
    SentFollowUp, SentManagement, SentPdelayReq, SentPdelayResp, SentPdelayRespFollowUp,
    SentSignaling, SentSync, TimeBaseIndicator,
};
use crate::number_names::Enumeration;
use ptpm_codec::is_ptp_text;
use ptpm_data::{Member as DataSetMember, row};

/// A management id that only other clocks answer: five of the standard (15.5.2.3, table 59) and five of linuxptp.
#[derive(Clone, Copy, Debug, PartialEq, Eq)]
pub enum OtherId {
    ClockDescription,
    Time,
    TraceabilityProperties,
    TimescaleProperties,
    PathTraceList,
    TimeStatus,
    GrandmasterSettings,
    PortDataSet,
    PortProperties,
    PortStatistics,
}

/// All of them, by their numbers.
pub static OTHER_IDS: [OtherId; 10] = [
    OtherId::ClockDescription,
    OtherId::Time,
    OtherId::TraceabilityProperties,
    OtherId::TimescaleProperties,
    OtherId::PathTraceList,
    OtherId::TimeStatus,
    OtherId::GrandmasterSettings,
    OtherId::PortDataSet,
    OtherId::PortProperties,
    OtherId::PortStatistics,
];

impl OtherId {
    /// The one with this number.
    #[tactic(auto, unfolding(crate::specs::OtherIds::other_of))]
    pub fn of(number: u16) -> Option<OtherId>
        ensures { result ≡ other_of number }
    {
        match number {
            0x0001 => Some(OtherId::ClockDescription),
            0x200f => Some(OtherId::Time),
            0x2012 => Some(OtherId::TraceabilityProperties),
            0x2013 => Some(OtherId::TimescaleProperties),
            0x2015 => Some(OtherId::PathTraceList),
            0xc000 => Some(OtherId::TimeStatus),
            0xc001 => Some(OtherId::GrandmasterSettings),
            0xc002 => Some(OtherId::PortDataSet),
            0xc004 => Some(OtherId::PortProperties),
            0xc005 => Some(OtherId::PortStatistics),
            _ => None,
        }
    }

    /// The one of a name, in either case.
    #[tactic(auto, using(crate::proofs::IdNames::goes_on_others, crate::proofs::IdNames::is_found_among, crate::proofs::IdNames::is_none_of), unfolding(crate::specs::OtherIds::other_named))]
    pub fn named(name: &str) -> Option<OtherId>
        ensures { result ≡ other_named name.now }
    {
        for id in &OTHER_IDS {
            if id.has_name(name) {
                return Some(*id);
            }
        }
        None
    }

    /// Whether a text is its name, in either case.
    fn has_name(self, name: &str) -> bool
        ensures { result ≡ str_eq_ignore_ascii_case name.now (other_name self) }
    {
        name.eq_ignore_ascii_case(self.name())
    }

    /// Its number.
    pub fn number(self) -> u16
        ensures { result ≡ other_number self }
    {
        match self {
            OtherId::ClockDescription => 0x0001,
            OtherId::Time => 0x200f,
            OtherId::TraceabilityProperties => 0x2012,
            OtherId::TimescaleProperties => 0x2013,
            OtherId::PathTraceList => 0x2015,
            OtherId::TimeStatus => 0xc000,
            OtherId::GrandmasterSettings => 0xc001,
            OtherId::PortDataSet => 0xc002,
            OtherId::PortProperties => 0xc004,
            OtherId::PortStatistics => 0xc005,
        }
    }

    /// Its name in the standard, or in linuxptp.
    pub fn name(self) -> &'static str
        ensures { result.now ≡ other_name self }
    {
        match self {
            OtherId::ClockDescription => "CLOCK_DESCRIPTION",
            OtherId::Time => "TIME",
            OtherId::TraceabilityProperties => "TRACEABILITY_PROPERTIES",
            OtherId::TimescaleProperties => "TIMESCALE_PROPERTIES",
            OtherId::PathTraceList => "PATH_TRACE_LIST",
            OtherId::TimeStatus => "TIME_STATUS_NP",
            OtherId::GrandmasterSettings => "GRANDMASTER_SETTINGS_NP",
            OtherId::PortDataSet => "PORT_DATA_SET_NP",
            OtherId::PortProperties => "PORT_PROPERTIES_NP",
            OtherId::PortStatistics => "PORT_STATS_NP",
        }
    }

    /// The members of its dataField, in the order of their octets.
    pub(crate) fn fields(self) -> &'static [Field]
        ensures { result.now ≡ other_fields self }
    {
        match self {
            OtherId::ClockDescription => &CLOCK_DESCRIPTION,
            OtherId::Time => &TIME,
            OtherId::TraceabilityProperties => &TRACEABILITY_PROPERTIES,
            OtherId::TimescaleProperties => &TIMESCALE_PROPERTIES,
            OtherId::PathTraceList => &PATH_TRACE_LIST,
            OtherId::TimeStatus => &TIME_STATUS,
            OtherId::GrandmasterSettings => &GRANDMASTER_SETTINGS,
            OtherId::PortDataSet => &PORT_DATA_SET,
            OtherId::PortProperties => &PORT_PROPERTIES,
            OtherId::PortStatistics => &PORT_STATISTICS,
        }
    }

    /// Whether the octets are a dataField of this id, by their number and by what they say of it.
    #[tactic(auto, unfolding(crate::specs::OtherIds::is_whole_other))]
    pub(crate) fn is_whole(self, octets: &[u8]) -> bool
        ensures { result ≡ is_whole_other self octets.now }
    {
        match self {
            OtherId::ClockDescription => is_clock_description(octets),
            OtherId::PathTraceList => octets.len() >= 8 && octets.len() % 8 == 0,
            OtherId::PortProperties => octets.len() >= 12 && is_ptp_text(octets.split_at(12).1),
            _ => octets.len() == other_size(self),
        }
    }
}

/// The name of an id: one of this profile's table, or one that is only read.
pub fn id_name(id: u16) -> Option<&'static str>
    ensures { option_map (λ name. name.now) result ≡ name_of_id id }
{
    match row(id) {
        Some(row) => Some(row.name),
        None => name_of_other(id),
    }
}

/// The name of an id that is only read.
fn name_of_other(id: u16) -> Option<&'static str>
    ensures { option_map (λ name. name.now) result ≡ option_map other_name (other_of id) }
{
    match OtherId::of(id) {
        Some(other) => Some(other.name()),
        None => None,
    }
}

/// How many octets the dataField has; 0 if it says that itself.
fn other_size(id: OtherId) -> usize
    ensures { result ≡ other_size id }
{
    match id {
        OtherId::ClockDescription | OtherId::PathTraceList | OtherId::PortProperties => 0,
        OtherId::Time => 10,
        OtherId::TraceabilityProperties | OtherId::TimescaleProperties => 2,
        OtherId::TimeStatus => 50,
        OtherId::GrandmasterSettings | OtherId::PortDataSet => 8,
        OtherId::PortStatistics => 266,
    }
}

/// 15.5.3.1.2.
static CLOCK_DESCRIPTION: [Field; 10] = [
    Field(ClockType, 0, Hexadecimal(2)),
    Field(
        PhysicalLayerProtocol,
        0,
        Described(DescriptionPart::PhysicalLayerProtocol),
    ),
    Field(
        PhysicalAddress,
        0,
        Described(DescriptionPart::PhysicalAddress),
    ),
    Field(
        NetworkProtocol,
        0,
        Described(DescriptionPart::NetworkProtocol),
    ),
    Field(AddressField, 0, Described(DescriptionPart::AddressField)),
    Field(
        ManufacturerIdentity,
        0,
        Described(DescriptionPart::ManufacturerIdentity),
    ),
    Field(
        ProductDescription,
        0,
        Described(DescriptionPart::ProductDescription),
    ),
    Field(RevisionData, 0, Described(DescriptionPart::RevisionData)),
    Field(
        DataSet(DataSetMember::UserDescription),
        0,
        Described(DescriptionPart::UserDescription),
    ),
    Field(
        ProfileIdentity,
        0,
        Described(DescriptionPart::ProfileIdentity),
    ),
];

/// A Timestamp (5.3.3).
static TIME: [Field; 2] = [
    Field(CurrentSeconds, 0, Unsigned(6)),
    Field(CurrentNanoseconds, 6, Unsigned(4)),
];

static TRACEABILITY_PROPERTIES: [Field; 2] = [
    Field(DataSet(DataSetMember::TimeTraceable), 0, Flag(16)),
    Field(DataSet(DataSetMember::FrequencyTraceable), 0, Flag(32)),
];

static TIMESCALE_PROPERTIES: [Field; 2] = [
    Field(DataSet(DataSetMember::PtpTimescale), 0, Flag(8)),
    Field(
        DataSet(DataSetMember::TimeSource),
        1,
        Named(Enumeration::TimeSource),
    ),
];

static PATH_TRACE_LIST: [Field; 1] = [Field(PathSequence, 0, ClockIdentities)];

static TIME_STATUS: [Field; 8] = [
    Field(MasterOffset, 0, Signed(8)),
    Field(IngressTime, 8, Signed(8)),
    Field(CumulativeRateOffset, 16, Signed(4)),
    Field(LastPhaseChangeRate, 20, Signed(4)),
    Field(TimeBaseIndicator, 24, Unsigned(2)),
    Field(LastPhaseChange, 26, Octets(12)),
    Field(GrandmasterPresent, 41, Flag(1)),
    Field(GmIdentity, 42, ClockIdentity),
];

static GRANDMASTER_SETTINGS: [Field; 11] = [
    Field(DataSet(DataSetMember::ClockClass), 0, Unsigned(1)),
    Field(DataSet(DataSetMember::ClockAccuracy), 1, Hexadecimal(1)),
    Field(DataSet(DataSetMember::Variance), 2, Hexadecimal(2)),
    Field(DataSet(DataSetMember::UtcOffset), 4, Signed(2)),
    Field(DataSet(DataSetMember::Leap61), 6, Flag(1)),
    Field(DataSet(DataSetMember::Leap59), 6, Flag(2)),
    Field(DataSet(DataSetMember::UtcValid), 6, Flag(4)),
    Field(DataSet(DataSetMember::PtpTimescale), 6, Flag(8)),
    Field(DataSet(DataSetMember::TimeTraceable), 6, Flag(16)),
    Field(DataSet(DataSetMember::FrequencyTraceable), 6, Flag(32)),
    Field(
        DataSet(DataSetMember::TimeSource),
        7,
        Named(Enumeration::TimeSource),
    ),
];

static PORT_DATA_SET: [Field; 2] = [
    Field(NeighborDelayThreshold, 0, Unsigned(4)),
    Field(AsCapable, 4, Signed(4)),
];

static PORT_PROPERTIES: [Field; 4] = [
    Field(Member::PortIdentity, 0, Form::PortIdentity),
    Field(
        DataSet(DataSetMember::State),
        10,
        Named(Enumeration::PortState),
    ),
    Field(Member::Timestamping, 11, Named(Enumeration::Timestamping)),
    Field(Interface, 12, Text),
];

/// Messages that came and that were sent, each by the places of their types (13.3.2.3).
static PORT_STATISTICS: [Field; 21] = [
    Field(Member::PortIdentity, 0, Form::PortIdentity),
    Field(ReceivedSync, 10, LittleEndian(8)),
    Field(ReceivedDelayReq, 18, LittleEndian(8)),
    Field(ReceivedPdelayReq, 26, LittleEndian(8)),
    Field(ReceivedPdelayResp, 34, LittleEndian(8)),
    Field(ReceivedFollowUp, 74, LittleEndian(8)),
    Field(ReceivedDelayResp, 82, LittleEndian(8)),
    Field(ReceivedPdelayRespFollowUp, 90, LittleEndian(8)),
    Field(ReceivedAnnounce, 98, LittleEndian(8)),
    Field(ReceivedSignaling, 106, LittleEndian(8)),
    Field(ReceivedManagement, 114, LittleEndian(8)),
    Field(SentSync, 138, LittleEndian(8)),
    Field(SentDelayReq, 146, LittleEndian(8)),
    Field(SentPdelayReq, 154, LittleEndian(8)),
    Field(SentPdelayResp, 162, LittleEndian(8)),
    Field(SentFollowUp, 202, LittleEndian(8)),
    Field(SentDelayResp, 210, LittleEndian(8)),
    Field(SentPdelayRespFollowUp, 218, LittleEndian(8)),
    Field(SentAnnounce, 226, LittleEndian(8)),
    Field(SentSignaling, 234, LittleEndian(8)),
    Field(SentManagement, 242, LittleEndian(8)),
];
