//! The members of dataFields, by the standard's names.

ghost use Rattle.std.specs.Prelude.{◌≡◌};
ghost use Rattle.ptpm_members.specs.Names.{data_set_name, member_name};

use ptpm_data::Member as DataSetMember;

/// What a dataField says at a place (15.5.3).
#[derive(Clone, Copy, Debug, PartialEq, Eq)]
pub enum Member {
    /// A member of the data sets that a start gives a value.
    DataSet(DataSetMember),
    /// numberPorts: how many ports the clock has.
    NumberPorts,
    /// slaveOnly: false in a boundary clock.
    SlaveOnly,
    /// portIdentity: the clock's identity and the port's number.
    PortIdentity,
    /// versionNumber: 2.
    VersionNumber,
    /// clockQuality.clockAccuracy, by the name that it has in CLOCK_ACCURACY.
    ClockAccuracy,
    // As reports of sites have them; no dataField has them at one place.
    ClockQuality,
    GrandmasterClockQuality,
    SdoId,
    // Of ids that are only read.
    ClockType,
    PhysicalLayerProtocol,
    PhysicalAddress,
    NetworkProtocol,
    AddressField,
    ManufacturerIdentity,
    ProductDescription,
    RevisionData,
    ProfileIdentity,
    CurrentSeconds,
    CurrentNanoseconds,
    PathSequence,
    // Of linuxptp's ids, by the names that its `pmc` prints.
    MasterOffset,
    IngressTime,
    CumulativeRateOffset,
    LastPhaseChangeRate,
    TimeBaseIndicator,
    LastPhaseChange,
    GrandmasterPresent,
    GmIdentity,
    NeighborDelayThreshold,
    AsCapable,
    Timestamping,
    Interface,
    ReceivedSync,
    ReceivedDelayReq,
    ReceivedPdelayReq,
    ReceivedPdelayResp,
    ReceivedFollowUp,
    ReceivedDelayResp,
    ReceivedPdelayRespFollowUp,
    ReceivedAnnounce,
    ReceivedSignaling,
    ReceivedManagement,
    SentSync,
    SentDelayReq,
    SentPdelayReq,
    SentPdelayResp,
    SentFollowUp,
    SentDelayResp,
    SentPdelayRespFollowUp,
    SentAnnounce,
    SentSignaling,
    SentManagement,
}

impl Member {
    /// Its name in the standard.
    #[tactic(auto, unfolding(crate::specs::Names::member_name))]
    pub fn name(self) -> &'static str
        ensures { result.now ≡ member_name self }
    {
        match self {
            Member::DataSet(member) => data_set_name(member),
            Member::NumberPorts => "numberPorts",
            Member::SlaveOnly => "slaveOnly",
            Member::PortIdentity => "portIdentity",
            Member::VersionNumber => "versionNumber",
            Member::ClockAccuracy => "clockAccuracy",
            Member::ClockQuality => "clockQuality",
            Member::GrandmasterClockQuality => "grandmasterClockQuality",
            Member::SdoId => "sdoId",
            Member::ClockType => "clockType",
            Member::PhysicalLayerProtocol => "physicalLayerProtocol",
            Member::PhysicalAddress => "physicalAddress",
            Member::NetworkProtocol => "networkProtocol",
            Member::AddressField => "addressField",
            Member::ManufacturerIdentity => "manufacturerIdentity",
            Member::ProductDescription => "productDescription",
            Member::RevisionData => "revisionData",
            Member::ProfileIdentity => "profileIdentity",
            Member::CurrentSeconds => "secondsField",
            Member::CurrentNanoseconds => "nanosecondsField",
            Member::PathSequence => "pathSequence",
            Member::MasterOffset => "master_offset",
            Member::IngressTime => "ingress_time",
            Member::CumulativeRateOffset => "cumulativeScaledRateOffset",
            Member::LastPhaseChangeRate => "scaledLastGmPhaseChange",
            Member::TimeBaseIndicator => "gmTimeBaseIndicator",
            Member::LastPhaseChange => "lastGmPhaseChange",
            Member::GrandmasterPresent => "gmPresent",
            Member::GmIdentity => "gmIdentity",
            Member::NeighborDelayThreshold => "neighborPropDelayThresh",
            Member::AsCapable => "asCapable",
            Member::Timestamping => "timestamping",
            Member::Interface => "interface",
            Member::ReceivedSync => "rx_Sync",
            Member::ReceivedDelayReq => "rx_Delay_Req",
            Member::ReceivedPdelayReq => "rx_Pdelay_Req",
            Member::ReceivedPdelayResp => "rx_Pdelay_Resp",
            Member::ReceivedFollowUp => "rx_Follow_Up",
            Member::ReceivedDelayResp => "rx_Delay_Resp",
            Member::ReceivedPdelayRespFollowUp => "rx_Pdelay_Resp_Follow_Up",
            Member::ReceivedAnnounce => "rx_Announce",
            Member::ReceivedSignaling => "rx_Signaling",
            Member::ReceivedManagement => "rx_Management",
            Member::SentSync => "tx_Sync",
            Member::SentDelayReq => "tx_Delay_Req",
            Member::SentPdelayReq => "tx_Pdelay_Req",
            Member::SentPdelayResp => "tx_Pdelay_Resp",
            Member::SentFollowUp => "tx_Follow_Up",
            Member::SentDelayResp => "tx_Delay_Resp",
            Member::SentPdelayRespFollowUp => "tx_Pdelay_Resp_Follow_Up",
            Member::SentAnnounce => "tx_Announce",
            Member::SentSignaling => "tx_Signaling",
            Member::SentManagement => "tx_Management",
        }
    }
}

/// The standard's name of a member of the data sets.
fn data_set_name(member: DataSetMember) -> &'static str
    ensures { result.now ≡ data_set_name member }
{
    use DataSetMember::*;
    match member {
        Identity => "clockIdentity",
        Domain => "domainNumber",
        UserDescription => "userDescription",
        TwoStep => "twoStepFlag",
        Priority1 => "priority1",
        ClockClass => "clockQuality.clockClass",
        ClockAccuracy => "clockQuality.clockAccuracy",
        Variance => "clockQuality.offsetScaledLogVariance",
        Priority2 => "priority2",
        StepsRemoved => "stepsRemoved",
        OffsetFromMaster => "offsetFromMaster",
        MeanPathDelay => "meanDelay",
        ParentPort => "parentPortIdentity",
        ParentStats => "parentStats",
        ObservedVariance => "observedParentOffsetScaledLogVariance",
        ObservedRate => "observedParentClockPhaseChangeRate",
        GrandmasterPriority1 => "grandmasterPriority1",
        GrandmasterClass => "grandmasterClockQuality.clockClass",
        GrandmasterAccuracy => "grandmasterClockQuality.clockAccuracy",
        GrandmasterVariance => "grandmasterClockQuality.offsetScaledLogVariance",
        GrandmasterPriority2 => "grandmasterPriority2",
        Grandmaster => "grandmasterIdentity",
        UtcOffset => "currentUtcOffset",
        Leap61 => "leap61",
        Leap59 => "leap59",
        UtcValid => "currentUtcOffsetValid",
        PtpTimescale => "ptpTimescale",
        TimeTraceable => "timeTraceable",
        FrequencyTraceable => "frequencyTraceable",
        TimeSource => "timeSource",
        State => "portState",
        LogMinDelayReq => "logMinDelayReqInterval",
        PeerDelay => "meanLinkDelay",
        Setting(setting) => setting.standard_name(),
    }
}
