//! Which members the dataField of each id has (15.5.3), each at its place.

ghost use Rattle.std.specs.Prelude.{◌≡◌};
ghost use Rattle.ptpm_members.specs.Tables.{field_size, fields_of, is_whole};

use crate::forms::Field;
use crate::forms::Form::{
    ClockIdentity, EitherFlag, Flag, Hexadecimal, LowNibble, Named, PortIdentity, Signed, Text,
    TimeInterval, Unsigned,
};
use crate::names::Member;
use crate::names::Member::DataSet;
use crate::number_names::Enumeration;
use ptpm_codec::is_ptp_text;
use ptpm_data::Member::*;
use ptpm_data::{Layout, PortSetting};

/// 15.5.3.2.2.
static USER_DESCRIPTION: [Field; 1] = [Field(DataSet(UserDescription), 0, Text)];

/// Table 69.
static DEFAULT_DATA_SET: [Field; 10] = [
    Field(DataSet(TwoStep), 0, Flag(1)),
    Field(Member::SlaveOnly, 0, Flag(2)),
    Field(Member::NumberPorts, 2, Unsigned(2)),
    Field(DataSet(Priority1), 4, Unsigned(1)),
    Field(DataSet(ClockClass), 5, Unsigned(1)),
    Field(DataSet(ClockAccuracy), 6, Hexadecimal(1)),
    Field(DataSet(Variance), 7, Hexadecimal(2)),
    Field(DataSet(Priority2), 9, Unsigned(1)),
    Field(DataSet(Identity), 10, ClockIdentity),
    Field(DataSet(Domain), 18, Unsigned(1)),
];

static CURRENT_DATA_SET: [Field; 3] = [
    Field(DataSet(StepsRemoved), 0, Unsigned(2)),
    Field(DataSet(OffsetFromMaster), 2, TimeInterval),
    Field(DataSet(MeanPathDelay), 10, TimeInterval),
];

static PARENT_DATA_SET: [Field; 10] = [
    Field(DataSet(ParentPort), 0, PortIdentity),
    Field(DataSet(ParentStats), 10, Flag(1)),
    Field(DataSet(ObservedVariance), 12, Hexadecimal(2)),
    Field(DataSet(ObservedRate), 14, Signed(4)),
    Field(DataSet(GrandmasterPriority1), 18, Unsigned(1)),
    Field(DataSet(GrandmasterClass), 19, Unsigned(1)),
    Field(DataSet(GrandmasterAccuracy), 20, Hexadecimal(1)),
    Field(DataSet(GrandmasterVariance), 21, Hexadecimal(2)),
    Field(DataSet(GrandmasterPriority2), 23, Unsigned(1)),
    Field(DataSet(Grandmaster), 24, ClockIdentity),
];

static TIME_PROPERTIES_DATA_SET: [Field; 8] = [
    Field(DataSet(UtcOffset), 0, Signed(2)),
    Field(DataSet(Leap61), 2, Flag(1)),
    Field(DataSet(Leap59), 2, Flag(2)),
    Field(DataSet(UtcValid), 2, Flag(4)),
    Field(DataSet(PtpTimescale), 2, Flag(8)),
    Field(DataSet(TimeTraceable), 2, Flag(16)),
    Field(DataSet(FrequencyTraceable), 2, Flag(32)),
    Field(DataSet(TimeSource), 3, Named(Enumeration::TimeSource)),
];

static PORT_DATA_SET: [Field; 10] = [
    Field(Member::PortIdentity, 0, PortIdentity),
    Field(DataSet(State), 10, Named(Enumeration::PortState)),
    Field(DataSet(LogMinDelayReq), 11, Signed(1)),
    Field(DataSet(PeerDelay), 12, TimeInterval),
    Field(
        DataSet(Setting(PortSetting::LogAnnounceInterval)),
        20,
        Signed(1),
    ),
    Field(
        DataSet(Setting(PortSetting::AnnounceReceiptTimeout)),
        21,
        Unsigned(1),
    ),
    Field(
        DataSet(Setting(PortSetting::LogSyncInterval)),
        22,
        Signed(1),
    ),
    Field(
        DataSet(Setting(PortSetting::DelayMechanism)),
        23,
        Named(Enumeration::DelayMechanism),
    ),
    Field(
        DataSet(Setting(PortSetting::LogMinPdelayReqInterval)),
        24,
        Signed(1),
    ),
    Field(Member::VersionNumber, 25, LowNibble),
];

static UTC_PROPERTIES: [Field; 4] = [
    Field(DataSet(UtcOffset), 0, Signed(2)),
    Field(DataSet(Leap61), 2, Flag(1)),
    Field(DataSet(Leap59), 2, Flag(2)),
    Field(DataSet(UtcValid), 2, Flag(4)),
];

static PRIORITY1: [Field; 1] = [Field(DataSet(Priority1), 0, Unsigned(1))];

static PRIORITY2: [Field; 1] = [Field(DataSet(Priority2), 0, Unsigned(1))];

static DOMAIN: [Field; 1] = [Field(DataSet(Domain), 0, Unsigned(1))];

static SLAVE_ONLY: [Field; 1] = [Field(Member::SlaveOnly, 0, EitherFlag)];

static LOG_ANNOUNCE_INTERVAL: [Field; 1] = [Field(
    DataSet(Setting(PortSetting::LogAnnounceInterval)),
    0,
    Signed(1),
)];

static ANNOUNCE_RECEIPT_TIMEOUT: [Field; 1] = [Field(
    DataSet(Setting(PortSetting::AnnounceReceiptTimeout)),
    0,
    Unsigned(1),
)];

static LOG_SYNC_INTERVAL: [Field; 1] = [Field(
    DataSet(Setting(PortSetting::LogSyncInterval)),
    0,
    Signed(1),
)];

static VERSION_NUMBER: [Field; 1] = [Field(Member::VersionNumber, 0, LowNibble)];

static CLOCK_ACCURACY: [Field; 1] = [Field(Member::ClockAccuracy, 0, Hexadecimal(1))];

static DELAY_MECHANISM: [Field; 1] = [Field(
    DataSet(Setting(PortSetting::DelayMechanism)),
    0,
    Named(Enumeration::DelayMechanism),
)];

static LOG_MIN_PDELAY_REQ_INTERVAL: [Field; 1] = [Field(
    DataSet(Setting(PortSetting::LogMinPdelayReqInterval)),
    0,
    Signed(1),
)];

/// The members of the dataField of this layout, in the order of their octets; none if it has no octet.
pub fn fields(layout: Layout) -> &'static [Field]
    ensures { result.now ≡ fields_of layout }
{
    match layout {
        Layout::UserDescription => &USER_DESCRIPTION,
        Layout::DefaultDataSet => &DEFAULT_DATA_SET,
        Layout::CurrentDataSet => &CURRENT_DATA_SET,
        Layout::ParentDataSet => &PARENT_DATA_SET,
        Layout::TimePropertiesDataSet => &TIME_PROPERTIES_DATA_SET,
        Layout::PortDataSet => &PORT_DATA_SET,
        Layout::Priority1 => &PRIORITY1,
        Layout::Priority2 => &PRIORITY2,
        Layout::Domain => &DOMAIN,
        Layout::SlaveOnly => &SLAVE_ONLY,
        Layout::Setting(PortSetting::LogAnnounceInterval) => &LOG_ANNOUNCE_INTERVAL,
        Layout::Setting(PortSetting::AnnounceReceiptTimeout) => &ANNOUNCE_RECEIPT_TIMEOUT,
        Layout::Setting(PortSetting::LogSyncInterval) => &LOG_SYNC_INTERVAL,
        Layout::VersionNumber => &VERSION_NUMBER,
        Layout::ClockAccuracy => &CLOCK_ACCURACY,
        Layout::UtcProperties => &UTC_PROPERTIES,
        Layout::Setting(PortSetting::DelayMechanism) => &DELAY_MECHANISM,
        Layout::Setting(PortSetting::LogMinPdelayReqInterval) => &LOG_MIN_PDELAY_REQ_INTERVAL,
        Layout::NullPtpManagement | Layout::EnablePort | Layout::DisablePort => &[],
    }
}

/// How many octets the dataField of this layout has, if it is no text: an even number, in which its members end.
pub(crate) fn size(layout: Layout) -> usize
    ensures { result ≡ field_size layout }
{
    let end = match fields(layout).last() {
        None => 0,
        Some(field) => usize::from(field.1) + field.2.size(),
    };
    end + end % 2
}

/// Whether the octets are as many as a dataField of this layout has.
#[tactic(auto, unfolding(crate::specs::Tables::is_whole))]
pub(crate) fn is_whole(layout: Layout, octets: &[u8]) -> bool
    ensures { result ≡ is_whole layout octets.now }
{
    match layout {
        Layout::UserDescription => is_ptp_text(octets),
        _ => octets.len() == size(layout),
    }
}
