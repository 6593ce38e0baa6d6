//! The settings of a port: its members that a SET changes. What each is known by is said here, and nowhere else: its management
//! id, its names, its range, and what a port starts with. Ranges, own names and start values are this project's profile.

ghost use Rattle.std.specs.Prelude.{◌≡◌, ◌≤◌};
ghost use Rattle.ptpm_data.specs.PortSetting.{octet_of, place, row, said_of, setting_row};
ghost use Rattle.ptpm_data.specs.Ranges.{is_in_range};
ghost use Rattle.ptpm_data.specs.SetForm.{set_field};

use crate::ranges::SetForm;
use std::fmt;

/// A member of a port that a SET changes. Each has an octet of PORT_DATA_SET (15.5.3.7.1): the first octet 20, the others after it
/// in their order here.
#[derive(Clone, Copy, Debug, PartialEq, Eq)]
pub enum PortSetting {
    /// logAnnounceInterval, log2 of seconds.
    LogAnnounceInterval,
    /// announceReceiptTimeout, in announce intervals.
    AnnounceReceiptTimeout,
    /// logSyncInterval, log2 of seconds.
    LogSyncInterval,
    /// delayMechanism, by its number (8.2.15.4.4).
    DelayMechanism,
    /// logMinPdelayReqInterval, log2 of seconds.
    LogMinPdelayReqInterval,
}

/// What a setting is known by.
#[derive(Clone, Copy, Debug)]
pub(crate) struct SettingRow {
    /// managementId.
    pub id: u16,
    /// The id's name.
    pub id_name: &'static str,
    /// Its name in the standard.
    pub standard_name: &'static str,
    /// Its name in a network file.
    pub name: &'static str,
    /// What a SET and a start may give it.
    pub range: SetForm,
    /// What a port starts with.
    pub default: i8,
}

/// A row of the table.
#[inline(always)]
fn setting(
    id: u16,
    id_name: &'static str,
    standard_name: &'static str,
    name: &'static str,
    range: SetForm,
    default: i8,
) -> SettingRow
    ensures { setting_row result
        ≡ record {
          id = id;
          id_name = id_name.now;
          standard_name = standard_name.now;
          name = name.now;
          range = set_field range;
          default = default;
        } }
{
    SettingRow {
        id,
        id_name,
        standard_name,
        name,
        range,
        default,
    }
}

/// What a start and a SET may give a setting.
#[derive(Clone, Copy, Debug)]
pub struct SettingRange(SetForm);

/// Such as `-4 to 4`.
impl fmt::Display for SettingRange {
    fn fmt<W: fmt::Write>(&self, f: &mut fmt::Formatter<W>) -> fmt::Result {
        match self.0 {
            SetForm::FromTo(low, high) => write!(f, "{low} to {high}"),
            SetForm::MinusTo(low, high) => write!(f, "-{low} to {high}"),
            SetForm::MechanismNumber => f.write_str("1, 2 or 0xfe"),
            _ => f.write_str("an octet"),
        }
    }
}

impl PortSetting {
    /// All of them, in the order of their octets.
    pub const ALL: [PortSetting; 5] = [
        PortSetting::LogAnnounceInterval,
        PortSetting::AnnounceReceiptTimeout,
        PortSetting::LogSyncInterval,
        PortSetting::DelayMechanism,
        PortSetting::LogMinPdelayReqInterval,
    ];

    #[inline(always)]
    pub(crate) fn row(self) -> SettingRow
        ensures { setting_row result ≡ row self }
    {
        use PortSetting::*;
        use SetForm::{FromTo, MechanismNumber, MinusTo};
        match self {
            LogAnnounceInterval => setting(
                0x2009,
                "LOG_ANNOUNCE_INTERVAL",
                "logAnnounceInterval",
                "log_announce",
                MinusTo(4, 4),
                1,
            ),
            AnnounceReceiptTimeout => setting(
                0x200a,
                "ANNOUNCE_RECEIPT_TIMEOUT",
                "announceReceiptTimeout",
                "receipt_timeout",
                FromTo(2, 10),
                3,
            ),
            LogSyncInterval => setting(
                0x200b,
                "LOG_SYNC_INTERVAL",
                "logSyncInterval",
                "log_sync",
                MinusTo(8, 1),
                0,
            ),
            DelayMechanism => setting(
                0x6000,
                "DELAY_MECHANISM",
                "delayMechanism",
                "delay_mechanism",
                MechanismNumber,
                1,
            ),
            LogMinPdelayReqInterval => setting(
                0x6001,
                "LOG_MIN_PDELAY_REQ_INTERVAL",
                "logMinPdelayReqInterval",
                "log_min_pdelay",
                MinusTo(8, 5),
                0,
            ),
        }
    }

    /// Its name in the standard.
    pub fn standard_name(self) -> &'static str
        ensures { result.now ≡ (row self).standard_name }
    {
        self.row().standard_name
    }

    /// What a start and a SET may give it, in words.
    pub fn range(self) -> SettingRange
        ensures { set_field result.0 ≡ (row self).range }
    {
        SettingRange(self.row().range)
    }

    /// Its place among them.
    #[inline(always)]
    #[tactic(auto, using(crate::proofs::SettingLemmas::place_few))]
    pub fn place(self) -> usize
        ensures place { result ≡ place self }
        ensures few { result ≤ 4 }
    {
        self as usize
    }

    /// The octet of what a port starts with.
    #[tactic(auto, unfolding(crate::specs::PortSetting::octet_of))]
    pub(crate) fn default_octet(self) -> u8
        ensures { result ≡ octet_of (row self).default }
    {
        self.row().default.cast_unsigned()
    }

    /// The value that an octet says of it.
    #[tactic(auto, unfolding(crate::specs::PortSetting::said_of))]
    pub(crate) fn said_by(self, octet: u8) -> i16
        ensures { result ≡ said_of self octet }
    {
        match self.row().range {
            SetForm::MinusTo(..) => i16::from(octet.cast_signed()),
            _ => i16::from(octet),
        }
    }

    /// Whether a start and a SET may give it what this octet says.
    #[tactic(auto, unfolding(crate::specs::PortSetting::said_of))]
    pub fn allows(self, octet: u8) -> bool
        ensures { result ≡ is_in_range self (said_of self octet) }
    {
        let range = self.row().range;
        match range {
            SetForm::MinusTo(..) => range.allows_integer(octet.cast_signed()),
            _ => range.allows_octet(octet),
        }
    }
}
