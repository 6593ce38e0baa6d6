//! What a plan changes: a member of a clock or of one of its ports.

ghost use Rattle.std.specs.Prelude.{◌≡◌, ◌==◌, Some, find, option_map};
ghost use Rattle.ptpm_data.specs.ManagementId.{is_of_port, row_of, row_value};
ghost use Rattle.ptpm_plan.specs.PlannedId.{concern_of, entry_of, number_of, setting_of};

use ptpm_codec::ClockIdentity;
use ptpm_data::{Layout, ManagementIdRow, PortSetting, Scope, Value};
use std::fmt;

/// The ids that a plan may set, those of the clock first. Changes that are alike in all else are asked in this order.
#[derive(Clone, Copy, PartialEq, Eq, PartialOrd, Ord)]
pub enum PlannedId {
    UserDescription,
    UtcProperties,
    Priority1,
    Priority2,
    ClockAccuracy,
    Domain,
    AnnounceReceiptTimeout,
    LogAnnounceInterval,
    LogSyncInterval,
    DelayMechanism,
    LogMinPdelayReqInterval,
}

/// What a change of an id is to the order of changes.
#[derive(Clone, Copy, PartialEq, Eq)]
pub enum Concern {
    /// How long a port waits for Announces.
    Patience,
    /// How often a port sends, or is sent to.
    Interval,
    /// The rank of a clock.
    Rank,
    /// The domain of a clock.
    Domain,
    /// Nothing that has an order.
    Free,
}

/// What a plan knows of an id beside the table of ids.
#[derive(Clone, Copy)]
struct Entry {
    /// managementId (15.5.2.3).
    number: u16,
    concern: Concern,
}

impl Entry {
    fn new(number: u16, concern: Concern) -> Entry
        ensures { result ≡ record { number = number; concern = concern } }
    {
        Entry { number, concern }
    }
}

impl PlannedId {
    /// All of them, in their order.
    pub const ALL: [PlannedId; 11] = [
        PlannedId::UserDescription,
        PlannedId::UtcProperties,
        PlannedId::Priority1,
        PlannedId::Priority2,
        PlannedId::ClockAccuracy,
        PlannedId::Domain,
        PlannedId::AnnounceReceiptTimeout,
        PlannedId::LogAnnounceInterval,
        PlannedId::LogSyncInterval,
        PlannedId::DelayMechanism,
        PlannedId::LogMinPdelayReqInterval,
    ];

    fn entry(self) -> Entry
        ensures { result ≡ entry_of self }
    {
        match self {
            PlannedId::UserDescription => Entry::new(0x0002, Concern::Free),
            PlannedId::UtcProperties => Entry::new(0x2011, Concern::Free),
            PlannedId::Priority1 => Entry::new(0x2005, Concern::Rank),
            PlannedId::Priority2 => Entry::new(0x2006, Concern::Rank),
            PlannedId::ClockAccuracy => Entry::new(0x2010, Concern::Rank),
            PlannedId::Domain => Entry::new(0x2007, Concern::Domain),
            PlannedId::AnnounceReceiptTimeout => Entry::new(0x200a, Concern::Patience),
            PlannedId::LogAnnounceInterval => Entry::new(0x2009, Concern::Interval),
            PlannedId::LogSyncInterval => Entry::new(0x200b, Concern::Interval),
            PlannedId::DelayMechanism => Entry::new(0x6000, Concern::Free),
            PlannedId::LogMinPdelayReqInterval => Entry::new(0x6001, Concern::Free),
        }
    }

    /// Its managementId (15.5.2.3).
    pub fn number(self) -> u16
        ensures { result ≡ number_of self }
    {
        self.entry().number
    }

    /// What a change of it is to the order.
    pub(crate) fn concern(self) -> Concern
        ensures { result ≡ concern_of self }
    {
        self.entry().concern
    }

    /// The id of this number, if a plan may set it.
    pub(crate) fn numbered(number: u16) -> Option<PlannedId>
        ensures { result ≡ find (λ id. number_of id == number) PlannedId.ALL }
    {
        PlannedId::ALL
            .iter()
            .copied()
            .find(|id| id.number() == number)
    }

    /// What the table of ids says of it.
    fn row(self) -> ManagementIdRow
        ensures { row_of (number_of self) ≡ Some (row_value result) }
    {
        let Some(row) = ptpm_data::row(self.number()) else {
            unreachable!()
        };
        row
    }

    /// The standard's name.
    pub fn name(self) -> &'static str
        ensures { option_map (λ row. row.name) (row_of (number_of self)) ≡ Some result.now }
    {
        self.row().name
    }

    /// Whether it is of each port, and not of the clock.
    pub fn is_of_port(self) -> bool
        ensures { result ≡ is_of_port (number_of self) }
    {
        self.row().scope == Scope::Port
    }

    /// The setting of a port that it is.
    pub(crate) fn setting(self) -> Option<PortSetting>
        ensures { result ≡ setting_of self }
    {
        match self.row().layout {
            Layout::Setting(setting) => Some(setting),
            _ => None,
        }
    }
}

/// The standard's name.
impl fmt::Display for PlannedId {
    fn fmt<W: fmt::Write>(&self, f: &mut fmt::Formatter<W>) -> fmt::Result {
        f.write_str(self.name())
    }
}

/// A SET that a plan asks for.
#[derive(Drop)]
pub struct Change {
    /// The place in the file of the table that asks for it, from 0: the clocks in their order, and then each `every`.
    pub place: usize,
    /// domainNumber of the clock, in which it is asked.
    pub domain: u8,
    pub clock: ClockIdentity,
    /// The port's number; 0 if the member is of the clock.
    pub port: u16,
    pub id: PlannedId,
    /// The dataField as the clock answered it.
    pub before: Value,
    /// The dataField that is to be set.
    pub after: Value,
}
