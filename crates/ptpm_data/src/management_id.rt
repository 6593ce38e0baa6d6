//! The table of management ids, and look-ups in it (15.5.2.3).

ghost use Rattle.std.specs.Prelude.{◌≡◌, option_map, Some};
ghost use Rattle.ptpm_data.specs.declared.management_id.Scope.TheVariants.{Clock, Port};
ghost use Rattle.ptpm_data.specs.declared.management_id.Layout.TheVariants.{Setting};
ghost use Rattle.ptpm_data.specs.ManagementId.{row_at, row_with, row_value, row_of, row_named, if_named, set_of};
ghost use Rattle.ptpm_data.specs.SetForm.{set_field};

use crate::actions::Actions;
use crate::port_setting::PortSetting;
use crate::ranges::SetForm;

/// Whether an id is of the clock or of each of its ports.
#[derive(Clone, Copy, Debug, PartialEq, Eq)]
pub enum Scope {
    Clock,
    Port,
}

/// What an id's dataField holds (15.5.3), named by its id.
#[derive(Clone, Copy, Debug, PartialEq, Eq)]
pub enum Layout {
    NullPtpManagement,
    UserDescription,
    DefaultDataSet,
    CurrentDataSet,
    ParentDataSet,
    TimePropertiesDataSet,
    PortDataSet,
    Priority1,
    Priority2,
    Domain,
    SlaveOnly,
    /// That of an id of a port's setting.
    Setting(PortSetting),
    VersionNumber,
    EnablePort,
    DisablePort,
    ClockAccuracy,
    UtcProperties,
}

/// What a SET may be, if the id's dataField has this layout; a start keeps to the same (this project's profile).
#[tactic(auto, unfolding(crate::specs::ManagementId::set_of))]
#[inline(always)]
pub(crate) fn set_of(layout: Layout) -> SetForm
    ensures { set_field result ≡ set_of layout }
{
    match layout {
        Layout::NullPtpManagement => SetForm::Empty,
        Layout::UserDescription => SetForm::TextUpTo(128),
        Layout::Priority1 | Layout::Priority2 | Layout::Domain => SetForm::AnyOctet,
        Layout::Setting(setting) => setting.row().range,
        Layout::ClockAccuracy => SetForm::FromToOr(0x17, 0x31, 0xfe),
        Layout::UtcProperties => SetForm::NotBothLeaps,
        Layout::DefaultDataSet
        | Layout::CurrentDataSet
        | Layout::ParentDataSet
        | Layout::TimePropertiesDataSet
        | Layout::PortDataSet
        | Layout::SlaveOnly
        | Layout::VersionNumber
        | Layout::EnablePort
        | Layout::DisablePort => SetForm::NoSet,
    }
}

/// A management id of this profile.
#[derive(Clone, Copy, Debug)]
pub struct ManagementIdRow {
    /// managementId.
    pub id: u16,
    /// The standard's name, for example `PRIORITY1`.
    pub name: &'static str,
    pub scope: Scope,
    /// The actions that this profile permits.
    pub actions: Actions,
    pub layout: Layout,
}

const GET: Actions = Actions(1);

const GET_SET: Actions = Actions(3);

const COMMAND: Actions = Actions(4);

/// GET, SET and COMMAND.
const ALL: Actions = Actions(7);

/// The ids of the table, in order.
pub static MANAGEMENT_IDS: [u16; 21] = [
    0x0000, 0x0002, 0x2000, 0x2001, 0x2002, 0x2003, 0x2004, 0x2005, 0x2006, 0x2007, 0x2008, 0x2009,
    0x200a, 0x200b, 0x200c, 0x200d, 0x200e, 0x2010, 0x2011, 0x6000, 0x6001,
];

/// A row of an id of the clock.
fn clock(id: u16, name: &'static str, actions: Actions, layout: Layout) -> Option<ManagementIdRow>
    ensures { option_map row_value result ≡ Some (row_with id name.now Clock actions.0 layout) }
{
    Some(ManagementIdRow {
        id,
        name,
        scope: Scope::Clock,
        actions,
        layout,
    })
}

/// A row of an id of each port.
fn port(id: u16, name: &'static str, actions: Actions, layout: Layout) -> Option<ManagementIdRow>
    ensures { option_map row_value result ≡ Some (row_with id name.now Port actions.0 layout) }
{
    Some(ManagementIdRow {
        id,
        name,
        scope: Scope::Port,
        actions,
        layout,
    })
}

/// The row of a port's setting.
#[inline(always)]
fn setting(setting: PortSetting) -> Option<ManagementIdRow>
    ensures { option_map row_value result ≡ Some (row_at (Setting setting)) }
{
    let known = setting.row();
    port(known.id, known.id_name, GET_SET, Layout::Setting(setting))
}

/// What the table says of an id; `None` if it is not in the table.
#[tactic(auto, unfolding(crate::specs::ManagementId::row_of))]
#[inline(always)]
pub fn by_id(id: u16) -> Option<ManagementIdRow>
    ensures { option_map row_value result ≡ row_of id }
{
    use Layout::*;
    match id {
        0x0000 => port(id, "NULL_PTP_MANAGEMENT", ALL, NullPtpManagement),
        0x0002 => clock(id, "USER_DESCRIPTION", GET_SET, UserDescription),
        0x2000 => clock(id, "DEFAULT_DATA_SET", GET, DefaultDataSet),
        0x2001 => clock(id, "CURRENT_DATA_SET", GET, CurrentDataSet),
        0x2002 => clock(id, "PARENT_DATA_SET", GET, ParentDataSet),
        0x2003 => clock(id, "TIME_PROPERTIES_DATA_SET", GET, TimePropertiesDataSet),
        0x2004 => port(id, "PORT_DATA_SET", GET, PortDataSet),
        0x2005 => clock(id, "PRIORITY1", GET_SET, Priority1),
        0x2006 => clock(id, "PRIORITY2", GET_SET, Priority2),
        0x2007 => clock(id, "DOMAIN", GET_SET, Domain),
        0x2008 => clock(id, "SLAVE_ONLY", GET, SlaveOnly),
        0x2009 => setting(PortSetting::LogAnnounceInterval),
        0x200a => setting(PortSetting::AnnounceReceiptTimeout),
        0x200b => setting(PortSetting::LogSyncInterval),
        0x200c => port(id, "VERSION_NUMBER", GET, VersionNumber),
        0x200d => port(id, "ENABLE_PORT", COMMAND, EnablePort),
        0x200e => port(id, "DISABLE_PORT", COMMAND, DisablePort),
        0x2010 => clock(id, "CLOCK_ACCURACY", GET_SET, ClockAccuracy),
        0x2011 => clock(id, "UTC_PROPERTIES", GET_SET, UtcProperties),
        0x6000 => setting(PortSetting::DelayMechanism),
        0x6001 => setting(PortSetting::LogMinPdelayReqInterval),
        _ => None,
    }
}

/// The row of an id, if it has that name.
fn row_if_named(id: u16, name: &str) -> Option<ManagementIdRow>
    ensures { option_map row_value result ≡ if_named name.now (row_of id) }
{
    match by_id(id) {
        Some(row) if row.name == name => Some(row),
        _ => None,
    }
}

/// What the table says of the id of a name, such as `PRIORITY1`; `None` if no id has that name.
pub fn by_name(name: &str) -> Option<ManagementIdRow>
    ensures { option_map row_value result ≡ row_named name.now }
{
    for id in &MANAGEMENT_IDS {
        if let Some(row) = row_if_named(*id, name) {
            return Some(row);
        }
    }
    None
}
