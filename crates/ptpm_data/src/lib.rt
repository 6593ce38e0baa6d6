//! What a PTP clock's management data are, and what each management request changes and is answered (IEEE 1588-2019,
//! clauses 8 and 15).
#![tactic(auto)]

mod actions;
mod answers;
mod changed;
mod changes;
mod data_field;
mod data_sets;
mod deciding;
mod description;
mod foreseen;
mod image;
mod image_laws;
mod image_places;
mod laws;
mod management_id;
mod members;
mod observation;
mod port_change;
mod port_list;
mod port_setting;
mod port_settings;
mod port_state;
mod ports;
mod precedence_change;
mod ranges;
mod refusals;
mod replies;
mod reply;
mod request;
mod restoring;
mod rights;
mod set_field;
mod snapshot;
mod start;
mod unnumbered;

pub use actions::Actions;
pub use answers::Answers;
pub use changed::{ChangedMembers, ClockMembers, PortMembers};
pub use data_sets::{
    ClockPrecedence, CurrentDataSet, DataSets, DefaultDataSet, ParentDataSet, PortDataSet,
    TimePropertiesDataSet,
};
pub use deciding::refusal_of;
pub use image::DATA_SETS_OCTETS;
pub use image_laws::{fits_law, image_law};
pub use laws::{
    change_law, data_sets_law, grandmaster_law, id_table_law, member_map_law, observation_back_law,
    observation_law, plain_map_law, read_reply_law, reply_law, set_law, sized_observation_law,
};
pub use management_id::{Layout, MANAGEMENT_IDS, ManagementIdRow, Scope, by_id as row, by_name};
pub use members::Member;
pub use observation::{
    AnnouncedGrandmaster, ClockObservation, ObservationError, ObservedGrandmaster, PortObservation,
    PortsLeftDisabled,
};
pub use port_list::is_forwarding_port;
pub use port_setting::{PortSetting, SettingRange};
pub use port_settings::PortSettings;
pub use port_state::{DelayMechanism, PortState};
pub use ports::{INLINE_PORTS, PORTS};
pub use refusals::{permits, unpermitted};
pub use reply::{PortAnswer, Reply, Value, What};
pub use request::Request;
pub use restoring::image_end;
pub use rights::Rights;
pub use snapshot::Snapshot;
pub use start::{ClockStart, PortStart, StartError, StartFault};
