//! Networks of clocks and sessions, and what happens in them, as texts (this project's profile). It says which network a
//! network file describes, and which event a line of a script asks for.
#![tactic(auto)]

mod document;
mod event;
mod event_line;
mod event_lines;
mod fault;
mod faults;
mod heads;
mod key_faults;
mod limit_faults;
mod limits;
mod line_fault;
mod name_faults;
mod names;
mod nearest;
mod net_error;
mod network;
mod network_laws;
mod place;
mod reading;
mod repeat_faults;
mod rights;
mod rules;
mod shape_faults;
mod spellings;
mod start_faults;
mod starts;
mod tables;
mod value_text;
mod values;

pub use document::Document;
pub use event::{Event, EventError};
pub use event_line::{read_event, read_line};
pub use event_lines::{EventFault, event_fault};
pub use fault::{Fault, Found, Names, Wanted};
pub use limits::{
    CLOCK_PORTS, CLOCKS, LEAST_ENDS, LINKS, MANAGERS, MOST_ENDS, SESSIONS, TEXT_OCTETS,
};
pub use line_fault::{Expected, LineError, LineFault, Verb};
pub use names::{Name, is_name};
pub use net_error::NetError;
pub use network::{End, Network, NetworkClock, NetworkLink, NetworkSession};
pub use network_laws::{accepted_networks, clock_start_faults, faults_found, network_law};
pub use place::{Array, Place};
pub use rules::{Kind, Rule};
