//! A network of boundary clocks and the sessions that manage them, run event by event. Events may lose, repeat, reorder
//! or duplicate messages, and each clock carries out each request once (IEEE 1588-2019, clause 15).
#![tactic(auto)]

mod findings;
mod frames;
mod lines;
mod network_laws;
mod running_clock;
mod script;
mod script_error;
mod starting;
mod stepping;
mod took;
mod trace;
mod whole_script;
mod world;
mod writing;

pub use findings::{Findings, check_script};
pub use frames::Frame;
pub use lines::{Lines, SCRIPT_LINES};
pub use network_laws::{described_network, described_networks, every_world, placed_event};
pub use ptpm_script::{End, Event, EventError, Name, NetError, Network, read_event};
pub use script::{DIVIDER, is_skipped, one_trace, read_text, run_script};
pub use script_error::ScriptError;
pub use took::{StepError, Took};
pub use whole_script::{EventLine, Script, read_script};
pub use world::World;
