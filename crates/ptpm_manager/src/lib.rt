//! The client of PTP management (IEEE 1588-2019, clause 15): sessions and surveys. A session makes one request at a time
//! of one clock. A survey asks every clock at once, or every port of one.
#![tactic(auto)]

mod answers;
mod ask;
mod enquiry;
mod error;
mod image;
mod image_places;
pub mod laws;
mod receiving;
mod report;
mod restoring;
mod saved;
mod session;
mod setup;
mod survey;

pub use ask::Ask;
pub use error::{BeginError, GiveUpRefusal, RestoreError, SendError};
pub use image::SESSION_OCTETS;
pub use receiving::{Reason, Received, Surveyed};
pub use report::{Outcome, Report};
pub use session::Session;
pub use setup::TARGET_PORTS;
pub use survey::Survey;
