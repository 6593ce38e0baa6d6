//! The asker: one manager asks one clock, one request at a time. It does no input or output, and has no clock and no random source
//! of its own. It is handed what came in and what was done, and hands out what is to be done next. Nothing is sent that the file of
//! its session has not. Nothing leaves the file that its owner has not noted as reported. Nothing is begun that its owner has not
//! noted as begun.
#![tactic(auto)]

mod asker;
mod earlier;
mod laws;
mod opening;
mod output;
mod question;
mod settings;
mod stage;

pub use asker::Asker;
pub use earlier::{Earlier, is_question, request_in};
pub use laws::asker_is_allowed;
pub use output::Output;
pub use question::DRAWN_OCTETS;
pub use settings::Settings;
pub use stage::Stage;
