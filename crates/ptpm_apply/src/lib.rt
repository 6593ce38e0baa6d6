//! What a change of several clocks from one file may rely on: its journal, and the files of the sessions in which it asks.
#![tactic(auto)]

mod action;
mod choice;
mod event;
mod finding;
mod going;
mod heard;
mod hearing;
mod in_file;
mod lane;
mod lanes;
mod laws;
mod noted;
mod noting;
mod opening;
mod planned;
mod rollout;
mod stage;
mod standing;
mod value;

pub use action::{Action, Over, Why};
pub use choice::{Choice, OpenError, TurnError};
pub use event::Event;
pub use in_file::InFile;
pub use laws::{begun_before_sent, complete_was_read, sent_in_order, standing_is_right};
pub use noted::{Begun, Noted};
pub use rollout::Rollout;
pub use standing::{Standing, find_standing};
