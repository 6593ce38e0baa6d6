//! A change of several clocks, in a network whose clocks and sessions save, and crash at any moment. What its journal says was carried
//! out, and in which order. It has only definitions and laws.
#![tactic(auto)]

mod laws;
mod resuming;

pub use laws::{carried_out_in_order, only_steps_are_carried_out, told_is_carried_out};
pub use resuming::resume_can_end;
