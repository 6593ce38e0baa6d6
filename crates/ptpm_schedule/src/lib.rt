//! Scripts for networks that lose and repeat messages. Which messages arrive, and in what order, is drawn by chance, and the
//! same seed draws the same (this project's profile).
#![tactic(auto)]

mod chances;
mod event_text;
mod left_out;
mod scheduling;
mod traffic;

pub use chances::Chances;
pub use scheduling::schedule;
