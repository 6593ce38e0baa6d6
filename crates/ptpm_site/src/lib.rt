//! A site at a glance: which clock follows which, and what is wrong, by the answers that its clocks gave to management GETs.
#![tactic(auto)]

pub mod judging;
pub mod looks;
pub mod picture;
pub mod reading;
pub mod tree;
