//! The management agent of one boundary clock: which messages it answers, passes on or drops (IEEE 1588-2019, clause
//! 15). It also says what that promises to managers whose messages are lost, repeated or reordered.
#![tactic(auto)]

mod agent;
mod forwarding;
mod laws;
mod turning;
mod verdict;

pub use agent::Agent;
pub use laws::{
    at_most_once, at_most_once_observed, no_copy_forwarded, one_delivery, only_managers,
    ports_stay, refused_changes_no_data, requests_of_turns,
};
pub use verdict::Verdict;
