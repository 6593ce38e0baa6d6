//! How a site is not as it is expected to be: by a profile of the protocol, or by the inventory that its operator keeps.
#![tactic(auto)]

mod allowing;
mod descriptions;
pub mod expectations;
pub mod held_to_inventory;
pub mod held_to_profile;
pub mod inventory;
pub mod inventory_fault;
pub mod inventory_file;
mod judging_inventory;
mod judging_named;
pub mod judging_profile;
mod meeting;
mod members;
mod named;
mod numbers;
pub mod order;
pub mod outside;
pub mod profile;
mod quoted;
pub mod ranges;
mod senders;
mod wanted_values;
mod words;
pub mod writing;
