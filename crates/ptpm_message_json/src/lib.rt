//! A management message as one object of JSON, by the standard's names (IEEE 1588-2019, clause 15).
#![tactic(auto)]

mod columns;
mod data_field;
mod message;
mod names;
mod values;

pub use data_field::members_value;
pub use message::message_text;
pub use values::member_value;
