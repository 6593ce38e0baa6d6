//! A clock whose device has a say (this project's profile): what it is asked about a datagram, and a turn with what it says. A
//! device that has no ids of its own, and says nothing, leaves the clock as it is without this crate. The device's owner may
//! also ask for a change at the device itself.
#![tactic(auto)]

mod asking;
mod changing;
mod laws;
mod passing;
mod refusing;
mod relayed;
mod relaying;
mod saying;

pub use asking::{Asked, ask, ask_value};
pub use changing::change_here;
pub use laws::{
    at_most_once_decided, device_judged_last, given_is_answered, relayed_is_decided, silent_device,
};
pub use relayed::{RelayedId, is_change};
pub use relaying::{DeviceSay, keep_relayed};
pub use saying::{answer_value, keep_value, object};
