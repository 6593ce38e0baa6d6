//! What survives a clock's loss of power: its image, and the clock that is restored from it.
#![tactic(auto)]

mod answer_room;
mod entry_reading;
mod error;
mod image;
mod keepable;
pub mod laws;
mod restoring;

pub use error::{RestoreError, RestoreFault};
pub use image::{CLOCK_OCTETS, image_into, image_size};
pub use restoring::{judge_into, put_back_judged, restored};
