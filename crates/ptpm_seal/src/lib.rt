//! The seal of an image, and places in which images are kept so that one of them outlasts a torn write (this project's profile).
#![tactic(auto)]

mod crc;
mod laws;
mod places;
mod sealing;

pub use crc::crc32;
pub use laws::{changed_octet_law, crc_law, seal_law, torn_writes_keep_one};
pub use places::{Newest, newest_image, place_count};
pub use sealing::{SEAL_OCTETS, Sealed, UnsealError, seal, unseal};
