//! The journal of a change of several clocks (this project's profile). Which step may be begun, which record a run may make, and its
//! octets.
#![tactic(auto)]

mod ending;
mod error;
mod framing;
mod journal;
mod laws;
mod marking;
mod order;
mod plain;
mod reading;
mod record;
mod torn;
mod writing;

pub use error::{AddError, NextError};
pub use framing::RECORD_OCTETS;
pub use journal::Journal;
pub use laws::{journal_is_read_back, marks_are_those_of_the_notes, notes_in_order};
pub use marking::mark_all;
pub use plain::PlainRecord;
pub use reading::{Found, Next};
pub use record::{Ending, Head, Mark, Note, Outcome, Policy, Record, Step};
