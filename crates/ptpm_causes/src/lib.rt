//! From which finding of a site another follows: one cause, one line.
#![tactic(auto)]

mod cause;
mod causes;
mod chains;
mod found;
mod kind;
mod members;
mod momentary;
mod reasons;

pub use cause::{Cause, named};
pub use causes::causes_of;
pub use kind::{Course, Kind, KindRow, Severity, not_judged};
pub use momentary::leave_out_momentary;
