//! What the subcommands of `ptpm` do, over words and a writer: `answer`, `show`, `ids` and `make`.
#![tactic(auto)]

pub mod answer;
mod clock;
mod columns;
mod datagram_line;
mod faults;
pub mod ids;
pub mod lines;
pub mod make;
pub mod show;

pub use faults::{Fault, LineFault, tell};
