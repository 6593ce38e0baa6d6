//! Memory that is refused, and readers and writers that hesitate.

mod clocks;
mod events;
mod interrupted;
