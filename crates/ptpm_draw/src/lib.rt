//! A message sequence chart of what happens in a network, as a picture in SVG 1.1 (this project's profile).
#![tactic(auto)]

mod changes;
mod chart;
mod chosen;
mod drawing;
mod lifelines;
mod members;
mod outcome;
mod party;
mod picture;
mod selection;
mod shapes;
mod sizes;
mod strokes;
mod words;

pub use changes::Change;
pub use chosen::Chosen;
pub use drawing::draw;
pub use outcome::EventOutcome;
pub use party::Party;
pub use picture::{EventRow, Message, Picture, Says, Way};
