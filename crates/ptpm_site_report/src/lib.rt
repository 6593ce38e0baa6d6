//! What `ptpm site` does. It reads answers among lines of datagrams, and prints the site's tree and what is wrong with it. Its
//! forms are text, JSON, a picture, a page, numbers for monitoring systems, and the line of a plugin.
#![tactic(auto)]

mod finding;
pub mod ignored;
mod intervals;
mod json;
mod look;
mod monitoring;
pub mod names;
mod not_judged;
mod page;
mod printable;
mod reading;
mod reporting;
mod text;
mod trees;
mod utc_text;

pub use finding::found_line::FoundLine;
pub use finding::table::findings;
pub use monitoring::nagios::Standing;
pub use reading::before::Before;
pub use reporting::{Came, Conclusion, Form, Options, Told, Viewing, report};
pub use text::inventory::write_inventory;
