//! What `ptpm monitor` does. It looks at a site, once or again and again, and decides when a look is judged, made again and printed.
//! A host program asks the clocks: it reads what is to be done, and answers, a line each.
#![tactic(auto)]

mod change_time;
mod collected;
mod difference;
mod ended;
mod gone;
mod host;
mod inventory;
mod judging;
mod kept;
mod left_out;
mod line;
mod look;
mod looking;
mod message;
mod page;
mod printing;
mod seen;
mod settings;
mod status;
mod watching;
mod way;

pub use inventory::inventory_at;
pub use looking::monitor_site;
pub use settings::{Judging, Settings, Times};
