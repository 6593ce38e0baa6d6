//! Networks whose clocks and sessions lose power at any moment, and are restarted. It says what that changes if each clock saves
//! before it answers, and each session before it asks (this project's profile). It has only definitions and laws, over the
//! machine of `ptpm_network`.
#![tactic(auto)]

mod desks;
mod going_on;
mod lowering;
mod restarts;

pub use desks::allowed_saves_in_time;
pub use going_on::{
    answer_shows_latest, answered_after_restarts, saved_at_once, started_again,
    undone_before_the_save,
};
pub use lowering::lowered_hops_lose_messages_alone;
pub use restarts::{batches_among_acts, restarts_among_acts, restarts_lose_messages_alone};
