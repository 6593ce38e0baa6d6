//! A network of boundary clocks and the sessions that manage them, as a machine (IEEE 1588-2019, clause 15). A list of
//! events says how messages are lost, repeated and reordered. Here are its definitions, the invariant that each event keeps,
//! and what the network promises over every list of events.
#![tactic(auto)]

mod giving_up_laws;
mod headline_laws;
mod laws;
mod lowered_laws;
mod manager_laws;
mod meanwhile_laws;
mod way_laws;
mod worth_laws;

pub use giving_up_laws::managers_that_give_up_are_served;
pub use headline_laws::{
    headline, one_reply_kept, refused_requests_change_no_data, requests_carried_out,
    sessions_ignore_strangers, stands_after, strangers_change_nothing,
};
pub use laws::{
    answers_by_octets, clocks_stand, events_appended, events_taken, every_schedule, few_frames,
    hops_lost, in_the_window, one_request_at_a_time, outbox_of_turns, running_networks_stand,
};
pub use lowered_laws::lowered_hops_answer_the_same;
pub use manager_laws::{managers_in_time_are_served, served_so_far};
pub use meanwhile_laws::{answerable_meanwhile, ways_stay_open};
pub use way_laws::{
    answerable_along_a_way, answerable_once_moved, one_copy_each_way, running_networks_answer,
};
pub use worth_laws::{reported_exactly_once, running_networks_report};
