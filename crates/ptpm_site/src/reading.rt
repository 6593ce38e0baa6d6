//! What is read of the datagrams of a site: the answers of each clock, and what clocks send by themselves.

pub mod announces;
pub mod answer;
pub mod answer_content;
pub mod arrival;
pub mod asked;
pub mod clock;
pub mod data_sets;
pub(crate) mod datagrams;
pub mod description;
pub mod domain;
pub mod heard;
pub mod left_out;
pub mod member;
pub(crate) mod numbers;
pub mod origin;
pub mod site;
pub mod source;
pub mod untaken;
pub mod words;
