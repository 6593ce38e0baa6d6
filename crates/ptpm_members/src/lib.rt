//! The members of each dataField, as a person reads and types them (IEEE 1588-2019, 15.5.3).
#![tactic(auto)]

mod describing;
mod description;
mod field_text;
mod formatted;
mod forms;
mod id_names;
mod identities;
mod laws;
mod names;
mod number_names;
mod other_ids;
mod parse_fault_text;
mod parsing;
mod tables;
mod takes;
mod text_sink;
mod typing;
mod value_text;
mod values;

pub use description::DescriptionPart;
pub use field_text::{FieldText, members_in};
pub use forms::{Field, Form};
pub use id_names::{
    id_at, id_named, id_of, other_id_at, other_id_name, other_id_named, profile_id_name,
};
pub use identities::{clock_identity_of, port_identity_of};
pub use laws::{member_law, typed_again_law};
pub use names::Member;
pub use number_names::{Enumeration, mechanism_name, state_name};
pub use other_ids::{OTHER_IDS, OtherId, id_name};
pub use parsing::{ParseFault, parse};
pub use tables::fields;
pub use takes::Takes;
pub use text_sink::TextSink;
pub use typing::{flag_of, octet_of};
pub use values::{ClockQuality, MemberValue, value_in};
