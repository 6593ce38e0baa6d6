//! PTP management messages as octets (IEEE 1588-2019, clause 15): reading, writing, and what they mean.
#![tactic(auto)]

mod buffers;
mod decoding;
mod draft;
mod encoding;
mod envelope;
mod error;
mod hops;
mod identity;
pub mod laws;
mod message;
mod octets;
mod places;
mod ptp_text;
mod tlv;
mod viewing;

pub use buffers::{copy_message, overwrite, overwrite_message, put, put_u16};
pub use decoding::{decode, view};
pub use draft::{DATA_FIELD_OCTETS, Draft, DraftBody, is_data_field};
pub use encoding::{Buffer, MESSAGE_OCTETS, encode, encode_behind};
pub use envelope::{Envelope, HEAD_OCTETS, REFUSAL_OCTETS};
pub use error::{DecodeError, ErrorId, OutOfMemory};
pub use hops::{less_hop, less_hop_in, message_size};
pub use identity::{ClockIdentity, PortIdentity};
pub use message::{Action, Body, Message};
pub use octets::Octets;
pub use places::{clock_identity_at, port_identity_at, source_port_identity, u16_at};
pub use ptp_text::{is_ptp_text, overwrite_ptp_text, text_of_ptp_text};
pub use tlv::TlvKind;
pub use viewing::View;
