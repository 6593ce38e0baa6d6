//! What reads and writes text: lines and their words, names and numbers, octets in hexadecimal, and text as XML has it (this
//! project's profile).
#![tactic(auto)]

mod escaped;
mod hexadecimal;
mod line_reader;
mod numbers;
mod request_names;
mod words;

pub use escaped::Escaped;
pub use hexadecimal::Hexadecimal;
pub use line_reader::{LineReadError, LineReader};
pub use numbers::{decimal_u8, decimal_u16, decimal_up_to};
pub use request_names::{action_named, id_named};
pub use words::{one_word, split_two_words, split_word, three_words, two_words, word_at};
