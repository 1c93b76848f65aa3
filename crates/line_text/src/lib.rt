//! The pieces of which texts are made: bytes, addresses and words in hexadecimal digits, and decimal
//! numbers, each appended whole or not at all.
#![tactic(auto)]

mod digits;
mod line_text;

pub use digits::{ADDRESS_DIGITS, WORD_DIGITS, address_digits, word_digits};
pub use line_text::LineText;
