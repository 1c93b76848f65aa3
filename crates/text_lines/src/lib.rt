//! Texts of lines: the lines with their numbers, the tokens of a line, and what a text says by a
//! grammar that judges each line after the lines before it.
//!
//! A format brings a judgement of one line and nothing else. `specs/Reading.antt` says what a whole
//! text is by it, and which rule another text breaks first, and where. That a text has one value or
//! else one fault holds of every format (`proofs/Readings.antt`).
#![tactic(auto)]

mod cutting;
mod lines;
mod parts;

pub use cutting::{LF, cut, cut_line};
pub use lines::{Line, Lines};
pub use parts::{SPACE, five_parts, one_part, six_parts, three_parts, two_parts};
