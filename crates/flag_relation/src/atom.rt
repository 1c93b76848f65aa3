use crate::Reg;
use viper_word::{Kind, Word};

/// The right side of a comparison: a tracked cell by its number, or a word.
#[derive(Clone, Copy, Debug, PartialEq, Eq)]
pub enum Right {
    Cell(u8),
    Const(Word),
}

/// A comparison of a register with a cell or a word, as `X < 10`. `Ult` and `Uge` compare the words
/// as unsigned numbers, the other kinds as signed ones.
#[derive(Clone, Copy, Debug, PartialEq, Eq)]
pub struct Atom {
    pub kind: Kind,
    pub left: Reg,
    pub right: Right,
}
