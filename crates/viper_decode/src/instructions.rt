//! What a legal word does, as a type: each kind of instruction with what it carries (docs/MACHINE.md,
//! "Kinds of instruction").

use viper_word::{Addr, Kind, Reg};

/// The word that an instruction works on.
#[derive(Clone, Copy, Debug, PartialEq, Eq)]
pub enum Source {
    /// That of a register.
    Of(Reg),
    /// The address after P.
    AfterP,
}

/// An effective address.
#[derive(Clone, Copy, Debug, PartialEq, Eq)]
pub enum Place {
    /// The field.
    At(Addr),
    /// The field plus a register, modulo 2^32: lawful below 2^20.
    Index(Addr, Reg),
}

/// Where an operand comes from.
#[derive(Clone, Copy, Debug, PartialEq, Eq)]
pub enum Operand {
    /// The field itself.
    Literal(Addr),
    /// The word of memory at the address.
    Memory(Place),
    /// The answer of the peripheral at the address.
    Peripheral(Place),
}

/// A function of a word and an operand, in the order of its codes.
#[derive(Clone, Copy, Debug, PartialEq, Eq)]
pub enum Function {
    /// Zero less the operand.
    Neg,
    /// The operand; Y becomes the address after P. It is always a jump.
    Call,
    /// The operand, which comes from a peripheral unless it is a literal.
    Inp,
    /// The operand.
    Read,
    /// The sum modulo 2^32, and its carry into B.
    Addb,
    /// The sum of the signed values.
    Adds,
    /// The difference modulo 2^32, and its borrow into B.
    Subb,
    /// The difference of the signed values.
    Subs,
    /// The bits that just one of both has.
    Xor,
    /// The bits that both have.
    And,
    /// The bits that neither has.
    Nor,
    /// The bits that the word has and the operand hasn't.
    Andn,
}

/// A shift of a word by one place, in the order of its kinds.
#[derive(Clone, Copy, Debug, PartialEq, Eq)]
pub enum Shift {
    /// To the right; the top bit stays as it was.
    Right,
    /// To the right; B comes in at the top.
    RightThroughB,
    /// To the left; 0 comes in at the bottom.
    Left,
    /// To the left; B comes in at the bottom.
    LeftThroughB,
}

/// What makes a result.
#[derive(Clone, Copy, Debug, PartialEq, Eq)]
pub enum Work {
    /// A function of a word and an operand.
    Apply(Function, Source, Operand),
    /// A word moved by one place.
    Move(Shift, Source),
}

/// When a jump is taken.
#[derive(Clone, Copy, Debug, PartialEq, Eq)]
pub enum Side {
    /// Always.
    Always,
    /// Where B is 1.
    IfB,
    /// Where B is 0.
    IfNotB,
}

/// What a legal word does.
#[derive(Clone, Copy, Debug, PartialEq, Eq)]
pub enum Instruction {
    /// B becomes the comparison of the word with the operand; with `true` the old B or it.
    Compare(bool, Kind, Source, Operand),
    /// A result goes to a register.
    Assign(Reg, Work),
    /// A result goes to P, where the side says so.
    Jump(Side, Work),
    /// The word is put out to the peripheral at the address.
    Output(Source, Place),
    /// The word is stored to memory at the address.
    Store(Source, Place),
}
