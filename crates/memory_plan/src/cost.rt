//! What instructions cost.

ghost use Rattle.std.specs.Prelude.{◌≡◌, ◌==◌};
ghost use Rattle.memory_plan.specs.Costs.{place_of, cost_name, kind_costed, cost_of, word_cost};

use crate::range_text::is;
use viper_decode::{Fields, decode, destination};
use viper_word::Word;

/// A kind of instruction that has a cost of its own: a function, a comparison, an output or a store.
#[derive(Clone, Copy, Debug, PartialEq, Eq)]
pub enum Costed {
    Neg,
    Call,
    Inp,
    Read,
    Addb,
    Adds,
    Subb,
    Subs,
    Xor,
    And,
    Nor,
    Andn,
    Shift,
    Compare,
    Out,
    Sto,
}

/// The functions in the order of their codes.
const FUNCTIONS: [Costed; 13] = [
    Costed::Neg,
    Costed::Call,
    Costed::Inp,
    Costed::Read,
    Costed::Addb,
    Costed::Adds,
    Costed::Subb,
    Costed::Subs,
    Costed::Xor,
    Costed::And,
    Costed::Nor,
    Costed::Andn,
    Costed::Shift,
];

/// The cost of an instruction of which no line tells.
const PLAIN_COST: u32 = 1;

/// The greatest cost.
pub(crate) const MOST_COST: u32 = 1_000;

impl Costed {
    /// Its place in the order of names.
    fn place(self) -> u8
        ensures { result ≡ place_of self }
    {
        match self {
            Costed::Neg => 0,
            Costed::Call => 1,
            Costed::Inp => 2,
            Costed::Read => 3,
            Costed::Addb => 4,
            Costed::Adds => 5,
            Costed::Subb => 6,
            Costed::Subs => 7,
            Costed::Xor => 8,
            Costed::And => 9,
            Costed::Nor => 10,
            Costed::Andn => 11,
            Costed::Shift => 12,
            Costed::Compare => 13,
            Costed::Out => 14,
            Costed::Sto => 15,
        }
    }

    /// Is it this kind?
    pub fn is_kind(self, other: Costed) -> bool
        ensures { result ≡ (place_of self == place_of other) }
    {
        self.place() == other.place()
    }

    /// The kind of a name. None exactly where no kind has it.
    #[tactic(auto, unfolding(crate::specs::Costs::cost_name))]
    pub fn named(text: &[u8]) -> Option<Costed>
        ensures { result ≡ cost_name text.now }
    {
        if is(text, b"NEG") {
            Some(Costed::Neg)
        } else if is(text, b"CALL") {
            Some(Costed::Call)
        } else if is(text, b"INP") {
            Some(Costed::Inp)
        } else if is(text, b"READ") {
            Some(Costed::Read)
        } else if is(text, b"ADDB") {
            Some(Costed::Addb)
        } else if is(text, b"ADDS") {
            Some(Costed::Adds)
        } else if is(text, b"SUBB") {
            Some(Costed::Subb)
        } else if is(text, b"SUBS") {
            Some(Costed::Subs)
        } else if is(text, b"XOR") {
            Some(Costed::Xor)
        } else if is(text, b"AND") {
            Some(Costed::And)
        } else if is(text, b"NOR") {
            Some(Costed::Nor)
        } else if is(text, b"ANDN") {
            Some(Costed::Andn)
        } else if is(text, b"SHIFT") {
            Some(Costed::Shift)
        } else if is(text, b"COMPARE") {
            Some(Costed::Compare)
        } else if is(text, b"OUT") {
            Some(Costed::Out)
        } else if is(text, b"STO") {
            Some(Costed::Sto)
        } else {
            None
        }
    }

    /// The kind of an instruction. None exactly where it has a function that there isn't.
    fn of(fields: Fields) -> Option<Costed>
        ensures { result ≡ kind_costed fields }
    {
        if fields.c {
            Some(Costed::Compare)
        } else if fields.d == destination::PERIPHERAL {
            Some(Costed::Out)
        } else if fields.d == destination::MEMORY {
            Some(Costed::Sto)
        } else {
            FUNCTIONS.get(fields.f as usize).copied()
        }
    }
}

/// The cost of a kind by these lines.
fn cost_of(costs: &[(Costed, u32)], kind: Costed) -> u32
    ensures { result ≡ cost_of costs.now kind }
{
    for line in costs {
        if line.0.is_kind(kind) {
            return line.1;
        }
    }
    PLAIN_COST
}

/// The cost of the instruction that a word is, by these lines.
pub fn word_cost(costs: &[(Costed, u32)], word: Word) -> u32
    ensures { result ≡ word_cost costs.now word.0 }
{
    match Costed::of(decode(word)) {
        None => PLAIN_COST,
        Some(kind) => cost_of(costs, kind),
    }
}
