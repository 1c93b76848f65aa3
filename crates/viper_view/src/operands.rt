//! What an instruction works on: its word, its operand, and their numbers over a fact.

use crate::fact_words::reg_name;
use crate::number_words::Numbers;
use crate::places::{PlaceWords, next_address};
use flag_relation::Fact;
use memory_plan::{Plan, Range};
use num_domain::NumDomain;
use std::fmt;
use val_dom::Val;
use viper_decode::{Operand, Place, Source};
use viper_word::{Addr, signed};

/// What is looked at: an address of a plan, and what is known there over some cells.
#[derive(Clone, Copy)]
pub struct Spot<'a> {
    pub plan: &'a Plan,
    pub cells: &'a [Addr],
    pub at: Addr,
    pub fact: &'a Fact<Val>,
}

/// The value of the word that is worked on.
pub fn source_value(spot: &Spot<'_>, source: Source) -> Val {
    match source {
        Source::Of(reg) => spot.fact.reg(reg),
        Source::AfterP => Val::constant(i64::from(spot.at.next().get())),
    }
}

/// The name of the word that is worked on.
pub fn source_name(source: Source) -> &'static str {
    match source {
        Source::Of(reg) => reg_name(reg),
        Source::AfterP => "the next address",
    }
}

/// Both joined, as far as they are there.
fn joined(first: Option<Val>, second: Option<Val>) -> Option<Val> {
    match (first, second) {
        (Some(first), Some(second)) => Some(first.join(&second)),
        (first, None) => first,
        (None, second) => second,
    }
}

/// The numbers of a range as a value.
fn range_value(range: &Range) -> Val {
    Val::span(range.lo, range.hi, range.modulus)
}

/// What is known of a tracked cell at an address. None where none is tracked there.
fn cell_value(spot: &Spot<'_>, at: Addr) -> Option<Val> {
    let fact = spot.fact;
    for (i, cell) in spot.cells.iter().enumerate() {
        if *cell == at {
            return fact.cells.get(i).copied();
        }
    }
    None
}

/// What is known of the word of memory at an address.
fn word_value(spot: &Spot<'_>, at: Addr) -> Option<Val> {
    if let Some(value) = cell_value(spot, at) {
        return Some(value);
    }
    match spot.plan.data_range(at) {
        Some(range) => Some(range_value(&range)),
        None => {
            let word = spot.plan.code_word(at)?;
            Some(Val::constant(signed(word)))
        }
    }
}

/// What is known of the answer of the peripheral at an address.
fn answer_value(spot: &Spot<'_>, at: Addr) -> Option<Val> {
    let range = spot.plan.input_range(at)?;
    Some(range_value(&range))
}

/// What is known of the words, or the answers, at the addresses that the place may be.
fn value_over(spot: &Spot<'_>, place: &Place, is_input: bool) -> Option<Val> {
    let mut all = None;
    let mut from = 0;
    for _ in 0..=Addr::LAST {
        let Some(at) = next_address(spot.fact, place, from) else {
            return all;
        };
        let value = if is_input {
            answer_value(spot, at)
        } else {
            word_value(spot, at)
        };
        all = joined(all, value);
        from = at.get() + 1;
    }
    all
}

/// The value of an operand (docs/METHOD.md, "The abstract step"). None where it may be at no
/// address at which something is known.
pub fn operand_value(spot: &Spot<'_>, operand: &Operand) -> Option<Val> {
    match operand {
        Operand::Literal(number) => Some(Val::constant(i64::from(number.get()))),
        Operand::Memory(place) => value_over(spot, place, false),
        Operand::Peripheral(place) => value_over(spot, place, true),
    }
}

/// An operand by its name, as `1`, `the word at 00210` or `the answer at 00010 plus X`.
#[derive(Clone, Copy)]
pub struct OperandName<'a> {
    pub operand: &'a Operand,
}

impl<'a> fmt::Display for OperandName<'a> {
    fn fmt<W: fmt::Write>(&self, f: &mut fmt::Formatter<W>) -> fmt::Result {
        match self.operand {
            Operand::Literal(number) => write!(f, "{}", number.get()),
            Operand::Memory(place) => write!(f, "the word at {}", PlaceWords { place }),
            Operand::Peripheral(place) => write!(f, "the answer at {}", PlaceWords { place }),
        }
    }
}

/// What an operand that isn't a literal is, as `, which is 0..9`; of a literal nothing.
#[derive(Clone, Copy)]
pub struct OperandIs<'a> {
    pub operand: &'a Operand,
    pub value: &'a Val,
}

impl<'a> fmt::Display for OperandIs<'a> {
    fn fmt<W: fmt::Write>(&self, f: &mut fmt::Formatter<W>) -> fmt::Result {
        match self.operand {
            Operand::Literal(_) => Ok(()),
            Operand::Memory(_) | Operand::Peripheral(_) => {
                write!(f, ", which is {}", Numbers::of(self.value))
            }
        }
    }
}
