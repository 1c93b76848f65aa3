//! Steps of facts, as this program takes them over the calls of other crates.

use abs_step::{Cond, Outcome, Scratch, outcomes};
use flag_relation::{Fact, Form};
use memory_plan::Plan;
use num_domain::NumDomain;
use rank_form::rise;
use std::alloc::Global;
use val_dom::Val;
use viper_decode::{Fields, decode};
use viper_word::{Addr, Memory, Word};

/// What comes of a fact at an address: its outcomes, or the first of C1 to C7 that fails. The fact
/// is over these cells; of another one nothing comes.
pub fn step(
    alloc: Global,
    plan: &Plan,
    cells: &[Addr],
    at: Addr,
    fact: &Fact<Val>,
) -> Result<Result<Scratch<Val>, Cond>, Memory> {
    let count = fact.count();
    let mut scratch = Scratch::new(alloc, count as u8)?;
    if count != cells.len() {
        return Ok(Ok(scratch));
    }
    match outcomes(plan, cells, at, fact, &mut scratch) {
        Ok(()) => Ok(Ok(scratch)),
        Err(cond) => Ok(Err(cond)),
    }
}

/// The numbers of the word of code at an address; those of the word 0 where there is none.
pub fn fields_at(plan: &Plan, at: Addr) -> Fields {
    match plan.code_word(at) {
        Some(word) => decode(word),
        None => decode(Word(0)),
    }
}

/// By how much the form may rise to the other over the outcome.
pub fn change<D: NumDomain>(from: &Form, to: &Form, out: &Outcome<D>) -> i128 {
    if out.after.count() == out.pre.count() {
        rise(from, to, out)
    } else {
        0
    }
}

/// Does the fact include the other? One over other cells includes none.
pub fn includes<D: NumDomain>(fact: &Fact<D>, other: &Fact<D>) -> bool {
    fact.count() == other.count() && fact.includes(other)
}

/// A copy of a fact.
pub fn copied(alloc: Global, fact: &Fact<Val>) -> Result<Fact<Val>, Memory> {
    let mut copy = Fact::new(alloc, fact.count() as u8)?;
    copy.copy_from(fact);
    Ok(copy)
}
