//! The addresses that a place may be, and the first at which something may not be done.

use crate::fact_words::reg_name;
use crate::number_words::Numbers;
use flag_relation::Fact;
use memory_plan::{Plan, Range};
use num_domain::NumDomain;
use std::fmt;
use val_dom::Val;
use viper_decode::Place;
use viper_word::Addr;

/// What is done at an address.
#[derive(Clone, Copy)]
pub enum Use {
    /// Memory is read.
    Read,
    /// A peripheral is read.
    Input,
    /// The value is stored to memory.
    Store(Val),
    /// The value is put out to a peripheral.
    Output(Val),
}

/// The first address from `from` on that the place may be.
pub fn next_address(fact: &Fact<Val>, place: &Place, from: u32) -> Option<Addr> {
    match place {
        Place::At(at) => { if from <= at.get() { Some(*at) } else { None } }
        Place::Index(at, reg) => {
            let base = i64::from(at.get());
            let found = fact.reg(*reg).least_from(i64::from(from) - base)?;
            address_of(found.checked_add(base)?)
        }
    }
}

/// Does the value lie in the range?
pub fn lies_in(value: &Val, range: &Range) -> bool {
    let numbers = Numbers::of(value);
    range.lo <= numbers.lo
        && numbers.hi <= range.hi
        && (range.modulus < 1 || value.all_on(range.modulus, range.residue))
}

/// May it be done at the address?
fn is_allowed(plan: &Plan, what: &Use, at: Addr) -> bool {
    match what {
        Use::Read => plan.in_code(at) || plan.data_range(at).is_some(),
        Use::Input => plan.input_range(at).is_some(),
        Use::Store(value) => match plan.data_range(at) {
            Some(range) => lies_in(value, &range),
            None => false,
        },
        Use::Output(value) => match plan.output_range(at) {
            Some(range) => lies_in(value, &range),
            None => false,
        },
    }
}

/// A number that isn't an address and that the place may be.
fn first_outside(fact: &Fact<Val>, place: &Place) -> Option<i64> {
    match place {
        Place::At(_) => None,
        Place::Index(at, reg) => {
            let base = i64::from(at.get());
            let numbers = Numbers::of(&fact.reg(*reg));
            let low = numbers.lo.saturating_add(base);
            let high = numbers.hi.saturating_add(base);
            if low < 0 {
                Some(low)
            } else if high > i64::from(Addr::LAST) {
                Some(high)
            } else {
                None
            }
        }
    }
}

/// The address of a number. None where it is none.
pub fn address_of(number: i64) -> Option<Addr> {
    Addr::new(u32::try_from(number).ok()?)
}

/// A number that the place may be, and that is no address, or the first one where that may not be
/// done.
pub fn first_wrong(plan: &Plan, fact: &Fact<Val>, place: &Place, what: &Use) -> Option<i64> {
    if let Some(outside) = first_outside(fact, place) {
        return Some(outside);
    }
    let mut from = 0;
    for _ in 0..=Addr::LAST {
        let at = next_address(fact, place, from)?;
        if !is_allowed(plan, what, at) {
            return Some(i64::from(at.get()));
        }
        from = at.get() + 1;
    }
    None
}

/// A place in words, as `00010`, or `00010 plus X`.
#[derive(Clone, Copy)]
pub struct PlaceWords<'a> {
    pub place: &'a Place,
}

impl<'a> fmt::Display for PlaceWords<'a> {
    fn fmt<W: fmt::Write>(&self, f: &mut fmt::Formatter<W>) -> fmt::Result {
        match self.place {
            Place::At(at) => write!(f, "{:05X}", at.get()),
            Place::Index(at, reg) => write!(f, "{:05X} plus {}", at.get(), reg_name(*reg)),
        }
    }
}
