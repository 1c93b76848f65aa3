//! Facts: what is known of the registers, of some cells of memory and of B before an instruction.
//!
//! A fact is an abstract state: a value of a numeric domain for each register and each cell, links
//! between registers and cells, and what B says. Inclusion, join, rounding and `assume` are what an
//! analysis does with facts; all of it rests on the domain's laws alone, and each call says that
//! the states which meet a fact are kept. docs/METHOD.md, "Facts", has the rules in words, with
//! examples.
#![tactic(auto)]

mod assuming;
mod atom;
mod atoms;
mod cells;
mod emptiness;
mod fact;
mod flag;
mod form;
mod joining;
mod kinds;
mod link;
mod order;
mod refining;
mod rounding;
mod settling;
mod spare;
mod var;

pub use assuming::assume;
pub use atom::{Atom, Right};
pub use atoms::{Atoms, MOST_ATOMS};
pub use fact::{Fact, MOST_CELLS};
pub use flag::Flag;
pub use form::{Form, MOST_TERMS};
pub use link::{Link, MOST_OFFSET};
pub use spare::Spare;
pub use var::Var;
pub use viper_word::Reg;
