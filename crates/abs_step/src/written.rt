//! The fact after a result, a call or a store at one address.

ghost use Rattle.std.specs.Prelude.{◌≡◌, ◌<◌, length, IfSome};
ghost use Rattle.abs_step.specs.Outcomes.{assigned, linked};
ghost use Rattle.abs_step.specs.Stores.{store_one};

use crate::origins::{link_of, origin, sets_bit};
use crate::results::{after, source_value};
use crate::writes::{put_cell, put_reg};
use flag_relation::{Fact, Flag, Link, Reg};
use num_domain::NumDomain;
use viper_decode::{Source, Work};
use viper_word::{Addr, Profile};

/// Writes a result to a register.
#[tactic(auto, unfolding(crate::specs::Outcomes::assigned))]
pub(crate) fn assign<D: NumDomain>(
    profile: Profile,
    cells: &[Addr],
    fact: &mut Fact<D>,
    to: Reg,
    work: &Work,
    value: D,
)
    requires { length cells.now ≡ length fact.old.cells }
    ensures assigned { fact.new ≡ assigned D.domain profile cells.now fact.old to work.now value }
    ensures count { length fact.new.cells ≡ length fact.old.cells }
{
    let _count = fact.count();
    let link = link_of(fact, origin(cells, work));
    put_reg(fact, to, value, link);
    if sets_bit(profile, work) {
        fact.set_flag(Flag::Any);
    }
}

/// Writes the address after P to Y, where the work is a call.
pub(crate) fn link_call<D: NumDomain>(is_call: bool, at: Addr, fact: &mut Fact<D>)
    ensures linked { fact.new ≡ linked D.domain is_call at fact.old }
    ensures count { length fact.new.cells ≡ length fact.old.cells }
{
    if is_call {
        put_reg(fact, Reg::Y, after(at), None);
    }
}

/// Stores the word to a cell, and links its register to it.
#[tactic(auto, unfolding(crate::specs::Stores::store_one))]
pub(crate) fn store_one<D: NumDomain>(
    at: Addr,
    fact: &mut Fact<D>,
    source: Source,
    cell: Option<u8>,
)
    requires { IfSome cell (λ i. i < length fact.old.cells) }
    ensures stored { fact.new ≡ store_one D.domain at fact.old source cell }
    ensures count { length fact.new.cells ≡ length fact.old.cells }
{
    let Some(i) = cell else {
        return;
    };
    let value = source_value(at, fact, source);
    put_cell(fact, i, value);
    if let Source::Of(r) = source {
        fact.set_link(r, Some(Link { cell: i, offset: 0 }));
    }
}
