//! The value of an operand: what the place may hold, joined over the addresses that it may be.

ghost use Rattle.std.specs.Prelude.{◌≡◌, ◌≤◌, ◌-◌, ◌^◌, pos, true};
ghost use Rattle.flag_relation.specs.Facts.{values};
ghost use Rattle.memory_plan.specs.Plans.{word_at};
ghost use Rattle.abs_step.specs.Addresses.{any_from, is_tracked};
ghost use Rattle.abs_step.specs.Results.{addressed, or_value, given, join_all, cell_sources, span_meets, span_sources, word_source, words_from, read_code, read_memory, read_input, operand_value};
ghost use Rattle.abs_step.specs.Starts.{range_value};
ghost use Rattle.abs_step.specs.Walks.{is_greatest, is_untracked};

use crate::addresses::{first_address, may_be, may_meet};
use crate::starting::value_of;
use flag_relation::Fact;
use memory_plan::{Plan, Range};
use num_domain::NumDomain;
use viper_decode::{Operand, Place};
use viper_word::{Addr, signed};

/// Both joined: the first, where it includes the second.
fn join_of<D: NumDomain>(v: &D, w: &D) -> D
    ensures { result ≡ D.domain.join v.now w.now }
{
    if v.includes(w) { *v } else { v.join(w) }
}

/// Both joined, as far as they are there.
fn joined<D: NumDomain>(first: Option<D>, second: Option<D>) -> Option<D>
    ensures { result ≡ or_value D.domain first second }
{
    match first {
        None => second,
        Some(v) => match second {
            None => Some(v),
            Some(w) => Some(join_of(&v, &w)),
        },
    }
}

/// Has the value all numbers? Then no join changes it.
fn is_greatest<D: NumDomain>(so_far: &Option<D>) -> bool
    ensures { result ≡ is_greatest D.domain so_far.now }
{
    match so_far {
        None => false,
        Some(v) => v.includes(&D::top()),
    }
}

/// The value, where that is so.
fn given<D: NumDomain>(is_so: bool, value: D) -> Option<D>
    ensures { result ≡ given is_so value }
{
    if is_so { Some(value) } else { None }
}

/// Is the address that of a tracked cell?
pub(crate) fn is_tracked(cells: &[Addr], at: Addr) -> bool
    ensures { result ≡ is_tracked cells.now at }
{
    cells.iter().any(|cell| *cell == at)
}

/// The value, joined with those of the tracked cells that the place may be.
#[tactic(auto, unfolding(crate::specs::Results::join_all, crate::specs::Results::cell_sources))]
fn join_cells<D: NumDomain>(
    place: &Place,
    fact: &Fact<D>,
    cells: &[Addr],
    known: &[D],
    so_far: Option<D>,
) -> Option<D>
    ensures { result ≡ join_all D.domain so_far
        (cell_sources D.domain (addressed D.domain place.now (values fact.now)) cells.now
        known.now) }
{
    match cells {
        [] => so_far,
        [cell, other_cells @ ..] => match known {
            [] => so_far,
            [value, others @ ..] => {
                let held = given(may_be(place, fact, *cell), *value);
                join_cells(place, fact, other_cells, others, joined(so_far, held))
            }
        },
    }
}

/// May the place be an address from `from` on below `to` that isn't a tracked cell's?
fn may_meet_untracked<D: NumDomain>(
    place: &Place,
    fact: &Fact<D>,
    cells: &[Addr],
    from: u32,
    to: u32,
) -> bool
    requires { to ≤ 2 ^ 20 }
    ensures { result ≡ any_from
        (is_untracked D.domain cells.now place.now (values fact.now)) from (to - from) }
{
    let mut at = from;
    while at < to {
        let Some(next) = first_address(place, fact, at, to) else {
            return false;
        };
        if !is_tracked(cells, next) {
            return true;
        }
        at = next.get() + 1;
    }
    false
}

/// The range of a data span of which the place may be an untracked address.
fn data_value<D: NumDomain>(
    place: &Place,
    fact: &Fact<D>,
    cells: &[Addr],
    span: &(Addr, Addr, Range),
) -> Option<D>
    ensures { result ≡ given
        (span_meets D.domain (is_untracked D.domain cells.now place.now (values fact.now)) span.now)
        (range_value D.domain span.now.2) }
{
    let is_met = may_meet_untracked(place, fact, cells, span.0.get(), span.1.get() + 1);
    given(is_met, value_of(&span.2))
}

/// The range of an input span of which the place may be an address.
fn input_value<D: NumDomain>(place: &Place, fact: &Fact<D>, span: &(Addr, Addr, Range)) -> Option<D>
    ensures { result ≡ given
        (span_meets D.domain (addressed D.domain place.now (values fact.now)) span.now)
        (range_value D.domain span.now.2) }
{
    let is_met = may_meet(place, fact, span.0.get(), span.1.get() + 1);
    given(is_met, value_of(&span.2))
}

/// The value, joined with the ranges of the data spans of which the place may be an untracked address.
/// Where the value has all numbers, no span is looked at any more.
#[tactic(auto, unfolding(crate::specs::Results::join_all, crate::specs::Results::span_sources))]
fn join_data<D: NumDomain>(
    place: &Place,
    fact: &Fact<D>,
    cells: &[Addr],
    spans: &[(Addr, Addr, Range)],
    so_far: Option<D>,
) -> Option<D>
    ensures { result ≡ join_all D.domain so_far (span_sources D.domain
        (is_untracked D.domain cells.now place.now (values fact.now)) spans.now) }
{
    match spans {
        [] => so_far,
        [first, rest @ ..] => {
            if is_greatest(&so_far) {
                return so_far;
            }
            let held = data_value(place, fact, cells, first);
            join_data(place, fact, cells, rest, joined(so_far, held))
        }
    }
}

/// The value, joined with the ranges of the input spans of which the place may be an address.
#[tactic(auto, unfolding(crate::specs::Results::join_all, crate::specs::Results::span_sources))]
fn join_input<D: NumDomain>(
    place: &Place,
    fact: &Fact<D>,
    spans: &[(Addr, Addr, Range)],
    so_far: Option<D>,
) -> Option<D>
    ensures { result ≡ join_all D.domain so_far
        (span_sources D.domain (addressed D.domain place.now (values fact.now)) spans.now) }
{
    match spans {
        [] => so_far,
        [first, rest @ ..] => {
            if is_greatest(&so_far) {
                return so_far;
            }
            let held = input_value(place, fact, first);
            join_input(place, fact, rest, joined(so_far, held))
        }
    }
}

/// The image's word at the address.
fn word_value<D: NumDomain>(plan: &Plan, at: Addr) -> Option<D>
    ensures { result ≡ word_source D.domain true (word_at plan.now.image at) }
{
    match plan.image_word(at) {
        None => None,
        Some(word) => Some(D::constant(signed(word))),
    }
}

/// The value, joined with the words from `from` on below `to` that the place may be.
fn join_words<D: NumDomain>(
    plan: &Plan,
    place: &Place,
    fact: &Fact<D>,
    from: u32,
    to: u32,
    so_far: Option<D>,
) -> Option<D>
    requires { to ≤ 2 ^ 20 }
    ensures { result ≡ join_all D.domain so_far (words_from D.domain plan.now
        (addressed D.domain place.now (values fact.now)) from (to - from)) }
{
    let mut at = from;
    let mut all = so_far;
    while at < to {
        if is_greatest(&all) {
            return all;
        }
        let Some(next) = first_address(place, fact, at, to) else {
            return all;
        };
        all = joined(all, word_value(plan, next));
        at = next.get() + 1;
    }
    all
}

/// The value, joined with the words of the code spans that the place may be.
#[tactic(auto, unfolding(crate::specs::Results::read_code))]
fn join_code<D: NumDomain>(
    plan: &Plan,
    place: &Place,
    fact: &Fact<D>,
    spans: &[(Addr, Addr)],
    so_far: Option<D>,
) -> Option<D>
    ensures { result ≡ read_code D.domain plan.now
        (addressed D.domain place.now (values fact.now)) so_far spans.now }
{
    match spans {
        [] => so_far,
        [first, rest @ ..] => {
            if is_greatest(&so_far) {
                return so_far;
            }
            let all = join_words(plan, place, fact, first.0.get(), first.1.get() + 1, so_far);
            join_code(plan, place, fact, rest, all)
        }
    }
}

/// What memory may hold at the place: the tracked cells, the data spans and the words of code that it
/// may be. None exactly where it may be none of them.
#[tactic(auto, unfolding(crate::specs::Results::read_memory))]
fn read_memory<D: NumDomain>(
    plan: &Plan,
    cells: &[Addr],
    place: &Place,
    fact: &Fact<D>,
) -> Option<D>
    ensures { result ≡ read_memory D.domain plan.now cells.now
        (addressed D.domain place.now (values fact.now)) fact.now.cells }
{
    let held = join_cells(place, fact, cells, fact.cells.as_slice(), None);
    let data = join_data(place, fact, cells, plan.data_spans(), held);
    join_code(plan, place, fact, plan.code_spans(), data)
}

/// What may be read from the peripheral at the place. None exactly where it may be in no input span.
#[tactic(auto, unfolding(crate::specs::Results::read_input))]
fn read_input<D: NumDomain>(plan: &Plan, place: &Place, fact: &Fact<D>) -> Option<D>
    ensures { result ≡ read_input D.domain plan.now
        (addressed D.domain place.now (values fact.now)) }
{
    join_input(place, fact, plan.input_spans(), None)
}

/// The number of an address as a value.
fn literal<D: NumDomain>(at: Addr) -> D
    ensures { result ≡ D.domain.constant (pos at) }
{
    D::constant(i64::from(at.get()))
}

/// The value of an operand over a fact. None exactly where it has an address and none of those that
/// it may be is declared. docs/METHOD.md, "Outcomes".
#[tactic(auto, unfolding(crate::specs::Results::operand_value))]
pub(crate) fn operand_value<D: NumDomain>(
    plan: &Plan,
    cells: &[Addr],
    fact: &Fact<D>,
    operand: &Operand,
) -> Option<D>
    ensures { result ≡ operand_value D.domain plan.now cells.now (values fact.now) operand.now }
{
    match operand {
        Operand::Literal(at) => Some(literal(*at)),
        Operand::Memory(place) => read_memory(plan, cells, place, fact),
        Operand::Peripheral(place) => read_input(plan, place, fact),
    }
}
