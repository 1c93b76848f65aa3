//! The addresses that a place may be, and whether each of them may be used.

ghost use Rattle.std.specs.Prelude.{◌≡◌, ◌<◌, ◌≤◌, ◌-◌, ◌+◌, ◌^◌, ◌||◌, ◌&&◌, nat_eq, nat_le, nat_lt, ◌+ℤ◌, pos, not};
ghost use Rattle.std.specs.Ordering.{int_eq};
ghost use Rattle.viper_word.specs.Words.{IsSigned};
ghost use Rattle.flag_relation.specs.Facts.{values};
ghost use Rattle.num_domain.specs.Ends.{ends};
ghost use Rattle.abs_step.specs.Addresses.{any_from, passes_at};
ghost use Rattle.abs_step.specs.Results.{addressed, ends_within};
ghost use Rattle.abs_step.specs.Conditions.{in_range, each_address};
ghost use Rattle.abs_step.specs.Walks.{all_pass, allows, first_from, fits, is_found, is_in_either};

use crate::points::{COUNT, ends_lie, first_point};
use flag_relation::Fact;
use memory_plan::{Plan, Range};
use num_domain::NumDomain;
use viper_decode::Place;
use viper_word::Addr;

/// What is done at an address.
#[derive(Drop)]
pub(crate) enum Use<D> {
    /// Memory is read.
    Read,
    /// A peripheral is read.
    Input,
    /// The value is stored to memory.
    Store(D),
    /// The value is put out to a peripheral.
    Output(D),
}

/// The first address from `from` on below `to` that is `a`.
fn first_only(a: Addr, from: u32, to: u32) -> Option<Addr>
    ensures { result ≡ first_from (λ n. nat_eq a n) from (to - from) }
{
    if a.get() < from {
        return None;
    }
    if a.get() < to { Some(a) } else { None }
}

/// The first address from `from` on below `to` that the place may be.
#[tactic(auto, unfolding(crate::specs::Results::addressed))]
pub(crate) fn first_address<D: NumDomain>(
    place: &Place,
    fact: &Fact<D>,
    from: u32,
    to: u32,
) -> Option<Addr>
    requires { to ≤ 2 ^ 20 }
    ensures { result ≡ first_from
        (addressed D.domain place.now (values fact.now)) from (to - from) }
{
    match place {
        Place::At(a) => first_only(*a, from, to),
        Place::Index(a, r) => match first_point(&fact.reg(*r), a.get(), from, to) {
            None => None,
            Some(n) => Addr::new(n),
        },
    }
}

/// Was an address found?
fn is_found(found: Option<Addr>) -> bool
    ensures { result ≡ is_found found }
{
    match found {
        None => false,
        Some(_) => true,
    }
}

/// May the place be the address?
pub(crate) fn may_be<D: NumDomain>(place: &Place, fact: &Fact<D>, at: Addr) -> bool
    ensures { result ≡ addressed D.domain place.now (values fact.now) at }
{
    let from = at.get();
    is_found(first_address(place, fact, from, from + 1))
}

/// May the place be an address from `from` on below `to`?
pub(crate) fn may_meet<D: NumDomain>(place: &Place, fact: &Fact<D>, from: u32, to: u32) -> bool
    requires { to ≤ 2 ^ 20 }
    ensures { result ≡ any_from (addressed D.domain place.now (values fact.now)) from (to - from) }
{
    is_found(first_address(place, fact, from, to))
}

/// Does the range have one number, or is the value on its steps?
fn is_on_steps<D: NumDomain>(v: &D, range: &Range) -> bool
    ensures { result ≡ (int_eq range.now.lo range.now.hi
        || D.domain.all_on v.now range.now.modulus range.now.residue) }
{
    range.lo == range.hi || v.all_on(range.modulus, range.residue)
}

/// Does the value lie in the range?
fn lies_in<D: NumDomain>(v: &D, range: &Range) -> bool
    ensures { result ≡ in_range D.domain v.now range.now }
{
    ends_lie(v, 0, range.lo, range.hi) && is_on_steps(v, range)
}

/// Does what is done fit a span with the range?
fn fits<D: NumDomain>(what: &Use<D>, range: &Range) -> bool
    ensures { result ≡ fits D.domain what.now range.now }
{
    match what {
        Use::Read | Use::Input => true,
        Use::Store(v) | Use::Output(v) => lies_in(v, range),
    }
}

/// Do the addresses from `lo` to `hi` and those from `from` on below `to` share none?
fn are_apart(lo: Addr, hi: Addr, from: u32, to: u32) -> bool
    ensures { result ≡ (nat_lt hi lo || (nat_lt hi from || nat_le to lo)) }
{
    hi < lo || (hi.get() < from || to <= lo.get())
}

/// May the place be an address from `from` on below `to`, where what is done doesn't fit the range?
fn fails_in<D: NumDomain>(
    range: &Range,
    what: &Use<D>,
    place: &Place,
    fact: &Fact<D>,
    from: u32,
    to: u32,
) -> bool
    requires { to ≤ 2 ^ 20 }
    ensures { result ≡ (not (fits D.domain what.now range.now)
        && any_from (addressed D.domain place.now (values fact.now)) from (to - from)) }
{
    !fits(what, range) && may_meet(place, fact, from, to)
}

/// Is each address of the place from `from` on below `to` in a span, and does what is done fit the
/// range of the first such span? A span divides the addresses into those before it, those in it, and
/// those behind it, so that each span is looked at once where they ascend.
#[cycle(spans)]
fn are_in_spans<D: NumDomain>(
    spans: &[(Addr, Addr, Range)],
    what: &Use<D>,
    place: &Place,
    fact: &Fact<D>,
    from: u32,
    to: u32,
) -> bool
    requires order { from ≤ to }
    requires small { to ≤ 2 ^ 20 }
    ensures { result ≡ all_pass (addressed D.domain place.now (values fact.now))
        (passes_at spans.now (fits D.domain what.now)) from to }
{
    match spans {
        [] => !may_meet(place, fact, from, to),
        [first, rest @ ..] => {
            if are_apart(first.0, first.1, from, to) {
                return are_in_spans(rest, what, place, fact, from, to);
            }
            let low = from.max(first.0.get());
            let high = to.min(first.1.get() + 1);
            !fails_in(&first.2, what, place, fact, low, high)
                && (are_met_in_spans(rest, what, place, fact, from, low)
                    && are_met_in_spans(rest, what, place, fact, high, to))
        }
    }
}

/// The same, where the place may be none of the addresses: then no span is looked at.
#[cycle(spans)]
fn are_met_in_spans<D: NumDomain>(
    spans: &[(Addr, Addr, Range)],
    what: &Use<D>,
    place: &Place,
    fact: &Fact<D>,
    from: u32,
    to: u32,
) -> bool
    requires order { from ≤ to }
    requires small { to ≤ 2 ^ 20 }
    ensures { result ≡ all_pass (addressed D.domain place.now (values fact.now))
        (passes_at spans.now (fits D.domain what.now)) from to }
{
    if from == to {
        return true;
    }
    if !may_meet(place, fact, from, to) {
        return true;
    }
    are_in_spans(spans, what, place, fact, from, to)
}

/// Is each address of the place from `from` on below `to` in a code span or in a data span?
#[cycle(memory)]
fn are_in_memory<D: NumDomain>(
    code: &[(Addr, Addr)],
    spans: &[(Addr, Addr, Range)],
    place: &Place,
    fact: &Fact<D>,
    from: u32,
    to: u32,
) -> bool
    requires order { from ≤ to }
    requires small { to ≤ 2 ^ 20 }
    ensures { result ≡ all_pass (addressed D.domain place.now (values fact.now))
        (is_in_either code.now spans.now) from to }
{
    match code {
        [] => are_in_spans(spans, &Use::Read, place, fact, from, to),
        [first, rest @ ..] => {
            if are_apart(first.0, first.1, from, to) {
                return are_in_memory(rest, spans, place, fact, from, to);
            }
            let low = from.max(first.0.get());
            let high = to.min(first.1.get() + 1);
            are_met_in_memory(rest, spans, place, fact, from, low)
                && are_met_in_memory(rest, spans, place, fact, high, to)
        }
    }
}

/// The same, where the place may be none of the addresses: then no span is looked at.
#[cycle(memory)]
fn are_met_in_memory<D: NumDomain>(
    code: &[(Addr, Addr)],
    spans: &[(Addr, Addr, Range)],
    place: &Place,
    fact: &Fact<D>,
    from: u32,
    to: u32,
) -> bool
    requires order { from ≤ to }
    requires small { to ≤ 2 ^ 20 }
    ensures { result ≡ all_pass (addressed D.domain place.now (values fact.now))
        (is_in_either code.now spans.now) from to }
{
    if from == to {
        return true;
    }
    if !may_meet(place, fact, from, to) {
        return true;
    }
    are_in_memory(code, spans, place, fact, from, to)
}

/// May it be done at each address of the place from `from` on below `to`?
fn are_allowed<D: NumDomain>(
    plan: &Plan,
    what: &Use<D>,
    place: &Place,
    fact: &Fact<D>,
    from: u32,
    to: u32,
) -> bool
    requires order { from ≤ to }
    requires small { to ≤ 2 ^ 20 }
    ensures { result ≡ all_pass (addressed D.domain place.now (values fact.now))
        (allows D.domain plan.now what.now) from to }
{
    match what {
        Use::Read => { are_in_memory(plan.code_spans(), plan.data_spans(), place, fact, from, to) }
        Use::Input => are_in_spans(plan.input_spans(), what, place, fact, from, to),
        Use::Store(_) => are_in_spans(plan.data_spans(), what, place, fact, from, to),
        Use::Output(_) => are_in_spans(plan.output_spans(), what, place, fact, from, to),
    }
}

/// May it be done at each address that the place may be?
fn is_allowed<D: NumDomain>(plan: &Plan, what: &Use<D>, place: &Place, fact: &Fact<D>) -> bool
    ensures { result ≡ all_pass (addressed D.domain place.now (values fact.now))
        (allows D.domain plan.now what.now) 0 (2 ^ 20) }
{
    match first_address(place, fact, 0, COUNT) {
        None => true,
        Some(first) => are_allowed(plan, what, place, fact, first.get(), COUNT),
    }
}

/// Is each address of the place lawful, and may it be done there?
#[tactic(auto, unfolding(crate::specs::Conditions::each_address))]
pub(crate) fn each_address<D: NumDomain>(
    plan: &Plan,
    what: &Use<D>,
    place: &Place,
    fact: &Fact<D>,
) -> bool
    ensures { result ≡ each_address D.domain place.now (values fact.now)
        (allows D.domain plan.now what.now) }
{
    match place {
        Place::At(a) => are_allowed(plan, what, place, fact, a.get(), a.get() + 1),
        Place::Index(a, r) => {
            ends_lie(&fact.reg(*r), i64::from(a.get()), 0, i64::from(Addr::LAST))
                && is_allowed(plan, what, place, fact)
        }
    }
}
