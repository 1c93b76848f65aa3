//! The most that the variables of a fact add.
ghost use Rattle.std.specs.Prelude.{◌≡◌, ◌<◌, ◌≤◌, ◌^◌, ◌*◌, ◌+◌, ◌-ℤ◌, ◌+ℤ◌, length, unsigned_abs};
ghost use Rattle.num_domain.specs.Ends.{ends};
ghost use Rattle.flag_relation.specs.declared.var.Var.TheVariants as var;
ghost use Rattle.rank_form.specs.Weights.{sum_below};
ghost use Rattle.rank_form.specs.Bounds.{most};
ghost use Rattle.rank_form.specs.Rates.{IsBelow, rate_at, net_most, net_upper};

use crate::place::var_number;
use crate::rates::product;
use flag_relation::{Fact, Reg, Var};
use num_domain::NumDomain;
use viper_word::{GREATEST_SIGNED, LEAST_SIGNED};

/// The most of a multiple of the value's members; 0 where it may have none.
#[tactic(auto, unfolding(num_domain::specs::Ends::ends, num_domain::specs::Ends::ends_when))]
pub(crate) fn most<D: NumDomain>(rate: i128, value: &D) -> i128
    requires { unsigned_abs rate ≤ 2 ^ 47 }
    ensures value { result ≡ most rate (ends D.domain value.now) }
    ensures size { unsigned_abs result ≤ 2 ^ 110 }
{
    let Some(lo) = value.least_from(LEAST_SIGNED) else {
        return 0;
    };
    let Some(hi) = value.greatest_to(GREATEST_SIGNED) else {
        return 0;
    };
    if lo <= hi {
        product(rate, if 0 <= rate { hi } else { lo })
    } else {
        0
    }
}

/// The coefficient of a variable, by one list less another.
fn net_rate(plus: &[i128], minus: &[i128], var: Var) -> i128
    requires plus { IsBelow (8 * 2 ^ 43) plus.now }
    requires minus { IsBelow (8 * 2 ^ 43) minus.now }
    requires count { length plus.now ≡ length minus.now }
    ensures value { result ≡ rate_at plus.now var -ℤ rate_at minus.now var }
    ensures size { unsigned_abs result ≤ 2 ^ 47 }
{
    let number = var_number(var);
    if number < plus.len() {
        plus[number] - minus[number]
    } else {
        0
    }
}

/// What a register adds at most.
fn reg_most<D: NumDomain>(fact: &Fact<D>, plus: &[i128], minus: &[i128], at: Reg) -> i128
    requires plus { IsBelow (8 * 2 ^ 43) plus.now }
    requires minus { IsBelow (8 * 2 ^ 43) minus.now }
    requires count { length plus.now ≡ length minus.now }
    ensures value { result ≡ net_most D.domain fact.now plus.now minus.now (var.Reg at) }
    ensures size { unsigned_abs result ≤ 2 ^ 110 }
{
    let rate = net_rate(plus, minus, Var::Reg(at));
    if rate == 0 {
        0
    } else {
        most(rate, &fact.reg(at))
    }
}

/// What a cell adds at most.
fn cell_most<D: NumDomain>(fact: &Fact<D>, plus: &[i128], minus: &[i128], at: u8) -> i128
    requires plus { IsBelow (8 * 2 ^ 43) plus.now }
    requires minus { IsBelow (8 * 2 ^ 43) minus.now }
    requires count { length plus.now ≡ length minus.now }
    requires there { at < length fact.now.cells }
    ensures value { result ≡ net_most D.domain fact.now plus.now minus.now (var.Cell at) }
    ensures size { unsigned_abs result ≤ 2 ^ 110 }
{
    let rate = net_rate(plus, minus, Var::Cell(at));
    if rate == 0 {
        0
    } else {
        most(rate, &fact.cell(at))
    }
}

/// What the cells add at most.
fn cells_most<D: NumDomain>(fact: &Fact<D>, plus: &[i128], minus: &[i128]) -> i128
    requires plus { IsBelow (8 * 2 ^ 43) plus.now }
    requires minus { IsBelow (8 * 2 ^ 43) minus.now }
    requires count { length plus.now ≡ length minus.now }
    ensures value { result ≡ sum_below (length fact.now.cells)
        (λ i. net_most D.domain fact.now plus.now minus.now (var.Cell i)) }
    ensures size { unsigned_abs result ≤ 32 * 2 ^ 110 }
    ensures few { length fact.now.cells ≤ 32 }
{
    let count = fact.count();
    let mut total: i128 = 0;
    let mut at: u8 = 0;
    while (at as usize) < count {
        total += cell_most(fact, plus, minus, at);
        at += 1;
    }
    total
}

/// The most that the variables of a fact add, by one list of coefficients less another.
pub(crate) fn net_upper<D: NumDomain>(fact: &Fact<D>, plus: &[i128], minus: &[i128]) -> i128
    requires plus { IsBelow (8 * 2 ^ 43) plus.now }
    requires minus { IsBelow (8 * 2 ^ 43) minus.now }
    requires count { length plus.now ≡ length minus.now }
    ensures value { result ≡ net_upper D.domain fact.now plus.now minus.now }
    ensures size { unsigned_abs result ≤ 2 ^ 116 }
    ensures few { length fact.now.cells ≤ 32 }
{
    let a = reg_most(fact, plus, minus, Reg::A);
    let x = reg_most(fact, plus, minus, Reg::X);
    let y = reg_most(fact, plus, minus, Reg::Y);
    let cells = cells_most(fact, plus, minus);
    sum(sum(sum(a, x), y), cells)
}

/// The sum of two.
pub(crate) fn sum(a: i128, b: i128) -> i128
    requires a { unsigned_abs a ≤ 2 ^ 120 + 2 ^ 118 }
    requires b { unsigned_abs b ≤ 2 ^ 120 + 2 ^ 118 }
    ensures { result ≡ a +ℤ b }
{
    a + b
}
