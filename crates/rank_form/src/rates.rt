//! Coefficients by the numbers of their variables.
ghost use Rattle.std.specs.Prelude.{◌≡◌, ◌<◌, ◌≤◌, ◌*◌, ◌^◌, ◌+◌, ◌-◌, ◌*ℤ◌, ℕ, pos, length, replicate, unsigned_abs};
ghost use Rattle.std.proofs.Common.{get_or};
ghost use Rattle.flag_relation.specs.Forms.{var_number};
ghost use Rattle.rank_form.specs.declared.rates.TheConstants.{VARIABLES};
ghost use Rattle.rank_form.specs.Weights.{weigh, past};
ghost use Rattle.rank_form.specs.Bounds.{place, linked};
ghost use Rattle.rank_form.specs.Rates.{regs_of, AreSmall, IsBelow, put, spread};

use crate::place::{Links, place, var_number};
use flag_relation::Var;

/// How many variables there are: the registers, and a cell for each number of a byte.
pub(crate) const VARIABLES: usize = 3 + 256;

/// How many variables a fact may have.
pub(crate) const FACT_VARIABLES: usize = 3 + 32;

/// No coefficient but 0, of so many variables.
pub(crate) fn zeros<const N: usize>() -> [i128; N]
    ensures { result ≡ replicate N (pos 0) }
{
    [0; N]
}

/// A coefficient times a number.
pub(crate) fn product(coefficient: i128, number: i64) -> i128
    requires { unsigned_abs coefficient ≤ 2 ^ 47 }
    ensures value { result ≡ coefficient *ℤ number }
    ensures size { unsigned_abs result ≤ 2 ^ 110 }
{
    coefficient * number as i128
}

/// Adds a coefficient at its variable, where the list has it.
pub(crate) fn put(rates: &mut [i128], var: Var, coefficient: i128)
    requires size { unsigned_abs coefficient ≤ 2 ^ 110 }
    requires room { IsBelow (2 ^ 115) rates.old }
    ensures rates { rates.new ≡ put rates.old var coefficient }
    ensures grown { (i : ℕ) → unsigned_abs (get_or rates.new i (pos 0))
        ≤ unsigned_abs (get_or rates.old i (pos 0)) + unsigned_abs coefficient }
    ensures named { var_number var < VARIABLES }
    ensures count { length rates.new ≡ length rates.old }
{
    let number = var_number(var);
    if number < rates.len() {
        rates[number] += coefficient;
    }
}

/// Adds each term at the variable that its own is by the links. The answer is what the links add.
#[tactic(auto, unfolding(crate::specs::Weights::weigh, crate::specs::Weights::past, crate::specs::Rates::spread,))]
pub(crate) fn add_terms(links: &Links, terms: &[(Var, i128)], rates: &mut [i128]) -> i128
    requires small { AreSmall (2 ^ 43) terms.now }
    requires few { length terms.now ≤ 8 }
    requires room { IsBelow ((8 - length terms.now) * 2 ^ 43) rates.old }
    ensures more { result ≡ weigh (λ v. (place (regs_of links.now) v).more) terms.now }
    ensures size { unsigned_abs result ≤ length terms.now * 2 ^ 110 }
    ensures rates { rates.new ≡ spread (linked (regs_of links.now) terms.now) rates.old }
    ensures named { past (linked (regs_of links.now) terms.now) ≤ VARIABLES }
    ensures count { length rates.new ≡ length rates.old }
{
    match terms {
        [] => 0,
        [(var, coefficient), rest @ ..] => {
            let spot = place(links, *var);
            put(rates, spot.var, *coefficient);
            let more = add_terms(links, rest, rates);
            product(*coefficient, spot.more) + more
        }
    }
}
