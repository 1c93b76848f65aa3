//! One form on another: the levels of a nest.
ghost use Rattle.std.specs.Prelude.{◌≡◌, ◌≤◌, ◌^◌, ◌+ℤ◌, ◌*ℤ◌, neg_ℤ, pos, cond, unsigned_abs};
ghost use Rattle.rank_form.specs.Bounds.{lower};
ghost use Rattle.rank_form.specs.Levels.{direction, shift, level, in_limits};

use crate::form::lower;
use crate::place::no_links;
use crate::rates::{VARIABLES, add_terms, put, zeros};
use crate::terms::{constant, form_of, terms};
use flag_relation::{Fact, Form, Var};
use num_domain::NumDomain;

/// What a direction weighs.
fn sign(down: bool) -> i128
    ensures { result ≡ cond down (pos 1) (neg_ℤ (pos 1)) }
{
    if down { 1 } else { -1 }
}

/// So many times a direction.
fn directed(weight: i128, down: bool) -> i128
    requires { unsigned_abs weight ≤ 2 ^ 62 }
    ensures value { result ≡ weight *ℤ cond down (pos 1) (neg_ℤ (pos 1)) }
    ensures size { unsigned_abs result ≤ 2 ^ 62 }
{
    if down { weight } else { -weight }
}

/// A weight times a low end.
fn share(weight: i128, low: i64) -> i128
    requires { unsigned_abs weight ≤ 2 ^ 62 }
    ensures value { result ≡ weight *ℤ low }
    ensures size { unsigned_abs result ≤ 2 ^ 125 }
{
    weight * low as i128
}

/// A weight's share of a low end, taken from a constant.
fn lowered(constant: i128, weight: i128, low: i64) -> i128
    requires constant { unsigned_abs constant ≤ 2 ^ 77 }
    requires weight { unsigned_abs weight ≤ 2 ^ 62 }
    ensures { result ≡ constant +ℤ neg_ℤ (weight *ℤ low) }
{
    constant - share(weight, low)
}

/// The variable as a form, or, where it is to go up, its negative.
pub fn direction(var: Var, down: bool) -> Form
    ensures { result ≡ direction var down }
{
    Form::new(0, &[(var, sign(down))]).unwrap()
}

/// The least value of a directed variable over a fact, which is at most 2^39 in size.
pub fn lowest<D: NumDomain>(var: Var, down: bool, fact: &Fact<D>) -> i64
    ensures { result ≡ lower D.domain (direction var down) fact.now }
{
    // The limits that a fact keeps bound the answer.
    let _count = fact.count();
    lower(&direction(var, down), fact) as i64
}

/// The weight times (the directed variable less its low end) plus another form, with its terms in
/// order. The variable is directed as `direction` has it, and `low` is of that form. None exactly
/// where this passes a limit of forms. docs/METHOD.md, "Forms".
pub fn level(weight: i128, var: Var, down: bool, low: i64, inner: &Form) -> Option<Form>
    requires { unsigned_abs weight ≤ 2 ^ 62 }
    ensures { result ≡ in_limits (level weight (direction var down) low inner.now) }
{
    let mut rates = zeros::<VARIABLES>();
    add_terms(&no_links(), terms(inner), &mut rates);
    put(&mut rates, var, directed(weight, down));
    form_of(lowered(constant(inner), weight, low), &rates)
}

/// The form plus a number. None exactly where the constant passes the limit of forms.
pub fn shift(form: &Form, number: i128) -> Option<Form>
    ensures { result ≡ in_limits (shift form.now number) }
{
    let constant = form.constant().checked_add(number)?;
    Form::new(constant, form.terms())
}
