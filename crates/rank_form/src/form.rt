//! The bounds of forms over facts and outcomes.
ghost use Rattle.std.specs.Prelude.{◌≡◌, neg_ℤ, pos, int_le, length};
ghost use Rattle.rank_form.specs.Bounds.{upper, lower, rise};

use crate::by_rates::{difference, lower_by_rates, rise_by_rates, upper_by_rates};
use crate::terms::{constant, terms};
use abs_step::Outcome;
use flag_relation::{Fact, Form};
use num_domain::NumDomain;

/// The greatest value of a form over a fact: each state that meets the fact gives it at most that.
/// Takes any form; a variable that the fact lacks counts as 0. docs/METHOD.md, "Forms".
pub fn upper<D: NumDomain>(form: &Form, fact: &Fact<D>) -> i128
    ensures { result ≡ upper D.domain form.now fact.now }
{
    if terms(form).is_empty() {
        constant(form)
    } else {
        upper_by_rates(form, fact)
    }
}

/// The least value of a form over a fact: each state that meets the fact gives it at least that.
/// Takes any form; a variable that the fact lacks counts as 0. docs/METHOD.md, "Forms".
pub fn lower<D: NumDomain>(form: &Form, fact: &Fact<D>) -> i128
    ensures { result ≡ lower D.domain form.now fact.now }
{
    if terms(form).is_empty() {
        constant(form)
    } else {
        lower_by_rates(form, fact)
    }
}

/// The most by which the form `to` after the step is above the form `from` before it: between two
/// states that meet what the outcome knows on its sides the change is at most that. Takes any
/// forms. The outcome has as many cells after the step as before it. docs/METHOD.md, "Forms".
pub fn rise<D: NumDomain>(from: &Form, to: &Form, out: &Outcome<D>) -> i128
    requires { length out.now.after.cells ≡ length out.now.pre.cells }
    ensures { result ≡ rise D.domain from.now to.now out.now }
{
    if terms(from).is_empty() && terms(to).is_empty() {
        difference(constant(to), constant(from), 0)
    } else {
        rise_by_rates(from, to, out)
    }
}

/// Does the form surely fall by the price over an outcome: is `rise` at most the negative of it?
/// The condition is that of `rise`.
pub fn falls_by<D: NumDomain>(from: &Form, to: &Form, out: &Outcome<D>, price: u32) -> bool
    requires { length out.now.after.cells ≡ length out.now.pre.cells }
    ensures { result ≡ int_le (rise D.domain from.now to.now out.now) (neg_ℤ (pos price)) }
{
    rise(from, to, out) <= -(price as i128)
}
