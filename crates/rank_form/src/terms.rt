//! A form's constant and terms, and the form of coefficients.
ghost use Rattle.std.specs.Prelude.{◌≡◌, ◌≤◌, ◌^◌, ◌+◌, ◌<◌, ◌++◌, length, take, true, unsigned_abs};
ghost use Rattle.flag_relation.specs.Forms.{is_form, form_of};
ghost use Rattle.rank_form.specs.declared.rates.TheConstants.{VARIABLES};
ghost use Rattle.rank_form.specs.Weights.{var_at, term_of, terms_from};
ghost use Rattle.rank_form.specs.Rates.{AreSmall, rate_at};

use crate::rates::VARIABLES;
use flag_relation::{Form, Reg, Var};

/// A form's constant, with its limit.
pub(crate) fn constant(form: &Form) -> i128
    ensures value { result ≡ form.now.constant }
    ensures size { unsigned_abs result ≤ 2 ^ 77 }
{
    form.constant()
}

/// A form's terms, with their limits.
pub(crate) fn terms(form: &Form) -> &[(Var, i128)]
    ensures all { result.now ≡ form.now.terms }
    ensures few { length result.now ≤ 8 }
    ensures small { AreSmall (2 ^ 43) result.now }
    ensures limits { is_form form.now.constant form.now.terms ≡ true }
{
    form.terms()
}

/// The variable of a number.
fn var_at(number: usize) -> Var
    requires { number < VARIABLES }
    ensures { result ≡ var_at number }
{
    match number {
        0 => Var::Reg(Reg::A),
        1 => Var::Reg(Reg::X),
        2 => Var::Reg(Reg::Y),
        _ => Var::Cell((number - 3) as u8),
    }
}

/// Puts the term of a number's variable behind the first ones, unless its coefficient is 0. The
/// answer is how many there are then.
fn push(items: &mut [(Var, i128)], count: usize, number: usize, coefficient: i128) -> usize
    requires room { count < length items.old }
    requires named { number < VARIABLES }
    ensures made { take result items.new
        ≡ take count items.old ++ term_of (var_at number) coefficient }
    ensures more { result ≤ count + 1 }
    ensures long { length items.new ≡ length items.old }
{
    if coefficient == 0 {
        return count;
    }
    items[count] = (var_at(number), coefficient);
    count + 1
}

/// The form with these coefficients. None exactly where it is none within the limits.
pub(crate) fn form_of(constant: i128, rates: &[i128]) -> Option<Form>
    requires { length rates.now ≡ VARIABLES }
    ensures { result ≡ form_of constant (terms_from (rate_at rates.now) 0 VARIABLES) }
{
    let mut items = [(Var::Reg(Reg::A), 0); VARIABLES];
    let mut count = 0;
    let mut number = 0;
    while number < VARIABLES {
        count = push(&mut items, count, number, rates[number]);
        number += 1;
    }
    Form::new(constant, &items[..count])
}
