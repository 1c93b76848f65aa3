ghost use Rattle.std.specs.Prelude.{◌≡◌, ◌<◌, ◌≤◌, length, true};
ghost use Rattle.flag_relation.specs.declared.form.TheConstants.{MOST_TERMS, VARIABLES};
ghost use Rattle.flag_relation.specs.Forms.{form_of, var_number, is_coefficient, are_terms, is_form};

use crate::{Reg, Var};
use std::marker::Model;

/// How many terms a form may have.
pub const MOST_TERMS: usize = 8;

/// The greatest size of a coefficient, 2^43.
const MOST_COEFFICIENT: i128 = 0x800_0000_0000;

/// The greatest size of the constant, 2^77.
const MOST_CONSTANT: i128 = 0x2000_0000_0000_0000_0000;

/// A form: a number that is linear in registers and cells. It has a constant, at most 2^77 in size,
/// and at most eight terms, each a variable with a coefficient. The variables ascend (A, X, Y, then
/// the cells by number); a coefficient isn't 0, and is at most 2^43 in size.
#[derive(Clone, Copy)]
pub struct Form {
    constant: i128,
    terms: [(Var, i128); MOST_TERMS],
    len: usize,
}

impl Model for Form {
    ghost use Rattle.std.specs.Prelude.{length, take};
    ghost use Rattle.flag_relation.specs.declared.form.TheConstants.{MOST_TERMS};
    ghost use Rattle.flag_relation.specs.Forms.{FormOf};
    ghost use Rattle.flag_relation.specs.Forms.{unused_term};
    ghost use Rattle.flag_relation.specs.FormLimits.{IsForm};
    ghost use Rattle.flag_relation.specs.Padding.{padded, padded_back};

    ghost Value = { FormOf };

    ghost view = { λ f. record { constant = f.constant; terms = take f.len f.terms } };

    ghost invariant = { λ f. IsForm f.constant f.terms f.len };

    ghost inverse = { λ v. record {
      constant = v.constant;
      terms = padded unused_term MOST_TERMS v.terms;
      len = length v.terms;
    } };

    ghost inverse_ok = { λ f h. λ i. record {
      constant = f.constant;
      terms = padded_back unused_term MOST_TERMS f.terms f.len h.padding i;
      len = h.padding.used i;
    } };
}

/// How many variables can be named: the registers, and a cell for each number of a byte.
const VARIABLES: usize = 3 + 256;

/// The place of a variable in the order.
fn var_number(var: Var) -> usize
    ensures number { result ≡ var_number var }
    ensures few { result < VARIABLES }
{
    match var {
        Var::Reg(Reg::A) => 0,
        Var::Reg(Reg::X) => 1,
        Var::Reg(Reg::Y) => 2,
        Var::Cell(i) => 3 + i as usize,
    }
}

/// Do the variables ascend from the number on, with coefficients that a form may have?
#[tactic(auto, unfolding(crate::specs::Forms::are_terms))]
fn are_terms(from: usize, terms: &[(Var, i128)]) -> bool
    ensures { result ≡ are_terms from terms.now }
{
    match terms {
        [] => true,
        [(var, coefficient), rest @ ..] => {
            let number = var_number(*var);
            from <= number && is_coefficient(*coefficient) && are_terms(number + 1, rest)
        }
    }
}

/// May a form have the coefficient?
fn is_coefficient(n: i128) -> bool
    ensures { result ≡ is_coefficient n }
{
    n != 0 && (-MOST_COEFFICIENT <= n && n <= MOST_COEFFICIENT)
}

/// Do the constant and the terms make a form?
fn is_form(constant: i128, terms: &[(Var, i128)]) -> bool
    ensures { result ≡ is_form constant terms.now }
{
    terms.len() <= MOST_TERMS
        && (-MOST_CONSTANT <= constant && constant <= MOST_CONSTANT)
        && are_terms(0, terms)
}

impl Form {
    /// What stands in an unused place.
    const PAD: (Var, i128) = (Var::Reg(Reg::A), 0);

    /// The form of a constant and terms. None exactly where there are more than eight terms, the
    /// variables don't ascend, a coefficient is 0 or over 2^43 in size, or the constant is over
    /// 2^77 in size. Takes no memory.
    pub fn new(constant: i128, terms: &[(Var, i128)]) -> Option<Form>
        ensures form { result ≡ form_of constant terms.now }
    {
        if !is_form(constant, terms) {
            return None;
        }
        let mut kept = [Form::PAD; MOST_TERMS];
        kept[..terms.len()].copy_from_slice(terms);
        Some(Form {
            constant,
            terms: kept,
            len: terms.len(),
        })
    }

    /// The constant, at most 2^77 in size.
    pub fn constant(&self) -> i128
        ensures constant { result ≡ self.now.constant }
        ensures limits { is_form self.now.constant self.now.terms ≡ true }
    {
        self.constant
    }

    /// The terms, at most eight, their variables in ascending order.
    pub fn terms(&self) -> &[(Var, i128)]
        ensures all { result.now ≡ self.now.terms }
        ensures few { length result.now ≤ MOST_TERMS }
        ensures limits { is_form self.now.constant self.now.terms ≡ true }
    {
        &self.terms[..self.len]
    }
}

#[cfg(test)]
mod tests {
    use super::*;
    use std::test::Fail;

    #[test]
    fn a_form_keeps_its_limits(rt: HostRuntime) -> Result<(), Fail> {
        let a = Var::Reg(Reg::A);
        let first = Var::Cell(0);
        let form = Form::new(2, &[(a, 3), (first, -1)]).ok_or("3A - c0 + 2")?;
        assert_eq!(rt; form.constant(), 2);
        assert_eq!(rt; form.terms().len(), 2);
        assert!(rt; Form::new(0, &[(first, 1), (a, 1)]).is_none());
        assert!(rt; Form::new(0, &[(a, 1), (a, 1)]).is_none());
        assert!(rt; Form::new(0, &[(a, 0)]).is_none());
        assert!(rt; Form::new(0, &[(a, MOST_COEFFICIENT)]).is_some());
        assert!(rt; Form::new(0, &[(a, MOST_COEFFICIENT + 1)]).is_none());
        assert!(rt; Form::new(-MOST_CONSTANT, &[]).is_some());
        assert!(rt; Form::new(-MOST_CONSTANT - 1, &[]).is_none());
        Ok(())
    }
}
