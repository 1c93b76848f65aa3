//! The limits of the forms of a certificate.
ghost use Rattle.std.specs.Prelude.{◌≡◌, true};
ghost use Rattle.std.specs.List.{list_all};
ghost use Rattle.flag_relation.specs.Forms.{is_within, is_form};
ghost use Rattle.rank_nest.specs.declared.limits.TheConstants.{MOST_COEFFICIENT};
ghost use Rattle.rank_nest.specs.Forms.{is_small, if_small};

use flag_relation::{Form, MOST_TERMS, Var};

/// The greatest size of a coefficient, 2^40.
const MOST_COEFFICIENT: i128 = 0x100_0000_0000;

/// The greatest size of the constant, 2^62.
const MOST_CONSTANT: i128 = 0x4000_0000_0000_0000;

/// Is each coefficient at most that limit in size?
fn are_small(terms: &[(Var, i128)]) -> bool
    ensures { result ≡ list_all (λ t. is_within MOST_COEFFICIENT t.1) terms.now }
{
    match terms {
        [] => true,
        [(_, coefficient), rest @ ..] => {
            -MOST_COEFFICIENT <= *coefficient && *coefficient <= MOST_COEFFICIENT && are_small(rest)
        }
    }
}

/// Has the form at most eight terms, with coefficients of at most 2^40 and a constant of at most
/// 2^62 in size?
#[tactic(auto, unfolding(crate::specs::Forms::is_small))]
fn is_small(form: &Form) -> bool
    ensures { result ≡ is_small form.now }
{
    let constant = form.constant();
    form.terms().len() <= MOST_TERMS
        && (-MOST_CONSTANT <= constant && constant <= MOST_CONSTANT)
        && are_small(form.terms())
}

/// The form, if there is one, unless it passes a limit.
pub(crate) fn if_small(form: Option<Form>) -> Option<Form>
    ensures { result ≡ if_small form }
{
    match form {
        Some(form) => { if is_small(&form) { Some(form) } else { None } }
        None => None,
    }
}

/// A form keeps the limits of its type, which are wider.
pub(crate) fn keep_limits(form: &Form)
    ensures { is_form form.now.constant form.now.terms ≡ true }
{
    let _constant = form.constant();
}
