//! Forms after a step.
ghost use Rattle.std.specs.Prelude.{◌≡◌, ◌≤◌, ◌^◌, ◌*◌, ◌+◌, ◌-◌, ℕ, pos, [], length, unsigned_abs};
ghost use Rattle.std.proofs.Common.{get_or};
ghost use Rattle.rank_form.specs.declared.rates.TheConstants.{VARIABLES};
ghost use Rattle.rank_form.specs.Weights.{past, merged};
ghost use Rattle.rank_form.specs.Bounds.{post_at, linked, moved, moved_by, upper, after};
ghost use Rattle.rank_form.specs.Rates.{regs_of, AreSmall, IsBelow, spread, most_in, gain, gains, ArePostsSmall};

use crate::bound::{most, net_upper};
use crate::by_rates::total;
use crate::place::{Links, links_of, no_links, place, post_at};
use crate::rates::{FACT_VARIABLES, VARIABLES, product, put, zeros};
use crate::terms::{constant, form_of, terms};
use abs_step::{Outcome, Post, Posts};
use flag_relation::{Fact, Form, Var};
use num_domain::NumDomain;

/// The most of a multiple of a variable's value, where the fact has the variable.
fn most_in<D: NumDomain>(fact: &Fact<D>, var: Var, coefficient: i128) -> i128
    requires { unsigned_abs coefficient ≤ 2 ^ 43 }
    ensures value { result ≡ most_in D.domain fact.now var coefficient }
    ensures size { unsigned_abs result ≤ 2 ^ 110 }
{
    match var {
        Var::Reg(r) => most(coefficient, &fact.reg(r)),
        Var::Cell(i) => {
            if (i as usize) < fact.count() {
                most(coefficient, &fact.cell(i))
            } else {
                0
            }
        }
    }
}

/// Adds what a term becomes by its post. The answer is what it adds to the constant.
#[tactic(auto, unfolding(crate::specs::Rates::spread, crate::specs::Weights::past))]
fn add_moved<D: NumDomain>(
    links: &Links,
    post: Post,
    fact: &Fact<D>,
    var: Var,
    coefficient: i128,
    rates: &mut [i128],
) -> i128
    requires small { unsigned_abs coefficient ≤ 2 ^ 43 }
    requires room { IsBelow (2 ^ 115) rates.old }
    ensures gain { result ≡ gain D.domain (regs_of links.now) fact.now post var coefficient }
    ensures size { unsigned_abs result ≤ 2 ^ 111 }
    ensures grown { (i : ℕ) → unsigned_abs (get_or rates.new i (pos 0))
        ≤ unsigned_abs (get_or rates.old i (pos 0)) + 2 ^ 43 }
    ensures rates { rates.new
        ≡ spread (linked (regs_of links.now) (moved_by post var coefficient [])) rates.old }
    ensures named { past (linked (regs_of links.now) (moved_by post var coefficient []))
        ≤ VARIABLES }
    ensures count { length rates.new ≡ length rates.old }
{
    match post {
        Post::Same => {
            let spot = place(links, var);
            put(rates, spot.var, coefficient);
            product(coefficient, spot.more)
        }
        Post::Plus(other, number) => {
            let spot = place(links, other);
            put(rates, spot.var, coefficient);
            let linked = product(coefficient, spot.more);
            let stepped = product(coefficient, number);
            linked + stepped
        }
        Post::Within => most_in(fact, var, coefficient),
    }
}

/// Adds what each term becomes by its post and then by a link. The answer is what that adds to the
/// constant.
#[tactic(auto, unfolding(crate::specs::Bounds::moved, crate::specs::Rates::gains, crate::specs::Rates::spread, crate::specs::Weights::past,))]
pub(crate) fn add_after<D: NumDomain>(
    links: &Links,
    posts: &Posts,
    fact: &Fact<D>,
    terms: &[(Var, i128)],
    rates: &mut [i128],
) -> i128
    requires small { AreSmall (2 ^ 43) terms.now }
    requires few { length terms.now ≤ 8 }
    requires room { IsBelow ((8 - length terms.now) * 2 ^ 43) rates.old }
    ensures gains { result ≡ gains D.domain (regs_of links.now) posts.now fact.now terms.now }
    ensures size { unsigned_abs result ≤ length terms.now * 2 ^ 111 }
    ensures rates { rates.new
        ≡ spread (linked (regs_of links.now) (moved posts.now terms.now)) rates.old }
    ensures named { past (linked (regs_of links.now) (moved posts.now terms.now)) ≤ VARIABLES }
    ensures count { length rates.new ≡ length rates.old }
{
    match terms {
        [] => 0,
        [(var, coefficient), rest @ ..] => {
            let post = post_at(posts, *var);
            let first = add_moved(links, post, fact, *var, *coefficient, rates);
            let more = add_after(links, posts, fact, rest, rates);
            first + more
        }
    }
}

/// The form after the step, in terms of the variables before it, with its terms in order. The
/// coefficients are at most 2^40 in size, the constant 2^62, and the numbers that the step adds to
/// variables 2^20; so it is within the limits of a form. docs/METHOD.md, "Forms".
pub fn after<D: NumDomain>(form: &Form, out: &Outcome<D>) -> Form
    requires constant { unsigned_abs form.now.constant ≤ 2 ^ 62 }
    requires small { AreSmall (2 ^ 40) form.now.terms }
    requires numbers { ArePostsSmall (2 ^ 20) out.now.posts }
    requires count { length out.now.after.cells ≡ length out.now.pre.cells }
    ensures { result ≡ merged (after D.domain form.now out.now) }
{
    let mut rates = zeros::<VARIABLES>();
    let gained = add_after(&no_links(), &out.posts, &out.after, terms(form), &mut rates);
    form_of(constant(form) + gained, &rates).unwrap()
}

/// The greatest value of the form after the step, over what is known before it: `upper` of `after`,
/// of any form. The outcome has as many cells after the step as before it.
pub fn upper_after<D: NumDomain>(form: &Form, out: &Outcome<D>) -> i128
    requires { length out.now.after.cells ≡ length out.now.pre.cells }
    ensures { result ≡ upper D.domain (after D.domain form.now out.now) out.now.pre }
{
    let links = links_of(&out.pre);
    let mut rates = zeros::<FACT_VARIABLES>();
    let gained = add_after(&links, &out.posts, &out.after, terms(form), &mut rates);
    let most = net_upper(&out.pre, &rates, &zeros::<FACT_VARIABLES>());
    total(constant(form), gained, most)
}
