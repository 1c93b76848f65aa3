//! The bounds of forms that have terms: each variable's coefficient is added up.
ghost use Rattle.std.specs.Prelude.{◌≡◌, ◌≤◌, ◌^◌, ◌*◌, ◌+ℤ◌, ◌-ℤ◌, length, unsigned_abs};
ghost use Rattle.rank_form.specs.Bounds.{upper, lower, rise};

use crate::bound::net_upper;
use crate::place::links_of;
use crate::rates::{FACT_VARIABLES, add_terms, zeros};
use crate::step::add_after;
use crate::terms::{constant, terms};
use abs_step::Outcome;
use flag_relation::{Fact, Form};
use num_domain::NumDomain;

/// `upper`, of any form.
pub(crate) fn upper_by_rates<D: NumDomain>(form: &Form, fact: &Fact<D>) -> i128
    ensures { result ≡ upper D.domain form.now fact.now }
{
    let mut rates = zeros::<FACT_VARIABLES>();
    let more = add_terms(&links_of(fact), terms(form), &mut rates);
    let most = net_upper(fact, &rates, &zeros::<FACT_VARIABLES>());
    total(constant(form), more, most)
}

/// `lower`, of any form.
pub(crate) fn lower_by_rates<D: NumDomain>(form: &Form, fact: &Fact<D>) -> i128
    ensures { result ≡ lower D.domain form.now fact.now }
{
    let mut rates = zeros::<FACT_VARIABLES>();
    let more = add_terms(&links_of(fact), terms(form), &mut rates);
    let most = net_upper(fact, &zeros::<FACT_VARIABLES>(), &rates);
    total(constant(form), more, -most)
}

/// `rise`, of any forms.
pub(crate) fn rise_by_rates<D: NumDomain>(from: &Form, to: &Form, out: &Outcome<D>) -> i128
    requires { length out.now.after.cells ≡ length out.now.pre.cells }
    ensures { result ≡ rise D.domain from.now to.now out.now }
{
    let links = links_of(&out.pre);
    let mut plus = zeros::<FACT_VARIABLES>();
    let gained = add_after(&links, &out.posts, &out.after, terms(to), &mut plus);
    let mut minus = zeros::<FACT_VARIABLES>();
    let more = add_terms(&links, terms(from), &mut minus);
    let most = net_upper(&out.pre, &plus, &minus);
    difference(total(constant(to), gained, most), constant(from), more)
}

/// The first less the sum of the others.
pub(crate) fn difference(first: i128, constant: i128, more: i128) -> i128
    requires first { unsigned_abs first ≤ 2 ^ 118 }
    requires constant { unsigned_abs constant ≤ 2 ^ 77 }
    requires more { unsigned_abs more ≤ 8 * 2 ^ 110 }
    ensures { result ≡ first -ℤ (constant +ℤ more) }
{
    first - (constant + more)
}

/// The sum of these.
pub(crate) fn total(constant: i128, more: i128, most: i128) -> i128
    requires constant { unsigned_abs constant ≤ 2 ^ 77 }
    requires more { unsigned_abs more ≤ 8 * 2 ^ 111 }
    requires most { unsigned_abs most ≤ 2 ^ 116 }
    ensures value { result ≡ (constant +ℤ more) +ℤ most }
    ensures size { unsigned_abs result ≤ 2 ^ 118 }
{
    constant + more + most
}
