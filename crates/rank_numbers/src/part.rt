ghost use Rattle.std.specs.Prelude.{◌≡◌, ◌<◌, ◌≤◌, ◌^◌, ℕ, List, All, AllPairs, Any, Contains, MatchOption, IsTrue, length, true, false, pos, ◌⊎◌, ◌≤ℤ◌};
ghost use Rattle.strong_components.specs.declared.edge.Edge.{Edge};
ghost use Rattle.rank_numbers.specs.Numbers.{IsLow, IsGreatest};
ghost use Rattle.rank_numbers.specs.Rows.{form_of, IntoKeys, OthersStay, Became, Passes};
ghost use Rattle.rank_numbers.specs.Steps.{IsRaised};

use crate::ranks::Ranks;
use strong_components::Edge;

/// The least value of a candidate over the facts of a part.
pub(crate) fn low_end<R: Ranks>(ranks: &R, part: &[u32], candidate: u32) -> i64
    requires some { 0 < length part.now }
    requires keys { All (λ k. k < (R.forms ranks.now).keys) part.now }
    requires candidate { candidate < (R.forms ranks.now).candidates }
    ensures { IsLow (R.forms ranks.now) part.now candidate result }
{
    let mut low = ranks.lower(candidate, part[0]);
    for key in part {
        let value = ranks.lower(candidate, *key);
        if value < low {
            low = value;
        }
    }
    low
}

/// Puts a level on the forms of a part. False exactly where one is large.
fn raise<R: Ranks>(
    ranks: &R,
    part: &[u32],
    weight: i128,
    candidate: u32,
    low: i64,
    forms: &mut [R::Form],
) -> bool
    requires ascend { AllPairs (λ a b. a < b) part.now }
    requires keys { All (λ k. k < length forms.old) part.now }
    requires candidate { candidate < (R.forms ranks.now).candidates }
    requires least { pos 0 ≤ℤ weight }
    requires most { weight ≤ℤ pos (2 ^ 62) }
    ensures raised { result ≡ true → Became (R.forms ranks.now)
        (λ f. (R.forms ranks.now).level weight candidate low f) part.now forms.old forms.new }
    ensures large { result ≡ false → Passes (R.forms ranks.now)
        (λ f. (R.forms ranks.now).level weight candidate low f) part.now forms.old }
    ensures others { OthersStay (R.forms ranks.now) part.now forms.old forms.new }
    ensures len { length forms.new ≡ length forms.old }
{
    for key in part {
        let Some(form) = ranks.level(weight, candidate, low, forms[*key as usize]) else {
            return false;
        };
        forms[*key as usize] = form;
    }
    true
}

/// Makes the forms of a part the form 1.
pub(crate) fn ones<R: Ranks>(ranks: &R, part: &[u32], forms: &mut [R::Form])
    requires ascend { AllPairs (λ a b. a < b) part.now }
    requires keys { All (λ k. k < length forms.old) part.now }
    ensures ones { All
        (λ k. form_of (R.forms ranks.now) forms.new k ≡ (R.forms ranks.now).one) part.now }
    ensures others { OthersStay (R.forms ranks.now) part.now forms.old forms.new }
    ensures len { length forms.new ≡ length forms.old }
{
    for key in part {
        forms[*key as usize] = ranks.one();
    }
}

/// The greater of two numbers.
pub(crate) fn greater(a: i128, b: i128) -> i128
    ensures left { a ≤ℤ result }
    ensures right { b ≤ℤ result }
    ensures one { (result ≡ a) ⊎ (result ≡ b) }
{
    if a < b { b } else { a }
}

/// The greatest of a form's values over a key's fact and after each edge that ends at the key, and
/// of what was found before.
fn greatest_at<R: Ranks>(
    ranks: &R,
    key: u32,
    form: R::Form,
    into: &[Edge],
    before: i128,
    scratch: &mut R::Scratch,
) -> i128
    requires key { key < (R.forms ranks.now).keys }
    requires into { All (λ e. Contains (R.forms ranks.now).edges e) into.now }
    requires room { R.has_room ranks.now scratch.old }
    ensures fact { (R.forms ranks.now).upper form key ≤ℤ result }
    ensures edges { All (λ e. (R.forms ranks.now).after form e ≤ℤ result) into.now }
    ensures before { before ≤ℤ result }
    ensures attained { (result ≡ before) ⊎ ((result ≡ (R.forms ranks.now).upper form key)
        ⊎ Any (λ e. result ≡ (R.forms ranks.now).after form e) into.now) }
    ensures room { R.has_room ranks.now scratch.new }
{
    let mut most = greater(before, ranks.upper(form, key));
    for edge in into {
        most = greater(most, ranks.after(form, *edge, scratch));
    }
    most
}

/// The greatest value of a part's forms, over the keys' facts and after all edges that lead to a
/// key.
fn greatest<R: Ranks>(
    ranks: &R,
    part: &[u32],
    into: &[Vec<Edge>],
    forms: &[R::Form],
    scratch: &mut R::Scratch,
) -> i128
    requires some { 0 < length part.now }
    requires forms { All (λ k. k < length forms.now) part.now }
    requires into { All (λ k. k < length into.now) part.now }
    requires known { length into.now ≤ (R.forms ranks.now).keys }
    requires into_keys { IntoKeys (R.forms ranks.now).edges into.now }
    requires room { R.has_room ranks.now scratch.old }
    ensures value { IsGreatest (R.forms ranks.now) part.now
        (form_of (R.forms ranks.now) forms.now) result }
    ensures room { R.has_room ranks.now scratch.new }
{
    let mut most = ranks.upper(forms[part[0] as usize], part[0]);
    for key in part {
        let place = *key as usize;
        most = greatest_at(ranks, *key, forms[place], &into[place], most, scratch);
    }
    most
}

/// Puts a level on the forms of a part, and answers their greatest value. None exactly where a form
/// is large.
pub(crate) fn raised<R: Ranks>(
    ranks: &R,
    part: &[u32],
    into: &[Vec<Edge>],
    weight: i128,
    candidate: u32,
    low: i64,
    forms: &mut [R::Form],
    scratch: &mut R::Scratch,
) -> Option<i128>
    requires some { 0 < length part.now }
    requires ascend { AllPairs (λ a b. a < b) part.now }
    requires keys { All (λ k. k < length into.now) part.now }
    requires forms { length forms.old ≡ length into.now }
    requires known { length into.now ≤ (R.forms ranks.now).keys }
    requires into_keys { IntoKeys (R.forms ranks.now).edges into.now }
    requires candidate { candidate < (R.forms ranks.now).candidates }
    requires least { pos 0 ≤ℤ weight }
    requires most { weight ≤ℤ pos (2 ^ 62) }
    requires room { R.has_room ranks.now scratch.old }
    ensures value { MatchOption result
        (Passes (R.forms ranks.now) (λ f. (R.forms ranks.now).level weight candidate low f)
        part.now forms.old)
        (λ g. IsRaised (R.forms ranks.now)
        (λ f. (R.forms ranks.now).level weight candidate low f) part.now forms.old forms.new g) }
    ensures others { OthersStay (R.forms ranks.now) part.now forms.old forms.new }
    ensures len { length forms.new ≡ length forms.old }
    ensures room { R.has_room ranks.now scratch.new }
{
    if !raise(ranks, part, weight, candidate, low, forms) {
        return None;
    }
    let most = greatest(ranks, part, into, forms, scratch);
    Some(most)
}
