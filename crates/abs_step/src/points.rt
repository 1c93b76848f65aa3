//! The ends of a value, and its points, found by leaps over the numbers between them.

ghost use Rattle.std.specs.Prelude.{◌≡◌, ◌<◌, ◌≤◌, ◌-◌, ◌^◌, ◌≤ℤ◌, ◌+ℤ◌, ◌-ℤ◌, pos, IfSome};
ghost use Rattle.viper_word.specs.Words.{IsSigned};
ghost use Rattle.num_domain.specs.Ends.{ends};
ghost use Rattle.abs_step.specs.Results.{ends_within};
ghost use Rattle.abs_step.specs.Walks.{both, first_from, is_moved_point, is_point_at};

use num_domain::NumDomain;
use viper_word::{Addr, GREATEST_SIGNED, LEAST_SIGNED};

/// How many addresses there are.
pub(crate) const COUNT: u32 = Addr::LAST + 1;

/// The number from `n` on below which there is no member, with what every domain says of it.
fn least_from<D: NumDomain>(v: &D, n: i64) -> Option<i64>
    ensures value { result ≡ D.domain.least_from v.now n }
    ensures signed { IfSome result IsSigned }
    ensures above { IfSome result (λ m. n ≤ℤ m) }
{
    v.least_from(n)
}

/// The number up to `n` above which there is no member, likewise.
fn greatest_to<D: NumDomain>(v: &D, n: i64) -> Option<i64>
    ensures value { result ≡ D.domain.greatest_to v.now n }
    ensures signed { IfSome result IsSigned }
{
    v.greatest_to(n)
}

/// The least and the greatest number that a value may have, both signed words. None exactly where it
/// has none.
pub(crate) fn ends_of<D: NumDomain>(v: &D) -> Option<(i64, i64)>
    ensures ends { result ≡ both (ends D.domain v.now) }
    ensures low { IfSome result (λ e. IsSigned e.0) }
    ensures high { IfSome result (λ e. IsSigned e.1) }
{
    let Some(lo) = least_from(v, LEAST_SIGNED) else {
        return None;
    };
    let Some(hi) = greatest_to(v, GREATEST_SIGNED) else {
        return None;
    };
    if lo <= hi { Some((lo, hi)) } else { None }
}

/// An address less the base.
fn less(at: u32, base: u32) -> i64
    ensures { result ≡ (pos at -ℤ pos base) }
{
    i64::from(at) - i64::from(base)
}

/// A number plus the base, where this is an address or the end of all.
fn plus(n: i64, base: u32) -> u32
    requires low { pos 0 ≤ℤ (n +ℤ pos base) }
    requires high { (n +ℤ pos base) ≤ℤ pos (2 ^ 20) }
    ensures { pos result ≡ (n +ℤ pos base) }
{
    (n + i64::from(base)) as u32
}

/// The first address from `from` on below `to` that is a point of the value when the base is taken off.
pub(crate) fn first_point<D: NumDomain>(v: &D, base: u32, from: u32, to: u32) -> Option<u32>
    requires base { base < 2 ^ 20 }
    requires to { to ≤ 2 ^ 20 }
    ensures first { result ≡ first_from (is_moved_point D.domain v.now base) from (to - from) }
    ensures from { IfSome result (λ n. from ≤ n) }
    ensures to { IfSome result (λ n. n < to) }
{
    let Some(hi) = greatest_to(v, GREATEST_SIGNED) else {
        return None;
    };
    let mut at = from;
    while at < to {
        let Some(next) = least_from(v, less(at, base)) else {
            return None;
        };
        if next > hi {
            return None;
        }
        if next >= less(to, base) {
            return None;
        }
        let place = plus(next, base);
        if place == at {
            return Some(at);
        }
        at = place;
    }
    None
}

/// The sum of two signed words.
pub(crate) fn sum(a: i64, b: i64) -> i64
    requires first { IsSigned a }
    requires second { IsSigned b }
    ensures { result ≡ (a +ℤ b) }
{
    a + b
}

/// Do the ends, moved by the base, lie from `lo` to `hi`? Without ends they do.
pub(crate) fn ends_lie<D: NumDomain>(v: &D, base: i64, lo: i64, hi: i64) -> bool
    requires { IsSigned base }
    ensures { result ≡ ends_within (ends D.domain v.now) base lo hi }
{
    match ends_of(v) {
        None => true,
        Some((least, greatest)) => lo <= sum(base, least) && sum(base, greatest) <= hi,
    }
}

/// The first address from `from` on that is a point of the value.
pub(crate) fn next_point<D: NumDomain>(v: &D, from: u32) -> Option<Addr>
    ensures { result ≡ first_from (is_point_at D.domain v.now) from (2 ^ 20 - from) }
{
    match first_point(v, 0, from, COUNT) {
        None => None,
        Some(n) => Addr::new(n),
    }
}
