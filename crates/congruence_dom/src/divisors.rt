ghost use Rattle.std.specs.Prelude.{◌≡◌, ◌<◌, ◌≤◌, ◌^◌, ℕ, IfSome, IsSomeAnd};
ghost use Rattle.viper_word.specs.Divisors.{gcd};
ghost use Rattle.congruence_dom.specs.evidence.Solutions.{IsSolution};

/// The greatest common divisor, by Euclid's steps.
pub(crate) fn gcd_of(a: u64, b: u64) -> u64
    ensures { result ≡ gcd a b }
{
    let mut x = a;
    let mut y = b;
    while y > 0 {
        let rest = x % y;
        x = y;
        y = rest;
    }
    x
}

/// The least `k` for which `a` times `k` is `d` plus a multiple of `n`, by Euclid's steps. None where
/// there is no such `k`.
pub(crate) fn solve(a: u64, d: u64, n: u64) -> Option<u64>
    requires reduced { a < n }
    requires remainder { d < n }
    requires small { n ≤ 2 ^ 32 }
    ensures below { IfSome result (λ k. k < n) }
    ensures solution { IfSome result (λ k. IsSolution a d n k) }
    ensures least { (k : ℕ) → IsSolution a d n k → IsSomeAnd result (λ r. r ≤ k) }
{
    if a == 0 {
        return if d == 0 { Some(0) } else { None };
    }
    let part = solve(n % a, (a - d % a) % a, a)?;
    Some(((d as u128 + n as u128 * part as u128) / a as u128) as u64)
}
