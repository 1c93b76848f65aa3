ghost use Rattle.std.specs.Prelude.{◌≡◌, IfSome};
ghost use Rattle.interval_dom.specs.Bounds.{AreEnds};

use num_domain::{NumDomain, Thresholds};
use viper_word::{GREATEST_SIGNED, Kind, LEAST_SIGNED, signed_values};

/// All numbers from `lo` to `hi`. Both are signed values of words, and `lo` is at most `hi`.
#[derive(Clone, Copy, Debug, PartialEq, Eq)]
pub struct Interval {
    pub lo: i64,
    pub hi: i64,
    ghost ends: { AreEnds lo hi },
}

impl NumDomain for Interval {
    ghost use Rattle.interval_dom.specs.Intervals.{intervals, refine};
    ghost use Rattle.interval_dom.specs.evidence.IntervalRefine.{AreReached};
    ghost use Rattle.interval_dom.specs.evidence.IntervalLaws.{interval_laws};

    ghost domain = { intervals };

    fn constant(n: i64) -> Interval {
        Interval::only(n)
    }

    fn top() -> Interval {
        Interval {
            lo: LEAST_SIGNED,
            hi: GREATEST_SIGNED,
        }
    }

    fn span(lo: i64, hi: i64, _modulus: i64) -> Interval {
        Interval { lo, hi }
    }

    fn includes(&self, other: &Interval) -> bool {
        self.lo <= other.lo && other.hi <= self.hi
    }

    fn join(&self, other: &Interval) -> Interval {
        self.joined(other)
    }

    fn add(&self, other: &Interval) -> Option<Interval> {
        Interval::cut(self.lo + other.lo, self.hi + other.hi)
    }

    fn sub(&self, other: &Interval) -> Option<Interval> {
        Interval::cut(self.lo - other.hi, self.hi - other.lo)
    }

    fn add_wrap(&self, other: &Interval) -> Option<Interval> {
        if self.are_single(other) {
            Some(Interval::only(signed_values::wrapped_sum(self.lo, other.lo)))
        } else {
            Interval::unwrapped(self.lo + other.lo, self.hi + other.hi)
        }
    }

    fn sub_wrap(&self, other: &Interval) -> Option<Interval> {
        if self.are_single(other) {
            Some(Interval::only(signed_values::wrapped_difference(self.lo, other.lo)))
        } else {
            Interval::unwrapped(self.lo - other.hi, self.hi - other.lo)
        }
    }

    fn xor(&self, other: &Interval) -> Option<Interval> {
        if self.are_single(other) {
            Some(Interval::only(signed_values::xor(self.lo, other.lo)))
        } else {
            self.xor_row(other)
        }
    }

    fn bit_and(&self, other: &Interval) -> Option<Interval> {
        if self.are_single(other) {
            Some(Interval::only(signed_values::and(self.lo, other.lo)))
        } else {
            self.and_row(other)
        }
    }

    fn nor(&self, other: &Interval) -> Option<Interval> {
        if self.are_single(other) {
            Some(Interval::only(signed_values::nor(self.lo, other.lo)))
        } else {
            self.nor_row(other)
        }
    }

    fn and_not(&self, other: &Interval) -> Option<Interval> {
        if self.are_single(other) {
            Some(Interval::only(signed_values::and_not(self.lo, other.lo)))
        } else {
            self.and_not_row(other)
        }
    }

    fn neg(&self) -> Option<Interval> {
        if self.is_single() {
            Some(Interval::only(signed_values::wrapped_difference(0, self.lo)))
        } else {
            Interval::unwrapped(-self.hi, -self.lo)
        }
    }

    fn sar(&self) -> Option<Interval> {
        Interval::cut(signed_values::half(self.lo), signed_values::half(self.hi))
    }

    fn shl(&self) -> Option<Interval> {
        Interval::cut(self.lo + self.lo, self.hi + self.hi)
    }

    fn moved(&self, by: i64) -> Option<Interval> {
        Interval::cut(self.lo + by, self.hi + by)
    }

    fn right_through(&self, b: Option<bool>) -> Option<Interval> {
        if self.is_single() {
            if let Some(bit) = b {
                return Some(Interval::only(signed_values::right_through(bit, self.lo)));
            }
        }
        self.right_row(b)
    }

    fn left_through(&self, b: Option<bool>) -> Option<Interval> {
        if self.is_single() {
            if let Some(bit) = b {
                return Some(Interval::only(signed_values::left_through(bit, self.lo)));
            }
        }
        self.left_row(b)
    }

    fn refine(&self, kind: Kind, other: &Interval) -> Option<Interval>
        ensures row { result ≡ refine self.now kind other.now }
        ensures least { IfSome result (AreReached self.now kind other.now) }
    {
        self.refined(kind, other)
    }

    fn narrow(&self, lo: i64, hi: i64) -> Option<Interval> {
        Interval::cut(self.lo.max(lo), self.hi.min(hi))
    }

    fn least_from(&self, n: i64) -> Option<i64> {
        if n <= self.hi {
            Some(self.lo.max(n))
        } else {
            None
        }
    }

    fn greatest_to(&self, n: i64) -> Option<i64> {
        if self.lo <= n {
            Some(self.hi.min(n))
        } else {
            None
        }
    }

    fn all_on(&self, modulus: i64, residue: i64) -> bool {
        self.is_on(modulus, residue)
    }

    fn round(&self, t: &Thresholds) -> Interval {
        Interval {
            lo: t.below(self.lo),
            hi: t.above(self.hi),
        }
    }

    ghost laws = { interval_laws };
}
