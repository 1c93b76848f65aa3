ghost use Rattle.std.specs.Prelude.{◌≡◌, ◌&&◌, ◌≤◌, ◌<◌, ◌^◌, ◌≤ℤ◌, pos, ◌+ℤ◌, ◌-ℤ◌, cond, int_le};
ghost use Rattle.std.specs.Ordering.{int_eq};
ghost use Rattle.viper_word.specs.Words.{IsSigned};
ghost use Rattle.interval_dom.specs.Intervals.{hull, least_bit, greatest_bit};

use crate::interval::Interval;
use num_domain::NumDomain;
use viper_word::{GREATEST_SIGNED, Kind, LEAST_SIGNED, is_signed, signed_values};

impl Interval {
    ghost use Rattle.interval_dom.specs.Intervals.{cut, unwrapped, constant, join, without};
    ghost use Rattle.interval_dom.specs.Intervals.{and_row, xor_row, nor_row, and_not_row, right_row, left_row, power_of, refine, all_on};
    ghost use Rattle.interval_dom.specs.Intervals.{negative_to, natural_to, negative_from, natural_from};

    /// The part of `lo` to `hi` that words can hold. None where there is none.
    pub(crate) fn cut(lo: i64, hi: i64) -> Option<Interval>
        ensures { result ≡ cut lo hi }
    {
        let lo = lo.max(LEAST_SIGNED);
        let hi = hi.min(GREATEST_SIGNED);
        if lo <= hi {
            Some(Interval { lo, hi })
        } else {
            None
        }
    }

    /// From `lo` to `hi` where words can hold both, and else everything.
    #[tactic(auto, unfolding(crate::specs::Intervals::unwrapped))]
    pub(crate) fn unwrapped(lo: i64, hi: i64) -> Option<Interval>
        ensures { result ≡ unwrapped lo hi }
    {
        if is_signed(lo) && is_signed(hi) {
            Interval::cut(lo, hi)
        } else {
            Some(Interval::top())
        }
    }

    /// The single value of a number.
    pub(crate) fn only(n: i64) -> Interval
        requires { IsSigned n }
        ensures { result ≡ constant n }
    {
        Interval { lo: n, hi: n }
    }

    /// Whether it has one member.
    pub(crate) fn is_single(&self) -> bool
        ensures { result ≡ int_le self.now.hi self.now.lo }
    {
        self.hi <= self.lo
    }

    /// Whether both have one member.
    pub(crate) fn are_single(&self, other: &Interval) -> bool
        ensures { result ≡ (int_le self.now.hi self.now.lo && int_le other.now.hi other.now.lo) }
    {
        self.is_single() && other.is_single()
    }

    /// Whether it has no negative member.
    fn is_natural(&self) -> bool
        ensures { result ≡ int_le (pos 0) self.now.lo }
    {
        0 <= self.lo
    }

    /// The least interval around both.
    pub(crate) fn joined(&self, other: &Interval) -> Interval
        ensures { result ≡ join self.now other.now }
    {
        Interval {
            lo: self.lo.min(other.lo),
            hi: self.hi.max(other.hi),
        }
    }

    /// From 0 to the lesser high end of those that have no negative member.
    #[tactic(auto, unfolding(crate::specs::Intervals::and_row))]
    pub(crate) fn and_row(&self, other: &Interval) -> Option<Interval>
        ensures { result ≡ and_row self.now other.now }
    {
        if self.is_natural() {
            if other.is_natural() {
                Interval::cut(0, self.hi.min(other.hi))
            } else {
                Interval::cut(0, self.hi)
            }
        } else if other.is_natural() {
            Interval::cut(0, other.hi)
        } else {
            Some(Interval::top())
        }
    }

    /// The least power of two above both high ends, of which none is negative.
    fn power_above(&self, other: &Interval) -> i64
        requires first { pos 0 ≤ℤ self.now.lo }
        requires second { pos 0 ≤ℤ other.now.lo }
        ensures value { result ≡ pos (power_of self.now other.now) }
        ensures small { result ≤ℤ pos (2 ^ 31) }
    {
        let highest = self.hi.max(other.hi) as u32;
        (1_u64 << (32 - highest.leading_zeros())) as i64
    }

    /// From 0 to the highest bits of both, where neither has a negative member.
    #[tactic(auto, unfolding(crate::specs::Intervals::xor_row))]
    pub(crate) fn xor_row(&self, other: &Interval) -> Option<Interval>
        ensures { result ≡ xor_row self.now other.now }
    {
        if self.is_natural() && other.is_natural() {
            Interval::cut(0, self.power_above(other) - 1)
        } else {
            Some(Interval::top())
        }
    }

    /// From the complement of the highest bits of both to -1, where neither has a negative member.
    #[tactic(auto, unfolding(crate::specs::Intervals::nor_row))]
    pub(crate) fn nor_row(&self, other: &Interval) -> Option<Interval>
        ensures { result ≡ nor_row self.now other.now }
    {
        if self.is_natural() && other.is_natural() {
            Interval::cut(-self.power_above(other), -1)
        } else {
            Some(Interval::top())
        }
    }

    /// From 0 to the high end, where it has no negative member.
    #[tactic(auto, unfolding(crate::specs::Intervals::and_not_row))]
    pub(crate) fn and_not_row(&self, _other: &Interval) -> Option<Interval>
        ensures { result ≡ and_not_row self.now _other.now }
    {
        if self.is_natural() {
            Interval::cut(0, self.hi)
        } else {
            Some(Interval::top())
        }
    }

    /// Shifted right by one place, with the bit as the highest one.
    #[tactic(auto, unfolding(crate::specs::Intervals::right_row))]
    pub(crate) fn right_row(&self, b: Option<bool>) -> Option<Interval>
        ensures { result ≡ right_row self.now b }
    {
        match b {
            None => Some(Interval::top()),
            Some(true) => Interval::cut(LEAST_SIGNED, -1),
            Some(false) => {
                if self.is_natural() {
                    Interval::cut(signed_values::half(self.lo), signed_values::half(self.hi))
                } else {
                    Interval::cut(0, GREATEST_SIGNED)
                }
            }
        }
    }

    /// Shifted left by one place, with the bit as the lowest one, where no bit is lost.
    #[tactic(auto, unfolding(crate::specs::Intervals::left_row))]
    pub(crate) fn left_row(&self, b: Option<bool>) -> Option<Interval>
        ensures { result ≡ left_row self.now b }
    {
        let low = self.lo + self.lo;
        let high = self.hi + self.hi;
        if is_signed(low) && is_signed(high + 1) {
            Interval::cut(low + least_bit(b), high + greatest_bit(b))
        } else {
            Some(Interval::top())
        }
    }

    /// The members that stand in the kind to some member of `other`: the least interval that has
    /// them.
    #[tactic(auto, unfolding(crate::specs::Intervals::refine))]
    pub(crate) fn refined(&self, kind: Kind, other: &Interval) -> Option<Interval>
        ensures { result ≡ refine self.now kind other.now }
    {
        match kind {
            Kind::Lt => Interval::cut(self.lo, self.hi.min(other.hi - 1)),
            Kind::Ge => Interval::cut(self.lo.max(other.lo), self.hi),
            Kind::Eq => Interval::cut(self.lo.max(other.lo), self.hi.min(other.hi)),
            Kind::Ne => {
                if other.is_single() {
                    self.without(other.lo)
                } else {
                    Some(*self)
                }
            }
            Kind::Le => Interval::cut(self.lo, self.hi.min(other.hi)),
            Kind::Gt => Interval::cut(self.lo.max(other.lo + 1), self.hi),
            Kind::Ult => hull(
                Interval::cut(self.lo, self.hi.min(other.negative_to())),
                Interval::cut(self.lo.max(0), self.hi.min(other.natural_to())),
            ),
            Kind::Uge => hull(
                Interval::cut(self.lo.max(other.negative_from()), self.hi.min(-1)),
                Interval::cut(self.lo.max(other.natural_from()), self.hi),
            ),
        }
    }

    /// It without `n`, where `n` is an end of it.
    #[tactic(auto, unfolding(crate::specs::Intervals::without))]
    fn without(&self, n: i64) -> Option<Interval>
        ensures { result ≡ without self.now n }
    {
        Interval::cut(after(self.lo, n), before(self.hi, n))
    }

    /// The greatest negative number that is below some member, as unsigned numbers.
    fn negative_to(&self) -> i64
        ensures value { result ≡ negative_to self.now }
    {
        if self.lo < 0 {
            self.hi.min(-1) - 1
        } else {
            LEAST_SIGNED - 1
        }
    }

    /// The greatest other number that is.
    fn natural_to(&self) -> i64
        ensures value { result ≡ natural_to self.now }
    {
        if self.lo < 0 {
            GREATEST_SIGNED
        } else {
            self.hi - 1
        }
    }

    /// The least negative number that isn't below every member, as unsigned numbers.
    fn negative_from(&self) -> i64
        ensures value { result ≡ negative_from self.now }
    {
        if 0 <= self.hi { LEAST_SIGNED } else { self.lo }
    }

    /// The least other number that isn't.
    fn natural_from(&self) -> i64
        ensures value { result ≡ natural_from self.now }
    {
        if 0 <= self.hi {
            self.lo.max(0)
        } else {
            GREATEST_SIGNED + 1
        }
    }

    /// Whether each member is the residue plus a multiple of the modulus, as far as its ends tell.
    #[tactic(auto, unfolding(crate::specs::Intervals::all_on))]
    pub(crate) fn is_on(&self, modulus: i64, residue: i64) -> bool
        requires { pos 1 ≤ℤ modulus }
        ensures { result ≡ all_on self.now modulus residue }
    {
        let distance = self.lo.abs_diff(residue);
        modulus == 1 || (self.is_single() && distance % modulus.unsigned_abs() == 0)
    }
}

/// The lowest bit that may be shifted in.
fn least_bit(b: Option<bool>) -> i64
    ensures value { result ≡ least_bit b }
    ensures natural { pos 0 ≤ℤ result }
    ensures small { result ≤ℤ pos 1 }
{
    i64::from(b.unwrap_or(false))
}

/// The highest bit that may be shifted in.
fn greatest_bit(b: Option<bool>) -> i64
    ensures value { result ≡ greatest_bit b }
    ensures natural { pos 0 ≤ℤ result }
    ensures small { result ≤ℤ pos 1 }
{
    i64::from(b.unwrap_or(true))
}

/// The least interval around both.
fn hull(first: Option<Interval>, second: Option<Interval>) -> Option<Interval>
    ensures { result ≡ hull first second }
{
    match first {
        None => second,
        Some(x) => match second {
            None => Some(x),
            Some(y) => Some(x.joined(&y)),
        },
    }
}

/// The number after `end` where `end` is `n`, and else `end`.
fn after(end: i64, n: i64) -> i64
    requires { IsSigned end }
    ensures { result ≡ cond (int_eq end n) (end +ℤ pos 1) end }
{
    if end == n { end + 1 } else { end }
}

/// The number before `end` where `end` is `n`, and else `end`.
fn before(end: i64, n: i64) -> i64
    requires { IsSigned end }
    ensures { result ≡ cond (int_eq end n) (end -ℤ pos 1) end }
{
    if end == n { end - 1 } else { end }
}
