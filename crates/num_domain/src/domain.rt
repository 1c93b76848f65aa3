ghost use Rattle.std.specs.Prelude.{◌≡◌, ◌≤ℤ◌, pos, neg_ℤ, ◌^◌};
ghost use Rattle.viper_word.specs.Words.{IsSigned};
ghost use Rattle.num_domain.specs.Domain.{Domain};
ghost use Rattle.num_domain.specs.Laws.{DomainLaws};
ghost use Rattle.viper_word.specs.Ranges.{IsRange};

use crate::Thresholds;
use viper_word::Kind;

/// A domain of sets of whole numbers, the signed values of words. Each function's meaning is the
/// member of `domain` that has its name, and `laws` are what holds of these meanings: the order and
/// the least upper bound, soundness, monotony, and heights. None comes only where no members have a
/// result that a word can hold, or no member is in question.
pub trait NumDomain: Copy {
    /// What each function means.
    ghost domain: { Domain Self };

    /// A set that has `n`.
    fn constant(n: i64) -> Self
        requires { IsSigned n }
        ensures { result ≡ domain.constant n };

    /// The set of all signed values.
    fn top() -> Self
        ensures { result ≡ domain.top };

    /// A set that has the numbers from `lo` to `hi` in steps of `modulus`.
    fn span(lo: i64, hi: i64, modulus: i64) -> Self
        requires { IsRange lo hi modulus }
        ensures { result ≡ domain.span lo hi modulus };

    /// The order: whether `other` is at most this. Each member of `other` is then a member of this.
    fn includes(&self, other: &Self) -> bool
        ensures { result ≡ domain.includes self.now other.now };

    /// The least upper bound in the order.
    fn join(&self, other: &Self) -> Self
        ensures { result ≡ domain.join self.now other.now };

    /// The sums that a word can hold.
    fn add(&self, other: &Self) -> Option<Self>
        ensures { result ≡ domain.add self.now other.now };

    /// The differences that a word can hold.
    fn sub(&self, other: &Self) -> Option<Self>
        ensures { result ≡ domain.sub self.now other.now };

    /// The sums, wrapped to a word.
    fn add_wrap(&self, other: &Self) -> Option<Self>
        ensures { result ≡ domain.add_wrap self.now other.now };

    /// The differences, wrapped to a word.
    fn sub_wrap(&self, other: &Self) -> Option<Self>
        ensures { result ≡ domain.sub_wrap self.now other.now };

    /// The bits in which two members differ.
    fn xor(&self, other: &Self) -> Option<Self>
        ensures { result ≡ domain.xor self.now other.now };

    /// The bits that two members share.
    fn bit_and(&self, other: &Self) -> Option<Self>
        ensures { result ≡ domain.bit_and self.now other.now };

    /// The bits that neither of two members has.
    fn nor(&self, other: &Self) -> Option<Self>
        ensures { result ≡ domain.nor self.now other.now };

    /// The bits of a member that a member of `other` hasn't.
    fn and_not(&self, other: &Self) -> Option<Self>
        ensures { result ≡ domain.and_not self.now other.now };

    /// The members negated, wrapped to a word.
    fn neg(&self) -> Option<Self>
        ensures { result ≡ domain.neg self.now };

    /// The members halved, rounded down.
    fn sar(&self) -> Option<Self>
        ensures { result ≡ domain.sar self.now };

    /// The members doubled, as far as a word can hold them.
    fn shl(&self) -> Option<Self>
        ensures { result ≡ domain.shl self.now };

    /// The members plus `by`, as far as a word can hold them.
    fn moved(&self, by: i64) -> Option<Self>
        requires low { neg_ℤ (pos (2 ^ 32)) ≤ℤ by }
        requires high { by ≤ℤ pos (2 ^ 32) }
        ensures { result ≡ domain.moved self.now by };

    /// The members shifted right by one place, with `b` as the highest bit. None for `b` stands for
    /// an unknown bit.
    fn right_through(&self, b: Option<bool>) -> Option<Self>
        ensures { result ≡ domain.right_through self.now b };

    /// The members shifted left by one place, with `b` as the lowest bit. None for `b` stands for an
    /// unknown bit.
    fn left_through(&self, b: Option<bool>) -> Option<Self>
        ensures { result ≡ domain.left_through self.now b };

    /// The members that stand in the kind to some member of `other`.
    fn refine(&self, kind: Kind, other: &Self) -> Option<Self>
        ensures { result ≡ domain.refine self.now kind other.now };

    /// The members from `lo` to `hi`. Both may be any number.
    fn narrow(&self, lo: i64, hi: i64) -> Option<Self>
        ensures { result ≡ domain.narrow self.now lo hi };

    /// A number from `n` on below which, down to `n`, there is no member. `n` may be any number.
    fn least_from(&self, n: i64) -> Option<i64>
        ensures { result ≡ domain.least_from self.now n };

    /// A number up to `n` above which, up to `n`, there is no member. `n` may be any number.
    fn greatest_to(&self, n: i64) -> Option<i64>
        ensures { result ≡ domain.greatest_to self.now n };

    /// True only where each member is `residue` plus a multiple of `modulus`. The residue may be any
    /// number.
    fn all_on(&self, modulus: i64, residue: i64) -> bool
        requires { pos 1 ≤ℤ modulus }
        ensures { result ≡ domain.all_on self.now modulus residue };

    /// A set that includes this one, with ends among the thresholds where it has ends.
    fn round(&self, t: &Thresholds) -> Self
        ensures { result ≡ domain.round self.now t.now };

    /// What each implementation proves.
    ghost laws: { DomainLaws domain };
}
