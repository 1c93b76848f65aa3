ghost use Rattle.std.specs.Prelude.{◌≡◌};

use crate::{NumDomain, Thresholds};
use viper_word::{GREATEST_SIGNED, Kind, LEAST_SIGNED};

/// Two domains at once: a number is a member where it is a member of both factors. Each function
/// works on each factor, and what this gives is then sealed: both factors are narrowed to the
/// numbers from the least to the greatest that may be members (docs/METHOD.md, "Values").
#[derive(Clone, Copy, Debug, PartialEq, Eq)]
pub struct Pair<L, R> {
    pub left: L,
    pub right: R,
}

impl<L: NumDomain, R: NumDomain> Pair<L, R> {
    ghost use Rattle.std.specs.Prelude.{unwrap_or};
    ghost use Rattle.num_domain.specs.Pairs.{pair, seal};

    /// Both factors, narrowed to the numbers from the least to the greatest that may be members.
    /// None where a factor has no such number, or the least is above the greatest.
    #[tactic(auto, unfolding(crate::specs::Pairs::seal))]
    pub fn sealed(&self) -> Option<Self>
        ensures { result ≡ seal L.domain R.domain self.now }
    {
        let from = self.least_from(LEAST_SIGNED)?;
        let to = self.greatest_to(GREATEST_SIGNED)?;
        if from <= to {
            Some(Pair {
                left: self.left.narrow(from, to)?,
                right: self.right.narrow(from, to)?,
            })
        } else {
            None
        }
    }

    /// The same for a pair that has a member, and so is never left empty.
    fn sealed_or_top(&self) -> Self
        ensures { result
            ≡ unwrap_or (seal L.domain R.domain self.now) (pair L.domain.top R.domain.top) }
    {
        match self.sealed() {
            Some(sealed) => sealed,
            None => Self::top(),
        }
    }
}

impl<L: NumDomain, R: NumDomain> NumDomain for Pair<L, R> {
    ghost use Rattle.num_domain.specs.Pairs.{pairs};
    ghost use Rattle.num_domain.specs.evidence.PairLaws.{pair_laws};

    ghost domain = { pairs L.domain R.domain };

    fn constant(n: i64) -> Self {
        let raw = Pair {
            left: L::constant(n),
            right: R::constant(n),
        };
        raw.sealed_or_top()
    }

    fn top() -> Self {
        Pair {
            left: L::top(),
            right: R::top(),
        }
    }

    fn span(lo: i64, hi: i64, modulus: i64) -> Self {
        let raw = Pair {
            left: L::span(lo, hi, modulus),
            right: R::span(lo, hi, modulus),
        };
        raw.sealed_or_top()
    }

    fn includes(&self, other: &Self) -> bool {
        self.left.includes(&other.left) && self.right.includes(&other.right)
    }

    fn join(&self, other: &Self) -> Self {
        Pair {
            left: self.left.join(&other.left),
            right: self.right.join(&other.right),
        }
    }

    fn add(&self, other: &Self) -> Option<Self> {
        let left = self.left.add(&other.left)?;
        let right = self.right.add(&other.right)?;
        Pair { left, right }.sealed()
    }

    fn sub(&self, other: &Self) -> Option<Self> {
        let left = self.left.sub(&other.left)?;
        let right = self.right.sub(&other.right)?;
        Pair { left, right }.sealed()
    }

    fn add_wrap(&self, other: &Self) -> Option<Self> {
        let left = self.left.add_wrap(&other.left)?;
        let right = self.right.add_wrap(&other.right)?;
        Pair { left, right }.sealed()
    }

    fn sub_wrap(&self, other: &Self) -> Option<Self> {
        let left = self.left.sub_wrap(&other.left)?;
        let right = self.right.sub_wrap(&other.right)?;
        Pair { left, right }.sealed()
    }

    fn xor(&self, other: &Self) -> Option<Self> {
        let left = self.left.xor(&other.left)?;
        let right = self.right.xor(&other.right)?;
        Pair { left, right }.sealed()
    }

    fn bit_and(&self, other: &Self) -> Option<Self> {
        let left = self.left.bit_and(&other.left)?;
        let right = self.right.bit_and(&other.right)?;
        Pair { left, right }.sealed()
    }

    fn nor(&self, other: &Self) -> Option<Self> {
        let left = self.left.nor(&other.left)?;
        let right = self.right.nor(&other.right)?;
        Pair { left, right }.sealed()
    }

    fn and_not(&self, other: &Self) -> Option<Self> {
        let left = self.left.and_not(&other.left)?;
        let right = self.right.and_not(&other.right)?;
        Pair { left, right }.sealed()
    }

    fn neg(&self) -> Option<Self> {
        let left = self.left.neg()?;
        let right = self.right.neg()?;
        Pair { left, right }.sealed()
    }

    fn sar(&self) -> Option<Self> {
        let left = self.left.sar()?;
        let right = self.right.sar()?;
        Pair { left, right }.sealed()
    }

    fn shl(&self) -> Option<Self> {
        let left = self.left.shl()?;
        let right = self.right.shl()?;
        Pair { left, right }.sealed()
    }

    fn moved(&self, by: i64) -> Option<Self> {
        let left = self.left.moved(by)?;
        let right = self.right.moved(by)?;
        Pair { left, right }.sealed()
    }

    fn right_through(&self, b: Option<bool>) -> Option<Self> {
        let left = self.left.right_through(b)?;
        let right = self.right.right_through(b)?;
        Pair { left, right }.sealed()
    }

    fn left_through(&self, b: Option<bool>) -> Option<Self> {
        let left = self.left.left_through(b)?;
        let right = self.right.left_through(b)?;
        Pair { left, right }.sealed()
    }

    fn refine(&self, kind: Kind, other: &Self) -> Option<Self> {
        let left = self.left.refine(kind, &other.left)?;
        let right = self.right.refine(kind, &other.right)?;
        Pair { left, right }.sealed()
    }

    fn narrow(&self, lo: i64, hi: i64) -> Option<Self> {
        let left = self.left.narrow(lo, hi)?;
        let right = self.right.narrow(lo, hi)?;
        Pair { left, right }.sealed()
    }

    fn least_from(&self, n: i64) -> Option<i64> {
        let first = self.left.least_from(n)?;
        let second = self.right.least_from(first)?;
        self.left.least_from(second)
    }

    fn greatest_to(&self, n: i64) -> Option<i64> {
        let first = self.left.greatest_to(n)?;
        let second = self.right.greatest_to(first)?;
        self.left.greatest_to(second)
    }

    fn all_on(&self, modulus: i64, residue: i64) -> bool {
        self.left.all_on(modulus, residue) || self.right.all_on(modulus, residue)
    }

    fn round(&self, t: &Thresholds) -> Self {
        let wide = Pair {
            left: self.left.round(t),
            right: self.right.round(t),
        };
        match wide.sealed() {
            Some(sealed) => self.join(&sealed),
            None => *self,
        }
    }

    ghost laws = { pair_laws L.domain R.domain L.laws R.laws };
}
