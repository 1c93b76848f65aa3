ghost use Rattle.std.specs.Prelude.{◌≡◌, ◌↔◌, IsTrue, ℤ};
ghost use Rattle.num_domain.specs.Domain.{Has};
ghost use Rattle.val_dom.specs.Normal.{IsNormal};

use congruence_dom::Congruence;
use interval_dom::Interval;
use num_domain::{NumDomain, Pair, Thresholds};
use viper_word::Kind;

/// An evenly spaced set of signed values of words: an interval with a congruence, in normal form.
/// Both ends are members, and a single value has the modulus 0. Two of them that have the same
/// members are equal.
#[derive(Clone, Copy, Debug, PartialEq, Eq)]
pub struct Val {
    pub pair: Pair<Interval, Congruence>,
    ghost normal: { IsNormal pair },
}

impl NumDomain for Val {
    ghost use Rattle.val_dom.specs.Vals.{vals};
    ghost use Rattle.val_dom.specs.evidence.ValLaws.{val_laws};

    ghost domain = { vals };

    fn constant(n: i64) -> Val {
        Val {
            pair: <Pair<Interval, Congruence>>::constant(n),
        }
    }

    fn top() -> Val {
        Val {
            pair: <Pair<Interval, Congruence>>::top(),
        }
    }

    fn span(lo: i64, hi: i64, modulus: i64) -> Val {
        Val {
            pair: <Pair<Interval, Congruence>>::span(lo, hi, modulus),
        }
    }

    fn includes(&self, other: &Val) -> bool
        ensures row { result ≡ vals.includes self.now other.now }
        ensures members { IsTrue result ↔ ((n : ℤ) → Has vals other.now n → Has vals self.now n) }
    {
        self.pair.includes(&other.pair)
    }

    fn join(&self, other: &Val) -> Val {
        Val {
            pair: self.pair.join(&other.pair),
        }
    }

    fn add(&self, other: &Val) -> Option<Val> {
        let pair = self.pair.add(&other.pair)?;
        Some(Val { pair })
    }

    fn sub(&self, other: &Val) -> Option<Val> {
        let pair = self.pair.sub(&other.pair)?;
        Some(Val { pair })
    }

    fn add_wrap(&self, other: &Val) -> Option<Val> {
        let pair = self.pair.add_wrap(&other.pair)?;
        Some(Val { pair })
    }

    fn sub_wrap(&self, other: &Val) -> Option<Val> {
        let pair = self.pair.sub_wrap(&other.pair)?;
        Some(Val { pair })
    }

    fn xor(&self, other: &Val) -> Option<Val> {
        let pair = self.pair.xor(&other.pair)?;
        Some(Val { pair })
    }

    fn bit_and(&self, other: &Val) -> Option<Val> {
        let pair = self.pair.bit_and(&other.pair)?;
        Some(Val { pair })
    }

    fn nor(&self, other: &Val) -> Option<Val> {
        let pair = self.pair.nor(&other.pair)?;
        Some(Val { pair })
    }

    fn and_not(&self, other: &Val) -> Option<Val> {
        let pair = self.pair.and_not(&other.pair)?;
        Some(Val { pair })
    }

    fn neg(&self) -> Option<Val> {
        let pair = self.pair.neg()?;
        Some(Val { pair })
    }

    fn sar(&self) -> Option<Val> {
        let pair = self.pair.sar()?;
        Some(Val { pair })
    }

    fn shl(&self) -> Option<Val> {
        let pair = self.pair.shl()?;
        Some(Val { pair })
    }

    fn moved(&self, by: i64) -> Option<Val> {
        let pair = self.pair.moved(by)?;
        Some(Val { pair })
    }

    fn right_through(&self, b: Option<bool>) -> Option<Val> {
        let pair = self.pair.right_through(b)?;
        Some(Val { pair })
    }

    fn left_through(&self, b: Option<bool>) -> Option<Val> {
        let pair = self.pair.left_through(b)?;
        Some(Val { pair })
    }

    fn refine(&self, kind: Kind, other: &Val) -> Option<Val> {
        let pair = self.pair.refine(kind, &other.pair)?;
        Some(Val { pair })
    }

    fn narrow(&self, lo: i64, hi: i64) -> Option<Val> {
        let pair = self.pair.narrow(lo, hi)?;
        Some(Val { pair })
    }

    fn least_from(&self, n: i64) -> Option<i64> {
        self.pair.least_from(n)
    }

    fn greatest_to(&self, n: i64) -> Option<i64> {
        self.pair.greatest_to(n)
    }

    fn all_on(&self, modulus: i64, residue: i64) -> bool {
        self.pair.all_on(modulus, residue)
    }

    fn round(&self, t: &Thresholds) -> Val {
        Val {
            pair: self.pair.round(t),
        }
    }

    ghost laws = { val_laws };
}

impl Val {
    ghost use Rattle.num_domain.specs.ExactRule.{IsExact};
    ghost use Rattle.val_dom.specs.Vals.{single, vals};

    /// The exact rule: of single values each function of arithmetic, bits and shifts gives the exact
    /// result as a single value, or None where no word can hold it.
    pub fn exact_rule()
        ensures { IsExact vals single }
    {}
}
