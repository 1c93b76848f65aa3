ghost use Rattle.std.specs.Prelude.{◌≡◌, ℤ, IfSome};
ghost use Rattle.congruence_dom.specs.Form.{IsForm};

use num_domain::{NumDomain, Thresholds};
use viper_word::{GREATEST_SIGNED, Kind, LEAST_SIGNED, signed_values};

/// All signed values of words with one residue. The modulus 0 stands for the single value `residue`;
/// else the modulus is from 1 to 4294967295 and the residue is from 0 below it.
#[derive(Clone, Copy, Debug, PartialEq, Eq)]
pub struct Congruence {
    pub modulus: i64,
    pub residue: i64,
    ghost form: { IsForm modulus residue },
}

impl NumDomain for Congruence {
    ghost use Rattle.congruence_dom.specs.evidence.CommonMembers.{AreCommon, AreCommonMembers};
    ghost use Rattle.congruence_dom.specs.Congruences.{congruences, refine};
    ghost use Rattle.congruence_dom.specs.evidence.CongruenceLaws.{congruence_laws};

    ghost domain = { congruences };

    fn constant(n: i64) -> Congruence {
        Congruence::only(n)
    }

    fn top() -> Congruence {
        Congruence {
            modulus: 1,
            residue: 0,
        }
    }

    fn span(lo: i64, _hi: i64, modulus: i64) -> Congruence {
        match Congruence::make(modulus.unsigned_abs(), lo) {
            Some(made) => made,
            None => Congruence::top(),
        }
    }

    fn includes(&self, other: &Congruence) -> bool {
        let m = self.divisor();
        let gap = (other.residue - self.residue).unsigned_abs();
        if m == 0 {
            other.divisor() == 0 && gap == 0
        } else {
            other.divisor() % m == 0 && gap % m == 0
        }
    }

    fn join(&self, other: &Congruence) -> Congruence {
        let modulus = self.join_modulus(other);
        Congruence {
            modulus: modulus as i64,
            residue: Congruence::reduce(modulus, self.residue),
        }
    }

    fn add(&self, other: &Congruence) -> Option<Congruence> {
        Congruence::make(self.common_modulus(other), self.residue + other.residue)
    }

    fn sub(&self, other: &Congruence) -> Option<Congruence> {
        Congruence::make(self.common_modulus(other), self.residue - other.residue)
    }

    fn add_wrap(&self, other: &Congruence) -> Option<Congruence> {
        Congruence::make(self.wrapped_modulus(other), self.residue + other.residue)
    }

    fn sub_wrap(&self, other: &Congruence) -> Option<Congruence> {
        Congruence::make(self.wrapped_modulus(other), self.residue - other.residue)
    }

    fn xor(&self, other: &Congruence) -> Option<Congruence> {
        if self.are_single(other) {
            Some(Congruence::only(signed_values::xor(self.residue, other.residue)))
        } else {
            Some(Congruence::top())
        }
    }

    fn bit_and(&self, other: &Congruence) -> Option<Congruence> {
        if self.are_single(other) {
            Some(Congruence::only(signed_values::and(self.residue, other.residue)))
        } else {
            Some(Congruence::top())
        }
    }

    fn nor(&self, other: &Congruence) -> Option<Congruence> {
        if self.are_single(other) {
            Some(Congruence::only(signed_values::nor(self.residue, other.residue)))
        } else {
            Some(Congruence::top())
        }
    }

    fn and_not(&self, other: &Congruence) -> Option<Congruence> {
        if self.are_single(other) {
            Some(Congruence::only(signed_values::and_not(self.residue, other.residue)))
        } else {
            Some(Congruence::top())
        }
    }

    fn neg(&self) -> Option<Congruence> {
        Congruence::make(Congruence::within_word(self.divisor()), -self.residue)
    }

    fn sar(&self) -> Option<Congruence> {
        self.halves()
    }

    fn shl(&self) -> Option<Congruence> {
        Congruence::make(2 * self.divisor(), self.residue + self.residue)
    }

    fn moved(&self, by: i64) -> Option<Congruence> {
        Congruence::make(self.divisor(), self.residue + by)
    }

    fn right_through(&self, b: Option<bool>) -> Option<Congruence> {
        if self.is_single() {
            if let Some(bit) = b {
                return Some(Congruence::only(signed_values::right_through(bit, self.residue)));
            }
        }
        Some(Congruence::top())
    }

    fn left_through(&self, b: Option<bool>) -> Option<Congruence> {
        self.shifted_left(b)
    }

    #[tactic(auto, unfolding(crate::specs::Congruences::refine))]
    fn refine(&self, kind: Kind, other: &Congruence) -> Option<Congruence>
        ensures row { result ≡ refine self.now kind other.now }
        ensures common { kind ≡ Kind.Eq → IfSome result (AreCommonMembers self.now other.now) }
        ensures none { kind ≡ Kind.Eq → result ≡ None
            → (n : ℤ) → AreCommon self.now other.now n → ⊥ }
    {
        match kind {
            Kind::Eq => self.common(other),
            Kind::Lt => Some(*self),
            Kind::Ge => Some(*self),
            Kind::Ne => Some(*self),
            Kind::Le => Some(*self),
            Kind::Gt => Some(*self),
            Kind::Ult => Some(*self),
            Kind::Uge => Some(*self),
        }
    }

    fn narrow(&self, lo: i64, hi: i64) -> Option<Congruence> {
        let from = self.least_from(lo)?;
        let to = self.greatest_to(hi)?;
        if from <= to {
            if to <= from {
                Congruence::make(0, from)
            } else {
                Some(*self)
            }
        } else {
            None
        }
    }

    fn least_from(&self, n: i64) -> Option<i64> {
        let start = n.max(LEAST_SIGNED);
        if start > GREATEST_SIGNED {
            return None;
        }
        let found = Congruence::next_from(self.divisor(), self.residue, start);
        if n <= found && found <= GREATEST_SIGNED {
            Some(found)
        } else {
            None
        }
    }

    fn greatest_to(&self, n: i64) -> Option<i64> {
        let start = n.min(GREATEST_SIGNED);
        if start < LEAST_SIGNED {
            return None;
        }
        let found = Congruence::next_to(self.divisor(), self.residue, start);
        if LEAST_SIGNED <= found && found <= n {
            Some(found)
        } else {
            None
        }
    }

    fn all_on(&self, modulus: i64, residue: i64) -> bool {
        self.is_on(modulus, residue)
    }

    fn round(&self, _t: &Thresholds) -> Congruence {
        *self
    }

    ghost laws = { congruence_laws };
}
