ghost use Rattle.std.specs.Prelude.{◌≡◌, ◌&&◌, ◌≤◌, ◌<◌, ◌-◌, ◌^◌, ◌≤ℤ◌, pos, neg_ℤ, nat_eq};
ghost use Rattle.viper_word.specs.Words.{IsSigned};
ghost use Rattle.viper_word.specs.Divisors.{gcd};
ghost use Rattle.congruence_dom.specs.Limits.{row_limit, difference_limit};

use crate::congruence::Congruence;
use crate::divisors::gcd_of;
use viper_word::{LEAST_SIGNED, is_signed, signed_values};

/// The number of words.
const WORD_VALUES: u64 = 0x1_0000_0000;

/// The greatest modulus of a congruence.
const GREATEST_MODULUS: u64 = WORD_VALUES - 1;

impl Congruence {
    ghost use Rattle.congruence_dom.specs.Residues.{reduce, next_from, next_to, mod_of, join_modulus};
    ghost use Rattle.congruence_dom.specs.Congruences.{make, common_modulus, wrapped_modulus, constant, sar, left_through, all_on};

    /// The modulus, which isn't negative.
    pub(crate) fn divisor(&self) -> u64
        ensures { result ≡ mod_of self.now }
    {
        self.modulus as u64
    }

    /// Whether it has one member.
    pub(crate) fn is_single(&self) -> bool
        ensures { result ≡ nat_eq (mod_of self.now) 0 }
    {
        self.divisor() == 0
    }

    /// Whether both have one member.
    pub(crate) fn are_single(&self, other: &Congruence) -> bool
        ensures { result ≡ (nat_eq (mod_of self.now) 0 && nat_eq (mod_of other.now) 0) }
    {
        self.is_single() && other.is_single()
    }

    /// The single value of a number.
    pub(crate) fn only(n: i64) -> Congruence
        requires { IsSigned n }
        ensures { result ≡ constant n }
    {
        Congruence {
            modulus: 0,
            residue: n,
        }
    }

    /// The modulus of the join.
    pub(crate) fn join_modulus(&self, other: &Congruence) -> u64
        ensures value { result ≡ join_modulus self.now other.now }
        ensures small { result ≤ 2 ^ 32 - 1 }
    {
        let gap = (self.residue - other.residue).unsigned_abs();
        gcd_of(gcd_of(self.divisor(), other.divisor()), gap)
    }

    /// The modulus of sums and differences.
    pub(crate) fn common_modulus(&self, other: &Congruence) -> u64
        ensures value { result ≡ common_modulus self.now other.now }
        ensures small { result ≤ 2 ^ 32 - 1 }
    {
        gcd_of(self.divisor(), other.divisor())
    }

    /// The modulus of wrapped sums and differences.
    pub(crate) fn wrapped_modulus(&self, other: &Congruence) -> u64
        ensures value { result ≡ wrapped_modulus self.now other.now }
        ensures small { result ≤ 2 ^ 32 }
    {
        Congruence::within_word(self.common_modulus(other))
    }

    /// The greatest common divisor with the number of words.
    pub(crate) fn within_word(m: u64) -> u64
        ensures value { result ≡ gcd m (2 ^ 32) }
        ensures small { result ≤ 2 ^ 32 }
    {
        gcd_of(m, WORD_VALUES)
    }

    /// What is left of a number.
    pub(crate) fn reduce(m: u64, z: i64) -> i64
        requires small { m < row_limit }
        requires z_low { neg_ℤ (pos difference_limit) ≤ℤ z }
        requires z_high { z ≤ℤ pos difference_limit }
        ensures value { result ≡ reduce m z }
        ensures low { neg_ℤ (pos difference_limit) ≤ℤ result }
        ensures high { result ≤ℤ pos difference_limit }
    {
        if m == 0 { z } else { z.rem_euclid(m as i64) }
    }

    /// The least number from `n` on with the residue of `z`.
    pub(crate) fn next_from(m: u64, z: i64, n: i64) -> i64
        requires small { m < row_limit }
        requires z_low { neg_ℤ (pos row_limit) ≤ℤ z }
        requires z_high { z ≤ℤ pos row_limit }
        requires n_low { neg_ℤ (pos row_limit) ≤ℤ n }
        requires n_high { n ≤ℤ pos row_limit }
        ensures { result ≡ next_from m z n }
    {
        n + Congruence::reduce(m, z - n)
    }

    /// The greatest number up to `n` with the residue of `z`.
    pub(crate) fn next_to(m: u64, z: i64, n: i64) -> i64
        requires small { m < row_limit }
        requires z_low { neg_ℤ (pos row_limit) ≤ℤ z }
        requires z_high { z ≤ℤ pos row_limit }
        requires n_low { neg_ℤ (pos row_limit) ≤ℤ n }
        requires n_high { n ≤ℤ pos row_limit }
        ensures { result ≡ next_to m z n }
    {
        n - Congruence::reduce(m, n - z)
    }

    /// The congruence of `z` at any modulus. At one that is too great, the single value of its one
    /// member that a word can hold, or None.
    pub(crate) fn make(m: u64, z: i64) -> Option<Congruence>
        requires small { m < row_limit }
        requires z_low { neg_ℤ (pos row_limit) ≤ℤ z }
        requires z_high { z ≤ℤ pos row_limit }
        ensures { result ≡ make m z }
    {
        if 0 < m && m <= GREATEST_MODULUS {
            Some(Congruence {
                modulus: m as i64,
                residue: Congruence::reduce(m, z),
            })
        } else {
            let only = Congruence::next_from(m, z, LEAST_SIGNED);
            if is_signed(only) {
                Some(Congruence {
                    modulus: 0,
                    residue: only,
                })
            } else {
                None
            }
        }
    }

    /// An even modulus halved with its residue, and else everything.
    #[tactic(auto, unfolding(crate::specs::Congruences::sar))]
    pub(crate) fn halves(&self) -> Option<Congruence>
        ensures { result ≡ sar self.now }
    {
        if self.divisor() % 2 == 0 {
            Congruence::make(self.divisor() / 2, signed_values::half(self.residue))
        } else {
            Some(Congruence {
                modulus: 1,
                residue: 0,
            })
        }
    }

    /// Shifted left by one place, with a known bit as the lowest one.
    #[tactic(auto, unfolding(crate::specs::Congruences::left_through))]
    pub(crate) fn shifted_left(&self, b: Option<bool>) -> Option<Congruence>
        ensures { result ≡ left_through self.now b }
    {
        match b {
            Some(true) => {
                let modulus = Congruence::within_word(2 * self.divisor());
                Congruence::make(modulus, self.residue + self.residue + 1)
            }
            Some(false) => {
                let modulus = Congruence::within_word(2 * self.divisor());
                Congruence::make(modulus, self.residue + self.residue)
            }
            None => Some(Congruence {
                modulus: 1,
                residue: 0,
            }),
        }
    }

    /// Whether each member is the residue plus a multiple of the modulus.
    #[tactic(auto, unfolding(crate::specs::Congruences::all_on))]
    pub(crate) fn is_on(&self, modulus: i64, residue: i64) -> bool
        requires { pos 1 ≤ℤ modulus }
        ensures { result ≡ all_on self.now modulus residue }
    {
        let size = modulus.unsigned_abs();
        self.divisor() % size == 0 && self.residue.abs_diff(residue) % size == 0
    }
}
