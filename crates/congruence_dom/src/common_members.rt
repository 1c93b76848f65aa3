ghost use Rattle.std.specs.Prelude.{◌≡◌, ◌<◌, ◌^◌, ◌≤ℤ◌, ◌+ℤ◌, pos};
ghost use Rattle.viper_word.specs.Words.{least_signed};

use crate::congruence::Congruence;
use crate::divisors::solve;
use num_domain::NumDomain;
use viper_word::{GREATEST_SIGNED, LEAST_SIGNED};

impl Congruence {
    ghost use Rattle.congruence_dom.specs.Residues.{mod_of};
    ghost use Rattle.congruence_dom.specs.Congruences.{refine_eq};
    ghost use Rattle.congruence_dom.specs.evidence.CommonMembers.{IsNextCommon};

    /// The common members: the congruence of the first one and the next one. The first alone where
    /// there is no other, and None where there is none.
    #[tactic(auto, unfolding(crate::specs::Congruences::refine_eq))]
    pub(crate) fn common(&self, other: &Congruence) -> Option<Congruence>
        ensures { result ≡ refine_eq self.now other.now }
    {
        let first = self.next_common(other, LEAST_SIGNED)?;
        match self.next_common(other, first + 1) {
            None => Congruence::make(0, first),
            Some(second) => Congruence::make((second - first).unsigned_abs(), first),
        }
    }

    /// The first common member from `n` on.
    fn next_common(&self, other: &Congruence, n: i64) -> Option<i64>
        requires low { least_signed ≤ℤ n }
        requires high { n ≤ℤ pos (2 ^ 31) }
        ensures { IsNextCommon self.now other.now n result }
    {
        if self.divisor() == 0 {
            self.next_of_one(other, n)
        } else if other.divisor() == 0 {
            other.next_of_one(self, n)
        } else {
            self.next_of_many(other, n)
        }
    }

    /// The same, where this has one member.
    fn next_of_one(&self, other: &Congruence, n: i64) -> Option<i64>
        requires { mod_of self.now ≡ 0 }
        ensures { IsNextCommon self.now other.now n result }
    {
        let only = self.least_from(n)?;
        let found = other.least_from(only)?;
        if found == only { Some(only) } else { None }
    }

    /// The same, where neither has one member.
    fn next_of_many(&self, other: &Congruence, n: i64) -> Option<i64>
        requires first { 0 < mod_of self.now }
        requires second { 0 < mod_of other.now }
        ensures { IsNextCommon self.now other.now n result }
    {
        let from = self.least_from(n)?;
        let size = other.divisor();
        let gap = (other.residue - from).rem_euclid(size as i64) as u64;
        let steps = solve(self.divisor() % size, gap, size)?;
        let distance = self.divisor() * steps;
        let room = GREATEST_SIGNED.abs_diff(from);
        if distance <= room {
            Some(from + distance as i64)
        } else {
            None
        }
    }
}
