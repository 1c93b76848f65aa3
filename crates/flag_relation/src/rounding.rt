//! Facts rounded to thresholds.
ghost use Rattle.std.specs.Prelude.{◌≡◌, length};
ghost use Rattle.flag_relation.specs.Facts.{Covers};
ghost use Rattle.flag_relation.specs.Rounding.{with_rounded, round};

use crate::{Fact, Spare, cells};
use num_domain::{NumDomain, Thresholds};

impl<D: NumDomain> Fact<D> {
    /// Rounds the fact to thresholds: each value is rounded and the links are settled, and that is
    /// joined with the fact before; where settling leaves no state, the fact stays. What comes out
    /// includes the fact before. `spare` has as many cells. Takes no memory. docs/METHOD.md,
    /// "Facts".
    pub fn round(&mut self, t: &Thresholds, spare: &mut Spare<D>)
        requires room { spare.old ≡ length self.old.cells }
        ensures value { self.new ≡ round D.domain t.now self.old }
        ensures keeps { Covers D.domain self.new self.old }
        ensures count { length self.new.cells ≡ length self.old.cells }
        ensures room { spare.new ≡ spare.old }
    {
        self.round_and_settle(t, spare);
    }

    /// Rounds each value and settles the links, and joins that with the fact before.
    #[tactic(auto, unfolding(crate::specs::Rounding::round))]
    fn round_and_settle(&mut self, t: &Thresholds, spare: &mut Spare<D>)
        requires { spare.old ≡ length self.old.cells }
        ensures value { self.new ≡ round D.domain t.now self.old }
        ensures count { length self.new.cells ≡ length self.old.cells }
        ensures room { spare.new ≡ spare.old }
    {
        spare.before.copy_from(self);
        self.round_values(t);
        if self.settle() {
            self.join_values(&spare.before);
        } else {
            self.copy_from(&spare.before);
        }
    }

    /// Rounds each value.
    #[tactic(auto, unfolding(crate::specs::Rounding::round_values))]
    fn round_values(&mut self, t: &Thresholds)
        ensures value { self.new ≡ with_rounded D.domain t.now self.old }
        ensures count { length self.new.cells ≡ length self.old.cells }
    {
        self.a = self.a.round(t);
        self.x = self.x.round(t);
        self.y = self.y.round(t);
        cells::round(&mut self.cells, t);
    }
}
