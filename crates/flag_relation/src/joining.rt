//! The least fact that includes two.
ghost use Rattle.std.specs.Prelude.{◌≡◌, ◌≢◌, ◌↔◌, IsTrue, not, length};
ghost use Rattle.flag_relation.specs.Values.{at_reg};
ghost use Rattle.flag_relation.specs.Facts.{with_link, with_flag, Covers};
ghost use Rattle.flag_relation.specs.Order.{includes};
ghost use Rattle.flag_relation.specs.Joins.{join_link, join_flags, with_joined, join};

use crate::order::{flag_includes, link_includes};
use crate::{Fact, Flag, Reg, cells};
use num_domain::NumDomain;

impl<D: NumDomain> Fact<D> {
    /// Makes this the least fact that includes both: values are joined, and a link, or what is
    /// known of B, stays where the other has the same. True exactly where that changes something.
    /// The other has as many cells. Takes no memory. docs/METHOD.md, "Facts".
    pub fn join_with(&mut self, other: &Fact<D>) -> bool
        requires cells { length self.old.cells ≡ length other.now.cells }
        ensures value { self.new ≡ join D.domain self.old other.now }
        ensures changed { IsTrue result ↔ (self.new ≢ self.old) }
        ensures grows { result ≡ not (includes D.domain self.old other.now) }
        ensures keeps { Covers D.domain self.new self.old }
        ensures takes { Covers D.domain self.new other.now }
        ensures count { length self.new.cells ≡ length self.old.cells }
    {
        let grows = !self.includes(other);
        if grows {
            self.join_all(other);
        }
        grows
    }

    /// Joins the values, the links and what is known of B.
    #[tactic(auto, unfolding(crate::specs::Joins::join))]
    fn join_all(&mut self, other: &Fact<D>)
        requires { length self.old.cells ≡ length other.now.cells }
        ensures value { self.new ≡ join D.domain self.old other.now }
        ensures count { length self.new.cells ≡ length self.old.cells }
    {
        self.join_values(other);
        self.join_link(Reg::A, other);
        self.join_link(Reg::X, other);
        self.join_link(Reg::Y, other);
        self.join_flag(other);
    }

    /// Joins each value with the other's.
    #[tactic(auto, using(crate::proofs::CellLoops::join_length), unfolding(crate::specs::Joins::join_values))]
    pub(crate) fn join_values(&mut self, other: &Fact<D>)
        requires { length self.old.cells ≡ length other.now.cells }
        ensures value { self.new ≡ with_joined D.domain self.old other.now }
        ensures count { length self.new.cells ≡ length self.old.cells }
    {
        self.a = self.a.join(&other.a);
        self.x = self.x.join(&other.x);
        self.y = self.y.join(&other.y);
        cells::join(&mut self.cells, &other.cells);
    }

    /// Drops the link, where the other's isn't equal.
    #[tactic(auto, using(crate::proofs::FlagLaws::set_same))]
    fn join_link(&mut self, r: Reg, other: &Fact<D>)
        ensures { self.new ≡ with_link self.old r
            (join_link (at_reg self.old.links r) (at_reg other.now.links r)) }
    {
        if !link_includes(self.link(r), other.link(r)) {
            self.set_link(r, None);
        }
    }

    /// Forgets what is known of B, where the other doesn't say the same.
    fn join_flag(&mut self, other: &Fact<D>)
        ensures { self.new ≡ with_flag self.old (join_flags self.old.flag other.now.flag) }
    {
        if !flag_includes(&self.flag(), &other.flag()) {
            self.set_flag(Flag::Any);
        }
    }
}
