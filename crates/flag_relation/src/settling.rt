//! What links leave of a fact's values.
ghost use Rattle.std.specs.Prelude.{◌≡◌, length};
ghost use Rattle.flag_relation.specs.Values.{at_reg};
ghost use Rattle.flag_relation.specs.InPlace.{RefinedBy};
ghost use Rattle.flag_relation.specs.Refining.{settle_link, settle_at, settle_pass, settle};
ghost use Rattle.flag_relation.specs.Limits.{IsLinkOf};

use crate::{Fact, Link, Reg};
use num_domain::NumDomain;
use viper_word::Kind;

impl<D: NumDomain> Fact<D> {
    /// Settles the links: each cell is refined by its register less the offset, and each register
    /// by its cell plus it, for A, X and Y in order, and all of it twice. False where no state is
    /// left; nothing is then known of the fact but its number of cells.
    #[tactic(auto, unfolding(crate::specs::Refining::settle))]
    pub(crate) fn settle(&mut self) -> bool
        ensures { RefinedBy result self.old self.new (settle D.domain self.old.links) }
    {
        self.settle_pass() && self.settle_pass()
    }

    /// Settles the link of each register once.
    #[tactic(auto, unfolding(crate::specs::Refining::settle_pass))]
    fn settle_pass(&mut self) -> bool
        ensures { RefinedBy result self.old self.new (settle_pass D.domain self.old.links) }
    {
        self.settle_at(Reg::A) && self.settle_at(Reg::X) && self.settle_at(Reg::Y)
    }

    /// Settles the link of a register, if it has one.
    fn settle_at(&mut self, r: Reg) -> bool
        ensures { RefinedBy result self.old self.new
            (settle_at D.domain r (at_reg self.old.links r)) }
    {
        match self.link(r) {
            None => true,
            Some(l) => self.settle_link(r, l),
        }
    }

    /// Refines the link's cell by the register less the offset, and the register by the cell plus
    /// it.
    #[tactic(auto, unfolding(crate::specs::Refining::settle_link))]
    fn settle_link(&mut self, r: Reg, l: Link) -> bool
        requires { IsLinkOf (length self.old.cells) l }
        ensures { RefinedBy result self.old self.new (settle_link D.domain r l) }
    {
        let x = self.reg(r);
        let Some(moved) = x.moved(-l.offset) else {
            return false;
        };
        let Some(cell) = self.cell(l.cell).refine(Kind::Eq, &moved) else {
            return false;
        };
        let Some(back) = cell.moved(l.offset) else {
            return false;
        };
        let Some(value) = x.refine(Kind::Eq, &back) else {
            return false;
        };
        self.set_cell(l.cell, cell);
        self.set_reg(r, value);
        true
    }
}
