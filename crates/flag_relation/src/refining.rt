//! What a comparison that holds leaves of a fact's values.
ghost use Rattle.std.specs.Prelude.{◌≡◌, length};
ghost use Rattle.flag_relation.specs.Facts.{values};
ghost use Rattle.flag_relation.specs.InPlace.{RefinedBy};
ghost use Rattle.flag_relation.specs.Refining.{right_value, mirrored_by, refined};
ghost use Rattle.flag_relation.specs.Limits.{IsRightOf};

use crate::kinds::mirror;
use crate::{Atom, Fact, Right};
use num_domain::NumDomain;
use viper_word::{Kind, signed};

impl<D: NumDomain> Fact<D> {
    /// Refines by one comparison that holds: its register by the kind and the right side, a cell on
    /// the right by the mirrored kind and the register; then the links are settled. False where no
    /// state is left; nothing is then known of the fact but its number of cells.
    #[tactic(auto, unfolding(crate::specs::Refining::refined))]
    pub(crate) fn refine(&mut self, atom: &Atom) -> bool
        requires { IsRightOf (length self.old.cells) atom.now.right }
        ensures { RefinedBy result self.old self.new (refined D.domain self.old.links atom.now) }
    {
        let x = self.reg(atom.left);
        let Some(value) = x.refine(atom.kind, &self.right_value(atom.right)) else {
            return false;
        };
        if !self.refine_right(mirror(atom.kind), atom.right, &x) {
            return false;
        }
        self.set_reg(atom.left, value);
        self.settle()
    }

    /// The value on the right of a comparison.
    fn right_value(&self, right: Right) -> D
        requires { IsRightOf (length self.now.cells) right }
        ensures { result ≡ right_value D.domain (values self.now) right }
    {
        match right {
            Right::Cell(i) => self.cell(i),
            Right::Const(word) => D::constant(signed(word)),
        }
    }

    /// Refines the cell on the right by the kind and the value, where there is a kind and a cell.
    fn refine_right(&mut self, kind: Option<Kind>, right: Right, x: &D) -> bool
        requires { IsRightOf (length self.old.cells) right }
        ensures { RefinedBy result self.old self.new (mirrored_by D.domain kind right x.now) }
    {
        let (Some(kind), Right::Cell(i)) = (kind, right) else {
            return true;
        };
        let Some(cell) = self.cell(i).refine(kind, x) else {
            return false;
        };
        self.set_cell(i, cell);
        true
    }
}
