ghost use Rattle.std.specs.Prelude.{◌≡◌, ◌≤◌, length, IfOk};
ghost use Rattle.flag_relation.specs.declared.fact.TheConstants.{MOST_CELLS};
ghost use Rattle.abs_step.specs.Places.{HasCells};

use crate::posts::Posts;
use flag_relation::{Fact, Var};
use num_domain::NumDomain;
use std::alloc::Global;
use std::marker::Model;
use viper_word::{Addr, Memory};

/// How many targets a jump may have at the most.
pub(crate) const MOST_TARGETS: usize = 64;

/// A local condition, of a cell (H1), of a start line (H2), or of a node: C1 to C7 of one instruction,
/// C8 to C11 of a node with its successors and rank. docs/METHOD.md, "Conditions".
#[derive(Clone, Copy, Debug, PartialEq, Eq)]
pub enum Cond {
    H1,
    H2,
    C1,
    C2,
    C3,
    C4,
    C5,
    C6,
    C7,
    C8,
    C9,
    C10,
    C11,
}

/// What an instruction does to a register or a cell. docs/METHOD.md, "Outcomes".
#[derive(Clone, Copy, Debug, PartialEq, Eq)]
pub enum Post {
    /// It stays as it was.
    Same,
    /// It becomes what the variable was before, plus the number, as whole numbers.
    Plus(Var, i64),
    /// It is somewhere within its value of the fact after the instruction.
    Within,
}

/// What may come of an instruction: where it leads, the fact that its side has before it, the fact
/// after it, and what becomes of each variable. docs/METHOD.md, "Outcomes".
#[derive(Drop)]
pub struct Outcome<D> {
    pub target: Addr,
    pub pre: Fact<D>,
    pub after: Fact<D>,
    pub posts: Posts,
}

impl<D> Model for Outcome<D> {
    ghost use Rattle.abs_step.specs.OutcomeLists.{OutcomeOf};

    ghost Value = { OutcomeOf D };

    ghost view = { λ o. record {
      target = o.target;
      pre = o.pre;
      after = o.after;
      posts = o.posts;
    } };
}

/// The first address of all.
fn first_address() -> Addr {
    match Addr::new(0) {
        Some(first) => first,
        None => unreachable!(),
    }
}

impl<D: NumDomain> Outcome<D> {
    /// A place for an outcome over so many cells. `Memory` for want of memory.
    pub(crate) fn new(alloc: Global, cells: u8) -> Result<Outcome<D>, Memory>
        requires { cells ≤ MOST_CELLS }
        ensures { IfOk result (HasCells cells) }
    {
        let pre = Fact::new(alloc, cells)?;
        let after = Fact::new(alloc, cells)?;
        let posts = Posts::new(alloc, cells)?;
        Ok(Outcome {
            target: first_address(),
            pre,
            after,
            posts,
        })
    }

    /// Becomes that outcome. Each part has as many cells as before.
    pub(crate) fn set(&mut self, target: Addr, pre: &Fact<D>, after: &Fact<D>, posts: &Posts)
        requires pre { length self.old.pre.cells ≡ length pre.now.cells }
        requires after { length self.old.after.cells ≡ length after.now.cells }
        requires posts { length self.old.posts.cells ≡ length posts.now.cells }
        ensures { self.new ≡ record {
          target = target;
          pre = pre.now;
          after = after.now;
          posts = posts.now;
        } }
    {
        self.target = target;
        self.pre.copy_from(pre);
        self.after.copy_from(after);
        self.posts.copy_from(posts);
    }
}
