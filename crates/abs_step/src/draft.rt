//! A fact and what becomes of each variable, while an outcome is made.

ghost use Rattle.std.specs.Prelude.{◌≡◌, ◌≤◌, IfOk};
ghost use Rattle.flag_relation.specs.declared.fact.TheConstants.{MOST_CELLS};

use crate::posts::Posts;
use flag_relation::Fact;
use num_domain::NumDomain;
use std::alloc::Global;
use std::marker::Model;
use viper_word::Memory;

/// The fact after an instruction, and what it does to each variable, until they are entered.
/// Contracts see the number of cells, which no call changes.
#[derive(Drop)]
pub(crate) struct Draft<D> {
    pub(crate) after: Fact<D>,
    pub(crate) posts: Posts,
}

impl<D> Model for Draft<D> {
    ghost use Rattle.std.specs.Prelude.{◌≡◌, ℕ, length};

    ghost Value = { ℕ };

    ghost view = { λ d. length d.after.cells };

    ghost invariant = { λ d. length d.posts.cells ≡ length d.after.cells };
}

impl<D: NumDomain> Draft<D> {
    /// Room for an outcome over so many cells. `Memory` for want of memory.
    pub(crate) fn new(alloc: Global, cells: u8) -> Result<Draft<D>, Memory>
        requires { cells ≤ MOST_CELLS }
        ensures { IfOk result (λ d. d ≡ cells) }
    {
        let after = Fact::new(alloc, cells)?;
        let posts = Posts::new(alloc, cells)?;
        Ok(Draft { after, posts })
    }
}
