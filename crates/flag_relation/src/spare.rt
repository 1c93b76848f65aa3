ghost use Rattle.std.specs.Prelude.{◌≡◌, ◌≤◌, length, IfOk};
ghost use Rattle.flag_relation.specs.declared.fact.TheConstants.{MOST_CELLS};

use crate::Fact;
use num_domain::NumDomain;
use std::alloc::Global;
use std::marker::Model;
use viper_word::Memory;

/// Room for what `assume` and `Fact::round` need meanwhile, so that they take no memory. Contracts
/// see the number of cells, which no call changes.
#[derive(Drop)]
pub struct Spare<D> {
    /// The fact before the call.
    pub(crate) before: Fact<D>,
    /// One alternative.
    pub(crate) work: Fact<D>,
}

impl<D> Model for Spare<D> {
    ghost use Rattle.std.specs.Prelude.{◌≡◌, ℕ, length};

    ghost Value = { ℕ };

    ghost view = { λ s. length s.before.cells };

    ghost invariant = { λ s. length s.work.cells ≡ length s.before.cells };
}

impl<D: NumDomain> Spare<D> {
    /// Room for facts over `cells` cells, at most 32. `Memory` for want of memory.
    pub fn new(alloc: Global, cells: u8) -> Result<Spare<D>, Memory>
        requires { cells ≤ MOST_CELLS }
        ensures { IfOk result (λ s. s ≡ cells) }
    {
        let before = Fact::new(alloc, cells)?;
        let work = Fact::new(alloc, cells)?;
        Ok(Spare { before, work })
    }
}
