//! How a caller hands a fact to a certificate.
ghost use Rattle.std.specs.Prelude.{◌≡◌, IfOk};
ghost use Rattle.cert_format.specs.Keeping.{given};

use crate::spelled::Spelled;
use flag_relation::Fact;
use std::alloc::{AllocError, Global};

/// A fact that is lent, and is copied where it is kept, or one that is given away.
#[derive(Drop)]
pub(crate) enum Given<'a, D: Spelled> {
    Lent(&'a Fact<D>),
    Owned(Fact<D>),
}

impl<D: Spelled> Given<'_, D> {
    /// The fact, to be looked at.
    pub(crate) fn lent(&self) -> &Fact<D>
        ensures { result.now ≡ given self.now }
    {
        match self {
            Given::Lent(fact) => fact,
            Given::Owned(fact) => fact,
        }
    }

    /// The fact, to be kept.
    pub(crate) fn owned(self, alloc: Global) -> Result<Fact<D>, AllocError>
        ensures { IfOk result (λ f. f ≡ given self.entry) }
    {
        match self {
            Given::Lent(fact) => copied(alloc, fact),
            Given::Owned(fact) => Ok(fact),
        }
    }
}

/// The fact once more.
fn copied<D: Spelled>(alloc: Global, fact: &Fact<D>) -> Result<Fact<D>, AllocError>
    ensures { IfOk result (λ f. f ≡ fact.now) }
{
    let cells = Vec::from_slice(alloc, fact.cells.as_slice())?;
    Ok(Fact {
        a: fact.a,
        x: fact.x,
        y: fact.y,
        cells,
        links: fact.links,
        flag: fact.flag,
    })
}
