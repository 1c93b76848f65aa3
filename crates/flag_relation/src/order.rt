//! The order of facts: which includes which.
ghost use Rattle.std.specs.Prelude.{◌≡◌, IsTrue, length};
ghost use Rattle.flag_relation.specs.Facts.{Covers};
ghost use Rattle.flag_relation.specs.Equality.{atom_eq, atoms_eq};
ghost use Rattle.flag_relation.specs.Order.{link_includes, links_include, flag_includes, includes};

use crate::{Atom, Fact, Flag, Link, Reg, cells};
use num_domain::NumDomain;

/// Are the comparisons equal?
fn atom_eq(a: &Atom, b: &Atom) -> bool
    ensures { result ≡ atom_eq a.now b.now }
{
    a == b
}

/// Are the lists equal?
#[tactic(auto, unfolding(crate::specs::Equality::atoms_eq))]
fn atoms_eq(a: &[Atom], b: &[Atom]) -> bool
    ensures { result ≡ atoms_eq a.now b.now }
{
    match a {
        [] => b.is_empty(),
        [first, rest @ ..] => match b {
            [] => false,
            [other, others @ ..] => atom_eq(first, other) && atoms_eq(rest, others),
        },
    }
}

/// Is the first link absent, or equal to the second?
pub(crate) fn link_includes(link: Option<Link>, other: Option<Link>) -> bool
    ensures { result ≡ link_includes link other }
{
    match (link, other) {
        (None, _) => true,
        (Some(_), None) => false,
        (Some(k), Some(l)) => k.cell == l.cell && k.offset == l.offset,
    }
}

/// Does the first flag say nothing, or the same as the second?
pub(crate) fn flag_includes(flag: &Flag, other: &Flag) -> bool
    ensures { result ≡ flag_includes flag.now other.now }
{
    match (flag, other) {
        (Flag::Any, _) | (Flag::One, Flag::One) => true,
        (Flag::Or(k), Flag::Or(l)) => atoms_eq(k.items(), l.items()),
        (Flag::One, Flag::Any | Flag::Or(_)) | (Flag::Or(_), Flag::Any | Flag::One) => false,
    }
}

impl<D: NumDomain> Fact<D> {
    /// The order of facts: does each value of this include the other's, and is each link, and what
    /// is known of B, absent or equal to the other's? Each state that meets the other then meets
    /// this. The other has as many cells. docs/METHOD.md, "Facts".
    #[tactic(auto, unfolding(crate::specs::Order::includes))]
    pub fn includes(&self, other: &Fact<D>) -> bool
        requires cells { length self.now.cells ≡ length other.now.cells }
        ensures value { result ≡ includes D.domain self.now other.now }
        ensures covers { IsTrue result → Covers D.domain self.now other.now }
    {
        self.a.includes(&other.a)
            && self.x.includes(&other.x)
            && self.y.includes(&other.y)
            && cells::include(&self.cells, &other.cells)
            && self.includes_links(other)
            && flag_includes(&self.flag, &other.flag)
    }

    /// Is each link absent, or equal to the other's?
    fn includes_links(&self, other: &Fact<D>) -> bool
        ensures { result ≡ links_include self.now.links other.now.links }
    {
        link_includes(self.link(Reg::A), other.link(Reg::A))
            && link_includes(self.link(Reg::X), other.link(Reg::X))
            && link_includes(self.link(Reg::Y), other.link(Reg::Y))
    }
}
