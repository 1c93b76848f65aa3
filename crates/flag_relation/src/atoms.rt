ghost use Rattle.flag_relation.specs.declared.atoms.TheConstants.{MOST_ATOMS};
ghost use Rattle.flag_relation.specs.AtomLists.{list_of};
ghost use Rattle.std.specs.Prelude.{◌≡◌, ◌≤◌, [], length};

use crate::{Atom, Reg, Right};
use std::marker::Model;
use viper_word::{Kind, Word};

/// How many comparisons a list may have.
pub const MOST_ATOMS: usize = 4;

/// A list of at most four comparisons. Contracts see the list.
#[derive(Clone, Copy)]
pub struct Atoms {
    items: [Atom; MOST_ATOMS],
    len: usize,
}

impl Model for Atoms {
    ghost use Rattle.std.specs.Prelude.{List, length, take};
    ghost use Rattle.flag_relation.specs.declared.atom.Atom.{Atom};
    ghost use Rattle.flag_relation.specs.declared.atoms.TheConstants.{MOST_ATOMS};
    ghost use Rattle.flag_relation.specs.AtomLists.{unused_atom};
    ghost use Rattle.flag_relation.specs.Padding.{IsPadded, padded, padded_back};

    ghost Value = { List Atom };

    ghost view = { λ a. take a.len a.items };

    ghost invariant = { λ a. IsPadded unused_atom MOST_ATOMS a.items a.len };

    ghost inverse = { λ l. record { items = padded unused_atom MOST_ATOMS l; len = length l } };

    ghost inverse_ok = { λ a h. λ i. record {
      items = padded_back unused_atom MOST_ATOMS a.items a.len h i;
      len = h.used i;
    } };
}

impl Atoms {
    /// What stands in an unused place.
    const PAD: Atom = Atom {
        kind: Kind::Lt,
        left: Reg::A,
        right: Right::Const(Word(0)),
    };

    /// The list of these comparisons. None exactly where there are more than four. Takes no memory.
    pub fn new(atoms: &[Atom]) -> Option<Atoms>
        ensures list { result ≡ list_of atoms.now }
    {
        if atoms.len() > MOST_ATOMS {
            return None;
        }
        let mut items = [Atoms::PAD; MOST_ATOMS];
        items[..atoms.len()].copy_from_slice(atoms);
        Some(Atoms {
            items,
            len: atoms.len(),
        })
    }

    /// The list without a comparison.
    pub(crate) fn none() -> Atoms
        ensures { result ≡ [] }
    {
        Atoms {
            items: [Atoms::PAD; MOST_ATOMS],
            len: 0,
        }
    }

    /// The comparisons in their order, at most four.
    pub fn items(&self) -> &[Atom]
        ensures all { result.now ≡ self.now }
        ensures few { length result.now ≤ MOST_ATOMS }
    {
        &self.items[..self.len]
    }
}

#[cfg(test)]
mod tests {
    use super::*;
    use std::test::Fail;

    /// The comparison of A with a constant.
    fn atom(kind: Kind, word: u32) -> Atom {
        Atom {
            kind,
            left: Reg::A,
            right: Right::Const(Word(word)),
        }
    }

    #[test]
    fn four_are_a_list_and_five_are_none(rt: HostRuntime) -> Result<(), Fail> {
        let five = [
            atom(Kind::Lt, 1),
            atom(Kind::Ge, 2),
            atom(Kind::Eq, 3),
            atom(Kind::Ne, 4),
            atom(Kind::Ult, 5),
        ];
        assert!(rt; Atoms::new(&five).is_none());
        let four = Atoms::new(&five[..4]).ok_or("four")?;
        assert_eq!(rt; four.items().len(), 4);
        assert!(rt; four.items()[3] == five[3]);
        Ok(())
    }
}
