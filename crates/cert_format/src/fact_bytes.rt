//! The bytes of a fact, by which equal facts are found.
ghost use Rattle.std.specs.Prelude.{◌≡◌, ◌∷◌, []};
ghost use Rattle.std.specs.Prelude.{nat_eq};
ghost use Rattle.std.specs.Cmp.Lexicographic.{pointwise};
ghost use Rattle.std.specs.Ordering.{on};
ghost use Rattle.std.specs.Cmp.Rules.{comparing, hashing};
ghost use Rattle.std.proofs.Common.{rules};

use std::hash::{Hash, Hasher};

/// The bytes of a fact, which are hashed in one run.
#[derive(Drop)]
pub(crate) struct FactBytes {
    pub(crate) bytes: Vec<u8>,
}

impl PartialEq for FactBytes {
    ghost eq = { on (λ x. x.bytes.items) (pointwise nat_eq) };

    ghost laws = { Prim.search (comparing, rules) };

    fn eq(&self, other: &FactBytes) -> bool {
        self.bytes == other.bytes
    }
}

impl Eq for FactBytes {
    ghost laws = { Prim.search (comparing, rules) };
}

impl Hash for FactBytes {
    ghost hash_input = { λ x. x.bytes.items ∷ [] };

    ghost respects_eq = { Prim.search (hashing, rules) };

    fn hash<H: Hasher>(&self, state: &mut H) {
        state.write(self.bytes.as_slice());
    }
}
