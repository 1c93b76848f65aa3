//! Comparisons turned round and negated.
ghost use Rattle.std.specs.Prelude.{◌≡◌};
ghost use Rattle.flag_relation.specs.Refining.{mirror, negate, negate_atom};

use crate::Atom;
use viper_word::Kind;

/// The kind that says the same with both sides exchanged. None for the two unsigned ones, of which
/// a cell learns nothing.
pub(crate) fn mirror(kind: Kind) -> Option<Kind>
    ensures { result ≡ mirror kind }
{
    match kind {
        Kind::Lt => Some(Kind::Gt),
        Kind::Ge => Some(Kind::Le),
        Kind::Eq => Some(Kind::Eq),
        Kind::Ne => Some(Kind::Ne),
        Kind::Le => Some(Kind::Ge),
        Kind::Gt => Some(Kind::Lt),
        Kind::Ult | Kind::Uge => None,
    }
}

/// The kind that says the contrary.
fn negate(kind: Kind) -> Kind
    ensures { result ≡ negate kind }
{
    match kind {
        Kind::Lt => Kind::Ge,
        Kind::Ge => Kind::Lt,
        Kind::Eq => Kind::Ne,
        Kind::Ne => Kind::Eq,
        Kind::Le => Kind::Gt,
        Kind::Gt => Kind::Le,
        Kind::Ult => Kind::Uge,
        Kind::Uge => Kind::Ult,
    }
}

/// The comparison that says the contrary.
pub(crate) fn negated(atom: &Atom) -> Atom
    ensures { result ≡ negate_atom atom.now }
{
    Atom {
        kind: negate(atom.kind),
        left: atom.left,
        right: atom.right,
    }
}
