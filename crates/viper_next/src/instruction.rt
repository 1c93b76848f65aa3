ghost use Rattle.std.specs.Prelude.{◌≡◌};
ghost use Rattle.viper_word.specs.Machine.{is_skipped};

use viper_decode::{Fields, destination};

/// Does `b` forbid the jump: D is P if B with B clear, or P if not B with B set?
pub(crate) fn is_skipped(i: Fields, b: bool) -> bool
    ensures { result ≡ is_skipped i b }
{
    !i.c && (i.d == destination::P_IF_B && !b || i.d == destination::P_IF_NOT_B && b)
}
