//! The bytes of values in normal form.
ghost use Rattle.std.specs.Prelude.{◌≡◌, ℤ, pos, neg_ℤ, ◌≤ℤ◌, ◌^◌, ◌-◌};
ghost use Rattle.std.specs.Int.{w32, cast_unsigned};

use crate::spelled::Spelled;
use val_dom::Val;

/// How many words there are, 2^32.
const WORDS: i64 = 0x1_0000_0000;

/// The word of a number, signed or not.
fn word_of(n: i64) -> u32
    requires low { neg_ℤ (pos (2 ^ 31)) ≤ℤ n }
    requires high { n ≤ℤ pos (2 ^ 32 - 1) }
    ensures { result ≡ cast_unsigned w32 n }
{
    if n < 0 { (n + WORDS) as u32 } else { n as u32 }
}

impl Spelled for Val {
    ghost use Rattle.cert_format.specs.Values.{val_spelled};
    ghost use Rattle.cert_format.specs.evidence.SpelledLaws.{val_size, val_exact};

    ghost bytes = { val_spelled };

    #[tactic(auto, unfolding(crate::specs::Values::val_spelled, crate::specs::Values::value_bytes, crate::specs::Values::word_bytes))]
    fn spell(&self) -> [u8; 24] {
        let l = word_of(self.pair.left.lo).to_be_bytes();
        let h = word_of(self.pair.left.hi).to_be_bytes();
        let m = word_of(self.pair.right.modulus).to_be_bytes();
        let r = word_of(self.pair.right.residue).to_be_bytes();
        [
            l[0], l[1], l[2], l[3], h[0], h[1], h[2], h[3], m[0], m[1], m[2], m[3], r[0], r[1],
            r[2], r[3], 0, 0, 0, 0, 0, 0, 0, 0,
        ]
    }

    ghost size = { val_size };

    ghost exact = { val_exact };
}
