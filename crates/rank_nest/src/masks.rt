//! How candidates move over an outcome, by bits.
ghost use Rattle.std.specs.Prelude.{◌≡◌, ◌<◌, ◌≤◌, ◌+◌, ◌*◌, ◌^◌, cond, length};
ghost use Rattle.flag_relation.specs.declared.fact.TheConstants.{MOST_CELLS};
ghost use Rattle.rank_nest.specs.Bits.{bits};
ghost use Rattle.rank_nest.specs.Candidates.{candidates, grows_by, falls_by};

use crate::candidates::change;
use abs_step::Outcome;
use num_domain::NumDomain;

/// The candidates that may grow, and those that surely fall.
#[derive(Clone, Copy)]
pub(crate) struct Masks {
    pub(crate) grow: u128,
    pub(crate) fall: u128,
}

/// The bits with one more below them.
fn with_bit(bits: u128, bit: bool) -> u128
    requires { bits < 2 ^ 127 }
    ensures { result ≡ cond bit 1 0 + 2 * bits }
{
    2 * bits + if bit { 1 } else { 0 }
}

/// How the candidates below a count move over an outcome.
pub(crate) fn moves_over<D: NumDomain>(out: &Outcome<D>, count: u32) -> Masks
    requires few { count ≤ candidates MOST_CELLS }
    requires cells { length out.now.after.cells ≡ length out.now.pre.cells }
    ensures grow { result.grow ≡ bits (grows_by D.domain out.now) 0 count }
    ensures fall { result.fall ≡ bits (falls_by D.domain out.now) 0 count }
{
    let mut grow: u128 = 0;
    let mut fall: u128 = 0;
    let mut candidate = count;
    while candidate > 0 {
        candidate -= 1;
        let change = change(out, candidate);
        grow = with_bit(grow, change >= 1);
        fall = with_bit(fall, change <= -1);
    }
    Masks { grow, fall }
}
