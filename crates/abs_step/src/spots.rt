//! The one address of a store, or whether it has several.

ghost use Rattle.std.specs.Prelude.{◌≡◌, ◌+ℤ◌, pos, cond, Some, None};
ghost use Rattle.flag_relation.specs.Facts.{values};
ghost use Rattle.viper_word.specs.Options.{bind};
ghost use Rattle.viper_word.specs.Words.{IsSigned};
ghost use Rattle.abs_step.specs.Results.{addressed};
ghost use Rattle.abs_step.specs.Stores.{lawful_at, spot};

use crate::addresses::{may_be, may_meet};
use crate::points::{COUNT, ends_of, sum};
use flag_relation::Fact;
use num_domain::NumDomain;
use viper_decode::Place;
use viper_word::Addr;

/// The number as an address.
fn lawful<D: NumDomain>(n: i64) -> Option<Addr>
    ensures { result ≡ lawful_at D.domain n }
{
    if 0 <= n && n <= i64::from(Addr::LAST) {
        Addr::new(n as u32)
    } else {
        None
    }
}

/// The address, if the place may be it.
fn reached<D: NumDomain>(place: &Place, side: &Fact<D>, at: Option<Addr>) -> Option<Addr>
    ensures { result ≡ bind at
        (λ n. cond (addressed D.domain place.now (values side.now) n) (Some n) None) }
{
    match at {
        None => None,
        Some(n) => {
            if may_be(place, side, n) {
                Some(n)
            } else {
                None
            }
        }
    }
}

/// The one address of the place. None where it has several or none.
#[tactic(auto, unfolding(crate::specs::Stores::spot))]
pub(crate) fn one_address<D: NumDomain>(place: &Place, side: &Fact<D>) -> Option<Addr>
    ensures { result ≡ (spot D.domain place.now (values side.now)).one }
{
    match place {
        Place::At(a) => Some(*a),
        Place::Index(a, r) => match ends_of(&side.reg(*r)) {
            None => None,
            Some((lo, hi)) => {
                if lo == hi {
                    let n = sum(i64::from(a.get()), lo);
                    reached(place, side, lawful::<D>(n))
                } else {
                    None
                }
            }
        },
    }
}

/// Has the place several addresses?
#[tactic(auto, unfolding(crate::specs::Stores::spot))]
pub(crate) fn has_several<D: NumDomain>(place: &Place, side: &Fact<D>) -> bool
    ensures { result ≡ (spot D.domain place.now (values side.now)).several }
{
    match place {
        Place::At(_) => false,
        Place::Index(_, r) => match ends_of(&side.reg(*r)) {
            None => false,
            Some((lo, hi)) => {
                if lo == hi {
                    false
                } else {
                    may_meet(place, side, 0, COUNT)
                }
            }
        },
    }
}
