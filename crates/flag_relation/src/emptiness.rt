//! Facts that no state meets, as the ends of their values tell.
ghost use Rattle.std.specs.Prelude.{◌≡◌, IsTrue};
ghost use Rattle.flag_relation.specs.Facts.{IsUnmet};
ghost use Rattle.flag_relation.specs.Emptiness.{has_ends, cells_have_ends, all_have_ends, is_empty};

use crate::Fact;
use num_domain::NumDomain;
use viper_word::{GREATEST_SIGNED, LEAST_SIGNED};

/// Has the value a low end and a high one, in this order?
#[tactic(auto, unfolding(num_domain::specs::Ends::ends))]
fn has_ends<D: NumDomain>(value: &D) -> bool
    ensures { result ≡ has_ends D.domain value.now }
{
    match value.least_from(LEAST_SIGNED) {
        None => false,
        Some(lo) => match value.greatest_to(GREATEST_SIGNED) {
            None => false,
            Some(hi) => lo <= hi,
        },
    }
}

/// Has each value ends?
#[tactic(auto, unfolding(crate::specs::Emptiness::cells_have_ends))]
fn have_ends<D: NumDomain>(values: &[D]) -> bool
    ensures { result ≡ cells_have_ends D.domain values.now }
{
    match values {
        [] => true,
        [first, rest @ ..] => has_ends(first) && have_ends(rest),
    }
}

impl<D: NumDomain> Fact<D> {
    /// Does some value lack an end, or is its low end above its high one? No state meets such a
    /// fact. docs/METHOD.md, "Facts".
    #[tactic(auto, unfolding(crate::specs::Emptiness::is_empty))]
    pub fn is_empty(&self) -> bool
        ensures value { result ≡ is_empty D.domain self.now }
        ensures unmet { IsTrue result → IsUnmet D.domain self.now }
    {
        !self.have_all_ends()
    }

    /// Has each value of the fact ends?
    fn have_all_ends(&self) -> bool
        ensures { result ≡ all_have_ends D.domain self.now }
    {
        has_ends(&self.a) && has_ends(&self.x) && has_ends(&self.y) && have_ends(&self.cells)
    }
}
