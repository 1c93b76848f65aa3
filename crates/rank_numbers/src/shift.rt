ghost use Rattle.std.specs.Prelude.{◌≡◌, ◌<◌, ◌≤◌, ℕ, List, All, AllPairs, Contains, length, true, false};
ghost use Rattle.strong_components.specs.Groups.{lists_of};
ghost use Rattle.strong_components.specs.Components.{part_at};
ghost use Rattle.rank_shape.specs.Places.{Apart, PartsBelow};
ghost use Rattle.rank_numbers.specs.Rows.{form_of, OthersStay, Became, Passes};
ghost use Rattle.rank_numbers.specs.Steps.{Shifted, ShiftPasses};

use crate::ranks::Ranks;

/// Adds an offset to the forms of a part. False exactly where one is large.
fn shift<R: Ranks>(ranks: &R, part: &[u32], offset: i128, forms: &mut [R::Form]) -> bool
    requires ascend { AllPairs (λ a b. a < b) part.now }
    requires keys { All (λ k. k < length forms.old) part.now }
    ensures shifted { result ≡ true → Became (R.forms ranks.now)
        (λ f. (R.forms ranks.now).shift f offset) part.now forms.old forms.new }
    ensures large { result ≡ false → Passes (R.forms ranks.now)
        (λ f. (R.forms ranks.now).shift f offset) part.now forms.old }
    ensures others { OthersStay (R.forms ranks.now) part.now forms.old forms.new }
    ensures len { length forms.new ≡ length forms.old }
{
    for key in part {
        let Some(form) = ranks.shift(forms[*key as usize], offset) else {
            return false;
        };
        forms[*key as usize] = form;
    }
    true
}

/// Adds each part's offset to its forms. False exactly where one is large.
pub(crate) fn shift_parts<R: Ranks>(
    ranks: &R,
    parts: &[Vec<u32>],
    offset: &[i128],
    forms: &mut [R::Form],
) -> bool
    requires len { length offset.now ≡ length parts.now }
    requires ascend { (p : ℕ) → p < length (lists_of parts.now)
        → AllPairs (λ a b. a < b) (part_at (lists_of parts.now) p) }
    requires below { PartsBelow (length forms.old) (lists_of parts.now) }
    requires apart { Apart (lists_of parts.now) }
    ensures shifted { result ≡ true
        → Shifted (R.forms ranks.now) (lists_of parts.now) offset.now forms.old forms.new }
    ensures large { result ≡ false
        → ShiftPasses (R.forms ranks.now) (lists_of parts.now) offset.now forms.old }
    ensures others { (k : ℕ) → ((p : ℕ) → p < length (lists_of parts.now)
        → Contains (part_at (lists_of parts.now) p) k → ⊥)
        → form_of (R.forms ranks.now) forms.new k ≡ form_of (R.forms ranks.now) forms.old k }
    ensures len { length forms.new ≡ length forms.old }
{
    for p in 0..parts.len() {
        if !shift(ranks, &parts[p], offset[p], forms) {
            return false;
        }
    }
    true
}
