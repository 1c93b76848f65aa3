//! What the definitions say of a text: it is that of one value at the most, and else it has one first
//! fault. And what the test of a range's numbers says.

ghost use Rattle.std.specs.Prelude.{◌≡◌, ℕ, ℤ, List, true};
ghost use Rattle.text_lines.specs.Reading.{HasOneReading};
ghost use Rattle.memory_plan.specs.Images.{ImageWords, IsImage, image_fault};
ghost use Rattle.viper_word.specs.Ranges.{NumberRange, IsIn, IsNormal};
ghost use Rattle.memory_plan.specs.Numbers.{range_has};
ghost use Rattle.memory_plan.specs.PlanText.{IsPlan, plan_fault};

/// A text is that of one image at the most, and else it has one first fault.
pub fn one_image()
    ensures { (text : List ℕ) → HasOneReading (IsImage text) (image_fault text) }
{}

/// Over an image, a text is that of one plan at the most, and else it has one first fault.
pub fn one_plan()
    ensures { (image : ImageWords) (text : List ℕ)
        → HasOneReading (IsPlan image text) (plan_fault image text) }
{}

/// The test of a range's numbers says which they are.
pub fn numbers_of_a_range()
    ensures is { (r : NumberRange) (n : ℤ) → IsNormal r → range_has r n ≡ true → IsIn r n }
    ensures all { (r : NumberRange) (n : ℤ) → IsNormal r → IsIn r n → range_has r n ≡ true }
{}
