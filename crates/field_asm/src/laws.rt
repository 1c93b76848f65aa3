//! What the definitions say of a source: it is that of one image at the most, and else it has one
//! first fault.

ghost use Rattle.std.specs.Prelude.{ℕ, List};
ghost use Rattle.text_lines.specs.Reading.{HasOneReading};
ghost use Rattle.field_asm.specs.Sources.{IsSource, source_fault};

/// A text is a source of one image at the most, and else it has one first fault.
pub fn one_source()
    ensures { (text : List ℕ) → HasOneReading (IsSource text) (source_fault text) }
{}
