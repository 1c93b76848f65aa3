ghost use Rattle.std.specs.Prelude.{◌≡◌};
ghost use Rattle.memory_plan.specs.declared.text_fault.ImageFault.TheVariants as image_faults;
ghost use Rattle.memory_plan.specs.declared.text_fault.PlanFault.TheVariants as plan_faults;

use std::alloc::{AllocError, AllocFailed};

/// The rules that a line of an image may break, in their order (docs/FORMATS.md, "Images").
#[derive(Clone, Copy, Debug, PartialEq, Eq)]
pub enum ImageRule {
    /// It isn't five digits, one space and eight digits.
    Form,
    /// Its address isn't above the one before.
    Order,
}

/// Why a text could not be read as an image.
#[derive(Clone, Copy, Debug, PartialEq, Eq)]
pub enum ImageFault {
    /// The first line that breaks a rule, counted from 1, and the rule.
    At { line: u32, rule: ImageRule },
    /// An allocation found no memory.
    Memory,
}

impl From<AllocError> for ImageFault {
    ghost from_gives = { λ _ e. e ≡ image_faults.Memory };

    fn from(_: AllocError) -> ImageFault {
        ImageFault::Memory
    }
}

impl<T: Drop> From<AllocFailed<T>> for ImageFault {
    ghost from_gives = { λ _ e. e ≡ image_faults.Memory };

    fn from(_: AllocFailed<T>) -> ImageFault {
        ImageFault::Memory
    }
}

/// The rules that a plan may break, in their order (docs/FORMATS.md, "Plans").
#[derive(Clone, Copy, Debug, PartialEq, Eq)]
pub enum PlanRule {
    /// The tokens are of none of the nine shapes.
    Form,
    /// A number is none that it may be, or a range isn't one.
    Number,
    /// The kind stands before that of an earlier line.
    Order,
    /// There are more lines of the kind, or more code words, than there may be.
    Limit,
    /// The span is empty, or meets an earlier one of its space.
    Span,
    /// A code address has no word, or a word in data isn't in the range.
    Image,
    /// The address of a marker or a start isn't in code.
    Code,
    /// The marker was given before, or the start isn't at a marker.
    Marker,
    /// There is no start.
    Start,
}

/// Why a text could not be read as a plan.
#[derive(Clone, Copy, Debug, PartialEq, Eq)]
pub enum PlanFault {
    /// The first line that breaks a rule, counted from 1, and the rule.
    At { line: u32, rule: PlanRule },
    /// An allocation found no memory.
    Memory,
}

impl From<AllocError> for PlanFault {
    ghost from_gives = { λ _ e. e ≡ plan_faults.Memory };

    fn from(_: AllocError) -> PlanFault {
        PlanFault::Memory
    }
}
