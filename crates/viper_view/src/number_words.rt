//! Sets of numbers in words.

use memory_plan::Range;
use std::fmt;
use val_dom::Val;
use viper_word::{GREATEST_SIGNED, LEAST_SIGNED};

/// The numbers from `lo` to `hi` in steps. In words `any` for all signed words, else `3`, `0..9` or
/// `0..8/4`, as ranges are written in a plan (docs/FORMATS.md, "Ranges").
#[derive(Clone, Copy, PartialEq, Eq)]
pub struct Numbers {
    pub lo: i64,
    pub hi: i64,
    pub step: i64,
}

impl Numbers {
    /// The members of a value.
    pub fn of(value: &Val) -> Numbers {
        Numbers {
            lo: value.pair.left.lo,
            hi: value.pair.left.hi,
            step: value.pair.right.modulus,
        }
    }

    /// The numbers of a range.
    pub fn in_range(range: &Range) -> Numbers {
        Numbers {
            lo: range.lo,
            hi: range.hi,
            step: range.modulus,
        }
    }

    /// Are they all signed words?
    pub fn are_any(&self) -> bool {
        self.lo == LEAST_SIGNED && self.hi == GREATEST_SIGNED && self.step <= 1
    }
}

impl fmt::Display for Numbers {
    fn fmt<W: fmt::Write>(&self, f: &mut fmt::Formatter<W>) -> fmt::Result {
        if self.are_any() {
            write!(f, "any")
        } else if self.lo == self.hi {
            write!(f, "{}", self.lo)
        } else if self.step <= 1 {
            write!(f, "{}..{}", self.lo, self.hi)
        } else {
            write!(f, "{}..{}/{}", self.lo, self.hi, self.step)
        }
    }
}
