//! The lines of a plan, as they are written and as what they declare.

use crate::cost::Costed;
use crate::range::Range;
use crate::range_text::RangeText;
use crate::start::Start;
use viper_word::{Addr, Profile};

/// What a span's addresses are.
#[derive(Clone, Copy, Debug, PartialEq, Eq)]
pub enum Space {
    /// Memory that may be read and written.
    Data,
    /// Peripherals that are read.
    Input,
    /// Peripherals that are written.
    Output,
}

/// A line that has one of the nine shapes, before its numbers are judged.
#[derive(Clone, Copy, Debug, PartialEq, Eq)]
pub enum WrittenLine {
    /// The profile of the number, if it is one's.
    Profile(Option<Profile>),
    Code(Addr, Addr),
    Region(Space, Addr, Addr, RangeText),
    Marker(Addr),
    Start(Addr, RangeText, RangeText, RangeText, Option<bool>),
    Threshold(i64),
    Cost(Costed, i64),
}

/// What a line declares.
#[derive(Clone, Copy, Debug, PartialEq, Eq)]
pub enum PlanLine {
    Profile(Profile),
    Code(Addr, Addr),
    Region(Space, Addr, Addr, Range),
    Marker(Addr),
    Start(Start),
    Threshold(i64),
    Cost(Costed, u32),
}
