//! What the checker answers.

use abs_step::Cond;
use viper_word::Addr;

/// Where a condition fails, counted from 0.
#[derive(Clone, Copy, Debug, PartialEq, Eq)]
pub enum Place {
    /// The certificate's cell of that number.
    Cell(u64),
    /// The plan's start line of that number.
    Start(u64),
    /// The certificate's node of that number.
    Node(u64),
}

/// What a yes says of a marker. docs/METHOD.md, "The whole checker".
#[derive(Clone, Copy, Debug, PartialEq, Eq)]
pub enum Bound {
    /// From it the next marker is met within so many instructions.
    Within(u64),
    /// No run comes there.
    Unreached,
}

/// A condition that fails, its place, and the address of that cell, start or node.
#[derive(Clone, Copy, Debug, PartialEq, Eq)]
pub struct Refusal {
    pub place: Place,
    pub addr: Addr,
    pub cond: Cond,
}

/// What the checker says. docs/METHOD.md, "The whole checker".
#[derive(Debug, Drop)]
pub enum Verdict {
    /// All local conditions hold. Each marker of the plan, in its order, with its bound.
    Yes(Vec<(Addr, Bound)>),
    /// The first condition that fails.
    No(Refusal),
}
