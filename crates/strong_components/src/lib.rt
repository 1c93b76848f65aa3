//! Strongly connected components of a graph over numbered keys.
//!
//! The search is the path-based one of Gabow, without recursion. docs/METHOD.md, "Components and
//! nests", says what it keeps.
#![tactic(auto)]

mod components;
mod edge;
mod laws;
mod search;

pub use components::{Components, components_of};
pub use edge::Edge;
pub use laws::components_are_one;
pub use search::Mark;
