//! Which candidates rank the components of a graph, level by level: the shape of a nest, which is
//! a lexicographic ranking function without its numbers, or a set of edges that is stuck.
//!
//! docs/METHOD.md, "Components and nests", has the rules in words, with an example.
#![tactic(auto)]

mod fits;
mod moves;
mod parts;
mod shape;

pub use moves::Moves;
pub use parts::inside_parts;
pub use shape::{first_stuck, ranked};
