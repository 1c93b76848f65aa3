//! Ranks of a solution: forms that fall along each edge of its graph, by the graph's nest.
//!
//! docs/METHOD.md, "Ranks of the least solution", has the rules in words.
#![tactic(auto)]

mod candidates;
mod fault;
mod graph;
mod limits;
mod masks;
mod nest;
mod ranks;
mod telling;

pub use fault::{Edge, Level, Nest, RankFault};
pub use nest::rank;
