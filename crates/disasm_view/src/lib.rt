//! Listings: images as source texts.
#![tactic(auto)]

mod lines;

pub use lines::{line_of, listing};

#[cfg(test)]
mod tests;
