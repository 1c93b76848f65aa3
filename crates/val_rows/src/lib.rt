//! Worked rows of the layers that are generic over their domain, at `Val`.
//!
//! The crates of facts and of the abstract step know no domain. Here each of their calls is run
//! once over values, on rows that were computed outside. There is no code but tests.
#![tactic(auto)]

#[cfg(test)]
mod facts;
#[cfg(test)]
mod steps;
