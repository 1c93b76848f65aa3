//! Worked programs through the abstract step and the search, at `Val`.
//!
//! The crates of the step and of the search know no domain. Here they are run over values, on
//! programs whose outcomes, facts and refusals were computed outside. There is no code but tests.
#![tactic(auto)]

#[cfg(test)]
mod facts;
#[cfg(test)]
mod outcomes;
#[cfg(test)]
mod solutions;
