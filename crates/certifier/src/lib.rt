//! The certifier: from a plan to its certificate, or a refusal that is true of the plan.
//!
//! The certificate is that of the least solution of the plan: a node for each of its keys, ranked
//! by the nest of the solution's graph, and bare where its fact follows from another node. It is
//! checked before it is handed out. docs/METHOD.md, "The certificate of a plan", has the rules in
//! words.
#![tactic(auto)]

mod certifying;
mod fault;
mod making;

pub use certifying::{Certified, certify};
pub use fault::CertifyFault;

#[cfg(test)]
mod tests;
