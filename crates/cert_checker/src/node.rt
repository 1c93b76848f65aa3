//! All conditions of a node.

ghost use Rattle.std.specs.Prelude.{◌≡◌, ◌<◌, length};
ghost use Rattle.cert_format.specs.Certificates.{node_at};
ghost use Rattle.cert_checker.specs.Judged.{IsJudged};
ghost use Rattle.cert_checker.specs.Conditions.{node_fault};

use crate::flow::flow_fault;
use crate::reading::known;
use abs_step::{Cond, Scratch, outcomes};
use cert_format::{CertOf, Spelled};
use memory_plan::Plan;

/// The first of C1 to C11 that fails at the node of that number; None exactly where all hold. The
/// certificate is within its limits and has no bare node; `scratch` is room for as many cells.
/// Takes no memory. docs/METHOD.md, "The whole checker".
pub fn check_node<D: Spelled>(
    plan: &Plan,
    cert: &CertOf<D>,
    node: u32,
    scratch: &mut Scratch<D>,
) -> Option<Cond>
    requires judged { IsJudged cert.now }
    requires node { node < length cert.now.nodes }
    requires room { scratch.old.cells ≡ length cert.now.cells }
    ensures fault { result ≡ node_fault D.domain plan.now cert.now.cells (λ _. 1) cert.now.nodes
        (node_at cert.now node) }
    ensures room { scratch.new.cells ≡ scratch.old.cells }
{
    node_fault(plan, cert, node, 1, scratch)
}

/// The first of C1 to C11 that fails at the node, whose instruction has that price.
#[tactic(auto, unfolding(crate::specs::Conditions::node_fault))]
pub(crate) fn node_fault<D: Spelled>(
    plan: &Plan,
    cert: &CertOf<D>,
    node: u32,
    price: u32,
    scratch: &mut Scratch<D>,
) -> Option<Cond>
    requires judged { IsJudged cert.now }
    requires node { node < length cert.now.nodes }
    requires room { scratch.old.cells ≡ length cert.now.cells }
    ensures fault { result ≡ node_fault D.domain plan.now cert.now.cells (λ _. price)
        cert.now.nodes (node_at cert.now node) }
    ensures room { scratch.new.cells ≡ scratch.old.cells }
{
    if let Err(cond) = outcomes(
        plan,
        cert.cells(),
        cert.addr(node),
        known(cert, node),
        scratch,
    ) {
        return Some(cond);
    }
    flow_fault(plan, cert, node, price, scratch.outcomes_in())
}
