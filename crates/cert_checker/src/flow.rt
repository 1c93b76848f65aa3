//! The conditions of a node with its successors and its rank: C8 to C11.

ghost use Rattle.std.specs.Prelude.{◌≡◌, ◌<◌, ◌||◌, length, option_map, slice_get, IfSome};
ghost use Rattle.std.specs.List.{list_all};
ghost use Rattle.memory_plan.specs.Plans.{is_marker};
ghost use Rattle.abs_step.specs.Places.{HasCells, AllHaveCells};
ghost use Rattle.cert_format.specs.Certificates.{node_at};
ghost use Rattle.cert_checker.specs.Judged.{IsJudged};
ghost use Rattle.cert_checker.specs.Nodes.{successor};
ghost use Rattle.cert_checker.specs.Conditions.{includes_after, c8, c9, falls_to, c10, c11};
ghost use Rattle.cert_checker.specs.Conditions.{first_in_flow, flow_fault};

use crate::reading::{known, listed};
use crate::successors::{are_distinct, successor};
use abs_step::{Cond, Outcome};
use cert_format::{CertOf, Spelled};
use flag_relation::Form;
use memory_plan::Plan;
use rank_form::{falls_by, lower, upper};

/// The greatest number that a marker's rank may have.
pub(crate) const MOST_BOUND: i128 = 0x7FFF_FFFF_FFFF_FFFF;

/// Does the node of the number, if there is one, include what is known after the outcome?
fn includes_after<D: Spelled>(cert: &CertOf<D>, out: &Outcome<D>, m: Option<u32>) -> bool
    requires judged { IsJudged cert.now }
    requires cells { HasCells (length cert.now.cells) out.now }
    requires node { IfSome m (λ j. j < length cert.now.nodes) }
    ensures { result ≡ includes_after D.domain cert.now.cells out.now
        (option_map (λ j. node_at cert.now j) m) }
{
    match m {
        None => false,
        Some(m) => known(cert, m).includes(&out.after),
    }
}

/// Has each outcome a successor that includes what is known after it?
fn are_included<D: Spelled>(cert: &CertOf<D>, i: u32, outs: &[Outcome<D>]) -> bool
    requires judged { IsJudged cert.now }
    requires cells { AllHaveCells (length cert.now.cells) outs.now }
    requires node { i < length cert.now.nodes }
    ensures { result ≡ list_all (λ o. includes_after D.domain cert.now.cells o
        (successor cert.now.nodes (node_at cert.now i).succ o.target)) outs.now }
{
    match outs {
        [] => true,
        [first, others @ ..] => {
            let next = successor(cert, listed(cert, i), first.target);
            includes_after(cert, first, next) && are_included(cert, i, others)
        }
    }
}

/// Falls the rank of the node by the price to that of the node of the number, if there is one?
fn falls_to<D: Spelled>(
    plan: &Plan,
    cert: &CertOf<D>,
    i: u32,
    rank: &Form,
    price: u32,
    out: &Outcome<D>,
    m: Option<u32>,
) -> bool
    requires cells { HasCells (length cert.now.cells) out.now }
    requires node { i < length cert.now.nodes }
    requires rank { rank.now ≡ (node_at cert.now i).rank }
    requires next { IfSome m (λ j. j < length cert.now.nodes) }
    ensures { result ≡ falls_to D.domain plan.now cert.now.cells (λ _. price) (node_at cert.now i)
        out.now (option_map (λ j. node_at cert.now j) m) }
{
    match m {
        None => false,
        Some(m) => falls_by(rank, &cert.rank(m), out, price),
    }
}

/// Falls the rank of the node by the price over each outcome that doesn't lead into a marker?
fn do_fall<D: Spelled>(
    plan: &Plan,
    cert: &CertOf<D>,
    i: u32,
    rank: &Form,
    price: u32,
    outs: &[Outcome<D>],
) -> bool
    requires judged { IsJudged cert.now }
    requires cells { AllHaveCells (length cert.now.cells) outs.now }
    requires node { i < length cert.now.nodes }
    requires rank { rank.now ≡ (node_at cert.now i).rank }
    ensures { result ≡ list_all (λ o. is_marker plan.now o.target
        || falls_to D.domain plan.now cert.now.cells (λ _. price) (node_at cert.now i) o
        (successor cert.now.nodes (node_at cert.now i).succ o.target)) outs.now }
{
    match outs {
        [] => true,
        [first, others @ ..] => {
            let next = successor(cert, listed(cert, i), first.target);
            (plan.is_marker(first.target) || falls_to(plan, cert, i, rank, price, first, next))
                && do_fall(plan, cert, i, rank, price, others)
        }
    }
}

/// Is the rank of a node at a marker at most 2^63 - 1? True of each other node.
#[tactic(auto, unfolding(crate::specs::Conditions::c11))]
fn fits<D: Spelled>(plan: &Plan, cert: &CertOf<D>, i: u32, rank: &Form) -> bool
    requires judged { IsJudged cert.now }
    requires node { i < length cert.now.nodes }
    requires rank { rank.now ≡ (node_at cert.now i).rank }
    ensures { result ≡ c11 D.domain plan.now cert.now.cells (node_at cert.now i) }
{
    !plan.is_marker(cert.addr(i)) || upper(rank, known(cert, i)) <= MOST_BOUND
}

/// The first of C8 to C11 that fails at the node, whose outcomes these are, whatever its fact.
#[tactic(auto, unfolding(crate::specs::Conditions::c8, crate::specs::Conditions::c9, crate::specs::Conditions::c10))]
fn first_in_flow<D: Spelled>(
    plan: &Plan,
    cert: &CertOf<D>,
    i: u32,
    price: u32,
    outs: &[Outcome<D>],
) -> Option<Cond>
    requires judged { IsJudged cert.now }
    requires cells { AllHaveCells (length cert.now.cells) outs.now }
    requires node { i < length cert.now.nodes }
    ensures { result ≡ first_in_flow D.domain plan.now cert.now.cells (λ _. price) cert.now.nodes
        (node_at cert.now i) outs.now }
{
    if !(are_distinct(cert, listed(cert, i)) && are_included(cert, i, outs)) {
        return Some(Cond::C8);
    }
    let rank = cert.rank(i);
    if lower(&rank, known(cert, i)) < i128::from(price) {
        return Some(Cond::C9);
    }
    if !do_fall(plan, cert, i, &rank, price, outs) {
        return Some(Cond::C10);
    }
    if !fits(plan, cert, i, &rank) {
        return Some(Cond::C11);
    }
    None
}

/// The first of C8 to C11 that fails at the node, whose outcomes these are. All hold of an empty
/// fact; whether it is empty is asked only where one fails.
#[tactic(auto, unfolding(crate::specs::Conditions::flow_fault))]
pub(crate) fn flow_fault<D: Spelled>(
    plan: &Plan,
    cert: &CertOf<D>,
    i: u32,
    price: u32,
    outs: &[Outcome<D>],
) -> Option<Cond>
    requires judged { IsJudged cert.now }
    requires cells { AllHaveCells (length cert.now.cells) outs.now }
    requires node { i < length cert.now.nodes }
    ensures { result ≡ flow_fault D.domain plan.now cert.now.cells (λ _. price) cert.now.nodes
        (node_at cert.now i) outs.now }
{
    let fault = first_in_flow(plan, cert, i, price, outs)?;
    if known(cert, i).is_empty() {
        None
    } else {
        Some(fault)
    }
}
