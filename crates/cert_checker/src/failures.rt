//! The first condition that fails: of the cells, of the starts, of the nodes.

ghost use Rattle.std.specs.Prelude.{◌≡◌, ◌<◌, length, slice_get};
ghost use Rattle.std.specs.List.{list_any, AllByRecursion};
ghost use Rattle.abs_step.specs.Starts.{start_fact};
ghost use Rattle.cert_format.specs.Certificates.{node_at};
ghost use Rattle.cert_format.specs.Limits.{IsBelow};
ghost use Rattle.cert_checker.specs.Judged.{IsJudged};
ghost use Rattle.cert_checker.specs.Conditions.{is_data, covers_start, is_start_covered};
ghost use Rattle.cert_checker.specs.Verdicts.{first_of, cell_refusal, start_refusal, node_refusal};
ghost use Rattle.cert_checker.specs.Verdicts.{first_failure};

use crate::node::node_fault;
use crate::reading::known;
use crate::verdict::{Place, Refusal};
use abs_step::{Cond, Scratch, start_fact};
use cert_format::{CertOf, Spelled};
use flag_relation::Fact;
use memory_plan::{Plan, Start};
use viper_word::Addr;

/// The first cell that is no word of data.
fn first_cell(plan: &Plan, cells: &[Addr]) -> Option<Refusal>
    ensures { result ≡ first_of (cell_refusal plan.now) 0 cells.now }
{
    for (i, cell) in cells.iter().enumerate() {
        if plan.data_range(*cell).is_none() {
            return Some(Refusal {
                place: Place::Cell(i as u64),
                addr: *cell,
                cond: Cond::H1,
            });
        }
    }
    None
}

/// Does the node of the number cover the start, whose fact this is?
#[tactic(auto, using(crate::proofs::Places::node_there))]
fn covers<D: Spelled>(plan: &Plan, cert: &CertOf<D>, start: &Start, fact: &Fact<D>, j: u32) -> bool
    requires judged { IsJudged cert.now }
    requires node { j < length cert.now.nodes }
    requires cells { length fact.now.cells ≡ length cert.now.cells }
    requires fact { fact.now ≡ start_fact D.domain plan.now cert.now.cells start.now }
    ensures { result ≡ covers_start D.domain plan.now cert.now.cells start.now
        (slice_get cert.now.nodes j) }
{
    cert.addr(j) == start.at && known(cert, j).includes(fact)
}

/// Does a listed node cover the start, whose fact this is?
fn is_covered<D: Spelled>(
    plan: &Plan,
    cert: &CertOf<D>,
    start: &Start,
    fact: &Fact<D>,
    listed: &[u32],
) -> bool
    requires judged { IsJudged cert.now }
    requires listed { AllByRecursion (IsBelow (length cert.now.nodes)) listed.now }
    requires cells { length fact.now.cells ≡ length cert.now.cells }
    requires fact { fact.now ≡ start_fact D.domain plan.now cert.now.cells start.now }
    ensures { result ≡ is_start_covered D.domain plan.now cert.now.cells cert.now.nodes listed.now
        start.now }
{
    match listed {
        [] => false,
        [first, others @ ..] => {
            covers(plan, cert, start, fact, *first) || is_covered(plan, cert, start, fact, others)
        }
    }
}

/// The first start that no listed node covers. `fact` is room for as many cells.
fn first_start<D: Spelled>(
    plan: &Plan,
    cert: &CertOf<D>,
    starts: &[Start],
    fact: &mut Fact<D>,
) -> Option<Refusal>
    requires judged { IsJudged cert.now }
    requires room { length fact.old.cells ≡ length cert.now.cells }
    ensures { result ≡ first_of (start_refusal D.domain plan.now cert.now) 0 starts.now }
{
    for (i, start) in starts.iter().enumerate() {
        start_fact(plan, cert.cells(), start, fact);
        if !is_covered(plan, cert, start, fact, cert.starts()) {
            return Some(Refusal {
                place: Place::Start(i as u64),
                addr: start.at,
                cond: Cond::H2,
            });
        }
    }
    None
}

/// The first node at which a condition fails.
fn first_node<D: Spelled>(
    plan: &Plan,
    cert: &CertOf<D>,
    price: u32,
    scratch: &mut Scratch<D>,
) -> Option<Refusal>
    requires judged { IsJudged cert.now }
    requires room { scratch.old.cells ≡ length cert.now.cells }
    ensures { result ≡ first_of (node_refusal D.domain plan.now (λ _. price) cert.now) 0
        cert.now.nodes }
{
    for i in 0..cert.len() {
        if let Some(cond) = node_fault(plan, cert, i, price, scratch) {
            return Some(Refusal {
                place: Place::Node(u64::from(i)),
                addr: cert.addr(i),
                cond,
            });
        }
    }
    None
}

/// The first condition that fails: the cells in order, then the starts, then the nodes. `fact` and
/// `scratch` are room for as many cells.
pub(crate) fn first_failure<D: Spelled>(
    plan: &Plan,
    cert: &CertOf<D>,
    price: u32,
    fact: &mut Fact<D>,
    scratch: &mut Scratch<D>,
) -> Option<Refusal>
    requires judged { IsJudged cert.now }
    requires fact { length fact.old.cells ≡ length cert.now.cells }
    requires room { scratch.old.cells ≡ length cert.now.cells }
    ensures { result ≡ first_failure D.domain plan.now (λ _. price) cert.now }
{
    if let Some(refusal) = first_cell(plan, cert.cells()) {
        return Some(refusal);
    }
    if let Some(refusal) = first_start(plan, cert, plan.starts(), fact) {
        return Some(refusal);
    }
    first_node(plan, cert, price, scratch)
}
