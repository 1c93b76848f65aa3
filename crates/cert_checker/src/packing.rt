//! Nodes become bare whose facts follow where they are listed.

ghost use Rattle.std.specs.Prelude.{◌≡◌, ◌<◌, ◌+◌, true, length, take, IfOk, IfSome, OnOk};
ghost use Rattle.std.specs.List.{list_all};
ghost use Rattle.flag_relation.specs.Facts.{unknown};
ghost use Rattle.cert_format.specs.Bare.{AreRightlyBare};
ghost use Rattle.cert_format.specs.Certificates.{node_at, with_node};
ghost use Rattle.cert_format.specs.Limits.{IsWithinLimits};
ghost use Rattle.cert_format.specs.Marks.{AreMarks};
ghost use Rattle.cert_format.specs.declared.limits.TheConstants.{MOST_NODES};
ghost use Rattle.cert_checker.specs.Judged.{IsJudged};
ghost use Rattle.cert_checker.specs.Conditions.{is_data, known};
ghost use Rattle.cert_checker.specs.Filling.{lister};
ghost use Rattle.cert_checker.specs.Packing.{are_equal, bare_if, is_from, is_told};
ghost use Rattle.cert_checker.specs.Packing.{packed_nodes, packed};

use crate::building::{push_bare, push_known, without_nodes};
use crate::following::{are_data, arrive};
use crate::listers::{first_before, listers};
use crate::marks::{marks, may_be_bare};
use crate::reading::known;
use abs_step::{Scratch, outcomes};
use cert_format::{CertOf, Spelled};
use flag_relation::Fact;
use memory_plan::Plan;
use num_domain::NumDomain;
use std::alloc::Global;
use viper_word::Memory;

/// Are the facts equal? Each then includes the other.
fn are_equal<D: NumDomain>(fact: &Fact<D>, other: &Fact<D>) -> bool
    requires { length fact.now.cells ≡ length other.now.cells }
    ensures { result ≡ are_equal D.domain fact.now other.now }
{
    fact.includes(other) && other.includes(fact)
}

/// Does no condition fail at the node `from`, and is the fact of node `i` what follows from there?
/// All cells are data. `fact` is room for what follows.
#[tactic(auto, unfolding(crate::specs::Filling::follows))]
fn is_from_node<D: Spelled>(
    plan: &Plan,
    cert: &CertOf<D>,
    i: u32,
    from: u32,
    top: &Fact<D>,
    scratch: &mut Scratch<D>,
    fact: &mut Fact<D>,
) -> bool
    requires judged { IsJudged cert.now }
    requires node { i < length cert.now.nodes }
    requires from { from < length cert.now.nodes }
    requires all_data { list_all (λ a. is_data plan.now a) cert.now.cells ≡ true }
    requires top { top.now ≡ unknown D.domain (length cert.now.cells) }
    requires top_count { length top.now.cells ≡ length cert.now.cells }
    requires scratch { scratch.old.cells ≡ length cert.now.cells }
    requires count { length fact.old.cells ≡ length cert.now.cells }
    ensures is { result ≡ is_from D.domain plan.now cert.now
        (known D.domain cert.now.cells (node_at cert.now i)) (node_at cert.now i).addr (Some from) }
    ensures count { length fact.new.cells ≡ length cert.now.cells }
    ensures scratch { scratch.new.cells ≡ scratch.old.cells }
{
    let before = known(cert, from);
    match outcomes(plan, cert.cells(), cert.addr(from), before, scratch) {
        Ok(()) => {
            arrive(cert.cells(), cert.addr(i), scratch.outcomes_in(), top, fact);
            are_equal(known(cert, i), fact)
        }
        Err(_) => false,
    }
}

/// Is the fact of node `i` what follows from the node of that number, if there is one?
fn is_from<D: Spelled>(
    plan: &Plan,
    cert: &CertOf<D>,
    i: u32,
    first: Option<u32>,
    top: &Fact<D>,
    scratch: &mut Scratch<D>,
    fact: &mut Fact<D>,
) -> bool
    requires judged { IsJudged cert.now }
    requires node { i < length cert.now.nodes }
    requires first { IfSome first (λ j. j < length cert.now.nodes) }
    requires top { top.now ≡ unknown D.domain (length cert.now.cells) }
    requires top_count { length top.now.cells ≡ length cert.now.cells }
    requires scratch { scratch.old.cells ≡ length cert.now.cells }
    requires count { length fact.old.cells ≡ length cert.now.cells }
    ensures is { result ≡ is_from D.domain plan.now cert.now
        (known D.domain cert.now.cells (node_at cert.now i)) (node_at cert.now i).addr first }
    ensures count { length fact.new.cells ≡ length cert.now.cells }
    ensures scratch { scratch.new.cells ≡ scratch.old.cells }
{
    let Some(from) = first else {
        return false;
    };
    if !are_data(plan, cert.cells()) {
        return false;
    }
    is_from_node(plan, cert, i, from, top, scratch, fact)
}

/// May the node of that number be bare, and is its fact what follows from the node that lists it?
fn is_told<D: Spelled>(
    plan: &Plan,
    cert: &CertOf<D>,
    marks: &[u8],
    i: u32,
    first: Option<u32>,
    top: &Fact<D>,
    scratch: &mut Scratch<D>,
    fact: &mut Fact<D>,
) -> bool
    requires judged { IsJudged cert.now }
    requires marks { AreMarks marks.now cert.now }
    requires node { i < length cert.now.nodes }
    requires first { first ≡ lister i 0 (take i cert.now.nodes) }
    requires within { IfSome first (λ j. j < length cert.now.nodes) }
    requires top { top.now ≡ unknown D.domain (length cert.now.cells) }
    requires top_count { length top.now.cells ≡ length cert.now.cells }
    requires scratch { scratch.old.cells ≡ length cert.now.cells }
    requires count { length fact.old.cells ≡ length cert.now.cells }
    ensures is { result ≡ is_told D.domain plan.now cert.now i (node_at cert.now i) }
    ensures count { length fact.new.cells ≡ length cert.now.cells }
    ensures scratch { scratch.new.cells ≡ scratch.old.cells }
{
    if !may_be_bare(cert, marks, i) {
        return false;
    }
    is_from(plan, cert, i, first, top, scratch, fact)
}

/// Appends the node of that number, without its fact if so.
fn push_packed<D: Spelled>(
    alloc: Global,
    cert: &CertOf<D>,
    i: u32,
    bare: bool,
    done: &mut CertOf<D>,
) -> Result<(), Memory>
    requires judged { IsJudged cert.now }
    requires node { i < length cert.now.nodes }
    requires room { length done.old.nodes < MOST_NODES }
    requires cells { done.old.cells ≡ cert.now.cells }
    ensures { OnOk result (done.new ≡ with_node done.old (bare_if bare (node_at cert.now i))) }
{
    if bare {
        push_bare(alloc, cert, i, done)
    } else {
        push_known(alloc, cert, i, known(cert, i), done)
    }
}

/// Appends the node of the number, packed: bare, if so. The nodes before it were packed.
fn pack_next<D: Spelled>(
    alloc: Global,
    plan: &Plan,
    cert: &CertOf<D>,
    i: u32,
    bare: bool,
    done: &mut CertOf<D>,
) -> Result<(), Memory>
    requires judged { IsJudged cert.now }
    requires node { i < length cert.now.nodes }
    requires done { done.old ≡ record cert.now {
      nodes = packed_nodes D.domain plan.now cert.now 0 (take i cert.now.nodes);
    } }
    requires bare { bare ≡ is_told D.domain plan.now cert.now i (node_at cert.now i) }
    ensures { OnOk result (done.new ≡ record cert.now {
      nodes = packed_nodes D.domain plan.now cert.now 0 (take (i + 1) cert.now.nodes);
    }) }
{
    push_packed(alloc, cert, i, bare, done)?;
    Ok(())
}

/// The certificate in which each node is bare that may be, and whose fact is what follows where it
/// is listed, if no condition fails there. `fill` gives the certificate back. `Memory` for want of
/// memory. docs/METHOD.md, "The whole checker".
pub fn pack<D: Spelled>(alloc: Global, plan: &Plan, cert: &CertOf<D>) -> Result<CertOf<D>, Memory>
    requires judged { IsJudged cert.now }
    ensures packed { IfOk result (λ p. p ≡ packed D.domain plan.now cert.now) }
    ensures limits { IfOk result (λ p. IsWithinLimits p) }
    ensures bare { IfOk result (λ p. AreRightlyBare p) }
{
    let cells = cert.cells().len() as u8;
    let top = Fact::new(alloc, cells)?;
    let mut fact = Fact::new(alloc, cells)?;
    let mut scratch = Scratch::new(alloc, cells)?;
    let marks = marks(alloc, cert)?;
    let listers = listers(alloc, cert)?;
    let mut done = without_nodes(alloc, cert)?;
    for i in 0..cert.len() {
        let first = first_before(cert, listers.as_slice(), i);
        let marks = marks.as_slice();
        let bare = is_told(plan, cert, marks, i, first, &top, &mut scratch, &mut fact);
        pack_next(alloc, plan, cert, i, bare, &mut done)?;
    }
    Ok(done)
}
