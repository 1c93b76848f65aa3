//! Bare nodes get the fact that follows where they are listed.

ghost use Rattle.std.specs.Prelude.{◌≡◌, ◌<◌, ◌+◌, length, take, IfOk, IfSome, OnOk};
ghost use Rattle.std.specs.List.{list_any, AllByRecursion};
ghost use Rattle.flag_relation.specs.Facts.{unknown};
ghost use Rattle.cert_format.specs.Certificates.{node_at, is_bare};
ghost use Rattle.cert_format.specs.Limits.{IsWithinLimits};
ghost use Rattle.cert_checker.specs.Judged.{IsFull, IsJudged};
ghost use Rattle.cert_checker.specs.Filling.{lister, follows_from, own_or_follows};
ghost use Rattle.cert_checker.specs.Filling.{filled_nodes, filled};

use crate::building::{push_known, without_nodes};
use crate::following::follow;
use crate::listers::{first_before, listers};
use crate::reading::full_fact;
use abs_step::Scratch;
use cert_format::{CertOf, Spelled};
use flag_relation::Fact;
use memory_plan::Plan;
use std::alloc::Global;
use viper_word::{Addr, Memory};

/// Has the certificate a bare node?
pub(crate) fn has_bare<D: Spelled>(cert: &CertOf<D>) -> bool
    ensures { result ≡ list_any is_bare cert.now.nodes }
{
    for i in 0..cert.len() {
        if cert.is_bare(i) {
            return true;
        }
    }
    false
}

/// Makes the fact what follows at the address from the node of the number, which was filled; `top`
/// where there is none.
fn follow_from<D: Spelled>(
    plan: &Plan,
    done: &CertOf<D>,
    first: Option<u32>,
    at: Addr,
    top: &Fact<D>,
    scratch: &mut Scratch<D>,
    fact: &mut Fact<D>,
)
    requires full { AllByRecursion IsFull done.now.nodes }
    requires first { IfSome first (λ j. j < length done.now.nodes) }
    requires top { top.now ≡ unknown D.domain (length done.now.cells) }
    requires top_count { length top.now.cells ≡ length done.now.cells }
    requires scratch { scratch.old.cells ≡ length done.now.cells }
    requires count { length fact.old.cells ≡ length done.now.cells }
    ensures follows { fact.new
        ≡ follows_from D.domain plan.now done.now done.now.nodes at first }
    ensures count { length fact.new.cells ≡ length done.now.cells }
    ensures scratch { scratch.new.cells ≡ scratch.old.cells }
{
    match first {
        None => fact.copy_from(top),
        Some(j) => {
            let known = full_fact(done, j);
            follow(
                plan,
                done.cells(),
                done.addr(j),
                known,
                at,
                top,
                scratch,
                fact,
            );
        }
    }
}

/// Makes the fact that of the node of the number, or what follows where it is listed. The nodes
/// before it were filled, and `first` is the first of them that lists it.
fn fill_fact<D: Spelled>(
    plan: &Plan,
    cert: &CertOf<D>,
    i: u32,
    done: &CertOf<D>,
    first: Option<u32>,
    top: &Fact<D>,
    scratch: &mut Scratch<D>,
    fact: &mut Fact<D>,
)
    requires limits { IsWithinLimits cert.now }
    requires node { i < length cert.now.nodes }
    requires cells { done.now.cells ≡ cert.now.cells }
    requires full { AllByRecursion IsFull done.now.nodes }
    requires first { first ≡ lister i 0 (take i cert.now.nodes) }
    requires before { IfSome first (λ j. j < length done.now.nodes) }
    requires top { top.now ≡ unknown D.domain (length done.now.cells) }
    requires top_count { length top.now.cells ≡ length done.now.cells }
    requires scratch { scratch.old.cells ≡ length done.now.cells }
    requires count { length fact.old.cells ≡ length done.now.cells }
    ensures fact { fact.new ≡ own_or_follows D.domain plan.now cert.now done.now.nodes i
        (node_at cert.now i).addr (node_at cert.now i).fact }
    ensures count { length fact.new.cells ≡ length done.now.cells }
    ensures scratch { scratch.new.cells ≡ scratch.old.cells }
{
    if cert.is_bare(i) {
        follow_from(plan, done, first, cert.addr(i), top, scratch, fact);
    } else {
        fact.copy_from(cert.fact(i));
    }
}

/// Appends the node of the number, filled. The nodes before it were filled, and `first` is the
/// first of them that lists it.
fn fill_next<D: Spelled>(
    alloc: Global,
    plan: &Plan,
    cert: &CertOf<D>,
    i: u32,
    first: Option<u32>,
    top: &Fact<D>,
    scratch: &mut Scratch<D>,
    fact: &mut Fact<D>,
    done: &mut CertOf<D>,
) -> Result<(), Memory>
    requires limits { IsWithinLimits cert.now }
    requires node { i < length cert.now.nodes }
    requires done { done.old
        ≡ record cert.now { nodes = filled_nodes D.domain plan.now cert.now i } }
    requires first { first ≡ lister i 0 (take i cert.now.nodes) }
    requires before { IfSome first (λ j. j < i) }
    requires top { top.now ≡ unknown D.domain (length cert.now.cells) }
    requires top_count { length top.now.cells ≡ length cert.now.cells }
    requires scratch { scratch.old.cells ≡ length cert.now.cells }
    requires count { length fact.old.cells ≡ length cert.now.cells }
    ensures done { OnOk result (done.new
        ≡ record cert.now { nodes = filled_nodes D.domain plan.now cert.now (i + 1) }) }
    ensures count { length fact.new.cells ≡ length cert.now.cells }
    ensures scratch { scratch.new.cells ≡ scratch.old.cells }
{
    fill_fact(plan, cert, i, done, first, top, scratch, fact);
    push_known(alloc, cert, i, fact, done)
}

/// The certificate without bare nodes: each of them has the fact that follows from the first node
/// before it that lists it, and `top` where none follows. `Memory` for want of memory.
/// docs/METHOD.md, "The whole checker".
pub fn fill<D: Spelled>(alloc: Global, plan: &Plan, cert: &CertOf<D>) -> Result<CertOf<D>, Memory>
    requires limits { IsWithinLimits cert.now }
    ensures filled { IfOk result (λ f. f ≡ filled D.domain plan.now cert.now) }
    ensures judged { IfOk result (λ f. IsJudged f) }
{
    let cells = cert.cells().len() as u8;
    let top = Fact::new(alloc, cells)?;
    let mut fact = Fact::new(alloc, cells)?;
    let mut scratch = Scratch::new(alloc, cells)?;
    let listers = listers(alloc, cert)?;
    let mut done = without_nodes(alloc, cert)?;
    for i in 0..cert.len() {
        let first = first_before(cert, listers.as_slice(), i);
        fill_next(
            alloc,
            plan,
            cert,
            i,
            first,
            &top,
            &mut scratch,
            &mut fact,
            &mut done,
        )?;
    }
    done.len();
    Ok(done)
}
