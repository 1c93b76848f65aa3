//! For each node the first that lists it.

ghost use Rattle.std.specs.Prelude.{◌≡◌, ◌<◌, length, replicate, take, None, IfOk, IfSome};
ghost use Rattle.std.specs.List.{AllByRecursion};
ghost use Rattle.cert_format.specs.Limits.{IsBelow, IsWithinLimits};
ghost use Rattle.cert_checker.specs.Claiming.{or_first, claimed_all, before, AreListers};
ghost use Rattle.cert_checker.specs.Filling.{lister};

use cert_format::{CertOf, Spelled};
use std::alloc::Global;
use viper_word::Memory;

/// The first of both.
fn or_first(earlier: Option<u32>, number: u32) -> Option<u32>
    ensures { result ≡ or_first earlier number }
{
    match earlier {
        None => Some(number),
        Some(first) => Some(first),
    }
}

/// Lets the node of that number be the lister of each of the listed that has none yet.
#[tactic(auto, unfolding(crate::specs::Claiming::claimed_all))]
fn claim(listers: &mut [Option<u32>], number: u32, listed: &[u32])
    requires { AllByRecursion (IsBelow (length listers.old)) listed.now }
    ensures claimed { listers.new ≡ claimed_all number listers.old listed.now }
    ensures count { length listers.new ≡ length listers.old }
{
    match listed {
        [] => (),
        [first, others @ ..] => {
            let slot = *first as usize;
            listers[slot] = or_first(listers[slot], number);
            claim(listers, number, others);
        }
    }
}

/// So many nodes without a lister.
fn unlisted(alloc: Global, count: u32) -> Result<Vec<Option<u32>>, Memory>
    ensures { IfOk result (λ v. v.items ≡ replicate count None) }
{
    let mut listers = Vec::new(alloc);
    for _ in 0..count {
        match listers.push(None) {
            Ok(()) => (),
            Err(_) => return Err(Memory),
        }
    }
    Ok(listers)
}

/// Lets each node be the lister of those that it lists and that have none yet. At first none has
/// one.
fn claim_all<D: Spelled>(cert: &CertOf<D>, listers: &mut [Option<u32>])
    requires limits { IsWithinLimits cert.now }
    requires none { listers.old ≡ replicate (length cert.now.nodes) None }
    ensures { AreListers (length cert.now.nodes) cert.now.nodes listers.new }
{
    for i in 0..cert.len() {
        claim(listers, i, cert.succ(i));
    }
}

/// The first lister of each node, by its number. `Memory` for want of memory.
pub(crate) fn listers<D: Spelled>(
    alloc: Global,
    cert: &CertOf<D>,
) -> Result<Vec<Option<u32>>, Memory>
    requires { IsWithinLimits cert.now }
    ensures { IfOk result (λ v. AreListers (length cert.now.nodes) cert.now.nodes v.items) }
{
    let mut listers = unlisted(alloc, cert.len())?;
    claim_all(cert, listers.as_mut_slice());
    Ok(listers)
}

/// The lister, if it stands before the node of that number.
fn before(number: u32, lister: Option<u32>) -> Option<u32>
    ensures { result ≡ before number lister }
{
    match lister {
        None => None,
        Some(first) => { if first < number { Some(first) } else { None } }
    }
}

/// The first of the nodes before the node of that number that lists it.
pub(crate) fn first_before<D: Spelled>(
    cert: &CertOf<D>,
    listers: &[Option<u32>],
    i: u32,
) -> Option<u32>
    requires listers { AreListers (length cert.now.nodes) cert.now.nodes listers.now }
    requires node { i < length cert.now.nodes }
    ensures first { result ≡ lister i 0 (take i cert.now.nodes) }
    ensures before { IfSome result (λ j. j < i) }
{
    before(i, listers[i as usize])
}
