//! A certificate that is built from another, node by node.

ghost use Rattle.std.specs.Prelude.{◌≡◌, ◌<◌, [], length, Some, None, IfOk, OnOk};
ghost use Rattle.cert_format.specs.Certificates.{node_at, with_node};
ghost use Rattle.cert_format.specs.declared.limits.TheConstants.{MOST_NODES};

use cert_format::{CertOf, Spelled};
use flag_relation::Fact;
use std::alloc::Global;
use viper_word::Memory;

/// The cells and start nodes of a certificate, without a node.
pub(crate) fn without_nodes<D: Spelled>(
    alloc: Global,
    cert: &CertOf<D>,
) -> Result<CertOf<D>, Memory>
    ensures { IfOk result (λ c. c ≡ record cert.now { nodes = [] }) }
{
    let cells = Vec::from_slice(alloc, cert.cells())?;
    let starts = Vec::from_slice(alloc, cert.starts())?;
    Ok(CertOf::new(alloc, cells, starts))
}

/// Appends the node of that number with the fact.
pub(crate) fn push_known<D: Spelled>(
    alloc: Global,
    cert: &CertOf<D>,
    i: u32,
    fact: &Fact<D>,
    done: &mut CertOf<D>,
) -> Result<(), Memory>
    requires node { i < length cert.now.nodes }
    requires room { length done.old.nodes < MOST_NODES }
    requires cells { length fact.now.cells ≡ length done.old.cells }
    ensures { OnOk result (done.new
        ≡ with_node done.old (record (node_at cert.now i) { fact = Some fact.now })) }
{
    let succ = Vec::from_slice(alloc, cert.succ(i))?;
    done.push(cert.addr(i), fact, succ, cert.rank(i))
}

/// Appends the node of that number as a bare one.
pub(crate) fn push_bare<D: Spelled>(
    alloc: Global,
    cert: &CertOf<D>,
    i: u32,
    done: &mut CertOf<D>,
) -> Result<(), Memory>
    requires node { i < length cert.now.nodes }
    requires room { length done.old.nodes < MOST_NODES }
    ensures { OnOk result (done.new
        ≡ with_node done.old (record (node_at cert.now i) { fact = None })) }
{
    let succ = Vec::from_slice(alloc, cert.succ(i))?;
    done.push_bare(cert.addr(i), succ, cert.rank(i))
}
