//! Reading a certificate whole.
ghost use Rattle.std.specs.Prelude.{◌≡◌, ◌<◌, ◌≤◌, length, OnOk, IfOk, IfErr, []};
ghost use Rattle.val_dom.specs.declared.val.Val.{Val};
ghost use Rattle.flag_relation.specs.declared.fact.TheConstants.{MOST_CELLS};
ghost use Rattle.cert_format.specs.declared.limits.TheConstants.{MOST_NODES};
ghost use Rattle.cert_format.specs.Certificates.{CertificateOf, with_node};
ghost use Rattle.cert_format.specs.Spelling.{IsCert};
ghost use Rattle.cert_format.specs.Reading.{Reads, many_at};
ghost use Rattle.cert_format.specs.ReadNodes.{placed, placed_at, IsOver};
ghost use Rattle.cert_format.specs.ReadCerts.{magic_at, version_at, tracked_at, gathered};
ghost use Rattle.cert_format.specs.ReadCerts.{MovesOn, heading, heading_at, Gives, ended};
ghost use Rattle.cert_format.specs.ReadCerts.{cert_of, IsFirstFault, IsOrMemory};

use crate::bare::first_bare;
use crate::cert::Cert;
use crate::fault::{CertFault, CertRule, ReadError};
use crate::fields::{below_at, cells_at, count_at, numbers_at};
use crate::given::Given;
use crate::limits::{MAGIC, MOST_NODES, MOST_STARTS};
use crate::read_nodes::{ReadNode, node_at};
use crate::unread::{Unread, broken};
use crate::version::Version;
use flag_relation::MOST_CELLS;
use std::alloc::Global;
use viper_word::{Addr, Memory};

/// The version of a certificate.
#[tactic(auto, unfolding(crate::specs::ReadCerts::version_at))]
fn version_at(input: &mut Unread<'_>) -> Result<Version, ReadError>
    ensures { Reads (λ x. x) result input.new (version_at input.old) }
{
    let left = input.left();
    let number = input.u8()?;
    if number == 1 {
        Ok(Version::One)
    } else if number == 2 {
        Ok(Version::Two)
    } else {
        Err(broken(left, CertRule::Version))
    }
}

/// The addresses of the tracked cells.
#[tactic(auto, unfolding(crate::specs::ReadCerts::tracked_at))]
fn tracked_at(alloc: Global, input: &mut Unread<'_>) -> Result<Vec<Addr>, ReadError>
    ensures { Reads (λ x. x.items) result input.new (tracked_at input.old) }
{
    let count = count_at(MOST_CELLS, input)?;
    cells_at(alloc, count, input)
}

/// Appends a node that was read.
fn add(cert: &mut Cert, node: ReadNode) -> Result<(), Memory>
    requires room { length cert.old.nodes < MOST_NODES }
    requires cells { IsOver (length cert.old.cells) node.fact }
    ensures { OnOk result (cert.new ≡ with_node cert.old (placed node).node) }
{
    let ReadNode {
        addr,
        fact,
        succ,
        rank,
        left: _,
    } = node;
    match fact {
        None => cert.push_bare(addr, succ, rank),
        Some(fact) => cert.push_given(addr, Given::Owned(fact), succ, rank),
    }
}

/// All nodes of a certificate of so many. Gives how many bytes were left after each address.
fn nodes_at(
    alloc: Global,
    version: Version,
    count: u32,
    cert: &mut Cert,
    input: &mut Unread<'_>,
) -> Result<Vec<usize>, ReadError>
    requires few { count ≤ MOST_NODES }
    requires cells { length cert.old.cells ≤ MOST_CELLS }
    requires empty { cert.old.nodes ≡ [] }
    ensures { Reads (λ x. (cert.new, x.items)) result input.new
        (gathered cert.old []
        (many_at (placed_at version (length cert.old.cells) count) count input.old)) }
{
    let cells = cert.cells().len() as u8;
    let mut lefts = Vec::new(alloc);
    for _ in 0..count {
        let node = node_at(alloc, version, cells, count, input)?;
        lefts.push(node.left)?;
        add(cert, node)?;
    }
    Ok(lefts)
}

/// The letters VSBC.
#[tactic(auto, unfolding(crate::specs::ReadCerts::magic_at))]
fn magic_at(input: &mut Unread<'_>) -> Result<(), ReadError>
    ensures { MovesOn result input.new (magic_at input.old) }
{
    let left = input.left();
    let number = input.u32()?;
    if number == MAGIC {
        Ok(())
    } else {
        Err(broken(left, CertRule::Magic))
    }
}

/// What stands before the nodes.
#[derive(Drop)]
struct ReadHeading {
    version: Version,
    cells: Vec<Addr>,
    count: u32,
    starts: Vec<u32>,
}

/// What stands before the nodes.
#[tactic(auto, unfolding(crate::specs::ReadCerts::heading_at))]
fn heading_at(alloc: Global, input: &mut Unread<'_>) -> Result<ReadHeading, ReadError>
    ensures value { Reads heading result input.new (heading_at input.old) }
    ensures cells { IfOk result (λ h. length h.cells.items ≤ MOST_CELLS) }
    ensures count { IfOk result (λ h. h.count ≤ MOST_NODES) }
{
    magic_at(input)?;
    let version = version_at(input)?;
    let cells = tracked_at(alloc, input)?;
    let count = below_at(MOST_NODES + 1, input)?;
    let starts = numbers_at(alloc, MOST_STARTS, count, input)?;
    Ok(ReadHeading {
        version,
        cells,
        count,
        starts,
    })
}

/// The nodes end the bytes, and the rule Bare is kept.
#[tactic(auto, unfolding(crate::specs::ReadCerts::ended))]
fn ended(alloc: Global, cert: Cert, lefts: &[usize], input: &Unread<'_>) -> Result<Cert, ReadError>
    ensures { Gives result (ended cert lefts.now input.now) }
{
    if input.left() != 0 {
        return Err(broken(input.left(), CertRule::Trailing));
    }
    let Some(node) = first_bare(alloc, &cert)? else {
        return Ok(cert);
    };
    let left = lefts.get(node as usize).copied().unwrap_or(0);
    Err(broken(left, CertRule::Bare))
}

/// A certificate, which is all of the bytes.
fn cert_of(alloc: Global, bytes: &[u8]) -> Result<Cert, ReadError>
    ensures { Gives result (cert_of bytes.now) }
{
    let mut input = Unread::new(bytes);
    let heading = heading_at(alloc, &mut input)?;
    let ReadHeading {
        version,
        cells,
        count,
        starts,
    } = heading;
    let mut cert = Cert::new(alloc, cells, starts);
    let lefts = nodes_at(alloc, version, count, &mut cert, &mut input)?;
    ended(alloc, cert, lefts.as_slice(), &input)
}

/// Reads a certificate of version 1 or 2 (docs/FORMATS.md, "Certificates"): the one that the bytes
/// spell. `At` is the first rule that they break, with the offset of the field that breaks it, and
/// `Memory` want of memory. Bytes that spell a certificate give it, unless memory runs out.
pub fn read_cert(alloc: Global, bytes: &[u8]) -> Result<Cert, CertFault>
    ensures found { IfOk result (λ c. (v : Version) × IsCert v bytes.now c) }
    ensures fault { IfErr result (λ e. IsFirstFault bytes.now e) }
    ensures only { (v : Version) (c : CertificateOf Val) → IsCert v bytes.now c
        → IsOrMemory c result }
{
    match cert_of(alloc, bytes) {
        Ok(cert) => Ok(cert),
        Err(ReadError::Memory) => Err(CertFault::Memory),
        Err(ReadError::At(fault)) => Err(CertFault::At {
            offset: bytes.len().saturating_sub(fault.left) as u64,
            rule: fault.rule,
        }),
    }
}
