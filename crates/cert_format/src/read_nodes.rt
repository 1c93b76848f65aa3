//! Reading nodes.
ghost use Rattle.std.specs.Prelude.{◌≡◌, ◌≤◌, IfOk};
ghost use Rattle.flag_relation.specs.declared.fact.TheConstants.{MOST_CELLS};
ghost use Rattle.cert_format.specs.Reading.{Reads};
ghost use Rattle.cert_format.specs.ReadNodes.{full_at, tagged_at, known_at, placed_at, placed};
ghost use Rattle.cert_format.specs.ReadNodes.{IsOver};

use crate::fault::{CertRule, ReadError};
use crate::fields::{addr_at, numbers_at};
use crate::limits::{BARE, FULL, MOST_SUCCESSORS};
use crate::read_facts::fact_at;
use crate::read_ranks::rank_at;
use crate::unread::{Unread, broken};
use crate::version::Version;
use flag_relation::{Fact, Form};
use std::alloc::Global;
use val_dom::Val;
use viper_word::Addr;

/// A node as it was read, and how many bytes were left after its address.
#[derive(Drop)]
pub(crate) struct ReadNode {
    pub(crate) addr: Addr,
    pub(crate) fact: Option<Fact<Val>>,
    pub(crate) succ: Vec<u32>,
    pub(crate) rank: Form,
    pub(crate) left: usize,
}

/// The fact of a full node.
#[tactic(auto, unfolding(crate::specs::ReadNodes::full_at))]
fn full_at(alloc: Global, cells: u8, input: &mut Unread<'_>) -> Result<Option<Fact<Val>>, ReadError>
    requires { cells ≤ MOST_CELLS }
    ensures value { Reads (λ x. x) result input.new (full_at cells input.old) }
    ensures cells { IfOk result (λ f. IsOver cells f) }
{
    let fact = fact_at(alloc, cells, input)?;
    Ok(Some(fact))
}

/// The tag, and the fact of a full node.
#[tactic(auto, unfolding(crate::specs::ReadNodes::tagged_at))]
fn tagged_at(
    alloc: Global,
    cells: u8,
    input: &mut Unread<'_>,
) -> Result<Option<Fact<Val>>, ReadError>
    requires { cells ≤ MOST_CELLS }
    ensures value { Reads (λ x. x) result input.new (tagged_at cells input.old) }
    ensures cells { IfOk result (λ f. IsOver cells f) }
{
    let left = input.left();
    let tag = input.u8()?;
    if tag == FULL {
        full_at(alloc, cells, input)
    } else if tag == BARE {
        Ok(None)
    } else {
        Err(broken(left, CertRule::Range))
    }
}

/// What a version has between a node's address and its successors.
#[tactic(auto, unfolding(crate::specs::ReadNodes::known_at))]
fn known_at(
    alloc: Global,
    version: Version,
    cells: u8,
    input: &mut Unread<'_>,
) -> Result<Option<Fact<Val>>, ReadError>
    requires { cells ≤ MOST_CELLS }
    ensures value { Reads (λ x. x) result input.new (known_at version cells input.old) }
    ensures cells { IfOk result (λ f. IsOver cells f) }
{
    match version {
        Version::One => full_at(alloc, cells, input),
        Version::Two => tagged_at(alloc, cells, input),
    }
}

/// A node of a certificate of so many cells and so many nodes.
#[tactic(auto, unfolding(crate::specs::ReadNodes::placed_at))]
pub(crate) fn node_at(
    alloc: Global,
    version: Version,
    cells: u8,
    count: u32,
    input: &mut Unread<'_>,
) -> Result<ReadNode, ReadError>
    requires { cells ≤ MOST_CELLS }
    ensures value { Reads placed result input.new (placed_at version cells count input.old) }
    ensures cells { IfOk result (λ n. IsOver cells n.fact) }
{
    let addr = addr_at(input)?;
    let left = input.left();
    let fact = known_at(alloc, version, cells, input)?;
    let succ = numbers_at(alloc, MOST_SUCCESSORS, count, input)?;
    let rank = rank_at(alloc, cells, input)?;
    Ok(ReadNode {
        addr,
        fact,
        succ,
        rank,
        left,
    })
}
