//! Writing a certificate: the bytes of version 2.
ghost use Rattle.std.specs.Prelude.{◌≡◌, ◌<◌, ◌++◌, length, OnOk, IfOk};
ghost use Rattle.std.specs.List.{flat_map, AllByRecursion};
ghost use Rattle.cert_format.specs.declared.version.Version.TheVariants.{Two};
ghost use Rattle.cert_format.specs.declared.limits.TheConstants.{MOST_RANK};
ghost use Rattle.cert_format.specs.Certificates.{node_at};
ghost use Rattle.cert_format.specs.Limits.{IsWithin, IsShortTerm, IsShortNode, IsWithinLimits};
ghost use Rattle.cert_format.specs.Bare.{AreRightlyBare};
ghost use Rattle.cert_format.specs.Values.{word_bytes, value_bytes};
ghost use Rattle.cert_format.specs.Spelling.{counted_bytes, fact_bytes, term_bytes, rank_bytes};
ghost use Rattle.cert_format.specs.Spelling.{known_bytes, node_bytes, cert_bytes};

use crate::cert::Cert;
use crate::limits::{BARE, FULL, MAGIC, VALUE};
use crate::put::{put_fact, put_i64, put_u32};
use crate::read_ranks::number_of;
use flag_relation::{Fact, Form, Var};
use std::alloc::{AllocError, Global};
use val_dom::Val;
use viper_word::{Addr, Memory};

/// Numbers of four bytes each.
fn put_words(out: &mut Vec<u8>, numbers: &[u32]) -> Result<(), AllocError>
    ensures { OnOk result (out.new.items ≡ out.old.items ++ flat_map word_bytes numbers.now) }
{
    match numbers {
        [] => Ok(()),
        [first, rest @ ..] => {
            put_u32(out, *first)?;
            put_words(out, rest)
        }
    }
}

/// How many numbers there are, and each.
#[tactic(auto, unfolding(crate::specs::Spelling::counted_bytes))]
fn put_numbers(out: &mut Vec<u8>, numbers: &[u32]) -> Result<(), AllocError>
    requires { length numbers.now < 256 }
    ensures { OnOk result (out.new.items ≡ out.old.items ++ counted_bytes word_bytes numbers.now) }
{
    out.push(numbers.len() as u8)?;
    put_words(out, numbers)
}

/// Addresses of four bytes each.
fn put_addrs(out: &mut Vec<u8>, addrs: &[Addr]) -> Result<(), AllocError>
    ensures { OnOk result (out.new.items ≡ out.old.items ++ flat_map word_bytes addrs.now) }
{
    match addrs {
        [] => Ok(()),
        [first, rest @ ..] => {
            put_u32(out, first.get())?;
            put_addrs(out, rest)
        }
    }
}

/// How many cells there are, and the address of each.
#[tactic(auto, unfolding(crate::specs::Spelling::counted_bytes))]
fn put_cells(out: &mut Vec<u8>, cells: &[Addr]) -> Result<(), AllocError>
    requires { length cells.now < 256 }
    ensures { OnOk result (out.new.items ≡ out.old.items ++ counted_bytes word_bytes cells.now) }
{
    out.push(cells.len() as u8)?;
    put_addrs(out, cells)
}

/// A term.
#[tactic(auto, unfolding(crate::specs::Spelling::term_bytes))]
fn put_term(out: &mut Vec<u8>, term: &(Var, i128)) -> Result<(), AllocError>
    requires { IsShortTerm term.now }
    ensures { OnOk result (out.new.items ≡ out.old.items ++ term_bytes term.now) }
{
    out.push(number_of(term.0) as u8)?;
    put_i64(out, term.1 as i64)
}

/// Terms.
fn put_terms(out: &mut Vec<u8>, terms: &[(Var, i128)]) -> Result<(), AllocError>
    requires { AllByRecursion IsShortTerm terms.now }
    ensures { OnOk result (out.new.items ≡ out.old.items ++ flat_map term_bytes terms.now) }
{
    match terms {
        [] => Ok(()),
        [first, rest @ ..] => {
            put_term(out, first)?;
            put_terms(out, rest)
        }
    }
}

/// How many terms there are, and each.
#[tactic(auto, unfolding(crate::specs::Spelling::counted_bytes))]
fn put_counted(out: &mut Vec<u8>, terms: &[(Var, i128)]) -> Result<(), AllocError>
    requires few { length terms.now < 256 }
    requires terms { AllByRecursion IsShortTerm terms.now }
    ensures { OnOk result (out.new.items ≡ out.old.items ++ counted_bytes term_bytes terms.now) }
{
    out.push(terms.len() as u8)?;
    put_terms(out, terms)
}

/// A rank.
#[tactic(auto, unfolding(crate::specs::Spelling::rank_bytes))]
fn put_rank(out: &mut Vec<u8>, rank: &Form) -> Result<(), AllocError>
    requires constant { IsWithin MOST_RANK rank.now.constant }
    requires terms { AllByRecursion IsShortTerm rank.now.terms }
    ensures { OnOk result (out.new.items ≡ out.old.items ++ rank_bytes rank.now) }
{
    put_i64(out, rank.constant() as i64)?;
    put_counted(out, rank.terms())
}

/// The fact of a full node.
fn put_known_fact(out: &mut Vec<u8>, fact: &Fact<Val>) -> Result<(), AllocError>
    ensures { OnOk result (out.new.items ≡ out.old.items ++ fact_bytes value_bytes fact.now) }
{
    put_fact(out, fact, VALUE)
}

/// The tag of a node, and the fact of a full one.
#[tactic(auto, unfolding(crate::specs::Spelling::known_bytes))]
fn put_known(out: &mut Vec<u8>, cert: &Cert, node: u32) -> Result<(), AllocError>
    requires { node < length cert.now.nodes }
    ensures { OnOk result
        (out.new.items ≡ out.old.items ++ known_bytes Two (node_at cert.now node).fact) }
{
    if cert.is_bare(node) {
        out.push(BARE)?;
        return Ok(());
    }
    out.push(FULL)?;
    put_known_fact(out, cert.fact(node))
}

/// A node.
#[tactic(auto, unfolding(crate::specs::Spelling::node_bytes))]
fn put_node(out: &mut Vec<u8>, cert: &Cert, node: u32) -> Result<(), AllocError>
    requires within { node < length cert.now.nodes }
    requires short { IsShortNode (node_at cert.now node) }
    ensures { OnOk result
        (out.new.items ≡ out.old.items ++ node_bytes Two (node_at cert.now node)) }
{
    put_u32(out, cert.addr(node).get())?;
    put_known(out, cert, node)?;
    put_numbers(out, cert.succ(node))?;
    put_rank(out, &cert.rank(node))
}

/// All nodes.
fn put_nodes(out: &mut Vec<u8>, cert: &Cert) -> Result<(), AllocError>
    requires { AllByRecursion IsShortNode cert.now.nodes }
    ensures { OnOk result
        (out.new.items ≡ out.old.items ++ flat_map (node_bytes Two) cert.now.nodes) }
{
    for node in 0..cert.len() {
        put_node(out, cert, node)?;
    }
    Ok(())
}

/// A certificate.
#[tactic(auto, unfolding(crate::specs::Spelling::cert_bytes))]
fn put_cert(out: &mut Vec<u8>, cert: &Cert) -> Result<(), AllocError>
    requires { IsWithinLimits cert.now }
    ensures { OnOk result (out.new.items ≡ out.old.items ++ cert_bytes Two cert.now) }
{
    put_u32(out, MAGIC)?;
    out.push(2)?;
    put_cells(out, cert.cells())?;
    put_u32(out, cert.len())?;
    put_numbers(out, cert.starts())?;
    put_nodes(out, cert)
}

/// The one spelling of a certificate in version 2 (docs/FORMATS.md, "Certificates"). `Memory` is want
/// of memory.
pub fn write_cert(alloc: Global, cert: &Cert) -> Result<Vec<u8>, Memory>
    requires limits { IsWithinLimits cert.now }
    requires bare { AreRightlyBare cert.now }
    ensures { IfOk result (λ v. v.items ≡ cert_bytes Two cert.now) }
{
    let mut out = Vec::new(alloc);
    put_cert(&mut out, cert)?;
    Ok(out)
}
