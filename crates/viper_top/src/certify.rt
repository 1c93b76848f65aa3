//! `certify`: the certificate of a plan, or why it has none.

ghost use Rattle.std.specs.Prelude.{◌≡◌, ◌≢◌, ◌++◌, IfOk, OnOk, length, codes};
ghost use Rattle.std.specs.List.{flat_map};
ghost use Rattle.cert_format.specs.declared.version.Version.TheVariants.{Two};
ghost use Rattle.cert_format.specs.Bare.{AreRightlyBare};
ghost use Rattle.cert_format.specs.Limits.{IsWithinLimits};
ghost use Rattle.cert_format.specs.Spelling.{cert_bytes};
ghost use Rattle.viper_top.specs.Endings.{made as made_ending, refused as refused_ending};
ghost use Rattle.certifier.specs.declared.fault.CertifyFault.TheVariants as fault_kinds;
ghost use Rattle.memory_plan.specs.WellFormed.{IsWellFormed};
ghost use Rattle.viper_top.specs.Certify.{certified_text, more_text, context_text, key_text, undischarged_text, edge_line, unranked_text, nodes_text, refusal_text, Certifies};
ghost use Rattle.viper_top.specs.Stages.{ending_of};
ghost use Rattle.viper_top.specs.Texts.{marker_line};

use crate::answer::Answer;
use crate::texts::{cond_text, push_marker};
use abs_step::Cond;
use cert_checker::Bound;
use cert_format::write_cert;
use certifier::{Certified, CertifyFault, certify};
use flow_recover::Key;
use line_text::LineText;
use memory_plan::Plan;
use rank_nest::Edge;
use std::alloc::Global;
use val_dom::Val;
use viper_word::{Addr, Memory};

/// Appends a line for each marker.
pub(crate) fn push_markers(text: &mut LineText, bounds: &[(Addr, Bound)]) -> Result<(), Memory>
    ensures { OnOk result (text.new ≡ text.old ++ flat_map marker_line bounds.now) }
{
    for (marker, bound) in bounds {
        push_marker(text, *marker, *bound)?;
    }
    Ok(())
}

/// The text of a certificate that was made: `certified`, the number of nodes, and a line for each
/// marker (README.md, "Statuses and texts").
#[tactic(auto, unfolding(crate::specs::Certify::certified_text))]
fn certified_text(alloc: Global, nodes: u32, bounds: &[(Addr, Bound)]) -> Result<Vec<u8>, Memory>
    ensures { IfOk result (λ v. v.items ≡ certified_text nodes bounds.now) }
{
    let mut text = LineText::new(alloc);
    text.plain("certified\nnodes ")?;
    text.number(nodes.into())?;
    text.plain("\n")?;
    push_markers(&mut text, bounds)?;
    Ok(text.into_bytes())
}

/// Appends addresses, each behind a comma.
#[tactic(auto, unfolding(crate::specs::Certify::more_text))]
fn push_more(text: &mut LineText, addrs: &[Addr]) -> Result<(), Memory>
    ensures { OnOk result (text.new ≡ text.old ++ more_text addrs.now) }
{
    for at in addrs {
        text.plain(",")?;
        text.address(*at)?;
    }
    Ok(())
}

/// Appends the calls of a key, oldest first, or `-`.
fn push_context(text: &mut LineText, addrs: &[Addr]) -> Result<(), Memory>
    ensures { OnOk result (text.new ≡ text.old ++ context_text addrs.now) }
{
    match addrs {
        [] => text.plain("-"),
        [first, others @ ..] => {
            text.address(*first)?;
            push_more(text, others)
        }
    }
}

/// Appends a key: its address and its calls.
#[tactic(auto, unfolding(crate::specs::Certify::key_text))]
fn push_key(text: &mut LineText, key: &Key) -> Result<(), Memory>
    ensures { OnOk result (text.new ≡ text.old ++ key_text key.now) }
{
    text.address(key.addr)?;
    text.plain(" ")?;
    push_context(text, key.context.addrs())
}

/// The text of a condition that fails at a key.
#[tactic(auto, unfolding(crate::specs::Certify::undischarged_text))]
fn undischarged_text(alloc: Global, key: &Key, cond: Cond) -> Result<Vec<u8>, Memory>
    ensures { IfOk result (λ v. v.items ≡ undischarged_text key.now cond) }
{
    let mut text = LineText::new(alloc);
    text.plain("undischarged ")?;
    push_key(&mut text, key)?;
    text.plain(" ")?;
    text.plain(cond_text(cond))?;
    text.plain("\n")?;
    Ok(text.into_bytes())
}

/// Appends the line of an edge.
#[tactic(auto, unfolding(crate::specs::Certify::edge_line))]
fn push_edge(text: &mut LineText, edge: &Edge) -> Result<(), Memory>
    ensures { OnOk result (text.new ≡ text.old ++ edge_line edge.now) }
{
    text.plain("edge ")?;
    push_key(text, &edge.from)?;
    text.plain(" to ")?;
    push_key(text, &edge.to)?;
    text.plain("\n")
}

/// Appends a line for each edge.
fn push_edges(text: &mut LineText, edges: &[Edge]) -> Result<(), Memory>
    ensures { OnOk result (text.new ≡ text.old ++ flat_map edge_line edges.now) }
{
    for edge in edges {
        push_edge(text, edge)?;
    }
    Ok(())
}

/// The text of edges that no variable ranks.
#[tactic(auto, unfolding(crate::specs::Certify::unranked_text))]
fn unranked_text(alloc: Global, edges: &[Edge]) -> Result<Vec<u8>, Memory>
    ensures { IfOk result (λ v. v.items ≡ unranked_text edges.now) }
{
    let mut text = LineText::new(alloc);
    text.plain("unranked ")?;
    text.number(edges.len() as u64)?;
    text.plain("\n")?;
    push_edges(&mut text, edges)?;
    Ok(text.into_bytes())
}

/// The text of so many keys.
#[tactic(auto, unfolding(crate::specs::Certify::nodes_text))]
fn nodes_text(alloc: Global, count: usize) -> Result<Vec<u8>, Memory>
    ensures { IfOk result (λ v. v.items ≡ nodes_text count) }
{
    let mut text = LineText::new(alloc);
    text.plain("nodes ")?;
    text.number(count as u64)?;
    text.plain("\n")?;
    Ok(text.into_bytes())
}

/// The line of a nest with a large number.
fn large_text(alloc: Global) -> Result<Vec<u8>, Memory>
    ensures { IfOk result (λ v. v.items ≡ codes "large\n") }
{
    let mut text = LineText::new(alloc);
    text.plain("large\n")?;
    Ok(text.into_bytes())
}

/// The bytes of a certificate that was made are to be placed.
fn placed(alloc: Global, made: &Certified<Val>) -> Result<Answer, Memory>
    requires limits { IsWithinLimits made.now.cert }
    requires bare { AreRightlyBare made.now.cert }
    ensures { IfOk result (λ a. ending_of a ≡ made_ending (cert_bytes Two made.now.cert)
        (certified_text (length made.now.cert.nodes) made.now.bounds.items)) }
{
    Ok(Answer::Made {
        bytes: write_cert(alloc, &made.cert)?,
        text: certified_text(alloc, made.cert.len(), &made.bounds)?,
    })
}

/// Refused, with the text of its cause. Want of memory has none.
pub(crate) fn refused(alloc: Global, fault: &CertifyFault) -> Result<Answer, Memory>
    ensures cause { IfOk result (λ a. ending_of a ≡ refused_ending (refusal_text fault.now)) }
    ensures not_memory { IfOk result (λ a. fault.now ≢ fault_kinds.Memory) }
{
    let text = match fault {
        CertifyFault::Undischarged(key, cond) => undischarged_text(alloc, key, *cond)?,
        CertifyFault::Nodes(keys) => nodes_text(alloc, keys.len())?,
        CertifyFault::Unranked(edges) => unranked_text(alloc, edges)?,
        CertifyFault::Large(_) => large_text(alloc)?,
        CertifyFault::Memory => return Err(Memory),
    };
    Ok(Answer::Refused { text })
}

/// How a certification ends: with a certificate to place, or refused with a true cause
/// (docs/METHOD.md, "The certificate of a plan").
pub fn certify_plan(alloc: Global, plan: &Plan) -> Result<Answer, Memory>
    requires { IsWellFormed plan.now }
    ensures { IfOk result (λ a. Certifies plan.now (ending_of a)) }
{
    match certify::<Val>(alloc, plan) {
        Ok(made) => placed(alloc, &made),
        Err(fault) => refused(alloc, &fault),
    }
}
