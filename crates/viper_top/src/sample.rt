//! `sample`: a program of so many loops is certified, and its certificate is read back and checked.

ghost use Rattle.std.specs.Prelude.{◌≡◌, ◌++◌, IfOk, length};
ghost use Rattle.cert_format.specs.Bare.{AreRightlyBare};
ghost use Rattle.cert_format.specs.Limits.{IsWithinLimits};
ghost use Rattle.viper_top.specs.Certificates.{Local, bounds_of};
ghost use Rattle.viper_top.specs.Sample.{sample_text, Samples};
ghost use Rattle.viper_top.specs.Stages.{ending_of};

use crate::answer::Answer;
use crate::certify::{push_markers, refused};
use cert_checker::{Bound, Verdict, check};
use cert_format::{Cert, CertFault, read_cert, write_cert};
use certifier::certify;
use line_text::LineText;
use memory_plan::Plan;
use sample_program::{Loops, sample_plan};
use std::alloc::Global;
use val_dom::Val;
use viper_word::{Addr, Memory};

/// The text of a sample: how many loops, words and nodes it has, and a line for each marker
/// (README.md, "Commands").
#[tactic(auto, unfolding(crate::specs::Sample::sample_text))]
fn sample_text(
    alloc: Global,
    loops: Loops,
    words: u64,
    nodes: u32,
    bounds: &[(Addr, Bound)],
) -> Result<Vec<u8>, Memory>
    ensures { IfOk result (λ v. v.items ≡ sample_text loops words nodes bounds.now) }
{
    let mut text = LineText::new(alloc);
    text.plain("sample ")?;
    text.number(loops.get())?;
    text.plain("\nwords ")?;
    text.number(words)?;
    text.plain("\nnodes ")?;
    text.number(nodes.into())?;
    text.plain("\n")?;
    push_markers(&mut text, bounds)?;
    Ok(text.into_bytes())
}

/// The certificate that the bytes of this one spell.
fn read_again(alloc: Global, cert: &Cert) -> Result<Cert, Memory>
    requires limits { IsWithinLimits cert.now }
    requires bare { AreRightlyBare cert.now }
    ensures same { IfOk result (λ c. c ≡ cert.now) }
{
    let bytes = write_cert(alloc, cert)?;
    match read_cert(alloc, &bytes) {
        Ok(again) => Ok(again),
        Err(CertFault::Memory) => Err(Memory),
        Err(CertFault::At { .. }) => {
            prove!(false);
            Err(Memory)
        }
    }
}

/// The checker's bounds of a certificate whose local conditions hold.
fn bounds_of(alloc: Global, plan: &Plan, cert: &Cert) -> Result<Vec<(Addr, Bound)>, Memory>
    requires limits { IsWithinLimits cert.now }
    requires local { Local plan.now cert.now }
    ensures { IfOk result (λ v. v.items ≡ bounds_of plan.now cert.now) }
{
    match check(alloc, plan, cert)? {
        Verdict::Yes(bounds) => Ok(bounds),
        Verdict::No(_) => {
            prove!(false);
            Err(Memory)
        }
    }
}

/// How a sample ends: its certificate was read back from its bytes and holds, with these bounds; or
/// it is refused with a true cause (docs/METHOD.md, "The sample").
pub fn sample(alloc: Global, loops: Loops) -> Result<Answer, Memory>
    ensures { IfOk result (λ a. Samples loops (ending_of a)) }
{
    let plan = sample_plan(alloc, loops)?;
    match certify::<Val>(alloc, &plan) {
        Ok(made) => {
            let cert = read_again(alloc, &made.cert)?;
            let bounds = bounds_of(alloc, &plan, &cert)?;
            let words = plan.image_words().len() as u64;
            Ok(Answer::Done {
                text: sample_text(alloc, loops, words, cert.len(), &bounds)?,
            })
        }
        Err(fault) => refused(alloc, &fault),
    }
}
