//! `upgrade`: a certificate in version 2, with each node bare that may be.

ghost use Rattle.std.specs.Prelude.{◌≡◌, ◌<◌, ◌≤◌, IfOk, take, count_by};
ghost use Rattle.cert_format.specs.Limits.{IsWithinLimits};
ghost use Rattle.cert_format.specs.Certificates.{is_bare};
ghost use Rattle.viper_top.specs.Upgrade.{upgrade_text, EndsUpgraded};
ghost use Rattle.viper_top.specs.Stages.{ending_of};

use crate::answer::Answer;
use crate::judged::Judged;
use cert_checker::{fill, pack};
use cert_format::{Cert, write_cert};
use line_text::LineText;
use std::alloc::Global;
use viper_word::Memory;

/// How many bare nodes there are.
fn bare_count(cert: &Cert) -> u32
    ensures { result ≡ count_by is_bare cert.now.nodes }
{
    let mut count = 0;
    for i in 0..cert.len() {
        if cert.is_bare(i) {
            count += 1;
        }
    }
    count
}

/// The lines that say how many nodes there are, and how many bare ones.
#[tactic(auto, unfolding(crate::specs::Upgrade::upgrade_text))]
fn upgrade_text(alloc: Global, cert: &Cert) -> Result<Vec<u8>, Memory>
    ensures { IfOk result (λ text. text.items ≡ upgrade_text cert.now) }
{
    let mut text = LineText::new(alloc);
    text.plain("upgraded\nnodes ")?;
    text.number(cert.len().into())?;
    text.plain("\nbare ")?;
    text.number(bare_count(cert).into())?;
    text.plain("\n")?;
    Ok(text.into_bytes())
}

/// How an upgrade ends: the bytes of the certificate, filled and packed, are to be placed
/// (docs/FORMATS.md, "Certificates"). It judges nothing.
pub fn upgrade(alloc: Global, judged: &Judged) -> Result<Answer, Memory>
    requires { IsWithinLimits judged.now.cert }
    ensures { IfOk result (λ a.
        EndsUpgraded judged.now.plan judged.now.cert (ending_of a)) }
{
    let full = fill(alloc, &judged.plan, &judged.cert)?;
    let packed = pack(alloc, &judged.plan, &full)?;
    Ok(Answer::Made {
        bytes: write_cert(alloc, &packed)?,
        text: upgrade_text(alloc, &packed)?,
    })
}
