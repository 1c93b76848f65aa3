//! `check`: the verdict of a certificate over its plan.

ghost use Rattle.std.specs.Prelude.{◌≡◌, IfOk};
ghost use Rattle.cert_format.specs.Limits.{IsWithinLimits};
ghost use Rattle.viper_top.specs.Check.{checked};
ghost use Rattle.viper_top.specs.Stages.{ending_of};

use crate::answer::Answer;
use crate::judged::Judged;
use crate::texts::{no_text, yes_text};
use cert_checker::{Verdict, check};
use std::alloc::Global;
use viper_word::Memory;

/// How a check ends: Done with the bounds of a yes, or Refused with what fails first (docs/METHOD.md,
/// "The whole checker").
#[tactic(auto, unfolding(crate::specs::Check::checked))]
pub fn judge(alloc: Global, judged: &Judged) -> Result<Answer, Memory>
    requires { IsWithinLimits judged.now.cert }
    ensures { IfOk result (λ a. ending_of a ≡ checked judged.now.plan judged.now.cert) }
{
    match check(alloc, &judged.plan, &judged.cert)? {
        Verdict::Yes(bounds) => Ok(Answer::Done {
            text: yes_text(alloc, &bounds)?,
        }),
        Verdict::No(refusal) => Ok(Answer::Refused {
            text: no_text(alloc, refusal)?,
        }),
    }
}
