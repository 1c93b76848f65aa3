//! The verdict on a certificate.

ghost use Rattle.std.specs.Prelude.{◌≡◌, IfOk};
ghost use Rattle.cert_format.specs.Limits.{IsWithinLimits};
ghost use Rattle.cert_checker.specs.Filling.{filled};
ghost use Rattle.cert_checker.specs.Judged.{IsJudged};
ghost use Rattle.cert_checker.specs.Verdicts.{verdict_of, verdict_view};

use crate::bounds::push_bounds;
use crate::failures::first_failure;
use crate::filling::{fill, has_bare};
use crate::verdict::Verdict;
use abs_step::Scratch;
use cert_format::{CertOf, Spelled};
use flag_relation::Fact;
use memory_plan::Plan;
use std::alloc::Global;
use viper_word::Memory;

/// Yes, with a bound for each marker, exactly where all conditions hold; else the first that fails.
/// An instruction has that price. All memory is taken before anything is looked at.
#[tactic(auto, unfolding(crate::specs::Verdicts::verdict_of))]
pub(crate) fn check_full<D: Spelled>(
    alloc: Global,
    plan: &Plan,
    cert: &CertOf<D>,
    price: u32,
) -> Result<Verdict, Memory>
    requires judged { IsJudged cert.now }
    ensures { IfOk result (λ v. verdict_view v
        ≡ verdict_of D.domain plan.now (λ _. price) cert.now) }
{
    let cells = cert.cells().len() as u8;
    let mut fact = Fact::new(alloc, cells)?;
    let mut scratch = Scratch::new(alloc, cells)?;
    let Ok(mut bounds) = Vec::with_capacity(alloc, plan.markers().len()) else {
        return Err(Memory);
    };
    if let Some(refusal) = first_failure(plan, cert, price, &mut fact, &mut scratch) {
        return Ok(Verdict::No(refusal));
    }
    push_bounds(cert, plan.markers(), &mut bounds)?;
    Ok(Verdict::Yes(bounds))
}

/// Yes, with a bound for each marker, exactly where all conditions hold of the filled certificate;
/// else the first that fails. `Memory` for want of memory. docs/METHOD.md, "The whole checker".
pub fn check<D: Spelled>(alloc: Global, plan: &Plan, cert: &CertOf<D>) -> Result<Verdict, Memory>
    requires limits { IsWithinLimits cert.now }
    ensures { IfOk result (λ v. verdict_view v
        ≡ verdict_of D.domain plan.now (λ _. 1) (filled D.domain plan.now cert.now)) }
{
    if has_bare(cert) {
        let full = fill(alloc, plan, cert)?;
        check_full(alloc, plan, &full, 1)
    } else {
        check_full(alloc, plan, cert, 1)
    }
}
