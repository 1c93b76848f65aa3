//! From a plan to its certificate.

ghost use Rattle.std.specs.Prelude.{◌≡◌, ◌≤◌, ℕ, length, List, Option, IfOk, IfErr};
ghost use Rattle.memory_plan.specs.WellFormed.{IsWellFormed};
ghost use Rattle.flag_relation.specs.Facts.{FactOf};
ghost use Rattle.flow_recover.specs.declared.key.Key.{Key};
ghost use Rattle.fix_solver.specs.Solutions.{IsSolution, HasKeys, plan_rules};
ghost use Rattle.cert_format.specs.Bare.{AreRightlyBare};
ghost use Rattle.cert_format.specs.Limits.{IsWithinLimits};
ghost use Rattle.cert_format.specs.declared.limits.TheConstants.{MOST_NODES};
ghost use Rattle.cert_checker.specs.Conditions.{LocalOfFull};
ghost use Rattle.cert_checker.specs.Filling.{filled};
ghost use Rattle.cert_checker.specs.Judged.{IsJudged};
ghost use Rattle.cert_checker.specs.Local.{Local};
ghost use Rattle.cert_checker.specs.Verdicts.{bounds_of};
ghost use Rattle.certifier.specs.Made.{IsMade};
ghost use Rattle.certifier.specs.Faults.{IsCertifyFault, IsPastSolving};

use crate::fault::CertifyFault;
use crate::making::made;
use cert_checker::{Bound, Verdict, check, pack};
use cert_format::{CertOf, Spelled};
use fix_solver::solve;
use memory_plan::Plan;
use rank_nest::rank;
use std::alloc::Global;
use viper_word::{Addr, Memory};

/// A certificate, and what the checker says of it: each marker of the plan, in its order, with its
/// bound.
#[derive(Drop)]
pub struct Certified<D: Spelled> {
    pub cert: CertOf<D>,
    pub bounds: Vec<(Addr, Bound)>,
}

/// The checker's bounds of a certificate whose local conditions hold.
fn bounds_of<D: Spelled>(
    alloc: Global,
    plan: &Plan,
    cert: &CertOf<D>,
) -> Result<Vec<(Addr, Bound)>, Memory>
    requires limits { IsWithinLimits cert.now }
    requires local { LocalOfFull D.domain plan.now (λ _. 1) (filled D.domain plan.now cert.now) }
    ensures { IfOk result (λ v. v.items
        ≡ bounds_of D.domain plan.now (filled D.domain plan.now cert.now)) }
{
    match check(alloc, plan, cert)? {
        Verdict::Yes(bounds) => Ok(bounds),
        Verdict::No(_) => {
            prove!(false);
            Err(Memory)
        }
    }
}

/// The certificate of a plan: that of its least solution with the ranks of the solution's nest,
/// packed. Its local conditions hold, so the checker says yes with these bounds. Else
/// `Undischarged` or `Nodes`, which come only where the plan has no solution of at most 65,536
/// keys; `Unranked` or `Large` where the least solution has no ranks; or want of memory.
/// docs/METHOD.md, "The certificate of a plan" and "What a refusal says".
pub fn certify<D: Spelled>(alloc: Global, plan: &Plan) -> Result<Certified<D>, CertifyFault>
    requires well { IsWellFormed plan.now }
    ensures made { IfOk result (λ c. IsMade D.domain plan.now c.cert) }
    ensures local { IfOk result (λ c. Local D.domain plan.now (λ _. 1) c.cert) }
    ensures bounds { IfOk result (λ c. c.bounds.items
        ≡ bounds_of D.domain plan.now (filled D.domain plan.now c.cert)) }
    ensures limits { IfOk result (λ c. IsWithinLimits c.cert) }
    ensures bare { IfOk result (λ c. AreRightlyBare c.cert) }
    ensures fault { IfErr result (IsCertifyFault D.domain plan.now) }
    ensures complete { (m : Key → Option (FactOf D)) (ks : List Key)
        → IsSolution (plan_rules D.domain plan.now) m → HasKeys m ks
        → length ks ≤ MOST_NODES → IfErr result IsPastSolving }
{
    let solved = solve(alloc, plan)?;
    let ranks = rank(alloc, plan, &solved)?;
    let full = made(alloc, plan, &solved, &ranks)?;
    let bounds = bounds_of(alloc, plan, &full)?;
    let cert = pack(alloc, plan, &full)?;
    Ok(Certified { cert, bounds })
}
