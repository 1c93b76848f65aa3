ghost use Rattle.memory_plan.specs.Plans.{PlanLines};
ghost use Rattle.fix_solver.specs.Solutions.{IsCandidate, plan_rules, all_unknown};

use num_domain::NumDomain;

/// Each plan has a candidate: nothing is known at any key. So no claim over all candidates is
/// empty.
pub fn some_candidate<D: NumDomain>()
    ensures { (plan : PlanLines)
        → IsCandidate (plan_rules D.domain plan) (all_unknown D.domain plan) }
{}
