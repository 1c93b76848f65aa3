ghost use Rattle.std.specs.Prelude.{ℕ, List};
ghost use Rattle.memory_plan.specs.Plans.{PlanLines};
ghost use Rattle.abs_step.specs.StepLaws.{StepLaws};

use num_domain::NumDomain;

/// What holds of the abstract step over any domain. Cover: from a state that meets a fact, where no
/// condition fails, the machine's step touches only what the plan declares, the state after it is kept,
/// and one of the outcomes is its own. Start: a start state meets the start fact of its line. Monotony:
/// a larger fact has larger outcomes, and a condition that holds of it holds of the smaller one.
pub fn step_laws<D: NumDomain>()
    ensures { (plan : PlanLines) (cells : List ℕ) → StepLaws D.domain plan cells }
{}
