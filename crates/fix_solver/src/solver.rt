//! The least solution of a plan, or why there is none.

ghost use Rattle.std.specs.Prelude.{◌≡◌, ◌≤◌, length, List, Option, IfOk, IfErr};
ghost use Rattle.flag_relation.specs.declared.fact.TheConstants.{MOST_CELLS};
ghost use Rattle.flag_relation.specs.Facts.{FactOf};
ghost use Rattle.flow_recover.specs.declared.key.Key.{Key};
ghost use Rattle.flow_recover.specs.Cells.{cells_of};
ghost use Rattle.fix_solver.specs.declared.table.TheConstants.{MOST_KEYS};
ghost use Rattle.fix_solver.specs.Faults.{IsTrueFault, IsMemory};
ghost use Rattle.fix_solver.specs.Solutions.{IsSolution, HasKeys, rules_over, plan_rules};
ghost use Rattle.fix_solver.specs.Solved.{IsSolved};

use crate::fault::SolveFault;
use crate::found::Found;
use crate::plan_rules::{PlanRules, Room};
use crate::search::least;
use crate::solved::Solved;
use flag_relation::Fact;
use flow_recover::{cells_of, thresholds_of};
use memory_plan::Plan;
use num_domain::{NumDomain, Thresholds};
use std::alloc::Global;
use std::marker::PhantomData;
use viper_word::Addr;

/// The least solution of a plan over these cells and thresholds.
fn least_over<D: NumDomain>(
    alloc: Global,
    plan: &Plan,
    cells: &[Addr],
    thresholds: &Thresholds,
) -> Result<Found<Fact<D>>, SolveFault>
    requires { length cells.now ≤ MOST_CELLS }
    ensures complete { (m : Key → Option (FactOf D)) (ks : List Key)
        → IsSolution (rules_over D.domain plan.now cells.now thresholds.now) m → HasKeys m ks
        → length ks ≤ MOST_KEYS → IfErr result IsMemory }
    ensures solved { IfOk result (λ s.
        IsSolved (rules_over D.domain plan.now cells.now thresholds.now) s.nodes) }
    ensures fault { IfErr result
        (IsTrueFault (rules_over D.domain plan.now cells.now thresholds.now)) }
{
    let mut room = Room::new(alloc, cells.len() as u8)?;
    let rules: PlanRules<D> = PlanRules {
        plan,
        cells,
        thresholds,
        of: PhantomData,
    };
    least(alloc, &rules, &mut room)
}

/// The least solution of a plan, in which C1 to C7 hold at every key; or a condition that fails at
/// a key in every candidate (`Undischarged`), or 65,537 keys that stand in every candidate
/// (`Nodes`), or want of memory. Where there is a solution with at most 65,536 keys, only memory
/// can be wanting. docs/METHOD.md, "The least solution".
pub fn solve<D: NumDomain>(alloc: Global, plan: &Plan) -> Result<Solved<D>, SolveFault>
    ensures complete { (m : Key → Option (FactOf D)) (ks : List Key)
        → IsSolution (plan_rules D.domain plan.now) m → HasKeys m ks
        → length ks ≤ MOST_KEYS → IfErr result IsMemory }
    ensures solved { IfOk result (λ s. IsSolved (plan_rules D.domain plan.now) s.nodes) }
    ensures cells { IfOk result (λ s. s.cells ≡ cells_of plan.now) }
    ensures fault { IfErr result (IsTrueFault (plan_rules D.domain plan.now)) }
{
    let cells = cells_of(alloc, plan)?;
    let thresholds = thresholds_of(alloc, plan)?;
    let found = least_over(alloc, plan, cells.as_slice(), &thresholds)?;
    Ok(Solved::new(cells, found))
}
