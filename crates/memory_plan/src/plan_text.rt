//! Reading the text of a plan.

ghost use Rattle.std.specs.Prelude.{◌≡◌, ◌+◌, ◌<◌, ◌^◌, IfOk, IfErr, length};
ghost use Rattle.memory_plan.specs.PlanText.{IsPlan, IsPlanFault};
ghost use Rattle.memory_plan.specs.WellFormed.{IsWellFormed};
ghost use Rattle.memory_plan.specs.Runs.{CanRun};

use crate::image::Image;
use crate::plan::Plan;
use crate::plan_rules::kind_of;
use crate::text_fault::{PlanFault, PlanRule};
use std::alloc::Global;
use text_lines::Lines;

/// Reads a plan over its image (docs/FORMATS.md, "Plans"). A fault is the first line that breaks a
/// rule, with the first rule that it breaks; or `Start`, one past the last line, where no line does and
/// none is a start. Each plan that is read is well-formed, and it can run: it has a start state, and
/// its fair runs go on.
pub fn read_plan(alloc: Global, text: &[u8], image: &Image) -> Result<Plan, PlanFault>
    requires { length text.now + 1 < 2 ^ 32 }
    ensures plan { IfOk result (IsPlan image.now text.now) }
    ensures well_formed { IfOk result IsWellFormed }
    ensures can_run { IfOk result CanRun }
    ensures fault { IfErr result (IsPlanFault image.now text.now) }
{
    let mut plan = Plan::over(alloc, image)?;
    let mut latest = 0u8;
    let mut lines = Lines::kept(text);
    while let Some(line) = lines.next_line() {
        match plan.judge(latest, line.text) {
            Ok(said) => {
                plan.add(said)?;
                latest = latest.max(kind_of(&said));
            }
            Err(rule) => {
                return Err(PlanFault::At {
                    line: line.number,
                    rule,
                });
            }
        }
    }
    if plan.starts().is_empty() {
        return Err(PlanFault::At {
            line: lines.past_end(),
            rule: PlanRule::Start,
        });
    }
    Ok(plan)
}
