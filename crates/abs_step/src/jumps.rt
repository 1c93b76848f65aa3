//! The outcomes of a jump: one for each point of its result in code, in ascending order.

ghost use Rattle.std.specs.Prelude.{◌≡◌, ◌<◌, ◌≤◌, ◌+◌, ◌^◌, ◌++◌, [], cond, length};
ghost use Rattle.std.specs.List.{flat_map};
ghost use Rattle.memory_plan.specs.Plans.{in_code};
ghost use Rattle.abs_step.specs.Addresses.{passing};
ghost use Rattle.abs_step.specs.OutcomeLists.{outcome};
ghost use Rattle.abs_step.specs.Outcomes.{is_target};
ghost use Rattle.abs_step.specs.Walks.{is_point_at};

use crate::places::Places;
use crate::points::{COUNT, next_point};
use crate::posts::Posts;
use flag_relation::Fact;
use memory_plan::Plan;
use num_domain::NumDomain;
use viper_word::Addr;

/// Enters the outcome of a target, where it is in code.
fn keep_target<D: NumDomain>(
    plan: &Plan,
    target: Addr,
    pre: &Fact<D>,
    after: &Fact<D>,
    posts: &Posts,
    places: &mut Places<D>,
)
    requires room { length places.old.outcomes < places.old.room }
    requires pre { length pre.now.cells ≡ places.old.cells }
    requires after { length after.now.cells ≡ places.old.cells }
    requires posts { length posts.now.cells ≡ places.old.cells }
    ensures { places.new ≡ record places.old {
      outcomes = places.old.outcomes
          ++ cond (in_code plan.now target)
          (outcome D.domain target pre.now after.now posts.now) [];
    } }
{
    if plan.in_code(target) {
        places.keep(target, pre, after, posts);
    }
}

/// Enters the outcome of each point of the value in code.
pub(crate) fn keep_targets<D: NumDomain>(
    plan: &Plan,
    v: &D,
    pre: &Fact<D>,
    after: &Fact<D>,
    posts: &Posts,
    places: &mut Places<D>,
)
    requires room { length places.old.outcomes
        + length (passing (is_point_at D.domain v.now) 0 (2 ^ 20)) ≤ places.old.room }
    requires pre { length pre.now.cells ≡ places.old.cells }
    requires after { length after.now.cells ≡ places.old.cells }
    requires posts { length posts.now.cells ≡ places.old.cells }
    ensures { places.new ≡ record places.old {
      outcomes = places.old.outcomes
          ++ flat_map (λ n. outcome D.domain n pre.now after.now posts.now)
          (passing (is_target D.domain plan.now v.now) 0 (2 ^ 20));
    } }
{
    let mut at = 0;
    while at < COUNT {
        let Some(next) = next_point(v, at) else {
            return;
        };
        keep_target(plan, next, pre, after, posts, places);
        at = next.get() + 1;
    }
}
