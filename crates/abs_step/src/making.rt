//! What an instruction makes of its taken side: docs/METHOD.md, "Outcomes".

ghost use Rattle.std.specs.Prelude.{◌≡◌, ◌<◌, ◌≤◌, ◌+◌, ◌^◌, ◌++◌, [], cond, true, IfSome, length};
ghost use Rattle.flag_relation.specs.Facts.{values};
ghost use Rattle.abs_step.specs.Addresses.{find_cell};
ghost use Rattle.abs_step.specs.Results.{addressed, result_value};
ghost use Rattle.abs_step.specs.Conditions.{targets_lawful};
ghost use Rattle.abs_step.specs.OutcomeLists.{each, outcome};
ghost use Rattle.abs_step.specs.Outcomes.{linked_posts, performed};
ghost use Rattle.abs_step.specs.Stores.{source_post, spot, store_one, store_one_posts, store_several, store_several_posts};
ghost use Rattle.abs_step.specs.declared.outcome.TheConstants.{MOST_TARGETS};
ghost use Rattle.viper_decode.specs.declared.instructions.Instruction.TheVariants.{Compare, Assign, Jump, Output};

use crate::Post;
use crate::addresses::may_meet;
use crate::draft::Draft;
use crate::jumps::keep_targets;
use crate::operands::operand_value;
use crate::origins::{find_cell, flag_after, origin};
use crate::places::Places;
use crate::points::COUNT;
use crate::posts::Posts;
use crate::results::{is_call, result_value};
use crate::several::{several_posts, store_several};
use crate::spots::{has_several, one_address};
use crate::written::{assign, link_call, store_one};
use flag_relation::{Fact, Reg, Var};
use memory_plan::Plan;
use num_domain::NumDomain;
use viper_decode::{Operand, Place, Side, Source, Work};
use viper_word::{Addr, Kind};

/// The address after this one, which isn't the last.
pub(crate) fn next(at: Addr) -> Addr
    requires { at + 1 < 2 ^ 20 }
    ensures { result ≡ at + 1 }
{
    at.next()
}

/// The outcome of a comparison: what it says of B.
#[tactic(auto, unfolding(crate::specs::Outcomes::performed))]
pub(crate) fn compare<D: NumDomain>(
    plan: &Plan,
    cells: &[Addr],
    at: Addr,
    joins: bool,
    kind: Kind,
    source: Source,
    operand: &Operand,
    side: &Fact<D>,
    draft: &mut Draft<D>,
    places: &mut Places<D>,
)
    requires cells { length cells.now ≡ length side.now.cells }
    requires draft { draft.old ≡ length side.now.cells }
    requires places { places.old.cells ≡ length side.now.cells }
    requires room { length places.old.outcomes < places.old.room }
    requires next { at + 1 < 2 ^ 20 }
    ensures outcomes { places.new ≡ record places.old {
      outcomes = places.old.outcomes
          ++ performed D.domain plan.now cells.now at (Compare joins kind source operand.now)
          side.now;
    } }
    ensures draft { draft.new ≡ draft.old }
{
    if operand_value(plan, cells, side, operand).is_none() {
        return;
    }
    draft.after.copy_from(side);
    draft.after.set_flag(flag_after(plan, cells, side, joins, kind, source, operand));
    draft.posts.stay(cells);
    places.keep(next(at), side, &draft.after, &draft.posts);
}

/// The outcome of a result to a register.
#[tactic(auto, unfolding(crate::specs::Outcomes::performed))]
pub(crate) fn assign_to<D: NumDomain>(
    plan: &Plan,
    cells: &[Addr],
    at: Addr,
    to: Reg,
    work: &Work,
    side: &Fact<D>,
    draft: &mut Draft<D>,
    places: &mut Places<D>,
)
    requires cells { length cells.now ≡ length side.now.cells }
    requires draft { draft.old ≡ length side.now.cells }
    requires places { places.old.cells ≡ length side.now.cells }
    requires room { length places.old.outcomes < places.old.room }
    requires next { at + 1 < 2 ^ 20 }
    ensures outcomes { places.new ≡ record places.old {
      outcomes = places.old.outcomes
          ++ performed D.domain plan.now cells.now at (Assign to work.now) side.now;
    } }
    ensures draft { draft.new ≡ draft.old }
{
    let _count = side.count();
    let Some(value) = result_value(plan, cells, at, side, work) else {
        return;
    };
    draft.after.copy_from(side);
    assign(plan.profile(), cells, &mut draft.after, to, work, value);
    draft.posts.stay(cells);
    draft.posts.set_reg(to, origin(cells, work));
    places.keep(next(at), side, &draft.after, &draft.posts);
}

/// The outcome of an output: nothing changes.
#[tactic(auto, unfolding(crate::specs::Outcomes::performed))]
pub(crate) fn put_out<D: NumDomain>(
    plan: &Plan,
    cells: &[Addr],
    at: Addr,
    source: Source,
    place: &Place,
    side: &Fact<D>,
    draft: &mut Draft<D>,
    places: &mut Places<D>,
)
    requires cells { length cells.now ≡ length side.now.cells }
    requires draft { draft.old ≡ length side.now.cells }
    requires places { places.old.cells ≡ length side.now.cells }
    requires room { length places.old.outcomes < places.old.room }
    requires next { at + 1 < 2 ^ 20 }
    ensures outcomes { places.new ≡ record places.old {
      outcomes = places.old.outcomes
          ++ performed D.domain plan.now cells.now at (Output source place.now) side.now;
    } }
    ensures draft { draft.new ≡ draft.old }
{
    if !may_meet(place, side, 0, COUNT) {
        return;
    }
    draft.posts.stay(cells);
    places.keep(next(at), side, side, &draft.posts);
}

/// Says what a call does.
fn call_posts<D: NumDomain>(is_call: bool, cells: &[Addr], posts: &mut Posts)
    requires { length cells.now ≡ length posts.old.cells }
    ensures posts { posts.new ≡ linked_posts D.domain is_call cells.now }
    ensures count { length posts.new.cells ≡ length cells.now }
{
    posts.stay(cells);
    if is_call {
        posts.set_reg(Reg::Y, Post::Within);
    }
}

/// The outcomes of a jump: one for each target.
#[tactic(auto, unfolding(crate::specs::Outcomes::performed, crate::specs::Outcomes::jumps))]
pub(crate) fn jump<D: NumDomain>(
    plan: &Plan,
    cells: &[Addr],
    at: Addr,
    when: Side,
    work: &Work,
    side: &Fact<D>,
    draft: &mut Draft<D>,
    places: &mut Places<D>,
)
    requires cells { length cells.now ≡ length side.now.cells }
    requires draft { draft.old ≡ length side.now.cells }
    requires places { places.old.cells ≡ length side.now.cells }
    requires room { length places.old.outcomes + MOST_TARGETS ≤ places.old.room }
    requires next { at + 1 < 2 ^ 20 }
    requires targets { targets_lawful D.domain plan.now (result_value D.domain
        plan.now cells.now at (values side.now) side.now.flag work.now) ≡ true }
    ensures outcomes { places.new ≡ record places.old {
      outcomes = places.old.outcomes
          ++ performed D.domain plan.now cells.now at (Jump when work.now) side.now;
    } }
    ensures draft { draft.new ≡ draft.old }
{
    let Some(target) = result_value(plan, cells, at, side, work) else {
        return;
    };
    draft.after.copy_from(side);
    link_call(is_call(work), at, &mut draft.after);
    call_posts::<D>(is_call(work), cells, &mut draft.posts);
    keep_targets(plan, &target, side, &draft.after, &draft.posts, places);
}

/// What becomes of a cell that is stored to.
fn source_post<D: NumDomain>(source: Source) -> Post
    ensures { result ≡ source_post D.domain source }
{
    match source {
        Source::AfterP => Post::Within,
        Source::Of(r) => Post::Plus(Var::Reg(r), 0),
    }
}

/// Says what a store at one address does.
fn store_posts<D: NumDomain>(cells: &[Addr], source: Source, cell: Option<u8>, posts: &mut Posts)
    requires count { length cells.now ≡ length posts.old.cells }
    requires cell { IfSome cell (λ i. i < length posts.old.cells) }
    ensures posts { posts.new ≡ store_one_posts D.domain cells.now source cell }
    ensures count { length posts.new.cells ≡ length cells.now }
{
    posts.stay(cells);
    if let Some(i) = cell {
        posts.set_cell(i, source_post::<D>(source));
    }
}

/// The outcome of a store at one address.
pub(crate) fn store_at_one<D: NumDomain>(
    cells: &[Addr],
    at: Addr,
    source: Source,
    place: &Place,
    side: &Fact<D>,
    draft: &mut Draft<D>,
    places: &mut Places<D>,
)
    requires cells { length cells.now ≡ length side.now.cells }
    requires draft { draft.old ≡ length side.now.cells }
    requires places { places.old.cells ≡ length side.now.cells }
    requires room { length places.old.outcomes < places.old.room }
    requires next { at + 1 < 2 ^ 20 }
    ensures outcomes { places.new ≡ record places.old {
      outcomes = places.old.outcomes
          ++ each (spot D.domain place.now (values side.now)).one
          (λ n. outcome D.domain (at + 1) side.now
          (store_one D.domain at side.now source (find_cell cells.now n))
          (store_one_posts D.domain cells.now source (find_cell cells.now n)));
    } }
    ensures draft { draft.new ≡ draft.old }
{
    let _count = side.count();
    let Some(n) = one_address(place, side) else {
        return;
    };
    let cell = find_cell(cells, n);
    draft.after.copy_from(side);
    store_one(at, &mut draft.after, source, cell);
    store_posts::<D>(cells, source, cell, &mut draft.posts);
    places.keep(next(at), side, &draft.after, &draft.posts);
}

/// The outcome of a store at one of several addresses.
pub(crate) fn store_at_several<D: NumDomain>(
    cells: &[Addr],
    at: Addr,
    source: Source,
    place: &Place,
    side: &Fact<D>,
    draft: &mut Draft<D>,
    places: &mut Places<D>,
)
    requires cells { length cells.now ≡ length side.now.cells }
    requires draft { draft.old ≡ length side.now.cells }
    requires places { places.old.cells ≡ length side.now.cells }
    requires room { length places.old.outcomes < places.old.room }
    requires next { at + 1 < 2 ^ 20 }
    ensures outcomes { places.new ≡ record places.old {
      outcomes = places.old.outcomes
          ++ cond (spot D.domain place.now (values side.now)).several
          (outcome D.domain (at + 1) side.now
          (store_several D.domain (addressed D.domain place.now (values side.now)) cells.now at
          side.now source)
          (store_several_posts D.domain (addressed D.domain place.now (values side.now))
          cells.now)) [];
    } }
    ensures draft { draft.new ≡ draft.old }
{
    if !has_several(place, side) {
        return;
    }
    store_several(at, place, side, cells, source, &mut draft.after);
    several_posts(place, side, cells, &mut draft.posts);
    places.keep(next(at), side, &draft.after, &draft.posts);
}
