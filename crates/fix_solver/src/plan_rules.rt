//! The rules of a plan, as the search asks for them.

ghost use Rattle.std.specs.Prelude.{◌≡◌, ◌<◌, ◌≤◌, cond, nat_le, length, map, IfOk, slice_get, Some};
ghost use Rattle.flag_relation.specs.declared.fact.TheConstants.{MOST_CELLS};
ghost use Rattle.memory_plan.specs.Plans.{PlanLines};
ghost use Rattle.fix_solver.specs.Solutions.{fields_at, arriving, arrival, start_at, rules_over};
ghost use Rattle.fix_solver.specs.Rooms.{AllHave, Arrives, HasRoom};

use crate::rules::Rules;
use abs_step::{Cond, Scratch, outcomes, start_fact};
use flag_relation::{Fact, Spare};
use flow_recover::{Context, Key, next_context};
use memory_plan::Plan;
use num_domain::{NumDomain, Thresholds};
use std::alloc::Global;
use std::marker::PhantomData;
use viper_decode::{Fields, decode};
use viper_word::{Addr, Memory, Word};

/// A fact of one's own, and room to round it.
#[derive(Drop)]
pub(crate) struct Hand<D> {
    fact: Fact<D>,
    spare: Spare<D>,
}

impl<D: NumDomain> Hand<D> {
    /// Takes over what arrives at the target of an outcome, and answers the target.
    fn arrive(&mut self, at: Addr, outs: &Scratch<D>, i: usize, thresholds: &Thresholds) -> Addr
        requires within { i < length outs.now.outcomes }
        requires outs { AllHave (length self.old.fact.cells) outs.now.outcomes }
        requires spare { self.old.spare ≡ length self.old.fact.cells }
        ensures arrived { Arrives D.domain thresholds.now at
            (slice_get outs.now.outcomes i) result self.new.fact }
        ensures count { length self.new.fact.cells ≡ length self.old.fact.cells }
        ensures spare { self.new.spare ≡ self.old.spare }
    {
        let out = &outs.outcomes_in()[i];
        let Hand { fact, spare } = self;
        fact.copy_from(&out.after);
        if out.target <= at {
            fact.round(thresholds, spare);
        }
        out.target
    }
}

/// Room for the outcomes of a fact at a key.
#[derive(Drop)]
pub(crate) struct Room<D> {
    key: Key,
    outs: Scratch<D>,
    hand: Hand<D>,
}

impl<D: NumDomain> Room<D> {
    /// Room for facts over so many cells, at most 32.
    pub(crate) fn new(alloc: Global, cells: u8) -> Result<Room<D>, Memory>
        requires { cells ≤ MOST_CELLS }
        ensures { IfOk result (HasRoom cells) }
    {
        Ok(Room {
            key: Key {
                addr: Addr::new(0).unwrap(),
                context: Context::empty(),
            },
            outs: Scratch::new(alloc, cells)?,
            hand: Hand {
                fact: Fact::new(alloc, cells)?,
                spare: Spare::new(alloc, cells)?,
            },
        })
    }
}

/// The numbers of the word of code at an address; those of the word 0 where there is none.
fn fields_at(plan: &Plan, at: Addr) -> Fields
    ensures { result ≡ fields_at plan.now at }
{
    match plan.code_word(at) {
        Some(word) => decode(word),
        None => decode(Word(0)),
    }
}

/// The rules of a plan over cells and thresholds.
#[derive(Drop)]
pub(crate) struct PlanRules<'a, D> {
    pub(crate) plan: &'a Plan,
    pub(crate) cells: &'a [Addr],
    pub(crate) thresholds: &'a Thresholds,
    pub(crate) of: PhantomData<D>,
}

impl<'a, D: NumDomain> Rules for PlanRules<'a, D> {
    type Fact = Fact<D>;

    type Scratch = Room<D>;

    ghost use Rattle.fix_solver.specs.evidence.PlanLaws.{rules_laws};

    ghost meaning = { λ s. rules_over D.domain s.plan.now s.cells.now s.thresholds.now };

    ghost has_room = { λ s r. HasRoom (length s.cells.now) r };

    ghost held = { λ s r.
        map (arrival D.domain s.plan.now s.thresholds.now r.key) r.outs.outcomes };

    ghost in_hand = { λ r. r.hand.fact };

    ghost laws = { λ s. rules_laws D.domain D.laws s.plan.now s.cells.now s.thresholds.now };

    fn start_count(&self) -> usize {
        self.plan.starts().len()
    }

    fn start(&self, i: usize, room: &mut Room<D>) -> Key {
        let start = &self.plan.starts()[i];
        start_fact(self.plan, self.cells, start, &mut room.hand.fact);
        Key {
            addr: start.at,
            context: Context::empty(),
        }
    }

    fn outcomes(&self, key: &Key, fact: &Fact<D>, room: &mut Room<D>) -> Result<(), Cond> {
        room.key = key.copied();
        outcomes(self.plan, self.cells, key.addr, fact, &mut room.outs)
    }

    fn outcome_count(&self, room: &Room<D>) -> usize {
        room.outs.outcomes_in().len()
    }

    fn outcome(&self, i: usize, room: &mut Room<D>) -> Key {
        let at = room.key.addr;
        let target = room.hand.arrive(at, &room.outs, i, self.thresholds);
        next_context(&room.key, fields_at(self.plan, at), target)
    }

    fn hand<'b>(&self, room: &'b Room<D>) -> &'b Fact<D> {
        &room.hand.fact
    }

    fn join(&self, fact: &mut Fact<D>, other: &Fact<D>) -> bool {
        fact.join_with(other)
    }

    fn copy(&self, alloc: Global, fact: &Fact<D>) -> Result<Fact<D>, Memory> {
        let mut copy = Fact::new(alloc, fact.count() as u8)?;
        copy.copy_from(fact);
        Ok(copy)
    }
}
