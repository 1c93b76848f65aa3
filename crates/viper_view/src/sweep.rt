//! A fact at a key of which a condition fails. The search of `certify` names key and condition and
//! hands out no fact, so the way there is gone once more, over the same calls and in the same order
//! (docs/METHOD.md, "Candidates and solutions").

ghost use Rattle.std.specs.Prelude.{◌≡◌, length};

use crate::steps::{copied, fields_at};
use abs_step::{Cond, Outcome, Scratch, outcomes, start_fact};
use flag_relation::{Fact, MOST_CELLS, Spare};
use flow_recover::{Context, Key, cells_of, next_context, thresholds_of};
use memory_plan::{Plan, Start};
use num_domain::Thresholds;
use std::alloc::{AllocError, Global};
use std::collections::{BTreeMap, BTreeSet};
use val_dom::Val;
use viper_word::{Addr, Memory};

/// What is known at a key, and the key that first led there.
#[derive(Drop)]
pub struct Known {
    pub fact: Fact<Val>,
    pub from: Option<Key>,
}

/// A key at which a condition fails of what is known there.
#[derive(Drop)]
pub struct Failing {
    pub key: Key,
    pub known: Known,
    pub cond: Cond,
    pub cells: Vec<Addr>,
}

/// What is known so far, and the keys whose facts changed since their outcomes were taken.
#[derive(Drop)]
struct Sweep {
    known: BTreeMap<Key, Known>,
    pending: BTreeSet<Key>,
}

/// Joins a fact into another. Did that change it?
fn join(known: &mut Fact<Val>, fact: &Fact<Val>) -> bool {
    known.count() == fact.count() && known.join_with(fact)
}

/// What arrives at the target of an outcome at an address: the fact after it, rounded where the
/// target isn't above.
fn arriving(
    alloc: Global,
    thresholds: &Thresholds,
    at: Addr,
    out: &Outcome<Val>,
) -> Result<Fact<Val>, Memory> {
    let mut fact = copied(alloc, &out.after)?;
    if out.target <= at {
        let mut spare = Spare::new(alloc, fact.count() as u8)?;
        fact.round(thresholds, &mut spare);
    }
    Ok(fact)
}

impl Sweep {
    /// Joins a fact into a key, which is pending from then on if that changed what is known there.
    fn give(&mut self, key: Key, fact: Fact<Val>, from: Option<Key>) -> Result<(), AllocError> {
        match self.known.get_mut(&key) {
            Some(known) => {
                if join(&mut known.fact, &fact) {
                    self.pending.insert(key)?;
                }
            }
            None => {
                self.known.insert(key.copied(), Known { fact, from })?;
                self.pending.insert(key)?;
            }
        }
        Ok(())
    }

    /// Gives the fact of a start to its key.
    fn start(
        &mut self,
        alloc: Global,
        plan: &Plan,
        cells: &[Addr],
        start: &Start,
    ) -> Result<(), Memory> {
        if cells.len() > MOST_CELLS as usize {
            return Ok(());
        }
        let mut fact = Fact::new(alloc, cells.len() as u8)?;
        start_fact(plan, cells, start, &mut fact);
        let key = Key {
            addr: start.at,
            context: Context::empty(),
        };
        Ok(self.give(key, fact, None)?)
    }

    /// Takes a key: gives what follows from its fact to the keys that this leads to, or answers the
    /// condition that fails. `scratch` has room for the cells.
    fn take(
        &mut self,
        alloc: Global,
        plan: &Plan,
        cells: &[Addr],
        thresholds: &Thresholds,
        key: &Key,
        scratch: &mut Scratch<Val>,
    ) -> Result<Option<Cond>, Memory>
        requires { scratch.old.cells ≡ length cells.now }
        ensures { scratch.new.cells ≡ scratch.old.cells }
    {
        let Some(known) = self.known.get(key) else {
            return Ok(None);
        };
        if known.fact.count() != cells.len() {
            return Ok(None);
        }
        if let Err(cond) = outcomes(plan, cells, key.addr, &known.fact, scratch) {
            return Ok(Some(cond));
        }
        self.give_all(alloc, plan, thresholds, key, scratch.outcomes_in())?;
        Ok(None)
    }

    /// Gives what follows from the fact at a key, which has these outcomes.
    fn give_all(
        &mut self,
        alloc: Global,
        plan: &Plan,
        thresholds: &Thresholds,
        key: &Key,
        outs: &[Outcome<Val>],
    ) -> Result<(), Memory> {
        for out in outs {
            let fact = arriving(alloc, thresholds, key.addr, out)?;
            let to = next_context(key, fields_at(plan, key.addr), out.target);
            self.give(to, fact, Some(key.copied()))?;
        }
        Ok(())
    }

    /// Takes pending keys, the least one first, until a condition fails, and answers its key. None
    /// where no key is pending any more.
    fn run(
        &mut self,
        alloc: Global,
        plan: &Plan,
        cells: &[Addr],
        thresholds: &Thresholds,
        scratch: &mut Scratch<Val>,
    ) -> Result<Option<(Key, Cond)>, Memory>
        requires { scratch.old.cells ≡ length cells.now }
    {
        for _ in 0..u64::MAX {
            let Some(key) = self.pending.pop_first() else {
                return Ok(None);
            };
            if let Some(cond) = self.take(alloc, plan, cells, thresholds, &key, scratch)? {
                return Ok(Some((key, cond)));
            }
        }
        Ok(None)
    }
}

/// A key at which a condition fails, with what is known there. None where none fails.
pub fn first_failing(alloc: Global, plan: &Plan) -> Result<Option<Failing>, Memory> {
    let cells = cells_of(alloc, plan)?;
    if cells.len() > MOST_CELLS as usize {
        return Ok(None);
    }
    let thresholds = thresholds_of(alloc, plan)?;
    let mut scratch = Scratch::new(alloc, cells.len() as u8)?;
    let mut sweep = Sweep {
        known: BTreeMap::new(alloc),
        pending: BTreeSet::new(alloc),
    };
    for start in plan.starts() {
        sweep.start(alloc, plan, &cells, start)?;
    }
    let Some((key, cond)) = sweep.run(alloc, plan, &cells, &thresholds, &mut scratch)? else {
        return Ok(None);
    };
    let Some(known) = sweep.known.remove(&key) else {
        return Ok(None);
    };
    Ok(Some(Failing {
        key,
        known,
        cond,
        cells,
    }))
}
