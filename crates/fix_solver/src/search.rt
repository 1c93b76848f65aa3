//! The search for the least solution.

ghost use Rattle.std.specs.Prelude.{◌≡◌, ◌<◌, ◌≤◌, ◌||◌, ◌⊎◌, [], length, IfOk, IfErr, OnOk, List, Option};
ghost use Rattle.std.specs.List.{AllByRecursion};
ghost use Rattle.flow_recover.specs.declared.key.Key.{Key};
ghost use Rattle.flow_recover.specs.Keys.{same_key};
ghost use Rattle.fix_solver.specs.Pending.{is_pending};
ghost use Rattle.fix_solver.specs.Rules.{Fits, MapBelow};
ghost use Rattle.fix_solver.specs.Solutions.{IsSolution, IsLeastSolution, HasKeys};
ghost use Rattle.fix_solver.specs.Solved.{IsSolved};
ghost use Rattle.fix_solver.specs.Tables.{fact_at};
ghost use Rattle.fix_solver.specs.declared.table.TheConstants.{MOST_KEYS};
ghost use Rattle.fix_solver.specs.Faults.{IsTrueFault, IsMemory};
ghost use Rattle.fix_solver.specs.Work.{IsWork, IsGiven, IsPaid, IsFull};

use crate::fault::SolveFault;
use crate::found::Found;
use crate::pending::Pending;
use crate::rules::Rules;
use crate::table::{MOST_KEYS, Table};
use flow_recover::Key;
use std::alloc::Global;

/// Joins a fact into its key, which is pending from then on if that changed, and answers the key's
/// number.
fn give<R: Rules>(
    alloc: Global,
    rules: &R,
    table: &mut Table<R::Fact>,
    pending: &mut Pending,
    key: Key,
    fact: &R::Fact,
) -> Result<u32, SolveFault>
    requires fit { AllByRecursion (λ e. Fits (R.meaning rules.now) e.fact) table.old.known }
    requires fits { Fits (R.meaning rules.now) fact.now }
    ensures given { IfOk result (IsGiven (R.meaning rules.now) table.old pending.old
        (record { key = key; fact = fact.now }) table.new pending.new) }
    ensures fault { IfErr result (IsFull table.old.known key) }
{
    match table.number(&key) {
        Some(i) => {
            if table.join(rules, i, fact) {
                pending.put(key)?;
            }
            Ok(i as u32)
        }
        None => {
            let i = table.len();
            if i == MOST_KEYS {
                return Err(SolveFault::Nodes(table.keys_and(alloc, key)?));
            }
            let copy = rules.copy(alloc, fact)?;
            table.add(key.copied(), copy)?;
            pending.put(key)?;
            Ok(i as u32)
        }
    }
}

/// Takes a key: tests its conditions, and gives what follows from its fact to the keys that this
/// leads to.
fn apply<R: Rules>(
    alloc: Global,
    rules: &R,
    table: &mut Table<R::Fact>,
    pending: &mut Pending,
    key: &Key,
    scratch: &mut R::Scratch,
) -> Result<(), SolveFault>
    requires work { IsWork (R.meaning rules.now) table.old
        (λ k. same_key key.now k || is_pending pending.old k) }
    requires room { R.has_room rules.now scratch.old }
    ensures work { OnOk result (IsWork (R.meaning rules.now) table.new (is_pending pending.new)) }
    ensures grows { OnOk result (MapBelow (R.meaning rules.now)
        (fact_at table.old.known) (fact_at table.new.known)) }
    ensures paid { OnOk result
        (IsPaid (R.meaning rules.now) table.old pending.old table.new pending.new) }
    ensures room { R.has_room rules.now scratch.new }
    ensures fault { IfErr result (IsTrueFault (R.meaning rules.now)) }
{
    let i = table.number(key).unwrap();
    match rules.outcomes(key, table.fact(i), scratch) {
        Ok(()) => {}
        Err(cond) => return Err(SolveFault::Undischarged(key.copied(), cond)),
    }
    let mut succ = Vec::new(alloc);
    for j in 0..rules.outcome_count(scratch) {
        let to = rules.outcome(j, scratch);
        let number = give(alloc, rules, table, pending, to, rules.hand(scratch))?;
        succ.push(number)?;
    }
    table.set_succ(i, succ);
    Ok(())
}

/// Takes pending keys, the least one first, until a key is new or none is pending.
fn run<R: Rules>(
    alloc: Global,
    rules: &R,
    table: &mut Table<R::Fact>,
    pending: &mut Pending,
    scratch: &mut R::Scratch,
    applied: &mut u64,
) -> Result<(), SolveFault>
    requires work { IsWork (R.meaning rules.now) table.old (is_pending pending.old) }
    requires room { R.has_room rules.now scratch.old }
    ensures work { OnOk result (IsWork (R.meaning rules.now) table.new (is_pending pending.new)) }
    ensures grows { OnOk result (MapBelow (R.meaning rules.now)
        (fact_at table.old.known) (fact_at table.new.known)) }
    ensures ends { OnOk result ((length table.old.known < length table.new.known)
        ⊎ ((length table.new.known ≡ length table.old.known) × (pending.new ≡ []))) }
    ensures few { OnOk result (length table.new.known ≤ MOST_KEYS) }
    ensures room { R.has_room rules.now scratch.new }
    ensures fault { IfErr result (IsTrueFault (R.meaning rules.now)) }
{
    let known = table.len();
    while let Some(key) = pending.pop() {
        *applied = applied.saturating_add(1);
        apply(alloc, rules, table, pending, &key, scratch)?;
        if known < table.len() {
            return Ok(());
        }
    }
    Ok(())
}

/// The facts of the least solution, in the order in which their keys were found.
fn find<R: Rules>(
    alloc: Global,
    rules: &R,
    scratch: &mut R::Scratch,
    applied: &mut u64,
) -> Result<Table<R::Fact>, SolveFault>
    requires { R.has_room rules.now scratch.old }
    ensures least { IfOk result (λ t. IsLeastSolution (R.meaning rules.now) (fact_at t.known)) }
    ensures work { IfOk result (λ t. IsWork (R.meaning rules.now) t (is_pending [])) }
    ensures fault { IfErr result (IsTrueFault (R.meaning rules.now)) }
{
    let mut table = Table::new(alloc);
    let mut pending = Pending::new(alloc);
    for i in 0..rules.start_count() {
        let key = rules.start(i, scratch);
        give(
            alloc,
            rules,
            &mut table,
            &mut pending,
            key,
            rules.hand(scratch),
        )?;
    }
    'rounds: while !pending.is_empty() {
        run(alloc, rules, &mut table, &mut pending, scratch, applied)?;
    }
    Ok(table)
}

/// The least solution of the rules, in which all conditions hold at every key, or why there is
/// none. Where there is a solution with at most 65,536 keys, only memory can be wanting. Takes the
/// least pending key first.
pub(crate) fn least<R: Rules>(
    alloc: Global,
    rules: &R,
    scratch: &mut R::Scratch,
) -> Result<Found<R::Fact>, SolveFault>
    requires { R.has_room rules.now scratch.old }
    ensures complete { (m : Key → Option R.Fact) (ks : List Key)
        → IsSolution (R.meaning rules.now) m → HasKeys m ks → length ks ≤ MOST_KEYS
        → IfErr result IsMemory }
    ensures solved { IfOk result (λ s. IsSolved (R.meaning rules.now) s.nodes) }
    ensures fault { IfErr result (IsTrueFault (R.meaning rules.now)) }
{
    let mut applied = 0;
    let table = find(alloc, rules, scratch, &mut applied)?;
    Ok(table.in_order(alloc, applied)?)
}
