//! The words of memory that are tracked.

ghost use Rattle.std.specs.Prelude.{◌≡◌, ◌≤◌, ◌&&◌, cond, is_some, Some, None, take, length, IfOk, OnOk};
ghost use Rattle.std.specs.List.Sorted.{IsStrictlySortedBy};
ghost use Rattle.std.specs.Ordering.{nat_cmp};
ghost use Rattle.flow_recover.specs.declared.cells.TheConstants.{MOST_CELLS};
ghost use Rattle.flow_recover.specs.Cells.{names_memory, named_by, with_named, AreCells, cells_of};

use memory_plan::Plan;
use std::alloc::{AllocError, Global};
use std::collections::BTreeSet;
use viper_decode::{Fields, decode, function, is_function, is_store, mode};
use viper_word::{Addr, Memory, Word};

/// How many words of memory are tracked at the most.
const MOST_CELLS: usize = 32;

/// Does a word with these numbers name an address of memory by its field alone?
fn names_memory(i: Fields) -> bool
    ensures { result ≡ names_memory i }
{
    i.m == mode::AT_FIELD
        && (i.c
            || is_store(i)
            || (is_function(i) && !(i.f == function::INP || i.f == function::SHIFT)))
}

/// The cell that a word of the image names. None exactly where it isn't in code, or names no
/// address of data.
fn named(plan: &Plan, at: Addr, word: Word) -> Option<Addr>
    ensures { result ≡ named_by plan.now (at, word.0) }
{
    let fields = decode(word);
    if plan.in_code(at) && names_memory(fields) && plan.data_range(fields.field).is_some() {
        Some(fields.field)
    } else {
        None
    }
}

/// Puts the cell that a word of the image names among those that were found.
fn put_named(
    plan: &Plan,
    at: Addr,
    word: Word,
    found: &mut BTreeSet<Addr>,
) -> Result<(), AllocError>
    ensures { OnOk result (found.new.keys ≡ with_named plan.now (at, word.0) found.old.keys) }
{
    if let Some(cell) = named(plan, at, word) {
        found.insert(cell)?;
    }
    Ok(())
}

/// The cells that the plan's words of code name.
fn all_named(alloc: Global, plan: &Plan) -> Result<BTreeSet<Addr>, AllocError>
    ensures { IfOk result (λ s. AreCells plan.now s.keys) }
{
    let mut found = BTreeSet::new(alloc);
    for entry in plan.image_words() {
        put_named(plan, entry.0, entry.1, &mut found)?;
    }
    Ok(found)
}

/// The lowest of the addresses, as many as are tracked.
fn lowest(alloc: Global, found: BTreeSet<Addr>) -> Result<Vec<Addr>, AllocError>
    ensures lowest { IfOk result (λ v. v.items ≡ take MOST_CELLS found.keys) }
    ensures ascending { IfOk result (λ v. IsStrictlySortedBy nat_cmp found.keys) }
{
    let mut cells: Vec<Addr> = found.into_iter().collect(alloc)?;
    cells.truncate(MOST_CELLS);
    Ok(cells)
}

/// The addresses of the words of memory that facts track, in ascending order: the 32 lowest data
/// addresses that a word of code names. Words are looked at whether or not they are legal.
/// docs/METHOD.md, "Cells". `Memory` for want of memory.
pub fn cells_of(alloc: Global, plan: &Plan) -> Result<Vec<Addr>, Memory>
    ensures { IfOk result (λ v. v.items ≡ cells_of plan.now) }
{
    Ok(lowest(alloc, all_named(alloc, plan)?)?)
}
