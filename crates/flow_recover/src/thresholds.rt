//! The numbers that facts are rounded to.

ghost use Rattle.std.specs.Prelude.{◌≡◌, ◌++◌, IfOk, OnOk};
ghost use Rattle.std.specs.List.{flat_map};
ghost use Rattle.flow_recover.specs.Thresholds.{near_field, ends_of, ends_at, ends_of_start, numbers_of, thresholds_of};

use memory_plan::{Plan, Range, Start};
use num_domain::Thresholds;
use std::alloc::{AllocError, Global};
use viper_decode::decode;
use viper_word::{Addr, Memory, Word};

/// Adds the field of a word of code, and the numbers before and after it.
fn add_near(plan: &Plan, at: Addr, word: Word, into: &mut Vec<i64>) -> Result<(), AllocError>
    ensures { OnOk result (into.new.items ≡ into.old.items ++ near_field plan.now (at, word.0)) }
{
    if plan.in_code(at) {
        let field = decode(word).field.get() as i64;
        into.push(field)?;
        into.push(field - 1)?;
        into.push(field + 1)?;
    }
    Ok(())
}

/// Adds those of all words of code.
fn add_code(plan: &Plan, into: &mut Vec<i64>) -> Result<(), AllocError>
    ensures { OnOk result (into.new.items
        ≡ into.old.items ++ flat_map (near_field plan.now) plan.now.image) }
{
    for entry in plan.image_words() {
        add_near(plan, entry.0, entry.1, into)?;
    }
    Ok(())
}

/// Adds both ends of a range.
fn add_ends(range: &Range, into: &mut Vec<i64>) -> Result<(), AllocError>
    ensures { OnOk result (into.new.items ≡ into.old.items ++ ends_of range.now) }
{
    into.push(range.lo)?;
    into.push(range.hi)?;
    Ok(())
}

/// Adds those of the spans' ranges.
fn add_spans(spans: &[(Addr, Addr, Range)], into: &mut Vec<i64>) -> Result<(), AllocError>
    ensures { OnOk result (into.new.items ≡ into.old.items ++ flat_map ends_at spans.now) }
{
    for span in spans {
        add_ends(&span.2, into)?;
    }
    Ok(())
}

/// Adds those of a start's ranges.
fn add_start(start: &Start, into: &mut Vec<i64>) -> Result<(), AllocError>
    ensures { OnOk result (into.new.items ≡ into.old.items ++ ends_of_start start.now) }
{
    add_ends(&start.a, into)?;
    add_ends(&start.x, into)?;
    add_ends(&start.y, into)
}

/// Adds those of all starts' ranges.
fn add_starts(starts: &[Start], into: &mut Vec<i64>) -> Result<(), AllocError>
    ensures { OnOk result (into.new.items ≡ into.old.items ++ flat_map ends_of_start starts.now) }
{
    for start in starts {
        add_start(start, into)?;
    }
    Ok(())
}

/// The numbers that the plan gives.
fn numbers_of(alloc: Global, plan: &Plan) -> Result<Vec<i64>, AllocError>
    ensures { IfOk result (λ v. v.items ≡ numbers_of plan.now) }
{
    let mut numbers = Vec::from_slice(alloc, &[-1, 0, 1])?;
    add_code(plan, &mut numbers)?;
    add_spans(plan.data_spans(), &mut numbers)?;
    add_spans(plan.input_spans(), &mut numbers)?;
    add_spans(plan.output_spans(), &mut numbers)?;
    add_starts(plan.starts(), &mut numbers)?;
    numbers.extend_from_slice(plan.thresholds())?;
    Ok(numbers)
}

/// The numbers that facts are rounded to: both ends of the signed words; -1, 0 and 1; the field of
/// each word of code, that number less 1 and plus 1; both ends of the ranges of data, inputs,
/// outputs and starts; and the plan's thresholds. docs/METHOD.md, "Thresholds". `Memory` for want
/// of memory.
pub fn thresholds_of(alloc: Global, plan: &Plan) -> Result<Thresholds, Memory>
    ensures { IfOk result (λ t. t ≡ thresholds_of plan.now) }
{
    let numbers = numbers_of(alloc, plan)?;
    Thresholds::new(alloc, &numbers)
}
