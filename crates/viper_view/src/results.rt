//! Why C4 or C5 fails: a result that no word can hold, or that is no target.

use crate::number_words::Numbers;
use crate::operands::{OperandIs, OperandName, Spot, operand_value, source_name, source_value};
use crate::places::address_of;
use num_domain::NumDomain;
use val_dom::Val;
use viper_decode::{Function, Instruction, Operand, Source, Work};
use viper_word::{Addr, GREATEST_SIGNED, LEAST_SIGNED, Memory};

/// How many targets a jump may have at the most.
const MOST_TARGETS: usize = 64;

/// The one of two numbers that no word can hold.
fn unheld(low: i64, high: i64) -> i64 {
    if low < LEAST_SIGNED { low } else { high }
}

/// Appends why a sum or a difference may pass the signed words.
fn push_sum(
    text: &mut String,
    spot: &Spot<'_>,
    source: Source,
    operand: &Operand,
    is_sum: bool,
) -> Result<(), Memory> {
    let Some(value) = operand_value(spot, operand) else {
        return Ok(write!(text, "the result may pass the signed words")?);
    };
    let r = Numbers::of(&source_value(spot, source));
    let m = Numbers::of(&value);
    let (done, what, number) = if is_sum {
        let number = unheld(r.lo.saturating_add(m.lo), r.hi.saturating_add(m.hi));
        ("added", "sum", number)
    } else {
        let number = unheld(r.lo.saturating_sub(m.hi), r.hi.saturating_sub(m.lo));
        ("taken away", "difference", number)
    };
    let name = OperandName { operand };
    let is = OperandIs {
        operand,
        value: &value,
    };
    write!(
        text,
        "{} is {r} and {name} is {done}{is}; ",
        source_name(source)
    )?;
    write!(text, "the {what} may be {number}")?;
    Ok(())
}

/// Appends why a negative may pass the signed words.
fn push_negative(text: &mut String, operand: &Operand) -> Result<(), Memory> {
    let name = OperandName { operand };
    let number = GREATEST_SIGNED + 1;
    write!(
        text,
        "{name} is negated, and may be {LEAST_SIGNED}; the negative may be {number}"
    )?;
    Ok(())
}

/// Appends why a double may pass the signed words.
fn push_double(text: &mut String, spot: &Spot<'_>, source: Source) -> Result<(), Memory> {
    let r = Numbers::of(&source_value(spot, source));
    let number = unheld(r.lo.saturating_mul(2), r.hi.saturating_mul(2));
    let name = source_name(source);
    write!(
        text,
        "{name} is {r} and is doubled; the double may be {number}"
    )?;
    Ok(())
}

/// Appends why C4 fails of some work.
fn push_inexact(text: &mut String, spot: &Spot<'_>, work: &Work) -> Result<(), Memory> {
    match work {
        Work::Apply(Function::Adds, source, operand) => push_sum(
            text, spot, *source, operand, true,
        ),
        Work::Apply(Function::Subs, source, operand) => {
            push_sum(text, spot, *source, operand, false)
        }
        Work::Apply(_, _, operand) => push_negative(text, operand),
        Work::Move(_, source) => push_double(text, spot, *source),
    }
}

/// Appends why C4 fails of an instruction.
pub fn push_overflow(
    text: &mut String,
    spot: &Spot<'_>,
    instruction: &Instruction,
) -> Result<(), Memory> {
    match instruction {
        Instruction::Assign(_, work) | Instruction::Jump(_, work) => push_inexact(text, spot, work),
        Instruction::Compare(_, _, _, _) | Instruction::Output(_, _) | Instruction::Store(_, _) =>
            Ok(()),
    }
}

/// The value of a jump's result, as far as signed words go.
fn target_value(spot: &Spot<'_>, work: &Work) -> Option<Val> {
    match work {
        Work::Apply(Function::Adds, source, operand) => {
            source_value(spot, *source).add(&operand_value(spot, operand)?)
        }
        Work::Apply(Function::Subs, source, operand) => {
            source_value(spot, *source).sub(&operand_value(spot, operand)?)
        }
        Work::Apply(_, _, operand) => operand_value(spot, operand),
        Work::Move(_, _) => None,
    }
}

/// Appends how a jump's target is made.
fn push_made(text: &mut String, work: &Work) -> Result<(), Memory> {
    match work {
        Work::Apply(Function::Adds, source, operand) => {
            let name = OperandName { operand };
            write!(text, "the target is {} plus {name}", source_name(*source))?;
        }
        Work::Apply(Function::Subs, source, operand) => {
            let name = OperandName { operand };
            write!(text, "the target is {} less {name}", source_name(*source))?;
        }
        Work::Apply(_, _, Operand::Literal(at)) => {
            write!(text, "the target is {:05X}", at.get())?;
        }
        Work::Apply(_, _, operand) => {
            write!(text, "the target is {}", OperandName { operand })?;
        }
        Work::Move(_, _) => write!(text, "the target is a shifted word")?,
    }
    Ok(())
}

/// The first point of the value that is an address and isn't in code.
fn first_uncoded(spot: &Spot<'_>, value: &Val) -> Option<Addr> {
    let mut from = 0;
    for _ in 0..=Addr::LAST {
        let at = address_of(value.least_from(from)?)?;
        if !spot.plan.in_code(at) {
            return Some(at);
        }
        from = i64::from(at.get()) + 1;
    }
    None
}

/// Appends what of a jump's result is no target.
fn push_no_target(text: &mut String, spot: &Spot<'_>, value: &Val) -> Result<(), Memory> {
    let numbers = Numbers::of(value);
    if numbers.lo < 0 {
        write!(text, "it may be {}, below 00000", numbers.lo)?;
    } else if numbers.hi > i64::from(Addr::LAST) {
        write!(text, "it may be {}, above FFFFF", numbers.hi)?;
    } else if let Some(at) = first_uncoded(spot, value) {
        write!(text, "it may be {:05X}, which is not in code", at.get())?;
    } else {
        write!(text, "these are more than {MOST_TARGETS} addresses")?;
    }
    Ok(())
}

/// Appends why C5 fails of an instruction.
pub fn push_target(
    text: &mut String,
    spot: &Spot<'_>,
    instruction: &Instruction,
) -> Result<(), Memory> {
    let Instruction::Jump(_, work) = instruction else {
        return Ok(());
    };
    push_made(text, work)?;
    match target_value(spot, work) {
        None => Ok(()),
        Some(value) => {
            write!(text, ", that is {}; ", Numbers::of(&value))?;
            push_no_target(text, spot, &value)
        }
    }
}
