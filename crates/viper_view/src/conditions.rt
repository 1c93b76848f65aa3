//! Why one of C1 to C7 fails at a place, with its numbers (docs/METHOD.md, "Conditions").

use crate::fact_words::FactWords;
use crate::illegal::push_illegal;
use crate::listing::line_at;
use crate::operands::Spot;
use crate::results::{push_overflow, push_target};
use crate::uses::push_uses;
use abs_step::Cond;
use flag_relation::{Fact, Spare, assume};
use std::alloc::Global;
use val_dom::Val;
use viper_decode::{Instruction, Side, decode, instruction, legal};
use viper_word::{Addr, Memory};

/// Appends why C1 fails: that the address isn't in code, or is the last one.
fn push_no_code(text: &mut String, spot: &Spot<'_>) -> Result<(), Memory> {
    let at = spot.at.get();
    if at == Addr::LAST {
        write!(
            text,
            "{at:05X} is the last address, and none comes after it"
        )?;
    } else {
        write!(text, "{at:05X} is not in code")?;
    }
    Ok(())
}

/// What B is where a jump is taken. None where that doesn't matter.
fn truth_of(instruction: &Instruction) -> Option<bool> {
    match instruction {
        Instruction::Jump(Side::IfB, _) => Some(true),
        Instruction::Jump(Side::IfNotB, _) => Some(false),
        Instruction::Jump(Side::Always, _)
        | Instruction::Compare(_, _, _, _)
        | Instruction::Assign(_, _)
        | Instruction::Output(_, _)
        | Instruction::Store(_, _) => None,
    }
}

/// The fact, as far as B is so.
fn refined(alloc: Global, fact: &Fact<Val>, truth: bool) -> Result<Fact<Val>, Memory> {
    let count = fact.count() as u8;
    let mut side = Fact::new(alloc, count)?;
    side.copy_from(fact);
    let mut spare = Spare::new(alloc, count)?;
    if !assume(&mut side, truth, &mut spare) {
        side.copy_from(fact);
    }
    Ok(side)
}

/// Appends the sentence of C3 to C7.
fn push_numbers(
    text: &mut String,
    spot: &Spot<'_>,
    instruction: &Instruction,
    cond: Cond,
) -> Result<(), Memory> {
    match cond {
        Cond::C3 | Cond::C6 | Cond::C7 => push_uses(text, spot, instruction),
        Cond::C4 => push_overflow(text, spot, instruction),
        Cond::C5 => push_target(text, spot, instruction),
        Cond::H1 | Cond::H2 | Cond::C1 | Cond::C2 | Cond::C8 | Cond::C9 | Cond::C10 | Cond::C11 =>
            Ok(()),
    }
}

/// Appends the sentence of C3 to C7 of the side on which a jump is taken, with what is known there.
fn push_side(
    alloc: Global,
    text: &mut String,
    spot: &Spot<'_>,
    instruction: &Instruction,
    cond: Cond,
) -> Result<(), Memory> {
    match truth_of(instruction) {
        None => {
            write!(text, "{cond:?}: ")?;
            push_numbers(text, spot, instruction, cond)
        }
        Some(truth) => {
            let fact = refined(alloc, spot.fact, truth)?;
            let words = FactWords {
                fact: &fact,
                cells: spot.cells,
            };
            let number = if truth { 1 } else { 0 };
            writeln!(text, "taken where B is {number}: {words}")?;
            let side = Spot {
                plan: spot.plan,
                cells: spot.cells,
                at: spot.at,
                fact: &fact,
            };
            write!(text, "{cond:?}: ")?;
            push_numbers(text, &side, instruction, cond)
        }
    }
}

/// Appends the line of the spot, what is known there, and why the condition, of C1 to C7, fails.
pub fn push_failure(
    alloc: Global,
    text: &mut String,
    spot: &Spot<'_>,
    cond: Cond,
) -> Result<(), Memory> {
    let line = line_at(alloc, spot.plan, spot.at)?;
    let words = FactWords {
        fact: spot.fact,
        cells: spot.cells,
    };
    writeln!(text, "{line}")?;
    writeln!(text, "known: {words}")?;
    match spot.plan.code_word(spot.at) {
        Some(word) if cond != Cond::C1 => {
            let fields = decode(word);
            if legal(fields) {
                push_side(alloc, text, spot, &instruction(fields), cond)?;
            } else {
                write!(text, "C2: ")?;
                push_illegal(alloc, text, fields)?;
            }
        }
        _ => {
            write!(text, "C1: ")?;
            push_no_code(text, spot)?;
        }
    }
    writeln!(text, "")?;
    Ok(())
}
