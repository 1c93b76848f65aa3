//! Why C3, C6 or C7 fails: an address at which something may not be done.

use crate::fact_words::reg_name;
use crate::number_words::Numbers;
use crate::operands::{Spot, source_name, source_value};
use crate::places::{PlaceWords, Use, address_of, first_wrong};
use memory_plan::Range;
use val_dom::Val;
use viper_decode::{Instruction, Operand, Place, Source, Work};
use viper_word::{Addr, Memory};

/// Appends the address; of one that is reached over an index, how, and which it may be.
fn push_address(text: &mut String, spot: &Spot<'_>, place: &Place, at: Addr) -> Result<(), Memory> {
    let at = at.get();
    match place {
        Place::At(_) => write!(text, "{at:05X}")?,
        Place::Index(_, reg) => {
            let numbers = Numbers::of(&spot.fact.reg(*reg));
            let words = PlaceWords { place };
            write!(
                text,
                "{} is {numbers}; {words} may be {at:05X}, which",
                reg_name(*reg)
            )?;
        }
    }
    Ok(())
}

/// Appends that the address may be a number that is none.
fn push_outside(
    text: &mut String,
    spot: &Spot<'_>,
    place: &Place,
    number: i64,
) -> Result<(), Memory> {
    if let Place::Index(_, reg) = place {
        let numbers = Numbers::of(&spot.fact.reg(*reg));
        write!(text, "{} is {numbers}; ", reg_name(*reg))?;
    }
    let side = if number < 0 {
        "below 00000"
    } else {
        "above FFFFF"
    };
    write!(text, "{} may be {number}, {side}", PlaceWords { place })?;
    Ok(())
}

/// Appends that a value isn't in the range of an address.
fn push_range(text: &mut String, name: &str, value: &Val, range: &Range) -> Result<(), Memory> {
    let numbers = Numbers::of(value);
    let taken = Numbers::in_range(range);
    write!(
        text,
        " takes {taken}, and {name} is {numbers}; {name} may be "
    )?;
    if numbers.lo < range.lo {
        write!(text, "{}", numbers.lo)?;
    } else if numbers.hi > range.hi {
        write!(text, "{}", numbers.hi)?;
    } else {
        write!(text, "between the steps")?;
    }
    Ok(())
}

/// Appends why that may not be done at the address.
fn push_reason(
    text: &mut String,
    spot: &Spot<'_>,
    what: &Use,
    name: &str,
    at: Addr,
) -> Result<(), Memory> {
    match what {
        Use::Read => write!(text, " is neither code nor data")?,
        Use::Input => write!(text, " is no input")?,
        Use::Store(value) => match spot.plan.data_range(at) {
            Some(range) => push_range(text, name, value, &range)?,
            None => write!(text, " is no word of data")?,
        },
        Use::Output(value) => match spot.plan.output_range(at) {
            Some(range) => push_range(text, name, value, &range)?,
            None => write!(text, " is no output")?,
        },
    }
    Ok(())
}

/// Appends why something may not be done at each address of a place; `name` is what is put there.
fn push_use(
    text: &mut String,
    spot: &Spot<'_>,
    what: &Use,
    name: &str,
    place: &Place,
) -> Result<(), Memory> {
    let Some(number) = first_wrong(spot.plan, spot.fact, place, what) else {
        return Ok(());
    };
    let Some(at) = address_of(number) else {
        return push_outside(text, spot, place, number);
    };
    push_address(text, spot, place, at)?;
    push_reason(text, spot, what, name, at)
}

/// Appends why an operand may not be read.
fn push_read(text: &mut String, spot: &Spot<'_>, operand: &Operand) -> Result<(), Memory> {
    match operand {
        Operand::Literal(_) => Ok(()),
        Operand::Memory(place) => push_use(text, spot, &Use::Read, "", place),
        Operand::Peripheral(place) => push_use(text, spot, &Use::Input, "", place),
    }
}

/// Appends why a word may not be stored or put out.
fn push_given(
    text: &mut String,
    spot: &Spot<'_>,
    source: Source,
    place: &Place,
    is_store: bool,
) -> Result<(), Memory> {
    let value = source_value(spot, source);
    let what = if is_store {
        Use::Store(value)
    } else {
        Use::Output(value)
    };
    push_use(text, spot, &what, source_name(source), place)
}

/// Appends why C3, C6 or C7 fails of an instruction.
pub fn push_uses(
    text: &mut String,
    spot: &Spot<'_>,
    instruction: &Instruction,
) -> Result<(), Memory> {
    match instruction {
        Instruction::Compare(_, _, _, operand)
        | Instruction::Assign(_, Work::Apply(_, _, operand))
        | Instruction::Jump(_, Work::Apply(_, _, operand)) => push_read(text, spot, operand),
        Instruction::Assign(_, Work::Move(_, _)) | Instruction::Jump(_, Work::Move(_, _)) => Ok(()),
        Instruction::Output(source, place) => push_given(text, spot, *source, place, false),
        Instruction::Store(source, place) => push_given(text, spot, *source, place, true),
    }
}
