//! Facts as texts: the values of A, X, Y and the cells, the links, and what B says.

use flag_relation::{Atom, Fact, Flag, Reg, Right};
use line_text::LineText;
use val_dom::Val;
use viper_word::{Kind, Memory};

/// Appends a number with its sign.
fn put_signed(text: &mut LineText, number: i64) -> Result<(), Memory> {
    if number < 0 {
        text.plain("-")?;
    }
    text.number(number.unsigned_abs())
}

/// Appends a value: its ends and its modulus, or `any`.
fn put_value(text: &mut LineText, value: &Val) -> Result<(), Memory> {
    let ends = value.pair.left;
    let modulus = value.pair.right.modulus;
    if ends.lo == -2_147_483_648 && ends.hi == 2_147_483_647 && modulus == 1 {
        return text.plain("any");
    }
    put_signed(text, ends.lo)?;
    text.plain("..")?;
    put_signed(text, ends.hi)?;
    text.plain("/")?;
    put_signed(text, modulus)
}

/// Appends the values of the cells, separated by commas, or `-`.
fn put_cells(text: &mut LineText, cells: &[Val]) -> Result<(), Memory> {
    match cells {
        [] => text.plain("-"),
        [first, others @ ..] => {
            put_value(text, first)?;
            for value in others {
                text.plain(",")?;
                put_value(text, value)?;
            }
            Ok(())
        }
    }
}

/// Appends a link: the cell and the offset, or `-`.
fn put_link(text: &mut LineText, fact: &Fact<Val>, reg: Reg) -> Result<(), Memory> {
    match fact.link(reg) {
        None => text.plain("-"),
        Some(link) => {
            text.number(link.cell.into())?;
            text.plain(":")?;
            put_signed(text, link.offset)
        }
    }
}

/// The name of a comparison.
fn kind_text(kind: Kind) -> &'static str {
    match kind {
        Kind::Lt => ":LT.",
        Kind::Ge => ":GE.",
        Kind::Eq => ":EQ.",
        Kind::Ne => ":NE.",
        Kind::Le => ":LE.",
        Kind::Gt => ":GT.",
        Kind::Ult => ":ULT.",
        Kind::Uge => ":UGE.",
    }
}

/// Appends a comparison.
fn put_atom(text: &mut LineText, atom: &Atom) -> Result<(), Memory> {
    text.plain(kind_text(atom.kind))?;
    text.plain(match atom.left {
        Reg::A => "A.",
        Reg::X => "X.",
        Reg::Y => "Y.",
    })?;
    match atom.right {
        Right::Cell(cell) => {
            text.plain("c")?;
            text.number(cell.into())
        }
        Right::Const(word) => text.word(word),
    }
}

/// Appends what B says: `any`, `one`, or `or` and its comparisons.
fn put_flag(text: &mut LineText, flag: &Flag) -> Result<(), Memory> {
    match flag {
        Flag::Any => text.plain("any"),
        Flag::One => text.plain("one"),
        Flag::Or(atoms) => {
            text.plain("or")?;
            for atom in atoms.items() {
                put_atom(text, atom)?;
            }
            Ok(())
        }
    }
}

/// Appends a fact.
pub(crate) fn put_fact(text: &mut LineText, fact: &Fact<Val>) -> Result<(), Memory> {
    put_value(text, &fact.a)?;
    text.plain(";")?;
    put_value(text, &fact.x)?;
    text.plain(";")?;
    put_value(text, &fact.y)?;
    text.plain(";")?;
    put_cells(text, fact.cells.as_slice())?;
    text.plain(";")?;
    put_link(text, fact, Reg::A)?;
    text.plain(",")?;
    put_link(text, fact, Reg::X)?;
    text.plain(",")?;
    put_link(text, fact, Reg::Y)?;
    text.plain(";")?;
    put_flag(text, &fact.flag())
}
