//! Reading links, what B says, and facts.
ghost use Rattle.std.specs.Prelude.{◌≡◌, ◌≤◌, length, IfOk, IfSome};
ghost use Rattle.flag_relation.specs.declared.fact.TheConstants.{MOST_CELLS};
ghost use Rattle.flag_relation.specs.Facts.{links_of};
ghost use Rattle.flag_relation.specs.Limits.{IsLinkOf, IsFlagOf, AreLinksOf, IsRightOf, AreAtomsOf};
ghost use Rattle.cert_format.specs.Reading.{Reads, many_at};
ghost use Rattle.cert_format.specs.ReadValues.{value_at};
ghost use Rattle.cert_format.specs.Fields.{offset_at, link_at, kind_of, reg_of, kind_at, reg_at};
ghost use Rattle.cert_format.specs.Fields.{const_at, right_at, has_atom, atom_parts_at, atom_at};
ghost use Rattle.cert_format.specs.Fields.{atoms_at, flag_at};
ghost use Rattle.cert_format.specs.ReadNodes.{links_at, fact_at};

use crate::fault::{CertRule, ReadError};
use crate::fields::signed_at;
use crate::limits::{A_WORD, ANY, NO_LINK, ONE};
use crate::read_values::value_at;
use crate::unread::{Unread, broken};
use flag_relation::{Atom, Atoms, Fact, Flag, Link, MOST_ATOMS, MOST_OFFSET, Reg, Right};
use std::alloc::Global;
use val_dom::Val;
use viper_word::{Kind, Word};

/// The offset of a link to the cell.
#[tactic(auto, unfolding(crate::specs::Fields::offset_at))]
fn offset_at(cell: u8, input: &mut Unread<'_>) -> Result<Option<Link>, ReadError>
    ensures { Reads (λ x. x) result input.new (offset_at cell input.old) }
{
    let offset = signed_at(MOST_OFFSET, input)?;
    Ok(Some(Link { cell, offset }))
}

/// A link, or none.
#[tactic(auto, unfolding(crate::specs::Fields::link_at))]
fn link_at(cells: u8, input: &mut Unread<'_>) -> Result<Option<Link>, ReadError>
    ensures { Reads (λ x. x) result input.new (link_at cells input.old) }
{
    let left = input.left();
    let cell = input.u8()?;
    if cell == NO_LINK {
        Ok(None)
    } else if cell < cells {
        offset_at(cell, input)
    } else {
        Err(broken(left, CertRule::Range))
    }
}

/// The kind of that number.
#[tactic(auto, unfolding(crate::specs::Fields::kind_of))]
fn kind_of(number: u8) -> Option<Kind>
    ensures { result ≡ kind_of number }
{
    match number {
        0 => Some(Kind::Lt),
        1 => Some(Kind::Ge),
        2 => Some(Kind::Eq),
        3 => Some(Kind::Ne),
        4 => Some(Kind::Le),
        5 => Some(Kind::Gt),
        6 => Some(Kind::Ult),
        7 => Some(Kind::Uge),
        _ => None,
    }
}

/// The register of that number.
#[tactic(auto, unfolding(crate::specs::Fields::reg_of))]
pub(crate) fn reg_of(number: u8) -> Option<Reg>
    ensures { result ≡ reg_of number }
{
    match number {
        0 => Some(Reg::A),
        1 => Some(Reg::X),
        2 => Some(Reg::Y),
        _ => None,
    }
}

/// A kind of comparison.
#[tactic(auto, unfolding(crate::specs::Fields::kind_at))]
fn kind_at(input: &mut Unread<'_>) -> Result<Kind, ReadError>
    ensures { Reads (λ x. x) result input.new (kind_at input.old) }
{
    let left = input.left();
    let number = input.u8()?;
    let Some(kind) = kind_of(number) else {
        return Err(broken(left, CertRule::Range));
    };
    Ok(kind)
}

/// A register.
#[tactic(auto, unfolding(crate::specs::Fields::reg_at))]
fn reg_at(input: &mut Unread<'_>) -> Result<Reg, ReadError>
    ensures { Reads (λ x. x) result input.new (reg_at input.old) }
{
    let left = input.left();
    let number = input.u8()?;
    let Some(reg) = reg_of(number) else {
        return Err(broken(left, CertRule::Range));
    };
    Ok(reg)
}

/// A word on the right of a comparison.
#[tactic(auto, unfolding(crate::specs::Fields::const_at))]
fn const_at(input: &mut Unread<'_>) -> Result<Right, ReadError>
    ensures { Reads (λ x. x) result input.new (const_at input.old) }
{
    let number = input.u32()?;
    Ok(Right::Const(Word(number)))
}

/// The right side of a comparison: a cell or a word.
#[tactic(auto, unfolding(crate::specs::Fields::right_at))]
fn right_at(cells: u8, input: &mut Unread<'_>) -> Result<Right, ReadError>
    ensures { Reads (λ x. x) result input.new (right_at cells input.old) }
{
    let left = input.left();
    let cell = input.u8()?;
    if cell == A_WORD {
        const_at(input)
    } else if cell < cells {
        Ok(Right::Cell(cell))
    } else {
        Err(broken(left, CertRule::Range))
    }
}

/// The parts of a comparison.
#[tactic(auto, unfolding(crate::specs::Fields::atom_parts_at))]
fn atom_parts_at(cells: u8, input: &mut Unread<'_>) -> Result<Atom, ReadError>
    ensures { Reads (λ x. x) result input.new (atom_parts_at cells input.old) }
{
    let kind = kind_at(input)?;
    let left = reg_at(input)?;
    let right = right_at(cells, input)?;
    Ok(Atom { kind, left, right })
}

/// A comparison: one field.
#[tactic(auto, unfolding(crate::specs::Fields::atom_at))]
fn atom_at(cells: u8, input: &mut Unread<'_>) -> Result<Atom, ReadError>
    ensures { Reads (λ x. x) result input.new (atom_at cells input.old) }
{
    if !input.has_atom() {
        return Err(broken(input.left(), CertRule::Length));
    }
    atom_parts_at(cells, input)
}

/// So many comparisons.
fn many_atoms(
    alloc: Global,
    cells: u8,
    count: u8,
    input: &mut Unread<'_>,
) -> Result<Vec<Atom>, ReadError>
    ensures { Reads (λ x. x.items) result input.new (many_at (atom_at cells) count input.old) }
{
    let mut found = Vec::new(alloc);
    for _ in 0..count {
        found.push(atom_at(cells, input)?)?;
    }
    Ok(found)
}

/// A flag of so many comparisons.
#[tactic(auto, unfolding(crate::specs::Fields::atoms_at))]
fn atoms_at(alloc: Global, cells: u8, count: u8, input: &mut Unread<'_>) -> Result<Flag, ReadError>
    requires { count ≤ MOST_ATOMS }
    ensures { Reads (λ x. x) result input.new (atoms_at cells count input.old) }
{
    let found = many_atoms(alloc, cells, count, input)?;
    let left = input.left();
    let Some(atoms) = Atoms::new(found.as_slice()) else {
        return Err(broken(left, CertRule::Range));
    };
    Ok(Flag::Or(atoms))
}

/// What is known of B.
#[tactic(auto, unfolding(crate::specs::Fields::flag_at))]
fn flag_at(alloc: Global, cells: u8, input: &mut Unread<'_>) -> Result<Flag, ReadError>
    ensures { Reads (λ x. x) result input.new (flag_at cells input.old) }
{
    let left = input.left();
    let number = input.u8()?;
    if number == ANY {
        Ok(Flag::Any)
    } else if number == ONE {
        Ok(Flag::One)
    } else if number as usize <= MOST_ATOMS {
        atoms_at(alloc, cells, number, input)
    } else {
        Err(broken(left, CertRule::Range))
    }
}

/// The links of A, X and Y.
#[tactic(auto, unfolding(crate::specs::ReadNodes::links_at))]
fn links_at(cells: u8, input: &mut Unread<'_>) -> Result<[Option<Link>; 3], ReadError>
    ensures { Reads (λ x. links_of x) result input.new (links_at cells input.old) }
{
    let a = link_at(cells, input)?;
    let x = link_at(cells, input)?;
    let y = link_at(cells, input)?;
    Ok([a, x, y])
}

/// So many values.
fn many_values(alloc: Global, count: u8, input: &mut Unread<'_>) -> Result<Vec<Val>, ReadError>
    ensures { Reads (λ x. x.items) result input.new (many_at value_at count input.old) }
{
    let mut found = Vec::new(alloc);
    for _ in 0..count {
        found.push(value_at(input)?)?;
    }
    Ok(found)
}

/// A fact over so many cells.
#[tactic(auto, unfolding(crate::specs::ReadNodes::fact_at))]
pub(crate) fn fact_at(
    alloc: Global,
    cells: u8,
    input: &mut Unread<'_>,
) -> Result<Fact<Val>, ReadError>
    requires { cells ≤ MOST_CELLS }
    ensures value { Reads (λ x. x) result input.new (fact_at cells input.old) }
    ensures cells { IfOk result (λ f. length f.cells ≡ cells) }
{
    let a = value_at(input)?;
    let x = value_at(input)?;
    let y = value_at(input)?;
    let values = many_values(alloc, cells, input)?;
    let links = links_at(cells, input)?;
    let flag = flag_at(alloc, cells, input)?;
    Ok(Fact {
        a,
        x,
        y,
        cells: values,
        links,
        flag,
    })
}
