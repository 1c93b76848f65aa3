//! The bytes of a certificate's parts, each appended to what was written before.
ghost use Rattle.std.specs.Prelude.{◌≡◌, ◌<◌, ◌≤◌, ◌^◌, ◌++◌, ◌∷◌};
ghost use Rattle.std.specs.Prelude.{[], length, take, OnOk, IsSome, IfSome};
ghost use Rattle.std.specs.List.{flat_map, AllByRecursion};
ghost use Rattle.cert_format.specs.declared.spelled.TheConstants.{SPELLED};
ghost use Rattle.flag_relation.specs.Equality.{kind_number, reg_number};
ghost use Rattle.cert_format.specs.Limits.{IsRightWord, HasWord, IsFlag, IsFact};
ghost use Rattle.cert_format.specs.Values.{word_bytes, signed_long_bytes};
ghost use Rattle.cert_format.specs.Spelling.{link_bytes, links_bytes, right_bytes, atom_bytes};
ghost use Rattle.cert_format.specs.Spelling.{flag_bytes, fact_bytes, front};

use crate::limits::{A_WORD, ANY, NO_LINK, ONE};
use crate::spelled::{SPELLED, Spelled};
use flag_relation::{Atom, Fact, Flag, Link, Reg, Right};
use std::alloc::AllocError;
use viper_word::Kind;

/// A number of four bytes, big-endian.
#[tactic(auto, unfolding(crate::specs::Values::word_bytes))]
pub(crate) fn put_u32(out: &mut Vec<u8>, number: u32) -> Result<(), AllocError>
    ensures { OnOk result (out.new.items ≡ out.old.items ++ word_bytes number) }
{
    out.extend_from_slice(&number.to_be_bytes())
}

/// A signed number of eight bytes, big-endian.
#[tactic(auto, unfolding(crate::specs::Values::long_bytes))]
pub(crate) fn put_i64(out: &mut Vec<u8>, number: i64) -> Result<(), AllocError>
    ensures { OnOk result (out.new.items ≡ out.old.items ++ signed_long_bytes number) }
{
    out.extend_from_slice(&number.cast_unsigned().to_be_bytes())
}

/// A link, or FF.
#[tactic(auto, unfolding(crate::specs::Spelling::link_bytes))]
fn put_link(out: &mut Vec<u8>, link: Option<Link>) -> Result<(), AllocError>
    ensures { OnOk result (out.new.items ≡ out.old.items ++ link_bytes link) }
{
    match link {
        None => {
            out.push(NO_LINK)?;
            Ok(())
        }
        Some(link) => {
            out.push(link.cell)?;
            put_i64(out, link.offset)
        }
    }
}

/// The number of a kind of comparison.
fn kind_number(kind: Kind) -> u8
    ensures { result ≡ kind_number kind }
{
    match kind {
        Kind::Lt => 0,
        Kind::Ge => 1,
        Kind::Eq => 2,
        Kind::Ne => 3,
        Kind::Le => 4,
        Kind::Gt => 5,
        Kind::Ult => 6,
        Kind::Uge => 7,
    }
}

/// The number of a register.
pub(crate) fn reg_number(reg: Reg) -> u8
    ensures { result ≡ reg_number reg }
{
    match reg {
        Reg::A => 0,
        Reg::X => 1,
        Reg::Y => 2,
    }
}

/// The right side of a comparison: a cell, or FF and a word.
fn put_right(out: &mut Vec<u8>, right: Right) -> Result<(), AllocError>
    ensures bytes { OnOk result (out.new.items ≡ out.old.items ++ right_bytes right) }
    ensures limits { IsRightWord right }
{
    match right {
        Right::Cell(cell) => {
            out.push(cell)?;
            Ok(())
        }
        Right::Const(word) => {
            out.push(A_WORD)?;
            put_u32(out, word.0)
        }
    }
}

/// A comparison.
#[tactic(auto, unfolding(crate::specs::Spelling::atom_bytes))]
fn put_atom(out: &mut Vec<u8>, atom: &Atom) -> Result<(), AllocError>
    ensures bytes { OnOk result (out.new.items ≡ out.old.items ++ atom_bytes atom.now) }
    ensures limits { OnOk result (HasWord atom.now) }
{
    out.push(kind_number(atom.kind))?;
    out.push(reg_number(atom.left))?;
    put_right(out, atom.right)
}

/// Comparisons.
fn put_atoms(out: &mut Vec<u8>, atoms: &[Atom]) -> Result<(), AllocError>
    ensures bytes { OnOk result
        (out.new.items ≡ out.old.items ++ flat_map atom_bytes atoms.now) }
    ensures limits { OnOk result (AllByRecursion HasWord atoms.now) }
{
    match atoms {
        [] => Ok(()),
        [first, rest @ ..] => {
            put_atom(out, first)?;
            put_atoms(out, rest)
        }
    }
}

/// What is known of B.
#[tactic(auto, unfolding(crate::specs::Spelling::flag_bytes))]
fn put_flag(out: &mut Vec<u8>, flag: Flag) -> Result<(), AllocError>
    ensures bytes { OnOk result (out.new.items ≡ out.old.items ++ flag_bytes flag) }
    ensures limits { OnOk result (IsFlag flag) }
{
    match flag {
        Flag::Any => {
            out.push(ANY)?;
            Ok(())
        }
        Flag::One => {
            out.push(ONE)?;
            Ok(())
        }
        Flag::Or(atoms) => {
            let items = atoms.items();
            out.push(items.len() as u8)?;
            put_atoms(out, items)
        }
    }
}

/// The first `size` bytes of a value.
fn put_value<D: Spelled>(out: &mut Vec<u8>, value: &D, size: usize) -> Result<(), AllocError>
    requires { size ≤ SPELLED }
    ensures { OnOk result (out.new.items ≡ out.old.items ++ front size D.bytes value.now) }
{
    out.extend_from_slice(&value.spell()[..size])
}

/// The first `size` bytes of each value.
fn put_values<D: Spelled>(out: &mut Vec<u8>, values: &[D], size: usize) -> Result<(), AllocError>
    requires { size ≤ SPELLED }
    ensures { OnOk result
        (out.new.items ≡ out.old.items ++ flat_map (front size D.bytes) values.now) }
{
    match values {
        [] => Ok(()),
        [first, rest @ ..] => {
            put_value(out, first, size)?;
            put_values(out, rest, size)
        }
    }
}

/// A fact, of each value the first `size` bytes.
#[tactic(auto, unfolding(crate::specs::Spelling::fact_bytes))]
pub(crate) fn put_fact<D: Spelled>(
    out: &mut Vec<u8>,
    fact: &Fact<D>,
    size: usize,
) -> Result<(), AllocError>
    requires { size ≤ SPELLED }
    ensures bytes { OnOk result
        (out.new.items ≡ out.old.items ++ fact_bytes (front size D.bytes) fact.now) }
    ensures limits { OnOk result (IsFact (length fact.now.cells) fact.now) }
{
    fact.count();
    put_value(out, &fact.a, size)?;
    put_value(out, &fact.x, size)?;
    put_value(out, &fact.y, size)?;
    put_values(out, fact.cells.as_slice(), size)?;
    put_link(out, fact.link(Reg::A))?;
    put_link(out, fact.link(Reg::X))?;
    put_link(out, fact.link(Reg::Y))?;
    put_flag(out, fact.flag())
}
