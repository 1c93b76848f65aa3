//! A fact after a write to a register or to a cell.

ghost use Rattle.std.specs.Prelude.{◌≡◌, ◌<◌, length, nat_eq, IfSome};
ghost use Rattle.std.specs.List.{list_any};
ghost use Rattle.flag_relation.specs.Values.{with_cell};
ghost use Rattle.flag_relation.specs.Facts.{values, with_link};
ghost use Rattle.flag_relation.specs.Limits.{IsLinkOf, IsFlagOf};
ghost use Rattle.flag_relation.specs.Equality.{reg_number};
ghost use Rattle.abs_step.specs.Writes.{is_on_reg, is_among, drop_flag, drop_link, put_reg, put_cells};

use flag_relation::{Atom, Fact, Flag, Link, Reg, Right};
use num_domain::NumDomain;

/// Does some atom compare the register?
fn is_compared(atoms: &[Atom], r: Reg) -> bool
    ensures { result ≡ list_any (λ a. is_on_reg r a) atoms.now }
{
    match atoms {
        [] => false,
        [first, rest @ ..] => first.left == r || is_compared(rest, r),
    }
}

/// Does some atom compare with the cell?
fn is_compared_with(atoms: &[Atom], cell: u8) -> bool
    ensures { result ≡ list_any (λ a. is_among (nat_eq cell) a.right) atoms.now }
{
    match atoms {
        [] => false,
        [first, rest @ ..] => is_cell(first.right, cell) || is_compared_with(rest, cell),
    }
}

/// Is it that cell?
fn is_cell(right: Right, cell: u8) -> bool
    ensures { result ≡ is_among (nat_eq cell) right }
{
    match right {
        Right::Cell(i) => cell == i,
        Right::Const(_) => false,
    }
}

/// What is known of B after a write to the register.
fn flag_after_reg(flag: Flag, r: Reg) -> Flag
    ensures { result ≡ drop_flag (is_on_reg r) flag }
{
    match flag {
        Flag::Any => Flag::Any,
        Flag::One => Flag::One,
        Flag::Or(atoms) => {
            if is_compared(atoms.items(), r) {
                Flag::Any
            } else {
                Flag::Or(atoms)
            }
        }
    }
}

/// What is known of B after a write to the cell.
fn flag_after_cell(flag: Flag, cell: u8) -> Flag
    ensures { result ≡ drop_flag (λ a. is_among (nat_eq cell) a.right) flag }
{
    match flag {
        Flag::Any => Flag::Any,
        Flag::One => Flag::One,
        Flag::Or(atoms) => {
            if is_compared_with(atoms.items(), cell) {
                Flag::Any
            } else {
                Flag::Or(atoms)
            }
        }
    }
}

/// The link after a write to the cell.
fn link_after_cell(link: Option<Link>, cell: u8) -> Option<Link>
    ensures { result ≡ drop_link (nat_eq cell) link }
{
    match link {
        None => None,
        Some(l) => { if cell == l.cell { None } else { Some(l) } }
    }
}

/// Writes a register: its value and its link; atoms on it are forgotten.
#[tactic(auto, unfolding(crate::specs::Writes::put_reg))]
pub(crate) fn put_reg<D: NumDomain>(fact: &mut Fact<D>, r: Reg, value: D, link: Option<Link>)
    requires { IfSome link (IsLinkOf (length fact.old.cells)) }
    ensures put { fact.new ≡ put_reg fact.old r value link }
    ensures count { length fact.new.cells ≡ length fact.old.cells }
{
    let flag = flag_after_reg(fact.flag(), r);
    fact.set_reg(r, value);
    fact.set_link(r, link);
    fact.set_flag(flag);
}

/// Writes a cell: links to it and atoms on it are forgotten.
#[tactic(auto, unfolding(crate::specs::Writes::put_cells))]
pub(crate) fn put_cell<D: NumDomain>(fact: &mut Fact<D>, i: u8, value: D)
    requires { i < length fact.old.cells }
    ensures put { fact.new ≡ put_cells fact.old
        (with_cell (values fact.old) i value).cells (nat_eq i) }
    ensures count { length fact.new.cells ≡ length fact.old.cells }
{
    fact.set_cell(i, value);
    fact.set_link(Reg::A, link_after_cell(fact.link(Reg::A), i));
    fact.set_link(Reg::X, link_after_cell(fact.link(Reg::X), i));
    fact.set_link(Reg::Y, link_after_cell(fact.link(Reg::Y), i));
    fact.set_flag(flag_after_cell(fact.flag(), i));
}
