//! Reading ranks.
ghost use Rattle.std.specs.Prelude.{◌≡◌, ◌<◌, ◌≤◌, ◌+◌, ℤ, pos, length};
ghost use Rattle.flag_relation.specs.Forms.{var_number};
ghost use Rattle.flag_relation.specs.declared.fact.TheConstants.{MOST_CELLS};
ghost use Rattle.cert_format.specs.Reading.{Reads};
ghost use Rattle.cert_format.specs.Fields.{var_of, is_factor, term_of, term_parts_at, term_at};
ghost use Rattle.cert_format.specs.Fields.{terms_at, rank_at};

use crate::fault::{CertRule, ReadError};
use crate::fields::{count_at, signed_at};
use crate::limits::{MOST_FACTOR, MOST_RANK, TERM};
use crate::unread::{Unread, broken};
use flag_relation::{Form, MOST_TERMS, Reg, Var};
use std::alloc::Global;

/// The variable of that number.
#[tactic(auto, unfolding(crate::specs::Fields::var_of))]
fn var_of(number: u8) -> Var
    ensures { result ≡ var_of number }
{
    if number == 0 {
        Var::Reg(Reg::A)
    } else if number == 1 {
        Var::Reg(Reg::X)
    } else if number == 2 {
        Var::Reg(Reg::Y)
    } else {
        Var::Cell(number - 3)
    }
}

/// May the coefficient stand in a rank?
fn is_factor(number: i64) -> bool
    ensures { result ≡ is_factor number }
{
    number != 0 && (-MOST_FACTOR <= number && number <= MOST_FACTOR)
}

/// A variable from that number on, with its coefficient: one field of nine bytes. Gives the number
/// beside the term.
#[tactic(auto, unfolding(crate::specs::Fields::term_at, crate::specs::Fields::term_parts_at, crate::specs::Fields::term_of))]
fn term_at(cells: u8, from: u16, input: &mut Unread<'_>) -> Result<(Var, i128), ReadError>
    requires { cells ≤ MOST_CELLS }
    ensures { Reads (λ x. x) result input.new (term_at cells from input.old) }
{
    let left = input.left();
    if left < TERM {
        return Err(broken(left, CertRule::Length));
    }
    let number = input.u8()?;
    let factor = input.u64()?.cast_signed();
    if number >= 3 + cells {
        return Err(broken(left, CertRule::Range));
    }
    if u16::from(number) < from {
        return Err(broken(left, CertRule::Order));
    }
    if !is_factor(factor) {
        return Err(broken(left, CertRule::Range));
    }
    Ok((var_of(number), i128::from(factor)))
}

/// The number of a variable.
pub(crate) fn number_of(var: Var) -> u16
    ensures { result ≡ var_number var }
{
    match var {
        Var::Reg(Reg::A) => 0,
        Var::Reg(Reg::X) => 1,
        Var::Reg(Reg::Y) => 2,
        Var::Cell(cell) => 3 + u16::from(cell),
    }
}

/// So many terms, whose variables ascend.
fn terms_at(
    alloc: Global,
    cells: u8,
    count: u8,
    input: &mut Unread<'_>,
) -> Result<Vec<(Var, i128)>, ReadError>
    requires { cells ≤ MOST_CELLS }
    ensures { Reads (λ x. x.items) result input.new (terms_at cells 0 count input.old) }
{
    let mut found = Vec::new(alloc);
    let mut from = 0;
    for _ in 0..count {
        let term = term_at(cells, from, input)?;
        let number = number_of(term.0);
        found.push(term)?;
        from = number + 1;
    }
    Ok(found)
}

/// A rank over so many cells.
#[tactic(auto, unfolding(crate::specs::Fields::rank_at))]
pub(crate) fn rank_at(alloc: Global, cells: u8, input: &mut Unread<'_>) -> Result<Form, ReadError>
    requires { cells ≤ MOST_CELLS }
    ensures { Reads (λ x. x) result input.new (rank_at cells input.old) }
{
    let constant = signed_at(MOST_RANK, input)?;
    let count = count_at(MOST_TERMS as u8, input)?;
    let terms = terms_at(alloc, cells, count, input)?;
    let left = input.left();
    let Some(form) = Form::new(i128::from(constant), terms.as_slice()) else {
        return Err(broken(left, CertRule::Range));
    };
    Ok(form)
}
