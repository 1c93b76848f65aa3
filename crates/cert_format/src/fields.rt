//! The numbers of a certificate. Each reader gives a value and moves on behind it, or gives the
//! first fault: the rule that is broken, and how many bytes are left from there.
ghost use Rattle.std.specs.Prelude.{◌≡◌, ◌^◌, ◌≤ℤ◌, pos};
ghost use Rattle.cert_format.specs.Reading.{Reads, many_at};
ghost use Rattle.cert_format.specs.Fields.{count_at, below_at, signed_at, numbers_at, cell_at};
ghost use Rattle.cert_format.specs.Fields.{cells_at};

use crate::fault::{CertRule, ReadError};
use crate::unread::{Unread, broken};
use std::alloc::Global;
use viper_word::Addr;

/// A byte that is at most so much.
#[tactic(auto, unfolding(crate::specs::Fields::count_at))]
pub(crate) fn count_at(most: u8, input: &mut Unread<'_>) -> Result<u8, ReadError>
    ensures { Reads (λ x. x) result input.new (count_at most input.old) }
{
    let left = input.left();
    let number = input.u8()?;
    if number > most {
        return Err(broken(left, CertRule::Range));
    }
    Ok(number)
}

/// Four bytes whose number is below the limit.
#[tactic(auto, unfolding(crate::specs::Fields::below_at))]
pub(crate) fn below_at(limit: u32, input: &mut Unread<'_>) -> Result<u32, ReadError>
    ensures { Reads (λ x. x) result input.new (below_at limit input.old) }
{
    let left = input.left();
    let number = input.u32()?;
    if number >= limit {
        return Err(broken(left, CertRule::Range));
    }
    Ok(number)
}

/// Eight bytes whose signed number is at most so great in size.
#[tactic(auto, unfolding(crate::specs::Fields::signed_at))]
pub(crate) fn signed_at(most: i64, input: &mut Unread<'_>) -> Result<i64, ReadError>
    requires { pos 0 ≤ℤ most }
    ensures { Reads (λ x. x) result input.new (signed_at most input.old) }
{
    let left = input.left();
    let number = input.u64()?.cast_signed();
    if -most <= number && number <= most {
        Ok(number)
    } else {
        Err(broken(left, CertRule::Range))
    }
}

/// An address.
#[tactic(auto, unfolding(crate::specs::Fields::below_at))]
pub(crate) fn addr_at(input: &mut Unread<'_>) -> Result<Addr, ReadError>
    ensures { Reads (λ x. x) result input.new (below_at (2 ^ 20) input.old) }
{
    let left = input.left();
    let number = input.u32()?;
    let Some(addr) = Addr::new(number) else {
        return Err(broken(left, CertRule::Range));
    };
    Ok(addr)
}

/// So many numbers below the limit.
fn many_below(
    alloc: Global,
    count: u8,
    limit: u32,
    input: &mut Unread<'_>,
) -> Result<Vec<u32>, ReadError>
    ensures { Reads (λ x. x.items) result input.new (many_at (below_at limit) count input.old) }
{
    let mut found = Vec::new(alloc);
    for _ in 0..count {
        found.push(below_at(limit, input)?)?;
    }
    Ok(found)
}

/// Numbers below the limit, as many as the first byte says, which is at most so much.
#[tactic(auto, unfolding(crate::specs::Fields::numbers_at))]
pub(crate) fn numbers_at(
    alloc: Global,
    most: u8,
    limit: u32,
    input: &mut Unread<'_>,
) -> Result<Vec<u32>, ReadError>
    ensures { Reads (λ x. x.items) result input.new (numbers_at most limit input.old) }
{
    let count = count_at(most, input)?;
    many_below(alloc, count, limit, input)
}

/// An address from that number on.
#[tactic(auto, unfolding(crate::specs::Fields::cell_at))]
fn cell_at(from: u32, input: &mut Unread<'_>) -> Result<Addr, ReadError>
    ensures { Reads (λ x. x) result input.new (cell_at from input.old) }
{
    let left = input.left();
    let addr = addr_at(input)?;
    if addr.get() < from {
        return Err(broken(left, CertRule::Order));
    }
    Ok(addr)
}

/// So many addresses that ascend.
pub(crate) fn cells_at(
    alloc: Global,
    count: u8,
    input: &mut Unread<'_>,
) -> Result<Vec<Addr>, ReadError>
    ensures { Reads (λ x. x.items) result input.new (cells_at 0 count input.old) }
{
    let mut found = Vec::new(alloc);
    let mut from = 0;
    for _ in 0..count {
        let addr = cell_at(from, input)?;
        found.push(addr)?;
        from = addr.get() + 1;
    }
    Ok(found)
}
