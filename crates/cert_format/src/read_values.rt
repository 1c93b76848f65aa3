//! Reading values.
ghost use Rattle.std.specs.Prelude.{◌≡◌, ◌<◌, pos, ◌-ℤ◌, nat_abs};
ghost use Rattle.viper_word.specs.Divisors.{divides};
ghost use Rattle.viper_word.specs.Words.{IsSigned};
ghost use Rattle.cert_format.specs.Reading.{Reads};
ghost use Rattle.cert_format.specs.ReadValues.{value_of, parts_at, value_at};
ghost use Rattle.cert_format.specs.evidence.ValueForms.{is_single, is_several};
ghost use Rattle.cert_format.specs.evidence.ValueForms.{is_value, residue_of};

use crate::fault::{CertRule, ReadError};
use crate::limits::VALUE;
use crate::unread::{Unread, broken};
use congruence_dom::Congruence;
use interval_dom::Interval;
use num_domain::Pair;
use val_dom::Val;
use viper_word::is_signed;

/// Is it one number, with the modulus 0 and its own word as the residue?
fn is_single(lo: i64, hi: i64, modulus: u32, residue: u32) -> bool
    ensures { result ≡ is_single lo hi modulus residue }
{
    lo == hi && (modulus == 0 && i64::from(residue.cast_signed()) == lo)
}

/// Has the number the residue?
fn is_on(n: i64, modulus: u32, residue: u32) -> bool
    requires some { 0 < modulus }
    requires word { IsSigned n }
    ensures { result ≡ divides modulus (nat_abs (n -ℤ pos residue)) }
{
    let gap = (n - i64::from(residue)).unsigned_abs();
    gap % u64::from(modulus) == 0
}

/// Are both ends apart, and on the residue, which is below the modulus?
fn is_several(lo: i64, hi: i64, modulus: u32, residue: u32) -> bool
    requires low { IsSigned lo }
    requires high { IsSigned hi }
    ensures { result ≡ is_several lo hi modulus residue }
{
    lo < hi && (residue < modulus && (is_on(lo, modulus, residue) && is_on(hi, modulus, residue)))
}

/// Are the four numbers a value in normal form?
fn is_value(lo: i64, hi: i64, modulus: u32, residue: u32) -> bool
    ensures { result ≡ is_value lo hi modulus residue }
{
    is_signed(lo)
        && (is_signed(hi)
            && (is_single(lo, hi, modulus, residue) || is_several(lo, hi, modulus, residue)))
}

/// The residue as a value keeps it: that of a single number is signed.
fn residue_of(modulus: u32, residue: u32) -> i64
    ensures { result ≡ residue_of modulus residue }
{
    if modulus == 0 {
        i64::from(residue.cast_signed())
    } else {
        i64::from(residue)
    }
}

/// The value of these ends, modulus and residue. None where they aren't in normal form.
fn value_of(lo: i64, hi: i64, modulus: u32, residue: u32) -> Option<Val>
    ensures { result ≡ value_of lo hi modulus residue }
{
    if !is_value(lo, hi, modulus, residue) {
        return None;
    }
    let left = Interval { lo, hi };
    let right = Congruence {
        modulus: i64::from(modulus),
        residue: residue_of(modulus, residue),
    };
    Some(Val {
        pair: Pair { left, right },
    })
}

/// The four numbers of a value.
#[tactic(auto, unfolding(crate::specs::ReadValues::parts_at))]
fn parts_at(input: &mut Unread<'_>) -> Result<Val, ReadError>
    ensures { Reads (λ x. x) result input.new (parts_at input.old) }
{
    let left = input.left();
    let lo = i64::from(input.u32()?.cast_signed());
    let hi = i64::from(input.u32()?.cast_signed());
    let modulus = input.u32()?;
    let residue = input.u32()?;
    let Some(value) = value_of(lo, hi, modulus, residue) else {
        return Err(broken(left, CertRule::Value));
    };
    Ok(value)
}

/// A value: one field of 16 bytes.
#[tactic(auto, unfolding(crate::specs::ReadValues::value_at))]
pub(crate) fn value_at(input: &mut Unread<'_>) -> Result<Val, ReadError>
    ensures { Reads (λ x. x) result input.new (value_at input.old) }
{
    let left = input.left();
    if left < VALUE {
        return Err(broken(left, CertRule::Length));
    }
    parts_at(input)
}
