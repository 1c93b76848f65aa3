//! The bytes of a certificate that are still to be read.
ghost use Rattle.std.specs.Prelude.{◌≡◌, length};
ghost use Rattle.std.specs.Int.{w8, w32, w64};
ghost use Rattle.cert_format.specs.Reading.{Reads, number_at};
ghost use Rattle.cert_format.specs.Fields.{has_atom};

use crate::fault::{CertRule, Fault, ReadError};
use crate::limits::A_WORD;
use std::marker::Model;

/// Bytes that are still to be read. Contracts see them as a list.
#[derive(Debug, Drop)]
pub(crate) struct Unread<'a> {
    bytes: &'a [u8],
}

impl<'a> Model for Unread<'a> {
    ghost use Rattle.std.specs.Prelude.{ℕ, List};

    ghost Value = { List ℕ };

    ghost view = { λ s. s.bytes.now };
}

/// The rule is broken, at the field from which on so many bytes are left.
pub(crate) fn broken(left: usize, rule: CertRule) -> ReadError
    ensures { result ≡ ReadError.At (record { left = left; rule = rule }) }
{
    ReadError::At(Fault { left, rule })
}

impl<'a> Unread<'a> {
    /// These bytes, all of them unread.
    pub(crate) fn new(bytes: &'a [u8]) -> Unread<'a>
        ensures { result ≡ bytes.now }
    {
        Unread { bytes }
    }

    /// How many bytes are left.
    pub(crate) fn left(&self) -> usize
        ensures { result ≡ length self.now }
    {
        self.bytes.len()
    }

    /// A byte as a number.
    #[tactic(auto, unfolding(crate::specs::Reading::number_at))]
    pub(crate) fn u8(&mut self) -> Result<u8, ReadError>
        ensures { Reads (λ x. x) result self.new (number_at w8 self.old) }
    {
        match self.bytes {
            [] => Err(broken(0, CertRule::Length)),
            [first, rest @ ..] => {
                self.bytes = rest;
                Ok(*first)
            }
        }
    }

    /// Four bytes as a number, big-endian.
    #[tactic(auto, unfolding(crate::specs::Reading::number_at))]
    pub(crate) fn u32(&mut self) -> Result<u32, ReadError>
        ensures { Reads (λ x. x) result self.new (number_at w32 self.old) }
    {
        let bytes = self.bytes;
        if bytes.len() < 4 {
            return Err(broken(bytes.len(), CertRule::Length));
        }
        let (front, rest) = bytes.split_at(4);
        self.bytes = rest;
        Ok(u32::from_be_bytes([front[0], front[1], front[2], front[3]]))
    }

    /// Eight bytes as a number, big-endian.
    #[tactic(auto, unfolding(crate::specs::Reading::number_at))]
    pub(crate) fn u64(&mut self) -> Result<u64, ReadError>
        ensures { Reads (λ x. x) result self.new (number_at w64 self.old) }
    {
        let bytes = self.bytes;
        if bytes.len() < 8 {
            return Err(broken(bytes.len(), CertRule::Length));
        }
        let (front, rest) = bytes.split_at(8);
        self.bytes = rest;
        Ok(u64::from_be_bytes([
            front[0], front[1], front[2], front[3], front[4], front[5], front[6], front[7],
        ]))
    }

    /// Is a comparison whole: three bytes, and a word after them where the third is FF?
    #[tactic(auto, unfolding(crate::specs::Fields::has_atom))]
    pub(crate) fn has_atom(&self) -> bool
        ensures { result ≡ has_atom self.now }
    {
        match self.bytes {
            [_, _, right, rest @ ..] => *right != A_WORD || 4 <= rest.len(),
            [_, _] | [_] | [] => false,
        }
    }
}
