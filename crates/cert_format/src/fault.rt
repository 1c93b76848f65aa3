//! Why bytes aren't a certificate.
ghost use Rattle.std.specs.Prelude.{◌≡◌};
ghost use Rattle.cert_format.specs.declared.fault.ReadError.TheVariants as read_errors;

use std::alloc::{AllocError, AllocFailed};
use viper_word::Memory;

/// The rules of the bytes of certificates (docs/FORMATS.md, "Certificates").
#[derive(Clone, Copy, Debug, PartialEq, Eq)]
pub enum CertRule {
    /// A field isn't whole.
    Length,
    /// The first bytes aren't the letters VSBC.
    Magic,
    /// The version is neither 1 nor 2.
    Version,
    /// A number is out of its range.
    Range,
    /// A cell or a variable isn't above the one before.
    Order,
    /// A value isn't in normal form.
    Value,
    /// Bytes stand after the last node.
    Trailing,
    /// A bare node is a start node, or not listed exactly once, or not by a node before it.
    Bare,
}

/// Why no certificate was read.
#[derive(Clone, Copy, Debug, PartialEq, Eq)]
pub enum CertFault {
    /// The first rule that the bytes break, and the offset of the field that breaks it, in bytes
    /// from 0.
    At { offset: u64, rule: CertRule },
    /// Want of memory.
    Memory,
}

/// A rule that is broken, and how many bytes are left from the field on.
#[derive(Clone, Copy, Debug, PartialEq, Eq)]
pub(crate) struct Fault {
    pub(crate) left: usize,
    pub(crate) rule: CertRule,
}

/// Why a part of a certificate wasn't read.
#[derive(Debug, Drop)]
pub(crate) enum ReadError {
    Memory,
    At(Fault),
}

impl From<AllocError> for ReadError {
    ghost from_gives = { λ _ e. e ≡ read_errors.Memory };

    fn from(_: AllocError) -> ReadError {
        ReadError::Memory
    }
}

impl<T: Drop> From<AllocFailed<T>> for ReadError {
    ghost from_gives = { λ _ e. e ≡ read_errors.Memory };

    fn from(_: AllocFailed<T>) -> ReadError {
        ReadError::Memory
    }
}

impl From<Memory> for ReadError {
    ghost from_gives = { λ _ e. e ≡ read_errors.Memory };

    fn from(_: Memory) -> ReadError {
        ReadError::Memory
    }
}
