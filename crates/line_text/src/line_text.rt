//! A text that grows piece by piece.

ghost use Rattle.std.specs.Prelude.{◌≡◌, ◌++◌, [], List, ℕ, MatchResult, decimal, Result};
ghost use Rattle.viper_word.specs.Digits.{address_digits, word_digits};
ghost use Rattle.line_text.specs.Appends.{Appends};

use crate::digits::{address_digits, word_digits};
use std::alloc::{AllocError, Global};
use std::marker::Model;
use viper_word::{Addr, Memory, Word};

/// A text that grows piece by piece. Contracts see it as its bytes.
///
/// Each call appends its piece, or answers `Memory` where an allocation found none, and then nothing
/// was appended.
#[derive(Debug, Drop)]
pub struct LineText {
    alloc: Global,
    bytes: Vec<u8>,
}

impl Model for LineText {
    ghost use Rattle.std.specs.Prelude.{List, ℕ};

    ghost Value = { List ℕ };

    ghost view = { λ t. t.bytes.items };
}

impl LineText {
    /// A text without bytes. It takes no memory yet.
    pub fn new(alloc: Global) -> LineText
        ensures { result ≡ [] }
    {
        LineText {
            alloc,
            bytes: Vec::new(alloc),
        }
    }

    /// Appends a text as it is.
    pub fn plain(&mut self, text: &str) -> Result<(), Memory>
        ensures { Appends result self.old text.now self.new }
    {
        Ok(self.push(text.as_bytes())?)
    }

    /// Appends bytes as they are.
    pub fn append(&mut self, bytes: &[u8]) -> Result<(), Memory>
        ensures { Appends result self.old bytes.now self.new }
    {
        Ok(self.push(bytes)?)
    }

    /// Appends an address in five upper-case hexadecimal digits.
    pub fn address(&mut self, at: Addr) -> Result<(), Memory>
        ensures { Appends result self.old (address_digits at) self.new }
    {
        Ok(self.push(&address_digits(at))?)
    }

    /// Appends a word in eight upper-case hexadecimal digits.
    pub fn word(&mut self, w: Word) -> Result<(), Memory>
        ensures { Appends result self.old (word_digits w.0) self.new }
    {
        Ok(self.push(&word_digits(w))?)
    }

    /// Appends a number in decimal digits, without leading zeros.
    pub fn number(&mut self, n: u64) -> Result<(), Memory>
        ensures { Appends result self.old (decimal n) self.new }
    {
        let digits = n.to_string(self.alloc)?;
        Ok(self.push(digits.as_bytes())?)
    }

    /// All bytes so far.
    pub fn bytes(&self) -> &[u8]
        ensures { result.now ≡ self.now }
    {
        self.bytes.as_slice()
    }

    /// All bytes so far, handed out.
    pub fn into_bytes(self) -> Vec<u8>
        ensures { result.items ≡ self }
    {
        self.bytes
    }

    fn push(&mut self, bytes: &[u8]) -> Result<(), AllocError>
        ensures { Appends result self.old bytes.now self.new }
    {
        self.bytes.extend_from_slice(bytes)
    }
}
