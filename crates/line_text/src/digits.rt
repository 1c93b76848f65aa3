//! Addresses and words in upper-case hexadecimal digits.

ghost use Rattle.std.specs.Prelude.{◌≡◌, ◌<◌, ◌^◌};
ghost use Rattle.viper_word.specs.Digits.{digit, digits, address_digits, word_digits};

use viper_word::{Addr, Word};

/// How many digits an address has.
pub const ADDRESS_DIGITS: usize = 5;

/// How many digits a word has.
pub const WORD_DIGITS: usize = 8;

/// The upper-case hexadecimal digit of a number below 16.
#[tactic(auto, unfolding(viper_word::specs::Digits::digit))]
fn digit(n: u32) -> u8
    requires { n < 16 }
    ensures { result ≡ digit n }
{
    if n < 10 {
        b'0' + n as u8
    } else {
        b'A' - 10 + n as u8
    }
}

/// An address in five upper-case hexadecimal digits.
#[tactic(auto, unfolding(viper_word::specs::Digits::digits))]
pub fn address_digits(at: Addr) -> [u8; 5]
    ensures { result ≡ address_digits at }
{
    let n = at.get();
    [
        digit(n / 0x1_0000 % 16),
        digit(n / 0x1000 % 16),
        digit(n / 0x100 % 16),
        digit(n / 0x10 % 16),
        digit(n % 16),
    ]
}

/// A word in eight upper-case hexadecimal digits.
#[tactic(auto, unfolding(viper_word::specs::Digits::digits))]
pub fn word_digits(word: Word) -> [u8; 8]
    ensures { result ≡ word_digits word.0 }
{
    let n = word.0;
    [
        digit(n / 0x1000_0000 % 16),
        digit(n / 0x100_0000 % 16),
        digit(n / 0x10_0000 % 16),
        digit(n / 0x1_0000 % 16),
        digit(n / 0x1000 % 16),
        digit(n / 0x100 % 16),
        digit(n / 0x10 % 16),
        digit(n % 16),
    ]
}
