//! Hexadecimal numbers of either case.

ghost use Rattle.std.specs.Prelude.{◌≡◌, ◌<◌, option_map};
ghost use Rattle.hex.specs.Hex.{hex_digit_value};
ghost use Rattle.memory_plan.specs.Hex.{hex_number};

use hex::FromHex;
use line_text::{ADDRESS_DIGITS, WORD_DIGITS};
use viper_word::{Addr, Word};

/// The value of a digit. None exactly where the byte is none.
fn digit_value(byte: u8) -> Option<u32>
    ensures { result ≡ hex_digit_value byte }
{
    match byte {
        b'0'..=b'9' => Some(u32::from(byte - b'0')),
        b'A'..=b'F' => Some(u32::from(byte - b'A' + 10)),
        b'a'..=b'f' => Some(u32::from(byte - b'a' + 10)),
        _ => None,
    }
}

/// The address of five digits. None exactly where the text isn't that.
pub fn address_of(text: &[u8]) -> Option<Addr>
    ensures { result ≡ hex_number ADDRESS_DIGITS text.now }
{
    if text.len() != ADDRESS_DIGITS {
        return None;
    }
    let mut number = 0u32;
    for byte in text {
        number = number * 16 + digit_value(*byte)?;
    }
    Addr::new(number)
}

/// The word of eight digits. None exactly where the text isn't that.
pub fn word_of(text: &[u8]) -> Option<Word>
    ensures { option_map (λ w. w.0) result ≡ hex_number WORD_DIGITS text.now }
{
    let Ok(bytes) = <[u8; 4] as FromHex>::from_hex(text) else {
        return None;
    };
    Some(Word(u32::from_be_bytes(bytes)))
}
