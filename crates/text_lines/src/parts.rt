//! A text of so many parts, as a line of so many tokens.

ghost use Rattle.std.specs.Prelude.{◌≡◌, option_map};
ghost use Rattle.text_lines.specs.Parts.{parts_of, one, two, three, five, six};

use crate::cutting::cut;

/// The byte between the tokens of a line.
pub const SPACE: u8 = b' ';

/// The text itself, where it has no such byte. None exactly where it has one.
pub fn one_part(byte: u8, text: &[u8]) -> Option<&[u8]>
    ensures { option_map (λ x. x.now) result ≡ one (parts_of byte text.now) }
{
    match cut(byte, text) {
        None => Some(text),
        Some(_) => None,
    }
}

/// The two parts of a text between such bytes. None exactly where it has another number of them.
pub fn two_parts(byte: u8, text: &[u8]) -> Option<(&[u8], &[u8])>
    ensures { option_map (λ x. (x.0.now, x.1.now)) result ≡ two (parts_of byte text.now) }
{
    let (first, rest) = cut(byte, text)?;
    let second = one_part(byte, rest)?;
    Some((first, second))
}

/// The three parts of a text between such bytes. None exactly where it has another number of them.
pub fn three_parts(byte: u8, text: &[u8]) -> Option<(&[u8], &[u8], &[u8])>
    ensures { option_map (λ x. (x.0.now, x.1.now, x.2.now)) result
        ≡ three (parts_of byte text.now) }
{
    let (first, rest) = cut(byte, text)?;
    let (second, third) = two_parts(byte, rest)?;
    Some((first, second, third))
}

/// The five parts of a text between such bytes. None exactly where it has another number of them.
pub fn five_parts(byte: u8, text: &[u8]) -> Option<(&[u8], &[u8], &[u8], &[u8], &[u8])>
    ensures { option_map (λ x. (x.0.now, x.1.now, x.2.now, x.3.now, x.4.now)) result
        ≡ five (parts_of byte text.now) }
{
    let (first, others) = cut(byte, text)?;
    let (second, rest) = cut(byte, others)?;
    let (third, fourth, fifth) = three_parts(byte, rest)?;
    Some((first, second, third, fourth, fifth))
}

/// The six parts of a text between such bytes. None exactly where it has another number of them.
pub fn six_parts(byte: u8, text: &[u8]) -> Option<(&[u8], &[u8], &[u8], &[u8], &[u8], &[u8])>
    ensures { option_map (λ x. (x.0.now, x.1.now, x.2.now, x.3.now, x.4.now, x.5.now)) result
        ≡ six (parts_of byte text.now) }
{
    let (first, others) = cut(byte, text)?;
    let (second, third, fourth, fifth, sixth) = five_parts(byte, others)?;
    Some((first, second, third, fourth, fifth, sixth))
}
