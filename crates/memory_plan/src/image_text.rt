//! The text of an image.

ghost use Rattle.std.specs.Prelude.{◌≡◌, ◌+◌, ◌*◌, ◌<◌, ◌^◌, ◌∷◌, ◌++◌, [], option_map, IfOk, IfErr, MatchResult, Ok, Err, length};
ghost use Rattle.memory_plan.specs.Images.{word_of_line, image_grammar, IsImage, IsImageFault, image_text, image_line, line_bytes};

use crate::hex_digits::{address_of, word_of};
use crate::image::Image;
use crate::text_fault::{ImageFault, ImageRule};
use line_text::{address_digits, word_digits};
use std::alloc::{AllocError, Global};
use text_lines::{Lines, SPACE, two_parts};
use viper_word::{Addr, Memory, Word};

/// The word that a line says, and its address.
#[tactic(auto, unfolding(crate::specs::Images::word_of_line))]
fn read_word(line: &[u8]) -> Option<(Addr, Word)>
    ensures { option_map (λ x. (x.0, x.1.0)) result ≡ word_of_line line.now }
{
    let (at_digits, word_digits) = two_parts(SPACE, line)?;
    let at = address_of(at_digits)?;
    let word = word_of(word_digits)?;
    Some((at, word))
}

/// What a line says behind the words of an image, or the first rule that it breaks.
fn judge(image: &Image, line: &[u8]) -> Result<(Addr, Word), ImageRule>
    ensures { MatchResult result (λ x. image_grammar image.now line.now ≡ Ok (x.0, x.1.0))
        (λ rule. image_grammar image.now line.now ≡ Err rule) }
{
    let (at, word) = read_word(line).ok_or(ImageRule::Form)?;
    if image.ends_below(at) {
        Ok((at, word))
    } else {
        Err(ImageRule::Order)
    }
}

/// Reads an image: lines `AAAAA WWWWWWWW` in digits of either case, with ascending addresses
/// (docs/FORMATS.md, "Images"). A fault is the first line that breaks a rule, with the first rule
/// that it breaks.
pub fn read_image(alloc: Global, text: &[u8]) -> Result<Image, ImageFault>
    requires { length text.now + 1 < 2 ^ 32 }
    ensures image { IfOk result (IsImage text.now) }
    ensures fault { IfErr result (IsImageFault text.now) }
{
    let mut image = Image::new(alloc);
    let mut lines = Lines::every(text);
    while let Some(line) = lines.next_line() {
        match judge(&image, line.text) {
            Ok((at, word)) => image.push(at, word)?,
            Err(rule) => {
                return Err(ImageFault::At {
                    line: line.number,
                    rule,
                });
            }
        }
    }
    Ok(image)
}

/// The line of a word at its address, appended to a text.
#[tactic(auto, unfolding(crate::specs::Images::image_line))]
fn write_line(text: &mut Vec<u8>, at: Addr, word: Word) -> Result<(), AllocError>
    ensures { IfOk result (λ _. text.new.items ≡ text.old.items ++ image_line (at, word.0)) }
{
    text.extend_from_slice(&address_digits(at))?;
    text.push(b' ')?;
    text.extend_from_slice(&word_digits(word))?;
    text.push(b'\n')?;
    Ok(())
}

/// The text of an image, in upper case, each line with its LF. Reading it gives the image.
pub fn write_image(alloc: Global, image: &Image) -> Result<Vec<u8>, Memory>
    ensures text { IfOk result (λ v. v.items ≡ image_text image.now) }
    ensures read { IfOk result (λ v. IsImage v.items image.now) }
    ensures size { IfOk result (λ v. length v.items ≡ line_bytes * length image.now) }
{
    let mut text = Vec::new(alloc);
    for entry in image.words() {
        write_line(&mut text, entry.0, entry.1)?;
    }
    Ok(text)
}
