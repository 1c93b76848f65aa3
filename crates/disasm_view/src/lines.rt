//! Words as lines of source (docs/FORMATS.md, "Listings").

ghost use Rattle.std.specs.Prelude.{◌≡◌, ◌<◌, ◌≤◌, ◌*◌, ◌++◌, length, codes, IfOk};
ghost use Rattle.viper_word.specs.Fields.{fields_of};
ghost use Rattle.viper_word.specs.Digits.{address_digits};
ghost use Rattle.field_asm.specs.Sources.{IsSource};
ghost use Rattle.memory_plan.specs.Images.{entries};
ghost use Rattle.field_asm.specs.Tables.{destination_names, mode_names, register_names};
ghost use Rattle.disasm_view.specs.Listings.{spaced, name_of, operation_name, fields_line, source_line, listing, MOST_LINE};

use field_asm::{Names, comparisons, destinations, functions, modes, registers};
use line_text::LineText;
use memory_plan::Image;
use std::alloc::Global;
use viper_decode::{Fields, decode};
use viper_word::{Addr, Memory, Word};

/// Appends a space and the name of a code.
fn write_name<const N: usize>(text: &mut LineText, names: &Names<N>, code: u8) -> Result<(), Memory>
    requires { code < N }
    ensures { IfOk result (λ _. text.new ≡ text.old ++ spaced (name_of names.now code)) }
{
    text.plain(" ")?;
    text.append(names.name(code as usize))
}

/// Appends a space and the name of the function or comparison.
fn write_operation(text: &mut LineText, fields: Fields) -> Result<(), Memory>
    ensures { IfOk result (λ _. text.new ≡ text.old ++ spaced (operation_name fields)) }
{
    if fields.c {
        write_name(text, &comparisons(), fields.f)
    } else {
        write_name(text, &functions(), fields.f)
    }
}

/// Appends a space and the name of the register.
fn write_register(text: &mut LineText, fields: Fields) -> Result<(), Memory>
    ensures { IfOk result (λ _. text.new ≡ text.old ++ spaced (name_of register_names fields.r)) }
{
    write_name(text, &registers(), fields.r)
}

/// Appends a space and the name of the mode.
fn write_mode(text: &mut LineText, fields: Fields) -> Result<(), Memory>
    ensures { IfOk result (λ _. text.new ≡ text.old ++ spaced (name_of mode_names fields.m)) }
{
    write_name(text, &modes(), fields.m)
}

/// Appends a space and the name of the destination.
fn write_destination(text: &mut LineText, fields: Fields) -> Result<(), Memory>
    ensures { IfOk result (λ _. text.new
        ≡ text.old ++ spaced (name_of destination_names fields.d)) }
{
    write_name(text, &destinations(), fields.d)
}

/// Appends a space and the field.
fn write_field(text: &mut LineText, fields: Fields) -> Result<(), Memory>
    ensures { IfOk result (λ _. text.new ≡ text.old ++ spaced (address_digits fields.field)) }
{
    text.plain(" ")?;
    text.address(fields.field)
}

/// Appends the line of a word of these numbers.
fn write_fields(text: &mut LineText, at: Addr, fields: Fields) -> Result<(), Memory>
    ensures { IfOk result (λ _. text.new ≡ text.old ++ fields_line at fields) }
{
    text.address(at)?;
    write_operation(text, fields)?;
    write_register(text, fields)?;
    write_mode(text, fields)?;
    write_destination(text, fields)?;
    write_field(text, fields)
}

/// Appends the line of a word.
#[tactic(auto, unfolding(crate::specs::Listings::source_line))]
fn write_word(text: &mut LineText, at: Addr, word: Word) -> Result<(), Memory>
    ensures { IfOk result (λ _. text.new ≡ text.old ++ source_line at word.0) }
{
    write_fields(text, at, decode(word))
}

/// Appends the line of a word, with its LF.
fn write_line(text: &mut LineText, at: Addr, word: Word) -> Result<(), Memory>
    ensures { IfOk result (λ _. text.new ≡ text.old ++ (source_line at word.0 ++ codes "\n")) }
{
    write_word(text, at, word)?;
    text.plain("\n")
}

/// The line of source for a word at an address, without the line's end.
pub fn line_of(alloc: Global, at: Addr, word: Word) -> Result<Vec<u8>, Memory>
    ensures { IfOk result (λ line. line.items ≡ source_line at word.0) }
{
    let mut text = LineText::new(alloc);
    write_word(&mut text, at, word)?;
    Ok(text.into_bytes())
}

/// A line for each of these words, in their order.
fn lines_of(alloc: Global, words: &[(Addr, Word)]) -> Result<Vec<u8>, Memory>
    ensures { IfOk result (λ text. text.items ≡ listing (entries words.now)) }
{
    let mut text = LineText::new(alloc);
    for entry in words {
        write_line(&mut text, entry.0, entry.1)?;
    }
    Ok(text.into_bytes())
}

/// The listing of an image: a line of source for each word, in order of addresses, each with its LF.
/// It is a source of the image, so assembling it gives the image again. A line has 28 bytes at the most.
pub fn listing(alloc: Global, image: &Image) -> Result<Vec<u8>, Memory>
    ensures text { IfOk result (λ text. text.items ≡ listing image.now) }
    ensures source { IfOk result (λ text. IsSource text.items image.now) }
    ensures size { IfOk result (λ text. length text.items ≤ MOST_LINE * length image.now) }
{
    lines_of(alloc, image.words())
}
