//! The tokens of a source's lines (docs/FORMATS.md, "Sources").

ghost use Rattle.std.specs.Prelude.{◌≡◌, ◌<◌, option_map, IfOk, not};
ghost use Rattle.std.specs.Option.{ok_or};
ghost use Rattle.std.specs.List.{list_any};
ghost use Rattle.line_text.specs.declared.digits.TheConstants.{ADDRESS_DIGITS, WORD_DIGITS};
ghost use Rattle.field_asm.specs.declared.fault.AsmRule.TheVariants as rules;
ghost use Rattle.field_asm.specs.Tokens.{is_lower, is_label_byte, begins_label, is_label, upper_number, operation_of, register_of, mode_of, destination_of};

use crate::fault::AsmRule;
use crate::tables::{comparisons, destinations, functions, modes, registers};
use memory_plan::{address_of, word_of};
use viper_word::{Addr, Word};

/// How many bytes a label has at the most.
const MOST_LABEL: usize = 32;

fn is_lower(byte: u8) -> bool
    ensures { result ≡ is_lower byte }
{
    b'a' <= byte && byte <= b'z'
}

/// May the byte stand in a label?
fn is_label_byte(byte: u8) -> bool
    ensures { result ≡ is_label_byte byte }
{
    is_lower(byte) || b'0' <= byte && byte <= b'9' || byte == b'_'
}

/// Does the text begin as a label does?
pub fn begins_label(text: &[u8]) -> bool
    ensures { result ≡ begins_label text.now }
{
    match text {
        [] => false,
        [first, ..] => is_lower(*first),
    }
}

/// Has the text a byte that may not stand in a label?
fn has_others(text: &[u8]) -> bool
    ensures { result ≡ list_any (λ c. not (is_label_byte c)) text.now }
{
    text.iter().any(|byte| !is_label_byte(*byte))
}

/// Is it a label?
pub fn is_label(text: &[u8]) -> bool
    ensures { result ≡ is_label text.now }
{
    begins_label(text) && text.len() <= MOST_LABEL && !has_others(text)
}

/// Has the text a lower-case letter?
fn has_lower(text: &[u8]) -> bool
    ensures { result ≡ list_any is_lower text.now }
{
    text.iter().any(|byte| is_lower(*byte))
}

/// The address of five upper-case digits. None exactly where the text isn't that.
pub fn upper_address(text: &[u8]) -> Option<Addr>
    ensures { result ≡ upper_number ADDRESS_DIGITS text.now }
{
    if has_lower(text) {
        None
    } else {
        address_of(text)
    }
}

/// The word of eight upper-case digits. None exactly where the text isn't that.
pub fn upper_word(text: &[u8]) -> Option<Word>
    ensures { option_map (λ w. w.0) result ≡ upper_number WORD_DIGITS text.now }
{
    if has_lower(text) { None } else { word_of(text) }
}

/// Whether a name is that of a comparison, and the code of its function or comparison. `Name`
/// exactly where it is neither's.
pub fn operation_of(name: &[u8]) -> Result<(bool, u8), AsmRule>
    ensures is { result ≡ ok_or (operation_of name.now) rules.Name }
    ensures small { IfOk result (λ x. x.1 < 16) }
{
    if let Some(code) = functions().code(name) {
        return Ok((false, code as u8));
    }
    match comparisons().code(name) {
        None => Err(AsmRule::Name),
        Some(code) => Ok((true, code as u8)),
    }
}

/// The register of a name. `Name` exactly where there is none.
pub fn register_of(name: &[u8]) -> Result<u8, AsmRule>
    ensures is { result ≡ ok_or (register_of name.now) rules.Name }
    ensures small { IfOk result (λ code. code < 4) }
{
    match registers().code(name) {
        None => Err(AsmRule::Name),
        Some(code) => Ok(code as u8),
    }
}

/// The mode of a name. `Name` exactly where there is none.
pub fn mode_of(name: &[u8]) -> Result<u8, AsmRule>
    ensures is { result ≡ ok_or (mode_of name.now) rules.Name }
    ensures small { IfOk result (λ code. code < 4) }
{
    match modes().code(name) {
        None => Err(AsmRule::Name),
        Some(code) => Ok(code as u8),
    }
}

/// The destination of a name. `Name` exactly where there is none.
pub fn destination_of(name: &[u8]) -> Result<u8, AsmRule>
    ensures is { result ≡ ok_or (destination_of name.now) rules.Name }
    ensures small { IfOk result (λ code. code < 8) }
{
    match destinations().code(name) {
        None => Err(AsmRule::Name),
        Some(code) => Ok(code as u8),
    }
}
