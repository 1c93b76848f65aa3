//! Why C2 fails: what makes a word illegal (docs/MACHINE.md, "Illegal words").

use field_asm::{destinations, functions};
use std::alloc::Global;
use viper_decode::{
    Fields, destination, function, is_function, is_output, is_store, is_to_register,
};
use viper_word::Memory;

/// A name of a table as text.
fn text_of(alloc: Global, name: &[u8]) -> Result<String, Memory> {
    Ok(String::from_utf8_lossy(alloc, name)?)
}

/// Appends what makes a word of these numbers illegal.
pub fn push_illegal(alloc: Global, text: &mut String, fields: Fields) -> Result<(), Memory> {
    if is_output(fields) || is_store(fields) {
        let name = if is_store(fields) { "STO" } else { "OUT" };
        write!(text, "{name} goes to an address, and LIT gives none")?;
        return Ok(());
    }
    let name = text_of(alloc, functions().name(fields.f as usize))?;
    if fields.f > function::SHIFT {
        write!(text, "{name} is no function")?;
    } else if is_to_register(fields) && fields.f == function::CALL {
        let to = text_of(alloc, destinations().name(fields.d as usize))?;
        write!(text, "CALL goes to P, PIF or PNB, and here to {to}")?;
    } else if is_function(fields) && fields.d >= destination::P {
        write!(
            text,
            "a jump is made by CALL, READ, ADDS or SUBS, and here by {name}"
        )?;
    } else {
        write!(text, "the word is illegal")?;
    }
    Ok(())
}
