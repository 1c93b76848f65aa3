//! Addresses with their listing lines, and keys.

use disasm_view::line_of;
use flow_recover::Key;
use memory_plan::Plan;
use std::alloc::Global;
use std::fmt;
use viper_word::{Addr, Memory};

/// The listing line of the word at an address, as `viper disasm` has it (docs/FORMATS.md,
/// "Listings"); `AAAAA no word` where the image gives none.
pub fn line_at(alloc: Global, plan: &Plan, at: Addr) -> Result<String, Memory> {
    match plan.image_word(at) {
        None => Ok(format!(in alloc; "{:05X} no word", at.get())?),
        Some(word) => {
            let line = line_of(alloc, at, word)?;
            Ok(String::from_utf8_lossy(alloc, &line)?)
        }
    }
}

/// A key as viper's texts have it: its address, and the calls by their return addresses, or `-`.
#[derive(Clone, Copy)]
pub struct KeyWords<'a> {
    pub key: &'a Key,
}

impl<'a> fmt::Display for KeyWords<'a> {
    fn fmt<W: fmt::Write>(&self, f: &mut fmt::Formatter<W>) -> fmt::Result {
        write!(f, "{:05X} ", self.key.addr.get())?;
        let calls = self.key.context.addrs();
        if calls.is_empty() {
            return write!(f, "-");
        }
        for (i, call) in calls.iter().enumerate() {
            write!(f, "{}{:05X}", if i == 0 { "" } else { "," }, call.get())?;
        }
        Ok(())
    }
}
