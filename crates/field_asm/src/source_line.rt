//! What a line of a source says.

use viper_decode::Fields;
use viper_word::{Addr, Word};

/// What a line says (docs/FORMATS.md, "Sources").
#[derive(Clone, Copy, Debug)]
pub enum Said<'a> {
    /// A label for an address.
    Names(&'a [u8], Addr),
    /// A word at an address.
    Is(Addr, Word),
    /// A word of these numbers at an address, whose field is the address of a label.
    Refers(Addr, Fields, &'a [u8]),
}
