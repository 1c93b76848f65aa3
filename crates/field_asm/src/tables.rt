//! The names in a word, each table in the order of its codes.

ghost use Rattle.std.specs.Prelude.{◌≡◌};
ghost use Rattle.field_asm.specs.Tables.{function_names, comparison_names, destination_names, mode_names, register_names};

use crate::names::Names;

const FUNCTIONS: &[u8] =
    b"NEG CALL INP READ ADDB ADDS SUBB SUBS XOR AND NOR ANDN SHIFT F13 F14 F15";

const COMPARISONS: &[u8] = b"LT GE EQ NE LE GT ULT UGE LTOR GEOR EQOR NEOR LEOR GTOR ULTOR UGEOR";

const DESTINATIONS: &[u8] = b"A X Y P PIF PNB OUT STO";

const MODES: &[u8] = b"LIT MEM IDX IDY";

const REGISTERS: &[u8] = b"A X Y P";

/// The functions, by F where C is 0. The last three are illegal.
pub fn functions() -> Names<16>
    ensures { result ≡ function_names }
{
    Names::of(FUNCTIONS)
}

/// The comparisons, by F where C is 1.
pub fn comparisons() -> Names<16>
    ensures { result ≡ comparison_names }
{
    Names::of(COMPARISONS)
}

/// The destinations, by D.
pub fn destinations() -> Names<8>
    ensures { result ≡ destination_names }
{
    Names::of(DESTINATIONS)
}

/// The modes, by M.
pub fn modes() -> Names<4>
    ensures { result ≡ mode_names }
{
    Names::of(MODES)
}

/// The registers, by R.
pub fn registers() -> Names<4>
    ensures { result ≡ register_names }
{
    Names::of(REGISTERS)
}
