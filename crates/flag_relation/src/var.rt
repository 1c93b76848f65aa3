use crate::Reg;

/// A register, or a tracked cell of memory by its number in the list of cells, from 0.
#[derive(Clone, Copy, Debug, PartialEq, Eq)]
pub enum Var {
    Reg(Reg),
    Cell(u8),
}
