/// A register that holds a word (docs/MACHINE.md, "State").
#[derive(Clone, Copy, Debug, PartialEq, Eq, PartialOrd, Ord, Hash)]
pub enum Reg {
    /// The register A.
    A,
    /// The register X, an index.
    X,
    /// The register Y, an index, to which a CALL gives the address to return to.
    Y,
}
