//! The numbers of the certificate's layout (docs/FORMATS.md, "Certificates").

/// How many nodes a certificate has at the most.
pub const MOST_NODES: u32 = 65_536;

/// How many start nodes it has at the most.
pub(crate) const MOST_STARTS: u8 = 255;

/// How many successors a node has at the most.
pub const MOST_SUCCESSORS: u8 = 65;

/// How great the constant of a rank is at the most, in size: 2^62.
pub const MOST_RANK: i64 = 0x4000_0000_0000_0000;

/// How great a coefficient of a rank is at the most, in size: 2^40.
pub const MOST_FACTOR: i64 = 0x100_0000_0000;

/// The letters VSBC, with which every certificate begins.
pub(crate) const MAGIC: u32 = 0x5653_4243;

/// The bytes of a value: both ends, the modulus and the residue.
pub(crate) const VALUE: usize = 16;

/// The bytes of a term: the variable and the coefficient.
pub(crate) const TERM: usize = 9;

/// Stands in the place of a link's cell where there is no link.
pub(crate) const NO_LINK: u8 = 0xFF;

/// Stands in the place of a comparison's cell where a word follows.
pub(crate) const A_WORD: u8 = 0xFF;

/// The flag that says that B is 1. A lesser number is that of an `Or`'s comparisons.
pub(crate) const ONE: u8 = 5;

/// The flag that says nothing.
pub(crate) const ANY: u8 = 6;

/// The tag of a full node.
pub(crate) const FULL: u8 = 0;

/// The tag of a bare node.
pub(crate) const BARE: u8 = 1;
