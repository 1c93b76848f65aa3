/// The greatest size of an offset: that of two signed words' difference.
pub const MOST_OFFSET: i64 = 0xFFFF_FFFF;

/// What a link says: its register equals the cell plus the offset, as whole numbers. In a fact the
/// cell is one of the fact's cells, by its number, and the offset is at most 2^32 - 1 in size.
#[derive(Clone, Copy, Debug, PartialEq, Eq)]
pub struct Link {
    pub cell: u8,
    pub offset: i64,
}
