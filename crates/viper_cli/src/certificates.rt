//! Certificates of version 1, as bytes (docs/FORMATS.md, "Certificates").

use std::alloc::Global;
use std::test::Fail;

/// The least and the greatest number that a register may have.
pub(crate) type Ends = (i32, i32);

pub(crate) const ANY: Ends = (i32::MIN, i32::MAX);

/// Nothing is known of B.
const FLAG_ANY: &[u8] = &[6];

/// B is 1.
pub(crate) const FLAG_ONE: &[u8] = &[5];

/// B is 1 exactly where A is 0.
pub(crate) const FLAG_ZERO: &[u8] = &[1, 2, 0, 0xFF, 0, 0, 0, 0];

/// A node at which Y and the cells may be any, without links.
#[derive(Clone, Copy)]
pub(crate) struct Row<'a> {
    at: u32,
    a: Ends,
    x: Ends,
    flag: &'a [u8],
    successors: &'a [u32],
    rank: i64,
    terms: &'a [(u8, i64)],
}

/// The node at an address with any registers.
pub(crate) fn node(at: u32, successors: &[u32], rank: i64) -> Row<'_> {
    Row {
        at,
        a: ANY,
        x: ANY,
        flag: FLAG_ANY,
        successors,
        rank,
        terms: &[],
    }
}

impl<'a> Row<'a> {
    /// The node with these numbers in A.
    pub(crate) fn a(self, a: Ends) -> Row<'a> {
        Row { a, ..self }
    }

    /// The node with these numbers in X.
    pub(crate) fn x(self, x: Ends) -> Row<'a> {
        Row { x, ..self }
    }

    /// The node with this word on B.
    pub(crate) fn flag(self, flag: &'a [u8]) -> Row<'a> {
        Row { flag, ..self }
    }

    /// The node with these terms in its rank, each a variable and its coefficient.
    pub(crate) fn terms(self, terms: &'a [(u8, i64)]) -> Row<'a> {
        Row { terms, ..self }
    }
}

fn push_value(bytes: &mut Vec<u8>, (lo, hi): Ends) -> Result<(), Fail> {
    bytes.extend_from_slice(&lo.to_be_bytes())?;
    bytes.extend_from_slice(&hi.to_be_bytes())?;
    let (modulus, residue) = if lo == hi { (0, lo) } else { (1_i32, 0) };
    bytes.extend_from_slice(&modulus.to_be_bytes())?;
    bytes.extend_from_slice(&residue.to_be_bytes())?;
    Ok(())
}

fn push_numbers(bytes: &mut Vec<u8>, numbers: &[u32]) -> Result<(), Fail> {
    bytes.push(u8::try_from(numbers.len())?)?;
    for number in numbers {
        bytes.extend_from_slice(&number.to_be_bytes())?;
    }
    Ok(())
}

fn push_node(bytes: &mut Vec<u8>, cells: usize, node: &Row<'_>) -> Result<(), Fail> {
    bytes.extend_from_slice(&node.at.to_be_bytes())?;
    push_value(bytes, node.a)?;
    push_value(bytes, node.x)?;
    push_value(bytes, ANY)?;
    for _ in 0..cells {
        push_value(bytes, ANY)?;
    }
    bytes.extend_from_slice(&[0xFF, 0xFF, 0xFF])?;
    bytes.extend_from_slice(node.flag)?;
    push_numbers(bytes, node.successors)?;
    bytes.extend_from_slice(&node.rank.to_be_bytes())?;
    bytes.push(u8::try_from(node.terms.len())?)?;
    for (variable, coefficient) in node.terms {
        bytes.push(*variable)?;
        bytes.extend_from_slice(&coefficient.to_be_bytes())?;
    }
    Ok(())
}

/// The bytes of a certificate.
pub(crate) fn certificate(
    alloc: Global,
    cells: &[u32],
    starts: &[u32],
    nodes: &[Row<'_>],
) -> Result<Vec<u8>, Fail> {
    let mut bytes = Vec::new(alloc);
    bytes.extend_from_slice(&[b'V', b'S', b'B', b'C', 1])?;
    push_numbers(&mut bytes, cells)?;
    bytes.extend_from_slice(&u32::try_from(nodes.len())?.to_be_bytes())?;
    push_numbers(&mut bytes, starts)?;
    for node in nodes {
        push_node(&mut bytes, cells.len(), node)?;
    }
    Ok(bytes)
}
