//! The example of docs/FORMATS.md, "A program of three words", with what is said of it there.

use crate::certificates::{Row, certificate, node};
use crate::tests::{CHECK, answers, shelf_of};
use crate::upgrade_tests::{RECHECK, UPGRADE};
use std::alloc::Global;
use std::test::Fail;
use viper_io::Shelf;
use viper_top::Status;

/// `A` becomes 5, `X` becomes 7, and it begins again.
const IMAGE: &str = "00000 00300005\n00001 02300007\n00002 06300000\n";

const PLAN: &str = "code 00000 00002\nmarker 00000\nstart 00000 any any any any\n";

/// The nodes with a rank of the first, and what is known of A at the second.
fn nodes(rank: i64, a: i32) -> [Row<'static>; 3] {
    [
        node(0, &[1], rank),
        node(1, &[2], 2).a((a, a)),
        node(2, &[0], 1).a((5, 5)).x((7, 7)),
    ]
}

/// The bytes of the certificate.
fn bytes_of(alloc: Global, rank: i64, a: i32) -> Result<Vec<u8>, Fail> {
    certificate(alloc, &[], &[0], &nodes(rank, a))
}

/// A shelf with the program and these bytes.
fn shelf_with(alloc: Global, cert: &[u8]) -> Result<Shelf, Fail> {
    shelf_of(alloc, IMAGE, PLAN, cert)
}

#[test]
fn the_example_of_the_formats_is_right(rt: HostRuntime) -> Result<(), Fail> {
    let alloc = rt.alloc();
    let cert = bytes_of(alloc, 3, 5)?;
    let yes = "yes\nmarker 00000 within 3\n";
    let mut shelf = shelf_with(alloc, &cert)?;
    answers(alloc, &mut shelf, &CHECK, Status::Done, yes)?;
    let upgraded = "upgraded\nnodes 3\nbare 2\n";
    answers(alloc, &mut shelf, &UPGRADE, Status::Done, upgraded)?;
    answers(alloc, &mut shelf, &RECHECK, Status::Done, yes)
}

#[test]
fn the_example_of_the_formats_is_broken_so(rt: HostRuntime) -> Result<(), Fail> {
    let alloc = rt.alloc();
    let mut shelf = shelf_with(alloc, &bytes_of(alloc, 2, 5)?)?;
    let no_fall = "no node 0 address 00000 condition C10\n";
    answers(alloc, &mut shelf, &CHECK, Status::Refused, no_fall)?;
    let mut shelf = shelf_with(alloc, &bytes_of(alloc, 3, 8)?)?;
    let left_out = "no node 0 address 00000 condition C8\n";
    answers(alloc, &mut shelf, &CHECK, Status::Refused, left_out)?;
    let mut cert = bytes_of(alloc, 3, 5)?;
    cert.truncate(224);
    let mut shelf = shelf_with(alloc, &cert)?;
    let short = "cert offset 224 Length\n";
    answers(alloc, &mut shelf, &CHECK, Status::Input, short)
}
