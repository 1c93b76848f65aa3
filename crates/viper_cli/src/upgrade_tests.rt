//! `upgrade` over a shelf and a page: worked cases, whose answers are known from outside.

use crate::certificates::certificate;
use crate::check_tests::{COUNTDOWN, COUNTDOWN_PLAN, countdown};
use crate::tests::{CHECK, LOOP, LOOP_PLAN, ONE_NODE, answers, shelf_of};
use std::alloc::Global;
use std::test::Fail;
use viper_io::{Page, Shelf, Sink, Store};
use viper_top::{Status, viper_main};

pub(crate) const UPGRADE: [&str; 5] = ["upgrade", "image", "plan", "cert", "new"];

pub(crate) const RECHECK: [&str; 4] = ["check", "image", "plan", "new"];

/// How many bytes the name holds.
pub(crate) fn held(alloc: Global, shelf: &mut Shelf, name: &str) -> Result<usize, Fail> {
    let bytes = shelf
        .fetch(alloc, name, 1000)
        .map_err(|_| "nothing is held")?;
    Ok(bytes.len())
}

/// Does the name hold anything?
fn is_held(alloc: Global, shelf: &mut Shelf, name: &str) -> bool {
    shelf.fetch(alloc, name, 1000).is_ok()
}

#[test]
fn an_upgrade_leaves_out_what_follows(rt: HostRuntime) -> Result<(), Fail> {
    let alloc = rt.alloc();
    let cert = certificate(alloc, &[], &[0], &countdown(1))?;
    let mut shelf = shelf_of(alloc, COUNTDOWN, COUNTDOWN_PLAN, &cert)?;
    answers(
        alloc,
        &mut shelf,
        &UPGRADE,
        Status::Done,
        "upgraded\nnodes 5\nbare 3\n",
    )?;
    assert_eq!(rt; held(alloc, &mut shelf, "cert")?, 403);
    assert_eq!(rt; held(alloc, &mut shelf, "new")?, 245);
    answers(
        alloc,
        &mut shelf,
        &RECHECK,
        Status::Done,
        "yes\nmarker 00000 within 32\n",
    )
}

#[test]
fn an_upgrade_judges_nothing(rt: HostRuntime) -> Result<(), Fail> {
    let alloc = rt.alloc();
    let cert = certificate(alloc, &[], &[0], &countdown(0))?;
    let mut shelf = shelf_of(alloc, COUNTDOWN, COUNTDOWN_PLAN, &cert)?;
    answers(
        alloc,
        &mut shelf,
        &UPGRADE,
        Status::Done,
        "upgraded\nnodes 5\nbare 3\n",
    )?;
    let text = "no node 1 address 00001 condition C10\n";
    answers(alloc, &mut shelf, &RECHECK, Status::Refused, text)?;
    let cert = certificate(alloc, &[0x300], &[0], &countdown(1))?;
    let mut shelf = shelf_of(alloc, COUNTDOWN, COUNTDOWN_PLAN, &cert)?;
    answers(
        alloc,
        &mut shelf,
        &UPGRADE,
        Status::Done,
        "upgraded\nnodes 5\nbare 0\n",
    )
}

#[test]
fn an_upgrade_may_be_placed_over_the_certificate(rt: HostRuntime) -> Result<(), Fail> {
    let alloc = rt.alloc();
    let cert = certificate(alloc, &[], &[0], &countdown(1))?;
    let mut shelf = shelf_of(alloc, COUNTDOWN, COUNTDOWN_PLAN, &cert)?;
    let words = ["upgrade", "image", "plan", "cert", "cert"];
    answers(
        alloc,
        &mut shelf,
        &words,
        Status::Done,
        "upgraded\nnodes 5\nbare 3\n",
    )?;
    answers(
        alloc,
        &mut shelf,
        &CHECK,
        Status::Done,
        "yes\nmarker 00000 within 32\n",
    )
}

#[test]
fn an_upgrade_keeps_what_doesnt_follow(rt: HostRuntime) -> Result<(), Fail> {
    let alloc = rt.alloc();
    let mut shelf = shelf_of(alloc, LOOP, LOOP_PLAN, &ONE_NODE)?;
    answers(
        alloc,
        &mut shelf,
        &UPGRADE,
        Status::Done,
        "upgraded\nnodes 1\nbare 0\n",
    )?;
    assert_eq!(rt; held(alloc, &mut shelf, "new")?, 86);
    answers(
        alloc,
        &mut shelf,
        &RECHECK,
        Status::Done,
        "yes\nmarker 00000 within 1\n",
    )
}

/// The certificate of the loop in version 2, with this tag, and its fact or none.
fn tagged(alloc: Global, tag: u8, fact: &[u8]) -> Result<Vec<u8>, Fail> {
    let mut cert = Vec::from_slice(alloc, &ONE_NODE[..19])?;
    if let Some(version) = cert.get_mut(4) {
        *version = 2;
    }
    cert.push(tag)?;
    cert.extend_from_slice(fact)?;
    cert.extend_from_slice(&ONE_NODE[71..])?;
    Ok(cert)
}

#[test]
fn a_node_that_may_not_be_bare_is_named(rt: HostRuntime) -> Result<(), Fail> {
    let alloc = rt.alloc();
    let bare = tagged(alloc, 1, &[])?;
    let mut shelf = shelf_of(alloc, LOOP, LOOP_PLAN, &bare)?;
    answers(
        alloc,
        &mut shelf,
        &CHECK,
        Status::Input,
        "cert offset 19 Bare\n",
    )?;
    let wrong = tagged(alloc, 2, &ONE_NODE[19..71])?;
    let mut shelf = shelf_of(alloc, LOOP, LOOP_PLAN, &wrong)?;
    answers(
        alloc,
        &mut shelf,
        &CHECK,
        Status::Input,
        "cert offset 19 Range\n",
    )
}

#[test]
fn an_upgrade_whose_calls_fail_puts_nothing(rt: HostRuntime) -> Result<(), Fail> {
    let alloc = rt.alloc();
    for call in 0..4 {
        let mut shelf = shelf_of(alloc, LOOP, LOOP_PLAN, &ONE_NODE)?;
        shelf.fail_at(call)?;
        answers(alloc, &mut shelf, &UPGRADE, Status::Outside, "")?;
        assert!(rt; !is_held(alloc, &mut shelf, "new"));
    }
    let mut shelf = shelf_of(alloc, LOOP, LOOP_PLAN, &ONE_NODE)?;
    let mut page = Page::new(alloc);
    page.fail_at(0, 3)?;
    let status = viper_main(alloc, &UPGRADE, &mut shelf, &mut page);
    assert_eq!(rt; status, Status::Outside);
    assert_eq!(rt; page.bytes(), b"upg".as_slice());
    assert_eq!(rt; held(alloc, &mut shelf, "new")?, 86);
    Ok(())
}
