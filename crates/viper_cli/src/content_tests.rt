//! `check` over a shelf and a page: contents that break a rule, names, and lengths.

use crate::certificates::certificate;
use crate::check_tests::{COUNTDOWN, COUNTDOWN_PLAN, countdown};
use crate::tests::{CHECK, LOOP, LOOP_PLAN, ONE_NODE, answers, shelf_of};
use std::alloc::Global;
use std::test::Fail;
use viper_io::Page;
use viper_top::{Status, viper_main};

/// Images and plans, of which the plan breaks a rule, and the text.
const PLAN_FAULTS: [(&str, &str, &str); 8] = [
    (
        LOOP,
        "code 00000 00000\nmarker 00000\nstart 00001 any any any any\n",
        "plan line 3 Code\n",
    ),
    (
        "00000 00500001\n00001 00300000\n00002 06300000\n",
        "code 00000 00002\nmarker 00000\nstart 00001 any any any any\n",
        "plan line 3 Marker\n",
    ),
    (
        "00000 00500001\n00001 00300000\n00002 06300000\n",
        "code 00000 00002\ndata 00002 00005 any\n",
        "plan line 2 Span\n",
    ),
    (
        "00000 00500001\n00001 00300000\n00002 06300000\n00100 0000000B\n",
        "code 00000 00002\ndata 00100 00100 0..10\n",
        "plan line 2 Image\n",
    ),
    ("", LOOP_PLAN, "plan line 1 Image\n"),
    (
        LOOP,
        "code 00000 00000\nmarker 00000\n",
        "plan line 3 Start\n",
    ),
    ("", "code 00000 04000\n", "plan line 1 Limit\n"),
    (
        LOOP,
        "code 00000 00000\nmarker 00000\nstart 00000 5..5/1 any any any\n",
        "plan line 3 Number\n",
    ),
];

#[test]
fn a_plan_that_breaks_a_rule_is_named(rt: HostRuntime) -> Result<(), Fail> {
    for (image, plan, text) in PLAN_FAULTS {
        let mut shelf = shelf_of(rt.alloc(), image, plan, &ONE_NODE)?;
        answers(rt.alloc(), &mut shelf, &CHECK, Status::Input, text)?;
    }
    Ok(())
}

/// The certificate of the loop, changed at a byte, is answered so.
fn changed(alloc: Global, at: usize, byte: u8, text: &'static str) -> Result<(), Fail> {
    let mut cert = Vec::from_slice(alloc, &ONE_NODE)?;
    if let Some(place) = cert.get_mut(at) {
        *place = byte;
    }
    let mut shelf = shelf_of(alloc, LOOP, LOOP_PLAN, &cert)?;
    answers(alloc, &mut shelf, &CHECK, Status::Input, text)
}

#[test]
fn bytes_that_are_no_certificate_are_named(rt: HostRuntime) -> Result<(), Fail> {
    let alloc = rt.alloc();
    let mut shelf = shelf_of(alloc, LOOP, LOOP_PLAN, b"")?;
    answers(
        alloc,
        &mut shelf,
        &CHECK,
        Status::Input,
        "cert offset 0 Length\n",
    )?;
    let mut shelf = shelf_of(alloc, LOOP, LOOP_PLAN, &ONE_NODE[..84])?;
    answers(
        alloc,
        &mut shelf,
        &CHECK,
        Status::Input,
        "cert offset 84 Length\n",
    )?;
    let mut long = Vec::from_slice(alloc, &ONE_NODE)?;
    long.push(0)?;
    let mut shelf = shelf_of(alloc, LOOP, LOOP_PLAN, &long)?;
    answers(
        alloc,
        &mut shelf,
        &CHECK,
        Status::Input,
        "cert offset 85 Trailing\n",
    )?;
    changed(alloc, 34, 1, "cert offset 19 Value\n")?;
    changed(alloc, 7, 1, "cert offset 6 Range\n")?;
    changed(alloc, 4, 3, "cert offset 4 Version\n")?;
    changed(alloc, 0, 0, "cert offset 0 Magic\n")
}

#[test]
fn a_part_of_a_certificate_is_none(rt: HostRuntime) -> Result<(), Fail> {
    let alloc = rt.alloc();
    let cert = certificate(alloc, &[], &[0], &countdown(1))?;
    for count in 0..cert.len() {
        let mut shelf = shelf_of(alloc, COUNTDOWN, COUNTDOWN_PLAN, &cert[..count])?;
        let mut page = Page::new(alloc);
        let status = viper_main(alloc, &CHECK, &mut shelf, &mut page);
        assert_eq!(rt; status, Status::Input);
    }
    Ok(())
}

#[test]
fn one_name_may_be_given_three_times(rt: HostRuntime) -> Result<(), Fail> {
    let mut shelf = shelf_of(rt.alloc(), LOOP, LOOP_PLAN, &ONE_NODE)?;
    let words = ["check", "image", "image", "image"];
    answers(
        rt.alloc(),
        &mut shelf,
        &words,
        Status::Input,
        "plan line 1 Form\n",
    )
}

#[test]
fn a_plan_may_be_as_long_as_its_limit(rt: HostRuntime) -> Result<(), Fail> {
    let alloc = rt.alloc();
    let mut plan = Vec::from_slice(alloc, LOOP_PLAN.as_bytes())?;
    let comment = vec![in alloc; b'#'; 999_942]?;
    plan.extend_from_slice(&comment)?;
    let mut shelf = shelf_of(alloc, LOOP, LOOP_PLAN, &ONE_NODE)?;
    shelf.hold("plan", &plan)?;
    answers(
        alloc,
        &mut shelf,
        &CHECK,
        Status::Done,
        "yes\nmarker 00000 within 1\n",
    )?;
    plan.push(b'#')?;
    shelf.hold("plan", &plan)?;
    answers(alloc, &mut shelf, &CHECK, Status::Input, "plan long\n")
}
