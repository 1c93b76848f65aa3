//! `check` over a shelf and a page: verdicts of worked cases, which are known from outside.

use crate::certificates::{FLAG_ONE, FLAG_ZERO, Row, certificate, node};
use crate::tests::{CHECK, LOOP, LOOP_PLAN, ONE_NODE, answers, shelf_of};
use std::alloc::Global;
use std::test::Fail;
use viper_top::Status;

/// A program of two: A becomes 5, and back.
const FIVE: &str = "00000 00300005\n00001 06300000\n";

const FIVE_PLAN: &str = "code 00000 00001\nmarker 00000\nstart 00000 any any any any\n";

/// Two loops of one instruction, each at its marker.
const TWO: &str = "00000 06300000\n00001 06300000\n";

const TWO_PLAN: &str =
    "code 00000 00001\nmarker 00000\nmarker 00001\nstart 00000 any any any any\n";

/// A program whose jump leaves the code.
const OUT_OF_CODE: &str = "00000 06300001\n";

/// The loop, with X from 0 on at the start.
const FROM_ZERO_PLAN: &str =
    "code 00000 00000\nmarker 00000\nstart 00000 any 0..2147483647 any any\n";

/// A countdown from ten.
pub(crate) const COUNTDOWN: &str =
    "00000 0030000A\n00001 00700001\n00002 01200000\n00003 0A300001\n00004 06300000\n";

pub(crate) const COUNTDOWN_PLAN: &str =
    "code 00000 00004\nmarker 00000\nstart 00000 any any any any\n";

/// Three times A.
const THREE: &[(u8, i64)] = &[(0, 3)];

/// The nodes of the countdown: each instruction of its loop is ranked by three times A and a number, the
/// first one's given.
pub(crate) fn countdown(first: i64) -> [Row<'static>; 5] {
    [
        node(0, &[1], 32),
        node(1, &[2], first).a((1, 10)).terms(THREE),
        node(2, &[3], 3).a((0, 9)).terms(THREE),
        node(3, &[1, 4], 2).a((0, 9)).flag(FLAG_ZERO).terms(THREE),
        node(4, &[0], 1).a((0, 0)).flag(FLAG_ONE),
    ]
}

/// A certificate over its program and plan is answered so.
fn judged(
    alloc: Global,
    image: &str,
    plan: &str,
    cert: &[u8],
    status: Status,
    text: &'static str,
) -> Result<(), Fail> {
    let mut shelf = shelf_of(alloc, image, plan, cert)?;
    answers(alloc, &mut shelf, &CHECK, status, text)
}

#[test]
fn a_yes_has_a_bound_for_each_marker(rt: HostRuntime) -> Result<(), Fail> {
    let alloc = rt.alloc();
    judged(
        alloc,
        LOOP,
        LOOP_PLAN,
        &certificate(alloc, &[], &[0], &[node(0, &[0], 1)])?,
        Status::Done,
        "yes\nmarker 00000 within 1\n",
    )?;
    judged(
        alloc,
        TWO,
        TWO_PLAN,
        &certificate(alloc, &[], &[0], &[node(0, &[0], 1)])?,
        Status::Done,
        "yes\nmarker 00000 within 1\nmarker 00001 unreached\n",
    )?;
    judged(
        alloc,
        FIVE,
        FIVE_PLAN,
        &certificate(
            alloc,
            &[],
            &[0],
            &[node(0, &[1], 2), node(1, &[0], 1).a((5, 5))],
        )?,
        Status::Done,
        "yes\nmarker 00000 within 2\n",
    )?;
    Ok(())
}

#[test]
fn a_bound_is_the_greatest_rank(rt: HostRuntime) -> Result<(), Fail> {
    let alloc = rt.alloc();
    judged(
        alloc,
        LOOP,
        LOOP_PLAN,
        &certificate(
            alloc,
            &[],
            &[0],
            &[node(0, &[0], 1), node(0, &[0], 7), node(0, &[0], 3)],
        )?,
        Status::Done,
        "yes\nmarker 00000 within 7\n",
    )?;
    judged(
        alloc,
        LOOP,
        LOOP_PLAN,
        &certificate(
            alloc,
            &[],
            &[0],
            &[node(0, &[0], 4_611_686_018_427_387_904)],
        )?,
        Status::Done,
        "yes\nmarker 00000 within 4611686018427387904\n",
    )?;
    let cert = certificate(alloc, &[], &[0], &countdown(1))?;
    judged(
        alloc,
        COUNTDOWN,
        COUNTDOWN_PLAN,
        &cert,
        Status::Done,
        "yes\nmarker 00000 within 32\n",
    )
}

#[test]
fn cells_come_before_starts(rt: HostRuntime) -> Result<(), Fail> {
    // Where more than one condition fails the first counts.
    let alloc = rt.alloc();
    judged(
        alloc,
        LOOP,
        LOOP_PLAN,
        &certificate(alloc, &[0x300], &[0], &[node(0, &[0], 1)])?,
        Status::Refused,
        "no cell 0 address 00300 condition H1\n",
    )?;
    judged(
        alloc,
        LOOP,
        LOOP_PLAN,
        &certificate(alloc, &[0x300], &[], &[])?,
        Status::Refused,
        "no cell 0 address 00300 condition H1\n",
    )
}

#[test]
fn starts_come_before_nodes(rt: HostRuntime) -> Result<(), Fail> {
    let alloc = rt.alloc();
    let text = "no start 0 address 00000 condition H2\n";
    let none = certificate(alloc, &[], &[], &[])?;
    judged(alloc, LOOP, LOOP_PLAN, &none, Status::Refused, text)?;
    let narrow = certificate(alloc, &[], &[0], &[node(0, &[0], 1).a((0, 0))])?;
    judged(alloc, LOOP, LOOP_PLAN, &narrow, Status::Refused, text)?;
    let elsewhere = certificate(alloc, &[], &[], &[node(1, &[0], 1)])?;
    judged(alloc, LOOP, LOOP_PLAN, &elsewhere, Status::Refused, text)
}

#[test]
fn each_condition_of_a_node_is_looked_at(rt: HostRuntime) -> Result<(), Fail> {
    // Every node is looked at, also one that no start leads to.
    let alloc = rt.alloc();
    judged(
        alloc,
        LOOP,
        LOOP_PLAN,
        &certificate(alloc, &[], &[0], &[node(0, &[0, 0], 1)])?,
        Status::Refused,
        "no node 0 address 00000 condition C8\n",
    )?;
    judged(
        alloc,
        LOOP,
        LOOP_PLAN,
        &certificate(alloc, &[], &[0], &[node(0, &[0], 1), node(1, &[0], 1)])?,
        Status::Refused,
        "no node 1 address 00001 condition C1\n",
    )?;
    judged(
        alloc,
        OUT_OF_CODE,
        LOOP_PLAN,
        &certificate(alloc, &[], &[0], &[node(0, &[0], 1)])?,
        Status::Refused,
        "no node 0 address 00000 condition C5\n",
    )?;
    judged(
        alloc,
        FIVE,
        FIVE_PLAN,
        &certificate(
            alloc,
            &[],
            &[0],
            &[node(0, &[1], 2), node(1, &[0], 1).a((4, 4))],
        )?,
        Status::Refused,
        "no node 0 address 00000 condition C8\n",
    )?;
    Ok(())
}

#[test]
fn a_rank_is_at_least_one(rt: HostRuntime) -> Result<(), Fail> {
    let alloc = rt.alloc();
    judged(
        alloc,
        FIVE,
        FIVE_PLAN,
        &certificate(
            alloc,
            &[],
            &[0],
            &[node(0, &[1], 2), node(1, &[0], 0).a((5, 5))],
        )?,
        Status::Refused,
        "no node 1 address 00001 condition C9\n",
    )?;
    judged(
        alloc,
        LOOP,
        LOOP_PLAN,
        &certificate(
            alloc,
            &[],
            &[0],
            &[node(0, &[0], 1).terms(&[(0, 1_099_511_627_776)])],
        )?,
        Status::Refused,
        "no node 0 address 00000 condition C9\n",
    )
}

#[test]
fn a_rank_falls(rt: HostRuntime) -> Result<(), Fail> {
    let alloc = rt.alloc();
    judged(
        alloc,
        FIVE,
        FIVE_PLAN,
        &certificate(
            alloc,
            &[],
            &[0],
            &[node(0, &[1], 1), node(1, &[0], 1).a((5, 5))],
        )?,
        Status::Refused,
        "no node 0 address 00000 condition C10\n",
    )?;
    let cert = certificate(alloc, &[], &[0], &countdown(0))?;
    judged(
        alloc,
        COUNTDOWN,
        COUNTDOWN_PLAN,
        &cert,
        Status::Refused,
        "no node 1 address 00001 condition C10\n",
    )
}

#[test]
fn a_rank_at_a_marker_has_a_limit(rt: HostRuntime) -> Result<(), Fail> {
    let alloc = rt.alloc();
    judged(
        alloc,
        LOOP,
        FROM_ZERO_PLAN,
        &certificate(
            alloc,
            &[],
            &[0],
            &[
                node(0, &[0], 4_611_686_018_427_387_904)
                    .x((0, 2_147_483_647))
                    .terms(&[(1, 8_589_934_592)]),
            ],
        )?,
        Status::Refused,
        "no node 0 address 00000 condition C11\n",
    )
}

#[test]
fn the_first_node_at_which_a_condition_fails_is_named(rt: HostRuntime) -> Result<(), Fail> {
    let alloc = rt.alloc();
    judged(
        alloc,
        LOOP,
        LOOP_PLAN,
        &certificate(
            alloc,
            &[],
            &[0],
            &[node(0, &[0], 1), node(1, &[0], 1), node(1, &[0], 0)],
        )?,
        Status::Refused,
        "no node 1 address 00001 condition C1\n",
    )?;
    Ok(())
}

/// Images of one word, of which a condition fails that is the step's, and which.
const STEPS: [(&str, &str); 5] = [
    ("00000 00D00000\n", "no node 0 address 00000 condition C2\n"),
    ("00000 10300300\n", "no node 0 address 00000 condition C3\n"),
    ("00000 00500001\n", "no node 0 address 00000 condition C4\n"),
    ("00000 1E000000\n", "no node 0 address 00000 condition C6\n"),
    ("00000 1C000011\n", "no node 0 address 00000 condition C7\n"),
];

#[test]
fn a_no_names_a_condition_of_the_step(rt: HostRuntime) -> Result<(), Fail> {
    for (image, text) in STEPS {
        let mut shelf = shelf_of(rt.alloc(), image, LOOP_PLAN, &ONE_NODE)?;
        answers(rt.alloc(), &mut shelf, &CHECK, Status::Refused, text)?;
    }
    Ok(())
}
