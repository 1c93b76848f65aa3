//! `certify` over a shelf and a page: worked programs, and what a check says of the certificates.

use crate::tests::{CHECK, LOOP, LOOP_PLAN, answers, shelf_of};
use crate::upgrade_tests::held;
use std::alloc::Global;
use std::test::Fail;
use viper_io::{Page, Shelf};
use viper_top::{Status, viper_main};

/// A program that has a certificate, its plan, and what is put by its certification and by a check.
#[derive(Clone, Copy)]
struct Certified {
    image: &'static str,
    plan: &'static str,
    text: &'static str,
    check: &'static str,
}

/// A program that has none, its plan, and why.
#[derive(Clone, Copy)]
struct Refused {
    image: &'static str,
    plan: &'static str,
    text: &'static str,
}

/// Programs that have a certificate.
const CERTIFIED: [Certified; 10] = [
    // A countdown.
    Certified {
        image: "00000 0030000A\n00001 00700001\n00002 01200000\n00003 0A300001\n\
00004 06300000\n",
        plan: "code 00000 00004\nmarker 00000\nstart 00000 any any any any\n",
        text: "certified\nnodes 5\nmarker 00000 within 33\n",
        check: "yes\nmarker 00000 within 33\n",
    },
    Certified {
        image: "00000 00500001\n00001 00300000\n00002 06300000\n",
        plan: "code 00000 00002\nmarker 00000\nstart 00000 0..2147483646 any any any\n",
        text: "certified\nnodes 3\nmarker 00000 within 3\n",
        check: "yes\nmarker 00000 within 3\n",
    },
    // An index within its data, or before it.
    Certified {
        image: "00100 20300010\n00101 06300100\n",
        plan: "code 00100 00101\ndata 00000 00010 any\nmarker 00100\n\
start 00100 any -16..0 any any\n",
        text: "certified\nnodes 2\nmarker 00100 within 2\n",
        check: "yes\nmarker 00100 within 2\n",
    },
    Certified {
        image: "00000 01D00000\n00001 06300000\n",
        plan: "code 00000 00001\nmarker 00000\nstart 00000 any any any any\n",
        text: "certified\nnodes 2\nmarker 00000 within 2\n",
        check: "yes\nmarker 00000 within 2\n",
    },
    // A jump that is skipped, or that may be taken.
    Certified {
        image: "00000 28300000\n00001 06300000\n",
        plan: "code 00000 00001\nmarker 00000\nstart 00000 any -1 any 0\n",
        text: "certified\nnodes 2\nmarker 00000 within 2\n",
        check: "yes\nmarker 00000 within 2\n",
    },
    // One procedure that is called three times.
    Certified {
        image: "00000 06100004\n00001 06100004\n00002 06100004\n00003 06300000\n\
00004 86500000\n",
        plan: "code 00000 00004\nmarker 00000\nstart 00000 any any any any\n",
        text: "certified\nnodes 7\nmarker 00000 within 7\n",
        check: "yes\nmarker 00000 within 7\n",
    },
    // A counter in memory.
    Certified {
        image: "00000 0030000A\n00001 1E000100\n00002 10300100\n00003 00700001\n\
00004 1E000100\n00005 01200000\n00006 0A300002\n00007 06300000\n",
        plan: "code 00000 00007\ndata 00100 00100 0..10\nmarker 00000\n\
start 00000 any any any any\n",
        text: "certified\nnodes 8\nmarker 00000 within 55\n",
        check: "yes\nmarker 00000 within 55\n",
    },
    // A chain of tests.
    Certified {
        image: "00000 12200020\n00001 41000000\n00002 41D0000A\n00003 08300005\n\
00004 20300100\n00005 06300000\n",
        plan: "code 00000 00005\ndata 00100 0010A any\ninput 00020 00020 any\nmarker 00000\n\
start 00000 any any any any\n",
        text: "certified\nnodes 6\nmarker 00000 within 6\n",
        check: "yes\nmarker 00000 within 6\n",
    },
    Certified {
        image: "00000 00300000\n00001 10200000\n00002 01200000\n00003 08300001\n\
00004 06300000\n",
        plan: "code 00000 00004\ninput 00000 00000 0..1\nmarker 00000\nmarker 00001\n\
start 00000 any any any any\n",
        text: "certified\nnodes 5\nmarker 00000 within 1\nmarker 00001 within 4\n",
        check: "yes\nmarker 00000 within 1\nmarker 00001 within 4\n",
    },
    // A controller.
    Certified {
        image: "00000 02300007\n00001 00300000\n00002 2E000210\n00003 42700001\n\
00004 41100000\n00005 08300002\n00006 1E000200\n00007 10200010\n\
00008 12300200\n00009 2E000210\n0000A 42500001\n0000B 41400007\n\
0000C 0830000E\n0000D 02300000\n0000E 5E000200\n0000F 10300210\n\
00010 10500211\n00011 10500212\n00012 10500213\n00013 10500214\n\
00014 10500215\n00015 10500216\n00016 10500217\n00017 00C00000\n\
00018 00C00000\n00019 00C00000\n0001A 00700800\n0001B 0610001E\n\
0001C 1C000011\n0001D 06300007\n0001E 00C00000\n0001F 00C00000\n\
00020 00C00000\n00021 00500080\n00022 01100000\n00023 08300025\n\
00024 00300000\n00025 014000FF\n00026 08300028\n00027 003000FF\n\
00028 86500000\n",
        plan: "code 00000 00028\ndata 00200 00200 0..7\ndata 00210 00217 0..4095\n\
input 00010 00010 0..4095\noutput 00011 00011 0..255\nmarker 00000\n\
marker 00007\nstart 00000 any any any any\n",
        text: "certified\nnodes 41\nmarker 00000 within 37\nmarker 00007 within 34\n",
        check: "yes\nmarker 00000 within 37\nmarker 00007 within 34\n",
    },
];

/// Programs that have none, with a cause that is true of them.
const REFUSED: [Refused; 10] = [
    // A grows over the greatest number, or up to it.
    Refused {
        image: "00000 00500001\n00001 00300000\n00002 06300000\n",
        plan: "code 00000 00002\nmarker 00000\nstart 00000 0..2147483647 any any any\n",
        text: "undischarged 00000 - C4\n",
    },
    Refused {
        image: "00100 20300010\n00101 06300100\n",
        plan: "code 00100 00101\ndata 00000 00010 any\nmarker 00100\n\
start 00100 any -17..0 any any\n",
        text: "undischarged 00100 - C3\n",
    },
    // The last word of all falls through.
    Refused {
        image: "FFFFE 00300000\nFFFFF 06300000\n",
        plan: "code FFFFE FFFFF\nmarker FFFFE\nstart FFFFE any any any any\n",
        text: "undischarged FFFFF - C1\n",
    },
    // An illegal word, and a comparison of its code.
    Refused {
        image: "00000 00D00000\n00001 06300000\n",
        plan: "code 00000 00001\nmarker 00000\nstart 00000 any any any any\n",
        text: "undischarged 00000 - C2\n",
    },
    Refused {
        image: "00000 28300000\n00001 06300000\n",
        plan: "code 00000 00001\nmarker 00000\nstart 00000 any -1 any any\n",
        text: "undischarged 00000 - C3\n",
    },
    // A procedure that returns to what it reads.
    Refused {
        image: "00000 06100004\n00001 06100004\n00002 06100004\n00003 06300000\n\
00004 14200010\n00005 86500000\n",
        plan: "code 00000 00005\ninput 00010 00010 0..255\nmarker 00000\n\
start 00000 any any any any\n",
        text: "undischarged 00005 00001 C5\n",
    },
    // A store into code, and one out of its range.
    Refused {
        image: "00000 1E000000\n00001 06300000\n",
        plan: "code 00000 00001\nmarker 00000\nstart 00000 any any any any\n",
        text: "undischarged 00000 - C6\n",
    },
    Refused {
        image: "00000 1E000100\n00001 06300000\n",
        plan: "code 00000 00001\ndata 00100 00100 0..10\nmarker 00000\n\
start 00000 any any any any\n",
        text: "undischarged 00000 - C6\n",
    },
    // Polling without an end, and with a marker.
    Refused {
        image: "00000 00300000\n00001 10200000\n00002 01200000\n00003 08300001\n\
00004 06300000\n",
        plan: "code 00000 00004\ninput 00000 00000 0..1\nmarker 00000\n\
start 00000 any any any any\n",
        text: "unranked 3\nedge 00001 - to 00002 -\nedge 00002 - to 00003 -\n\
edge 00003 - to 00001 -\n",
    },
    // A loop within a loop, of which a number is large.
    Refused {
        image: "00000 12200000\n00001 14200001\n00002 81200000\n00003 08300006\n\
00004 84700001\n00005 06300002\n00006 41200000\n00007 0830000A\n\
00008 42700001\n00009 06300001\n0000A 06300000\n",
        plan: "code 00000 0000A\ninput 00000 00001 0..2147483647\nmarker 00000\n\
start 00000 any any any any\n",
        text: "large\n",
    },
];

const CERTIFY: [&str; 4] = ["certify", "image", "plan", "cert"];

#[test]
fn a_certificate_is_made_and_checked(rt: HostRuntime) -> Result<(), Fail> {
    let alloc = rt.alloc();
    for row in &CERTIFIED {
        let mut shelf = shelf_of(alloc, row.image, row.plan, b"none")?;
        answers(alloc, &mut shelf, &CERTIFY, Status::Done, row.text)?;
        answers(alloc, &mut shelf, &CHECK, Status::Done, row.check)?;
    }
    Ok(())
}

#[test]
fn a_refusal_has_a_true_cause_and_places_nothing(rt: HostRuntime) -> Result<(), Fail> {
    let alloc = rt.alloc();
    for row in &REFUSED {
        let mut shelf = shelf_of(alloc, row.image, row.plan, b"none")?;
        answers(alloc, &mut shelf, &CERTIFY, Status::Refused, row.text)?;
        assert_eq!(rt; held(alloc, &mut shelf, "cert")?, 4);
    }
    Ok(())
}

/// A loop of one instruction.
fn shelf_of_loop(alloc: Global) -> Result<Shelf, Fail> {
    shelf_of(alloc, LOOP, LOOP_PLAN, b"none")
}

#[test]
fn a_certification_whose_calls_fail_puts_nothing(rt: HostRuntime) -> Result<(), Fail> {
    let alloc = rt.alloc();
    for call in 0..3 {
        let mut shelf = shelf_of_loop(alloc)?;
        shelf.fail_at(call)?;
        answers(alloc, &mut shelf, &CERTIFY, Status::Outside, "")?;
    }
    Ok(())
}

#[test]
fn a_certificate_is_placed_before_the_put_that_fails(rt: HostRuntime) -> Result<(), Fail> {
    let alloc = rt.alloc();
    let mut shelf = shelf_of_loop(alloc)?;
    let mut page = Page::new(alloc);
    page.fail_at(0, 4)?;
    let status = viper_main(alloc, &CERTIFY, &mut shelf, &mut page);
    assert_eq!(rt; status, Status::Outside);
    assert_eq!(rt; page.bytes(), b"cert".as_slice());
    answers(
        alloc,
        &mut shelf,
        &CHECK,
        Status::Done,
        "yes\nmarker 00000 within 1\n",
    )
}

#[test]
fn a_sample_is_certified_and_uses_no_store(rt: HostRuntime) -> Result<(), Fail> {
    let mut shelf = shelf_of(rt.alloc(), LOOP, LOOP_PLAN, &[])?;
    shelf.fail_at(0)?;
    answers(
        rt.alloc(),
        &mut shelf,
        &["sample", "1"],
        Status::Done,
        "sample 1\nwords 7\nnodes 7\nmarker 00000 within 35\n",
    )
}
