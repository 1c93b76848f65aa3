//! Views over a shelf and a page: worked programs, whose facts and numbers are known from outside.

use crate::view::view;
use std::alloc::Global;
use std::test::Fail;
use viper_io::{Page, Shelf};
use viper_top::Status;

/// A countdown from 10.
const COUNTDOWN: &str =
    "00000 0030000A\n00001 00700001\n00002 01200000\n00003 0A300001\n00004 06300000\n";

/// Its plan.
const COUNTDOWN_PLAN: &str = "code 00000 00004\nmarker 00000\nstart 00000 any any any any\n";

/// Its certificate: five nodes, of which the last three are bare.
const COUNTDOWN_CERT: [u8; 245] = [
    86, 83, 66, 67, 2, 0, 0, 0, 0, 5, 1, 0, 0, 0, 0, 0, 0, 0, 0, 0, 128, 0, 0, 0, 127, 255, 255,
    255, 0, 0, 0, 1, 0, 0, 0, 0, 128, 0, 0, 0, 127, 255, 255, 255, 0, 0, 0, 1, 0, 0, 0, 0, 128, 0,
    0, 0, 127, 255, 255, 255, 0, 0, 0, 1, 0, 0, 0, 0, 255, 255, 255, 6, 1, 0, 0, 0, 1, 0, 0, 0, 0,
    0, 0, 0, 33, 0, 0, 0, 0, 1, 0, 0, 0, 0, 1, 0, 0, 0, 10, 0, 0, 0, 1, 0, 0, 0, 0, 128, 0, 0, 0,
    127, 255, 255, 255, 0, 0, 0, 1, 0, 0, 0, 0, 128, 0, 0, 0, 127, 255, 255, 255, 0, 0, 0, 1, 0, 0,
    0, 0, 255, 255, 255, 6, 1, 0, 0, 0, 2, 0, 0, 0, 0, 0, 0, 0, 2, 1, 0, 0, 0, 0, 0, 0, 0, 0, 3, 0,
    0, 0, 2, 1, 1, 0, 0, 0, 3, 0, 0, 0, 0, 0, 0, 0, 4, 1, 0, 0, 0, 0, 0, 0, 0, 0, 3, 0, 0, 0, 3, 1,
    2, 0, 0, 0, 1, 0, 0, 0, 4, 0, 0, 0, 0, 0, 0, 0, 3, 1, 0, 0, 0, 0, 0, 0, 0, 0, 3, 0, 0, 0, 4, 1,
    1, 0, 0, 0, 0, 0, 0, 0, 0, 0, 0, 0, 1, 0,
];

/// Where the greatest value of A stands at node 1, and the constant of the rank there: their last
/// bytes.
const MOST_A: usize = 98;

const RANK_1: usize = 155;

/// The countdown as a table.
const TABLE: &str = "nodes 5 (> start, * marker, ~ bare)
     node  line                        rank    next  fact
>*      0  00000 READ A LIT A 0000A    33      1     any
        1  00001 SUBS A LIT A 00001    3A + 2  2     A 1..10
  ~     2  00002 EQ A LIT A 00000      3A + 4  3     A 0..9
  ~     3  00003 READ A LIT PNB 00001  3A + 3  1, 4  A 0..9 / B says A = 0
  ~     4  00004 READ A LIT P 00000    1       0     A 0 / B 1

marker 00000 within 33
      33  node 0: 00000 READ A LIT A 0000A
      32  node 1: 00001 SUBS A LIT A 00001
      31  node 2: 00002 EQ A LIT A 00000
      30  node 3: 00003 READ A LIT PNB 00001, again to node 1, at last to node 4
       1  node 4: 00004 READ A LIT P 00000, to marker 00000
";

/// A shelf with the three contents.
fn shelf_of(alloc: Global, image: &str, plan: &str, cert: &[u8]) -> Result<Shelf, Fail> {
    let mut shelf = Shelf::new(alloc);
    shelf.hold("image", image.as_bytes())?;
    shelf.hold("plan", plan.as_bytes())?;
    shelf.hold("cert", cert)?;
    Ok(shelf)
}

/// Over this shelf the words are answered so.
fn answers(
    alloc: Global,
    shelf: &mut Shelf,
    words: &[&str],
    status: Status,
    text: &'static str,
) -> Result<(), Fail> {
    let mut page = Page::new(alloc);
    let ends = view(alloc, words, shelf, &mut page);
    if ends == status && page.bytes() == text.as_bytes() {
        Ok(())
    } else {
        Err(Fail::from(text))
    }
}

/// The certificate of the countdown with one byte changed is judged so.
fn judged(alloc: Global, at: usize, byte: u8, text: &'static str) -> Result<(), Fail> {
    let mut cert = Vec::from_slice(alloc, &COUNTDOWN_CERT)?;
    match cert.get_mut(at) {
        Some(place) => *place = byte,
        None => return Err(Fail::from("no such byte")),
    }
    let mut shelf = shelf_of(alloc, COUNTDOWN, COUNTDOWN_PLAN, &cert)?;
    let words = ["explain", "image", "plan", "cert"];
    answers(alloc, &mut shelf, &words, Status::Refused, text)
}

#[test]
fn a_certificate_is_a_table(rt: HostRuntime) -> Result<(), Fail> {
    let alloc = rt.alloc();
    let mut shelf = shelf_of(alloc, COUNTDOWN, COUNTDOWN_PLAN, &COUNTDOWN_CERT)?;
    let table = ["table", "image", "plan", "cert"];
    answers(alloc, &mut shelf, &table, Status::Done, TABLE)?;
    let explain = ["explain", "image", "plan", "cert"];
    answers(
        alloc,
        &mut shelf,
        &explain,
        Status::Done,
        "yes\nmarker 00000 within 33\n",
    )?;
    let search = ["explain", "image", "plan"];
    let found = "certify succeeds\nnodes 5\nmarker 00000 within 33\n";
    answers(alloc, &mut shelf, &search, Status::Done, found)
}

#[test]
fn a_certificate_is_refused_with_its_numbers(rt: HostRuntime) -> Result<(), Fail> {
    judged(
        rt.alloc(),
        MOST_A,
        9,
        "no node 0 address 00000 condition C8
00000 READ A LIT A 0000A
known: any
C8: the successor at 00001 is node 1
  it has A 1..9, the step gives A 10
",
    )?;
    judged(
        rt.alloc(),
        RANK_1,
        1,
        "no node 1 address 00001 condition C10
00001 SUBS A LIT A 00001
known: A 1..10
C10: the rank is 3A + 1 here and 3A + 4 at 00002, node 2; over the step it may change by 0, \
and must fall by 1
  A becomes A - 1
",
    )
}

/// A program that `certify` refuses, its plan, and why.
#[derive(Clone, Copy)]
struct Refused {
    image: &'static str,
    plan: &'static str,
    text: &'static str,
}

/// One for each of C1 to C7, two with an index, and one that no variable ranks.
const REFUSED: [Refused; 11] = [
    Refused {
        image: "FFFFE 00300000\nFFFFF 06300000\n",
        plan: "code FFFFE FFFFF\nmarker FFFFE\nstart FFFFE any any any any\n",
        text: "undischarged FFFFF - C1
reached from FFFFE READ A LIT A 00000
FFFFF READ A LIT P 00000
known: A 0
C1: FFFFF is the last address, and none comes after it
",
    },
    Refused {
        image: "00000 00D00000\n00001 06300000\n",
        plan: "code 00000 00001\nmarker 00000\nstart 00000 any any any any\n",
        text: "undischarged 00000 - C2
00000 F13 A LIT A 00000
known: any
C2: F13 is no function
",
    },
    Refused {
        image: "00100 20300010\n00101 06300100\n",
        plan: "code 00100 00101\ndata 00000 00010 any\nmarker 00100\n\
start 00100 any -17..0 any any\n",
        text: "undischarged 00100 - C3
00100 READ A IDX A 00010
known: X -17..0
C3: X is -17..0; 00010 plus X may be -1, below 00000
",
    },
    Refused {
        image: "00000 28300000\n00001 06300000\n",
        plan: "code 00000 00001\nmarker 00000\nstart 00000 any -1 any any\n",
        text: "undischarged 00000 - C3
00000 READ A IDX PIF 00000
known: X -1
taken where B is 1: X -1 / B 1
C3: X is -1; 00000 plus X may be -1, below 00000
",
    },
    Refused {
        image: "00000 00500001\n00001 00300000\n00002 06300000\n",
        plan: "code 00000 00002\nmarker 00000\nstart 00000 0..2147483647 any any any\n",
        text: "undischarged 00000 - C4
00000 ADDS A LIT A 00001
known: A 0..2147483647
C4: A is 0..2147483647 and 1 is added; the sum may be 2147483648
",
    },
    Refused {
        image: "00000 10700100\n00001 06300000\n",
        plan: "code 00000 00001\ndata 00100 00100 -5..5\nmarker 00000\n\
start 00000 any any any any\n",
        text: "undischarged 00000 - C4
00000 SUBS A MEM A 00100
known: 00100 -5..5
C4: A is any and the word at 00100 is taken away, which is -5..5; \
the difference may be -2147483653
",
    },
    Refused {
        image: "00000 06100004\n00001 06100004\n00002 06100004\n00003 06300000\n\
00004 14200010\n00005 86500000\n",
        plan: "code 00000 00005\ninput 00010 00010 0..255\nmarker 00000\n\
start 00000 any any any any\n",
        text: "undischarged 00005 00001 C5
reached from 00004 INP A MEM Y 00010
00005 ADDS Y LIT P 00000
known: Y 0..255
C5: the target is Y plus 0, that is 0..255; it may be 00006, which is not in code
",
    },
    Refused {
        image: "00000 1E000000\n00001 06300000\n",
        plan: "code 00000 00001\nmarker 00000\nstart 00000 any any any any\n",
        text: "undischarged 00000 - C6
00000 NEG A MEM STO 00000
known: any
C6: 00000 is no word of data
",
    },
    Refused {
        image: "00000 2E000100\n00001 06300000\n",
        plan: "code 00000 00001\ndata 00100 00103 any\ndata 00104 00104 0..8/4\nmarker 00000\n\
start 00000 0..8/2 0..4 any any\n",
        text: "undischarged 00000 - C6
00000 NEG A IDX STO 00100
known: A 0..8/2 / X 0..4
C6: X is 0..4; 00100 plus X may be 00104, which takes 0..8/4, and A is 0..8/2; \
A may be between the steps
",
    },
    Refused {
        image: "00000 1C000011\n00001 06300000\n",
        plan: "code 00000 00001\noutput 00011 00011 0..255\nmarker 00000\n\
start 00000 0..256 any any any\n",
        text: "undischarged 00000 - C7
00000 NEG A MEM OUT 00011
known: A 0..256
C7: 00011 takes 0..255, and A is 0..256; A may be 256
",
    },
    Refused {
        image: "00000 00300000\n00001 10200000\n00002 01200000\n00003 08300001\n\
00004 06300000\n",
        plan: "code 00000 00004\ninput 00000 00000 0..1\nmarker 00000\n\
start 00000 any any any any\n",
        text: "unranked 3
edge 00001 - to 00002 -
  00001 INP A MEM A 00000, known: A 0
edge 00002 - to 00003 -
  00002 EQ A LIT A 00000, known: A 0..1
edge 00003 - to 00001 -
  00003 READ A LIT PIF 00001, known: A 0..1 / B says A = 0
A down: A may grow by 1 on 00001 - to 00002 -
A up: surely moves on no edge
stay as they are: X, Y
",
    },
];

#[test]
fn a_refusal_is_told_with_its_numbers(rt: HostRuntime) -> Result<(), Fail> {
    for row in &REFUSED {
        let mut shelf = shelf_of(rt.alloc(), row.image, row.plan, b"none")?;
        let words = ["explain", "image", "plan"];
        answers(rt.alloc(), &mut shelf, &words, Status::Refused, row.text)?;
    }
    Ok(())
}

#[test]
fn other_contents_and_words_are_told(rt: HostRuntime) -> Result<(), Fail> {
    let alloc = rt.alloc();
    let mut shelf = shelf_of(alloc, COUNTDOWN, COUNTDOWN_PLAN, b"none")?;
    let graph = ["graph", "image", "plan", "cert"];
    answers(
        alloc,
        &mut shelf,
        &graph,
        Status::Input,
        "cert offset 0 Magic\n",
    )?;
    let swapped = ["table", "image", "image", "cert"];
    answers(
        alloc,
        &mut shelf,
        &swapped,
        Status::Input,
        "plan line 1 Form\n",
    )?;
    answers(
        alloc,
        &mut shelf,
        &["table", "plan", "image", "cert"],
        Status::Input,
        "image line 1 Form\n",
    )?;
    answers(
        alloc,
        &mut shelf,
        &["table", "nothing", "plan", "cert"],
        Status::Outside,
        "",
    )?;
    let usage = crate::order::USAGE;
    answers(
        alloc,
        &mut shelf,
        &["explain", "image"],
        Status::Usage,
        usage,
    )
}
