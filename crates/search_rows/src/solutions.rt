//! The least solutions of worked programs, and why others have none.

use crate::facts::put_fact;
use abs_step::Cond;
use fix_solver::{SolveFault, Solved, solve};
use flow_recover::Key;
use line_text::LineText;
use memory_plan::{read_image, read_plan};
use std::alloc::Global;
use std::test::Fail;
use val_dom::Val;
use viper_word::{Addr, Memory};

/// Appends a space, an address and the addresses that calls return to, oldest first, or `-`.
fn put_key(text: &mut LineText, key: &Key) -> Result<(), Memory> {
    text.plain(" ")?;
    text.address(key.addr)?;
    let mut gap = " ";
    for back in key.context.addrs() {
        text.plain(gap)?;
        text.address(*back)?;
        gap = ",";
    }
    if key.context.addrs().is_empty() {
        text.plain(" -")?;
    }
    Ok(())
}

/// Appends the numbers of the keys that follow, separated by commas.
fn put_numbers(text: &mut LineText, numbers: &[u32]) -> Result<(), Memory> {
    let mut gap = " ";
    for number in numbers {
        text.plain(gap)?;
        text.number((*number).into())?;
        gap = ",";
    }
    Ok(())
}

/// Appends the addresses of the cells.
fn put_cells(text: &mut LineText, cells: &[Addr]) -> Result<(), Memory> {
    text.plain("cells")?;
    for cell in cells {
        text.plain(" ")?;
        text.address(*cell)?;
    }
    text.plain("\n")
}

/// Appends each key with its fact and those that follow.
fn put_keys(text: &mut LineText, solved: &Solved<Val>) -> Result<(), Memory> {
    for i in 0..solved.len() {
        text.plain("key")?;
        put_key(text, solved.key(i))?;
        text.plain(" ")?;
        put_fact(text, solved.fact(i))?;
        put_numbers(text, solved.succ(i))?;
        text.plain("\n")?;
    }
    Ok(())
}

/// The name of a condition.
fn cond_text(cond: Cond) -> &'static str {
    match cond {
        Cond::H1 => "H1",
        Cond::H2 => "H2",
        Cond::C1 => "C1",
        Cond::C2 => "C2",
        Cond::C3 => "C3",
        Cond::C4 => "C4",
        Cond::C5 => "C5",
        Cond::C6 => "C6",
        Cond::C7 => "C7",
        Cond::C8 => "C8",
        Cond::C9 => "C9",
        Cond::C10 => "C10",
        Cond::C11 => "C11",
    }
}

/// How much of a solution a text shows.
#[derive(Clone, Copy)]
enum Detail {
    /// The number of keys.
    Count,
    /// The cells, how often outcomes were taken, and each key.
    Whole,
}

/// Appends a solution.
fn put_solved(text: &mut LineText, solved: &Solved<Val>, detail: Detail) -> Result<(), Memory> {
    match detail {
        Detail::Count => {
            text.plain("keys ")?;
            text.number(solved.len() as u64)
        }
        Detail::Whole => {
            put_cells(text, solved.cells())?;
            text.plain("applied ")?;
            text.number(solved.applied())?;
            text.plain("\n")?;
            put_keys(text, solved)
        }
    }
}

/// How many bytes an image or a plan of these tests has at the most.
const LONGEST: usize = 10_000;

/// The solution of a plan over its image, or why there is none.
fn solution(alloc: Global, image: &str, plan: &str, detail: Detail) -> Result<LineText, Fail> {
    if image.len() > LONGEST || plan.len() > LONGEST {
        return Err("a text is too long")?;
    }
    let image = read_image(alloc, image.as_bytes())?;
    let plan = read_plan(alloc, plan.as_bytes(), &image)?;
    let mut text = LineText::new(alloc);
    match solve::<Val>(alloc, &plan) {
        Ok(solved) => put_solved(&mut text, &solved, detail)?,
        Err(SolveFault::Undischarged(key, cond)) => {
            text.plain("undischarged")?;
            put_key(&mut text, &key)?;
            text.plain(" ")?;
            text.plain(cond_text(cond))?;
        }
        Err(SolveFault::Nodes(keys)) => {
            text.plain("nodes ")?;
            text.number(keys.len() as u64)?;
        }
        Err(SolveFault::Memory) => return Err("memory")?,
    }
    Ok(text)
}

/// A countdown from ten.
const COUNTDOWN: &str =
    "00000 0030000A\n00001 00700001\n00002 01200000\n00003 0A300001\n00004 06300000\n";

const COUNTDOWN_PLAN: &str = "code 00000 00004\nmarker 00000\nstart 00000 any any any any\n";

const COUNTDOWN_SOLVED: &str = "cells
applied 14
key 00000 - any;any;any;-;-,-,-;any 1
key 00001 - 1..10/1;any;any;-;-,-,-;any 2
key 00002 - 0..9/1;any;any;-;-,-,-;any 3
key 00003 - 0..9/1;any;any;-;-,-,-;or:EQ.A.00000000 1,4
key 00004 - 0..0/0;any;any;-;-,-,-;one 0
";

/// A procedure that is called three times.
const CALLS: &str =
    "00000 06100004\n00001 06100004\n00002 06100004\n00003 06300000\n00004 86500000\n";

const CALLS_SOLVED: &str = "cells
applied 7
key 00000 - any;any;any;-;-,-,-;any 4
key 00001 - any;any;1..1/0;-;-,-,-;any 5
key 00002 - any;any;2..2/0;-;-,-,-;any 6
key 00003 - any;any;3..3/0;-;-,-,-;any 0
key 00004 00001 any;any;1..1/0;-;-,-,-;any 1
key 00004 00002 any;any;2..2/0;-;-,-,-;any 2
key 00004 00003 any;any;3..3/0;-;-,-,-;any 3
";

/// A loop that counts down in memory.
const COUNTER: &str = "00000 0030000A\n00001 1E000100\n00002 10300100\n00003 00700001\n\
00004 1E000100\n00005 01200000\n00006 0A300002\n00007 06300000\n";

const COUNTER_PLAN: &str = "code 00000 00007\ndata 00100 00100 0..10\nmarker 00000\n\
start 00000 any any any any\n";

#[test]
fn a_solution_is_the_least(rt: HostRuntime) -> Result<(), Fail> {
    let alloc = rt.alloc();
    let text = solution(alloc, COUNTDOWN, COUNTDOWN_PLAN, Detail::Whole)?;
    assert_eq!(rt; text.bytes(), COUNTDOWN_SOLVED.as_bytes());
    let text = solution(alloc, CALLS, COUNTDOWN_PLAN, Detail::Whole)?;
    assert_eq!(rt; text.bytes(), CALLS_SOLVED.as_bytes());
    Ok(())
}

/// A program, its plan, and what is said of them.
struct Row {
    image: &'static str,
    plan: &'static str,
    answer: &'static str,
}

/// Why there is no solution: a condition that fails at a key in each candidate.
const REFUSED: [Row; 9] = [
    // A grows over the greatest number.
    Row {
        image: "00000 00500001\n00001 00300000\n00002 06300000\n",
        plan: "code 00000 00002\nmarker 00000\nstart 00000 0..2147483647 any any any\n",
        answer: "undischarged 00000 - C4",
    },
    // An index leads to an address that is illegal.
    Row {
        image: "00100 20300010\n00101 06300100\n",
        plan: "code 00100 00101\ndata 00000 00010 any\nmarker 00100\n\
start 00100 any -17..0 any any\n",
        answer: "undischarged 00100 - C3",
    },
    // The last word of all falls through.
    Row {
        image: "FFFFE 00300000\nFFFFF 06300000\n",
        plan: "code FFFFE FFFFF\nmarker FFFFE\nstart FFFFE any any any any\n",
        answer: "undischarged FFFFF - C1",
    },
    // The word is illegal.
    Row {
        image: "00000 00D00000\n00001 06300000\n",
        plan: "code 00000 00001\nmarker 00000\nstart 00000 any any any any\n",
        answer: "undischarged 00000 - C2",
    },
    // It is so before its condition is looked at.
    Row {
        image: "00000 08800000\n00001 06300000\n",
        plan: "code 00000 00001\nmarker 00000\nstart 00000 any any any 0\n",
        answer: "undischarged 00000 - C2",
    },
    // A jump that isn't skipped reads outside.
    Row {
        image: "00000 28300000\n00001 06300000\n",
        plan: "code 00000 00001\nmarker 00000\nstart 00000 any -1 any any\n",
        answer: "undischarged 00000 - C3",
    },
    // A procedure returns to what it reads.
    Row {
        image: "00000 06100004\n00001 06100004\n00002 06100004\n00003 06300000\n\
00004 14200010\n00005 86500000\n",
        plan: "code 00000 00005\ninput 00010 00010 0..255\nmarker 00000\n\
start 00000 any any any any\n",
        answer: "undischarged 00005 00001 C5",
    },
    // A store into code.
    Row {
        image: "00000 1E000000\n00001 06300000\n",
        plan: "code 00000 00001\nmarker 00000\nstart 00000 any any any any\n",
        answer: "undischarged 00000 - C6",
    },
    // A store of a word that may be outside the range of its data.
    Row {
        image: "00000 1E000100\n00001 06300000\n",
        plan: "code 00000 00001\ndata 00100 00100 0..10\nmarker 00000\n\
start 00000 any any any any\n",
        answer: "undischarged 00000 - C6",
    },
];

/// How many keys a solution has.
const SOLVED: [Row; 6] = [
    // A grows up to the greatest number.
    Row {
        image: "00000 00500001\n00001 00300000\n00002 06300000\n",
        plan: "code 00000 00002\nmarker 00000\nstart 00000 0..2147483646 any any any\n",
        answer: "keys 3",
    },
    // An index leads to each word of data.
    Row {
        image: "00100 20300010\n00101 06300100\n",
        plan: "code 00100 00101\ndata 00000 00010 any\nmarker 00100\n\
start 00100 any -16..0 any any\n",
        answer: "keys 2",
    },
    // A comparison.
    Row {
        image: "00000 01D00000\n00001 06300000\n",
        plan: "code 00000 00001\nmarker 00000\nstart 00000 any any any any\n",
        answer: "keys 2",
    },
    // A jump that is skipped reads nothing.
    Row {
        image: "00000 28300000\n00001 06300000\n",
        plan: "code 00000 00001\nmarker 00000\nstart 00000 any -1 any 0\n",
        answer: "keys 2",
    },
    // A counter in memory.
    Row {
        image: COUNTER,
        plan: COUNTER_PLAN,
        answer: "keys 8",
    },
    // Polling with a marker in its loop.
    Row {
        image: "00000 00300000\n00001 10200000\n00002 01200000\n00003 08300001\n00004 06300000\n",
        plan: "code 00000 00004\ninput 00000 00000 0..1\nmarker 00000\nmarker 00001\n\
start 00000 any any any any\n",
        answer: "keys 5",
    },
];

/// Compares the answers of rows.
fn answers(alloc: Global, rows: &[Row]) -> Result<(), Fail> {
    for row in rows {
        let text = solution(alloc, row.image, row.plan, Detail::Count)?;
        if text.bytes() != row.answer.as_bytes() {
            return Err(Fail::from(row.answer));
        }
    }
    Ok(())
}

#[test]
fn a_refusal_names_a_condition_that_fails(rt: HostRuntime) -> Result<(), Fail> {
    answers(rt.alloc(), &REFUSED)
}

#[test]
fn programs_have_so_many_keys(rt: HostRuntime) -> Result<(), Fail> {
    answers(rt.alloc(), &SOLVED)
}

/// A chain of tests limits an index.
const CHAIN: &str = "00000 12200020\n00001 41000000\n00002 41D0000A\n00003 08300005\n\
00004 20300100\n00005 06300000\n";

const CHAIN_PLAN: &str = "code 00000 00005\ndata 00100 0010A any\ninput 00020 00020 any\n\
marker 00000\nstart 00000 any any any any\n";

const CHAIN_SOLVED: &str = "cells
applied 6
key 00000 - any;any;any;-;-,-,-;any 1
key 00001 - any;any;any;-;-,-,-;any 2
key 00002 - any;any;any;-;-,-,-;or:LT.X.00000000 3
key 00003 - any;any;any;-;-,-,-;or:LT.X.00000000:GT.X.0000000A 4,5
key 00004 - any;0..10/1;any;-;-,-,-;or 5
key 00005 - any;any;any;-;-,-,-;any 0
";

#[test]
fn a_chain_of_tests_limits_an_index(rt: HostRuntime) -> Result<(), Fail> {
    let alloc = rt.alloc();
    let text = solution(alloc, CHAIN, CHAIN_PLAN, Detail::Whole)?;
    assert_eq!(rt; text.bytes(), CHAIN_SOLVED.as_bytes());
    Ok(())
}

/// Eight procedures, each of which calls the next one four times; the last calls a leaf.
const CALL_TREE: &str =
    "00000 06100002\n00001 06300000\n00002 9E000101\n00003 06100009\n00004 06100009\n\
00005 06100009\n00006 06100009\n00007 14300101\n00008 86500000\n00009 9E000102\n\
0000A 06100010\n0000B 06100010\n0000C 06100010\n0000D 06100010\n0000E 14300102\n\
0000F 86500000\n00010 9E000103\n00011 06100017\n00012 06100017\n00013 06100017\n\
00014 06100017\n00015 14300103\n00016 86500000\n00017 9E000104\n00018 0610001E\n\
00019 0610001E\n0001A 0610001E\n0001B 0610001E\n0001C 14300104\n0001D 86500000\n\
0001E 9E000105\n0001F 06100025\n00020 06100025\n00021 06100025\n00022 06100025\n\
00023 14300105\n00024 86500000\n00025 9E000106\n00026 0610002C\n00027 0610002C\n\
00028 0610002C\n00029 0610002C\n0002A 14300106\n0002B 86500000\n0002C 9E000107\n\
0002D 06100033\n0002E 06100033\n0002F 06100033\n00030 06100033\n00031 14300107\n\
00032 86500000\n00033 9E000108\n00034 0610003A\n00035 0610003A\n00036 0610003A\n\
00037 0610003A\n00038 14300108\n00039 86500000\n0003A 86500000\n";

const CALL_TREE_PLAN: &str = "code 00000 0003A\ndata 00101 00108 0..255\nmarker 00000\n\
start 00000 any any any any\n";

#[test]
fn too_many_contexts_are_refused(rt: HostRuntime) -> Result<(), Fail> {
    let text = solution(rt.alloc(), CALL_TREE, CALL_TREE_PLAN, Detail::Count)?;
    assert_eq!(rt; text.bytes(), "nodes 65537".as_bytes());
    Ok(())
}
