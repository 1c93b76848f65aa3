//! Contexts, cells and thresholds on small cases.

use crate::{Context, Key, cells_of, next_context, thresholds_of};
use memory_plan::{Image, Plan, read_plan};
use std::alloc::Global;
use std::test::Fail;
use viper_decode::decode;
use viper_word::{Addr, Word};

/// A key, a word there and its target, and the context at the target.
struct Step {
    at: u32,
    calls: &'static [u32],
    word: u32,
    target: u32,
    after: &'static [u32],
}

macro_rules! steps {
    ($($at:literal $calls:tt $word:literal $target:literal => $after:tt;)*) => {
        [$(Step { at: $at, calls: &$calls, word: $word, target: $target, after: &$after }),*]
    };
}

// address, calls, word, target, calls afterwards
const STEPS: [Step; 10] = steps! {
    // CALL elsewhere, and to the address after it
    0x10 [] 0x0610_0040 0x40 => [0x11];
    0x10 [] 0x0610_0011 0x11 => [];
    // the ninth call drops the oldest
    0x10 [1, 2, 3, 4, 5, 6, 7, 8] 0x0610_0040 0x40 => [2, 3, 4, 5, 6, 7, 8, 0x11];
    // a computed jump to a caller, to the last of two, to none, and by a literal
    0x40 [1, 2, 3] 0x8650_0000 0x2 => [1];
    0x40 [2, 1, 2, 3] 0x8650_0000 0x2 => [2, 1];
    0x40 [1, 2, 3] 0x8650_0000 0x7 => [1, 2, 3];
    0x40 [1, 2, 3] 0x0630_0002 0x2 => [1, 2, 3];
    0x40 [1, 2, 3] 0x1630_0100 0x2 => [1];
    0x40 [1, 2, 3] 0x0670_0002 0x2 => [1];
    // a word that is no jump
    0x40 [1, 2, 3] 0x0030_0002 0x2 => [1, 2, 3];
};

/// The key at an address after these calls.
fn key_of(at: u32, calls: &[u32]) -> Result<Key, Fail> {
    let mut context = Context::empty();
    for call in calls {
        context = context.called(Addr::new(*call).ok_or("a call")?);
    }
    Ok(Key {
        addr: Addr::new(at).ok_or("an address")?,
        context,
    })
}

#[test]
fn contexts_follow_calls_and_returns(rt: HostRuntime) -> Result<(), Fail> {
    for step in &STEPS {
        let target = Addr::new(step.target).ok_or("a target")?;
        let key = key_of(step.at, step.calls)?;
        let next = next_context(&key, decode(Word(step.word)), target);
        assert!(rt;
            next == key_of(step.target, step.after)?,
            "{:08X}",
            step.word
        );
    }
    Ok(())
}

/// How many bytes the text of a plan has here at the most.
const LONGEST: usize = 1_000;

/// The plan of these words from 00000 on.
fn plan_of(alloc: Global, words: &[u32], plan: &str) -> Result<Plan, Fail> {
    let mut image = Image::new(alloc);
    let mut at: u32 = 0;
    for word in words {
        image.put(Addr::new(at).ok_or("an address")?, Word(*word))?;
        at = at.saturating_add(1);
    }
    let text = plan.as_bytes();
    if text.len() > LONGEST {
        return Err("a plan that is too long".into());
    }
    Ok(read_plan(alloc, text, &image)?)
}

/// Words whose field names memory (a store, a read, a comparison, an illegal word) and words whose
/// field doesn't (INP, SHIFT, an output, an index, a literal, no data).
const NAMED: [u32; 11] = [
    0x1E00_0107,
    0x1030_0101,
    0x1100_0103,
    0x10D0_0105,
    0x1020_0102,
    0x10C0_0104,
    0x1C00_0106,
    0x2030_0108,
    0x0030_0109,
    0x1030_0300,
    0x0630_0000,
];

#[test]
fn cells_are_named_by_the_field(rt: HostRuntime) -> Result<(), Fail> {
    let lines =
        "code 00000 0000A\ndata 00100 0010F any\nmarker 00000\nstart 00000 any any any any\n";
    let plan = plan_of(rt.alloc(), &NAMED, lines)?;
    let cells = cells_of(rt.alloc(), &plan)?;
    let wanted = [0x101, 0x103, 0x105, 0x107];
    assert!(rt; cells.iter().map(|c| c.get()).eq(wanted.iter().copied()));
    Ok(())
}

#[test]
fn the_lowest_cells_are_tracked(rt: HostRuntime) -> Result<(), Fail> {
    let alloc = rt.alloc();
    let mut words = Vec::new(alloc);
    for i in 0..40 {
        words.push(0x1030_0127 - i)?;
    }
    let lines =
        "code 00000 00027\ndata 00100 00130 any\nmarker 00000\nstart 00000 any any any any\n";
    let plan = plan_of(alloc, &words, lines)?;
    let cells = cells_of(alloc, &plan)?;
    assert!(rt; cells.iter().map(|c| c.get()).eq(0x100..0x120));
    Ok(())
}

// a number, and the thresholds at most and at least it
const NEAREST: [(i64, i64, i64); 9] = [
    (-2, -9, -1),
    (2, 1, 4),
    (5, 4, 7),
    (8, 7, 9),
    (12, 11, 15),
    (20, 17, 30),
    (40, 30, 50),
    (60, 50, 77),
    (-10, -2_147_483_648, -9),
];

#[test]
fn thresholds_are_the_plans_numbers(rt: HostRuntime) -> Result<(), Fail> {
    let lines = "code 00000 00001\n\
        data 00100 00100 -9..7\n\
        input 00000 00000 4..9\n\
        output 00001 00001 11..30\n\
        marker 00000\n\
        start 00000 50 any any any\n\
        threshold 77\n";
    let plan = plan_of(rt.alloc(), &[0x0030_0010, 0x0630_0000], lines)?;
    let thresholds = thresholds_of(rt.alloc(), &plan)?;
    for (n, below, above) in &NEAREST {
        assert_eq!(rt;
            (thresholds.below(*n), thresholds.above(*n)),
            (*below, *above)
        );
    }
    Ok(())
}
