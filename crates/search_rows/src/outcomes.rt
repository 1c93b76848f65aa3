//! The outcomes of single instructions.

ghost use Rattle.std.specs.Prelude.{◌≡◌, ◌≤◌, length};
ghost use Rattle.flag_relation.specs.declared.fact.TheConstants.{MOST_CELLS};

use crate::facts::put_fact;
use abs_step::{Cond, Outcome, Post, Scratch, outcomes};
use flag_relation::{Atom, Atoms, Fact, Flag, Reg, Right, Var};
use line_text::LineText;
use memory_plan::{Plan, read_image, read_plan};
use num_domain::NumDomain;
use std::alloc::Global;
use std::test::Fail;
use val_dom::Val;
use viper_word::{Addr, Kind, Memory, Word};

/// Appends what becomes of a variable.
fn put_post(text: &mut LineText, post: Post) -> Result<(), Memory> {
    match post {
        Post::Same => text.plain(" same"),
        Post::Within => text.plain(" within"),
        Post::Plus(Var::Reg(Reg::A), _) => text.plain(" A plus"),
        Post::Plus(Var::Reg(Reg::X), _) => text.plain(" X plus"),
        Post::Plus(Var::Reg(Reg::Y), _) => text.plain(" Y plus"),
        Post::Plus(Var::Cell(_), _) => text.plain(" a cell plus"),
    }
}

/// Appends an outcome: its target, the facts before and after, and what becomes of each variable.
fn put_outcome(text: &mut LineText, out: &Outcome<Val>) -> Result<(), Memory> {
    text.address(out.target)?;
    text.plain(" ")?;
    put_fact(text, &out.pre)?;
    text.plain(" ")?;
    put_fact(text, &out.after)?;
    put_post(text, out.posts.a)?;
    put_post(text, out.posts.x)?;
    put_post(text, out.posts.y)?;
    for post in &out.posts.cells {
        put_post(text, *post)?;
    }
    text.plain("\n")
}

/// The outcomes of an instruction from a fact, or the condition that fails.
fn outcomes_text(
    alloc: Global,
    plan: &Plan,
    cells: &[Addr],
    at: Addr,
    fact: &Fact<Val>,
) -> Result<LineText, Fail>
    requires few { length cells.now ≤ MOST_CELLS }
    requires cells { length cells.now ≡ length fact.now.cells }
{
    let mut scratch = Scratch::new(alloc, cells.len() as u8)?;
    let mut text = LineText::new(alloc);
    match outcomes(plan, cells, at, fact, &mut scratch) {
        Ok(()) => {
            for out in scratch.outcomes_in() {
                put_outcome(&mut text, out)?;
            }
        }
        Err(cond) => text.plain(match cond {
            Cond::C6 => "C6",
            _ => "another condition",
        })?,
    }
    Ok(text)
}

/// A loop that counts A down, at its end.
const COUNTDOWN: &[u8] =
    b"00000 00000000\n00001 00000000\n00002 00000000\n00003 0A300001\n00004 00000000\n";

const COUNTDOWN_PLAN: &[u8] = b"code 00000 00004\nmarker 00000\nstart 00000 any any any any\n";

const COUNTDOWN_OUTCOMES: &str = "\
00004 0..0/0;any;any;-;-,-,-;one 0..0/0;any;any;-;-,-,-;one same same same
00001 1..9/1;any;any;-;-,-,-;or 1..9/1;any;any;-;-,-,-;or same same same
";

#[test]
fn a_jump_has_both_sides(rt: HostRuntime) -> Result<(), Fail> {
    let alloc = rt.alloc();
    let image = read_image(alloc, COUNTDOWN)?;
    let plan = read_plan(alloc, COUNTDOWN_PLAN, &image)?;
    let mut fact: Fact<Val> = Fact::new(alloc, 0)?;
    fact.set_reg(Reg::A, Val::span(0, 9, 1));
    let zero = Atom {
        kind: Kind::Eq,
        left: Reg::A,
        right: Right::Const(Word(0)),
    };
    fact.set_flag(Flag::Or(Atoms::new(&[zero]).ok_or("one comparison")?));
    let at = Addr::new(3).ok_or("an address")?;
    let text = outcomes_text(alloc, &plan, &[], at, &fact)?;
    assert_eq!(rt; text.bytes(), COUNTDOWN_OUTCOMES.as_bytes());
    Ok(())
}

/// A store of A at 00010 plus X.
const STORE: &[u8] = b"00000 2E000010\n";

const STORE_PLAN: &[u8] =
    b"code 00000 00000\ndata 00010 00012 0..9\nmarker 00000\nstart 00000 any any any any\n";

/// Its outcomes where A is from 2 to 5, the cells 0 and 1, and X is that.
fn store_text(alloc: Global, x: Val) -> Result<LineText, Fail> {
    let image = read_image(alloc, STORE)?;
    let plan = read_plan(alloc, STORE_PLAN, &image)?;
    let cells = [
        Addr::new(0x10).ok_or("an address")?,
        Addr::new(0x12).ok_or("an address")?,
    ];
    let mut fact: Fact<Val> = Fact::new(alloc, 2)?;
    fact.set_reg(Reg::A, Val::span(2, 5, 1));
    fact.set_reg(Reg::X, x);
    fact.set_cell(0, Val::constant(0));
    fact.set_cell(1, Val::constant(1));
    let at = Addr::new(0).ok_or("an address")?;
    outcomes_text(alloc, &plan, &cells, at, &fact)
}

const STORED: &str = "\
00001 2..5/1;0..1/1;any;0..0/0,1..1/0;-,-,-;any 2..5/1;0..1/1;any;0..5/1,1..1/0;-,-,-;any \
same same same within same
";

#[test]
fn a_store_by_an_index_joins_the_cells_that_it_may_reach(rt: HostRuntime) -> Result<(), Fail> {
    let text = store_text(rt.alloc(), Val::span(0, 1, 1))?;
    assert_eq!(rt; text.bytes(), STORED.as_bytes());
    Ok(())
}

#[test]
fn a_store_behind_its_data_fails(rt: HostRuntime) -> Result<(), Fail> {
    let text = store_text(rt.alloc(), Val::span(0, 3, 1))?;
    assert_eq!(rt; text.bytes(), "C6".as_bytes());
    Ok(())
}
