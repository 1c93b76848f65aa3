//! Calls on facts over two cells.
ghost use Rattle.std.specs.Prelude.{◌≡◌, IsTrue, length, IfOk, IfSome};
ghost use Rattle.flag_relation.specs.Limits.{IsRightOf, AreAtomsOf, IsFlagOf};

use flag_relation::{
    Atom, Atoms, Fact, Flag, Link, MOST_CELLS, MOST_OFFSET, Reg, Right, Spare, assume,
};
use num_domain::{NumDomain, Thresholds};
use std::alloc::Global;
use std::test::Fail;
use val_dom::Val;
use viper_word::{GREATEST_SIGNED, Kind, LEAST_SIGNED, Word};

/// The least and the greatest member of a value, and the distance of neighbours.
type Parts = (i64, i64, i64);

/// What a row says of B.
#[derive(Clone, Copy)]
enum Says {
    Any,
    One,
    Or(&'static [Atom]),
}

/// A fact as a row writes it. A link is a cell and an offset.
#[derive(Clone, Copy)]
struct Known {
    regs: [Parts; 3],
    cells: [Parts; 2],
    links: [Option<(u8, i64)>; 3],
    flag: Says,
}

/// A call on a fact, with the other fact, the thresholds, or what B is.
#[derive(Clone, Copy)]
enum Call {
    Includes(Known),
    Joins(Known),
    Rounds(&'static [i64]),
    Assumes(bool),
}

/// A fact, a call on it, the answer (true where a call has none), and the fact afterwards, where
/// the call says anything of it.
struct Row {
    before: Known,
    call: Call,
    answer: bool,
    after: Option<Known>,
}

const ANY: Parts = (LEAST_SIGNED, GREATEST_SIGNED, 1);

macro_rules! link {
    (NO) => { None };
    ($link:expr) => { Some($link) };
}

macro_rules! right {
    (Cell $cell:literal) => { Right::Cell($cell) };
    ($word:literal) => { Right::Const(Word($word)) };
}

macro_rules! says {
    (any) => { Says::Any };
    (one) => { Says::One };
    (or $(($left:ident $kind:ident $($right:tt)*))*) => {
        Says::Or(&[$(Atom { kind: Kind::$kind, left: Reg::$left, right: right!($($right)*) }),*])
    };
}

macro_rules! known {
    ($a:tt $x:tt $y:tt, $first:tt $second:tt, $link_a:tt $link_x:tt $link_y:tt, $($flag:tt)*) => {
        Known {
            regs: [$a, $x, $y],
            cells: [$first, $second],
            links: [link!($link_a), link!($link_x), link!($link_y)],
            flag: says!($($flag)*),
        }
    };
}

macro_rules! call {
    (includes $($other:tt)*) => { Call::Includes(known!($($other)*)) };
    (joins $($other:tt)*) => { Call::Joins(known!($($other)*)) };
    (rounds $($numbers:tt)*) => { Call::Rounds(&[$($numbers)*]) };
    (assumes $truth:literal) => { Call::Assumes($truth) };
}

macro_rules! after {
    () => { None };
    ($($after:tt)*) => { Some(known!($($after)*)) };
}

macro_rules! rows {
    ($({$($before:tt)*} $call:ident {$($with:tt)*} => $answer:literal {$($after:tt)*},)*) => {
        [$(Row {
            before: known!($($before)*),
            call: call!($call $($with)*),
            answer: $answer,
            after: after!($($after)*),
        },)*]
    };
}

/// Columns of a fact: A, X and Y, the two cells, the links of A, X and Y, and what B says.
static ROWS: [Row; 25] = rows! {
    {(11, 15, 1) (-4, 0, 1) ANY, (-7, 5, 6) (1, 1, 0), NO (0, 3) NO, any}
        includes {(11, 15, 1) (-4, 0, 1) ANY, (-7, -7, 0) (1, 1, 0), NO (0, 3) NO,
            or (Y Le Cell 1)}
        => true {},
    {(14, 22, 4) (260, 260, 0) (255, 260, 1), (0, 18, 6) (10, 35, 5), (0, 14) (1, 250) NO, or}
        includes {(14, 22, 4) (260, 260, 0) (255, 260, 1), (0, 18, 6) (10, 35, 5), (0, 14) (1, 250) NO, or}
        => true {},
    {(12, 12, 0) ANY (-1, 14, 1), (-8, 13, 1) (10, 262, 1), NO (1, 0) NO, or}
        includes {(12, 12, 0) ANY (-1, 14, 1), (2, 13, 1) (10, 262, 1), NO NO NO, or}
        => false {},
    {ANY (-8, -8, 0) (-4, 1, 5), (4, 258, 1) (-8, 263, 271), NO NO NO, or}
        includes {ANY (-8, -8, 0) (-4, 1, 5), ANY (-8, 263, 271), NO NO NO, or}
        => false {},
    {(-7, -2, 1) (-7, -3, 1) ANY, (3, 15, 6) (-4, 0, 4), NO NO (1, 2),
        or (Y Ne Cell 1) (X Uge Cell 1)}
        includes {(-7, -2, 1) (-7, -3, 1) ANY, ANY (-4, 0, 4), NO NO (1, 2),
            or (Y Ne Cell 1) (X Uge Cell 1) (X Ge 0x0000_0009)}
        => false {},
    {(13, 13, 0) (257, 277, 4) ANY, (-8, -8, 0) (262, 262, 0), NO NO (0, 22), or}
        joins {(4, 8, 2) (2, 5, 3) (262, 263, 1), (-5, 1, 1) (-1, 8, 3), NO NO NO, one}
        => true {(4, 13, 1) (2, 277, 1) ANY, (-8, 1, 1) (-1, 262, 1), NO NO NO, any},
    {(6, 11, 5) (4, 4, 0) (-2, 2, 4), (0, 4, 1) (7, 9, 1), (1, 4) (0, 1) (1, -9), one}
        joins {(6, 11, 5) (4, 4, 0) (-2, 2, 4), (0, 4, 1) (7, 9, 1), (1, 4) (0, 1) (1, -9), one}
        => false {(6, 11, 5) (4, 4, 0) (-2, 2, 4), (0, 4, 1) (7, 9, 1), (1, 4) (0, 1) (1, -9), one},
    {ANY (-12, -2, 1) (2, 13, 11), ANY (8, 14, 1), (0, 2) NO NO, any}
        joins {(-3, 1_136_518_260, 1_136_518_263) (-7, 10, 1) (13, 13, 0), (-5, -3, 1) (12, 12, 0), NO NO NO, or}
        => true {ANY (-12, 10, 1) (2, 13, 11), ANY (8, 14, 1), NO NO NO, any},
    {(-4, -4, 0) (263, 263, 0) ANY, (-1, -1, 0) (-5, 2_147_483_645, 2_147_483_650), (1, 1) (1, 268) NO, one}
        joins {(-4, -4, 0) ANY (256, 256, 0), (-6, 4, 1) ANY, (1, 1) NO NO,
            or (X Eq 0xFFFF_FFFC) (Y Gt Cell 0) (A Lt Cell 0)}
        => true {(-4, -4, 0) ANY ANY, (-6, 4, 1) ANY, (1, 1) NO NO, any},
    {(4, 6, 1) ANY (-2_147_483_646, -2, 2_147_483_644), (-5, 0, 1) (10, 12, 2), (0, 9) (0, 0) NO,
        or (X Ult Cell 0) (X Gt 0xFFFF_FFF8) (Y Eq Cell 0) (A Uge 0xFFFF_FFFA)}
        joins {(4, 6, 1) ANY (-2_147_483_646, -2, 2_147_483_644), (-5, 0, 1) (10, 12, 2), (0, 9) (0, 0) NO, one}
        => true {(4, 6, 1) ANY (-2_147_483_646, -2, 2_147_483_644), (-5, 0, 1) (10, 12, 2), (0, 9) (0, 0) NO, any},
    {(262, 2_147_483_646, 1) ANY (-12, -2, 1), ANY (-4, 10, 1), NO NO NO,
        or (A Ge Cell 0) (Y Ult Cell 0) (X Ne 0x0000_000D) (Y Ult Cell 1)}
        joins {(2_147_483_646, 2_147_483_646, 0) ANY (-7, -7, 0), (252, 259, 1) (10, 10, 0), NO NO NO,
            or (A Le Cell 0)}
        => true {(262, 2_147_483_646, 1) ANY (-12, -2, 1), ANY (-4, 10, 1), NO NO NO, any},
    {(12, 12, 0) (-4, 3, 7) (11, 26, 3), ANY (-1, -1, 0), NO NO NO, any}
        joins {(12, 12, 0) (-4, 3, 7) (11, 23, 6), ANY (-1, -1, 0), NO NO NO, any}
        => false {(12, 12, 0) (-4, 3, 7) (11, 26, 3), ANY (-1, -1, 0), NO NO NO, any},
    {(262, 265, 1) (2, 6, 1) (-1, 6, 1), (12, 12, 0) (3, 6, 1), NO (1, 3) NO, one}
        rounds {258, -5, 1}
        => true {(258, 2_147_483_647, 1) (2, 258, 1) (-5, 258, 1), (12, 12, 0) (1, 255, 1), NO (1, 3) NO, one},
    {(6, 6, 0) (4, 4, 0) (7, 13, 1), (-6, -1, 5) ANY, NO (1, -2) NO, any}
        rounds {-8, 2, 1_366_606_609, 4, 257}
        => true {(6, 6, 0) (4, 4, 0) (4, 257, 1), (-6, -1, 5) ANY, NO (1, -2) NO, any},
    {(-7, 11, 18) (7, 7, 0) ANY, (5, 2_147_483_646, 1) ANY, NO (1, 15) NO, one}
        rounds {522_344_425, 263, 248_831_657, -4}
        => true {(-2_147_483_635, 263, 18) (7, 7, 0) ANY, (-4, 2_147_483_647, 1) ANY, NO (1, 15) NO, one},
    {(5, 6, 1) (-2_147_483_645, -2_147_483_645, 0) (6, 261, 1), (10, 15, 1) (5, 10, 1), (1, 0) NO NO,
        or (X Eq 0x4D40_3FF7)}
        assumes {false}
        => true {(5, 6, 1) (-2_147_483_645, -2_147_483_645, 0) (6, 261, 1), (10, 15, 1) (5, 6, 1), (1, 0) NO NO, or},
    {(256, 256, 0) (2_147_483_642, 2_147_483_647, 1) (-5, 13, 1), (-4, 6, 10) (-7, -4, 1), (0, 250) NO NO,
        or (A Ge Cell 1)}
        assumes {true}
        => true {(256, 256, 0) (2_147_483_642, 2_147_483_647, 1) (-5, 13, 1), (6, 6, 0) (-7, -4, 1), (0, 250) NO NO, one},
    {(-4, 2_147_483_644, 2_147_483_648) (9, 14, 1) (-8, -8, 0), (15, 15, 0) (-7, 263, 1), NO NO (1, -1),
        or (X Uge Cell 1) (X Eq Cell 1)}
        assumes {true}
        => true {(-4, 2_147_483_644, 2_147_483_648) (9, 14, 1) (-8, -8, 0), (15, 15, 0) (-7, -7, 0), NO NO (1, -1), one},
    {(9, 13, 1) ANY (-2_147_483_648, -2_147_483_646, 1), (-1, 13, 1) (8, 14, 1), (0, -2) (1, 2_147_483_638) NO,
        or (Y Ne 0x0000_0007) (X Le 0xFFFF_FFFC) (X Lt Cell 1)}
        assumes {true}
        => true {(9, 11, 1) (2_147_483_646, 2_147_483_647, 1) (-2_147_483_648, -2_147_483_646, 1), (11, 13, 1) (8, 9, 1), (0, -2) (1, 2_147_483_638) NO, one},
    {ANY (11, 11, 0) (-1, 2_147_483_647, 1), (-156_494_484, -156_494_482, 1) (5, 6, 1), NO NO NO,
        or (A Uge 0x7FFF_FFFD) (X Uge 0xFFFF_FFF8)}
        assumes {false}
        => true {(0, 2_147_483_644, 1) (11, 11, 0) (-1, 2_147_483_647, 1), (-156_494_484, -156_494_482, 1) (5, 6, 1), NO NO NO, or},
    {(2_147_483_647, 2_147_483_647, 0) (-887_205_095, -2, 887_205_093) (4, 4, 0), ANY (-5, 1_593_145_548, 1), NO NO NO,
        or (A Le Cell 1) (A Gt Cell 0) (X Le Cell 1)}
        assumes {false}
        => true {(2_147_483_647, 2_147_483_647, 0) (-2, -2, 0) (4, 4, 0), (2_147_483_647, 2_147_483_647, 0) (-5, -3, 1), NO NO NO, or},
    {(-2, -2, 0) (-2_147_483_648, -2_147_483_648, 0) (-1_654_198_814, 14, 1), (-3, 258, 261) (7, 7, 0), NO NO (0, 4_294_967_295),
        or (A Eq Cell 1)}
        assumes {true}
        => false {},
    {(2, 3, 1) (1, 4, 1) (15, 21, 1), (256, 256, 0) (-3, 5, 2), (1, 17) NO NO, or}
        assumes {true}
        => false {},
    {(10, 10, 0) (-1, 2, 3) (2_147_483_644, 2_147_483_647, 1), (7, 10, 1) (-2, 4, 1), (1, 12) (0, -9) NO, one}
        assumes {false}
        => false {},
    {(2, 9, 7) (9, 2_147_483_646, 2_147_483_637) (3, 10, 1), (0, 5, 1) (5, 5, 0), NO NO (0, 6), any}
        assumes {true}
        => true {(2, 9, 7) (9, 2_147_483_646, 2_147_483_637) (3, 10, 1), (0, 5, 1) (5, 5, 0), NO NO (0, 6), one},
};

/// The single value of a number that a word can hold.
fn one(n: i64) -> Option<Val> {
    Val::top().narrow(n, n)
}

/// The value that a row writes so.
fn value(parts: Parts) -> Option<Val> {
    let (low, high, step) = parts;
    Some(
        one(low)?
            .join(&one(low.checked_add(step)?)?)
            .join(&one(high)?),
    )
}

/// Is the right side a word, or one of so many cells?
fn is_right(right: Right, count: usize) -> bool
    ensures { IsTrue result → IsRightOf count right }
{
    match right {
        Right::Cell(i) => (i as usize) < count,
        Right::Const(_) => true,
    }
}

/// Is each right side a word, or one of so many cells?
fn are_right(atoms: &[Atom], count: usize) -> bool
    ensures { IsTrue result → AreAtomsOf count atoms.now }
{
    match atoms {
        [] => true,
        [first, rest @ ..] => is_right(first.right, count) && are_right(rest, count),
    }
}

/// What a row says of B, in a fact over so many cells.
fn flag_of(says: Says, count: usize) -> Option<Flag>
    ensures { IfSome result (IsFlagOf count) }
{
    match says {
        Says::Any => Some(Flag::Any),
        Says::One => Some(Flag::One),
        Says::Or(atoms) => {
            if !are_right(atoms, count) {
                return None;
            }
            Some(Flag::Or(Atoms::new(atoms)?))
        }
    }
}

/// Sets the link of a register, where a row has one.
fn set_link(fact: &mut Fact<Val>, r: Reg, link: Option<(u8, i64)>) -> Result<(), Fail>
    ensures { length fact.new.cells ≡ length fact.old.cells }
{
    if let Some((cell, offset)) = link {
        let is_there = (cell as usize) < fact.count();
        if !(is_there && -MOST_OFFSET <= offset && offset <= MOST_OFFSET) {
            return Err(Fail::new("a link"));
        }
        fact.set_link(r, Some(Link { cell, offset }));
    }
    Ok(())
}

/// The fact that a row writes so.
fn fact_of(alloc: Global, known: &Known) -> Result<Fact<Val>, Fail>
    ensures { IfOk result (λ f. length f.cells ≡ 2) }
{
    let [a, x, y] = known.regs;
    let [first, second] = known.cells;
    let mut fact = Fact::new(alloc, 2)?;
    fact.set_reg(Reg::A, value(a).ok_or("A")?);
    fact.set_reg(Reg::X, value(x).ok_or("X")?);
    fact.set_reg(Reg::Y, value(y).ok_or("Y")?);
    fact.set_cell(0, value(first).ok_or("the first cell")?);
    fact.set_cell(1, value(second).ok_or("the second cell")?);
    set_link(&mut fact, Reg::A, known.links[0])?;
    set_link(&mut fact, Reg::X, known.links[1])?;
    set_link(&mut fact, Reg::Y, known.links[2])?;
    fact.set_flag(flag_of(known.flag, 2).ok_or("B")?);
    Ok(fact)
}

/// Makes the call.
fn answer(alloc: Global, fact: &mut Fact<Val>, call: &Call) -> Result<bool, Fail>
    requires { length fact.old.cells ≡ 2 }
    ensures { length fact.new.cells ≡ 2 }
{
    let mut spare = Spare::new(alloc, 2)?;
    match call {
        Call::Includes(other) => Ok(fact.includes(&fact_of(alloc, other)?)),
        Call::Joins(other) => Ok(fact.join_with(&fact_of(alloc, other)?)),
        Call::Rounds(numbers) => {
            fact.round(&Thresholds::new(alloc, numbers)?, &mut spare);
            Ok(true)
        }
        Call::Assumes(truth) => Ok(assume(fact, *truth, &mut spare)),
    }
}

#[test]
fn facts_give_the_rows(rt: HostRuntime) -> Result<(), Fail> {
    let alloc = rt.alloc();
    for row in &ROWS {
        let mut fact = fact_of(alloc, &row.before)?;
        assert_eq!(rt; answer(alloc, &mut fact, &row.call)?, row.answer);
        if let Some(after) = &row.after {
            let wanted = fact_of(alloc, after)?;
            assert!(rt; fact.includes(&wanted) && wanted.includes(&fact));
        }
    }
    Ok(())
}

#[test]
fn a_new_fact_says_nothing(rt: HostRuntime) -> Result<(), Fail> {
    let mut fact: Fact<Val> = Fact::new(rt.alloc(), MOST_CELLS)?;
    assert_eq!(rt; fact.count(), 32);
    assert!(rt; !fact.is_empty());
    let mut other: Fact<Val> = Fact::new(rt.alloc(), MOST_CELLS)?;
    other.set_reg(Reg::Y, one(-1).ok_or("-1")?);
    other.set_cell(31, one(5).ok_or("5")?);
    assert!(rt; fact.includes(&other));
    assert!(rt; !other.includes(&fact));
    fact.copy_from(&other);
    assert!(rt; other.includes(&fact));
    assert!(rt; fact.reg(Reg::Y).includes(&other.reg(Reg::Y)));
    assert!(rt; fact.cell(31).includes(&other.cell(31)));
    assert!(rt; fact.link(Reg::X).is_none());
    assert!(rt; matches!(fact.flag(), Flag::Any));
    Ok(())
}
