use crate::Val;
use congruence_dom::Congruence;
use interval_dom::Interval;
use num_domain::{NumDomain, Thresholds};
use std::test::Fail;
use viper_word::{GREATEST_SIGNED, Kind, LEAST_SIGNED};

/// The two ends of a value and its modulus, as the tables write it.
type Parts = (i64, i64, i64);

/// All signed values.
const ALL: Parts = (LEAST_SIGNED, GREATEST_SIGNED, 1);

/// The single value of a number that a word can hold.
fn one(n: i64) -> Option<Val> {
    Val::top().narrow(n, n)
}

/// All numbers from `low` to `high`.
fn all(low: i64, high: i64) -> Option<Val> {
    Val::top().narrow(low, high)
}

/// The evenly spaced numbers from `low` to `high` that have `next` among them.
fn spaced(low: i64, next: i64, high: i64) -> Option<Val> {
    Some(one(low)?.join(&one(next)?).join(&one(high)?))
}

/// The value that a table writes so.
fn value(parts: Parts) -> Option<Val> {
    let (low, high, modulus) = parts;
    spaced(low, low.checked_add(modulus)?, high)
}

/// The ends and the modulus.
fn parts(v: Option<Val>) -> Option<Parts> {
    match v {
        Some(v) => Some((v.pair.left.lo, v.pair.left.hi, v.pair.right.modulus)),
        None => None,
    }
}

/// Columns: a call, and the ends and the modulus of its answer.
#[test]
fn gives_the_rows(rt: HostRuntime) -> Result<(), Fail> {
    let fives = spaced(0, 5, 10).ok_or("0..10/5")?;
    let three = one(3).ok_or("3")?;
    let ten = one(10).ok_or("10")?;
    let high = one(GREATEST_SIGNED).ok_or("high")?;
    let four = one(4).ok_or("4")?;
    let signs = all(-1, 5).ok_or("-1..5")?;
    let small = all(0, 10).ok_or("0..10")?;
    let least = all(LEAST_SIGNED, 0).ok_or("low..0")?;
    let rows = [
        (Some(three.join(&one(7).ok_or("7")?)), Some((3, 7, 4))),
        (Some(fives.join(&one(20).ok_or("20")?)), Some((0, 20, 5))),
        (fives.add(&one(1).ok_or("1")?), Some((1, 11, 5))),
        (
            all(GREATEST_SIGNED - 7, GREATEST_SIGNED)
                .ok_or("eight")?
                .add(&four),
            Some((GREATEST_SIGNED - 3, GREATEST_SIGNED, 1)),
        ),
        (high.add(&one(1).ok_or("1")?), None),
        (fives.sar(), Some((0, 5, 1))),
        (spaced(-4, 4, 4).ok_or("-4..4/8")?.sar(), Some((-2, 2, 4))),
        (
            all(-1_073_741_824, 1_073_741_824).ok_or("half")?.shl(),
            Some((LEAST_SIGNED, GREATEST_SIGNED - 1, 2)),
        ),
        (signs.bit_and(&all(0, 3).ok_or("0..3")?), Some((0, 3, 1))),
        (small.xor(&all(0, 5).ok_or("0..5")?), Some((0, 15, 1))),
        (small.nor(&all(0, 5).ok_or("0..5")?), Some((-16, -1, 1))),
        (all(0, 3).ok_or("0..3")?.left_through(None), Some((0, 7, 1))),
        (fives.refine(Kind::Lt, &ten), Some((0, 5, 5))),
        (
            fives.refine(Kind::Eq, &all(3, 8).ok_or("3..8")?),
            Some((5, 5, 0)),
        ),
        (signs.refine(Kind::Ult, &ten), Some((0, 5, 1))),
        (least.neg(), Some((LEAST_SIGNED, GREATEST_SIGNED, 1))),
    ];
    for (got, wanted) in rows {
        assert_eq!(rt; parts(got), wanted);
    }
    Ok(())
}

/// Columns: two values, and their difference.
#[test]
fn subtracts(rt: HostRuntime) -> Result<(), Fail> {
    let rows = [
        ((4, 4, 0), (16, 16, 0), Some((-12, -12, 0))),
        ((-2_147_483_647, -2_147_483_647, 0), (14, 14, 0), None),
        (
            (16_384, 16_438, 6),
            (22, 106, 12),
            Some((16_278, 16_416, 6)),
        ),
        (ALL, (1, 1, 0), Some((LEAST_SIGNED, GREATEST_SIGNED - 1, 1))),
    ];
    for (first, second, wanted) in rows {
        let first = value(first).ok_or("the first value")?;
        let second = value(second).ok_or("the second value")?;
        assert_eq!(rt; parts(first.sub(&second)), wanted);
    }
    Ok(())
}

/// Columns: two values, and their sum wrapped to a word.
#[test]
fn adds_wrapping(rt: HostRuntime) -> Result<(), Fail> {
    let rows = [
        (
            (2_147_483_646, 2_147_483_646, 0),
            (GREATEST_SIGNED, GREATEST_SIGNED, 0),
            Some((-3, -3, 0)),
        ),
        ((-1, 15, 4), (-9, 13, 22), Some((-10, 28, 2))),
        (
            (-2_147_483_646, -2_147_483_628, 6),
            (GREATEST_SIGNED, GREATEST_SIGNED, 0),
            Some((1, 19, 2)),
        ),
        ((-254, 4, 1), (20, 2_147_483_646, 1), Some(ALL)),
    ];
    for (first, second, wanted) in rows {
        let first = value(first).ok_or("the first value")?;
        let second = value(second).ok_or("the second value")?;
        assert_eq!(rt; parts(first.add_wrap(&second)), wanted);
    }
    Ok(())
}

/// Columns: two values, and their difference wrapped to a word.
#[test]
fn subtracts_wrapping(rt: HostRuntime) -> Result<(), Fail> {
    let rows = [
        (
            (512, 512, 0),
            (LEAST_SIGNED, LEAST_SIGNED, 0),
            Some((-2_147_483_136, -2_147_483_136, 0)),
        ),
        ((5, 5, 0), (10, 118, 12), Some((-113, -5, 4))),
        (
            (9, 9, 0),
            (-2_147_483_646, 18, 2),
            Some((-2_147_483_647, 2_147_483_647, 2)),
        ),
    ];
    for (first, second, wanted) in rows {
        let first = value(first).ok_or("the first value")?;
        let second = value(second).ok_or("the second value")?;
        assert_eq!(rt; parts(first.sub_wrap(&second)), wanted);
    }
    Ok(())
}

/// Columns: two values, and the bits of the first that the second hasn't.
#[test]
fn clears_bits(rt: HostRuntime) -> Result<(), Fail> {
    let rows = [
        (
            (-1_495_849_442, -1_495_849_442, 0),
            (-64, -64, 0),
            Some((30, 30, 0)),
        ),
        ((14, 24, 2), (-8, 28, 9), Some((0, 24, 1))),
        ((-2, -2, 0), (-10, 14, 8), Some(ALL)),
    ];
    for (first, second, wanted) in rows {
        let first = value(first).ok_or("the first value")?;
        let second = value(second).ok_or("the second value")?;
        assert_eq!(rt; parts(first.and_not(&second)), wanted);
    }
    Ok(())
}

/// Columns: a value, a number, and the value moved by it.
#[test]
fn moves(rt: HostRuntime) -> Result<(), Fail> {
    let rows = [
        (
            (536_870_912, 536_870_912, 0),
            -1,
            Some((536_870_911, 536_870_911, 0)),
        ),
        ((2_147_483_646, 2_147_483_646, 0), 64, None),
        (
            (-1, 71, 8),
            -2_147_483_647,
            Some((LEAST_SIGNED, -2_147_483_576, 8)),
        ),
        (
            (-7, 21, 28),
            -2_147_483_645,
            Some((-2_147_483_624, -2_147_483_624, 0)),
        ),
    ];
    for (v, by, wanted) in rows {
        let v = value(v).ok_or("the value")?;
        assert_eq!(rt; parts(v.moved(by)), wanted);
    }
    Ok(())
}

/// Columns: a value, the bit that comes in (None: unknown), and the value shifted right.
#[test]
fn shifts_right(rt: HostRuntime) -> Result<(), Fail> {
    let rows = [
        (
            (GREATEST_SIGNED, GREATEST_SIGNED, 0),
            Some(true),
            Some((-1_073_741_825, -1_073_741_825, 0)),
        ),
        (
            (-13, -13, 0),
            Some(false),
            Some((2_147_483_641, 2_147_483_641, 0)),
        ),
        (
            (262_142, 262_160, 2),
            Some(false),
            Some((131_071, 131_080, 1)),
        ),
        ((-15, 20, 5), Some(false), Some((0, GREATEST_SIGNED, 1))),
        ((11, 21, 1), Some(true), Some((LEAST_SIGNED, -1, 1))),
        ((-32_768, -32_768, 0), None, Some(ALL)),
    ];
    for (v, bit, wanted) in rows {
        let v = value(v).ok_or("the value")?;
        assert_eq!(rt; parts(v.right_through(bit)), wanted);
    }
    Ok(())
}

/// Columns: a value, a number, and the least member from it on.
#[test]
fn finds_the_least(rt: HostRuntime) -> Result<(), Fail> {
    let rows = [
        ((9, 9, 0), -1, Some(9)),
        ((24, 24, 0), 134_217_727, None),
        ((-1_323_234_022, 1_912_964_842, 16), -14, Some(-6)),
        ((-2_147_483_645, 18, 2_147_483_663), -5, Some(18)),
        ((-13, 8_388_608, 9), i64::MIN, Some(-13)),
        ((-13, 8_388_608, 9), i64::MAX, None),
    ];
    for (v, from, wanted) in rows {
        let v = value(v).ok_or("the value")?;
        assert_eq!(rt; v.least_from(from), wanted);
    }
    Ok(())
}

/// Columns: a value, a number, and the greatest member up to it.
#[test]
fn finds_the_greatest(rt: HostRuntime) -> Result<(), Fail> {
    let rows = [
        ((14, 14, 0), 511, Some(14)),
        ((18, 18, 0), 4, None),
        ((-1_558_188_565, 2_147_483_643, 2), -4, Some(-5)),
        (
            (-2_147_483_647, 23, 2_147_483_670),
            17,
            Some(-2_147_483_647),
        ),
        ((-13, 8_388_608, 9), i64::MAX, Some(8_388_608)),
        ((-13, 8_388_608, 9), i64::MIN, None),
    ];
    for (v, to, wanted) in rows {
        let v = value(v).ok_or("the value")?;
        assert_eq!(rt; v.greatest_to(to), wanted);
    }
    Ok(())
}

/// Columns: whether all members are the residue plus a multiple of the modulus, and what is wanted.
#[test]
fn is_on_residues(rt: HostRuntime) -> Result<(), Fail> {
    let fourteen = value((14, 14, 0)).ok_or("14")?;
    let sixes = value((2, 20, 6)).ok_or("2..20/6")?;
    let rows = [
        (fourteen.all_on(4, -2), true),
        (fourteen.all_on(4, 1), false),
        (sixes.all_on(3, -1), true),
        (sixes.all_on(3, 1), false),
        (sixes.all_on(4, 2), false),
        (sixes.all_on(1, 5), true),
    ];
    for (got, wanted) in rows {
        assert_eq!(rt; got, wanted);
    }
    Ok(())
}

/// Columns: two values, and whether the first includes the second.
#[test]
fn includes_members(rt: HostRuntime) -> Result<(), Fail> {
    let rows = [
        ((-7, -7, 0), (-7, -7, 0), true),
        ((-7, -7, 0), (-15, -15, 0), false),
        ((2, 20, 2), (8, 14, 6), true),
        ((2, 20, 6), (8, 14, 2), false),
        ((-1_242_312_413, GREATEST_SIGNED, 3), (11, 11, 0), false),
        ((-5, 1_337_752_732, 1), (128, 176, 8), true),
        ((2, 20, 6), (2, 26, 6), false),
    ];
    for (first, second, wanted) in rows {
        let first = value(first).ok_or("the first value")?;
        let second = value(second).ok_or("the second value")?;
        assert_eq!(rt; first.includes(&second), wanted);
    }
    Ok(())
}

/// Columns: a value that is made from numbers, and its ends and modulus.
#[test]
fn makes_values(rt: HostRuntime) -> Result<(), Fail> {
    let rows = [
        (Val::constant(7), (7, 7, 0)),
        (Val::constant(LEAST_SIGNED), (LEAST_SIGNED, LEAST_SIGNED, 0)),
        (Val::span(5, 5, 0), (5, 5, 0)),
        (Val::span(-4, 11, 5), (-4, 11, 5)),
        (Val::span(LEAST_SIGNED, GREATEST_SIGNED, 1), ALL),
        (
            Val::span(LEAST_SIGNED, GREATEST_SIGNED, 4_294_967_295),
            (LEAST_SIGNED, GREATEST_SIGNED, 4_294_967_295),
        ),
    ];
    for (made, wanted) in rows {
        assert_eq!(rt; parts(Some(made)), Some(wanted));
    }
    Ok(())
}

/// The sum of a value and itself, at any domain.
fn doubled<D: NumDomain>(v: &D) -> Option<D> {
    v.add(v)
}

#[test]
fn any_domain_adds(rt: HostRuntime) -> Result<(), Fail> {
    let val = doubled(&one(21).ok_or("21")?);
    assert_eq!(rt; parts(val), Some((42, 42, 0)));
    let interval = doubled(&Interval::top()).ok_or("interval")?;
    assert_eq!(rt; interval, Interval::top());
    let congruence = doubled(&Congruence::top()).ok_or("congruence")?;
    assert_eq!(rt; congruence, Congruence::top());
    Ok(())
}

#[test]
fn rounds_outward(rt: HostRuntime) -> Result<(), Fail> {
    let thresholds = Thresholds::new(rt.alloc(), &[0, 16])
        .ok()
        .ok_or("no memory")?;
    let rounded = all(3, 9).ok_or("3..9")?.round(&thresholds);
    assert_eq!(rt; parts(Some(rounded)), Some((0, 16, 1)));
    Ok(())
}
