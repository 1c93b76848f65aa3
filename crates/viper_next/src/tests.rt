use crate::{Cause, Effect, Machine};
use std::test::Fail;
use viper_word::{Addr, Profile, Word};

/// Where a row starts: the profile, P, the one word in memory, which stands there, A, X and B. Y is
/// 0.
struct Before {
    profile: Profile,
    p: u32,
    word: u32,
    a: u32,
    x: u32,
    b: bool,
}

/// P, A, B and the effect after one step. All else is as before.
struct After {
    p: u32,
    a: u32,
    b: bool,
    effect: Effect,
}

macro_rules! rows {
    ($($profile:ident $p:literal $word:literal $a:literal $x:literal $b:literal => $p_after:literal $a_after:literal $b_after:literal $effect:expr,)*) => {
        [$((
            Before { profile: Profile::$profile, p: $p, word: $word, a: $a, x: $x, b: $b },
            After { p: $p_after, a: $a_after, b: $b_after, effect: $effect },
        ),)*]
    };
}

/// The four shifts, the third of which stops; an addition with a carry; a jump at the last address;
/// a jump that is skipped, whose address isn't lawful;
/// and right shifts in both profiles, the second of which puts the lost bit into B.
const ROWS: [(Before, After); 11] = rows! {
    // profile p     word        a           x           b     => p a           b     effect
    One        0        0x00C0_0000 0x8000_0001 0           true  => 1 0xC000_0000 true  Effect::Quiet,
    One        0        0x10C0_0000 0x8000_0001 0           true  => 1 0xC000_0000 true  Effect::Quiet,
    One        0        0x20C0_0000 0x4000_0000 0           false => 1 0x4000_0000 false Effect::Stopped(Cause::Overflow),
    One        0        0x30C0_0000 0x8000_0001 0           true  => 1 0x0000_0003 true  Effect::Quiet,
    One        0        0x0040_0001 0xFFFF_FFFF 0           false => 1 0x0000_0000 true  Effect::Quiet,
    One        0xF_FFFF 0x0630_0000 5           6           true  => 0 5           true  Effect::Stopped(Cause::End),
    One        0        0x2830_0000 5           0xFFFF_FFFF false => 1 5           false Effect::Quiet,
    One        0        0x00C0_0000 0x0000_0003 0           false => 1 0x0000_0001 false Effect::Quiet,
    Two        0        0x00C0_0000 0x0000_0003 0           false => 1 0x0000_0001 true  Effect::Quiet,
    Two        0        0x00C0_0000 0x0000_0002 0           true  => 1 0x0000_0001 false Effect::Quiet,
    Two        0        0x0000_0007 5           0           true  => 1 0xFFFF_FFF9 true  Effect::Quiet,
};

#[test]
fn one_step(rt: HostRuntime) -> Result<(), Fail> {
    for (before, after) in &ROWS {
        let at = Addr::new(before.p).ok_or("an address")?;
        let (a, x, word) = (Word(before.a), Word(before.x), Word(before.word));
        let mut machine = Machine::new(rt.alloc(), before.profile, at, a, x, Word(0), before.b)?;
        machine.load(at, word);
        let stops = matches!(after.effect, Effect::Stopped(_));
        assert_eq!(rt; machine.step(Word(0)), after.effect);
        assert_eq!(rt; machine.p().get(), after.p);
        assert_eq!(rt; machine.a(), Word(after.a));
        assert_eq!(rt; machine.x(), x);
        assert_eq!(rt; machine.y(), Word(0));
        assert_eq!(rt; machine.b(), after.b);
        assert_eq!(rt; machine.stopped(), stops);
        assert_eq!(rt; machine.word_at(at), word);
        assert_eq!(rt; machine.profile(), before.profile);
    }
    Ok(())
}

/// The negation of the least signed number, which stands at address 1: profile 1 wraps it, profile 2
/// stops.
#[test]
fn negation_of_the_least_number(rt: HostRuntime) -> Result<(), Fail> {
    for (profile, effect) in [
        (Profile::One, Effect::Quiet),
        (Profile::Two, Effect::Stopped(Cause::Overflow)),
    ] {
        let first = Addr::new(0).ok_or("an address")?;
        let zero = Word(0);
        let mut machine = Machine::new(rt.alloc(), profile, first, zero, zero, zero, false)?;
        machine.load(first, Word(0x1000_0001));
        machine.load(first.next(), Word(0x8000_0000));
        assert_eq!(rt; machine.step(Word(0)), effect);
    }
    Ok(())
}
