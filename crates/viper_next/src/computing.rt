ghost use Rattle.std.specs.Prelude.{◌≡◌, ◌||◌, option_map, if◌then◌else◌};
ghost use Rattle.viper_word.specs.Signed.{compares};
ghost use Rattle.viper_word.specs.Machine.{applied, negated, shifted};
ghost use Rattle.viper_decode.specs.Instructions.{code_of, shift_code};

use std::marker::Model;
use viper_decode::{Function, Shift};
use viper_word::{
    Kind, Profile, Word, add_exact, add_wrap, compare, left_through, right_through, sar, shl_exact,
    sub_exact, sub_wrap,
};

/// The result of a function, and B after it.
#[derive(Drop)]
pub(crate) struct Computed {
    pub(crate) value: Word,
    pub(crate) b: bool,
}

impl Model for Computed {
    ghost use Rattle.viper_word.specs.Machine.{Computed as Outcome};

    ghost Value = { Outcome };

    ghost view = { λ e. record { value = e.value.0; b = e.b } };
}

/// What a function comes to in the profile, on the word `r`, the operand `m` and B: the rows are those
/// of docs/MACHINE.md, "Functions". None exactly where the signed result isn't a word's, which stops
/// the machine.
#[tactic(auto, unfolding(viper_word::specs::Machine::applied))]
pub(crate) fn apply(
    profile: Profile,
    function: Function,
    r: Word,
    m: Word,
    b: bool,
) -> Option<Computed>
    ensures { result ≡ applied profile (code_of function) r.0 m.0 b }
{
    macro_rules! functions {
        ($($name:ident => $outcome:expr,)*) => {
            match function {
                $(Function::$name => $outcome,)*
            }
        };
    }
    functions! {
        Neg => negate(profile, m, b),
        Call => keeps(m, b),
        Inp => keeps(m, b),
        Read => keeps(m, b),
        Addb => changes(add_wrap(r, m)),
        Adds => exact(add_exact(r, m), b),
        Subb => changes(sub_wrap(r, m)),
        Subs => exact(sub_exact(r, m), b),
        Xor => keeps(Word(r.0 ^ m.0), b),
        And => keeps(Word(r.0 & m.0), b),
        Nor => keeps(Word(!(r.0 | m.0)), b),
        Andn => keeps(Word(r.0 & !m.0), b),
    }
}

/// A result that leaves B.
fn keeps(value: Word, b: bool) -> Option<Computed>
    ensures { result ≡ Some (record { value = value.0; b = b }) }
{
    Some(Computed { value, b })
}

/// A result that comes with a new B.
fn changes(outcome: (Word, bool)) -> Option<Computed>
    ensures { result ≡ Some (record { value = outcome.0.0; b = outcome.1 }) }
{
    Some(Computed {
        value: outcome.0,
        b: outcome.1,
    })
}

/// A result that leaves B. None exactly where there is none.
fn exact(value: Option<Word>, b: bool) -> Option<Computed>
    ensures { result ≡ option_map (λ w. record { value = w.0; b = b }) value }
{
    Some(Computed { value: value?, b })
}

/// Zero less the operand. Profile 1 wraps it to a word; in profile 2 None comes exactly where no word
/// has it.
#[tactic(auto, unfolding(viper_word::specs::Machine::negated))]
fn negate(profile: Profile, m: Word, b: bool) -> Option<Computed>
    ensures { result ≡ negated profile m.0 b }
{
    match profile {
        Profile::One => keeps(sub_wrap(Word(0), m).0, b),
        Profile::Two => exact(sub_exact(Word(0), m), b),
    }
}

/// A shift by one place: arithmetic right, right through B, left with a zero, left through B. None
/// exactly where the third changes the sign.
#[tactic(auto, unfolding(viper_word::specs::Machine::shifted))]
pub(crate) fn shift(profile: Profile, kind: Shift, r: Word, b: bool) -> Option<Computed>
    ensures { result ≡ shifted profile (shift_code kind) r.0 b }
{
    match kind {
        Shift::Right => match profile {
            Profile::One => keeps(sar(r), b),
            Profile::Two => keeps(sar(r), r.0 % 2 == 1),
        },
        Shift::RightThroughB => changes(right_through(r, b)),
        Shift::Left => exact(shl_exact(r), b),
        Shift::LeftThroughB => changes(left_through(r, b)),
    }
}

/// B after a comparison, which may join the old B by OR.
#[tactic(auto, unfolding(viper_word::specs::Machine::compared))]
pub(crate) fn compared(joins: bool, kind: Kind, r: Word, m: Word, b: bool) -> bool
    ensures { result ≡ (if joins then b || compares kind r.0 m.0 else compares kind r.0 m.0) }
{
    let holds = compare(kind, r, m);
    if joins { b || holds } else { holds }
}
